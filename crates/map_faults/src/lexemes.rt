// The texts and the numbers of JSON, one byte after the other.

/// What may stand next in a text.
#[derive(Clone, Copy)]
pub enum InText {
    Letter,
    Escape,
    /// The first digit of an escaped number.
    Digit,
    /// The second one behind `d`: from 8 on the number is one of a pair.
    DigitBehindD,
    /// So many digits more, and whether the number is the first of a pair.
    Digits(u8, bool),
    /// The second number of a pair, one byte after the other.
    PairBackslash,
    PairU,
    PairD,
    PairDigit,
    End,
}

/// What may stand behind a byte; none where no text has that byte there.
pub fn text_after(next: InText, byte: u8) -> Option<InText> {
    let then = match (next, byte) {
        (InText::Letter, b'"') => InText::End,
        (InText::Letter, b'\\') => InText::Escape,
        (InText::Letter, 0x20..=0xff) => InText::Letter,
        (InText::Escape, b'u') => InText::Digit,
        (InText::Escape, b'"' | b'\\' | b'/' | b'b' | b'f' | b'n' | b'r' | b't') => InText::Letter,
        (InText::Digit, b'd' | b'D') => InText::DigitBehindD,
        (InText::Digit, _) if byte.is_ascii_hexdigit() => InText::Digits(3, false),
        (InText::DigitBehindD, b'0'..=b'7') => InText::Digits(2, false),
        (InText::DigitBehindD, b'8' | b'9' | b'a' | b'b' | b'A' | b'B') => InText::Digits(2, true),
        (InText::Digits(left, is_first), _) if byte.is_ascii_hexdigit() => match (left, is_first) {
            (2..=3, _) => InText::Digits(left - 1, is_first),
            (_, true) => InText::PairBackslash,
            (_, false) => InText::Letter,
        },
        (InText::PairBackslash, b'\\') => InText::PairU,
        (InText::PairU, b'u') => InText::PairD,
        (InText::PairD, b'd' | b'D') => InText::PairDigit,
        (InText::PairDigit, b'c'..=b'f' | b'C'..=b'F') => InText::Digits(2, false),
        _ => return None,
    };
    Some(then)
}

/// What of a number stands before.
#[derive(Clone, Copy)]
pub enum InNumber {
    Nothing,
    Minus,
    Zero,
    Whole,
    Point,
    Fraction,
    Exponent,
    Sign,
    Power,
}

/// What stands before the byte behind this one; none where no number has this byte here.
pub fn number_after(before: InNumber, byte: u8) -> Option<InNumber> {
    let then = match (before, byte) {
        (InNumber::Nothing, b'-') => InNumber::Minus,
        (InNumber::Nothing | InNumber::Minus, b'0') => InNumber::Zero,
        (InNumber::Nothing | InNumber::Minus | InNumber::Whole, b'0'..=b'9') => InNumber::Whole,
        (InNumber::Zero | InNumber::Whole, b'.') => InNumber::Point,
        (InNumber::Point | InNumber::Fraction, b'0'..=b'9') => InNumber::Fraction,
        (InNumber::Zero | InNumber::Whole | InNumber::Fraction, b'e' | b'E') => InNumber::Exponent,
        (InNumber::Exponent, b'+' | b'-') => InNumber::Sign,
        (InNumber::Exponent | InNumber::Sign | InNumber::Power, b'0'..=b'9') => InNumber::Power,
        _ => return None,
    };
    Some(then)
}

/// Whether a number may end here.
pub fn is_whole_number(before: InNumber) -> bool {
    match before {
        InNumber::Zero | InNumber::Whole | InNumber::Fraction | InNumber::Power => true,
        InNumber::Nothing
        | InNumber::Minus
        | InNumber::Point
        | InNumber::Exponent
        | InNumber::Sign => false,
    }
}

/// The bytes behind the first one of a word of JSON; none where no word begins so.
pub fn word_behind(first: u8) -> Option<&'static [u8]> {
    match first {
        b't' => Some(b"rue"),
        b'f' => Some(b"alse"),
        b'n' => Some(b"ull"),
        _ => None,
    }
}
