// A way over the bytes of a JSON text, which stops at the first byte that no JSON could have there.
use crate::lexemes::{InNumber, InText, is_whole_number, number_after, text_after, word_behind};
use std::alloc::{AllocError, Global};

/// How deep the reader lets arrays and objects nest.
const MAX_DEPTH: usize = 127;

/// An array or an object that has begun and not ended.
#[derive(Clone, Copy)]
struct Level {
    is_object: bool,
    /// How many commas stand in it so far.
    commas: usize,
}

// What may stand next.
#[derive(Clone, Copy)]
enum Next {
    /// A value, and whether the end of the array may stand here as well.
    Value(bool),
    /// The name of a member, and whether the end of the object may stand here as well.
    Name(bool),
    Colon,
    /// What stands behind a value.
    Behind,
    /// More of a text, and whether it is the name of a member.
    Text(InText, bool),
    Number(InNumber),
    /// The rest of a word.
    Word(&'static [u8]),
}

/// How far a text is JSON.
#[derive(Drop)]
pub struct Scan {
    levels: Vec<Level>,
    next: Next,
    at: usize,
    /// Where the last number begins.
    number: usize,
    name: (usize, usize),
}

/// Whether a byte stands between tokens.
pub fn is_blank(byte: u8) -> bool {
    byte == b' ' || byte == b'\t' || byte == b'\r' || byte == b'\n'
}

impl Scan {
    /// At the beginning.
    pub fn new(alloc: Global) -> Scan {
        Scan {
            levels: Vec::new(alloc),
            next: Next::Value(false),
            at: 0,
            number: 0,
            name: (0, 0),
        }
    }

    /// How many arrays and objects have begun and not ended.
    pub fn depth(&self) -> usize {
        self.levels.len()
    }

    /// Where the number begins that may end behind the last byte; none where there is no such number.
    pub fn whole_number(&self) -> Option<usize> {
        match self.next {
            Next::Number(before) if is_whole_number(before) => Some(self.number),
            _ => None,
        }
    }

    /// Where the last name of a member begins and ends, with its quotes.
    pub fn name(&self) -> (usize, usize) {
        self.name
    }

    /// The index of the element that comes next in the innermost array; none in an object, or outside of both.
    pub fn index(&self) -> Option<usize> {
        match self.levels.last() {
            Some(
                Level {
                    is_object: false,
                    commas,
                },
            ) => Some(*commas),
            _ => None,
        }
    }

    /// Whether the text may end here.
    pub fn may_end(&self) -> bool {
        let has_ended = match self.next {
            Next::Behind => true,
            Next::Number(before) => is_whole_number(before),
            _ => false,
        };
        has_ended && self.levels.is_empty()
    }

    /// Whether a value begins with this byte, if it is the next one of a JSON text.
    pub fn begins_value(&self, byte: u8) -> bool {
        match self.next {
            Next::Value(_) => !is_blank(byte) && byte != b']',
            _ => false,
        }
    }

    // Begins an array or an object, if it does not stand too deep.
    fn open(&mut self, is_object: bool) -> Result<bool, AllocError> {
        if self.levels.len() >= MAX_DEPTH {
            return Ok(false);
        }
        self.levels.push(Level {
            is_object,
            commas: 0,
        })?;
        self.next = if is_object {
            Next::Name(true)
        } else {
            Next::Value(true)
        };
        Ok(true)
    }

    // Ends the innermost array or object.
    fn close(&mut self) -> bool {
        self.levels.pop();
        self.next = Next::Behind;
        true
    }

    fn goes_on(&mut self, next: Next) -> bool {
        self.next = next;
        true
    }

    // A value begins.
    fn begin(&mut self, byte: u8) -> Result<bool, AllocError> {
        if byte == b'{' || byte == b'[' {
            return self.open(byte == b'{');
        }
        if byte == b'"' {
            return Ok(self.goes_on(Next::Text(InText::Letter, false)));
        }
        if let Some(rest) = word_behind(byte) {
            return Ok(self.goes_on(Next::Word(rest)));
        }
        match number_after(InNumber::Nothing, byte) {
            Some(before) => {
                self.number = self.at;
                Ok(self.goes_on(Next::Number(before)))
            }
            None => Ok(false),
        }
    }

    // Behind a value.
    fn go_behind(&mut self, byte: u8) -> bool {
        let is_object = match self.levels.last_mut() {
            Some(level) => {
                if byte == b',' {
                    level.commas = level.commas.saturating_add(1);
                }
                level.is_object
            }
            None => return is_blank(byte) && self.goes_on(Next::Behind),
        };
        match byte {
            b',' if is_object => self.goes_on(Next::Name(false)),
            b',' => self.goes_on(Next::Value(false)),
            b'}' if is_object => self.close(),
            b']' if !is_object => self.close(),
            _ => is_blank(byte) && self.goes_on(Next::Behind),
        }
    }

    // In a text.
    fn go_in_text(&mut self, next: InText, is_name: bool, byte: u8) -> bool {
        match text_after(next, byte) {
            Some(InText::End) if is_name => {
                self.name = (self.name.0, self.at.saturating_add(1));
                self.goes_on(Next::Colon)
            }
            Some(InText::End) => self.goes_on(Next::Behind),
            Some(then) => self.goes_on(Next::Text(then, is_name)),
            None => false,
        }
    }

    // In a number, or at its end.
    fn go_in_number(&mut self, before: InNumber, byte: u8) -> bool {
        match number_after(before, byte) {
            Some(then) => self.goes_on(Next::Number(then)),
            None => is_whole_number(before) && self.go_behind(byte),
        }
    }

    fn go_in_word(&mut self, rest: &'static [u8], byte: u8) -> bool {
        match rest {
            [wanted] => *wanted == byte && self.goes_on(Next::Behind),
            [wanted, more @ ..] => *wanted == byte && self.goes_on(Next::Word(more)),
            [] => false,
        }
    }

    // Where a name may stand.
    fn go_to_name(&mut self, may_end: bool, byte: u8) -> bool {
        match byte {
            b'"' => {
                self.name = (self.at, self.at);
                self.goes_on(Next::Text(InText::Letter, true))
            }
            b'}' if may_end => self.close(),
            _ => is_blank(byte),
        }
    }

    // Where a value may stand.
    fn go_to_value(&mut self, may_end: bool, byte: u8) -> Result<bool, AllocError> {
        if is_blank(byte) {
            return Ok(true);
        }
        if byte == b']' && may_end {
            return Ok(self.close());
        }
        self.begin(byte)
    }

    fn go(&mut self, byte: u8) -> Result<bool, AllocError> {
        match self.next {
            Next::Value(may_end) => self.go_to_value(may_end, byte),
            Next::Name(may_end) => Ok(self.go_to_name(may_end, byte)),
            Next::Colon if byte == b':' => Ok(self.goes_on(Next::Value(false))),
            Next::Colon => Ok(is_blank(byte)),
            Next::Behind => Ok(self.go_behind(byte)),
            Next::Text(next, is_name) => Ok(self.go_in_text(next, is_name, byte)),
            Next::Number(before) => Ok(self.go_in_number(before, byte)),
            Next::Word(rest) => Ok(self.go_in_word(rest, byte)),
        }
    }

    /// Goes over the next byte, and gives whether a JSON text could have it there.
    pub fn step(&mut self, byte: u8) -> Result<bool, AllocError> {
        let goes_on = self.go(byte)?;
        self.at = self.at.saturating_add(1);
        Ok(goes_on)
    }
}
