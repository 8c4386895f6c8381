/// What the name of a new file ends with.
const END: &[u8] = b".new";

/// The number of a new file of this name, if it is one: between what such names begin and end with.
pub(crate) fn number_of(name: &[u8], start: &[u8]) -> Option<u64> {
    let digits = name.strip_prefix(start)?.strip_suffix(END)?;
    let Ok(text) = str::from_utf8(digits) else {
        return None;
    };
    match text.parse::<u64>() {
        Ok(number) => Some(number),
        Err(_) => None,
    }
}
