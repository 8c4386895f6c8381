ghost use Rattle.std.specs.Prelude.{◌≡◌, None, Some, if◌then◌else◌};
ghost use Rattle.std.specs.List.{list_all};
ghost use Rattle.std.specs.Option.{option_copied};
ghost use Rattle.session.specs.Words.{is_name, is_name_byte};
ghost use Rattle.session.specs.declared.limits.TheConstants.{MAX_FILE_NAME};

// The most bytes of a file's name, as lines have it.
const MAX_NAME: usize = 100;

fn has_only_name_bytes(name: &[u8]) -> bool
    ensures { result ≡ list_all is_name_byte name.now }
{
    name.iter().all(|b| b.is_ascii_alphanumeric() || *b == b'_' || *b == b'.' || *b == b'-')
}

// Whether a line can spell this name of a file.
fn is_file_name(name: &[u8]) -> bool
    ensures { result ≡ is_name MAX_FILE_NAME name.now }
{
    if name.is_empty() || name.len() > MAX_NAME {
        return false;
    }
    if name[0] == b'.' || name[0] == b'-' {
        return false;
    }
    has_only_name_bytes(name)
}

/// The text of a file's name, and `None` where no line can spell it.
#[tactic(auto, using(crate::proofs::Spelled::name_is_text))]
pub fn spelled(name: &[u8]) -> Option<&str>
    ensures { option_copied result ≡ (if is_name MAX_FILE_NAME name.now then Some name.now else None) }
{
    if !is_file_name(name) {
        return None;
    }
    match str::from_utf8(name) {
        Ok(text) => Some(text),
        Err(_) => None,
    }
}
