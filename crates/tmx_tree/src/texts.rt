// Texts that are one of a few.
ghost use Rattle.std.specs.Prelude.{◌≡◌, map};
ghost use Rattle.tmx_tree.specs.Texts.{is_one_of, one_of};

/// Whether a text is one of these.
pub fn is_one_of(names: &[&str], text: &str) -> bool
    ensures { result ≡ is_one_of (map (λ name. name.now) names.now) text.now }
{
    for name in names {
        if text == *name {
            return true;
        }
    }
    false
}

/// The text if it is one of these, else another.
pub fn one_of<'a>(names: &[&str], other: &'a str, text: &'a str) -> &'a str
    ensures { result.now ≡ one_of (map (λ name. name.now) names.now) other.now text.now }
{
    if is_one_of(names, text) { text } else { other }
}
