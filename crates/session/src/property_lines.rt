ghost use Rattle.session.specs.Left.{fault_at, next};
ghost use Rattle.std.specs.Prelude.{◌≡◌, IfErr};
ghost use Rattle.std.specs.List.{list_all};
ghost use Rattle.session.specs.declared.line.Line.{Line};
ghost use Rattle.session.specs.declared.line.Line.TheVariants.{SetProperty};
ghost use Rattle.refusals.specs.declared.line_fault.LineFault.TheVariants.{BadWord};
ghost use Rattle.session.specs.declared.typed_value.TypedValue.{TypedValue};
ghost use Rattle.session.specs.Grammar.{choose, property_lines, passing, value_types, Gives, read, remove_property_form, set_property_form};
ghost use Rattle.session.specs.Words.{is_color, is_color_digit, is_key, is_key_byte, owner_of, owner_with, truth_of};

use crate::fields::{Fields, known};
use crate::limits::MAX_KEY;
use crate::line::Line;
use crate::text::Text;
use crate::trail::{Expected, Trail};
use crate::typed_value::TypedValue;
use crate::words::{cut, number_before};
use map_model::Owner;
use refusals::LineFault;

fn has_only_key_bytes(bytes: &[u8]) -> bool
    ensures { result ≡ list_all is_key_byte bytes.now }
{
    bytes.iter().all(|b| *b >= 33 && *b != 127)
}

// Whether a word can be the name of a property.
fn is_key_word(word: &[u8]) -> bool
    ensures { result ≡ is_key word.now }
{
    if word.is_empty() || word.len() > MAX_KEY {
        return false;
    }
    has_only_key_bytes(word)
}

/// The property's name that a word is.
pub fn key(word: &str) -> Option<Text<'_>>
    ensures { result ≡ passing is_key word.now }
{
    if !is_key_word(word.as_bytes()) {
        return None;
    }
    Some(Text::new(word))
}

fn has_only_color_digits(bytes: &[u8]) -> bool
    ensures { result ≡ list_all is_color_digit bytes.now }
{
    bytes
        .iter()
        .all(|b| b.is_ascii_digit() || (*b >= b'a' && *b <= b'f'))
}

// Whether a word is a colour: `#` and 6 or 8 digits.
fn is_color_word(word: &[u8]) -> bool
    ensures { result ≡ is_color word.now }
{
    match word {
        [b'#', digits @ ..] => {
            (digits.len() == 6 || digits.len() == 8) && has_only_color_digits(digits)
        }
        _ => false,
    }
}

// The colour that a word is.
fn color(word: &str) -> Option<Text<'_>>
    ensures { result ≡ passing is_color word.now }
{
    if !is_color_word(word.as_bytes()) {
        return None;
    }
    Some(Text::new(word))
}

// True or false.
fn truth(word: &str) -> Option<bool>
    ensures { result ≡ truth_of word.now }
{
    match word {
        "true" => Some(true),
        "false" => Some(false),
        _ => None,
    }
}

// The owner of this kind with an id.
fn owner_of_kind(kind: &str, id: u32) -> Option<Owner>
    ensures { result ≡ owner_with kind.now id }
{
    match kind {
        "layer" => Some(Owner::Layer(id)),
        "object" => Some(Owner::Object(id)),
        _ => None,
    }
}

/// The owner that a word is.
pub fn owner(word: &str) -> Option<Owner>
    ensures { result ≡ owner_of word.now }
{
    let (kind, id) = cut(word, b':');
    let Some(id) = id else {
        return if kind == "map" {
            Some(Owner::Map)
        } else {
            None
        };
    };
    match number_before(id, b':') {
        Some((id, None)) => owner_of_kind(kind, id),
        Some((_, Some(_))) => None,
        None => None,
    }
}

// A property's type and value, which are all that is left.
#[tactic(auto, unfolding(crate::specs::Grammar::word_at))]
fn typed_value<'a, T: Trail + Copy>(fields: &mut Fields<'a, T>) -> Result<TypedValue<'a>, LineFault>
    ensures value { (line : TypedValue → Line) → Gives line result (read (choose (value_types line) BadWord) fields.old.words) }
    ensures place { (line : TypedValue → Line) → IfErr result (λ _. fields.new.place ≡ fault_at (choose (value_types line) BadWord) (next fields.old.place) fields.old.words) }
{
    let type_name = fields.word(Expected::Type)?;
    let value = match type_name {
        "string" => return Ok(TypedValue::String(fields.text()?)),
        "file" => return Ok(TypedValue::File(fields.text()?)),
        "int" => TypedValue::Int(fields.coordinate()?),
        "bool" => TypedValue::Bool(known(truth(fields.word(Expected::Truth)?))?),
        "color" => TypedValue::Color(known(color(fields.word(Expected::Color)?))?),
        "object" => TypedValue::Object(fields.number()?),
        _ => return Err(LineFault::BadWord),
    };
    fields.end()?;
    Ok(value)
}

// The line that sets a property, from its type on.
fn set_typed<'a, T: Trail + Copy>(
    owner: Owner,
    name: Text<'a>,
    follows: bool,
    fields: &mut Fields<'a, T>,
) -> Result<Line<'a>, LineFault>
    ensures value { Gives (λ x. x) result (read (choose (value_types (λ value. SetProperty owner name.entry value follows)) BadWord) fields.old.words) }
    ensures place { IfErr result (λ _. fields.new.place ≡ fault_at (choose (value_types (λ value. SetProperty owner name.entry value follows)) BadWord) (next fields.old.place) fields.old.words) }
{
    match typed_value(fields) {
        Ok(value) => Ok(Line::SetProperty {
            owner,
            name,
            value,
            follows,
        }),
        Err(fault) => Err(fault),
    }
}

#[tactic(auto, unfolding(crate::specs::Grammar::word_at))]
fn set_property<'a, T: Trail + Copy>(
    follows: bool,
    fields: &mut Fields<'a, T>,
) -> Result<Line<'a>, LineFault>
    ensures value { Gives (λ x. x) result (read (set_property_form follows) fields.old.words) }
    ensures place { IfErr result (λ _. fields.new.place ≡ fault_at (set_property_form follows) (next fields.old.place) fields.old.words) }
{
    let owner = known(owner(fields.word(Expected::Owner)?))?;
    let name = known(key(fields.word(Expected::Key)?))?;
    set_typed(owner, name, follows, fields)
}

#[tactic(auto, unfolding(crate::specs::Grammar::word_at))]
fn remove_property<'a, T: Trail + Copy>(fields: &mut Fields<'a, T>) -> Result<Line<'a>, LineFault>
    ensures value { Gives (λ x. x) result (read remove_property_form fields.old.words) }
    ensures place { IfErr result (λ _. fields.new.place ≡ fault_at remove_property_form (next fields.old.place) fields.old.words) }
{
    let owner = known(owner(fields.word(Expected::Owner)?))?;
    let name = known(key(fields.word(Expected::Key)?))?;
    fields.end()?;
    Ok(Line::RemoveProperty { owner, name })
}

/// The line of properties that the words behind `prop` are.
pub fn property<'a, T: Trail + Copy>(fields: &mut Fields<'a, T>) -> Result<Line<'a>, LineFault>
    ensures value { Gives (λ x. x) result (read (choose property_lines BadWord) fields.old.words) }
    ensures place { IfErr result (λ _. fields.new.place ≡ fault_at (choose property_lines BadWord) (next fields.old.place) fields.old.words) }
{
    let action = fields.word(Expected::Action)?;
    match action {
        "set" => set_property(false, fields),
        "set+" => set_property(true, fields),
        "remove" => remove_property(fields),
        _ => Err(LineFault::BadWord),
    }
}
