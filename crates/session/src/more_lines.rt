// The lines for all edits.
ghost use Rattle.std.specs.Prelude.{◌≡◌, ◌∷◌, IfErr, IfOk, true};
ghost use Rattle.refusals.specs.declared.line_fault.LineFault.TheVariants.{BadWord, UnknownCommand};
ghost use Rattle.session.specs.Grammar.{Gives, choose, read};
ghost use Rattle.session.specs.Left.{fault_at, next};
ghost use Rattle.session.specs.MoreGrammar.{extend_form, more_form, more_layer_kinds, more_layer_lines, more_line_of, more_object_lines, more_property_lines, more_tileset_lines, number_tileset_form, put_layer_form, put_object_form, put_property_form, put_tileset_form, reparent_layer_form, reparent_object_form, take_property_form};
ghost use Rattle.session.specs.MoreFaults.{IsMoreFaultAt};
ghost use Rattle.session.specs.MoreSpelling.{CanBeSpelledMore, more_spelling};
ghost use Rattle.session.specs.WordFaults.{is_at_more_word};

use crate::fields::{Fields, known};
use crate::limits::MAX_LINE;
use crate::member_lines::member;
use crate::more_line::MoreLine;
use crate::parse::text_of;
use crate::property_lines::owner;
use crate::trail::{Expected, NoTrail, Trail};
use crate::words::cut;
use map_model::MoreLayerKind;
use refusals::LineFault;

fn add_layer<'a, T: Trail + Copy>(fields: &mut Fields<'a, T>) -> Result<MoreLine<'a>, LineFault>
    ensures value { Gives (λ x. x) result (read (choose more_layer_kinds BadWord) fields.old.words) }
    ensures place { IfErr result (λ _. fields.new.place ≡ fault_at (choose more_layer_kinds BadWord) (next fields.old.place) fields.old.words) }
{
    let kind = match fields.word(Expected::AnyKind)? {
        "group" => MoreLayerKind::Group,
        "image" => MoreLayerKind::Image,
        _ => return Err(LineFault::BadWord),
    };
    let name = fields.text()?;
    Ok(MoreLine::AddLayer { kind, name })
}

fn reparent_layer<'a, T: Trail + Copy>(
    fields: &mut Fields<'a, T>,
) -> Result<MoreLine<'a>, LineFault>
    ensures value { Gives (λ x. x) result (read reparent_layer_form fields.old.words) }
    ensures place { IfErr result (λ _. fields.new.place ≡ fault_at reparent_layer_form (next fields.old.place) fields.old.words) }
{
    let layer = fields.number()?;
    let group = fields.number()?;
    let place = fields.number()?;
    fields.end()?;
    Ok(MoreLine::ReparentLayer {
        layer,
        group,
        place,
    })
}

fn put_layer<'a, T: Trail + Copy>(fields: &mut Fields<'a, T>) -> Result<MoreLine<'a>, LineFault>
    ensures value { Gives (λ x. x) result (read put_layer_form fields.old.words) }
    ensures place { IfErr result (λ _. fields.new.place ≡ fault_at put_layer_form (next fields.old.place) fields.old.words) }
{
    let group = fields.number()?;
    let place = fields.number()?;
    let json = fields.json()?;
    Ok(MoreLine::PutLayer { group, place, json })
}

// The line of layers that the words behind `layer` are.
fn layer<'a, T: Trail + Copy>(fields: &mut Fields<'a, T>) -> Result<MoreLine<'a>, LineFault>
    ensures value { Gives (λ x. x) result (read (choose more_layer_lines BadWord) fields.old.words) }
    ensures place { IfErr result (λ _. fields.new.place ≡ fault_at (choose more_layer_lines BadWord) (next fields.old.place) fields.old.words) }
{
    match fields.word(Expected::Action)? {
        "add" => add_layer(fields),
        "into" => reparent_layer(fields),
        "put" => put_layer(fields),
        _ => Err(LineFault::BadWord),
    }
}

fn put_object<'a, T: Trail + Copy>(fields: &mut Fields<'a, T>) -> Result<MoreLine<'a>, LineFault>
    ensures value { Gives (λ x. x) result (read put_object_form fields.old.words) }
    ensures place { IfErr result (λ _. fields.new.place ≡ fault_at put_object_form (next fields.old.place) fields.old.words) }
{
    let layer = fields.number()?;
    let json = fields.json()?;
    Ok(MoreLine::PutObject { layer, json })
}

fn reparent_object<'a, T: Trail + Copy>(
    fields: &mut Fields<'a, T>,
) -> Result<MoreLine<'a>, LineFault>
    ensures value { Gives (λ x. x) result (read reparent_object_form fields.old.words) }
    ensures place { IfErr result (λ _. fields.new.place ≡ fault_at reparent_object_form (next fields.old.place) fields.old.words) }
{
    let object = fields.number()?;
    let layer = fields.number()?;
    let place = fields.number()?;
    fields.end()?;
    Ok(MoreLine::ReparentObject {
        object,
        layer,
        place,
    })
}

// The line of objects that the words behind `object` are.
fn object<'a, T: Trail + Copy>(fields: &mut Fields<'a, T>) -> Result<MoreLine<'a>, LineFault>
    ensures value { Gives (λ x. x) result (read (choose more_object_lines BadWord) fields.old.words) }
    ensures place { IfErr result (λ _. fields.new.place ≡ fault_at (choose more_object_lines BadWord) (next fields.old.place) fields.old.words) }
{
    match fields.word(Expected::Action)? {
        "put" => put_object(fields),
        "into" => reparent_object(fields),
        _ => Err(LineFault::BadWord),
    }
}

#[tactic(auto, unfolding(crate::specs::Grammar::word_at))]
fn take_property<'a, T: Trail + Copy>(fields: &mut Fields<'a, T>) -> Result<MoreLine<'a>, LineFault>
    ensures value { Gives (λ x. x) result (read take_property_form fields.old.words) }
    ensures place { IfErr result (λ _. fields.new.place ≡ fault_at take_property_form (next fields.old.place) fields.old.words) }
{
    let owner = known(owner(fields.word(Expected::Owner)?))?;
    let json = fields.json()?;
    Ok(MoreLine::TakeProperty { owner, json })
}

#[tactic(auto, unfolding(crate::specs::Grammar::word_at))]
fn put_property<'a, T: Trail + Copy>(fields: &mut Fields<'a, T>) -> Result<MoreLine<'a>, LineFault>
    ensures value { Gives (λ x. x) result (read put_property_form fields.old.words) }
    ensures place { IfErr result (λ _. fields.new.place ≡ fault_at put_property_form (next fields.old.place) fields.old.words) }
{
    let owner = known(owner(fields.word(Expected::Owner)?))?;
    let json = fields.json()?;
    Ok(MoreLine::PutProperty { owner, json })
}

// The line of properties that the words behind `prop` are.
fn property<'a, T: Trail + Copy>(fields: &mut Fields<'a, T>) -> Result<MoreLine<'a>, LineFault>
    ensures value { Gives (λ x. x) result (read (choose more_property_lines BadWord) fields.old.words) }
    ensures place { IfErr result (λ _. fields.new.place ≡ fault_at (choose more_property_lines BadWord) (next fields.old.place) fields.old.words) }
{
    match fields.word(Expected::Action)? {
        "take" => take_property(fields),
        "put" => put_property(fields),
        _ => Err(LineFault::BadWord),
    }
}

fn put_tileset<'a, T: Trail + Copy>(fields: &mut Fields<'a, T>) -> Result<MoreLine<'a>, LineFault>
    ensures value { Gives (λ x. x) result (read put_tileset_form fields.old.words) }
    ensures place { IfErr result (λ _. fields.new.place ≡ fault_at put_tileset_form (next fields.old.place) fields.old.words) }
{
    let json = fields.json()?;
    Ok(MoreLine::PutTileset { json })
}

fn number_tileset<'a, T: Trail + Copy>(
    fields: &mut Fields<'a, T>,
) -> Result<MoreLine<'a>, LineFault>
    ensures value { Gives (λ x. x) result (read number_tileset_form fields.old.words) }
    ensures place { IfErr result (λ _. fields.new.place ≡ fault_at number_tileset_form (next fields.old.place) fields.old.words) }
{
    let first_id = fields.number()?;
    let number = fields.number()?;
    fields.end()?;
    Ok(MoreLine::NumberTileset { first_id, number })
}

// The line of tilesets that the words behind `tileset` are.
fn tileset<'a, T: Trail + Copy>(fields: &mut Fields<'a, T>) -> Result<MoreLine<'a>, LineFault>
    ensures value { Gives (λ x. x) result (read (choose more_tileset_lines BadWord) fields.old.words) }
    ensures place { IfErr result (λ _. fields.new.place ≡ fault_at (choose more_tileset_lines BadWord) (next fields.old.place) fields.old.words) }
{
    match fields.word(Expected::Action)? {
        "put" => put_tileset(fields),
        "number" => number_tileset(fields),
        _ => Err(LineFault::BadWord),
    }
}

fn extend<'a, T: Trail + Copy>(fields: &mut Fields<'a, T>) -> Result<MoreLine<'a>, LineFault>
    ensures value { Gives (λ x. x) result (read extend_form fields.old.words) }
    ensures place { IfErr result (λ _. fields.new.place ≡ fault_at extend_form (next fields.old.place) fields.old.words) }
{
    let left = fields.number()?;
    let top = fields.number()?;
    let right = fields.number()?;
    let bottom = fields.number()?;
    fields.end()?;
    Ok(MoreLine::Extend {
        left,
        top,
        right,
        bottom,
    })
}

fn more<'a, T: Trail + Copy>(
    name: &str,
    fields: &mut Fields<'a, T>,
) -> Result<MoreLine<'a>, LineFault>
    ensures value { Gives (λ x. x) result (read more_form (name.now ∷ fields.old.words)) }
    ensures place { IfErr result (λ _. fields.new.place ≡ fault_at more_form fields.old.place (name.now ∷ fields.old.words)) }
{
    match name {
        "member" => member(fields),
        "layer" => layer(fields),
        "object" => object(fields),
        "prop" => property(fields),
        "tileset" => tileset(fields),
        "extend" => extend(fields),
        _ => Err(LineFault::UnknownCommand),
    }
}

// The line for all edits that the bytes are. The trail of the fields is told of each word that is wanted, from the first on.
#[tactic(auto, unfolding(crate::specs::MoreGrammar::more_line_of))]
fn read_more_line<'a, T: Trail + Copy>(
    bytes: &'a [u8],
    fields: &mut Fields<'a, T>,
) -> Result<MoreLine<'a>, LineFault>
    ensures value { Gives (λ x. x) result (more_line_of bytes.now) }
    ensures spelled { IfOk result (λ line. (bytes.now ≡ more_spelling line) × CanBeSpelledMore line) }
    ensures fault { fields.old.place ≡ 0 → is_at_more_word (more_line_of bytes.now) ≡ true → IsMoreFaultAt fields.new.place bytes.now }
{
    if bytes.len() > MAX_LINE {
        return Err(LineFault::TooLong);
    }
    let Some(text) = text_of(bytes) else {
        return Err(LineFault::NotUtf8);
    };
    let (name, rest) = cut(text, b' ');
    fields.begin(rest);
    more(name, fields)
}

/// The line for all edits that the bytes are, without a newline. None of them is a line that `parse_line` reads.
pub fn parse_more_line(bytes: &[u8]) -> Result<MoreLine<'_>, LineFault>
    ensures value { Gives (λ x. x) result (more_line_of bytes.now) }
    ensures spelled { IfOk result (λ line. (bytes.now ≡ more_spelling line) × CanBeSpelledMore line) }
{
    read_more_line(bytes, &mut Fields::new(NoTrail))
}

/// What `parse_more_line` answers. The trail is told of each word that is wanted, from the first on.
///
/// After `UnknownCommand` and `BadWord` the word that was wanted last is the one at fault. It may be missing, or be one too many.
/// Of a line that is too long or not UTF-8 nothing is told.
pub fn parse_more_line_along<'a, T: Trail + Copy>(
    bytes: &'a [u8],
    trail: &mut T,
) -> Result<MoreLine<'a>, LineFault>
    ensures value { Gives (λ x. x) result (more_line_of bytes.now) }
    ensures spelled { IfOk result (λ line. (bytes.now ≡ more_spelling line) × CanBeSpelledMore line) }
    ensures fault { T.place trail.old ≡ 0 → is_at_more_word (more_line_of bytes.now) ≡ true → IsMoreFaultAt (T.place trail.new) bytes.now }
{
    let mut fields = Fields::new(*trail);
    let line = read_more_line(bytes, &mut fields);
    *trail = fields.trail();
    line
}
