ghost use Rattle.std.specs.Prelude.{◌≡◌, IfErr};
ghost use Rattle.session.specs.Left.{fault_at, next};
ghost use Rattle.refusals.specs.declared.line_fault.LineFault.TheVariants.{BadWord};
ghost use Rattle.session.specs.Grammar.{choose, tileset_lines, Gives, read, add_tileset_form, remove_tileset_form};

use crate::fields::Fields;
use crate::line::Line;
use crate::trail::{Expected, Trail};
use refusals::LineFault;

fn add_tileset<'a, T: Trail + Copy>(fields: &mut Fields<'a, T>) -> Result<Line<'a>, LineFault>
    ensures value { Gives (λ x. x) result (read add_tileset_form fields.old.words) }
    ensures place { IfErr result (λ _. fields.new.place ≡ fault_at add_tileset_form (next fields.old.place) fields.old.words) }
{
    let first_id = fields.number()?;
    let source = fields.text()?;
    Ok(Line::AddTileset { first_id, source })
}

fn remove_tileset<'a, T: Trail + Copy>(fields: &mut Fields<'a, T>) -> Result<Line<'a>, LineFault>
    ensures value { Gives (λ x. x) result (read remove_tileset_form fields.old.words) }
    ensures place { IfErr result (λ _. fields.new.place ≡ fault_at remove_tileset_form (next fields.old.place) fields.old.words) }
{
    let first_id = fields.number()?;
    fields.end()?;
    Ok(Line::RemoveTileset { first_id })
}

/// The line of tilesets that the words behind `tileset` are.
pub fn tileset<'a, T: Trail + Copy>(fields: &mut Fields<'a, T>) -> Result<Line<'a>, LineFault>
    ensures value { Gives (λ x. x) result (read (choose tileset_lines BadWord) fields.old.words) }
    ensures place { IfErr result (λ _. fields.new.place ≡ fault_at (choose tileset_lines BadWord) (next fields.old.place) fields.old.words) }
{
    let action = fields.word(Expected::Action)?;
    match action {
        "add" => add_tileset(fields),
        "remove" => remove_tileset(fields),
        _ => Err(LineFault::BadWord),
    }
}
