ghost use Rattle.std.specs.Prelude.{◌≡◌, IfErr};
ghost use Rattle.session.specs.Left.{fault_at, next};
ghost use Rattle.refusals.specs.declared.line_fault.LineFault.TheVariants.{BadWord};
ghost use Rattle.session.specs.Grammar.{choose, object_lines, Gives, read, add_object_form, move_object_form, remove_object_form, resize_object_form};

use crate::fields::Fields;
use crate::line::Line;
use crate::trail::{Expected, Trail};
use refusals::LineFault;

fn add_object<'a, T: Trail + Copy>(fields: &mut Fields<'a, T>) -> Result<Line<'a>, LineFault>
    ensures value { Gives (λ x. x) result (read add_object_form fields.old.words) }
    ensures place { IfErr result (λ _. fields.new.place ≡ fault_at add_object_form (next fields.old.place) fields.old.words) }
{
    let layer = fields.number()?;
    let x = fields.coordinate()?;
    let y = fields.coordinate()?;
    let width = fields.number()?;
    let height = fields.number()?;
    let name = fields.text()?;
    Ok(Line::AddObject {
        layer,
        x,
        y,
        width,
        height,
        name,
    })
}

fn move_object<'a, T: Trail + Copy>(
    follows: bool,
    fields: &mut Fields<'a, T>,
) -> Result<Line<'a>, LineFault>
    ensures value { Gives (λ x. x) result (read (move_object_form follows) fields.old.words) }
    ensures place { IfErr result (λ _. fields.new.place ≡ fault_at (move_object_form follows) (next fields.old.place) fields.old.words) }
{
    let object = fields.number()?;
    let x = fields.coordinate()?;
    let y = fields.coordinate()?;
    fields.end()?;
    Ok(Line::MoveObject {
        object,
        x,
        y,
        follows,
    })
}

fn resize_object<'a, T: Trail + Copy>(fields: &mut Fields<'a, T>) -> Result<Line<'a>, LineFault>
    ensures value { Gives (λ x. x) result (read resize_object_form fields.old.words) }
    ensures place { IfErr result (λ _. fields.new.place ≡ fault_at resize_object_form (next fields.old.place) fields.old.words) }
{
    let object = fields.number()?;
    let width = fields.number()?;
    let height = fields.number()?;
    fields.end()?;
    Ok(Line::ResizeObject {
        object,
        width,
        height,
    })
}

fn remove_object<'a, T: Trail + Copy>(fields: &mut Fields<'a, T>) -> Result<Line<'a>, LineFault>
    ensures value { Gives (λ x. x) result (read remove_object_form fields.old.words) }
    ensures place { IfErr result (λ _. fields.new.place ≡ fault_at remove_object_form (next fields.old.place) fields.old.words) }
{
    let object = fields.number()?;
    fields.end()?;
    Ok(Line::RemoveObject { object })
}

/// The line of objects that the words behind `object` are. It has a frame of its own, as the rare commands have.
#[inline(never)]
pub fn object<'a, T: Trail + Copy>(fields: &mut Fields<'a, T>) -> Result<Line<'a>, LineFault>
    ensures value { Gives (λ x. x) result (read (choose object_lines BadWord) fields.old.words) }
    ensures place { IfErr result (λ _. fields.new.place ≡ fault_at (choose object_lines BadWord) (next fields.old.place) fields.old.words) }
{
    let action = fields.word(Expected::Action)?;
    match action {
        "move" | "move+" => move_object(action == "move+", fields),
        "add" => add_object(fields),
        "resize" => resize_object(fields),
        "remove" => remove_object(fields),
        _ => Err(LineFault::BadWord),
    }
}
