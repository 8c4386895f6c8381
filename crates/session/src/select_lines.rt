ghost use Rattle.std.specs.Prelude.{◌≡◌, IfErr};
ghost use Rattle.session.specs.Left.{fault_at, next};
ghost use Rattle.refusals.specs.declared.line_fault.LineFault.TheVariants.{BadWord};
ghost use Rattle.session.specs.declared.line.Line.TheVariants.{SelectNone};
ghost use Rattle.session.specs.Grammar.{choose, select_lines, Ends, Gives, read, select_form};

use crate::fields::Fields;
use crate::line::Line;
use crate::trail::{Expected, Trail};
use map_model::SelectionMode;
use refusals::LineFault;

fn select_rectangle<'a, T: Trail + Copy>(
    mode: SelectionMode,
    fields: &mut Fields<'a, T>,
) -> Result<Line<'a>, LineFault>
    ensures value { Gives (λ x. x) result (read (select_form mode) fields.old.words) }
    ensures place { IfErr result (λ _. fields.new.place ≡ fault_at (select_form mode) (next fields.old.place) fields.old.words) }
{
    let x = fields.coordinate()?;
    let y = fields.coordinate()?;
    let width = fields.number()?;
    let height = fields.number()?;
    fields.end()?;
    Ok(Line::Select {
        mode,
        x,
        y,
        width,
        height,
    })
}

fn select_none<'a, T: Trail + Copy>(fields: &mut Fields<'a, T>) -> Result<Line<'a>, LineFault>
    ensures value { Gives (λ x. x) result (read (Ends SelectNone) fields.old.words) }
    ensures place { IfErr result (λ _. fields.new.place ≡ fault_at (Ends SelectNone) (next fields.old.place) fields.old.words) }
{
    fields.end()?;
    Ok(Line::SelectNone)
}

/// The line of selecting that the words behind `select` are.
pub fn select<'a, T: Trail + Copy>(fields: &mut Fields<'a, T>) -> Result<Line<'a>, LineFault>
    ensures value { Gives (λ x. x) result (read (choose select_lines BadWord) fields.old.words) }
    ensures place { IfErr result (λ _. fields.new.place ≡ fault_at (choose select_lines BadWord) (next fields.old.place) fields.old.words) }
{
    let way = fields.word(Expected::Action)?;
    match way {
        "replace" => select_rectangle(SelectionMode::Replace, fields),
        "add" => select_rectangle(SelectionMode::Add, fields),
        "subtract" => select_rectangle(SelectionMode::Subtract, fields),
        "intersect" => select_rectangle(SelectionMode::Intersect, fields),
        "none" => select_none(fields),
        _ => Err(LineFault::BadWord),
    }
}
