ghost use Rattle.session.specs.Left.{fault_at, next};
ghost use Rattle.refusals.specs.declared.line_fault.LineFault.TheVariants.{BadWord};
ghost use Rattle.session.specs.Grammar.{choose, layer_lines, Gives, read, add_layer_form, move_layer_form, remove_layer_form, rename_layer_form, show_layer_form};
ghost use Rattle.std.specs.Prelude.{◌≡◌, IfErr};
ghost use Rattle.session.specs.Words.{layer_kind_of, yes_no_of};

use crate::fields::{Fields, known};
use crate::line::Line;
use crate::trail::{Expected, Trail};
use map_model::LayerKind;
use refusals::LineFault;

/// The kind of layer that a word is.
fn layer_kind(word: &str) -> Option<LayerKind>
    ensures { result ≡ layer_kind_of word.now }
{
    match word {
        "tile" => Some(LayerKind::Tile),
        "object" => Some(LayerKind::Object),
        _ => None,
    }
}

/// The yes or no that a word is.
fn yes_no(word: &str) -> Option<bool>
    ensures { result ≡ yes_no_of word.now }
{
    match word {
        "yes" => Some(true),
        "no" => Some(false),
        _ => None,
    }
}

#[tactic(auto, unfolding(crate::specs::Grammar::word_at))]
fn add_layer<'a, T: Trail + Copy>(fields: &mut Fields<'a, T>) -> Result<Line<'a>, LineFault>
    ensures value { Gives (λ x. x) result (read add_layer_form fields.old.words) }
    ensures place { IfErr result (λ _. fields.new.place ≡ fault_at add_layer_form (next fields.old.place) fields.old.words) }
{
    let kind = known(layer_kind(fields.word(Expected::Kind)?))?;
    let name = fields.text()?;
    Ok(Line::AddLayer { kind, name })
}

fn remove_layer<'a, T: Trail + Copy>(fields: &mut Fields<'a, T>) -> Result<Line<'a>, LineFault>
    ensures value { Gives (λ x. x) result (read remove_layer_form fields.old.words) }
    ensures place { IfErr result (λ _. fields.new.place ≡ fault_at remove_layer_form (next fields.old.place) fields.old.words) }
{
    let layer = fields.number()?;
    fields.end()?;
    Ok(Line::RemoveLayer { layer })
}

fn rename_layer<'a, T: Trail + Copy>(fields: &mut Fields<'a, T>) -> Result<Line<'a>, LineFault>
    ensures value { Gives (λ x. x) result (read rename_layer_form fields.old.words) }
    ensures place { IfErr result (λ _. fields.new.place ≡ fault_at rename_layer_form (next fields.old.place) fields.old.words) }
{
    let layer = fields.number()?;
    let name = fields.text()?;
    Ok(Line::RenameLayer { layer, name })
}

#[tactic(auto, unfolding(crate::specs::Grammar::word_at))]
fn show_layer<'a, T: Trail + Copy>(fields: &mut Fields<'a, T>) -> Result<Line<'a>, LineFault>
    ensures value { Gives (λ x. x) result (read show_layer_form fields.old.words) }
    ensures place { IfErr result (λ _. fields.new.place ≡ fault_at show_layer_form (next fields.old.place) fields.old.words) }
{
    let layer = fields.number()?;
    let visible = known(yes_no(fields.word(Expected::YesNo)?))?;
    fields.end()?;
    Ok(Line::ShowLayer { layer, visible })
}

fn move_layer<'a, T: Trail + Copy>(fields: &mut Fields<'a, T>) -> Result<Line<'a>, LineFault>
    ensures value { Gives (λ x. x) result (read move_layer_form fields.old.words) }
    ensures place { IfErr result (λ _. fields.new.place ≡ fault_at move_layer_form (next fields.old.place) fields.old.words) }
{
    let layer = fields.number()?;
    let place = fields.number()?;
    fields.end()?;
    Ok(Line::MoveLayer { layer, place })
}

/// The line of layers that the words behind `layer` are.
pub fn layer<'a, T: Trail + Copy>(fields: &mut Fields<'a, T>) -> Result<Line<'a>, LineFault>
    ensures value { Gives (λ x. x) result (read (choose layer_lines BadWord) fields.old.words) }
    ensures place { IfErr result (λ _. fields.new.place ≡ fault_at (choose layer_lines BadWord) (next fields.old.place) fields.old.words) }
{
    let action = fields.word(Expected::Action)?;
    match action {
        "add" => add_layer(fields),
        "remove" => remove_layer(fields),
        "rename" => rename_layer(fields),
        "show" => show_layer(fields),
        "move" => move_layer(fields),
        _ => Err(LineFault::BadWord),
    }
}
