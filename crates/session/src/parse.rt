ghost use Rattle.session.specs.Faults.{IsFaultAt};
ghost use Rattle.session.specs.Left.{fault_at, next};
ghost use Rattle.session.specs.WordFaults.{is_at_word};
ghost use Rattle.session.specs.Grammar.{Gives, read, choose, Ends, line_form, rare_commands, is_quiet, line_of, begin_form, erase_form, fill_form, close_form, discard_form, goto_form, limit_form, new_form, open_form, resize_form, save_form, stamp_form, step_text_form, tile_form, use_form};
ghost use Rattle.session.specs.Spelling.{Says, CanBeSpelled};
ghost use Rattle.refusals.specs.declared.line_fault.LineFault.TheVariants.{UnknownCommand};
ghost use Rattle.std.specs.Prelude.{◌≡◌, ◌==◌, ◌∷◌, IfOk, IfErr, IfSome, IfNone, true};
ghost use Rattle.std.specs.Str.{IsUtf8};
ghost use Rattle.std.specs.List.{list_all};

use crate::fields::Fields;
use crate::layer_lines::layer;
use crate::limits::MAX_LINE;
use crate::line::Line;
use crate::object_lines::object;
use crate::property_lines::property;
use crate::select_lines::select;
use crate::tileset_lines::tileset;
use crate::trail::{Expected, NoTrail, Trail};
use crate::words::cut;
use refusals::LineFault;
use tile_id::Gid;

fn new<'a, T: Trail + Copy>(fields: &mut Fields<'a, T>) -> Result<Line<'a>, LineFault>
    ensures value { Gives (λ x. x) result (read new_form fields.old.words) }
    ensures place { IfErr result (λ _. fields.new.place ≡ fault_at new_form (next fields.old.place) fields.old.words) }
{
    let name = fields.document_name()?;
    let width = fields.number()?;
    let height = fields.number()?;
    let tile_width = fields.number()?;
    let tile_height = fields.number()?;
    let source = fields.text()?;
    Ok(Line::New {
        name,
        width,
        height,
        tile_width,
        tile_height,
        source,
    })
}

fn open_file<'a, T: Trail + Copy>(fields: &mut Fields<'a, T>) -> Result<Line<'a>, LineFault>
    ensures value { Gives (λ x. x) result (read open_form fields.old.words) }
    ensures place { IfErr result (λ _. fields.new.place ≡ fault_at open_form (next fields.old.place) fields.old.words) }
{
    let name = fields.document_name()?;
    let file = fields.file_name()?;
    fields.end()?;
    Ok(Line::Open { name, file })
}

fn save<'a, T: Trail + Copy>(fields: &mut Fields<'a, T>) -> Result<Line<'a>, LineFault>
    ensures value { Gives (λ x. x) result (read save_form fields.old.words) }
    ensures place { IfErr result (λ _. fields.new.place ≡ fault_at save_form (next fields.old.place) fields.old.words) }
{
    let file = fields.file_name()?;
    fields.end()?;
    Ok(Line::Save { file })
}

fn close<'a, T: Trail + Copy>(fields: &mut Fields<'a, T>) -> Result<Line<'a>, LineFault>
    ensures value { Gives (λ x. x) result (read close_form fields.old.words) }
    ensures place { IfErr result (λ _. fields.new.place ≡ fault_at close_form (next fields.old.place) fields.old.words) }
{
    let name = fields.document_name()?;
    fields.end()?;
    Ok(Line::Close { name })
}

fn discard<'a, T: Trail + Copy>(fields: &mut Fields<'a, T>) -> Result<Line<'a>, LineFault>
    ensures value { Gives (λ x. x) result (read discard_form fields.old.words) }
    ensures place { IfErr result (λ _. fields.new.place ≡ fault_at discard_form (next fields.old.place) fields.old.words) }
{
    let name = fields.document_name()?;
    fields.end()?;
    Ok(Line::Discard { name })
}

fn choose_document<'a, T: Trail + Copy>(fields: &mut Fields<'a, T>) -> Result<Line<'a>, LineFault>
    ensures value { Gives (λ x. x) result (read use_form fields.old.words) }
    ensures place { IfErr result (λ _. fields.new.place ≡ fault_at use_form (next fields.old.place) fields.old.words) }
{
    let choice = fields.choice()?;
    fields.end()?;
    Ok(Line::Use { choice })
}

fn stamp<'a, T: Trail + Copy>(
    follows: bool,
    fields: &mut Fields<'a, T>,
) -> Result<Line<'a>, LineFault>
    ensures value { Gives (λ x. x) result (read (stamp_form follows) fields.old.words) }
    ensures place { IfErr result (λ _. fields.new.place ≡ fault_at (stamp_form follows) (next fields.old.place) fields.old.words) }
{
    let layer = fields.number()?;
    let x = fields.coordinate()?;
    let y = fields.coordinate()?;
    let (width, values) = fields.block()?;
    fields.end()?;
    Ok(Line::Stamp {
        layer,
        x,
        y,
        width,
        values,
        follows,
    })
}

fn erase<'a, T: Trail + Copy>(
    follows: bool,
    fields: &mut Fields<'a, T>,
) -> Result<Line<'a>, LineFault>
    ensures value { Gives (λ x. x) result (read (erase_form follows) fields.old.words) }
    ensures place { IfErr result (λ _. fields.new.place ≡ fault_at (erase_form follows) (next fields.old.place) fields.old.words) }
{
    let layer = fields.number()?;
    let x = fields.coordinate()?;
    let y = fields.coordinate()?;
    let width = fields.number()?;
    let height = fields.number()?;
    fields.end()?;
    Ok(Line::Erase {
        layer,
        x,
        y,
        width,
        height,
        follows,
    })
}

fn fill<'a, T: Trail + Copy>(fields: &mut Fields<'a, T>) -> Result<Line<'a>, LineFault>
    ensures value { Gives (λ x. x) result (read fill_form fields.old.words) }
    ensures place { IfErr result (λ _. fields.new.place ≡ fault_at fill_form (next fields.old.place) fields.old.words) }
{
    let layer = fields.number()?;
    let x = fields.coordinate()?;
    let y = fields.coordinate()?;
    let value = fields.number()?;
    fields.end()?;
    Ok(Line::Fill {
        layer,
        x,
        y,
        value: Gid(value),
    })
}

fn tile<'a, T: Trail + Copy>(fields: &mut Fields<'a, T>) -> Result<Line<'a>, LineFault>
    ensures value { Gives (λ x. x) result (read tile_form fields.old.words) }
    ensures place { IfErr result (λ _. fields.new.place ≡ fault_at tile_form (next fields.old.place) fields.old.words) }
{
    let layer = fields.number()?;
    let x = fields.coordinate()?;
    let y = fields.coordinate()?;
    fields.end()?;
    Ok(Line::Tile { layer, x, y })
}

fn resize<'a, T: Trail + Copy>(fields: &mut Fields<'a, T>) -> Result<Line<'a>, LineFault>
    ensures value { Gives (λ x. x) result (read resize_form fields.old.words) }
    ensures place { IfErr result (λ _. fields.new.place ≡ fault_at resize_form (next fields.old.place) fields.old.words) }
{
    let width = fields.number()?;
    let height = fields.number()?;
    let dx = fields.coordinate()?;
    let dy = fields.coordinate()?;
    fields.end()?;
    Ok(Line::Resize {
        width,
        height,
        dx,
        dy,
    })
}

// A line of one word.
fn bare<'a, T: Trail + Copy>(
    line: Line<'a>,
    fields: &mut Fields<'a, T>,
) -> Result<Line<'a>, LineFault>
    ensures value { Gives (λ x. x) result (read (Ends line.entry) fields.old.words) }
    ensures place { IfErr result (λ _. fields.new.place ≡ fault_at (Ends line.entry) (next fields.old.place) fields.old.words) }
{
    fields.end()?;
    Ok(line)
}

fn goto<'a, T: Trail + Copy>(fields: &mut Fields<'a, T>) -> Result<Line<'a>, LineFault>
    ensures value { Gives (λ x. x) result (read goto_form fields.old.words) }
    ensures place { IfErr result (λ _. fields.new.place ≡ fault_at goto_form (next fields.old.place) fields.old.words) }
{
    let index = fields.number()?;
    fields.end()?;
    Ok(Line::Goto { index })
}

fn begin<'a, T: Trail + Copy>(fields: &mut Fields<'a, T>) -> Result<Line<'a>, LineFault>
    ensures value { Gives (λ x. x) result (read begin_form fields.old.words) }
    ensures place { IfErr result (λ _. fields.new.place ≡ fault_at begin_form (next fields.old.place) fields.old.words) }
{
    let (text, action) = fields.texts()?;
    Ok(Line::Begin { text, action })
}

fn limit<'a, T: Trail + Copy>(fields: &mut Fields<'a, T>) -> Result<Line<'a>, LineFault>
    ensures value { Gives (λ x. x) result (read limit_form fields.old.words) }
    ensures place { IfErr result (λ _. fields.new.place ≡ fault_at limit_form (next fields.old.place) fields.old.words) }
{
    let limit = fields.number()?;
    fields.end()?;
    Ok(Line::Limit { limit })
}

fn step_text<'a, T: Trail + Copy>(fields: &mut Fields<'a, T>) -> Result<Line<'a>, LineFault>
    ensures value { Gives (λ x. x) result (read step_text_form fields.old.words) }
    ensures place { IfErr result (λ _. fields.new.place ≡ fault_at step_text_form (next fields.old.place) fields.old.words) }
{
    let number = fields.number()?;
    fields.end()?;
    Ok(Line::StepText { number })
}

// A line of the commands that are not common. They have a frame of their own, since a function pays at its entry for all
// that its arms hand on.
#[inline(never)]
fn rare_command<'a, T: Trail + Copy>(
    name: &str,
    fields: &mut Fields<'a, T>,
) -> Result<Line<'a>, LineFault>
    ensures value { Gives (λ x. x) result (read (choose rare_commands UnknownCommand) (name.now ∷ fields.old.words)) }
    ensures place { IfErr result (λ _. fields.new.place ≡ fault_at (choose rare_commands UnknownCommand) fields.old.place (name.now ∷ fields.old.words)) }
{
    match name {
        "begin" => begin(fields),
        "end" => bare(Line::End, fields),
        "select" => select(fields),
        "layer" => layer(fields),
        "prop" => property(fields),
        "erase+" => erase(true, fields),
        "tileset" => tileset(fields),
        "resize" => resize(fields),
        "text" => step_text(fields),
        "clean" => bare(Line::Clean, fields),
        "dirty" => bare(Line::Dirty, fields),
        "clear" => bare(Line::Clear, fields),
        "limit" => limit(fields),
        "show" => bare(Line::Show, fields),
        "new" => new(fields),
        "open" => open_file(fields),
        "save" => save(fields),
        "close" => close(fields),
        "discard" => discard(fields),
        "list" => bare(Line::Documents, fields),
        _ => Err(LineFault::UnknownCommand),
    }
}

fn command<'a, T: Trail + Copy>(
    name: &str,
    fields: &mut Fields<'a, T>,
) -> Result<Line<'a>, LineFault>
    ensures value { Gives (λ x. x) result (read line_form (name.now ∷ fields.old.words)) }
    ensures place { IfErr result (λ _. fields.new.place ≡ fault_at line_form fields.old.place (name.now ∷ fields.old.words)) }
{
    // The words of most lines stand first, since they are compared one after the other.
    match name {
        "stamp" | "stamp+" => stamp(name == "stamp+", fields),
        "undo" => bare(Line::Undo, fields),
        "redo" => bare(Line::Redo, fields),
        "tile" => tile(fields),
        "use" => choose_document(fields),
        "status" => bare(Line::Status, fields),
        "undotext" => bare(Line::UndoText, fields),
        "redotext" => bare(Line::RedoText, fields),
        "object" => object(fields),
        "goto" => goto(fields),
        "erase" => erase(false, fields),
        "fill" => fill(fields),
        _ => rare_command(name, fields),
    }
}

fn has_only_spaces(bytes: &[u8]) -> bool
    ensures { result ≡ list_all (λ b. b == 32) bytes.now }
{
    bytes.iter().all(|b| *b == b' ')
}

fn is_quiet_line(bytes: &[u8]) -> bool
    ensures { result ≡ is_quiet bytes.now }
{
    if bytes.is_empty() {
        return true;
    }
    if bytes[0] == b'#' {
        return true;
    }
    has_only_spaces(bytes)
}

/// The bytes as text. Nearly all lines are ASCII, and that is seen eight bytes at a time.
// (inlined into both readers, with a trail and without)
#[inline(always)]
pub fn text_of(bytes: &[u8]) -> Option<&str>
    ensures some { IfSome result (λ text. (text.now ≡ bytes.now) × IsUtf8 bytes.now) }
    ensures none { IfNone result (IsUtf8 bytes.now → ⊥) }
{
    if bytes.is_ascii() {
        // SAFETY: ASCII is UTF-8.
        return Some(unsafe { str::from_utf8_unchecked(bytes) });
    }
    str::from_utf8(bytes).ok()
}

// The line that the bytes are. The trail of the fields is told of each word that is wanted, from the first on.
#[inline(always)]
#[tactic(auto, unfolding(crate::specs::Grammar::line_of))]
fn read_line<'a, T: Trail + Copy>(
    bytes: &'a [u8],
    fields: &mut Fields<'a, T>,
) -> Result<Line<'a>, LineFault>
    ensures value { Gives (λ x. x) result (line_of bytes.now) }
    ensures says { IfOk result (Says bytes.now) }
    ensures spelled { IfOk result CanBeSpelled }
    ensures fault { fields.old.place ≡ 0 → is_at_word (line_of bytes.now) ≡ true → IsFaultAt fields.new.place bytes.now }
{
    if bytes.len() > MAX_LINE {
        return Err(LineFault::TooLong);
    }
    let Some(text) = text_of(bytes) else {
        return Err(LineFault::NotUtf8);
    };
    if is_quiet_line(bytes) {
        return Ok(Line::Quiet);
    }
    let (name, rest) = cut(text, b' ');
    fields.begin(rest);
    command(name, fields)
}

/// The line that the bytes are, without a newline.
// (inlined, since a line that is handed back is copied twice)
#[inline(always)]
pub fn parse_line(bytes: &[u8]) -> Result<Line<'_>, LineFault>
    ensures value { Gives (λ x. x) result (line_of bytes.now) }
    ensures says { IfOk result (Says bytes.now) }
    ensures spelled { IfOk result CanBeSpelled }
{
    read_line(bytes, &mut Fields::new(NoTrail))
}

/// What `parse_line` answers. The trail is told of each word that is wanted, from the first on.
///
/// After `UnknownCommand` and `BadWord` the word that was wanted last is the one at fault. It may be missing, or be one too many.
/// Of a line that is too long, not UTF-8 or quiet nothing is told.
pub fn parse_line_along<'a, T: Trail + Copy>(
    bytes: &'a [u8],
    trail: &mut T,
) -> Result<Line<'a>, LineFault>
    ensures value { Gives (λ x. x) result (line_of bytes.now) }
    ensures says { IfOk result (Says bytes.now) }
    ensures spelled { IfOk result CanBeSpelled }
    ensures fault { T.place trail.old ≡ 0 → is_at_word (line_of bytes.now) ≡ true → IsFaultAt (T.place trail.new) bytes.now }
{
    let mut fields = Fields::new(*trail);
    let line = read_line(bytes, &mut fields);
    *trail = fields.trail();
    line
}
