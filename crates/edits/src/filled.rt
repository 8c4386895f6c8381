// The changes that a fill makes.
ghost use Rattle.std.specs.Prelude.{◌≡◌, ◌≢◌, ℕ, ◌+◌, ◌-◌, ◌*◌, ◌<◌, ◌≤◌, [], ◌∷◌, ◌++◌, if◌then◌else◌, IfOk, OnOk, true, length};
ghost use Rattle.edits.specs.Covering.{covered};
ghost use Rattle.map_model.specs.Alike.{AreAlike};
ghost use Rattle.map_model.specs.Difference.{difference};
ghost use Rattle.edits.specs.Filling.{fill_over};
ghost use Rattle.edits.specs.Flooding.{HasCell, IsGround, IsSound, changes_below, free_in, is_taken};
ghost use Rattle.edits.specs.Marks.{room};
ghost use Rattle.edits.specs.Stretches.{IsRowStart, stretch_edits};
ghost use Rattle.map_model.specs.declared.limits.TheConstants.{MAX_SIDE};

use crate::flood::Spread;
use crate::ground::Ground;
use map_model::CellEdit;
use region::Region;
use std::alloc::{AllocError, Global};
use tile_id::Gid;

/// Cells of a row side by side: from the first column to before the end.
#[derive(Clone, Copy)]
struct Stretch {
    y: u32,
    first: u32,
    end: u32,
}

/// A row, and the number of its first cell.
#[derive(Clone, Copy)]
struct RowStart {
    y: u32,
    number: usize,
}

impl RowStart {
    // The row of a number that is not before this one: mostly this row.
    fn row_of(self, ground: &Ground<'_>, number: usize) -> RowStart
        requires ground { IsGround ground.now }
        requires row { IsRowStart ground.now.width self }
        requires from { self.number ≤ number }
        requires within { number < length ground.now.tiles.now }
        ensures row { IsRowStart ground.now.width result }
        ensures from { result.number ≤ number }
        ensures to { number - result.number < ground.now.width }
    {
        let width = ground.width as usize;
        if number - self.number < width {
            return self;
        }
        RowStart {
            y: (number / width) as u32,
            number: number - number % width,
        }
    }
}

// Adds the changes of the cells of a stretch, all of which have one value before and one after.
fn push_stretch(
    cells: &mut Vec<CellEdit>,
    stretch: Stretch,
    before: Gid,
    after: Gid,
) -> Result<(), AllocError>
    requires some { stretch.first ≤ stretch.end }
    requires column { stretch.end ≤ MAX_SIDE }
    requires row { stretch.y < MAX_SIDE }
    ensures { OnOk result (cells.new.items ≡ cells.old.items ++ stretch_edits stretch.y stretch.first before after (stretch.end - stretch.first)) }
{
    cells.reserve((stretch.end - stretch.first) as usize)?;
    for x in stretch.first..stretch.end {
        cells.push_reserved(CellEdit {
            x: x as u16,
            y: stretch.y as u16,
            before,
            after,
        });
    }
    Ok(())
}

// Adds the changes of the taken cells of a word, one by one.
fn push_bits(
    cells: &mut Vec<CellEdit>,
    ground: &Ground<'_>,
    spread: &Spread,
    word: usize,
    value: Gid,
) -> Result<(), AllocError>
    requires ground { IsGround ground.now }
    requires sound { IsSound ground.now spread.now }
    requires free { (q : ℕ × ℕ) → is_taken ground.now spread.now q ≡ true → free_in ground.now q ≡ true }
    requires other { ground.now.value ≢ value }
    requires within { 64 * word < room spread.now.open }
    requires so_far { cells.old.items ≡ changes_below ground.now spread.now value (64 * word) }
    ensures { OnOk result (cells.new.items ≡ changes_below ground.now spread.now value (64 * word + 64)) }
{
    let mut row = RowStart { y: 0, number: 0 };
    let mut left = spread.taken_bits(word);
    while left != 0 {
        let bit = left.trailing_zeros();
        let number = 64 * word + bit as usize;
        row = row.row_of(ground, number);
        cells.push(CellEdit {
            x: (number - row.number) as u16,
            y: row.y as u16,
            before: ground.value,
            after: value,
        })?;
        left &= !(1u64 << bit);
    }
    Ok(())
}

// Adds the changes of the taken cells of a word: in one loop, where all of them are taken and stand in one row.
#[inline(never)]
fn push_taken(
    cells: &mut Vec<CellEdit>,
    ground: &Ground<'_>,
    spread: &Spread,
    word: usize,
    value: Gid,
) -> Result<(), AllocError>
    requires ground { IsGround ground.now }
    requires sound { IsSound ground.now spread.now }
    requires free { (q : ℕ × ℕ) → is_taken ground.now spread.now q ≡ true → free_in ground.now q ≡ true }
    requires other { ground.now.value ≢ value }
    requires within { 64 * word < room spread.now.open }
    requires so_far { cells.old.items ≡ changes_below ground.now spread.now value (64 * word) }
    ensures { OnOk result (cells.new.items ≡ changes_below ground.now spread.now value (64 * word + 64)) }
{
    if spread.taken_bits(word) == u64::MAX {
        let row = RowStart { y: 0, number: 0 }.row_of(ground, 64 * word);
        let first = (64 * word - row.number) as u32;
        if first + 64 <= ground.width {
            let stretch = Stretch {
                y: row.y,
                first,
                end: first + 64,
            };
            push_stretch(cells, stretch, ground.value, value)?;
            return Ok(());
        }
    }
    push_bits(cells, ground, spread, word, value)?;
    Ok(())
}

// Adds the changes of the taken cells of a word, if there are any.
#[inline(always)]
fn push_word(
    cells: &mut Vec<CellEdit>,
    ground: &Ground<'_>,
    spread: &Spread,
    word: usize,
    value: Gid,
) -> Result<(), AllocError>
    requires ground { IsGround ground.now }
    requires sound { IsSound ground.now spread.now }
    requires free { (q : ℕ × ℕ) → is_taken ground.now spread.now q ≡ true → free_in ground.now q ≡ true }
    requires other { ground.now.value ≢ value }
    requires within { 64 * word < room spread.now.open }
    requires so_far { cells.old.items ≡ changes_below ground.now spread.now value (64 * word) }
    ensures { OnOk result (cells.new.items ≡ changes_below ground.now spread.now value (64 * word + 64)) }
{
    let taken = spread.taken_bits(word);
    if taken == 0 {
        return Ok(());
    }
    push_taken(cells, ground, spread, word, value)
}

// The changes of the cells that a fill has taken: each gets the value.
fn changes_of(
    alloc: Global,
    ground: &Ground<'_>,
    spread: &Spread,
    value: Gid,
) -> Result<Vec<CellEdit>, AllocError>
    requires ground { IsGround ground.now }
    requires sound { IsSound ground.now spread.now }
    requires free { (q : ℕ × ℕ) → is_taken ground.now spread.now q ≡ true → free_in ground.now q ≡ true }
    requires other { ground.now.value ≢ value }
    ensures cells { IfOk result (λ cells. cells.items ≡ changes_below ground.now spread.now value (length ground.now.tiles.now)) }
    ensures alike { IfOk result (λ cells. AreAlike cells.items) }
{
    let mut cells = Vec::with_capacity(alloc, spread.count)?;
    for word in spread.first.min(spread.end)..spread.end {
        push_word(&mut cells, ground, spread, word, value)?;
    }
    Ok(cells)
}

// The change of the start of a fill alone, where it may be changed.
fn change_of_start(
    alloc: Global,
    ground: &Ground<'_>,
    value: Gid,
) -> Result<Vec<CellEdit>, AllocError>
    requires { IsGround ground.now }
    ensures { IfOk result (λ cells. cells.items ≡ (if free_in ground.now (ground.now.start.0, ground.now.start.1)
        then record { x = ground.now.start.0; y = ground.now.start.1; before = ground.now.value; after = value } ∷ [] else [])) }
{
    let (x, y) = ground.start;
    let mut cells = Vec::new(alloc);
    if ground.is_free_cell(x, y) {
        cells.push(CellEdit {
            x: x as u16,
            y: y as u16,
            before: ground.value,
            after: value,
        })?;
    }
    Ok(cells)
}

/// The changes of a fill of a layer of this width: each cell that is joined to the start takes the value.
///
/// They come in row order, each cell once, with unequal values before and after. All of them have one value before and one
/// after.
pub(crate) fn fill_cells(
    alloc: Global,
    tiles: &[Gid],
    width: u32,
    selection: &Region,
    start: (u32, u32),
    value: Gid,
) -> Result<Vec<CellEdit>, AllocError>
    requires { HasCell width tiles.now start.0 start.1 }
    ensures cells { IfOk result (λ cells. cells.items ≡ difference width tiles.now
        (covered width (fill_over width tiles.now selection.now (start.0, start.1) value) tiles.now) (length tiles.now)) }
    ensures alike { IfOk result (λ cells. AreAlike cells.items) }
{
    let ground = Ground::new(tiles, width, selection, start);
    if ground.value == value {
        return Ok(Vec::new(alloc));
    }
    if !ground.has_free_neighbour() {
        let change = change_of_start(alloc, &ground, value)?;
        return Ok(change);
    }
    let spread = Spread::over(alloc, &ground)?;
    let cells = changes_of(alloc, &ground, &spread, value)?;
    Ok(cells)
}
