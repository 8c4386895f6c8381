// What a fill goes over.
ghost use Rattle.std.specs.Prelude.{◌≡◌, ℕ, ◌+◌, ◌*◌, ◌/◌, ◌%◌, ◌<◌, ◌≤◌, ◌^◌, ◌≢◌, IfOk, true, length, nat_eq, slice_get};
ghost use Rattle.std.specs.Int.{bit_at};
ghost use Rattle.map_model.specs.declared.limits.TheConstants.{MAX_SIDE};
ghost use Rattle.edits.specs.Flooding.{AreAllowed, AreSelected, AreSideBySide, HasCell, IsGround, IsGroundOf, IsLed, free_at, free_in, start_of};
ghost use Rattle.edits.specs.Joining.{any_neighbour, is_value};
ghost use Rattle.edits.specs.Marks.{room};

use crate::extent::lets_change;
use crate::marks::Marks;
use region::Region;
use std::alloc::{AllocError, Global};
use tile_id::Gid;

/// The values of a layer, row by row, the cell that a fill starts from, that cell's value, and the selected cells: where
/// there are none, every cell may be changed.
#[derive(Clone, Copy)]
pub(crate) struct Ground<'a> {
    pub tiles: &'a [Gid],
    pub width: u32,
    pub height: u32,
    pub start: (u32, u32),
    pub value: Gid,
    pub selection: &'a Region,
}

// Marks of the numbers of the cells that are selected.
fn selected_numbers(
    alloc: Global,
    selection: &Region,
    width: u32,
    height: u32,
) -> Result<Marks, AllocError>
    requires narrow { width ≤ MAX_SIDE }
    requires low { height ≤ MAX_SIDE }
    ensures room { IfOk result (λ marks. room marks ≡ 64 * (height * width / 64 + 1)) }
    ensures cells { IfOk result (AreSelected width (height * width) selection.now) }
{
    let mut marks = Marks::new(alloc, height as usize * width as usize)?;
    for run in selection.rows() {
        // The runs come in row order.
        if run.y >= height {
            break;
        }
        if run.x >= width {
            continue;
        }
        let row = run.y as usize * width as usize;
        if run.len == 1 {
            marks.mark_one(row + run.x as usize);
        } else {
            let end = width.min(run.x + run.len);
            marks.mark(row + run.x as usize, row + end as usize);
        }
    }
    Ok(marks)
}

impl<'a> Ground<'a> {
    /// What a fill of a layer of this width goes over, from a start.
    pub(crate) fn new(
        tiles: &'a [Gid],
        width: u32,
        selection: &'a Region,
        start: (u32, u32),
    ) -> Ground<'a>
        requires { HasCell width tiles.now start.0 start.1 }
        ensures { IsGroundOf width tiles.now selection.now start.0 start.1 result }
    {
        let (x, y) = start;
        let value = tiles[y as usize * width as usize + x as usize];
        let height = (tiles.len() / width as usize) as u32;
        Ground {
            tiles,
            width,
            height,
            start,
            value,
            selection,
        }
    }
}

impl Ground<'_> {
    /// Whether a fill may take a cell.
    pub(crate) fn is_free_cell(&self, x: u32, y: u32) -> bool
        requires { IsGround self.now }
        ensures { result ≡ free_in self.now (x, y) }
    {
        if x >= self.width {
            return false;
        }
        let number = y as usize * self.width as usize + x as usize;
        if number >= self.tiles.len() || self.tiles[number] != self.value {
            return false;
        }
        lets_change(self.selection, x, y)
    }

    /// Whether a fill may take a cell beside its start.
    pub(crate) fn has_free_neighbour(&self) -> bool
        requires { IsGround self.now }
        ensures { result ≡ any_neighbour (free_in self.now) (start_of self.now) }
    {
        let (x, y) = self.start;
        // No map has a column or a row as high as those that wrap.
        if self.is_free_cell(x.wrapping_sub(1), y) {
            return true;
        }
        if self.is_free_cell(x + 1, y) {
            return true;
        }
        if self.is_free_cell(x, y.wrapping_sub(1)) {
            return true;
        }
        self.is_free_cell(x, y + 1)
    }

    /// Marks of the numbers that may be changed.
    pub(crate) fn allowed_numbers(&self, alloc: Global) -> Result<Marks, AllocError>
        requires { IsGround self.now }
        ensures room { IfOk result (λ marks. room marks ≡ 64 * (length self.now.tiles.now / 64 + 1)) }
        ensures cells { IfOk result (AreAllowed self.now) }
    {
        if self.selection.is_empty() {
            Marks::all(alloc, self.tiles.len())
        } else {
            selected_numbers(alloc, self.selection, self.width, self.height)
        }
    }

    // Which of the 32 numbers from one on have the fill's value: bit i stands for the number i further on. The layer has them all.
    fn equal_in_half(&self, first: usize) -> u32
        requires { first + 32 ≤ length self.now.tiles.now }
        ensures { (i : ℕ) → i < 32 → nat_eq (bit_at result i) 1 ≡ is_value (slice_get self.now.tiles.now (first + i)) self.now.value }
    {
        let mut bits = 0;
        for i in 0..32 {
            if self.tiles[first + i] == self.value {
                bits |= 1u32 << i;
            }
        }
        bits
    }

    // Which of the 64 numbers from one on have the fill's value, where the layer has them all.
    fn equal_in_whole(&self, first: usize) -> u64
        requires all { first + 64 ≤ length self.now.tiles.now }
        requires small { first < 2 ^ 38 }
        ensures { (i : ℕ) → i < 64 → nat_eq (bit_at result i) 1 ≡ is_value (slice_get self.now.tiles.now (first + i)) self.now.value }
    {
        let low = self.equal_in_half(first);
        let high = self.equal_in_half(first + 32);
        u64::from(low) | (u64::from(high) << 32)
    }

    // Which of the 64 numbers from one on have the fill's value, where the layer ends among them, or before.
    fn equal_in_last(&self, first: usize) -> u64
        ensures { (i : ℕ) → i < 64 → nat_eq (bit_at result i) 1 ≡ is_value (slice_get self.now.tiles.now (first + i)) self.now.value }
    {
        let count = self.tiles.len().saturating_sub(first).min(64);
        let mut bits = 0;
        for i in 0..count {
            if self.tiles[first + i] == self.value {
                bits |= 1u64 << i;
            }
        }
        bits
    }

    /// The numbers of a word whose values are the fill's: bit i stands for its number i.
    #[inline(never)]
    pub(crate) fn equal_bits(&self, word: usize) -> u64
        requires { word < 2 ^ 32 }
        ensures { (i : ℕ) → i < 64 → nat_eq (bit_at result i) 1 ≡ is_value (slice_get self.now.tiles.now (64 * word + i)) self.now.value }
    {
        let first = 64 * word;
        if first + 64 <= self.tiles.len() {
            self.equal_in_whole(first)
        } else {
            self.equal_in_last(first)
        }
    }

    // The numbers of a word in which a row begins.
    fn row_starts(&self, word: usize) -> u64
        requires ground { IsGround self.now }
        requires within { word < 2 ^ 32 }
        ensures { (i : ℕ) → i < 64 → nat_eq (bit_at result i) 1 ≡ nat_eq ((64 * word + i) % self.now.width) 0 }
    {
        let width = self.width as usize;
        let past = word * 64 % width;
        let mut number = if past == 0 { 0 } else { width - past };
        let mut starts = 0;
        while number < 64 {
            starts |= 1u64 << number;
            number += width;
        }
        starts
    }

    // The cells of a word to which some of them, the seeds, lead along their rows by steps of 1, 2, 4 and so on up to 32,
    // all within a mask of free cells. No row begins in the inner ones.
    #[inline(never)]
    fn led_bits(&self, word: usize, seeds: u64, mask: u64, inner: u64) -> u64
        requires ground { IsGround self.now }
        requires free { (i : ℕ) → i < 64 → bit_at mask i ≡ 1 → free_at self.now (64 * word + i) ≡ true }
        requires seeds { (i : ℕ) → i < 64 → bit_at seeds i ≡ 1 → (bit_at mask i ≡ 1) × IsLed self.now (64 * word + i) }
        requires inner { (i : ℕ) → i < 64 → bit_at inner i ≡ 1 → (64 * word + i) % self.now.width ≢ 0 }
        ensures seeds { (i : ℕ) → i < 64 → bit_at seeds i ≡ 1 → bit_at result i ≡ 1 }
        ensures led { (i : ℕ) → i < 64 → bit_at result i ≡ 1 → (bit_at mask i ≡ 1) × IsLed self.now (64 * word + i) }
    {
        let mut bits = seeds;
        // Where the cell so many steps before leads to this one, and the cell so many behind.
        let mut rises = mask & (mask << 1) & inner;
        let mut falls = mask & ((mask & inner) >> 1);
        let mut step: u32 = 1;
        while step < 64 && rises | falls != 0 {
            bits |= ((bits << step) & rises) | ((bits >> step) & falls);
            rises &= rises << step;
            falls &= falls >> step;
            step *= 2;
        }
        bits
    }

    // The seeds, and in a word of free cells alone also those to which they lead, as `led_bits` finds them.
    fn first_bits(&self, word: usize, seeds: u64, mask: u64, inner: u64) -> u64
        requires ground { IsGround self.now }
        requires free { (i : ℕ) → i < 64 → bit_at mask i ≡ 1 → free_at self.now (64 * word + i) ≡ true }
        requires seeds { (i : ℕ) → i < 64 → bit_at seeds i ≡ 1 → (bit_at mask i ≡ 1) × IsLed self.now (64 * word + i) }
        requires inner { (i : ℕ) → i < 64 → bit_at inner i ≡ 1 → (64 * word + i) % self.now.width ≢ 0 }
        ensures seeds { (i : ℕ) → i < 64 → bit_at seeds i ≡ 1 → bit_at result i ≡ 1 }
        ensures led { (i : ℕ) → i < 64 → bit_at result i ≡ 1 → (bit_at mask i ≡ 1) × IsLed self.now (64 * word + i) }
    {
        if mask == u64::MAX {
            return self.led_bits(word, seeds, mask, inner);
        }
        seeds
    }

    /// The cells of a word to which some of them, the seeds, lead along their rows, all within a mask of free cells.
    pub(crate) fn joined_bits(&self, word: usize, seeds: u64, mask: u64) -> u64
        requires ground { IsGround self.now }
        requires within { word < 2 ^ 32 }
        requires free { (i : ℕ) → i < 64 → bit_at mask i ≡ 1 → free_at self.now (64 * word + i) ≡ true }
        requires seeds { (i : ℕ) → i < 64 → bit_at seeds i ≡ 1 → (bit_at mask i ≡ 1) × IsLed self.now (64 * word + i) }
        ensures seeds { (i : ℕ) → i < 64 → bit_at seeds i ≡ 1 → bit_at result i ≡ 1 }
        ensures led { (i : ℕ) → i < 64 → bit_at result i ≡ 1 → (bit_at mask i ≡ 1) × IsLed self.now (64 * word + i) }
        ensures closed { (i j : ℕ) → i < 64 → j < 64 → AreSideBySide self.now (64 * word + i) (64 * word + j) → bit_at result i ≡ 1 → bit_at mask j ≡ 1 → bit_at result j ≡ 1 }
    {
        let inner = !self.row_starts(word);
        let mut bits = 0;
        let mut next = self.first_bits(word, seeds, mask, inner);
        while next != bits {
            bits = next;
            next = bits | ((((bits << 1) & inner) | ((bits & inner) >> 1)) & mask);
        }
        bits
    }
}
