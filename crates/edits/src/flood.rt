// The cells that a fill takes, word by word.
ghost use Rattle.std.specs.Prelude.{◌≡◌, ◌≢◌, ℕ, ◌+◌, ◌-◌, ◌*◌, ◌/◌, ◌%◌, ◌<◌, ◌≤◌, ◌↔◌, ◌&&◌, [], suc, IfOk, OnOk, true, false, nat_eq, nat_lt};
ghost use Rattle.std.specs.Int.{bit_at};
ghost use Rattle.edits.specs.Joining.{AreJoined};
ghost use Rattle.edits.specs.Flooding.{AreNear, InBatch, IsBatch, IsClosed, IsGround, IsLed, IsSound, Spreads, free_at, free_in, is_taken, start_of, taken_at};
ghost use Rattle.edits.specs.Marks.{is_marked, room};

use crate::ground::Ground;
use crate::marks::Marks;
use std::alloc::{AllocError, Global};

/// Cells of a word: bit i stands for its number i.
#[derive(Clone, Copy)]
pub(crate) struct Batch {
    pub word: usize,
    pub bits: u64,
}

/// How far a fill is, with two bits for each cell: one that is open is free and not taken yet, and one that is taken is no longer open. One
/// with both bits may be changed, and its value was not looked at.
///
/// The taken cells are so many, modulo 2^64, and lie in the words from the first to before the end. The neighbours of those in the pending
/// batches are still to be looked at.
#[derive(Drop)]
pub(crate) struct Spread {
    pub open: Marks,
    pub taken: Marks,
    pub count: usize,
    pub first: usize,
    pub end: usize,
    pub pending: Vec<Batch>,
}

impl Spread {
    // Looks at the values of a word, where that was not done.
    fn look_at(&mut self, ground: &Ground<'_>, word: usize)
        requires ground { IsGround ground.now }
        requires sound { IsSound ground.now self.old }
        requires within { 64 * word < room self.old.open }
        ensures sound { IsSound ground.now self.new }
        ensures spreads { Spreads ground.now self.old self.new }
        ensures seen { (i : ℕ) → i < 64 → (is_marked self.new.open (64 * word + i) && is_marked self.new.taken (64 * word + i)) ≡ false }
        ensures room { room self.new.open ≡ room self.old.open }
    {
        let open = self.open.word(word);
        let taken = self.taken.word(word);
        let unseen = open & taken;
        if unseen != 0 {
            let equal = ground.equal_bits(word);
            self.open.set_word(word, open & (!unseen | equal));
            self.taken.set_word(word, taken & !unseen);
        }
    }

    // Takes what is free of some cells of a word, and what these lead to in it. Each is joined to the start, where it is free.
    fn take(&mut self, ground: &Ground<'_>, word: usize, seeds: u64) -> Result<(), AllocError>
        requires ground { IsGround ground.now }
        requires sound { IsSound ground.now self.old }
        requires within { 64 * word < room self.old.open }
        requires led { (i : ℕ) → i < 64 → bit_at seeds i ≡ 1 → free_at ground.now (64 * word + i) ≡ true → IsLed ground.now (64 * word + i) }
        ensures sound { OnOk result (IsSound ground.now self.new) }
        ensures spreads { OnOk result (Spreads ground.now self.old self.new) }
        ensures covers { OnOk result ((i : ℕ) → i < 64 → bit_at seeds i ≡ 1 → free_at ground.now (64 * word + i) ≡ true → taken_at self.new (64 * word + i) ≡ true) }
        ensures room { room self.new.open ≡ room self.old.open }
    {
        self.look_at(ground, word);
        let open = self.open.word(word);
        let bits = ground.joined_bits(word, seeds & open, open);
        if bits == 0 {
            return Ok(());
        }
        let taken = self.taken.word(word);
        self.open.set_word(word, open & !bits);
        self.taken.set_word(word, taken | bits);
        self.count = self.count.wrapping_add(bits.count_ones() as usize);
        self.first = self.first.min(word);
        self.end = self.end.max(word + 1);
        self.pending.push(Batch { word, bits })?;
        Ok(())
    }

    // Looks at a word, and takes what its seeds reach, where there is such a word and one of the cells is open.
    fn reach(&mut self, ground: &Ground<'_>, word: usize, seeds: u64) -> Result<(), AllocError>
        requires ground { IsGround ground.now }
        requires sound { IsSound ground.now self.old }
        requires led { (i : ℕ) → i < 64 → bit_at seeds i ≡ 1 → free_at ground.now (64 * word + i) ≡ true → IsLed ground.now (64 * word + i) }
        ensures sound { OnOk result (IsSound ground.now self.new) }
        ensures spreads { OnOk result (Spreads ground.now self.old self.new) }
        ensures covers { OnOk result ((i : ℕ) → i < 64 → bit_at seeds i ≡ 1 → free_at ground.now (64 * word + i) ≡ true → taken_at self.new (64 * word + i) ≡ true) }
        ensures room { room self.new.open ≡ room self.old.open }
    {
        if word < self.open.words() && seeds & self.open.word(word) != 0 {
            self.take(ground, word, seeds)
        } else {
            Ok(())
        }
    }

    // Takes what is free below the cells of a batch.
    fn take_below(&mut self, ground: &Ground<'_>, from: Batch) -> Result<(), AllocError>
        requires ground { IsGround ground.now }
        requires sound { IsSound ground.now self.old }
        requires batch { IsBatch self.old from }
        ensures sound { OnOk result (IsSound ground.now self.new) }
        ensures spreads { OnOk result (Spreads ground.now self.old self.new) }
        ensures covers { OnOk result ((p : ℕ) → InBatch from p → free_at ground.now (p + ground.now.width) ≡ true → taken_at self.new (p + ground.now.width) ≡ true) }
        ensures room { room self.new.open ≡ room self.old.open }
    {
        let words = ground.width as usize / 64;
        let shift = ground.width % 64;
        self.reach(ground, from.word + words, from.bits << shift)?;
        if shift != 0 {
            self.reach(ground, from.word + words + 1, from.bits >> (64 - shift))?;
        }
        Ok(())
    }

    // Takes what is free above the cells of a batch.
    fn take_above(&mut self, ground: &Ground<'_>, from: Batch) -> Result<(), AllocError>
        requires ground { IsGround ground.now }
        requires sound { IsSound ground.now self.old }
        requires batch { IsBatch self.old from }
        ensures sound { OnOk result (IsSound ground.now self.new) }
        ensures spreads { OnOk result (Spreads ground.now self.old self.new) }
        ensures covers { OnOk result ((p : ℕ) → InBatch from (p + ground.now.width) → free_at ground.now p ≡ true → taken_at self.new p ≡ true) }
        ensures room { room self.new.open ≡ room self.old.open }
    {
        let words = ground.width as usize / 64;
        let shift = ground.width % 64;
        if from.word >= words {
            self.reach(ground, from.word - words, from.bits >> shift)?;
        }
        if shift != 0 && from.word > words {
            self.reach(ground, from.word - words - 1, from.bits << (64 - shift))?;
        }
        Ok(())
    }

    // Takes what is free left of the first cell of a batch's word, in its row.
    fn take_left(&mut self, ground: &Ground<'_>, from: Batch) -> Result<(), AllocError>
        requires ground { IsGround ground.now }
        requires sound { IsSound ground.now self.old }
        requires batch { IsBatch self.old from }
        ensures sound { OnOk result (IsSound ground.now self.new) }
        ensures spreads { OnOk result (Spreads ground.now self.old self.new) }
        ensures covers { OnOk result ((p : ℕ) → InBatch from (suc p) → suc p % 64 ≡ 0 → suc p % ground.now.width ≢ 0 → free_at ground.now p ≡ true → taken_at self.new p ≡ true) }
        ensures room { room self.new.open ≡ room self.old.open }
    {
        if from.bits & 1 == 0 || from.word * 64 % ground.width as usize == 0 {
            return Ok(());
        }
        self.reach(ground, from.word - 1, 1 << 63)
    }

    // Takes what is free right of the last cell of a batch's word, in its row.
    fn take_right(&mut self, ground: &Ground<'_>, from: Batch) -> Result<(), AllocError>
        requires ground { IsGround ground.now }
        requires sound { IsSound ground.now self.old }
        requires batch { IsBatch self.old from }
        ensures sound { OnOk result (IsSound ground.now self.new) }
        ensures spreads { OnOk result (Spreads ground.now self.old self.new) }
        ensures covers { OnOk result ((p : ℕ) → InBatch from p → suc p % 64 ≡ 0 → suc p % ground.now.width ≢ 0 → free_at ground.now (suc p) ≡ true → taken_at self.new (suc p) ≡ true) }
        ensures room { room self.new.open ≡ room self.old.open }
    {
        if from.bits >> 63 == 0 || (from.word + 1) * 64 % ground.width as usize == 0 {
            return Ok(());
        }
        self.reach(ground, from.word + 1, 1)
    }

    // Takes whatever is free beside the cells of a batch.
    fn take_around(&mut self, ground: &Ground<'_>, from: Batch) -> Result<(), AllocError>
        requires ground { IsGround ground.now }
        requires sound { IsSound ground.now self.old }
        requires batch { IsBatch self.old from }
        ensures sound { OnOk result (IsSound ground.now self.new) }
        ensures spreads { OnOk result (Spreads ground.now self.old self.new) }
        ensures covers { OnOk result ((p r : ℕ) → InBatch from p → AreNear ground.now p r → free_at ground.now r ≡ true → taken_at self.new r ≡ true) }
    {
        self.take_above(ground, from)?;
        self.take_below(ground, from)?;
        self.take_left(ground, from)?;
        self.take_right(ground, from)?;
        Ok(())
    }

    // Takes the start, where it may be changed.
    fn take_start(&mut self, ground: &Ground<'_>) -> Result<(), AllocError>
        requires ground { IsGround ground.now }
        requires sound { IsSound ground.now self.old }
        requires none { (p : ℕ) → taken_at self.old p ≡ false }
        ensures sound { OnOk result (IsSound ground.now self.new) }
        ensures closed { OnOk result (IsClosed ground.now self.new self.new.pending.items) }
        ensures start { OnOk result (free_in ground.now (start_of ground.now) ≡ true → is_taken ground.now self.new (start_of ground.now) ≡ true) }
    {
        let (x, y) = ground.start;
        let number = y as usize * ground.width as usize + x as usize;
        self.reach(ground, number / 64, 1 << (number % 64))?;
        Ok(())
    }

    // Takes whatever is joined to the cells taken so far.
    fn take_joined(&mut self, ground: &Ground<'_>) -> Result<(), AllocError>
        requires ground { IsGround ground.now }
        requires sound { IsSound ground.now self.old }
        requires closed { IsClosed ground.now self.old self.old.pending.items }
        ensures sound { OnOk result (IsSound ground.now self.new) }
        ensures closed { OnOk result (IsClosed ground.now self.new []) }
        ensures keeps { OnOk result ((p : ℕ) → taken_at self.old p ≡ true → taken_at self.new p ≡ true) }
    {
        while let Some(from) = self.pending.pop() {
            self.take_around(ground, from)?;
        }
        Ok(())
    }

    /// The cells that are joined to the start of a fill: none where the start itself is not selected.
    pub(crate) fn over(alloc: Global, ground: &Ground<'_>) -> Result<Spread, AllocError>
        requires { IsGround ground.now }
        ensures sound { IfOk result (IsSound ground.now) }
        ensures cells { IfOk result (λ spread. (q : ℕ × ℕ) → (is_taken ground.now spread q ≡ true) ↔ AreJoined (free_in ground.now) (start_of ground.now) q) }
    {
        let open = ground.allowed_numbers(alloc)?;
        let mut spread = Spread {
            taken: open.copied(alloc)?,
            count: 0,
            first: open.words(),
            end: 0,
            pending: Vec::new(alloc),
            open,
        };
        spread.take_start(ground)?;
        spread.take_joined(ground)?;
        Ok(spread)
    }

    /// The taken numbers of a word: bit i stands for its number i.
    pub(crate) fn taken_bits(&self, word: usize) -> u64
        requires open { 64 * word < room self.now.open }
        requires taken { 64 * word < room self.now.taken }
        ensures { (i : ℕ) → i < 64 → nat_eq (bit_at result i) 1 ≡ taken_at self.now (64 * word + i) }
    {
        self.taken.word(word) & !self.open.word(word)
    }
}
