// Marks on the cells of a layer by their numbers, a bit each.
ghost use Rattle.std.specs.Prelude.{◌≡◌, ℕ, ◌+◌, ◌*◌, ◌/◌, ◌%◌, ◌<◌, ◌≤◌, ◌^◌, ◌||◌, IfOk, true, false, nat_eq, if◌then◌else◌};
ghost use Rattle.std.specs.Int.{bit_at};
ghost use Rattle.edits.specs.Marks.{is_marked, room, is_between};

use std::alloc::{AllocError, Global};

/// Places, each marked or not.
#[derive(Drop)]
pub(crate) struct Marks {
    words: Vec<u64>,
}

// The bits of a word from one to another, both of them.
fn bits_between(first: u32, last: u32) -> u64
    requires ordered { first ≤ last }
    requires within { last < 64 }
    ensures { (i : ℕ) → i < 64 → nat_eq (bit_at result i) 1 ≡ is_between first (last + 1) i }
{
    (u64::MAX << first) & (u64::MAX >> (63 - last))
}

impl Marks {
    /// Room for so many numbers or more, none of which is marked.
    pub(crate) fn new(alloc: Global, numbers: usize) -> Result<Marks, AllocError>
        requires { numbers < 2 ^ 32 }
        ensures room { IfOk result (λ marks. room marks ≡ 64 * (numbers / 64 + 1)) }
        ensures none { IfOk result (λ marks. (k : ℕ) → is_marked marks k ≡ false) }
    {
        let mut words = Vec::new(alloc);
        words.resize(numbers / 64 + 1, 0)?;
        Ok(Marks { words })
    }

    /// Room for so many numbers or more, all of which are marked.
    pub(crate) fn all(alloc: Global, numbers: usize) -> Result<Marks, AllocError>
        requires { numbers < 2 ^ 32 }
        ensures room { IfOk result (λ marks. room marks ≡ 64 * (numbers / 64 + 1)) }
        ensures all { IfOk result (λ marks. (k : ℕ) → k < room marks → is_marked marks k ≡ true) }
    {
        let mut words = Vec::new(alloc);
        words.resize(numbers / 64 + 1, u64::MAX)?;
        Ok(Marks { words })
    }

    /// A copy of the marks.
    pub(crate) fn copied(&self, alloc: Global) -> Result<Marks, AllocError>
        ensures { IfOk result (λ marks. marks.words.items ≡ self.now.words.items) }
    {
        let mut words = Vec::new(alloc);
        words.extend_from_slice(&self.words)?;
        Ok(Marks { words })
    }

    /// How many words there are, each with the marks of 64 numbers.
    pub(crate) fn words(&self) -> usize
        ensures { 64 * result ≡ room self.now }
    {
        self.words.len()
    }

    /// The marks of a word: bit i stands for its number i.
    pub(crate) fn word(&self, word: usize) -> u64
        requires { 64 * word < room self.now }
        ensures { (i : ℕ) → i < 64 → nat_eq (bit_at result i) 1 ≡ is_marked self.now (64 * word + i) }
    {
        self.words[word]
    }

    /// Sets the marks of a word.
    pub(crate) fn set_word(&mut self, word: usize, bits: u64)
        requires { 64 * word < room self.old }
        ensures marks { (k : ℕ) → is_marked self.new k ≡ (if nat_eq (k / 64) word then nat_eq (bit_at bits (k % 64)) 1 else is_marked self.old k) }
        ensures room { room self.new ≡ room self.old }
    {
        self.words[word] = bits;
    }

    /// Marks a number.
    pub(crate) fn mark_one(&mut self, number: usize)
        requires { number < room self.old }
        ensures marks { (k : ℕ) → is_marked self.new k ≡ (is_marked self.old k || is_between number (number + 1) k) }
        ensures room { room self.new ≡ room self.old }
    {
        self.words[number / 64] |= 1u64 << (number % 64);
    }

    /// Marks the numbers from the first to before the end.
    pub(crate) fn mark(&mut self, first: usize, end: usize)
        requires some { first < end }
        requires within { end ≤ room self.old }
        ensures marks { (k : ℕ) → is_marked self.new k ≡ (is_marked self.old k || is_between first end k) }
        ensures room { room self.new ≡ room self.old }
    {
        let last = end - 1;
        for word in first / 64..last / 64 + 1 {
            let low = if word == first / 64 { first % 64 } else { 0 };
            let high = if word == last / 64 { last % 64 } else { 63 };
            self.words[word] |= bits_between(low as u32, high as u32);
        }
    }
}
