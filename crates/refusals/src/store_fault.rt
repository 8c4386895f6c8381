ghost use Rattle.std.specs.Prelude.{◌≡◌, ◌≤◌, length};
ghost use Rattle.refusals.specs.Words.{store_words};

use crate::refusal::NO_MEMORY;

/// Why a store refuses.
#[derive(Clone, Copy, Debug, PartialEq, Eq)]
pub enum StoreFault {
    /// No file of that name is there. Only a load answers so.
    Missing,
    /// The device failed.
    Device,
    /// There was no memory.
    Memory,
}

impl StoreFault {
    /// Its number and its words.
    pub fn words(self) -> &'static str
        ensures value { result.now ≡ store_words self }
        ensures short { length result.now ≤ 100 }
    {
        match self {
            StoreFault::Missing => "50 no such file",
            StoreFault::Device => "51 store failed",
            StoreFault::Memory => NO_MEMORY,
        }
    }
}
