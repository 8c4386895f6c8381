ghost use Rattle.std.specs.Prelude.{◌≡◌, List, [], ◌∷◌};
ghost use Rattle.std.specs.Borrow.{ftrue};
ghost use Rattle.std.specs.Coded.{coded_list};
ghost use Rattle.map_store.specs.Asking.{Asked, asked_of, coded_asked};

use std::marker::{Model, PhantomData};

/// What a store is asked: the file of a name is to be loaded, or stored.
#[derive(Drop)]
pub enum StoreCall<'a> {
    Load(&'a str),
    Store(&'a str),
}

/// What a store was asked so far, the newest first. Only clauses read it: it takes no memory.
#[derive(Drop)]
pub struct StoreLog {
    marker: PhantomData<u8>,
    pub ghost asked: { List Asked } by { coded_list coded_asked },
}

impl Model for StoreLog {
    ghost also_owns = { λ _. ftrue };
}

impl StoreLog {
    /// Nothing was asked.
    pub fn new() -> StoreLog
        ensures { result.asked ≡ [] }
    {
        StoreLog {
            marker: PhantomData,
        }
    }

    /// Notes a call.
    pub fn note(&mut self, _call: &StoreCall<'_>)
        ensures { self.new.asked ≡ asked_of _call.now ∷ self.old.asked }
    {}
}
