// The order in which the entries of a group were added.
ghost use Rattle.std.specs.Prelude.{◌≡◌, ◌+◌, ◌-◌, ◌<◌, [], ◌∷◌, ◌++◌, length, slice_get, slice_index, vec_len, vec_capacity, OnOk};
ghost use Rattle.undo_group.specs.Order.{IsOrder, IsTakenFrom, order_of};

use std::alloc::{AllocError, Global};

/// Numbered entries, in the order in which they were added. The numbers are those below a count.
#[derive(Drop)]
pub struct Order {
    // The number of the entry at each place.
    entries: Vec<usize>,
    // The place of the entry with each number.
    places: Vec<usize>,
}

impl Order {
    /// No entries. Takes no memory.
    #[tactic(auto, unfolding(crate::specs::Order::IsOrder))]
    pub fn new(alloc: Global) -> Order
        ensures order { IsOrder result 0 }
        ensures entries { order_of result ≡ [] }
    {
        Order {
            entries: Vec::new(alloc),
            places: Vec::new(alloc),
        }
    }

    /// The numbers of the entries, in order.
    pub fn entries(&self) -> &[usize]
        ensures { result.now ≡ order_of self.now }
    {
        &self.entries
    }

    /// The number of the entry at a place, and `None` past the last one.
    pub fn entry_at(&self, place: usize) -> Option<usize>
        ensures { result ≡ slice_get (order_of self.now) place }
    {
        self.entries.get(place).copied()
    }

    /// The number of the entry that stands last, and `None` where there is none.
    pub fn last(&self) -> Option<usize>
        ensures { result ≡ slice_get (order_of self.now) (length (order_of self.now) - 1) }
    {
        self.entries.last().copied()
    }

    /// The place of the entry with a number.
    pub fn place_of(&self, entry: usize) -> usize
        requires { entry < vec_len self.now.places }
        ensures { result ≡ slice_index self.now.places.items entry }
    {
        self.places[entry]
    }

    /// Takes memory for an entry more.
    pub fn reserve(&mut self) -> Result<(), AllocError>
        ensures entries { self.new.entries.items ≡ self.old.entries.items }
        ensures places { self.new.places.items ≡ self.old.places.items }
        ensures room { OnOk result (vec_len self.new.entries < vec_capacity self.new.entries) }
        ensures other_room { OnOk result (vec_len self.new.places < vec_capacity self.new.places) }
    {
        self.entries.reserve(1)?;
        self.places.reserve(1)?;
        Ok(())
    }

    /// Puts an entry last, which gets the number behind all others.
    #[tactic(auto, unfolding(crate::specs::Order::IsOrder))]
    pub fn push_reserved(&mut self)
        requires order { IsOrder self.old (vec_len self.old.entries) }
        requires room { vec_len self.old.entries < vec_capacity self.old.entries }
        requires other_room { vec_len self.old.places < vec_capacity self.old.places }
        ensures order { IsOrder self.new (vec_len self.old.entries + 1) }
        ensures last { order_of self.new ≡ order_of self.old ++ vec_len self.old.entries ∷ [] }
        ensures places { self.new.places.items ≡ self.old.places.items ++ vec_len self.old.entries ∷ [] }
    {
        let last = self.entries.len();
        self.entries.push_reserved(last);
        self.places.push_reserved(last);
    }

    /// Takes the entry with a number out. The last number falls away: the entry that had it gets the number that is free.
    #[tactic(auto, unfolding(crate::specs::Order::IsOrder))]
    pub fn remove(&mut self, entry: usize)
        requires order { IsOrder self.old (vec_len self.old.entries) }
        requires within { entry < vec_len self.old.entries }
        ensures order { IsOrder self.new (vec_len self.old.entries - 1) }
        ensures taken { IsTakenFrom (order_of self.old) (slice_index self.old.places.items entry) entry (order_of self.new) }
    {
        let last = self.entries.len() - 1;
        let moved = self.places[last];
        let place = self.places.swap_remove(entry);
        self.entries[moved] = entry;
        self.entries.remove(place);
        for at in place..last {
            let behind = self.entries[at];
            self.places[behind] = at;
        }
    }
}
