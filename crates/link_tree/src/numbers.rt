// Numbers noted for the first places of a list. No contract speaks of them: they tell where to look.
use std::alloc::Global;

// So many numbers are compared at once.
const GROUP: usize = 16;

/// A number for each of the first places of a list.
#[derive(Drop)]
pub(crate) struct Numbers {
    noted: Vec<u32>,
}

// Whether a group has a number. There is no way out of the loop, so that all are compared at once.
fn has_number(group: &[u32; GROUP], number: u32) -> bool {
    let mut found = false;
    for noted in group {
        found |= *noted == number;
    }
    found
}

impl Numbers {
    /// No numbers. They take no memory.
    pub(crate) fn new(alloc: Global) -> Numbers {
        Numbers {
            noted: Vec::new(alloc),
        }
    }

    /// How many places have a number.
    pub(crate) fn len(&self) -> usize {
        self.noted.len()
    }

    /// Forgets the numbers from a place on.
    pub(crate) fn end_at(&mut self, at: usize) {
        self.noted.truncate(at);
    }

    /// Forgets the number of a place. Those behind it stand one place lower.
    pub(crate) fn take(&mut self, at: usize) {
        if at < self.noted.len() {
            self.noted.remove(at);
        }
    }

    /// Makes room for so many numbers, and tells whether there is.
    pub(crate) fn make_room(&mut self, length: usize) -> bool {
        self.noted
            .reserve(length.saturating_sub(self.noted.len()))
            .is_ok()
    }

    /// Notes the number of the next place, if there is room.
    pub(crate) fn push(&mut self, number: u32) {
        if self.noted.len() < self.noted.capacity() {
            self.noted.push_reserved(number);
        }
    }

    /// The first place that has a number.
    pub(crate) fn place_of(&self, number: u32) -> Option<usize> {
        let (groups, rest) = self.noted.as_slice().as_chunks::<GROUP>();
        let mut before = 0usize;
        for group in groups {
            if has_number(group, number) {
                let at = group.iter().position(|noted| *noted == number)?;
                return Some(before.saturating_add(at));
            }
            before = before.saturating_add(GROUP);
        }
        let at = rest.iter().position(|noted| *noted == number)?;
        Some(before.saturating_add(at))
    }
}
