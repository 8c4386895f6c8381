// Runs as a region stores them, and what two of them have to do with each other.
ghost use Rattle.std.specs.Prelude.{◌≡◌, ℕ, ◌+◌, ◌<◌, ◌≤◌, ◌&&◌, ◌↔◌, IsTrue, IfSome, max};
ghost use Rattle.region.specs.Runs.{IsRun, in_run};
ghost use Rattle.region.specs.Stored.{IsShort};
ghost use Rattle.region.specs.Walks.{LiesBehind, LiesWithin, in_option, is_before, is_after};

use crate::runs::Run;
use std::marker::Model;

// A run in 6 bytes. A region lies in the first 4,096 columns and rows, so that 16 bits hold its numbers. What is worked out
// of it is worked out in 32 bits.
#[derive(Clone, Copy, PartialEq, Eq)]
pub(crate) struct StoredRun {
    y: u16,
    x: u16,
    len: u16,
}

impl Model for StoredRun {
    ghost use Rattle.region.specs.Stored.{IsShort};
    ghost use Rattle.region.specs.declared.runs.Run.{Run as RunOf};

    ghost Value = { RunOf };

    ghost view = { λ s. record { y = s.y; x = s.x; len = s.len } };

    ghost invariant = { λ s. IsShort (record { y = s.y; x = s.x; len = s.len }) };

    ghost inverse = { λ r. record { y = r.y; x = r.x; len = r.len } };
}

impl StoredRun {
    // The run, to be stored.
    #[inline(always)]
    pub(crate) fn of(run: Run) -> StoredRun
        requires { IsShort run }
        ensures { result ≡ run }
    {
        StoredRun {
            y: run.y as u16,
            x: run.x as u16,
            len: run.len as u16,
        }
    }

    // The run that is stored.
    #[inline(always)]
    pub(crate) fn run(self) -> Run
        ensures run { result ≡ self }
        ensures short { IsShort self }
    {
        Run {
            y: self.y as u32,
            x: self.x as u32,
            len: self.len as u32,
        }
    }

    // Whether a cell is in the run.
    pub(crate) fn has(self, x: u32, y: u32) -> bool
        ensures { result ≡ in_run self (x, y) }
    {
        let own = self.run();
        own.y == y && own.x <= x && x - own.x < own.len
    }

    // Whether the run ends before a cell, in an earlier row or in the cell's own.
    pub(crate) fn ends_before(self, x: u32, y: u32) -> bool
        ensures { result ≡ is_after (x, y) self }
    {
        let own = self.run();
        if own.y != y {
            return own.y < y;
        }
        own.x <= x && own.len <= x - own.x
    }

    // Whether a run that starts no earlier touches this one or overlaps it.
    pub(crate) fn touches(self, run: StoredRun) -> bool
        requires { IsRun self }
        ensures { IsTrue result ↔ ((self.y ≡ run.y) × (run.x ≤ self.x + self.len)) }
    {
        let (own, run) = (self.run(), run.run());
        own.y == run.y && run.x <= own.end()
    }

    // This run and one that it touches.
    pub(crate) fn joined(self, run: StoredRun) -> StoredRun
        requires first { IsRun self }
        requires second { IsRun run }
        ensures row { result.y ≡ self.y }
        ensures start { result.x ≡ self.x }
        ensures end { result.x + result.len ≡ max (self.x + self.len) (run.x + run.len) }
    {
        let (own, run) = (self.run(), run.run());
        let end = own.end().max(run.end());
        StoredRun::of(Run {
            y: own.y,
            x: own.x,
            len: end - own.x,
        })
    }

    // The cells that two runs share.
    pub(crate) fn shared(self, run: StoredRun) -> Option<StoredRun>
        requires first { IsRun self }
        requires second { IsRun run }
        ensures cells { (q : ℕ × ℕ) → in_option result q ≡ (in_run self q && in_run run q) }
        ensures first { IfSome result (λ r. LiesWithin r self) }
        ensures second { IfSome result (λ r. LiesWithin r run) }
    {
        let (own, run) = (self.run(), run.run());
        let start = own.x.max(run.x);
        let end = own.end().min(run.end());
        if own.y != run.y || end <= start {
            return None;
        }
        Some(StoredRun::of(Run {
            y: own.y,
            x: start,
            len: end - start,
        }))
    }

    // The cells of this run before another one starts.
    pub(crate) fn before(self, run: StoredRun) -> Option<StoredRun>
        requires { IsRun self }
        ensures cells { (q : ℕ × ℕ) → in_option result q ≡ (in_run self q && is_before q run) }
        ensures within { IfSome result (λ r. LiesWithin r self) }
        ensures order { IfSome result (λ r. LiesBehind run r) }
    {
        let (own, run) = (self.run(), run.run());
        if own.y < run.y {
            return Some(self);
        }
        let end = own.end().min(run.x);
        if own.y > run.y || end <= own.x {
            return None;
        }
        Some(StoredRun::of(Run {
            y: own.y,
            x: own.x,
            len: end - own.x,
        }))
    }

    // The cells of this run after another one ends.
    pub(crate) fn after(self, run: StoredRun) -> Option<StoredRun>
        requires first { IsRun self }
        requires second { IsRun run }
        ensures cells { (q : ℕ × ℕ) → in_option result q ≡ (in_run self q && is_after q run) }
        ensures within { IfSome result (λ r. LiesWithin r self) }
        ensures order { IfSome result (λ r. LiesBehind r run) }
    {
        let (own, run) = (self.run(), run.run());
        if own.y > run.y {
            return Some(self);
        }
        let start = own.x.max(run.end());
        if own.y < run.y || own.end() <= start {
            return None;
        }
        Some(StoredRun::of(Run {
            y: own.y,
            x: start,
            len: own.end() - start,
        }))
    }
}
