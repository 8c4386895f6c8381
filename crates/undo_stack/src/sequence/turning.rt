// Turns of the entries of a sequence, one after the other. Each that is a free command, which is obsolete then, goes.
ghost use Rattle.std.specs.Prelude.{◌≡◌, ◌<◌, ◌≤◌, ◌+◌, ◌-◌, false, min, max, length, map, take, drop, reverse};
ghost use Rattle.map_model.specs.Document.{DocumentParts};
ghost use Rattle.undo_stack.specs.Entries.{entry_change};
ghost use Rattle.undo_stack.specs.Sequence.{is_stale};
ghost use Rattle.undo_stack.specs.Held.{history_at, shape_at, entry_nestings, IsHeld, IsHeldButAt, IsSoundAt, IsDroppedAt, RedoesNext, StepsDown, StepsUp, UndoesLast};
ghost use Rattle.undo_stack.specs.Moving.{positioned};
ghost use Rattle.undo_stack.specs.Reporting.{AreRedone, AreTurned, AreUndone};
ghost use Rattle.undo_stack.specs.Turning.{TurnsBack, TurnsOn, TurnsTo, TurnBy};

use super::Sequence;
use crate::entry::{redo_each, redo_up, undo_down, undo_each};
use command_api::Command;
use map_model::Document;

impl<C: Command> Sequence<C> {
    /// Undoes or redoes, step by step, until the index is this one, or the count.
    pub fn step_to(&mut self, document: &mut Document, index: usize)
        requires { IsHeld C.change document.old self.old }
        ensures held { IsHeld C.change document.new self.new }
        ensures reported { AreTurned C.change self.old.entries.items index document.old
            (shape_at C.change document.old self.old) (shape_at C.change document.new self.new) }
        ensures turned { TurnsTo index (history_at C.change document.old self.old) (history_at C.change document.new self.new) }
    {
        if index < self.index {
            let steps = self.index - index;
            self.step_back_by(document, steps);
        } else {
            let steps = index.min(self.entries.len()) - self.index;
            self.step_on_by(document, steps);
        }
    }

    // So many steps back.
    fn step_back_by(&mut self, document: &mut Document, steps: usize)
        requires held { IsHeld C.change document.old self.old }
        requires below { steps ≤ self.old.index }
        ensures held { IsHeld C.change document.new self.new }
        ensures reported { AreUndone C.change (reverse (drop (self.old.index - steps) (take self.old.index self.old.entries.items))) document.old
            (shape_at C.change document.old self.old) (shape_at C.change document.new self.new) }
        ensures turned { TurnBy TurnsBack steps (history_at C.change document.old self.old) (history_at C.change document.new self.new) }
    {
        let mut left = steps;
        while left > 0 {
            self.step_back(document);
            left -= 1;
        }
    }

    // So many steps on.
    fn step_on_by(&mut self, document: &mut Document, steps: usize)
        requires held { IsHeld C.change document.old self.old }
        requires above { self.old.index + steps ≤ length (history_at C.change document.old self.old).steps }
        ensures held { IsHeld C.change document.new self.new }
        ensures reported { AreRedone C.change (take steps (drop self.old.index self.old.entries.items)) document.old
            (shape_at C.change document.old self.old) (shape_at C.change document.new self.new) }
        ensures turned { TurnBy TurnsOn steps (history_at C.change document.old self.old) (history_at C.change document.new self.new) }
    {
        let mut left = steps;
        while left > 0 {
            self.step_on(document);
            left -= 1;
        }
    }

    /// Turns the step below the index back, and lowers the index by one.
    #[inline(always)]
    pub fn step_back(&mut self, document: &mut Document)
        requires held { IsHeld C.change document.old self.old }
        requires below { 0 < self.old.index }
        ensures held { IsHeld C.change document.new self.new }
        ensures reported { StepsDown C.change document.old self.old document.new self.new }
        ensures turned { TurnsBack (history_at C.change document.old self.old) (history_at C.change document.new self.new) }
    {
        self.turn_back(document);
        if self.has_free {
            self.drop_above();
        }
    }

    /// Makes the step above the index again, and raises the index by one, where the step stays.
    #[inline(always)]
    pub fn step_on(&mut self, document: &mut Document)
        requires held { IsHeld C.change document.old self.old }
        requires above { self.old.index < length (history_at C.change document.old self.old).steps }
        ensures held { IsHeld C.change document.new self.new }
        ensures reported { StepsUp C.change document.old self.old document.new self.new }
        ensures turned { TurnsOn (history_at C.change document.old self.old) (history_at C.change document.new self.new) }
    {
        self.turn_on(document);
        if self.has_free {
            self.drop_below();
        }
    }

    // Turns the entry below the index back, and lowers the index by one.
    #[inline(always)]
    fn turn_back(&mut self, document: &mut Document)
        requires held { IsHeld C.change document.old self.old }
        requires below { 0 < self.old.index }
        ensures held { IsHeldButAt C.change document.new self.new.index self.new }
        ensures undone { UndoesLast C.change document.old self.old document.new self.new }
        ensures index { self.new.index ≡ self.old.index - 1 }
        ensures count { length self.new.entries.items ≡ length self.old.entries.items }
        ensures history { history_at C.change document.new self.new ≡ positioned (self.old.index - 1) (history_at C.change document.old self.old) }
    {
        self.entries[self.index - 1].undo(document);
        self.index -= 1;
    }

    // Makes the entry above the index again, and raises the index by one.
    #[inline(always)]
    fn turn_on(&mut self, document: &mut Document)
        requires held { IsHeld C.change document.old self.old }
        requires above { self.old.index < length self.old.entries.items }
        ensures held { IsHeldButAt C.change document.new self.old.index self.new }
        ensures redone { RedoesNext C.change document.old self.old document.new self.new }
        ensures index { self.new.index ≡ self.old.index + 1 }
        ensures history { history_at C.change document.new self.new ≡ positioned (self.old.index + 1) (history_at C.change document.old self.old) }
    {
        self.entries[self.index].redo(document);
        self.index += 1;
    }

    // The entry above the index, which was just undone, goes where a turn may leave it obsolete, and it is.
    #[inline(never)]
    fn drop_above(&mut self)
        requires above { self.old.index < length self.old.entries.items }
        ensures { (d : DocumentParts) → IsHeldButAt C.change d self.old.index self.old → IsDroppedAt C.change d self.old.index self.old self.new }
    {
        if self.entries[self.index].is_gone() {
            let _ = self.entries.remove(self.index);
            self.lose_clean();
        }
    }

    // The entry below the index, which was just made again, goes where a turn may leave it obsolete, and it is.
    #[inline(never)]
    fn drop_below(&mut self)
        requires below { 0 < self.old.index }
        requires within { self.old.index ≤ length self.old.entries.items }
        ensures { (d : DocumentParts) → IsHeldButAt C.change d (self.old.index - 1) self.old → IsDroppedAt C.change d (self.old.index - 1) self.old self.new }
    {
        let below = self.index - 1;
        if self.entries[below].is_gone() {
            let _ = self.entries.remove(below);
            self.index = below;
            self.lose_clean();
        }
    }

    /// Undoes or redoes until the index is this one, or the count, where no command is free. No entry goes.
    pub fn turn_to(&mut self, document: &mut Document, index: usize)
        requires held { IsHeld C.change document.old self.old }
        requires bound { self.old.has_free ≡ false }
        ensures held { IsHeld C.change document.new self.new }
        ensures reported { AreTurned C.change self.old.entries.items index document.old
            (shape_at C.change document.old self.old) (shape_at C.change document.new self.new) }
        ensures history { history_at C.change document.new self.new
            ≡ positioned (min index (length (history_at C.change document.old self.old).steps)) (history_at C.change document.old self.old) }
    {
        self.undo_to(document, index);
        self.redo_to(document, index);
    }

    // Undoes until the index is at most this one.
    fn undo_to(&mut self, document: &mut Document, index: usize)
        requires sound { IsSoundAt C.change document.old self.old }
        ensures sound { IsSoundAt C.change document.new self.new }
        ensures has_free { self.new.has_free ≡ self.old.has_free }
        ensures stale { map (λ e. is_stale (entry_change C.change e)) self.new.entries.items ≡ map (λ e. is_stale (entry_change C.change e)) self.old.entries.items }
        ensures nests { entry_nestings self.new ≡ entry_nestings self.old }
        ensures history { history_at C.change document.new self.new
            ≡ positioned (min index self.old.index) (history_at C.change document.old self.old) }
    {
        let index = index.min(self.index);
        if self.is_worth_a_slice(self.index - index) {
            let slice = self.entries.make_contiguous();
            undo_down(slice, document, self.index, index);
        } else {
            undo_each(&mut self.entries, document, self.index, index);
        }
        self.index = index;
    }

    // Redoes until the index is at least this one, or the count.
    fn redo_to(&mut self, document: &mut Document, index: usize)
        requires sound { IsSoundAt C.change document.old self.old }
        ensures sound { IsSoundAt C.change document.new self.new }
        ensures has_free { self.new.has_free ≡ self.old.has_free }
        ensures stale { map (λ e. is_stale (entry_change C.change e)) self.new.entries.items ≡ map (λ e. is_stale (entry_change C.change e)) self.old.entries.items }
        ensures nests { entry_nestings self.new ≡ entry_nestings self.old }
        ensures history { history_at C.change document.new self.new
            ≡ positioned (max (min index (length (history_at C.change document.old self.old).steps)) self.old.index)
            (history_at C.change document.old self.old) }
    {
        let index = index.min(self.entries.len()).max(self.index);
        self.redo_up_to(document, index);
    }

    // Redoes until the index is this one.
    fn redo_up_to(&mut self, document: &mut Document, index: usize)
        requires sound { IsSoundAt C.change document.old self.old }
        requires order { self.old.index ≤ index }
        requires within { index ≤ length self.old.entries.items }
        ensures sound { IsSoundAt C.change document.new self.new }
        ensures has_free { self.new.has_free ≡ self.old.has_free }
        ensures stale { map (λ e. is_stale (entry_change C.change e)) self.new.entries.items ≡ map (λ e. is_stale (entry_change C.change e)) self.old.entries.items }
        ensures nests { entry_nestings self.new ≡ entry_nestings self.old }
        ensures history { history_at C.change document.new self.new ≡ positioned index (history_at C.change document.old self.old) }
    {
        if self.is_worth_a_slice(index - self.index) {
            let slice = self.entries.make_contiguous();
            redo_up(slice, document, self.index, index);
        } else {
            redo_each(&mut self.entries, document, self.index, index);
        }
        self.index = index;
    }

    // Whether it is worth laying the entries side by side for so many turns. They lie so until the limit drops one. Later
    // all of them would move, which pays where at least half are turned.
    fn is_worth_a_slice(&self, turns: usize) -> bool {
        let (_, rest) = self.entries.as_slices();
        rest.is_empty() || turns >= self.entries.len() / 2
    }
}
