ghost use Rattle.std.specs.Prelude.{◌≡◌, ◌↔◌, ◌≤◌, ◌<◌, ◌+◌, ◌-◌, ◌++◌, ◌∷◌, [], length, take, drop, slice_get, IfOk, IfErr, MatchOption, Some, false, true, max};
ghost use Rattle.std.specs.VecDeque.{deque_capacity};
ghost use Rattle.map_model.specs.Document.{DocumentParts};
ghost use Rattle.command_api.specs.Names.{is_free};
ghost use Rattle.command_api.specs.Offers.{IsOfferOf, shown_of};
ghost use Rattle.undo_stack.specs.History.{current, step_named};
ghost use Rattle.undo_stack.specs.Pushing.{IsPushed, step_of, up_to, lowered, with_added};
ghost use Rattle.undo_stack.specs.Calm.{IsLive};
ghost use Rattle.undo_stack.specs.Entries.{entry_change, depth};
ghost use Rattle.undo_stack.specs.Held.{Becomes, IsCut, history_at, shape_at, entry_nestings, target_in, IsHeld, IsHeldToLast};
ghost use Rattle.undo_stack.specs.Held.{MergesInto, MergesNestings, IsSettledAt};
ghost use Rattle.undo_stack.specs.Merging.{HasTarget, IsEntered, left_of};
ghost use Rattle.undo_stack.specs.Nestings.{entered_nestings, within_limit, nesting};
ghost use Rattle.undo_stack.specs.Reporting.{TakesIn, IsReportedAt, reports};
ghost use Rattle.undo_stack.specs.Told.{says_gone, says_merged, IsToldAt, TellsDrop};
ghost use Rattle.undo_stack.specs.Sound.{sequence_depth};
ghost use Rattle.undo_stack.specs.declared.limits.TheConstants.{MAX_DEPTH};

mod turning;

use crate::entry::Entry;
use crate::pushed::Pushed;
use command_api::{Command, Offer};
use map_model::Document;
use std::alloc::{AllocError, Global};
use std::collections::VecDeque;

/// Entries, with a position among them: what a stack keeps, and what an open macro keeps, where all entries are done.
#[derive(Drop)]
pub struct Sequence<C> {
    pub entries: VecDeque<Entry<C>>,
    // The number of entries that are done, at most all of them.
    pub index: usize,
    // The index at which the document counts as clean, until a push cuts it away. A macro has none.
    pub clean: Option<usize>,
    // The most entries that are kept, or 0 for any number, as in a macro.
    pub limit: usize,
    // Whether a free command may stand among the entries. Only then is each one looked at when it was turned.
    pub has_free: bool,
}

impl<C: Command> Sequence<C> {
    /// A sequence with no entries, this clean index, and this limit, where 0 stands for any number. Where `has_free` is true, no
    /// entry is asked whether it is a free command.
    pub fn new(alloc: Global, clean: Option<usize>, limit: usize, has_free: bool) -> Sequence<C>
        ensures entries { result.entries.items ≡ [] }
        ensures index { result.index ≡ 0 }
        ensures clean { result.clean ≡ clean }
        ensures limit { result.limit ≡ limit }
    {
        Sequence {
            entries: VecDeque::new(alloc),
            index: 0,
            clean,
            limit,
            has_free,
        }
    }

    /// The entry below the index, and `None` where the index is 0.
    pub fn last(&self) -> Option<&Entry<C>>
        ensures { MatchOption result (self.now.index ≤ length self.now.entries.items → self.now.index ≡ 0)
            (λ entry. (0 < self.now.index) × (slice_get self.now.entries.items (self.now.index - 1) ≡ Some entry.now)) }
    {
        if self.index == 0 {
            return None;
        }
        self.entries.get(self.index - 1)
    }

    /// Drops all entries. The limit stays, and the clean index is 0.
    pub fn clear(&mut self)
        ensures entries { self.new.entries.items ≡ [] }
        ensures index { self.new.index ≡ 0 }
        ensures clean { self.new.clean ≡ Some 0 }
        ensures limit { self.new.limit ≡ self.old.limit }
    {
        // Of what a sequence keeps only the limit outlives this.
        let Sequence {
            entries,
            index,
            clean,
            limit: _,
            has_free,
        } = self;
        entries.clear();
        *index = 0;
        *clean = Some(0);
        *has_free = false;
    }

    /// Makes the change of a command, and puts it in. Tells what it became. Where there is no memory the command is dropped, and
    /// the sequence and the document are as they were.
    #[inline(always)]
    pub fn push(
        &mut self,
        alloc: Global,
        mut command: C,
        document: &mut Document,
    ) -> Result<Pushed, AllocError>
        requires held { IsHeld C.change document.old self.old }
        requires fits { (C.change command).fits_redo document.old }
        ensures held { IsHeld C.change document.new self.new }
        ensures pushed { IfOk result (λ _. IsPushed
            (history_at C.change document.old self.old)
            (step_of (C.change command) (current (history_at C.change document.old self.old)))
            (history_at C.change document.new self.new)) }
        ensures depth { sequence_depth self.new.entries.items ≤ sequence_depth self.old.entries.items }
        ensures reported { IfOk result (λ _. IsReportedAt C.change command document.old (target_in self.old)
            (shape_at C.change document.old self.old) document.new (shape_at C.change document.new self.new)) }
        ensures told { IfOk result (λ p. IsToldAt C.change command document.old (target_in self.old)
            (shape_at C.change document.old self.old) document.new (shape_at C.change document.new self.new) p) }
        ensures dropped { IfOk result (λ p. TellsDrop p [] (history_at C.change document.old self.old)) }
        ensures unchanged { IfErr result (λ _. history_at C.change document.new self.new ≡ history_at C.change document.old self.old) }
        ensures kept { IfErr result (λ _. entry_nestings self.new ≡ entry_nestings self.old) }
    {
        command.redo(document);
        match self.merge(alloc, &command, document) {
            Ok(true) => {
                drop(command);
                let is_gone = self.settle();
                Ok(Pushed::merged(is_gone))
            }
            Ok(false) => self.enter(command, document),
            Err(error) => {
                command.undo(document);
                Err(error)
            }
        }
    }

    // The target takes the command in, which led to the document, and the entries above the index go. Says whether it did.
    // Where it did not, or there is no memory, the history is as it was.
    #[inline(always)]
    fn merge(&mut self, alloc: Global, command: &C, document: &Document) -> Result<bool, AllocError>
        requires held { IsHeld C.change ((C.change command.now).undone document.now) self.old }
        requires fits { (C.change command.now).fits_undo document.now }
        ensures merged { MergesInto C.change command.now document.now self.old result self.new }
        ensures joined { TakesIn C.change command.now document.now (target_in self.old) result (target_in self.new) }
        ensures nests { MergesNestings self.old result self.new }
    {
        // Where no entry is below the index, none takes the command in.
        if self.index == 0 {
            return Ok(false);
        }
        // The offer is lent where it was made: it is larger than most commands.
        self.merge_offered(alloc, command, &command.offer(), document)
    }

    // The target takes a command in by the offer that the command makes.
    #[inline(always)]
    fn merge_offered(
        &mut self,
        alloc: Global,
        command: &C,
        offer: &Offer<'_>,
        document: &Document,
    ) -> Result<bool, AllocError>
        requires some { 0 < self.old.index }
        requires offer { IsOfferOf (C.change command.now) (shown_of offer.now) }
        requires held { IsHeld C.change ((C.change command.now).undone document.now) self.old }
        requires fits { (C.change command.now).fits_undo document.now }
        ensures merged { MergesInto C.change command.now document.now self.old result self.new }
        ensures joined { TakesIn C.change command.now document.now (target_in self.old) result (target_in self.new) }
        ensures nests { MergesNestings self.old result self.new }
    {
        // Most commands do not follow, and pay no more than that one call.
        if let Offer::Nothing = offer {
            return Ok(false);
        }
        self.merge_into(alloc, command, offer, document)
    }

    // The entry below the index takes a command in by an offer that has something.
    fn merge_into(
        &mut self,
        alloc: Global,
        command: &C,
        offer: &Offer<'_>,
        document: &Document,
    ) -> Result<bool, AllocError>
        requires some { 0 < self.old.index }
        requires offer { IsOfferOf (C.change command.now) (shown_of offer.now) }
        requires held { IsHeld C.change ((C.change command.now).undone document.now) self.old }
        requires fits { (C.change command.now).fits_undo document.now }
        ensures merged { MergesInto C.change command.now document.now self.old result self.new }
        ensures joined { TakesIn C.change command.now document.now (target_in self.old) result (target_in self.new) }
        ensures nests { MergesNestings self.old result self.new }
    {
        if self.clean == Some(self.index) {
            return Ok(false);
        }
        let below = self.index - 1;
        if !self.entries[below].merge(alloc, command, offer, document)? {
            return Ok(false);
        }
        self.cut();
        Ok(true)
    }

    // The target goes where it is obsolete. Says whether it did.
    fn settle(&mut self) -> bool
        requires some { 0 < self.old.index }
        requires at_end { self.old.index ≡ length self.old.entries.items }
        ensures settled { (d : DocumentParts) → IsHeldToLast C.change d self.old → HasTarget [] (history_at C.change d self.old)
            → IsSettledAt C.change d self.old self.new }
        ensures nests { entry_nestings self.new ≡ left_of (reports C.change (target_in self.old)) (entry_nestings self.old) }
        ensures gone { result ≡ reports C.change (target_in self.old) }
    {
        let below = self.index - 1;
        if self.entries[below].obsolete() {
            self.entries.truncate(below);
            self.index = below;
            true
        } else {
            false
        }
    }

    // Puts a command, which led to the document and merges into nothing, in. Tells what it became. Where there is no memory it is
    // undone.
    fn enter(&mut self, mut command: C, document: &mut Document) -> Result<Pushed, AllocError>
        requires held { IsHeld C.change ((C.change command).undone document.old) self.old }
        requires fits { (C.change command).fits_undo document.old }
        ensures held { IsHeld C.change document.new self.new }
        ensures document { IfOk result (λ _. document.new ≡ document.old) }
        ensures depth { sequence_depth self.new.entries.items ≤ sequence_depth self.old.entries.items }
        ensures entered { IfOk result (λ _. IsEntered (C.change command).obsolete
            (history_at C.change ((C.change command).undone document.old) self.old)
            (step_named (C.change command).names document.old)
            (history_at C.change document.new self.new)) }
        ensures unchanged { IfErr result (λ _. history_at C.change document.new self.new
            ≡ history_at C.change ((C.change command).undone document.old) self.old) }
        ensures nests { IfOk result (λ _. entry_nestings self.new
            ≡ entered_nestings (C.change command).obsolete self.old.limit (take self.old.index (entry_nestings self.old))) }
        ensures kept { IfErr result (λ _. entry_nestings self.new ≡ entry_nestings self.old) }
        ensures merged { IfOk result (λ p. says_merged p ≡ false) }
        ensures gone { IfOk result (λ p. says_gone p ≡ (C.change command).obsolete) }
        ensures dropped { IfOk result (λ p. TellsDrop p [] (history_at C.change document.old self.old)) }
    {
        if command.obsolete() {
            self.cut();
            return Ok(Pushed::Nothing);
        }
        // The room is taken before the cut: a refused push keeps the steps above the index.
        if let Err(error) = self.take_room() {
            command.undo(document);
            return Err(error);
        }
        self.cut();
        let is_dropped = self.add(Entry::Command(command));
        Ok(Pushed::added(is_dropped))
    }

    /// Sees to it that there is room for an entry at the index once those above it are gone.
    pub fn take_room(&mut self) -> Result<(), AllocError>
        requires { self.old.index ≤ length self.old.entries.items }
        ensures same { Becomes self.old self.old.entries.items self.old.index self.old.clean self.new }
        ensures room { IfOk result (λ _. self.old.index < deque_capacity self.new.entries) }
    {
        if self.index == self.entries.len() {
            self.entries.reserve(1)?;
        }
        Ok(())
    }

    /// The entries above the index go, and a clean index above it is lost.
    #[inline(always)]
    pub fn cut(&mut self)
        ensures cut { IsCut self.old self.new }
        ensures room { deque_capacity self.new.entries ≡ deque_capacity self.old.entries }
    {
        if self.index < self.entries.len() {
            // Mostly one entry is above the index, that of the step that was undone last.
            if self.entries.len() - self.index == 1 {
                let _ = self.entries.pop_back();
            } else {
                self.entries.truncate(self.index);
            }
        }
        self.lose_clean();
    }

    // A clean index above the index is lost.
    #[inline(always)]
    pub(super) fn lose_clean(&mut self)
        ensures { self.new ≡ record self.old { clean = up_to self.old.index self.old.clean } }
    {
        if let Some(clean) = self.clean {
            if clean > self.index {
                self.clean = None;
            }
        }
    }

    /// Puts an entry, which led to the document, above the others, which are all done. The first one goes where that is one too
    /// many. Says whether it did.
    pub fn add(&mut self, entry: Entry<C>) -> bool
        requires at_end { self.old.index ≡ length self.old.entries.items }
        requires count { 0 < self.old.limit → length self.old.entries.items ≤ self.old.limit }
        requires room { self.old.index < deque_capacity self.old.entries }
        requires depth { depth entry ≤ MAX_DEPTH }
        requires live { IsLive (entry_change C.change entry) }
        ensures held { (d : DocumentParts) → (entry_change C.change entry).fits_undo d
            → IsHeld C.change ((entry_change C.change entry).undone d) self.old → IsHeld C.change d self.new }
        ensures depth { sequence_depth self.new.entries.items ≤ max (sequence_depth self.old.entries.items) (depth entry) }
        ensures at_end { self.new.index ≡ length self.new.entries.items }
        ensures added { (d : DocumentParts) → history_at C.change d self.new
            ≡ with_added (step_named (entry_change C.change entry).names d) [] (history_at C.change ((entry_change C.change entry).undone d) self.old) }
        ensures nests { entry_nestings self.new ≡ within_limit self.old.limit (entry_nestings self.old ++ nesting entry ∷ []) }
        ensures dropped { result ≡ true ↔ (0 < self.old.limit) × (self.old.limit < self.old.index + 1) }
    {
        self.has_free = self.is_free_with(&entry);
        self.entries.push_back_reserved(entry);
        self.index += 1;
        if self.limit != 0 {
            self.drop_surplus()
        } else {
            false
        }
    }

    // Whether a free command may stand among the entries and this one.
    #[inline(always)]
    fn is_free_with(&self, entry: &Entry<C>) -> bool
        ensures { result ≡ false → (self.now.has_free ≡ false) × (is_free (entry_change C.change entry.now).names.vanishing ≡ false) }
    {
        self.has_free || entry.is_free()
    }

    // Where the entries are one more than the limit, the first one goes. All are done. Says whether it did.
    fn drop_surplus(&mut self) -> bool
        requires limit { 0 < self.old.limit }
        requires at_end { self.old.index ≡ length self.old.entries.items }
        requires count { self.old.index ≤ self.old.limit + 1 }
        ensures left { let k = self.old.index - self.old.limit in
            Becomes self.old (drop k self.old.entries.items) (self.old.index - k) (lowered k self.old.clean) self.new }
        ensures dropped { result ≡ true ↔ self.old.limit < self.old.index }
    {
        if self.index > self.limit {
            let _ = self.entries.pop_front();
            self.index -= 1;
            self.clean = one_lower(self.clean);
            true
        } else {
            false
        }
    }
}

// A clean index, one lower, or lost where it is 0.
fn one_lower(clean: Option<usize>) -> Option<usize>
    ensures { result ≡ lowered 1 clean }
{
    match clean {
        Some(at) if at > 0 => Some(at - 1),
        _ => None,
    }
}
