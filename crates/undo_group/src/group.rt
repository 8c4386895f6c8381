ghost use Rattle.std.specs.Prelude.{◌≡◌, [], ◌∷◌, ◌++◌, map, length, slice_get, IsSome, IfOk, IfErr, IfSome, IsSomeAnd, OnSome, OnOk, Some};
ghost use Rattle.std.specs.Borrow.{sem};
ghost use Rattle.std.specs.Option.{option_map, option_copied};
ghost use Rattle.undo_stack.specs.History.{is_clean};
ghost use Rattle.undo_stack.specs.Reading.{undo_text_of, redo_text_of};
ghost use Rattle.undo_stack.specs.Stacks.{history, Holds};
ghost use Rattle.undo_group.specs.Groups.{history_named, active_history, active_place, text_of_active, is_clean_active, IsNew, IsGroup, empty_group, added, removed, chosen};
ghost use Rattle.undo_group.specs.Lending.{LendsActive};
ghost use Rattle.undo_group.specs.Order.{number_left};
ghost use Rattle.undo_group.specs.Stacks.{group_of, named, stack_at, stacks_of, AreHeld, IsNotAdded, IsTakenOut};

use crate::names::Names;
use crate::order::Order;
use command_api::Command;
use indexmap::IndexMap;
use std::alloc::Global;
use undo_stack::Stack;

/// Why a call on a group is refused. The group is then as it was.
#[derive(Clone, Copy, PartialEq, Eq, Debug)]
pub enum GroupFault {
    /// A document of that name is open.
    NameTaken,
    /// No document of that name is open.
    NoSuchDocument,
    /// There was no memory.
    NoMemory,
}

/// A stack that a group did not take, and why.
#[derive(Drop)]
pub struct NotAdded<C> {
    pub fault: GroupFault,
    pub stack: Stack<C>,
}

/// Open documents with their undo stacks, in order of opening, of which at most one is active.
///
/// A caller sees the names and the histories. That each stack holds is a condition of the calls, which each of them keeps.
#[derive(Drop)]
pub struct Group<C> {
    // A document has a number here. Once it is closed, the last one gets that number, so that no other moves.
    stacks: IndexMap<String, Stack<C>>,
    order: Order,
    // The number of the active one.
    active: Option<usize>,
}

impl<C: Command> Group<C> {
    /// No documents, and none is active. Takes no memory.
    pub fn new(alloc: Global) -> Group<C>
        ensures sound { AreHeld C.change result }
        ensures group { group_of C.change result ≡ empty_group }
        ensures stacks { stacks_of result ≡ [] }
    {
        Group {
            stacks: IndexMap::new(alloc),
            order: Order::new(alloc),
            active: None,
        }
    }

    /// Puts a document last. The choice of the active one stays.
    ///
    /// The answer is `NameTaken` where a document of that name is open, and else `NoMemory` where there is none. The stack
    /// is then handed back, and the group is as it was.
    pub fn add(&mut self, alloc: Global, name: &str, stack: Stack<C>) -> Result<(), NotAdded<C>>
        requires sound { AreHeld C.change self.old }
        requires held { Holds C.change stack }
        ensures sound { AreHeld C.change self.new }
        ensures new { OnOk result (IsNew name.now (group_of C.change self.old).documents) }
        ensures added { OnOk result (group_of C.change self.new ≡ added name.now (history C.change stack) (group_of C.change self.old)) }
        ensures last { OnOk result (stacks_of self.new ≡ stacks_of self.old ++ named name.now stack ∷ []) }
        ensures unchanged { IfErr result (λ _. group_of C.change self.new ≡ group_of C.change self.old) }
        ensures stacks { IfErr result (λ _. stacks_of self.new ≡ stacks_of self.old) }
        ensures stack { IfErr result (λ refused. refused.stack ≡ stack) }
        ensures fault { IfErr result (λ refused. IsNotAdded name.now (group_of C.change self.old).documents refused.fault) }
    {
        if self.stacks.contains_key(name) {
            return Err(NotAdded {
                fault: GroupFault::NameTaken,
                stack,
            });
        }
        let Ok(key) = String::from_str(alloc, name) else {
            return Err(NotAdded {
                fault: GroupFault::NoMemory,
                stack,
            });
        };
        if self.order.reserve().is_err() {
            return Err(NotAdded {
                fault: GroupFault::NoMemory,
                stack,
            });
        }
        match self.stacks.insert(key, stack) {
            Ok(_) => {
                self.order.push_reserved();
                Ok(())
            }
            Err(refused) => {
                let (_, stack) = refused.value;
                Err(NotAdded {
                    fault: GroupFault::NoMemory,
                    stack,
                })
            }
        }
    }

    /// Puts a document last, as `add` does, and makes it the active one.
    pub fn add_active(
        &mut self,
        alloc: Global,
        name: &str,
        stack: Stack<C>,
    ) -> Result<(), NotAdded<C>>
        requires sound { AreHeld C.change self.old }
        requires held { Holds C.change stack }
        ensures sound { AreHeld C.change self.new }
        ensures new { OnOk result (IsNew name.now (group_of C.change self.old).documents) }
        ensures added { OnOk result (group_of C.change self.new ≡ chosen (Some name.now) (added name.now (history C.change stack) (group_of C.change self.old))) }
        ensures last { OnOk result (stacks_of self.new ≡ stacks_of self.old ++ named name.now stack ∷ []) }
        ensures unchanged { IfErr result (λ _. group_of C.change self.new ≡ group_of C.change self.old) }
        ensures stacks { IfErr result (λ _. stacks_of self.new ≡ stacks_of self.old) }
        ensures stack { IfErr result (λ refused. refused.stack ≡ stack) }
        ensures fault { IfErr result (λ refused. IsNotAdded name.now (group_of C.change self.old).documents refused.fault) }
    {
        if let Err(refused) = self.add(alloc, name, stack) {
            return Err(refused);
        }
        self.active = self.order.last();
        Ok(())
    }

    /// Takes a document out, gives its stack, and leaves the others in their order. Where it was the active one, none is
    /// active. Takes no memory.
    ///
    /// The answer is `NoSuchDocument` where no document of that name is open, and the group is then as it was.
    pub fn remove(&mut self, name: &str) -> Result<Stack<C>, GroupFault>
        requires { AreHeld C.change self.old }
        ensures sound { AreHeld C.change self.new }
        ensures held { IfOk result (λ stack. Holds C.change stack) }
        ensures stack { IfOk result (λ stack. history_named name.now (group_of C.change self.old).documents ≡ Some (history C.change stack)) }
        ensures taken { IfOk result (λ stack. IsTakenOut name.now (stacks_of self.old) stack (stacks_of self.new)) }
        ensures removed { IfOk result (λ _. group_of C.change self.new ≡ removed name.now (group_of C.change self.old)) }
        ensures fault { IfErr result (λ fault. fault ≡ GroupFault.NoSuchDocument) }
        ensures none { IfErr result (λ _. IsNew name.now (group_of C.change self.old).documents) }
        ensures unchanged { IfErr result (λ _. group_of C.change self.new ≡ group_of C.change self.old) }
        ensures stacks { IfErr result (λ _. stacks_of self.new ≡ stacks_of self.old) }
    {
        let Some(at) = self.stacks.get_index_of(name) else {
            return Err(GroupFault::NoSuchDocument);
        };
        let last = self.stacks.len() - 1;
        let (_, stack) = self.stacks.swap_remove_index(at).unwrap();
        self.order.remove(at);
        self.active = number_left(self.active, at, last);
        Ok(stack)
    }

    /// Makes the document of this name the active one, or none. Takes no memory.
    ///
    /// The answer is `NoSuchDocument` where no document of that name is open, and the group is then as it was.
    pub fn set_active(&mut self, name: Option<&str>) -> Result<(), GroupFault>
        requires { AreHeld C.change self.old }
        ensures sound { AreHeld C.change self.new }
        ensures open { OnOk result (IfSome name.entry (λ n. IsSome (history_named n.now (group_of C.change self.old).documents))) }
        ensures chosen { OnOk result (group_of C.change self.new ≡ chosen (option_copied name.entry) (group_of C.change self.old)) }
        ensures fault { IfErr result (λ fault. fault ≡ GroupFault.NoSuchDocument) }
        ensures none { IfErr result (λ _. IsSomeAnd name.entry (λ n. IsNew n.now (group_of C.change self.old).documents)) }
        ensures unchanged { IfErr result (λ _. group_of C.change self.new ≡ group_of C.change self.old) }
        ensures stacks { stacks_of self.new ≡ stacks_of self.old }
    {
        let Some(name) = name else {
            self.active = None;
            return Ok(());
        };
        let Some(at) = self.stacks.get_index_of(name) else {
            return Err(GroupFault::NoSuchDocument);
        };
        self.active = Some(at);
        Ok(())
    }

    /// The stack of the active document, and `None` where none is active.
    pub fn active(&self) -> Option<&Stack<C>>
        requires { AreHeld C.change self.now }
        ensures active { option_map (λ stack. history C.change stack.now) result ≡ active_history (group_of C.change self.now) }
        ensures stack { option_map (λ stack. stack.now) result ≡ stack_at (group_of C.change self.now).active (stacks_of self.now) }
        ensures held { IfSome result (λ stack. Holds C.change stack.now) }
    {
        let (_, stack) = self.stacks.get_index(self.active?)?;
        Some(stack)
    }

    /// The stack of the active document, to be changed, and `None` where none is active. What is left behind the reference
    /// is that document's stack, and all else is as it was.
    pub fn active_mut(&mut self) -> Option<&mut Stack<C>>
        requires { AreHeld C.change self.old }
        ensures* lends { sem 𝓛 (LendsActive C.row C.change self.entry result) }
        ensures active { option_map (λ stack. history C.change stack.now) result ≡ active_history (group_of C.change self.old) }
        ensures stack { option_map (λ stack. stack.now) result ≡ stack_at (group_of C.change self.old).active (stacks_of self.old) }
        ensures held { IfSome result (λ stack. Holds C.change stack.now) }
        ensures whole { OnSome result (IsGroup (group_of C.change self.old)) }
    {
        match self.active {
            Some(at) => self.stacks.get_index_mut(at),
            None => None,
        }
    }

    /// The name of the active document.
    pub fn active_name(&self) -> Option<&str>
        requires { AreHeld C.change self.now }
        ensures { option_copied result ≡ (group_of C.change self.now).active }
    {
        let (name, _) = self.stacks.get_index(self.active?)?;
        Some(name.as_str())
    }

    /// The stack of the document of this name.
    pub fn get(&self, name: &str) -> Option<&Stack<C>>
        requires { AreHeld C.change self.now }
        ensures named { option_map (λ stack. history C.change stack.now) result ≡ history_named name.now (group_of C.change self.now).documents }
        ensures held { IfSome result (λ stack. Holds C.change stack.now) }
    {
        self.stacks.get(name)
    }

    /// How many documents are open.
    pub fn count(&self) -> usize
        requires { AreHeld C.change self.now }
        ensures { result ≡ length (group_of C.change self.now).documents }
    {
        self.stacks.len()
    }

    /// The name of the document at a place in the order of opening, where the first one has 0. `None` past the last one.
    pub fn name_at(&self, place: usize) -> Option<&str>
        requires { AreHeld C.change self.now }
        ensures { option_copied result ≡ option_map (λ d. d.name) (slice_get (group_of C.change self.now).documents place) }
    {
        let (name, _) = self.stacks.get_index(self.order.entry_at(place)?)?;
        Some(name.as_str())
    }

    /// The stack of the document at a place, and `None` past the last one.
    pub fn stack_at(&self, place: usize) -> Option<&Stack<C>>
        requires { AreHeld C.change self.now }
        ensures placed { option_map (λ stack. history C.change stack.now) result ≡ option_map (λ d. d.history) (slice_get (group_of C.change self.now).documents place) }
        ensures held { IfSome result (λ stack. Holds C.change stack.now) }
    {
        let (_, stack) = self.stacks.get_index(self.order.entry_at(place)?)?;
        Some(stack)
    }

    /// The place of the active document, and `None` where none is active.
    pub fn active_place(&self) -> Option<usize>
        requires { AreHeld C.change self.now }
        ensures { result ≡ active_place (group_of C.change self.now) }
    {
        Some(self.order.place_of(self.active?))
    }

    /// The names of the open documents, in order of opening.
    pub fn names(&self) -> Names<'_>
        requires { AreHeld C.change self.now }
        ensures names { result ≡ map (λ d. d.name) (group_of C.change self.now).documents }
        ensures whole { IsGroup (group_of C.change self.now) }
    {
        Names::over(self.order.entries(), self.stacks.keys().as_slice())
    }

    /// The text for undo of the active document, and empty where none is active.
    pub fn undo_text(&self) -> &str
        requires { AreHeld C.change self.now }
        ensures { result.now ≡ text_of_active undo_text_of (active_history (group_of C.change self.now)) }
    {
        match self.active() {
            Some(stack) => stack.undo_text(),
            None => "",
        }
    }

    /// The text for redo of the active document, and empty where none is active.
    pub fn redo_text(&self) -> &str
        requires { AreHeld C.change self.now }
        ensures { result.now ≡ text_of_active redo_text_of (active_history (group_of C.change self.now)) }
    {
        match self.active() {
            Some(stack) => stack.redo_text(),
            None => "",
        }
    }

    /// Whether the active document is clean, or none is active.
    pub fn is_clean(&self) -> bool
        requires { AreHeld C.change self.now }
        ensures { result ≡ is_clean_active is_clean (active_history (group_of C.change self.now)) }
    {
        match self.active() {
            Some(stack) => stack.is_clean(),
            None => true,
        }
    }
}

// The number of the active one, once the stack at another number is taken out, which the last one gets.
fn number_left(active: Option<usize>, gone: usize, last: usize) -> Option<usize>
    ensures { result ≡ number_left gone last active }
{
    let at = active?;
    if at == gone {
        return None;
    }
    if at == last { Some(gone) } else { Some(at) }
}
