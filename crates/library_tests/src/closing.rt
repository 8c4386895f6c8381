// A document that is closed drops what its steps own.
ghost use Rattle.std.specs.Prelude.{IfOk};
ghost use Rattle.map_model.specs.Document.{DocumentParts};
ghost use Rattle.undo_group.specs.Stacks.{AreHeld};
ghost use Rattle.undo_stack.specs.Stacks.{Holds};

use crate::stacks::{Counts, blank, two_counts, two_probes};
use command_api::Command;
use std::alloc::{AllocError, Global};
use std::rc::Rc;
use undo_group::Group;
use undo_stack::Stack;

// A stack with one step.
fn stack_with<C: Command>(alloc: Global, command: C) -> Result<Stack<C>, AllocError>
    requires { (d : DocumentParts) → (C.change command).fits_redo d }
    ensures { IfOk result (λ stack. Holds C.change stack) }
{
    let mut stack = Stack::new(alloc, blank(alloc)?, 0);
    match stack.push(command) {
        Ok(()) => Ok(stack),
        Err(error) => Err(error),
    }
}

// Adds a document with one step, and says whether it could. The proof of the test needs only that the group stays whole.
fn add<C: Command>(alloc: Global, group: &mut Group<C>, name: &str, command: C) -> bool
    requires sound { AreHeld C.change group.old }
    requires fits { (d : DocumentParts) → (C.change command).fits_redo d }
    ensures { AreHeld C.change group.new }
{
    match stack_with(alloc, command) {
        Ok(stack) => group.add(alloc, name, stack).is_ok(),
        Err(_) => false,
    }
}

// Takes a document out, and drops it.
fn close<C: Command>(group: &mut Group<C>, name: &str) -> bool
    requires { AreHeld C.change group.old }
    ensures { AreHeld C.change group.new }
{
    group.remove(name).is_ok()
}

/// What came of two documents: whether they were added, how often each one's command was dropped before the first is closed,
/// whether it was closed, and how often each was dropped behind that, and once both are gone.
type Closed = ([bool; 2], (u32, u32), bool, (u32, u32), (u32, u32));

fn closed<C: Command>(
    alloc: Global,
    below: C,
    other: C,
    first: &Rc<Counts>,
    second: &Rc<Counts>,
) -> Closed
    requires below { (d : DocumentParts) → (C.change below).fits_redo d }
    requires other { (d : DocumentParts) → (C.change other).fits_redo d }
{
    let mut group: Group<C> = Group::new(alloc);
    let are_open = [
        add(alloc, &mut group, "a", below),
        add(alloc, &mut group, "b", other),
    ];
    let before = (first.dropped.get(), second.dropped.get());
    let is_closed = close(&mut group, "a");
    let between = (first.dropped.get(), second.dropped.get());
    drop(group);
    let after = (first.dropped.get(), second.dropped.get());
    (are_open, before, is_closed, between, after)
}

fn boxes_closed(alloc: Global) -> Option<Closed> {
    let (first, second) = two_counts(alloc)?;
    let (below, other) = two_probes(alloc, &first, &second)?;
    let below: Box<dyn Command> = below;
    let other: Box<dyn Command> = other;
    Some(closed(alloc, below, other, &first, &second))
}

#[test]
fn closed_document_lets_go_of_each_box_once(rt: HostRuntime) {
    let wanted = ([true; 2], (0, 0), true, (1, 0), (1, 1));
    assert_eq!(rt; boxes_closed(rt.alloc()), Some(wanted));
}
