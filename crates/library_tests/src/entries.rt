// Of the entries of a stack, what no clause says: which commands they are, and which one was done last.

ghost use Rattle.std.specs.Prelude.{[], false, refl};
ghost use Rattle.command_api.specs.Names.{untagged, Never};
ghost use Rattle.library_tests.specs.Still.{still};
ghost use Rattle.map_model.specs.Document.{DocumentParts};
ghost use Rattle.undo_stack.specs.Stacks.{Holds};

use crate::stacks::{begin_macro, end_macro, new_stack, push, undo};
use command_api::{Command, Exchange, Label, Lone};
use map_model::Document;
use std::alloc::Global;
use undo_stack::{Entry, Stack};

// A command that has a number, and leaves the document as it is.
#[derive(Drop)]
struct Numbered {
    number: u32,
}

impl Exchange for Numbered {
    ghost exchange_parts = { λ _. still (untagged [] [] Never) false };

    fn label(&self) -> Label {
        Label::untagged("", "")
    }

    fn is_obsolete(&self) -> bool {
        false
    }

    fn exchange(&mut self, document: &mut Document) {
        let _ = document;
    }
}

impl Lone for Numbered {
    ghost alone = { λ _. record { tag = refl; follows = refl; bound = refl } };
}

/// What an entry is, and `None` where there is none: the number of its command, or how many entries a macro has.
type Seen = Option<Result<u32, usize>>;

fn seen(entry: Option<&Entry<Numbered>>) -> Seen {
    let entry = entry?;
    match entry.command() {
        Some(command) => Some(Ok(command.number)),
        None => Some(Err(entry.entries().len())),
    }
}

// The entries with the numbers 0 and 1, and the one that was done last.
fn steps_of(stack: &Stack<Numbered>) -> [Seen; 3] {
    [
        seen(stack.entry(0)),
        seen(stack.entry(1)),
        seen(stack.last()),
    ]
}

// The first two entries of both levels, and how many each of the first three levels has.
fn open_of(stack: &Stack<Numbered>) -> ([Seen; 4], [Option<usize>; 3]) {
    let entries = [
        seen(stack.open_entry(0, 0)),
        seen(stack.open_entry(0, 1)),
        seen(stack.open_entry(1, 0)),
        seen(stack.open_entry(1, 1)),
    ];
    let counts = [
        stack.open_count(0),
        stack.open_count(1),
        stack.open_count(2),
    ];
    (entries, counts)
}

// What stands in the macro that is the step with the number 1: its entries, and those of its second one.
fn inside_of(stack: &Stack<Numbered>) -> Option<[Seen; 4]> {
    let entries = stack.entry(1)?.entries();
    let inner = entries.get(1)?.entries();
    Some([
        seen(entries.first()),
        seen(entries.get(1)),
        seen(inner.first()),
        seen(inner.get(1)),
    ])
}

// Pushes three commands: before a macro, in it, and in a macro in that. Both stay open.
fn nested<C: Command>(stack: &mut Stack<C>, first: C, second: C, third: C) -> Option<()>
    requires sound { Holds C.change stack.old }
    requires first { (d : DocumentParts) → (C.change first).fits_redo d }
    requires second { (d : DocumentParts) → (C.change second).fits_redo d }
    requires third { (d : DocumentParts) → (C.change third).fits_redo d }
    ensures { Holds C.change stack.new }
{
    push(stack, first).ok()?;
    begin_macro(stack).ok()?;
    push(stack, second).ok()?;
    begin_macro(stack).ok()?;
    push(stack, third).ok()?;
    Some(())
}

fn command_of(number: u32) -> Numbered {
    Numbered { number }
}

// The last entry before any push, in an open macro with none, and behind each of two undos.
fn lasts(alloc: Global) -> Option<[Seen; 4]> {
    let mut stack = new_stack(alloc)?;
    let at_first = seen(stack.last());
    push(&mut stack, command_of(1)).ok()?;
    begin_macro(&mut stack).ok()?;
    let in_an_empty_one = seen(stack.last());
    end_macro(&mut stack).ok()?;
    undo(&mut stack).ok()?;
    let after_one = seen(stack.last());
    undo(&mut stack).ok()?;
    Some([at_first, in_an_empty_one, after_one, seen(stack.last())])
}

#[test]
fn the_last_entry_is_that_of_the_innermost(rt: HostRuntime) {
    let wanted = [None, None, Some(Ok(1)), None];
    assert_eq!(rt; lasts(rt.alloc()), Some(wanted));
}

fn while_open(alloc: Global) -> Option<([Seen; 3], ([Seen; 4], [Option<usize>; 3]))> {
    let mut stack = new_stack(alloc)?;
    nested(&mut stack, command_of(1), command_of(2), command_of(3))?;
    Some((steps_of(&stack), open_of(&stack)))
}

#[test]
fn open_macros_lend_their_entries(rt: HostRuntime) {
    let steps = [Some(Ok(1)), None, Some(Ok(3))];
    let entries = [Some(Ok(2)), None, Some(Ok(3)), None];
    let counts = [Some(1), Some(1), None];
    assert_eq!(rt; while_open(rt.alloc()), Some((steps, (entries, counts))));
}

fn once_ended(alloc: Global) -> Option<([Seen; 3], Option<[Seen; 4]>)> {
    let mut stack = new_stack(alloc)?;
    nested(&mut stack, command_of(1), command_of(2), command_of(3))?;
    end_macro(&mut stack).ok()?;
    end_macro(&mut stack).ok()?;
    Some((steps_of(&stack), inside_of(&stack)))
}

#[test]
fn ended_macros_lend_their_entries(rt: HostRuntime) {
    let steps = [Some(Ok(1)), Some(Err(2)), Some(Err(2))];
    let inside = [Some(Ok(2)), Some(Err(1)), Some(Ok(3)), None];
    assert_eq!(rt; once_ended(rt.alloc()), Some((steps, Some(inside))));
}
