// Free commands among others: which of them go, what stands behind that, and which boxes were turned and dropped.
ghost use Rattle.std.specs.Prelude.{◌≡◌, IfSome, false};
ghost use Rattle.command_api.specs.Names.{is_free};
ghost use Rattle.command_api.specs.Offers.{Nothing};
ghost use Rattle.library_tests.specs.Fading.{fading};
ghost use Rattle.map_model.specs.Document.{DocumentParts};
ghost use Rattle.paint_commands.specs.Painting.{paint_change};
ghost use Rattle.undo_stack.specs.History.{current};
ghost use Rattle.undo_stack.specs.Stacks.{history, Holds};

use crate::counted_paints::{CountedPaint, new_stamp};
use crate::paints::town;
use crate::stacks::{
    Counted, Counts, add_one, begin_macro, end_macro, push, redo, set_index, undo,
};
use command_api::{Command, Offer};
use map_model::Document;
use std::alloc::{AllocError, Global};
use std::rc::Rc;
use undo_stack::Stack;

/// How a stack stands: the index, the count and the clean index.
type Stands = (usize, usize, Option<usize>);

/// How a stack of so many commands stands, and how often each was redone, undone and dropped, in order of the pushes.
type Left<const N: usize> = (Stands, [Counted; N]);

// A case is the turns of a free command, the calls behind its push, and what they leave. The free command is pushed between two
// stamps of one cell each, and is obsolete from that turn on, of which its push is the first.
//
// A free command that undo, redo or a goto leaves obsolete goes, and with it a clean index above it.
const AMONG_STAMPS: [(u32, &str, Left<3>); 4] = [
    (
        2,
        "clean undo undo",
        ((1, 2, None), [(1, 0, 0), (1, 1, 1), (1, 1, 0)]),
    ),
    (
        2,
        "clean undo undo redo",
        ((2, 2, None), [(1, 0, 0), (1, 1, 1), (2, 1, 0)]),
    ),
    (
        3,
        "undo undo redo",
        ((1, 2, Some(0)), [(1, 0, 0), (2, 1, 1), (1, 1, 0)]),
    ),
    (
        3,
        "undo undo third",
        ((2, 2, Some(0)), [(1, 0, 0), (2, 1, 1), (2, 1, 0)]),
    ),
];

// The same behind one stamp, with calls before it. One that is obsolete at its push is no step, and one in a macro stays.
const BEHIND_A_STAMP: [(&str, u32, &str, Left<2>); 2] = [
    ("", 1, "", ((1, 1, Some(0)), [(1, 0, 0), (1, 0, 1)])),
    (
        "begin",
        2,
        "end undo redo",
        ((1, 1, Some(0)), [(2, 1, 0), (2, 1, 0)]),
    ),
];

// A free command that leaves the document as it is, and is obsolete once no turn is left.
struct Fading {
    counts: Rc<Counts>,
    is_made: bool,
    turns_left: u32,
}

impl Drop for Fading {
    fn drop(self) {
        add_one(&self.counts.dropped);
        let Fading {
            counts: _,
            is_made: _,
            turns_left: _,
        } = self;
    }
}

impl Fading {
    fn turn(&mut self)
        ensures names { (fading self.new.turns_left).names ≡ (fading self.old.turns_left).names }
        ensures obsolete { is_free (fading self.old.turns_left).names.vanishing ≡ false
            → (fading self.new.turns_left).obsolete ≡ (fading self.old.turns_left).obsolete }
    {
        self.is_made = self.counts.turn(self.is_made);
        self.turns_left = self.turns_left.saturating_sub(1);
    }
}

impl Command for Fading {
    ghost change = { λ c. fading c.turns_left };

    ghost shown = { λ c. Nothing };

    fn text(&self) -> &str {
        ""
    }

    fn action_text(&self) -> &str {
        ""
    }

    fn id(&self) -> i32 {
        -1
    }

    fn obsolete(&self) -> bool {
        self.turns_left == 0
    }

    fn is_free(&self) -> bool {
        true
    }

    fn redo(&mut self, document: &mut Document) {
        let _ = document;
        self.turn();
    }

    fn undo(&mut self, document: &mut Document) {
        let _ = document;
        self.turn();
    }

    fn offer(&self) -> Offer<'_> {
        Offer::Nothing
    }

    fn merge(
        &mut self,
        alloc: Global,
        newer: &Offer<'_>,
        document: &Document,
    ) -> Result<bool, AllocError> {
        let _ = alloc;
        let _ = newer;
        let _ = document;
        Ok(false)
    }
}

fn new_fading(
    alloc: Global,
    counts: &Rc<Counts>,
    turns_left: u32,
) -> Result<Box<Fading>, AllocError> {
    let fading = Fading {
        counts: counts.clone()?,
        is_made: false,
        turns_left,
    };
    Ok(Box::new(alloc, fading)?)
}

// A free command in a box, not made yet. It fits each document.
fn boxed_fading(alloc: Global, counts: &Rc<Counts>, turns: u32) -> Option<Box<dyn Command>>
    ensures { IfSome result (λ command. (d : DocumentParts) → (change command).fits_redo d) }
{
    let fading: Box<dyn Command> = new_fading(alloc, counts, turns).ok()?;
    Some(fading)
}

// A stamp of one cell of the first row in a box, not made yet.
fn boxed_stamp(
    alloc: Global,
    document: &Document,
    counts: &Rc<Counts>,
    column: i32,
) -> Option<Box<dyn Command>>
    ensures { IfSome result (λ command. (change command).fits_redo document.now) }
{
    let stamp = new_stamp(alloc, document, counts, column, false)?;
    let boxed: Box<dyn Command> = Box::new(alloc, stamp).ok()?;
    Some(boxed)
}

// Pushes a command where it could be made, and says whether it was pushed.
fn push_made<C: Command>(stack: &mut Stack<C>, made: Option<C>) -> bool
    requires sound { Holds C.change stack.old }
    requires fits { IfSome made (λ command. (C.change command).fits_redo (current (history C.change stack.old))) }
    ensures { Holds C.change stack.new }
{
    match made {
        Some(command) => push(stack, command).is_ok(),
        None => false,
    }
}

// Makes the call that a word stands for, and says whether it was answered well.
fn call<C: Command>(stack: &mut Stack<C>, word: &str) -> bool
    requires { Holds C.change stack.old }
    ensures { Holds C.change stack.new }
{
    match word {
        "undo" => undo(stack).is_ok(),
        "redo" => redo(stack).is_ok(),
        "third" => set_index(stack, 3).is_ok(),
        "clean" => stack.set_clean().is_ok(),
        "begin" => begin_macro(stack).is_ok(),
        "end" => end_macro(stack).is_ok(),
        _ => word.is_empty(),
    }
}

// Makes the calls that words stand for, and says whether each was answered well.
fn call_all<C: Command>(stack: &mut Stack<C>, words: &str) -> bool
    requires { Holds C.change stack.old }
    ensures { Holds C.change stack.new }
{
    let mut are_done = true;
    for word in words.split(' ') {
        are_done &= call(stack, word);
    }
    are_done
}

fn stands<C: Command>(stack: &Stack<C>) -> Stands {
    (stack.index(), stack.count(), stack.clean_index())
}

// What a stamp, a free command, another stamp and calls behind them leave; `None` where one was not answered well.
fn left_among_stamps(
    alloc: Global,
    document: Document,
    turns: u32,
    calls: &str,
    pushed: [&Rc<Counts>; 3],
) -> Option<Left<3>> {
    let mut stack: Stack<Box<dyn Command>> = Stack::new(alloc, document, 0);
    let [first, free, last] = pushed;
    let below = boxed_stamp(alloc, stack.document(), first, 0);
    let is_below = push_made(&mut stack, below);
    let is_free = push_made(&mut stack, boxed_fading(alloc, free, turns));
    let above = boxed_stamp(alloc, stack.document(), last, 1);
    let is_above = push_made(&mut stack, above);
    let are_done = [is_below, is_free, is_above, call_all(&mut stack, calls)];
    let left = (stands(&stack), [first.all(), free.all(), last.all()]);
    drop(stack);
    if are_done == [true; 4] {
        Some(left)
    } else {
        None
    }
}

// The same; `None` also where the stack, once it is dropped, has not dropped each command once.
fn told_among_stamps(alloc: Global, turns: u32, calls: &str) -> Option<Left<3>> {
    let first = Counts::new(alloc).ok()?;
    let free = Counts::new(alloc).ok()?;
    let last = Counts::new(alloc).ok()?;
    let document = town(alloc).ok()?;
    let told = left_among_stamps(alloc, document, turns, calls, [&first, &free, &last]);
    let are_gone = [first.dropped.get(), free.dropped.get(), last.dropped.get()] == [1, 1, 1];
    if are_gone { told } else { None }
}

// The same of calls, a stamp, a free command and further calls.
fn left_behind_a_stamp(
    alloc: Global,
    document: Document,
    before: &str,
    turns: u32,
    calls: &str,
    pushed: [&Rc<Counts>; 2],
) -> Option<Left<2>> {
    let mut stack: Stack<Box<dyn Command>> = Stack::new(alloc, document, 0);
    let [first, free] = pushed;
    let is_begun = call_all(&mut stack, before);
    let below = boxed_stamp(alloc, stack.document(), first, 0);
    let is_below = push_made(&mut stack, below);
    let is_free = push_made(&mut stack, boxed_fading(alloc, free, turns));
    let are_done = [is_begun, is_below, is_free, call_all(&mut stack, calls)];
    let left = (stands(&stack), [first.all(), free.all()]);
    drop(stack);
    if are_done == [true; 4] {
        Some(left)
    } else {
        None
    }
}

fn told_behind_a_stamp(alloc: Global, before: &str, turns: u32, calls: &str) -> Option<Left<2>> {
    let first = Counts::new(alloc).ok()?;
    let free = Counts::new(alloc).ok()?;
    let document = town(alloc).ok()?;
    let told = left_behind_a_stamp(alloc, document, before, turns, calls, [&first, &free]);
    let are_gone = [first.dropped.get(), free.dropped.get()] == [1, 1];
    if are_gone { told } else { None }
}

// The turns and the calls of the first case that leaves something else.
fn first_other_among_stamps(alloc: Global) -> Option<(u32, &'static str)> {
    for (turns, calls, wanted) in AMONG_STAMPS {
        if told_among_stamps(alloc, turns, calls) != Some(wanted) {
            return Some((turns, calls));
        }
    }
    None
}

fn first_other_behind_a_stamp(alloc: Global) -> Option<(u32, &'static str)> {
    for (before, turns, calls, wanted) in BEHIND_A_STAMP {
        if told_behind_a_stamp(alloc, before, turns, calls) != Some(wanted) {
            return Some((turns, calls));
        }
    }
    None
}

#[test]
fn free_commands_that_are_obsolete_go(rt: HostRuntime) {
    assert_eq!(rt; first_other_among_stamps(rt.alloc()), None);
    assert_eq!(rt; first_other_behind_a_stamp(rt.alloc()), None);
}
