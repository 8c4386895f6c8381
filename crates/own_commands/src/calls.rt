// Calls of a stack, each of which tells how the stack stands after it. Of what they do the proofs of `main` need only that the
// stack stays whole.
ghost use Rattle.std.specs.Prelude.{IfOk};
ghost use Rattle.undo_stack.specs.History.{current};
ghost use Rattle.undo_stack.specs.Stacks.{history, Holds};

use command_api::Command;
use map_model::{Document, Map, MapText};
use std::alloc::{AllocError, Global};
use std::io;
use undo_stack::Stack;

/// A stack over a new map of 8 by 8 cells, whose layer 1 is an empty tile layer and whose tiles begin at 1.
pub fn new_stack<C: Command>(alloc: Global) -> Result<Stack<C>, AllocError>
    ensures { IfOk result (Holds C.change) }
{
    let source = MapText::new(String::from_str(alloc, "town.tsj")?);
    let map = Map::create(alloc, 8, 8, 16, 16, source)?;
    Ok(Stack::new(alloc, Document::new(alloc, map), 0))
}

// A line: what was called, and the index, the count and whether the document is clean, or that the call was refused.
fn tell<C: Command>(
    rt: &impl Print,
    call: &str,
    is_done: bool,
    stack: &Stack<C>,
) -> io::Result<()> {
    if !is_done {
        return println!(rt; "{call}: refused");
    }
    let index = stack.index();
    let count = stack.count();
    let state = if stack.is_clean() { "clean" } else { "dirty" };
    println!(rt; "{call}: {index}/{count} {state}")
}

/// Pushes a command, which fits the document.
pub fn push<C: Command>(
    rt: &impl Print,
    stack: &mut Stack<C>,
    call: &str,
    command: C,
) -> io::Result<()>
    requires sound { Holds C.change stack.old }
    requires fits { (C.change command).fits_redo (current (history C.change stack.old)) }
    ensures { Holds C.change stack.new }
{
    let is_done = stack.push(command).is_ok();
    tell(rt, call, is_done, stack)
}

// Turns the step below the index back.
fn undo<C: Command>(rt: &impl Print, stack: &mut Stack<C>) -> io::Result<()>
    requires { Holds C.change stack.old }
    ensures { Holds C.change stack.new }
{
    let is_done = stack.undo().is_ok();
    tell(rt, "undo", is_done, stack)
}

// Makes the step above the index again.
fn redo<C: Command>(rt: &impl Print, stack: &mut Stack<C>) -> io::Result<()>
    requires { Holds C.change stack.old }
    ensures { Holds C.change stack.new }
{
    let is_done = stack.redo().is_ok();
    tell(rt, "redo", is_done, stack)
}

// Undoes or redoes until the index is this one, or the count.
fn set_index<C: Command>(
    rt: &impl Print,
    stack: &mut Stack<C>,
    call: &str,
    index: usize,
) -> io::Result<()>
    requires { Holds C.change stack.old }
    ensures { Holds C.change stack.new }
{
    let is_done = stack.set_index(index).is_ok();
    tell(rt, call, is_done, stack)
}

// Makes the index the clean one.
fn set_clean<C: Command>(rt: &impl Print, stack: &mut Stack<C>) -> io::Result<()>
    requires { Holds C.change stack.old }
    ensures { Holds C.change stack.new }
{
    let is_done = stack.set_clean().is_ok();
    tell(rt, "clean", is_done, stack)
}

// Begins a macro.
fn begin_macro<C: Command>(rt: &impl Print, stack: &mut Stack<C>) -> io::Result<()>
    requires { Holds C.change stack.old }
    ensures { Holds C.change stack.new }
{
    let is_done = stack.begin_macro("Court", "build a court").is_ok();
    tell(rt, "begin", is_done, stack)
}

// Ends the macro.
fn end_macro<C: Command>(rt: &impl Print, stack: &mut Stack<C>) -> io::Result<()>
    requires { Holds C.change stack.old }
    ensures { Holds C.change stack.new }
{
    let is_done = stack.end_macro().is_ok();
    tell(rt, "end", is_done, stack)
}

// Tells the texts of the steps, first to last.
fn list<C: Command>(rt: &impl Print, stack: &Stack<C>) -> io::Result<()> {
    for at in 0..stack.count() {
        if let Some(text) = stack.text(at) {
            println!(rt; "  step {at}: {text}")?;
        }
    }
    Ok(())
}

/// Makes the call that a word stands for.
pub fn make_call<C: Command>(rt: &impl Print, stack: &mut Stack<C>, word: &str) -> io::Result<()>
    requires { Holds C.change stack.old }
    ensures { Holds C.change stack.new }
{
    match word {
        "undo" => undo(rt, stack),
        "redo" => redo(rt, stack),
        "bottom" => set_index(rt, stack, word, 0),
        "top" => set_index(rt, stack, word, usize::MAX),
        "clean" => set_clean(rt, stack),
        "begin" => begin_macro(rt, stack),
        "end" => end_macro(rt, stack),
        _ => list(rt, stack),
    }
}
