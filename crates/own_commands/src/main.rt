//! Commands of a caller's own on an undo stack: what is called, and how the stack stands after each call.
#![tactic(auto)]

ghost use Rattle.std.specs.Prelude.{◌≤◌, IfOk};
ghost use Rattle.undo_stack.specs.Stacks.{Holds};
ghost use Rattle.own_commands.specs.Framing.{frame_change};
ghost use Rattle.own_commands.specs.Reminding.{reminder_change};

mod calls;
mod frame;
mod reminder;

use crate::calls::{make_call, new_stack, push};
use crate::frame::Frame;
use crate::reminder::Reminder;
use edits::Area;
use map_model::Document;
use std::alloc::{AllocError, Global};
use std::io;
use tile_id::Gid;
use undo_stack::Stack;

// What is shown of reminders, and the words of the calls on a new stack that show it. `reminder-2` pushes a reminder of two
// turns, and the one of a hundred stays.
const SCENES: [(&str, &str); 5] = [
    (
        "A reminder goes at an undo, and the clean index below it stays",
        "reminder-100 clean reminder-2 list undo",
    ),
    (
        "A reminder goes at a redo, and the clean index above it is lost",
        "reminder-3 clean undo redo",
    ),
    (
        "A reminder goes on the way up to an index",
        "reminder-3 reminder-100 bottom top list",
    ),
    (
        "A reminder in a macro stays",
        "begin reminder-2 reminder-100 end undo redo list",
    ),
    (
        "A reminder that is obsolete after its push is no step",
        "reminder-1",
    ),
];

// A square frame on layer 1, which fits the document.
fn new_frame(
    alloc: Global,
    document: &Document,
    from: i32,
    side: u32,
    follows: bool,
) -> Result<Frame, AllocError>
    requires some { 1 ≤ side }
    requires small { side ≤ 8 }
    ensures { IfOk result (λ frame. (frame_change frame).fits_redo document.now) }
{
    let area = Area {
        x: from,
        y: from,
        width: side,
        height: side,
    };
    // The layer is there and the tile has a tileset, so nothing but memory can be wanting.
    Frame::new(alloc, document, 1, &area, Gid(1), follows).map_err(|_| AllocError)
}

fn show_frames(rt: &impl Print, alloc: Global) -> io::Result<()> {
    println!(rt; "A frame that follows merges into the one before it")?;
    let mut stack: Stack<Frame> = new_stack(alloc)?;
    let outer = new_frame(alloc, stack.document(), 0, 8, false)?;
    push(rt, &mut stack, "frame", outer)?;
    let inner = new_frame(alloc, stack.document(), 2, 4, true)?;
    push(rt, &mut stack, "following-frame", inner)?;
    make_call(rt, &mut stack, "undo")?;
    make_call(rt, &mut stack, "redo")?;
    make_call(rt, &mut stack, "list")
}

// A reminder that goes at the turn of this number. Its push is the first.
fn new_reminder(alloc: Global, turns: u32) -> Result<Reminder, AllocError> {
    let text = String::from_str(alloc, "Reminder")?;
    Ok(Reminder::new(text, turns))
}

// Pushes the reminder that a word names, or makes another call.
fn play(rt: &impl Print, alloc: Global, stack: &mut Stack<Reminder>, word: &str) -> io::Result<()>
    requires { Holds (λ (r : Reminder). reminder_change r) stack.old }
    ensures { Holds (λ (r : Reminder). reminder_change r) stack.new }
{
    let Some(turns) = word.strip_prefix("reminder-") else {
        return make_call(rt, stack, word);
    };
    let reminder = new_reminder(alloc, turns.parse().unwrap_or(1))?;
    push(rt, stack, word, reminder)
}

fn show_reminders(rt: &impl Print, alloc: Global, words: &str) -> io::Result<()> {
    let mut stack: Stack<Reminder> = new_stack(alloc)?;
    for word in words.split(' ') {
        play(rt, alloc, &mut stack, word)?;
    }
    Ok(())
}

fn main(rt: HostRuntime) -> io::Result<()> {
    let alloc = rt.alloc();
    show_frames(&rt, alloc)?;
    for (title, words) in SCENES {
        println!(rt; "{title}")?;
        show_reminders(&rt, alloc, words)?;
    }
    Ok(())
}
