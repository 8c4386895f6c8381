// Paints on a stack: which of them are turned and dropped where one merges into the one before it.
ghost use Rattle.std.specs.Prelude.{IfSome};
ghost use Rattle.paint_commands.specs.Painting.{paint_change, paint_shown};
ghost use Rattle.undo_stack.specs.Stacks.{Holds};

use crate::paints::town;
use crate::stacks::{Counted, Counts, Told, add_one, push, two_counts, undo};
use command_api::{Command, Offer};
use edits::Block;
use map_model::Document;
use paint_commands::PaintCommand;
use std::alloc::{AllocError, Global};
use std::rc::Rc;
use tile_id::Gid;
use undo_stack::Stack;

// A paint that counts its turns, and that it is dropped. All else it hands on.
pub(crate) struct CountedPaint {
    counts: Rc<Counts>,
    pub(crate) paint: PaintCommand,
}

impl Drop for CountedPaint {
    fn drop(self) {
        add_one(&self.counts.dropped);
        let CountedPaint {
            counts: _,
            paint: _,
        } = self;
    }
}

impl Command for CountedPaint {
    ghost change = { λ c. paint_change c.paint };

    ghost shown = { λ c. paint_shown c.paint };

    fn text(&self) -> &str {
        self.paint.text()
    }

    fn action_text(&self) -> &str {
        self.paint.action_text()
    }

    fn id(&self) -> i32 {
        self.paint.id()
    }

    fn obsolete(&self) -> bool {
        self.paint.obsolete()
    }

    fn is_free(&self) -> bool {
        self.paint.is_free()
    }

    fn redo(&mut self, document: &mut Document) {
        add_one(&self.counts.redone);
        self.paint.redo(document)
    }

    fn undo(&mut self, document: &mut Document) {
        add_one(&self.counts.undone);
        self.paint.undo(document)
    }

    fn offer(&self) -> Offer<'_> {
        self.paint.offer()
    }

    fn merge(
        &mut self,
        alloc: Global,
        newer: &Offer<'_>,
        document: &Document,
    ) -> Result<bool, AllocError> {
        self.paint.merge(alloc, newer, document)
    }
}

// A stamp of one cell of the first row, not made yet.
pub(crate) fn new_stamp(
    alloc: Global,
    document: &Document,
    counts: &Rc<Counts>,
    column: i32,
    follows: bool,
) -> Option<CountedPaint>
    ensures { IfSome result (λ c. (paint_change c.paint).fits_redo document.now) }
{
    let block = Block {
        x: column,
        y: 0,
        width: 1,
        values: &[Gid(5)],
    };
    let paint = PaintCommand::stamp(alloc, document, 1, &block, follows).ok()?;
    let counts = counts.clone().ok()?;
    Some(CountedPaint { counts, paint })
}

// Makes a stamp and pushes it. Says whether it was pushed.
fn stamp(
    alloc: Global,
    stack: &mut Stack<CountedPaint>,
    counts: &Rc<Counts>,
    column: i32,
    follows: bool,
) -> bool
    requires { Holds (λ (c : CountedPaint). paint_change c.paint) stack.old }
    ensures { Holds (λ (c : CountedPaint). paint_change c.paint) stack.new }
{
    match new_stamp(alloc, stack.document(), counts, column, follows) {
        Some(paint) => push(stack, paint).is_ok(),
        None => false,
    }
}

// What a test does with a stack is a function of its own: where a stack may be dropped behind an assertion, the proof is long.

/// Turns, and how often both paints were turned and dropped after each; the index and the count; and how often both were turned
/// and dropped once the stack is dropped.
type Turns = ([Told; 3], (usize, usize), [Counted; 2]);

// Two stamps, of which the second merges into the first, and an undo.
fn merged(alloc: Global, document: Document, older: &Rc<Counts>, newer: &Rc<Counts>) -> Turns {
    let mut stack: Stack<CountedPaint> = Stack::new(alloc, document, 0);
    let told = [
        (
            stamp(alloc, &mut stack, older, 0, false),
            older.all(),
            newer.all(),
        ),
        (
            stamp(alloc, &mut stack, newer, 1, true),
            older.all(),
            newer.all(),
        ),
        (undo(&mut stack).is_ok(), older.all(), newer.all()),
    ];
    let stands = (stack.index(), stack.count());
    drop(stack);
    (told, stands, [older.all(), newer.all()])
}

fn merged_on_town(alloc: Global) -> Option<Turns> {
    let (older, newer) = two_counts(alloc)?;
    let document = town(alloc).ok()?;
    Some(merged(alloc, document, &older, &newer))
}

// The newer one is made and dropped, the older one turns both back at once.
#[test]
fn merged_paint_is_one_turn(rt: HostRuntime) {
    let told = [
        (true, (1, 0, 0), (0, 0, 0)),
        (true, (1, 0, 0), (1, 0, 1)),
        (true, (1, 1, 0), (1, 0, 1)),
    ];
    let wanted = (told, (0, 1), [(1, 1, 1), (1, 0, 1)]);
    assert_eq!(rt; merged_on_town(rt.alloc()), Some(wanted));
}

// The limit, and then two stamps, of which none merges.
fn limited(alloc: Global, document: Document, first: &Rc<Counts>, second: &Rc<Counts>) -> Turns {
    let mut stack: Stack<CountedPaint> = Stack::new(alloc, document, 0);
    let told = [
        (stack.set_undo_limit(1).is_ok(), first.all(), second.all()),
        (
            stamp(alloc, &mut stack, first, 0, false),
            first.all(),
            second.all(),
        ),
        (
            stamp(alloc, &mut stack, second, 1, false),
            first.all(),
            second.all(),
        ),
    ];
    let stands = (stack.index(), stack.count());
    drop(stack);
    (told, stands, [first.all(), second.all()])
}

fn limited_on_town(alloc: Global) -> Option<Turns> {
    let (first, second) = two_counts(alloc)?;
    let document = town(alloc).ok()?;
    Some(limited(alloc, document, &first, &second))
}

#[test]
fn limit_lets_go_of_the_first_paint(rt: HostRuntime) {
    let told = [
        (true, (0, 0, 0), (0, 0, 0)),
        (true, (1, 0, 0), (0, 0, 0)),
        (true, (1, 0, 1), (1, 0, 0)),
    ];
    let wanted = (told, (1, 1), [(1, 0, 1), (1, 0, 1)]);
    assert_eq!(rt; limited_on_town(rt.alloc()), Some(wanted));
}

/// What a push leaves where it is refused: the index, the count, and how often both paints were turned and dropped.
type Left = ((usize, usize), Counted, Counted);

fn refused_merge(
    alloc: Global,
    document: Document,
    older: &Rc<Counts>,
    newer: &Rc<Counts>,
) -> Option<Left> {
    let mut stack: Stack<CountedPaint> = Stack::new(alloc, document, 0);
    let is_first = stamp(alloc, &mut stack, older, 0, false);
    let is_refused = match new_stamp(alloc, stack.document(), newer, 1, true) {
        Some(paint) => push(&mut stack, paint).is_err(),
        None => false,
    };
    let told = ((stack.index(), stack.count()), older.all(), newer.all());
    drop(stack);
    if is_first && is_refused {
        Some(told)
    } else {
        None
    }
}

fn refused_merge_on_town(alloc: Global) -> Option<Left> {
    let (older, newer) = two_counts(alloc)?;
    let document = town(alloc).ok()?;
    refused_merge(alloc, document, &older, &newer)
}

// As each `refused_` test of stacks, this one ends well whichever growth is refused.
#[test]
fn refused_merge_turns_the_newer_paint_back(rt: HostRuntime) {
    if let Some(seen) = refused_merge_on_town(rt.alloc()) {
        assert_eq!(rt; seen, ((1, 1), (1, 0, 0), (1, 1, 1)));
    }
}
