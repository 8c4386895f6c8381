// Of a stack, what no clause says: which boxes are dropped and turned, and what a refused push leaves.

ghost use Rattle.std.specs.Prelude.{◌≡◌, [], true, false, IfSome, refl};
ghost use Rattle.command_api.specs.Names.{untagged, Never, WhenEqual};
ghost use Rattle.library_tests.specs.Still.{still};
ghost use Rattle.map_model.specs.Document.{DocumentParts};
ghost use Rattle.undo_stack.specs.History.{current};
ghost use Rattle.undo_stack.specs.Stacks.{history, Holds};

use command_api::{Command, Exchange, Label, Lone};
use link_chain::Loose;
use map_model::{Document, Layer, LayerKind, Map, MapText};
use std::alloc::{AllocError, Global};
use std::cell::Cell;
use std::rc::Rc;
use undo_stack::{Stack, StackFault};

// A document for commands that leave it as it is.
pub(crate) fn blank(alloc: Global) -> Result<Document, AllocError> {
    let source = MapText::new(String::new(alloc));
    Ok(Document::new(alloc, Map::create(alloc, 1, 1, 1, 1, source)?))
}

/// How often a command was redone, undone and dropped.
pub(crate) type Counted = (u32, u32, u32);

// How often a command was turned and dropped.
#[derive(Drop)]
pub(crate) struct Counts {
    pub(crate) redone: Cell<u32>,
    pub(crate) undone: Cell<u32>,
    pub(crate) dropped: Cell<u32>,
}

impl Counts {
    pub(crate) fn new(alloc: Global) -> Result<Rc<Counts>, AllocError> {
        let counts = Counts {
            redone: Cell::new(0),
            undone: Cell::new(0),
            dropped: Cell::new(0),
        };
        Ok(Rc::new(alloc, counts)?)
    }

    pub(crate) fn all(&self) -> Counted {
        (self.redone.get(), self.undone.get(), self.dropped.get())
    }

    // Counts a turn of a command, and says whether it is made then.
    pub(crate) fn turn(&self, is_made: bool) -> bool {
        add_one(if is_made { &self.undone } else { &self.redone });
        !is_made
    }
}

pub(crate) fn add_one(count: &Cell<u32>) {
    count.set(count.get().wrapping_add(1));
}

// A command that leaves the document as it is and never vanishes. It owns a layer in a link, as a removal does.
pub(crate) struct Probe {
    counts: Rc<Counts>,
    is_made: bool,
    layer: Loose<Layer>,
}

impl Drop for Probe {
    fn drop(self) {
        add_one(&self.counts.dropped);
        let Probe {
            counts: _,
            is_made: _,
            layer: _,
        } = self;
    }
}

impl Exchange for Probe {
    ghost exchange_parts = { λ _. still (untagged [] [] Never) false };

    fn label(&self) -> Label {
        Label::untagged("", "")
    }

    fn is_obsolete(&self) -> bool {
        false
    }

    fn exchange(&mut self, document: &mut Document) {
        let _ = document;
        self.is_made = self.counts.turn(self.is_made);
    }
}

impl Lone for Probe {
    ghost alone = { λ _. record { tag = refl; follows = refl; bound = refl } };
}

fn new_probe(alloc: Global, counts: &Rc<Counts>) -> Result<Box<Probe>, AllocError> {
    let counts = counts.clone()?;
    let name = MapText::new(String::from_str(alloc, "removed")?);
    let layer = Layer::new(alloc, LayerKind::Tile, 2, name, 1)?;
    let layer = Loose::new(alloc, layer).map_err(|_| AllocError)?;
    let probe = Probe {
        counts,
        is_made: false,
        layer,
    };
    Ok(Box::new(alloc, probe)?)
}

// A command that vanishes when equal, and is so: it leaves the document as it is.
struct Idle {
    counts: Rc<Counts>,
    is_made: bool,
}

impl Drop for Idle {
    fn drop(self) {
        add_one(&self.counts.dropped);
        let Idle {
            counts: _,
            is_made: _,
        } = self;
    }
}

impl Exchange for Idle {
    ghost exchange_parts = { λ _. still (untagged [] [] WhenEqual) true };

    fn label(&self) -> Label {
        Label::untagged("", "")
    }

    fn is_obsolete(&self) -> bool {
        true
    }

    fn exchange(&mut self, document: &mut Document) {
        let _ = document;
        self.is_made = self.counts.turn(self.is_made);
    }
}

impl Lone for Idle {
    ghost alone = { λ _. record { tag = refl; follows = refl; bound = refl } };
}

fn new_idle(alloc: Global, counts: &Rc<Counts>) -> Result<Box<Idle>, AllocError> {
    let idle = Idle {
        counts: counts.clone()?,
        is_made: false,
    };
    Ok(Box::new(alloc, idle)?)
}

// The calls below are those of a stack. Of what they do the proofs of the tests need only that the stack stays whole.
pub(crate) fn push<C: Command>(stack: &mut Stack<C>, command: C) -> Result<(), AllocError>
    requires sound { Holds C.change stack.old }
    requires fits { (C.change command).fits_redo (current (history C.change stack.old)) }
    ensures sound { Holds C.change stack.new }
{
    stack.push(command)
}

pub(crate) fn undo<C: Command>(stack: &mut Stack<C>) -> Result<(), StackFault>
    requires { Holds C.change stack.old }
    ensures { Holds C.change stack.new }
{
    // Taken apart here, the two answers need not be in each test's proof.
    stack.undo()?;
    Ok(())
}

pub(crate) fn redo<C: Command>(stack: &mut Stack<C>) -> Result<(), StackFault>
    requires { Holds C.change stack.old }
    ensures { Holds C.change stack.new }
{
    // As at `undo`.
    stack.redo()?;
    Ok(())
}

pub(crate) fn set_index<C: Command>(stack: &mut Stack<C>, index: usize) -> Result<(), StackFault>
    requires { Holds C.change stack.old }
    ensures { Holds C.change stack.new }
{
    // As at `undo`.
    stack.set_index(index)?;
    Ok(())
}

pub(crate) fn begin_macro<C: Command>(stack: &mut Stack<C>) -> Result<(), StackFault>
    requires { Holds C.change stack.old }
    ensures { Holds C.change stack.new }
{
    // As at `undo`.
    stack.begin_macro("fence", "build fence")?;
    Ok(())
}

pub(crate) fn end_macro<C: Command>(stack: &mut Stack<C>) -> Result<(), StackFault>
    requires { Holds C.change stack.old }
    ensures { Holds C.change stack.new }
{
    // As at `undo`.
    stack.end_macro()?;
    Ok(())
}

// A stack of a document, with no step yet.
pub(crate) fn new_stack<C: Command>(alloc: Global) -> Option<Stack<C>>
    ensures { IfSome result (λ stack. Holds C.change stack) }
{
    match blank(alloc) {
        Ok(document) => Some(Stack::new(alloc, document, 0)),
        Err(_) => None,
    }
}

// What a test does with a stack is a function of the commands, of any type: where they are boxes, the proof of each call is
// long, and longer still where a box, a stack or a document may be dropped behind it. So little is alive where memory may
// be wanting. Want of it ends each test well, so that each allocation can be refused in turn.
pub(crate) fn two_counts(alloc: Global) -> Option<(Rc<Counts>, Rc<Counts>)> {
    let first = Counts::new(alloc).ok()?;
    let second = Counts::new(alloc).ok()?;
    Some((first, second))
}

pub(crate) fn two_probes(
    alloc: Global,
    first: &Rc<Counts>,
    second: &Rc<Counts>,
) -> Option<(Box<Probe>, Box<Probe>)> {
    let below = new_probe(alloc, first).ok()?;
    let above = new_probe(alloc, second).ok()?;
    Some((below, above))
}

/// A turn, and how often both commands were turned and dropped behind it.
pub(crate) type Told = (bool, Counted, Counted);

fn pushed<C: Command>(stack: &mut Stack<C>, command: C, first: &Counts, second: &Counts) -> Told
    requires sound { Holds C.change stack.old }
    requires fits { (C.change command).fits_redo (current (history C.change stack.old)) }
    ensures sound { Holds C.change stack.new }
{
    (push(stack, command).is_ok(), first.all(), second.all())
}

pub(crate) fn undone<C: Command>(stack: &mut Stack<C>, first: &Counts, second: &Counts) -> Told
    requires { Holds C.change stack.old }
    ensures { Holds C.change stack.new }
{
    (undo(stack).is_ok(), first.all(), second.all())
}

fn redone<C: Command>(stack: &mut Stack<C>, first: &Counts, second: &Counts) -> Told
    requires { Holds C.change stack.old }
    ensures { Holds C.change stack.new }
{
    (redo(stack).is_ok(), first.all(), second.all())
}

// Each turn, and how often the two commands were turned and dropped after it; and how the stack stands.
fn turns_of<C: Command>(
    alloc: Global,
    below: C,
    above: C,
    first: &Counts,
    second: &Counts,
) -> Option<([Told; 7], (usize, usize, usize, bool))>
    requires below { (d : DocumentParts) → (C.change below).fits_redo d }
    requires above { (d : DocumentParts) → (C.change above).fits_redo d }
{
    let mut stack = new_stack(alloc)?;
    let told = [
        undone(&mut stack, first, second),
        pushed(&mut stack, below, first, second),
        pushed(&mut stack, above, first, second),
        redone(&mut stack, first, second),
        undone(&mut stack, first, second),
        undone(&mut stack, first, second),
        redone(&mut stack, first, second),
    ];
    let stands = (
        stack.index(),
        stack.count(),
        stack.depth(),
        stack.is_clean(),
    );
    let _ = stack.document().map();
    Some((told, stands))
}

fn turns_of_boxes(alloc: Global) -> Option<([Told; 7], (usize, usize, usize, bool))> {
    let (first, second) = two_counts(alloc)?;
    let (below, above) = two_probes(alloc, &first, &second)?;
    let below: Box<dyn Command> = below;
    let above: Box<dyn Command> = above;
    turns_of(alloc, below, above, &first, &second)
}

// A stack that kept a copy of the document, and put it back in place of turning the command, would fail these counts.
#[test]
fn no_whole_copies_kept(rt: HostRuntime) {
    let wanted = [
        (false, (0, 0, 0), (0, 0, 0)),
        (true, (1, 0, 0), (0, 0, 0)),
        (true, (1, 0, 0), (1, 0, 0)),
        (false, (1, 0, 0), (1, 0, 0)),
        (true, (1, 0, 0), (1, 1, 0)),
        (true, (1, 1, 0), (1, 1, 0)),
        (true, (2, 1, 0), (1, 1, 0)),
    ];
    assert_eq!(rt;
        turns_of_boxes(rt.alloc()),
        Some((wanted, (1, 2, 0, false)))
    );
}

/// What became of three commands: whether each call was answered well, the index and the count, and how often each was
/// turned and dropped before the stack is dropped, and behind that.
type LetGo = ([bool; 4], (usize, usize), [Counted; 3], [Counted; 3]);

// A step that is cut, a command that vanishes, and at the end the stack itself.
fn let_go<C: Command>(
    alloc: Global,
    below: C,
    above: C,
    idle: C,
    counts: [&Rc<Counts>; 3],
) -> Option<LetGo>
    requires below { (d : DocumentParts) → (C.change below).fits_redo d }
    requires above { (d : DocumentParts) → (C.change above).fits_redo d }
    requires idle { (d : DocumentParts) → (C.change idle).fits_redo d }
{
    let mut stack = new_stack(alloc)?;
    let are_done = [
        push(&mut stack, below).is_ok(),
        push(&mut stack, above).is_ok(),
        undo(&mut stack).is_ok(),
        push(&mut stack, idle).is_ok(),
    ];
    let stands = (stack.index(), stack.count());
    let [staying, cut, vanished] = counts;
    let before = [staying.all(), cut.all(), vanished.all()];
    drop(stack);
    let behind = [staying.all(), cut.all(), vanished.all()];
    Some((are_done, stands, before, behind))
}

fn boxes_let_go(alloc: Global) -> Option<LetGo> {
    let (staying, cut) = two_counts(alloc)?;
    let vanished = Counts::new(alloc).ok()?;
    let idle = new_idle(alloc, &vanished).ok()?;
    let (below, above) = two_probes(alloc, &staying, &cut)?;
    let below: Box<dyn Command> = below;
    let above: Box<dyn Command> = above;
    let idle: Box<dyn Command> = idle;
    let_go(alloc, below, above, idle, [&staying, &cut, &vanished])
}

#[test]
fn each_box_is_let_go_of_once(rt: HostRuntime) {
    let before = [(1, 0, 0), (1, 1, 1), (1, 0, 1)];
    let behind = [(1, 0, 1), (1, 1, 1), (1, 0, 1)];
    let wanted = ([true; 4], (1, 1), before, behind);
    assert_eq!(rt; boxes_let_go(rt.alloc()), Some(wanted));
}

// What a push onto a new stack leaves where it is refused: the index, the count, and that there is nothing to redo; and
// how often the command was turned and dropped.
fn refused_at_first<C: Command>(
    alloc: Global,
    command: C,
    counts: &Rc<Counts>,
) -> Option<((usize, usize), bool, Counted)>
    requires { (d : DocumentParts) → (C.change command).fits_redo d }
{
    let mut stack = new_stack(alloc)?;
    let is_refused = push(&mut stack, command).is_err();
    let has_no_more = redo(&mut stack).is_err();
    let stands = (stack.index(), stack.count());
    let told = (stands, has_no_more, counts.all());
    drop(stack);
    if is_refused { Some(told) } else { None }
}

fn box_refused_at_first(alloc: Global) -> Option<((usize, usize), bool, Counted)> {
    let counts = Counts::new(alloc).ok()?;
    let command: Box<dyn Command> = new_probe(alloc, &counts).ok()?;
    refused_at_first(alloc, command, &counts)
}

// What a push below an undone step leaves where it is refused: that the step is redone; and how often both commands were
// turned and dropped.
fn refused_below_a_step<C: Command>(
    alloc: Global,
    step: C,
    command: C,
    first: &Rc<Counts>,
    second: &Rc<Counts>,
) -> Option<Told>
    requires step { (d : DocumentParts) → (C.change step).fits_redo d }
    requires command { (d : DocumentParts) → (C.change command).fits_redo d }
{
    let mut stack = new_stack(alloc)?;
    let are_done = [push(&mut stack, step).is_ok(), undo(&mut stack).is_ok()];
    let is_refused = push(&mut stack, command).is_err();
    let is_redone = redo(&mut stack).is_ok();
    let told = (is_redone, first.all(), second.all());
    drop(stack);
    if is_refused && are_done == [true; 2] {
        Some(told)
    } else {
        None
    }
}

fn box_refused_below_a_step(alloc: Global) -> Option<Told> {
    let (first, second) = two_counts(alloc)?;
    let (step, command) = two_probes(alloc, &first, &second)?;
    let step: Box<dyn Command> = step;
    let command: Box<dyn Command> = command;
    refused_below_a_step(alloc, step, command, &first, &second)
}

// What a push into a macro behind a step leaves where it is refused: that the macro ends; the index, the count and the
// depth behind that; and how often both commands were turned and dropped.
fn refused_in_a_macro<C: Command>(
    alloc: Global,
    step: C,
    command: C,
    first: &Rc<Counts>,
    second: &Rc<Counts>,
) -> Option<(Told, (usize, usize, usize))>
    requires step { (d : DocumentParts) → (C.change step).fits_redo d }
    requires command { (d : DocumentParts) → (C.change command).fits_redo d }
{
    let mut stack = new_stack(alloc)?;
    let are_done = [
        push(&mut stack, step).is_ok(),
        begin_macro(&mut stack).is_ok(),
    ];
    let is_refused = push(&mut stack, command).is_err();
    let is_ended = end_macro(&mut stack).is_ok();
    let stands = (stack.index(), stack.count(), stack.depth());
    let told = ((is_ended, first.all(), second.all()), stands);
    drop(stack);
    if is_refused && are_done == [true; 2] {
        Some(told)
    } else {
        None
    }
}

fn box_refused_in_a_macro(alloc: Global) -> Option<(Told, (usize, usize, usize))> {
    let (first, second) = two_counts(alloc)?;
    let (step, command) = two_probes(alloc, &first, &second)?;
    let step: Box<dyn Command> = step;
    let command: Box<dyn Command> = command;
    refused_in_a_macro(alloc, step, command, &first, &second)
}

#[test]
fn refused_push_leaves_a_new_stack(rt: HostRuntime) {
    if let Some(seen) = box_refused_at_first(rt.alloc()) {
        assert_eq!(rt; seen, ((0, 0), true, (1, 1, 1)));
    }
}

#[test]
fn refused_push_leaves_the_step_above(rt: HostRuntime) {
    if let Some(seen) = box_refused_below_a_step(rt.alloc()) {
        assert_eq!(rt; seen, (true, (2, 1, 0), (1, 1, 1)));
    }
}

// The last growth of the test is the place in the macro.
#[test]
fn refused_push_leaves_a_macro(rt: HostRuntime) {
    if let Some(seen) = box_refused_in_a_macro(rt.alloc()) {
        assert_eq!(rt; seen, ((true, (1, 0, 0), (1, 1, 1)), (2, 2, 0)));
    }
}

/// What is left once a stack of two commands is cleared: whether each call was answered well, how the stack stands, and how
/// often both were turned and dropped before the stack is dropped, and behind that.
type Cleared = ([bool; 3], (usize, usize, bool), [Counted; 2], [Counted; 2]);

fn cleared<C: Command>(
    alloc: Global,
    below: C,
    above: C,
    first: &Rc<Counts>,
    second: &Rc<Counts>,
) -> Option<Cleared>
    requires below { (d : DocumentParts) → (C.change below).fits_redo d }
    requires above { (d : DocumentParts) → (C.change above).fits_redo d }
{
    let mut stack = new_stack(alloc)?;
    let are_done = [
        push(&mut stack, below).is_ok(),
        push(&mut stack, above).is_ok(),
        set_index(&mut stack, 1).is_ok(),
    ];
    stack.reset_clean();
    stack.clear();
    let stands = (stack.index(), stack.count(), stack.is_clean());
    let before = [first.all(), second.all()];
    drop(stack);
    Some((are_done, stands, before, [first.all(), second.all()]))
}

fn boxes_cleared(alloc: Global) -> Option<Cleared> {
    let (first, second) = two_counts(alloc)?;
    let (below, above) = two_probes(alloc, &first, &second)?;
    let below: Box<dyn Command> = below;
    let above: Box<dyn Command> = above;
    cleared(alloc, below, above, &first, &second)
}

#[test]
fn clear_lets_go_of_each_box_and_undoes_none(rt: HostRuntime) {
    let counts = [(1, 0, 1), (1, 1, 1)];
    let wanted = ([true; 3], (0, 0, true), counts, counts);
    assert_eq!(rt; boxes_cleared(rt.alloc()), Some(wanted));
}

/// What is left of two commands in macros: which calls were answered well, how the stack stands, and how often both were
/// turned and dropped before the stack is dropped, and behind that.
type Nested = (
    [bool; 11],
    (usize, usize, usize),
    [Counted; 2],
    [Counted; 2],
);

// Three macros, each in the one before: the inner one with a command, the next with one too, the outer one with no other.
fn nested<C: Command>(
    alloc: Global,
    inner: C,
    next: C,
    first: &Rc<Counts>,
    second: &Rc<Counts>,
) -> Option<Nested>
    requires inner { (d : DocumentParts) → (C.change inner).fits_redo d }
    requires next { (d : DocumentParts) → (C.change next).fits_redo d }
{
    let mut stack = new_stack(alloc)?;
    let are_done = [
        begin_macro(&mut stack).is_ok(),
        begin_macro(&mut stack).is_ok(),
        begin_macro(&mut stack).is_ok(),
        push(&mut stack, inner).is_ok(),
        end_macro(&mut stack).is_ok(),
        push(&mut stack, next).is_ok(),
        end_macro(&mut stack).is_ok(),
        end_macro(&mut stack).is_ok(),
        end_macro(&mut stack).is_ok(),
        undo(&mut stack).is_ok(),
        redo(&mut stack).is_ok(),
    ];
    let stands = (stack.index(), stack.count(), stack.depth());
    let before = [first.all(), second.all()];
    drop(stack);
    Some((are_done, stands, before, [first.all(), second.all()]))
}

fn boxes_nested(alloc: Global) -> Option<Nested> {
    let (first, second) = two_counts(alloc)?;
    let (inner, next) = two_probes(alloc, &first, &second)?;
    let inner: Box<dyn Command> = inner;
    let next: Box<dyn Command> = next;
    nested(alloc, inner, next, &first, &second)
}

// The last end comes behind that of the outer macro, where none is open.
#[test]
fn each_box_in_a_macro_is_let_go_of_once(rt: HostRuntime) {
    let are_done = [
        true, true, true, true, true, true, true, true, false, true, true,
    ];
    let wanted = (are_done, (1, 1, 0), [(2, 1, 0); 2], [(2, 1, 1); 2]);
    assert_eq!(rt; boxes_nested(rt.alloc()), Some(wanted));
}

// Begins three macros, pushes a command into the second, and ends three macros: whether as many ends were answered well as
// macros had begun, the depth behind them, and whether there is a step just where something began or was pushed.
fn ended<C: Command>(alloc: Global, command: C) -> Option<(bool, usize, bool)>
    requires { (d : DocumentParts) → (C.change command).fits_redo d }
{
    let mut stack = new_stack(alloc)?;
    let are_done = [
        begin_macro(&mut stack).is_ok(),
        begin_macro(&mut stack).is_ok(),
        push(&mut stack, command).is_ok(),
        begin_macro(&mut stack).is_ok(),
    ];
    let depth = stack.depth();
    let ends = [
        end_macro(&mut stack).is_ok(),
        end_macro(&mut stack).is_ok(),
        end_macro(&mut stack).is_ok(),
    ];
    let (depth_behind, count) = (stack.depth(), stack.count());
    drop(stack);
    let is_step = are_done != [false; 4];
    let are_ended = ends == [depth > 0, depth > 1, depth > 2];
    Some((are_ended, depth_behind, is_step == (count > 0)))
}

fn box_ended(alloc: Global) -> Option<(bool, usize, bool)> {
    let counts = Counts::new(alloc).ok()?;
    let command: Box<dyn Command> = new_probe(alloc, &counts).ok()?;
    ended(alloc, command)
}

// Each macro that began ends, whichever growth is refused: the end takes no memory. The one without a command too.
#[test]
fn refused_growth_leaves_macros_that_end(rt: HostRuntime) {
    if let Some(seen) = box_ended(rt.alloc()) {
        assert_eq!(rt; seen, (true, 0, true));
    }
}
