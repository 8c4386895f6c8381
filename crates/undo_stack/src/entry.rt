ghost use Rattle.std.specs.Prelude.{◌≡◌, ◌≤◌, [], true, false, length, take, drop, map};
ghost use Rattle.command_api.specs.Law.{IsRedone, IsUndone, IsLawful};
ghost use Rattle.command_api.specs.Names.{is_free};
ghost use Rattle.command_api.specs.Offers.{IsOfferOf, shown_of};
ghost use Rattle.undo_stack.specs.Calm.{is_gone, IsGone, IsLive};
ghost use Rattle.undo_stack.specs.Entries.{entry_change, is_macro, depth};
ghost use Rattle.undo_stack.specs.Merging.{MergesChange};
ghost use Rattle.undo_stack.specs.Nestings.{nesting};
ghost use Rattle.undo_stack.specs.Sequence.{sequence_change, FitsDown, FitsUp, IsMoved};

use command_api::{Command, Offer};
use map_model::{Document, MapText};
use std::alloc::{AllocError, Global};
use std::collections::VecDeque;

/// What a stack turns as one step: a command, or a macro of entries. A stack lends it to be looked at.
#[derive(Drop)]
pub enum Entry<C> {
    Command(C),
    // In a box, so that an entry is not made larger by the macros.
    Macro(Box<MacroContents<Entry<C>>>),
}

/// What a macro holds: the text that stands for it in a list of steps, the text that names its action, and its entries.
#[derive(Drop)]
pub struct MacroContents<E> {
    pub text: MapText,
    pub action: MapText,
    pub children: Vec<E>,
}

impl<C> Entry<C> {
    /// The command, and `None` of a macro.
    pub fn command(&self) -> Option<&C> {
        match self {
            Entry::Command(command) => Some(command),
            Entry::Macro(_) => None,
        }
    }

    /// The entries of a macro, first to last. A command has none.
    pub fn entries(&self) -> &[Entry<C>] {
        match self {
            Entry::Command(_) => &[],
            Entry::Macro(contents) => contents.children.as_slice(),
        }
    }
}

impl<C: Command> Entry<C> {
    /// The text that stands for the entry in a list of steps.
    pub fn text(&self) -> &str
        ensures { result.now ≡ (entry_change C.change self.now).names.text }
    {
        match self {
            Entry::Command(command) => command.text(),
            Entry::Macro(contents) => contents.text.as_str(),
        }
    }

    /// The text that names the action, for undo and redo.
    pub fn action_text(&self) -> &str
        ensures { result.now ≡ (entry_change C.change self.now).names.action }
    {
        match self {
            Entry::Command(command) => command.action_text(),
            Entry::Macro(contents) => contents.action.as_str(),
        }
    }

    /// Makes the change again.
    #[inline(always)]
    #[cycle(redo)]
    pub(crate) fn redo(&mut self, document: &mut Document)
        requires { (entry_change C.change self.old).fits_redo document.old }
        ensures turned { IsRedone (entry_change C.change self.old) (entry_change C.change self.new) document.old document.new }
        ensures depth { depth self.new ≡ depth self.old }
        ensures nests { nesting self.new ≡ nesting self.old }
    {
        match self {
            Entry::Command(command) => command.redo(document),
            Entry::Macro(contents) => redo_all(&mut contents.children, document),
        }
    }

    /// Turns the change back.
    #[inline(always)]
    #[cycle(undo)]
    pub(crate) fn undo(&mut self, document: &mut Document)
        requires { (entry_change C.change self.old).fits_undo document.old }
        ensures turned { IsUndone (entry_change C.change self.old) (entry_change C.change self.new) document.old document.new }
        ensures depth { depth self.new ≡ depth self.old }
        ensures nests { nesting self.new ≡ nesting self.old }
    {
        match self {
            Entry::Command(command) => command.undo(document),
            Entry::Macro(contents) => undo_all(&mut contents.children, document),
        }
    }
}

impl<C: Command> Entry<C> {
    /// Whether the entry changes nothing and may be dropped. A macro never may.
    pub(crate) fn obsolete(&self) -> bool
        ensures answer { result ≡ (entry_change C.change self.now).obsolete }
        ensures law { IsLawful (entry_change C.change self.now) }
    {
        match self {
            Entry::Command(command) => command.obsolete(),
            Entry::Macro(_) => false,
        }
    }

    /// Whether the entry is a macro.
    pub fn is_macro(&self) -> bool
        ensures { result ≡ is_macro self.now }
    {
        match self {
            Entry::Command(_) => false,
            Entry::Macro(_) => true,
        }
    }

    /// Whether the entry is a free command. A macro is none.
    pub(crate) fn is_free(&self) -> bool
        ensures { result ≡ is_free (entry_change C.change self.now).names.vanishing }
    {
        match self {
            Entry::Command(command) => command.is_free(),
            Entry::Macro(_) => false,
        }
    }

    /// Whether the entry is a free command that is obsolete.
    pub(crate) fn is_gone(&self) -> bool
        ensures answer { result ≡ is_gone (entry_change C.change self.now) }
        ensures gone { result ≡ true → IsGone (entry_change C.change self.now) }
        ensures live { result ≡ false → is_free (entry_change C.change self.now).names.vanishing ≡ true → IsLive (entry_change C.change self.now) }
    {
        match self {
            Entry::Command(command) => command.is_free() && command.obsolete(),
            Entry::Macro(_) => false,
        }
    }

    /// Takes a newer command in, which led to the document and shows this offer, and says whether it did. A macro takes
    /// nothing in.
    ///
    /// Where there is no memory the entry does what it did.
    pub(crate) fn merge(
        &mut self,
        alloc: Global,
        newer: &C,
        offer: &Offer<'_>,
        document: &Document,
    ) -> Result<bool, AllocError>
        requires offer { IsOfferOf (C.change newer.now) (shown_of offer.now) }
        requires newer { (C.change newer.now).fits_undo document.now }
        requires older { (entry_change C.change self.old).fits_undo ((C.change newer.now).undone document.now) }
        ensures merged { MergesChange (entry_change C.change self.old) (C.change newer.now) document.now result (entry_change C.change self.new) }
        ensures depth { depth self.new ≡ depth self.old }
        ensures nests { nesting self.new ≡ nesting self.old }
    {
        match self {
            Entry::Command(older) => merge_commands(older, alloc, newer, offer, document),
            Entry::Macro(_) => Ok(false),
        }
    }
}

// The older command takes the newer one in, where both have the same id.
fn merge_commands<C: Command>(
    older: &mut C,
    alloc: Global,
    newer: &C,
    offer: &Offer<'_>,
    document: &Document,
) -> Result<bool, AllocError>
    requires offer { IsOfferOf (C.change newer.now) (shown_of offer.now) }
    requires newer { (C.change newer.now).fits_undo document.now }
    requires older { (C.change older.old).fits_undo ((C.change newer.now).undone document.now) }
    ensures { MergesChange (C.change older.old) (C.change newer.now) document.now result (C.change older.new) }
{
    if older.id() != newer.id() {
        return Ok(false);
    }
    older.merge(alloc, offer, document)
}

// Makes the entries of a macro again, first to last.
#[cycle(redo)]
fn redo_all<C: Command>(children: &mut Vec<Entry<C>>, document: &mut Document)
    requires { FitsUp (entry_change C.change) children.old.items document.old }
    ensures turned { IsRedone
        (sequence_change [] [] (entry_change C.change) children.old.items)
        (sequence_change [] [] (entry_change C.change) children.new.items) document.old document.new }
    ensures depth { map depth children.new.items ≡ map depth children.old.items }
    ensures nests { map nesting children.new.items ≡ map nesting children.old.items }
{
    // Over a slice no turn looks up where the entries stand.
    let entries = children.as_mut_slice();
    for i in 0..entries.len() {
        entries[i].redo(document);
    }
}

// Turns the entries of a macro back, last to first.
#[cycle(undo)]
fn undo_all<C: Command>(children: &mut Vec<Entry<C>>, document: &mut Document)
    requires { FitsDown (entry_change C.change) children.old.items document.old }
    ensures turned { IsUndone
        (sequence_change [] [] (entry_change C.change) children.old.items)
        (sequence_change [] [] (entry_change C.change) children.new.items) document.old document.new }
    ensures depth { map depth children.new.items ≡ map depth children.old.items }
    ensures nests { map nesting children.new.items ≡ map nesting children.old.items }
{
    let entries = children.as_mut_slice();
    for i in (0..entries.len()).rev() {
        entries[i].undo(document);
    }
}

/// Turns back the entries of a sequence from the number `to` up to `from`, last to first.
pub fn undo_down<C: Command>(
    sequence: &mut [Entry<C>],
    document: &mut Document,
    from: usize,
    to: usize,
)
    requires order { to ≤ from }
    requires within { from ≤ length sequence.old }
    requires down { FitsDown (entry_change C.change) (take from sequence.old) document.old }
    requires up { FitsUp (entry_change C.change) (drop from sequence.old) document.old }
    ensures moved { IsMoved (entry_change C.change) sequence.old from document.old sequence.new to document.new }
    ensures depth { map depth sequence.new ≡ map depth sequence.old }
    ensures nests { map nesting sequence.new ≡ map nesting sequence.old }
{
    // Counted by the turns that are left: a loop over the number takes more instructions a turn.
    let mut left = from - to;
    while left > 0 {
        left -= 1;
        sequence[to + left].undo(document);
    }
}

/// Makes the entries of a sequence from the number `from` up to `to` again, first to last.
pub fn redo_up<C: Command>(
    sequence: &mut [Entry<C>],
    document: &mut Document,
    from: usize,
    to: usize,
)
    requires order { from ≤ to }
    requires within { to ≤ length sequence.old }
    requires down { FitsDown (entry_change C.change) (take from sequence.old) document.old }
    requires up { FitsUp (entry_change C.change) (drop from sequence.old) document.old }
    ensures moved { IsMoved (entry_change C.change) sequence.old from document.old sequence.new to document.new }
    ensures depth { map depth sequence.new ≡ map depth sequence.old }
    ensures nests { map nesting sequence.new ≡ map nesting sequence.old }
{
    let mut at = from;
    while at < to {
        sequence[at].redo(document);
        at += 1;
    }
}

/// Turns back the entries of a deque from the number `to` up to `from`, last to first.
pub fn undo_each<C: Command>(
    entries: &mut VecDeque<Entry<C>>,
    document: &mut Document,
    from: usize,
    to: usize,
)
    requires order { to ≤ from }
    requires within { from ≤ length entries.old.items }
    requires down { FitsDown (entry_change C.change) (take from entries.old.items) document.old }
    requires up { FitsUp (entry_change C.change) (drop from entries.old.items) document.old }
    ensures moved { IsMoved (entry_change C.change) entries.old.items from document.old entries.new.items to document.new }
    ensures depth { map depth entries.new.items ≡ map depth entries.old.items }
    ensures nests { map nesting entries.new.items ≡ map nesting entries.old.items }
{
    let mut at = from;
    while at > to {
        at -= 1;
        entries[at].undo(document);
    }
}

/// Makes the entries of a deque from the number `from` up to `to` again, first to last.
pub fn redo_each<C: Command>(
    entries: &mut VecDeque<Entry<C>>,
    document: &mut Document,
    from: usize,
    to: usize,
)
    requires order { from ≤ to }
    requires within { to ≤ length entries.old.items }
    requires down { FitsDown (entry_change C.change) (take from entries.old.items) document.old }
    requires up { FitsUp (entry_change C.change) (drop from entries.old.items) document.old }
    ensures moved { IsMoved (entry_change C.change) entries.old.items from document.old entries.new.items to document.new }
    ensures depth { map depth entries.new.items ≡ map depth entries.old.items }
    ensures nests { map nesting entries.new.items ≡ map nesting entries.old.items }
{
    let mut at = from;
    while at < to {
        entries[at].redo(document);
        at += 1;
    }
}
