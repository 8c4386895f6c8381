ghost use Rattle.std.specs.Prelude.{◌≡◌, [], None, IfOk};
ghost use Rattle.undo_stack.specs.Stacks.{inner_of, IsClosed};

use crate::entry::{Entry, MacroContents};
use crate::sequence::Sequence;
use command_api::Command;
use map_model::MapText;
use std::alloc::{AllocError, Global};

/// A macro that is open: its entries, and what they become. Its box is had from the beginning, so that its end takes no memory.
#[derive(Drop)]
pub struct Level<C> {
    // The texts, and no children yet.
    pub contents: Box<MacroContents<Entry<C>>>,
    pub sequence: Sequence<C>,
}

impl<C: Command> Level<C> {
    /// A level with these texts, and no entries.
    pub fn new(alloc: Global, text: &str, action: &str) -> Result<Level<C>, AllocError>
        ensures inner { IfOk result (λ level. inner_of level ≡ record { text = text.now; action = action.now; sequence = [] }) }
        ensures index { IfOk result (λ level. level.sequence.index ≡ 0) }
        ensures clean { IfOk result (λ level. level.sequence.clean ≡ None) }
        ensures limit { IfOk result (λ level. level.sequence.limit ≡ 0) }
    {
        let text = MapText::new(String::from_str(alloc, text)?);
        let action = MapText::new(String::from_str(alloc, action)?);
        let contents = MacroContents {
            text,
            action,
            children: Vec::new(alloc),
        };
        let contents = Box::new(alloc, contents)?;
        Ok(Level {
            contents,
            // The entries of a macro are never dropped, so none is asked whether it is free.
            sequence: Sequence::new(alloc, None, 0, true),
        })
    }

    /// The text that stands for the level in a list of steps.
    pub fn text(&self) -> &str
        ensures { result.now ≡ (inner_of self.now).text }
    {
        self.contents.text.as_str()
    }

    /// The text that names the action of the level, for undo and redo.
    pub fn action(&self) -> &str
        ensures { result.now ≡ (inner_of self.now).action }
    {
        self.contents.action.as_str()
    }

    /// The entry that the level is once it is closed. Takes no memory.
    pub fn into_entry(self) -> Entry<C>
        ensures { IsClosed C.change (inner_of self) result }
    {
        let Level {
            mut contents,
            sequence,
        } = self;
        contents.children = Vec::from(sequence.entries);
        Entry::Macro(contents)
    }
}
