// An edit is the command that it holds, so that an editor whose edits are not put into boxes is of one type.
ghost use Rattle.command_api.specs.Law.{IsRedone, IsUndone};
ghost use Rattle.document_lines.specs.Planning.{edit_change};

use crate::planned::Edit;
use command_api::{Command, Offer};
use map_model::Document;
use std::alloc::{AllocError, Global};

// A call of the command that an edit holds.
macro_rules! with_command {
    ($edit:expr, $command:ident => $call:expr) => {
        match $edit {
            Edit::Paint($command) => $call,
            Edit::AddLayer($command) => $call,
            Edit::RemoveLayer($command) => $call,
            Edit::RenameLayer($command) => $call,
            Edit::ShowLayer($command) => $call,
            Edit::MoveLayer($command) => $call,
            Edit::Select($command) => $call,
            Edit::ResizeMap($command) => $call,
            Edit::AddObject($command) => $call,
            Edit::RemoveObject($command) => $call,
            Edit::PlaceObject($command) => $call,
            Edit::SetProperty($command) => $call,
            Edit::RemoveProperty($command) => $call,
            Edit::AddTileset($command) => $call,
            Edit::RemoveTileset($command) => $call,
            Edit::SetObjectHead($command) => $call,
            Edit::SetLayerHead($command) => $call,
            Edit::SetMapHead($command) => $call,
            Edit::ReparentObject($command) => $call,
            Edit::PutProperty($command) => $call,
            Edit::SetTilesetHead($command) => $call,
            Edit::NumberTileset($command) => $call,
            Edit::SetTilesetMember($command) => $call,
        }
    };
}

// Makes an edit of any kind. It stands by itself, so that a paint, which turns most, saves no registers for the others.
#[inline(never)]
fn redo_any(edit: &mut Edit, document: &mut Document)
    requires { (edit_change edit.old).fits_redo document.old }
    ensures { IsRedone (edit_change edit.old) (edit_change edit.new) document.old document.new }
{
    with_command!(edit, command => command.redo(document))
}

// Turns an edit of any kind back.
#[inline(never)]
fn undo_any(edit: &mut Edit, document: &mut Document)
    requires { (edit_change edit.old).fits_undo document.old }
    ensures { IsUndone (edit_change edit.old) (edit_change edit.new) document.old document.new }
{
    with_command!(edit, command => command.undo(document))
}

impl Command for Edit {
    ghost use Rattle.document_lines.specs.Planning.{edit_change, edit_shown};

    ghost change = { edit_change };

    ghost shown = { edit_shown };

    fn text(&self) -> &str {
        with_command!(self, command => command.text())
    }

    fn action_text(&self) -> &str {
        with_command!(self, command => command.action_text())
    }

    fn id(&self) -> i32 {
        with_command!(self, command => command.id())
    }

    fn obsolete(&self) -> bool {
        with_command!(self, command => command.obsolete())
    }

    fn is_free(&self) -> bool {
        with_command!(self, command => command.is_free())
    }

    fn redo(&mut self, document: &mut Document) {
        match self {
            Edit::Paint(paint) => paint.redo(document),
            _ => redo_any(self, document),
        }
    }

    fn undo(&mut self, document: &mut Document) {
        match self {
            Edit::Paint(paint) => paint.undo(document),
            _ => undo_any(self, document),
        }
    }

    fn offer(&self) -> Offer<'_> {
        with_command!(self, command => command.offer())
    }

    fn merge(
        &mut self,
        alloc: Global,
        newer: &Offer<'_>,
        document: &Document,
    ) -> Result<bool, AllocError> {
        with_command!(self, command => command.merge(alloc, newer, document))
    }
}
