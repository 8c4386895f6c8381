ghost use Rattle.std.specs.Prelude.{IfOk, IfErr, refl};
ghost use Rattle.command_api.specs.Making.{IsRefusalOf, Makes};
ghost use Rattle.edits.specs.Selecting.{after_select};
ghost use Rattle.paint_commands.specs.Selection.{select_change, select_exchange};
ghost use Rattle.paint_commands.specs.Names.{select_names};

use command_api::{Exchange, Label, Lone};
use edits::{EditFault, Selecting, selected};
use map_model::Document;
use region::Region;
use std::alloc::Global;

/// The document gets another selection. The command owns the one that the document does not have.
#[derive(Drop)]
pub struct SelectCommand {
    selection: Region,
    // Whether the document's selection and the command's are the same.
    is_same: bool,
}

impl SelectCommand {
    /// The command that edits the selection, not made yet. The document stays as it is.
    ///
    /// Refused only where there is no memory.
    pub fn new(
        alloc: Global,
        document: &Document,
        edit: Selecting,
    ) -> Result<SelectCommand, EditFault>
        ensures command { IfOk result (λ c. Makes select_names document.now (after_select document.now edit) (select_change c)) }
        ensures refusal { IfErr result (IsRefusalOf (after_select document.now edit)) }
    {
        match selected(alloc, document, edit) {
            Ok(selection) => {
                let is_same = *document.selection() == selection;
                Ok(SelectCommand { selection, is_same })
            }
            Err(_) => Err(EditFault::NoMemory),
        }
    }
}

impl Exchange for SelectCommand {
    ghost exchange_parts = { select_exchange };

    fn label(&self) -> Label {
        Label::untagged("Select", "change selection")
    }

    fn is_obsolete(&self) -> bool {
        self.is_same
    }

    fn exchange(&mut self, document: &mut Document) {
        document.swap_selection(&mut self.selection);
    }
}

impl Lone for SelectCommand {
    ghost alone = { λ x. record { tag = refl; follows = refl; bound = refl } };
}
