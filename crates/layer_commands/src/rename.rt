ghost use Rattle.std.specs.Prelude.{◌≡◌, IfOk, IfErr, refl};
ghost use Rattle.command_api.specs.Making.{IsRefusalOf, Makes};
ghost use Rattle.edits.specs.LayerEdits.{after_rename};
ghost use Rattle.layer_commands.specs.Changes.{rename_change, rename_exchange};
ghost use Rattle.layer_commands.specs.Names.{rename_names};

use command_api::{Exchange, Label, Lone};
use edits::EditFault;
use map_model::{Document, MapText};
use std::alloc::Global;

/// A layer gets another name. The command owns the name that the layer does not have.
#[derive(Drop)]
pub struct RenameLayer {
    layer: u32,
    name: MapText,
    // Whether the layer's name and the command's are the same.
    is_same: bool,
}

impl RenameLayer {
    /// The command that gives the layer with an id this name, not made yet. The document stays as it is.
    ///
    /// Refused where there is no such layer, and then where there is no memory.
    pub fn new(
        alloc: Global,
        document: &Document,
        layer: u32,
        name: &str,
    ) -> Result<RenameLayer, EditFault>
        ensures command { IfOk result (λ c. Makes rename_names document.now (after_rename document.now layer name.now) (rename_change c)) }
        ensures refusal { IfErr result (IsRefusalOf (after_rename document.now layer name.now)) }
    {
        let Some(renamed) = document.map().layer(layer) else {
            return Err(EditFault::NoSuchLayer);
        };
        let is_same = renamed.name.as_str() == name;
        match String::from_str(alloc, name) {
            Ok(name) => Ok(RenameLayer {
                layer,
                name: MapText::new(name),
                is_same,
            }),
            Err(_) => Err(EditFault::NoMemory),
        }
    }
}

impl RenameLayer {
    /// The id of the layer.
    pub fn layer(&self) -> u32
        ensures { result ≡ self.now.layer }
    {
        self.layer
    }
}

impl Exchange for RenameLayer {
    ghost exchange_parts = { rename_exchange };

    fn label(&self) -> Label {
        Label::untagged("Rename Layer", "rename layer")
    }

    fn is_obsolete(&self) -> bool {
        self.is_same
    }

    fn exchange(&mut self, document: &mut Document) {
        document.swap_layer_name(self.layer, &mut self.name);
    }
}

impl Lone for RenameLayer {
    ghost alone = { λ x. record { tag = refl; follows = refl; bound = refl } };
}
