ghost use Rattle.std.specs.Prelude.{◌≡◌, Err, IfOk, IfErr, refl};
ghost use Rattle.command_api.specs.Making.{Makes};
ghost use Rattle.edits.specs.LayerEdits.{after_show};
ghost use Rattle.layer_commands.specs.Changes.{show_change, show_exchange};
ghost use Rattle.layer_commands.specs.Names.{show_names};

use command_api::{Exchange, Label, Lone};
use edits::EditFault;
use map_model::Document;

/// A layer is shown or hidden. The command holds the visibility that the layer does not have.
#[derive(Drop)]
pub struct ShowLayer {
    layer: u32,
    visible: bool,
    // Whether the layer's visibility and the command's are the same.
    is_same: bool,
}

impl ShowLayer {
    /// The command that shows or hides the layer with an id, not made yet. The document stays as it is.
    ///
    /// Refused where there is no such layer.
    pub fn new(document: &Document, layer: u32, visible: bool) -> Result<ShowLayer, EditFault>
        ensures command { IfOk result (λ c. Makes show_names document.now (after_show document.now layer visible) (show_change c)) }
        ensures refusal { IfErr result (λ fault. after_show document.now layer visible ≡ Err fault) }
    {
        match document.map().layer(layer) {
            Some(shown) => Ok(ShowLayer {
                layer,
                visible,
                is_same: shown.visible == visible,
            }),
            None => Err(EditFault::NoSuchLayer),
        }
    }
}

impl ShowLayer {
    /// The id of the layer.
    pub fn layer(&self) -> u32
        ensures { result ≡ self.now.layer }
    {
        self.layer
    }
}

impl Exchange for ShowLayer {
    ghost exchange_parts = { show_exchange };

    fn label(&self) -> Label {
        Label::untagged("Show Layer", "show layer")
    }

    fn is_obsolete(&self) -> bool {
        self.is_same
    }

    fn exchange(&mut self, document: &mut Document) {
        self.visible = document.set_visible(self.layer, self.visible);
    }
}

impl Lone for ShowLayer {
    ghost alone = { λ x. record { tag = refl; follows = refl; bound = refl } };
}
