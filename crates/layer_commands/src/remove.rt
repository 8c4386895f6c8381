ghost use Rattle.std.specs.Prelude.{◌≡◌, Err, IfOk, IfErr, refl};
ghost use Rattle.command_api.specs.Making.{Makes};
ghost use Rattle.edits.specs.LayerEdits.{after_remove};
ghost use Rattle.layer_commands.specs.Changes.{remove_change, remove_exchange};
ghost use Rattle.layer_commands.specs.Names.{remove_names};

use command_api::{Exchange, Label, Lone};
use edits::EditFault;
use link_chain::Loose;
use map_model::{Document, Layer, LayerPlace};

/// A layer is removed, with all that stand in it, and also the last one that there is. While it is not in the map, the command owns it, and puts it
/// back at its old place.
#[derive(Drop)]
pub struct RemoveLayer {
    place: LayerPlace,
    layer: Option<Loose<Layer>>,
    id: u32,
}

impl RemoveLayer {
    /// The command that removes the layer with an id, not made yet. The document stays as it is.
    ///
    /// Refused where there is no such layer.
    pub fn new(document: &Document, layer: u32) -> Result<RemoveLayer, EditFault>
        ensures command { IfOk result (λ c. Makes remove_names document.now (after_remove document.now layer) (remove_change c)) }
        ensures refusal { IfErr result (λ fault. after_remove document.now layer ≡ Err fault) }
        ensures id { IfOk result (λ c. c.id ≡ layer) }
    {
        match document.map().layer_place(layer) {
            Some(place) => Ok(RemoveLayer {
                place,
                layer: None,
                id: layer,
            }),
            None => Err(EditFault::NoSuchLayer),
        }
    }

    /// The id of the layer.
    pub fn layer(&self) -> u32
        ensures { result ≡ self.now.id }
    {
        self.id
    }
}

impl Exchange for RemoveLayer {
    ghost exchange_parts = { remove_exchange };

    fn label(&self) -> Label {
        Label::untagged("Remove Layer", "remove layer")
    }

    fn is_obsolete(&self) -> bool {
        false
    }

    fn exchange(&mut self, document: &mut Document) {
        match self.layer.take() {
            Some(layer) => document.insert_layer(self.place, layer),
            None => self.layer = Some(document.take_layer(self.place)),
        }
    }
}

impl Lone for RemoveLayer {
    ghost alone = { λ x. record { tag = refl; follows = refl; bound = refl } };
}
