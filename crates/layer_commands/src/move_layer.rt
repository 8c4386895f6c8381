ghost use Rattle.std.specs.Prelude.{◌≡◌, Err, IfOk, IfErr, refl};
ghost use Rattle.command_api.specs.Making.{Makes};
ghost use Rattle.edits.specs.LayerEdits.{after_layer_into, after_move};
ghost use Rattle.layer_commands.specs.Changes.{move_change, move_exchange};
ghost use Rattle.layer_commands.specs.Names.{move_names};

use crate::parent::{is_parent_in, other_layers, siblings};
use command_api::{Exchange, Label, Lone};
use edits::EditFault;
use map_model::{Document, LayerPlace};
use std::mem;

/// A layer is moved, with all that stand in it, to another place: among its siblings, which are the layers of its group or those
/// that stand in no group, or into another group or out of its own.
#[derive(Drop)]
pub struct MoveLayer {
    from: LayerPlace,
    to: LayerPlace,
    layer: u32,
}

impl MoveLayer {
    /// The command that takes the layer with an id out and puts it in at a place, which is its zero-based place in the
    /// result; not made yet. The document stays as it is.
    ///
    /// Refused where there is no such layer, and then where the place is not below the number of its siblings, itself
    /// included.
    pub fn new(document: &Document, layer: u32, place: u32) -> Result<MoveLayer, EditFault>
        ensures command { IfOk result (λ c. Makes move_names document.now (after_move document.now layer place) (move_change c)) }
        ensures refusal { IfErr result (λ fault. after_move document.now layer place ≡ Err fault) }
        ensures id { IfOk result (λ c. c.layer ≡ layer) }
    {
        let map = document.map();
        let Some(from) = map.layer_place(layer) else {
            return Err(EditFault::NoSuchLayer);
        };
        let at = place as usize;
        if at >= map.sibling_count(from) {
            return Err(EditFault::OutOfRange);
        }
        Ok(MoveLayer {
            from,
            to: from.sibling(at),
            layer,
        })
    }

    /// The command that takes the layer with an id out, with all that stand in it, and puts it in at a zero-based place among the
    /// other layers of a parent: of a group, or those that stand in no group; not made yet. The document stays as it is.
    ///
    /// Refused, in this order: where there is no such layer; where there is no layer with the parent's id; where that is no
    /// group; and where the parent is the layer or stands in it, where the place is above the number of other layers there,
    /// where the layer or one in it would stand in more groups than a map may have in one another, or where what a file kept of
    /// them nests too deep there.
    pub fn reparent(
        document: &Document,
        layer: u32,
        parent: Option<u32>,
        place: u32,
    ) -> Result<MoveLayer, EditFault>
        ensures command { IfOk result (λ c. Makes move_names document.now (after_layer_into document.now layer parent place) (move_change c)) }
        ensures refusal { IfErr result (λ fault. after_layer_into document.now layer parent place ≡ Err fault) }
        ensures id { IfOk result (λ c. c.layer ≡ layer) }
    {
        let map = document.map();
        let Some(from) = map.layer_place(layer) else {
            return Err(EditFault::NoSuchLayer);
        };
        let Some(moved) = map.layer_at(from) else {
            return Err(EditFault::NoSuchLayer);
        };
        let layers = siblings(map, parent)?;
        let others = other_layers(from, parent, layers);
        let at = place as usize;
        if is_parent_in(moved, parent) {
            return Err(EditFault::OutOfRange);
        }
        if at > others {
            return Err(EditFault::OutOfRange);
        }
        if !map.layer_fits(parent, moved) {
            return Err(EditFault::OutOfRange);
        }
        Ok(MoveLayer {
            from,
            to: LayerPlace { parent, at },
            layer,
        })
    }

    /// The id of the layer.
    pub fn layer(&self) -> u32
        ensures { result ≡ self.now.layer }
    {
        self.layer
    }
}

impl Exchange for MoveLayer {
    ghost exchange_parts = { move_exchange };

    fn label(&self) -> Label {
        Label::untagged("Move Layer", "move layer")
    }

    fn is_obsolete(&self) -> bool {
        false
    }

    fn exchange(&mut self, document: &mut Document) {
        let layer = document.take_layer(self.from);
        document.insert_layer(self.to, layer);
        mem::swap(&mut self.from, &mut self.to);
    }
}

impl Lone for MoveLayer {
    ghost alone = { λ x. record { tag = refl; follows = refl; bound = refl } };
}
