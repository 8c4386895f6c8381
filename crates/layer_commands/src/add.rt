ghost use Rattle.std.specs.Prelude.{◌≡◌, ◌+◌, ◌<◌, length, nat_le, Some, IfOk, IfErr, refl};
ghost use Rattle.map_model.specs.declared.limits.TheConstants.{MAX_LAYERS, MAX_NEXT_ID};
ghost use Rattle.map_model.specs.Groups.{all_drawn};
ghost use Rattle.map_model.specs.Layers.{next_ids_of};
ghost use Rattle.map_model.specs.Lists.{Each};
ghost use Rattle.map_model.specs.NewLayers.{IsNewLayer, own_layer_ids, own_object_ids};
ghost use Rattle.map_model.specs.NewMap.{new_layer, new_more_layer};
ghost use Rattle.map_model.specs.WellFormed.{IsId, IsWellFormed};
ghost use Rattle.command_api.specs.Making.{IsRefusalOf, Makes};
ghost use Rattle.edits.specs.LayerEdits.{after_add, after_add_more, after_put_layer, has_room, next_above_all};
ghost use Rattle.layer_commands.specs.Changes.{add_change, add_exchange, numbered};
ghost use Rattle.layer_commands.specs.Names.{add_names};

use crate::parent::siblings;
use command_api::{Exchange, Label, Lone};
use edits::EditFault;
use link_chain::Loose;
use map_json::{GivenLayer, Ids};
use map_model::limits::{MAX_LAYERS, MAX_NEXT_ID};
use map_model::{Document, Layer, LayerKind, LayerPlace, Map, MapText, MoreLayerKind, NextIds};
use std::alloc::{AllocError, Global};

/// A layer is added, with all that stand in it. While it is not in the map, the command owns it.
#[derive(Drop)]
pub struct AddLayer {
    id: u32,
    place: LayerPlace,
    // The next ids while the layer is not in the map, and while it is.
    next: NextIds,
    raised: NextIds,
    layer: Option<Loose<Layer>>,
}

impl AddLayer {
    /// The command that adds an empty layer behind the last one that stands in no group, not made yet. It takes the next layer id,
    /// and all the memory that its turns will need. The document stays as it is.
    ///
    /// Refused where there are 256 layers, those in groups counted too, or the next layer id is 2,147,483,647; and then where there is no memory.
    pub fn new(
        alloc: Global,
        document: &Document,
        kind: LayerKind,
        name: &str,
    ) -> Result<AddLayer, EditFault>
        ensures command { IfOk result (λ c. Makes add_names document.now (after_add document.now kind name.now) (add_change c)) }
        ensures refusal { IfErr result (IsRefusalOf (after_add document.now kind name.now)) }
    {
        let map = document.map();
        let parts = map.parts();
        if !has_room(map) {
            return Err(EditFault::TooMany);
        }
        let size = parts.width as usize * parts.height as usize;
        match loose_layer(alloc, kind, parts.next_layer_id, name, size) {
            Ok(layer) => Ok(numbered(map, layer)),
            Err(_) => Err(EditFault::NoMemory),
        }
    }

    /// As `new`, of a layer of a further kind.
    pub fn new_more(
        alloc: Global,
        document: &Document,
        kind: MoreLayerKind,
        name: &str,
    ) -> Result<AddLayer, EditFault>
        ensures command { IfOk result (λ c. Makes add_names document.now (after_add_more document.now kind name.now) (add_change c)) }
        ensures refusal { IfErr result (IsRefusalOf (after_add_more document.now kind name.now)) }
    {
        let map = document.map();
        if !has_room(map) {
            return Err(EditFault::TooMany);
        }
        match loose_more_layer(alloc, kind, map.parts().next_layer_id, name) {
            Ok(layer) => Ok(numbered(map, layer)),
            Err(_) => Err(EditFault::NoMemory),
        }
    }

    /// The command that adds a layer as it is given, with all that stand in it, to a zero-based place among the layers of a parent: of
    /// a group, or those that stand in no group; not made yet. The next ids are then above all ids in it. The document stays as it is.
    ///
    /// Refused, in this order: where there is no layer with the parent's id; where that is no group; where the place is above the
    /// number of layers there, or where the layer or one in it would stand in more groups than a map may have in one another; where
    /// there would be more than 256 layers, those in groups counted too; and then where there is no memory.
    pub fn put(
        alloc: Global,
        document: &Document,
        parent: Option<u32>,
        place: u32,
        given: GivenLayer,
    ) -> Result<AddLayer, EditFault>
        requires new { IsNewLayer document.now.map given.layer }
        requires layers { given.ids.layers.items ≡ own_layer_ids given.layer }
        requires objects { given.ids.objects.items ≡ own_object_ids given.layer }
        ensures command { IfOk result (λ c. Makes add_names document.now (after_put_layer document.now parent place given.layer) (add_change c)) }
        ensures refusal { IfErr result (IsRefusalOf (after_put_layer document.now parent place given.layer)) }
    {
        let map = document.map();
        let layers = siblings(map, parent)?;
        let at = place as usize;
        if at > layers.len() {
            return Err(EditFault::OutOfRange);
        }
        let GivenLayer { layer, ids } = given;
        if !map.layer_fits(parent, &layer) {
            return Err(EditFault::OutOfRange);
        }
        if !has_room_for(map, &ids) {
            return Err(EditFault::TooMany);
        }
        let next = next_ids(map);
        let raised = above_all(&ids, next);
        let id = layer.id;
        match Loose::new(alloc, layer) {
            Ok(layer) => Ok(AddLayer {
                id,
                place: LayerPlace { parent, at },
                next,
                raised,
                layer: Some(layer),
            }),
            Err(_) => Err(EditFault::NoMemory),
        }
    }
}

fn next_ids(map: &Map) -> NextIds
    ensures ids { result ≡ next_ids_of map.now }
    ensures well_formed { IsWellFormed map.now }
{
    let parts = map.parts();
    NextIds {
        layer: parts.next_layer_id,
        object: parts.next_object_id,
    }
}

// The command that adds a layer with the next layer id, behind the last one that stands in no group.
fn numbered(map: &Map, layer: Loose<Layer>) -> AddLayer
    requires { map.now.next_layer_id < MAX_NEXT_ID }
    ensures { result ≡ numbered map.now layer }
{
    let next = next_ids(map);
    AddLayer {
        id: next.layer,
        place: map.last_place(),
        next,
        raised: NextIds {
            layer: next.layer + 1,
            object: next.object,
        },
        layer: Some(layer),
    }
}

// Whether there may be so many layers more as have these ids, those in groups counted too.
fn has_room_for(map: &Map, ids: &Ids) -> bool
    ensures { result ≡ nat_le (length (all_drawn map.now.layers) + length ids.now.layers.items) MAX_LAYERS }
{
    let count = map.layer_count();
    count <= MAX_LAYERS && ids.layers.len() <= MAX_LAYERS - count
}

// The next id, above these ids too.
fn above(ids: &[u32], next: u32) -> u32
    requires { Each (IsId MAX_NEXT_ID) ids.now }
    ensures { result ≡ next_above_all ids.now next }
{
    let mut above = next;
    for id in ids {
        if *id >= above {
            above = *id + 1;
        }
    }
    above
}

// The next ids, above these ids too.
fn above_all(ids: &Ids, next: NextIds) -> NextIds
    requires layers { Each (IsId MAX_NEXT_ID) ids.now.layers.items }
    requires objects { Each (IsId MAX_NEXT_ID) ids.now.objects.items }
    ensures layer { result.layer ≡ next_above_all ids.now.layers.items next.layer }
    ensures object { result.object ≡ next_above_all ids.now.objects.items next.object }
{
    NextIds {
        layer: above(&ids.layers, next.layer),
        object: above(&ids.objects, next.object),
    }
}

// Whether there may be one more layer, those in groups counted too, and one more id.
fn has_room(map: &Map) -> bool
    ensures { result ≡ has_room map.now }
{
    map.layer_count() < MAX_LAYERS && map.parts().next_layer_id < MAX_NEXT_ID
}

// A new layer in a link of its own.
fn loose_layer(
    alloc: Global,
    kind: LayerKind,
    id: u32,
    name: &str,
    size: usize,
) -> Result<Loose<Layer>, AllocError>
    ensures { IfOk result (λ loose. loose ≡ Some (new_layer kind id name.now size)) }
{
    let name = MapText::new(String::from_str(alloc, name)?);
    let layer = Layer::new(alloc, kind, id, name, size)?;
    Loose::new(alloc, layer).map_err(|_| AllocError)
}

// A new layer of a further kind in a link of its own.
fn loose_more_layer(
    alloc: Global,
    kind: MoreLayerKind,
    id: u32,
    name: &str,
) -> Result<Loose<Layer>, AllocError>
    ensures { IfOk result (λ loose. loose ≡ Some (new_more_layer kind id name.now)) }
{
    let name = MapText::new(String::from_str(alloc, name)?);
    let layer = Layer::new_more(alloc, kind, id, name)?;
    Loose::new(alloc, layer).map_err(|_| AllocError)
}

impl AddLayer {
    /// The id of the layer.
    pub fn layer(&self) -> u32
        ensures { result ≡ self.now.id }
    {
        self.id
    }
}

impl Exchange for AddLayer {
    ghost exchange_parts = { add_exchange };

    fn label(&self) -> Label {
        Label::untagged("Add Layer", "add layer")
    }

    fn is_obsolete(&self) -> bool {
        false
    }

    fn exchange(&mut self, document: &mut Document) {
        match self.layer.take() {
            Some(layer) => {
                document.set_next_ids(self.raised.layer, self.raised.object);
                document.insert_layer(self.place, layer);
            }
            None => {
                self.layer = Some(document.take_layer(self.place));
                document.set_next_ids(self.next.layer, self.next.object);
            }
        }
    }
}

impl Lone for AddLayer {
    ghost alone = { λ x. record { tag = refl; follows = refl; bound = refl } };
}
