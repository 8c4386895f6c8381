ghost use Rattle.std.specs.Prelude.{◌≡◌, Some, Err, IfOk, IfErr, refl};
ghost use Rattle.map_model.specs.NewMap.{external_tileset};
ghost use Rattle.map_model.specs.WellFormed.{IsTileset};
ghost use Rattle.command_api.specs.Making.{IsRefusalOf, Makes};
ghost use Rattle.edits.specs.TilesetEdits.{after_add_tileset, after_put_tileset, after_remove_tileset, is_above};
ghost use Rattle.property_commands.specs.TilesetChanges.{add_tileset_change, add_tileset_exchange, remove_tileset_change, remove_tileset_exchange};
ghost use Rattle.property_commands.specs.Names.{add_tileset_names, remove_tileset_names};

use crate::link::exchange_tileset;
use command_api::{Exchange, Label, Lone};
use edits::EditFault;
use link_chain::{Chain, Loose};
use map_model::limits::{MAX_FIRST_ID, MAX_TILESETS};
use map_model::{Document, MapText, Tileset};
use std::alloc::{AllocError, Global};

/// An external tileset is added behind the last one. While it is not in the map, the command owns it.
#[derive(Drop)]
pub struct AddTileset {
    at: usize,
    tileset: Option<Loose<Tileset>>,
    first_id: u32,
}

impl AddTileset {
    /// The command that adds a tileset with a first id and a source, not made yet. It takes all the memory that its
    /// turns will need. The document stays as it is.
    ///
    /// Refused where the first id is not above all others, then where it is 0 or above 268,435,455, then where there
    /// are 256 tilesets, and then where there is no memory.
    pub fn new(
        alloc: Global,
        document: &Document,
        first_id: u32,
        source: &str,
    ) -> Result<AddTileset, EditFault>
        ensures command { IfOk result (λ c. Makes add_tileset_names document.now (after_add_tileset document.now first_id source.now) (add_tileset_change c)) }
        ensures refusal { IfErr result (IsRefusalOf (after_add_tileset document.now first_id source.now)) }
        ensures first { IfOk result (λ c. c.first_id ≡ first_id) }
    {
        let tilesets = &document.map().parts().tilesets;
        if !is_above_all(tilesets, first_id) {
            return Err(EditFault::FirstIdNotAbove);
        }
        if first_id == 0 || first_id > MAX_FIRST_ID {
            return Err(EditFault::OutOfRange);
        }
        let at = tilesets.len();
        if at >= MAX_TILESETS {
            return Err(EditFault::TooMany);
        }
        match loose_tileset(alloc, first_id, source) {
            Ok(tileset) => Ok(AddTileset {
                at,
                tileset: Some(tileset),
                first_id,
            }),
            Err(_) => Err(EditFault::NoMemory),
        }
    }

    /// The command that adds a tileset as it is given, not made yet. The document stays as it is.
    ///
    /// Refused where its first id is not above all others, then where there are 256 tilesets, and then where there is no memory.
    pub fn put(
        alloc: Global,
        document: &Document,
        tileset: Tileset,
    ) -> Result<AddTileset, EditFault>
        requires { IsTileset tileset }
        ensures command { IfOk result (λ c. Makes add_tileset_names document.now (after_put_tileset document.now tileset) (add_tileset_change c)) }
        ensures refusal { IfErr result (IsRefusalOf (after_put_tileset document.now tileset)) }
        ensures first { IfOk result (λ c. c.first_id ≡ tileset.first_id) }
    {
        let tilesets = &document.map().parts().tilesets;
        let first_id = tileset.first_id;
        if !is_above_all(tilesets, first_id) {
            return Err(EditFault::FirstIdNotAbove);
        }
        let at = tilesets.len();
        if at >= MAX_TILESETS {
            return Err(EditFault::TooMany);
        }
        match Loose::new(alloc, tileset) {
            Ok(tileset) => Ok(AddTileset {
                at,
                tileset: Some(tileset),
                first_id,
            }),
            Err(_) => Err(EditFault::NoMemory),
        }
    }

    /// The first id of the tileset.
    pub fn first_id(&self) -> u32
        ensures { result ≡ self.now.first_id }
    {
        self.first_id
    }
}

// Whether the first ids of all tilesets are below this one.
fn is_above_all(tilesets: &Chain<Tileset>, first_id: u32) -> bool
    ensures { result ≡ is_above first_id tilesets.now }
{
    tilesets.iter().all(|tileset| tileset.first_id < first_id)
}

// A new tileset in a link of its own.
fn loose_tileset(alloc: Global, first_id: u32, source: &str) -> Result<Loose<Tileset>, AllocError>
    ensures { IfOk result (λ loose. loose ≡ Some (external_tileset first_id source.now)) }
{
    let source = MapText::new(String::from_str(alloc, source)?);
    let tileset = Tileset::external(alloc, first_id, source);
    Loose::new(alloc, tileset).map_err(|_| AllocError)
}

impl Exchange for AddTileset {
    ghost exchange_parts = { add_tileset_exchange };

    fn label(&self) -> Label {
        Label::untagged("Add Tileset", "add tileset")
    }

    fn is_obsolete(&self) -> bool {
        false
    }

    fn exchange(&mut self, document: &mut Document) {
        exchange_tileset(document, self.at, &mut self.tileset);
    }
}

impl Lone for AddTileset {
    ghost alone = { λ x. record { tag = refl; follows = refl; bound = refl } };
}

/// A tileset that nothing uses is removed. While it is not in the map, the command owns it, and puts it back at its old
/// place.
#[derive(Drop)]
pub struct RemoveTileset {
    at: usize,
    tileset: Option<Loose<Tileset>>,
    first_id: u32,
}

impl RemoveTileset {
    /// The command that removes the tileset with a first id, not made yet. The document stays as it is.
    ///
    /// Refused where there is no such tileset, and then where a cell or an object has a value of it.
    pub fn new(document: &Document, first_id: u32) -> Result<RemoveTileset, EditFault>
        ensures command { IfOk result (λ c. Makes remove_tileset_names document.now (after_remove_tileset document.now first_id) (remove_tileset_change c)) }
        ensures refusal { IfErr result (λ fault. after_remove_tileset document.now first_id ≡ Err fault) }
        ensures first { IfOk result (λ c. c.first_id ≡ first_id) }
    {
        let map = document.map();
        let Some(at) = map.tileset_place(first_id) else {
            return Err(EditFault::NoSuchTileset);
        };
        if map.in_use(first_id) == Some(true) {
            return Err(EditFault::TilesetInUse);
        }
        Ok(RemoveTileset {
            at,
            tileset: None,
            first_id,
        })
    }

    /// The first id of the tileset.
    pub fn first_id(&self) -> u32
        ensures { result ≡ self.now.first_id }
    {
        self.first_id
    }
}

impl Exchange for RemoveTileset {
    ghost exchange_parts = { remove_tileset_exchange };

    fn label(&self) -> Label {
        Label::untagged("Remove Tileset", "remove tileset")
    }

    fn is_obsolete(&self) -> bool {
        false
    }

    fn exchange(&mut self, document: &mut Document) {
        exchange_tileset(document, self.at, &mut self.tileset);
    }
}

impl Lone for RemoveTileset {
    ghost alone = { λ x. record { tag = refl; follows = refl; bound = refl } };
}
