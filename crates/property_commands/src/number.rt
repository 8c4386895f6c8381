ghost use Rattle.std.specs.Prelude.{◌≡◌, Err, IfOk, IfErr, refl};
ghost use Rattle.std.specs.List.{list_any};
ghost use Rattle.command_api.specs.Making.{Makes};
ghost use Rattle.edits.specs.TilesetEdits.{after_number_tileset, is_in_way};
ghost use Rattle.property_commands.specs.TilesetChanges.{number_tileset_change, number_tileset_exchange};
ghost use Rattle.property_commands.specs.Names.{number_tileset_names};

use command_api::{Exchange, Label, Lone};
use edits::EditFault;
use link_chain::Chain;
use map_model::limits::MAX_FIRST_ID;
use map_model::{Document, Tileset};
use std::mem;

/// A tileset gets another first id, in its place, and its values go along.
#[derive(Drop)]
pub struct NumberTileset {
    from: u32,
    to: u32,
    first_id: u32,
}

impl NumberTileset {
    /// The command that gives the tileset with a first id another one, not made yet. The document stays as it is.
    ///
    /// Refused where there is no such tileset; where the other one is 0 or above 268,435,455; where another tileset has it, or lies
    /// between the two; and then where a value of a cell or of an object would be of another tileset, of none, or of another tile.
    pub fn new(document: &Document, first_id: u32, number: u32) -> Result<NumberTileset, EditFault>
        ensures command { IfOk result (λ c. Makes number_tileset_names document.now (after_number_tileset document.now first_id number) (number_tileset_change c)) }
        ensures refusal { IfErr result (λ fault. after_number_tileset document.now first_id number ≡ Err fault) }
        ensures first { IfOk result (λ c. c.first_id ≡ number) }
    {
        let map = document.map();
        if map.tileset_place(first_id).is_none() {
            return Err(EditFault::NoSuchTileset);
        }
        if number == 0 || number > MAX_FIRST_ID {
            return Err(EditFault::OutOfRange);
        }
        if is_any_in_way(&map.parts().tilesets, first_id, number) {
            return Err(EditFault::FirstIdNotAbove);
        }
        if map.has_losses(first_id, number) {
            return Err(EditFault::OutOfRange);
        }
        Ok(NumberTileset {
            from: first_id,
            to: number,
            first_id: number,
        })
    }

    /// The first id that the tileset gets.
    pub fn first_id(&self) -> u32
        ensures { result ≡ self.now.first_id }
    {
        self.first_id
    }
}

// Whether another tileset than the one with a first id has a number, or lies between the two.
fn is_any_in_way(tilesets: &Chain<Tileset>, first_id: u32, number: u32) -> bool
    ensures { result ≡ list_any (is_in_way first_id number) tilesets.now }
{
    let (low, high) = (first_id.min(number), first_id.max(number));
    tilesets.iter().any(|tileset| {
        tileset.first_id != first_id && low <= tileset.first_id && tileset.first_id <= high
    })
}

impl Exchange for NumberTileset {
    ghost exchange_parts = { number_tileset_exchange };

    fn label(&self) -> Label {
        Label::untagged("Renumber Tileset", "renumber tileset")
    }

    fn is_obsolete(&self) -> bool {
        false
    }

    fn exchange(&mut self, document: &mut Document) {
        document.renumber_tileset(self.from, self.to);
        mem::swap(&mut self.from, &mut self.to);
    }
}

impl Lone for NumberTileset {
    ghost alone = { λ x. record { tag = refl; follows = refl; bound = refl } };
}
