// A tileset's own member, set by its value alone where the tileset has it, so that no step holds all of a tileset's tiles.
ghost use Rattle.std.specs.Prelude.{◌≡◌, IfErr, IfOk, IfSome, IsSome, None, Result, Some};
ghost use Rattle.map_model.specs.declared.owner.MemberOwner.TheVariants as owners;
ghost use Rattle.map_model.specs.Document.{DocumentParts};
ghost use Rattle.map_model.specs.Heads.{tileset_head, tileset_head_with_id, tileset_value, with_member};
ghost use Rattle.map_model.specs.Lens.{put};
ghost use Rattle.refusals.specs.declared.more_fault.MoreFault.{MoreFault as Fault};
ghost use Rattle.serde_json.specs.Find.{get_member};
ghost use Rattle.command_api.specs.Making.{Makes};
ghost use Rattle.command_api.specs.Names.{Names};
ghost use Rattle.member_commands.specs.Changes.{IsByValue, set_head_change, set_tileset_change};
ghost use Rattle.member_commands.specs.Edits.{IsMoreRefusalOf, after_set_member, is_early_named};
ghost use Rattle.member_commands.specs.Names.{set_member_names};
ghost use Rattle.member_commands.specs.Tilesets.{tileset_heads};

use crate::set_head::{MemberEdit, SetHead};
use crate::set_value::{SetTileset, SetValue};
use fractions::Fractions;
use json_members::found;
use map_json::is_tileset_head;
use map_model::{Document, JsonValue, Tileset, TilesetHead};
use refusals::MoreFault;
use std::alloc::Global;

// The value that a head has under a name, where the head is a tileset's own but for this value there. Else the head stays.
fn value_apart(
    tileset: &Tileset,
    name: &str,
    own: JsonValue,
    head: &mut TilesetHead,
) -> Option<JsonValue>
    ensures value { IfSome result (λ value. get_member name.now head.old.kept ≡ Some value) }
    ensures own { IsSome result → tileset_head tileset.now ≡ record head.old { kept = with_member name.now (λ value. own) head.old.kept } }
    ensures kept { result ≡ None → head.new ≡ head.old }
{
    let Some(_) = found(head.kept.members(), name) else {
        return None;
    };
    let value = head.kept.replace_value(name, own);
    if is_tileset_head(tileset, head) {
        return Some(value);
    }
    drop(head.kept.replace_value(name, value));
    None
}

// The value by which a head differs from that of the tileset with a first id, where that is all. Else the head stays.
fn other_value(
    document: &Document,
    first_id: u32,
    name: &str,
    head: &mut TilesetHead,
) -> Option<JsonValue>
    ensures there { IsSome result → IsSome ((tileset_value first_id name.now).get document.now) }
    ensures value { IfSome result (λ value. put (tileset_value first_id name.now) value document.now ≡ put (tileset_head_with_id first_id) head.old document.now) }
    ensures kept { result ≡ None → head.new ≡ head.old }
{
    let Some(tileset) = document.map().tileset(first_id) else {
        return None;
    };
    let Some(own) = found(tileset.kept.members(), name) else {
        return None;
    };
    let Ok(own) = own.clone() else {
        return None;
    };
    value_apart(tileset, name, JsonValue::new(own), head)
}

// The value by which an edit of one member is made, where that is all. Else the head stays.
fn edited_value(
    document: &Document,
    first_id: u32,
    edit: &MemberEdit,
    head: &mut TilesetHead,
) -> Option<JsonValue>
    ensures value { IfSome result (λ value. IsByValue edit.now first_id value head.old document.now) }
    ensures kept { result ≡ None → head.new ≡ head.old }
{
    match edit {
        MemberEdit::Set(name) => other_value(document, first_id, name.as_str(), head),
        _ => None,
    }
}

// The same command, by the value alone where it gives a tileset's member another one.
fn narrowed(document: &Document, command: SetHead<TilesetHead>) -> SetTileset
    ensures { (edit : Names) (after : Result DocumentParts Fault) → Makes edit document.now after (set_head_change tileset_heads command) → Makes edit document.now after (set_tileset_change result) }
{
    let SetHead {
        id,
        edit,
        follows,
        head,
        is_made,
        is_same,
    } = command;
    let Some(mut head) = head else {
        unreachable!();
    };
    let value = edited_value(document, id, &edit, &mut head);
    match (edit, value) {
        (MemberEdit::Set(name), Some(value)) => SetTileset::Value(SetValue {
            first_id: id,
            name,
            follows,
            value: Some(value),
            is_made,
            is_same,
        }),
        (edit, _) => SetTileset::Head(SetHead {
            id,
            edit,
            follows,
            head: Some(head),
            is_made,
            is_same,
        }),
    }
}

/// The command that gives the own member of the tileset with a first id that has this name the value that a JSON text says, as
/// `SetHead::set` makes it. Where the tileset has the member, the command holds no more than its name and one value. So it does
/// not where memory is out for a copy of that.
pub fn set_tileset_member(
    alloc: Global,
    document: &Document,
    first_id: u32,
    name: &str,
    json: &str,
    follows: bool,
    fractions: Fractions,
) -> Result<SetTileset, MoreFault>
    ensures command { IfOk result (λ c. Makes (set_member_names (owners.Tileset first_id) name.now follows) document.now (after_set_member tileset_heads fractions document.now first_id name.now json.now) (set_tileset_change c)) }
    ensures refusal { IfErr result (IsMoreRefusalOf is_early_named (after_set_member tileset_heads fractions document.now first_id name.now json.now)) }
{
    match SetHead::<TilesetHead>::set(alloc, document, first_id, name, json, follows, fractions) {
        Ok(command) => Ok(narrowed(document, command)),
        Err(fault) => Err(fault),
    }
}
