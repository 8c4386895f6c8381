// The edits of own members that lines ask for.
ghost use Rattle.std.specs.Prelude.{◌≡◌};
ghost use Rattle.map_model.specs.declared.owner.MemberOwner.TheVariants as owners;
ghost use Rattle.undo_stack.specs.Stacks.{history, nestings, Holds};
ghost use Rattle.document_lines.specs.EditLines.{IsOfMembers};
ghost use Rattle.document_lines.specs.MoreRules.{more_answer_of};
ghost use Rattle.document_lines.specs.Planning.{PlansEdit, PlansMade, PlansMore};
ghost use Rattle.member_commands.specs.Changes.{set_head_change, set_tileset_change};
ghost use Rattle.member_commands.specs.Edits.{after_put_members, after_remove_member, after_set_member};
ghost use Rattle.member_commands.specs.Names.{put_members_names, remove_member_names, set_member_names};
ghost use Rattle.member_commands.specs.Tilesets.{tileset_heads};

use crate::planned::{Edit, Planned};
use crate::planning::edited_head::EditedHead;
use crate::planning::refused;
use command_api::Command;
use fractions::Fractions;
use map_model::{Document, LayerHead, MapHead, MemberOwner, ObjectHead, TilesetHead};
use member_commands::{SetHead, SetTileset, set_tileset_member};
use refusals::{MoreFault, Refusal};
use session::{MoreLine, Text};
use std::alloc::Global;
use undo_stack::Stack;

// The plan of a command: its edit, or its refusal.
fn planned<H: EditedHead>(alloc: Global, command: Result<SetHead<H>, MoreFault>) -> Planned
    ensures { PlansMade (set_head_change H.parts) command result }
{
    match command {
        Ok(command) => match Box::new(alloc, command) {
            Ok(command) => Planned::Push(H::into_edit(command)),
            Err(_) => refused(Refusal::NoMemory),
        },
        Err(fault) => refused(Refusal::from(fault)),
    }
}

#[inline(never)]
fn plan_set<H: EditedHead>(
    alloc: Global,
    document: &Document,
    id: u32,
    name: &Text<'_>,
    json: &Text<'_>,
    follows: bool,
    fractions: Fractions,
) -> Planned
    ensures { PlansEdit (more_answer_of (set_member_names (H.parts.owner id) name.now follows) (after_set_member H.parts fractions document.now id name.now json.now)) document.now result }
{
    let (name, json) = (name.as_str(), json.as_str());
    let command = SetHead::<H>::set(alloc, document, id, name, json, follows, fractions);
    planned(alloc, command)
}

// The plan of a tileset's own member: its edit, by the member's value or by the tileset's head, or its refusal.
fn planned_tileset(alloc: Global, command: Result<SetTileset, MoreFault>) -> Planned
    ensures { PlansMade set_tileset_change command result }
{
    match command {
        Ok(SetTileset::Head(command)) => planned(alloc, Ok(command)),
        Ok(SetTileset::Value(command)) => match Box::new(alloc, command) {
            Ok(command) => Planned::Push(Edit::SetTilesetMember(command)),
            Err(_) => refused(Refusal::NoMemory),
        },
        Err(fault) => refused(Refusal::from(fault)),
    }
}

#[inline(never)]
fn plan_set_tileset(
    alloc: Global,
    document: &Document,
    first_id: u32,
    name: &Text<'_>,
    json: &Text<'_>,
    follows: bool,
    fractions: Fractions,
) -> Planned
    ensures { PlansEdit (more_answer_of (set_member_names (owners.Tileset first_id) name.now follows) (after_set_member tileset_heads fractions document.now first_id name.now json.now)) document.now result }
{
    let (name, json) = (name.as_str(), json.as_str());
    let command = set_tileset_member(alloc, document, first_id, name, json, follows, fractions);
    planned_tileset(alloc, command)
}

#[inline(never)]
fn plan_put<H: EditedHead>(
    alloc: Global,
    document: &Document,
    id: u32,
    json: &Text<'_>,
    follows: bool,
    fractions: Fractions,
) -> Planned
    ensures { PlansEdit (more_answer_of (put_members_names (H.parts.owner id) follows) (after_put_members H.parts fractions document.now id json.now)) document.now result }
{
    let command = SetHead::<H>::put(alloc, document, id, json.as_str(), follows, fractions);
    planned(alloc, command)
}

#[inline(never)]
fn plan_remove<H: EditedHead>(
    alloc: Global,
    document: &Document,
    id: u32,
    name: &Text<'_>,
    fractions: Fractions,
) -> Planned
    ensures { PlansEdit (more_answer_of remove_member_names (after_remove_member H.parts fractions document.now id name.now)) document.now result }
{
    let command = SetHead::<H>::remove(alloc, document, id, name.as_str(), fractions);
    planned(alloc, command)
}

/// Plans a line of own members about a document, the active one: its edit is left to be committed.
pub fn on_members<C: Command>(
    alloc: Global,
    stack: &mut Stack<C>,
    line: &MoreLine<'_>,
    fractions: Fractions,
) -> Planned
    requires sound { Holds C.change stack.old }
    requires about { IsOfMembers line.now }
    ensures sound { Holds C.change stack.new }
    ensures plans { PlansMore fractions line.now (history C.change stack.old) result (history C.change stack.new) }
    ensures kept { nestings stack.new ≡ nestings stack.old }
{
    match line {
        MoreLine::SetMember {
            owner: MemberOwner::Object(object),
            name,
            json,
            follows,
        } => {
            stack.seek_object(*object);
            plan_set::<ObjectHead>(
                alloc,
                stack.document(),
                *object,
                name,
                json,
                *follows,
                fractions,
            )
        }
        MoreLine::PutMembers {
            owner: MemberOwner::Object(object),
            json,
            follows,
        } => {
            stack.seek_object(*object);
            plan_put::<ObjectHead>(alloc, stack.document(), *object, json, *follows, fractions)
        }
        MoreLine::RemoveMember {
            owner: MemberOwner::Object(object),
            name,
        } => {
            stack.seek_object(*object);
            plan_remove::<ObjectHead>(alloc, stack.document(), *object, name, fractions)
        }
        MoreLine::SetMember {
            owner: MemberOwner::Layer(layer),
            name,
            json,
            follows,
        } => plan_set::<LayerHead>(
            alloc,
            stack.document(),
            *layer,
            name,
            json,
            *follows,
            fractions,
        ),
        MoreLine::PutMembers {
            owner: MemberOwner::Layer(layer),
            json,
            follows,
        } => plan_put::<LayerHead>(alloc, stack.document(), *layer, json, *follows, fractions),
        MoreLine::RemoveMember {
            owner: MemberOwner::Layer(layer),
            name,
        } => plan_remove::<LayerHead>(alloc, stack.document(), *layer, name, fractions),
        MoreLine::SetMember {
            owner: MemberOwner::Map,
            name,
            json,
            follows,
        } => plan_set::<MapHead>(alloc, stack.document(), 0, name, json, *follows, fractions),
        MoreLine::PutMembers {
            owner: MemberOwner::Map,
            json,
            follows,
        } => plan_put::<MapHead>(alloc, stack.document(), 0, json, *follows, fractions),
        MoreLine::RemoveMember {
            owner: MemberOwner::Map,
            name,
        } => plan_remove::<MapHead>(alloc, stack.document(), 0, name, fractions),
        MoreLine::SetMember {
            owner: MemberOwner::Tileset(first_id),
            name,
            json,
            follows,
        } => plan_set_tileset(
            alloc,
            stack.document(),
            *first_id,
            name,
            json,
            *follows,
            fractions,
        ),
        MoreLine::PutMembers {
            owner: MemberOwner::Tileset(first_id),
            json,
            follows,
        } => plan_put::<TilesetHead>(
            alloc,
            stack.document(),
            *first_id,
            json,
            *follows,
            fractions,
        ),
        MoreLine::RemoveMember {
            owner: MemberOwner::Tileset(first_id),
            name,
        } => plan_remove::<TilesetHead>(alloc, stack.document(), *first_id, name, fractions),
        _ => unreachable!(),
    }
}
