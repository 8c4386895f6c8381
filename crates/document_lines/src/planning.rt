// The lines about the active document: those that are edits plan their command, and change nothing.
ghost use Rattle.std.specs.Prelude.{◌≡◌};
ghost use Rattle.undo_stack.specs.Stacks.{history, macros, nestings, Holds};
ghost use Rattle.undo_stack.specs.Turning.{IsSteady};
ghost use Rattle.session.specs.Spelling.{CanBeSpelled};
ghost use Rattle.document_lines.specs.Rules.{rule_of};
ghost use Rattle.document_lines.specs.Turns.{turning_rule_of};
ghost use Rattle.document_lines.specs.Kinds.{DocumentKinds};
ghost use Rattle.document_lines.specs.EditLines.{IsOfCells, IsOfLayers, IsOfObjects, IsOfProperties, IsStamp};
ghost use Rattle.document_lines.specs.Planning.{IsOfActive, IsOfHistory, PlansMore, PlansOn, plan_of, refused};

mod edit_plans;
mod edited_head;
mod given_plans;
mod member_plans;
mod place_plans;

use crate::planned::{Edit, Planned};
use crate::planning::edit_plans::{
    SpelledBlock, plan_add_layer, plan_add_object, plan_add_tileset, plan_erase, plan_fill,
    plan_move_layer, plan_move_object, plan_remove_layer, plan_remove_object, plan_remove_property,
    plan_remove_tileset, plan_rename_layer, plan_resize, plan_resize_object, plan_select,
    plan_set_property, plan_show_layer, plan_stamp,
};
use crate::planning::given_plans::{
    plan_add_more_layer, plan_put_layer, plan_put_object, plan_put_property, plan_put_tileset,
    plan_take_property,
};
use crate::planning::member_plans::on_members;
use crate::planning::place_plans::{
    plan_extend, plan_number_tileset, plan_reparent_layer, plan_reparent_object,
};
use crate::steps::{plan_answered, plan_begin, plan_limit, plan_show, plan_step_text, state_of};
use crate::tile;
use command_api::Command;
use edits::{Area, Selecting};
use fractions::Fractions;
use map_model::Owner;
use refusals::{EditFault, Refusal};
use session::{Line, MoreLine, Reply};
use std::alloc::Global;
use undo_stack::Stack;

/// The plan of a line that is refused.
pub fn refused(refusal: Refusal) -> Planned
    ensures { result ≡ refused refusal }
{
    Planned::Reply(Reply::Refused(refusal))
}

/// The plan of an edit: its command, or its refusal.
pub fn planned(edit: Result<Edit, EditFault>) -> Planned
    ensures { result ≡ plan_of edit }
{
    match edit {
        Ok(edit) => Planned::Push(edit),
        Err(fault) => refused(Refusal::from(fault)),
    }
}

// Goes to the layer or object that properties belong to, so that it is found and changed at once.
fn seek_owner<C: Command>(stack: &mut Stack<C>, owner: Owner)
    requires { Holds C.change stack.old }
    ensures sound { Holds C.change stack.new }
    ensures same { history C.change stack.new ≡ history C.change stack.old }
    ensures kept { nestings stack.new ≡ nestings stack.old }
{
    match owner {
        Owner::Map => {}
        Owner::Layer(layer) => stack.seek_layer(layer),
        Owner::Object(object) => stack.seek_object(object),
    }
}

// Does a line about the active document that is no edit: it is about the history, or asks what the document holds.
#[inline(always)]
fn on_history<C: Command>(alloc: Global, stack: &mut Stack<C>, line: &Line<'_>) -> Planned
    requires sound { Holds C.change stack.old }
    requires spelled { CanBeSpelled line.now }
    requires about { IsOfHistory (rule_of line.now) }
    ensures sound { Holds C.change stack.new }
    ensures plans { PlansOn (turning_rule_of line.now) (history C.change stack.old) result (history C.change stack.new) }
    ensures kinds { IsSteady (history C.change stack.old)
        → DocumentKinds line.now (rule_of line.now) (history C.change stack.old) result (macros stack.old) (macros stack.new) }
{
    match line {
        Line::Undo => {
            let answer = stack.undo();
            plan_answered(stack, answer)
        }
        Line::Redo => {
            let answer = stack.redo();
            plan_answered(stack, answer)
        }
        Line::Goto { index } => {
            let answer = stack.set_index(*index as usize);
            plan_answered(stack, answer)
        }
        Line::Clean => {
            let answer = stack.set_clean();
            plan_answered(stack, answer)
        }
        Line::Begin { text, action } => plan_begin(stack, text, action),
        Line::End => {
            let answer = stack.end_macro();
            plan_answered(stack, answer)
        }
        Line::Limit { limit } => plan_limit(stack, *limit),
        Line::Dirty => {
            stack.reset_clean();
            Planned::Reply(state_of(stack))
        }
        Line::Clear => {
            stack.clear();
            Planned::Reply(state_of(stack))
        }
        Line::Show => plan_show(alloc, stack.document()),
        Line::StepText { number } => plan_step_text(alloc, stack, *number),
        Line::Tile { layer, x, y } => {
            let map = stack.document().map();
            Planned::Reply(tile::reply(map, *layer, *x, *y))
        }
        _ => unreachable!(),
    }
}

// The rectangle that a line names.
#[inline(always)]
fn area(x: i32, y: i32, width: u32, height: u32) -> Area
    ensures { result ≡ record { x = x; y = y; width = width; height = height } }
{
    Area {
        x,
        y,
        width,
        height,
    }
}

// Plans a stamp.
#[inline(always)]
fn on_stamp<C: Command>(alloc: Global, stack: &mut Stack<C>, line: &Line<'_>) -> Planned
    requires sound { Holds C.change stack.old }
    requires spelled { CanBeSpelled line.now }
    requires about { IsStamp line.now }
    ensures sound { Holds C.change stack.new }
    ensures plans { PlansOn (turning_rule_of line.now) (history C.change stack.old) result (history C.change stack.new) }
    ensures kinds { IsSteady (history C.change stack.old)
        → DocumentKinds line.now (rule_of line.now) (history C.change stack.old) result (macros stack.old) (macros stack.new) }
{
    match line {
        Line::Stamp {
            layer,
            x,
            y,
            width,
            values,
            follows,
        } => {
            let (x, y, width) = (*x, *y, *width);
            stack.seek_layer(*layer);
            let block = SpelledBlock {
                x,
                y,
                width,
                values,
            };
            plan_stamp(alloc, stack.document(), *layer, &block, *follows)
        }
        _ => unreachable!(),
    }
}

// Plans a line that is an edit of cells or of the selection, and no stamp.
#[inline(always)]
fn on_cells<C: Command>(alloc: Global, stack: &mut Stack<C>, line: &Line<'_>) -> Planned
    requires sound { Holds C.change stack.old }
    requires spelled { CanBeSpelled line.now }
    requires about { IsOfCells line.now }
    ensures sound { Holds C.change stack.new }
    ensures plans { PlansOn (turning_rule_of line.now) (history C.change stack.old) result (history C.change stack.new) }
    ensures kinds { IsSteady (history C.change stack.old)
        → DocumentKinds line.now (rule_of line.now) (history C.change stack.old) result (macros stack.old) (macros stack.new) }
{
    match line {
        Line::Erase {
            layer,
            x,
            y,
            width,
            height,
            follows,
        } => {
            stack.seek_layer(*layer);
            let area = area(*x, *y, *width, *height);
            plan_erase(alloc, stack.document(), *layer, &area, *follows)
        }
        Line::Fill { layer, x, y, value } => {
            stack.seek_layer(*layer);
            plan_fill(alloc, stack.document(), *layer, *x, *y, *value)
        }
        Line::Select {
            mode,
            x,
            y,
            width,
            height,
        } => {
            let mode = *mode;
            let area = area(*x, *y, *width, *height);
            plan_select(alloc, stack.document(), Selecting::Rectangle { mode, area })
        }
        Line::SelectNone => plan_select(alloc, stack.document(), Selecting::Nothing),
        _ => unreachable!(),
    }
}

// Plans a line that is an edit of layers or of the map's size.
#[inline(always)]
fn on_layers<C: Command>(alloc: Global, stack: &mut Stack<C>, line: &Line<'_>) -> Planned
    requires sound { Holds C.change stack.old }
    requires spelled { CanBeSpelled line.now }
    requires about { IsOfLayers line.now }
    ensures sound { Holds C.change stack.new }
    ensures plans { PlansOn (turning_rule_of line.now) (history C.change stack.old) result (history C.change stack.new) }
    ensures kinds { IsSteady (history C.change stack.old)
        → DocumentKinds line.now (rule_of line.now) (history C.change stack.old) result (macros stack.old) (macros stack.new) }
{
    match line {
        Line::AddLayer { kind, name } => plan_add_layer(alloc, stack.document(), *kind, name),
        Line::RemoveLayer { layer } => plan_remove_layer(stack.document(), *layer),
        Line::RenameLayer { layer, name } => {
            stack.seek_layer(*layer);
            plan_rename_layer(alloc, stack.document(), *layer, name)
        }
        Line::ShowLayer { layer, visible } => {
            stack.seek_layer(*layer);
            plan_show_layer(stack.document(), *layer, *visible)
        }
        Line::MoveLayer { layer, place } => plan_move_layer(stack.document(), *layer, *place),
        Line::Resize {
            width,
            height,
            dx,
            dy,
        } => plan_resize(alloc, stack.document(), *width, *height, *dx, *dy),
        _ => unreachable!(),
    }
}

// Plans a line that is an edit of objects.
#[inline(always)]
fn on_objects<C: Command>(alloc: Global, stack: &mut Stack<C>, line: &Line<'_>) -> Planned
    requires sound { Holds C.change stack.old }
    requires spelled { CanBeSpelled line.now }
    requires about { IsOfObjects line.now }
    ensures sound { Holds C.change stack.new }
    ensures plans { PlansOn (turning_rule_of line.now) (history C.change stack.old) result (history C.change stack.new) }
    ensures kinds { IsSteady (history C.change stack.old)
        → DocumentKinds line.now (rule_of line.now) (history C.change stack.old) result (macros stack.old) (macros stack.new) }
{
    match line {
        Line::AddObject {
            layer,
            x,
            y,
            width,
            height,
            name,
        } => {
            stack.seek_layer(*layer);
            let area = area(*x, *y, *width, *height);
            plan_add_object(alloc, stack.document(), *layer, &area, name)
        }
        Line::MoveObject {
            object,
            x,
            y,
            follows,
        } => {
            stack.seek_object(*object);
            plan_move_object(stack.document(), *object, *x, *y, *follows)
        }
        Line::ResizeObject {
            object,
            width,
            height,
        } => {
            stack.seek_object(*object);
            plan_resize_object(stack.document(), *object, *width, *height)
        }
        Line::RemoveObject { object } => {
            stack.seek_object(*object);
            plan_remove_object(stack.document(), *object)
        }
        _ => unreachable!(),
    }
}

// Plans a line that is an edit of properties or tilesets.
#[inline(always)]
fn on_properties<C: Command>(alloc: Global, stack: &mut Stack<C>, line: &Line<'_>) -> Planned
    requires sound { Holds C.change stack.old }
    requires spelled { CanBeSpelled line.now }
    requires about { IsOfProperties line.now }
    ensures sound { Holds C.change stack.new }
    ensures plans { PlansOn (turning_rule_of line.now) (history C.change stack.old) result (history C.change stack.new) }
    ensures kinds { IsSteady (history C.change stack.old)
        → DocumentKinds line.now (rule_of line.now) (history C.change stack.old) result (macros stack.old) (macros stack.new) }
{
    match line {
        Line::SetProperty {
            owner,
            name,
            value,
            follows,
        } => {
            seek_owner(stack, *owner);
            plan_set_property(alloc, stack.document(), *owner, name, value, *follows)
        }
        Line::RemoveProperty { owner, name } => {
            seek_owner(stack, *owner);
            plan_remove_property(stack.document(), *owner, name)
        }
        Line::AddTileset { first_id, source } => {
            plan_add_tileset(alloc, stack.document(), *first_id, source)
        }
        Line::RemoveTileset { first_id } => plan_remove_tileset(stack.document(), *first_id),
        _ => unreachable!(),
    }
}

/// Plans a line about a document, the active one: an edit is left to be committed, and any other line is done.
pub fn on_document<C: Command>(alloc: Global, stack: &mut Stack<C>, line: &Line<'_>) -> Planned
    requires sound { Holds C.change stack.old }
    requires spelled { CanBeSpelled line.now }
    requires about { IsOfActive (rule_of line.now) }
    ensures sound { Holds C.change stack.new }
    ensures plans { PlansOn (turning_rule_of line.now) (history C.change stack.old) result (history C.change stack.new) }
    ensures kinds { IsSteady (history C.change stack.old)
        → DocumentKinds line.now (rule_of line.now) (history C.change stack.old) result (macros stack.old) (macros stack.new) }
{
    match line {
        // Most lines are stamps.
        Line::Stamp { .. } => on_stamp(alloc, stack, line),
        Line::Undo
        | Line::Redo
        | Line::Goto { .. }
        | Line::Clean
        | Line::Begin { .. }
        | Line::End
        | Line::Limit { .. }
        | Line::Dirty
        | Line::Clear
        | Line::Show
        | Line::StepText { .. }
        | Line::Tile { .. } => on_history(alloc, stack, line),
        Line::Erase { .. } | Line::Fill { .. } | Line::Select { .. } | Line::SelectNone => {
            on_cells(alloc, stack, line)
        }
        Line::AddLayer { .. }
        | Line::RemoveLayer { .. }
        | Line::RenameLayer { .. }
        | Line::ShowLayer { .. }
        | Line::MoveLayer { .. }
        | Line::Resize { .. } => on_layers(alloc, stack, line),
        Line::AddObject { .. }
        | Line::MoveObject { .. }
        | Line::ResizeObject { .. }
        | Line::RemoveObject { .. } => on_objects(alloc, stack, line),
        Line::SetProperty { .. }
        | Line::RemoveProperty { .. }
        | Line::AddTileset { .. }
        | Line::RemoveTileset { .. } => on_properties(alloc, stack, line),
        _ => unreachable!(),
    }
}

/// Plans a line for all edits about a document, the active one: its edit is left to be committed.
pub fn on_more_line<C: Command>(
    alloc: Global,
    stack: &mut Stack<C>,
    line: &MoreLine<'_>,
    fractions: Fractions,
) -> Planned
    requires { Holds C.change stack.old }
    ensures sound { Holds C.change stack.new }
    ensures plans { PlansMore fractions line.now (history C.change stack.old) result (history C.change stack.new) }
    ensures kept { nestings stack.new ≡ nestings stack.old }
{
    match line {
        MoreLine::SetMember { .. } | MoreLine::PutMembers { .. } | MoreLine::RemoveMember { .. } =>
            on_members(alloc, stack, line, fractions),
        MoreLine::AddLayer { kind, name } => {
            plan_add_more_layer(alloc, stack.document(), *kind, name)
        }
        MoreLine::PutObject { layer, json } => {
            stack.seek_layer(*layer);
            plan_put_object(alloc, stack.document(), *layer, json, fractions)
        }
        MoreLine::ReparentObject {
            object,
            layer,
            place,
        } => {
            stack.seek_object(*object);
            plan_reparent_object(stack.document(), *object, *layer, *place)
        }
        MoreLine::ReparentLayer {
            layer,
            group,
            place,
        } => plan_reparent_layer(stack.document(), *layer, *group, *place),
        MoreLine::PutLayer { group, place, json } => {
            plan_put_layer(alloc, stack.document(), *group, *place, json, fractions)
        }
        MoreLine::PutProperty { owner, json } => {
            seek_owner(stack, *owner);
            plan_put_property(alloc, stack.document(), *owner, json, fractions)
        }
        MoreLine::TakeProperty { owner, json } => {
            seek_owner(stack, *owner);
            plan_take_property(alloc, stack.document(), *owner, json, fractions)
        }
        MoreLine::PutTileset { json } => {
            plan_put_tileset(alloc, stack.document(), json, fractions)
        }
        MoreLine::NumberTileset { first_id, number } => {
            plan_number_tileset(stack.document(), *first_id, *number)
        }
        MoreLine::Extend {
            left,
            top,
            right,
            bottom,
        } => plan_extend(
            alloc,
            stack.document(),
            *left,
            *top,
            *right,
            *bottom,
            fractions,
        ),
    }
}
