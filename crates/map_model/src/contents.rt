// What a map's records hold, each seen by contracts as plain data.
ghost use Rattle.std.specs.Prelude.{◌≡◌, IsUtf8, [], ◌+◌, ◌*◌, ◌<◌, length, slice_set, string_bytes, Some, IsSome};
ghost use Rattle.serde_json.specs.Find.{get_member};
ghost use Rattle.serde_json.specs.View.{view as data_of, members_view};
ghost use Rattle.map_model.specs.Lists.{Each};
ghost use Rattle.map_model.specs.Alike.{AreAlike};
ghost use Rattle.map_model.specs.CellEdits.{AreInRowOrder, HaveRange, IsBelow, cell_number, put_values, side_value, with_value};
ghost use Rattle.map_model.specs.Heads.{with_member};
ghost use Rattle.map_model.specs.WellFormed.{IsTileValue};

use crate::alike::put_alike;
use crate::edit::{CellEdit, Side};
use serde_json::Value;
use std::marker::Model;
use std::mem;
use tile_id::Gid;

/// A text of a map, seen as its bytes.
#[derive(Drop)]
pub struct MapText {
    text: String,
}

impl Model for MapText {
    ghost use Rattle.std.specs.Prelude.{List, ℕ, string_bytes};

    ghost Value = { List ℕ };

    ghost view = { λ a. string_bytes a.text };
}

impl MapText {
    /// The text that a string is.
    pub fn new(text: String) -> MapText
        ensures { result ≡ string_bytes text }
    {
        MapText { text }
    }

    /// The text.
    pub fn as_str(&self) -> &str
        ensures { result.now ≡ self.now }
    {
        self.text.as_str()
    }

    // The law that a text is UTF-8, for callers whose proof needs it. It does nothing.
    pub(crate) fn text_is_utf8(&self)
        ensures { IsUtf8 self.now }
    {
        let _text = self.text.as_str();
    }

    /// Takes the text out, and leaves an empty one. It takes no memory.
    pub(crate) fn take(&mut self) -> MapText
        ensures text { result ≡ self.old }
        ensures left { self.new ≡ [] }
    {
        let empty = String::new(*self.text.allocator());
        MapText {
            text: mem::replace(&mut self.text, empty),
        }
    }
}

/// The values of a tile layer, row by row from the top, left to right.
#[derive(Drop)]
pub struct Cells {
    values: Vec<Gid>,
}

impl Model for Cells {
    ghost use Rattle.std.specs.Prelude.{List, ℕ};

    ghost Value = { List ℕ };

    ghost view = { λ a. a.values.items };
}

impl Cells {
    /// The values of a vector.
    pub fn new(values: Vec<Gid>) -> Cells
        ensures { result ≡ values.items }
    {
        Cells { values }
    }

    /// The values.
    pub fn as_slice(&self) -> &[Gid]
        ensures { result.now ≡ self.now }
    {
        self.values.as_slice()
    }

    /// Sets the value at an index.
    pub(crate) fn set(&mut self, at: usize, value: Gid)
        requires { at < length self.old }
        ensures { self.new ≡ slice_set self.old at value }
    {
        self.values[at] = value;
    }

    /// Sets the cells of a list, in a layer of this width, to their values on a side.
    pub(crate) fn put(&mut self, width: usize, edits: &[CellEdit], side: Side)
        requires { Each (IsBelow width (length self.old)) edits.now }
        ensures values { self.new ≡ put_values width side edits.now self.old }
        ensures range { HaveRange side edits.now }
    {
        put_all(self.values.as_mut_slice(), width, edits, side);
    }

    /// Does what `put` does, with cells that all have one value before and one after.
    pub(crate) fn put_alike(&mut self, width: usize, edits: &[CellEdit], side: Side)
        requires inside { Each (IsBelow width (length self.old)) edits.now }
        requires ordered { AreInRowOrder edits.now }
        requires alike { AreAlike edits.now }
        ensures values { self.new ≡ put_values width side edits.now self.old }
        ensures range { HaveRange side edits.now }
    {
        put_alike(self.values.as_mut_slice(), width, edits, side);
    }
}

// Sets a cell, in the values of a layer of this width, to its value on a side.
#[inline(always)]
fn put_one(values: &mut [Gid], width: usize, edit: CellEdit, side: Side)
    requires { IsBelow width (length values.old) edit }
    ensures values { values.new ≡ with_value (cell_number width edit) (side_value side edit) values.old }
    ensures range { IsTileValue (side_value side edit) }
{
    let at = edit.y as usize * width + edit.x as usize;
    values[at] = edit.value(side);
}

// Sets the cells of a list to their values on a side, one by one.
fn put_each(values: &mut [Gid], width: usize, edits: &[CellEdit], side: Side)
    requires { Each (IsBelow width (length values.old)) edits.now }
    ensures values { values.new ≡ put_values width side edits.now values.old }
    ensures range { HaveRange side edits.now }
{
    let mut rest = edits;
    while let [edit, others @ ..] = rest {
        put_one(values, width, *edit, side);
        rest = others;
    }
}

// Sets the cells of a long list to their values on a side: four cells in each round, which makes what a round costs beside
// them small.
fn put_all(values: &mut [Gid], width: usize, edits: &[CellEdit], side: Side)
    requires { Each (IsBelow width (length values.old)) edits.now }
    ensures values { values.new ≡ put_values width side edits.now values.old }
    ensures range { HaveRange side edits.now }
{
    let mut rest = edits;
    while let [first, second, third, fourth, others @ ..] = rest {
        put_one(values, width, *first, side);
        put_one(values, width, *second, side);
        put_one(values, width, *third, side);
        put_one(values, width, *fourth, side);
        rest = others;
    }
    put_each(values, width, rest, side);
}

/// The members of a JSON object that the editor does not interpret.
#[derive(Drop)]
pub struct Kept {
    members: serde_json::Map<String, Value>,
}

impl Model for Kept {
    ghost use Rattle.serde_json.specs.Data.{Members};
    ghost use Rattle.serde_json.specs.View.{members_view};
    ghost use Rattle.map_model.specs.DataCode.{members_code};

    ghost Value = { Members };

    ghost coded = { members_code };

    ghost view = { λ a. members_view a.members.entries };
}

impl Kept {
    /// The members of an object.
    pub fn new(members: serde_json::Map<String, Value>) -> Kept
        ensures { result ≡ members_view members.entries }
    {
        Kept { members }
    }

    /// The members.
    pub fn members(&self) -> &serde_json::Map<String, Value>
        ensures { members_view result.now.entries ≡ self.now }
    {
        &self.members
    }

    /// Gives the member of a name, which is there, another value, and hands the old one back.
    pub fn replace_value(&mut self, name: &str, value: JsonValue) -> JsonValue
        requires { IsSome (get_member name.now self.old) }
        ensures given { get_member name.now self.old ≡ Some result }
        ensures kept { self.new ≡ with_member name.now (λ own. value) self.old }
    {
        let JsonValue { value } = value;
        let Some(own) = self.members.get_mut(name) else {
            unreachable!();
        };
        JsonValue {
            value: mem::replace(own, value),
        }
    }
}

/// A JSON value that the editor does not interpret.
#[derive(Drop)]
pub struct JsonValue {
    value: Value,
}

impl Model for JsonValue {
    ghost use Rattle.serde_json.specs.Data.{Data};
    ghost use Rattle.serde_json.specs.View.{view as data_of};
    ghost use Rattle.map_model.specs.DataCode.{data_code};

    ghost Value = { Data };

    ghost coded = { data_code };

    ghost view = { λ a. data_of a.value };
}

impl JsonValue {
    /// The value of a tree.
    pub fn new(value: Value) -> JsonValue
        ensures { result ≡ data_of value }
    {
        JsonValue { value }
    }

    /// The tree.
    pub fn value(&self) -> &Value
        ensures { data_of result.now ≡ self.now }
    {
        &self.value
    }
}
