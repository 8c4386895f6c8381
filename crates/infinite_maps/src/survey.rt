// The chunks of a map, where they lie and how much they hold.
ghost use Rattle.std.specs.Prelude.{◌≡◌, false, true, codes, string_bytes, IfOk, IfErr};
ghost use Rattle.std.specs.Int.{int_min, int_max};
ghost use Rattle.serde_json.specs.Find.{get_member};
ghost use Rattle.serde_json.specs.View.{view as data_of, items_view, members_view};
ghost use Rattle.infinite_maps.specs.declared.fault.Fault.TheVariants.{BadChunk};
ghost use Rattle.infinite_maps.specs.Sound.{are_placed, is_bad, some_layer, items_some_layer, group_has, members_some_layer};
ghost use Rattle.infinite_maps.specs.Overlaps.{extent_of, meets_across, meets_down, meets};
ghost use Rattle.infinite_maps.specs.Survey.{begun_at, ended_at, joined, columns_of, rows_of, with_extent, with_chunks, with_own, with_layers, with_each, with_group, with_groups, survey_of};

use crate::fault::Fault;
use crate::look::is_placed;
use crate::notes::integer;
use json_members::found;
use serde_json::{Map, Value};

/// A rectangle on the plane, in cells; `right` and `bottom` are past its last column and row.
#[derive(Clone, Copy)]
pub struct Extent {
    pub left: i64,
    pub top: i64,
    pub right: i64,
    pub bottom: i64,
}

fn least(one: i64, other: i64) -> i64
    ensures { result ≡ int_min one other }
{
    if other < one { other } else { one }
}

fn greatest(one: i64, other: i64) -> i64
    ensures { result ≡ int_max one other }
{
    if other < one { one } else { other }
}

impl Extent {
    fn begun_at(self, other: Extent) -> Extent
        ensures { result ≡ begun_at self other }
    {
        Extent {
            left: least(self.left, other.left),
            top: least(self.top, other.top),
            ..self
        }
    }

    fn ended_at(self, other: Extent) -> Extent
        ensures { result ≡ ended_at self other }
    {
        Extent {
            right: greatest(self.right, other.right),
            bottom: greatest(self.bottom, other.bottom),
            ..self
        }
    }

    // The smallest rectangle around both.
    fn joined(self, other: Extent) -> Extent
        ensures { result ≡ joined self other }
    {
        self.begun_at(other).ended_at(other)
    }

    /// How many columns it has.
    pub fn columns(self) -> u64
        ensures { result ≡ columns_of self }
    {
        self.right.wrapping_sub(self.left).unsigned_abs()
    }

    /// How many rows it has.
    pub fn rows(self) -> u64
        ensures { result ≡ rows_of self }
    {
        self.bottom.wrapping_sub(self.top).unsigned_abs()
    }

    fn meets_across(self, other: Extent) -> bool
        ensures { result ≡ meets_across self other }
    {
        self.left < other.right && other.left < self.right
    }

    fn meets_down(self, other: Extent) -> bool
        ensures { result ≡ meets_down self other }
    {
        self.top < other.bottom && other.top < self.bottom
    }

    /// Whether both have a cell in common.
    pub fn meets(self, other: Extent) -> bool
        ensures { result ≡ meets self other }
    {
        self.meets_across(other) && self.meets_down(other)
    }
}

/// Where a chunk lies.
pub fn extent_of(chunk: &Value) -> Extent
    ensures { result ≡ extent_of (data_of chunk.now) }
{
    let left = integer(chunk.get("x"));
    let top = integer(chunk.get("y"));
    Extent {
        left,
        top,
        right: left.wrapping_add(integer(chunk.get("width"))),
        bottom: top.wrapping_add(integer(chunk.get("height"))),
    }
}

fn with_extent(around: Option<Extent>, extent: Extent) -> Option<Extent>
    ensures { result ≡ with_extent around extent }
{
    match around {
        Some(around) => Some(around.joined(extent)),
        None => Some(extent),
    }
}

fn with_chunks(around: Option<Extent>, chunks: &Vec<Value>) -> Result<Option<Extent>, Fault>
    ensures around { IfOk result (λ found. found ≡ with_chunks around (items_view chunks.now.items)) }
    ensures blame { IfErr result (λ fault. fault ≡ BadChunk) }
    ensures bad { IfErr result (λ fault. are_placed (items_view chunks.now.items) ≡ false) }
{
    let mut found = around;
    for chunk in chunks {
        if !is_placed(chunk) {
            return Err(Fault::BadChunk);
        }
        found = with_extent(found, extent_of(chunk));
    }
    Ok(found)
}

/// What chunks a map has: where they lie, and in how many layers.
#[derive(Clone, Copy)]
pub struct Survey {
    pub around: Option<Extent>,
    pub layers: u64,
}

fn with_own(survey: Survey, members: &Map<String, Value>) -> Result<Survey, Fault>
    ensures survey { IfOk result (λ found. found
        ≡ with_own survey (get_member (codes "chunks") (members_view members.now.entries))) }
    ensures blame { IfErr result (λ fault. fault ≡ BadChunk) }
    ensures bad { IfErr result (λ fault. is_bad (members_view members.now.entries) ≡ true) }
{
    match found(members, "chunks") {
        Some(value) => match value.as_array() {
            Some(chunks) => Ok(Survey {
                around: with_chunks(survey.around, chunks)?,
                layers: survey.layers.saturating_add(1),
            }),
            None => Err(Fault::BadChunk),
        },
        None => Ok(survey),
    }
}

// Adds the chunks of layers, and of those in groups.
#[cycle(surveys)]
fn with_layers(survey: Survey, value: &Value) -> Result<Survey, Fault>
    ensures survey { IfOk result (λ found. found ≡ with_layers survey (data_of value.now)) }
    ensures blame { IfErr result (λ fault. fault ≡ BadChunk) }
    ensures bad { IfErr result (λ fault. some_layer is_bad (data_of value.now) ≡ true) }
{
    match value {
        Value::Null | Value::Bool(_) | Value::Number(_) | Value::String(_) => Ok(survey),
        Value::Array(layers) => with_each(survey, layers),
        Value::Object(members) => {
            let own = with_own(survey, members)?;
            with_groups(own, members)
        }
    }
}

#[cycle(surveys)]
fn with_each(survey: Survey, layers: &Vec<Value>) -> Result<Survey, Fault>
    ensures survey { IfOk result (λ found. found ≡ with_each survey (items_view layers.now.items)) }
    ensures blame { IfErr result (λ fault. fault ≡ BadChunk) }
    ensures bad { IfErr result (λ fault. items_some_layer is_bad (items_view layers.now.items) ≡ true) }
{
    let mut all = survey;
    for layer in layers {
        all = with_layers(all, layer)?;
    }
    Ok(all)
}

// The same for one member.
#[cycle(surveys)]
fn with_group(survey: Survey, key: &String, member: &Value) -> Result<Survey, Fault>
    ensures survey { IfOk result (λ found. found
        ≡ with_group survey (string_bytes key.now) (data_of member.now)) }
    ensures blame { IfErr result (λ fault. fault ≡ BadChunk) }
    ensures bad { IfErr result (λ fault. group_has is_bad (string_bytes key.now) (data_of member.now) ≡ true) }
{
    if key.as_str() == "layers" {
        with_layers(survey, member)
    } else {
        Ok(survey)
    }
}

/// Adds the chunks of a map's layers, and of those in groups.
#[cycle(surveys)]
fn with_groups(survey: Survey, members: &Map<String, Value>) -> Result<Survey, Fault>
    ensures survey { IfOk result (λ found. found
        ≡ with_groups survey (members_view members.now.entries)) }
    ensures blame { IfErr result (λ fault. fault ≡ BadChunk) }
    ensures bad { IfErr result (λ fault. members_some_layer is_bad (members_view members.now.entries) ≡ true) }
{
    let mut all = survey;
    for (key, member) in members.iter() {
        all = with_group(all, key, member)?;
    }
    Ok(all)
}

/// What the layers of a map take.
pub fn surveyed(members: &Map<String, Value>) -> Result<Survey, Fault>
    ensures survey { IfOk result (λ found. found ≡ survey_of (members_view members.now.entries)) }
    ensures blame { IfErr result (λ fault. fault ≡ BadChunk) }
    ensures bad { IfErr result (λ fault. members_some_layer is_bad (members_view members.now.entries) ≡ true) }
{
    let none = Survey {
        around: None,
        layers: 0,
    };
    with_groups(none, members)
}
