// The place of a fault in the tree of a file, and what stands there.
use crate::members::Members;
use crate::output::Output;
use crate::shown::{is_shown_plain, write_short};
use map_json::{Segment, Trail};
use serde_json::Value;
use std::alloc::{AllocError, Global};
use std::io::Write;

/// A step from a value to one in it, with a name of its own.
#[derive(Drop)]
pub enum OwnSegment {
    Member(String),
    Element(usize),
}

/// The trail of a reader: the steps from the root to where it stands. Without memory for one it is lost for good.
#[derive(Drop)]
pub struct Place {
    alloc: Global,
    steps: Vec<OwnSegment>,
    is_lost: bool,
}

impl Place {
    /// The root.
    pub fn new(alloc: Global) -> Place {
        Place {
            alloc,
            steps: Vec::new(alloc),
            is_lost: false,
        }
    }

    /// What its steps take memory from.
    pub fn alloc(&self) -> Global {
        self.alloc
    }

    /// Whether there was no memory for a step.
    pub fn is_lost(&self) -> bool {
        self.is_lost
    }

    fn push(&mut self, step: Segment<'_>) -> Result<(), AllocError> {
        let step = match step {
            Segment::Member(name) => OwnSegment::Member(String::from_str(self.alloc, name)?),
            Segment::Element(at) => OwnSegment::Element(at),
        };
        self.steps.push(step)?;
        Ok(())
    }

    /// Its steps from the root.
    pub fn steps(&self) -> &[OwnSegment] {
        self.steps.as_slice()
    }

    /// The first so many of its steps.
    pub fn front(&self, count: usize) -> &[OwnSegment] {
        let all = self.steps.as_slice();
        &all[..count.min(all.len())]
    }

    /// Whether it is a member of this name of the root.
    pub fn is_member_of_root(&self, name: &str) -> bool {
        match self.steps.as_slice() {
            [OwnSegment::Member(own)] => own.as_str() == name,
            _ => false,
        }
    }

    /// How many of its steps lead to something in a tree.
    pub fn steps_in(&self, root: &Value) -> usize {
        let mut value = root;
        for (at, step) in self.steps.iter().enumerate() {
            match step_into(value, step) {
                Some(inner) => value = inner,
                None => return at,
            }
        }
        self.steps.len()
    }

    /// What stands in a tree behind so many of its steps; none where the last one is absent.
    pub fn value_behind<'a>(&self, count: usize, root: &'a Value) -> Option<&'a Value> {
        let mut value = root;
        for step in self.steps.iter().take(count) {
            value = step_into(value, step)?;
        }
        Some(value)
    }

    /// Writes so many of its steps in words.
    pub fn write_steps<W: Write>(&self, count: usize, out: &mut Output<'_, W>) {
        if count == 0 || self.steps.is_empty() {
            out.text("the root");
        }
        for (at, step) in self.steps.iter().take(count).enumerate() {
            write_step(self.alloc, step, at == 0, out);
        }
    }

    /// Writes its steps, and what stands here in a tree.
    pub fn write<W: Write>(&self, root: &Value, out: &mut Output<'_, W>) {
        let count = self.steps.len();
        self.write_steps(count, out);
        out.text(" is ");
        write_value(self.alloc, self.value_behind(count, root), out);
    }

    /// Puts so many of its steps as an array of JSON: the names of members, whole, and the indexes of elements.
    pub fn put_steps(&self, count: usize, out: &mut Members) {
        out.begin_array();
        for step in self.steps.iter().take(count) {
            match step {
                OwnSegment::Member(name) => out.string(name.as_str()),
                OwnSegment::Element(at) => out.u64(*at as u64),
            }
        }
        out.end_array();
    }

    /// Puts all of its steps.
    pub fn put_path(&self, out: &mut Members) {
        self.put_steps(self.steps.len(), out);
    }
}

impl Trail for Place {
    fn enter(&mut self, step: Segment<'_>) {
        if !self.is_lost && self.push(step).is_err() {
            self.is_lost = true;
        }
    }

    fn leave(&mut self) {
        self.steps.pop();
    }
}

// What stands behind a step.
fn step_into<'a>(value: &'a Value, step: &OwnSegment) -> Option<&'a Value> {
    match step {
        OwnSegment::Member(name) => value.get(name.as_str()),
        OwnSegment::Element(at) => value.get(*at),
    }
}

// Writes the name of a member.
fn write_name<W: Write>(alloc: Global, name: &str, is_first: bool, out: &mut Output<'_, W>) {
    if is_shown_plain(name) {
        out.text(if is_first { "" } else { "." });
        out.text(name);
    } else {
        out.text("[");
        write_short(alloc, name, out);
        out.text("]");
    }
}

fn write_step<W: Write>(alloc: Global, step: &OwnSegment, is_first: bool, out: &mut Output<'_, W>) {
    match step {
        OwnSegment::Member(name) => write_name(alloc, name.as_str(), is_first, out),
        OwnSegment::Element(at) => {
            out.value("[", at);
            out.text("]");
        }
    }
}

/// Writes what stands at a place: a list or an object only by its kind.
pub fn write_value<W: Write>(alloc: Global, value: Option<&Value>, out: &mut Output<'_, W>) {
    match value {
        None => out.text("absent"),
        Some(Value::Array(elements)) => out.value("an array of length ", &elements.len()),
        Some(Value::Object(_)) => out.text("an object"),
        Some(Value::String(text)) => write_short(alloc, text.as_str(), out),
        Some(other) => out.value("", other),
    }
}
