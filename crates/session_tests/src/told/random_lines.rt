use document_lines::Subject;
use std::alloc::{AllocError, Global};

/// What kind of line it is, as far as more is asked of what is told of it.
#[derive(Clone, Copy, PartialEq, Eq, Debug)]
pub enum Kind {
    /// It writes cells of one layer.
    Paint,
    Select,
    Other,
}

/// A line, and what its edit is about, where it is one.
#[derive(Drop)]
pub struct Spoken {
    pub text: String,
    pub kind: Kind,
    pub subject: Option<Subject>,
}

impl Spoken {
    fn edit(text: String, kind: Kind, subject: Subject) -> Spoken {
        Spoken {
            text,
            kind,
            subject: Some(subject),
        }
    }

    fn other(text: String) -> Spoken {
        Spoken {
            text,
            kind: Kind::Other,
            subject: None,
        }
    }
}

/// Numbers that look random, and are the same in each run.
#[derive(Drop)]
pub struct Random {
    state: u64,
    /// What was drawn for the last line.
    last: u32,
}

/// Columns and values of a block.
const BLOCKS: [(u32, &str); 8] = [
    (1, "1"),
    (1, "0"),
    (2, "1,2"),
    (2, "3,0,0,1"),
    (3, "2,2,2,2,2,2"),
    (1, "1,0,3"),
    (3, "0,1,0,1,1,1,0,1,0"),
    (2, "0,0,3,3"),
];

/// Mostly the active document is one that is there.
const DOCUMENTS: [&str; 8] = [
    "use m",
    "new n 7 5 1 1 t.tsj",
    "use m",
    "discard n",
    "use m",
    "close n",
    "use -",
    "use n",
];

/// Layers 1 and 2 are of tiles, 3 is of objects, and there is no 9.
const LAYERS: [u32; 8] = [1, 2, 1, 2, 1, 2, 3, 9];

impl Random {
    pub fn new(seed: u64) -> Random {
        Random {
            state: seed,
            last: 0,
        }
    }

    /// A number below a bound.
    pub fn below(&mut self, bound: u32) -> u32 {
        self.state = self
            .state
            .wrapping_mul(6_364_136_223_846_793_005)
            .wrapping_add(1_442_695_040_888_963_407);
        let drawn = u32::try_from(self.state >> 33).unwrap_or(0);
        drawn.checked_rem(bound).unwrap_or(0)
    }

    // A number from a lower bound on, one of so many.
    fn from(&mut self, low: i32, count: u32) -> i32 {
        let above = i32::try_from(self.below(count)).unwrap_or(0);
        low.saturating_add(above)
    }

    // One of some texts.
    fn one_of<'a>(&mut self, texts: &[&'a str]) -> &'a str {
        let count = u32::try_from(texts.len()).unwrap_or(0);
        let at = self.below(count) as usize;
        texts.get(at).copied().unwrap_or("")
    }

    fn layer(&mut self) -> u32 {
        let at = self.below(8) as usize;
        LAYERS.get(at).copied().unwrap_or(1)
    }

    fn stamp(&mut self, alloc: Global) -> Result<Spoken, AllocError> {
        let (layer, x, y) = (self.layer(), self.from(-2, 15), self.from(-2, 12));
        let at = self.below(8) as usize;
        let (width, values) = BLOCKS.get(at).copied().unwrap_or((1, "1"));
        let plus = self.one_of(&["", "+"]);
        let text = format!(in alloc; "stamp{plus} {layer} {x} {y} {width} {values}")?;
        Ok(Spoken::edit(text, Kind::Paint, Subject::Layer(layer)))
    }

    fn erase(&mut self, alloc: Global) -> Result<Spoken, AllocError> {
        let (layer, x, y) = (self.layer(), self.from(-2, 15), self.from(-2, 12));
        let (width, height) = (self.below(4), self.below(4));
        let plus = self.one_of(&["", "+"]);
        let text = format!(in alloc; "erase{plus} {layer} {x} {y} {width} {height}")?;
        Ok(Spoken::edit(text, Kind::Paint, Subject::Layer(layer)))
    }

    fn fill(&mut self, alloc: Global) -> Result<Spoken, AllocError> {
        let (layer, x, y, value) = (
            self.layer(),
            self.from(-1, 13),
            self.from(-1, 10),
            self.below(4),
        );
        let text = format!(in alloc; "fill {layer} {x} {y} {value}")?;
        Ok(Spoken::edit(text, Kind::Paint, Subject::Layer(layer)))
    }

    fn select(&mut self, alloc: Global) -> Result<Spoken, AllocError> {
        let (x, y) = (self.from(-2, 15), self.from(-2, 12));
        let mode = self.one_of(&[
            "none",
            "add",
            "none",
            "replace",
            "none",
            "subtract",
            "intersect",
        ]);
        let text = if mode == "none" {
            format!(in alloc; "select none")?
        } else {
            format!(in alloc; "select {mode} {x} {y} 9 7")?
        };
        Ok(Spoken::edit(text, Kind::Select, Subject::Nothing))
    }

    fn move_object(&mut self, alloc: Global) -> Result<Spoken, AllocError> {
        let (object, x, y) = (self.from(1, 2), self.from(1, 2), self.from(1, 1));
        let plus = self.one_of(&["", "+", "+"]);
        let text = format!(in alloc; "object move{plus} {object} {x} {y}")?;
        let object = u32::try_from(object).unwrap_or(0);
        Ok(Spoken::edit(text, Kind::Other, Subject::Object(object)))
    }

    fn set_property(&mut self, alloc: Global) -> Result<Spoken, AllocError> {
        let (owner, subject) = match self.below(3) {
            0 => ("map", Subject::Map),
            1 => ("layer:1", Subject::Layer(1)),
            _ => ("object:1", Subject::Object(1)),
        };
        let value = self.below(3);
        let plus = self.one_of(&["", "+"]);
        let text = if self.below(4) == 0 {
            format!(in alloc; "prop remove {owner} k")?
        } else {
            format!(in alloc; "prop set{plus} {owner} k int {value}")?
        };
        Ok(Spoken::edit(text, Kind::Other, subject))
    }

    fn change_layer(&mut self, alloc: Global) -> Result<Spoken, AllocError> {
        let (layer, place) = (self.layer(), self.below(3));
        let text = match self.below(5) {
            0 => format!(in alloc; "layer rename {layer} n{place}")?,
            1 => format!(in alloc; "layer show {layer} yes")?,
            2 => format!(in alloc; "layer show {layer} no")?,
            3 => format!(in alloc; "layer move {layer} {place}")?,
            _ => format!(in alloc; "layer remove {layer}")?,
        };
        Ok(Spoken::edit(text, Kind::Other, Subject::Layer(layer)))
    }

    fn resize(&mut self, alloc: Global) -> Result<Spoken, AllocError> {
        let (width, height) = (self.from(10, 4), self.from(7, 3));
        let (right, down) = (self.from(-1, 3), self.from(-1, 3));
        let text = format!(in alloc; "resize {width} {height} {right} {down}")?;
        Ok(Spoken::edit(text, Kind::Other, Subject::Map))
    }

    fn turn(&mut self, alloc: Global) -> Result<Spoken, AllocError> {
        let index = self.below(30);
        let text = match self.below(5) {
            0 => format!(in alloc; "goto {index}")?,
            1 => format!(in alloc; "redo")?,
            2 => format!(in alloc; "redo")?,
            _ => format!(in alloc; "undo")?,
        };
        Ok(Spoken::other(text))
    }

    // A line of own members.
    fn member(&mut self, alloc: Global) -> Result<Spoken, AllocError> {
        let (layer, value) = (self.layer(), self.below(3));
        let plus = self.one_of(&["", "+", "+"]);
        let part = self.one_of(&["", ".5"]);
        let text = match self.below(10) {
            0 => format!(in alloc; "member set{plus} object:1 rotation {value}{part}")?,
            1 => format!(in alloc;
                "member put{plus} object:1 {{\"x\":{value}{part},\"name\":\"n\"}}"
            )?,
            2 => format!(in alloc; "member remove object:1 rotation")?,
            3 => format!(in alloc; "member set{plus} layer:{layer} opacity {value}{part}")?,
            4 => format!(in alloc; "member remove layer:{layer} opacity")?,
            5 => format!(in alloc; "member set{plus} map tilewidth 1{value}")?,
            6 => format!(in alloc; "member set{plus} tileset:1 margin {value}{part}")?,
            7 => format!(in alloc;
                "member put{plus} tileset:1 {{\"source\":\"{value}.tsj\",\"name\":\"n\"}}"
            )?,
            8 => format!(in alloc; "member remove tileset:1 margin")?,
            _ => format!(in alloc; "member set{plus} map class \"c{value}\"")?,
        };
        Ok(Spoken::other(text))
    }

    // A line that adds a whole thing, or that sets a property or takes it out.
    fn put(&mut self, alloc: Global) -> Result<Spoken, AllocError> {
        let value = self.below(9);
        let part = self.one_of(&["", ".5"]);
        let text = match self.below(7) {
            0 => format!(in alloc; "layer add group g{value}")?,
            1 => format!(in alloc; "layer add image i{value}")?,
            2 => format!(in alloc; "object put 3 {{\"x\":{value}{part},\"ellipse\":true}}")?,
            3 => format!(in alloc; "object put 3 {{\"id\":{value}}}")?,
            4 => format!(in alloc; "prop take object:1 \"k\"")?,
            5 => format!(in alloc; "prop put object:1 {{\"name\":\"k\",\"value\":\"v{value}\"}}")?,
            _ => format!(in alloc; "tileset put {{\"firstgid\":9{value}}}")?,
        };
        Ok(Spoken::other(text))
    }

    // A line that gives an object or a layer another place, a tileset another first id, or the map more room.
    fn into(&mut self, alloc: Global) -> Result<Spoken, AllocError> {
        let (layer, place, group) = (self.layer(), self.below(3), self.below(8));
        let (text, subject) = match self.below(5) {
            0 => (
                format!(in alloc; "object into 1 {layer} {place}")?,
                Subject::Object(1),
            ),
            1 => (
                format!(in alloc; "layer into {layer} 0 {place}")?,
                Subject::Layer(layer),
            ),
            2 => (
                format!(in alloc; "layer into {layer} {group} 0")?,
                Subject::Layer(layer),
            ),
            3 => {
                let (first_id, number) = (1 + place % 2, 1 + group % 2);
                (
                    format!(in alloc; "tileset number {first_id} {number}")?,
                    Subject::Tileset(number),
                )
            }
            _ => (format!(in alloc; "extend 0 {place} 1 0")?, Subject::Map),
        };
        Ok(Spoken::edit(text, Kind::Other, subject))
    }

    fn for_all_edits(&mut self, alloc: Global) -> Result<Spoken, AllocError> {
        match self.below(4) {
            0 => self.put(alloc),
            1 => self.into(alloc),
            _ => self.member(alloc),
        }
    }

    // A line about the documents, the clean index or a macro, or one that asks.
    fn plain(&mut self, alloc: Global, texts: &[&str]) -> Result<Spoken, AllocError> {
        let text = self.one_of(texts);
        Ok(Spoken::other(String::from_str(alloc, text)?))
    }

    /// A line. Often it is of the same kind as the one before it.
    pub fn line(&mut self, alloc: Global) -> Result<Spoken, AllocError> {
        if self.below(2) > 0 {
            self.last = self.below(100);
        }
        match self.last {
            0..=24 => self.stamp(alloc),
            25..=34 => self.erase(alloc),
            35..=39 => self.fill(alloc),
            40..=43 => self.select(alloc),
            44..=66 => self.turn(alloc),
            67..=70 => self.plain(alloc, &["begin t"]),
            71..=78 => self.plain(alloc, &["end"]),
            79..=83 => self.move_object(alloc),
            84..=88 => self.set_property(alloc),
            89..=91 => self.change_layer(alloc),
            92 => self.resize(alloc),
            93 => self.plain(alloc, &["clean", "dirty", "clear", "layer add tile z"]),
            94 => self.plain(alloc, &["object add 3 1 2 3 4 x", "tileset add 90 u.tsj"]),
            95 => self.plain(alloc, &DOCUMENTS),
            96 => self.plain(alloc, &["", "# quiet", "stamp", "nothing", "tile 1 0 0"]),
            97 => self.plain(alloc, &["use m", "status", "list", "undotext", "text 0"]),
            98 => self.for_all_edits(alloc),
            _ => self.plain(alloc, &["use m"]),
        }
    }
}
