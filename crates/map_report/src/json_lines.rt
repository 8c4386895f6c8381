// The line of JSON of a file: an object.
use crate::json_listing::put_map;
use crate::json_refusal::{put_no_memory, put_not_aside, put_refusal, put_unread};
use crate::named::Named;
use map_faults::{LineColumn, Members, Place};
use map_json::MapFault;
use map_model::Map;
use std::alloc::{AllocError, Global};
use std::io;

/// A map that is refused.
#[derive(Clone, Copy)]
pub struct Refused<'a> {
    /// The bytes of the file, or the JSON that they say in XML.
    pub file: &'a [u8],
    /// What was read: these, or what was set aside of them.
    pub text: &'a [u8],
    /// Whether what the editor's format refuses was set aside, if there was any.
    pub opens_all_maps: bool,
    pub fault: MapFault,
    /// Where the reader stopped.
    pub place: &'a Place,
}

/// What came of a file.
#[derive(Clone, Copy)]
pub enum Outcome<'a> {
    Map(&'a Map),
    /// It is refused for a fault at a place.
    Refused(Refused<'a>),
    /// It can't be set aside, for a reason in words, or ceases to be XML at a place.
    NotAside(&'a str, Option<LineColumn>),
    Unread(&'a io::Error),
}

// Begins the object of a file.
fn begun(alloc: Global, file: &str) -> Members {
    let mut out = Members::new(alloc);
    out.begin_object();
    out.text("file", file);
    out.key("refused");
    out
}

fn whole_line(
    alloc: Global,
    named: Named<'_>,
    outcome: Outcome<'_>,
) -> Result<Vec<u8>, AllocError> {
    let mut out = begun(alloc, named.file);
    match outcome {
        Outcome::Map(map) => {
            out.null();
            put_map(&mut out, map.parts());
        }
        Outcome::Refused(refused) => put_refusal(alloc, refused, &mut out),
        Outcome::NotAside(why, place) => put_not_aside(alloc, why, place, &mut out),
        Outcome::Unread(error) => put_unread(alloc, error, &mut out),
    }
    if let Some(words) = named.differs {
        out.text("differs", words);
    }
    out.end_object();
    out.into_line()
}

fn line_without_memory(alloc: Global, file: &str) -> Result<Vec<u8>, AllocError> {
    let mut out = begun(alloc, file);
    put_no_memory(&mut out);
    out.end_object();
    out.into_line()
}

/// The line of a file, without a newline, and whether it tells the outcome. Where there is no memory for that, it says so.
pub fn line_of(
    alloc: Global,
    named: Named<'_>,
    outcome: Outcome<'_>,
) -> Result<(Vec<u8>, bool), AllocError> {
    match whole_line(alloc, named, outcome) {
        Ok(line) => Ok((line, true)),
        Err(_) => Ok((line_without_memory(alloc, named.file)?, false)),
    }
}
