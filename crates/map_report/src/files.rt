// The reports of files, one after the other.
use crate::json_lines::{Outcome, Refused, line_of};
use crate::listing::write_listing;
use crate::named::Named;
use crate::refused::{write_not_aside, write_refusal};
use map_faults::{Output, Place, TOO_LONG};
use map_json::{MapFault, read_map_along};
use std::alloc::Global;
use std::fs;
use std::io::{self, Read, Write};
use std::rt::Files;
use tiled_files::{FileFault, LONGEST, json_in};
use tiled_maps::{Fault, set_aside};

/// The name that stands for standard input.
const INPUT: &str = "-";

/// How reports are written.
#[derive(Clone, Copy, PartialEq, Eq)]
pub enum Form {
    /// Lines to read.
    Text,
    /// An object of JSON for each file, one a line.
    Json,
}

/// How files are reported.
#[derive(Clone, Copy)]
pub struct Manner {
    pub form: Form,
    /// Whether maps are set aside first, so that packed ones, infinite ones and those with fractions are read.
    pub opens_all_maps: bool,
}

// The bytes of a file. What is no regular file is not opened: to open a pipe would wait for its other end, and a device may
// never end.
fn read_file<R: Files + AllocGlobal, I: Read>(
    rt: &R,
    input: &mut I,
    file: &str,
) -> io::Result<Vec<u8>> {
    if file == INPUT {
        let mut bytes = Vec::new(rt.alloc());
        input.read_to_end(&mut bytes)?;
        return Ok(bytes);
    }
    if !fs::metadata(rt, file)?.is_file() {
        return Err(io::Error::other("not a regular file"));
    }
    fs::read(rt, file)
}

// Writes the line of JSON of a file, and gives whether it tells of a map.
fn write_line<W: Write>(
    alloc: Global,
    named: Named<'_>,
    outcome: Outcome<'_>,
    output: &mut W,
) -> io::Result<bool> {
    let (line, is_whole) = line_of(alloc, named, outcome)?;
    output.write_all(&line)?;
    output.write_all(b"\n")?;
    Ok(match outcome {
        Outcome::Map(_) => is_whole,
        _ => false,
    })
}

// Writes the lines of a file, and gives whether it is a map.
fn write_lines<W: Write>(
    alloc: Global,
    file: &str,
    outcome: Outcome<'_>,
    out: &mut Output<'_, W>,
) -> bool {
    match outcome {
        Outcome::Map(map) => {
            write_listing(file, map.parts(), out);
            true
        }
        Outcome::Refused(refused) => {
            out.text(file);
            out.text(": ");
            write_refusal(alloc, refused, out);
            false
        }
        Outcome::NotAside(why, place) => {
            out.text(file);
            out.text(": ");
            write_not_aside(why, place, out);
            false
        }
        Outcome::Unread(_) => false,
    }
}

// Writes how the name of a file differs from what is in it.
fn write_difference<W: Write>(named: Named<'_>, out: &mut Output<'_, W>) {
    if let Some(words) = named.differs {
        out.text("  ");
        out.text(words);
        out.text("\n");
    }
}

// Writes what came of a file, and gives whether it is a map.
fn write_outcome<W: Write>(
    alloc: Global,
    form: Form,
    named: Named<'_>,
    outcome: Outcome<'_>,
    output: &mut W,
) -> io::Result<bool> {
    if form == Form::Json {
        return write_line(alloc, named, outcome, output);
    }
    let mut out = Output::new(output);
    let is_map = write_lines(alloc, named.file, outcome, &mut out);
    write_difference(named, &mut out);
    out.end()?;
    Ok(is_map)
}

// Reports a file that could not be read.
fn report_unread<R: Eprint, W: Write>(
    rt: &R,
    alloc: Global,
    form: Form,
    file: &str,
    error: &io::Error,
    output: &mut W,
) -> io::Result<bool> {
    eprintln!(rt; "map_report: {file}: {error}")?;
    let named = Named::unread(file);
    write_outcome(alloc, form, named, Outcome::Unread(error), output)
}

// Reports the text of a map: the JSON that its file says, or what was set aside of it.
fn report_text<W: Write>(
    alloc: Global,
    manner: Manner,
    named: Named<'_>,
    json: &[u8],
    text: &[u8],
    output: &mut W,
) -> io::Result<bool> {
    let mut place = Place::new(alloc);
    match read_map_along(alloc, text, &mut place) {
        Ok(map) => write_outcome(alloc, manner.form, named, Outcome::Map(&map), output),
        Err(fault) => {
            let outcome = Outcome::Refused(Refused {
                file: json,
                text,
                opens_all_maps: manner.opens_all_maps,
                fault,
                place: &place,
            });
            write_outcome(alloc, manner.form, named, outcome, output)
        }
    }
}

// Reports a file that is no map in XML, or that is not set aside. There may have been no memory.
fn report_not_aside<W: Write>(
    alloc: Global,
    form: Form,
    named: Named<'_>,
    bytes: &[u8],
    fault: FileFault,
    output: &mut W,
) -> io::Result<bool> {
    if fault.is_memory() {
        let place = Place::new(alloc);
        let refused = Refused {
            file: bytes,
            text: bytes,
            opens_all_maps: true,
            fault: MapFault::Memory,
            place: &place,
        };
        return write_outcome(alloc, form, named, Outcome::Refused(refused), output);
    }
    let outcome = Outcome::NotAside(fault.words(), fault.place_in(bytes));
    write_outcome(alloc, form, named, outcome, output)
}

// Reports the JSON that a file says. A map that needs it is set aside.
fn report_json<W: Write>(
    alloc: Global,
    manner: Manner,
    named: Named<'_>,
    json: &[u8],
    output: &mut W,
) -> io::Result<bool> {
    let form = manner.form;
    match set_aside(alloc, json) {
        Ok(Some(text)) if text.len() > LONGEST => {
            write_outcome(
                alloc,
                form,
                named,
                Outcome::NotAside(TOO_LONG, None),
                output,
            )
        }
        Ok(Some(text)) => report_text(alloc, manner, named, json, &text, output),
        Ok(None) | Err(Fault::NotJson) => report_text(alloc, manner, named, json, json, output),
        Err(fault) => {
            report_not_aside(alloc, form, named, json, FileFault::Aside(fault), output)
        }
    }
}

// Reports the bytes of a file. A map in XML is read, and one that needs it is set aside, if all maps are opened.
fn report_bytes<W: Write>(
    alloc: Global,
    manner: Manner,
    file: &str,
    bytes: &[u8],
    output: &mut W,
) -> io::Result<bool> {
    let named = Named::of(file, bytes);
    if !manner.opens_all_maps {
        return report_text(alloc, manner, named, bytes, bytes, output);
    }
    match json_in(alloc, bytes) {
        Ok(Some(json)) => report_json(alloc, manner, named, &json, output),
        Ok(None) => report_json(alloc, manner, named, bytes, output),
        Err(fault) => report_not_aside(alloc, manner.form, named, bytes, fault, output),
    }
}

// Reports a file: what is in its map, why that is refused, or why the file can't be read. Gives whether the map was read.
fn report_file<R: Files + AllocGlobal + Eprint, I: Read, W: Write>(
    rt: &R,
    manner: Manner,
    file: &str,
    input: &mut I,
    output: &mut W,
) -> io::Result<bool> {
    match read_file(rt, input, file) {
        Ok(bytes) => report_bytes(rt.alloc(), manner, file, &bytes, output),
        Err(error) => report_unread(rt, rt.alloc(), manner.form, file, &error, output),
    }
}

/// Reports files, and gives whether each was read and is a map. The file `-` is the input.
pub fn report_files<R: Files + AllocGlobal + Eprint, I: Read, W: Write>(
    rt: &R,
    manner: Manner,
    files: &[&str],
    input: &mut I,
    output: &mut W,
) -> io::Result<bool> {
    let mut are_all_maps = true;
    for file in files {
        let is_map = report_file(rt, manner, file, input, output)?;
        // What was reported stands there before what is said of the next file on standard error.
        output.flush()?;
        are_all_maps = are_all_maps && is_map;
    }
    Ok(are_all_maps)
}
