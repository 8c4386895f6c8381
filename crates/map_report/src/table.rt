// The table of texts: for each line of the input, what is read of a text.
mod answers;
mod asides;
mod faults;
mod report;
mod texts;

use crate::table::answers::{write_answer, write_prefixes};
use crate::table::asides::{write_put_back, write_set_aside};
use crate::table::faults::write_fault;
use crate::table::report::write_report;
use crate::table::texts::Texts;
use map_faults::Output;
use std::alloc::Global;
use std::fs;
use std::io::{self, Read, Write};
use std::rt::Files;

// Gives the bytes of a file a name.
fn load<R: Files + AllocGlobal>(
    rt: &R,
    texts: &mut Texts,
    name: &str,
    path: &str,
) -> io::Result<()> {
    let bytes = fs::read(rt, path)?;
    texts.put(rt.alloc(), name, bytes)?;
    Ok(())
}

// Gives a text a name.
fn let_be(alloc: Global, texts: &mut Texts, name: &str, text: &str) -> io::Result<()> {
    let bytes = text.as_bytes().to_vec(alloc)?;
    texts.put(alloc, name, bytes)?;
    Ok(())
}

// Writes what a line asks of the text with a name.
fn write_asked_of<W: Write>(
    alloc: Global,
    texts: &Texts,
    word: &str,
    name: &str,
    behind: &str,
    out: &mut Output<'_, W>,
) {
    match word {
        "read" => write_answer(alloc, texts, name, behind, out),
        "prefixes" => write_prefixes(alloc, texts.get(name), out),
        "aside" => write_set_aside(alloc, texts.get(name), out),
        "back" => write_put_back(alloc, texts.get(name), out),
        "fault" => write_fault(alloc, texts.get(name), out),
        "report" => write_report(alloc, texts.get(name), out),
        _ => {}
    }
}

// Does what a line asks for.
fn answer<R: Files + AllocGlobal, W: Write>(
    rt: &R,
    texts: &mut Texts,
    line: &str,
    out: &mut Output<'_, W>,
) {
    let (word, rest) = line.split_once(' ').unwrap_or((line, ""));
    let (name, behind) = rest.split_once(' ').unwrap_or((rest, ""));
    match word {
        "let" => out.note(let_be(rt.alloc(), texts, name, behind)),
        "load" => out.note(load(rt, texts, name, behind)),
        _ => write_asked_of(rt.alloc(), texts, word, name, behind, out),
    }
}

// Repeats a line, with what it asks for.
fn write_answered<R: Files + AllocGlobal, W: Write>(
    rt: &R,
    texts: &mut Texts,
    line: &str,
    output: &mut W,
) -> io::Result<()> {
    let mut out = Output::new(output);
    out.text(line);
    answer(rt, texts, line, &mut out);
    out.text("\n");
    out.end()
}

/// Repeats the lines of the input, each with what it asks for.
pub fn write_table<R: Files + AllocGlobal, I: Read + Drop, W: Write>(
    rt: &R,
    input: I,
    output: &mut W,
) -> io::Result<()> {
    let alloc = rt.alloc();
    let input = io::read_to_string(alloc, input)?;
    let mut texts = Texts::new(alloc);
    for line in input.lines() {
        write_answered(rt, &mut texts, line, output)?;
    }
    Ok(())
}
