//! The program: says what is in maps, or why they are refused and at which place.
#![tactic(auto)]

mod files;
mod fraction_places;
mod json_lines;
mod json_listing;
mod json_refusal;
mod listing;
mod named;
mod options;
mod refused;
mod table;

use crate::files::report_files;
use crate::options::{Options, parse_options};
use crate::table::write_table;
use clap::error::ErrorKind;
use std::env::Env;
use std::fmt::Display;
use std::io::{BufWriter, Write};
use std::process::ExitCode;
use std::{env, io};

/// The status after a command line that is refused.
const REFUSED: u8 = 2;

/// The status after a map that is refused, and after a read, a write or an allocation that failed.
const FAILED: u8 = 1;

// Says on standard error what ended the program.
fn ends(rt: &impl Eprint, what: impl Display + Drop, status: u8) -> ExitCode {
    let _ = eprintln!(rt; "map_report: {what}");
    ExitCode::from(status)
}

// What stands for a read or a write that failed.
fn ends_by(rt: &impl Eprint, error: &io::Error) -> ExitCode {
    match error.kind() {
        io::ErrorKind::OutOfMemory => ends(rt, "no memory", FAILED),
        _ => ends(rt, error, FAILED),
    }
}

// The words of the command line, of which the first is the program's name.
fn read_words(rt: &(impl Env + AllocGlobal)) -> io::Result<Vec<String>> {
    let mut words = Vec::new(rt.alloc());
    for word in env::args(rt)? {
        words.push(word)?;
    }
    Ok(words)
}

// What stands for words that could not be read.
fn ends_without_words(rt: &impl Eprint, error: &io::Error) -> ExitCode {
    match error.kind() {
        io::ErrorKind::OutOfMemory => ends_by(rt, error),
        _ => ends(rt, "a word of the command line is not UTF-8", REFUSED),
    }
}

// Shows help or the version, or why the command line is refused.
fn ends_with_answer(rt: &(impl Print + Eprint), answer: &clap::Error) -> ExitCode {
    // (a comparison of two kinds takes the prover a minute)
    if let ErrorKind::OutOfMemory = answer.kind() {
        return ends(rt, "no memory", FAILED);
    }
    let shown = answer.print(rt);
    if answer.use_stderr() {
        return ExitCode::from(REFUSED);
    }
    match shown {
        Ok(()) => ExitCode::SUCCESS,
        Err(error) => ends_by(rt, &error),
    }
}

// Writes what the command line asks for, and gives whether each file was read and is a map.
fn write_asked(rt: &HostRuntime, options: &Options) -> io::Result<bool> {
    let mut output = BufWriter::new(rt.alloc(), rt.stdout())?;
    let are_all_maps = if options.is_table {
        write_table(rt, rt.stdin(), &mut output)?;
        true
    } else {
        let files = options.files.as_slice();
        report_files(rt, options.manner, files, &mut rt.stdin(), &mut output)?
    };
    output.flush()?;
    Ok(are_all_maps)
}

fn main(rt: HostRuntime) -> ExitCode {
    let words = match read_words(&rt) {
        Ok(words) => words,
        Err(error) => return ends_without_words(&rt, &error),
    };
    let options = match parse_options(rt.alloc(), words.as_slice()) {
        Ok(options) => options,
        Err(answer) => return ends_with_answer(&rt, &answer),
    };
    match write_asked(&rt, &options) {
        Ok(true) => ExitCode::SUCCESS,
        Ok(false) => ExitCode::from(FAILED),
        Err(error) => ends_by(&rt, &error),
    }
}
