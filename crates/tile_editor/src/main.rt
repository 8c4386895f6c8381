//! The program: session lines from standard input, and a reply to each on standard output.
#![tactic(auto)]

mod choices;
mod command_line;
mod forms;
mod reports;
mod runs;
mod streams;

use crate::command_line::options;
use crate::reports::{ErrorLines, FolderFaults, look_at_folder};
use crate::runs::run_as;
use crate::streams::Watched;
use clap::error::ErrorKind;
use map_store::{FolderStore, Reason};
use session_run::{RunFault, StrictFault, Summary};
use std::env::Env;
use std::fmt::Display;
use std::io::BufWriter;
use std::process::ExitCode;
use std::{env, io};
use tiled_store::TiledStore;

/// The status after a command line that is refused.
const REFUSED: u8 = 2;

/// The status after a read, a write or an allocation that failed.
const FAILED: u8 = 1;

/// The status where a strict run was ended by a refused line or by unsaved documents.
const NOT_DONE: u8 = 3;

// Says on standard error what ended the program.
fn ends(rt: &impl Eprint, what: impl Display + Drop, status: u8) -> ExitCode {
    let _ = eprintln!(rt; "tile_editor: {what}");
    ExitCode::from(status)
}

// Says on standard error which fault ended the program, and the system's reason for it, where there is one.
fn ends_with_fault(rt: &impl Eprint, fault: RunFault, reason: Option<&Reason>) -> ExitCode {
    match reason {
        Some(reason) => ends(rt, format_args!("{fault}: {reason}"), FAILED),
        None => ends(rt, fault, FAILED),
    }
}

// The words of the command line, of which the first is the program's name. They are pushed and not collected, since `collect`
// asks again where it is refused memory.
fn read_words(rt: &(impl Env + AllocGlobal)) -> io::Result<Vec<String>> {
    let mut words = Vec::new(rt.alloc());
    for word in env::args(rt)? {
        words.push(word)?;
    }
    Ok(words)
}

// What stands for words that could not be read.
fn ends_without_words(rt: &impl Eprint, error: &io::Error) -> ExitCode {
    match error.kind() {
        io::ErrorKind::OutOfMemory => ends(rt, RunFault::Memory, FAILED),
        _ => ends(rt, "a word of the command line is not UTF-8", REFUSED),
    }
}

// Shows help or the version, or why the command line is refused.
fn ends_with_answer(rt: &(impl Print + Eprint), answer: &clap::Error) -> ExitCode {
    // (a comparison of two kinds takes the prover a minute)
    if let ErrorKind::OutOfMemory = answer.kind() {
        return ends(rt, RunFault::Memory, FAILED);
    }
    let shown = answer.print(rt);
    if answer.use_stderr() {
        return ExitCode::from(REFUSED);
    }
    match shown {
        Ok(()) => ExitCode::SUCCESS,
        Err(error) => ends_with_fault(rt, RunFault::Write, Some(&Reason::of(error))),
    }
}

// The status after a run. Where a fault ended it, standard error says which, with the system's reason for a read or a write.
fn ends_as(
    rt: &impl Eprint,
    ended: Result<Summary, StrictFault>,
    read: Option<&Reason>,
    write: Option<&Reason>,
) -> ExitCode {
    match ended {
        Ok(_) => ExitCode::SUCCESS,
        Err(StrictFault::Refused | StrictFault::Unsaved) => ExitCode::from(NOT_DONE),
        Err(StrictFault::Run(fault)) => {
            let reason = match fault {
                RunFault::Read => read,
                RunFault::Write => write,
                RunFault::Memory => None,
            };
            ends_with_fault(rt, fault, reason)
        }
    }
}

fn main(rt: HostRuntime) -> ExitCode {
    let words = match read_words(&rt) {
        Ok(words) => words,
        Err(error) => return ends_without_words(&rt, &error),
    };
    let chosen = match options(rt.alloc(), words.as_slice()) {
        Ok(chosen) => chosen,
        Err(answer) => return ends_with_answer(&rt, &answer),
    };
    let mut reader = Watched::new(rt.stdin());
    let Ok(mut writer) = BufWriter::new(rt.alloc(), Watched::new(rt.stdout())) else {
        return ends(&rt, RunFault::Memory, FAILED);
    };
    look_at_folder(&rt, chosen.folder);
    let files = FolderStore::new(&rt, chosen.folder).telling("tile_editor");
    // Where there is no file to be a source, nothing is told of it.
    let sources = FolderStore::new(&rt, chosen.folder);
    let faults = FolderFaults::new(&rt, rt.alloc(), chosen.folder);
    // One type of store with and without the option: the compiler folds what `run` calls once into it.
    let mut store = TiledStore::new(files, sources, faults, chosen.opens_all_maps);
    let mut report = ErrorLines::new(&rt, rt.alloc(), chosen.does_all_edits);
    let ended = run_as(
        &chosen,
        rt.alloc(),
        &mut reader,
        &mut writer,
        &mut store,
        &mut report,
    );
    ends_as(&rt, ended, reader.reason(), writer.get_ref().reason())
}
