// A run, as a command line chooses it.
ghost use Rattle.std.specs.Prelude.{◌≡◌, ◌≤◌, if◌then◌else◌};
ghost use Rattle.fractions.specs.declared.lines.Fractions.TheVariants.{Refused, SetAside};
ghost use Rattle.undo_stack.specs.declared.limits.TheConstants.{MAX_LIMIT};

use crate::choices::Options;
use map_store::MapStore;
use session_run::{
    Fractions, Report, RunFault, StrictFault, Summary, run, run_all_edits, run_strict,
    run_strict_all_edits,
};
use std::alloc::Global;
use std::io::{Read, Write};

// What becomes of a number in a line that is not whole: it is set aside where the store sets aside those of files, and puts them back.
fn fractions_of(chosen: &Options<'_>) -> Fractions
    ensures { result ≡ (if chosen.now.opens_all_maps then SetAside else Refused) }
{
    if chosen.opens_all_maps {
        Fractions::SetAside
    } else {
        Fractions::Refused
    }
}

// A run that the first refused line ends.
fn run_strictly<R: Read, W: Write, S: MapStore>(
    chosen: &Options<'_>,
    alloc: Global,
    reader: &mut R,
    writer: &mut W,
    store: &mut S,
    report: &mut dyn Report,
) -> Result<Summary, StrictFault>
    requires { chosen.now.limit ≤ MAX_LIMIT }
{
    if chosen.does_all_edits {
        let fractions = fractions_of(chosen);
        run_strict_all_edits(
            alloc,
            reader,
            writer,
            store,
            chosen.limit,
            fractions,
            report,
        )
    } else {
        run_strict(alloc, reader, writer, store, chosen.limit, report)
    }
}

// A run that goes on behind lines that are refused.
fn run_on<R: Read, W: Write, S: MapStore>(
    chosen: &Options<'_>,
    alloc: Global,
    reader: &mut R,
    writer: &mut W,
    store: &mut S,
) -> Result<Summary, RunFault>
    requires { chosen.now.limit ≤ MAX_LIMIT }
{
    if chosen.does_all_edits {
        let fractions = fractions_of(chosen);
        run_all_edits(alloc, reader, writer, store, chosen.limit, fractions)
    } else {
        run(alloc, reader, writer, store, chosen.limit)
    }
}

/// Does the lines that are read as a command line chooses it, and writes their replies. The report says what ended a strict run.
pub fn run_as<R: Read, W: Write, S: MapStore>(
    chosen: &Options<'_>,
    alloc: Global,
    reader: &mut R,
    writer: &mut W,
    store: &mut S,
    report: &mut dyn Report,
) -> Result<Summary, StrictFault>
    requires { chosen.now.limit ≤ MAX_LIMIT }
{
    if chosen.is_strict {
        return run_strictly(chosen, alloc, reader, writer, store, report);
    }
    match run_on(chosen, alloc, reader, writer, store) {
        Ok(summary) => Ok(summary),
        Err(fault) => Err(StrictFault::Run(fault)),
    }
}
