// The command line.
use crate::files::{Form, Manner};
use clap::builder::ValueParser;
use clap::{Arg, ArgAction, ArgMatches, Command, Error};
use std::alloc::{AllocError, Global};
use std::convert::AsStr;

/// What stands before the options in the help.
const ABOUT: &str =
    "Says what is in maps that Tiled saved as JSON, or why the editor refuses them and at which place.";

/// What stands behind the options in the help.
const AFTER_HELP: &str = "\
A line for a map that is refused has the code, its words, and the place with what stands there:
  maps/x.tmj: no 61 fraction: layers[2].objects[5].x is 12.5

Exit status:
  0  all files were reported, or help or the version was asked for
  1  a map was refused, a file could not be read, a write failed, or there was no memory
  2  the command line was refused

The codes, and the members of the objects, are in docs/map-files.md.";

/// What a command line asks for.
#[derive(Drop)]
pub struct Options<'a> {
    /// Whether standard input has a table of texts; then there are no files.
    pub is_table: bool,
    /// How the files are reported.
    pub manner: Manner,
    /// The files of the maps, as they were given.
    pub files: Vec<&'a str>,
}

// The argument of a list whose values are not empty. It stands alone, since its proof has an answer of its own.
fn list_arg<'a>(alloc: Global, name: &'a str) -> Arg<'a> {
    Arg::new(alloc, name).value_parser(ValueParser::NonEmptyString)
}

// The files.
fn file_arg<'a>(alloc: Global) -> Result<Arg<'a>, AllocError> {
    list_arg(alloc, "file")
        .value_name("FILE")
        .action(ArgAction::Append)
        .help("The maps; - is standard input")
        .num_args(1..)
        .required_unless_present("table")
}

// The option for JSON.
fn json_arg<'a>(alloc: Global) -> Arg<'a> {
    Arg::new(alloc, "json")
        .long("json")
        .action(ArgAction::SetTrue)
        .help("Writes a line of JSON for each map: an object")
}

// The option that reads packed maps, infinite ones and maps with fractions.
fn all_maps_arg<'a>(alloc: Global) -> Arg<'a> {
    Arg::new(alloc, "all_maps")
        .long("all-maps")
        .action(ArgAction::SetTrue)
        .help(
            "Reads what tile_editor --all-maps opens: packed maps, infinite ones and maps with fractions, too",
        )
}

// The option for the table.
fn table_arg<'a>(alloc: Global) -> Result<Arg<'a>, AllocError> {
    Arg::new(alloc, "table")
        .long("table")
        .action(ArgAction::SetTrue)
        .help(
            "Reads a table of texts from standard input, and says what is read of each: a test of the reader",
        )
        .conflicts_with("file")?
        .conflicts_with("json")?
        .conflicts_with("all_maps")
}

// The command without options.
fn bare_command<'a>(alloc: Global) -> Command<'a> {
    Command::new(alloc, "map_report")
        .version("0.3.0")
        .about(ABOUT)
        .after_help(AFTER_HELP)
}

// The arguments, in the order of the help.
fn all_args<'a>(alloc: Global) -> Result<Vec<Arg<'a>>, AllocError> {
    let table = table_arg(alloc)?;
    let files = file_arg(alloc)?;
    let json = json_arg(alloc);
    Ok(Vec::from_array(alloc, [files, json, all_maps_arg(alloc), table])?)
}

// The command with its options. The arguments are made before the command, which has many parts to drop.
fn whole_command<'a>(alloc: Global) -> Result<Command<'a>, AllocError> {
    let args = all_args(alloc)?;
    bare_command(alloc).args(args)
}

// What the words of a command line ask for.
fn options_in<'a>(alloc: Global, matches: &ArgMatches<'a>) -> Result<Options<'a>, Error> {
    let form = if matches.get_flag("json") {
        Form::Json
    } else {
        Form::Text
    };
    let files = Vec::from_slice(alloc, matches.get_strs("file").unwrap_or(&[]))?;
    Ok(Options {
        is_table: matches.get_flag("table"),
        manner: Manner {
            form,
            opens_all_maps: matches.get_flag("all_maps"),
        },
        files,
    })
}

/// Reads a command line, whose first word is the program's name.
///
/// An error is a command line that is refused, a request for help or for the version, or out of memory.
pub fn parse_options<'a, S: AsStr>(alloc: Global, words: &'a [S]) -> Result<Options<'a>, Error> {
    let command = whole_command(alloc)?;
    match command.try_get_matches_from(words) {
        Ok(matches) => options_in(alloc, &matches),
        Err(error) => Err(error),
    }
}
