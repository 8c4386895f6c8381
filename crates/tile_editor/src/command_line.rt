ghost use Rattle.std.specs.Prelude.{◌≡◌, ◌<◌, ◌≤◌, IfOk, IfSome, false, codes, length, map, option_map};
ghost use Rattle.clap.specs.Words.{FailsBy, IsPlainArg, IsUnsignedIn, app_of, fault_of, rule_of};
ghost use Rattle.tile_editor.specs.Options.{all_edits_option, all_edits_text, all_maps_option, all_maps_text, command, folder_of, folder_option, limit_of, limit_option, strict_option, strict_text, value_or_zero, GivesOnly, IsFlag};
ghost use Rattle.undo_stack.specs.declared.limits.TheConstants.{MAX_LIMIT};

use crate::choices::Options;
use clap::builder::ValueParser;
use clap::{Arg, ArgAction, Command, Error};
use std::alloc::{AllocError, Global};
use std::convert::AsStr;
use undo_stack::limits::MAX_LIMIT;

/// What stands before the options in the help.
const ABOUT: &str =
    "Edits tile maps by session lines: reads lines from standard input, and answers each with a line on
standard output.";

/// What stands behind the options in the help.
const AFTER_HELP: &str = "\
Session lines:
  new DOC WIDTH HEIGHT TILE_WIDTH TILE_HEIGHT SOURCE
  open DOC FILE
  save FILE
  close DOC
  discard DOC
  use DOC
  use -
  list
  status
  undotext
  redotext
  stamp LAYER X Y WIDTH TILES
  stamp+ LAYER X Y WIDTH TILES
  erase LAYER X Y WIDTH HEIGHT
  erase+ LAYER X Y WIDTH HEIGHT
  fill LAYER X Y TILE
  select replace X Y WIDTH HEIGHT
  select add X Y WIDTH HEIGHT
  select subtract X Y WIDTH HEIGHT
  select intersect X Y WIDTH HEIGHT
  select none
  layer add tile NAME
  layer add object NAME
  layer remove LAYER
  layer rename LAYER NAME
  layer show LAYER yes
  layer show LAYER no
  layer move LAYER PLACE
  resize WIDTH HEIGHT X Y
  object add LAYER X Y WIDTH HEIGHT NAME
  object move OBJECT X Y
  object move+ OBJECT X Y
  object resize OBJECT WIDTH HEIGHT
  object remove OBJECT
  prop set OWNER KEY TYPE VALUE
  prop set+ OWNER KEY TYPE VALUE
  prop remove OWNER KEY
  tileset add FIRST SOURCE
  tileset remove FIRST
  undo
  redo
  goto INDEX
  clean
  dirty
  clear
  begin TEXT
  begin TEXT || ACTION
  end
  limit NUMBER
  show
  text PLACE
  tile LAYER X Y

Further lines, with --all-edits:
  member set OWNER KEY JSON
  member set+ OWNER KEY JSON
  member put OWNER JSON
  member put+ OWNER JSON
  member remove OWNER KEY
  layer add group NAME
  layer add image NAME
  layer into LAYER GROUP PLACE
  layer put GROUP PLACE JSON
  object put LAYER JSON
  object into OBJECT LAYER PLACE
  prop put OWNER JSON
  prop take OWNER JSON
  tileset put JSON
  tileset number FIRST NUMBER
  extend LEFT TOP RIGHT BOTTOM

Exit status:
  0  the input has ended, or help or the version was asked for
  1  a read or a write failed, or there was no memory
  2  the command line was refused
  3  with --strict: a line was refused, or a document has unsaved changes or an open macro at the end

What each line does, and each reply, is in docs/session-lines.md.";

/// The forms of session lines, as the help shows them: each on a line of its own, behind two spaces.
pub fn shown_forms() -> &'static str {
    match AFTER_HELP.split_once("\n\n") {
        Some((forms, _)) => forms,
        None => AFTER_HELP,
    }
}

/// The forms of the lines that are read for all edits alone, in the same way.
pub fn shown_forms_for_all_edits() -> &'static str {
    match AFTER_HELP.split_once("\n\n") {
        Some((_, rest)) => match rest.split_once("\n\n") {
            Some((forms, _)) => forms,
            None => rest,
        },
        None => AFTER_HELP,
    }
}

// The option that names the folder.
fn folder_arg<'a>(alloc: Global) -> Arg<'a>
    ensures rule { rule_of result ≡ folder_option }
    ensures plain { IsPlainArg result }
    ensures local { result.global ≡ false }
{
    Arg::new(alloc, "folder")
        .long("folder")
        .value_name("DIR")
        .value_parser(ValueParser::NonEmptyString)
        .help("The folder of the maps that are loaded and saved [default: .]")
}

// The option that names the undo limit.
fn limit_arg<'a>(alloc: Global) -> Arg<'a>
    ensures rule { rule_of result ≡ limit_option }
    ensures plain { IsPlainArg result }
    ensures local { result.global ≡ false }
{
    Arg::new(alloc, "limit")
        .long("limit")
        .value_name("N")
        .value_parser(ValueParser::unsigned(0, MAX_LIMIT as u64))
        .help("The most steps that a document keeps, up to 1000000; 0 is no limit [default: 0]")
}

// The option that makes the run a strict one.
fn strict_arg<'a>(alloc: Global) -> Arg<'a>
    ensures rule { rule_of result ≡ strict_option }
    ensures plain { IsPlainArg result }
    ensures local { result.global ≡ false }
{
    Arg::new(alloc, "strict")
        .long("strict")
        .action(ArgAction::SetTrue)
        .help("Stops at the first refused line, and fails where a document is left unsaved")
}

// The option that opens packed maps, infinite ones and maps with fractions.
fn all_maps_arg<'a>(alloc: Global) -> Arg<'a>
    ensures rule { rule_of result ≡ all_maps_option }
    ensures plain { IsPlainArg result }
    ensures local { result.global ≡ false }
{
    Arg::new(alloc, "all_maps")
        .long("all-maps")
        .action(ArgAction::SetTrue)
        .help(
            "Opens maps in XML, packed and infinite ones, and those with fractions, too, and puts back what no edit changed",
        )
}

// The option that reads the lines for all edits.
fn all_edits_arg<'a>(alloc: Global) -> Arg<'a>
    ensures rule { rule_of result ≡ all_edits_option }
    ensures plain { IsPlainArg result }
    ensures local { result.global ≡ false }
{
    Arg::new(alloc, "all_edits")
        .long("all-edits")
        .action(ArgAction::SetTrue)
        .help("Reads the further lines below, too")
}

// The command with its options.
fn whole_command<'a>(alloc: Global) -> Result<Command<'a>, AllocError>
    ensures app { IfOk result (λ c. app_of c ≡ command) }
    ensures folder { IfOk result (λ c. GivesOnly c (codes "folder") (λ text. 0 < length text)) }
    ensures limit { IfOk result (λ c. GivesOnly c (codes "limit") (IsUnsignedIn 0 MAX_LIMIT)) }
{
    let with_folder = Command::new(alloc, "tile_editor")
        .version("0.3.0")
        .about(ABOUT)
        .after_help(AFTER_HELP)
        .arg(folder_arg(alloc))?;
    let with_limit = with_folder.arg(limit_arg(alloc))?;
    let with_strict = with_limit.arg(strict_arg(alloc))?;
    let with_all_maps = with_strict.arg(all_maps_arg(alloc))?;
    with_all_maps.arg(all_edits_arg(alloc))
}

// The number that the value of `--limit` writes, and 0 where none is given.
fn limit_in(text: Option<&str>) -> usize
    requires { IfSome text (λ t. IsUnsignedIn 0 MAX_LIMIT t.now) }
    ensures value { result ≡ value_or_zero (option_map (λ t. t.now) text.entry) }
    ensures within { result ≤ MAX_LIMIT }
{
    match text {
        Some(text) => text.parse::<usize>().unwrap_or(0),
        None => 0,
    }
}

/// Reads a command line, whose first word is the program's name.
///
/// An error is a command line that is refused, a request for help or for the version, or out of memory.
pub fn options<'a, S: AsStr>(alloc: Global, words: &'a [S]) -> Result<Options<'a>, Error>
    // The command line is accepted only where it has no fault, and else refused for its first one, or where memory runs out.
    ensures answer { FailsBy (fault_of command (map S.text words.entry.now)) result }
    ensures folder { IfOk result (λ o. o.folder.now ≡ folder_of (map S.text words.entry.now)) }
    ensures some { IfOk result (λ o. 0 < length o.folder.now) }
    ensures limit { IfOk result (λ o. o.limit ≡ limit_of (map S.text words.entry.now)) }
    ensures within { IfOk result (λ o. o.limit ≤ MAX_LIMIT) }
    ensures strict { IfOk result (λ o. IsFlag (strict_text (map S.text words.entry.now)) o.is_strict) }
    ensures all_maps { IfOk result (λ o. IsFlag (all_maps_text (map S.text words.entry.now)) o.opens_all_maps) }
    ensures all_edits { IfOk result (λ o. IsFlag (all_edits_text (map S.text words.entry.now)) o.does_all_edits) }
{
    let command = whole_command(alloc)?;
    match command.try_get_matches_from(words) {
        Ok(matches) => Ok(Options {
            folder: matches.get_str("folder").unwrap_or("."),
            limit: limit_in(matches.get_str("limit")),
            is_strict: matches.get_flag("strict"),
            opens_all_maps: matches.get_flag("all_maps"),
            does_all_edits: matches.get_flag("all_edits"),
        }),
        Err(error) => Err(error),
    }
}
