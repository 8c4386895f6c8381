// What standard error says beside the faults that end the program.
use crate::forms::hint_of;
use map_store::Reason;
use refusals::Refusal;
use session_run::{Report, Unsaved};
use std::alloc::Global;
use std::fmt::{Display, Formatter, Write};
use std::rt::Files;
use std::{fmt, fs};
use tiled_files::{FileFault, LineColumn, tmx_fault};
use tiled_store::FaultReport;

/// The most characters of a session line that are shown.
const MAX_SHOWN: usize = 200;

/// The text of a session line, cut where it is long. Its control characters are escapes: a carriage return would hide what
/// stands before it.
#[derive(Drop)]
struct Shown<'a>(&'a str);

impl<'a> Display for Shown<'a> {
    fn fmt<W: Write>(&self, f: &mut Formatter<W>) -> fmt::Result {
        for (at, character) in self.0.chars().enumerate() {
            if at == MAX_SHOWN {
                return f.write_str("...");
            }
            if character.is_control() {
                let escaped = character.escape_unicode();
                write!(f, "{escaped}")?;
            } else {
                f.write_char(character)?;
            }
        }
        Ok(())
    }
}

// What is said behind the words of a refusal; nothing where there is no memory for it.
fn hint_behind(alloc: Global, text: &str, refusal: Refusal, does_all_edits: bool) -> String {
    let hint = match refusal {
        Refusal::Line(fault) => hint_of(alloc, text, fault, does_all_edits),
        _ => return String::new(alloc),
    };
    hint.unwrap_or(String::new(alloc))
}

/// Says on standard error what ended a strict run.
#[derive(Drop)]
pub struct ErrorLines<'a, R> {
    rt: &'a R,
    alloc: Global,
    does_all_edits: bool,
}

impl<'a, R: Eprint> ErrorLines<'a, R> {
    /// With memory for what it says of a line's form, and whether the lines for all edits are read.
    pub fn new(rt: &'a R, alloc: Global, does_all_edits: bool) -> ErrorLines<'a, R> {
        ErrorLines {
            rt,
            alloc,
            does_all_edits,
        }
    }
}

impl<'a, R: Eprint> Report for ErrorLines<'a, R> {
    fn refused(&mut self, number: u64, text: Option<&str>, refusal: Refusal) {
        let words = refusal.words();
        let _ = match text {
            Some(text) => {
                let line = Shown(text);
                let hint = hint_behind(self.alloc, text, refusal, self.does_all_edits);
                eprintln!(self.rt; "tile_editor: line {number}: {line}: no {words}{hint}")
            }
            None => eprintln!(self.rt; "tile_editor: line {number}: no {words}"),
        };
    }

    fn unsaved(&mut self, document: &str, unsaved: Unsaved) {
        let what = match unsaved {
            Unsaved::OpenMacro => "macro open",
            Unsaved::Changes => "unsaved changes",
        };
        let _ = eprintln!(self.rt; "tile_editor: end of input: {document}: {what}");
    }
}

// The way to what XML can't say of a map, where a save is refused for that and it is known.
fn untold(alloc: Global, bytes: &[u8], fault: FileFault) -> Option<String> {
    if !fault.is_no_tmx() {
        return None;
    }
    let path = tmx_fault(alloc, bytes).ok()??;
    String::from_utf8(path).ok()
}

/// Says on standard error why a file of a folder is not loaded or not saved.
#[derive(Drop)]
pub struct FolderFaults<'a, R> {
    rt: &'a R,
    alloc: Global,
    folder: &'a str,
}

impl<'a, R: Eprint> FolderFaults<'a, R> {
    /// Of the folder at a path, with memory for what it says of a map that is not saved as XML.
    pub fn new(rt: &'a R, alloc: Global, folder: &'a str) -> FolderFaults<'a, R> {
        FolderFaults { rt, alloc, folder }
    }
}

impl<'a, R: Eprint> FaultReport for FolderFaults<'a, R> {
    fn refused(&self, name: &str, bytes: &[u8], fault: FileFault) {
        let folder = self.folder;
        let reason = fault.words();
        if let Some(path) = untold(self.alloc, bytes, fault) {
            let path = Shown(path.as_str());
            let _ = eprintln!(self.rt; "tile_editor: {folder}/{name}: in {path} {reason}");
            return;
        }
        let _ = match fault.place_in(bytes) {
            Some(LineColumn { line, column }) => {
                eprintln!(self.rt;
                    "tile_editor: {folder}/{name}: {reason}: line {line}, column {column}"
                )
            }
            None => eprintln!(self.rt; "tile_editor: {folder}/{name}: {reason}"),
        };
    }

    fn too_long(&self, name: &str) {
        let folder = self.folder;
        let reason = "set aside or put back, it would be longer than 67,108,864 bytes";
        let _ = eprintln!(self.rt; "tile_editor: {folder}/{name}: {reason}");
    }

    fn not_laid_out(&self, name: &str) {
        let folder = self.folder;
        let reason = "its layout could not be kept, so it is saved in a plainer one";
        let _ = eprintln!(self.rt; "tile_editor: {folder}/{name}: {reason}");
    }
}

/// Says on standard error where there is no such folder. Lines that need no file can be carried out all the same.
pub fn look_at_folder(rt: &(impl Files + Eprint), folder: &str) {
    // The folder in which the program runs is there.
    if folder == "." {
        return;
    }
    let _ = match fs::metadata(rt, folder) {
        Ok(metadata) if metadata.is_dir() => Ok(()),
        Ok(_) => eprintln!(rt; "tile_editor: {folder}: Not a directory"),
        Err(error) => {
            let reason = Reason::of(error);
            eprintln!(rt; "tile_editor: {folder}: {reason}")
        }
    };
}
