// Why a file is refused as a map, and where.
ghost use Rattle.std.specs.Prelude.{IfOk};
ghost use Rattle.map_faults.specs.Faults.{TellsFault, TellsNotGiven, TellsOfText};

use crate::place::Place;
use crate::told::{TOO_LONG, told_of_not_aside, told_of_refusal};
use map_json::{MapFault, read_map_along};
use refusals::{Refusal, StoreFault};
use std::alloc::{AllocError, Global};
use tiled_files::{FileFault, LONGEST, LineColumn, opened};
use tiled_maps::Fault;

/// Why a file is refused, and what is told of that.
#[derive(Drop)]
pub struct ToldFault {
    /// The refusal of `open`.
    pub refusal: Refusal,
    /// An object of JSON, in UTF-8.
    pub text: Vec<u8>,
}

// What is told of a file that is not set aside, or no XML behind a place.
fn not_aside(
    alloc: Global,
    why: &str,
    place: Option<LineColumn>,
) -> Result<Option<ToldFault>, AllocError>
    ensures { IfOk result TellsNotGiven }
{
    let text = told_of_not_aside(alloc, why, place)?;
    Ok(Some(ToldFault {
        refusal: Refusal::Store(StoreFault::Device),
        text,
    }))
}

// What is told of a file by the text that is read of it: what was set aside of its bytes, or these themselves.
fn fault_of_text(
    alloc: Global,
    bytes: &[u8],
    text: &[u8],
    is_set_aside: bool,
) -> Result<Option<ToldFault>, AllocError>
    ensures { IfOk result (TellsOfText text.now) }
{
    let mut place = Place::new(alloc);
    match read_map_along(alloc, text, &mut place) {
        Ok(_) => Ok(None),
        Err(MapFault::Memory) => Err(AllocError),
        Err(MapFault::Refused(refusal)) => {
            let text = told_of_refusal(alloc, bytes, refusal, &place, is_set_aside)?;
            Ok(Some(ToldFault {
                refusal: Refusal::Map(refusal),
                text,
            }))
        }
    }
}

/// Why the bytes of a file are refused as a map, or `None` where they are read: as the editor opens a file with `--all-maps`, which
/// reads what `tiled_files::opened` gives of them, or the bytes themselves where they are neither JSON nor XML.
///
/// The refusal is the first fault of what is read, or `Device` where XML is no map, nothing can be set aside of the bytes, or what is
/// set aside is longer than `LONGEST`. Of a file in XML the way and what stands there are those of the JSON that says the same. The
/// text is an object of JSON with these members:
///
/// - `code`, `words`: the number of the refusal, and its words.
/// - `why`: where XML is no map, nothing can be set aside, or a layer is not unpacked, the reason in words; else `null`.
/// - `path`: the way from the root of the file to the fault, names of members and indexes of elements; `null` where the bytes are no
///   JSON, or nothing can be set aside.
/// - `exact`: whether the fault is there. If not, it is somewhere in what stands there: what is set aside of the file has more steps
///   there than the file, as cells for chunks.
/// - `shown`: what stands there, short; `absent` for a member that is not there.
/// - `text`: the place in words, and what stands there.
/// - `line`, `column`: where it begins in the bytes, from 1 and in bytes. Of a member that is absent it is the object that lacks it.
///   Where the bytes are no JSON it is the first byte that no JSON could have there; where they cease to be XML, that byte; `null` of
///   another fault in XML.
///
/// The only error is out of memory.
pub fn map_fault(alloc: Global, bytes: &[u8]) -> Result<Option<ToldFault>, AllocError>
    ensures { IfOk result (TellsFault bytes.now) }
{
    match opened(alloc, bytes) {
        Ok(Some(text)) if text.len() > LONGEST => not_aside(alloc, TOO_LONG, None),
        Ok(Some(text)) => fault_of_text(alloc, bytes, text.as_slice(), true),
        Ok(None) => fault_of_text(alloc, bytes, bytes, false),
        Err(FileFault::Aside(Fault::NotJson)) => fault_of_text(alloc, bytes, bytes, false),
        Err(fault) if fault.is_memory() => Err(AllocError),
        Err(fault) => not_aside(alloc, fault.words(), fault.place_in(bytes)),
    }
}
