// What is answered for the text of a map that is set aside, put back or laid out, and for what is told of one that is refused.
ghost use Rattle.std.specs.Prelude.{◌≡◌, IfErr, IfOk};
ghost use Rattle.roskevad_c.specs.Asides.{as_file, number_of, aside_number, xml_number, made_size, made_bytes, laid_size, laid_bytes, kind_at, layout_at, layout_number, layout_size, layout_bytes, GivesFault, GivesTold};

use crate::answers::{
    BAD_CHUNK, NAME_TAKEN, NO_MEMORY, NO_TMX, NONE, NOT_A_TMX, NOT_JSON, NOT_XML, OVERLAP,
    TOO_DEEP, TOO_LARGE, TOO_MANY_FRACTIONS, UNLIKE,
};
use crate::copies::copy_text;
use map_faults::ToldFault;
use map_layout::{Layout, LayoutFault, LineEnd};
use std::alloc::AllocError;
use tiled_files::{FileFault, Kind, LaidText};
use tiled_maps::Fault;

fn aside_number(fault: Fault) -> usize
    ensures { result ≡ aside_number fault }
{
    match fault {
        Fault::Memory => NO_MEMORY,
        Fault::NotJson => NOT_JSON,
        Fault::NameTaken => NAME_TAKEN,
        Fault::TooManyFractions => TOO_MANY_FRACTIONS,
        Fault::TooDeep => TOO_DEEP,
        Fault::BadChunk => BAD_CHUNK,
        Fault::Overlap => OVERLAP,
        Fault::TooLarge => TOO_LARGE,
        Fault::Unlike => UNLIKE,
    }
}

fn xml_number(fault: tmx_maps::Fault) -> usize
    ensures { result ≡ xml_number fault }
{
    match fault {
        tmx_maps::Fault::Memory => NO_MEMORY,
        tmx_maps::Fault::NotXml(_, _) => NOT_XML,
        tmx_maps::Fault::NotAMap(_) => NOT_A_TMX,
        tmx_maps::Fault::NotJson => NOT_JSON,
        tmx_maps::Fault::NoTmx => NO_TMX,
    }
}

fn number_of(fault: FileFault) -> usize
    ensures { result ≡ number_of fault }
{
    match fault {
        FileFault::Aside(fault) => aside_number(fault),
        FileFault::Xml(fault) => xml_number(fault),
    }
}

/// Copies a text that was made where the buffer has room for all of it, and gives its size, `NONE` where there is none, or the number
/// of the fault.
pub fn copy_made(made: Result<Option<Vec<u8>>, FileFault>, buffer: &mut [u8]) -> usize
    ensures size { result ≡ made_size made }
    ensures copied { buffer.new ≡ made_bytes made buffer.old }
{
    match made {
        Ok(Some(text)) => copy_text(text.as_slice(), buffer),
        Ok(None) => NONE,
        Err(fault) => number_of(fault),
    }
}

/// The same of a text in which what was set aside was put back.
pub fn copy_back(made: Result<Option<Vec<u8>>, Fault>, buffer: &mut [u8]) -> usize
    ensures size { result ≡ made_size (as_file made) }
    ensures copied { buffer.new ≡ made_bytes (as_file made) buffer.old }
{
    match made {
        Ok(own) => copy_made(Ok(own), buffer),
        Err(fault) => copy_made(Err(FileFault::Aside(fault)), buffer),
    }
}

/// Copies a text that was laid out where the buffer has room for all of it, and gives its size, or the number of the fault.
pub fn copy_laid(made: Result<LaidText, FileFault>, buffer: &mut [u8]) -> usize
    ensures size { result ≡ laid_size made }
    ensures copied { buffer.new ≡ laid_bytes made buffer.old }
{
    match made {
        Ok(laid) => copy_text(laid.text.as_slice(), buffer),
        Err(fault) => number_of(fault),
    }
}

/// The kind of files of a number.
pub fn kind_of(number: usize) -> Option<Kind>
    ensures { result ≡ kind_at number }
{
    match number {
        0 => Some(Kind::Json),
        1 => Some(Kind::Tmx),
        _ => None,
    }
}

/// The layout of a number.
pub fn layout_of(number: usize) -> Option<Layout>
    ensures { result ≡ layout_at number }
{
    match number {
        0 => Some(Layout::Tiled(LineEnd::Lf)),
        1 => Some(Layout::Rows(LineEnd::Lf)),
        2 => Some(Layout::Minimized),
        3 => Some(Layout::Compact),
        _ => None,
    }
}

fn layout_number(fault: LayoutFault) -> usize
    ensures { result ≡ layout_number fault }
{
    match fault {
        LayoutFault::Memory => NO_MEMORY,
        LayoutFault::NotJson => NOT_JSON,
        LayoutFault::TooDeep => TOO_DEEP,
    }
}

/// Copies a text in a layout where the buffer has room for all of it, and gives its size, or the number of the fault.
pub fn copy_layout(made: Result<Vec<u8>, LayoutFault>, buffer: &mut [u8]) -> usize
    ensures size { result ≡ layout_size made }
    ensures copied { buffer.new ≡ layout_bytes made buffer.old }
{
    match made {
        Ok(text) => copy_text(text.as_slice(), buffer),
        Err(fault) => layout_number(fault),
    }
}

/// Copies what is told of a fault where the buffer has room for all of it, and gives its size, `NONE` where there is no fault, or
/// `NO_MEMORY`.
pub fn copy_fault(told: Result<Option<ToldFault>, AllocError>, buffer: &mut [u8]) -> usize
    ensures told { IfOk told (λ t. GivesFault t result buffer.old buffer.new) }
    ensures memory { IfErr told (λ e. (result ≡ NO_MEMORY) × (buffer.new ≡ buffer.old)) }
{
    match told {
        Ok(Some(fault)) => copy_text(fault.text.as_slice(), buffer),
        Ok(None) => NONE,
        Err(_) => NO_MEMORY,
    }
}

/// Copies what is told of a tileset that is refused where the buffer has room for all of it, and gives its size, `NONE` where it is read,
/// or `NO_MEMORY`.
pub fn copy_told(told: Result<Option<Vec<u8>>, AllocError>, buffer: &mut [u8]) -> usize
    ensures told { IfOk told (λ t. GivesTold t result buffer.old buffer.new) }
    ensures memory { IfErr told (λ e. (result ≡ NO_MEMORY) × (buffer.new ≡ buffer.old)) }
{
    match told {
        Ok(Some(text)) => copy_text(text.as_slice(), buffer),
        Ok(None) => NONE,
        Err(_) => NO_MEMORY,
    }
}
