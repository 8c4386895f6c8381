// Where a map has what XML can't say.
use crate::fault::FileFault;
use std::alloc::Global;
use tiled_maps::put_back_like;
use tmx_maps::where_untold;

/// The way to the first member of a map that XML can't say, as `layers[0].objects[2].name`, in the JSON that the text of the map is saved
/// as; or `None`, if XML says all. A fault comes where that is not known.
pub fn tmx_fault(alloc: Global, bytes: &[u8]) -> Result<Option<Vec<u8>>, FileFault> {
    let laid = put_back_like(alloc, bytes, b"")?;
    let path = where_untold(alloc, laid.text.as_slice())?;
    Ok(if path.is_empty() { None } else { Some(path) })
}
