// The sizes that an object may have.
ghost use Rattle.std.specs.Prelude.{◌≡◌, pos, Some, None, if◌then◌else◌};
ghost use Rattle.edits.specs.ObjectEdits.{is_object_size};

use map_model::limits::MAX_PIXELS;

/// A width and a height as numbers of an object; `None` where one is above 1,000,000,000 pixels.
pub fn sizes(width: u32, height: u32) -> Option<(i32, i32)>
    ensures { result ≡ if is_object_size width height then Some (pos width, pos height) else None }
{
    let most = MAX_PIXELS as u32;
    if width <= most && height <= most {
        Some((width as i32, height as i32))
    } else {
        None
    }
}
