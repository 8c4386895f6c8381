ghost use Rattle.std.specs.Prelude.{◌≡◌, ◌↔◌, IfOk, IfSome, IsTrue};

use std::io;
use std::io::{ErrorKind, Read};

/// The bytes that are compared at once.
const BLOCK: usize = 16_384;

/// The calls of `read` that a comparison makes at most.
const MAX_CALLS: u64 = 4_294_967_296;

/// Whether what a file has from here on is these bytes, to its end. It reads no further than to the first that is another. An
/// error if a read fails, or after 4,294,967,296 of them.
pub(crate) fn has_bytes<F: Read>(file: &mut F, bytes: &[u8]) -> io::Result<bool>
    ensures { IfOk result (λ same. IfSome (F.remaining file.old) (λ rest. IsTrue same ↔ (rest ≡ bytes.now))) }
{
    let mut block = [0; BLOCK];
    let mut rest = bytes;
    for _ in 0..MAX_CALLS {
        match file.read(&mut block) {
            Ok(0) => return Ok(rest.is_empty()),
            Ok(count) => match rest.strip_prefix(&block[..count]) {
                Some(after) => rest = after,
                None => return Ok(false),
            },
            Err(error) if error.kind() == ErrorKind::Interrupted => {}
            Err(error) => return Err(error),
        }
    }
    Err(ErrorKind::Interrupted.into())
}
