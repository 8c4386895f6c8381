// What is copied into a caller's buffer.
ghost use Rattle.std.specs.Prelude.{◌≡◌, length};
ghost use Rattle.std.specs.Option.{option_copied, option_map};
ghost use Rattle.session.specs.Replies.{reply_text};
ghost use Rattle.memory_editor.specs.Buffers.{filled, written};
ghost use Rattle.memory_editor.specs.Parts.{active_map};
ghost use Rattle.roskevad_c.specs.Answers.{size_of, GivesOutline};

use crate::answers::{NO_MEMORY, NONE};
use memory_editor::MemoryEditor;

/// Copies a text where the buffer has room for all of it, and gives its size.
pub fn copy_text(text: &[u8], buffer: &mut [u8]) -> usize
    ensures size { result ≡ length text.now }
    ensures copied { buffer.new ≡ written text.now buffer.old }
{
    if text.len() <= buffer.len() {
        let (front, _) = buffer.split_at_mut(text.len());
        front.copy_from_slice(text);
    }
    text.len()
}

/// Copies bytes where the buffer has room for all of them, and gives their size, or `NONE` where there are none to copy.
pub fn copy_bytes(bytes: Option<&[u8]>, buffer: &mut [u8]) -> usize
    ensures size { result ≡ size_of (option_copied bytes.entry) }
    ensures copied { buffer.new ≡ filled (option_copied bytes.entry) buffer.old }
{
    match bytes {
        Some(bytes) => copy_text(bytes, buffer),
        None => NONE,
    }
}

/// Copies the text of the reply to the last line where the buffer has room for all of it, and gives its size, or `NONE` where there
/// is no reply.
pub fn copy_reply(boxed: &mut MemoryEditor, buffer: &mut [u8]) -> usize
    ensures unchanged { boxed.new ≡ boxed.old }
    ensures size { result ≡ size_of (option_map reply_text boxed.old.reply) }
    ensures copied { buffer.new ≡ filled (option_map reply_text boxed.old.reply) buffer.old }
{
    match boxed.copy_reply(buffer) {
        Some(size) => size,
        None => NONE,
    }
}

/// Copies the outline of the active document's map where the buffer has room for all of it, and gives its size, `NONE` where no
/// document is active, or `NO_MEMORY`.
pub fn copy_outline(boxed: &MemoryEditor, buffer: &mut [u8]) -> usize
    ensures { GivesOutline (active_map boxed.now.machine) result buffer.old buffer.new }
{
    match boxed.outline() {
        Ok(Some(outline)) => copy_text(outline.as_slice(), buffer),
        Ok(None) => NONE,
        Err(_) => NO_MEMORY,
    }
}
