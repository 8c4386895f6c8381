// Many lines in one call.
ghost use Rattle.std.specs.Prelude.{◌≡◌, ◌<◌, ◌≤◌, ◌++◌, ◌∷◌, [], true, false, IsTrue, drop, length};
ghost use Rattle.std.specs.Option.{option_map};
ghost use Rattle.lines.specs.Lines.{lines_of};
ghost use Rattle.session.specs.Replies.{reply_text};
ghost use Rattle.memory_editor.specs.Buffers.{filled, size_within, written};
ghost use Rattle.memory_editor.specs.ManyLines.{Ends, RunsLines, is_refusal, reply_bytes};
ghost use Rattle.memory_editor.specs.Parts.{StepsTo};

use crate::lines_done::LinesDone;
use crate::memory_editor::MemoryEditor;
use memchr::memchr;

// The first line of some bytes, without its newline, and how many bytes it takes with it.
fn first_line(bytes: &[u8]) -> (&[u8], usize)
    requires { 0 < length bytes.now }
    ensures cut { lines_of bytes.now ≡ result.0.now ∷ lines_of (drop result.1 bytes.now) }
    ensures some { 0 < result.1 }
    ensures within { result.1 ≤ length bytes.now }
{
    match memchr(b'\n', bytes) {
        Some(at) => (&bytes[..at], at + 1),
        None => (bytes, bytes.len()),
    }
}

// Copies a body to where it goes. Most replies have none, and then nothing is called.
#[inline(always)]
fn copy_body(body: &[u8], place: &mut [u8])
    requires { length place.old ≡ length body.now }
    ensures { place.new ≡ body.now }
{
    if !body.is_empty() {
        place.copy_from_slice(body);
    }
}

// Puts a head, a body and an end at the front of a buffer, where it has room for all of them. Gives their size.
#[inline(always)]
fn put_pieces(head: &[u8], body: &[u8], end: &[u8], buffer: &mut [u8]) -> usize
    requires head { length head.now ≤ 512 }
    requires end { length end.now ≤ 1 }
    ensures size { result ≡ length (head.now ++ body.now ++ end.now) }
    ensures put { buffer.new ≡ written (head.now ++ body.now ++ end.now) buffer.old }
{
    let size = head.len() + body.len() + end.len();
    if size <= buffer.len() {
        let (prefix, rest) = buffer.split_at_mut(head.len());
        prefix.copy_from_slice(head);
        let (middle, rest) = rest.split_at_mut(body.len());
        copy_body(body, middle);
        let (last, _) = rest.split_at_mut(end.len());
        last.copy_from_slice(end);
    }
    size
}

// Whether no further line is to be done.
fn ends(bytes: &[u8], stops: bool, done: LinesDone) -> bool
    requires { done.bytes ≤ length bytes.now }
    ensures ended { IsTrue result → Ends stops bytes.now done }
    ensures left { result ≡ false → done.bytes < length bytes.now }
    ensures room { result ≡ false → done.has_room ≡ true }
    ensures accepted { result ≡ false → IsTrue stops → done.is_refused ≡ false }
{
    if done.bytes == bytes.len() {
        return true;
    }
    if !done.has_room {
        return true;
    }
    if stops {
        return done.is_refused;
    }
    false
}

impl MemoryEditor {
    // Whether the reply to the last line is a refusal.
    fn is_refused(&self) -> bool
        ensures { result ≡ is_refusal self.now.reply }
    {
        match self.reply() {
            Some(reply) => reply.refusal().is_some(),
            None => false,
        }
    }

    /// Copies the text of the reply to the last line to the front of a buffer, where it has room for all of it. Gives its size, and
    /// `None` where that line was quiet or there was none.
    pub fn copy_reply(&mut self, buffer: &mut [u8]) -> Option<usize>
        ensures unchanged { self.new ≡ self.old }
        ensures size { result ≡ option_map (λ reply. length (reply_text reply)) self.old.reply }
        ensures copied { buffer.new ≡ filled (option_map reply_text self.old.reply) buffer.old }
    {
        let Some(reply) = &self.reply else {
            return None;
        };
        self.head.clear();
        reply.write_into(&mut self.head);
        let head = self.head.as_str().as_bytes();
        Some(put_pieces(head, reply.body(), b"", buffer))
    }

    // Puts the reply to the last line and a newline at the front of a buffer, where it has room for them, and gives their size;
    // nothing where that line was quiet.
    fn put_reply(&mut self, buffer: &mut [u8]) -> Option<usize>
        ensures unchanged { self.new ≡ self.old }
        ensures size { result ≡ size_within (reply_bytes self.old.reply) buffer.old }
        ensures put { buffer.new ≡ written (reply_bytes self.old.reply) buffer.old }
    {
        let Some(reply) = &self.reply else {
            return Some(0);
        };
        self.head.clear();
        reply.write_into(&mut self.head);
        let room = buffer.len();
        let head = self.head.as_str().as_bytes();
        let size = put_pieces(head, reply.body(), b"\n", buffer);
        if size <= room { Some(size) } else { None }
    }

    // Does a line, the first one of a call or a further one, and puts the reply to it and a newline at the front of a buffer, where
    // it has room for them. Gives their size.
    fn run_line(&mut self, line: &[u8], is_first: bool, replies: &mut [u8]) -> Option<usize>
        ensures step { StepsTo line.now self.old self.new }
        ensures size { result ≡ size_within (reply_bytes self.new.reply) replies.old }
        ensures put { replies.new ≡ written (reply_bytes self.new.reply) replies.old }
    {
        if is_first {
            self.listen_anew();
        } else {
            self.listen_on(line);
        }
        self.hear(line);
        self.look_at_word(line);
        self.put_reply(replies)
    }

    /// Does the lines of some bytes, one after another, as `step` does each, and puts the replies to those that are not quiet into
    /// a buffer, each with a newline. The bytes are cut at newlines; a last line without one counts where it has a byte.
    ///
    /// It ends at the end of the bytes; behind the first line that is refused, where that stops; and behind a line whose reply has
    /// no room in what is left of the buffer. That line is done, and `reply` has its reply.
    pub fn run_lines(&mut self, bytes: &[u8], stops: bool, replies: &mut [u8]) -> LinesDone
        ensures { RunsLines stops bytes.now replies.old self.old result self.new replies.new }
    {
        let mut done = LinesDone::none();
        'lines: loop {
            if ends(bytes, stops, done) {
                return done;
            }
            let (line, taken) = first_line(&bytes[done.bytes..]);
            let is_first = done.lines == 0;
            let put = self.run_line(line, is_first, &mut replies[done.replies..]);
            done = done.with_line(taken, self.is_refused(), put);
        }
    }
}
