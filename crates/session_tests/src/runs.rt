use map_store::MemoryStore;
use session_run::{RunFault, Summary, run};
use std::alloc::{AllocError, Global};
use std::io;
use std::io::{BufWriter, Read, Write};
use std::test::Fail;

mod faults;
mod flushes;
mod stores;

pub use stores::MAP;

/// More than a test's calls, and more than its bytes.
const MANY: u32 = 1_000_000;

const WHOLE: usize = 1_000_000;

pub const ONE: &str = "new town 4 3 16 16 town.tsj => ok 0/0 clean 0
stamp 1 1 1 2 5,6 => ok 1/1 dirty 0
tile 1 2 1 => tile 6 ---- 1 5
undo => ok 0/1 clean 0
tile 1 2 1 => tile 0
redo => ok 1/1 dirty 0
redo => no 22 nothing to redo";

pub const SEVERAL: &str = "new town 4 3 16 16 town.tsj => ok 0/0 clean 0
new city 2 2 16 16 c.tsj => ok 0/0 clean 0
list => docs town *city
close city => ok none clean
status => ok none clean
undotext => text
undo => no 10 no active document
use town => ok 0/0 clean 0
stamp 1 0 0 1 5 => ok 1/1 dirty 0
close town => no 13 unsaved changes
use x => no 12 no such document
discard town => ok none clean
list => docs";

/// Gives its bytes, at most `step` a call, and fails at the call that has `calls_left` calls before it.
#[derive(Drop)]
struct Source<'a> {
    bytes: &'a [u8],
    step: usize,
    calls_left: u32,
}

impl<'a> Read for Source<'a> {
    fn read(&mut self, buf: &mut [u8]) -> io::Result<usize> {
        if self.calls_left == 0 {
            return Err(io::Error::from(io::ErrorKind::Interrupted));
        }
        self.calls_left -= 1;
        let n = self.step.min(self.bytes.len()).min(buf.len());
        let (prefix, rest) = self.bytes.split_at(n);
        buf[..n].copy_from_slice(prefix);
        self.bytes = rest;
        Ok(n)
    }
}

/// Takes at most `step` bytes a call, and fails at the write that has `writes_left` writes before it and at the
/// flush that has `flushes_left` flushes before it.
#[derive(Drop)]
struct Sink {
    taken: Vec<u8>,
    step: usize,
    writes_left: u32,
    flushes_left: u32,
}

impl Sink {
    fn new(alloc: Global, step: usize, writes_left: u32, flushes_left: u32) -> Sink {
        Sink {
            taken: Vec::new(alloc),
            step,
            writes_left,
            flushes_left,
        }
    }

    fn text(&self) -> &str {
        str::from_utf8(&self.taken).unwrap_or("not UTF-8")
    }
}

impl Write for Sink {
    fn write(&mut self, buf: &[u8]) -> io::Result<usize> {
        if self.writes_left == 0 {
            return Err(io::Error::from(io::ErrorKind::BrokenPipe));
        }
        self.writes_left -= 1;
        let n = self.step.min(buf.len());
        self.taken.extend_from_slice(&buf[..n])?;
        Ok(n)
    }

    fn flush(&mut self) -> io::Result<()> {
        if self.flushes_left == 0 {
            return Err(io::Error::from(io::ErrorKind::BrokenPipe));
        }
        self.flushes_left -= 1;
        Ok(())
    }
}

/// What a sink took of a run, and behind it how the run ended, in words.
fn told_of(
    alloc: Global,
    sink: &Sink,
    end: &Result<Summary, RunFault>,
) -> Result<String, AllocError> {
    let text = sink.text();
    match end {
        Ok(_) => format!(in alloc; "{text}done"),
        Err(fault) => format!(in alloc; "{text}{fault}"),
    }
}

/// What a sink takes of a run, and how the run ends. The sink may stand behind a buffer.
fn taken(
    alloc: Global,
    mut source: Source<'_>,
    mut sink: Sink,
    has_buffer: bool,
) -> Result<String, AllocError> {
    let mut store = MemoryStore::new(alloc);
    if has_buffer {
        let mut writer = BufWriter::new(alloc, sink).map_err(|_| AllocError)?;
        let end = run(alloc, &mut source, &mut writer, &mut store, 0);
        return told_of(alloc, writer.get_ref(), &end);
    }
    let end = run(alloc, &mut source, &mut sink, &mut store, 0);
    told_of(alloc, &sink, &end)
}

fn push_line(text: &mut String, line: &str) -> Result<(), AllocError> {
    text.push_str(line)?;
    text.push('\n')
}

/// A session and its replies.
#[derive(Drop)]
struct Script {
    session: String,
    replies: String,
}

/// The script whose pairs are `line => reply`, or a line alone where it gets no reply.
fn read_script(alloc: Global, pairs: &str) -> Result<Script, Fail> {
    let mut script = Script {
        session: String::new(alloc),
        replies: String::new(alloc),
    };
    for pair in pairs.lines() {
        let (line, reply) = pair.split_once(" => ").unwrap_or((pair, ""));
        push_line(&mut script.session, line)?;
        if !reply.is_empty() {
            push_line(&mut script.replies, reply)?;
        }
    }
    Ok(script)
}

/// How many lines of a session end within its first bytes.
fn whole_lines(session: &[u8], count: usize) -> usize {
    session
        .iter()
        .take(count)
        .filter(|byte| **byte == b'\n')
        .count()
}

/// The first of some replies.
fn first_replies(replies: &str, count: usize) -> &str {
    let len = replies
        .split_inclusive('\n')
        .take(count)
        .fold(0usize, |len, reply| len.saturating_add(reply.len()));
    replies.get(..len).unwrap_or(replies)
}

/// The bytes of a session, at most `step` a read, of which the one that has `calls_left` before it fails.
fn source_of(script: &Script, step: usize, calls_left: u32) -> Source<'_> {
    Source {
        bytes: script.session.as_bytes(),
        step,
        calls_left,
    }
}
