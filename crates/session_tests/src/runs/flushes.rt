use super::{
    MANY, ONE, SEVERAL, Script, Sink, Source, WHOLE, first_replies, read_script, source_of, taken,
    whole_lines,
};
use map_store::MemoryStore;
use session_run::run;
use std::alloc::Global;
use std::cell::Cell;
use std::io;
use std::io::{BufWriter, Read, Write};
use std::test::Fail;

/// How much was written where each of a session's flushes fails in turn, and at last none: whole replies each time.
fn lengths_at_flushes(alloc: Global, script: &Script, step: usize) -> Result<Vec<usize>, Fail> {
    let mut lengths = Vec::new(alloc);
    for flushes_left in 0..100u32 {
        let sink = Sink::new(alloc, WHOLE, MANY, flushes_left);
        let told = taken(alloc, source_of(script, step, MANY), sink, false)?;
        let Some(text) = told.strip_suffix("write failed") else {
            lengths.push(told.len())?;
            break;
        };
        let is_whole = text.is_empty() || text.ends_with('\n');
        if !is_whole || !script.replies.starts_with(text) {
            return Ok(Vec::new(alloc));
        }
        lengths.push(text.len())?;
    }
    Ok(lengths)
}

// Each flush but the first comes behind whole replies, and the last behind all.
#[test]
fn flush_faults_come_behind_whole_replies(rt: HostRuntime) -> Result<(), Fail> {
    let alloc = rt.alloc();
    for pairs in [ONE, SEVERAL] {
        let script = read_script(alloc, pairs)?;
        let all = script.replies.len();
        for step in [1, 50, WHOLE] {
            let lengths = lengths_at_flushes(alloc, &script, step)?;
            assert!(rt; 3 <= lengths.len() && lengths.len() < 100, "by {step}");
            assert_eq!(rt; lengths.first(), Some(&0), "by {step}");
            // The last fault, and then the whole run, behind which stands `done`.
            let last = [all, all.saturating_add(4)];
            assert!(rt; lengths.ends_with(&last), "by {step}");
        }
    }
    Ok(())
}

/// Counts the bytes that it takes, and shows how many of them it had taken at its last flush.
#[derive(Drop)]
struct Counter<'a> {
    bytes: usize,
    flushed: &'a Cell<usize>,
}

impl<'a> Write for Counter<'a> {
    fn write(&mut self, buf: &[u8]) -> io::Result<usize> {
        self.bytes = self.bytes.saturating_add(buf.len());
        Ok(buf.len())
    }

    fn flush(&mut self) -> io::Result<()> {
        self.flushed.set(self.bytes);
        Ok(())
    }
}

/// A source that notes, as each read begins, what the counter shows.
#[derive(Drop)]
struct Onlooker<'a> {
    source: Source<'a>,
    flushed: &'a Cell<usize>,
    seen: Vec<usize>,
}

impl<'a> Read for Onlooker<'a> {
    fn read(&mut self, buf: &mut [u8]) -> io::Result<usize> {
        self.seen.push(self.flushed.get())?;
        self.source.read(buf)
    }
}

#[test]
fn each_read_finds_all_replies_flushed(rt: HostRuntime) -> Result<(), Fail> {
    let alloc = rt.alloc();
    let script = read_script(alloc, ONE)?;
    let bytes = script.session.as_bytes();
    for step in [1, 7, 65_536] {
        // The replies to all lines that were given whole are due.
        let mut due = Vec::new(alloc);
        for read in 0..=bytes.len().div_ceil(step) {
            let lines = whole_lines(bytes, read.saturating_mul(step));
            due.push(first_replies(&script.replies, lines).len())?;
        }
        for has_buffer in [false, true] {
            let flushed = &Cell::new(0);
            let mut reader = Onlooker {
                source: Source {
                    bytes,
                    step,
                    calls_left: MANY,
                },
                flushed,
                seen: Vec::new(alloc),
            };
            let mut writer = Counter { bytes: 0, flushed };
            let mut store = MemoryStore::new(alloc);
            if has_buffer {
                let mut writer = BufWriter::new(alloc, writer)?;
                run(alloc, &mut reader, &mut writer, &mut store, 0)?;
            } else {
                run(alloc, &mut reader, &mut writer, &mut store, 0)?;
            }
            assert_eq!(rt; reader.seen.as_slice(), due.as_slice(), "by {step}");
        }
    }
    Ok(())
}
