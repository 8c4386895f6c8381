ghost use Rattle.std.specs.Prelude.{◌≡◌, ◌==◌, map, ◌+◌, ◌-◌, ◌^◌, ◌↔◌, ◌<◌, ◌≤◌, false, [], ◌∷◌, ◌++◌, length, IsTrue, IfOk, OnOk, OnErr, IfSome, IfNone, Ok, Some, None, vec_len, slice_range, take, drop};
ghost use Rattle.std.specs.Bool.{OnTrue, OnFalse};
ghost use Rattle.std.specs.Simd.Lanes.{mask_l};
ghost use Rattle.lines.specs.declared.reader.TheConstants.{LOOK_AHEAD};
ghost use Rattle.std.specs.Io.KnownBytes.{IsAtEnd, Consumes, Keeps};
ghost use Rattle.lines.specs.Lines.{HasNoNewline};
ghost use Rattle.lines.specs.Reading.{Reading, fresh, budget, HasLine, first_newline, input_left, SameInput, FindsLine, SkipsLine, StopsInLine, AsksInNeed, SameCalls, HasFailed};

use memchr::memchr;
use std::alloc::{AllocError, Global};
use std::io::{Read, Write};
use std::marker::Model;
use std::simd::prelude::*;

/// The bytes of the longest line, and its newline.
const CAPACITY: usize = 65_536;

/// The calls of `read` that a reader of lines makes at most.
const MAX_CALLS: u64 = 4_294_967_296;

/// So many bytes are looked at in one step.
const LOOK_AHEAD: usize = 32;

/// What the next line is.
#[derive(Clone, Copy, Debug, PartialEq, Eq)]
pub enum Found {
    /// A line of at most 65,535 bytes, which `line` shows.
    Line,
    /// A longer line, which is gone.
    TooLong,
}

/// A call of `read` failed, or there were too many.
#[derive(Clone, Copy, Debug, PartialEq, Eq)]
pub struct ReadFault;

/// A call of `flush` failed.
#[derive(Clone, Copy, Debug, PartialEq, Eq)]
pub struct FlushFault;

/// Reads lines into a buffer that is allocated once.
#[derive(Drop)]
pub struct LineReader {
    buffer: Vec<u8>,
    start: usize,
    end: usize,
    line_start: usize,
    line_end: usize,
    // The offset of the first newline that is pending, or the end.
    newline: usize,
    calls: u64,
    // What the last call of `read` gave: so many bytes, or none where it failed.
    last_read: Option<usize>,
    has_ended: bool,
}

impl Model for LineReader {
    ghost Value = { Reading };

    ghost view = { λ r. record {
      pending = slice_range r.buffer.items r.start r.end;
      ended = r.has_ended;
      calls = r.calls;
      last_read = r.last_read;
      line = slice_range r.buffer.items r.line_start r.line_end;
    } };

    ghost invariant = { λ r. (vec_len r.buffer ≡ 2 ^ 16) × (r.start ≤ r.end) × (r.end ≤ 2 ^ 16)
        × (r.line_start ≤ r.line_end) × (r.line_end ≤ 2 ^ 16) × (r.calls ≤ 2 ^ 32)
        × (r.newline ≡ r.start + first_newline (slice_range r.buffer.items r.start r.end)) };
}

/// Where newlines are among the first bytes, a bit for each of them.
#[inline(always)]
fn newline_bits(bytes: &[u8]) -> u64
    requires { LOOK_AHEAD ≤ length bytes.now }
    ensures small { result < 2 ^ 64 }
    ensures mask { result ≡ mask_l (map (λ b. b == 10) (take LOOK_AHEAD bytes.now)) }
{
    u8x32::from_slice(bytes)
        .simd_eq(u8x32::splat(b'\n'))
        .to_bitmask()
}

/// The offset of the first newline, or the length where there is none.
#[inline(always)]
fn newline_at(bytes: &[u8]) -> usize
    ensures offset { result ≡ first_newline bytes.now }
    ensures within { result ≤ length bytes.now }
{
    // Most lines are short: their newline is found in the first steps.
    let mut seen = 0;
    while bytes.len() - seen >= LOOK_AHEAD {
        let bits = newline_bits(&bytes[seen..]);
        if bits != 0 {
            return seen + bits.trailing_zeros() as usize;
        }
        seen += LOOK_AHEAD;
    }
    match memchr(b'\n', &bytes[seen..]) {
        Some(n) => seen + n,
        None => bytes.len(),
    }
}

/// Makes room behind a range: moves it to the start where it is empty, or ends where the bytes end. Gives its offset.
fn make_room(bytes: &mut [u8], start: usize, end: usize) -> usize
    requires order { start ≤ end }
    requires within { end ≤ length bytes.old }
    requires room { end - start < length bytes.old }
    ensures room { result + (end - start) < length bytes.old }
    ensures same { slice_range bytes.new result (result + (end - start)) ≡ slice_range bytes.old start end }
{
    if start < end && end < bytes.len() {
        return start;
    }
    bytes.copy_within(start..end, 0);
    0
}

/// Calls `read` once, for what lies behind an offset.
fn read_behind<R: Read>(reader: &mut R, bytes: &mut [u8], offset: usize) -> Result<usize, ReadFault>
    requires { offset < length bytes.old }
    ensures within { IfOk result (λ n. offset + n ≤ length bytes.old) }
    ensures prefix { take offset bytes.new ≡ take offset bytes.old }
    ensures ok { IfOk result (λ n. Consumes (R.remaining reader.old) (R.remaining reader.new)
        (slice_range bytes.new offset (offset + n))) }
    ensures ended { IfOk result (λ n. n ≡ 0 → IsAtEnd (R.remaining reader.new)) }
    ensures err { OnErr result (Keeps (R.remaining reader.old) (R.remaining reader.new)) }
{
    match reader.read(&mut bytes[offset..]) {
        Ok(n) => Ok(n),
        Err(_) => Err(ReadFault),
    }
}

/// Makes room behind a range, and calls `read` once for what lies there. Gives the range's offset, too.
fn refill<R: Read>(
    reader: &mut R,
    bytes: &mut [u8],
    start: usize,
    end: usize,
) -> (usize, Result<usize, ReadFault>)
    requires order { start ≤ end }
    requires within { end ≤ length bytes.old }
    requires room { end - start < length bytes.old }
    ensures room { result.0 + (end - start) < length bytes.old }
    ensures same { slice_range bytes.new result.0 (result.0 + (end - start)) ≡ slice_range bytes.old start end }
    ensures within { IfOk result.1 (λ n. result.0 + (end - start) + n ≤ length bytes.old) }
    ensures ok { IfOk result.1 (λ n. Consumes (R.remaining reader.old) (R.remaining reader.new)
        (slice_range bytes.new (result.0 + (end - start)) (result.0 + (end - start) + n))) }
    ensures ended { IfOk result.1 (λ n. n ≡ 0 → IsAtEnd (R.remaining reader.new)) }
    ensures err { OnErr result.1 (Keeps (R.remaining reader.old) (R.remaining reader.new)) }
{
    let offset = make_room(bytes, start, end);
    let read = read_behind(reader, bytes, offset + (end - start));
    (offset, read)
}

impl LineReader {
    /// Takes the memory for all lines, and reads nothing.
    pub fn new(alloc: Global) -> Result<LineReader, AllocError>
        ensures { IfOk result (λ r. r ≡ fresh) }
    {
        Ok(LineReader {
            buffer: Vec::from_slice(alloc, &[0; CAPACITY])?,
            start: 0,
            end: 0,
            line_start: 0,
            line_end: 0,
            newline: 0,
            calls: 0,
            last_read: None,
            has_ended: false,
        })
    }

    /// The line that was found last, without its newline.
    pub fn line(&self) -> &[u8]
        ensures { result.now ≡ self.now.line }
    {
        &self.buffer[self.line_start..self.line_end]
    }

    /// Flushes a writer where `next` may call `read`, which may wait.
    pub fn flush_before_read<W: Write>(&self, writer: &mut W) -> Result<(), FlushFault>
        ensures bytes { Keeps (W.contents writer.old) (W.contents writer.new) }

        // With a whole line at hand nothing is flushed.
        ensures ready { HasLine self.now → writer.new ≡ writer.old }
        ensures needed { OnErr result (HasNoNewline self.now.pending) }
    {
        if !self.has_line() {
            return writer.flush().map_err(|_| FlushFault);
        }
        Ok(())
    }

    /// Finds the next line, if there is one: with the same reader at each call.
    ///
    /// It never calls `read` while a whole line is pending, and 4,294,967,296 times at most over all calls. The fault
    /// comes only where `read` fails, also where it was interrupted, or where it would be called once more. After a
    /// fault nothing more is to be read.
    pub fn next<R: Read>(&mut self, reader: &mut R) -> Result<Option<Found>, ReadFault>
        requires { IsTrue self.old.ended → IsAtEnd (R.remaining reader.old) }
        ensures found { IfOk result (λ found. FindsLine (input_left self.old (R.remaining reader.old))
            (input_left self.new (R.remaining reader.new)) found self.new.line) }
        ensures ended { OnOk result (IsTrue self.new.ended → IsAtEnd (R.remaining reader.new)) }

        // Each line that is found takes something of a budget, so a caller's loop ends.
        ensures spends { IfOk result (λ found. IfSome found (λ _. budget self.new < budget self.old)) }
        ensures calls { self.new.calls ≤ 2 ^ 32 }

        // With a whole line at hand nothing is read, and no call of `read` is made once a whole line has come.
        ensures ready { HasLine self.old → result ≡ Ok (Some Found.Line) }
        ensures unread { HasLine self.old → reader.new ≡ reader.old }
        ensures asks { AsksInNeed self.old (R.remaining reader.old) self.new (R.remaining reader.new) }
        ensures untouched { self.new.calls ≡ self.old.calls → reader.new ≡ reader.old }

        // A fault comes only where a call of `read` failed, or at the bound.
        ensures fault { OnErr result (self.new.calls < 2 ^ 32 → HasFailed self.old self.new) }

        // At a fault no whole line is held, and at most a beginning of the next line is gone.
        ensures within_line { OnErr result (HasNoNewline self.new.pending) }
        ensures unfinished { OnErr result (StopsInLine (input_left self.old (R.remaining reader.old))
            (input_left self.new (R.remaining reader.new))) }
    {
        if self.cut() {
            return Ok(Some(Found::Line));
        }
        self.read_on(reader)
    }

    /// Whether a whole further line was read, so that `next` will not call `read`.
    fn has_line(&self) -> bool
        ensures { IsTrue result ↔ HasLine self.now }
    {
        self.newline().is_some()
    }

    /// Where the first newline is among the bytes that are pending.
    fn newline(&self) -> Option<usize>
        ensures within { IfSome result (λ n. n < length self.now.pending) }
        ensures found { IfSome result (λ n. HasNoNewline (take n self.now.pending)
            × (self.now.pending ≡ take n self.now.pending ++ 10 ∷ drop (n + 1) self.now.pending)) }
        ensures none { IfNone result (HasNoNewline self.now.pending) }
        ensures fits { length self.now.pending ≤ 2 ^ 16 }
        ensures calls { self.now.calls ≤ 2 ^ 32 }
    {
        if self.newline >= self.end {
            return None;
        }
        Some(self.newline - self.start)
    }

    fn pending_len(&self) -> usize
        ensures value { result ≡ length self.now.pending }
        ensures fits { length self.now.pending ≤ 2 ^ 16 }
        ensures calls { self.now.calls ≤ 2 ^ 32 }
    {
        self.end - self.start
    }

    fn has_ended(&self) -> bool
        ensures { result ≡ self.now.ended }
    {
        self.has_ended
    }

    /// Gives the first bytes that are pending as the line, and drops them and the separator.
    fn give(&mut self, len: usize, separator: usize)
        requires { len + separator ≤ length self.old.pending }
        ensures { self.new ≡ record self.old {
          line = take len self.old.pending;
          pending = drop (len + separator) self.old.pending;
        } }
    {
        self.line_start = self.start;
        self.line_end = self.start + len;
        self.start += len + separator;
        self.newline = self.start + newline_at(&self.buffer[self.start..self.end]);
    }

    /// Drops all that is pending.
    fn discard(&mut self)
        ensures { self.new ≡ record self.old { pending = [] } }
    {
        self.start = self.end;
        self.newline = self.end;
    }

    /// Calls `read` once.
    fn fill<R: Read>(&mut self, reader: &mut R) -> Result<(), ReadFault>
        requires room { length self.old.pending < 2 ^ 16 }
        requires goes_on { self.old.ended ≡ false }
        requires none { HasNoNewline self.old.pending }
        ensures same { SameInput (input_left self.old (R.remaining reader.old))
            (input_left self.new (R.remaining reader.new)) }
        ensures counted { OnOk result (self.new.calls ≡ self.old.calls + 1) }
        ensures calls { self.new.calls ≤ 2 ^ 32 }
        ensures fits { length self.new.pending ≤ 2 ^ 16 }
        ensures ended { IsTrue self.new.ended → IsAtEnd (R.remaining reader.new) }
        ensures err { OnErr result (self.new.ended ≡ self.old.ended) }
        ensures asks { AsksInNeed self.old (R.remaining reader.old) self.new (R.remaining reader.new) }
        ensures untouched { self.new.calls ≡ self.old.calls → reader.new ≡ reader.old }
        ensures within_line { OnErr result (HasNoNewline self.new.pending) }
        ensures fault { OnErr result (self.new.calls < 2 ^ 32 → HasFailed self.old self.new) }
    {
        if self.calls >= MAX_CALLS {
            return Err(ReadFault);
        }
        let len = self.end - self.start;
        let (start, read) = refill(reader, &mut self.buffer, self.start, self.end);
        self.start = start;
        self.end = start + len;
        self.newline = self.end;
        self.line_start = 0;
        self.line_end = 0;
        self.calls += 1;
        self.last_read = None;
        let n = match read {
            Ok(n) => n,
            Err(fault) => return Err(fault),
        };
        self.last_read = Some(n);
        self.has_ended = n == 0;
        self.newline = self.end + newline_at(&self.buffer[self.end..self.end + n]);
        self.end += n;
        Ok(())
    }

    /// Gives the pending bytes up to a newline, where there is one.
    fn cut(&mut self) -> bool
        ensures found { OnTrue result (HasNoNewline self.new.line
            × (self.old.pending ≡ self.new.line ++ 10 ∷ self.new.pending)) }
        ensures others { SameCalls self.old self.new }
        ensures none { OnFalse result (HasNoNewline self.old.pending × (self.new ≡ self.old)) }
        ensures short { OnTrue result (length self.new.line < 2 ^ 16) }
        ensures calls { self.new.calls ≤ 2 ^ 32 }
    {
        match self.newline() {
            Some(len) => {
                self.give(len, 1);
                true
            }
            None => false,
        }
    }

    /// Drops the line, up to its newline or the end.
    fn skip<R: Read>(&mut self, reader: &mut R) -> Result<(), ReadFault>
        requires ended { IsTrue self.old.ended → IsAtEnd (R.remaining reader.old) }
        requires some { 0 < length self.old.pending }
        ensures skipped { OnOk result (SkipsLine (input_left self.old (R.remaining reader.old))
            (input_left self.new (R.remaining reader.new))) }
        ensures ended { OnOk result (IsTrue self.new.ended → IsAtEnd (R.remaining reader.new)) }
        ensures spends { OnOk result (budget self.new < budget self.old) }
        ensures calls { self.new.calls ≤ 2 ^ 32 }
        ensures asks { AsksInNeed self.old (R.remaining reader.old) self.new (R.remaining reader.new) }
        ensures untouched { self.new.calls ≡ self.old.calls → reader.new ≡ reader.old }
        ensures fault { OnErr result (self.new.calls < 2 ^ 32 → HasFailed self.old self.new) }
        ensures within_line { OnErr result (HasNoNewline self.new.pending) }
        ensures unfinished { OnErr result (StopsInLine (input_left self.old (R.remaining reader.old))
            (input_left self.new (R.remaining reader.new))) }
    {
        while !self.cut() {
            self.discard();
            if self.has_ended() {
                return Ok(());
            }
            self.fill(reader)?;
        }
        Ok(())
    }

    /// Finds the next line where none is pending.
    fn read_on<R: Read>(&mut self, reader: &mut R) -> Result<Option<Found>, ReadFault>
        requires ended { IsTrue self.old.ended → IsAtEnd (R.remaining reader.old) }
        requires none { HasNoNewline self.old.pending }
        ensures found { IfOk result (λ found. FindsLine (input_left self.old (R.remaining reader.old))
            (input_left self.new (R.remaining reader.new)) found self.new.line) }
        ensures ended { OnOk result (IsTrue self.new.ended → IsAtEnd (R.remaining reader.new)) }
        ensures spends { IfOk result (λ found. IfSome found (λ _. budget self.new < budget self.old)) }
        ensures calls { self.new.calls ≤ 2 ^ 32 }
        ensures asks { AsksInNeed self.old (R.remaining reader.old) self.new (R.remaining reader.new) }
        ensures untouched { self.new.calls ≡ self.old.calls → reader.new ≡ reader.old }
        ensures fault { OnErr result (self.new.calls < 2 ^ 32 → HasFailed self.old self.new) }
        ensures within_line { OnErr result (HasNoNewline self.new.pending) }
        ensures unfinished { OnErr result (StopsInLine (input_left self.old (R.remaining reader.old))
            (input_left self.new (R.remaining reader.new))) }
    {
        loop {
            let len = self.pending_len();
            if len == CAPACITY {
                self.skip(reader)?;
                return Ok(Some(Found::TooLong));
            }
            if self.has_ended() {
                if len == 0 {
                    return Ok(None);
                }
                self.give(len, 0);
                return Ok(Some(Found::Line));
            }
            self.fill(reader)?;
            if self.cut() {
                return Ok(Some(Found::Line));
            }
        }
    }
}
