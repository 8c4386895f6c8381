ghost use Rattle.std.specs.Prelude.{◌≡◌};

use map_store::Reason;
use std::io;
use std::io::{Read, Write};

/// A stream that keeps the system's reason why its last failed call has failed.
#[derive(Drop)]
pub struct Watched<T> {
    stream: T,
    reason: Option<Reason>,
}

impl<T> Watched<T> {
    /// A stream of which no call has failed yet.
    pub fn new(stream: T) -> Watched<T> {
        Watched {
            stream,
            reason: None,
        }
    }

    /// Why the last failed call has failed; none where none has.
    pub fn reason(&self) -> Option<&Reason> {
        self.reason.as_ref()
    }

    // Keeps the reason of a call that has failed, and gives an error of its kind.
    fn keep(&mut self, error: io::Error) -> io::Error
        ensures { self.new.stream ≡ self.old.stream }
    {
        let kind = error.kind();
        self.reason = Some(Reason::of(error));
        kind.into()
    }
}

impl<T: Read> Read for Watched<T> {
    ghost remaining = { λ w. T.remaining w.stream };

    fn read(&mut self, buf: &mut [u8]) -> io::Result<usize> {
        match self.stream.read(buf) {
            Ok(count) => Ok(count),
            Err(error) => Err(self.keep(error)),
        }
    }
}

impl<T: Write> Write for Watched<T> {
    ghost contents = { λ w. T.contents w.stream };

    fn write(&mut self, buf: &[u8]) -> io::Result<usize> {
        match self.stream.write(buf) {
            Ok(count) => Ok(count),
            Err(error) => Err(self.keep(error)),
        }
    }

    fn flush(&mut self) -> io::Result<()> {
        match self.stream.flush() {
            Ok(()) => Ok(()),
            Err(error) => Err(self.keep(error)),
        }
    }
}
