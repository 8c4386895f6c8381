// Where a report is written.
use std::alloc::AllocError;
use std::fmt::Display;
use std::io::{self, Write};

/// Where a report is written. Behind a fault nothing more is written, and the end tells it: so no part of a report ends early,
/// which would make its proof a long one.
#[derive(Drop)]
pub struct Output<'a, W> {
    to: &'a mut W,
    end: io::Result<()>,
}

impl<'a, W: Write> Output<'a, W> {
    /// Nothing is written yet.
    pub fn new(to: &'a mut W) -> Output<'a, W> {
        Output { to, end: Ok(()) }
    }

    /// Writes a text.
    pub fn text(&mut self, text: &str) {
        self.bytes(text.as_bytes());
    }

    /// Writes bytes.
    pub fn bytes(&mut self, bytes: &[u8]) {
        if self.end.is_ok() {
            self.end = self.to.write_all(bytes);
        }
    }

    /// Writes a text, and a value behind it.
    pub fn value<D: Display>(&mut self, before: &str, value: &D) {
        if self.end.is_ok() {
            self.end = write!(self.to, "{before}{value}");
        }
    }

    /// Writes a text, and another one in quotes behind it.
    pub fn quoted(&mut self, before: &str, text: &str) {
        if self.end.is_ok() {
            self.end = write!(self.to, "{before}{text:?}");
        }
    }

    /// Takes over what came of a call: a fault stands for the first one if there was none.
    pub fn note(&mut self, end: io::Result<()>) {
        if self.end.is_ok() {
            self.end = end;
        }
    }

    /// There was no memory for what is written next.
    pub fn lose(&mut self) {
        self.note(Err(AllocError.into()));
    }

    /// The first fault.
    pub fn end(self) -> io::Result<()> {
        let Output { to: _, end } = self;
        end
    }
}
