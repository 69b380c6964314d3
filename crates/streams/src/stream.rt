//! A stream.

ghost use Rattle.std.specs.Prelude.{◌≡◌, Err, IfSome, MatchResult, OnOk, false};
ghost use Rattle.streams.specs.Streams.{HasBeginning, HasWhole, IsSaid, stream_of};

use answer_lines::{PrintFault, print_bytes};
use std::alloc::Global;
use std::fmt::Display;
use std::io::{ErrorKind, Write};
use std::marker::Model;
use std::{format, io};

/// The writer of a stream refused a write.
#[derive(Clone, Copy)]
pub struct Refused;

/// A writer, and whether it has refused a write so far. Contracts see the bytes that the writer holds, if they are known, and that.
#[derive(Drop)]
pub struct Stream<W: Write + Drop> {
    writer: W,
    has_refused: bool,
}

impl<W: Write + Drop> Model for Stream<W> {
    ghost use Rattle.streams.specs.Streams.{StreamData, stream_of};

    ghost Value = { StreamData };

    ghost view = { λ s. stream_of (W.contents s.writer) s.has_refused };
}

impl<W: Write + Drop> Stream<W> {
    /// The stream of a writer, which has refused nothing so far.
    pub fn new(writer: W) -> Stream<W>
        ensures { result ≡ stream_of (W.contents writer) false }
    {
        Stream {
            writer,
            has_refused: false,
        }
    }

    /// The writer, given back.
    pub fn into_writer(self) -> W
        ensures { W.contents result ≡ self.contents }
    {
        self.writer
    }

    /// Whether the writer has refused a write.
    pub fn has_refused(&self) -> bool
        ensures { result ≡ self.now.has_refused }
    {
        self.has_refused
    }

    /// Prints bytes, and flushes. It takes no memory. If the writer refuses a write, a beginning of the bytes stands there.
    pub fn print_bytes(&mut self, bytes: &[u8]) -> Result<(), Refused>
        ensures { MatchResult result (λ _. HasWhole bytes.now self.old self.new) (λ _. HasBeginning bytes.now self.old self.new) }
    {
        match print_bytes(bytes, &mut self.writer) {
            Ok(()) => Ok(()),
            Err(PrintFault::Refused) => {
                self.has_refused = true;
                Err(Refused)
            }
            Err(PrintFault::Memory) => unreachable!(),
        }
    }

    /// Prints a text, and flushes. If the writer refuses a write, a beginning of the text stands there; if memory runs out, nothing does.
    pub fn print<T: Display + Drop>(&mut self, alloc: Global, text: T) -> Result<(), PrintFault>
        ensures whole { OnOk result (IfSome (T.output text) (λ bytes. HasWhole bytes self.old self.new)) }
        ensures refused { result ≡ Err PrintFault.Refused → IfSome (T.output text) (λ bytes. HasBeginning bytes self.old self.new) }
        ensures memory { result ≡ Err PrintFault.Memory → self.new ≡ self.old }
    {
        let text = format!(in alloc; "{text}")?;
        match self.print_bytes(text.as_bytes()) {
            Ok(()) => Ok(()),
            Err(Refused) => Err(PrintFault::Refused),
        }
    }

    /// Says a text, which takes no memory. What stands there if the writer refuses a write isn't known.
    pub fn say<T: Display + Drop>(&mut self, text: T)
        ensures { IfSome (T.output text) (λ bytes. IsSaid bytes self.old self.new) }
    {
        if write!(self.writer, "{text}").is_err() {
            self.has_refused = true;
        }
    }
}

impl<W: Write + Drop> Write for Stream<W> {
    ghost contents = { λ s. s.contents };

    fn write(&mut self, buf: &[u8]) -> io::Result<usize> {
        let written = self.writer.write(buf);
        let refused = match &written {
            Ok(count) => *count == 0 && !buf.is_empty(),
            Err(error) => error.kind() != ErrorKind::Interrupted,
        };
        if refused {
            self.has_refused = true;
        }
        written
    }

    fn flush(&mut self) -> io::Result<()> {
        let flushed = self.writer.flush();
        if flushed.is_err() {
            self.has_refused = true;
        }
        flushed
    }
}
