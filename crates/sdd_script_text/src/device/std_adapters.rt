//! Sources and sinks over std's readers and writers.

ghost use Rattle.std.specs.Prelude.{◌≡◌};

use super::{Fault, Sink, Source};
use std::io;

/// A source over one of std's readers. Each error of the reader is a failure.
#[derive(Debug, Drop)]
pub struct Reader<R> {
    inner: R,
    failures: u64,
}

impl<R: io::Read> Reader<R> {
    pub fn new(inner: R) -> Reader<R>
        ensures remaining { ⟦<Reader<R> as Source>⟧.remaining result ≡ R.remaining inner }
        ensures failures { ⟦<Reader<R> as Source>⟧.failures result ≡ 0 }
    {
        Reader { inner, failures: 0 }
    }

    /// How many reads failed so far, modulo 2^64.
    pub fn failures(&self) -> u64
        ensures { result ≡ ⟦<Reader<R> as Source>⟧.failures self.now }
    {
        self.failures
    }
}

impl<R: io::Read> Source for Reader<R> {
    ghost use Rattle.sdd_script_text.specs.Adapters.{reader_inner, reader_failures};

    ghost remaining = { λ reader. R.remaining (reader_inner reader) };

    ghost failures = { reader_failures };

    fn read(&mut self, buffer: &mut [u8]) -> Result<usize, Fault> {
        match self.inner.read(buffer) {
            Ok(count) => Ok(count),
            Err(_) => {
                self.failures = self.failures.wrapping_add(1);
                Err(Fault)
            }
        }
    }
}

/// A sink over one of std's writers. Each error of the writer is a failure, and so is a write that takes no byte of
/// some.
#[derive(Debug, Drop)]
pub struct Writer<W> {
    inner: W,
    failures: u64,
}

impl<W: io::Write> Writer<W> {
    pub fn new(inner: W) -> Writer<W>
        ensures contents { ⟦<Writer<W> as Sink>⟧.contents result ≡ W.contents inner }
        ensures failures { ⟦<Writer<W> as Sink>⟧.failures result ≡ 0 }
    {
        Writer { inner, failures: 0 }
    }

    /// How many writes failed so far, modulo 2^64.
    pub fn failures(&self) -> u64
        ensures { result ≡ ⟦<Writer<W> as Sink>⟧.failures self.now }
    {
        self.failures
    }
}

impl<W: io::Write> Sink for Writer<W> {
    ghost use Rattle.sdd_script_text.specs.Adapters.{writer_inner, writer_failures};

    ghost contents = { λ writer. W.contents (writer_inner writer) };

    ghost failures = { writer_failures };

    fn write(&mut self, bytes: &[u8]) -> Result<usize, Fault> {
        match self.inner.write(bytes) {
            Ok(count) if count > 0 || bytes.is_empty() => Ok(count),
            _ => {
                self.failures = self.failures.wrapping_add(1);
                Err(Fault)
            }
        }
    }
}
