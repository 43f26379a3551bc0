//! Source and sink over the readers and writers of std.
ghost use Rattle.std.specs.Prelude.{◌≡◌};
ghost use Rattle.std.specs.Io.{ReadsAtMost, WritesAtMost};
ghost use Rattle.std.specs.Io.KnownBytes.{ReadConsumes, WriteAppends};

use crate::failed::Failed;
use crate::sink::Sink;
use crate::source::Source;
use std::io::{self, ErrorKind, Read, Write};

// How often a call that a signal interrupts is made again, before that is a fault.
const TRIES: u32 = 1_000;

// Reads once, and again where a signal interrupted that.
#[tactic(auto, using(crate::proofs::Interrupted::keeps_keeps, crate::proofs::Interrupted::keeps_reads))]
fn read_through<R: Read>(reader: &mut R, buf: &mut [u8]) -> io::Result<usize>
    ensures bound { ReadsAtMost result buf.new }
    ensures bytes { ReadConsumes (R.remaining reader.old) (R.remaining reader.new) result buf.new }
{
    for _ in 1..TRIES {
        match reader.read(buf) {
            Err(e) if e.kind() == ErrorKind::Interrupted => {}
            ended => return ended,
        }
    }
    reader.read(buf)
}

// Writes once, and again where a signal interrupted that.
#[tactic(auto, using(crate::proofs::Interrupted::keeps_keeps, crate::proofs::Interrupted::keeps_writes))]
fn write_through<W: Write>(writer: &mut W, piece: &[u8]) -> io::Result<usize>
    ensures bound { WritesAtMost result piece.now }
    ensures bytes { WriteAppends (W.contents writer.old) (W.contents writer.new) result piece.now }
{
    for _ in 1..TRIES {
        match writer.write(piece) {
            Err(e) if e.kind() == ErrorKind::Interrupted => {}
            ended => return ended,
        }
    }
    writer.write(piece)
}

/// A source over a reader. It tells what the reader tells: one over standard input tells nothing. A read
/// that a signal interrupts is made again, up to 1,000 times; one that fails is a fault.
#[derive(Drop)]
pub struct StdSource<R> {
    reader: R,
    faults: u64,
}

impl<R: Read> StdSource<R> {
    /// A source of what the reader gives, with no fault so far.
    pub fn new(reader: R) -> StdSource<R>
        ensures left { ⟦<StdSource<R> as Source>⟧.left result ≡ R.remaining reader }
        ensures faults { ⟦<StdSource<R> as Source>⟧.faults result ≡ 0 }
    {
        StdSource { reader, faults: 0 }
    }
}

impl<R: Read> Source for StdSource<R> {
    ghost left = { λ s. R.remaining s.reader };

    ghost faults = { λ s. s.faults };

    ghost is_steady = { λ _. ⊥ };

    fn take(&mut self, buf: &mut [u8]) -> Result<usize, Failed> {
        if let Ok(count) = read_through(&mut self.reader, buf) {
            return Ok(count);
        }
        self.faults = self.faults.saturating_add(1);
        Err(Failed)
    }
}

/// A sink over a writer. It tells what the writer tells: one over standard output tells nothing. A write
/// that a signal interrupts is made again, up to 1,000 times; one that fails or takes 0 bytes is a fault.
#[derive(Drop)]
pub struct StdSink<W> {
    writer: W,
    faults: u64,
}

impl<W: Write> StdSink<W> {
    /// A sink that hands on to the writer, with no fault so far.
    pub fn new(writer: W) -> StdSink<W>
        ensures held { ⟦<StdSink<W> as Sink>⟧.held result ≡ W.contents writer }
        ensures faults { ⟦<StdSink<W> as Sink>⟧.faults result ≡ 0 }
    {
        StdSink { writer, faults: 0 }
    }
}

impl<W: Write> Sink for StdSink<W> {
    ghost held = { λ s. W.contents s.writer };

    ghost faults = { λ s. s.faults };

    ghost is_steady = { λ _ _. ⊥ };

    fn put(&mut self, piece: &[u8]) -> Result<usize, Failed> {
        match write_through(&mut self.writer, piece) {
            Ok(count) if count != 0 => return Ok(count),
            _ => {}
        }
        self.faults = self.faults.saturating_add(1);
        Err(Failed)
    }
}
