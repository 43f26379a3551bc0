//! A trace that is read to its end before anything is written: what its lines do, and how it is refused.
ghost use Rattle.std.specs.Prelude.{◌≡◌, ℕ, List, IfOk, OnOk, codes, length};
ghost use Rattle.std.specs.Io.KnownBytes.{Appends};
ghost use Rattle.line_io.specs.Passes.{Passes};
ghost use Rattle.rams_model.specs.declared.Status.TheVariants.{BadTrace, TooLong};
ghost use Rattle.rams_model.specs.Texts.{refused_line};
ghost use Rattle.trace_loop.specs.{IsStoppedByWrite, OnlyMemoryStops};

use crate::stop::Stop;
use book_text::append_refused;
use line_io::put_all;
use ram_io::Sink;
use rams_model::{LineFault, Status};
use std::alloc::Global;

/// Most events of a trace that is dealt out to threads.
pub const MOST_DEALT_EVENTS: u64 = 200_000;

/// What a line of a trace does.
#[derive(Clone, Copy, PartialEq, Eq)]
pub enum Does {
    GoesOn,
    /// It is `end`.
    Ends,
    Refused(LineFault),
    /// Its event is one too many.
    TooLong,
}

/// What was read of a trace.
#[derive(Drop)]
pub enum ReadTrace<D> {
    /// All of it, up to its `end`.
    Lawful(D),
    /// The line of this number is refused.
    Unlawful { line: u64, fault: LineFault },
    /// It has an event too many.
    TooLong,
}

/// Writes one line.
fn write_alone<K: Sink>(sink: &mut K, line: &[u8]) -> Result<(), Stop>
    ensures all { OnOk result (Appends (K.held sink.old) (K.held sink.new) line.now) }
    ensures front { (rest : List ℕ) × Passes (K.held sink.old) (K.held sink.new) line.now rest }
    ensures cause { IsStoppedByWrite (K.faults sink.old) (K.faults sink.new) result }
    ensures steady { K.is_steady sink.old (length line.now) → OnlyMemoryStops result (Unit {0}) }
{
    match put_all(sink, line) {
        Ok(()) => Ok(()),
        Err(_) => Err(Stop::Write),
    }
}

/// Writes that a line is refused.
pub fn refuse<K: Sink>(
    alloc: Global,
    sink: &mut K,
    line: u64,
    fault: LineFault,
) -> Result<Status, Stop>
    ensures status { IfOk result (λ status. status ≡ BadTrace) }
    ensures text { OnOk result (Appends (K.held sink.old) (K.held sink.new) (refused_line line fault)) }
    ensures front { (rest : List ℕ) × Passes (K.held sink.old) (K.held sink.new) (refused_line line fault) rest }
    ensures cause { IsStoppedByWrite (K.faults sink.old) (K.faults sink.new) result }
    ensures steady { K.is_steady sink.old (length (refused_line line fault)) → OnlyMemoryStops result (Unit {0}) }
{
    let mut text = Vec::new(alloc);
    append_refused(&mut text, line, fault)?;
    write_alone(sink, &text)?;
    Ok(Status::BadTrace)
}

/// Writes that an event is one too many.
pub fn refuse_more<K: Sink>(sink: &mut K) -> Result<Status, Stop>
    ensures status { IfOk result (λ status. status ≡ TooLong) }
    ensures text { OnOk result (Appends (K.held sink.old) (K.held sink.new) (codes "too-long\n")) }
    ensures front { (rest : List ℕ) × Passes (K.held sink.old) (K.held sink.new) (codes "too-long\n") rest }
    ensures cause { IsStoppedByWrite (K.faults sink.old) (K.faults sink.new) result }
    ensures steady { K.is_steady sink.old (length (codes "too-long\n")) → OnlyMemoryStops result (Unit {0}) }
{
    write_alone(sink, b"too-long\n")?;
    Ok(Status::TooLong)
}
