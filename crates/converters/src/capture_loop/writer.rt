//! The lines of events on their way to the sink.
ghost use Rattle.std.specs.Prelude.{ℕ, ◌+◌, ◌++◌, IfErr, OnOk, length, replicate};
ghost use Rattle.line_io.specs.Passes.{Passes};
ghost use Rattle.server_hub.specs.declared.HubEvent.TheVariants.{Tick};
ghost use Rattle.server_hub.specs.{event_of};
ghost use Rattle.trace_loop.specs.{IsStoppedByWrite, OnlyMemoryStops, StopsIn};
ghost use Rattle.trace_loop.specs.journal_book.{event_line, event_lines};

use line_io::Gather;
use ram_io::Sink;
use server_hub::Heard;
use trace_loop::journal_book::event_text::append_event;
use trace_loop::{Stop, settle};

/// Adds the line of an event. Where memory runs out, nothing waits that didn't.
pub(crate) fn put_event<K: Sink>(
    gather: &mut Gather,
    sink: &mut K,
    heard: Heard<'_>,
) -> Result<(), Stop>
    ensures all { OnOk result (Passes (K.held sink.old) (K.held sink.new) (gather.old ++ event_line (event_of heard.entry)) gather.new) }
    ensures front { IfErr result (StopsIn (K.held sink.old) (K.held sink.new) (gather.old ++ event_line (event_of heard.entry)) gather.new) }
    ensures cause { IsStoppedByWrite (K.faults sink.old) (K.faults sink.new) result }
    ensures steady { (room : ℕ) → K.is_steady sink.old (length gather.old + length (event_line (event_of heard.entry)) + room)
        → OnlyMemoryStops result (K.is_steady sink.new (length gather.new + room)) }
{
    append_event(gather.text(), heard)?;
    settle(gather, sink)
}

/// Adds so many lines `tick`.
pub(crate) fn put_ticks<K: Sink>(gather: &mut Gather, sink: &mut K, count: u64) -> Result<(), Stop>
    ensures all { OnOk result (Passes (K.held sink.old) (K.held sink.new) (gather.old ++ event_lines (replicate count Tick)) gather.new) }
    ensures front { IfErr result (StopsIn (K.held sink.old) (K.held sink.new) (gather.old ++ event_lines (replicate count Tick)) gather.new) }
    ensures cause { IsStoppedByWrite (K.faults sink.old) (K.faults sink.new) result }
    ensures steady { (room : ℕ) → K.is_steady sink.old (length gather.old + length (event_lines (replicate count Tick)) + room)
        → OnlyMemoryStops result (K.is_steady sink.new (length gather.new + room)) }
{
    for done in 0..count {
        put_event(gather, sink, Heard::Tick)?;
    }
    Ok(())
}
