//! The lines of a journal on their way to the sink.
ghost use Rattle.std.specs.Prelude.{ℕ, ◌+◌, ◌++◌, IfErr, OnOk, length};
ghost use Rattle.line_io.specs.Passes.{Passes};
ghost use Rattle.rams_model.specs.Texts.{refused_line};
ghost use Rattle.server_hub.specs.{event_of};
ghost use Rattle.trace_loop.specs.journal_book.{event_line};
ghost use Rattle.serve_loop.specs.{IsStoppedByWrite, OnlyMemoryStops, StopsIn};

use book_text::append_refused;
use line_io::Gather;
use ram_io::Sink;
use rams_model::LineFault;
use server_hub::Heard;
use trace_loop::journal_book::event_text::append_event;
use trace_loop::{Stop, settle};

/// Adds the line of an event. Where memory runs out, nothing waits that didn't.
pub fn write_event<K: Sink>(
    journal: &mut Gather,
    sink: &mut K,
    heard: Heard<'_>,
) -> Result<(), Stop>
    ensures all { OnOk result (Passes (K.held sink.old) (K.held sink.new) (journal.old ++ event_line (event_of heard.entry)) journal.new) }
    ensures front { IfErr result (StopsIn (K.held sink.old) (K.held sink.new) (journal.old ++ event_line (event_of heard.entry)) journal.new) }
    ensures cause { IsStoppedByWrite (K.faults sink.old) (K.faults sink.new) result }
    ensures steady { (room : ℕ) → K.is_steady sink.old (length journal.old + length (event_line (event_of heard.entry)) + room)
        → OnlyMemoryStops result (K.is_steady sink.new (length journal.new + room)) }
{
    append_event(journal.text(), heard)?;
    settle(journal, sink)
}

/// Adds the line that says of a line, by its number, why it was refused.
pub fn write_refused<K: Sink>(
    journal: &mut Gather,
    sink: &mut K,
    number: u64,
    fault: LineFault,
) -> Result<(), Stop>
    ensures all { OnOk result (Passes (K.held sink.old) (K.held sink.new) (journal.old ++ refused_line number fault) journal.new) }
    ensures front { IfErr result (StopsIn (K.held sink.old) (K.held sink.new) (journal.old ++ refused_line number fault) journal.new) }
    ensures cause { IsStoppedByWrite (K.faults sink.old) (K.faults sink.new) result }
    ensures steady { (room : ℕ) → K.is_steady sink.old (length journal.old + length (refused_line number fault) + room)
        → OnlyMemoryStops result (K.is_steady sink.new (length journal.new + room)) }
{
    append_refused(journal.text(), number, fault)?;
    settle(journal, sink)
}
