//! The whole text of a trace, from the source's bytes to the sink's.
ghost use Rattle.ram_io.specs.{Rose};
ghost use Rattle.std.specs.Prelude.{◌≡◌, ◌≤◌, ◌⊎◌, Err, List, ℕ, ◌+◌, IfOk, OnOk, length, []};
ghost use Rattle.std.specs.Io.KnownBytes.{Appends};
ghost use Rattle.line_io.specs.Passes.{Passes};
ghost use Rattle.trace_loop.specs.declared.stop.Stop.TheVariants.{Read, Write};
ghost use Rattle.trace_loop.specs.trace_book.trace_serving.{opening, served_text};
ghost use Rattle.trace_loop.specs.{IsStopped, OnlyMemoryStops, EndsAs, IfTold, IfBothTold, HasReadText, IsEnd};

use crate::lines::write_lines;
use crate::server::TraceServer;
use crate::stop::Stop;
use crate::writer::{flush, new_writer, put};
use line_io::Gather;
use ram_io::{Sink, Source};
use rams_model::Status;
use std::alloc::Global;

/// Lets memory that is given back stay at hand, where it would go back to the system after each tick: a block
/// is taken, and given back.
fn keep_at_hand(alloc: Global) {
    let _room = Vec::<u8>::with_capacity(alloc, AT_HAND);
}

/// Twice so much memory stays at hand.
const AT_HAND: usize = 1 << 20;

/// Puts what waits when a run ends, whatever ended it but the sink's own failure.
pub fn close<K: Sink>(
    gather: &mut Gather,
    sink: &mut K,
    ended: Result<Status, Stop>,
) -> Result<Status, Stop>
    ensures ends { EndsAs (K.faults sink.old) (K.faults sink.new) ended result }
    ensures later { K.faults sink.old ≤ K.faults sink.new }
    ensures all { OnOk result (Passes (K.held sink.old) (K.held sink.new) gather.old []) }
    ensures untouched { ended ≡ Err Write → sink.new ≡ sink.old }
    ensures prefix { (rest : List ℕ) × Passes (K.held sink.old) (K.held sink.new) gather.old rest }
    ensures read { ended ≡ Err Read → Passes (K.held sink.old) (K.held sink.new) gather.old [] ⊎ Rose (K.faults sink.old) (K.faults sink.new) }
    ensures steady { (room : ℕ) → OnlyMemoryStops ended (K.is_steady sink.old (length gather.old + room)) → OnlyMemoryStops result (Unit {0}) }
    ensures stays { (room : ℕ) → OnlyMemoryStops ended (K.is_steady sink.old (length gather.old + room)) → OnlyMemoryStops result (K.is_steady sink.new room) }
{
    match ended {
        Ok(status) => {
            flush(gather, sink)?;
            Ok(status)
        }
        Err(Stop::Write) => Err(Stop::Write),
        Err(stop) => {
            let _ = flush(gather, sink);
            Err(stop)
        }
    }
}

/// Writes the text of the trace that the source has left, as this server gives it.
///
/// Its first line goes to the sink before the first byte is taken. Where the source fails, the sink gets
/// all of the text of the lines that were read, unless it fails too.
pub fn write_text<V: TraceServer, S: Source, K: Sink>(
    alloc: Global,
    server: &mut V,
    first_line: &[u8],
    source: &mut S,
    sink: &mut K,
) -> Result<Status, Stop>
    requires opening { V.stands server.old (opening V.serving) }
    requires first { first_line.now ≡ V.serving.first_line }
    ensures status { IfOk result IsEnd }
    ensures text { IfOk result (λ status. IfTold (S.left source.old)
        (λ xs. (status ≡ (served_text V.serving xs).status) × Appends (K.held sink.old) (K.held sink.new) (served_text V.serving xs).text)) }
    ensures front { IfTold (S.left source.old)
        (λ xs. (rest : List ℕ) × Passes (K.held sink.old) (K.held sink.new) (served_text V.serving xs).text rest) }
    ensures read { result ≡ Err Read → IfBothTold (S.left source.old) (S.left source.new) (HasReadText V.serving (K.held sink.old) (K.held sink.new)) ⊎ Rose (K.faults sink.old) (K.faults sink.new) }
    ensures cause { IsStopped (S.faults source.old) (S.faults source.new) (K.faults sink.old) (K.faults sink.new) result }
    ensures steady { S.is_steady source.old → IfTold (S.left source.old)
        (λ xs. K.is_steady sink.old (length (served_text V.serving xs).text) → OnlyMemoryStops result (Unit {0})) }
{
    keep_at_hand(alloc);
    let mut writer = new_writer(alloc)?;
    put(&mut writer.gather, sink, first_line)?;
    flush(&mut writer.gather, sink)?;
    let ended = write_lines(alloc, server, source, sink, &mut writer);
    close(&mut writer.gather, sink, ended)
}
