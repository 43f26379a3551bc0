//! The lines of a trace, one by one.
ghost use Rattle.std.specs.Prelude.{◌≡◌, Err, ℕ, ◌+◌, ◌++◌, IfOk, IfErr, length, None};
ghost use Rattle.std.specs.Io.KnownBytes.{Keeps, prepend_known};
ghost use Rattle.line_io.specs.{HasNoFeed};
ghost use Rattle.trace_loop.specs.declared.stop.Stop.TheVariants.{Read};
ghost use Rattle.rams_model.specs.Texts.{lines_of};
ghost use Rattle.trace_loop.specs.trace_book.trace_serving.{Stage, opening, text_from};
ghost use Rattle.trace_loop.specs.{IsStopped, IsStoppedByRead, OnlyMemoryStops, StopsIn, IfTold, IfBothTold, IsFirstTurn, Ends, HasLinesText, StandsSomewhere, IsEnd, ending, written};

use crate::server::TraceServer;
use crate::stop::Stop;
use crate::turn::{Turn, ending};
use crate::writer::{Writer, write_turn};
use line_io::{LineReader, Next};
use ram_io::{Sink, Source};
use rams_model::{LineFault, Status};
use std::alloc::Global;

/// What the next line does. Of a line that is too long the front tells; one that is missing is out
/// of order.
fn next_turn<V: TraceServer, S: Source>(
    alloc: Global,
    reader: &mut LineReader,
    server: &mut V,
    source: &mut S,
) -> Result<Turn<V::Answer>, Stop>
    requires { StandsSomewhere (V.stands server.old) }
    ensures turn { IfOk result (λ t. (stage : Stage V.state) (number : ℕ) → V.stands server.old stage
        → IfBothTold (prepend_known reader.old.kept (S.left source.old)) (prepend_known reader.new.kept (S.left source.new))
        (λ xs ys. IsFirstTurn V.serving stage number xs (V.stands server.new) (ending t) (written (V.lines server.new) number t) ys)) }
    ensures stands { IfOk result (λ t. ending t ≡ None → StandsSomewhere (V.stands server.new)) }
    ensures same { result ≡ Err Read → Keeps
        (prepend_known reader.old.kept (S.left source.old))
        (prepend_known reader.new.kept (S.left source.new)) }
    ensures unread { result ≡ Err Read → HasNoFeed reader.new.kept }
    ensures cause { IsStoppedByRead (S.faults source.old) (S.faults source.new) result }
    ensures steady { S.is_steady source.old → OnlyMemoryStops result (S.is_steady source.new) }
{
    match reader.advance(source) {
        Err(_) => Err(Stop::Read),
        Ok(Next::Line) => Ok(server.take_line(alloc, reader.line())?),
        Ok(Next::Long) => Ok(server.take_line(alloc, reader.line())?),
        Ok(Next::End) => Ok(Turn::Refused(LineFault::Order)),
    }
}

/// Writes what the lines of a trace are answered with.
pub(crate) fn write_lines<V: TraceServer, S: Source, K: Sink>(
    alloc: Global,
    server: &mut V,
    source: &mut S,
    sink: &mut K,
    writer: &mut Writer,
) -> Result<Status, Stop>
    requires { V.stands server.old (opening V.serving) }
    ensures status { IfOk result IsEnd }
    ensures text { IfOk result (λ status. IfTold (S.left source.old)
        (λ xs. Ends (K.held sink.old) (K.held sink.new) writer.old.gather writer.new.gather (text_from V.serving (opening V.serving) 1 (lines_of xs)) status)) }
    ensures front { IfErr result (λ stop. IfTold (S.left source.old)
        (λ xs. StopsIn (K.held sink.old) (K.held sink.new) (writer.old.gather ++ (text_from V.serving (opening V.serving) 1 (lines_of xs)).text) writer.new.gather stop)) }
    ensures read { result ≡ Err Read → IfBothTold (S.left source.old) (S.left source.new)
        (HasLinesText V.serving (K.held sink.old) (K.held sink.new) writer.old.gather writer.new.gather) }
    ensures cause { IsStopped (S.faults source.old) (S.faults source.new) (K.faults sink.old) (K.faults sink.new) result }
    ensures steady { S.is_steady source.old → IfTold (S.left source.old)
        (λ xs. (room : ℕ) → K.is_steady sink.old (length (writer.old.gather ++ (text_from V.serving (opening V.serving) 1 (lines_of xs)).text) + room)
        → OnlyMemoryStops result (K.is_steady sink.new (length writer.new.gather + room))) }
{
    let mut reader = LineReader::new(alloc)?;
    for number in 1..u64::MAX {
        let turn = next_turn(alloc, &mut reader, server, source)?;
        write_turn(writer, sink, server, number, &turn)?;
        if let Some(status) = ending(&turn) {
            return Ok(status);
        }
    }
    Err(Stop::Memory)
}
