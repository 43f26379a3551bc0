//! Text on its way to the sink.
ghost use Rattle.std.specs.Prelude.{◌≡◌, ℕ, ◌+◌, ◌<◌, ◌++◌, IfOk, IfErr, OnOk, OnErr, List, [], length};
ghost use Rattle.ram_io.specs.{Rose};
ghost use Rattle.line_io.specs.Passes.{Passes};
ghost use Rattle.trace_loop.specs.{last_line, written, IsStoppedByWrite, OnlyMemoryStops, StopsIn};

use crate::server::TraceServer;
use crate::stop::Stop;
use crate::turn::{Turn, append_last};
use book_text::Pen;
use line_io::Gather;
use ram_io::{NoMemory, Sink};
use std::alloc::Global;

/// The text that waits for the sink, what writes the lines of notes, and room for a datagram.
#[derive(Drop)]
pub struct Writer {
    pub gather: Gather,
    pub pen: Pen,
    pub datagram: Vec<u8>,
}

/// A writer with which nothing waits.
pub fn new_writer(alloc: Global) -> Result<Writer, NoMemory>
    ensures { IfOk result (λ writer. writer.gather ≡ []) }
{
    Ok(Writer {
        gather: Gather::new(alloc)?,
        pen: Pen::new(),
        datagram: Vec::new(alloc),
    })
}

/// Adds a text to what waits; of both a front goes to the sink.
pub fn put<K: Sink>(gather: &mut Gather, sink: &mut K, text: &[u8]) -> Result<(), Stop>
    ensures all { OnOk result (Passes (K.held sink.old) (K.held sink.new) (gather.old ++ text.now) gather.new) }
    ensures front { IfErr result (StopsIn (K.held sink.old) (K.held sink.new) (gather.old ++ text.now) gather.new) }
    ensures cause { IsStoppedByWrite (K.faults sink.old) (K.faults sink.new) result }
    ensures steady { (room : ℕ) → K.is_steady sink.old (length gather.old + length text.now + room)
        → OnlyMemoryStops result (K.is_steady sink.new (length gather.new + room)) }
{
    match gather.put(sink, text) {
        Ok(()) => Ok(()),
        Err(_) => Err(Stop::Write),
    }
}

/// Puts all that waits to the sink where that is 65,536 bytes or more, and else nothing. It is called
/// behind what is appended to `gather.text()`.
pub fn settle<K: Sink>(gather: &mut Gather, sink: &mut K) -> Result<(), Stop>
    ensures all { OnOk result (Passes (K.held sink.old) (K.held sink.new) gather.old gather.new) }
    ensures few { OnOk result (length gather.new < 65536) }
    ensures front { IfErr result (StopsIn (K.held sink.old) (K.held sink.new) gather.old gather.new) }
    ensures cause { IsStoppedByWrite (K.faults sink.old) (K.faults sink.new) result }
    ensures steady { (room : ℕ) → K.is_steady sink.old (length gather.old + room)
        → OnlyMemoryStops result (K.is_steady sink.new (length gather.new + room)) }
{
    match gather.settle(sink) {
        Ok(()) => Ok(()),
        Err(_) => Err(Stop::Write),
    }
}

/// Puts all that waits to the sink.
pub fn flush<K: Sink>(gather: &mut Gather, sink: &mut K) -> Result<(), Stop>
    ensures all { OnOk result (Passes (K.held sink.old) (K.held sink.new) gather.old []) }
    ensures empty { OnOk result (gather.new ≡ []) }
    ensures prefix { (rest : List ℕ) × Passes (K.held sink.old) (K.held sink.new) gather.old rest }
    ensures front { IfErr result (StopsIn (K.held sink.old) (K.held sink.new) gather.old gather.new) }
    ensures fault { OnErr result (Rose (K.faults sink.old) (K.faults sink.new)) }
    ensures cause { IsStoppedByWrite (K.faults sink.old) (K.faults sink.new) result }
    ensures steady { (room : ℕ) → K.is_steady sink.old (length gather.old + room)
        → OnlyMemoryStops result (K.is_steady sink.new room) }
{
    match gather.flush(sink) {
        Ok(()) => Ok(()),
        Err(_) => Err(Stop::Write),
    }
}

/// Adds the line with which a turn ends the run, if it does.
fn write_last<A, K: Sink>(
    writer: &mut Writer,
    sink: &mut K,
    number: u64,
    turn: &Turn<A>,
) -> Result<(), Stop>
    ensures all { OnOk result (Passes (K.held sink.old) (K.held sink.new) (writer.old.gather ++ last_line number turn.now) writer.new.gather) }
    ensures front { IfErr result (StopsIn (K.held sink.old) (K.held sink.new) (writer.old.gather ++ last_line number turn.now) writer.new.gather) }
    ensures cause { IsStoppedByWrite (K.faults sink.old) (K.faults sink.new) result }
    ensures steady { (room : ℕ) → K.is_steady sink.old (length writer.old.gather + length (last_line number turn.now) + room)
        → OnlyMemoryStops result (K.is_steady sink.new (length writer.new.gather + room)) }
{
    append_last(writer.gather.text(), number, turn)?;
    settle(&mut writer.gather, sink)
}

/// Adds what is written for a turn at the line of this number.
pub(crate) fn write_turn<V: TraceServer, K: Sink>(
    writer: &mut Writer,
    sink: &mut K,
    server: &V,
    number: u64,
    turn: &Turn<V::Answer>,
) -> Result<(), Stop>
    ensures all { OnOk result (Passes (K.held sink.old) (K.held sink.new) (writer.old.gather ++ written (V.lines server.now) number turn.now) writer.new.gather) }
    ensures front { IfErr result (StopsIn (K.held sink.old) (K.held sink.new) (writer.old.gather ++ written (V.lines server.now) number turn.now) writer.new.gather) }
    ensures cause { IsStoppedByWrite (K.faults sink.old) (K.faults sink.new) result }
    ensures steady { (room : ℕ) → K.is_steady sink.old (length writer.old.gather + length (written (V.lines server.now) number turn.now) + room)
        → OnlyMemoryStops result (K.is_steady sink.new (length writer.new.gather + room)) }
{
    match turn {
        Turn::Said(answer) => server.write_answer(writer, sink, answer),
        _ => write_last(writer, sink, number, turn),
    }
}
