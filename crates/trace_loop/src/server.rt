//! What serves a trace, line by line.
ghost use Rattle.std.specs.Prelude.{◌+◌, ◌++◌, IfOk, IfErr, OnOk, length};
ghost use Rattle.line_io.specs.Passes.{Passes};
ghost use Rattle.trace_loop.specs.trace_book.trace_serving.{turn};
ghost use Rattle.trace_loop.specs.{StandsSomewhere, Took, ending, written, StopsIn, IsStoppedByWrite, OnlyMemoryStops};

use crate::stop::Stop;
use crate::turn::Turn;
use crate::writer::Writer;
use ram_io::{NoMemory, Sink};
use std::alloc::Global;

/// What serves a trace: it takes the lines one by one, and writes what it answers.
///
/// A line does what the definitions say of `serving`, on the stage that the lines before it have
/// reached.
pub trait TraceServer {
    ghost use Rattle.std.specs.Prelude.{ℕ, List};
    ghost use Rattle.trace_loop.specs.trace_book.trace_serving.{Serving, Stage};

    /// What an event is answered with.
    type Answer: Drop;

    /// What lines change.
    ghost state: { Type 0 };

    /// What a line may bring.
    ghost event: { Type 0 };

    ghost serving: { Serving state event };

    /// It stands for this stage.
    ghost stands: { Self → Stage state → Type 0 };

    /// The lines of an answer.
    ghost lines: { Self → Self.Answer → List ℕ };

    /// What the next line does.
    fn take_line(&mut self, alloc: Global, line: &[u8]) -> Result<Turn<Self::Answer>, NoMemory>
        requires { StandsSomewhere (stands self.old) }
        ensures turn { IfOk result (λ t. (stage : Stage state) (number : ℕ) → stands self.old stage
            → Took (turn serving stage number line.now) (stands self.new) (ending t) (written (lines self.new) number t)) };

    /// Adds the lines of an answer.
    fn write_answer<K: Sink>(
        &self,
        writer: &mut Writer,
        sink: &mut K,
        answer: &Self::Answer,
    ) -> Result<(), Stop>
        ensures all { OnOk result (Passes (K.held sink.old) (K.held sink.new) (writer.old.gather ++ lines self.now answer.now) writer.new.gather) }
        ensures front { IfErr result (StopsIn (K.held sink.old) (K.held sink.new) (writer.old.gather ++ lines self.now answer.now) writer.new.gather) }
        ensures cause { IsStoppedByWrite (K.faults sink.old) (K.faults sink.new) result }
        ensures steady { (room : ℕ) → K.is_steady sink.old (length writer.old.gather + length (lines self.now answer.now) + room)
            → OnlyMemoryStops result (K.is_steady sink.new (length writer.new.gather + room)) };
}
