//! The summary of a generated trace, to the sink.
ghost use Rattle.std.specs.Prelude.{◌≡◌, ◌≤◌, ℕ, List, length, OnOk, IfOk};
ghost use Rattle.std.specs.Io.KnownBytes.{Appends};
ghost use Rattle.line_io.specs.Passes.{Passes};
ghost use Rattle.rams_model.specs.declared.Status.TheVariants.{Done};
ghost use Rattle.generated.specs.summary.{made_summary};
ghost use Rattle.trace_loop.specs.{IsStoppedByWrite, OnlyMemoryStops};

use generated::generated_run::summary_of;
use line_io::put_all;
use ram_io::Sink;
use rams_model::Status;
use std::alloc::Global;
use trace_loop::Stop;

/// Writes the summary of the generated trace of this seed and of so many blocks.
pub fn write_summary<K: Sink>(
    alloc: Global,
    seed: u32,
    blocks: u32,
    sink: &mut K,
) -> Result<Status, Stop>
    requires { blocks ≤ 50000 }
    ensures status { IfOk result (λ status. status ≡ Done) }
    ensures text { OnOk result (Appends (K.held sink.old) (K.held sink.new) (made_summary seed blocks)) }
    ensures front { (rest : List ℕ) × Passes (K.held sink.old) (K.held sink.new) (made_summary seed blocks) rest }
    ensures cause { IsStoppedByWrite (K.faults sink.old) (K.faults sink.new) result }
    ensures steady { K.is_steady sink.old (length (made_summary seed blocks)) → OnlyMemoryStops result (Unit {0}) }
{
    let text = summary_of(alloc, seed, blocks)?;
    match put_all(sink, &text) {
        Ok(()) => Ok(Status::Done),
        Err(_) => Err(Stop::Write),
    }
}
