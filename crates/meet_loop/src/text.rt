//! The whole text of a world's trace, from the source's bytes to the sink's.
ghost use Rattle.ram_io.specs.{Rose};
ghost use Rattle.std.specs.Prelude.{◌≡◌, ◌⊎◌, Err, List, ℕ, IfOk, length};
ghost use Rattle.std.specs.Io.KnownBytes.{Appends};
ghost use Rattle.line_io.specs.Passes.{Passes};
ghost use Rattle.trace_loop.specs.declared.Stop.TheVariants.{Read};
ghost use Rattle.trace_loop.specs.{IsStopped, OnlyMemoryStops, IfTold, IfBothTold, HasReadText, IsEnd};
ghost use Rattle.meet_loop.specs.world_book.{meet, meet_text};

use crate::meeting::new_meeting;
use ram_io::{Sink, Source};
use rams_model::Status;
use receiver_core::Bump;
use std::alloc::Global;
use std::mem;
use trace_loop::{Stop, write_text};

/// Writes the text of the world's trace that the source has left, and says how it ended.
///
/// Its first line goes to the sink before the first byte is taken. Where the source fails, the sink gets
/// all of the text of the lines that were read, unless it fails too.
pub fn write_world<S: Source, K: Sink>(
    alloc: Global,
    source: &mut S,
    sink: &mut K,
) -> Result<Status, Stop>
    ensures status { IfOk result IsEnd }
    ensures text { IfOk result (λ status. IfTold (S.left source.old)
        (λ xs. (status ≡ (meet_text xs).status) × Appends (K.held sink.old) (K.held sink.new) (meet_text xs).text)) }
    ensures front { IfTold (S.left source.old)
        (λ xs. (rest : List ℕ) × Passes (K.held sink.old) (K.held sink.new) (meet_text xs).text rest) }
    ensures read { result ≡ Err Read → IfBothTold (S.left source.old) (S.left source.new) (HasReadText meet (K.held sink.old) (K.held sink.new)) ⊎ Rose (K.faults sink.old) (K.faults sink.new) }
    ensures cause { IsStopped (S.faults source.old) (S.faults source.new) (K.faults sink.old) (K.faults sink.new) result }
    ensures steady { S.is_steady source.old → IfTold (S.left source.old)
        (λ xs. K.is_steady sink.old (length (meet_text xs).text) → OnlyMemoryStops result (Unit {0})) }
{
    let arena = Bump::new(alloc);
    let mut meeting = new_meeting(alloc, &arena);
    let ended = write_text(alloc, &mut meeting, b"rams-world 1\n", source, sink);
    // The command ends here: to give its memory back block by block would only cost time.
    mem::forget(meeting);
    mem::forget(arena);
    ended
}
