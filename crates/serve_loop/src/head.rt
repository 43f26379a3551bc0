//! The head of what a server reads.
ghost use Rattle.std.specs.Prelude.{IfOk};
ghost use Rattle.trace_loop.specs.head_loop.{HasRead, IsIdle};
ghost use Rattle.serve_loop.specs.{IfTold, IsStoppedByRead, OnlyMemoryStops};

use line_io::LineReader;
use ram_io::Source;
use std::alloc::Global;
use trace_loop::Stop;
use trace_loop::head_loop::Head;

/// Reads a head up to its `end`, or up to the first line that is refused; what follows isn't looked at.
pub fn read_head<S: Source>(alloc: Global, source: &mut S) -> Result<Head, Stop>
    ensures read { IfOk result (λ head. IfTold (S.left source.old) (λ xs. HasRead xs head)) }
    ensures idle { IfOk result IsIdle }
    ensures cause { IsStoppedByRead (S.faults source.old) (S.faults source.new) result }
    ensures steady { S.is_steady source.old → OnlyMemoryStops result (Unit {0}) }
{
    let mut reader = LineReader::new(alloc)?;
    Ok(trace_loop::head_loop::read_head(alloc, &mut reader, source)?)
}
