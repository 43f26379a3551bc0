//! The lines of a trace for a pool, read to its end before anything is written.
ghost use Rattle.std.specs.Prelude.{◌≡◌, ◌≤◌, ℕ, List, IfOk};
ghost use Rattle.std.specs.Io.KnownBytes.{prepend_known};
ghost use Rattle.server_hub.specs.declared.HubEvent.{HubEvent};
ghost use Rattle.server_hub.specs.Served.{Served};
ghost use Rattle.trace_loop.specs.trace_book.trace_serving.{Stage};
ghost use Rattle.trace_loop.specs.{IfTold, IfBothTold, IsStoppedByRead, OnlyMemoryStops};
ghost use Rattle.pool.specs.pool_loop.{HasDealtBy, HasDealtSome, HasRead, IsFirstLine, IsWhole, StandsAfter};

use crate::pool_loop::dealing::{Dealt, new_dealt, take_line};
use line_io::{LineReader, Next};
use ram_io::Source;
use rams_model::LineFault;
use std::alloc::Global;
use trace_loop::Stop;
use trace_loop::whole_trace::{Does, ReadTrace};

/// What the next line does. Of a line that is too long the front tells; one that is missing is out of
/// order.
fn next_line<S: Source>(
    alloc: Global,
    reader: &mut LineReader,
    dealt: &mut Dealt,
    source: &mut S,
) -> Result<Does, Stop>
    requires { HasDealtSome dealt.old }
    ensures line { IfOk result (λ does. (came : List HubEvent) (stage : Stage (List Served)) (number : ℕ) → HasDealtBy dealt.old came stage
        → IfBothTold (prepend_known reader.old.kept (S.left source.old)) (prepend_known reader.new.kept (S.left source.new))
        (λ xs ys. IsFirstLine dealt.new came stage number xs does ys)) }
    ensures stands { IfOk result (λ does. StandsAfter does dealt.new) }
    ensures cause { IsStoppedByRead (S.faults source.old) (S.faults source.new) result }
    ensures steady { S.is_steady source.old → OnlyMemoryStops result (S.is_steady source.new) }
{
    match reader.advance(source) {
        Err(_) => Err(Stop::Read),
        Ok(Next::Line) => Ok(take_line(alloc, dealt, reader.line())?),
        Ok(Next::Long) => Ok(take_line(alloc, dealt, reader.line())?),
        Ok(Next::End) => Ok(Does::Refused(LineFault::Order)),
    }
}

/// Reads a trace up to its `end`, or up to the first line that ends it otherwise; what follows isn't
/// looked at. Each channel gets its events.
pub fn read_trace<S: Source>(alloc: Global, source: &mut S) -> Result<ReadTrace<Dealt>, Stop>
    ensures read { IfOk result (λ read. IfTold (S.left source.old) (λ xs. HasRead xs read)) }
    ensures whole { IfOk result IsWhole }
    ensures cause { IsStoppedByRead (S.faults source.old) (S.faults source.new) result }
    ensures steady { S.is_steady source.old → OnlyMemoryStops result (Unit {0}) }
{
    let mut reader = LineReader::new(alloc)?;
    let mut dealt = new_dealt(alloc);
    for number in 1..u64::MAX {
        match next_line(alloc, &mut reader, &mut dealt, source)? {
            Does::GoesOn => {}
            Does::Ends => return Ok(ReadTrace::Lawful(dealt)),
            Does::Refused(fault) => {
                return Ok(ReadTrace::Unlawful {
                    line: number,
                    fault,
                });
            }
            Does::TooLong => return Ok(ReadTrace::TooLong),
        }
    }
    Err(Stop::Memory)
}
