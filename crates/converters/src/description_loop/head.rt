//! The head of a description: a head line, one channel line of its version, and `end`.
ghost use Rattle.std.specs.Prelude.{◌≡◌, IfOk};
ghost use Rattle.std.specs.Io.KnownBytes.{prepend_known};
ghost use Rattle.trace_loop.specs.{IfBothTold, IsStoppedByRead, OnlyMemoryStops};
ghost use Rattle.converters.specs.declared.description_loop.said.Head.TheVariants.{Unlawful};
ghost use Rattle.converters.specs.description_loop.{HasRead, IsNext, said_fault};

use crate::description_loop::said::{Head, Heading, Said, fault_of, judge_line};
use line_io::{LineReader, Next};
use ram_io::Source;
use rams_model::{LineFault, Mode};
use trace_loop::Stop;
use trace_text::State;

/// What the next line says. One that is too long has no form; one that is missing is out of order.
fn next_line<S: Source>(
    reader: &mut LineReader,
    state: &mut State,
    source: &mut S,
) -> Result<Said, Stop>
    ensures line { IfOk result (λ said. IfBothTold
        (prepend_known reader.old.kept (S.left source.old))
        (prepend_known reader.new.kept (S.left source.new)) (IsNext state.old state.new said)) }
    ensures cause { IsStoppedByRead (S.faults source.old) (S.faults source.new) result }
    ensures steady { S.is_steady source.old → OnlyMemoryStops result (S.is_steady source.new) }
{
    match reader.advance(source) {
        Err(_) => Err(Stop::Read),
        Ok(Next::Line) => Ok(judge_line(state, reader.line())),
        Ok(Next::Long) => Ok(Said::Refused(LineFault::Form)),
        Ok(Next::End) => Ok(Said::Refused(LineFault::Order)),
    }
}

/// Reads a head up to its `end`, or up to the first line that is refused.
pub fn read_head<S: Source>(reader: &mut LineReader, source: &mut S) -> Result<Head, Stop>
    ensures read { IfOk result (λ head. IfBothTold
        (prepend_known reader.old.kept (S.left source.old))
        (prepend_known reader.new.kept (S.left source.new)) (HasRead head)) }
    ensures cause { IsStoppedByRead (S.faults source.old) (S.faults source.new) result }
    ensures steady { S.is_steady source.old → OnlyMemoryStops result (S.is_steady source.new) }
{
    let mut state = State::new(Mode::Describe);
    let first = next_line(reader, &mut state, source)?;
    let Said::Head { version, link } = first else {
        return Ok(unlawful(1, first));
    };
    let second = next_line(reader, &mut state, source)?;
    let Said::Channel(config) = second else {
        return Ok(unlawful(2, second));
    };
    let third = next_line(reader, &mut state, source)?;
    let Said::End = third else {
        return Ok(unlawful(3, third));
    };
    Ok(Head::Lawful(Heading {
        version,
        link,
        config,
    }))
}

/// The line of this number may not stand where it does.
fn unlawful(line: u64, said: Said) -> Head
    ensures { result ≡ Unlawful line (said_fault said) }
{
    Head::Unlawful {
        line,
        fault: fault_of(said),
    }
}
