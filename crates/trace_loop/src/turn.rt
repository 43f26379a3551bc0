//! What a line of a trace does.
ghost use Rattle.std.specs.Prelude.{◌≡◌, ◌++◌, IfSome, OnOk, OnErr, List, ℕ};
ghost use Rattle.trace_loop.specs.{IsEnd, ending, last_line};

use book_text::{append_count, append_refused};
use ram_io::NoMemory;
use rams_model::{LineFault, Status};

/// Most events of a trace.
pub const MOST_EVENTS: u64 = 1_000_000;

/// What a line does; `A` is what an event is answered with.
#[derive(Drop)]
pub enum Turn<A> {
    /// Nothing is written.
    GoesOn,
    /// Its event is answered.
    Said(A),
    /// It is refused for this fault, and the run ends.
    Refused(LineFault),
    /// Its event is one too many, and the run ends.
    TooLong,
    /// It is the end of the trace, behind so many events.
    Done(u64),
}

/// How a turn ends the run, if it does.
pub(crate) fn ending<A>(turn: &Turn<A>) -> Option<Status>
    ensures value { result ≡ ending turn.now }
    ensures end { IfSome result IsEnd }
{
    match turn {
        Turn::GoesOn | Turn::Said(_) => None,
        Turn::Refused(_) => Some(Status::BadTrace),
        Turn::TooLong => Some(Status::TooLong),
        Turn::Done(_) => Some(Status::Done),
    }
}

/// Appends the line with which a turn ends the run, at the line of this number; nothing where it goes
/// on, or memory runs out.
pub(crate) fn append_last<A>(
    text: &mut Vec<u8>,
    number: u64,
    turn: &Turn<A>,
) -> Result<(), NoMemory>
    ensures text { OnOk result (text.new.items ≡ text.old.items ++ last_line number turn.now) }
    ensures err { OnErr result (text.new.items ≡ text.old.items) }
{
    match turn {
        Turn::GoesOn | Turn::Said(_) => Ok(()),
        Turn::Refused(fault) => append_refused(text, number, *fault),
        Turn::TooLong => {
            text.extend_from_slice(b"too-long\n")?;
            Ok(())
        }
        Turn::Done(events) => append_count(text, b"done", *events),
    }
}
