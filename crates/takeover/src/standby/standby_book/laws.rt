//! The law of journals that are taken over.
ghost use Rattle.takeover.specs.standby.standby_book.{JournalsAreTakenOver};

use trace_loop::journal_book::laws::{journals_grow, journals_replay};

/// What a standby has followed of a journal is a head and the lines of events. With whatever comes to
/// the channels behind them it makes one journal, and the replay of that sends what the old server sends
/// for the events that were followed, and then what the channels that are taken over answer.
pub fn journals_are_taken_over()
    ensures { JournalsAreTakenOver }
{
    journals_grow();
    journals_replay();
}
