//! The law of what is written at a takeover.
ghost use Rattle.takeover.specs.takeover_loop.{TakeoversMakeOneJournal};

use crate::standby::standby_book::laws::journals_are_taken_over;
use trace_loop::journal_book::laws::turns_make_journals;

/// The text of a takeover that ends with `end` is one journal: of the events that were followed and then
/// of those of the turns. `run` reads it to its end, and its replay sends what the old server sends for
/// the events that were followed, and then exactly what the takeover sends.
pub fn takeovers_make_one_journal()
    ensures { TakeoversMakeOneJournal }
{
    journals_are_taken_over();
    turns_make_journals();
}
