//! Worked examples, which the checker computes.
ghost use Rattle.trace_loop.specs.journal_book.Worked.{TwoPortsEach, TicksFallDue, JournalOfThreeTurns, ItsDatagrams, EachFromItsOwnPort, ACutLineIsNotReplayed, TheHeadOpens, AnEndTooMany};

/// What a server hears at its ports, and when its ticks come.
pub fn events_of_turns()
    ensures ports { TwoPortsEach }
    ensures ticks { TicksFallDue }
{}

/// A journal, what is sent for its events, and what its replay sends.
pub fn journal_of_three_turns()
    ensures journal { JournalOfThreeTurns }
    ensures datagrams { ItsDatagrams }
    ensures ports { EachFromItsOwnPort }
    ensures cut_line { ACutLineIsNotReplayed }
    ensures head { TheHeadOpens }
    ensures an_end_too_many { AnEndTooMany }
{}
