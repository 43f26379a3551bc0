//! Laws of the answers to feedback: each is that of the first line of its table that applies.
ghost use Rattle.service_laws.specs.book_laws.{WhatIsCountedStandsOnce, NackAnswersAreTrue, ForeignNacksAreTrue, NacksAreAnsweredInOrder, StopsAreAnsweredExactly, ByesAreAnsweredExactly};
ghost use Rattle.service_laws.specs.book_laws.Refusals.{RefusalsAreTrue, AcceptsAreByTheTable, UpdatesAreByTheTable, AgainsAreByTheTable, RequestsAreAnsweredExactly, OneLineIsFirst};

/// The cause of each refusal was true in what stood before it, and no earlier line of the table
/// was.
pub fn refusals_are_true()
    ensures { RefusalsAreTrue }
{}

/// Each RAMS-R is answered by one note, which is that of the first line of the table that applies:
/// it is accepted exactly where no line before the last is true.
pub fn requests_are_answered_by_the_table()
    ensures exactly { RequestsAreAnsweredExactly }
    ensures accepts { AcceptsAreByTheTable }
    ensures updates { UpdatesAreByTheTable }
    ensures agains { AgainsAreByTheTable }
    ensures first { OneLineIsFirst }
{}

/// Each number that a NACK names is answered once, in order, by the first line of the table that
/// applies (RFC 4585, 6.2.1); a NACK of another media source is answered as a whole.
pub fn nacks_are_answered_by_the_table()
    ensures answers { NackAnswersAreTrue }
    ensures order { NacksAreAnsweredInOrder }
    ensures foreign { ForeignNacksAreTrue }
{}

/// Each RAMS-T and each BYE is answered by the notes of its one cause (RFC 6285, 7.4; RFC 3550,
/// 6.6).
pub fn stops_and_byes_are_answered_exactly()
    ensures stops { StopsAreAnsweredExactly }
    ensures byes { ByesAreAnsweredExactly }
{}

/// Each known client, open burst and pending repair is counted once, and what is reserved is the
/// sum over the open bursts.
pub fn what_is_counted_stands_once()
    ensures { WhatIsCountedStandsOnce }
{}
