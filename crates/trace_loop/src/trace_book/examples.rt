//! Worked examples, which the checker computes.
ghost use Rattle.trace_loop.specs.trace_book.Worked.{NoEvent, NothingAfterTheEnd, RefusedLines, MissingLines, SharesFitTheLink, BothAnswerATick, NoSuchChannel, VersionsOfTheText, SecondVersion, SwellIsSpent, OneEventTooMany};

/// How traces end.
pub fn ends_of_traces()
    ensures no_event { NoEvent }
    ensures nothing_after { NothingAfterTheEnd }
    ensures refused_lines { RefusedLines }
    ensures missing_lines { MissingLines }
    ensures shares_fit_the_link { SharesFitTheLink }
    ensures versions { VersionsOfTheText }
    ensures one_too_many { OneEventTooMany }
{}

/// What events are answered with.
pub fn events_of_traces()
    ensures both_answer { BothAnswerATick }
    ensures no_such_channel { NoSuchChannel }
    ensures second_version { SecondVersion }
    ensures swell { SwellIsSpent }
{}
