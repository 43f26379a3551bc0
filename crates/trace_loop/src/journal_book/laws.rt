//! Laws of journals: that they replay, how they grow, and what stands in them.
ghost use Rattle.trace_loop.specs.journal_book.{JournalsReplay, RunsWriteJournals, JournalsAreServed, FrontsReplay, JournalsGrow, ServedSo, FrontSo, HeadSo, HeadsGrow, HeadsEnd, HeadsOpenNewChannels, ChannelsStayApart, EventsAreFew, PortsAreHeard, OtherPortsAreNot, WhatIsHeardCanCome, EventsAreSpelled, TurnsMakeJournals, OneAnswers, ChannelsAnswerInOrder, RunsWriteOfThem, AnswersWriteTheirDatagrams};

use crate::trace_book::laws::{traces_are_served_by_their_lines, traces_stay_within_the_link};

/// A journal is a trace that `run` reads to its end, and its replay sends exactly what was sent for
/// its events. So does a front of it for the events whose lines it has.
pub fn journals_replay()
    ensures replay { JournalsReplay }
    ensures fronts { FrontsReplay }
{}

/// What `run` writes for a journal is what its events are answered with, and the channels of that run
/// are those that the server has.
pub fn runs_of_journals()
    ensures text { RunsWriteJournals }
    ensures served { JournalsAreServed }
{}

/// One more event adds its line to the journal, its datagrams to what is sent, and itself to what
/// came to its channels.
pub fn journals_grow()
    ensures { JournalsGrow }
{}

/// What the sink and the wire hold after the last turn, or whatever ended the turns: a journal, or a
/// front of one, and the datagrams of its replay, or a front of these.
pub fn sink_and_wire_agree()
    ensures whole { ServedSo }
    ensures front { FrontSo }
    ensures head { HeadSo }
{}

/// A line that a server takes makes a longer head, and `end` ends it.
pub fn heads_grow()
    ensures grow { HeadsGrow }
    ensures end { HeadsEnd }
{}

/// To the channels that a head opens nothing has come, and no two have one number, then or later.
pub fn heads_open_new_channels()
    ensures new { HeadsOpenNewChannels }
    ensures apart { ChannelsStayApart }
{
    traces_are_served_by_their_lines();
    traces_stay_within_the_link();
}

/// What comes to a channel's two ports is its own, and what comes to any other port is no event.
pub fn ports_are_heard()
    ensures ports { PortsAreHeard }
    ensures others { OtherPortsAreNot }
{}

/// What comes in a turn has a line that a trace may have, and in at most 500,000 turns no more comes
/// than a trace may have: the events of these turns make a journal.
pub fn turns_make_journals()
    ensures heard { WhatIsHeardCanCome }
    ensures spelled { EventsAreSpelled }
    ensures few { EventsAreFew }
    ensures journal { TurnsMakeJournals }
{
    heads_open_new_channels();
}

/// What is sent for a datagram is what its own channel answers, from that channel's feedback port.
/// Where several answer, each does in its place, from its own port. What `run` writes for an event are
/// the lines of the same answers, one for each datagram.
pub fn channels_answer_their_own()
    ensures one { OneAnswers }
    ensures order { ChannelsAnswerInOrder }
    ensures texts { RunsWriteOfThem }
    ensures datagrams { AnswersWriteTheirDatagrams }
{}
