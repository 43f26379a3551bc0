//! Where bursts stop, and how they end.
ghost use Rattle.service_laws.specs.book_laws.Stops.{TheStopIsRespected, WhatEndsStoppedWasSentWhole, EachBurstEndsOrIsOpen, CausesAreTrue, BurstsDontOverlap, NothingIsSentAfterTheEnd, AStopIsWhatWasNamed};

/// Of a burst nothing is sent from its stop on; where it ended for that, all before it was sent.
pub fn the_stop_is_respected()
    ensures below { TheStopIsRespected }
    ensures whole { WhatEndsStoppedWasSentWhole }
{}

/// A burst has ended, and its End says truly why, or it is open; the next one begins after that.
pub fn each_burst_ends_or_is_open()
    ensures ends { EachBurstEndsOrIsOpen }
    ensures causes { CausesAreTrue }
    ensures apart { BurstsDontOverlap }
    ensures over { NothingIsSentAfterTheEnd }
{}

/// A stop is the packet that the first RAMS-T of the burst named (RFC 6285, 7.4).
pub fn a_stop_is_what_was_named()
    ensures { AStopIsWhatWasNamed }
{}
