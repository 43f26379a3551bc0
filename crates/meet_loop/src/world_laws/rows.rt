//! Worked examples of worlds, which the checker computes.
ghost use Rattle.meet_loop.specs.world_laws.TwoReceivers.{TwoReceiversOnOneChannel, BothAreShownTheSource};
ghost use Rattle.meet_loop.specs.world_laws.Worked.{AHandover, NoBurstWithoutItsInfo, AnyPacketTellsTheFirst, WhatIsRefused, TooFarAway};

/// A receiver of one channel, from its request on to the multicast.
pub fn a_handover()
    ensures { AHandover }
{}

/// Two receivers of one channel, which lose packets of their bursts, of the multicast and a repair.
pub fn two_receivers()
    ensures said { TwoReceiversOnOneChannel }
    ensures shown { BothAreShownTheSource }
{}

/// What a receiver takes for its first packet, and what isn't delivered to it.
pub fn receiver_edges()
    ensures no_info { NoBurstWithoutItsInfo }
    ensures first { AnyPacketTellsTheFirst }
    ensures refused { WhatIsRefused }
    ensures far { TooFarAway }
{}
