//! What clients are sent of their bursts.
ghost use Rattle.service_laws.specs.book_laws.{FirstSendingsAreConsecutive, WhatIsSentIsHeld, NothingIsSentUnasked, WhoeverWasAcceptedHasALastAccept, ABurstBeginsAtAnEligibleAccessPoint, EachDatagramIsTheRetransmissionOfASourcePacket, EachSendingIsOrderedOnce};

/// The packets sent of a burst are numbered from the one that its Accept named, without a gap, and
/// are the source's.
pub fn first_sendings_are_consecutive()
    ensures consecutive { FirstSendingsAreConsecutive }
    ensures held { WhatIsSentIsHeld }
    ensures asked { NothingIsSentUnasked }
    ensures accepted { WhoeverWasAcceptedHasALastAccept }
{}

/// A burst begins at the newest eligible access point that its request allows (RFC 6285, 6.2).
pub fn a_burst_begins_at_an_eligible_access_point()
    ensures { ABurstBeginsAtAnEligibleAccessPoint }
{}

/// Each retransmission is that of a packet that came (RFC 4588, 4), and there is one for each Burst
/// and Repair note.
pub fn each_datagram_is_the_retransmission_of_a_source_packet()
    ensures came { EachDatagramIsTheRetransmissionOfASourcePacket }
    ensures ordered { EachSendingIsOrderedOnce }
{}
