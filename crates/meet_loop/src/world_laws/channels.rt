//! Laws of a channel's source. A law is the contract of a function that does nothing.
ghost use Rattle.meet_loop.specs.world_laws.{EachPacketOfTheSourceCame, EachOrderIsForAPacketOfTheSource, TheSourceKeepsItsPackets};

/// Each packet of the source came in a live event, and is kept under a number of at least 65,536 that
/// has its sequence number as low 16 bits (RFC 3550, A.1).
pub fn each_packet_of_the_source_came()
    ensures { EachPacketOfTheSourceCame }
{}

/// Each packet that is sent is one of the source, which keeps its packets.
pub fn what_is_sent_is_of_the_source()
    ensures sent { EachOrderIsForAPacketOfTheSource }
    ensures kept { TheSourceKeepsItsPackets }
{}
