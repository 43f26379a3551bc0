//! Which messages a feedback datagram has.
ghost use Rattle.service_laws.specs.byte_laws.{EachDatagramIsAnsweredWhole};

/// Of a feedback datagram that is RTCP packets joined end to end (RFC 3550, 6.1) just these messages are
/// answered, in order: each BYE, each generic NACK (RFC 4585, 6.2.1) with the numbers that its words name,
/// and the first RAMS-R or RAMS-T (RFC 6285, 7.2 and 7.4) with what its TLVs say. Of any other datagram
/// that is noted, and nothing else.
pub fn each_datagram_is_answered_whole()
    ensures { EachDatagramIsAnsweredWhole }
{}
