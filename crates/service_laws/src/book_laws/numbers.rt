//! The sequence numbers of what a client is sent, and the one that an Accept names.
ghost use Rattle.service_laws.specs.book_laws.{AnOpenBurstsClientIsKnown, WhoIsSentABurstStayedKnown, TheFirstNumberIsTheBursts, TheFirstSendingHasTheNumberThatTheAcceptNamed, RepairsComeAfterTheFirstSending};

/// The first sending of a burst has the sequence number that TLV 32 of the Accept's RAMS-I names,
/// and what the client is sent from then on has the ones after it (RFC 6285, 7.3).
pub fn the_first_sending_has_the_number_that_the_accept_named()
    ensures named { TheFirstSendingHasTheNumberThatTheAcceptNamed }
    ensures repairs { RepairsComeAfterTheFirstSending }
{}

/// A client with an open burst is known: it stays so from the Accept on.
pub fn an_open_bursts_client_is_known()
    ensures known { AnOpenBurstsClientIsKnown }
    ensures stays { WhoIsSentABurstStayedKnown }
{}

/// Each of the first 16,384 packets that a burst sends, as long as nothing was repaired for its client
/// since the Accept, tells the burst's first number to a receiver that has its RAMS-I: that number, less
/// how far the sequence number is ahead of the one in TLV 32 (RFC 6285, 7.3).
pub fn the_first_number_is_the_bursts()
    ensures { TheFirstNumberIsTheBursts }
{}
