//! What is true of each history of a channel.
//!
//! A law is the contract of a function that does nothing. Its words stand in `specs/`.
ghost use Rattle.channel_parts.specs.{KnownClientsRise, OpenedClientsRise, OpenedHaveBursts, KnownClientsAreFew, OnlyKnownClientsHaveBursts, OpenedAreTheKnownWithBursts, KnownClientsAreIdleForLess, RepairsAreOfKnownClients, RepairsAreWithinLimits, OpenBurstsAreWithinBounds, OpenBurstsHaveATickLeft, ReservedLeavesTheReserve, EachBurstIsReserved, LeftIsWithinShareAndSwell, AcceptsReserve, UpdatesReserve, EndsRelease, OtherNotesReserveNothing, EventsReserveNothing, MessagesReserveNothing, TheEndOfTheHeldNeverFalls, HeldNumbersAreSmall, ReadPacketsHaveLowNumbers, SequencesHave16Bits, HeldPacketsAreInOrder, KnownClientsHaveEntries, EntriesAreOfTheirClients, EntriesAreInBounds, ReservedIsOfTheEntries, LivePacketsChangeTheCache, OtherEventsLeaveTheCache};

/// The known clients, and those with an open burst, stand by rising number, each once; no more are
/// known than the settings allow.
pub fn clients_stand_once()
    ensures known { KnownClientsRise }
    ensures opened { OpenedClientsRise }
    ensures bursts { OpenedHaveBursts }
    ensures few { KnownClientsAreFew }
{}

/// Between two events only known clients have an open burst.
pub fn only_known_clients_have_bursts()
    ensures only { OnlyKnownClientsHaveBursts }
    ensures opened { OpenedAreTheKnownWithBursts }
{}

/// Between two events a known client has been idle for fewer ticks than after which it is forgotten.
pub fn known_clients_are_idle_for_less()
    ensures { KnownClientsAreIdleForLess }
{}

/// The pending repairs are of known clients. None is pending twice; at most 256 are of a client, and
/// at most 4,096 in all.
pub fn repairs_are_of_known_clients()
    ensures known { RepairsAreOfKnownClients }
    ensures limits { RepairsAreWithinLimits }
{}

/// What an open burst is sent next is at most one above what is held, and its rate is in range;
/// between two events it has a tick left.
pub fn open_bursts_are_within_bounds()
    ensures bounds { OpenBurstsAreWithinBounds }
    ensures ticks { OpenBurstsHaveATickLeft }
{}

/// The rates and depths of open bursts are reserved, and leave the reserve; what the channel may send
/// is at most a share and the swell.
pub fn budgets_are_within_the_share()
    ensures reserve { ReservedLeavesTheReserve }
    ensures bursts { EachBurstIsReserved }
    ensures left { LeftIsWithinShareAndSwell }
{}

/// An Accept reserves a rate and the depth, an Update changes the rate, and an End gives both back;
/// nothing else changes what is reserved.
pub fn notes_reserve()
    ensures accept { AcceptsReserve }
    ensures update { UpdatesReserve }
    ensures end { EndsRelease }
    ensures others { OtherNotesReserveNothing }
    ensures events { EventsReserveNothing }
    ensures messages { MessagesReserveNothing }
{}

/// The end of what is held never falls. The numbers of held packets are small as long as few packets
/// came, and retransmission sequence numbers have 16 bits.
pub fn numbers_are_small()
    ensures end { TheEndOfTheHeldNeverFalls }
    ensures held { HeldNumbersAreSmall }
    ensures read { ReadPacketsHaveLowNumbers }
    ensures sequences { SequencesHave16Bits }
{}

/// What parts are that stand for some events: they hold what the history holds, each known client has
/// its entry in the table and no other has one, each number of an entry is in its bounds, and what is
/// reserved is what the bursts of the table reserve.
pub fn parts_are_in_bounds()
    ensures held { HeldPacketsAreInOrder }
    ensures known { KnownClientsHaveEntries }
    ensures entries { EntriesAreOfTheirClients }
    ensures bounds { EntriesAreInBounds }
    ensures reserved { ReservedIsOfTheEntries }
{}

/// Parts that stand for some events stand for one more: after a live packet where the cache took it,
/// and after a tick or a datagram where table, queue and budget are those of the history with it.
pub fn parts_go_on()
    ensures live { LivePacketsChangeTheCache }
    ensures others { OtherEventsLeaveTheCache }
{}
