//! Why the join time that a client is told is kept: after it the burst has caught up with the source.
ghost use Rattle.service_laws.specs.book_laws.{QuietBurstsAreNeverLost, QuietBurstsKeepTheirJoinTimes, QuietForThreeTicks, LostWhereTooMuchComes};

/// A burst is quiet where, from its Accept until its End or until now, nothing is missing in the
/// source from its first packet on, no packet there is smaller than `minwire`, and no tick adds more
/// than `declared` bytes. Such a burst never ends because its next packet is no longer held. Once as
/// many ticks have passed since its latest Accept or Update as this note told the client, each tick
/// that leaves it open leaves nothing behind: its next packet is the one after all that are held.
pub fn quiet_bursts_keep_their_join_times()
    ensures lost { QuietBurstsAreNeverLost }
    ensures caught_up { QuietBurstsKeepTheirJoinTimes }
{}

/// A burst of three packets is quiet for the three ticks that its client was told. One that is lost,
/// because more than declared came before a tick, was not.
pub fn three_quiet_ticks()
    ensures quiet { QuietForThreeTicks }
    ensures lost { LostWhereTooMuchComes }
{}
