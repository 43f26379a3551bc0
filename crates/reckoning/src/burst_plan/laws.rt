//! Why a burst keeps the join time that its client is told.
//!
//! A law is the contract of a function that does nothing. Its words stand in `specs/` and, of lists
//! that catch up, in the definitions of the channel.
ghost use Rattle.rams_model.specs.Laws.{CatchingUpEnds};
ghost use Rattle.reckoning.specs.burst_plan.{JoinTimesAreLeast, JoinTimesAreKept, CatchesUpInThreeTicks, QuietTicksComeNearer, QuietBurstsKeepTheirJoinTime, QuietBurstsFallBackNoFurther};

/// Of a list of pairs, bytes behind and bytes kept, that catches up by a gain, nothing is left after
/// as many steps as gain what stood before the first.
#[tactic(auto, using(rams_model::proofs::Catching::catching_up_ends))]
pub fn catching_up_ends()
    ensures { CatchingUpEnds }
{}

/// The join time is the least number of ticks in which the gain makes up for what is behind; so of a
/// list that catches up nothing is left after it.
#[tactic(auto, using(crate::proofs::burst_plan::JoinTimes::least_join, crate::proofs::burst_plan::JoinTimes::kept_join))]
pub fn join_times_are_kept()
    ensures least { JoinTimesAreLeast }
    ensures kept { JoinTimesAreKept }
{}

/// A burst is quiet where nothing is missing and each tick adds at most what is declared. Each of its
/// ticks is a step nearer by its gain: so it has caught up after its join time, and never was further
/// behind than at first and by what a tick adds.
pub fn quiet_bursts_catch_up()
    ensures nearer { QuietTicksComeNearer }
    ensures kept { QuietBurstsKeepTheirJoinTime }
    ensures within { QuietBurstsFallBackNoFurther }
{}

/// A worked example: five packets of 1,500 bytes at a rate of 2,999 bytes are sent in three ticks,
/// where the burst may keep what one packet doesn't fill.
pub fn five_packets_in_three_ticks()
    ensures { CatchesUpInThreeTicks }
{}
