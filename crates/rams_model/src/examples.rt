//! Worked examples, which the checker computes.
ghost use Rattle.rams_model.specs.Worked.Live.{LiveRefusals, WindowAndLate, RestartLosesTheBurst, PaddingAndExtension, EveryBadPacket, ReachOfNumbers, JumpIsKept, WindowAtARestart, WindowReleases, RandomAccessFlag};
ghost use Rattle.rams_model.specs.Worked.Bursts.{OnePacketPerTick, NoEligibleAccessPoint, BurstLost, LimitAndIdle, ShareIsSpent, SlowClient, StatedJoinTimeIsKept, RingIsFilled, SourceSendsMoreThanDeclared, NotEligibleWithOneMore, BurstsInTheOrderOfClients, BurstWaitsForTheSource, RunStopsAtTheFirstThatDoesNotFit};
ghost use Rattle.rams_model.specs.Worked.Stops.{StopAcrossTheWrap, StopAfterTheLast, StopAlreadyPassed, StopHighBits, StopIsKept, StopWithoutNumber};
ghost use Rattle.rams_model.specs.Worked.Repairs.{RepairAcrossTheWrap, EarlyAndAlready, RepairWaitsForBudget, GoneFromTheRing, EarlyUpToTheStop, EachNumberAfterTheOther, NacksWithoutNumbers, RepairsBehindTheRuns};
ghost use Rattle.rams_model.specs.Worked.Requests.{CompoundFeedback, RequestRefusals, BufferFillBounds, FullTable, RateIsUpdated, UpdateFitsTheShare, EveryBadDatagram, PaddingIsAllowed, FirstRamsMessageCounts, MessagesInOrder, ByeOfAnother, SourceOfTheClient, RefusedOnAnOpenBurst, NamedSources, IdleIsCounted, BusyIsNotIdle, UpdatesInATrace, RefusalsInOrder};
ghost use Rattle.rams_model.specs.Worked.Buckets.{BurstKeepsWhatItLeft, DepthIsReserved, ChannelKeepsWhatItLeft, RepairsLeaveTheDepth, EndedBurstLeavesAll, UpdateKeepsWhatIsKept};
ghost use Rattle.rams_model.specs.Worked.Parts.{Numbers, Flags, FullRooms, LongTimes};
ghost use Rattle.rams_model.specs.Worked.Texts.{LiveNoteLines, MessageNoteLines, RepairNoteLines, LinesOfABook};

/// Numbers, access points, rates and codes by themselves.
pub fn parts_of_answers()
    ensures numbers { Numbers }
    ensures flags { Flags }
    ensures rooms { FullRooms }
    ensures times { LongTimes }
{}

/// Live packets: numbers, the reordering window, restarts.
pub fn live_packets()
    ensures live_refusals { LiveRefusals }
    ensures window_and_late { WindowAndLate }
    ensures restart_loses_the_burst { RestartLosesTheBurst }
    ensures padding_and_extension { PaddingAndExtension }
    ensures every_bad_packet { EveryBadPacket }
    ensures reach_of_numbers { ReachOfNumbers }
    ensures jump_is_kept { JumpIsKept }
    ensures window_at_a_restart { WindowAtARestart }
    ensures window_releases { WindowReleases }
    ensures random_access_flag { RandomAccessFlag }
{}

/// Where bursts begin, what they send, how they end.
pub fn bursts_in_ticks()
    ensures one_packet_per_tick { OnePacketPerTick }
    ensures no_eligible_access_point { NoEligibleAccessPoint }
    ensures burst_lost { BurstLost }
    ensures limit_and_idle { LimitAndIdle }
    ensures share_is_spent { ShareIsSpent }
    ensures slow_client { SlowClient }
    ensures stated_join_time_is_kept { StatedJoinTimeIsKept }
    ensures ring_is_filled { RingIsFilled }
    ensures source_sends_more_than_declared { SourceSendsMoreThanDeclared }
    ensures not_eligible_with_one_more { NotEligibleWithOneMore }
    ensures bursts_in_the_order_of_clients { BurstsInTheOrderOfClients }
    ensures burst_waits_for_the_source { BurstWaitsForTheSource }
    ensures run_stops_at_the_first_that_does_not_fit { RunStopsAtTheFirstThatDoesNotFit }
{}

/// Where a RAMS-T stops a burst (RFC 6285, 7.4).
pub fn stops_of_bursts()
    ensures stop_across_the_wrap { StopAcrossTheWrap }
    ensures stop_after_the_last { StopAfterTheLast }
    ensures stop_already_passed { StopAlreadyPassed }
    ensures stop_high_bits { StopHighBits }
    ensures stop_is_kept { StopIsKept }
    ensures stop_without_number { StopWithoutNumber }
{}

/// Repairs that generic NACKs ask for (RFC 4585, 6.2.1).
pub fn repairs_of_packets()
    ensures repair_across_the_wrap { RepairAcrossTheWrap }
    ensures early_and_already { EarlyAndAlready }
    ensures repair_waits_for_budget { RepairWaitsForBudget }
    ensures gone_from_the_ring { GoneFromTheRing }
    ensures early_up_to_the_stop { EarlyUpToTheStop }
    ensures each_number_after_the_other { EachNumberAfterTheOther }
    ensures nacks_without_numbers { NacksWithoutNumbers }
    ensures repairs_behind_the_runs { RepairsBehindTheRuns }
{}

/// Which RAMS-R are refused, and what a client is told (RFC 6285, 7.2).
pub fn requests_of_clients()
    ensures compound_feedback { CompoundFeedback }
    ensures request_refusals { RequestRefusals }
    ensures buffer_fill_bounds { BufferFillBounds }
    ensures full_table { FullTable }
    ensures rate_is_updated { RateIsUpdated }
    ensures update_fits_the_share { UpdateFitsTheShare }
    ensures every_bad_datagram { EveryBadDatagram }
    ensures padding_is_allowed { PaddingIsAllowed }
    ensures first_rams_message_counts { FirstRamsMessageCounts }
    ensures messages_in_order { MessagesInOrder }
    ensures bye_of_another { ByeOfAnother }
    ensures source_of_the_client { SourceOfTheClient }
    ensures refused_on_an_open_burst { RefusedOnAnOpenBurst }
    ensures named_sources { NamedSources }
    ensures idle_is_counted { IdleIsCounted }
    ensures busy_is_not_idle { BusyIsNotIdle }
    ensures updates_in_a_trace { UpdatesInATrace }
    ensures refusals_in_order { RefusalsInOrder }
{}

/// What bursts and the channel keep from tick to tick.
pub fn budgets_of_ticks()
    ensures burst_keeps_what_it_left { BurstKeepsWhatItLeft }
    ensures depth_is_reserved { DepthIsReserved }
    ensures channel_keeps_what_it_left { ChannelKeepsWhatItLeft }
    ensures repairs_leave_the_depth { RepairsLeaveTheDepth }
    ensures ended_burst_leaves_all { EndedBurstLeavesAll }
    ensures update_keeps_what_is_kept { UpdateKeepsWhatIsKept }
{}

/// The line of every note, and the lines of a book.
pub fn lines_of_notes()
    ensures of_live { LiveNoteLines }
    ensures of_messages { MessageNoteLines }
    ensures of_repairs { RepairNoteLines }
    ensures of_a_book { LinesOfABook }
{}
