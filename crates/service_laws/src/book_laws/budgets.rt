//! Laws of budgets. A budget is a bucket: each tick adds to it, a packet takes its wire size, and
//! at most a depth is kept from tick to tick.
ghost use Rattle.service_laws.specs.book_laws.{ClientsStayWithinTheirBudgets, ClientsAreSentAtMostRateAndDepth, ChannelsStayWithinTheirBudgets, ChannelsSendAtMostShareAndSwell, OnlyTicksSend, ReservesFitTheShare, EachOpenBurstCountsOnce, RunsAreCovered, EachRunIsCovered, RunsComeFirst, ClientsAreSentAtMostTheirGains, BurstsAreSentAtMostTheirRates, ClientsAreSentAtMostBurst, ChannelsSendAtMostTheirShares};

/// In each tick a client is sent at most the rate of its open burst and what that burst kept, or
/// `burst` where it has none.
pub fn clients_stay_within_their_budgets()
    ensures budget { ClientsStayWithinTheirBudgets }
    ensures most { ClientsAreSentAtMostRateAndDepth }
{}

/// In each tick a channel sends at most its share and what it kept. Nothing is sent but in ticks.
pub fn channels_stay_within_their_budgets()
    ensures budget { ChannelsStayWithinTheirBudgets }
    ensures most { ChannelsSendAtMostShareAndSwell }
    ensures ticks { OnlyTicksSend }
{}

/// The rates and depths of the open bursts fit the share, beside the reserve.
pub fn reserves_fit_the_share()
    ensures fit { ReservesFitTheShare }
    ensures once { EachOpenBurstCountsOnce }
{}

/// A tick sends its runs before all repairs, and no run is cut short for want of the channel's
/// budget.
pub fn runs_are_covered()
    ensures covered { RunsAreCovered }
    ensures each { EachRunIsCovered }
    ensures first { RunsComeFirst }
{}

/// Over ticks that follow one another a client is sent at most what they add to its budget, and the
/// depth; a channel sends at most as many times the share as there are ticks, and the swell.
pub fn budgets_are_kept_over_ticks()
    ensures clients { ClientsAreSentAtMostTheirGains }
    ensures rates { BurstsAreSentAtMostTheirRates }
    ensures most { ClientsAreSentAtMostBurst }
    ensures channels { ChannelsSendAtMostTheirShares }
{}
