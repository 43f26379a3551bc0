//! What a channel reckons with: extended sequence numbers and ages, rates and join times, and the budget of its share.
#![tactic(auto)]

pub mod burst_plan;
pub mod ext_seq;
pub mod link_budget;
