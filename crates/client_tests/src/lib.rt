//! Tests of what a channel keeps of its clients and may send to them, on public calls alone: tables that
//! were worked out by hand.
//!
//! Each module but `fixtures` has the tests of one crate: `clients` those of `client_table`, `repairs` of
//! `repair_queue`, `budgets` of `link_budget`, `burst_plans` of `burst_plan`.
#![tactic(auto)]

#[cfg(test)]
mod budgets;
#[cfg(test)]
mod burst_plans;
#[cfg(test)]
mod clients;
#[cfg(test)]
mod fixtures;
#[cfg(test)]
mod repairs;
