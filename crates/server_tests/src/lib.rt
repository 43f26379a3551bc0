//! Tests of the crates of a channel's answers and of the hub, on their public calls alone.
//!
//! `fixtures` has the words of messages; `row` says what a row of a table is, and runs it. Each of the other
//! modules tests a crate.
#![tactic(auto)]

// feedback_core
#[cfg(test)]
mod feedback;
#[cfg(test)]
mod fixtures;
// server_hub
#[cfg(test)]
mod hub;
#[cfg(test)]
mod row;
// session_core
#[cfg(test)]
mod session;
// tick_core
#[cfg(test)]
mod ticks;
