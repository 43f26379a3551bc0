//! Tests of the wire over UDP on loopback, and of the clock of the machine, by public calls.
//!
//! `peers` makes wires and their peers, `loopback` has what a wire receives and sends, `refusals`
//! what it refuses, and `clocks` the clock.
#![tactic(auto)]

#[cfg(test)]
mod clocks;
#[cfg(test)]
mod loopback;
#[cfg(test)]
mod peers;
#[cfg(test)]
mod refusals;
