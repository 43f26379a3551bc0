//! Tests of a server, of a standby and of a takeover, over a source, a sink, a wire and a clock in memory, on
//! public calls alone, worked out by hand.
//!
//! `memory` has what comes and goes in memory. `turn_row` says what a row of a server's turns is, and runs it;
//! `turns` has the rows, `watched` what is told of some. `journals` reads a journal in pieces; `pieces` has how far
//! journals are read, `taken` what is taken over from them. `takeover_row` says what a row of a takeover is, and
//! runs it; `takeovers` has the rows, `cuts` a journal that is cut at each byte.
#![tactic(auto)]

#[cfg(test)]
mod cuts;
#[cfg(test)]
mod journals;
#[cfg(test)]
mod memory;
#[cfg(test)]
mod pieces;
#[cfg(test)]
mod taken;
#[cfg(test)]
mod takeover_row;
#[cfg(test)]
mod takeovers;
#[cfg(test)]
mod turn_row;
#[cfg(test)]
mod turns;
#[cfg(test)]
mod watched;
