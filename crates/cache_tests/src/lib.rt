//! Tests of what a channel keeps of its packets, on public calls alone: tables that were worked out by hand.
//!
//! Each module but `fixtures` has the tests of one crate: `sequence_numbers` those of `ext_seq`,
//! `access_flags` of `ts_access`, `reordering` of `reorder_window`, `rings` of `packet_ring`,
//! `burst_starts` of `access_index`, `live_packets` of `channel_cache`.
#![tactic(auto)]

#[cfg(test)]
mod access_flags;
#[cfg(test)]
mod burst_starts;
#[cfg(test)]
mod fixtures;
#[cfg(test)]
mod live_packets;
#[cfg(test)]
mod reordering;
#[cfg(test)]
mod rings;
#[cfg(test)]
mod sequence_numbers;
