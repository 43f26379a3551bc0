//! Tests of the crates of packets, on their public calls alone: packets byte for byte, and each fault at
//! its edge. Expected values are worked out by hand from the RFCs.
//!
//! `rtp_packets`, `retransmissions`, `rtcp_packets`, `nacks` and `rams_messages` each have the tests of one
//! crate, as tables where like cases are many; `readings` runs the tables of what is read.
#![tactic(auto)]

#[cfg(test)]
mod fixtures;
#[cfg(test)]
mod nacks;
#[cfg(test)]
mod rams_messages;
#[cfg(test)]
mod readings;
#[cfg(test)]
mod retransmissions;
#[cfg(test)]
mod rtcp_packets;
#[cfg(test)]
mod rtp_packets;
