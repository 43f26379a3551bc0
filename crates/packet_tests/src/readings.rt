//! Bytes and what they are read as: the tables of all modules.
use crate::{nacks, retransmissions, rtcp_packets, rtp_packets};
use std::test::Fail;

#[test]
fn rtp_packets_are_read(rt: HostRuntime) -> Result<(), Fail> {
    rtp_packets::expect_parts(&rt, rt.alloc())?;
    rtp_packets::expect_faults(&rt, rt.alloc())
}

#[test]
fn retransmissions_are_read(rt: HostRuntime) -> Result<(), Fail> {
    retransmissions::expect_faults(&rt, rt.alloc())
}

#[test]
fn rtcp_packets_are_read(rt: HostRuntime) -> Result<(), Fail> {
    rtcp_packets::expect_framed(&rt, rt.alloc())?;
    rtcp_packets::expect_byes(&rt, rt.alloc())
}

#[test]
fn nacks_are_read(rt: HostRuntime) -> Result<(), Fail> {
    nacks::expect_numbers(&rt, rt.alloc())?;
    nacks::expect_messages(&rt, rt.alloc())
}
