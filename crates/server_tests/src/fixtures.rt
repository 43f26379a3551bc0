//! What is compared, and the words of messages.
use std::fmt::Display;
use std::process::Abort;
use test_fixtures::test_channel::SOURCE;

/// The value is the one that is wanted of this.
pub fn same<T: PartialEq, C: Display>(rt: &impl Abort, got: &T, want: &T, of: &C) {
    assert!(rt; *got == *want, "{of}");
}

/// It holds of this.
pub fn holds<C: Display>(rt: &impl Abort, is_so: bool, of: &C) {
    assert!(rt; is_so, "{of}");
}

/// The SSRC of a client.
pub const SENDER: u32 = 0x0000_c001;

/// A RAMS-R without TLVs (RFC 6285, 7.2).
pub const REQUEST: [u32; 4] = [
    0x86cd_0003, // v=2, p=0, FMT=6 (RAMS), RTPFB, length 3
    SENDER, // sender
    SOURCE, // media source
    0x0100_0000, // SFMT=1 (RAMS-R)
];

/// A RAMS-T that names number 1 after nine wraps (RFC 6285, 7.4).
pub const STOP: [u32; 6] = [
    0x86cd_0005, // v=2, p=0, FMT=6 (RAMS), RTPFB, length 5
    SENDER, // sender
    SOURCE, // media source
    0x0300_0000, // SFMT=3 (RAMS-T)
    0x3d00_0004, // TLV 61 (first multicast packet), length 4
    0x0009_0001, // nine wraps, number 1
];

/// A BYE (RFC 3550, 6.6).
pub const BYE: [u32; 2] = [
    0x81cb_0001, // v=2, p=0, count=1, BYE, length 1
    SENDER, // its SSRC
];

/// The first word of a generic NACK of one entry (RFC 4585, 6.2.1): v=2, p=0, FMT=1, RTPFB, length 3.
pub const NACK: u32 = 0x81cd_0003;
