//! The version of RTP and RTCP.

/// Version 2 in the first byte of a packet, whose other bits are zeros: no padding, and nothing
/// counted (RFC 3550, 5.1 and 6.4.1).
pub const VERSION_2: u8 = 0x80;
