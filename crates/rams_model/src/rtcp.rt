//! The numbers by which RTCP packets are told apart.

/// A receiver report (RFC 3550, 6.4.2).
pub const RR: u8 = 201;

/// A source description (RFC 3550, 6.5).
pub const SDES: u8 = 202;

/// A goodbye (RFC 3550, 6.6).
pub const BYE: u8 = 203;

/// Transport layer feedback (RFC 4585, 6.1).
pub const RTPFB: u8 = 205;

/// Payload-specific feedback (RFC 4585, 6.1).
pub const PSFB: u8 = 206;

/// The format of a generic NACK, a transport layer feedback (RFC 4585, 6.2.1).
pub const FMT_NACK: u8 = 1;

/// The format of a RAMS message, a transport layer feedback (RFC 6285, 7).
pub const FMT_RAMS: u8 = 6;
