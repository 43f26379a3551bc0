//! The numbers by which RAMS messages and their TLVs are told apart (RFC 6285, 7).

/// The sub-format of a RAMS-R, a request (RFC 6285, 7.2).
pub const SFMT_RAMS_R: u8 = 1;

/// The sub-format of a RAMS-I, information on a burst (RFC 6285, 7.3).
pub const SFMT_RAMS_I: u8 = 2;

/// The sub-format of a RAMS-T, a termination (RFC 6285, 7.4).
pub const SFMT_RAMS_T: u8 = 3;

/// In a RAMS-R: the SSRCs of the media senders that are asked for.
pub const TLV_MEDIA_SENDERS: u8 = 1;

/// In a RAMS-R: the least buffer fill, in milliseconds.
pub const TLV_MIN_BUFFER_FILL: u8 = 2;

/// In a RAMS-R: the greatest buffer fill, in milliseconds.
pub const TLV_MAX_BUFFER_FILL: u8 = 3;

/// In a RAMS-R: the greatest bit rate that can be received, in bits per second.
pub const TLV_MAX_RECEIVE_BITRATE: u8 = 4;

/// In a RAMS-R: no burst is asked for but its preamble.
pub const TLV_PREAMBLE_ONLY: u8 = 5;

/// In a RAMS-I: the sequence number of the burst's first packet.
pub const TLV_FIRST_SEQUENCE: u8 = 32;

/// In a RAMS-I: the earliest time to join the multicast, in milliseconds from now.
pub const TLV_JOIN_TIME: u8 = 33;

/// In a RAMS-I: how long the burst lasts, in milliseconds.
pub const TLV_BURST_DURATION: u8 = 34;

/// In a RAMS-I: the greatest bit rate of the burst, in bits per second.
pub const TLV_MAX_TRANSMIT_BITRATE: u8 = 35;

/// In a RAMS-T: the extended sequence number of the first packet from the multicast.
pub const TLV_FIRST_MULTICAST: u8 = 61;
