//! A packet that a channel holds.
use bytes::Bytes;

/// A packet of the source, under its number.
#[derive(Drop)]
pub struct Held {
    /// Its extended sequence number (RFC 3550, A.1).
    pub n: u64,
    /// Its timestamp, in units of 1/90,000 s.
    pub ts: u32,
    /// The bytes that its retransmission takes on the wire.
    pub wire: u32,
    /// Whether a decoder may start with it.
    pub access: bool,
    /// The packet without its padding.
    pub packet: Bytes,
}
