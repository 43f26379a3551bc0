//! A packet of a datagram (RFC 3550, 6.1).

/// A packet of a datagram.
#[derive(Clone, Copy)]
pub struct Packet<'a> {
    /// Its type, as `rams_model::BYE`.
    pub kind: u8,
    /// The five bits that count what it has, or name its format.
    pub count: u8,
    /// What stands behind its first word, without the padding.
    pub body: &'a [u8],
}
