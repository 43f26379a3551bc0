//! What the repairs of a client may take in a tick.

/// What the repairs of a client may take in a tick, after the runs.
#[derive(Clone, Copy, PartialEq, Eq)]
pub struct Allowance {
    pub client: u64,
    /// Bytes.
    pub may_take: u64,
    /// The number of its next retransmission (RFC 4588, 4).
    pub seq: u16,
}
