//! What RAMS messages say (RFC 6285, 7).

/// The fields of a RAMS-I message (RFC 6285, 7.3). Those that are `None` aren't sent.
#[derive(Clone, Copy, PartialEq, Eq)]
pub struct Info {
    /// Message sequence number.
    pub msn: u8,
    /// Response code.
    pub code: u16,
    /// Sequence number of the first packet in the retransmission stream.
    pub first: Option<u16>,
    /// Earliest time to join the multicast, in ms.
    pub join_ms: Option<u32>,
    /// Duration of the burst, in ms.
    pub length_ms: Option<u32>,
    /// Most bits per second that are sent.
    pub bps: Option<u64>,
}

/// The fields of a RAMS-T message (RFC 6285, 7.4).
#[derive(Clone, Copy, PartialEq, Eq)]
pub struct Stop {
    /// The extended number of the first multicast packet that the client has.
    pub first_multicast: Option<u32>,
}
