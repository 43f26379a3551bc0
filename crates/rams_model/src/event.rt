//! What comes to a channel.
use crate::octets::Octets;

/// One event of a channel.
#[derive(Drop)]
pub enum Event {
    /// A packet of the multicast, as it came.
    Live(Octets),
    /// A datagram to the feedback target (RFC 4585) from this client.
    Feedback { client: u64, bytes: Octets },
    /// A tick of the channel's clock.
    Tick,
}
