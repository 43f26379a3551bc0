//! Events whose bytes stand on a page that is used again.
ghost use Rattle.std.specs.Prelude.{◌≡◌};
ghost use Rattle.generated.specs.trace_gen.{event_on};

use bytes::Bytes;
use rams_model::{Event, Octets};

/// What an event is, beside its bytes.
#[derive(Clone, Copy, PartialEq, Eq)]
pub enum Kind {
    /// A packet of the multicast.
    Live,
    /// A datagram to the feedback target from this client.
    Feedback { client: u64 },
    /// A tick, which has no bytes.
    Tick,
}

impl Kind {
    /// The event of this kind with these bytes. Takes no memory.
    pub fn with_bytes(self, bytes: Vec<u8>) -> Event
        ensures { result ≡ event_on self bytes.items }
    {
        match self {
            Kind::Live => Event::Live(Octets::of(bytes)),
            Kind::Feedback { client } => Event::Feedback {
                client,
                bytes: Octets::of(bytes),
            },
            Kind::Tick => Event::Tick,
        }
    }
}

/// A packet of the multicast, with what is read of it.
#[derive(Drop)]
pub struct Packet {
    pub sequence: u16,
    /// In units of 1/90,000 s.
    pub timestamp: u32,
    pub marker: bool,
    pub bytes: Bytes,
}

/// An event: a packet in memory of its own, or one whose bytes stand on a page.
#[derive(Drop)]
pub enum Next {
    Packet(Packet),
    OnPage(Kind),
}
