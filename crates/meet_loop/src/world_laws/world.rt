//! What happens in a world, and what is said of it.
use crate::world_laws::sent_bytes::SentBytes;
use rams_model::{InfoCame, MediaCame, Note};
use receiver_core::Lent;
use server_hub::HubEvent;

/// One event of a world.
#[derive(Drop)]
pub enum WorldEvent {
    /// Something comes to the server.
    Hub(HubEvent),
    /// This client tunes to the channel `id`, as a receiver with this SSRC, and asks for a burst.
    Tune { id: u16, client: u64, ssrc: u32 },
    /// A datagram is delivered: that of this number, counted from 0 over all that were sent.
    Give { number: u64 },
    /// The source's packet of this number is delivered to a receiver by multicast.
    Mcast { id: u16, client: u64, n: u64 },
    /// A receiver asks for what it lacks.
    Ask { id: u16, client: u64 },
    /// A receiver leaves.
    Drop { id: u16, client: u64 },
}

/// What is said of an event of a world.
#[derive(Drop)]
pub enum WorldItem<'a> {
    /// There is no channel of this number.
    NoChannel(u16),
    /// A note of the channel.
    Note(Note),
    /// A datagram of the server to this client.
    Send {
        client: u64,
        bytes: SentBytes<'a>,
    },
    /// A datagram of this client's receiver to the feedback target (RFC 4585).
    Post {
        client: u64,
        bytes: Lent<'a>,
    },
    /// What became of a RAMS-I (RFC 6285, 7.3) that was delivered.
    Info {
        client: u64,
        came: InfoCame,
    },
    /// What became of a retransmission or a multicast packet that was delivered.
    Media {
        client: u64,
        came: MediaCame,
    },
    /// A receiver presents this packet, under the receiver's number of it.
    Show {
        client: u64,
        n: u64,
        packet: Lent<'a>,
    },
    /// This client was tuned to the channel before.
    TunedBefore(u64),
    /// This client has no receiver of the channel.
    NoReceiver(u64),
    /// No datagram has this number.
    NoDatagram(u64),
    /// The source has no packet of this number.
    NoPacket(u64),
    /// The packet's number is too far from the one that this client's receiver presents next.
    TooFar(u64),
}

/// What is said, and of which channel; the number is 0 where a datagram isn't there.
#[derive(Drop)]
pub struct WorldNote<'a> {
    pub id: u16,
    pub item: WorldItem<'a>,
}
