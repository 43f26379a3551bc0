//! The datagrams of a world.
ghost use Rattle.std.specs.Prelude.{◌≡◌, ◌<◌, IfOk, IfSome, OnOk};
ghost use Rattle.rams_model.specs.Formats.{packet_at};
ghost use Rattle.rams_model.specs.Service.{sent_again};
ghost use Rattle.meet_loop.specs.world_laws.{posts};
ghost use Rattle.meet_loop.specs.declared.world_laws.world.WorldItem.TheVariants as item;
ghost use Rattle.meet_loop.specs.world_net.{as_way, sent_of};

use crate::world_laws::{Repeat, SentBytes, WorldItem};
use crate::world_net::lending::lend;
use book_text::order_datagrams::{Config, render_order};
use ram_io::NoMemory;
use rams_model::Order;
use receiver_core::{Bump, Lent};
use std::alloc::Global;
use std::marker::Model;

/// Why a datagram was sent.
#[derive(Clone, Copy)]
pub(crate) enum Way {
    /// A receiver posted it to the feedback target (RFC 4585).
    Posts,
    /// The server tells of a burst, in a RAMS-I (RFC 6285, 7.3).
    Tells,
    /// The server sends the source's packet of this number again (RFC 4588).
    Repeats(u64),
}

/// Room for so many datagrams is asked for with the first that is posted. The system gives a block of this
/// size page by page, as it is written, and lets it grow without a copy.
const ROOM: usize = 1 << 16;

/// Makes that room. Where there is none, it grows as it is needed.
pub(crate) fn make_room(parcels: &mut Vec<Parcel<'_>>)
    ensures { parcels.new.items ≡ parcels.old.items }
{
    if parcels.capacity() == 0 {
        let _ = parcels.try_reserve(ROOM);
    }
}

/// What a datagram's bytes are.
#[derive(Clone, Copy)]
enum Kind {
    Posted,
    Told,
    /// The bytes are the packet that is repeated.
    Repeated,
}

/// A datagram that was sent. Its bytes are lent, as to what is said of it. A world keeps very many, so
/// that its parts are few bytes.
#[derive(Drop)]
pub(crate) struct Parcel<'a> {
    client: u64,
    /// The number of the packet that is repeated; 0 where none is.
    n: u64,
    bytes: Lent<'a>,
    id: u16,
    /// What a retransmission has in place of its packet's own (RFC 4588, 4); 0 of all else.
    sequence: u16,
    payload_type: u8,
    kind: Kind,
}

impl<'a> Model for Parcel<'a> {
    ghost use Rattle.std.specs.Prelude.{◌<◌};
    ghost use Rattle.meet_loop.specs.world_laws.World.{Datagram};
    ghost use Rattle.meet_loop.specs.world_net.Ways.{way_by, bytes_by};

    ghost Value = { Datagram };

    ghost view = { λ p. record { id = p.id; client = p.client; way = way_by p.kind p.n; bytes = bytes_by p.kind p.payload_type p.sequence p.bytes } };

    ghost invariant = { λ p. p.payload_type < 128 };
}

impl<'a> Parcel<'a> {
    /// A datagram of this client's receiver.
    pub(crate) fn posted(id: u16, client: u64, bytes: &'a [u8]) -> Parcel<'a>
        ensures { result ≡ record { id = id; client = client; way = posts; bytes = bytes.now } }
    {
        Parcel {
            client,
            n: 0,
            bytes: Lent::of(bytes),
            id,
            sequence: 0,
            payload_type: 0,
            kind: Kind::Posted,
        }
    }

    /// The datagram of an order of a channel with these settings. The packet that is sent again stays in
    /// the arena.
    #[tactic(auto, unfolding(rams_model::specs::Service::Orders::datagram))]
    pub(crate) fn ordered(
        alloc: Global,
        arena: &'a Bump,
        config: &Config,
        order: Order,
    ) -> Result<Parcel<'a>, NoMemory>
        ensures { IfOk result (λ parcel. parcel ≡ sent_of config.now order) }
    {
        match order {
            Order::Rtx {
                client,
                n,
                seq,
                packet,
            } => Ok(Parcel {
                client,
                n,
                bytes: lend(arena, packet)?,
                id: config.channel().id,
                sequence: seq,
                payload_type: config.channel().rtx,
                kind: Kind::Repeated,
            }),
            Order::Info { client, .. } => Ok(Parcel {
                client,
                n: 0,
                bytes: Lent::copied(arena, &render_order(alloc, config, &order)?)?,
                id: config.channel().id,
                sequence: 0,
                payload_type: 0,
                kind: Kind::Told,
            }),
        }
    }

    /// The number of its channel.
    pub(crate) fn id(&self) -> u16
        ensures { result ≡ self.now.id }
    {
        self.id
    }

    /// The client that posted it, or to which it was sent.
    pub(crate) fn client(&self) -> u64
        ensures { result ≡ self.now.client }
    {
        self.client
    }

    pub(crate) fn way(&self) -> Way
        ensures { as_way result ≡ self.now.way }
    {
        match self.kind {
            Kind::Posted => Way::Posts,
            Kind::Told => Way::Tells,
            Kind::Repeated => Way::Repeats(self.n),
        }
    }

    /// The packet that its bytes repeat, where they are a retransmission.
    pub(crate) fn repeat(&self) -> Option<Repeat<'a>>
        ensures bytes { IfSome result (λ r. self.now.bytes ≡ sent_again r.payload_type r.sequence (packet_at r.packet.now)) }
        ensures kind { IfSome result (λ r. r.payload_type < 128) }
    {
        match self.kind {
            Kind::Repeated => Some(Repeat {
                packet: self.bytes.as_slice(),
                payload_type: self.payload_type,
                sequence: self.sequence,
            }),
            Kind::Posted | Kind::Told => None,
        }
    }

    // Its bytes.
    fn sent(&self) -> SentBytes<'a>
        ensures { result ≡ self.now.bytes }
    {
        let bytes = self.bytes.as_slice();
        match self.kind {
            Kind::Repeated => SentBytes::again(bytes, self.payload_type, self.sequence),
            Kind::Posted | Kind::Told => SentBytes::whole(bytes),
        }
    }

    /// Its bytes stand in `room` then; what stood there goes.
    pub(crate) fn spell(&self, room: &mut Vec<u8>) -> Result<(), NoMemory>
        ensures { OnOk result (room.new.items ≡ self.now.bytes) }
    {
        room.clear();
        self.sent().append_to(room)
    }

    /// What is said of it where the server sent it.
    pub(crate) fn as_sent(&self) -> WorldItem<'a>
        ensures { result ≡ item.Send self.now.client self.now.bytes }
    {
        WorldItem::Send {
            client: self.client,
            bytes: self.sent(),
        }
    }
}
