//! What a world keeps.
ghost use Rattle.std.specs.Prelude.{◌≡◌};
ghost use Rattle.meet_loop.specs.world_net.{kept_of, listening_at};

use crate::world_net::packets::Packets;
use crate::world_net::parcel::Parcel;
use crate::world_net::places::Places;
use crate::world_net::seat::Seat;
use receiver_core::Bump;
use server_hub::Hub;

/// What a world keeps.
#[derive(Drop)]
pub(crate) struct Parts<'a> {
    pub hub: Hub,
    /// The bytes of packets and datagrams stay here as long as the world does.
    pub arena: &'a Bump,
    /// The live packets that were taken, as they came, by their channel's number and their own.
    pub packets: Packets<'a>,
    /// The datagrams, in the order in which they were sent.
    pub parcels: Vec<Parcel<'a>>,
    /// Where the receivers are, by their channel's number and their client.
    pub places: Places,
    /// The receivers, in the order in which they were tuned.
    pub seats: Vec<Seat<'a>>,
    /// A datagram is spelled here where it is delivered.
    pub room: Vec<u8>,
}

impl<'a> Parts<'a> {
    /// Where the client's receiver of a channel is, unless it left.
    pub(crate) fn listening(&self, id: u16, client: u64) -> Option<usize>
        ensures { result ≡ listening_at (kept_of self.now) id client }
    {
        let place = self.places.find(id, client)?;
        let seat = self.seats.get(place)?;
        if seat.receiver.is_none() {
            return None;
        }
        Some(place)
    }
}
