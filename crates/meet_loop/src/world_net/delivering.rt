//! What is delivered in a world.
ghost use Rattle.std.specs.Prelude.{◌≡◌, ℕ, ◌+◌, ◌-◌, ◌^◌, ◌<◌, List, OnOk, length, slice_get, Some, option_map};
ghost use Rattle.server_hub.specs.{channel_of};
ghost use Rattle.server_hub.specs.Served.{Served};
ghost use Rattle.server_hub.specs.Seen as hubs;
ghost use Rattle.meet_loop.specs.world_laws.{posts, tells, repeats, datagram_at, giving, giving_by, casting};
ghost use Rattle.meet_loop.specs.world_laws.World.{World, Datagram};
ghost use Rattle.meet_loop.specs.world_net.{Stands, Goes, AreFew, EndsSo, packet_in, packet_below};

use crate::world_laws::{WorldItem, WorldNote};
use crate::world_net::hearing::{hear_again, hear_info, hear_multicast};
use crate::world_net::packets::Packets;
use crate::world_net::parcel::Way;
use crate::world_net::parts::Parts;
use crate::world_net::telling::{say, tell};
use ram_io::NoMemory;
use server_hub::Heard;
use std::alloc::Global;

impl<'a> Parts<'a> {
    /// The datagram of this number is delivered.
    pub(crate) fn give(
        &mut self,
        alloc: Global,
        number: u64,
        notes: &mut Vec<WorldNote<'a>>,
    ) -> Result<(), NoMemory>
        requires { AreFew (2 ^ 40 - 1) self.old }
        ensures goes { (w : World) → Stands self.old w → OnOk result (Goes (giving number (datagram_at number w) w) notes.old.items notes.new.items self.new) }
        ensures few { (n : ℕ) → AreFew n self.old → AreFew (n + 1) self.new }
    {
        if number >= self.parcels.len() as u64 {
            return say(notes, 0, WorldItem::NoDatagram(number));
        }
        let at = number as usize;
        match self.parcels[at].way() {
            Way::Posts => self.give_posted(alloc, at, notes),
            Way::Tells => self.give_info(at, notes),
            Way::Repeats(n) => self.give_again(alloc, at, n, notes),
        }
    }

    // A receiver's datagram comes to the server.
    fn give_posted(
        &mut self,
        alloc: Global,
        at: usize,
        notes: &mut Vec<WorldNote<'a>>,
    ) -> Result<(), NoMemory>
        requires there { at < length self.old.parcels.items }
        requires few { AreFew (2 ^ 40 - 1) self.old }
        ensures goes { (w : World) (d : Datagram) → Stands self.old w → slice_get self.old.parcels.items at ≡ Some d
            → OnOk result (Goes (giving_by posts d w) notes.old.items notes.new.items self.new) }
        ensures few { (n : ℕ) → AreFew n self.old → AreFew (n + 1) self.new }
    {
        let parcel = &self.parcels[at];
        parcel.spell(&mut self.room)?;
        let heard = Heard::Feedback {
            id: parcel.id(),
            client: parcel.client(),
            bytes: &self.room,
        };
        let answer = self.hub.hear(alloc, heard)?;
        tell(
            alloc,
            self.arena,
            &self.hub,
            answer,
            notes,
            &mut self.parcels,
        )
    }

    // A RAMS-I comes to the receiver to which it was sent.
    fn give_info(&mut self, at: usize, notes: &mut Vec<WorldNote<'a>>) -> Result<(), NoMemory>
        requires there { at < length self.old.parcels.items }
        ensures goes { (w : World) (d : Datagram) → Stands self.old w → slice_get self.old.parcels.items at ≡ Some d
            → OnOk result (Goes (giving_by tells d w) notes.old.items notes.new.items self.new) }
        ensures few { (n : ℕ) → AreFew n self.old → AreFew n self.new }
    {
        let (id, client) = (self.parcels[at].id(), self.parcels[at].client());
        let Some(place) = self.listening(id, client) else {
            return say(notes, id, WorldItem::NoReceiver(client));
        };
        self.parcels[at].spell(&mut self.room)?;
        hear_info(&mut self.seats[place], id, client, &self.room, notes)
    }

    // So does the retransmission of the source's packet `n`, unless that is too far away.
    fn give_again(
        &mut self,
        alloc: Global,
        at: usize,
        n: u64,
        notes: &mut Vec<WorldNote<'a>>,
    ) -> Result<(), NoMemory>
        requires there { at < length self.old.parcels.items }
        requires few { AreFew (2 ^ 40 - 1) self.old }
        ensures goes { (w : World) (d : Datagram) → Stands self.old w → slice_get self.old.parcels.items at ≡ Some d
            → OnOk result (Goes (giving_by (repeats n) d w) notes.old.items notes.new.items self.new) }
        ensures few { (k : ℕ) → AreFew k self.old → AreFew (k + 1) self.new }
    {
        let (id, client) = (self.parcels[at].id(), self.parcels[at].client());
        let Some(place) = self.listening(id, client) else {
            return say(notes, id, WorldItem::NoReceiver(client));
        };
        if self.seats[place].is_too_far(n) {
            return say(notes, id, WorldItem::TooFar(client));
        }
        let seat = &mut self.seats[place];
        let parcel = &self.parcels[at];
        let heard = hear_again(
            alloc,
            self.arena,
            seat,
            id,
            client,
            n,
            parcel,
            &mut self.room,
            notes,
        );
        self.places.keep(id, client, place);
        heard
    }

    // One above the number of the newest packet that a channel holds, which has room for one; `None`
    // where there is no such channel.
    fn end_of_source(&self, id: u16) -> Option<u64>
        ensures { (channels : List Served) → hubs.StandsFor self.now.hub channels → EndsSo result (channel_of id channels) }
    {
        let config = self.hub.config(id)?;
        let _channel = config.channel();
        self.hub.hi(id)
    }

    /// The source's packet of this number is delivered to a receiver by multicast.
    pub(crate) fn cast(
        &mut self,
        alloc: Global,
        id: u16,
        client: u64,
        n: u64,
        notes: &mut Vec<WorldNote<'a>>,
    ) -> Result<(), NoMemory>
        requires { AreFew (2 ^ 40 - 1) self.old }
        ensures goes { (w : World) → Stands self.old w → OnOk result (Goes (casting id client n (channel_of id w.channels) w) notes.old.items notes.new.items self.new) }
        ensures few { (k : ℕ) → AreFew k self.old → AreFew (k + 1) self.new }
    {
        let Some(hi) = self.end_of_source(id) else {
            return say(notes, id, WorldItem::NoChannel(id));
        };
        let Some(place) = self.listening(id, client) else {
            return say(notes, id, WorldItem::NoReceiver(client));
        };
        let Some(packet) = source_packet(&self.packets, id, n, hi) else {
            return say(notes, id, WorldItem::NoPacket(n));
        };
        if self.seats[place].is_too_far(n) {
            return say(notes, id, WorldItem::TooFar(client));
        }
        let seat = &mut self.seats[place];
        hear_multicast(
            alloc,
            self.arena,
            seat,
            id,
            client,
            packet,
            notes,
            &mut self.parcels,
        )
    }
}

// The packet of this number as it came, where it is below the end of what the channel holds.
fn source_packet<'a>(packets: &Packets<'a>, id: u16, n: u64, hi: u64) -> Option<&'a [u8]>
    ensures { option_map (λ packet. packet.now) result ≡ packet_below (packet_in packets.now id n) n hi }
{
    if n >= hi {
        return None;
    }
    packets.get(id, n)
}
