//! A receiver is tuned to a channel of a world.
ghost use Rattle.std.specs.Prelude.{◌≡◌, ℕ, ◌+◌, OnOk};
ghost use Rattle.server_hub.specs.{channel_of};
ghost use Rattle.meet_loop.specs.world_laws.{tuning};
ghost use Rattle.meet_loop.specs.world_laws.World.{World};
ghost use Rattle.meet_loop.specs.world_net.{Stands, Goes, AreFew};

use crate::world_laws::{WorldItem, WorldNote};
use crate::world_net::parts::Parts;
use crate::world_net::posting::post;
use crate::world_net::seat::Seat;
use crate::world_net::telling::say;
use ram_io::NoMemory;
use receiver_core::{Receiver, Tuned};
use std::alloc::Global;

impl<'a> Parts<'a> {
    /// The client tunes to a channel, and its receiver asks for a burst. A client does so once on a
    /// channel, even where its receiver left.
    pub(crate) fn tune(
        &mut self,
        alloc: Global,
        id: u16,
        client: u64,
        ssrc: u32,
        notes: &mut Vec<WorldNote<'a>>,
    ) -> Result<(), NoMemory>
        ensures goes { (w : World) → Stands self.old w → OnOk result (Goes (tuning id client ssrc (channel_of id w.channels) w) notes.old.items notes.new.items self.new) }
        ensures few { (n : ℕ) → AreFew n self.old → AreFew n self.new }
    {
        let Some(config) = self.hub.config(id) else {
            return say(notes, id, WorldItem::NoChannel(id));
        };
        if self.places.contains(id, client) {
            return say(notes, id, WorldItem::TunedBefore(client));
        }
        let channel = config.channel();
        let tuned = Tuned {
            client,
            ssrc,
            media: channel.ssrc,
            pt: channel.pt,
            rtx: channel.rtx,
        };
        let (receiver, request) = Receiver::tune(alloc, tuned)?;
        self.places.add(id, client, self.seats.len())?;
        self.seats.push(Seat {
            receiver: Some(receiver),
            first: None,
        })?;
        post(self.arena, id, client, &request, notes, &mut self.parcels)
    }
}
