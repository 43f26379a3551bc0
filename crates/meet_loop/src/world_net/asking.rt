//! Receivers of a world ask for what they lack, and leave.
ghost use Rattle.std.specs.Prelude.{◌≡◌, ℕ, OnOk};
ghost use Rattle.server_hub.specs.{channel_of};
ghost use Rattle.meet_loop.specs.world_laws.{asking, leaving};
ghost use Rattle.meet_loop.specs.world_laws.World.{World};
ghost use Rattle.meet_loop.specs.world_net.{Stands, Goes, AreFew};

use crate::world_laws::{WorldItem, WorldNote};
use crate::world_net::parts::Parts;
use crate::world_net::posting::{post, post_all};
use crate::world_net::telling::say;
use ram_io::NoMemory;
use std::alloc::Global;

impl<'a> Parts<'a> {
    /// The client's receiver of a channel asks.
    pub(crate) fn ask(
        &mut self,
        alloc: Global,
        id: u16,
        client: u64,
        notes: &mut Vec<WorldNote<'a>>,
    ) -> Result<(), NoMemory>
        ensures goes { (w : World) → Stands self.old w → OnOk result (Goes (asking id client (channel_of id w.channels) w) notes.old.items notes.new.items self.new) }
        ensures few { (n : ℕ) → AreFew n self.old → AreFew n self.new }
    {
        let Some(_config) = self.hub.config(id) else {
            return say(notes, id, WorldItem::NoChannel(id));
        };
        let Some(place) = self.listening(id, client) else {
            return say(notes, id, WorldItem::NoReceiver(client));
        };
        let Some(receiver) = &self.seats[place].receiver else {
            unreachable!()
        };
        let datagrams = receiver.ask(alloc)?;
        post_all(self.arena, id, client, datagrams, notes, &mut self.parcels)
    }

    /// It leaves.
    pub(crate) fn leave(
        &mut self,
        alloc: Global,
        id: u16,
        client: u64,
        notes: &mut Vec<WorldNote<'a>>,
    ) -> Result<(), NoMemory>
        ensures goes { (w : World) → Stands self.old w → OnOk result (Goes (leaving id client (channel_of id w.channels) w) notes.old.items notes.new.items self.new) }
        ensures few { (n : ℕ) → AreFew n self.old → AreFew n self.new }
    {
        let Some(_config) = self.hub.config(id) else {
            return say(notes, id, WorldItem::NoChannel(id));
        };
        let Some(place) = self.listening(id, client) else {
            return say(notes, id, WorldItem::NoReceiver(client));
        };
        let Some(receiver) = self.seats[place].receiver.take() else {
            unreachable!()
        };
        let Ok(bye) = receiver.leave(alloc) else {
            return Err(NoMemory);
        };
        post(self.arena, id, client, &bye, notes, &mut self.parcels)
    }
}
