//! The world.
use crate::world_laws::{WorldEvent, WorldNote};
use crate::world_net::packets::Packets;
use crate::world_net::parts::Parts;
use crate::world_net::places::Places;
use ram_io::NoMemory;
use receiver_core::Bump;
use server_hub::{AddFault, Config, Hub};
use std::alloc::Global;
use std::marker::Model;

/// A server's channels, the datagrams that were sent, and the receivers that were tuned.
#[derive(Drop)]
pub struct World<'a> {
    parts: Parts<'a>,
    /// An event was cut off for want of memory.
    cut_off: bool,
}

impl<'a> Model for World<'a> {
    ghost use Rattle.meet_loop.specs.world_net.States.{Seen, kept_of};

    ghost Value = { Seen };

    ghost view = { λ w. record { kept = kept_of w.parts; cut_off = w.cut_off } };
}

impl<'a> World<'a> {
    ghost use Rattle.std.specs.Prelude.{◌≡◌, ℕ, ◌+◌, ◌-◌, ◌^◌, List, [], true, All, Err, IsErr, IfNone, IfOk, IfSome, IsOkUnless, OnErr, OnOk, length};
    ghost use Rattle.server_hub.specs.declared.AddFault.TheVariants as faults;
    ghost use Rattle.server_hub.specs.Seen as hubs;
    ghost use Rattle.server_hub.specs.{refused, AddsSettings};
    ghost use Rattle.server_hub.specs.Served.{Served};
    ghost use Rattle.meet_loop.specs.world_laws.{new_world, happens};
    ghost use Rattle.meet_loop.specs.world_laws.World.{World as Worlds};
    ghost use Rattle.meet_loop.specs.world_net.{StandsFor, CameAtMost, with_channel};

    /// A world of a hub to which no event came, without receivers, whose packets and datagrams will stay
    /// in this arena. It takes no memory.
    pub fn new(alloc: Global, arena: &'a Bump, hub: Hub) -> World<'a>
        requires { hub.calls ≡ 0 }
        ensures stands { (channels : List Served) → hubs.StandsFor hub channels → All (λ c. c.events ≡ []) channels → StandsFor result (new_world channels) }
        ensures hub { result.kept.hub ≡ hub }
        ensures few { CameAtMost 0 result.kept }
    {
        World {
            parts: Parts {
                hub,
                arena,
                packets: Packets::new(alloc),
                parcels: Vec::new(alloc),
                places: Places::new(alloc),
                seats: Vec::new(alloc),
                room: Vec::new(alloc),
            },
            cut_off: false,
        }
    }

    /// Adds a channel, which has had no event, as the hub does. After any error all is as before.
    pub fn add(&mut self, alloc: Global, config: Config) -> Result<(), AddFault>
        requires { config.tick ≡ self.old.kept.hub.tick }
        ensures stands { (w : Worlds) → StandsFor self.old w → OnOk result (StandsFor self.new (with_channel config w)) }
        ensures refused { IfSome (refused self.old.kept.hub config) (λ fault. result ≡ Err fault) }
        ensures added { IfNone (refused self.old.kept.hub config) (IsOkUnless result faults.NoMemory) }
        ensures settings { OnOk result (AddsSettings self.old.kept.hub self.new.kept.hub config) }
        ensures few { (n : ℕ) → CameAtMost n self.old.kept → CameAtMost n self.new.kept }
        ensures same { OnErr result (self.new ≡ self.old) }
    {
        self.parts.hub.add(alloc, config)
    }

    /// What happens: what is said of it, in order, stands in `notes` then, whose room is used again; what
    /// stood there goes. A client is tuned to a channel once; a number that is too far from the one that a
    /// receiver presents next isn't delivered to it. After want of memory every later event is answered
    /// with that.
    pub fn step(
        &mut self,
        alloc: Global,
        event: &WorldEvent,
        notes: &mut Vec<WorldNote<'a>>,
    ) -> Result<(), NoMemory>
        requires { CameAtMost (2 ^ 40 - 1) self.old.kept }
        ensures stands { (w : Worlds) → StandsFor self.old w
            → OnOk result ((notes.new.items ≡ (happens event.now w).notes) × StandsFor self.new (happens event.now w).world) }
        ensures cut_off { self.old.cut_off ≡ true → IsErr result }
        ensures stays { OnErr result (self.new.cut_off ≡ true) }
        ensures few { (n : ℕ) → CameAtMost n self.old.kept → CameAtMost (n + 1) self.new.kept }
    {
        if self.cut_off {
            return Err(NoMemory);
        }
        self.cut_off = true;
        notes.clear();
        happen(&mut self.parts, alloc, event, notes)?;
        self.cut_off = false;
        Ok(())
    }

    /// How many datagrams were sent so far, by the server and by receivers.
    pub fn datagrams(&self) -> u64
        ensures { (w : Worlds) → StandsFor self.now w → result ≡ length w.datagrams }
    {
        self.parts.parcels.len() as u64
    }
}

ghost use Rattle.std.specs.Prelude.{ℕ, ◌+◌, ◌-◌, ◌^◌, OnOk};
ghost use Rattle.meet_loop.specs.world_laws.{happens};
ghost use Rattle.meet_loop.specs.world_laws.World.{World as Worlds};
ghost use Rattle.meet_loop.specs.world_net.{Stands, Goes, AreFew};

// What happens: adds what is said of it.
#[tactic(auto, unfolding(crate::specs::world_laws::Happening::happens), using(crate::proofs::world_net::Steps::are_few))]
fn happen<'a>(
    parts: &mut Parts<'a>,
    alloc: Global,
    event: &WorldEvent,
    notes: &mut Vec<WorldNote<'a>>,
) -> Result<(), NoMemory>
    requires { AreFew (2 ^ 40 - 1) parts.old }
    ensures goes { (w : Worlds) → Stands parts.old w → OnOk result (Goes (happens event.now w) notes.old.items notes.new.items parts.new) }
    ensures few { (n : ℕ) → AreFew n parts.old → AreFew (n + 1) parts.new }
{
    match event {
        WorldEvent::Hub(event) => parts.serve(alloc, event.heard(), notes),
        WorldEvent::Tune { id, client, ssrc } => parts.tune(alloc, *id, *client, *ssrc, notes),
        WorldEvent::Give { number } => parts.give(alloc, *number, notes),
        WorldEvent::Mcast { id, client, n } => parts.cast(alloc, *id, *client, *n, notes),
        WorldEvent::Ask { id, client } => parts.ask(alloc, *id, *client, notes),
        WorldEvent::Drop { id, client } => parts.leave(alloc, *id, *client, notes),
    }
}
