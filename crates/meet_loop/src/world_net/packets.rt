//! The live packets of a world.
ghost use Rattle.std.specs.Prelude.{◌≡◌, ◌&&◌, ◌==◌, ℕ, None, Some, IfOk, OnOk, option_map, if◌then◌else◌};
ghost use Rattle.meet_loop.specs.world_net.{packet_in};

use crate::world_net::lending::lend;
use crate::world_net::runs::{Run, find, run_for};
use ram_io::NoMemory;
use rams_model::Held;
use receiver_core::{Bump, Lent};
use std::alloc::Global;
use std::collections::BTreeMap;
use std::marker::Model;

/// Packets by their channel's number and their own. Most share their bytes with the channel that took
/// them, and stand in its run.
#[derive(Drop)]
pub(crate) struct Packets<'a> {
    runs: Vec<Run<'a>>,
    /// The packets that aren't in a run, or are newer than the one there.
    apart: BTreeMap<(u16, u64), Lent<'a>>,
}

impl<'a> Model for Packets<'a> {
    ghost use Rattle.meet_loop.specs.world_net.Runs.{Packed};

    ghost Value = { Packed };

    ghost view = { λ p. record { runs = p.runs.items; apart = p.apart.entries } };
}

impl<'a> Packets<'a> {
    /// No packets. It takes no memory.
    pub(crate) fn new(alloc: Global) -> Packets<'a>
        ensures { (id n : ℕ) → packet_in result id n ≡ None }
    {
        Packets {
            runs: Vec::new(alloc),
            apart: BTreeMap::new(alloc),
        }
    }

    /// One more packet, as it came, in place of one with the same numbers. What its channel `held` then may
    /// have the same bytes.
    pub(crate) fn add(
        &mut self,
        alloc: Global,
        arena: &'a Bump,
        id: u16,
        n: u64,
        packet: &[u8],
        held: Option<&Held>,
    ) -> Result<(), NoMemory>
        ensures { OnOk result ((i m : ℕ) → packet_in self.new i m ≡ (if id == i && n == m then Some packet.now else packet_in self.old i m)) }
    {
        let kept = shared(arena, packet, held)?;
        let place = run_for(alloc, &mut self.runs, id, n)?;
        if self.apart.contains_key(&(id, n)) || !self.runs[place].goes_on_with(n) {
            self.apart.insert((id, n), kept)?;
            return Ok(());
        }
        self.runs[place].push(kept)
    }

    /// The bytes of a packet, where there is one.
    pub(crate) fn get(&self, id: u16, n: u64) -> Option<&'a [u8]>
        ensures { option_map (λ packet. packet.now) result ≡ packet_in self.now id n }
    {
        match self.apart.get(&(id, n)) {
            Some(packet) => Some(packet.as_slice()),
            None => find(&self.runs, id, n),
        }
    }
}

// A packet's bytes: those that are held, where they are the same.
fn shared<'a>(arena: &'a Bump, packet: &[u8], held: Option<&Held>) -> Result<Lent<'a>, NoMemory>
    ensures { IfOk result (λ lent. lent ≡ packet.now) }
{
    match held {
        Some(held) if held.packet.as_slice() == packet => lend(arena, held.packet.clone()?),
        _ => Lent::copied(arena, packet),
    }
}
