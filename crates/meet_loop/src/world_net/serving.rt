//! What comes to the server of a world.
ghost use Rattle.std.specs.Prelude.{◌≡◌, ◌+◌, ◌-◌, ◌^◌, ℕ, OnOk};
ghost use Rattle.server_hub.specs.{event_of, told};
ghost use Rattle.meet_loop.specs.world_laws.{serving};
ghost use Rattle.meet_loop.specs.world_laws.World.{World};
ghost use Rattle.meet_loop.specs.world_net.{Stands, Goes, AreFew, taken_number, packet_in, Keeps, KeepsHeard};

use crate::world_laws::WorldNote;
use crate::world_net::packets::Packets;
use crate::world_net::parts::Parts;
use crate::world_net::telling::tell;
use ram_io::NoMemory;
use rams_model::{LiveNote, Note};
use receiver_core::Bump;
use server_hub::{Heard, Hub, HubAnswer, answers_of};
use std::alloc::Global;

impl<'a> Parts<'a> {
    /// Something comes to the server.
    pub(crate) fn serve(
        &mut self,
        alloc: Global,
        heard: Heard<'_>,
        notes: &mut Vec<WorldNote<'a>>,
    ) -> Result<(), NoMemory>
        requires { AreFew (2 ^ 40 - 1) self.old }
        ensures goes { (w : World) → Stands self.old w → OnOk result (Goes (serving (event_of heard.entry) w) notes.old.items notes.new.items self.new) }
        ensures few { (n : ℕ) → AreFew n self.old → AreFew (n + 1) self.new }
    {
        let answer = self.hub.hear(alloc, heard)?;
        keep_live(
            alloc,
            self.arena,
            &mut self.packets,
            &self.hub,
            heard,
            &answer,
        )?;
        tell(
            alloc,
            self.arena,
            &self.hub,
            answer,
            notes,
            &mut self.parcels,
        )
    }
}

// Keeps what is heard, where it is a live packet that its channel took.
fn keep_live<'a>(
    alloc: Global,
    arena: &'a Bump,
    packets: &mut Packets<'a>,
    hub: &Hub,
    heard: Heard<'_>,
    answer: &HubAnswer,
) -> Result<(), NoMemory>
    ensures { OnOk result (KeepsHeard (event_of heard.entry) (told answer.now) (packet_in packets.old) (packet_in packets.new)) }
{
    match heard {
        Heard::Live { id, bytes } => keep(alloc, arena, packets, hub, id, bytes, answer),
        _ => Ok(()),
    }
}

// Keeps a live packet, where the channel took it.
fn keep<'a>(
    alloc: Global,
    arena: &'a Bump,
    packets: &mut Packets<'a>,
    hub: &Hub,
    id: u16,
    bytes: &[u8],
    answer: &HubAnswer,
) -> Result<(), NoMemory>
    ensures { OnOk result (Keeps id bytes.now (taken_number (told answer.now)) (packet_in packets.old) (packet_in packets.new)) }
{
    if let Some(n) = number_taken(answer) {
        packets.add(alloc, arena, id, n, bytes, hub.held(id, n))?;
    }
    Ok(())
}

// The number under which a live packet was taken, where it was.
fn number_taken(answer: &HubAnswer) -> Option<u64>
    ensures { result ≡ taken_number (told answer.now) }
{
    let [at] = answers_of(answer) else {
        return None;
    };
    match at.answer.notes.as_slice() {
        [Note::Live(LiveNote::Took(n) | LiveNote::Restart(n)), ..] => Some(*n),
        _ => None,
    }
}
