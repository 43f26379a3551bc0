//! Packets whose numbers follow one another.
ghost use Rattle.std.specs.Prelude.{◌≡◌, ◌≢◌, ◌+◌, ◌==◌, ℕ, true, Some, All, IfNone, IfOk, IfSome, OnOk, length, option_map, if◌then◌else◌};
ghost use Rattle.meet_loop.specs.world_net.{in_run, in_runs, IsRunOf};

use ram_io::NoMemory;
use receiver_core::Lent;
use std::alloc::Global;

/// Packets of a channel, each under the number behind the one before.
#[derive(Drop)]
pub(crate) struct Run<'a> {
    pub id: u16,
    pub first: u64,
    pub packets: Vec<Lent<'a>>,
}

impl<'a> Run<'a> {
    /// The bytes of the packet with a number, where the run has it.
    pub(crate) fn get(&self, n: u64) -> Option<&'a [u8]>
        ensures { option_map (λ packet. packet.now) result ≡ in_run n self.now }
    {
        let at = n.checked_sub(self.first)?;
        let packet = self.packets.get(at as usize)?;
        Some(packet.as_slice())
    }

    /// Whether a packet with this number goes behind the last.
    pub(crate) fn goes_on_with(&self, n: u64) -> bool
        ensures { result ≡ true → n ≡ self.now.first + length self.now.packets.items }
    {
        n.checked_sub(self.first) == Some(self.packets.len() as u64)
    }

    /// One more packet, behind the last.
    pub(crate) fn push(&mut self, packet: Lent<'a>) -> Result<(), NoMemory>
        ensures id { self.new.id ≡ self.old.id }
        ensures packets { OnOk result ((m : ℕ) → in_run m self.new ≡ (if self.old.first + length self.old.packets.items == m then Some packet.entry else in_run m self.old)) }
    {
        self.packets.push(packet)?;
        Ok(())
    }
}

/// The bytes of the packet of a channel and a number, where one of the runs has it.
pub(crate) fn find<'a>(runs: &[Run<'a>], id: u16, n: u64) -> Option<&'a [u8]>
    ensures { option_map (λ packet. packet.now) result ≡ in_runs id n runs.now }
{
    let place = run_of(runs, id)?;
    runs[place].get(n)
}

/// The place of a channel's run. Where it has none, an empty one is added that begins with this number.
pub(crate) fn run_for<'a>(
    alloc: Global,
    runs: &mut Vec<Run<'a>>,
    id: u16,
    first: u64,
) -> Result<usize, NoMemory>
    ensures same { OnOk result ((i m : ℕ) → in_runs i m runs.new.items ≡ in_runs i m runs.old.items) }
    ensures its { IfOk result (IsRunOf id runs.new.items) }
{
    if let Some(place) = run_of(runs, id) {
        return Ok(place);
    }
    let place = runs.len();
    runs.push(Run {
        id,
        first,
        packets: Vec::new(alloc),
    })?;
    Ok(place)
}

// The place of a channel's run.
fn run_of(runs: &[Run<'_>], id: u16) -> Option<usize>
    ensures there { IfSome result (IsRunOf id runs.now) }
    ensures none { IfNone result (All (λ r. r.id ≢ id) runs.now) }
{
    for place in 0..runs.len() {
        if runs[place].id == id {
            return Some(place);
        }
    }
    None
}
