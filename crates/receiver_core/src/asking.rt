//! What a receiver asks for.
ghost use Rattle.std.specs.Prelude.{◌≡◌, Some, IfOk};
ghost use Rattle.rams_model.specs.Receiver.{asked_in_play};

use crate::datagrams::{join_datagram, nack_datagram};
use crate::window::Window;
use ram_io::NoMemory;
use rams_model::{Octets, Tuned};
use std::alloc::Global;

/// The datagrams by which a receiver asks, once it plays: the RAMS-T again, where it joined and the
/// burst goes on, and a NACK of what is missing.
pub(crate) fn ask_in_play(
    alloc: Global,
    tuned: &Tuned,
    ended: bool,
    window: &Window,
) -> Result<Vec<Octets>, NoMemory>
    ensures { IfOk result (λ v. v.items ≡ asked_in_play tuned.now ended (Some window.now)) }
{
    let mut datagrams = Vec::new(alloc);
    if !ended {
        if let Some(n) = window.joined() {
            datagrams.push(Octets::of(join_datagram(alloc, tuned, n)?))?;
        }
    }
    let numbers = window.missing(alloc)?;
    if !numbers.is_empty() {
        datagrams.push(Octets::of(nack_datagram(alloc, tuned, &numbers)?))?;
    }
    Ok(datagrams)
}
