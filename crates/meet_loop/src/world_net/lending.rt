//! What an arena lends of a packet.
ghost use Rattle.std.specs.Prelude.{◌≡◌, IfOk};

use bytes::Bytes;
use ram_io::NoMemory;
use receiver_core::{Bump, Lent};

/// The bytes of a packet, which stays in the arena with its block of memory.
#[inline(always)]
pub(crate) fn lend<'a>(arena: &'a Bump, packet: Bytes) -> Result<Lent<'a>, NoMemory>
    ensures { IfOk result (λ lent. lent ≡ packet) }
{
    let Ok(kept) = arena.try_alloc(packet) else {
        return Err(NoMemory);
    };
    Ok(Lent::of(kept.as_slice()))
}
