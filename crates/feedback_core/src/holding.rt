//! What is held.
ghost use Rattle.std.specs.Prelude.{◌≡◌};
ghost use Rattle.channel_cache.specs.packet_ring.{packet_of};
ghost use Rattle.rams_model.specs.Packets.{behind};
ghost use Rattle.rams_model.specs.Service.{size_of};
ghost use Rattle.feedback_core.specs.{IsHeldRun};

use channel_cache::Cache;

/// The wire sizes of the packets that are held from this number on.
pub(crate) fn behind(cache: &Cache, n: u64) -> u64
    requires { IsHeldRun cache.now.held }
    ensures { result ≡ behind n cache.now.held }
{
    let mut behind = 0;
    for number in n.max(cache.lo())..cache.hi() {
        behind += u64::from(wire(cache, number));
    }
    behind
}

// The wire size of the packet of a number; 0 where it isn't held.
fn wire(cache: &Cache, n: u64) -> u32
    ensures { result ≡ size_of (packet_of n cache.now.held) }
{
    match cache.held(n) {
        Some(held) => held.wire,
        None => 0,
    }
}
