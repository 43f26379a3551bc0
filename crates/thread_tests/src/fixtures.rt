//! A channel's settings, and what comes to it.
ghost use Rattle.std.specs.Prelude.{◌≡◌, [], IfOk, length};
ghost use Rattle.server_hub.specs.session_core.{StandsFor};

use channel_config::{Channel, Config};
use rams_model::{Event, Octets};
use server_hub::session_core::Core;
use std::alloc::{AllocError, Global};
use std::test::Fail;
use test_fixtures::test_channel::{CHANNEL, SOURCE, bytes_of};

/// Settings of a channel that may send all that its ring holds in one tick.
const WIDE: Channel = Channel {
    ring: 32_768,
    share: 1_000_000_000,
    burst: 900_000_000,
    ..CHANNEL
};

/// A channel to which nothing came, with ticks of 10 ms.
pub fn new_core(alloc: Global) -> Result<Core, Fail>
    ensures { IfOk result (λ core. StandsFor core []) }
{
    let Ok(config) = Config::check(WIDE, 10) else {
        return Err(Fail::new("lawful settings"));
    };
    let Ok(core) = Core::new(alloc, &config) else {
        return Err(Fail::new("no memory"));
    };
    Ok(core)
}

/// A packet (RFC 3550, 5.1) with this number and four bytes of payload. Only number 0 has the marker.
pub fn packet(alloc: Global, number: u16) -> Result<Event, AllocError> {
    // v=2, p=0, x=0, cc=0, marker or none, payload type 33
    let head: u32 = if number == 0 {
        0x80a1_0000
    } else {
        0x8021_0000
    };
    let words = [head | u32::from(number), 0, SOURCE, 0];
    Ok(Event::Live(Octets::of(bytes_of(alloc, &words, 0)?)))
}

/// A RAMS-R without TLVs (RFC 6285, 7.2).
pub fn request(alloc: Global, client: u64) -> Result<Event, AllocError> {
    // v=2, p=0, FMT=6 (RAMS), RTPFB, length 3; sender; media source; SFMT=1 (RAMS-R)
    let words = [0x86cd_0003, 0x0000_c001, SOURCE, 0x0100_0000];
    let bytes = Octets::of(bytes_of(alloc, &words, 0)?);
    Ok(Event::Feedback { client, bytes })
}

/// A list of two events.
pub fn pair(alloc: Global, first: Event, second: Event) -> Result<Vec<Event>, AllocError>
    ensures { IfOk result (λ list. length list.items ≡ 2) }
{
    let mut list = Vec::new(alloc);
    list.push(first)?;
    list.push(second)?;
    Ok(list)
}
