//! A channel's settings, and what comes to it.
ghost use Rattle.std.specs.Prelude.{IfOk};
ghost use Rattle.pool.specs.pool_run.{IsFresh};

use channel_config::{Channel, Config};
use pool::pool_run::Lane;
use rams_model::{Event, Octets};
use server_hub::session_core::Core;
use std::alloc::{AllocError, Global};
use std::process::Abort;
use std::test::Fail;
use test_fixtures::test_calls::let_go;
use test_fixtures::test_channel::{CHANNEL, SOURCE, bytes_of};

/// Settings of a channel that sends at most one packet of 1,500 bytes in a tick.
const NARROW: Channel = Channel {
    burst: 1500,
    declared: 0,
    minwire: 1500,
    ..CHANNEL
};

/// Appends three packets of 1,500 bytes on the wire, of which the second is an access point; a RAMS-R; two
/// ticks, each of which sends a packet of the burst.
fn add_burst_of_two(alloc: Global, events: &mut Vec<Event>) -> Result<(), AllocError> {
    // RFC 3550, 5.1: v=2, p=0, x=0, cc=0, marker or none, payload type 33, number; timestamp; SSRC
    let packets = [
        [0x8021_000a, 0, SOURCE],
        [0x80a1_000b, 900, SOURCE],
        [0x8021_000c, 1800, SOURCE],
    ];
    for words in packets {
        events.push(Event::Live(Octets::of(bytes_of(alloc, &words, 1458)?)))?;
    }
    // RFC 6285, 7.2: v=2, p=0, FMT=6 (RAMS), RTPFB, length 3; sender; media source; SFMT=1 (RAMS-R)
    let request = [0x86cd_0003, 0x0000_c001, SOURCE, 0x0100_0000];
    let bytes = Octets::of(bytes_of(alloc, &request, 0)?);
    events.push(Event::Feedback { client: 5, bytes })?;
    events.push(Event::Tick)?;
    events.push(Event::Tick)?;
    Ok(())
}

/// The same, in their order.
fn burst_of_two(alloc: Global) -> Result<Vec<Event>, AllocError> {
    let mut events = Vec::new(alloc);
    add_burst_of_two(alloc, &mut events)?;
    Ok(events)
}

/// A channel whose events make it send two packets of 1,500 bytes, one in each of two ticks of 10 ms.
pub fn sends_two(rt: &impl Abort, alloc: Global) -> Result<Lane, Fail>
    ensures { IfOk result IsFresh }
{
    let Ok(config) = Config::check(NARROW, 10) else {
        return Err(Fail::new("lawful settings"));
    };
    let events = burst_of_two(alloc)?;
    assert!(rt; events.len() <= 200_000, "few events");
    let core = Core::new(alloc, &config);
    let Ok(core) = core else {
        let_go(events);
        return Err(Fail::new("no memory"));
    };
    Ok(Lane { core, events })
}
