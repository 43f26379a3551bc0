//! What comes to a server and what goes from it, in memory.
ghost use Rattle.std.specs.Prelude.{◌^◌, ◌<◌, All, IfOk};
ghost use Rattle.ram_io.specs.{IsFromClient};

use ram_io::{Incoming, MemSink, MemWire, Octets, Sent};
use std::alloc::{AllocError, Global};
use std::process::Abort;
use std::test::Fail;
use test_fixtures::test_calls::let_go;
use test_fixtures::test_words::joined;

pub const HEAD: &str = "rams-trace 1 tick 10 link 100000";

pub const SEVEN: &str =
    "channel 7 ssrc 11223344 pt 33 rtx 99 server aabbccdd seq0 500 ring 64 window 0 access marker share 10000 reserve 1500 burst 4000 declared 100 minwire 42 limit 100 idle 100 clients 4";

pub const EIGHT: &str =
    "channel 8 ssrc 11223344 pt 33 rtx 99 server aabbccdd seq0 700 ring 64 window 0 access marker share 10000 reserve 1500 burst 4000 declared 100 minwire 42 limit 100 idle 100 clients 4";

/// Packet 10 of the source, with the marker, timestamp 0 and four bytes of payload.
pub const ACCESS_POINT: &[u8] = &[
    0x80, 0xa1, 0x00, 0x0a, 0x00, 0x00, 0x00, 0x00, 0x11, 0x22, 0x33, 0x44, 0x00, 0x00, 0x00, 0x00,
];

/// A request for a burst, which wishes for nothing (RFC 6285, 7.2).
pub const REQUEST: &[u8] = &[
    0x86, 0xcd, 0x00, 0x03, 0x00, 0x00, 0xc0, 0x01, 0x11, 0x22, 0x33, 0x44, 0x01, 0x00, 0x00, 0x00,
];

/// What is said to the client (RFC 6285, 7.3).
pub const INFO: &[u8] = &[
    0x86, 0xcd, 0x00, 0x0c, 0xaa, 0xbb, 0xcc, 0xdd, 0x11, 0x22, 0x33, 0x44, 0x02, 0x00, 0x00, 0xc8,
    0x20, 0x00, 0x00, 0x02, 0x01, 0xf4, 0x00, 0x00, 0x21, 0x00, 0x00, 0x04, 0x00, 0x00, 0x00, 0x0a,
    0x22, 0x00, 0x00, 0x04, 0x00, 0x00, 0x03, 0xe8, 0x23, 0x00, 0x00, 0x08, 0x00, 0x00, 0x00, 0x00,
    0x00, 0x30, 0xd4, 0x00,
];

/// The packet again (RFC 4588, 4).
pub const AGAIN: &[u8] = &[
    0x80, 0xe3, 0x01, 0xf4, 0x00, 0x00, 0x00, 0x00, 0x11, 0x22, 0x33, 0x44, 0x00, 0x0a, 0x00, 0x00,
    0x00, 0x00,
];

/// The line of the packet.
pub const LIVE: &str = "live 7 80a1000a000000001122334400000000";

/// The line of the request.
pub const ASKS: &str = "fb 7 5 86cd00030000c0011122334401000000";

/// The sender, the port, and the bytes of a datagram that comes.
pub type Arrival = (u16, u16, &'static [u8]);

/// To whom a datagram goes, from which port, and its bytes.
pub type Sending = (u64, u16, &'static [u8]);

fn octets(alloc: Global, bytes: &[u8]) -> Result<Octets, AllocError> {
    let mut all = Vec::new(alloc);
    all.extend_from_slice(bytes)?;
    Ok(Octets::of(all))
}

/// What comes, and then nothing.
fn arrivals_of(alloc: Global, all: &[Arrival]) -> Result<Vec<Incoming>, AllocError>
    ensures { IfOk result (λ arrivals. All IsFromClient arrivals.items) }
{
    let mut arrivals = Vec::new(alloc);
    for (from, port, bytes) in all.iter() {
        let bytes = octets(alloc, bytes)?;
        let from = u64::from(*from);
        let port = *port;
        arrivals.push(Incoming::Datagram { from, port, bytes })?;
    }
    Ok(arrivals)
}

/// The moments of the clock.
pub fn moments_of(alloc: Global, all: &[u32]) -> Result<Vec<u64>, AllocError>
    ensures { IfOk result (λ moments. All (λ m. m < 2 ^ 62) moments.items) }
{
    let mut moments = Vec::new(alloc);
    for moment in all.iter() {
        moments.push(u64::from(*moment))?;
    }
    Ok(moments)
}

/// A sink of which these calls fail.
pub fn sink_of(alloc: Global, fails: &[u64]) -> Result<MemSink, Fail> {
    let Ok(sink) = MemSink::new(alloc, 10_000, 1_000, fails.to_vec(alloc)?) else {
        return Err(Fail::new("no memory"));
    };
    Ok(sink)
}

/// A wire to which this comes, and of which these calls fail.
pub fn wire_of(alloc: Global, all: &[Arrival], fails: &[u64]) -> Result<MemWire, Fail> {
    let fails = fails.to_vec(alloc)?;
    let Ok(wire) = MemWire::new(alloc, arrivals_of(alloc, all)?, 10_000, 10, fails) else {
        return Err(Fail::new("no memory"));
    };
    Ok(wire)
}

/// The sink got these lines, and no more.
pub fn is_text(alloc: Global, lines: &[&str], held: &[u8]) -> Result<bool, AllocError> {
    let text = joined(alloc, lines, "\n")?;
    let is_so = held == text.as_slice();
    let_go(text);
    Ok(is_so)
}

/// The wire sent this: to whom, from which port, and the bytes.
fn is_sent(wire: &MemWire, sent: &Sent, want: &Sending) -> bool {
    let (to, port, bytes) = *want;
    let end = sent.start.saturating_add(sent.len);
    sent.to == to && sent.port == port && wire.sent_bytes().get(sent.start..end) == Some(bytes)
}

/// The wire sent these datagrams, in order, and no others; `name` is that of the row.
pub fn check_sent(rt: &impl Abort, name: &str, all: &[Sending], wire: &MemWire) {
    assert!(rt; wire.sent().len() == all.len(), "{name}");
    for (sent, want) in wire.sent().iter().zip(all.iter()) {
        assert!(rt; is_sent(wire, sent, want), "{name}");
    }
}
