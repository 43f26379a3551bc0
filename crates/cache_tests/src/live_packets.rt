//! Live packets and what is held of them, by hand.
ghost use Rattle.std.specs.Prelude.{ℕ, ◌+◌, ◌≤◌, IfOk, OnOk, length};
ghost use Rattle.channel_cache.specs.{StandsForFewer};

use crate::fixtures::{holds, packet, same};
use channel_cache::LiveNote::{
    Bad, ForeignSsrc, ForeignType, Jump, Late, Restart, TooBig, Took, Twice,
};
use channel_cache::{Cache, Choice, Config, LiveNote};
use channel_config::{Access, Channel};
use rams_model::RtpFault::{Short, Version};
use std::alloc::{AllocError, Global};
use std::process::Abort;
use std::test::Fail;
use test_fixtures::test_calls::let_go;
use test_fixtures::test_channel::CHANNEL;

// A sequence number, its note, and what is held after it: the number of the oldest packet, and one
// above that of the newest.
type Step = (u16, LiveNote, u64, u64);

// Most places by which a packet may come late, most packets held, and what comes.
type Row = (u32, u32, &'static [Step]);

const ROWS: &[Row] = &[
    // some come out of order, one too late
    (
        2,
        64,
        &[
            (10, Took(65546), 65546, 65547),
            (12, Took(65548), 65546, 65547),
            (11, Took(65547), 65546, 65549),
            (14, Took(65550), 65546, 65549),
            (15, Took(65551), 65546, 65549),
            (16, Took(65552), 65550, 65553),
            (13, Late, 65550, 65553),
        ],
    ),
    // none is waited for
    (
        0,
        64,
        &[
            (10, Took(65546), 65546, 65547),
            (12, Took(65548), 65548, 65549),
            (11, Late, 65548, 65549),
        ],
    ),
    // a new start: what waited goes out before it, and what jumped before it is forgotten
    (
        2,
        64,
        &[
            (10, Took(65546), 65546, 65547),
            (20010, Jump, 65546, 65547),
            (12, Took(65548), 65546, 65547),
            (20011, Restart(85547), 85547, 85548),
            (20011, Late, 85547, 85548),
            (23010, Took(88546), 85547, 85548),
            (20011, Jump, 85547, 85548),
            (20012, Restart(151084), 151084, 151085),
        ],
    ),
    // around the wrap of the sequence number
    (
        1,
        64,
        &[
            (65534, Took(131070), 131070, 131071),
            (65535, Took(131071), 131070, 131072),
            (1, Took(131073), 131070, 131072),
            (0, Took(131072), 131070, 131074),
            (65535, Late, 131070, 131074),
        ],
    ),
    // the oldest goes
    (
        0,
        2,
        &[
            (10, Took(65546), 65546, 65547),
            (11, Took(65547), 65546, 65548),
            (12, Took(65548), 65547, 65549),
        ],
    ),
];

// A packet: its sequence number, how many bytes of payload, another byte at a place, and its note.
type Noted = (u16, usize, (usize, u8), LiveNote);

const NOTED: &[Noted] = &[
    (1, 1459, (0, 0x80), TooBig),
    (10, 4, (0, 0x80), Took(65546)),
    (12, 4, (0, 0x80), Took(65548)),
    (12, 4, (0, 0x80), Twice),
    (10, 4, (0, 0x80), Late),
    (11, 4, (11, 0x45), ForeignSsrc),
    (11, 4, (1, 34), ForeignType),
    (10, 4, (0, 0x40), Bad(Version)),
    (11, 1458, (0, 0x80), Took(65547)),
];

// A packet with a header extension, two contributing sources and two bytes of padding.
const PADDED: [u8; 32] = [
    0xb2, 0xa1, 0x00, 0x0a, // v=2, p=1, x=1, cc=2, m=1, pt=33, sequence number 10
    0x00, 0x00, 0x00, 0x00, // timestamp
    0x11, 0x22, 0x33, 0x44, // SSRC
    0x00, 0x00, 0x00, 0x01, // CSRC
    0x00, 0x00, 0x00, 0x02, // CSRC
    0xbe, 0xde, 0x00, 0x01, // extension: profile, one word
    0x10, 0xff, 0x00, 0x00, // its word
    0xaa, 0xbb, 0x00, 0x02, // payload of two bytes, padding of two
];

// The same packet without its padding.
const BARE: [u8; 30] = [
    0x92, 0xa1, 0x00, 0x0a, // v=2, p=0, x=1, cc=2, m=1, pt=33, sequence number 10
    0x00, 0x00, 0x00, 0x00, // timestamp
    0x11, 0x22, 0x33, 0x44, // SSRC
    0x00, 0x00, 0x00, 0x01, // CSRC
    0x00, 0x00, 0x00, 0x02, // CSRC
    0xbe, 0xde, 0x00, 0x01, // extension: profile, one word
    0x10, 0xff, 0x00, 0x00, // its word
    0xaa, 0xbb, // payload
];

fn cache_of(rt: &impl Abort, alloc: Global, channel: Channel) -> Result<Cache, Fail>
    ensures { IfOk result (λ cache. StandsForFewer cache 1) }
{
    let config = Config::check(channel, 10)
        .ok()
        .expect(rt, "lawful settings");
    let Ok(cache) = Cache::new(alloc, &config) else {
        return Err(Fail::new("no memory"));
    };
    Ok(cache)
}

// Takes a packet, and compares its note.
fn expect_note(
    rt: &impl Abort,
    alloc: Global,
    cache: &mut Cache,
    bytes: &[u8],
    want: LiveNote,
    of: u16,
) -> Result<(), Fail>
    requires { StandsForFewer cache.old 1000 }
    ensures { (most : ℕ) → StandsForFewer cache.old most → OnOk result (StandsForFewer cache.new (most + 1)) }
{
    let Ok(note) = cache.live(alloc, bytes) else {
        return Err(Fail::new("no memory"));
    };
    same(rt, &note, &want, &of);
    Ok(())
}

// The same, of bytes that are dropped then.
fn expect_packet(
    rt: &impl Abort,
    alloc: Global,
    cache: &mut Cache,
    bytes: Vec<u8>,
    want: LiveNote,
    of: u16,
) -> Result<(), Fail>
    requires { StandsForFewer cache.old 1000 }
    ensures { (most : ℕ) → StandsForFewer cache.old most → OnOk result (StandsForFewer cache.new (most + 1)) }
{
    let noted = expect_note(rt, alloc, cache, &bytes, want, of);
    let_go(bytes);
    noted
}

// Takes packets with these sequence numbers, and compares the note of each and what is held then.
fn expect_steps(
    rt: &impl Abort,
    alloc: Global,
    cache: &mut Cache,
    steps: &[Step],
) -> Result<(), Fail>
    requires { (most : ℕ) × StandsForFewer cache.old most × (most + length steps.now ≤ 1000) }
{
    for (sequence, note, lo, hi) in steps {
        let bytes = packet(alloc, *sequence, 0, false, &[0; 4])?;
        expect_packet(rt, alloc, cache, bytes, *note, *sequence)?;
        same(rt, &(cache.lo(), cache.hi()), &(*lo, *hi), sequence);
    }
    Ok(())
}

// The settings of the channel, with another window and another ring.
fn settings(window: u32, ring: u32) -> Channel {
    Channel {
        window,
        ring,
        ..CHANNEL
    }
}

fn expect_rows(rt: &impl Abort, alloc: Global, rows: &[Row]) -> Result<(), Fail> {
    for (window, ring, steps) in rows {
        assert!(rt; steps.len() < 1000);
        let mut cache = cache_of(rt, alloc, settings(*window, *ring))?;
        let expected = expect_steps(rt, alloc, &mut cache, steps);
        let_go(cache);
        expected?;
    }
    Ok(())
}

#[test]
fn packets_are_held_in_order(rt: HostRuntime) -> Result<(), Fail> {
    expect_rows(&rt, rt.alloc(), ROWS)
}

// A packet of so many zeros, with another byte at a place.
fn changed_packet(
    rt: &impl Abort,
    alloc: Global,
    sequence: u16,
    len: usize,
    change: (usize, u8),
) -> Result<Vec<u8>, Fail> {
    let zeros = vec![in alloc; 0u8; len]?;
    let bytes = packet(alloc, sequence, 0, false, &zeros);
    let_go(zeros);
    let mut bytes = bytes?;
    let (place, byte) = change;
    assert!(rt; place < bytes.len());
    bytes[place] = byte;
    Ok(bytes)
}

// Takes packets, and compares the note of each.
fn expect_noted(
    rt: &impl Abort,
    alloc: Global,
    cache: &mut Cache,
    rows: &[Noted],
) -> Result<(), Fail>
    requires { (most : ℕ) × StandsForFewer cache.old most × (most + length rows.now ≤ 1000) }
{
    for (sequence, len, change, want) in rows {
        let bytes = changed_packet(rt, alloc, *sequence, *len, *change)?;
        expect_packet(rt, alloc, cache, bytes, *want, *sequence)?;
    }
    Ok(())
}

// Takes packets of no byte and of one, then those of the table.
fn expect_notes(rt: &impl Abort, alloc: Global, cache: &mut Cache) -> Result<(), Fail>
    requires { StandsForFewer cache.old 1 }
{
    expect_note(rt, alloc, cache, &[], Bad(Short), 0)?;
    expect_note(rt, alloc, cache, &[0x40], Bad(Short), 1)?;
    expect_noted(rt, alloc, cache, NOTED)?;
    same(rt, &(cache.lo(), cache.hi()), &(65546, 65549), &"lo and hi");
    Ok(())
}

#[test]
fn each_live_packet_has_its_note(rt: HostRuntime) -> Result<(), Fail> {
    let mut cache = cache_of(&rt, rt.alloc(), settings(2, 64))?;
    let expected = expect_notes(&rt, rt.alloc(), &mut cache);
    let_go(cache);
    expected
}

// What is held under a number: its number, its timestamp, its bytes on the wire, whether it is an access
// point, and its packet.
fn expect_held(rt: &impl Abort, cache: &Cache, n: u64, want: (u64, u32, u32, bool), packet: &[u8]) {
    let held = cache.held(n).expect(rt, "the packet");
    same(rt, &(held.n, held.ts, held.wire, held.access), &want, &n);
    same(rt, &held.packet.as_slice(), &packet, &n);
}

// Nothing is held under this number.
fn is_none(cache: &Cache, n: u64) -> bool {
    cache.held(n).is_none()
}

// Takes the padded packet, and holds it bare.
fn expect_bare(rt: &impl Abort, alloc: Global, cache: &mut Cache) -> Result<(), Fail>
    requires { StandsForFewer cache.old 1 }
{
    expect_note(rt, alloc, cache, &PADDED, Took(65546), 10)?;
    expect_held(rt, cache, 65546, (65546, 0, 60, true), &BARE);
    holds(
        rt,
        is_none(cache, 65545) && is_none(cache, 65547),
        &"around",
    );
    Ok(())
}

#[test]
fn padding_is_not_held(rt: HostRuntime) -> Result<(), Fail> {
    let mut cache = cache_of(&rt, rt.alloc(), CHANNEL)?;
    let expected = expect_bare(&rt, rt.alloc(), &mut cache);
    let_go(cache);
    expected
}

const START: Choice = Choice::Start {
    n: 65546,
    behind: 230,
};

// What access points are, whether a packet has the marker, the flags of its TS packet, most packets held,
// and where a burst begins.
type Begun = (Access, bool, u8, u32, Choice);

const BEGUN: &[Begun] = &[
    (Access::Ts, false, 0x40, 8, START),
    (Access::Ts, true, 0x00, 8, Choice::NoStart),
    (Access::Marker, false, 0x40, 8, Choice::NoStart),
    (Access::Marker, true, 0x00, 8, START),
    (Access::Marker, true, 0x00, 7, Choice::NoStart),
];

// A packet with a TS packet that has these flags.
fn flagged(alloc: Global, marker: bool, flags: u8) -> Result<Vec<u8>, AllocError> {
    let mut payload = [0; 188];
    payload[..6].copy_from_slice(&[0x47, 0x40, 0x00, 0x20, 0x01, flags]);
    packet(alloc, 10, 0, marker, &payload)
}

// Takes a packet with a TS packet that has these flags, and says where a burst begins then.
fn chosen(
    rt: &impl Abort,
    alloc: Global,
    cache: &mut Cache,
    marker: bool,
    flags: u8,
) -> Result<Choice, Fail>
    requires { StandsForFewer cache.old 1 }
{
    let bytes = flagged(alloc, marker, flags)?;
    expect_packet(rt, alloc, cache, bytes, Took(65546), 10)?;
    Ok(cache.choose(0, None))
}

fn expect_begun(rt: &impl Abort, alloc: Global, rows: &[Begun]) -> Result<(), Fail> {
    for (place, (access, marker, flags, ring, want)) in rows.iter().enumerate() {
        let mut channel = settings(0, *ring);
        channel.access = *access;
        let mut cache = cache_of(rt, alloc, channel)?;
        let chosen = chosen(rt, alloc, &mut cache, *marker, *flags);
        let_go(cache);
        same(rt, &chosen?, want, &place);
    }
    Ok(())
}

// Access points are packets with the marker, or TS packets with the random access flag, as the channel
// says. A burst begins at one whose bytes surely stay in the ring.
#[test]
fn a_burst_begins_at_an_access_point(rt: HostRuntime) -> Result<(), Fail> {
    expect_begun(&rt, rt.alloc(), BEGUN)
}
