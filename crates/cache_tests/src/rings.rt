//! Packets under rising numbers, and those of them that are held.
ghost use Rattle.std.specs.Prelude.{◌≡◌, IfOk};

use crate::fixtures::{holds, same};
use bytes::Bytes;
use channel_cache::packet_ring::{Held, Ring};
use std::alloc::{AllocError, Global};
use std::process::Abort;
use std::test::Fail;
use test_fixtures::test_calls::let_go;

// So many packets at most, the numbers that are put in, and the interval that is held then.
type Row = (u32, &'static [u64], u64, u64);

const ROWS: &[Row] = &[
    (4, &[], 0, 0),
    (1, &[65546, 65547, 65548], 65548, 65549),
    (1, &[65546, 65547, 65550], 65550, 65551),
    (4, &[65546, 65547], 65546, 65548),
    (4, &[65546, 65547, 65548, 65549], 65546, 65550),
    // the oldest go
    (4, &[65546, 65547, 65548, 65549, 65550, 65551], 65548, 65552),
    // all others go at a gap, before the ring is full and after
    (4, &[65546, 65547, 65549], 65549, 65550),
    (4, &[65546, 65547, 65548, 65549, 65550, 85551], 85551, 85552),
    (4, &[65546, 65548, 65549, 65550, 65551, 65552], 65549, 65553),
    // around the wrap of the sequence number
    (2, &[131070, 131071, 131072], 131071, 131073),
];

// The packet of a number; its bytes are the number's.
fn packet(alloc: Global, n: u64) -> Result<Held, AllocError>
    ensures { IfOk result (λ held. held.n ≡ n) }
{
    Ok(Held {
        n,
        ts: (n % 65536) as u32,
        wire: 38,
        access: n % 4 == 0,
        packet: Bytes::copy_from_slice(alloc, &n.to_be_bytes())?,
    })
}

// The packet of this number is put into a ring.
fn put(rt: &impl Abort, alloc: Global, ring: &mut Ring, n: u64) -> Result<(), Fail> {
    assert!(rt; ring.hi() <= n && n < 1 << 62);
    ring.push(packet(alloc, n)?);
    Ok(())
}

// A ring of so many packets at most, into which the packets of these numbers were put.
fn ring_of(rt: &impl Abort, alloc: Global, capacity: u32, numbers: &[u64]) -> Result<Ring, Fail> {
    assert!(rt; capacity >= 1);
    let Ok(mut ring) = Ring::new(alloc, capacity) else {
        return Err(Fail::new("no memory"));
    };
    for n in numbers {
        put(rt, alloc, &mut ring, *n)?;
    }
    Ok(ring)
}

// This number's own packet is held under it.
fn is_held(ring: &Ring, n: u64) -> bool {
    match ring.get(n) {
        None => false,
        Some(held) => held.packet.as_slice() == n.to_be_bytes().as_slice(),
    }
}

// The numbers from `lo` up to `hi` are held, each with its own packet.
fn expect_held(rt: &impl Abort, ring: &Ring, lo: u64, hi: u64) {
    same(rt, &(ring.lo(), ring.hi()), &(lo, hi), &"lo and hi");
    for n in lo..hi {
        holds(rt, is_held(ring, n), &n);
    }
}

// None around them is held.
fn expect_none(rt: &impl Abort, ring: &Ring, lo: u64, hi: u64) {
    for n in [0, lo.wrapping_sub(1), hi, hi.wrapping_add(1), u64::MAX] {
        holds(rt, ring.get(n).is_none(), &n);
    }
}

fn expect(rt: &impl Abort, alloc: Global, rows: &[Row]) -> Result<(), Fail> {
    for (capacity, numbers, lo, hi) in rows {
        let ring = ring_of(rt, alloc, *capacity, numbers)?;
        expect_held(rt, &ring, *lo, *hi);
        expect_none(rt, &ring, *lo, *hi);
        let_go(ring);
    }
    Ok(())
}

#[test]
fn the_last_packets_are_held(rt: HostRuntime) -> Result<(), Fail> {
    expect(&rt, rt.alloc(), ROWS)
}
