//! Rates, join times and stops that are worked out by hand (RFC 6285, 7).
use crate::fixtures::same;
use reckoning::burst_plan::{
    bits_of, catching_up_ends, five_packets_in_three_ticks, join_ticks, join_times_are_kept,
    quiet_bursts_catch_up, rate_of, stop_of,
};
use std::process::Abort;

// The bit rate of a request, the ms of a tick, the most of a client in bytes, and the rate.
type Rate = (Option<u64>, u32, u64, u64);

const RATES: &[Rate] = &[
    // as no bit rate is named
    (None, 10, 4000, 4000),
    // a slow client, one at the channel's rate, and one above it
    (Some(1_280_000), 10, 4000, 1600),
    (Some(1_279_999), 10, 4000, 1599),
    (Some(3_200_000), 10, 4000, 4000),
    (Some(3_200_001), 10, 4000, 4000),
    (Some(0), 10, 4000, 0),
    // below a byte, and a byte
    (Some(7999), 1, 100, 0),
    (Some(8000), 1, 100, 1),
    // products above 64 bits
    (Some(u64::MAX), 1000, 1_000_000_000, 1_000_000_000),
    (Some(u64::MAX), 8000, u64::MAX, u64::MAX),
    (Some(1 << 61), 8000, u64::MAX, 1 << 61),
    (Some(1 << 63), 8001, u64::MAX, 9_224_524_958_359_382_654),
];

// A rate in bytes, the ms of a tick, and the bit rate.
type BitRate = (u64, u32, u64);

const BIT_RATES: &[BitRate] = &[
    (4000, 10, 3_200_000),
    (1599, 7, 1_827_428),
    (0, 1, 0),
    (1, u32::MAX, 0),
    (1_000_000_000, 1, 8_000_000_000_000),
];

// Bytes behind, a rate, declared bytes, what a burst may keep, and the ticks until it has caught up.
type Join = (u64, u64, u64, u64, u64);

const JOINS: &[Join] = &[
    // one byte is gained in a tick: a slow client, and one packet per tick
    (46, 1600, 100, 0, 46),
    (3000, 1500, 0, 0, 3000),
    (46, 3200, 100, 0, 1),
    // a steady load: 7,637 bytes are gained
    (543_200, 20_000, 10_864, 0, 72),
    // a burst of five packets that may keep its waste, and one that may not
    (7500, 2999, 0, 1499, 3),
    (7500, 2999, 0, 0, 5),
    // what a burst may keep beyond the waste gains no more
    (3000, 1500, 0, 1499, 2),
    (3000, 1500, 0, u64::MAX, 2),
    (3001, 1500, 0, 1499, 3),
    (0, 1500, 0, 0, 0),
    // more ticks than 32 bits hold
    (6_442_450_944, 1500, 0, 0, 6_442_450_944),
    (u64::MAX, u64::MAX, u64::MAX - 1500, 0, u64::MAX),
];

// The first packet of a burst, the one that would be sent next, what is named, and the stop.
type Stop = (u64, u64, Option<u32>, u64);

const STOPS: &[Stop] = &[
    // none is named
    (131_070, 131_074, None, 131_074),
    // of a burst whose sequence numbers go from 65534 over 65535 to 0 and on
    (131_070, 131_070, Some(1), 131_073),
    (131_070, 131_070, Some(0), 131_072),
    (131_070, 131_070, Some(0xffff), 131_071),
    (131_070, 131_070, Some(0xfffe), 131_070),
    // the one before the first is the last of the next 65,536
    (131_070, 131_070, Some(0xfffd), 196_605),
    // the high bits that are named count for nothing
    (131_070, 131_070, Some(0x0009_0001), 131_073),
    (131_070, 131_070, Some(u32::MAX), 131_071),
    // it was sent
    (131_070, 131_074, Some(0xffff), 131_074),
    (131_070, 131_074, Some(1), 131_074),
    (0, 0, Some(0), 0),
    (0, u64::MAX, Some(0), u64::MAX),
];

fn expect_rates(rt: &impl Abort, rows: &[Rate]) {
    for (place, (bps, tick_ms, burst, rate)) in rows.iter().enumerate() {
        let got = rate_of(*bps, *tick_ms, *burst);
        same(rt, &got, rate, &place);
    }
}

fn expect_bit_rates(rt: &impl Abort, rows: &[BitRate]) {
    for (rate, tick_ms, bps) in rows {
        assert!(rt; *rate <= 1_000_000_000 && *tick_ms >= 1);
        same(rt, &bits_of(*rate, *tick_ms), bps, bps);
    }
}

fn expect_joins(rt: &impl Abort, rows: &[Join]) {
    for (place, (behind, rate, declared, depth, join)) in rows.iter().enumerate() {
        assert!(rt; *rate >= 1500 && *declared <= *rate - 1500);
        let got = join_ticks(*behind, *rate, *declared, *depth);
        same(rt, &got, join, &place);
    }
}

fn expect_stops(rt: &impl Abort, rows: &[Stop]) {
    for (place, (first, next, named, stop)) in rows.iter().enumerate() {
        assert!(rt; *first < 1 << 63);
        let got = stop_of(*first, *next, *named);
        same(rt, &got, stop, &place);
    }
}

#[test]
fn rates(rt: HostRuntime) {
    expect_rates(&rt, RATES);
    expect_bit_rates(&rt, BIT_RATES);
}

#[test]
fn join_times(rt: HostRuntime) {
    join_times_are_kept();
    catching_up_ends();
    quiet_bursts_catch_up();
    five_packets_in_three_ticks();
    expect_joins(&rt, JOINS);
}

#[test]
fn stops(rt: HostRuntime) {
    expect_stops(&rt, STOPS);
}
