//! Ticks between moments.
ghost use Rattle.std.specs.Prelude.{◌^◌, ◌<◌};

use crate::fixtures::same;
use converters::capture_loop::pcap_trace::Due;
use std::process::Abort;

/// The length of a tick in ms, and each moment with the ticks in front of it.
const ROWS: &[(u16, &[(u32, u64)])] = &[
    (
        10,
        &[
            (1000, 0),
            (1009, 0),
            (1010, 1),
            (1011, 0),
            (1025, 1),
            (1100, 8),
        ],
    ),
    (10, &[(0, 0), (25, 2), (5, 0), (29, 0), (30, 1)]),
    (1, &[(7, 0), (7, 0), (8, 1), (4294967295, 4294967287)]),
    (1000, &[(999, 0), (1998, 0), (1999, 1)]),
];

/// Each moment has these ticks in front of it.
fn expect_ticks(rt: &impl Abort, tick: u16, moments: &[(u32, u64)]) {
    let length = u32::from(tick);
    if length == 0 || length > 1000 {
        return;
    }
    let mut due = Due::new(length);
    for (ms, ticks) in moments.iter() {
        let got = due.ticks_before(u64::from(*ms));
        same(rt, &got, ticks, "ticks");
    }
}

#[test]
fn ticks_are_counted(rt: HostRuntime) {
    for (tick, moments) in ROWS {
        expect_ticks(&rt, *tick, moments);
    }
}
