//! Sequence numbers as the channel meets them (RFC 3550, A.1), and numbers named by 16 bits.
use crate::fixtures::{holds, same};
use reckoning::ext_seq::{Noted, Numbering, age_ms, least_from, resolve_in};
use std::process::Abort;

// Lists of sequence numbers, each with what it becomes. A list goes to a numbering of its own.
type List = &'static [(u16, Noted)];

const LISTS: &[List] = &[
    // around the wrap, then a restart
    &[
        (65535, Noted::First(131071)),
        (0, Noted::Forward(131072)),
        (65534, Noted::Behind(131070)),
        (20000, Noted::Jump),
        (20001, Noted::Restart(151073)),
        (20001, Noted::Forward(151073)),
        // the restart's own number is not kept
        (30002, Noted::Jump),
        (20002, Noted::Forward(151074)),
    ],
    // the farthest forward and the nearest jump, on either side
    &[(0, Noted::First(65536)), (2999, Noted::Forward(68535))],
    &[
        (0, Noted::First(65536)),
        (3000, Noted::Jump),
        (3001, Noted::Restart(68537)),
    ],
    &[
        (0, Noted::First(65536)),
        (65436, Noted::Jump),
        (65437, Noted::Behind(65437)),
    ],
    // packets within reach don't change what is kept; a restart forgets it
    &[
        (10, Noted::First(65546)),
        (20010, Noted::Jump),
        (11, Noted::Forward(65547)),
        (20011, Noted::Restart(85547)),
        (23010, Noted::Forward(88546)),
        (20011, Noted::Jump),
        (40000, Noted::Jump),
        (20012, Noted::Jump),
    ],
];

// An interval of numbers, 16 bits, and the number in it that they name.
type Resolved = (u64, u64, u16, Option<u64>);

const RESOLVED: &[Resolved] = &[
    (65546, 65546, 10, None),
    (65546, 65547, 10, Some(65546)),
    (65546, 65547, 11, None),
    // across the wrap
    (131070, 131074, 1, Some(131073)),
    (131070, 131074, 2, None),
    (131070, 131074, 65533, None),
    // an interval with each of the 65,536
    (65546, 131082, 9, Some(131081)),
    (65546, 131082, 10, Some(65546)),
];

// A number, 16 bits, and the least number from there on that they name.
type Least = (u64, u16, u64);

const LEAST: &[Least] = &[
    (65546, 10, 65546),
    (65546, 9, 131081),
    (131071, 0, 131072),
    (9223372036854775807, 65534, 9223372036854841342),
];

// Two timestamps, and by how many ms the second is older.
type Age = (u32, u32, u32);

const AGES: &[Age] = &[
    (18000, 0, 200),
    (18089, 0, 200),
    (90, 90, 0),
    (89, 4294967295, 1),
    (0, 90, 47721857),
];

// One list, to a numbering of its own.
fn expect_list(rt: &impl Abort, list: &[(u16, Noted)]) {
    assert!(rt; list.len() < 100);
    let mut numbering = Numbering::new();
    for (seq, want) in list {
        same(rt, &numbering.note(*seq), want, seq);
    }
}

fn expect_lists(rt: &impl Abort, lists: &[List]) {
    for list in lists {
        expect_list(rt, list);
    }
}

// The 16 bits name the number of the row.
fn is_resolved(row: &Resolved) -> bool {
    let (lo, hi, low, want) = *row;
    lo <= hi && hi - lo <= 65536 && resolve_in(lo, hi, low) == want
}

fn expect_resolved(rt: &impl Abort, rows: &[Resolved]) {
    for (place, row) in rows.iter().enumerate() {
        holds(rt, is_resolved(row), &place);
    }
}

// The 16 bits name the least number of the row.
fn is_least(row: &Least) -> bool {
    let (first, low, want) = *row;
    first < 1 << 63 && least_from(first, low) == want
}

fn expect_least(rt: &impl Abort, rows: &[Least]) {
    for row in rows {
        holds(rt, is_least(row), &row.2);
    }
}

fn expect_ages(rt: &impl Abort, rows: &[Age]) {
    for (newer, older, want) in rows {
        same(rt, &age_ms(*newer, *older), want, newer);
    }
}

#[test]
fn sequence_numbers_are_extended(rt: HostRuntime) {
    expect_lists(&rt, LISTS);
}

#[test]
fn numbers_are_found_and_ages_go_around(rt: HostRuntime) {
    expect_resolved(&rt, RESOLVED);
    expect_least(&rt, LEAST);
    expect_ages(&rt, AGES);
}
