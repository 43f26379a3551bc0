//! Choices among packets that are worked out by hand.
use crate::fixtures::same;
use channel_cache::access_index::{Choice, Index};
use std::alloc::Global;
use std::process::Abort;
use std::test::Fail;
use test_fixtures::test_calls::let_go;

// A packet: its timestamp, its bytes on the wire, and whether it is an access point.
type Packet = (u32, u32, bool);

// What a burst asks for: room, declared bytes, the least age and the most.
type Ask = (u64, u64, u32, Option<u32>);

// The number at which a burst begins and the bytes from there on, or why it can't.
type Want = Result<(u64, u64), Choice>;

// 600 bytes from the first packet on, and 300 from the third.
const FIRST: &[Packet] = &[(0, 100, true), (0, 200, false), (0, 300, false)];

const THIRD: &[Packet] = &[(0, 100, false), (0, 200, false), (0, 300, true)];

const EACH: &[Packet] = &[(0, 100, true), (0, 200, true), (0, 300, true)];

// 200 and 100 ms old; the last packet is no access point.
const AGED: &[Packet] = &[(0, 10, true), (9000, 10, true), (18000, 10, false)];

// 100, 200 and 50 ms old.
const UNSORTED: &[Packet] = &[
    (9000, 10, true),
    (0, 10, true),
    (13500, 10, true),
    (18000, 10, false),
];

// 90 units before the wrap and after it, 1 ms.
const WRAPPED: &[Packet] = &[(4294967295, 10, true), (89, 10, false)];

// A timestamp after the last one is almost once around.
const AHEAD: &[Packet] = &[(18090, 10, true), (18000, 10, false)];

// Packets from number 1000 on, what is asked for, and where a burst begins.
type Start = (&'static [Packet], Ask, Want);

const CHOICES: &[Start] = &[
    (FIRST, (600, 0, 0, None), Ok((1000, 600))),
    (FIRST, (599, 0, 0, None), Err(Choice::NoStart)),
    (FIRST, (650, 50, 0, None), Ok((1000, 600))),
    (FIRST, (649, 50, 0, None), Err(Choice::NoStart)),
    (THIRD, (300, 0, 0, None), Ok((1002, 300))),
    (
        THIRD,
        (1000000299, 1000000000, 0, None),
        Err(Choice::NoStart),
    ),
    // the newest of those that fit, also where all do
    (EACH, (10000, 0, 0, None), Ok((1002, 300))),
    (EACH, (299, 0, 0, None), Err(Choice::NoStart)),
    (&[], (10000, 0, 0, None), Err(Choice::NoStart)),
    (AGED, (90, 0, 100, None), Ok((1001, 20))),
    (AGED, (90, 0, 101, None), Ok((1000, 30))),
    (AGED, (90, 0, 201, None), Err(Choice::MinUnmet)),
    (AGED, (90, 0, 0, Some(99)), Err(Choice::MaxUnmet)),
    (AGED, (90, 0, 100, Some(100)), Ok((1001, 20))),
    (AGED, (90, 0, 150, Some(199)), Err(Choice::MaxUnmet)),
    (AGED, (90, 0, 201, Some(0)), Err(Choice::MinUnmet)),
    // the older one is old enough, but leaves no room
    (AGED, (29, 0, 150, None), Err(Choice::MinUnmet)),
    (UNSORTED, (90, 0, 51, None), Ok((1001, 30))),
    // the first one's age would do, but the second is newer and old enough
    (UNSORTED, (90, 0, 60, Some(150)), Err(Choice::MaxUnmet)),
    (WRAPPED, (90, 0, 1, Some(1)), Ok((1000, 20))),
    (WRAPPED, (90, 0, 2, None), Err(Choice::MinUnmet)),
    (AHEAD, (90, 0, 47721857, None), Ok((1000, 20))),
    (AHEAD, (90, 0, 47721858, None), Err(Choice::MinUnmet)),
    (AHEAD, (90, 0, 0, Some(47721856)), Err(Choice::MaxUnmet)),
];

// Access points 3, 2, 1 and 0 ms old; 1111, 1110, 1100 and 1000 bytes.
const MARKS: &[Packet] = &[
    (0, 1, true),
    (90, 10, true),
    (180, 100, true),
    (270, 1000, true),
];

// The number below which marks go, the least age, and where a burst begins then.
type Left = (u64, u32, Want);

const LEFT: &[Left] = &[
    (0, 3, Ok((1000, 1111))),
    (1001, 3, Err(Choice::MinUnmet)),
    (1001, 2, Ok((1001, 1110))),
    (1003, 0, Ok((1003, 1000))),
    (1004, 0, Err(Choice::NoStart)),
    (1000000, 0, Err(Choice::NoStart)),
];

fn choice_of(want: Want) -> Choice {
    match want {
        Ok((n, behind)) => Choice::Start { n, behind },
        Err(choice) => choice,
    }
}

// An index of at most eight packets, from number 1000 on.
fn index_of(rt: &impl Abort, alloc: Global, packets: &[Packet]) -> Result<Index, Fail> {
    assert!(rt; packets.len() <= 8);
    let Ok(mut index) = Index::new(alloc, 8) else {
        return Err(Fail::new("no memory"));
    };
    let mut n = 1000;
    for (ts, wire, access) in packets {
        index.push(n, *ts, *wire, *access);
        n += 1;
    }
    Ok(index)
}

fn expect_starts(rt: &impl Abort, alloc: Global, rows: &[Start]) -> Result<(), Fail> {
    for (place, (packets, ask, want)) in rows.iter().enumerate() {
        let (room, declared, min_ms, max_ms) = *ask;
        assert!(rt; declared <= 1000000000);
        let index = index_of(rt, alloc, packets)?;
        let choice = index.choose(room, declared, min_ms, max_ms);
        let_go(index);
        same(rt, &choice, &choice_of(*want), &place);
    }
    Ok(())
}

#[test]
fn the_newest_that_fits_is_chosen(rt: HostRuntime) -> Result<(), Fail> {
    expect_starts(&rt, rt.alloc(), CHOICES)
}

fn expect_left(rt: &impl Abort, alloc: Global, rows: &[Left]) -> Result<(), Fail> {
    for (place, (lo, min_ms, want)) in rows.iter().enumerate() {
        let mut index = index_of(rt, alloc, MARKS)?;
        index.drop_below(*lo);
        let choice = index.choose(10000, 0, *min_ms, None);
        let_go(index);
        same(rt, &choice, &choice_of(*want), &place);
    }
    Ok(())
}

#[test]
fn marks_go(rt: HostRuntime) -> Result<(), Fail> {
    expect_left(&rt, rt.alloc(), LEFT)
}
