//! Amounts that are reserved and spent, counted out by hand.
use crate::fixtures::same;
use reckoning::link_budget::Budget;
use std::process::Abort;

// A share and its reserve, two amounts that are asked for in turn, whether each is reserved, and what
// is reserved then.
type Reserved = (u64, u64, [u64; 2], [bool; 2], u64);

const RESERVED: &[Reserved] = &[
    // two bursts of 4,000 bytes beside 1,500 for repairs
    (9500, 1500, [4000, 4000], [true, true], 8000),
    (9499, 1500, [4000, 4000], [true, false], 4000),
    // two of 2,999 bytes that may keep 1,499 more
    (10_496, 1500, [4498, 4498], [true, true], 8996),
    (10_495, 1500, [4498, 4498], [true, false], 4498),
    // a refused one takes nothing from a later one
    (5500, 1500, [4001, 4000], [false, true], 4000),
    (1500, 1500, [0, 1], [true, false], 0),
    (u64::MAX, 0, [u64::MAX, 1], [true, false], u64::MAX),
    (u64::MAX, 1, [u64::MAX, 2], [false, true], 2),
];

// A share and a swell, the sizes of the packets in two ticks, what each tick has as it begins, and
// what the second leaves.
type Ticks = (u64, u64, [[u64; 3]; 2], [u64; 2], u64);

const TICKS: &[Ticks] = &[
    // nothing is sent in the first tick; the second has room for three packets, or for two
    (3100, 1400, [[0, 0, 0], [1500, 1500, 1500]], [3100, 4500], 0),
    (3100, 1399, [[0, 0, 0], [1500, 1500, 0]], [3100, 4499], 1499),
    // what isn't kept is lost, and what is kept doesn't add up
    (1000, 300, [[400, 0, 0], [0, 0, 0]], [1000, 1300], 1300),
    (
        1000,
        900,
        [[300, 100, 0], [200, 300, 0]],
        [1000, 1600],
        1100,
    ),
    (1000, 0, [[1000, 0, 0], [1, 2, 3]], [1000, 1000], 994),
];

// Of 3,100 bytes: what is spent before, a size, and whether it fits.
type Spent = (u64, u64, bool);

const SPENT: &[Spent] = &[
    (0, 1500, true),
    (1500, 1600, true),
    (1500, 1601, false),
    (3000, 101, false),
    (3000, 100, true),
    (3100, 1, false),
    (3100, 0, true),
    (0, u64::MAX, false),
];

// The answers to two amounts, and what is reserved then; all of it can be released.
fn reserved(share: u64, reserve: u64, amounts: &[u64; 2]) -> Option<([bool; 2], u64)> {
    if share < reserve {
        return None;
    }
    let mut budget = Budget::new(share, reserve, 0);
    let answers = [budget.reserve(amounts[0]), budget.reserve(amounts[1])];
    let reserved = budget.reserved();
    budget.release(reserved);
    (budget == Budget::new(share, reserve, 0)).then_some((answers, reserved))
}

fn expect_reserved(rt: &impl Abort, rows: &[Reserved]) {
    for (place, (share, reserve, amounts, answers, total)) in rows.iter().enumerate() {
        let got = reserved(*share, *reserve, amounts);
        same(rt, &got, &Some((*answers, *total)), &place);
    }
}

#[test]
fn reserves_what_the_share_has_room_for(rt: HostRuntime) {
    expect_reserved(&rt, RESERVED);
}

// What a tick has as it begins, where packets of these sizes are sent in it.
fn begun(budget: &mut Budget, sizes: &[u64; 3]) -> Option<u64> {
    budget.open_tick();
    let left = budget.left();
    for size in sizes {
        if !budget.spend(*size) {
            return None;
        }
    }
    Some(left)
}

// What two ticks have as they begin, and what the second leaves.
fn ticks(share: u64, swell: u64, sizes: &[[u64; 3]; 2]) -> Option<([u64; 2], u64)> {
    if share > 5000 || swell > 5000 {
        return None;
    }
    let mut budget = Budget::new(share, 0, swell);
    let first = begun(&mut budget, &sizes[0])?;
    let second = begun(&mut budget, &sizes[1])?;
    Some(([first, second], budget.left()))
}

fn expect_ticks(rt: &impl Abort, rows: &[Ticks]) {
    for (place, (share, swell, sizes, begun, left)) in rows.iter().enumerate() {
        let got = ticks(*share, *swell, sizes);
        same(rt, &got, &Some((*begun, *left)), &place);
    }
}

#[test]
fn keeps_up_to_the_swell(rt: HostRuntime) {
    expect_ticks(&rt, TICKS);
}

// Whether a size fits behind what is spent before, and how much less is left then.
fn spent(before: u64, size: u64) -> Option<(bool, u64)> {
    let mut budget = Budget::new(3100, 1500, 0);
    budget.open_tick();
    if !budget.spend(before) {
        return None;
    }
    let left = budget.left();
    let fits = budget.spend(size);
    Some((fits, left - budget.left()))
}

fn expect_spent(rt: &impl Abort, rows: &[Spent]) {
    for (place, (before, size, fits)) in rows.iter().enumerate() {
        let taken = if *fits { *size } else { 0 };
        let got = spent(*before, *size);
        same(rt, &got, &Some((*fits, taken)), &place);
    }
}

#[test]
fn spends_what_is_left(rt: HostRuntime) {
    expect_spent(&rt, SPENT);
}
