//! Items out of order, and what goes out after each of them.
ghost use Rattle.std.specs.Prelude.{◌≡◌, ◌<◌, ◌^◌, [], None, true, false, OnOk};
ghost use Rattle.channel_cache.specs.reorder_window.{first_free};

use crate::fixtures::{holds, same};
use channel_cache::reorder_window::{Came, Window};
use std::alloc::{AllocError, Global};
use std::process::Abort;
use std::test::Fail;
use test_fixtures::test_calls::let_go;

// How far a window waits, and the numbers that come after its start at 65,546: each with what becomes
// of it, and the numbers that go out then.
type Row = (u32, &'static [Step]);

// A number, what becomes of it, and the numbers that go out then.
type Step = (u64, Came, &'static [u64]);

const ROWS: &[Row] = &[
    // one comes late
    (
        2,
        &[
            (65546, Came::Kept, &[65546]),
            (65548, Came::Kept, &[]),
            (65547, Came::Kept, &[65547, 65548]),
            (65550, Came::Kept, &[]),
            (65551, Came::Kept, &[]),
            (65552, Came::Kept, &[65550, 65551, 65552]),
            (65549, Came::Late, &[]),
            (65553, Came::Kept, &[65553]),
        ],
    ),
    // none is waited for
    (
        0,
        &[
            (65546, Came::Kept, &[65546]),
            (65548, Came::Kept, &[65548]),
            (65547, Came::Late, &[]),
            (65548, Came::Late, &[]),
            (68547, Came::Kept, &[68547]),
        ],
    ),
    // the same number again, kept and released; a number below the first
    (
        2,
        &[
            (65546, Came::Kept, &[65546]),
            (65548, Came::Kept, &[]),
            (65548, Came::Twice, &[]),
            (65546, Came::Late, &[]),
            (65545, Came::Late, &[]),
            (65547, Came::Kept, &[65547, 65548]),
            (65548, Came::Late, &[]),
        ],
    ),
    // around the wrap of the sequence number
    (
        3,
        &[
            (65546, Came::Kept, &[65546]),
            (131069, Came::Kept, &[]),
            (131072, Came::Kept, &[131069]),
            (131071, Came::Kept, &[]),
            (131070, Came::Kept, &[131070, 131071, 131072]),
            (131069, Came::Late, &[]),
        ],
    ),
    // far ahead, the kept ones go out first
    (
        64,
        &[
            (65546, Came::Kept, &[65546]),
            (65550, Came::Kept, &[]),
            (65548, Came::Kept, &[]),
            (68549, Came::Kept, &[65548, 65550]),
            (68484, Came::Late, &[]),
            (68485, Came::Kept, &[68485]),
        ],
    ),
];

// Releases all that can be.
fn drain(window: &mut Window<u64>, out: &mut Vec<(u64, u64)>) -> Result<(), AllocError>
    ensures ended { window.new.ended ≡ window.old.ended }
    ensures settled { OnOk result (first_free window.new ≡ None) }
    ensures empty { window.old.ended ≡ true → OnOk result (window.new.kept ≡ []) }
{
    while let Some(item) = window.release() {
        out.push(item)?;
    }
    Ok(())
}

// Lets an item arrive, which is ten times its number, and releases all that can be.
fn pass(window: &mut Window<u64>, n: u64, out: &mut Vec<(u64, u64)>) -> Result<Came, AllocError>
    requires going { window.old.ended ≡ false }
    requires settled { first_free window.old ≡ None }
    requires small { n < 2 ^ 40 }
    ensures going { window.new.ended ≡ false }
    ensures settled { OnOk result (first_free window.new ≡ None) }
{
    let came = window.arrive(n, 10 * n);
    drain(window, out)?;
    Ok(came)
}

// Items that are ten times their numbers.
fn items(alloc: Global, numbers: &[u64]) -> Result<Vec<(u64, u64)>, AllocError> {
    let mut items = Vec::new(alloc);
    for n in numbers {
        items.push((*n, n.wrapping_mul(10)))?;
    }
    Ok(items)
}

// These are the items of the numbers.
fn are_items(alloc: Global, got: &[(u64, u64)], numbers: &[u64]) -> Result<bool, AllocError> {
    let want = items(alloc, numbers)?;
    let are_so = got == want.as_slice();
    let_go(want);
    Ok(are_so)
}

// Lets an item arrive, and compares what becomes of it and what goes out.
fn expect_step(
    rt: &impl Abort,
    alloc: Global,
    window: &mut Window<u64>,
    n: u64,
    want: Came,
    released: &[u64],
) -> Result<(), Fail>
    requires going { window.old.ended ≡ false }
    requires settled { first_free window.old ≡ None }
    requires small { n < 2 ^ 40 }
    ensures going { window.new.ended ≡ false }
    ensures settled { OnOk result (first_free window.new ≡ None) }
{
    let mut out = Vec::new(alloc);
    let came = pass(window, n, &mut out);
    let are_so = are_items(alloc, &out, released);
    let_go(out);
    same(rt, &came?, &want, &n);
    holds(rt, are_so?, &n);
    Ok(())
}

// Releases all that can be, and compares it.
fn expect_drained(
    rt: &impl Abort,
    alloc: Global,
    window: &mut Window<u64>,
    released: &[u64],
) -> Result<(), Fail>
    ensures ended { window.new.ended ≡ window.old.ended }
    ensures empty { window.old.ended ≡ true → OnOk result (window.new.kept ≡ []) }
{
    let mut out = Vec::new(alloc);
    let drained = drain(window, &mut out);
    let are_so = are_items(alloc, &out, released);
    let_go(out);
    drained?;
    holds(rt, are_so?, &"the end");
    Ok(())
}

// Lets items arrive, and compares what becomes of each and what goes out.
fn expect_steps(
    rt: &impl Abort,
    alloc: Global,
    window: &mut Window<u64>,
    steps: &[Step],
) -> Result<(), Fail>
    requires going { window.old.ended ≡ false }
    requires settled { first_free window.old ≡ None }
{
    for (n, want, released) in steps {
        assert!(rt; *n < 200000);
        expect_step(rt, alloc, window, *n, *want, released)?;
    }
    Ok(())
}

fn expect(rt: &impl Abort, alloc: Global, rows: &[Row]) -> Result<(), Fail> {
    for (width, steps) in rows {
        let Ok(mut window) = Window::new(alloc, *width) else {
            return Err(Fail::new("no memory"));
        };
        window.begin(65546);
        let expected = expect_steps(rt, alloc, &mut window, steps);
        let_go(window);
        expected?;
    }
    Ok(())
}

#[test]
fn items_go_out_in_order(rt: HostRuntime) -> Result<(), Fail> {
    expect(&rt, rt.alloc(), ROWS)
}

// Numbers that come before a start ends, and after the next has begun at 85,547.
const BEFORE: &[Step] = &[
    (65546, Came::Kept, &[65546]),
    (65549, Came::Kept, &[]),
    (65551, Came::Kept, &[]),
];

const AFTER: &[Step] = &[(85547, Came::Kept, &[85547]), (65552, Came::Late, &[])];

// A start ends, and the next begins.
fn expect_starts(rt: &impl Abort, alloc: Global, window: &mut Window<u64>) -> Result<(), Fail>
    requires going { window.old.ended ≡ false }
    requires settled { first_free window.old ≡ None }
{
    expect_steps(rt, alloc, window, BEFORE)?;
    window.end_start();
    expect_drained(rt, alloc, window, &[65549, 65551])?;
    window.begin(85547);
    expect_steps(rt, alloc, window, AFTER)
}

#[test]
fn the_end_of_a_start_lets_all_go(rt: HostRuntime) -> Result<(), Fail> {
    let Ok(mut window) = Window::new(rt.alloc(), 5) else {
        return Err(Fail::new("no memory"));
    };
    window.begin(65546);
    let expected = expect_starts(&rt, rt.alloc(), &mut window);
    let_go(window);
    expected
}
