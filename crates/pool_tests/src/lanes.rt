//! Channels that share a link.
ghost use Rattle.std.specs.Prelude.{◌≡◌, ◌^◌, ◌<◌, ◌≤◌, All, IfOk, length};
ghost use Rattle.pool.specs.link_pool.{claimed};
ghost use Rattle.pool.specs.pool_run.{IsFresh};

use crate::fixtures::sends_two;
use pool::ledger_text::append_ledger;
use pool::pool_run::{Lane, Ledger, Pooled, run_pool};
use ram_io::{Gate, Open};
use std::alloc::Global;
use std::process::Abort;
use std::test::Fail;
use std::thread::Threads;
use test_fixtures::test_calls::let_go;
use test_fixtures::test_gates::{Meeting, Point};

fn one_lane(rt: &impl Abort, alloc: Global) -> Result<Vec<Lane>, Fail>
    ensures { IfOk result (λ lanes. All IsFresh lanes.items × (length lanes.items ≡ 1)) }
{
    let mut lanes = Vec::new(alloc);
    lanes.push(sends_two(rt, alloc)?)?;
    Ok(lanes)
}

fn two_lanes(rt: &impl Abort, alloc: Global) -> Result<Vec<Lane>, Fail>
    ensures { IfOk result (λ lanes. All IsFresh lanes.items × (length lanes.items ≡ 2)) }
{
    let mut lanes = Vec::new(alloc);
    lanes.push(sends_two(rt, alloc)?)?;
    lanes.push(sends_two(rt, alloc)?)?;
    Ok(lanes)
}

/// The text of a ledger all of whose takers claim for channel 7.
fn text_of(alloc: Global, ledger: &Ledger) -> Result<Vec<u8>, Fail>
    requires { claimed ledger.now.claims.items < 2 ^ 64 }
{
    let mut text = Vec::new(alloc);
    let Ok(()) = append_ledger(&mut text, &[7, 7], ledger) else {
        return Err(Fail::new("no memory"));
    };
    Ok(text)
}

/// The ledger of one channel, two ticks and this rate, as text.
fn ledger_of_one(
    rt: &(impl Threads + Sync + Abort),
    alloc: Global,
    rate: u64,
) -> Result<Vec<u8>, Fail>
    requires { rate ≤ 1000000000 }
{
    let Ok(pooled) = run_pool(rt, alloc, one_lane(rt, alloc)?, 2, rate, &Open) else {
        return Err(Fail::new("no memory"));
    };
    let text = text_of(alloc, &pooled.ledger);
    let_go(pooled);
    text
}

/// The ledger of one channel at this rate is this text.
fn expect_ledger(
    rt: &(impl Threads + Sync + Abort),
    alloc: Global,
    rate: u64,
    want: &str,
    of: &str,
) -> Result<(), Fail>
    requires { rate ≤ 1000000000 }
{
    let text = ledger_of_one(rt, alloc, rate)?;
    assert!(rt; text.as_slice() == want.as_bytes(), "{of}");
    let_go(text);
    Ok(())
}

/// One channel: at 1,500 bytes in a tick both claims are paid, at 1,499 the second is late.
#[test]
fn late_by_one_byte(rt: HostRuntime) -> Result<(), Fail> {
    let want = "claim 7 0 1500 paid\nclaim 7 1500 1500 paid\npool 3000 3000\n";
    expect_ledger(&rt, rt.alloc(), 1500, want, "both paid")?;
    let want = "claim 7 0 1500 paid\nclaim 7 1500 1500 late\npool 3000 2998\n";
    expect_ledger(&rt, rt.alloc(), 1499, want, "the second late")
}

/// Two channels with two claims each, of which the first two are paid.
fn expect_two(rt: &impl Abort, alloc: Global, pooled: &Pooled) -> Result<(), Fail>
    requires { claimed pooled.now.ledger.claims.items < 2 ^ 64 }
{
    let text = text_of(alloc, &pooled.ledger)?;
    let want =
        b"claim 7 0 1500 paid\nclaim 7 1500 1500 paid\nclaim 7 3000 1500 late\nclaim 7 4500 1500 late\npool 6000 3000\n";
    assert!(rt; text.as_slice() == &want[..], "whoever draws first");
    let_go(text);
    expect_shares(rt, pooled);
    Ok(())
}

/// A book of each channel, and two claims of each.
fn expect_shares(rt: &impl Abort, pooled: &Pooled) {
    assert!(rt; pooled.books.len() == 2, "a book each");
    for book in &pooled.books {
        assert!(rt; book.entries().len() == 6, "with the channel's events");
    }
    let of_first = pooled.ledger.claims.iter().filter(|claim| claim.taker == 0);
    assert!(rt; of_first.count() == 2, "two claims of each");
}

/// Two channels run, while a gate looks on.
fn two_claim<G: Gate + Sync>(
    rt: &(impl Threads + Sync + Abort),
    alloc: Global,
    gate: &G,
) -> Result<(), Fail> {
    let Ok(pooled) = run_pool(rt, alloc, two_lanes(rt, alloc)?, 2, 1500, gate) else {
        return Err(Fail::new("no memory"));
    };
    let expected = expect_two(rt, alloc, &pooled);
    let_go(pooled);
    expected
}

#[test]
fn two_channels_claim(rt: HostRuntime) -> Result<(), Fail> {
    two_claim(&rt, rt.alloc(), &Open)
}

/// Both lanes have the answer of their first tick before either claims for it.
#[test]
fn lanes_run_beside_each_other(rt: HostRuntime) -> Result<(), Fail> {
    let gate = Meeting::new(Point::Drawing, 4);
    two_claim(&rt, rt.alloc(), &gate)?;
    assert!(&rt; gate.was_held(), "both were there at once");
    Ok(())
}
