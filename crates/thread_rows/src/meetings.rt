//! Lists that wait for each other inside the top call: none of them is served before the other begins.
use crate::fixtures::same;
use crate::gates::{Point, Sign, Stop, Stops};
use crate::run::ran;
use crate::texts::EARLY_AND_ALREADY;
use rams_replay::Status;
use std::alloc::Global;
use std::process::Abort;
use std::sync::Wait;
use std::test::Fail;
use std::thread::Threads;
use trace_rows::let_go;

/// The first calls of the lists of clients 4 and 5, with four workers, each wait for the other.
const BOTH_ENTER: &[Stop] = &[
    Stop {
        point: Point::Enter,
        list: 2,
        call: 0,
        gives: Some(Sign::One),
        awaits: Some(Sign::Other),
    },
    Stop {
        point: Point::Enter,
        list: 3,
        call: 0,
        gives: Some(Sign::Other),
        awaits: Some(Sign::One),
    },
];

/// The first live packet waits until the tick's answer is drawn, which waits until the second packet comes.
const LIVE_WHILE_DRAWING: &[Stop] = &[
    Stop {
        point: Point::Enter,
        list: 0,
        call: 0,
        gives: None,
        awaits: Some(Sign::One),
    },
    Stop {
        point: Point::Drawing,
        list: 1,
        call: 0,
        gives: Some(Sign::One),
        awaits: Some(Sign::Other),
    },
    Stop {
        point: Point::Enter,
        list: 0,
        call: 1,
        gives: Some(Sign::Other),
        awaits: None,
    },
];

/// Two live packets, and a tick.
const TWO_PACKETS: &str = "live 7 80a1000a000000001122334400000000
live 7 8021000b000003841122334400000000
tick
end
";

/// A run with so many workers gets past its stops.
fn expect_held(
    rt: &(impl Threads + Wait + Abort + Sync),
    alloc: Global,
    workers: &str,
    rest: &str,
    stops: &'static [Stop],
) -> Result<(), Fail> {
    let gate = Stops::new(stops);
    let words = &["threads", workers];
    let (status, text) = ran(rt, alloc, words, rest, (&[], &[]), &gate)?;
    let_go(text);
    same(rt, &status, &Status::Done, &workers);
    assert!(rt; gate.were_held(), "both were there at once");
    Ok(())
}

/// The workers of two clients are there at once.
#[test]
fn workers_run_beside_each_other(rt: HostRuntime) -> Result<(), Fail> {
    let request = "fb 7 4 86cd00030000c0011122334401000000\nend\n";
    let rest = EARLY_AND_ALREADY.replace(rt.alloc(), "end\n", request)?;
    let held = expect_held(&rt, rt.alloc(), "4", &rest, BOTH_ENTER);
    let_go(rest);
    held
}

/// A live packet is answered while the datagrams of a tick are rendered.
#[test]
fn packets_come_while_a_tick_is_rendered(rt: HostRuntime) -> Result<(), Fail> {
    expect_held(&rt, rt.alloc(), "1", TWO_PACKETS, LIVE_WHILE_DRAWING)
}
