//! Lists of one channel on threads.
ghost use Rattle.std.specs.Prelude.{◌≡◌, ◌^◌, ◌<◌, ◌≤◌, All, IfOk, length};

use crate::fixtures::{new_core, packet, pair, request};
use ram_io::{Gate, Open};
use rams_model::{Event, Octets};
use std::alloc::{AllocError, Global};
use std::process::Abort;
use std::sync::Wait;
use std::test::Fail;
use std::thread::Threads;
use test_fixtures::test_calls::let_go;
use test_fixtures::test_gates::{Meeting, Point};
use threads_loop::session_worker::{Worked, run_lists};

/// Packets of the long list. So many orders of one answer are rendered by several threads, where there may be.
const PACKETS: u16 = 20_000;

/// The call of the lists. It stands alone, as its contract is long.
fn run<G: Gate + Sync>(
    rt: &(impl Threads + Wait + Sync),
    alloc: Global,
    lists: Vec<Vec<Event>>,
    workers: u32,
    gate: &G,
) -> Result<Worked, Fail>
    requires lists { (0 < length lists.items) × (length lists.items ≤ 32) }
    requires short { All (λ l. length l.items ≤ 2 ^ 34) lists.items }
    requires workers { 0 < workers }
{
    let core = match new_core(alloc) {
        Ok(core) => core,
        Err(fault) => {
            let_go(lists);
            return Err(fault);
        }
    };
    let Ok(worked) = run_lists(rt, alloc, core, lists, workers, gate) else {
        return Err(Fail::new("no memory"));
    };
    Ok(worked)
}

/// Two packets.
fn two_packets(alloc: Global) -> Result<Vec<Event>, AllocError>
    ensures { IfOk result (λ list. length list.items ≡ 2) }
{
    let first = packet(alloc, 0)?;
    let second = packet(alloc, 1)?;
    pair(alloc, first, second)
}

/// The threads of two packets and of two ticks wait for each other at this point.
fn expect_meeting(
    rt: &(impl Threads + Wait + Abort + Sync),
    alloc: Global,
    point: Point,
) -> Result<(), Fail> {
    let packets = two_packets(alloc)?;
    let ticks = pair(alloc, Event::Tick, Event::Tick)?;
    let gate = Meeting::new(point, 0);
    let lists = vec![in alloc; packets, ticks]?;
    let worked = run(rt, alloc, lists, 2, &gate)?;
    assert!(rt; gate.was_held(), "both were there at once");
    assert!(rt; worked.book.entries().len() == 4, "each event once");
    assert!(rt; worked.drawn.len() == 4, "with its datagrams");
    let_go(worked);
    Ok(())
}

/// Each list has a thread.
#[test]
fn lists_run_beside_each_other(rt: HostRuntime) -> Result<(), Fail> {
    expect_meeting(&rt, rt.alloc(), Point::Enter)
}

/// A list steps the channel while the answer of another is still to be rendered: no turn is held meanwhile.
#[test]
fn a_list_steps_while_another_draws(rt: HostRuntime) -> Result<(), Fail> {
    expect_meeting(&rt, rt.alloc(), Point::Drawing)
}

/// Appends packets, the first of them an access point, a RAMS-R, and the tick that sends the whole burst.
fn add_burst(alloc: Global, list: &mut Vec<Event>) -> Result<(), AllocError> {
    for number in 0..PACKETS {
        list.push(packet(alloc, number)?)?;
    }
    list.push(request(alloc, 5)?)?;
    list.push(Event::Tick)?;
    Ok(())
}

fn burst(alloc: Global) -> Result<Vec<Event>, AllocError> {
    let mut list = Vec::new(alloc);
    add_burst(alloc, &mut list)?;
    Ok(list)
}

/// The list, which is as short as one must be.
fn short(rt: &impl Abort, list: Vec<Event>) -> Vec<Event>
    ensures { length result.items ≤ 2 ^ 34 }
{
    assert!(rt; list.len() <= 1 << 20, "a short list");
    list
}

/// The list alone.
fn alone(alloc: Global, list: Vec<Event>) -> Result<Vec<Vec<Event>>, AllocError>
    requires { length list.items ≤ 2 ^ 34 }
    ensures one { IfOk result (λ lists. length lists.items ≡ 1) }
    ensures short { IfOk result (λ lists. All (λ l. length l.items ≤ 2 ^ 34) lists.items) }
{
    let mut lists = Vec::new(alloc);
    lists.push(list)?;
    Ok(lists)
}

/// One list, rendered by so many threads.
fn worked(
    rt: &(impl Threads + Wait + Abort + Sync),
    alloc: Global,
    workers: u32,
) -> Result<Worked, Fail>
    requires { 0 < workers }
{
    let list = short(rt, burst(alloc)?);
    let lists = alone(alloc, list)?;
    run(rt, alloc, lists, workers, &Open)
}

fn are_same(some: &[Octets], others: &[Octets]) -> bool {
    some.len() == others.len()
        && some
            .iter()
            .zip(others)
            .all(|(one, other)| one.bytes() == other.bytes())
}

/// There is a place for each event, with the same datagrams in both; the tick's has the whole burst.
fn expect_same(rt: &impl Abort, alone: &Worked, beside: &Worked) {
    assert!(rt; alone.drawn.len() == 20_002, "a place for each event");
    assert!(rt; beside.drawn.len() == 20_002, "a place for each event");
    for (some, others) in alone.drawn.iter().zip(beside.drawn.iter()) {
        assert!(rt; are_same(some, others), "the same at each place");
    }
    let tick = alone.drawn.last().expect(rt, "the tick");
    assert!(rt; tick.len() == 20_000, "the whole burst");
}

/// The same datagrams at each place, however many threads render.
#[test]
fn the_threads_of_rendering_change_nothing(rt: HostRuntime) -> Result<(), Fail> {
    let alone = worked(&rt, rt.alloc(), 1)?;
    let beside = worked(&rt, rt.alloc(), 4)?;
    expect_same(&rt, &alone, &beside);
    let_go(alone);
    let_go(beside);
    Ok(())
}
