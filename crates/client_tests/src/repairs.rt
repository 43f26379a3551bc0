//! Asks and settlements whose answers are counted out by hand.
use crate::fixtures::same;
use repair_queue::{Asked, Queue, Wanted};
use std::alloc::{AllocError, Global};
use std::fmt::Display;
use std::process::Abort;
use std::test::Fail;
use test_fixtures::test_calls::let_go;

// Pending repairs, each its client and its number.
const PAIRS: [(u64, u64); 5] = [(6, 11), (5, 12), (6, 10), (7, 11), (5, 10)];

// Which of them are done, and what is pending then.
type Settled = ([bool; 5], &'static [(u64, u64)]);

const SETTLED: &[Settled] = &[
    ([false; 5], &PAIRS),
    ([true; 5], &[]),
    (
        [true, false, false, true, false],
        &[(5, 12), (6, 10), (5, 10)],
    ),
    ([false, true, true, false, true], &[(6, 11), (7, 11)]),
];

// A client that leaves, and what is pending then.
type Forgotten = (u64, &'static [(u64, u64)]);

const FORGOTTEN: &[Forgotten] = &[
    (5, &[(6, 11), (6, 10), (7, 11)]),
    (6, &[(5, 12), (7, 11), (5, 10)]),
    (8, &PAIRS),
];

// Which places of a full queue go at once, one settlement after the other, from the first of these up to
// the second; and the first two that are pending then.
type Gone = (&'static [(usize, usize)], [(u64, u64); 2]);

const GONE: &[Gone] = &[
    (&[(0, 1023)], [(4, 65801), (5, 65546)]),
    (&[(0, 1023), (0, 1)], [(5, 65546), (5, 65547)]),
    (&[(1, 1024), (1, 2)], [(1, 65546), (5, 65547)]),
    (&[(0, 700), (1, 701)], [(3, 65734), (6, 65667)]),
    (&[(0, 4094)], [(16, 65800), (16, 65801)]),
];

fn ask(rt: &impl Abort, queue: &mut Queue, client: u64, n: u64, answer: Asked) {
    assert!(rt; queue.ask(client, n) == answer, "{n} of client {client}");
}

fn ask_for_pairs(rt: &impl Abort, queue: &mut Queue) {
    for (client, n) in PAIRS {
        ask(rt, queue, client, n, Asked::Queued);
    }
}

// A queue in which the pairs are pending.
fn queue_of(rt: &impl Abort, alloc: Global) -> Result<Queue, Fail> {
    let Ok(mut queue) = Queue::new(alloc) else {
        return Err(Fail::new("no memory"));
    };
    ask_for_pairs(rt, &mut queue);
    Ok(queue)
}

// What is pending, each its client and its number.
fn pending(alloc: Global, queue: &Queue) -> Result<Vec<(u64, u64)>, AllocError> {
    let mut pairs = Vec::new(alloc);
    let (pieces, last) = queue.parts();
    for piece in pieces {
        add_pairs(&mut pairs, piece.pending())?;
    }
    add_pairs(&mut pairs, last)?;
    Ok(pairs)
}

fn add_pairs(pairs: &mut Vec<(u64, u64)>, pending: &[Wanted]) -> Result<(), AllocError> {
    for Wanted { client, n } in pending {
        pairs.push((*client, *n))?;
    }
    Ok(())
}

// A client asks for as many as it may have pending, and is told that it can't have more.
fn ask_for_256(rt: &impl Abort, queue: &mut Queue, client: u64) {
    for n in 65546..65802u64 {
        ask(rt, queue, client, n, Asked::Queued);
    }
    ask(rt, queue, client, 65802, Asked::ClientFull);
    ask(rt, queue, client, 65546, Asked::Already);
}

fn ask_for_4096(rt: &impl Abort, queue: &mut Queue) {
    for client in 1..17 {
        ask_for_256(rt, queue, client);
    }
}

// A queue with 4,096 pending repairs, of the clients 1 to 16.
fn full_queue(rt: &impl Abort, alloc: Global) -> Result<Queue, Fail> {
    let Ok(mut queue) = Queue::new(alloc) else {
        return Err(Fail::new("no memory"));
    };
    ask_for_4096(rt, &mut queue);
    Ok(queue)
}

// How many repairs are pending.
fn count(queue: &Queue) -> usize {
    queue.len()
}

// Each client may have 256 pending repairs and the channel 4,096: a client that asks for one more is
// told so before the channel is looked at, and a repair that is pending before either.
#[test]
fn full_queues(rt: HostRuntime) -> Result<(), Fail> {
    let mut queue = full_queue(&rt, rt.alloc())?;
    ask(&rt, &mut queue, 17, 65546, Asked::QueueFull);
    ask(&rt, &mut queue, 1, 65801, Asked::Already);
    ask(&rt, &mut queue, 16, 65802, Asked::ClientFull);
    same(&rt, &count(&queue), &4096, &"pending");
    let_go(queue);
    Ok(())
}

#[test]
fn full_queues_have_room_behind_a_client(rt: HostRuntime) -> Result<(), Fail> {
    let mut queue = full_queue(&rt, rt.alloc())?;
    queue.forget(3);
    same(&rt, &count(&queue), &3840, &"pending");
    ask(&rt, &mut queue, 17, 65546, Asked::Queued);
    ask(&rt, &mut queue, 3, 65546, Asked::Queued);
    let_go(queue);
    Ok(())
}

// Pending are these.
fn expect_pending<C: Display>(
    rt: &impl Abort,
    alloc: Global,
    queue: &Queue,
    pairs: &[(u64, u64)],
    of: &C,
) -> Result<(), Fail> {
    same(rt, &pending(alloc, queue)?.as_slice(), &pairs, of);
    Ok(())
}

// Each pair that is done may be asked for again, and each other is pending.
fn ask_again(rt: &impl Abort, queue: &mut Queue, done: &[bool; 5]) {
    for ((client, n), is_done) in PAIRS.iter().zip(done) {
        let answer = if *is_done {
            Asked::Queued
        } else {
            Asked::Already
        };
        ask(rt, queue, *client, *n, answer);
    }
}

// The marked ones go.
fn settle(rt: &impl Abort, queue: &mut Queue, done: &[bool]) {
    assert!(rt; queue.len() == done.len());
    queue.settle(done);
}

// The marked ones go, and the others stay in their order; what went may be asked for again.
fn expect_settled(rt: &impl Abort, alloc: Global, rows: &[Settled]) -> Result<(), Fail> {
    for (place, (done, left)) in rows.iter().enumerate() {
        let mut queue = queue_of(rt, alloc)?;
        settle(rt, &mut queue, done);
        let settled = expect_pending(rt, alloc, &queue, left, &place);
        ask_again(rt, &mut queue, done);
        let_go(queue);
        settled?;
    }
    Ok(())
}

#[test]
fn settled_repairs_go(rt: HostRuntime) -> Result<(), Fail> {
    expect_settled(&rt, rt.alloc(), SETTLED)
}

// The repairs at these places go.
fn settle_places(
    rt: &impl Abort,
    alloc: Global,
    queue: &mut Queue,
    places: (usize, usize),
) -> Result<(), Fail> {
    let mut done = Vec::new(alloc);
    for place in 0..queue.len() {
        done.push(places.0 <= place && place < places.1)?;
    }
    settle(rt, queue, &done);
    Ok(())
}

// The first two that are pending, and the last.
fn ends(pairs: &[(u64, u64)]) -> [Option<(u64, u64)>; 3] {
    [
        pairs.get(0).copied(),
        pairs.get(1).copied(),
        pairs.last().copied(),
    ]
}

// The repairs at these places go, one settlement after the other. What is pending then, with one more
// behind it: the first two, and the last.
fn ends_after(
    rt: &impl Abort,
    alloc: Global,
    queue: &mut Queue,
    gone: &[(usize, usize)],
) -> Result<[Option<(u64, u64)>; 3], Fail> {
    for places in gone {
        settle_places(rt, alloc, queue, *places)?;
    }
    ask(rt, queue, 17, 65546, Asked::Queued);
    Ok(ends(&pending(alloc, queue)?))
}

// What goes from a full queue leaves the others in their order, and room for as many behind them.
fn expect_gone(rt: &impl Abort, alloc: Global, rows: &[Gone]) -> Result<(), Fail> {
    for (place, (gone, first)) in rows.iter().enumerate() {
        let mut queue = full_queue(rt, alloc)?;
        let ends = ends_after(rt, alloc, &mut queue, gone);
        let_go(queue);
        let want = [Some(first[0]), Some(first[1]), Some((17, 65546))];
        same(rt, &ends?, &want, &place);
    }
    Ok(())
}

#[test]
fn repairs_go_from_a_full_queue(rt: HostRuntime) -> Result<(), Fail> {
    expect_gone(&rt, rt.alloc(), GONE)
}

fn expect_forgotten(rt: &impl Abort, alloc: Global, rows: &[Forgotten]) -> Result<(), Fail> {
    for (client, left) in rows {
        let mut queue = queue_of(rt, alloc)?;
        let known = queue.has(*client);
        queue.forget(*client);
        let has = (known, queue.has(*client));
        let others = expect_pending(rt, alloc, &queue, left, client);
        let_go(queue);
        same(rt, &has, &(*client != 8, false), client);
        others?;
    }
    Ok(())
}

#[test]
fn the_repairs_of_one_client_go(rt: HostRuntime) -> Result<(), Fail> {
    expect_forgotten(&rt, rt.alloc(), FORGOTTEN)
}
