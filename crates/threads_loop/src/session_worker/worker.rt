//! The threads of the lists.
ghost use Rattle.std.specs.Prelude.{◌≡◌, ◌^◌, ◌<◌, ◌≤◌, [], All, map, length, IfOk};
ghost use Rattle.channel_book.specs.channel_lock.{known};
ghost use Rattle.threads_loop.specs.session_worker.{AreReady, HasWorked, HaveWorked, events_of};

use crate::session_worker::live_writer::{Placed, write_all};
use channel_book::channel_lock::{ChannelLock, Pass};
use channel_book::{Config, Event, NoMemory};
use ram_io::Gate;
use std::alloc::Global;
use std::sync::Wait;
use std::thread::Threads;
use std::{mem, thread};

/// A list's pass, its events, and what became of them.
#[derive(Drop)]
pub(crate) struct Worker {
    pub pass: Pass,
    /// Those that are still to be taken.
    pub events: Vec<Event>,
    pub wrote: Result<Vec<Placed>, NoMemory>,
}

/// A worker for each pass, with the list at its place.
pub(crate) fn seat(
    alloc: Global,
    passes: Vec<Pass>,
    lists: Vec<Vec<Event>>,
) -> Result<Vec<Worker>, NoMemory>
    requires { length passes.items ≡ length lists.items }
    ensures passes { IfOk result (λ staff. map (λ w. w.pass) staff.items ≡ passes.items) }
    ensures events { IfOk result (λ staff. map events_of staff.items ≡ map (λ l. l.items) lists.items) }
{
    let mut staff = Vec::with_capacity(alloc, passes.len())?;
    let mut lists = lists.into_iter();
    for pass in passes {
        let Some(events) = lists.next() else {
            unreachable!()
        };
        staff.push(Worker {
            pass,
            events,
            wrote: Ok(Vec::new(alloc)),
        })?;
    }
    Ok(staff)
}

/// Takes the events of one list.
fn work<R: Threads + Wait + Sync, G: Gate>(
    rt: &R,
    alloc: Global,
    lock: &ChannelLock,
    worker: &mut Worker,
    list: u16,
    config: &Config,
    workers: u32,
    gate: &G,
)
    requires pass { worker.old.pass ≡ known lock.now.lock config.now list [] (2 ^ 34) }
    requires short { length (events_of worker.old) ≤ 2 ^ 34 }
    requires workers { 0 < workers }
    ensures { HasWorked lock.now.lock config.now list (events_of worker.old) worker.new }
{
    let events = mem::replace(&mut worker.events, Vec::new(alloc));
    let pass = &mut worker.pass;
    worker.wrote = write_all(rt, alloc, lock, pass, list, events, config, workers, gate);
}

/// Takes the events of all lists, each on a thread of its own.
fn work_all<R: Threads + Wait + Sync, G: Gate + Sync>(
    rt: &R,
    alloc: Global,
    lock: &ChannelLock,
    staff: &mut [Worker],
    config: &Config,
    workers: u32,
    gate: &G,
)
    requires ready { AreReady lock.now.lock config.now staff.old }
    requires lists { (0 < length staff.old) × (length staff.old ≤ 32) }
    requires short { All (λ es. length es ≤ 2 ^ 34) (map events_of staff.old) }
    requires workers { 0 < workers }
    ensures { HaveWorked lock.now.lock config.now (map events_of staff.old) staff.new }
{
    thread::for_each_mut(
        rt,
        staff,
        staff.len(),
        &|list: usize, worker: &mut Worker|
            requires { (worker.old.pass ≡ known lock.now.lock config.now list [] (2 ^ 34)) × (list < 32) × (length (events_of worker.old) ≤ 2 ^ 34) × (0 < workers) }
            ensures { HasWorked lock.entry.now.lock config.entry.now list (events_of worker.old) worker.new }
        {
            work(rt, alloc, lock, worker, list as u16, config, workers, gate);
        },
    );
}

/// The same, of workers in a vector.
pub(crate) fn write_lists<R: Threads + Wait + Sync, G: Gate + Sync>(
    rt: &R,
    alloc: Global,
    lock: &ChannelLock,
    mut staff: Vec<Worker>,
    config: &Config,
    workers: u32,
    gate: &G,
) -> Vec<Worker>
    requires ready { AreReady lock.now.lock config.now staff.items }
    requires lists { (0 < length staff.items) × (length staff.items ≤ 32) }
    requires short { All (λ es. length es ≤ 2 ^ 34) (map events_of staff.items) }
    requires workers { 0 < workers }
    ensures { HaveWorked lock.now.lock config.now (map events_of staff.items) result.items }
{
    let all = staff.as_mut_slice();
    work_all(rt, alloc, lock, all, config, workers, gate);
    staff
}
