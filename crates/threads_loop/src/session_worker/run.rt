//! Lists of events on threads, from a channel to its book.
ghost use Rattle.std.specs.Prelude.{◌≡◌, ◌^◌, ◌<◌, ◌≤◌, [], All, map, length, IfOk};
ghost use Rattle.server_hub.specs.session_core.{StandsFor};
ghost use Rattle.channel_book.specs.{IsInterleaving, IsLegal};
ghost use Rattle.threads_loop.specs.session_worker.{AreQueues, answered_with, queue_of};

use crate::session_worker::gather::{draw, take_apart};
use crate::session_worker::live_writer::Placed;
use crate::session_worker::worker::{seat, write_lists};
use channel_book::channel_lock::ChannelLock;
use channel_book::{Book, Config, Core, Event, NoMemory};
use ram_io::Gate;
use rams_model::Octets;
use std::alloc::Global;
use std::sync::Wait;
use std::thread::Threads;

/// What became of lists of events.
#[derive(Drop)]
pub struct Worked {
    /// The history, with the number of the list at each entry.
    pub book: Book,
    /// The datagrams of each entry's answer, by its place.
    pub drawn: Vec<Vec<Octets>>,
}

/// Takes the events of each list on a thread of its own, over one channel to which nothing came yet.
/// The datagrams of an answer are made while other threads may step the channel, by at most so many
/// threads at once. May wait.
///
/// Which list is next at each place isn't said. The gate is passed as `write_all` says it.
pub fn run_lists<R: Threads + Wait + Sync, G: Gate + Sync>(
    rt: &R,
    alloc: Global,
    core: Core,
    lists: Vec<Vec<Event>>,
    workers: u32,
    gate: &G,
) -> Result<Worked, NoMemory>
    requires made { StandsFor core [] }
    requires lists { (0 < length lists.items) × (length lists.items ≤ 32) }
    requires short { All (λ l. length l.items ≤ 2 ^ 34) lists.items }
    requires workers { 0 < workers }
    ensures settings { IfOk result (λ worked. worked.book.settings ≡ core.settings) }
    ensures legal { IfOk result (λ worked. IsLegal core.settings worked.book.entries) }
    ensures interleaving { IfOk result (λ worked. IsInterleaving (map (λ l. l.items) lists.items) worked.book.entries) }
    ensures drawn { IfOk result (λ worked. map (λ d. d.items) worked.drawn.items ≡ answered_with core.settings worked.book.entries) }
{
    let config = *core.config();
    let (lock, passes) = ChannelLock::new(alloc, core, lists.len() as u32)?;
    let staff = seat(alloc, passes, lists)?;
    let staff = write_lists(rt, alloc, &lock, staff, &config, workers, gate);
    let left = take_apart(alloc, staff)?;
    let Ok(book) = lock.close(left.passes) else {
        // All passes are given back.
        unreachable!()
    };
    with_drawn(alloc, &config, book, left.queues)
}

/// The book with the datagrams of its answers.
fn with_drawn(
    alloc: Global,
    config: &Config,
    book: Book,
    queues: Vec<Vec<Placed>>,
) -> Result<Worked, NoMemory>
    requires { AreQueues config.now book.entries (map queue_of queues.items) }
    ensures { IfOk result (λ worked. (worked.book ≡ book) × (map (λ d. d.items) worked.drawn.items ≡ answered_with config.now book.entries)) }
{
    let drawn = draw(alloc, config, book.entries(), queues)?;
    Ok(Worked { book, drawn })
}
