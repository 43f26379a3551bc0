//! What makes an ask quick: which pairs are pending, and how many of each client.
ghost use Rattle.std.specs.Prelude.{◌≡◌, ℕ, ◌+◌, ◌<◌, ◌≤◌, ◌==◌, ◌&&◌, not, true, List, [], ◌∷◌, ◌++◌, length, IfOk};
ghost use Rattle.std.specs.List.{list_any};
ghost use Rattle.rams_model.specs.Service.{Wanted as Repair, wanted, is_wanted};
ghost use Rattle.repair_queue.specs.{count_of, asked_of, answered, unmarked, without, AreOnce, Indexes, Owes, marked};

use crate::backlog::Backlog;
use crate::block::is_any_set;
use crate::counts::Counts;
use crate::flags::FLAGS;
use crate::marks::Marks;
use crate::wanted::{Asked, MOST_OF_CLIENT, MOST_PENDING, Wanted};
use ram_io::NoMemory;
use std::alloc::Global;

/// The pending pairs of client and number, and how many pairs each client has. An index that was
/// refused memory is no longer whole: the pending repairs are walked in its place.
#[derive(Drop)]
pub(crate) struct Index {
    pairs: Marks,
    counts: Counts,
    whole: bool,
}

// A block of marks has room at first for so many of the pairs: lost packets come in bursts.
const PAIRS_OF_BLOCK: usize = 4;

// Pairs of one client that went one after another, and that its count has still in it.
#[derive(Clone, Copy)]
pub(crate) struct Run {
    client: u64,
    len: u32,
}

impl Run {
    /// None so far.
    pub(crate) fn new() -> Run
        ensures { result.len ≡ 0 }
    {
        Run { client: 0, len: 0 }
    }
}

impl Index {
    /// An index of nothing, with room for so many pairs.
    pub(crate) fn new(alloc: Global, room: usize) -> Result<Index, NoMemory>
        ensures { IfOk result (λ index. Indexes index []) }
    {
        Ok(Index {
            pairs: Marks::new(alloc, room / PAIRS_OF_BLOCK)?,
            counts: Counts::new(alloc, room)?,
            whole: true,
        })
    }

    // Whether this number is pending for this client.
    fn has(&self, pending: &Backlog, client: u64, n: u64) -> bool
        requires { Indexes self.now pending.now }
        ensures { result ≡ list_any (is_wanted client n) pending.now }
    {
        if self.whole {
            self.pairs.has(client, n)
        } else {
            is_pending(pending, client, n)
        }
    }

    /// How many numbers are pending for this client.
    pub(crate) fn count(&self, pending: &Backlog, client: u64) -> u32
        requires indexed { Indexes self.now pending.now }
        requires few { length pending.now ≤ MOST_PENDING }
        ensures { result ≡ count_of client pending.now }
    {
        if self.whole {
            self.counts.get(client)
        } else {
            count_pending(pending, client)
        }
    }

    /// The answer to an ask. Where it is `Queued`, the pair is among the others from here on. Where the
    /// index can't take the pair in, the answer comes from what is pending.
    pub(crate) fn claim(&mut self, pending: &Backlog, client: u64, n: u64) -> Asked
        requires few { length pending.now ≤ MOST_PENDING }
        requires indexed { Indexes self.old pending.now }
        ensures answer { result ≡ asked_of pending.now client n }
        ensures indexed { Indexes self.new (answered result pending.now client n) }
    {
        if self.whole && pending.len() < MOST_PENDING {
            match self.put(client, n) {
                Ok(asked) => return asked,
                Err(_) => self.whole = false,
            }
        }
        self.answer(pending, client, n)
    }

    // The answer to an ask, with no pair put in.
    fn answer(&self, pending: &Backlog, client: u64, n: u64) -> Asked
        requires few { length pending.now ≤ MOST_PENDING }
        requires indexed { Indexes self.now pending.now }
        ensures { result ≡ asked_of pending.now client n }
    {
        if self.has(pending, client, n) {
            return Asked::Already;
        }
        if self.count(pending, client) >= MOST_OF_CLIENT {
            return Asked::ClientFull;
        }
        if pending.len() >= MOST_PENDING {
            return Asked::QueueFull;
        }
        Asked::Queued
    }

    // Puts the pair among those of fewer than 4,096 repairs, where it is new and its client isn't full.
    // After an `Err` the index isn't whole.
    fn put(&mut self, client: u64, n: u64) -> Result<Asked, NoMemory>
        ensures answer { IfOk result (λ asked. (ws : List Repair) → self.old.whole ≡ true → Indexes self.old ws → length ws < MOST_PENDING → asked ≡ asked_of ws client n) }
        ensures indexed { IfOk result (λ asked. (ws : List Repair) → self.old.whole ≡ true → Indexes self.old ws → Indexes self.new (answered asked ws client n)) }
    {
        if !self.pairs.put(client, n)? {
            return Ok(Asked::Already);
        }
        if !self.counts.add_one(client)? {
            self.pairs.take(client, n)?;
            return Ok(Asked::ClientFull);
        }
        Ok(Asked::Queued)
    }

    // One more pair. Where it can't be put in, the index isn't whole.
    fn add(&mut self, client: u64, n: u64)
        ensures { (ws : List Repair) → length ws < MOST_PENDING → Indexes self.old ws → Indexes self.new (ws ++ wanted client n ∷ []) }
    {
        if self.whole {
            if let Ok(Asked::Queued) = self.put(client, n) {
                return;
            }
        }
        self.whole = false;
    }

    // One pair less, which is there, in the run of its client.
    fn remove(&mut self, run: Run, w: Wanted) -> Run
        requires { run.len < MOST_PENDING }
        ensures removed { (front back : List Repair) → AreOnce (front ++ w ∷ back) → Owes self.old (front ++ w ∷ back) run → Owes self.new (front ++ back) result }
        ensures client { result.client ≡ w.client }
        ensures len { result.len ≤ run.len + 1 }
    {
        self.take_mark(w.client, w.n);
        if w.client == run.client {
            return Run {
                client: run.client,
                len: run.len + 1,
            };
        }
        self.counts.take(run.client, run.len);
        Run {
            client: w.client,
            len: 1,
        }
    }

    // The pair isn't marked any more. Where there is no memory to have its block at hand, the index isn't
    // whole.
    fn take_mark(&mut self, client: u64, n: u64)
        ensures whole { self.new.whole ≡ true → self.old.whole ≡ true }
        ensures marks { self.new.whole ≡ true → (k m : ℕ) → marked self.new.pairs k m ≡ (not (client == k && n == m) && marked self.old.pairs k m) }
        ensures counts { self.new.counts ≡ self.old.counts }
    {
        if self.pairs.take(client, n).is_err() {
            self.whole = false;
        }
    }

    /// An index that isn't whole is built anew, where there is memory.
    pub(crate) fn mend(&mut self, pending: &Backlog)
        requires few { length pending.now ≤ MOST_PENDING }
        requires indexed { Indexes self.old pending.now }
        ensures { Indexes self.new pending.now }
    {
        if !self.whole {
            self.rebuild(pending);
        }
    }

    // The index of these.
    fn rebuild(&mut self, pending: &Backlog)
        requires few { length pending.now ≤ MOST_PENDING }
        ensures { Indexes self.new pending.now }
    {
        self.pairs.clear();
        self.counts.clear();
        self.whole = true;
        let (pieces, last) = pending.parts();
        for piece in pieces {
            self.add_all(piece.pending());
        }
        self.add_all(last);
    }

    // These pairs more.
    fn add_all(&mut self, pending: &[Wanted])
        ensures { (ws : List Repair) → length (ws ++ pending.now) ≤ MOST_PENDING → Indexes self.old ws → Indexes self.new (ws ++ pending.now) }
    {
        for w in pending {
            self.add(w.client, w.n);
        }
    }

    /// The pairs of the marked ones of these go, with one flag for each. Of whole blocks in which no flag is set
    /// nothing is looked at.
    pub(crate) fn drop_of(&mut self, run: Run, pending: &[Wanted], done: &[bool]) -> Run
        requires few { run.len + length pending.now ≤ MOST_PENDING }
        requires one_each { length done.now ≡ length pending.now }
        ensures removed { (front back : List Repair) → AreOnce (front ++ pending.now ++ back) → Owes self.old (front ++ pending.now ++ back) run → Owes self.new (front ++ unmarked pending.now done.now ++ back) result }
        ensures len { result.len ≤ run.len + length pending.now }
    {
        let mut run = run;
        let mut start = 0;
        while done.len() - start >= FLAGS {
            let end = start + FLAGS;
            let flags = &done[start..end];
            if is_any_set(flags) {
                run = self.drop_each(run, &pending[start..end], flags);
            }
            start = end;
        }
        self.drop_each(run, &pending[start..], &done[start..])
    }

    // The pairs of the marked ones of these go, by a walk over their flags.
    fn drop_each(&mut self, run: Run, pending: &[Wanted], done: &[bool]) -> Run
        requires few { run.len + length pending.now ≤ MOST_PENDING }
        requires one_each { length done.now ≡ length pending.now }
        ensures removed { (front back : List Repair) → AreOnce (front ++ pending.now ++ back) → Owes self.old (front ++ pending.now ++ back) run → Owes self.new (front ++ unmarked pending.now done.now ++ back) result }
        ensures len { result.len ≤ run.len + length pending.now }
    {
        let mut run = run;
        for (i, is_done) in done.iter().enumerate() {
            if !*is_done {
                continue;
            }
            run = self.remove(run, pending[i]);
        }
        run
    }

    /// The last run's client has its count.
    pub(crate) fn end_run(&mut self, run: Run)
        ensures { (ws : List Repair) → Owes self.old ws run → Indexes self.new ws }
    {
        self.counts.take(run.client, run.len);
    }

    /// The pairs of a client go.
    pub(crate) fn drop_client(&mut self, pending: &Backlog, client: u64)
        requires few { length pending.now ≤ MOST_PENDING }
        requires once { AreOnce pending.now }
        requires indexed { Indexes self.old pending.now }
        ensures { Indexes self.new (without client pending.now) }
    {
        let (pieces, last) = pending.parts();
        let mut run = Run { client, len: 0 };
        for piece in pieces {
            run = self.drop_client_of(run, piece.pending());
        }
        run = self.drop_client_of(run, last);
        self.counts.take(run.client, run.len);
    }

    // The pairs of the run's client among these go.
    fn drop_client_of(&mut self, run: Run, pending: &[Wanted]) -> Run
        requires few { run.len + length pending.now ≤ MOST_PENDING }
        ensures removed { (front back : List Repair) → AreOnce (front ++ pending.now ++ back) → Owes self.old (front ++ pending.now ++ back) run → Owes self.new (front ++ without run.client pending.now ++ back) result }
        ensures client { result.client ≡ run.client }
        ensures len { result.len ≤ run.len + length pending.now }
    {
        let mut run = run;
        for w in pending {
            if w.client != run.client {
                continue;
            }
            run = self.remove(run, *w);
        }
        run
    }
}

// Whether this number is pending for this client, by a walk.
fn is_pending(pending: &Backlog, client: u64, n: u64) -> bool
    ensures { result ≡ list_any (is_wanted client n) pending.now }
{
    let (pieces, last) = pending.parts();
    for piece in pieces {
        if is_among(piece.pending(), client, n) {
            return true;
        }
    }
    is_among(last, client, n)
}

// Whether this number is among these for this client.
fn is_among(pending: &[Wanted], client: u64, n: u64) -> bool
    ensures { result ≡ list_any (is_wanted client n) pending.now }
{
    pending.iter().any(|w| w.client == client && w.n == n)
}

// How many numbers are pending for this client, by a walk.
fn count_pending(pending: &Backlog, client: u64) -> u32
    requires { length pending.now ≤ MOST_PENDING }
    ensures { result ≡ count_of client pending.now }
{
    let (pieces, last) = pending.parts();
    let mut count = 0;
    for piece in pieces {
        count += count_among(piece.pending(), client);
    }
    count + count_among(last, client)
}

// How many of these are the client's.
fn count_among(pending: &[Wanted], client: u64) -> u32
    requires { length pending.now ≤ MOST_PENDING }
    ensures { result ≡ count_of client pending.now }
{
    let mut count = 0;
    for w in pending {
        if w.client == client {
            count += 1;
        }
    }
    count
}
