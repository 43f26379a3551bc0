//! The queue of pending repairs.
use crate::backlog::Backlog;
use crate::index::Index;
use crate::piece::Piece;
use crate::wanted::{Asked, MOST_PENDING, Wanted};
use ram_io::NoMemory;
use std::alloc::Global;
use std::marker::Model;

/// The pending repairs, the oldest first. An index beside them answers an ask without going through
/// them.
#[derive(Drop)]
pub struct Queue {
    pending: Backlog,
    index: Index,
}

impl Model for Queue {
    ghost use Rattle.std.specs.Prelude.{List};
    ghost use Rattle.rams_model.specs.Service.{Wanted as Repair};

    ghost Value = { List Repair };

    ghost use Rattle.repair_queue.specs.{IsWithinLimits, Indexes};

    ghost view = { λ q. q.pending };

    ghost invariant = { λ q. record {
      limits : IsWithinLimits q.pending;
      indexed : Indexes q.index q.pending;
    } };
}

impl Queue {
    ghost use Rattle.std.specs.Prelude.{◌≡◌, ◌<◌, ◌≤◌, ◌++◌, [], length, nat_lt, IfOk};
    ghost use Rattle.repair_queue.specs.{all_of, asked_of, answered, unmarked, without, count_of, IsWithinLimits};

    /// A queue in which nothing is pending. It takes room for 4,096 repairs, so that no other call fails
    /// for want of memory.
    pub fn new(alloc: Global) -> Result<Queue, NoMemory>
        ensures { IfOk result (λ queue. queue ≡ []) }
    {
        Ok(Queue {
            pending: Backlog::new(alloc)?,
            index: Index::new(alloc, MOST_PENDING)?,
        })
    }

    /// A client asks for the repair of a packet: the answer is the first true one of `Already`,
    /// `ClientFull`, `QueueFull` and `Queued`, and only `Queued` makes the repair pending, behind all
    /// others.
    pub fn ask(&mut self, client: u64, n: u64) -> Asked
        ensures answer { result ≡ asked_of self.old client n }
        ensures pending { self.new ≡ answered result self.old client n }
    {
        match self.index.claim(&self.pending, client, n) {
            Asked::Queued => {
                self.pending.push(Wanted { client, n });
                Asked::Queued
            }
            refused => refused,
        }
    }

    /// The pending repairs, the oldest first: those of the pieces, and those behind them.
    pub fn parts(&self) -> (&[Piece], &[Wanted])
        ensures value { all_of result.0.now ++ result.1.now ≡ self.now }
        ensures limits { IsWithinLimits self.now }
    {
        self.pending.parts()
    }

    /// How many there are.
    pub fn len(&self) -> usize
        ensures { result ≡ length self.now }
    {
        self.pending.len()
    }

    /// Whether a repair is pending for this client.
    pub fn has(&self, client: u64) -> bool
        ensures { result ≡ nat_lt 0 (count_of client self.now) }
    {
        self.index.count(&self.pending, client) > 0
    }

    /// The repairs whose flag is set are no longer pending; the others keep their order. There is one
    /// flag for each pending repair.
    pub fn settle(&mut self, done: &[bool])
        requires one_each { length done.now ≡ length self.old }
        ensures { self.new ≡ unmarked self.old done.now }
    {
        self.drop_done(done);
        self.pending.cut();
    }

    // The repairs whose flag is set are no longer pending.
    fn drop_done(&mut self, done: &[bool])
        requires one_each { length done.now ≡ length self.old }
        ensures { self.new ≡ unmarked self.old done.now }
    {
        self.pending.drop_marked(&mut self.index, done);
        self.index.mend(&self.pending);
    }

    /// Nothing is pending for this client any more; the repairs of the others keep their order.
    pub fn forget(&mut self, client: u64)
        ensures { self.new ≡ without client self.old }
    {
        if self.index.count(&self.pending, client) == 0 {
            return;
        }
        self.index.drop_client(&self.pending, client);
        self.pending.drop_client(client);
        self.index.mend(&self.pending);
    }
}
