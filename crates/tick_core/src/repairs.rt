//! The pending repairs.
ghost use Rattle.std.specs.Prelude.{◌≡◌, ◌<◌, ◌≤◌, ◌+◌, ◌&&◌, nat_le, true, [], ◌++◌, length, take, drop, Some, None, IfSome, IfOk};
ghost use Rattle.client_table.specs.{AreRising};
ghost use Rattle.tick_core.specs.{IsSpent, FitsNowhere, AreOfKnown, IsGone, told_by, all_allowances, allowance_for, after_repair, waiting, with_waiting, with_repair, with_wanted, with_all_wanted};
ghost use Rattle.channel_cache.specs.packet_ring.{packet_of};
ghost use Rattle.repair_queue.specs.{all_of};

use crate::allowance::Allowance;
use crate::allowances::Allowances;
use crate::holding::Holding;
use crate::runs::idle_allowance;
use channel_cache::Cache;
use client_table::Table;
use ram_io::NoMemory;
use rams_model::{Held, Note};
use repair_queue::{MOST_PENDING, Piece, Queue, Wanted};
use std::alloc::Global;
use std::marker::Model;
use tick_draft::Draft;

/// The repairs of a tick so far: what was noted, what each client's repairs may still take, and which of
/// them are over.
#[derive(Drop)]
pub struct Repairs<'a> {
    table: &'a Table,
    /// What the repairs of a client without a burst may take, in bytes.
    most: u64,
    draft: Draft,
    /// What the repairs of clients may still take that have a burst, or were sent one.
    changed: Allowances,
    /// What the client that was asked last may take. Its repairs mostly stand side by side, so they take
    /// one look-up.
    asked: Option<Allowance>,
    done: Vec<bool>,
}

impl<'a> Model for Repairs<'a> {
    ghost use Rattle.std.specs.Prelude.{◌≡◌, Some, IfSome};
    ghost use Rattle.client_table.specs.Clients.{AreRising};
    ghost use Rattle.tick_core.specs.{Repaired, all_allowances, allowance_for, told_by, AreOfKnown};

    ghost Value = { Repaired };

    ghost view = { λ r. record { draft = r.draft; allowances = all_allowances r.most r.table.now.known (told_by r.changed); done = r.done.items } };

    ghost invariant = { λ r. record {
      rising : AreRising r.table.now;
      known : AreOfKnown r.table.now (told_by r.changed);
      asked : IfSome r.asked (λ a. allowance_for a.client (all_allowances r.most r.table.now.known (told_by r.changed)) ≡ Some a);
    } };
}

impl<'a> Repairs<'a> {
    /// No repair is over yet. Each client's repairs may take as much as is told of it, or else `most` bytes.
    pub fn new(
        alloc: Global,
        table: &'a Table,
        most: u64,
        draft: Draft,
        allowances: Allowances,
    ) -> Repairs<'a>
        requires rising { AreRising table.now }
        requires known { AreOfKnown table.now (told_by allowances) }
        ensures { result ≡ record { draft = draft; allowances = all_allowances most table.now.known (told_by allowances); done = [] } }
    {
        Repairs {
            table,
            most,
            draft,
            changed: allowances,
            asked: None,
            done: Vec::new(alloc),
        }
    }

    /// What the repairs of a known client may take.
    fn allowance(&self, client: u64) -> Option<Allowance>
        ensures { result ≡ allowance_for client self.now.allowances }
    {
        if let Some(changed) = self.changed.get(client) {
            return Some(Allowance { client, ..changed });
        }
        let entry = self.table.find(client)?;
        Some(idle_allowance(self.most, client, &entry))
    }

    /// What the repairs of a known client may take, kept for the next repairs of the same client.
    fn ask(&mut self, client: u64) -> Option<Allowance>
        ensures value { result ≡ allowance_for client self.old.allowances }
        ensures same { self.new ≡ self.old }
    {
        if let Some(asked) = self.asked {
            if asked.client == client {
                return Some(asked);
            }
        }
        self.asked = self.allowance(client);
        self.asked
    }

    /// Whether the client was asked last, and may take less than so many bytes.
    fn has_less(&self, client: u64, least: u64) -> bool
        ensures { result ≡ true → IfSome (allowance_for client self.now.allowances) (λ a. a.may_take < least) }
    {
        match self.asked {
            Some(asked) => asked.client == client && asked.may_take < least,
            None => false,
        }
    }

    /// The repair waits on.
    fn wait(&mut self) -> Result<(), NoMemory>
        ensures { IfOk result (λ _. self.new ≡ waiting self.old) }
    {
        self.done.push(false)?;
        Ok(())
    }

    /// The packet is no longer held.
    fn drop_gone(&mut self, wanted: &Wanted) -> Result<(), NoMemory>
        ensures { IfOk result (λ _. self.new ≡ with_wanted wanted.now None self.old) }
    {
        let Wanted { client, n } = *wanted;
        self.draft.note(Note::Gone { client, n })?;
        self.done.push(true)?;
        Ok(())
    }

    /// Sends the packet again, where it fits into what its client's repairs may take and into what the
    /// channel has left.
    fn send(&mut self, wanted: &Wanted, held: &Held, allowance: &Allowance) -> Result<(), NoMemory>
        requires { allowance_for wanted.now.client self.old.allowances ≡ Some allowance.now }
        ensures { IfOk result (λ _. self.new ≡ with_repair wanted.now held.now (Some allowance.now) self.old) }
    {
        if !fits(held, allowance, self.draft.left()) {
            return self.wait();
        }
        let Wanted { client, n } = *wanted;
        let seq = allowance.seq;
        self.draft
            .send(Note::Repair { client, n, seq }, client, seq, held)?;
        self.done.push(true)?;
        let rest = taken(allowance, held);
        self.changed.put(rest)?;
        self.asked = Some(rest);
        Ok(())
    }

    /// A repair that fits nowhere waits, unless its packet is gone.
    fn pass(&mut self, holding: &Holding<'_>, wanted: &Wanted) -> Result<(), NoMemory>
        requires { FitsNowhere holding.now wanted.now self.old }
        ensures { IfOk result (λ _. self.new ≡ with_wanted wanted.now (packet_of wanted.now.n holding.now) self.old) }
    {
        if holding.has(wanted.n) {
            self.wait()
        } else {
            self.drop_gone(wanted)
        }
    }

    /// Sends one repair, or notes that its packet is gone, or lets it wait.
    fn repair(&mut self, holding: &Holding<'_>, wanted: &Wanted) -> Result<(), NoMemory>
        ensures { IfOk result (λ _. self.new ≡ with_wanted wanted.now (packet_of wanted.now.n holding.now) self.old) }
    {
        if self.has_less(wanted.client, holding.least_wire()) {
            return self.pass(holding, wanted);
        }
        let Some(held) = holding.get(wanted.n) else {
            return self.drop_gone(wanted);
        };
        if u64::from(held.wire) > self.draft.left() {
            return self.wait();
        }
        match self.ask(wanted.client) {
            Some(allowance) => self.send(wanted, held, &allowance),
            None => self.wait(),
        }
    }

    /// Sends the pending repairs, the oldest first. There is room at once for a flag of each.
    pub fn repair_all(&mut self, cache: &Cache, queue: &Queue) -> Result<(), NoMemory>
        ensures { IfOk result (λ _. self.new ≡ with_all_wanted cache.now.held queue.now self.old) }
    {
        self.done.reserve(queue.len())?;
        self.repair_held(&Holding::new(cache), queue)
    }

    /// Sends the pending repairs, by what is held.
    fn repair_held(&mut self, holding: &Holding<'_>, queue: &Queue) -> Result<(), NoMemory>
        ensures { IfOk result (λ _. self.new ≡ with_all_wanted holding.now queue.now self.old) }
    {
        let (pieces, last) = queue.parts();
        for (i, piece) in pieces.iter().enumerate() {
            if self.is_spent(holding) {
                return self.pass_rest(holding, &pieces[i..], last);
            }
            self.repair_some(holding, piece.pending())?;
        }
        self.repair_some(holding, last)
    }

    /// Sends some of the pending repairs.
    fn repair_some(&mut self, holding: &Holding<'_>, pending: &[Wanted]) -> Result<(), NoMemory>
        requires few { length pending.now ≤ MOST_PENDING }
        ensures { IfOk result (λ _. self.new ≡ with_all_wanted holding.now pending.now self.old) }
    {
        for (i, wanted) in pending.iter().enumerate() {
            if self.is_spent(holding) {
                return self.pass_some(holding, &pending[i..]);
            }
            self.repair(holding, wanted)?;
        }
        Ok(())
    }

    /// Whether the channel has less left than any packet takes.
    fn is_spent(&self, holding: &Holding<'_>) -> bool
        ensures { result ≡ true → IsSpent holding.now self.now }
    {
        self.draft.left() < holding.least_wire()
    }

    /// Nothing fits any more: these wait but for those whose packets are gone. Pieces of which all wait are passed
    /// together.
    fn pass_rest(
        &mut self,
        holding: &Holding<'_>,
        pieces: &[Piece],
        last: &[Wanted],
    ) -> Result<(), NoMemory>
        requires spent { IsSpent holding.now self.old }
        requires few { length (all_of pieces.now ++ last.now) ≤ MOST_PENDING }
        ensures { IfOk result (λ _. self.new ≡ with_all_wanted holding.now (all_of pieces.now ++ last.now) self.old) }
    {
        let mut waiting = 0;
        for piece in pieces {
            let pending = piece.pending();
            if holding.has_all(piece) {
                waiting += pending.len();
                continue;
            }
            waiting = self.pass_over(holding, waiting, pending)?;
        }
        waiting = self.pass_over(holding, waiting, last)?;
        self.wait_all(waiting)
    }

    /// Nothing fits any more: these wait but for those whose packets are gone.
    fn pass_some(&mut self, holding: &Holding<'_>, pending: &[Wanted]) -> Result<(), NoMemory>
        requires spent { IsSpent holding.now self.old }
        requires few { length pending.now ≤ MOST_PENDING }
        ensures { IfOk result (λ _. self.new ≡ with_all_wanted holding.now pending.now self.old) }
    {
        let waiting = self.pass_over(holding, 0, pending)?;
        self.wait_all(waiting)
    }

    /// So many repairs wait on.
    fn wait_all(&mut self, count: usize) -> Result<(), NoMemory>
        requires { count ≤ MOST_PENDING }
        ensures { IfOk result (λ _. self.new ≡ with_waiting count self.old) }
    {
        let all = self.done.len() + count;
        self.done.resize(all, false)?;
        Ok(())
    }

    /// Once so many wait, these wait too but for those whose packets are gone. How many are to wait then: no flag
    /// was written for them.
    fn pass_over(
        &mut self,
        holding: &Holding<'_>,
        before: usize,
        pending: &[Wanted],
    ) -> Result<usize, NoMemory>
        requires spent { IsSpent holding.now self.old }
        requires few { before + length pending.now ≤ MOST_PENDING }
        ensures passed { IfOk result (λ waiting. with_waiting waiting self.new ≡ with_all_wanted holding.now pending.now (with_waiting before self.old)) }
        ensures few { IfOk result (λ waiting. waiting ≤ before + length pending.now) }
    {
        let mut waiting = before;
        let mut left = pending;
        while !left.is_empty() {
            let held = holding.held_front(left);
            let (then, rest) = self.drop_first(holding, waiting + held, &left[held..])?;
            waiting = then;
            left = rest;
        }
        Ok(waiting)
    }

    /// Once so many wait, the packet of the first of these repairs, if there is one, is no longer held. It answers
    /// how many are to wait then, and those behind the first.
    fn drop_first<'b>(
        &mut self,
        _holding: &Holding<'_>,
        waiting: usize,
        pending: &'b [Wanted],
    ) -> Result<(usize, &'b [Wanted]), NoMemory>
        requires gone { IsGone _holding.now pending.now }
        requires few { waiting ≤ MOST_PENDING }
        ensures rest { IfOk result (λ then. then.1.now ≡ drop 1 pending.now) }
        ensures first { IfOk result (λ then. with_waiting then.0 self.new ≡ with_all_wanted _holding.now (take 1 pending.now) (with_waiting waiting self.old)) }
        ensures few { IfOk result (λ then. then.0 ≤ waiting) }
    {
        match pending {
            [gone, rest @ ..] => {
                self.wait_all(waiting)?;
                self.drop_gone(gone)?;
                Ok((0, rest))
            }
            [] => Ok((waiting, pending)),
        }
    }

    /// What was noted, and a flag for each repair that is over.
    pub fn finish(self) -> (Draft, Vec<bool>)
        ensures draft { result.0 ≡ self.entry.draft }
        ensures done { result.1.items ≡ self.entry.done }
    {
        (self.draft, self.done)
    }
}

/// Whether a packet fits into what its client's repairs may take, and into what the channel has left.
fn fits(held: &Held, allowance: &Allowance, left: u64) -> bool
    ensures { result ≡ (nat_le held.now.wire allowance.now.may_take && nat_le held.now.wire left) }
{
    let wire = u64::from(held.wire);
    wire <= allowance.may_take && wire <= left
}

/// What a client's repairs may take after a packet that fits was sent.
fn taken(allowance: &Allowance, held: &Held) -> Allowance
    requires { held.now.wire ≤ allowance.now.may_take }
    ensures { result ≡ after_repair allowance.now held.now.wire }
{
    Allowance {
        client: allowance.client,
        may_take: allowance.may_take - u64::from(held.wire),
        seq: allowance.seq.wrapping_add(1),
    }
}
