//! The lock, and the calls of its callers.
use crate::channel_lock::pass::Pass;
use crate::channel_lock::passes::{deal, gather};
use crate::channel_lock::steps::{BOOK, TICKETS, draw, wait};
use crate::channel_lock::turns::{About, InTurn, Learn, Tell, View};
use crate::channel_lock::work::{work, work_all};
use crate::{Answer, Book, Core, Event, NoMemory};
use atomic_table::Table;
use rams_model::Octets;
use std::alloc::Global;
use std::marker::Model;
use std::sync::Wait;

/// A lock round the book of one channel, which serves its callers in turn.
///
/// Contracts see which lock it is, the settings of its channel, and how many passes it made.
#[derive(Drop)]
pub struct ChannelLock {
    table: Table<Book, View, About, InTurn, Global>,
    passes: u32,
}

impl Model for ChannelLock {
    ghost use Rattle.channel_book.specs.channel_lock.Passes.{Guarded, IsLock};

    ghost Value = { Guarded };

    ghost view = { λ l. record { lock = l.table.shared.table_id; settings = l.table.shared.key.config; passes = l.passes } };

    ghost invariant = { λ l. IsLock l.table.shared.table_id l.table.shared.key.passes l.passes };
}

/// Why a lock isn't closed.
#[derive(Clone, Copy, PartialEq, Eq)]
pub enum CloseFault {
    /// Fewer passes were given back than were made.
    Passes { made: u32, given: u32 },
}

impl ChannelLock {
    ghost use Rattle.std.specs.Prelude.{◌≡◌, ℕ, ◌+◌, ◌^◌, ◌<◌, ◌≤◌, ◌↔◌, [], length, All, IsOk, IfOk, OnOk, IfErr, MatchResult};
    ghost use Rattle.rams_model.specs.declared.Event.TheVariants.{Live, Feedback, Tick};
    ghost use Rattle.server_hub.specs.session_core.{StandsFor};
    ghost use Rattle.channel_book.specs.{IsLegal, calls_by, Tells, HasAnsweredAll, HasAnsweredFront};
    ghost use Rattle.channel_book.specs.declared.channel_lock.lock.CloseFault.TheVariants.{Passes};
    ghost use Rattle.channel_book.specs.channel_lock.{fresh, IsSamePass, HasMet, IsOfPass, NotAmong};

    /// A lock round the book of a channel to which nothing came yet, and a pass for each list from 0
    /// on.
    pub fn new(alloc: Global, core: Core, seats: u32) -> Result<(ChannelLock, Vec<Pass>), NoMemory>
        requires seats { (0 < seats) × (seats ≤ 32) }
        requires made { StandsFor core [] }
        ensures lock { IfOk result (λ r. (r.0.settings ≡ core.settings) × (r.0.passes ≡ seats)) }
        ensures passes { IfOk result (λ r. r.1.items ≡ fresh r.0.lock core.settings seats) }
    {
        let config = *core.config();
        let passes = Vec::with_capacity(alloc, seats as usize)?;
        let mut books = Vec::with_capacity(alloc, 1)?;
        books.push_reserved(Book::new(alloc, core));
        let about = About {
            config,
            passes: u64::from(seats),
        };
        let Ok((table, seat)) = Table::new(alloc, &[0, 0], books, &about) else {
            return Err(NoMemory);
        };
        let passes = deal(&table.shared, seat, &config, seats, passes);
        let lock = ChannelLock {
            table,
            passes: seats,
        };
        Ok((lock, passes))
    }

    /// A live packet, as it came: its place in the history, and the answer. May wait.
    pub fn live<R: Wait>(
        &self,
        rt: &R,
        alloc: Global,
        pass: &mut Pass,
        bytes: &[u8],
    ) -> Result<(u64, Answer), NoMemory>
        requires made { pass.old.lock ≡ self.now.lock }
        requires left { 0 < pass.old.left }
        ensures same { IsSamePass pass.old pass.new }
        ensures left { pass.old.left ≤ pass.new.left + 1 }
        ensures told { Tells pass.old.list (Live bytes.now) pass.old.seen result pass.new.seen }
        ensures legal { OnOk result (IsLegal pass.new.settings pass.new.seen) }
    {
        let bytes = Octets::of(bytes.to_vec(alloc)?);
        self.ask(rt, alloc, pass, Event::Live(bytes))
    }

    /// A feedback datagram of a client, as it came: its place in the history, and the answer. May wait.
    pub fn feedback<R: Wait>(
        &self,
        rt: &R,
        alloc: Global,
        pass: &mut Pass,
        client: u64,
        bytes: &[u8],
    ) -> Result<(u64, Answer), NoMemory>
        requires made { pass.old.lock ≡ self.now.lock }
        requires left { 0 < pass.old.left }
        ensures same { IsSamePass pass.old pass.new }
        ensures left { pass.old.left ≤ pass.new.left + 1 }
        ensures told { Tells pass.old.list (Feedback client bytes.now) pass.old.seen result pass.new.seen }
        ensures legal { OnOk result (IsLegal pass.new.settings pass.new.seen) }
    {
        let bytes = Octets::of(bytes.to_vec(alloc)?);
        self.ask(rt, alloc, pass, Event::Feedback { client, bytes })
    }

    /// A tick: its place in the history, and the answer. May wait.
    pub fn tick<R: Wait>(
        &self,
        rt: &R,
        alloc: Global,
        pass: &mut Pass,
    ) -> Result<(u64, Answer), NoMemory>
        requires made { pass.old.lock ≡ self.now.lock }
        requires left { 0 < pass.old.left }
        ensures same { IsSamePass pass.old pass.new }
        ensures left { pass.old.left ≤ pass.new.left + 1 }
        ensures told { Tells pass.old.list Tick pass.old.seen result pass.new.seen }
        ensures legal { OnOk result (IsLegal pass.new.settings pass.new.seen) }
    {
        self.ask(rt, alloc, pass, Event::Tick)
    }

    /// Draws a ticket, waits for its turn, steps the book and passes the turn on, whatever came of it.
    fn ask<R: Wait>(
        &self,
        rt: &R,
        alloc: Global,
        pass: &mut Pass,
        event: Event,
    ) -> Result<(u64, Answer), NoMemory>
        requires made { pass.old.lock ≡ self.now.lock }
        requires left { 0 < pass.old.left }
        ensures same { IsSamePass pass.old pass.new }
        ensures left { pass.old.left ≡ pass.new.left + 1 }
        ensures told { Tells pass.old.list event pass.old.seen result pass.new.seen }
        ensures legal { IsLegal pass.new.settings pass.new.seen }
    {
        let shared = &self.table.shared;
        let ticket = draw(shared, &mut pass.seat, 1);
        wait(rt, shared, &mut pass.seat, &pass.config, ticket);
        let turn = work(alloc, shared, &mut pass.seat, pass.list, event);
        pass.seen = turn.seen;
        turn.answer
    }

    /// Events of the pass's list in one turn, one after another: the place of the first in the history,
    /// and the answers. The others stand behind the first, with nothing between. After want of memory a
    /// front of them was taken, and the rest is given up. May wait.
    ///
    /// Draws a ticket for each event, waits for its turn, steps the book with all and passes the turn on,
    /// whatever came of it.
    pub fn take_all<R: Wait>(
        &self,
        rt: &R,
        alloc: Global,
        pass: &mut Pass,
        events: Vec<Event>,
    ) -> Result<(u64, Vec<Answer>), NoMemory>
        requires made { pass.old.lock ≡ self.now.lock }
        requires left { (0 < length events.items) × (length events.items ≤ pass.old.left) }
        ensures same { IsSamePass pass.old pass.new }
        ensures left { pass.old.left ≡ pass.new.left + length events.items }
        ensures told { MatchResult result
            (λ r. HasAnsweredAll pass.old.list events.items pass.old.seen r.0 r.1.items pass.new.seen)
            (λ _. HasAnsweredFront pass.old.list events.items pass.old.seen pass.new.seen) }
        ensures places { IfOk result (λ r. r.0 + length events.items ≤ 2 ^ 40) }
        ensures legal { IsLegal pass.new.settings pass.new.seen }
    {
        let shared = &self.table.shared;
        let ticket = draw(shared, &mut pass.seat, events.len() as u64);
        wait(rt, shared, &mut pass.seat, &pass.config, ticket);
        let round = work_all(alloc, shared, &mut pass.seat, pass.list, events);
        pass.seen = round.seen;
        Ok((round.place, round.answers?))
    }

    /// The pass has then seen what the other had, which stays as it was. Takes no memory.
    pub fn meet(&self, pass: &mut Pass, other: &mut Pass)
        requires made { (pass.old.lock ≡ self.now.lock) × (other.old.lock ≡ self.now.lock) }
        ensures met { HasMet pass.old other.old.seen pass.new }
        ensures other { other.new ≡ other.old }
    {
        let shared = &self.table.shared;
        let note = shared.split_seat::<Tell>(&mut other.seat);
        shared.join_seat::<Tell>(&mut pass.seat, note);
        shared.load::<Learn>(&mut pass.seat, TICKETS);
        pass.seen = pass.seen.max(other.seen);
    }

    /// The book, where all passes are given back; else all comes back. Takes no memory.
    pub fn close(self, passes: Vec<Pass>) -> Result<Book, (ChannelLock, Vec<Pass>, CloseFault)>
        requires made { All (λ p. p.lock ≡ self.lock) passes.items }
        ensures which { IsOk result ↔ (self.passes ≤ length passes.items) }
        ensures settings { IfOk result (λ book. book.settings ≡ self.settings) }
        ensures legal { IfOk result (λ book. IsLegal self.settings book.entries) }
        ensures passes { IfOk result (λ book. All (IsOfPass book.entries) passes.items) }
        ensures others { IfOk result (λ book. (list : ℕ) → NotAmong passes.items list → calls_by list book.entries ≡ []) }
        ensures back { IfErr result (λ r. (r.0 ≡ self) × (r.1.items ≡ passes.items)) }
        ensures fault { IfErr result (λ r. r.2 ≡ Passes self.passes (length passes.items)) }
    {
        let given = passes.len();
        if given < self.passes as usize {
            let fault = CloseFault::Passes {
                made: self.passes,
                given: given as u32,
            };
            return Err((self, passes, fault));
        }
        let seat = gather(&self.table.shared, passes);
        let mut closed = self.table.close_with(seat);
        let book = closed.take(BOOK);
        closed.free();
        Ok(book)
    }
}
