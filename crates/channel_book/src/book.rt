//! The book of a channel.
use crate::entry::Entry;
use crate::twice::answer_twice;
use channel_config::Config;
use ram_io::NoMemory;
use rams_model::{Answer, Event};
use server_hub::session_core::Core;
use std::alloc::Global;
use std::marker::Model;

/// The core of a channel with all that it was asked and answered, oldest first.
///
/// Contracts see its settings and its entries, which are a legal history: to replay their events from
/// the opening core gives their answers and this core.
#[derive(Drop)]
pub struct Book {
    core: Core,
    entries: Vec<Entry>,
}

impl Model for Book {
    ghost use Rattle.channel_book.specs.Books.{Kept, Replays};

    ghost Value = { Kept };

    ghost view = { λ b. record { settings = b.core.settings; entries = b.entries.items } };

    ghost invariant = { λ b. Replays b.core b.entries.items };
}

impl Book {
    ghost use Rattle.std.specs.Prelude.{◌≡◌, ◌+◌, ◌^◌, ◌<◌, ◌≤◌, [], ◌∷◌, ◌++◌, length, IfOk, OnOk, OnErr, MatchResult};
    ghost use Rattle.channel_book.specs.{IsLegal, HasTaken, HasTakenFront, entry};
    ghost use Rattle.server_hub.specs.session_core.{StandsFor};

    /// The book of a channel to which nothing came yet. It keeps `alloc` for its entries, and takes no
    /// memory.
    pub fn new(alloc: Global, core: Core) -> Book
        requires made { StandsFor core [] }
        ensures settings { result.settings ≡ core.settings }
        ensures empty { result.entries ≡ [] }
    {
        Book {
            core,
            entries: Vec::new(alloc),
        }
    }

    /// The settings of the channel.
    pub fn config(&self) -> &Config
        ensures { result.now ≡ self.now.settings }
    {
        self.core.config()
    }

    /// Takes an event of this list: its place, which is the number of entries before it, and the answer.
    /// After want of memory all is as before, and the event is given up.
    pub fn take(
        &mut self,
        alloc: Global,
        list: u16,
        event: Event,
    ) -> Result<(u64, Answer), NoMemory>
        requires few { length self.old.entries < 2 ^ 40 }
        ensures place { IfOk result (λ r. r.0 ≡ length self.old.entries) }
        ensures added { IfOk result (λ r. self.new.entries ≡ self.old.entries ++ entry list event r.1 ∷ []) }
        ensures legal { OnOk result (IsLegal self.new.settings self.new.entries) }
        ensures settings { self.new.settings ≡ self.old.settings }
        ensures same { OnErr result (self.new ≡ self.old) }
    {
        self.entries.reserve(1)?;
        let twice = answer_twice(alloc, &mut self.core, &event)?;
        let place = self.entries.len() as u64;
        self.entries.push_reserved(Entry {
            list,
            event,
            answer: twice.kept,
        });
        Ok((place, twice.given))
    }

    /// `take` of several events, one after another: their answers. After want of memory a front of them
    /// was taken.
    pub fn take_all(
        &mut self,
        alloc: Global,
        list: u16,
        events: Vec<Event>,
    ) -> Result<Vec<Answer>, NoMemory>
        requires few { length self.old.entries + length events.items ≤ 2 ^ 40 }
        ensures told { MatchResult result
            (λ answers. HasTaken list events.items self.old.entries answers.items self.new.entries)
            (λ _. HasTakenFront list events.items self.old.entries self.new.entries) }
        ensures settings { self.new.settings ≡ self.old.settings }
    {
        let mut answers = Vec::with_capacity(alloc, events.len())?;
        for event in events {
            let (_, answer) = self.take(alloc, list, event)?;
            answers.push_reserved(answer);
        }
        Ok(answers)
    }

    /// All entries, in order.
    pub fn entries(&self) -> &[Entry]
        ensures entries { result.now ≡ self.now.entries }
        ensures legal { IsLegal self.now.settings self.now.entries }
    {
        &self.entries
    }
}
