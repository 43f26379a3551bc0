//! The channels of a server.
use crate::event::{AddFault, At, Heard, HubAnswer, HubEvent};
use crate::places::place_of;
use crate::session_core::Core;
use crate::steps::{feedback_at, live_at};
use crate::ticks::tick_all;
use channel_config::{Config, MOST_CHANNELS};
use ram_io::NoMemory;
use rams_model::{Held, MOST_ON_WIRE};
use std::alloc::Global;
use std::marker::Model;

/// The channels of a server, which share a link and a tick.
///
/// Their numbers stand in an array of their own: an event's channel is found by a scan of at most 128
/// bytes, which is no dearer than a search of so few, and touches no other core.
#[derive(Drop)]
pub struct Hub {
    tick_ms: u32,
    link: u64,
    /// The shares of the channels, together.
    claimed: u64,
    /// How many events came.
    calls: u64,
    /// The numbers of the channels, in the order in which they were added.
    ids: Vec<u16>,
    /// Their cores, in the same order.
    cores: Vec<Core>,
}

impl Model for Hub {
    ghost use Rattle.std.specs.Prelude.{vec_capacity};
    ghost use Rattle.server_hub.specs.{AreFields};
    ghost use Rattle.server_hub.specs.Seen.{Seen};

    ghost Value = { Seen };

    ghost view = { λ h. record { tick = h.tick_ms; link = h.link; calls = h.calls; channels = h.cores.items } };

    ghost invariant = { λ h. AreFields h.ids.items (vec_capacity h.ids) h.claimed
        (record { tick = h.tick_ms; link = h.link; calls = h.calls; channels = h.cores.items }) };
}

impl Hub {
    ghost use Rattle.std.specs.Prelude.{◌≡◌, ◌+◌, ◌^◌, ◌<◌, ◌≤◌, ◌++◌, ◌==◌, List, [], ◌∷◌, Err, IfNone, IfOk, IfSome, IsOkUnless, OnErr, OnOk, find, is_some, option_and_then, option_copied, option_map};
    ghost use Rattle.rams_model.specs.declared.Event.TheVariants as events;
    ghost use Rattle.server_hub.specs.declared.event.AddFault.TheVariants as faults;
    ghost use Rattle.server_hub.specs.{served, hi_of, held_of, channel_of, answer_of, after_event_of, answers_to_tick, after_tick, event_of, told, told_of, told_to, after_event, AllKeepJoinTimes, IsHub, StandsFor, KeepsSettings, AddsSettings, new_hub, settings_of, has_id, refused};
    ghost use Rattle.server_hub.specs.Served.{Served};

    /// A hub without channels, for ticks of `tick_ms` ms and a link of so many bytes a tick. It takes the
    /// room of the channels' numbers.
    pub fn new(alloc: Global, tick_ms: u32, link: u64) -> Result<Hub, NoMemory>
        requires tick_least { 1 ≤ tick_ms }
        requires tick_most { tick_ms ≤ 1000 }
        requires link_least { MOST_ON_WIRE ≤ link }
        requires link_most { link ≤ 1000000000 }
        ensures value { IfOk result (λ hub. hub ≡ new_hub tick_ms link) }
        ensures stands { IfOk result (λ hub. StandsFor hub []) }
    {
        Ok(Hub {
            tick_ms,
            link,
            claimed: 0,
            calls: 0,
            ids: Vec::with_capacity(alloc, MOST_CHANNELS)?,
            cores: Vec::new(alloc),
        })
    }

    /// The length of a tick, in ms.
    pub fn tick_ms(&self) -> u32
        ensures value { result ≡ self.now.tick }
        ensures lawful { IsHub self.now }
    {
        self.tick_ms
    }

    /// The settings of a channel; `None` exactly where none has this number.
    pub fn config(&self, id: u16) -> Option<&Config>
        ensures value { option_copied result ≡ find (λ s. s.channel.id == id) (settings_of self.now) }
        ensures stands { (channels : List Served) → StandsFor self.now channels →
            option_copied result ≡ option_map (λ c. c.settings) (channel_of id channels) }
    {
        let place = place_of(&self.ids, id)?;
        Some(self.cores[place].config())
    }

    /// One above the number of the newest packet that a channel holds, 0 while it holds none; `None`
    /// exactly where none has this number.
    pub fn hi(&self, id: u16) -> Option<u64>
        ensures there { is_some result ≡ has_id id (settings_of self.now) }
        ensures stands { (channels : List Served) → StandsFor self.now channels →
            result ≡ option_map hi_of (channel_of id channels) }
    {
        let place = place_of(&self.ids, id)?;
        Some(self.cores[place].hi())
    }

    /// The packet that a channel holds under a number; `None` where it holds none, or none has the
    /// channel's number.
    pub fn held(&self, id: u16, n: u64) -> Option<&Held>
        ensures { (channels : List Served) → StandsFor self.now channels →
            option_copied result ≡ option_and_then (held_of n) (channel_of id channels) }
    {
        let place = place_of(&self.ids, id)?;
        self.cores[place].held(n)
    }

    /// Adds a channel, which has had no event. `Full` where there are 64, `Twice` where one has its
    /// number, `Link` where the shares together would exceed the link: the first of these that is so.
    /// After any error all is as before.
    pub fn add(&mut self, alloc: Global, config: Config) -> Result<(), AddFault>
        requires { config.tick ≡ self.old.tick }
        ensures stands { (channels : List Served) → StandsFor self.old channels →
            OnOk result (StandsFor self.new (channels ++ served config [] ∷ [])) }
        ensures settings { OnOk result (AddsSettings self.old self.new config) }
        ensures refused { IfSome (refused self.old config) (λ fault. result ≡ Err fault) }
        ensures added { IfNone (refused self.old config) (IsOkUnless result faults.NoMemory) }
        ensures same { OnErr result (self.new ≡ self.old) }
    {
        let channel = config.channel();
        if self.cores.len() >= MOST_CHANNELS {
            return Err(AddFault::Full);
        }
        if self.ids.contains(&channel.id) {
            return Err(AddFault::Twice);
        }
        if channel.share > self.link - self.claimed {
            return Err(AddFault::Link);
        }
        self.cores.reserve(1)?;
        let core = Core::new(alloc, &config)?;
        self.cores.push(core)?;
        self.ids.push(channel.id)?;
        self.claimed += channel.share;
        Ok(())
    }

    // A live packet of a channel: what it answers, or that none has this number.
    fn live(&mut self, alloc: Global, id: u16, bytes: &[u8]) -> Result<HubAnswer, NoMemory>
        requires { self.old.calls < 2 ^ 40 }
        ensures stands { (channels : List Served) → StandsFor self.old channels →
            IfOk result (λ a. (told a ≡ told_of id (answer_of id (events.Live bytes.now) channels))
            × StandsFor self.new (after_event_of id (events.Live bytes.now) channels)) }
        ensures settings { KeepsSettings self.old self.new }
        ensures calls { OnOk result (self.new.calls ≡ self.old.calls + 1) }
        ensures same { OnErr result (self.new ≡ self.old) }
    {
        let Some(place) = place_of(&self.ids, id) else {
            self.calls += 1;
            return Ok(HubAnswer::NoChannel(id));
        };
        let answer = live_at(&mut self.cores, alloc, place, bytes)?;
        self.calls += 1;
        Ok(HubAnswer::Answer(At { id, answer }))
    }

    // A feedback datagram of a client of a channel: what the channel answers, or that none has this number.
    fn feedback(
        &mut self,
        alloc: Global,
        id: u16,
        client: u64,
        bytes: &[u8],
    ) -> Result<HubAnswer, NoMemory>
        requires { self.old.calls < 2 ^ 40 }
        ensures stands { (channels : List Served) → StandsFor self.old channels →
            IfOk result (λ a. (told a ≡ told_of id (answer_of id (events.Feedback client bytes.now) channels))
            × StandsFor self.new (after_event_of id (events.Feedback client bytes.now) channels)) }
        ensures settings { KeepsSettings self.old self.new }
        ensures calls { OnOk result (self.new.calls ≡ self.old.calls + 1) }
        ensures same { OnErr result (self.new ≡ self.old) }
    {
        let Some(place) = place_of(&self.ids, id) else {
            self.calls += 1;
            return Ok(HubAnswer::NoChannel(id));
        };
        let answer = feedback_at(&mut self.cores, alloc, place, client, bytes)?;
        self.calls += 1;
        Ok(HubAnswer::Answer(At { id, answer }))
    }

    /// A tick of every channel, in the order in which they were added: what each answers. All are
    /// planned before one is done; after want of memory all is as before.
    pub fn tick(&mut self, alloc: Global) -> Result<Vec<At>, NoMemory>
        requires { self.old.calls < 2 ^ 40 }
        ensures stands { (channels : List Served) → StandsFor self.old channels →
            IfOk result (λ answers. (answers.items ≡ answers_to_tick channels) × StandsFor self.new (after_tick channels)) }
        ensures lawful { IsHub self.new }
        ensures join_times { (channels : List Served) → StandsFor self.old channels →
            OnOk result (AllKeepJoinTimes (after_tick channels)) }
        ensures settings { KeepsSettings self.old self.new }
        ensures calls { OnOk result (self.new.calls ≡ self.old.calls + 1) }
        ensures same { OnErr result (self.new ≡ self.old) }
    {
        let answers = tick_all(alloc, &mut self.cores)?;
        self.calls += 1;
        Ok(answers)
    }

    /// One event. It goes to the channel that it names, and a tick to all, in the order in which they were
    /// added; after want of memory all is as before.
    pub fn hear(&mut self, alloc: Global, heard: Heard<'_>) -> Result<HubAnswer, NoMemory>
        requires { self.old.calls < 2 ^ 40 }
        ensures stands { (channels : List Served) → StandsFor self.old channels →
            IfOk result (λ a. (told a ≡ told_to (event_of heard.entry) channels) × StandsFor self.new (after_event (event_of heard.entry) channels)) }
        ensures lawful { event_of heard.entry ≡ HubEvent.Tick → IsHub self.new }
        ensures join_times { (channels : List Served) → StandsFor self.old channels → event_of heard.entry ≡ HubEvent.Tick →
            OnOk result (AllKeepJoinTimes (after_event (event_of heard.entry) channels)) }
        ensures settings { KeepsSettings self.old self.new }
        ensures calls { OnOk result (self.new.calls ≡ self.old.calls + 1) }
        ensures same { OnErr result (self.new ≡ self.old) }
    {
        match heard {
            Heard::Live { id, bytes } => self.live(alloc, id, bytes),
            Heard::Feedback { id, client, bytes } => self.feedback(alloc, id, client, bytes),
            Heard::Tick => Ok(HubAnswer::Answers(self.tick(alloc)?)),
        }
    }
}
