//! The core of one channel.
use crate::session_core::live::{answer_live, note_live};
use channel_cache::Incoming;
use channel_config::Config;
use channel_parts::Parts;
use feedback_core::answer_feedback;
use ram_io::NoMemory;
use rams_model::{Answer, Held, LiveNote};
use std::alloc::Global;
use std::marker::Model;
use tick_core::{Sums, TickPlan, sums_of};

/// What a channel keeps between events.
pub struct Core {
    parts: Parts,
}

// (by hand, so that what stands above proves one drop and not that of each part)
impl Drop for Core {
    fn drop(self) {
        let Core { parts } = self;
        drop(parts);
    }
}

impl Model for Core {
    ghost use Rattle.server_hub.specs.session_core.{IsCore};
    ghost use Rattle.server_hub.specs.session_core.Seen.{Seen};

    ghost Value = { Seen };

    ghost view = { λ c. record { settings = c.parts.config; parts = c.parts } };

    ghost invariant = { λ c. IsCore c.parts };
}

impl Core {
    ghost use Rattle.std.specs.Prelude.{◌≡◌, ◌^◌, ◌<◌, List, [], ◌∷◌, length, option_copied, IfOk, OnOk, OnErr};
    ghost use Rattle.rams_model.specs.declared.{Event.Event, Note.TheVariants.Live as LiveNoted};
    ghost use Rattle.rams_model.specs.declared.Event.TheVariants.{Live, Feedback, Tick};
    ghost use Rattle.rams_model.specs.Packets.{hi};
    ghost use Rattle.rams_model.specs.Service.{hold, history_of, answer, answered, heard_live, live};
    ghost use Rattle.channel_cache.specs.{arrival_of, IsBare};
    ghost use Rattle.channel_cache.specs.packet_ring.{packet_of};
    ghost use Rattle.server_hub.specs.session_core.{StandsFor, StandsForFewer, IsPlanOf, SendsShort, HasAtMost, IsCountable, AreFew, sums_in, JoinTimesAreKept, TellsAlone, most_notes_for, most_notes_in, most_orders_in};

    /// The core of a channel to which nothing came yet. It takes the room for the channel's live
    /// packets, for 4,096 repairs and for as many clients as it may have.
    pub fn new(alloc: Global, config: &Config) -> Result<Core, NoMemory>
        ensures settings { IfOk result (λ core. core.settings ≡ config.now) }
        ensures stands { IfOk result (λ core. StandsFor core []) }
    {
        Ok(Core {
            parts: Parts::new(alloc, config)?,
        })
    }

    /// The settings, as they were given.
    pub fn config(&self) -> &Config
        ensures { result.now ≡ self.now.settings }
    {
        &self.parts.config
    }

    /// One above the number of the newest packet that is held; 0 while none is.
    pub fn hi(&self) -> u64
        ensures { (events : List Event) → StandsFor self.now events →
            result ≡ hi (hold self.now.settings (history_of self.now.settings events)) }
    {
        self.parts.cache.hi()
    }

    /// The packet that is held under a number; `None` where none is.
    pub fn held(&self, n: u64) -> Option<&Held>
        ensures { (events : List Event) → StandsFor self.now events →
            option_copied result ≡ packet_of n (hold self.now.settings (history_of self.now.settings events)) }
    {
        self.parts.cache.held(n)
    }

    /// A live packet, as it came (RFC 3550): what became of it. After want of memory all is as before.
    pub fn live(&mut self, alloc: Global, bytes: &[u8]) -> Result<Answer, NoMemory>
        requires few { StandsForFewer self.old (2 ^ 40) }
        ensures stands { (events : List Event) → StandsFor self.old events →
            IfOk result (λ a. (a ≡ answer self.old.settings events (Live bytes.now))
            × StandsFor self.new (Live bytes.now ∷ events)) }
        ensures one_note { IfOk result (λ a. (length a.notes ≡ 1) × (a.orders ≡ [])) }
        ensures settings { self.new.settings ≡ self.old.settings }
        ensures same { OnErr result (self.new ≡ self.old) }
    {
        answer_live(alloc, &mut self.parts, bytes)
    }

    /// `live`, of a packet that its caller has read: its bytes have no padding, and are kept where they are. The
    /// note is the whole answer. It takes no memory.
    pub fn live_read(&mut self, incoming: Incoming) -> LiveNote
        requires few { StandsForFewer self.old (2 ^ 40) }
        requires read { heard_live self.old.settings.channel incoming.packet ≡ live (arrival_of incoming) }
        requires bare { IsBare incoming.packet }
        ensures stands { (events : List Event) → StandsFor self.old events →
            (answered (LiveNoted result ∷ []) [] ≡ answer self.old.settings events (Live incoming.packet))
            × StandsFor self.new (Live incoming.packet ∷ events) }
        ensures settings { self.new.settings ≡ self.old.settings }
    {
        note_live(&mut self.parts, incoming)
    }

    /// A feedback datagram (RFC 4585) of a client, as it came: the answers to its messages, in their
    /// order. After want of memory all is as before.
    pub fn feedback(&mut self, alloc: Global, client: u64, bytes: &[u8]) -> Result<Answer, NoMemory>
        ensures stands { (events : List Event) → StandsFor self.old events →
            IfOk result (λ a. (a ≡ answer self.old.settings events (Feedback client bytes.now))
            × StandsFor self.new (Feedback client bytes.now ∷ events)) }
        ensures few { IfOk result (HasAtMost (most_notes_for (length bytes.now)) 1) }
        ensures counted { IfOk result (HasAtMost (most_notes_in bytes.now) (most_orders_in bytes.now)) }
        ensures told { IfOk result TellsAlone }
        ensures short { IfOk result SendsShort }
        ensures settings { self.new.settings ≡ self.old.settings }
        ensures same { OnErr result (self.new ≡ self.old) }
    {
        answer_feedback(alloc, &mut self.parts, client, bytes)
    }

    /// A tick: what the bursts and the repairs are sent (RFC 6285, 6.2; RFC 4588), which bursts end,
    /// and whom the channel forgets. After want of memory all is as before.
    pub fn tick(&mut self, alloc: Global) -> Result<Answer, NoMemory>
        ensures stands { (events : List Event) → StandsFor self.old events →
            IfOk result (λ a. (a ≡ answer self.old.settings events Tick)
            × StandsFor self.new (Tick ∷ events)) }
        ensures join_times { (events : List Event) → StandsFor self.old events →
            OnOk result (JoinTimesAreKept self.old.settings (Tick ∷ events)) }
        ensures few { IfOk result IsCountable }
        ensures short { IfOk result SendsShort }
        ensures settings { self.new.settings ≡ self.old.settings }
        ensures same { OnErr result (self.new ≡ self.old) }
    {
        let plan = self.plan_tick(alloc)?;
        Ok(self.commit_tick(plan))
    }

    /// What a tick does, before any of it is done. It changes nothing.
    pub fn plan_tick(&self, alloc: Global) -> Result<TickPlan, NoMemory>
        ensures plan { IfOk result (IsPlanOf self.now) }
        ensures few { IfOk result (λ plan. IsCountable plan.answer) }
        ensures short { IfOk result (λ plan. SendsShort plan.answer) }
    {
        tick_core::plan_tick(alloc, &self.parts)
    }

    /// Does what was planned for a tick, and answers it. It can't fail for want of memory.
    pub fn commit_tick(&mut self, plan: TickPlan) -> Answer
        requires plan { IsPlanOf self.old plan }
        ensures stands { (events : List Event) → StandsFor self.old events →
            (result ≡ answer self.old.settings events Tick) × StandsFor self.new (Tick ∷ events) }
        ensures few { IsCountable result }
        ensures short { SendsShort result }
        ensures settings { self.new.settings ≡ self.old.settings }
    {
        tick_core::commit_tick(&mut self.parts, &plan.work);
        plan.answer
    }

    /// `tick`, of whose answer its caller asks only the sums: no note and no order is made of a burst. After
    /// want of memory all is as before.
    pub fn count_tick(&mut self, alloc: Global) -> Result<Sums, NoMemory>
        ensures stands { (events : List Event) → StandsFor self.old events →
            IfOk result (λ sums. (sums ≡ sums_in (answer self.old.settings events Tick))
            × StandsFor self.new (Tick ∷ events)) }
        ensures few { IfOk result AreFew }
        ensures settings { self.new.settings ≡ self.old.settings }
        ensures same { OnErr result (self.new ≡ self.old) }
    {
        let work = tick_core::plan_work(alloc, &self.parts)?;
        let sums = sums_of(&work.steps);
        tick_core::commit_tick(&mut self.parts, &work);
        Ok(sums)
    }
}
