//! The cache of one channel.
ghost use Rattle.std.specs.Prelude.{◌≡◌, ℕ, ◌+◌, ◌^◌, ◌<◌, ◌≤◌, ◌↔◌, List, [], Some, ◌∷◌, option_copied, IfOk, IfSome, IsSome, OnOk, OnErr};
ghost use Rattle.rams_model.specs.Packets.{chosen, lo, hi, Arrival, live_note, stream_of};
ghost use Rattle.rams_model.specs.Service.{heard_live, live};
ghost use Rattle.channel_cache.specs.packet_ring.{packet_of, IsRing};
ghost use Rattle.channel_cache.specs.access_index.{choice_of};
ghost use Rattle.channel_cache.specs.{arrival_of, live_note_of, arrivals_after, UnlessTaken, new_cache, ring_of, StandsFor, StandsForFewer, DiffersInKept, AreInStep, Stand, Grows, total_of, kept_other, IsBare, IsWhole};
ghost use Rattle.rams_model.specs.Laws.{AreAtLeast};

use crate::access_index::Choice;
use crate::incoming::{Incoming, read_live};
use crate::intake::Intake;
use channel_config::Config;
use ram_io::NoMemory;
use rams_model::{Held, LiveNote, MOST_ON_WIRE};
use reckoning::ext_seq::{Noted, Numbering};
use std::alloc::Global;
use std::marker::Model;

/// What a channel keeps of its live packets: their numbers, those that wait for others, and those
/// that it holds.
#[derive(Drop)]
pub struct Cache {
    config: Config,
    numbering: Numbering,
    intake: Intake,
}

impl Model for Cache {
    ghost use Rattle.channel_cache.specs.{IsCache, total_of};
    ghost use Rattle.channel_cache.specs.Seen.{Seen};

    ghost Value = { Seen };

    ghost view = { λ c. record { settings = c.config; numbering = c.numbering; window = c.intake.window; held = c.intake.stock.ring.held; total = total_of c.intake } };

    ghost invariant = { λ c. IsCache c.config c.numbering c.intake };
}

impl Cache {
    /// A cache that no packet came to. It takes the room of its window and its ring.
    pub fn new(alloc: Global, config: &Config) -> Result<Cache, NoMemory>
        ensures value { IfOk result (λ cache. cache ≡ new_cache config.now) }
        ensures stands { IfOk result (λ cache. StandsFor cache []) }
    {
        let channel = config.channel();
        Ok(Cache {
            config: *config,
            numbering: Numbering::new(),
            intake: Intake::new(alloc, channel.window, channel.ring)?,
        })
    }

    /// Takes the bytes of a live packet, and says what became of it. One that neither comes in time
    /// nor begins a new start changes nothing but what the next jump is compared with (RFC 3550, A.1).
    /// Memory is taken first: after want of it all is as before.
    pub fn live(&mut self, alloc: Global, bytes: &[u8]) -> Result<LiveNote, NoMemory>
        requires { StandsForFewer self.old (2 ^ 40) }
        // Whichever packets came before, the note is that of this one after them.
        ensures stands { (arrivals : List Arrival) → StandsFor self.old arrivals →
            IfOk result (λ note. (live_note_of self.old.settings arrivals bytes.now ≡ Some note)
            × StandsFor self.new (arrivals_after self.old.settings bytes.now arrivals)) }
        ensures kept { IfOk result (λ note. UnlessTaken note (DiffersInKept self.old self.new)) }
        ensures settings { self.new.settings ≡ self.old.settings }
        ensures grows { hi self.old.held ≤ hi self.new.held }
        ensures few { (most : ℕ) → StandsForFewer self.old most → OnOk result (StandsForFewer self.new (most + 1)) }
        ensures same { OnErr result (self.new ≡ self.old) }
    {
        let channel = self.config.channel();
        let packet = match read_live(channel, bytes) {
            Ok(packet) => packet,
            Err(note) => return Ok(note),
        };
        let kept = self.intake.stock.keep(alloc, &packet)?;
        let incoming = Incoming::of(channel, &packet, kept);
        Ok(receive(&mut self.numbering, &mut self.intake, incoming))
    }

    /// `live`, of a packet that its caller has read: its bytes have no padding, and are kept where they are. It
    /// takes no memory.
    pub fn live_read(&mut self, incoming: Incoming) -> LiveNote
        requires few { StandsForFewer self.old (2 ^ 40) }
        requires read { heard_live self.old.settings.channel incoming.packet ≡ live (arrival_of incoming) }
        requires bare { IsBare incoming.packet }
        ensures stands { (arrivals : List Arrival) → StandsFor self.old arrivals →
            (live_note_of self.old.settings arrivals incoming.packet ≡ Some result)
            × StandsFor self.new (arrivals_after self.old.settings incoming.packet arrivals) }
        ensures kept { UnlessTaken result (DiffersInKept self.old self.new) }
        ensures settings { self.new.settings ≡ self.old.settings }
    {
        receive(&mut self.numbering, &mut self.intake, incoming)
    }

    /// The number of the oldest packet that is held; 0 while none is.
    pub fn lo(&self) -> u64
        ensures value { result ≡ lo self.now.held }
        ensures ring { IsRing (ring_of self.now) }
    {
        self.intake.stock.lo()
    }

    /// One above the number of the newest packet that is held; 0 while none is.
    pub fn hi(&self) -> u64
        ensures value { result ≡ hi self.now.held }
        ensures ring { IsRing (ring_of self.now) }
    {
        self.intake.stock.hi()
    }

    /// A size on the wire, in bytes, than which no packet that is held is smaller: that of the smallest
    /// that ever came.
    pub fn least_wire(&self) -> u32
        ensures { AreAtLeast result self.now.held }
    {
        self.intake.stock.least_wire()
    }

    /// The packet of a number; `None` exactly outside of [`lo`, `hi`).
    pub fn held(&self, n: u64) -> Option<&Held>
        ensures value { option_copied result ≡ packet_of n self.now.held }
        ensures number { IfSome result (λ held. held.now.n ≡ n) }
        ensures within { IsSome result ↔ ((lo self.now.held ≤ n) × (n < hi self.now.held)) }
        // Its bytes are an RTP packet without padding.
        ensures whole { IfSome result (λ held. IsWhole held.now) }
    {
        self.intake.stock.get(n)
    }

    /// Where a burst may begin: at the newest eligible access point that is at least `min_ms` old,
    /// unless it is older than `max_ms`.
    pub fn choose(&self, min_ms: u32, max_ms: Option<u32>) -> Choice
        ensures { result ≡ choice_of self.now.held (chosen self.now.settings.channel self.now.held min_ms max_ms) }
    {
        self.intake
            .stock
            .choose(self.config.channel(), min_ms, max_ms)
    }
}

// Numbers a packet of the channel, and takes it in where it comes in time. (Where it is inlined, with what it calls,
// the packet is moved once, into the ring: a copy of what was just written waits for it.)
#[inline(always)]
fn receive(numbering: &mut Numbering, intake: &mut Intake, incoming: Incoming) -> LiveNote
    requires in_step { AreInStep numbering.old intake.old }
    requires bare { IsBare incoming.packet }
    requires low { incoming.sequence < 65536 }
    requires numbered { IfSome numbering.old.greatest (λ g. g < 2 ^ 61) }
    requires few { total_of intake.old + MOST_ON_WIRE ≤ 2 ^ 60 }
    ensures in_step { AreInStep numbering.new intake.new }
    ensures grows { Grows intake.old intake.new 1 }
    ensures kept { UnlessTaken result ((numbering.new ≡ kept_other numbering.old numbering.new) × (intake.new ≡ intake.old)) }
    ensures stands { (arrivals : List Arrival) → Stand numbering.old intake.old arrivals →
        (result ≡ live_note intake.old.window.width (stream_of intake.old.window.width arrivals) incoming.sequence)
        × Stand numbering.new intake.new (arrival_of incoming ∷ arrivals) }
{
    match numbering.note(incoming.sequence) {
        Noted::First(n) => {
            intake.begin_with(n, incoming);
            LiveNote::Took(n)
        }
        Noted::Forward(n) | Noted::Behind(n) => intake.continue_with(n, incoming),
        Noted::Jump => LiveNote::Jump,
        Noted::Restart(n) => {
            intake.restart_with(n, incoming);
            LiveNote::Restart(n)
        }
    }
}
