//! How far the events of a seed have come, and the next of each kind.
ghost use Rattle.std.specs.Prelude.{◌≡◌, ◌≢◌, ◌+◌, ◌%◌, ◌^◌, ◌<◌, ◌≤◌, ◌==◌, nat_lt, [], OnOk, OnErr, IfOk};
ghost use Rattle.generated.specs.trace_gen.{event_on};
ghost use Rattle.generated.specs.declared.trace_gen.page.Kind.TheVariants as kind;

use crate::trace_gen::channel::MEDIA;
use crate::trace_gen::draw::{drawn, stepped};
use crate::trace_gen::packet::{
    HEADER, PACKETS, append_packet, is_marked, sequence_of, size_of, timestamp_of, write_packets,
};
use crate::trace_gen::page::{Kind, Packet};
use bytes::Bytes;
use ram_io::NoMemory;
use rams_model::Stop;
use std::alloc::Global;
use std::marker::Model;
use wire_packets::rams_tlv::{Request, append_request, append_stop};
use wire_packets::rtcp_feedback::append_nack;

/// A RAMS-R without TLVs.
const PLAIN: Request<'static> = Request {
    ssrcs: None,
    min_ms: None,
    max_ms: None,
    bps: None,
    preamble: false,
};

/// How many of the events of a seed have come.
#[derive(Drop)]
pub struct Made {
    seed: u32,
    /// The state of the draws.
    state: u64,
    /// Whole blocks that have come.
    block: u32,
    /// Events of the next block that have come.
    events: u8,
    /// The client that is drawn in every fourth block.
    client: u32,
}

impl Model for Made {
    ghost use Rattle.generated.specs.trace_gen.{Place, place, IsPlace};

    ghost Value = { Place };

    ghost view = { λ m. place m.seed m.block m.events };

    ghost invariant = { λ m. IsPlace (place m.seed m.block m.events) m.state m.client };
}

impl Made {
    ghost use Rattle.std.specs.Prelude.{ℕ};
    ghost use Rattle.rams_model.specs.declared.Event.TheVariants.{Live};
    ghost use Rattle.generated.specs.trace_gen.{Place, place, left, made, packet, request, nack, stop, IsReady, IsRead};

    /// The place before the first event of this seed.
    #[tactic(auto, unfolding(crate::specs::trace_gen::Draws::state))]
    pub fn new(seed: u32) -> Made
        ensures value { result ≡ place seed 0 0 }
        ensures all { (blocks : ℕ) → left result blocks ≡ made seed blocks }
    {
        Made {
            seed,
            state: u64::from(seed),
            block: 0,
            events: 0,
            client: 0,
        }
    }

    /// The number of the block that has begun, from 0.
    pub(crate) fn block(&self) -> u32
        ensures { result ≡ self.now.block }
    {
        self.block
    }

    /// Whether packets of the block are still to come.
    pub(crate) fn has_packets(&self) -> bool
        ensures { result ≡ nat_lt self.now.events 10 }
    {
        self.events < PACKETS
    }

    /// Whether all of the block but its feedback and its tick has come.
    pub(crate) fn has_feedback(&self) -> bool
        ensures value { result ≡ (self.now.events == 10) }
        ensures within { self.now.events ≤ 11 }
        ensures behind { self.now.events ≡ 11 → self.now.block % 4 ≢ 0 }
    {
        self.events == PACKETS
    }

    /// The next packet.
    #[tactic(auto, using(crate::proofs::trace_gen::Drawing::state_more, crate::proofs::trace_gen::Drawing::draws_in), unfolding(crate::specs::trace_gen::Generated::packet))]
    pub(crate) fn packet(&mut self, page: &mut Vec<u8>) -> Result<Kind, NoMemory>
        requires page { page.old.items ≡ [] }
        requires next { self.old.events < 10 }
        ensures event { IfOk result (λ kind. event_on kind page.new.items ≡ packet self.old.seed self.old.block self.old.events) }
        ensures place { OnOk result (self.new ≡ place self.old.seed self.old.block (self.old.events + 1)) }
        ensures same { OnErr result (self.new ≡ self.old) }
    {
        let state = stepped(self.state);
        let i = 10 * u64::from(self.block) + u64::from(self.events);
        append_packet(page, i, size_of(state))?;
        self.state = state;
        self.events += 1;
        Ok(Kind::Live)
    }

    /// The next packet, of those of its block that are written on `ready`: all that are still to come, one behind
    /// another, or none yet. They share their memory.
    #[tactic(auto, using(crate::proofs::trace_gen::Drawing::state_more, crate::proofs::trace_gen::Drawing::draws_in))]
    pub(crate) fn shared_packet(
        &mut self,
        alloc: Global,
        ready: &mut Bytes,
    ) -> Result<Packet, NoMemory>
        requires next { self.old.events < 10 }
        requires ready { IsReady self.old ready.old }
        ensures event { IfOk result (λ p. Live p.bytes ≡ packet self.old.seed self.old.block self.old.events) }
        ensures read { IfOk result IsRead }
        ensures place { OnOk result (self.new ≡ place self.old.seed self.old.block (self.old.events + 1)) }
        ensures ready { OnOk result (IsReady self.new ready.new) }
        ensures same { OnErr result (self.new ≡ self.old) }
    {
        write_packets(alloc, ready, self.state, self.block, self.events)?;
        let state = stepped(self.state);
        let bytes = ready.split_to(HEADER + size_of(state))?;
        let i = 10 * u64::from(self.block) + u64::from(self.events);
        self.state = state;
        self.events += 1;
        Ok(Packet {
            sequence: sequence_of(i),
            timestamp: timestamp_of(i),
            marker: is_marked(i),
            bytes,
        })
    }

    /// The request of the block, of a client that is drawn.
    #[tactic(auto, using(crate::proofs::trace_gen::Drawing::state_more, crate::proofs::trace_gen::Drawing::draws_in, crate::proofs::trace_gen::Drawing::draws_behind, crate::proofs::trace_gen::Drawing::client_drawn), unfolding(crate::specs::trace_gen::Generated::request))]
    pub(crate) fn request(&mut self, page: &mut Vec<u8>) -> Result<Kind, NoMemory>
        requires page { page.old.items ≡ [] }
        requires next { self.old.events ≡ 10 }
        requires block { self.old.block % 4 ≡ 1 }
        ensures event { IfOk result (λ kind. event_on kind page.new.items ≡ request self.old.seed self.old.block) }
        ensures place { OnOk result (self.new ≡ place self.old.seed self.old.block 11) }
        ensures same { OnErr result (self.new ≡ self.old) }
    {
        let state = stepped(self.state);
        let client = 1 + (drawn(state) % 64) as u32;
        append_request(page, client, MEDIA, &PLAIN)?;
        self.state = state;
        self.client = client;
        self.events = PACKETS + 1;
        Ok(of_client(client))
    }

    /// The NACK of the block, of a number that is drawn.
    #[tactic(auto, using(crate::proofs::trace_gen::Drawing::state_more, crate::proofs::trace_gen::Drawing::draws_in, crate::proofs::trace_gen::Drawing::draws_behind), unfolding(crate::specs::trace_gen::Generated::nack))]
    pub(crate) fn nack(&mut self, page: &mut Vec<u8>) -> Result<Kind, NoMemory>
        requires page { page.old.items ≡ [] }
        requires next { self.old.events ≡ 10 }
        requires block { self.old.block % 4 ≡ 2 }
        ensures event { IfOk result (λ kind. event_on kind page.new.items ≡ nack self.old.seed self.old.block) }
        ensures place { OnOk result (self.new ≡ place self.old.seed self.old.block 11) }
        ensures same { OnErr result (self.new ≡ self.old) }
    {
        let state = stepped(self.state);
        let newest = 10 * u64::from(self.block) + 9;
        let lost = (newest + 65536 - drawn(state) % 200) % 65536;
        append_nack(page, self.client, MEDIA, &[lost as u16])?;
        self.state = state;
        self.events = PACKETS + 1;
        Ok(of_client(self.client))
    }

    /// The RAMS-T of the block.
    #[tactic(auto, using(crate::proofs::trace_gen::Drawing::draws_in, crate::proofs::trace_gen::Drawing::draws_behind_stop), unfolding(crate::specs::trace_gen::Generated::stop))]
    pub(crate) fn stop(&mut self, page: &mut Vec<u8>) -> Result<Kind, NoMemory>
        requires page { page.old.items ≡ [] }
        requires next { self.old.events ≡ 10 }
        requires block { self.old.block % 4 ≡ 3 }
        ensures event { IfOk result (λ kind. event_on kind page.new.items ≡ stop self.old.seed self.old.block) }
        ensures place { OnOk result (self.new ≡ place self.old.seed self.old.block 11) }
        ensures same { OnErr result (self.new ≡ self.old) }
    {
        let stop = Stop {
            first_multicast: None,
        };
        append_stop(page, self.client, MEDIA, &stop)?;
        self.events = PACKETS + 1;
        Ok(of_client(self.client))
    }

    /// The tick that ends the block.
    pub(crate) fn tick(&mut self) -> Kind
        requires block { self.old.block + 1 < 2 ^ 32 }
        requires last { 10 ≤ self.old.events }
        requires whole { self.old.events ≡ 10 → self.old.block % 4 ≡ 0 }
        ensures kind { result ≡ kind.Tick }
        ensures place { self.new ≡ place self.old.seed (self.old.block + 1) 0 }
    {
        self.block += 1;
        self.events = 0;
        Kind::Tick
    }
}

/// A datagram of this client.
fn of_client(client: u32) -> Kind
    ensures { result ≡ kind.Feedback client }
{
    Kind::Feedback {
        client: u64::from(client),
    }
}
