//! The answers of a channel, counted, and the summary that tells them.
ghost use Rattle.std.specs.Prelude.{◌≡◌, ◌+◌, ◌*◌, ◌≤◌, ◌<◌, ◌^◌, ◌++◌, All, IfOk, OnOk, length};
ghost use Rattle.generated.specs.summary.Counts.{bytes_of, size_of};
ghost use Rattle.generated.specs.summary.Steps.{IsShort, with_tick};
ghost use Rattle.server_hub.specs.session_core.{AreFew};
ghost use Rattle.generated.specs.summary.Text.{count_lines};

use crate::summary::counts::Counts;
use book_text::append_count;
use ram_io::NoMemory;
use rams_model::{Answer, LiveNote, MOST_ON_WIRE, Note, Order, RTX_OVERHEAD};
use server_hub::session_core::Sums;
use std::alloc::Global;
use std::marker::Model;

/// What the answers of a channel have, counted.
#[derive(Drop)]
pub struct Tally {
    /// How many answers were added.
    answers: u64,
    notes: Counts,
    /// The wire sizes of the retransmissions, together.
    bytes: u64,
}

impl Model for Tally {
    ghost use Rattle.generated.specs.summary.Counts.{Tallied};
    ghost use Rattle.generated.specs.summary.Steps.{IsTally};

    ghost Value = { Tallied };

    ghost view = { λ t. record { answers = t.answers; notes = t.notes; bytes = t.bytes } };

    ghost invariant = { λ t. IsTally (record { answers = t.answers; notes = t.notes; bytes = t.bytes }) };
}

impl Tally {
    ghost use Rattle.std.specs.Prelude.{List, [], ◌∷◌, reverse};
    ghost use Rattle.rams_model.specs.Service.{Answered, answered};
    ghost use Rattle.rams_model.specs.declared.Note.TheVariants.{Live};
    ghost use Rattle.generated.specs.summary.Counts.{tally_of};
    ghost use Rattle.generated.specs.summary.Text.{summary, answers_in, made_summary};
    ghost use Rattle.generated.specs.trace_gen.{config, made};

    /// No answers.
    #[tactic(auto, unfolding(crate::specs::summary::Counts::counts_of))]
    pub fn new() -> Tally
        ensures { result ≡ tally_of [] }
    {
        Tally {
            answers: 0,
            notes: Counts::NONE,
            bytes: 0,
        }
    }

    /// One answer more.
    #[tactic(auto, using(crate::proofs::summary::Tallying::tally_more))]
    pub fn add(&mut self, answer: &Answer)
        requires answers { self.old.answers < 1000000 }
        requires notes { length answer.now.notes < 2 ^ 32 }
        requires orders { length answer.now.orders < 2 ^ 32 }
        requires short { All IsShort answer.now.orders }
        ensures counts { (answers : List Answered) → self.old ≡ tally_of answers → self.new ≡ tally_of (answer.now ∷ answers) }
        ensures answers { self.new.answers ≡ self.old.answers + 1 }
    {
        self.notes = Counts::of(&answer.notes).plus(self.notes);
        self.bytes += bytes(&answer.orders);
        self.answers += 1;
    }

    /// The answer to one live packet more, which has this note alone.
    #[tactic(auto, using(crate::proofs::summary::Tallying::tally_live))]
    pub fn add_live(&mut self, note: LiveNote)
        requires answers { self.old.answers < 1000000 }
        ensures counts { (answers : List Answered) → self.old ≡ tally_of answers → self.new ≡ tally_of (answered (Live note ∷ []) [] ∷ answers) }
        ensures answers { self.new.answers ≡ self.old.answers + 1 }
    {
        self.notes.count(&Note::Live(note));
        self.answers += 1;
    }

    /// The answer to a tick more, of which these are the sums.
    pub fn add_tick(&mut self, sums: &Sums)
        requires answers { self.old.answers < 1000000 }
        requires few { AreFew sums.now }
        ensures { self.new ≡ with_tick self.old sums.now }
    {
        self.notes.burst += sums.of_bursts;
        self.notes.repair += sums.packets - sums.of_bursts;
        self.notes.end += sums.ends;
        self.bytes += sums.bytes;
        self.answers += 1;
    }

    /// The summary of the answers that were added, of so many events.
    #[tactic(auto, unfolding(crate::specs::summary::Text::summary))]
    pub fn write(
        &self,
        alloc: Global,
        seed: u32,
        blocks: u32,
        events: u64,
    ) -> Result<Vec<u8>, NoMemory>
        ensures text { IfOk result (λ text. text.items ≡ summary seed blocks events self.now) }
        // With the answers of the one lawful book of a generated trace it is the trace's summary.
        ensures made { self.now ≡ tally_of (answers_in config (reverse (made seed blocks))) → events ≡ length (made seed blocks) →
            IfOk result (λ text. text.items ≡ made_summary seed blocks) }
    {
        let head = format!(in alloc; "rams-made {seed} {blocks}\n")?;
        let mut text = head.into_bytes();
        append_counts(&mut text, events, &self.notes, self.bytes)?;
        text.extend_from_slice(b"done\n")?;
        Ok(text)
    }
}

/// The lines of the numbers that are counted.
fn append_counts(text: &mut Vec<u8>, events: u64, n: &Counts, bytes: u64) -> Result<(), NoMemory>
    ensures { OnOk result (text.new.items ≡ text.old.items ++ count_lines events n.now bytes) }
{
    append_count(text, b"events", events)?;
    append_count(text, b"took", n.took)?;
    append_count(text, b"accept", n.accept)?;
    append_count(text, b"again", n.again)?;
    append_count(text, b"refuse", n.refuse)?;
    append_count(text, b"burst", n.burst)?;
    append_count(text, b"repair", n.repair)?;
    append_count(text, b"end", n.end)?;
    append_count(text, b"bytes", bytes)?;
    Ok(())
}

/// The wire sizes of the retransmissions that orders ask for, together.
fn bytes(orders: &[Order]) -> u64
    requires few { length orders.now < 2 ^ 32 }
    requires short { All IsShort orders.now }
    ensures value { result ≡ bytes_of orders.now }
    ensures few { result ≤ length orders.now * MOST_ON_WIRE }
{
    let mut sum = 0;
    for order in orders {
        sum += size(order);
    }
    sum
}

/// The wire size of the retransmission that an order asks for.
fn size(order: &Order) -> u64
    requires { IsShort order.now }
    ensures { result ≡ size_of order.now }
{
    match order {
        Order::Rtx { packet, .. } => packet.len() as u64 + u64::from(RTX_OVERHEAD),
        Order::Info { .. } => 0,
    }
}
