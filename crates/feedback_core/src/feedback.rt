//! The answer to a datagram.
ghost use Rattle.std.specs.Prelude.{◌≡◌, ◌<◌, ◌≤◌, ◌^◌, ℕ, List, ◌∷◌, length, IfOk, OnErr, Ok, OnOk};
ghost use Rattle.rams_model.specs.declared.{Event.Event, Event.TheVariants.Feedback};
ghost use Rattle.rams_model.specs.Service.{answer};
ghost use Rattle.rams_model.specs.Formats.{framed};
ghost use Rattle.wire_packets.specs.rtcp_frame.{packets_left};
ghost use Rattle.channel_parts.specs.{StandsFor};
ghost use Rattle.feedback_core.specs.{most_notes, most_orders, most_notes_in, most_orders_in, most_notes_for, woken, has_place, with_place, TellsAlone};
ghost use Rattle.client_table.specs.{entry_of};

use crate::answering::answer_packets;
use crate::counting::{LONGEST_DATAGRAM, most_of_packets};
use crate::desk::Desk;
use crate::page::Page;
use crate::placing::{keep, make_place};
use crate::visitor::Visitor;
use channel_parts::Parts;
use ram_io::NoMemory;
use rams_model::{Answer, Note};
use std::alloc::Global;
use wire_packets::rtcp_frame::{Packets, packets};

/// What the channel answers to a datagram that came to its feedback target (RFC 4585) from this client,
/// an IPv4 address times 65536 plus its port.
///
/// Its packets are taken apart whole before anything else; a fault is noted, and nothing changes. Then
/// each BYE, each generic NACK and the first RAMS-R or RAMS-T (RFC 6285, 7) is answered, in their order.
/// All memory is taken first: after want of it nothing has changed.
pub fn answer_feedback(
    alloc: Global,
    parts: &mut Parts,
    client: u64,
    datagram: &[u8],
) -> Result<Answer, NoMemory>
    requires stands { (events : List Event) × StandsFor parts.old events }
    // Whichever events came before, the answer is the lawful one, and the parts stand for them with it.
    ensures stands { (events : List Event) → StandsFor parts.old events → IfOk result (λ a.
        (a ≡ answer parts.old.config events (Feedback client datagram.now)) × StandsFor parts.new (Feedback client datagram.now ∷ events)) }
    ensures settings { parts.new.config ≡ parts.old.config }
    ensures same { OnErr result (parts.new ≡ parts.old) }
    ensures few { IfOk result (λ a. (length a.notes ≤ most_notes_for (length datagram.now)) × (length a.orders ≤ 1)) }
    ensures counted { IfOk result (λ a. (length a.notes ≤ most_notes_in datagram.now) × (length a.orders ≤ most_orders_in datagram.now)) }
    ensures told { IfOk result TellsAlone }
{
    match packets(datagram) {
        Ok(packets) => {
            if datagram.len() > LONGEST_DATAGRAM {
                return Err(NoMemory);
            }
            answer_framed(alloc, parts, client, packets)
        }
        Err(fault) => Ok(Answer::one(alloc, Note::BadFeedback { client, fault })),
    }
}

// Answers the packets of a datagram that frames. One without a message takes no place and no memory.
fn answer_framed(
    alloc: Global,
    parts: &mut Parts,
    client: u64,
    packets: Packets<'_>,
) -> Result<Answer, NoMemory>
    requires stands { (events : List Event) × StandsFor parts.old events }
    requires few { most_notes (packets_left packets) < 2 ^ 63 }
    ensures stands { (events : List Event) (bytes : List ℕ) → StandsFor parts.old events → framed bytes ≡ Ok (packets_left packets.entry) → IfOk result (λ a.
        (a ≡ answer parts.old.config events (Feedback client bytes)) × StandsFor parts.new (Feedback client bytes ∷ events)) }
    ensures settings { parts.new.config ≡ parts.old.config }
    ensures same { OnErr result (parts.new ≡ parts.old) }
    ensures few { IfOk result (λ a. (length a.notes ≤ most_notes (packets_left packets.entry)) × (length a.orders ≤ most_orders (packets_left packets.entry))) }
    ensures told { IfOk result TellsAlone }
{
    let most = most_of_packets(packets);
    if most.notes == 0 {
        parts.table.wake(client);
        return Ok(Answer::new(Vec::new(alloc), Vec::new(alloc)));
    }
    let page = Page::new(alloc, most.notes)?;
    let orders = Vec::with_capacity(alloc, most.orders)?;
    let visitor = receive(parts, client)?;
    let mut desk = Desk {
        config: &parts.config,
        cache: &parts.cache,
        queue: &mut parts.queue,
        visitor,
        page,
    };
    answer_packets(&mut desk, packets);
    // The queue is given back, for the proof.
    let Desk {
        queue: _queue,
        visitor,
        page,
        ..
    } = desk;
    keep(&mut parts.table, client, visitor.entry);
    parts.budget = visitor.budget;
    Ok(page.finish(alloc, client, orders))
}

// The client, with a place in the table where it can have one. It takes the memory.
fn receive(parts: &mut Parts, client: u64) -> Result<Visitor, NoMemory>
    ensures visitor { IfOk result (λ v. v ≡ record {
      client = client;
      entry = woken (entry_of parts.old.table client);
      has_place = has_place parts.old.table client;
      budget = parts.old.budget;
    }) }
    ensures parts { OnOk result (parts.new ≡ record parts.old { table = with_place parts.old.table client parts.old.config.channel.seq0 }) }
    ensures same { OnErr result (parts.new ≡ parts.old) }
{
    let entry = parts.table.find(client);
    let seq0 = parts.config.channel().seq0;
    let has_place = make_place(&mut parts.table, client, entry.is_some(), seq0)?;
    Ok(Visitor::new(client, entry, has_place, &parts.budget))
}
