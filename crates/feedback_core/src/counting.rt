//! How much the answer to a datagram has at most.
ghost use Rattle.std.specs.Prelude.{◌≡◌, ◌+◌, ◌≤◌, ◌<◌, ◌^◌, max, length};
ghost use Rattle.rams_model.specs.Formats.{nack_numbers};
ghost use Rattle.rams_model.specs.Service.{named};
ghost use Rattle.wire_packets.specs.rtcp_frame.{packets_left};
ghost use Rattle.feedback_core.specs.{shown_message, most_of_message, orders_of_message, most_notes, most_orders, most_notes_in, most_orders_in};

use crate::framing::{Message, message_of};
use wire_packets::rtcp_frame::{Packets, packets};

/// The longest datagram whose answer there can be memory for, in bytes. An answer has at most five notes for each
/// byte and four more: to this one they are fewer than 2^63, so that they can be counted.
pub const LONGEST_DATAGRAM: usize = 1 << 56;

/// How much an answer has at most.
#[derive(Clone, Copy)]
pub struct Most {
    pub notes: usize,
    pub orders: usize,
}

/// How much the answer to a feedback datagram has at most, by its messages alone.
pub fn most_in(datagram: &[u8]) -> Most
    requires { length datagram.now ≤ LONGEST_DATAGRAM }
    ensures notes { result.notes ≡ most_notes_in datagram.now }
    ensures orders { result.orders ≡ most_orders_in datagram.now }
{
    match packets(datagram) {
        Ok(packets) => most_of_packets(packets),
        Err(_) => Most {
            notes: 1,
            orders: 0,
        },
    }
}

/// How much the answers to these packets have at most; no notes where none of them is a message.
pub(crate) fn most_of_packets(packets: Packets<'_>) -> Most
    requires { most_notes (packets_left packets) < 2 ^ 63 }
    ensures notes { result.notes ≡ most_notes (packets_left packets.entry) }
    ensures orders { result.orders ≡ most_orders (packets_left packets.entry) }
{
    let mut most = Most {
        notes: 0,
        orders: 0,
    };
    for packet in packets {
        if let Some(message) = message_of(&packet) {
            add(&mut most, &message);
        }
    }
    most
}

// What the answer to a message has is added.
fn add(most: &mut Most, message: &Message<'_>)
    requires { most.old.notes + most_of_message (shown_message message.now) < 2 ^ 63 }
    ensures notes { most.new.notes ≡ most.old.notes + most_of_message (shown_message message.now) }
    ensures orders { most.new.orders ≡ max most.old.orders (orders_of_message (shown_message message.now)) }
{
    most.notes += most_notes_of(message);
    if message.is_rams() {
        most.orders = most.orders.max(1);
    }
}

// The most notes of one message: a BYE has a Bye and an End, a RAMS-T a StopAt and an End.
fn most_notes_of(message: &Message<'_>) -> usize
    requires { most_of_message (shown_message message.now) < 2 ^ 63 }
    ensures { result ≡ most_of_message (shown_message message.now) }
{
    match message {
        Message::Nack(nack) => count_numbers(nack.fci).max(1),
        Message::Request(_) => 1,
        Message::Bye(_) | Message::Stop(_) => 2,
    }
}

// How many numbers a generic NACK names: an entry its own, and one for each bit that is set of those that
// follow it (RFC 4585, 6.2.1).
fn count_numbers(fci: &[u8]) -> usize
    requires { length (named (nack_numbers fci.now)) < 2 ^ 63 }
    ensures { result ≡ length (named (nack_numbers fci.now)) }
{
    if fci.len() % 4 != 0 {
        return 0;
    }
    let mut count = 0;
    let mut entries = fci;
    while entries.len() >= 4 {
        let blp = u16::from_be_bytes([entries[2], entries[3]]);
        count += 1 + blp.count_ones() as usize;
        (_, entries) = entries.split_at(4);
    }
    count
}
