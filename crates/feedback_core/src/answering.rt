//! The answers to the messages of a datagram, in their order.
ghost use Rattle.std.specs.Prelude.{◌≡◌, ◌+◌, ◌≤◌, true, None, max, length, ◌∷◌, false};
ghost use Rattle.rams_model.specs.Service.{after_message, after_messages, told, noted, is_rams, message_of as model_message, verdict};
ghost use Rattle.wire_packets.specs.rtcp_frame.{packets_left, shown_packet};
ghost use Rattle.feedback_core.specs.{most_of, most_of_message, most_notes, orders_of, most_orders, told_by, shown_message, turn_of, due_after, answered_of, IsFresh, IsPage, IsTurned, AreOfOne, IsSameDesk, IsReadyDesk, HoldsOn, IsHeardOn, IsSaid, Serves};
ghost use Rattle.rams_model.specs.Formats.{request_at};

use crate::bye::answer_bye;
use crate::desk::Desk;
use crate::framing::{Message, message_of};
use crate::nack::answer_nack;
use crate::rams_i::request_info;
use crate::rams_r::answer_request;
use crate::rams_t::answer_stop;
use crate::said::Said;
use wire_packets::rtcp_frame::{Packet, Packets};

/// Answers the messages of these packets, for whose notes there is room.
pub(crate) fn answer_packets(desk: &mut Desk<'_>, packets: Packets<'_>)
    requires ready { IsReadyDesk desk.old }
    requires fresh { IsFresh desk.old.page }
    requires room { length desk.old.page.notes.items + most_notes (packets_left packets) ≤ desk.old.page.notes.room }
    ensures ready { IsReadyDesk desk.new }
    ensures same_queue { desk.new.queue.ghost_name ≡ desk.old.queue.ghost_name }
    ensures same { IsSameDesk desk.old desk.new }
    ensures few { length desk.new.page.notes.items ≤ length desk.old.page.notes.items + most_notes (packets_left packets.entry) }
    ensures told { told_by desk.new.page ≤ max (told_by desk.old.page) (most_orders (packets_left packets.entry)) }
    ensures answers { let s = desk.old.config.now in let k = desk.old.visitor.client in
        Serves desk.old (HoldsOn desk.old) (λ before history. IsPage s k history desk.old.page
        → IsTurned s before (after_messages s k (answered_of desk.old.page.is_due (packets_left packets.entry)) history) desk.new.queue.now desk.new.visitor desk.new.page) }
{
    for packet in packets {
        answer_packet(desk, &packet);
    }
}

// Answers the message that a packet is, where it is one and is answered.
fn answer_packet(desk: &mut Desk<'_>, packet: &Packet<'_>)
    requires ready { IsReadyDesk desk.old }
    requires fresh { IsFresh desk.old.page }
    requires room { length desk.old.page.notes.items + most_of (shown_packet packet.now) ≤ desk.old.page.notes.room }
    ensures ready { IsReadyDesk desk.new }
    ensures same_queue { desk.new.queue.ghost_name ≡ desk.old.queue.ghost_name }
    ensures same { IsSameDesk desk.old desk.new }
    ensures fresh { IsFresh desk.new.page }
    ensures few { length desk.new.page.notes.items ≤ length desk.old.page.notes.items + most_of (shown_packet packet.now) }
    ensures told { told_by desk.new.page ≤ max (told_by desk.old.page) (orders_of (shown_packet packet.now)) }
    ensures room { desk.new.page.notes.room ≡ desk.old.page.notes.room }
    ensures due { desk.new.page.is_due ≡ due_after desk.old.page.is_due (model_message (shown_packet packet.now)) }
    ensures answers { let s = desk.old.config.now in let k = desk.old.visitor.client in
        Serves desk.old (HoldsOn desk.old) (λ before history. IsPage s k history desk.old.page
        → IsTurned s before (after_messages s k (turn_of desk.old.page.is_due (model_message (shown_packet packet.now))) history) desk.new.queue.now desk.new.visitor desk.new.page) }
{
    let Some(message) = message_of(packet) else {
        return;
    };
    if !desk.page.takes(&message) {
        return;
    }
    answer_message(desk, &message);
}

// Answers a message.
fn answer_message(desk: &mut Desk<'_>, message: &Message<'_>)
    requires ready { IsReadyDesk desk.old }
    requires fresh { is_rams (shown_message message.now) ≡ true → desk.old.page.info ≡ None }
    requires room { length desk.old.page.notes.items + most_of_message (shown_message message.now) ≤ desk.old.page.notes.room }
    ensures ready { IsReadyDesk desk.new }
    ensures same_queue { desk.new.queue.ghost_name ≡ desk.old.queue.ghost_name }
    ensures same { IsSameDesk desk.old desk.new }
    ensures info { is_rams (shown_message message.now) ≡ false → desk.new.page.info ≡ desk.old.page.info }
    ensures due { desk.new.page.is_due ≡ desk.old.page.is_due }
    ensures few { length desk.new.page.notes.items ≤ length desk.old.page.notes.items + most_of_message (shown_message message.now) }
    ensures room { desk.new.page.notes.room ≡ desk.old.page.notes.room }
    ensures answers { let s = desk.old.config.now in let k = desk.old.visitor.client in
        Serves desk.old (HoldsOn desk.old) (λ before history. IsPage s k history desk.old.page
        → IsTurned s before (after_message s k (shown_message message.now) (told k (shown_message message.now) ∷ history)) desk.new.queue.now desk.new.visitor desk.new.page) }
{
    let client = desk.visitor.client;
    match message {
        Message::Bye(packet) => {
            let said = answer_bye(desk, packet);
            desk.page.write(client, &said);
        }
        Message::Nack(nack) => {
            answer_nack(desk, nack);
        }
        Message::Request(feedback) => {
            let said = say_request(desk, feedback.sender, feedback.fci);
            desk.page.write(client, &said);
        }
        Message::Stop(feedback) => {
            let said = answer_stop(desk, feedback.fci);
            desk.page.write(client, &said);
        }
    }
}

// Answers a request, which ends nothing, and says what its client is told.
fn say_request(desk: &mut Desk<'_>, sender: u32, fci: &[u8]) -> Said
    requires ready { IsReadyDesk desk.old }
    ensures ready { IsReadyDesk desk.new }
    ensures one { AreOfOne desk.old.visitor desk.new.visitor }
    ensures same { desk.new ≡ record desk.old { visitor = desk.new.visitor } }
    ensures open { result.end ≡ None }
    ensures says { let s = desk.old.config.now in let k = desk.old.visitor.client in
        Serves desk.old (IsHeardOn desk.old sender) (λ before history. IsSaid s before history (noted (verdict s k history (request_at fci.now)) None ∷ history) desk.old.queue.now desk.new.visitor result) }
{
    let note = answer_request(desk, sender, fci);
    Said {
        note,
        end: None,
        info: request_info(&desk.visitor, note),
    }
}
