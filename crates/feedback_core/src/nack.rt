//! The answer to a generic NACK (RFC 4585, 6.2.1).
ghost use Rattle.std.specs.Prelude.{◌≡◌, ◌+◌, ◌≤◌, length};
ghost use Rattle.rams_model.specs.Service.{room, number_answer, after_numbers, after_nack, named};
ghost use Rattle.rams_model.specs.Packets.{lo, hi};
ghost use Rattle.rams_model.specs.Formats.{nack_numbers};
ghost use Rattle.wire_packets.specs.rtcp_feedback.{numbers_left};
ghost use Rattle.feedback_core.specs.{most_of_nack, IsReadyDesk, IsSameDesk, IsAnswered, IsHeardOn, AreNoted, Serves};

use crate::desk::Desk;
use rams_model::Note;
use reckoning::ext_seq::resolve_in;
use repair_queue::Asked;
use wire_packets::rtcp_feedback::{Feedback, NackIter, nack_numbers};

/// Answers a NACK: one about another media source as a whole, else each number that it names, in their
/// order.
pub(crate) fn answer_nack(desk: &mut Desk<'_>, nack: &Feedback<'_>)
    requires ready { IsReadyDesk desk.old }
    requires room { length desk.old.page.notes.items + most_of_nack nack.now.fci.now ≤ desk.old.page.notes.room }
    ensures ready { IsReadyDesk desk.new }
    ensures same_queue { desk.new.queue.ghost_name ≡ desk.old.queue.ghost_name }
    ensures same { IsSameDesk desk.old desk.new }
    ensures page { desk.new.page ≡ record desk.old.page { notes = desk.new.page.notes } }
    ensures few { length desk.new.page.notes.items ≤ length desk.old.page.notes.items + most_of_nack nack.now.fci.now }
    ensures room { desk.new.page.notes.room ≡ desk.old.page.notes.room }
    ensures answers { let s = desk.old.config.now in let k = desk.old.visitor.client in
        Serves desk.old (IsHeardOn desk.old nack.now.sender) (λ before history. AreNoted s before history (after_nack s k nack.now.media (named (nack_numbers nack.now.fci.now)) history)
        desk.new.queue.now desk.new.visitor desk.old.page.notes.items desk.new.page.notes.items) }
{
    if nack.media != desk.config.channel().ssrc {
        desk.page.notes.push(Note::ForeignNack {
            client: desk.visitor.client,
        });
        return;
    }
    match nack_numbers(nack.fci) {
        Ok(numbers) => {
            answer_numbers(desk, nack.sender, numbers);
        }
        Err(_) => {}
    }
}

// Answers the numbers in their order.
fn answer_numbers(desk: &mut Desk<'_>, sender: u32, numbers: NackIter<'_>)
    requires ready { IsReadyDesk desk.old }
    requires room { length desk.old.page.notes.items + length (numbers_left numbers) ≤ desk.old.page.notes.room }
    ensures ready { IsReadyDesk desk.new }
    ensures same_queue { desk.new.queue.ghost_name ≡ desk.old.queue.ghost_name }
    ensures same { IsSameDesk desk.old desk.new }
    ensures page { desk.new.page ≡ record desk.old.page { notes = desk.new.page.notes } }
    ensures few { length desk.new.page.notes.items ≤ length desk.old.page.notes.items + length (numbers_left numbers.entry) }
    ensures room { desk.new.page.notes.room ≡ desk.old.page.notes.room }
    ensures answers { let s = desk.old.config.now in let k = desk.old.visitor.client in
        Serves desk.old (IsHeardOn desk.old sender) (λ before history. AreNoted s before history (after_numbers s desk.old.cache.now.held k (numbers_left numbers.entry) history)
        desk.new.queue.now desk.new.visitor desk.old.page.notes.items desk.new.page.notes.items) }
{
    let (from, to) = (desk.cache.lo(), desk.cache.hi());
    for low in numbers {
        let note = answer_number(desk, sender, from, to, low);
        desk.page.notes.push(note);
    }
}

// Answers a number of a packet that is held from `from` on and below `to`. A repair that is queued makes
// its client known.
fn answer_number(desk: &mut Desk<'_>, sender: u32, from: u64, to: u64, low: u16) -> Note
    requires ready { IsReadyDesk desk.old }
    requires oldest { from ≡ lo desk.old.cache.now.held }
    requires end { to ≡ hi desk.old.cache.now.held }
    ensures ready { IsReadyDesk desk.new }
    ensures same_queue { desk.new.queue.ghost_name ≡ desk.old.queue.ghost_name }
    ensures same { IsSameDesk desk.old desk.new }
    ensures page { desk.new.page ≡ desk.old.page }
    ensures answers { let s = desk.old.config.now in let k = desk.old.visitor.client in
        Serves desk.old (IsHeardOn desk.old sender) (λ before history. IsAnswered s before history desk.new.queue.now desk.new.visitor result (number_answer room s desk.old.cache.now.held k history low)) }
{
    let client = desk.visitor.client;
    let Some(n) = resolve_in(from, to, low) else {
        return Note::Unheld { client, low };
    };
    if desk.visitor.is_early(n) {
        return Note::Early { client, n };
    }
    if desk.visitor.is_full() {
        return Note::TableFull { client, n };
    }
    match desk.queue.ask(client, n) {
        Asked::Already => Note::Already { client, n },
        Asked::ClientFull => Note::ClientFull { client, n },
        Asked::QueueFull => Note::QueueFull { client, n },
        Asked::Queued => {
            desk.visitor.know(sender, desk.config.channel().seq0);
            Note::Queued { client, n }
        }
    }
}
