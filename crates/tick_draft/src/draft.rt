//! The notes and orders of a tick, as they are made.
ghost use Rattle.std.specs.Prelude.{◌≡◌, ◌<◌, ◌++◌, true, false, IfOk, OnOk, option_to_list, vec_len, vec_capacity};
ghost use Rattle.rams_model.specs.Service.{answered};
ghost use Rattle.tick_draft.specs.{new_draft, with_note, with_packet, with_end, told_end, sends, AreStepsOf};

use crate::drafting::Drafting;
use crate::step::{Step, other_step, sending_of};
use crate::steps::Steps;
use channel_parts::response::end_info;
use ram_io::NoMemory;
use rams_model::{Answer, Cause, Held, Info, Note, Order, RTX_OVERHEAD};
use std::alloc::Global;
use std::marker::Model;

// There is room at once for as many packets of the present one's size as the channel has left, up to so many.
const MOST_AT_ONCE: u64 = 256;

// And for so many notes more, of what sends no packet.
const OTHER_NOTES: usize = 16;

/// The notes and orders of a tick so far, and the bytes that the channel's budget has left.
#[derive(Drop)]
pub struct Draft {
    notes: Vec<Note>,
    orders: Vec<Order>,
    left: u64,
    /// What is done for the clients of these notes.
    steps: Steps,
}

impl Model for Draft {
    ghost use Rattle.tick_draft.specs.{Drafted, AreInStep};

    ghost Value = { Drafted };

    ghost view = { λ d. record { notes = d.notes.items; orders = d.orders.items; left = d.left } };

    ghost invariant = { λ d. AreInStep d.steps d.notes.items d.orders.items };
}

impl Draft {
    /// Nothing is noted yet.
    pub fn new(alloc: Global, left: u64) -> Draft
        ensures { result ≡ new_draft left }
    {
        Draft {
            notes: Vec::new(alloc),
            orders: Vec::new(alloc),
            left,
            steps: Steps::new(alloc),
        }
    }

    /// What the channel's budget has left.
    pub fn left(&self) -> u64
        ensures { result ≡ self.now.left }
    {
        self.left
    }

    /// Makes a note that has no order.
    pub fn note(&mut self, note: Note) -> Result<(), NoMemory>
        requires { sends note ≡ false }
        ensures { IfOk result (λ _. self.new ≡ with_note self.old note) }
    {
        self.notes.reserve(1)?;
        self.steps.push(other_step(&note))?;
        self.notes.push_reserved(note);
        Ok(())
    }

    /// Makes a note that sends the packet to the client, under this number of its retransmission stream
    /// (RFC 4588, 4).
    #[inline(always)]
    pub fn send(&mut self, note: Note, client: u64, seq: u16, held: &Held) -> Result<(), NoMemory>
        requires { sends note ≡ true }
        ensures { IfOk result (λ _. self.new ≡ with_packet self.old note client seq held.now) }
    {
        let packet = held.packet.clone()?;
        make_room(&mut self.notes, &mut self.orders, self.left, held.wire)?;
        let bytes = packet.len() as u64 + u64::from(RTX_OVERHEAD);
        self.steps.send(sending_of(bytes, &note))?;
        self.notes.push_reserved(note);
        self.orders.push_reserved(Order::Rtx {
            client,
            n: held.n,
            seq,
            packet,
        });
        self.left = self.left.saturating_sub(u64::from(held.wire));
        Ok(())
    }

    /// Notes the end of a client's burst, where there is a cause, and tells the client (RFC 6285, 7.3).
    pub fn end(&mut self, client: u64, last: &Info, cause: Option<Cause>) -> Result<(), NoMemory>
        ensures { IfOk result (λ _. self.new ≡ with_end self.old client last.now cause) }
    {
        let Some(cause) = cause else {
            return Ok(());
        };
        self.notes.reserve(1)?;
        self.orders.reserve(1)?;
        self.steps.push(Some(Step::End { client }))?;
        self.notes.push_reserved(Note::End { client, cause });
        push_order(&mut self.orders, end_order(client, cause, last));
        Ok(())
    }

    /// The answer that was drafted, and what is done for its clients.
    pub fn finish(self) -> Result<(Answer, Vec<Step>), NoMemory>
        ensures answer { IfOk result (λ drafted. drafted.0 ≡ answered self.notes self.orders) }
        ensures steps { IfOk result (λ drafted. AreStepsOf drafted.1.items drafted.0) }
    {
        let steps = self.steps.finish()?;
        Ok((Answer::new(self.notes, self.orders), steps))
    }
}

impl Drafting for Draft {
    ghost shows = { λ drafted d. drafted ≡ d };

    #[inline(always)]
    fn send_packet(
        &mut self,
        note: Note,
        client: u64,
        seq: u16,
        held: &Held,
    ) -> Result<(), NoMemory> {
        self.send(note, client, seq, held)
    }

    fn end_burst(
        &mut self,
        client: u64,
        last: &Info,
        cause: Option<Cause>,
    ) -> Result<(), NoMemory> {
        self.end(client, last, cause)
    }
}

/// Room for one note and one order more. Where it is missing, it is taken at once for what packets of `wire`
/// bytes may follow while the channel has so much left.
fn make_room(
    notes: &mut Vec<Note>,
    orders: &mut Vec<Order>,
    left: u64,
    wire: u32,
) -> Result<(), NoMemory>
    ensures notes { notes.new.items ≡ notes.old.items }
    ensures orders { orders.new.items ≡ orders.old.items }
    ensures note { OnOk result (vec_len notes.new < vec_capacity notes.new) }
    ensures order { OnOk result (vec_len orders.new < vec_capacity orders.new) }
{
    if notes.len() < notes.capacity() && orders.len() < orders.capacity() {
        return Ok(());
    }
    let packets = left / u64::from(wire.max(1));
    let room = packets.min(MOST_AT_ONCE).max(1) as usize;
    notes.reserve(room + OTHER_NOTES)?;
    orders.reserve(room)?;
    Ok(())
}

/// An order more, where there is one. There is room.
fn push_order(orders: &mut Vec<Order>, order: Option<Order>)
    requires { vec_len orders.old < vec_capacity orders.old }
    ensures { orders.new.items ≡ orders.old.items ++ option_to_list order }
{
    if let Some(order) = order {
        orders.push_reserved(order);
    }
}

/// What a client is told of the end of its burst (RFC 6285, 7.3), after what it was told last.
fn end_order(client: u64, cause: Cause, last: &Info) -> Option<Order>
    ensures { result ≡ told_end client cause last.now }
{
    let info = end_info(last, cause)?;
    Some(Order::Info { client, info })
}
