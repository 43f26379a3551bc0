//! Copies of answers.
ghost use Rattle.std.specs.Prelude.{◌≡◌, ◌+◌, ◌≤◌, [], length, vec_len, vec_capacity, All, IfOk};
ghost use Rattle.server_hub.specs.session_core.{IsInfo, TellsAlone};

use ram_io::NoMemory;
use rams_model::{Answer, Note, Order};
use std::alloc::Global;

/// The order again. Its packet is shared.
fn copy_order(order: &Order) -> Result<Order, NoMemory>
    ensures { IfOk result (λ copy. copy ≡ order.now) }
{
    match order {
        Order::Rtx {
            client,
            n,
            seq,
            packet,
        } => Ok(Order::Rtx {
            client: *client,
            n: *n,
            seq: *seq,
            packet: packet.clone()?,
        }),
        Order::Info { .. } => Ok(copy_info(order)),
    }
}

/// A RAMS-I again, which takes no memory.
fn copy_info(order: &Order) -> Order
    requires { IsInfo order.now }
    ensures { result ≡ order.now }
{
    match order {
        Order::Rtx { .. } => unreachable!(),
        Order::Info { client, info } => Order::Info {
            client: *client,
            info: *info,
        },
    }
}

fn copy_orders(alloc: Global, orders: &[Order]) -> Result<Vec<Order>, NoMemory>
    ensures { IfOk result (λ copy. copy.items ≡ orders.now) }
{
    let mut copy = Vec::with_capacity(alloc, orders.len())?;
    for order in orders {
        copy.push(copy_order(order)?)?;
    }
    Ok(copy)
}

/// The answer again.
pub(crate) fn copy_answer(alloc: Global, answer: &Answer) -> Result<Answer, NoMemory>
    ensures { IfOk result (λ copy. copy ≡ answer.now) }
{
    let notes = answer.notes.to_vec(alloc)?;
    let orders = copy_orders(alloc, &answer.orders)?;
    Ok(Answer::new(notes, orders))
}

/// The answer again, where it has one note at most and sends nothing. It takes no memory.
pub(crate) fn copy_small(alloc: Global, answer: &Answer) -> Answer
    requires few { length answer.now.notes ≤ 1 }
    requires silent { answer.now.orders ≡ [] }
    ensures { result ≡ answer.now }
{
    match answer.notes.as_slice() {
        [note] => Answer::one(alloc, *note),
        _ => Answer::new(Vec::new(alloc), Vec::new(alloc)),
    }
}

/// Room for a copy of an answer that sends no packet.
#[derive(Drop)]
pub(crate) struct Room {
    pub notes: Vec<Note>,
    pub orders: Vec<Order>,
}

impl Room {
    pub fn new(alloc: Global, notes: usize, orders: usize) -> Result<Room, NoMemory>
        ensures empty { IfOk result (λ room. (room.notes.items ≡ []) × (room.orders.items ≡ [])) }
        ensures counts { IfOk result (λ room. (vec_len room.notes ≡ 0) × (vec_len room.orders ≡ 0)) }
        ensures room { IfOk result (λ room. (notes ≤ vec_capacity room.notes) × (orders ≤ vec_capacity room.orders)) }
    {
        Ok(Room {
            notes: Vec::with_capacity(alloc, notes)?,
            orders: Vec::with_capacity(alloc, orders)?,
        })
    }

    /// The answer again, for which there is room. It takes no memory, and gives back what is too much.
    pub fn copy(mut self, answer: &Answer) -> Answer
        requires empty { (self.notes.items ≡ []) × (self.orders.items ≡ []) }
        requires counts { (vec_len self.notes ≡ 0) × (vec_len self.orders ≡ 0) }
        requires room { (length answer.now.notes ≤ vec_capacity self.notes) × (length answer.now.orders ≤ vec_capacity self.orders) }
        requires told { TellsAlone answer.now }
        ensures { result ≡ answer.now }
    {
        self.notes.extend_from_slice(&answer.notes).unwrap();
        self.notes.shrink_to_fit();
        push_infos(&mut self.orders, &answer.orders);
        self.orders.shrink_to_fit();
        Answer::new(self.notes, self.orders)
    }
}

fn push_infos(copy: &mut Vec<Order>, orders: &[Order])
    requires empty { (copy.old.items ≡ []) × (vec_len copy.old ≡ 0) }
    requires room { length orders.now ≤ vec_capacity copy.old }
    requires told { All IsInfo orders.now }
    ensures { copy.new.items ≡ orders.now }
{
    for order in orders {
        copy.push_reserved(copy_info(order));
    }
}
