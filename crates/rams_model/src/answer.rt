//! What a channel answers to an event.
ghost use Rattle.std.specs.Prelude.{◌≡◌, [], ◌∷◌};
ghost use Rattle.rams_model.specs.Service.{answered};

use crate::message::Info;
use crate::note::Note;
use crate::notes::Notes;
use bytes::Bytes;
use std::alloc::Global;
use std::marker::Model;

/// A datagram that an answer asks to send.
#[derive(Drop)]
pub enum Order {
    /// The retransmission of this packet (RFC 4588).
    Rtx {
        client: u64,
        n: u64,
        seq: u16,
        packet: Bytes,
    },
    /// A RAMS-I message.
    Info {
        client: u64,
        info: Info,
    },
}

/// The notes of an event, in order, and the datagrams that they ask for, in the notes' order.
#[derive(Drop)]
pub struct Answer {
    pub notes: Notes,
    pub orders: Vec<Order>,
}

impl Model for Answer {
    ghost use Rattle.rams_model.specs.Service.{Answered};

    ghost Value = { Answered };

    ghost view = { λ a. record { notes = a.notes; orders = a.orders.items } };
}

impl Answer {
    /// Takes no memory.
    pub fn new(notes: Vec<Note>, orders: Vec<Order>) -> Answer
        ensures { result ≡ answered notes.items orders.items }
    {
        Answer {
            notes: Notes::from_vec(notes),
            orders,
        }
    }

    /// The answer of one note that sends nothing. Takes no memory.
    pub fn one(alloc: Global, note: Note) -> Answer
        ensures { result ≡ answered (note ∷ []) [] }
    {
        Answer {
            notes: Notes::one(note),
            orders: Vec::new(alloc),
        }
    }
}
