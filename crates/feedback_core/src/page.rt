//! The notes of a datagram, and what its client is told.
ghost use Rattle.std.specs.Prelude.{◌≡◌, ◌+◌, ◌≤◌, [], ◌++◌, None, true, IfOk, option_map, option_to_list, ◌&&◌, ◌||◌, not, length, vec_len, vec_capacity};
ghost use Rattle.rams_model.specs.Service.{is_rams, answered, info_order};
ghost use Rattle.feedback_core.specs.{shown_message, said_notes, or_info, told_by};

use crate::framing::Message;
use crate::pad::Pad;
use crate::said::Said;
use client_table::Info;
use ram_io::NoMemory;
use rams_model::{Answer, Note, Order};
use std::alloc::Global;

/// What was noted so far. There is room for all notes of the datagram.
#[derive(Drop)]
pub(crate) struct Page {
    pub notes: Pad,
    /// What the client is told.
    pub info: Option<Info>,
    /// Whether a RAMS message is still answered: the first one is, and no other.
    pub is_due: bool,
}

impl Page {
    /// Nothing is written yet; there is room for so many notes.
    pub fn new(alloc: Global, most: usize) -> Result<Page, NoMemory>
        ensures notes { IfOk result (λ page. page.notes.items ≡ []) }
        ensures room { IfOk result (λ page. most ≤ page.notes.room) }
        ensures info { IfOk result (λ page. page.info ≡ None) }
        ensures due { IfOk result (λ page. page.is_due ≡ true) }
    {
        Ok(Page {
            notes: Pad::new(alloc, most)?,
            info: None,
            is_due: true,
        })
    }

    /// The answer, in whose empty list of orders there is room for what the client is told.
    pub fn finish(self, alloc: Global, client: u64, mut orders: Vec<Order>) -> Answer
        requires empty { orders.items ≡ [] }
        requires count { vec_len orders ≡ 0 }
        requires room { told_by self ≤ vec_capacity orders }
        ensures { result ≡ answered self.notes.items (option_to_list (option_map (info_order client) self.info)) }
    {
        if let Some(info) = self.info {
            orders.push_reserved(Order::Info { client, info });
        }
        Answer {
            notes: self.notes.finish(alloc),
            orders,
        }
    }

    /// Whether the message is answered.
    pub fn takes(&mut self, message: &Message<'_>) -> bool
        ensures takes { result ≡ (not (is_rams (shown_message message.now)) || self.old.is_due) }
        ensures due { self.new ≡ record self.old { is_due = self.old.is_due && not (is_rams (shown_message message.now)) } }
    {
        if !message.is_rams() {
            return true;
        }
        let is_due = self.is_due;
        self.is_due = false;
        is_due
    }

    /// Writes the notes of a message, and what the client is told of it.
    pub fn write(&mut self, client: u64, said: &Said)
        requires { length self.old.notes.items + length (said_notes client said.now []) ≤ self.old.notes.room }
        ensures notes { self.new.notes.items ≡ self.old.notes.items ++ said_notes client said.now [] }
        ensures few { length self.new.notes.items ≡ length self.old.notes.items + length (said_notes client said.now []) }
        ensures room { self.new.notes.room ≡ self.old.notes.room }
        ensures info { self.new.info ≡ or_info said.now.info self.old.info }
        ensures due { self.new.is_due ≡ self.old.is_due }
    {
        self.notes.push(said.note);
        if let Some(cause) = said.end {
            self.notes.push(Note::End { client, cause });
        }
        if said.info.is_some() {
            self.info = said.info;
        }
    }
}
