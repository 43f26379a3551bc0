//! The lines of one note: its own, and that of the datagram that it asks for.
ghost use Rattle.std.specs.Prelude.{◌≡◌, ◌++◌, OnErr, OnOk, map};
ghost use Rattle.rams_model.specs.Service.{datagram};
ghost use Rattle.book_text.specs.answer_text.{entry_text};

use crate::Pen;
use crate::answer_text::asking::asks;
use crate::answer_text::orders::Orders;
use crate::order_datagrams::{Config, append_order_if, client_of};
use ram_io::NoMemory;
use rams_model::{Note, Octets, Order};

/// Appends the lines of a note, at the event of this number; `orders` are those of this note and of the
/// notes after it. The datagram is made in `room`. An error changes nothing of the text.
pub fn append_entry(
    pen: &mut Pen,
    text: &mut Vec<u8>,
    room: &mut Vec<u8>,
    config: &Config,
    event: u64,
    note: &Note,
    orders: &Orders<'_>,
) -> Result<(), NoMemory>
    ensures text { OnOk result (text.new.items ≡ text.old.items ++ entry_text config.now event note.now orders.now) }
    ensures err { OnErr result (text.new.items ≡ text.old.items) }
{
    let id = config.channel().id;
    match orders.asked(note) {
        Some((order, plain)) => {
            room.clear();
            append_order_if(plain, room, config, order)?;
            pen.append_told(text, event, id, note, client_of(order), room)
        }
        None => pen.append_note(text, event, id, note),
    }
}

/// Appends the lines of a note whose datagram is made already: the orders are those of this note and of
/// the notes after it, and so are their datagrams. An error changes nothing of the text.
pub(crate) fn append_entry_with(
    pen: &mut Pen,
    text: &mut Vec<u8>,
    config: &Config,
    event: u64,
    note: &Note,
    orders: &[Order],
    made: &[Octets],
) -> Result<(), NoMemory>
    requires { made.now ≡ map (datagram config.now) orders.now }
    ensures text { OnOk result (text.new.items ≡ text.old.items ++ entry_text config.now event note.now orders.now) }
    ensures err { OnErr result (text.new.items ≡ text.old.items) }
{
    let id = config.channel().id;
    match (asks(note), orders, made) {
        (true, [order, ..], [bytes, ..]) => {
            pen.append_told(text, event, id, note, client_of(order), bytes.bytes())
        }
        _ => pen.append_note(text, event, id, note),
    }
}
