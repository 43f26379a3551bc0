//! The lines of an answer, note by note.
ghost use Rattle.std.specs.Prelude.{◌≡◌, ◌++◌, OnErr, OnOk, drop, if◌then◌else◌, map};
ghost use Rattle.std.specs.Io.{StartsWith};
ghost use Rattle.rams_model.specs.Service.{datagram};
ghost use Rattle.rams_model.specs.Texts.{answer_text};

use crate::Pen;
use crate::answer_text::asking::asks;
use crate::answer_text::entry::{append_entry, append_entry_with};
use crate::answer_text::orders::Orders;
use crate::order_datagrams::Config;
use ram_io::NoMemory;
use rams_model::{Answer, Octets};

/// Appends the lines of an answer, to the event of this number: each note, followed at once by the
/// datagram that it asks for. The datagrams are made in `room`. An error changes nothing of the text.
pub fn append_answer(
    pen: &mut Pen,
    text: &mut Vec<u8>,
    room: &mut Vec<u8>,
    config: &Config,
    event: u64,
    answer: &Answer,
) -> Result<(), NoMemory>
    ensures text { OnOk result (text.new.items ≡ text.old.items ++ answer_text config.now event answer.now) }
    ensures err { OnErr result (text.new.items ≡ text.old.items) }
{
    let start = text.len();
    let appended = append_entries(pen, text, room, config, event, answer);
    if appended.is_err() {
        text.truncate(start);
    }
    appended
}

/// The same, where an error leaves the lines of the first notes.
fn append_entries(
    pen: &mut Pen,
    text: &mut Vec<u8>,
    room: &mut Vec<u8>,
    config: &Config,
    event: u64,
    answer: &Answer,
) -> Result<(), NoMemory>
    ensures text { OnOk result (text.new.items ≡ text.old.items ++ answer_text config.now event answer.now) }
    ensures front { StartsWith text.new.items text.old.items }
{
    let mut orders = Orders::of(&answer.orders);
    for note in answer.notes.iter() {
        append_entry(pen, text, room, config, event, note, &orders)?;
        orders.pass(note);
    }
    Ok(())
}

/// Appends the lines of an answer whose datagrams are made already. An error changes nothing of the
/// text.
pub fn append_answer_with(
    pen: &mut Pen,
    text: &mut Vec<u8>,
    config: &Config,
    event: u64,
    answer: &Answer,
    datagrams: &[Octets],
) -> Result<(), NoMemory>
    requires { datagrams.now ≡ map (datagram config.now) answer.now.orders }
    ensures text { OnOk result (text.new.items ≡ text.old.items ++ answer_text config.now event answer.now) }
    ensures err { OnErr result (text.new.items ≡ text.old.items) }
{
    let start = text.len();
    let appended = append_entries_with(pen, text, config, event, answer, datagrams);
    if appended.is_err() {
        text.truncate(start);
    }
    appended
}

/// The same, where an error leaves the lines of the first notes.
fn append_entries_with(
    pen: &mut Pen,
    text: &mut Vec<u8>,
    config: &Config,
    event: u64,
    answer: &Answer,
    datagrams: &[Octets],
) -> Result<(), NoMemory>
    requires { datagrams.now ≡ map (datagram config.now) answer.now.orders }
    ensures text { OnOk result (text.new.items ≡ text.old.items ++ answer_text config.now event answer.now) }
    ensures front { StartsWith text.new.items text.old.items }
{
    let mut orders = answer.orders.as_slice();
    let mut made = datagrams;
    for note in answer.notes.iter() {
        append_entry_with(pen, text, config, event, note, orders, made)?;
        let asks = asks(note);
        orders = behind(asks, orders);
        made = behind(asks, made);
    }
    Ok(())
}

/// What is behind the first of some, where that is taken.
fn behind<'a, T>(taken: bool, all: &'a [T]) -> &'a [T]
    ensures { result.now ≡ drop (if taken then 1 else 0) all.now }
{
    match (taken, all) {
        (true, [_, rest @ ..]) => rest,
        _ => all,
    }
}
