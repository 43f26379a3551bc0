//! The books of channels, read side by side in the order of their events.
ghost use Rattle.std.specs.Prelude.{◌≡◌, ◌++◌, ◌==◌, IfOk, OnErr, OnOk};
ghost use Rattle.std.specs.Io.{StartsWith};
ghost use Rattle.std.specs.List.{flat_map, list_any};
ghost use Rattle.pool.specs.declared.pool_loop.routes.Route.TheVariants.{To};
ghost use Rattle.pool.specs.pool_loop.{all_left, all_past, heard_text, left_of, next_text, number_of, past, route_text, turned, unheard_text};

use crate::pool_loop::routes::{Route, reaches};
use book_text::answer_text::append_answer;
use book_text::{Pen, append_no_channel};
use channel_book::{Book, Entry};
use channel_config::Config;
use ram_io::NoMemory;
use std::alloc::Global;

/// The entries of a channel's book that are still to be written.
#[derive(Drop)]
pub(crate) struct Unwritten<'a> {
    config: &'a Config,
    entries: &'a [Entry],
}

/// All entries of each book.
pub(crate) fn whole_books(alloc: Global, books: &[Book]) -> Result<Vec<Unwritten<'_>>, NoMemory>
    ensures { IfOk result (λ left. all_left left.items ≡ books.now) }
{
    let mut left = Vec::with_capacity(alloc, books.len())?;
    for book in books {
        left.push(Unwritten {
            config: book.config(),
            entries: book.entries(),
        })?;
    }
    Ok(left)
}

/// Appends what a book has for the event of this number, its next, and goes past it. The datagrams are
/// made in `room`.
fn append_next(
    pen: &mut Pen,
    text: &mut Vec<u8>,
    room: &mut Vec<u8>,
    left: &mut Unwritten<'_>,
    event: u64,
) -> Result<(), NoMemory>
    ensures text { OnOk result (text.new.items ≡ text.old.items ++ next_text event (left_of left.old)) }
    ensures front { StartsWith text.new.items text.old.items }
    ensures left { OnOk result (left_of left.new ≡ turned (left_of left.old)) }
{
    if let [entry, later @ ..] = left.entries {
        append_answer(pen, text, room, left.config, event, &entry.answer)?;
        left.entries = later;
    }
    Ok(())
}

/// The same, where the event goes to the book's channel.
fn append_heard(
    pen: &mut Pen,
    text: &mut Vec<u8>,
    room: &mut Vec<u8>,
    left: &mut Unwritten<'_>,
    event: u64,
    route: Route,
) -> Result<(), NoMemory>
    ensures text { OnOk result (text.new.items ≡ text.old.items ++ heard_text event route (left_of left.old)) }
    ensures front { StartsWith text.new.items text.old.items }
    ensures left { OnOk result (left_of left.new ≡ past route (left_of left.old)) }
{
    if reaches(route, left.config.channel().id) {
        append_next(pen, text, room, left, event)?;
    }
    Ok(())
}

/// The same for each book.
fn append_all(
    pen: &mut Pen,
    text: &mut Vec<u8>,
    room: &mut Vec<u8>,
    left: &mut [Unwritten<'_>],
    event: u64,
    route: Route,
) -> Result<(), NoMemory>
    ensures text { OnOk result (text.new.items ≡ text.old.items ++ flat_map (heard_text event route) (all_left left.old)) }
    ensures front { StartsWith text.new.items text.old.items }
    ensures left { OnOk result (all_left left.new ≡ all_past route (all_left left.old)) }
{
    for place in 0..left.len() {
        append_heard(pen, text, room, &mut left[place], event, route)?;
    }
    Ok(())
}

/// Whether one of the channels has this number.
fn has_number(left: &[Unwritten<'_>], id: u16) -> bool
    ensures { result ≡ list_any (λ u. number_of (left_of u) == id) left.now }
{
    left.iter().any(|u| u.config.channel().id == id)
}

/// Appends the line of an event that names this number, where no channel has it.
fn append_unknown(
    text: &mut Vec<u8>,
    left: &[Unwritten<'_>],
    event: u64,
    id: u16,
) -> Result<(), NoMemory>
    ensures text { OnOk result (text.new.items ≡ text.old.items ++ unheard_text event (To id) (all_left left.now)) }
    ensures err { OnErr result (text.new.items ≡ text.old.items) }
{
    if has_number(left, id) {
        return Ok(());
    }
    append_no_channel(text, event, id)
}

/// The same of an event that goes there.
fn append_unheard(
    text: &mut Vec<u8>,
    left: &[Unwritten<'_>],
    event: u64,
    route: Route,
) -> Result<(), NoMemory>
    ensures text { OnOk result (text.new.items ≡ text.old.items ++ unheard_text event route (all_left left.now)) }
    ensures err { OnErr result (text.new.items ≡ text.old.items) }
{
    match route {
        Route::To(id) => append_unknown(text, left, event, id),
        Route::Everyone => Ok(()),
    }
}

/// Appends the lines of the event of this number, which goes there, and goes past it in each book that
/// has it. An error changes nothing of the text.
pub(crate) fn append_event(
    pen: &mut Pen,
    text: &mut Vec<u8>,
    room: &mut Vec<u8>,
    left: &mut [Unwritten<'_>],
    event: u64,
    route: Route,
) -> Result<(), NoMemory>
    ensures text { OnOk result (text.new.items ≡ text.old.items ++ route_text event route (all_left left.old)) }
    ensures left { OnOk result (all_left left.new ≡ all_past route (all_left left.old)) }
    ensures err { OnErr result (text.new.items ≡ text.old.items) }
{
    let start = text.len();
    let appended = append_routed(pen, text, room, left, event, route);
    if appended.is_err() {
        text.truncate(start);
    }
    appended
}

/// The same, where an error leaves the first lines.
fn append_routed(
    pen: &mut Pen,
    text: &mut Vec<u8>,
    room: &mut Vec<u8>,
    left: &mut [Unwritten<'_>],
    event: u64,
    route: Route,
) -> Result<(), NoMemory>
    ensures text { OnOk result (text.new.items ≡ text.old.items ++ route_text event route (all_left left.old)) }
    ensures left { OnOk result (all_left left.new ≡ all_past route (all_left left.old)) }
    ensures front { StartsWith text.new.items text.old.items }
{
    append_unheard(text, left, event, route)?;
    append_all(pen, text, room, left, event, route)
}
