//! The book of a trace and the ledger of its link, on their way to the sink.
ghost use Rattle.std.specs.Prelude.{◌≡◌, ◌+◌, ◌^◌, ◌<◌, ◌++◌, ℕ, List, IfErr, IfOk, OnOk, length};
ghost use Rattle.std.specs.Io.KnownBytes.{Appends};
ghost use Rattle.line_io.specs.Passes.{Passes};
ghost use Rattle.rams_model.specs.declared.Status.TheVariants.{Done};
ghost use Rattle.trace_loop.specs.{IsStoppedByWrite, OnlyMemoryStops, StopsIn};
ghost use Rattle.pool.specs.link_pool.{claimed};
ghost use Rattle.pool.specs.pool_loop.{all_left, all_past, closing_text, numbers_of, pooled_text, route_text, walk_text};

use crate::ledger_text::append_ledger;
use crate::pool_loop::routes::Route;
use crate::pool_loop::walking::{Unwritten, append_event, whole_books};
use crate::pool_run::{Ledger, Pooled};
use book_text::append_count;
use channel_book::Book;
use ram_io::{NoMemory, Sink};
use rams_model::Status;
use std::alloc::Global;
use trace_loop::{Stop, Writer, flush, new_writer, put, settle};

/// Adds the lines of the event of this number, which goes there.
fn write_event<K: Sink>(
    writer: &mut Writer,
    sink: &mut K,
    left: &mut [Unwritten<'_>],
    event: u64,
    route: &Route,
) -> Result<(), Stop>
    ensures left { OnOk result (all_left left.new ≡ all_past route.now (all_left left.old)) }
    ensures all { OnOk result (Passes (K.held sink.old) (K.held sink.new) (writer.old.gather ++ route_text event route.now (all_left left.old)) writer.new.gather) }
    ensures front { IfErr result (StopsIn (K.held sink.old) (K.held sink.new) (writer.old.gather ++ route_text event route.now (all_left left.old)) writer.new.gather) }
    ensures cause { IsStoppedByWrite (K.faults sink.old) (K.faults sink.new) result }
    ensures steady { (room : ℕ) → K.is_steady sink.old (length writer.old.gather + length (route_text event route.now (all_left left.old)) + room)
        → OnlyMemoryStops result (K.is_steady sink.new (length writer.new.gather + room)) }
{
    append_event(
        &mut writer.pen,
        writer.gather.text(),
        &mut writer.datagram,
        left,
        event,
        *route,
    )?;
    settle(&mut writer.gather, sink)
}

/// Adds the lines of events that go there; they are counted from 1.
fn write_events<K: Sink>(
    writer: &mut Writer,
    sink: &mut K,
    left: &mut [Unwritten<'_>],
    routes: &[Route],
) -> Result<(), Stop>
    ensures all { OnOk result (Passes (K.held sink.old) (K.held sink.new) (writer.old.gather ++ walk_text 1 routes.now (all_left left.old)) writer.new.gather) }
    ensures front { IfErr result (StopsIn (K.held sink.old) (K.held sink.new) (writer.old.gather ++ walk_text 1 routes.now (all_left left.old)) writer.new.gather) }
    ensures cause { IsStoppedByWrite (K.faults sink.old) (K.faults sink.new) result }
    ensures steady { (room : ℕ) → K.is_steady sink.old (length writer.old.gather + length (walk_text 1 routes.now (all_left left.old)) + room)
        → OnlyMemoryStops result (K.is_steady sink.new (length writer.new.gather + room)) }
{
    for place in 0..routes.len() {
        write_event(writer, sink, left, place as u64 + 1, &routes[place])?;
    }
    Ok(())
}

/// The numbers of the channels of some books.
fn ids_of(alloc: Global, books: &[Book]) -> Result<Vec<u16>, NoMemory>
    ensures { IfOk result (λ ids. ids.items ≡ numbers_of books.now) }
{
    let mut ids = Vec::with_capacity(alloc, books.len())?;
    for book in books {
        ids.push(book.config().channel().id)?;
    }
    Ok(ids)
}

/// Adds the line of the end of a book of so many events, and a ledger.
fn write_closing<K: Sink>(
    alloc: Global,
    writer: &mut Writer,
    sink: &mut K,
    events: u64,
    ids: &[u16],
    ledger: &Ledger,
) -> Result<(), Stop>
    requires few { claimed ledger.now.claims.items < 2 ^ 64 }
    ensures all { OnOk result (Passes (K.held sink.old) (K.held sink.new) (writer.old.gather ++ closing_text events ids.now ledger.now.granted ledger.now.claims.items) writer.new.gather) }
    ensures front { IfErr result (StopsIn (K.held sink.old) (K.held sink.new) (writer.old.gather ++ closing_text events ids.now ledger.now.granted ledger.now.claims.items) writer.new.gather) }
    ensures cause { IsStoppedByWrite (K.faults sink.old) (K.faults sink.new) result }
    ensures steady { (room : ℕ) → K.is_steady sink.old (length writer.old.gather + length (closing_text events ids.now ledger.now.granted ledger.now.claims.items) + room)
        → OnlyMemoryStops result (K.is_steady sink.new (length writer.new.gather + room)) }
{
    let mut lines = Vec::new(alloc);
    append_count(&mut lines, b"done", events)?;
    append_ledger(&mut lines, ids, ledger)?;
    put(&mut writer.gather, sink, &lines)
}

/// Adds the book of the events that go there, and the ledger.
fn write_parts<K: Sink>(
    alloc: Global,
    writer: &mut Writer,
    sink: &mut K,
    routes: &[Route],
    pooled: &Pooled,
) -> Result<(), Stop>
    requires few { claimed pooled.now.ledger.claims.items < 2 ^ 64 }
    ensures all { OnOk result (Passes (K.held sink.old) (K.held sink.new) (writer.old.gather ++ pooled_text routes.now pooled.now.books.items pooled.now.ledger.granted pooled.now.ledger.claims.items) writer.new.gather) }
    ensures front { IfErr result (StopsIn (K.held sink.old) (K.held sink.new) (writer.old.gather ++ pooled_text routes.now pooled.now.books.items pooled.now.ledger.granted pooled.now.ledger.claims.items) writer.new.gather) }
    ensures cause { IsStoppedByWrite (K.faults sink.old) (K.faults sink.new) result }
    ensures steady { (room : ℕ) → K.is_steady sink.old (length writer.old.gather + length (pooled_text routes.now pooled.now.books.items pooled.now.ledger.granted pooled.now.ledger.claims.items) + room)
        → OnlyMemoryStops result (K.is_steady sink.new (length writer.new.gather + room)) }
{
    let ids = ids_of(alloc, &pooled.books)?;
    let mut left = whole_books(alloc, &pooled.books)?;
    put(&mut writer.gather, sink, b"rams-book 1\n")?;
    write_events(writer, sink, &mut left, routes)?;
    write_closing(
        alloc,
        writer,
        sink,
        routes.len() as u64,
        &ids,
        &pooled.ledger,
    )
}

/// Writes the book of the trace whose events go there, and the ledger.
pub(crate) fn write_pooled<K: Sink>(
    alloc: Global,
    sink: &mut K,
    routes: &[Route],
    pooled: &Pooled,
) -> Result<Status, Stop>
    requires few { claimed pooled.now.ledger.claims.items < 2 ^ 64 }
    ensures status { IfOk result (λ status. status ≡ Done) }
    ensures text { OnOk result (Appends (K.held sink.old) (K.held sink.new) (pooled_text routes.now pooled.now.books.items pooled.now.ledger.granted pooled.now.ledger.claims.items)) }
    ensures front { (rest : List ℕ) × Passes (K.held sink.old) (K.held sink.new) (pooled_text routes.now pooled.now.books.items pooled.now.ledger.granted pooled.now.ledger.claims.items) rest }
    ensures cause { IsStoppedByWrite (K.faults sink.old) (K.faults sink.new) result }
    ensures steady { K.is_steady sink.old (length (pooled_text routes.now pooled.now.books.items pooled.now.ledger.granted pooled.now.ledger.claims.items)) → OnlyMemoryStops result (Unit {0}) }
{
    let mut writer = new_writer(alloc)?;
    write_parts(alloc, &mut writer, sink, routes, pooled)?;
    flush(&mut writer.gather, sink)?;
    Ok(Status::Done)
}
