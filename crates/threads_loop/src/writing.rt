//! The trace of what came of the lists, and its book.
ghost use Rattle.std.specs.Prelude.{◌≡◌, ◌+◌, ◌++◌, ℕ, List, [], map, IfErr, IfOk, OnOk, length};
ghost use Rattle.std.specs.Io.KnownBytes.{Appends};
ghost use Rattle.line_io.specs.Passes.{Passes};
ghost use Rattle.rams_model.specs.declared.Status.TheVariants.{Done};
ghost use Rattle.threads_loop.specs.session_worker.live_writer.{datagrams_of};
ghost use Rattle.threads_loop.specs.session_worker.{answered_with};
ghost use Rattle.trace_loop.specs.trace_book.trace_serving.{done};
ghost use Rattle.trace_loop.specs.{IsStoppedByWrite, OnlyMemoryStops, StopsIn};
ghost use Rattle.threads_loop.specs.{hub_event, part_text, piece_text, written_text};
ghost use Rattle.trace_loop.specs.journal_book.{event_line};
ghost use Rattle.rams_model.specs.Texts.{answer_text};

use crate::event::heard_at;
use book_text::answer_text::append_answer_with;
use book_text::{Pen, append_count};
use channel_book::Entry;
use channel_config::Config;
use line_io::Gather;
use ram_io::{NoMemory, Octets, Sink};
use rams_model::{Answer, Event, Status};
use std::alloc::Global;
use trace_loop::journal_book::event_text::append_event;
use trace_loop::{Stop, flush, put, settle};

/// The text that waits for the sink, and what writes the lines of notes.
#[derive(Drop)]
struct Writer {
    gather: Gather,
    pen: Pen,
}

/// What is written for each entry.
#[derive(Clone, Copy, PartialEq, Eq)]
enum Part {
    /// Its event's line.
    Trace,
    /// Its answer's lines.
    Book,
}

/// A writer with which nothing waits.
fn new_writer(alloc: Global) -> Result<Writer, NoMemory>
    ensures { IfOk result (λ writer. writer.gather ≡ []) }
{
    Ok(Writer {
        gather: Gather::new(alloc)?,
        pen: Pen::new(),
    })
}

/// Adds the line of an event of the channel.
fn write_event<K: Sink>(
    writer: &mut Writer,
    sink: &mut K,
    id: u16,
    event: &Event,
) -> Result<(), Stop>
    ensures all { OnOk result (Passes (K.held sink.old) (K.held sink.new) (writer.old.gather ++ event_line (hub_event id event.now)) writer.new.gather) }
    ensures front { IfErr result (StopsIn (K.held sink.old) (K.held sink.new) (writer.old.gather ++ event_line (hub_event id event.now)) writer.new.gather) }
    ensures cause { IsStoppedByWrite (K.faults sink.old) (K.faults sink.new) result }
    ensures steady { (room : ℕ) → K.is_steady sink.old (length writer.old.gather + length (event_line (hub_event id event.now)) + room)
        → OnlyMemoryStops result (K.is_steady sink.new (length writer.new.gather + room)) }
{
    append_event(writer.gather.text(), heard_at(id, event))?;
    settle(&mut writer.gather, sink)
}

/// Adds the lines of an answer, whose datagrams these are.
fn write_answer<K: Sink>(
    writer: &mut Writer,
    sink: &mut K,
    config: &Config,
    event: u64,
    answer: &Answer,
    datagrams: &[Octets],
) -> Result<(), Stop>
    requires { datagrams.now ≡ datagrams_of config.now answer.now }
    ensures all { OnOk result (Passes (K.held sink.old) (K.held sink.new) (writer.old.gather ++ answer_text config.now event answer.now) writer.new.gather) }
    ensures front { IfErr result (StopsIn (K.held sink.old) (K.held sink.new) (writer.old.gather ++ answer_text config.now event answer.now) writer.new.gather) }
    ensures cause { IsStoppedByWrite (K.faults sink.old) (K.faults sink.new) result }
    ensures steady { (room : ℕ) → K.is_steady sink.old (length writer.old.gather + length (answer_text config.now event answer.now) + room)
        → OnlyMemoryStops result (K.is_steady sink.new (length writer.new.gather + room)) }
{
    append_answer_with(
        &mut writer.pen,
        writer.gather.text(),
        config,
        event,
        answer,
        datagrams,
    )?;
    settle(&mut writer.gather, sink)
}

/// Adds what is written for an entry.
fn write_piece<K: Sink>(
    writer: &mut Writer,
    sink: &mut K,
    config: &Config,
    part: Part,
    event: u64,
    entry: &Entry,
    datagrams: &[Octets],
) -> Result<(), Stop>
    requires { datagrams.now ≡ datagrams_of config.now entry.now.answer }
    ensures all { OnOk result (Passes (K.held sink.old) (K.held sink.new) (writer.old.gather ++ piece_text config.now part event entry.now) writer.new.gather) }
    ensures front { IfErr result (StopsIn (K.held sink.old) (K.held sink.new) (writer.old.gather ++ piece_text config.now part event entry.now) writer.new.gather) }
    ensures cause { IsStoppedByWrite (K.faults sink.old) (K.faults sink.new) result }
    ensures steady { (room : ℕ) → K.is_steady sink.old (length writer.old.gather + length (piece_text config.now part event entry.now) + room)
        → OnlyMemoryStops result (K.is_steady sink.new (length writer.new.gather + room)) }
{
    match part {
        Part::Trace => write_event(writer, sink, config.channel().id, &entry.event),
        Part::Book => write_answer(writer, sink, config, event, &entry.answer, datagrams),
    }
}

/// Adds what is written for the entries; they are counted from 1.
fn write_part<K: Sink>(
    writer: &mut Writer,
    sink: &mut K,
    config: &Config,
    part: Part,
    entries: &[Entry],
    drawn: &[Vec<Octets>],
) -> Result<(), Stop>
    requires { map (λ d. d.items) drawn.now ≡ answered_with config.now entries.now }
    ensures all { OnOk result (Passes (K.held sink.old) (K.held sink.new) (writer.old.gather ++ part_text config.now part 1 entries.now) writer.new.gather) }
    ensures front { IfErr result (StopsIn (K.held sink.old) (K.held sink.new) (writer.old.gather ++ part_text config.now part 1 entries.now) writer.new.gather) }
    ensures cause { IsStoppedByWrite (K.faults sink.old) (K.faults sink.new) result }
    ensures steady { (room : ℕ) → K.is_steady sink.old (length writer.old.gather + length (part_text config.now part 1 entries.now) + room)
        → OnlyMemoryStops result (K.is_steady sink.new (length writer.new.gather + room)) }
{
    for place in 0..entries.len() {
        let event = place as u64 + 1;
        let datagrams = drawn[place].as_slice();
        write_piece(
            writer,
            sink,
            config,
            part,
            event,
            &entries[place],
            datagrams,
        )?;
    }
    Ok(())
}

/// Adds the line of the end of a book of so many events.
fn write_done<K: Sink>(writer: &mut Writer, sink: &mut K, events: u64) -> Result<(), Stop>
    ensures all { OnOk result (Passes (K.held sink.old) (K.held sink.new) (writer.old.gather ++ (done events).text) writer.new.gather) }
    ensures front { IfErr result (StopsIn (K.held sink.old) (K.held sink.new) (writer.old.gather ++ (done events).text) writer.new.gather) }
    ensures cause { IsStoppedByWrite (K.faults sink.old) (K.faults sink.new) result }
    ensures steady { (room : ℕ) → K.is_steady sink.old (length writer.old.gather + length (done events).text + room)
        → OnlyMemoryStops result (K.is_steady sink.new (length writer.new.gather + room)) }
{
    append_count(writer.gather.text(), b"done", events)?;
    settle(&mut writer.gather, sink)
}

/// Adds a trace, and then its book.
fn write_parts<K: Sink>(
    writer: &mut Writer,
    sink: &mut K,
    config: &Config,
    head: &[u8],
    entries: &[Entry],
    drawn: &[Vec<Octets>],
) -> Result<(), Stop>
    requires { map (λ d. d.items) drawn.now ≡ answered_with config.now entries.now }
    ensures all { OnOk result (Passes (K.held sink.old) (K.held sink.new) (writer.old.gather ++ written_text config.now head.now entries.now) writer.new.gather) }
    ensures front { IfErr result (StopsIn (K.held sink.old) (K.held sink.new) (writer.old.gather ++ written_text config.now head.now entries.now) writer.new.gather) }
    ensures cause { IsStoppedByWrite (K.faults sink.old) (K.faults sink.new) result }
    ensures steady { (room : ℕ) → K.is_steady sink.old (length writer.old.gather + length (written_text config.now head.now entries.now) + room)
        → OnlyMemoryStops result (K.is_steady sink.new (length writer.new.gather + room)) }
{
    put(&mut writer.gather, sink, head)?;
    write_part(writer, sink, config, Part::Trace, entries, drawn)?;
    put(&mut writer.gather, sink, b"end\nrams-book 1\n")?;
    write_part(writer, sink, config, Part::Book, entries, drawn)?;
    write_done(writer, sink, entries.len() as u64)
}

/// Writes a trace: the lines of its head, those of the entries' events, and `end`; and then its book.
pub(crate) fn write_worked<K: Sink>(
    alloc: Global,
    sink: &mut K,
    config: &Config,
    head: &[u8],
    entries: &[Entry],
    drawn: &[Vec<Octets>],
) -> Result<Status, Stop>
    requires { map (λ d. d.items) drawn.now ≡ answered_with config.now entries.now }
    ensures status { IfOk result (λ status. status ≡ Done) }
    ensures text { OnOk result (Appends (K.held sink.old) (K.held sink.new) (written_text config.now head.now entries.now)) }
    ensures front { (rest : List ℕ) × Passes (K.held sink.old) (K.held sink.new) (written_text config.now head.now entries.now) rest }
    ensures cause { IsStoppedByWrite (K.faults sink.old) (K.faults sink.new) result }
    ensures steady { K.is_steady sink.old (length (written_text config.now head.now entries.now)) → OnlyMemoryStops result (Unit {0}) }
{
    let mut writer = new_writer(alloc)?;
    write_parts(&mut writer, sink, config, head, entries, drawn)?;
    flush(&mut writer.gather, sink)?;
    Ok(Status::Done)
}
