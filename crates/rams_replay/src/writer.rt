//! The lines of answers on their way to the sink, note by note.
ghost use Rattle.std.specs.Prelude.{ℕ, ◌+◌, ◌++◌, IfErr, OnOk, length};
ghost use Rattle.std.specs.List.{flat_map};
ghost use Rattle.line_io.specs.Passes.{Passes};
ghost use Rattle.rams_model.specs.Texts.{answer_text};
ghost use Rattle.server_hub.specs.{told};
ghost use Rattle.book_text.specs.{no_channel_line};
ghost use Rattle.trace_loop.specs.{IsStoppedByWrite, OnlyMemoryStops, StopsIn};
ghost use Rattle.book_text.specs.answer_text.{entry_text};
ghost use Rattle.rams_replay.specs.{told_text, at_text};

use book_text::answer_text::{Orders, append_entry};
use book_text::append_no_channel;
use ram_io::Sink;
use rams_model::{Answer, Note};
use server_hub::{At, Config, Hub, HubAnswer};
use trace_loop::{Stop, Writer, settle};

/// Adds the lines of an answer: each note, followed at once by the datagram that it asks for.
fn write_answer<K: Sink>(
    writer: &mut Writer,
    sink: &mut K,
    config: &Config,
    event: u64,
    answer: &Answer,
) -> Result<(), Stop>
    ensures all { OnOk result (Passes (K.held sink.old) (K.held sink.new) (writer.old.gather ++ answer_text config.now event answer.now) writer.new.gather) }
    ensures front { IfErr result (StopsIn (K.held sink.old) (K.held sink.new) (writer.old.gather ++ answer_text config.now event answer.now) writer.new.gather) }
    ensures cause { IsStoppedByWrite (K.faults sink.old) (K.faults sink.new) result }
    ensures steady { (room : ℕ) → K.is_steady sink.old (length writer.old.gather + length (answer_text config.now event answer.now) + room)
        → OnlyMemoryStops result (K.is_steady sink.new (length writer.new.gather + room)) }
{
    let mut orders = Orders::of(&answer.orders);
    for note in answer.notes.iter() {
        write_entry(writer, sink, config, event, note, &orders)?;
        orders.pass(note);
    }
    Ok(())
}

/// Adds the lines of one note; `orders` are those of this note and of the notes after it.
fn write_entry<K: Sink>(
    writer: &mut Writer,
    sink: &mut K,
    config: &Config,
    event: u64,
    note: &Note,
    orders: &Orders<'_>,
) -> Result<(), Stop>
    ensures all { OnOk result (Passes (K.held sink.old) (K.held sink.new) (writer.old.gather ++ entry_text config.now event note.now orders.now) writer.new.gather) }
    ensures front { IfErr result (StopsIn (K.held sink.old) (K.held sink.new) (writer.old.gather ++ entry_text config.now event note.now orders.now) writer.new.gather) }
    ensures cause { IsStoppedByWrite (K.faults sink.old) (K.faults sink.new) result }
    ensures steady { (room : ℕ) → K.is_steady sink.old (length writer.old.gather + length (entry_text config.now event note.now orders.now) + room)
        → OnlyMemoryStops result (K.is_steady sink.new (length writer.new.gather + room)) }
{
    append_entry(
        &mut writer.pen,
        writer.gather.text(),
        &mut writer.datagram,
        config,
        event,
        note,
        orders,
    )?;
    settle(&mut writer.gather, sink)
}

/// Adds the lines of what one channel answers.
fn write_at<K: Sink>(
    writer: &mut Writer,
    sink: &mut K,
    hub: &Option<Hub>,
    event: u64,
    at: &At,
) -> Result<(), Stop>
    ensures all { OnOk result (Passes (K.held sink.old) (K.held sink.new) (writer.old.gather ++ at_text hub.now event at.now) writer.new.gather) }
    ensures front { IfErr result (StopsIn (K.held sink.old) (K.held sink.new) (writer.old.gather ++ at_text hub.now event at.now) writer.new.gather) }
    ensures cause { IsStoppedByWrite (K.faults sink.old) (K.faults sink.new) result }
    ensures steady { (room : ℕ) → K.is_steady sink.old (length writer.old.gather + length (at_text hub.now event at.now) + room)
        → OnlyMemoryStops result (K.is_steady sink.new (length writer.new.gather + room)) }
{
    let Some(hub) = hub else { return Ok(()) };
    match hub.config(at.id) {
        Some(config) => write_answer(writer, sink, config, event, &at.answer),
        None => Ok(()),
    }
}

/// Adds the lines of what the channels answer, one after another.
fn write_all<K: Sink>(
    writer: &mut Writer,
    sink: &mut K,
    hub: &Option<Hub>,
    event: u64,
    all: &[At],
) -> Result<(), Stop>
    ensures all { OnOk result (Passes (K.held sink.old) (K.held sink.new) (writer.old.gather ++ flat_map (at_text hub.now event) all.now) writer.new.gather) }
    ensures front { IfErr result (StopsIn (K.held sink.old) (K.held sink.new) (writer.old.gather ++ flat_map (at_text hub.now event) all.now) writer.new.gather) }
    ensures cause { IsStoppedByWrite (K.faults sink.old) (K.faults sink.new) result }
    ensures steady { (room : ℕ) → K.is_steady sink.old (length writer.old.gather + length (flat_map (at_text hub.now event) all.now) + room)
        → OnlyMemoryStops result (K.is_steady sink.new (length writer.new.gather + room)) }
{
    for at in all.iter() {
        write_at(writer, sink, hub, event, at)?;
    }
    Ok(())
}

/// Adds the line of an event of a channel that isn't there.
fn write_no_channel<K: Sink>(
    writer: &mut Writer,
    sink: &mut K,
    event: u64,
    id: u16,
) -> Result<(), Stop>
    ensures all { OnOk result (Passes (K.held sink.old) (K.held sink.new) (writer.old.gather ++ no_channel_line event id) writer.new.gather) }
    ensures front { IfErr result (StopsIn (K.held sink.old) (K.held sink.new) (writer.old.gather ++ no_channel_line event id) writer.new.gather) }
    ensures cause { IsStoppedByWrite (K.faults sink.old) (K.faults sink.new) result }
    ensures steady { (room : ℕ) → K.is_steady sink.old (length writer.old.gather + length (no_channel_line event id) + room)
        → OnlyMemoryStops result (K.is_steady sink.new (length writer.new.gather + room)) }
{
    append_no_channel(writer.gather.text(), event, id)?;
    settle(&mut writer.gather, sink)
}

/// Adds the lines of what the channels say to an event.
#[tactic(auto, using(crate::proofs::Telling::one_is_told))]
pub fn write_said<K: Sink>(
    writer: &mut Writer,
    sink: &mut K,
    hub: &Option<Hub>,
    event: u64,
    answer: &HubAnswer,
) -> Result<(), Stop>
    ensures all { OnOk result (Passes (K.held sink.old) (K.held sink.new) (writer.old.gather ++ told_text hub.now event (told answer.now)) writer.new.gather) }
    ensures front { IfErr result (StopsIn (K.held sink.old) (K.held sink.new) (writer.old.gather ++ told_text hub.now event (told answer.now)) writer.new.gather) }
    ensures cause { IsStoppedByWrite (K.faults sink.old) (K.faults sink.new) result }
    ensures steady { (room : ℕ) → K.is_steady sink.old (length writer.old.gather + length (told_text hub.now event (told answer.now)) + room)
        → OnlyMemoryStops result (K.is_steady sink.new (length writer.new.gather + room)) }
{
    match answer {
        HubAnswer::NoChannel(id) => write_no_channel(writer, sink, event, *id),
        HubAnswer::Answer(at) => write_at(writer, sink, hub, event, at),
        HubAnswer::Answers(all) => write_all(writer, sink, hub, event, all),
    }
}
