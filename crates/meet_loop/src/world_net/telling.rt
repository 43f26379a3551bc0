//! What is said of what channels answer, and what they send.
ghost use Rattle.std.specs.Prelude.{◌≡◌, ◌≤◌, ◌+◌, ◌∷◌, [], ◌++◌, OnOk, length, map, take, drop};
ghost use Rattle.std.specs.List.{flat_map};
ghost use Rattle.rams_model.specs.Texts.{order_count};
ghost use Rattle.server_hub.specs.{settings_of, told};
ghost use Rattle.meet_loop.specs.world_laws.{note};
ghost use Rattle.meet_loop.specs.declared.world_laws.world.WorldItem.TheVariants as item;
ghost use Rattle.meet_loop.specs.world_net.{sent_of, sent_note, note_with_sent, notes_with_sent, said_in, at_notes, at_sent, told_notes, told_sent};

use crate::world_laws::{WorldItem, WorldNote};
use crate::world_net::parcel::Parcel;
use crate::world_net::sending::send_orders;
use book_text::order_datagrams::Config;
use ram_io::NoMemory;
use rams_model::{Answer, Cause, Note};
use receiver_core::Bump;
use server_hub::{At, Hub, HubAnswer};
use std::alloc::Global;

/// Adds what is said of an answer of the hub, and the datagrams that it sends.
pub(crate) fn tell<'a>(
    alloc: Global,
    arena: &'a Bump,
    hub: &Hub,
    answer: HubAnswer,
    notes: &mut Vec<WorldNote<'a>>,
    parcels: &mut Vec<Parcel<'a>>,
) -> Result<(), NoMemory>
    ensures notes { OnOk result (notes.new.items ≡ notes.old.items ++ told_notes (settings_of hub.now) (told answer)) }
    ensures parcels { OnOk result (parcels.new.items ≡ parcels.old.items ++ told_sent (settings_of hub.now) (told answer)) }
{
    match answer {
        HubAnswer::NoChannel(id) => say(notes, id, WorldItem::NoChannel(id)),
        HubAnswer::Answer(at) => tell_at(alloc, arena, hub, at, notes, parcels),
        HubAnswer::Answers(all) => tell_all(alloc, arena, hub, all, notes, parcels),
    }
}

/// Adds what is said of a channel.
#[inline(always)]
pub(crate) fn say<'a>(
    notes: &mut Vec<WorldNote<'a>>,
    id: u16,
    item: WorldItem<'a>,
) -> Result<(), NoMemory>
    ensures { OnOk result (notes.new.items ≡ notes.old.items ++ note id item.entry ∷ []) }
{
    notes.push(WorldNote { id, item })?;
    Ok(())
}

// The same of what the channels answer, one after another.
fn tell_all<'a>(
    alloc: Global,
    arena: &'a Bump,
    hub: &Hub,
    all: Vec<At>,
    notes: &mut Vec<WorldNote<'a>>,
    parcels: &mut Vec<Parcel<'a>>,
) -> Result<(), NoMemory>
    ensures notes { OnOk result (notes.new.items ≡ notes.old.items ++ flat_map (at_notes (settings_of hub.now)) all.items) }
    ensures parcels { OnOk result (parcels.new.items ≡ parcels.old.items ++ flat_map (at_sent (settings_of hub.now)) all.items) }
{
    for at in all {
        tell_at(alloc, arena, hub, at, notes, parcels)?;
    }
    Ok(())
}

// The same of what one channel answers.
fn tell_at<'a>(
    alloc: Global,
    arena: &'a Bump,
    hub: &Hub,
    at: At,
    notes: &mut Vec<WorldNote<'a>>,
    parcels: &mut Vec<Parcel<'a>>,
) -> Result<(), NoMemory>
    ensures notes { OnOk result (notes.new.items ≡ notes.old.items ++ at_notes (settings_of hub.now) at) }
    ensures parcels { OnOk result (parcels.new.items ≡ parcels.old.items ++ at_sent (settings_of hub.now) at) }
{
    match hub.config(at.id) {
        Some(config) => tell_answer(alloc, arena, config, at.answer, notes, parcels),
        None => Ok(()),
    }
}

// The same of an answer of a channel with these settings.
fn tell_answer<'a>(
    alloc: Global,
    arena: &'a Bump,
    config: &Config,
    answer: Answer,
    notes: &mut Vec<WorldNote<'a>>,
    parcels: &mut Vec<Parcel<'a>>,
) -> Result<(), NoMemory>
    ensures notes { OnOk result (notes.new.items ≡ notes.old.items ++ said_in config.now answer) }
    ensures parcels { OnOk result (parcels.new.items ≡ parcels.old.items ++ map (sent_of config.now) answer.orders) }
{
    let start = parcels.len();
    send_orders(alloc, arena, config, answer.orders, parcels)?;
    say_notes(config.channel().id, &answer.notes, &parcels[start..], notes)
}

// Adds the notes of a channel, each with its datagram behind it.
fn say_notes<'a>(
    id: u16,
    all: &[Note],
    sent: &[Parcel<'a>],
    notes: &mut Vec<WorldNote<'a>>,
) -> Result<(), NoMemory>
    ensures { OnOk result (notes.new.items ≡ notes.old.items ++ notes_with_sent id all.now sent.now) }
{
    let mut told = 0;
    for note in all.iter() {
        let its = next_of(sent, told, asks(note));
        say_note(id, *note, its, notes)?;
        told += its.len();
    }
    Ok(())
}

// So many of some datagrams, or what is left, behind those that were told of.
fn next_of<'s, 'a>(sent: &'s [Parcel<'a>], told: usize, count: usize) -> &'s [Parcel<'a>]
    requires { told ≤ length sent.now }
    ensures those { result.now ≡ take count (drop told sent.now) }
    ensures within { told + length result.now ≤ length sent.now }
{
    let left = &sent[told..];
    if count < left.len() {
        &left[..count]
    } else {
        left
    }
}

// Adds a note, and datagrams behind it.
fn say_note<'a>(
    id: u16,
    note: Note,
    sent: &[Parcel<'a>],
    notes: &mut Vec<WorldNote<'a>>,
) -> Result<(), NoMemory>
    ensures { OnOk result (notes.new.items ≡ notes.old.items ++ note_with_sent id note sent.now) }
{
    say(notes, id, WorldItem::Note(note))?;
    for parcel in sent.iter() {
        say(notes, parcel.id(), parcel.as_sent())?;
    }
    Ok(())
}

// How many datagrams a note asks for.
fn asks(note: &Note) -> usize
    ensures { result ≡ order_count note.now }
{
    match note {
        Note::Accept { .. }
        | Note::Update { .. }
        | Note::Again { .. }
        | Note::Refuse { .. }
        | Note::Burst { .. }
        | Note::Repair { .. } => 1,
        Note::End { cause, .. } => match cause {
            Cause::Bye => 0,
            _ => 1,
        },
        _ => 0,
    }
}
