//! The lines of what is said in a world.
ghost use Rattle.std.specs.Prelude.{◌≡◌, ◌∷◌, ◌++◌, ◌+◌, ◌<◌, ◌≤◌, OnErr, OnOk, codes, length};
ghost use Rattle.rams_model.specs.Texts.{spaced, of_word, hex_word, book_line, note_line, send_line};
ghost use Rattle.meet_loop.specs.world_text.{info_words, media_word, bytes_line, named_line, item_line, world_line, notes_lines};
ghost use Rattle.meet_loop.specs.declared.world_laws.world.WorldItem.TheVariants as item;

use crate::world_laws::{Note, SentBytes, WorldItem, WorldNote};
use book_text::{Pen, Tail, append_no_channel, append_send, append_with_hex, begin};
use ram_io::NoMemory;
use rams_model::{InfoCame, MediaCame};

/// The line of a note: `EVENT ID`, and its words, as `9 7 info 5 taken`; `EVENT no-datagram NUMBER`
/// of a datagram that isn't there. A datagram that the server sends is made in `room`.
#[tactic(auto, unfolding(crate::specs::world_text::WorldLines::world_line))]
pub fn append_world_note(
    pen: &mut Pen,
    text: &mut Vec<u8>,
    room: &mut Vec<u8>,
    event: u64,
    note: &WorldNote<'_>,
) -> Result<(), NoMemory>
    ensures text { OnOk result (text.new.items ≡ text.old.items ++ world_line event note.now) }
    ensures err { OnErr result (text.new.items ≡ text.old.items) }
{
    let id = note.id;
    match &note.item {
        WorldItem::NoChannel(_) => append_no_channel(text, event, id),
        WorldItem::Note(note) => pen.append_note(text, event, id, note),
        WorldItem::Send { client, bytes } => append_sent(text, room, event, id, *client, bytes),
        WorldItem::Post { client, bytes } => append_post(
            text,
            event,
            id,
            *client,
            bytes.as_slice(),
        ),
        WorldItem::Info { client, came } => append_info(text, event, id, *client, *came),
        WorldItem::Media { client, came } => append_media(pen, text, event, id, *client, *came),
        WorldItem::Show { client, n, packet } => {
            pen.append_numbered(text, event, id, b"show", *client, *n, packet.as_slice())
        }
        WorldItem::TunedBefore(client) => append_named(text, event, id, b"tuned-before", *client),
        WorldItem::NoReceiver(client) => append_named(text, event, id, b"no-receiver", *client),
        WorldItem::NoDatagram(number) => append_no_datagram(text, event, *number),
        WorldItem::NoPacket(n) => append_named(text, event, id, b"no-packet", *n),
        WorldItem::TooFar(client) => append_named(text, event, id, b"too-far", *client),
    }
}

/// The lines of one note or two. A channel's note is written together with its datagram behind it. An
/// error changes nothing of the text.
#[tactic(auto, unfolding(crate::specs::world_text::WorldLines::notes_lines))]
pub fn append_world_part(
    pen: &mut Pen,
    text: &mut Vec<u8>,
    room: &mut Vec<u8>,
    event: u64,
    part: &[WorldNote<'_>],
) -> Result<(), NoMemory>
    requires some { 0 < length part.now }
    requires few { length part.now ≤ 2 }
    ensures text { OnOk result (text.new.items ≡ text.old.items ++ notes_lines event part.now) }
    ensures err { OnErr result (text.new.items ≡ text.old.items) }
{
    match part {
        [note] => append_world_note(pen, text, room, event, note),
        [first, second] => append_pair(pen, text, room, event, first, second),
        _ => unreachable!(),
    }
}

// The lines of two notes.
#[tactic(auto, unfolding(crate::specs::world_text::WorldLines::world_line))]
fn append_pair(
    pen: &mut Pen,
    text: &mut Vec<u8>,
    room: &mut Vec<u8>,
    event: u64,
    first: &WorldNote<'_>,
    second: &WorldNote<'_>,
) -> Result<(), NoMemory>
    ensures text { OnOk result (text.new.items ≡ text.old.items ++ (world_line event first.now ++ world_line event second.now)) }
    ensures err { OnErr result (text.new.items ≡ text.old.items) }
{
    let id = first.id;
    if second.id != id {
        return append_both(pen, text, room, event, first, second);
    }
    match (&first.item, &second.item) {
        (WorldItem::Note(note), WorldItem::Send { client, bytes }) => {
            append_told(pen, text, room, event, id, note, *client, bytes)
        }
        _ => append_both(pen, text, room, event, first, second),
    }
}

// The lines of a channel's note and of a datagram.
fn append_told(
    pen: &mut Pen,
    text: &mut Vec<u8>,
    room: &mut Vec<u8>,
    event: u64,
    id: u16,
    note: &Note,
    client: u64,
    bytes: &SentBytes<'_>,
) -> Result<(), NoMemory>
    ensures text { OnOk result (text.new.items ≡ text.old.items ++ (note_line event id note.now ++ send_line event id client bytes.now)) }
    ensures err { OnErr result (text.new.items ≡ text.old.items) }
{
    room.clear();
    bytes.append_to(room)?;
    pen.append_told(text, event, id, note, client, room)
}

// The lines of two notes, each of its own.
fn append_both(
    pen: &mut Pen,
    text: &mut Vec<u8>,
    room: &mut Vec<u8>,
    event: u64,
    first: &WorldNote<'_>,
    second: &WorldNote<'_>,
) -> Result<(), NoMemory>
    ensures text { OnOk result (text.new.items ≡ text.old.items ++ (world_line event first.now ++ world_line event second.now)) }
    ensures err { OnErr result (text.new.items ≡ text.old.items) }
{
    let start = text.len();
    append_world_note(pen, text, room, event, first)?;
    let appended = append_world_note(pen, text, room, event, second);
    if appended.is_err() {
        text.truncate(start);
    }
    appended
}

// A datagram that the server sends: `EVENT ID send CLIENT HEX`, with `-` for no bytes.
fn append_sent(
    text: &mut Vec<u8>,
    room: &mut Vec<u8>,
    event: u64,
    id: u16,
    client: u64,
    bytes: &SentBytes<'_>,
) -> Result<(), NoMemory>
    ensures text { OnOk result (text.new.items ≡ text.old.items ++ send_line event id client bytes.now) }
    ensures err { OnErr result (text.new.items ≡ text.old.items) }
{
    room.clear();
    bytes.append_to(room)?;
    append_send(text, event, id, client, room)
}

// A datagram that a receiver posts: `EVENT ID post CLIENT HEX`.
fn append_post(
    text: &mut Vec<u8>,
    event: u64,
    id: u16,
    client: u64,
    bytes: &[u8],
) -> Result<(), NoMemory>
    ensures text { OnOk result (text.new.items ≡ text.old.items ++ bytes_line event id (codes "post" ++ spaced client) bytes.now) }
    ensures err { OnErr result (text.new.items ≡ text.old.items) }
{
    let mut line = Tail::new();
    line.byte(b' ');
    line.named(b"post", client);
    append_with_bytes(text, line, event, id, bytes)
}

// Words with a space behind them, and bytes.
fn append_with_bytes(
    text: &mut Vec<u8>,
    mut line: Tail,
    event: u64,
    id: u16,
    bytes: &[u8],
) -> Result<(), NoMemory>
    requires { length line + 42 ≤ 160 }
    ensures text { OnOk result (text.new.items ≡ text.old.items ++ book_line event id (line ++ hex_word bytes.now)) }
    ensures err { OnErr result (text.new.items ≡ text.old.items) }
{
    begin(&mut line, event, id);
    append_with_hex(text, &line, bytes)
}

// What became of a RAMS-I: `EVENT ID info CLIENT` and its words.
fn append_info(
    text: &mut Vec<u8>,
    event: u64,
    id: u16,
    client: u64,
    came: InfoCame,
) -> Result<(), NoMemory>
    ensures text { OnOk result (text.new.items ≡ text.old.items ++ book_line event id (of_word (codes "info") client (info_words came))) }
    ensures err { OnErr result (text.new.items ≡ text.old.items) }
{
    let mut line = Tail::new();
    line.byte(b'\n');
    info(&mut line, came);
    line.byte(b' ');
    line.named(b"info", client);
    begin(&mut line, event, id);
    line.append_to(text)
}

fn info(line: &mut Tail, came: InfoCame)
    requires { length line.old + 28 ≤ 160 }
    ensures line { line.new ≡ info_words came ++ line.old }
    ensures few { length line.new ≤ length line.old + 28 }
{
    match came {
        InfoCame::Taken => line.word(b"taken"),
        InfoCame::Repeated => line.word(b"repeated"),
        InfoCame::Updated => line.word(b"updated"),
        InfoCame::Ended(code) => line.named(b"ended", u64::from(code)),
        InfoCame::Refused(code) => line.named(b"refused", u64::from(code)),
        InfoCame::Foreign => line.word(b"foreign"),
        InfoCame::Bad => line.word(b"bad"),
    }
}

// What became of a packet: `EVENT ID came CLIENT WORD`.
fn append_media(
    pen: &mut Pen,
    text: &mut Vec<u8>,
    event: u64,
    id: u16,
    client: u64,
    came: MediaCame,
) -> Result<(), NoMemory>
    ensures text { OnOk result (text.new.items ≡ text.old.items ++ book_line event id (of_word (codes "came") client (media_word came))) }
    ensures err { OnErr result (text.new.items ≡ text.old.items) }
{
    pen.append_named(text, event, id, b"came", client, media(came))
}

// The word of what became of a packet, behind a space.
fn media(came: MediaCame) -> &'static [u8]
    ensures word { result.now ≡ 32 ∷ media_word came }
    ensures few { length result.now ≤ 13 }
{
    match came {
        MediaCame::Took => b" took".as_slice(),
        MediaCame::Behind => b" behind",
        MediaCame::Beyond => b" beyond",
        MediaCame::Twice => b" twice",
        MediaCame::BeforeFirst => b" before-first",
        MediaCame::Foreign => b" foreign",
        MediaCame::Bad => b" bad",
    }
}

// A word and a number: `EVENT ID WORD NUMBER`.
fn append_named(
    text: &mut Vec<u8>,
    event: u64,
    id: u16,
    word: &[u8],
    n: u64,
) -> Result<(), NoMemory>
    requires { length word.now ≤ 12 }
    ensures text { OnOk result (text.new.items ≡ text.old.items ++ named_line event id word.now n) }
    ensures err { OnErr result (text.new.items ≡ text.old.items) }
{
    let mut line = Tail::new();
    line.byte(b'\n');
    line.named(word, n);
    begin(&mut line, event, id);
    line.append_to(text)
}

// A datagram that isn't there: `EVENT no-datagram NUMBER`.
fn append_no_datagram(text: &mut Vec<u8>, event: u64, number: u64) -> Result<(), NoMemory>
    ensures text { OnOk result (text.new.items ≡ text.old.items ++ item_line event 0 (item.NoDatagram number)) }
    ensures err { OnErr result (text.new.items ≡ text.old.items) }
{
    let mut line = Tail::new();
    line.byte(b'\n');
    line.named(b" no-datagram", number);
    line.number(event);
    line.append_to(text)
}
