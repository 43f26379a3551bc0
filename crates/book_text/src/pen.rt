//! The lines of notes, and what many of them begin with.
ghost use Rattle.std.specs.Prelude.{◌≡◌, ◌+◌, ◌<◌, ◌≤◌, ◌++◌, OnOk, OnErr, codes, length, decimal, vec_capacity};
ghost use Rattle.rams_model.specs.Texts.{spaced, note_line, send_line, book_line, hex_word};
ghost use Rattle.book_text.specs.{send_front};

use crate::line::append_with_hex;
use crate::named::Named;
use crate::note::words;
use crate::piece::Piece;
use crate::tail::Tail;
use ram_io::NoMemory;
use rams_model::Note;
use std::marker::Model;

/// The front of the lines of an event of a channel.
#[derive(Drop)]
struct Front {
    event: u64,
    id: u16,
    piece: Piece,
    ghost spelled: { piece ≡ decimal event ++ spaced id ++ codes " " },
    ghost few: { length piece ≤ 42 },
}

impl Front {
    fn new(event: u64, id: u16) -> Front
        ensures event { result.event ≡ event }
        ensures id { result.id ≡ id }
    {
        Front {
            event,
            id,
            piece: Piece::front(event, id),
        }
    }

    #[cold]
    fn begin(&mut self, event: u64, id: u16)
        ensures event { self.new.event ≡ event }
        ensures id { self.new.id ≡ id }
    {
        self.event = event;
        self.id = id;
        self.piece.set_front(event, id);
    }

    /// Turns to an event of a channel; where it was there already, nothing is written.
    #[inline(always)]
    fn turn_to(&mut self, event: u64, id: u16)
        ensures event { self.new.event ≡ event }
        ensures id { self.new.id ≡ id }
    {
        if self.event != event || self.id != id {
            self.begin(event, id);
        }
    }
}

/// The end of a note's line, and behind it the line of a datagram to a client, as far as its digits.
fn write_sending(lines: &mut Tail, front: &Piece, to: &Piece)
    requires front { length front.now ≤ 42 }
    requires to { length to.now ≤ 21 }
    ensures lines { lines.new ≡ codes "\n" ++ (front.now ++ (codes "send" ++ (to.now ++ codes " "))) }
    ensures few { length lines.new ≤ 69 }
{
    lines.clear();
    lines.byte(b' ');
    lines.piece(to);
    lines.word(b"send");
    lines.piece(front);
    lines.byte(b'\n');
}

/// What `write_sending` writes of a client at an event of a channel.
#[derive(Drop)]
struct Sending {
    event: u64,
    id: u16,
    client: u64,
    lines: Tail,
    ghost begun: { lines ≡ send_front event id client },
    ghost few: { length lines ≤ 69 },
}

impl Sending {
    fn new(front: &Front, named: &mut Named, client: u64) -> Sending {
        let mut lines = Tail::new();
        write_sending(&mut lines, &front.piece, named.spell(client));
        Sending {
            event: front.event,
            id: front.id,
            client,
            lines,
        }
    }

    /// Turns to a client at an event of a channel; where it was there already, nothing is written.
    #[inline]
    fn turn_to(&mut self, front: &Front, named: &mut Named, client: u64)
        ensures event { self.new.event ≡ front.now.event }
        ensures id { self.new.id ≡ front.now.id }
        ensures client { self.new.client ≡ client }
    {
        if self.event != front.event || self.id != front.id || self.client != client {
            self.event = front.event;
            self.id = front.id;
            self.client = client;
            write_sending(&mut self.lines, &front.piece, named.spell(client));
        }
    }

    /// Appends the line of a note, and behind it that of a datagram to the client.
    #[tactic(auto, unfolding(rams_model::specs::Texts::BookText::note_line, rams_model::specs::Texts::BookText::send_line))]
    fn append(
        &mut self,
        text: &mut Vec<u8>,
        front: &Front,
        named: &mut Named,
        note: &Note,
        bytes: &[u8],
    ) -> Result<(), NoMemory>
        requires event { self.old.event ≡ front.now.event }
        requires id { self.old.id ≡ front.now.id }
        ensures text { OnOk result (text.new.items ≡ text.old.items ++ (note_line self.old.event self.old.id note.now ++ send_line self.old.event self.old.id self.old.client bytes.now)) }
        ensures err { OnErr result (text.new.items ≡ text.old.items) }
        ensures full { OnErr result (vec_capacity text.old < length text.old.items + length (note_line self.old.event self.old.id note.now ++ send_line self.old.event self.old.id self.old.client bytes.now)) }
        ensures room { vec_capacity text.old ≤ vec_capacity text.new }
    {
        let kept = self.lines.len();
        words(&mut self.lines, note, named);
        self.lines.piece(&front.piece);
        let appended = append_with_hex(text, &self.lines, bytes);
        self.lines.keep(kept);
        appended
    }
}

/// What writes the lines of notes. The numbers that a line begins with, and the client that it names,
/// are kept in digits, since those of the next lines are mostly the same. What it wrote before changes
/// nothing of what it writes.
#[derive(Drop)]
pub struct Pen {
    front: Front,
    named: Named,
    sending: Sending,
    lines: Tail,
}

impl Model for Pen {
    ghost Value = { Unit {0} };

    ghost view = { λ _. tt };
}

impl Pen {
    /// A pen that wrote nothing yet.
    pub fn new() -> Pen {
        let front = Front::new(0, 0);
        let mut named = Named::new(0);
        let sending = Sending::new(&front, &mut named, 0);
        Pen {
            front,
            named,
            sending,
            lines: Tail::new(),
        }
    }

    /// The line of a note: `EVENT ID`, and the note's words, as `5 7 burst 5 65547 500`.
    #[tactic(auto, unfolding(rams_model::specs::Texts::BookText::note_line))]
    pub fn append_note(
        &mut self,
        text: &mut Vec<u8>,
        event: u64,
        id: u16,
        note: &Note,
    ) -> Result<(), NoMemory>
        ensures text { OnOk result (text.new.items ≡ text.old.items ++ note_line event id note.now) }
        ensures err { OnErr result (text.new.items ≡ text.old.items) }
        ensures full { OnErr result (vec_capacity text.old < length text.old.items + length (note_line event id note.now)) }
        ensures room { vec_capacity text.old ≤ vec_capacity text.new }
    {
        self.front.turn_to(event, id);
        self.lines.clear();
        self.lines.byte(b'\n');
        words(&mut self.lines, note, &mut self.named);
        self.lines.piece(&self.front.piece);
        self.lines.append_to(text)
    }

    /// The line of a word, a client and what stands behind it: `EVENT ID WORD CLIENT` and the end.
    pub fn append_named(
        &mut self,
        text: &mut Vec<u8>,
        event: u64,
        id: u16,
        word: &[u8],
        client: u64,
        end: &[u8],
    ) -> Result<(), NoMemory>
        requires { length word.now + length end.now ≤ 150 }
        ensures text { OnOk result (text.new.items ≡ text.old.items ++ book_line event id (word.now ++ spaced client ++ end.now)) }
        ensures err { OnErr result (text.new.items ≡ text.old.items) }
        ensures full { OnErr result (vec_capacity text.old < length text.old.items + length (book_line event id (word.now ++ spaced client ++ end.now))) }
        ensures room { vec_capacity text.old ≤ vec_capacity text.new }
    {
        self.front.turn_to(event, id);
        self.lines.clear();
        self.lines.byte(b'\n');
        self.lines.word(end);
        self.named.of_client(&mut self.lines, word, client);
        self.lines.piece(&self.front.piece);
        self.lines.append_to(text)
    }

    /// The line of a word, a client, a number and bytes: `EVENT ID WORD CLIENT NUMBER HEX`.
    pub fn append_numbered(
        &mut self,
        text: &mut Vec<u8>,
        event: u64,
        id: u16,
        word: &[u8],
        client: u64,
        n: u64,
        bytes: &[u8],
    ) -> Result<(), NoMemory>
        requires { length word.now ≤ 130 }
        ensures text { OnOk result (text.new.items ≡ text.old.items ++ book_line event id (word.now ++ spaced client ++ spaced n ++ codes " " ++ hex_word bytes.now)) }
        ensures err { OnErr result (text.new.items ≡ text.old.items) }
        ensures full { OnErr result (vec_capacity text.old < length text.old.items + length (book_line event id (word.now ++ spaced client ++ spaced n ++ codes " " ++ hex_word bytes.now))) }
        ensures room { vec_capacity text.old ≤ vec_capacity text.new }
    {
        self.front.turn_to(event, id);
        self.lines.clear();
        self.lines.byte(b' ');
        self.named.numbered(&mut self.lines, word, client, n);
        self.lines.piece(&self.front.piece);
        append_with_hex(text, &self.lines, bytes)
    }

    /// The line of a note, and behind it that of a datagram to a client.
    #[inline(always)]
    #[tactic(auto, unfolding(rams_model::specs::Texts::BookText::note_line, rams_model::specs::Texts::BookText::send_line))]
    pub fn append_told(
        &mut self,
        text: &mut Vec<u8>,
        event: u64,
        id: u16,
        note: &Note,
        client: u64,
        bytes: &[u8],
    ) -> Result<(), NoMemory>
        ensures text { OnOk result (text.new.items ≡ text.old.items ++ (note_line event id note.now ++ send_line event id client bytes.now)) }
        ensures err { OnErr result (text.new.items ≡ text.old.items) }
        ensures full { OnErr result (vec_capacity text.old < length text.old.items + length (note_line event id note.now ++ send_line event id client bytes.now)) }
        ensures room { vec_capacity text.old ≤ vec_capacity text.new }
    {
        self.front.turn_to(event, id);
        self.sending.turn_to(&self.front, &mut self.named, client);
        self.sending
            .append(text, &self.front, &mut self.named, note, bytes)
    }
}
