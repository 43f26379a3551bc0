//! The line of an event, appended to a given text: whole, or not at all where memory runs out.

ghost use Rattle.std.specs.Prelude.{◌≡◌, ◌++◌, OnErr, OnOk};
ghost use Rattle.server_hub.specs.declared.HubEvent.TheVariants.{Feedback, Live};
ghost use Rattle.server_hub.specs.{event_of};
ghost use Rattle.trace_loop.specs.journal_book.{event_line};

use book_text::{Tail, append_with_hex};
use ram_io::NoMemory;
use server_hub::Heard;

/// Appends the line of an event, as `live 7 80a1..`, `fb 7 65547 81ce..` or `tick`.
#[tactic(auto, unfolding(crate::specs::journal_book::Journal::event_line, rams_model::specs::Texts::TraceLines::line_text))]
pub fn append_event(text: &mut Vec<u8>, heard: Heard<'_>) -> Result<(), NoMemory>
    ensures text { OnOk result (text.new.items ≡ text.old.items ++ event_line (event_of heard.entry)) }
    ensures err { OnErr result (text.new.items ≡ text.old.items) }
{
    match heard {
        Heard::Live { id, bytes } => append_live(text, id, bytes),
        Heard::Feedback { id, client, bytes } => append_feedback(text, id, client, bytes),
        Heard::Tick => Ok(text.extend_from_slice(b"tick\n")?),
    }
}

/// The line of a live packet.
fn append_live(text: &mut Vec<u8>, id: u16, bytes: &[u8]) -> Result<(), NoMemory>
    ensures text { OnOk result (text.new.items ≡ text.old.items ++ event_line (Live id bytes.now)) }
    ensures err { OnErr result (text.new.items ≡ text.old.items) }
{
    let mut front = Tail::new();
    front.byte(b' ');
    front.named(b"live", u64::from(id));
    append_with_hex(text, &front, bytes)
}

/// The line of a client's feedback.
fn append_feedback(text: &mut Vec<u8>, id: u16, client: u64, bytes: &[u8]) -> Result<(), NoMemory>
    ensures text { OnOk result (text.new.items ≡ text.old.items ++ event_line (Feedback id client bytes.now)) }
    ensures err { OnErr result (text.new.items ≡ text.old.items) }
{
    let mut front = Tail::new();
    front.byte(b' ');
    front.numbered(b"fb", u64::from(id), client);
    append_with_hex(text, &front, bytes)
}
