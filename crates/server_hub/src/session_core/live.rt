//! The answer to a live packet.
ghost use Rattle.std.specs.Prelude.{◌≡◌, ◌^◌, ◌<◌, All, List, [], ◌∷◌, length, IfOk, OnErr};
ghost use Rattle.rams_model.specs.declared.{Event.Event, Event.TheVariants.Live, Note.TheVariants.Live as LiveNoted};
ghost use Rattle.rams_model.specs.Service.{answer, answered, heard_live, live};
ghost use Rattle.channel_cache.specs.{arrival_of, IsBare};
ghost use Rattle.channel_parts.specs.{StandsFor};

use channel_cache::Incoming;
use channel_parts::Parts;
use ram_io::NoMemory;
use rams_model::{Answer, LiveNote, Note};
use std::alloc::Global;

/// Takes a live packet, as it came: its note is the whole answer. After want of memory all is as before.
pub(crate) fn answer_live(
    alloc: Global,
    parts: &mut Parts,
    bytes: &[u8],
) -> Result<Answer, NoMemory>
    requires few { (events : List Event) × StandsFor parts.old events × (length events < 2 ^ 40) }
    ensures stands { (events : List Event) → StandsFor parts.old events →
        IfOk result (λ a. (a ≡ answer parts.old.config events (Live bytes.now))
        × StandsFor parts.new (Live bytes.now ∷ events)) }
    ensures one_note { IfOk result (λ a. (length a.notes ≡ 1) × (a.orders ≡ [])) }
    ensures settings { parts.new.config ≡ parts.old.config }
    ensures same { OnErr result (parts.new ≡ parts.old) }
{
    let note = parts.cache.live(alloc, bytes)?;
    Ok(Answer::one(alloc, Note::Live(note)))
}

/// Takes a live packet that its caller has read, and keeps it where it is: the note that is its whole answer.
pub(crate) fn note_live(parts: &mut Parts, incoming: Incoming) -> LiveNote
    requires few { (events : List Event) × StandsFor parts.old events × (length events < 2 ^ 40) }
    requires read { heard_live parts.old.config.channel incoming.packet ≡ live (arrival_of incoming) }
    requires bare { IsBare incoming.packet }
    ensures stands { (events : List Event) → StandsFor parts.old events →
        (answered (LiveNoted result ∷ []) [] ≡ answer parts.old.config events (Live incoming.packet))
        × StandsFor parts.new (Live incoming.packet ∷ events) }
    ensures settings { parts.new.config ≡ parts.old.config }
{
    are_bytes(incoming.packet.as_slice());
    parts.cache.live_read(incoming)
}

// Bytes are below 256.
fn are_bytes(bytes: &[u8])
    ensures { All (λ b. b < 256) bytes.now }
{
    let _ = bytes;
}
