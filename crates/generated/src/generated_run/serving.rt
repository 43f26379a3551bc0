//! What a core answers to one generated event.
ghost use Rattle.std.specs.Prelude.{◌≡◌, ◌^◌, ◌<◌, List, [], ◌∷◌, OnOk};
ghost use Rattle.rams_model.specs.declared.{Event.Event, Event.TheVariants.Live, Note.TheVariants.Live as LiveNoted};
ghost use Rattle.rams_model.specs.Service.{Answered, answer, answered};
ghost use Rattle.server_hub.specs.session_core.{StandsFor, StandsForFewer};
ghost use Rattle.generated.specs.summary.{tally_of};
ghost use Rattle.generated.specs.trace_gen.{config, event_on, next_on, IsRead, IsReadNext};
ghost use Rattle.generated.specs.generated_run.{IsBrief};

use crate::summary::Tally;
use crate::trace_gen::{Kind, Next, Packet};
use ram_io::NoMemory;
use server_hub::session_core::{Core, Incoming, LiveNote};
use std::alloc::Global;

/// What the core answers to an event is counted. Its bytes stand on the page, where it has no memory of its own.
pub(crate) fn count_answer(
    alloc: Global,
    core: &mut Core,
    tally: &mut Tally,
    next: Next,
    page: &[u8],
) -> Result<(), NoMemory>
    requires few { StandsForFewer core.old (2 ^ 40) }
    requires settings { core.old.settings ≡ config }
    requires read { IsReadNext next }
    requires brief { IsBrief (next_on next page.now) }
    requires answers { tally.old.answers < 1000000 }
    ensures counted { (events : List Event) (answers : List Answered) → StandsFor core.old events → tally.old ≡ tally_of answers →
        OnOk result (StandsFor core.new (next_on next page.now ∷ events)
        × (tally.new ≡ tally_of (answer core.old.settings events (next_on next page.now) ∷ answers))) }
    ensures settings { core.new.settings ≡ core.old.settings }
{
    match next {
        Next::Packet(packet) => {
            tally.add_live(note_of(core, packet));
            Ok(())
        }
        Next::OnPage(kind) => count_on_page(alloc, core, tally, kind, page),
    }
}

/// The note of a packet, which is the whole answer of the core.
fn note_of(core: &mut Core, packet: Packet) -> LiveNote
    requires few { StandsForFewer core.old (2 ^ 40) }
    requires settings { core.old.settings ≡ config }
    requires read { IsRead packet }
    ensures stands { (events : List Event) → StandsFor core.old events →
        (answered (LiveNoted result ∷ []) [] ≡ answer core.old.settings events (Live packet.bytes))
        × StandsFor core.new (Live packet.bytes ∷ events) }
    ensures settings { core.new.settings ≡ core.old.settings }
{
    core.live_read(Incoming {
        sequence: packet.sequence,
        timestamp: packet.timestamp,
        access: packet.marker,
        packet: packet.bytes,
    })
}

/// What the core answers to the event of this kind with these bytes is counted. Of a tick the sums are enough.
#[tactic(auto, using(crate::proofs::generated_run::Short::short_are))]
fn count_on_page(
    alloc: Global,
    core: &mut Core,
    tally: &mut Tally,
    kind: Kind,
    page: &[u8],
) -> Result<(), NoMemory>
    requires few { StandsForFewer core.old (2 ^ 40) }
    requires brief { IsBrief (event_on kind page.now) }
    requires answers { tally.old.answers < 1000000 }
    ensures counted { (events : List Event) (answers : List Answered) → StandsFor core.old events → tally.old ≡ tally_of answers →
        OnOk result (StandsFor core.new (event_on kind page.now ∷ events)
        × (tally.new ≡ tally_of (answer core.old.settings events (event_on kind page.now) ∷ answers))) }
    ensures settings { core.new.settings ≡ core.old.settings }
{
    match kind {
        Kind::Live => tally.add(&core.live(alloc, page)?),
        Kind::Feedback { client } => tally.add(&core.feedback(alloc, client, page)?),
        Kind::Tick => tally.add_tick(&core.count_tick(alloc)?),
    }
    Ok(())
}
