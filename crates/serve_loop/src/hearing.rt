//! One event of a server: its step, its line and its datagrams.
ghost use Rattle.std.specs.Prelude.{◌≡◌, ◌+◌, ◌^◌, ◌<◌, ◌≤◌, ℕ, List, ◌∷◌, [], ◌++◌, IfErr, IfOk, OnOk, length, not, ◌==◌};
ghost use Rattle.std.specs.List.{list_any};
ghost use Rattle.server_hub.specs.declared.HubEvent.{HubEvent};
ghost use Rattle.server_hub.specs.{event_of};
ghost use Rattle.trace_loop.specs.journal_book.{behind, datagrams_of, event_line};
ghost use Rattle.serve_loop.specs.{Begun, Ready, Broken, GoesOn, HasRoom, IsStoppedOutside, OnlyMemoryStops, Room, StandsSomewhere};

use crate::journal::write_event;
use crate::send::send_all;
use crate::watch::Watch;
use line_io::Gather;
use ram_io::{Sink, Wire};
use server_hub::{At, Heard, Hub, answers_of};
use std::alloc::Global;
use trace_loop::{Stop, flush};

/// What a server has beside its source, sink, wire and clock.
#[derive(Drop)]
pub struct Server {
    pub hub: Hub,
    /// The numbers of the channels, in the order of their lines.
    pub ids: Vec<u16>,
    /// The live port of the first channel.
    pub live: u16,
    /// The lines that wait for the sink.
    pub journal: Gather,
    /// Room for a datagram.
    datagram: Vec<u8>,
}

/// A server that has heard nothing.
pub fn new_server(alloc: Global, hub: Hub, ids: Vec<u16>, live: u16, journal: Gather) -> Server
    ensures hub { result.hub ≡ hub }
    ensures ids { result.ids.items ≡ ids.items }
    ensures live { result.live ≡ live }
    ensures journal { result.journal ≡ journal }
{
    Server {
        hub,
        ids,
        live,
        journal,
        datagram: Vec::new(alloc),
    }
}

/// Whether one of these answers has a datagram.
fn has_orders(answers: &[At]) -> bool
    ensures { result ≡ list_any (λ at. not (length at.answer.orders == 0)) answers.now }
{
    answers.iter().any(|at| !at.answer.orders.is_empty())
}

/// One event: a step of the channels, its line, and then its datagrams, before the first of which all
/// that waits goes to the sink. The first channel that answers does so from the port `first`.
pub fn hear<K: Sink, W: Wire, T: Watch>(
    alloc: Global,
    server: &mut Server,
    sink: &mut K,
    wire: &mut W,
    heard: Heard<'_>,
    first: u16,
    watch: &T,
) -> Result<(), Stop>
    requires stands { StandsSomewhere server.old.hub }
    requires calls { server.old.hub.calls < 2 ^ 40 }
    requires ports { first + 128 < 2 ^ 16 }
    ensures goes_on { (b : Begun) (events : List HubEvent)
        → Ready b events server.old.hub (K.held sink.old) server.old.journal (W.sent wire.old) (event_of heard.entry) first
        → OnOk result (GoesOn b (events ++ event_of heard.entry ∷ []) server.new.hub (K.held sink.new) server.new.journal (W.sent wire.new)) }
    ensures breaks { (b : Begun) (events : List HubEvent)
        → Ready b events server.old.hub (K.held sink.old) server.old.journal (W.sent wire.old) (event_of heard.entry) first
        → IfErr result (Broken b (events ++ event_of heard.entry ∷ []) (K.held sink.new) server.new.journal (W.sent wire.new)) }
    ensures stands { OnOk result (StandsSomewhere server.new.hub) }
    ensures calls { server.new.hub.calls ≤ server.old.hub.calls + 1 }
    ensures tick { server.new.hub.tick ≡ server.old.hub.tick }
    ensures ids { server.new.ids ≡ server.old.ids }
    ensures live { server.new.live ≡ server.old.live }
    ensures untaken { W.arrivals wire.new ≡ W.arrivals wire.old }
    ensures cause { IsStoppedOutside (K.faults sink.old) (K.faults sink.new) (W.faults wire.old) (W.faults wire.new) result }
    ensures steady { (b : Begun) (events : List HubEvent) (more : Room)
        → Ready b events server.old.hub (K.held sink.old) server.old.journal (W.sent wire.old) (event_of heard.entry) first
        → HasRoom (K.is_steady sink.old) (W.is_steady wire.old) (server.old.journal ++ event_line (event_of heard.entry))
        (datagrams_of (b.live + 1) (event_of heard.entry) (behind events b.channels)) more
        → OnlyMemoryStops result (HasRoom (K.is_steady sink.new) (W.is_steady wire.new) server.new.journal [] more) }
{
    let answer = server.hub.hear(alloc, heard)?;
    watch.hears(heard, &answer);
    write_event(&mut server.journal, sink, heard)?;
    let answers = answers_of(&answer);
    if !has_orders(answers) {
        return Ok(());
    }
    flush(&mut server.journal, sink)?;
    send_all(wire, &mut server.datagram, &server.hub, first, answers)
}
