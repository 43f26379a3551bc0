//! What the lines of a trace bring to a world.
ghost use Rattle.std.specs.Prelude.{◌≡◌, IfOk, IsTrue};
ghost use Rattle.rams_model.specs.Texts.{is_hex, bytes_in};
ghost use Rattle.trace_lines.specs.{shown, HasDigits};
ghost use Rattle.trace_loop.specs.trace_book.trace_serving.{brought};
ghost use Rattle.meet_loop.specs.world_book.{meet};

use crate::world_net::WorldEvent;
use ram_io::NoMemory;
use rams_model::Octets;
use server_hub::HubEvent;
use std::alloc::Global;
use std::mem;
use trace_text::{Line, decode_to};

/// The event that a line brings; `None` exactly where it is a head line, a channel line or `end`. Its bytes
/// stand in `room`, which it has until it gives it back.
pub(crate) fn event_of(
    alloc: Global,
    room: &mut Vec<u8>,
    line: Line<'_>,
) -> Result<Option<WorldEvent>, NoMemory>
    requires { HasDigits line }
    ensures { IfOk result (λ event. event ≡ brought meet (shown line.entry)) }
{
    match line {
        Line::Live { id, hex } => {
            let bytes = octets(alloc, room, hex)?;
            Ok(Some(WorldEvent::Hub(HubEvent::Live { id, bytes })))
        }
        Line::Feedback { id, client, hex } => {
            let bytes = octets(alloc, room, hex)?;
            Ok(Some(WorldEvent::Hub(HubEvent::Feedback { id, client, bytes })))
        }
        Line::Tick => Ok(Some(WorldEvent::Hub(HubEvent::Tick))),
        Line::Tune { id, client, ssrc } => Ok(Some(WorldEvent::Tune { id, client, ssrc })),
        Line::Give { number } => Ok(Some(WorldEvent::Give { number })),
        Line::Mcast { id, client, n } => Ok(Some(WorldEvent::Mcast { id, client, n })),
        Line::Ask { id, client } => Ok(Some(WorldEvent::Ask { id, client })),
        Line::Drop { id, client } => Ok(Some(WorldEvent::Drop { id, client })),
        Line::Head { .. } | Line::Channel { .. } | Line::End => Ok(None),
    }
}

/// The bytes of a word of hexadecimal digits, in this room.
fn octets(alloc: Global, room: &mut Vec<u8>, hex: &[u8]) -> Result<Octets, NoMemory>
    requires { IsTrue (is_hex hex.now) }
    ensures { IfOk result (λ bytes. bytes ≡ bytes_in hex.now) }
{
    let mut bytes = mem::replace(room, Vec::new(alloc));
    decode_to(hex, &mut bytes)?;
    Ok(Octets::of(bytes))
}

/// The room of an event's bytes is there for the next one then.
pub(crate) fn give_back(event: WorldEvent, room: &mut Vec<u8>) {
    if let WorldEvent::Hub(
        HubEvent::Live { bytes, .. } | HubEvent::Feedback { bytes, .. },
    ) = event
    {
        *room = bytes.into_vec();
    }
}
