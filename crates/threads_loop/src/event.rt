//! An event of a list, as one of a channel.
ghost use Rattle.std.specs.Prelude.{◌≡◌};
ghost use Rattle.server_hub.specs.{event_of};
ghost use Rattle.threads_loop.specs.{hub_event};

use rams_model::Event;
use server_hub::Heard;

/// The event as one of the channel of this number, with its bytes borrowed.
pub(crate) fn heard_at(id: u16, event: &Event) -> Heard<'_>
    ensures { event_of result ≡ hub_event id event.now }
{
    match event {
        Event::Live(bytes) => Heard::Live {
            id,
            bytes: bytes.bytes(),
        },
        Event::Feedback { client, bytes } => Heard::Feedback {
            id,
            client: *client,
            bytes: bytes.bytes(),
        },
        Event::Tick => Heard::Tick,
    }
}
