//! The ports of channels.
ghost use Rattle.std.specs.Prelude.{◌≡◌, ◌≤◌, List, length, IfSome, option_map};
ghost use Rattle.server_hub.specs.{event_of};
ghost use Rattle.server_hub.specs.Served.{Served};
ghost use Rattle.trace_loop.specs.journal_book.{heard_from};
ghost use Rattle.trace_loop.specs.head_loop.{AnswersFrom, numbers};

use ram_io::Arrival;
use server_hub::Heard;

/// What came to a channel, and the feedback port of that channel.
#[derive(Clone, Copy)]
pub struct Addressed<'a> {
    pub heard: Heard<'a>,
    pub feedback: u16,
}

/// What an arrival is to the channels with these numbers, where the first has this live port. A channel
/// has its live packets from the port 2 * place above it, and its feedback from the one above that.
pub fn event_at<'a>(
    live: u16,
    ids: &[u16],
    arrival: Arrival,
    bytes: &'a [u8],
) -> Option<Addressed<'a>>
    requires port { live ≤ 65000 }
    requires few { length ids.now ≤ 64 }
    ensures heard { (channels : List Served) → ids.now ≡ numbers channels
        → option_map (λ e. event_of e.heard) result ≡ heard_from live channels arrival.from arrival.port bytes.now }
    ensures from { IfSome result (λ e. AnswersFrom live ids.now (event_of e.heard) e.feedback) }
    ensures low { IfSome result (λ e. e.feedback ≤ 65127) }
{
    let Some(above) = arrival.port.checked_sub(live) else {
        return None;
    };
    let Some(&id) = ids.get(usize::from(above / 2)) else {
        return None;
    };
    if above % 2 == 0 {
        return Some(Addressed {
            heard: Heard::Live { id, bytes },
            feedback: arrival.port + 1,
        });
    }
    let client = arrival.from;
    Some(Addressed {
        heard: Heard::Feedback { id, client, bytes },
        feedback: arrival.port,
    })
}
