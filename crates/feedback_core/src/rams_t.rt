//! The answer to a RAMS-T (RFC 6285, 7.4).
ghost use Rattle.std.specs.Prelude.{◌≡◌};
ghost use Rattle.rams_model.specs.Service.{after_stop, stop_burst as after_stop_burst, open_burst};
ghost use Rattle.rams_model.specs.Formats.{stop_at};
ghost use Rattle.feedback_core.specs.{IsReadyDesk, AreOfOne, IsAny, IsSaid, Serves};

use crate::desk::Desk;
use crate::said::Said;
use channel_parts::response::{UNREADABLE_STOP, end_info, refuse_info};
use client_table::{Burst, Entry};
use rams_model::{Cause, Note};
use reckoning::burst_plan::stop_of;
use wire_packets::rams_tlv::read_stop;

/// Answers the termination that is read from this feedback control information.
pub(crate) fn answer_stop(desk: &mut Desk<'_>, fci: &[u8]) -> Said
    requires { IsReadyDesk desk.old }
    ensures ready { IsReadyDesk desk.new }
    ensures one { AreOfOne desk.old.visitor desk.new.visitor }
    ensures same { desk.new ≡ record desk.old { visitor = desk.new.visitor } }
    ensures says { let s = desk.old.config.now in let k = desk.old.visitor.client in
        Serves desk.old IsAny (λ before history. IsSaid s before history (after_stop s k (stop_at fci.now) history) desk.old.queue.now desk.new.visitor result) }
{
    match read_stop(fci) {
        Ok(stop) => stop_burst(desk, stop.first_multicast),
        Err(_) => Said {
            note: Note::Refuse {
                client: desk.visitor.client,
                code: UNREADABLE_STOP,
            },
            end: None,
            info: Some(refuse_info(UNREADABLE_STOP)),
        },
    }
}

// Stops the open burst before the packet that is named, where there is one and no stop is set. It has
// ended where that is the packet that would be sent next.
fn stop_burst(desk: &mut Desk<'_>, named: Option<u32>) -> Said
    requires { IsReadyDesk desk.old }
    ensures ready { IsReadyDesk desk.new }
    ensures one { AreOfOne desk.old.visitor desk.new.visitor }
    ensures same { desk.new ≡ record desk.old { visitor = desk.new.visitor } }
    ensures says { let s = desk.old.config.now in let k = desk.old.visitor.client in
        Serves desk.old IsAny (λ before history. IsSaid s before history (after_stop_burst k named (open_burst s k history) history) desk.old.queue.now desk.new.visitor result) }
{
    let client = desk.visitor.client;
    let Some(open) = desk.visitor.open() else {
        return Said::only(Note::StopIdle { client });
    };
    if let Some(n) = open.burst.stop {
        return Said::only(Note::StopKept { client, n });
    }
    let n = stop_of(open.burst.first, open.burst.next, named);
    let note = Note::StopAt { client, n };
    if n == open.burst.next {
        let amount = open.burst.rate + desk.config.channel().depth;
        desk.visitor.budget.release(amount);
        desk.visitor.entry = Some(Entry {
            burst: None,
            ..open.entry
        });
        return Said {
            note,
            end: Some(Cause::Stopped),
            info: end_info(&open.burst.last, Cause::Stopped),
        };
    }
    desk.visitor.entry = Some(Entry {
        burst: Some(Burst {
            stop: Some(n),
            ..open.burst
        }),
        ..open.entry
    });
    Said::only(note)
}
