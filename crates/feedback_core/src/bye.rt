//! The answer to a BYE (RFC 3550, 6.6).
ghost use Rattle.std.specs.Prelude.{◌≡◌, None};
ghost use Rattle.rams_model.specs.Service.{after_bye};
ghost use Rattle.wire_packets.specs.rtcp_frame.{shown_packet};
ghost use Rattle.feedback_core.specs.{IsReadyDesk, IsSameDesk, IsAny, IsSaid, Serves};

use crate::desk::Desk;
use crate::said::Said;
use rams_model::{Cause, Note};
use wire_packets::rtcp_frame::{Packet, bye_names};

/// A known client leaves, where the BYE names its SSRC: its open burst ends and its pending repairs are
/// forgotten.
pub(crate) fn answer_bye(desk: &mut Desk<'_>, packet: &Packet<'_>) -> Said
    requires { IsReadyDesk desk.old }
    ensures ready { IsReadyDesk desk.new }
    ensures same_queue { desk.new.queue.ghost_name ≡ desk.old.queue.ghost_name }
    ensures same { IsSameDesk desk.old desk.new }
    ensures page { desk.new.page ≡ desk.old.page }
    ensures info { result.info ≡ None }
    ensures says { let s = desk.old.config.now in let k = desk.old.visitor.client in
        Serves desk.old IsAny (λ before history. IsSaid s before history (after_bye s k (shown_packet packet.now) history) desk.new.queue.now desk.new.visitor result) }
{
    let client = desk.visitor.client;
    let Some(entry) = desk.visitor.entry else {
        return Said::only(Note::ByeIdle { client });
    };
    if !bye_names(packet, entry.ssrc) {
        return Said::only(Note::ByeIdle { client });
    }
    desk.queue.forget(client);
    let open = desk.visitor.open();
    desk.visitor.entry = None;
    let note = Note::Bye { client };
    let Some(open) = open else {
        return Said::only(note);
    };
    let amount = open.burst.rate + desk.config.channel().depth;
    desk.visitor.budget.release(amount);
    Said {
        note,
        end: Some(Cause::Bye),
        info: None,
    }
}
