//! Which notes ask for a datagram.
ghost use Rattle.std.specs.Prelude.{◌≡◌, if◌then◌else◌};
ghost use Rattle.rams_model.specs.Texts.{order_count};

use rams_model::{Cause, Note};

/// Whether a note asks for a datagram.
pub(crate) fn asks(note: &Note) -> bool
    ensures { order_count note.now ≡ (if result then 1 else 0) }
{
    match note {
        Note::Accept { .. }
        | Note::Update { .. }
        | Note::Again { .. }
        | Note::Refuse { .. }
        | Note::Burst { .. }
        | Note::Repair { .. } => true,
        Note::End { cause, .. } => !matches!(cause, Cause::Bye),
        Note::Live(_)
        | Note::StopAt { .. }
        | Note::StopKept { .. }
        | Note::StopIdle { .. }
        | Note::Queued { .. }
        | Note::Already { .. }
        | Note::Unheld { .. }
        | Note::Early { .. }
        | Note::TableFull { .. }
        | Note::ClientFull { .. }
        | Note::QueueFull { .. }
        | Note::ForeignNack { .. }
        | Note::BadFeedback { .. }
        | Note::Bye { .. }
        | Note::ByeIdle { .. }
        | Note::Gone { .. }
        | Note::Forgot { .. } => false,
    }
}
