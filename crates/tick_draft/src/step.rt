//! What is done for the clients of a tick.
ghost use Rattle.std.specs.Prelude.{◌≡◌, true, Some};
ghost use Rattle.tick_draft.specs.{sends, sending_of, other_step};

use crate::sendings::Sendings;
use rams_model::Note;

/// What is done for one client.
#[derive(Clone, Copy, PartialEq, Eq)]
pub enum Step {
    /// These packets were sent to it.
    Sent(Sendings),
    /// Its burst ended.
    End { client: u64 },
    /// A packet that it asked for is no longer held. The client isn't idle.
    Gone { client: u64 },
    /// It is no longer known.
    Forgot { client: u64 },
}

/// The packet, of so many bytes, that a note sends.
#[inline(always)]
pub fn sending_of(bytes: u64, note: &Note) -> Sendings
    requires { sends note.now ≡ true }
    ensures { sending_of bytes note.now ≡ Some result }
{
    match *note {
        Note::Burst { client, .. } => Sendings::one(client, 1, bytes),
        Note::Repair { client, .. } => Sendings::one(client, 0, bytes),
        _ => unreachable!(),
    }
}

/// What is done for a note that sends no packet.
pub fn other_step(note: &Note) -> Option<Step>
    ensures { result ≡ other_step note.now }
{
    match *note {
        Note::End { client, .. } => Some(Step::End { client }),
        Note::Gone { client, .. } => Some(Step::Gone { client }),
        Note::Forgot { client } => Some(Step::Forgot { client }),
        _ => None,
    }
}
