//! What is noted of a message, and what its client is told.

use client_table::Info;
use rams_model::{Cause, Note};

/// The answer to a message that gets one note, which may end the client's burst.
#[derive(Clone, Copy)]
pub(crate) struct Said {
    pub note: Note,
    /// Why the burst ends.
    pub end: Option<Cause>,
    /// What the client is told.
    pub info: Option<Info>,
}

impl Said {
    ghost use Rattle.std.specs.Prelude.{◌≡◌};
    ghost use Rattle.feedback_core.specs.{only};

    /// The note alone, of which the client isn't told.
    pub fn only(note: Note) -> Said
        ensures { result ≡ only note }
    {
        Said {
            note,
            end: None,
            info: None,
        }
    }
}
