//! The notes of a datagram, as they are written.

use ram_io::NoMemory;
use rams_model::{Note, Notes};
use std::alloc::Global;
use std::marker::Model;

/// Some notes, with room for more. Room for one takes no memory.
#[derive(Drop)]
pub(crate) struct Pad {
    kept: Kept,
}

#[derive(Drop)]
pub(crate) enum Kept {
    /// None yet; there is room for one.
    Nothing,
    One(Note),
    Many(Vec<Note>),
}

impl Model for Pad {
    ghost use Rattle.feedback_core.specs.Pads.{Written, written};

    ghost Value = { Written };

    ghost view = { λ p. written p.kept };
}

impl Pad {
    ghost use Rattle.std.specs.Prelude.{◌≡◌, ◌+◌, ◌≤◌, ◌<◌, [], ◌∷◌, ◌++◌, length, IfOk};

    /// No notes, with room for so many.
    pub fn new(alloc: Global, most: usize) -> Result<Pad, NoMemory>
        ensures items { IfOk result (λ pad. pad.items ≡ []) }
        ensures room { IfOk result (λ pad. most ≤ pad.room) }
    {
        let kept = if most <= 1 {
            Kept::Nothing
        } else {
            Kept::Many(Vec::with_capacity(alloc, most)?)
        };
        Ok(Pad { kept })
    }

    /// Writes a note behind the others. Takes no memory.
    pub fn push(&mut self, note: Note)
        requires { length self.old.items < self.old.room }
        ensures items { self.new.items ≡ self.old.items ++ note ∷ [] }
        ensures len { length self.new.items ≡ length self.old.items + 1 }
        ensures room { self.new.room ≡ self.old.room }
    {
        match &mut self.kept {
            Kept::Nothing => self.kept = Kept::One(note),
            Kept::One(_) => unreachable!(),
            Kept::Many(notes) => notes.push_reserved(note),
        }
    }

    /// The notes. Takes no memory.
    pub fn finish(self, alloc: Global) -> Notes
        ensures { result ≡ self.items }
    {
        match self.kept {
            Kept::Nothing => Notes::from_vec(Vec::new(alloc)),
            Kept::One(note) => Notes::one(note),
            Kept::Many(notes) => Notes::from_vec(notes),
        }
    }
}
