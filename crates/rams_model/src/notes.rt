//! The notes of an answer.
ghost use Rattle.std.specs.Prelude.{◌≡◌};

use crate::note::Note;
use std::marker::Model;
use std::ops::DerefSlice;
use std::slice;

/// Some notes, in order. Where there is one, as most answers have, it takes no memory.
#[derive(Drop)]
pub struct Notes {
    kept: Kept,
}

#[derive(Drop)]
pub(crate) enum Kept {
    One(Note),
    Many(Vec<Note>),
}

impl Model for Notes {
    ghost use Rattle.std.specs.Prelude.{List};
    ghost use Rattle.rams_model.specs.declared.note.Note.{Note};
    ghost use Rattle.rams_model.specs.Service.EventAnswer.{notes_in};

    ghost Value = { List Note };

    ghost view = { λ n. notes_in n.kept };
}

impl Notes {
    ghost use Rattle.std.specs.Prelude.{[], ◌∷◌};

    /// One note. Takes no memory.
    pub fn one(note: Note) -> Notes
        ensures { result ≡ note ∷ [] }
    {
        Notes {
            kept: Kept::One(note),
        }
    }

    /// Those of a vector. Takes no memory.
    pub fn from_vec(notes: Vec<Note>) -> Notes
        ensures { result ≡ notes.items }
    {
        Notes {
            kept: Kept::Many(notes),
        }
    }

    /// The notes.
    pub fn as_slice(&self) -> &[Note]
        ensures { result.now ≡ self.now }
    {
        match &self.kept {
            Kept::One(note) => slice::from_ref(note),
            Kept::Many(notes) => notes,
        }
    }

    /// Gives back the room that they don't need.
    pub fn shrink_to_fit(&mut self)
        ensures { self.new ≡ self.old }
    {
        if let Kept::Many(notes) = &mut self.kept {
            notes.shrink_to_fit();
        }
    }
}

impl DerefSlice for Notes {
    type Elem = Note;

    ghost deref_gives = { λ notes xs. xs ≡ notes };

    fn deref(&self) -> &[Note] {
        self.as_slice()
    }
}
