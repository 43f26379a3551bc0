//! Notes of an answer, counted.
ghost use Rattle.std.specs.Prelude.{◌≡◌, ◌+◌, ◌≤◌, ◌^◌, ◌<◌, length};
ghost use Rattle.generated.specs.summary.Counts as spec;
ghost use Rattle.generated.specs.summary.Steps.{AreAtMost, with_note, sum_of};

use rams_model::{LiveNote, Note};

/// How many notes of each kind there are.
#[derive(Clone, Copy, PartialEq, Eq)]
pub struct Counts {
    /// Packets that came in time.
    pub took: u64,
    /// Bursts that began.
    pub accept: u64,
    /// Requests for a burst that was open.
    pub again: u64,
    /// Requests and stops that were refused.
    pub refuse: u64,
    /// Packets of bursts that were sent.
    pub burst: u64,
    /// Packets that were sent again.
    pub repair: u64,
    /// Bursts that ended.
    pub end: u64,
}

impl Counts {
    /// None.
    pub const NONE: Counts = Counts {
        took: 0,
        accept: 0,
        again: 0,
        refuse: 0,
        burst: 0,
        repair: 0,
        end: 0,
    };

    /// Those of some notes.
    #[tactic(auto, using(crate::proofs::summary::Counting::counts_push, crate::proofs::summary::Counting::counts_few, crate::proofs::summary::Counting::counts_none))]
    pub(crate) fn of(notes: &[Note]) -> Counts
        requires { length notes.now < 2 ^ 32 }
        ensures value { result ≡ spec.counts_of notes.now }
        ensures few { AreAtMost (length notes.now) result }
    {
        let mut counts = Counts::NONE;
        for note in notes {
            counts.count(note);
        }
        counts
    }

    /// One note more.
    pub(crate) fn count(&mut self, note: &Note)
        requires { AreAtMost (2 ^ 63) self.old }
        ensures { self.new ≡ with_note self.old note.now }
    {
        match note {
            Note::Live(LiveNote::Took(_)) => self.took += 1,
            Note::Accept { .. } => self.accept += 1,
            Note::Again { .. } => self.again += 1,
            Note::Refuse { .. } => self.refuse += 1,
            Note::Burst { .. } => self.burst += 1,
            Note::Repair { .. } => self.repair += 1,
            Note::End { .. } => self.end += 1,
            _ => (),
        }
    }

    /// Both together.
    pub(crate) fn plus(self, other: Counts) -> Counts
        requires left { AreAtMost (2 ^ 62) self }
        requires right { AreAtMost (2 ^ 62) other }
        ensures { result ≡ sum_of self other }
    {
        Counts {
            took: self.took + other.took,
            accept: self.accept + other.accept,
            again: self.again + other.again,
            refuse: self.refuse + other.refuse,
            burst: self.burst + other.burst,
            repair: self.repair + other.repair,
            end: self.end + other.end,
        }
    }
}
