//! Marks and flags, 64 at a time.
ghost use Rattle.std.specs.Prelude.{◌≡◌, ◌<◌, ◌==◌, ℕ, not, true, false, if◌then◌else◌};
ghost use Rattle.std.specs.List.{list_any};
ghost use Rattle.repair_queue.specs.{mark_of};

/// So many flags are looked at together.
pub(crate) const BLOCK: usize = 64;

/// Which of 64 places have a mark.
#[derive(Clone, Copy)]
pub(crate) struct Block {
    marks: [bool; BLOCK],
}

impl Block {
    /// No marks.
    pub(crate) fn new() -> Block
        ensures { (other : ℕ) → mark_of result other ≡ false }
    {
        Block {
            marks: [false; BLOCK],
        }
    }

    /// Whether there are no marks.
    pub(crate) fn is_empty(&self) -> bool
        ensures { result ≡ true → (other : ℕ) → mark_of self.now other ≡ false }
    {
        !is_any_set(&self.marks)
    }

    /// Whether the place has a mark.
    pub(crate) fn has(&self, place: usize) -> bool
        requires { place < 64 }
        ensures { result ≡ mark_of self.now place }
    {
        self.marks[place]
    }

    /// Marks the place. Whether it had no mark.
    pub(crate) fn mark(&mut self, place: usize) -> bool
        requires { place < 64 }
        ensures was { result ≡ not (mark_of self.old place) }
        ensures marks { (other : ℕ) → mark_of self.new other ≡ (if place == other then true else mark_of self.old other) }
    {
        let is_new = !self.marks[place];
        self.marks[place] = true;
        is_new
    }

    /// The place has no mark any more.
    pub(crate) fn unmark(&mut self, place: usize)
        requires { place < 64 }
        ensures { (other : ℕ) → mark_of self.new other ≡ (if place == other then false else mark_of self.old other) }
    {
        self.marks[place] = false;
    }
}

/// Whether one of the flags is set. It goes through all of them, which takes a few vector
/// instructions.
pub(crate) fn is_any_set(flags: &[bool]) -> bool
    ensures { result ≡ list_any (λ is_done. is_done) flags.now }
{
    let mut is_any = false;
    for is_done in flags {
        is_any |= *is_done;
    }
    is_any
}
