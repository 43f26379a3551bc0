//! Between which numbers the pending repairs are.
ghost use Rattle.std.specs.Prelude.{◌≡◌, ◌==◌, ◌≤◌, ◌<◌, ◌++◌, true, List, [], ◌∷◌};
ghost use Rattle.rams_model.specs.Service.{Wanted as Repair, wanted};
ghost use Rattle.repair_queue.specs.{AreFrom, AreNoLess, Spans};

/// A number that none of some repairs is below, and one that none is above.
#[derive(Clone, Copy, PartialEq, Eq)]
pub(crate) struct Span {
    least: u64,
    most: u64,
}

impl Span {
    /// The span of none.
    pub(crate) fn new() -> Span
        ensures { Spans result [] }
    {
        Span {
            least: u64::MAX,
            most: 0,
        }
    }

    /// The span with one more number.
    pub(crate) fn with(self, n: u64) -> Span
        ensures { (ws : List Repair) (client : _) → Spans self ws → Spans result (ws ++ wanted client n ∷ []) }
    {
        Span {
            least: self.least.min(n),
            most: self.most.max(n),
        }
    }

    /// The span that is open below: it begins with 0.
    pub(crate) fn open(self) -> Span
        ensures { (ws : List Repair) → Spans self ws → Spans result ws }
    {
        Span { least: 0, ..self }
    }

    /// Whether it is open below.
    pub(crate) fn is_open(&self) -> bool
        ensures { result ≡ (self.now.least == 0) }
    {
        self.least == 0
    }

    /// The span that begins with `least`, where no number is less.
    pub(crate) fn since(self, least: u64) -> Span
        ensures { (ws : List Repair) → Spans self ws → AreNoLess least ws → Spans result ws }
    {
        Span { least, ..self }
    }

    /// Whether each number is at least `lo` and below `hi`; where some went it may say no although they
    /// are.
    pub(crate) fn is_within(&self, lo: u64, hi: u64) -> bool
        ensures { result ≡ true → (ws : List Repair) → Spans self.now ws → AreFrom lo hi ws }
    {
        lo <= self.least && self.most < hi
    }
}
