//! Laws of every trace, whatever serves it.
ghost use Rattle.std.specs.Prelude.{ℕ, List, []};
ghost use Rattle.trace_loop.specs.trace_book.trace_serving.{opening, IsStage, IsServedSo, StagesAreKept};

/// What serves a trace.
pub trait Serves {
    ghost use Rattle.trace_loop.specs.trace_book.trace_serving.{Serving};

    /// What lines change.
    ghost state: { Type 0 };

    /// What a line may bring.
    ghost event: { Type 0 };

    ghost serving: { Serving state event };
}

/// What holds of the stages of a trace holds before its first line, and each line that goes on keeps
/// it.
pub fn stages_are_kept<S: Serves>()
    ensures opening { IsStage S.serving (opening S.serving) [] }
    ensures kept { StagesAreKept S.serving }
{}

/// A trace is served by the channels and the events of its lines, up to the one that ends it: with
/// `end`, with a line that is refused or missing, or with an event too many. Its text is what the
/// events are answered with.
pub fn traces_are_served_so<S: Serves>()
    ensures { (trace : List ℕ) → IsServedSo S.serving trace }
{}
