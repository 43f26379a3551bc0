//! Laws of the definitions. A law is the contract of a function that does nothing, or calls a law that it
//! follows from.
ghost use Rattle.takeover.specs.standby.{NothingBehindCounts, WholeLinesAreFollowed};

use trace_loop::trace_book::laws::traces_are_served_by_their_lines;

/// The whole lines of any bytes are a trace, and what they lead to is what the events of these lines
/// make of the channels, in order, up to `end` or a line that is refused.
pub fn whole_lines_are_followed()
    ensures { WholeLinesAreFollowed }
{
    traces_are_served_by_their_lines();
}

/// Nothing behind the line that ends a journal is followed, be it `end` or a line that is refused.
pub fn nothing_behind_the_end_counts()
    ensures { NothingBehindCounts }
{}
