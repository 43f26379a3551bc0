//! What a line is that was judged.
use channel_config::Config;
use trace_lines::Line;

/// One line that may come where it stands.
#[derive(Clone, Copy, PartialEq, Eq)]
pub enum Judged<'a> {
    /// A channel line, with its settings checked for the tick of the trace.
    Channel { version: u8, config: Config },
    /// Any other line.
    Other(Line<'a>),
}
