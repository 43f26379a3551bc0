//! What a trace is read for, and what its lines are to the order of a trace.

/// What a trace is read for, which decides the lines that it may have.
#[derive(Clone, Copy, PartialEq, Eq)]
pub enum Mode {
    /// Live packets, feedback and ticks, for any number of channels.
    Run,
    /// The events of receivers too.
    Meet,
    /// Live packets, feedback and ticks, all of one channel.
    Threads,
    /// No event.
    Serve,
    /// No event, and one channel.
    Describe,
}

/// What a line is to the order of a trace.
#[derive(Clone, Copy, PartialEq, Eq)]
pub enum LineKind {
    Head,
    Channel,
    /// A live packet, feedback or a tick.
    Event,
    /// An event of a receiver: `tune`, `give`, `mcast`, `ask` or `drop`.
    ReceiverEvent,
    End,
}
