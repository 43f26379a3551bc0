//! Where a burst may begin.

/// Where a burst begins, or why it can't.
#[derive(Clone, Copy, PartialEq, Eq)]
pub enum Choice {
    /// At the packet of this number. The packets from it on, itself among them, take `behind` bytes on
    /// the wire.
    Start { n: u64, behind: u64 },
    /// No access point leaves enough room (response code 507).
    NoStart,
    /// None of those that do is old enough (401).
    MinUnmet,
    /// The newest of those that are old enough is too old (402).
    MaxUnmet,
}
