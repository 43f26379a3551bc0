//! Worked examples, which the checker computes.
ghost use Rattle.meet_loop.specs.world_book.Worked.{AReceiverAsks, RefusedInAWorld, OneEventTooMany};

/// Whole texts of small traces, and how traces end.
pub fn texts_of_worlds()
    ensures asks { AReceiverAsks }
    ensures refused { RefusedInAWorld }
    ensures events { OneEventTooMany }
{}
