//! Worked examples of a world's lines, which the checker computes.
ghost use Rattle.meet_loop.specs.world_text.Worked.{ReceptionLines, DatagramLines, RefusalLines, LinesOfAWorld};

/// The line of everything that is said of an event.
pub fn lines_of_notes()
    ensures receptions { ReceptionLines }
    ensures datagrams { DatagramLines }
    ensures refusals { RefusalLines }
{}

/// The lines of some events of a world.
pub fn lines_of_events()
    ensures { LinesOfAWorld }
{}
