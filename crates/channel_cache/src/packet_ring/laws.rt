//! Laws of the definitions: each is the contract of a function that does nothing.
ghost use Rattle.channel_cache.specs.packet_ring.{TheEndGrows, EndsAreAlike, TheNextIsAbove, PacketsStandInOrder};

/// What is held of a source with one more packet; it ends where the source does, below the next.
pub fn held_ends_as_its_source()
    ensures grows { TheEndGrows }
    ensures ends { EndsAreAlike }
    ensures above { TheNextIsAbove }
{}

/// The packets from a number on, one by one.
pub fn packets_stand_in_order()
    ensures { PacketsStandInOrder }
{}
