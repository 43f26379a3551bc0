//! Laws of the definitions: each is the contract of a function that does nothing.
ghost use Rattle.converters.specs.capture_loop.pcap_trace.{TicksAreDue};

/// Ticks come where they are due: the first is due one tick after the first moment, and each other
/// one tick after the one before.
pub fn ticks_are_due()
    ensures { TicksAreDue }
{}
