//! In which order a tick serves.
ghost use Rattle.service_laws.specs.tick_laws.{BurstsAreServedByRisingClient, RepairsAreServedAsAsked};

/// A tick serves the open bursts by rising client, and then the pending repairs in the order in which they
/// were asked for: those that it sends or gives up are some of those that waited, in their order.
pub fn a_tick_serves_in_order()
    ensures bursts { BurstsAreServedByRisingClient }
    ensures repairs { RepairsAreServedAsAsked }
{}
