//! Whom a tick forgets.
ghost use Rattle.service_laws.specs.tick_laws.{NobodyIsForgottenSooner, NobodyIsForgottenLater};

/// A client is forgotten as soon as it has been idle for `idle` ticks, and no sooner: through so many
/// ticks it sent no datagram that frames, was sent nothing, and had neither an open burst nor a pending
/// repair.
pub fn a_client_is_forgotten_in_time()
    ensures sooner { NobodyIsForgottenSooner }
    ensures later { NobodyIsForgottenLater }
{}
