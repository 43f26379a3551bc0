//! Worked examples, which the checker computes.
ghost use Rattle.generated.specs.trace_gen.Worked.{FirstDraws, Headers, Sizes, Datagrams, Counts};

/// Draws, and the sizes that they choose.
pub fn draws_of_a_seed()
    ensures first_draws { FirstDraws }
    ensures sizes { Sizes }
{}

/// Packets, datagrams and their number.
pub fn events_of_a_seed()
    ensures headers { Headers }
    ensures datagrams { Datagrams }
    ensures counts { Counts }
{}
