//! Worked examples, which the checker computes.
ghost use Rattle.generated.specs.summary.Worked.{OneBlock, FourBlocks};

/// No block, and one.
pub fn one_block()
    ensures { OneBlock }
{}

/// A request, a NACK and a stop.
pub fn four_blocks()
    ensures { FourBlocks }
{}
