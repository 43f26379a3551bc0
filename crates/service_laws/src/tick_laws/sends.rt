//! A tick sends all that it may.
ghost use Rattle.service_laws.specs.tick_laws.{EachWaitingRepairDidNotFit, RepairsGoneAreNotHeld, EachRunWentOn};

/// A repair that still waits after a tick had its turn in it, and its packet, which is held, was larger
/// than what its client might still take or than what the channel had left. A repair is given up only
/// where its packet isn't held.
pub fn each_waiting_repair_did_not_fit()
    ensures waits { EachWaitingRepairDidNotFit }
    ensures gone { RepairsGoneAreNotHeld }
{}

/// After a tick the next packet of an open burst isn't held, or doesn't stand before the burst's stop, or
/// is larger than what the burst has left: each run went on as long as it might.
pub fn each_run_went_on()
    ensures { EachRunWentOn }
{}
