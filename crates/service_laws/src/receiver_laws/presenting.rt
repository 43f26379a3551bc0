//! What receivers present.
ghost use Rattle.service_laws.specs.receiver_laws.{WhatIsPresentedIsAPrefix, WhatIsDeliveredIsPresented, PresentingEnds, AHandoverIsFair};

/// What a receiver presents are the source's packets from its first number on, each once, in their
/// order, and without their padding; whatever was lost, repeated or reordered on the way.
///
/// Each packet that comes is the source's under its number, and no further from the number that is
/// presented next than sequence numbers of 16 bits tell apart.
pub fn what_is_presented_is_a_prefix()
    ensures { WhatIsPresentedIsAPrefix }
{}

/// What was delivered without a gap from the first number on, each packet while there was room for
/// it, is presented.
pub fn what_is_delivered_is_presented()
    ensures { WhatIsDeliveredIsPresented }
{}

/// As often as packets wait is often enough to present all that can be presented.
pub fn presenting_ends()
    ensures { PresentingEnds }
{}

/// There are such deliveries: a handover of three packets, the first of which comes last.
pub fn a_handover_is_fair()
    ensures { AHandoverIsFair }
{}
