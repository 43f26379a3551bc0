//! Laws of the definitions: each is the contract of a function that does nothing.
ghost use Rattle.channel_cache.specs.reorder_window.{AwaitedAreThose, NotesAreThose, StartsGrowAlike, NoneIsBelowTheFirst, ReleasedAreThose, EndedAreThose};

/// Where the items are the packets of a channel, each under its own number, a window releases what
/// the channel's source says, and its answers are the channel's notes.
pub fn items_are_packets()
    ensures awaited { AwaitedAreThose }
    ensures notes { NotesAreThose }
    ensures grow { StartsGrowAlike }
    ensures from { NoneIsBelowTheFirst }
    ensures released { ReleasedAreThose }
    ensures ended { EndedAreThose }
{}
