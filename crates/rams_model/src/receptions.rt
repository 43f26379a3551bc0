//! Worked examples of receivers, which the checker computes.
ghost use Rattle.rams_model.specs.Worked.Receptions.{Handover, BeforeTheBurst, TheFirstNumber, TheRoom, JoinsWithWhatItHas, UnfitMedia, TuneAndLeave};

/// What receivers answer to datagrams, present and send.
pub fn receptions_of_datagrams()
    ensures handover { Handover }
    ensures before_the_burst { BeforeTheBurst }
    ensures first_number { TheFirstNumber }
    ensures room { TheRoom }
    ensures joins { JoinsWithWhatItHas }
    ensures unfit_media { UnfitMedia }
    ensures tune_and_leave { TuneAndLeave }
{}
