//! Laws of the definitions: each is the contract of a function that does nothing.
ghost use Rattle.converters.specs.description_loop.sdp_config.{DescriptionsAreReadBack, LongTextsAreRefused, SettingsAreInRange};

/// A channel's description reads as its settings.
#[tactic(auto, using(crate::proofs::description_loop::sdp_config::ReadBack::read_back))]
pub fn descriptions_are_read_back()
    ensures { DescriptionsAreReadBack }
{}

/// A description of more than 4,098,000 bytes is refused, and the bytes behind these and one more
/// don't change its fault.
pub fn long_texts_are_refused()
    ensures { LongTextsAreRefused }
{}

/// What a description gives a channel are two payload types (RFC 3551, 6) and a media source.
pub fn settings_are_in_range()
    ensures { SettingsAreInRange }
{}
