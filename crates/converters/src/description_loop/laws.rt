//! Laws of the definitions: each is the contract of a function that does nothing.
ghost use Rattle.converters.specs.description_loop.{HeadsAreThreeLines, SettingsAreTraces, SettingsAreTurnedBack};

/// A head is its three lines: each is the text of what it says.
pub fn heads_are_three_lines()
    ensures { HeadsAreThreeLines }
{}

/// What `sdp` writes for a lawful input is a trace that `run` reads to its end.
pub fn settings_are_traces()
    ensures { SettingsAreTraces }
{}

/// What `describe` writes for a head reads back as the settings of its channel, and `sdp` turns it back
/// into the head.
pub fn settings_are_turned_back()
    ensures { SettingsAreTurnedBack }
{}
