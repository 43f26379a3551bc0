//! Laws of a server's channels. A law is the contract of a function that does nothing.
ghost use Rattle.std.specs.Prelude.{List, map};
ghost use Rattle.server_hub.specs.Served.{Served};
ghost use Rattle.server_hub.specs.{IsHub, StandsFor, FitLink, TicksStayWithinTheLink, TicksSendAtMostLinkAndSwells, OnlyTicksSend, ChannelsStayWithinTheLink, ChannelsSendAtMostLinkAndSwells, EachChannelGetsItsEvents, EventsGoToTheirChannels};
ghost use Rattle.server_hub.specs.Seen.{Seen};

/// The channels that a hub stands for fit its link, and no two have one number.
pub fn channels_fit_the_link()
    ensures { (v : Seen) (channels : List Served) → IsHub v → StandsFor v channels → FitLink v.tick v.link (map (λ c. c.settings) channels) }
{}

/// In a tick all channels together send at most what the link gives, with what they kept of their
/// budgets, which is at most their swells. Nothing is sent but in ticks.
pub fn ticks_stay_within_the_link()
    ensures budget { TicksStayWithinTheLink }
    ensures most { TicksSendAtMostLinkAndSwells }
    ensures ticks { OnlyTicksSend }
{}

/// Over events that follow one another all channels together send at most as many times what the link
/// gives as there are ticks, and the swells.
pub fn channels_stay_within_the_link()
    ensures budget { ChannelsStayWithinTheLink }
    ensures most { ChannelsSendAtMostLinkAndSwells }
{}

/// An event goes to the channel that it names, and a tick to all: the ticks of all channels are the same.
pub fn channels_get_their_events()
    ensures { EachChannelGetsItsEvents }
{}

/// A worked example of two channels, which the checker computes.
pub fn two_channels()
    ensures { EventsGoToTheirChannels }
{}
