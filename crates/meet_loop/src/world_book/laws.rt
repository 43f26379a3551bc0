//! Laws of every trace that `meet` serves: of its world, its text, and its receivers.
ghost use Rattle.meet_loop.specs.world_laws.World.{World};
ghost use Rattle.meet_loop.specs.declared.world_laws.world.WorldEvent.{WorldEvent};
ghost use Rattle.meet_loop.specs.world_book.{meet, WorldsAreServedByTheirLines, WorldsEndSo, ReceiversPresentTheirSources, WorldsAreServedLawfully};

use crate::world_laws::laws::{
    each_delivery_is_of_the_source, each_info_is_of_the_channel, each_receiver_presents_a_prefix,
    each_receiver_presents_what_is_delivered,
};
use trace_loop::trace_book::laws::channels_keep_their_promises;
use trace_loop::trace_book::trace_serving::laws::{Serves, traces_are_served_so};
use trace_text::lines_are_spelled_as_read;

/// The command `meet`, as what serves its traces.
pub enum Meet {}

impl Serves for Meet {
    ghost state = { World };

    ghost event = { WorldEvent };

    ghost serving = { meet };
}

/// A trace is served by the world of its lines, up to the one that ends it: its channels are those of
/// the channel lines, and to it comes what the event lines bring.
pub fn worlds_are_served_by_their_lines()
    ensures { WorldsAreServedByTheirLines }
{
    traces_are_served_so::<Meet>();
}

/// A trace ends at the first line that doesn't go on: with `end`, with a line that is refused or
/// missing, with event 100,001, or with one that would bring datagram 400,001. Its text is what is said
/// of its events.
pub fn worlds_end_so()
    ensures { WorldsEndSo }
{
    traces_are_served_so::<Meet>();
}

/// Whatever the trace, each receiver presented a prefix of its channel's source from its first number
/// on, and what was delivered to it without a gap; nothing foreign and nothing bad came to it, of the
/// media and of RAMS-I.
pub fn receivers_present_their_sources()
    ensures { ReceiversPresentTheirSources }
{
    traces_are_served_so::<Meet>();
    each_receiver_presents_a_prefix();
    each_receiver_presents_what_is_delivered();
    each_delivery_is_of_the_source();
    each_info_is_of_the_channel();
    lines_are_spelled_as_read();
}

/// Whatever the trace, each channel of its world keeps its promises: the laws of every lawful book
/// hold at each of its moments, whatever receivers send to it.
pub fn worlds_are_served_lawfully()
    ensures { WorldsAreServedLawfully }
{
    traces_are_served_so::<Meet>();
    channels_keep_their_promises();
}
