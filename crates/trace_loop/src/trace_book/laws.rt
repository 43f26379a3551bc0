//! Laws of every trace: of its stages, its channels, their link, and its text.
ghost use Rattle.server_hub.specs.declared.HubEvent.{HubEvent};
ghost use Rattle.server_hub.specs.Served.{Served};
ghost use Rattle.std.specs.Prelude.{List};
ghost use Rattle.trace_loop.specs.trace_book.{run, TracesStayWithinTheLink, TracesAreServedLawfully, ChannelsKeepTheirPromises, TracesAreServedByTheirLines, TracesEndSo, TheOpeningIsAStage, StagesAreKept};

use crate::trace_book::trace_serving::laws::{
    Serves, stages_are_kept as serving_keeps_stages, traces_are_served_so,
};
use rams_model::clients_are_since;
use server_hub::laws::{
    channels_get_their_events, channels_stay_within_the_link, ticks_stay_within_the_link,
};
use service_laws::book_laws::{budgets, join_times, numbers, one_book, refusals, sendings, stops};
use service_laws::byte_laws::{held, live, messages, told};
use service_laws::tick_laws::{forgets, order, sends};

/// The command `run`, as what serves its traces.
pub enum Run {}

impl Serves for Run {
    ghost state = { List Served };

    ghost event = { HubEvent };

    ghost serving = { run };
}

/// What holds of the stages of a trace holds before its first line, and each line that goes on keeps
/// it.
pub fn stages_are_kept()
    ensures opening { TheOpeningIsAStage }
    ensures kept { StagesAreKept }
{
    serving_keeps_stages::<Run>();
}

/// Whatever came to a channel with lawful settings, it keeps its promises, if that is made of bytes: the
/// laws of every lawful book hold at each of its moments.
pub fn channels_keep_their_promises()
    ensures { ChannelsKeepTheirPromises }
{
    one_book::exactly_one_book();
    one_book::books_tell_the_history();
    sendings::first_sendings_are_consecutive();
    sendings::a_burst_begins_at_an_eligible_access_point();
    sendings::each_datagram_is_the_retransmission_of_a_source_packet();
    numbers::the_first_sending_has_the_number_that_the_accept_named();
    numbers::an_open_bursts_client_is_known();
    numbers::the_first_number_is_the_bursts();
    stops::the_stop_is_respected();
    stops::each_burst_ends_or_is_open();
    stops::a_stop_is_what_was_named();
    budgets::clients_stay_within_their_budgets();
    budgets::channels_stay_within_their_budgets();
    budgets::reserves_fit_the_share();
    budgets::runs_are_covered();
    budgets::budgets_are_kept_over_ticks();
    refusals::refusals_are_true();
    refusals::requests_are_answered_by_the_table();
    refusals::nacks_are_answered_by_the_table();
    refusals::stops_and_byes_are_answered_exactly();
    refusals::what_is_counted_stands_once();
    join_times::quiet_bursts_keep_their_join_times();
    held::each_packet_came();
    live::each_live_note_is_right();
    messages::each_datagram_is_answered_whole();
    told::each_note_tells_its_client_so();
    sends::each_waiting_repair_did_not_fit();
    sends::each_run_went_on();
    order::a_tick_serves_in_order();
    forgets::a_client_is_forgotten_in_time();
    clients_are_since();
}

/// Whatever the trace, each channel that it is served by keeps its promises.
pub fn traces_are_served_lawfully()
    ensures { TracesAreServedLawfully }
{
    traces_are_served_so::<Run>();
    traces_are_served_by_their_lines();
    channels_keep_their_promises();
}

/// Whatever the trace, its channels together stay within the link of its head line, in each tick and
/// over ticks.
pub fn traces_stay_within_the_link()
    ensures { TracesStayWithinTheLink }
{
    traces_are_served_so::<Run>();
    ticks_stay_within_the_link();
    channels_stay_within_the_link();
}

/// A trace is served by the channels and the events of its lines, up to the one that ends it: to each
/// channel come its own packets and datagrams, and each tick.
pub fn traces_are_served_by_their_lines()
    ensures { TracesAreServedByTheirLines }
{
    traces_are_served_so::<Run>();
    channels_get_their_events();
}

/// A trace ends at the first line that doesn't go on: with `end`, with a line that is refused or
/// missing, or with event 1,000,001. Its book is what its events are answered with.
pub fn traces_end_so()
    ensures { TracesEndSo }
{
    traces_are_served_so::<Run>();
}
