//! A whole line of a journal.
ghost use Rattle.std.specs.Prelude.{◌≡◌, ◌+◌, Ok, List, ℕ, is_ok, true};
ghost use Rattle.rams_model.specs.Texts.{accepted, may_come, line_in_range, tick_of};
ghost use Rattle.server_hub.specs.Served.{Served};
ghost use Rattle.trace_loop.specs.trace_book.trace_serving.{Stage, turn};
ghost use Rattle.trace_loop.specs.trace_book.{run};
ghost use Rattle.trace_lines.specs.{shown, HasDigits};
ghost use Rattle.trace_text.specs.{told, IsOther, IsSettled};
ghost use Rattle.takeover.specs.declared.standby.fault.Step.TheVariants as steps;
ghost use Rattle.takeover.specs.standby.{Halting, IsSame, Stands, StandsSomewhere, Took, count_of, turn_of};

use crate::standby::channels::{Channels, begin, next_number, open, serve};
use crate::standby::fault::{FeedFault, Step};
use server_hub::Heard;
use std::alloc::Global;
use trace_text::{Judged, Line, decode_to};

/// What a line does. Where it doesn't go on, nothing has changed.
pub fn take_line(alloc: Global, channels: &mut Channels, line: &[u8]) -> Result<Step, FeedFault>
    requires stands { StandsSomewhere channels.old.hub channels.old.ids.items channels.old.events channels.old.state }
    ensures turn { (stage : Stage (List Served)) (number : ℕ) → Stands channels.old.hub channels.old.ids.items channels.old.events channels.old.state stage
        → number ≡ count_of channels.old.hub channels.old.ids.items channels.old.events + 1
        → Took result (turn run stage number line.now) (Stands channels.new.hub channels.new.ids.items channels.new.events channels.new.state) number }
    ensures same { Halting result (IsSame channels.old.hub channels.new.hub channels.old.ids.items channels.new.ids.items channels.old.events channels.new.events channels.old.state channels.new.state) }
    ensures count { result ≡ Ok steps.GoesOn → count_of channels.new.hub channels.new.ids.items channels.new.events ≡ count_of channels.old.hub channels.old.ids.items channels.old.events + 1 }
{
    match channels.state.inspect(line) {
        Ok(read) => after_line(alloc, channels, &read),
        Err(fault) => {
            let line = next_number(channels);
            Err(FeedFault::Line { line, fault })
        }
    }
}

/// What a line does that may come next.
fn after_line(alloc: Global, channels: &mut Channels, line: &Judged<'_>) -> Result<Step, FeedFault>
    requires accepted { is_ok (accepted channels.old.state (told line.now)) ≡ true }
    requires settled { IsSettled (tick_of channels.old.state.head) line.now }
    requires stands { StandsSomewhere channels.old.hub channels.old.ids.items channels.old.events channels.old.state }
    ensures turn { (stage : Stage (List Served)) (number : ℕ) → Stands channels.old.hub channels.old.ids.items channels.old.events channels.old.state stage
        → number ≡ count_of channels.old.hub channels.old.ids.items channels.old.events + 1
        → Took result (turn_of stage number (told line.now)) (Stands channels.new.hub channels.new.ids.items channels.new.events channels.new.state) number }
    ensures same { Halting result (IsSame channels.old.hub channels.new.hub channels.old.ids.items channels.new.ids.items channels.old.events channels.new.events channels.old.state channels.new.state) }
    ensures count { result ≡ Ok steps.GoesOn → count_of channels.new.hub channels.new.ids.items channels.new.events ≡ count_of channels.old.hub channels.old.ids.items channels.old.events + 1 }
{
    match line {
        Judged::Channel { version, config } => open(alloc, channels, line, *version, *config),
        Judged::Other(line) => after_other(alloc, channels, *line),
    }
}

/// What a line does that opens no channel.
fn after_other(alloc: Global, channels: &mut Channels, line: Line<'_>) -> Result<Step, FeedFault>
    requires may { may_come channels.old.state (shown line) ≡ true }
    requires range { line_in_range (shown line) ≡ true }
    requires other { IsOther line }
    requires digits { HasDigits line }
    requires stands { StandsSomewhere channels.old.hub channels.old.ids.items channels.old.events channels.old.state }
    ensures turn { (stage : Stage (List Served)) (number : ℕ) → Stands channels.old.hub channels.old.ids.items channels.old.events channels.old.state stage
        → number ≡ count_of channels.old.hub channels.old.ids.items channels.old.events + 1
        → Took result (turn_of stage number (shown line.entry)) (Stands channels.new.hub channels.new.ids.items channels.new.events channels.new.state) number }
    ensures same { Halting result (IsSame channels.old.hub channels.new.hub channels.old.ids.items channels.new.ids.items channels.old.events channels.new.events channels.old.state channels.new.state) }
    ensures count { result ≡ Ok steps.GoesOn → count_of channels.new.hub channels.new.ids.items channels.new.events ≡ count_of channels.old.hub channels.old.ids.items channels.old.events + 1 }
{
    let Channels {
        hub,
        events,
        state,
        bytes,
        ..
    } = channels;
    match line {
        Line::Head {
            version,
            tick_ms,
            link,
        } => begin(alloc, hub, state, version, tick_ms, link),
        Line::Live { id, hex } => {
            decode_to(hex, bytes)?;
            let heard = Heard::Live { id, bytes };
            serve(alloc, hub, events, state, heard, &line)
        }
        Line::Feedback { id, client, hex } => {
            decode_to(hex, bytes)?;
            let heard = Heard::Feedback { id, client, bytes };
            serve(alloc, hub, events, state, heard, &line)
        }
        Line::Tick => serve(alloc, hub, events, state, Heard::Tick, &line),
        Line::End => Ok(Step::Ends),
        // None of these is a channel's line, and no journal has the others.
        Line::Channel { .. }
        | Line::Tune { .. }
        | Line::Give { .. }
        | Line::Mcast { .. }
        | Line::Ask { .. }
        | Line::Drop { .. } => unreachable!(),
    }
}
