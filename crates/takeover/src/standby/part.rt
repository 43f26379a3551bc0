//! The bytes of a line that isn't whole yet.
ghost use Rattle.std.specs.Prelude.{◌≡◌, ◌+◌, ◌++◌, ◌<◌, ◌≤◌, [], List, ℕ, Ok, MatchOption, OnErr, OnOk, IfErr, length, vec_capacity};
ghost use Rattle.line_io.specs.{HasNoFeed, IsCutAt};
ghost use Rattle.server_hub.specs.Served.{Served};
ghost use Rattle.trace_loop.specs.trace_book.trace_serving.{Stage, turn};
ghost use Rattle.trace_loop.specs.trace_book.{run};
ghost use Rattle.rams_model.specs.declared.LineFault.TheVariants as line_faults;
ghost use Rattle.takeover.specs.declared.standby.fault.FeedFault.TheVariants as faults;
ghost use Rattle.takeover.specs.declared.standby.fault.Step.TheVariants as steps;
ghost use Rattle.takeover.specs.standby.{Halting, IsSame, Stands, StandsSomewhere, Took, count_of};

use crate::standby::channels::{Channels, next_number};
use crate::standby::fault::{FeedFault, Step};
use crate::standby::line::take_line;
use memchr::memchr;
use rams_model::LineFault;
use std::alloc::Global;
use trace_text::LONGEST_LINE;

/// The place of the first line feed.
pub fn find_feed(bytes: &[u8]) -> Option<usize>
    ensures { MatchOption result (HasNoFeed bytes.now) (IsCutAt bytes.now) }
{
    memchr(b'\n', bytes)
}

/// Appends bytes to a line. A line that gets too long is refused, and isn't changed.
pub fn append(channels: &Channels, part: &mut Vec<u8>, bytes: &[u8]) -> Result<(), FeedFault>
    requires stands { StandsSomewhere channels.now.hub channels.now.ids.items channels.now.events channels.now.state }
    requires fits { length part.old.items ≤ 4096 }
    requires room { 4096 ≤ vec_capacity part.old }
    ensures all { OnOk result (part.new.items ≡ part.old.items ++ bytes.now) }
    ensures short { OnOk result (length part.old.items + length bytes.now ≤ 4096) }
    ensures long { OnErr result (4096 < length part.old.items + length bytes.now) }
    ensures fault { IfErr result (λ fault. fault ≡ faults.Line (count_of channels.now.hub channels.now.ids.items channels.now.events + 1) line_faults.Form) }
    ensures same { OnErr result (part.new ≡ part.old) }
    ensures room { 4096 ≤ vec_capacity part.new }
{
    if bytes.len() > LONGEST_LINE - part.len() {
        let line = next_number(channels);
        let fault = LineFault::Form;
        return Err(FeedFault::Line { line, fault });
    }
    part.extend_from_slice(bytes).unwrap();
    Ok(())
}

/// Takes the line of which these bytes are the rest. After an error the part of it that came before stays.
pub fn take_whole(
    alloc: Global,
    channels: &mut Channels,
    part: &mut Vec<u8>,
    rest: &[u8],
) -> Result<Step, FeedFault>
    requires stands { StandsSomewhere channels.old.hub channels.old.ids.items channels.old.events channels.old.state }
    requires fits { length part.old.items ≤ 4096 }
    requires room { 4096 ≤ vec_capacity part.old }
    ensures turn { (stage : Stage (List Served)) (number : ℕ) → Stands channels.old.hub channels.old.ids.items channels.old.events channels.old.state stage
        → number ≡ count_of channels.old.hub channels.old.ids.items channels.old.events + 1
        → Took result (turn run stage number (part.old.items ++ rest.now)) (Stands channels.new.hub channels.new.ids.items channels.new.events channels.new.state) number }
    ensures same { Halting result (IsSame channels.old.hub channels.new.hub channels.old.ids.items channels.new.ids.items channels.old.events channels.new.events channels.old.state channels.new.state) }
    ensures count { result ≡ Ok steps.GoesOn → count_of channels.new.hub channels.new.ids.items channels.new.events ≡ count_of channels.old.hub channels.old.ids.items channels.old.events + 1 }
    ensures none { OnOk result (part.new.items ≡ []) }
    ensures stays { OnErr result (part.new.items ≡ part.old.items) }
    ensures room { 4096 ≤ vec_capacity part.new }
{
    // A line that comes in one piece isn't copied.
    if part.is_empty() {
        return take_line(alloc, channels, rest);
    }
    let kept = part.len();
    append(channels, part, rest)?;
    match take_line(alloc, channels, part) {
        Ok(step) => {
            part.clear();
            Ok(step)
        }
        Err(fault) => {
            part.truncate(kept);
            Err(fault)
        }
    }
}
