//! The lists into which the events of a channel are dealt.
ghost use Rattle.std.specs.Prelude.{◌≡◌, ◌+◌, ◌<◌, ◌≤◌, ◌++◌, ℕ, List, [], IfOk, OnOk, length, map, slice_index_or};
ghost use Rattle.rams_model.specs.Texts.{tick_of};
ghost use Rattle.server_hub.specs.Served.{Served};
ghost use Rattle.trace_lines.specs.{shown, HasDigits};
ghost use Rattle.trace_text.specs.{told, IsOther, IsSettled};
ghost use Rattle.trace_loop.specs.trace_book.trace_serving.{Stage, opening, turn, after_line, brought, event_at};
ghost use Rattle.trace_loop.specs.head_loop.{with_feed};
ghost use Rattle.threads_loop.specs.{threads, list_of, Comes, Grows, HasDealtBy, HasDealtSome, IsDealt, Took};

use channel_config::Config;
use ram_io::NoMemory;
use rams_model::{Event, LineFault, Octets};
use std::alloc::Global;
use trace_loop::whole_trace::{Does, MOST_DEALT_EVENTS};
use trace_text::{Judged, Line, Mode, State, decode};

/// What the lines so far gave.
#[derive(Drop)]
pub struct Dealt {
    /// The settings of the channel.
    pub config: Option<Config>,
    /// The live packets, the ticks, and the feedback of each worker's clients.
    pub lists: Vec<Vec<Event>>,
    /// How many workers there are.
    pub workers: u32,
    pub events: u64,
    /// The lines of the head and of the channel, each with its line feed.
    pub head: Vec<u8>,
    pub(crate) state: State,
}

/// As many lists as the workers need, in which nothing is.
fn empty_lists(alloc: Global, lists: u32) -> Result<Vec<Vec<Event>>, NoMemory>
    ensures count { IfOk result (λ all. length all.items ≡ lists) }
    ensures empty { IfOk result (λ all. (list : ℕ) → slice_index_or (map (λ l. l.items) all.items) list [] ≡ []) }
{
    let mut all = Vec::with_capacity(alloc, lists as usize)?;
    for _ in 0..lists {
        all.push(Vec::new(alloc))?;
    }
    Ok(all)
}

/// Before the first line.
pub(crate) fn new_dealt(alloc: Global, workers: u32) -> Result<Dealt, NoMemory>
    requires { (0 < workers) × (workers ≤ 16) }
    ensures { IfOk result (λ dealt. HasDealtBy dealt (opening threads) × (dealt.head.items ≡ []) × (dealt.workers ≡ workers)) }
{
    Ok(Dealt {
        config: None,
        lists: empty_lists(alloc, workers + 2)?,
        workers,
        events: 0,
        head: Vec::new(alloc),
        state: State::new(Mode::Threads),
    })
}

/// The list that an event is dealt into: live packets, then ticks, then feedback by client.
fn list_of(workers: u32, event: &Event) -> usize
    requires { 0 < workers }
    ensures value { result ≡ list_of workers event.now }
    ensures within { result < workers + 2 }
{
    match event {
        Event::Live(_) => 0,
        Event::Tick => 1,
        Event::Feedback { client, .. } => 2 + (client % u64::from(workers)) as usize,
    }
}

/// An event of the channel goes to its list, unless it is one too many.
fn deal(dealt: &mut Dealt, event: Event) -> Result<Does, NoMemory>
    requires workers { 0 < dealt.old.workers }
    requires lists { length dealt.old.lists.items ≡ dealt.old.workers + 2 }
    ensures dealt { IfOk result (λ does. IsDealt event dealt.old dealt.new does) }
    ensures head { dealt.new.head ≡ dealt.old.head }
    ensures workers { dealt.new.workers ≡ dealt.old.workers }
{
    if dealt.events >= MOST_DEALT_EVENTS {
        return Ok(Does::TooLong);
    }
    let list = list_of(dealt.workers, &event);
    dealt.lists[list].push(event)?;
    dealt.events += 1;
    Ok(Does::GoesOn)
}

/// Adds a line to those of the head.
fn keep(head: &mut Vec<u8>, line: &[u8]) -> Result<(), NoMemory>
    ensures { OnOk result (head.new.items ≡ head.old.items ++ with_feed line.now) }
{
    head.extend_from_slice(line)?;
    head.push(b'\n')?;
    Ok(())
}

/// What a line does that may come and opens no channel.
fn after_other(
    alloc: Global,
    dealt: &mut Dealt,
    line: Line<'_>,
    bytes: &[u8],
) -> Result<Does, NoMemory>
    requires other { IsOther line }
    requires digits { HasDigits line }
    requires comes { (stage : Stage (List Served)) × Comes dealt.old bytes.now (shown line) stage }
    ensures took { IfOk result (λ does. (stage : Stage (List Served)) (number : ℕ) → Comes dealt.old bytes.now (shown line.entry) stage
        → Took dealt.new stage (after_line threads stage dealt.old.state (shown line.entry) (brought threads (shown line.entry))) number does) }
    ensures head { IfOk result (λ does. Grows does dealt.old.head.items dealt.new.head.items bytes.now (brought threads (shown line.entry))) }
    ensures workers { dealt.new.workers ≡ dealt.old.workers }
{
    match line {
        Line::Head { .. } => {
            keep(&mut dealt.head, bytes)?;
            Ok(Does::GoesOn)
        }
        Line::Live { hex, .. } => {
            let bytes = Octets::of(decode(alloc, hex)?);
            deal(dealt, Event::Live(bytes))
        }
        Line::Feedback { client, hex, .. } => {
            let bytes = Octets::of(decode(alloc, hex)?);
            deal(dealt, Event::Feedback { client, bytes })
        }
        Line::Tick => deal(dealt, Event::Tick),
        Line::End => Ok(Does::Ends),
        // No trace for threads has another line, and a channel line is none of these.
        _ => Ok(Does::Refused(LineFault::Order)),
    }
}

/// What a line does that may come.
fn after_line(
    alloc: Global,
    dealt: &mut Dealt,
    line: &Judged<'_>,
    bytes: &[u8],
) -> Result<Does, NoMemory>
    requires settled { IsSettled (tick_of dealt.old.state.head) line.now }
    requires comes { (stage : Stage (List Served)) × Comes dealt.old bytes.now (told line.now) stage }
    ensures took { IfOk result (λ does. (stage : Stage (List Served)) (number : ℕ) → Comes dealt.old bytes.now (told line.now) stage
        → Took dealt.new stage (after_line threads stage dealt.old.state (told line.now) (brought threads (told line.now))) number does) }
    ensures head { IfOk result (λ does. Grows does dealt.old.head.items dealt.new.head.items bytes.now (brought threads (told line.now))) }
    ensures workers { dealt.new.workers ≡ dealt.old.workers }
{
    match line {
        Judged::Channel { config, .. } => {
            keep(&mut dealt.head, bytes)?;
            dealt.config = Some(*config);
            Ok(Does::GoesOn)
        }
        Judged::Other(line) => after_other(alloc, dealt, *line, bytes),
    }
}

/// What the next line does.
pub(crate) fn take_line(alloc: Global, dealt: &mut Dealt, line: &[u8]) -> Result<Does, NoMemory>
    requires { HasDealtSome dealt.old }
    ensures took { IfOk result (λ does. (stage : Stage (List Served)) (number : ℕ) → HasDealtBy dealt.old stage
        → Took dealt.new stage (turn threads stage number line.now) number does) }
    ensures head { IfOk result (λ does. Grows does dealt.old.head.items dealt.new.head.items line.now (event_at threads line.now)) }
    ensures workers { dealt.new.workers ≡ dealt.old.workers }
{
    match dealt.state.judge(line) {
        Ok(read) => after_line(alloc, dealt, &read, line),
        Err(fault) => Ok(Does::Refused(fault)),
    }
}
