//! The answer to a RAMS-R (RFC 6285, 6.2 and 7.2).
ghost use Rattle.std.specs.Prelude.{◌≡◌, ℕ, ◌<◌, ◌^◌, IsSome, Some, None, Ok, unwrap_or, true, ◌≤◌, List, IsNone};
ghost use Rattle.rams_model.specs.declared.{Held.Held, Note.TheVariants.Refuse};
ghost use Rattle.rams_model.specs.Formats.{request_at};
ghost use Rattle.rams_model.specs.Packets.{behind as behind_of};
ghost use Rattle.wire_packets.specs.rams_tlv.{shown_request};
ghost use Rattle.feedback_core.specs.{open_of, begun_burst, IsReadyDesk, AreOfOne, IsAnswered, IsHeard, IsHeardOn, HasBurstOn, Serves, rate_for};
ghost use Rattle.rams_model.specs.Service.Verdict as verdicts;
ghost use Rattle.rams_model.specs.Service.Bursts as model;
ghost use Rattle.channel_parts.specs.{burst_kept};

use crate::desk::Desk;
use crate::holding::behind;
use crate::rams_i::{accept_info, update_info};
use crate::visitor::{Open, Visitor};
use channel_cache::Choice;
use channel_parts::response::{
    BITRATE_TOO_LOW, MAX_FILL_UNMET, MIN_FILL_UNMET, NO_ACCESS_POINT, NO_BANDWIDTH, ONLY_PREAMBLE,
    OTHER_SOURCE, TOO_MANY_CLIENTS, UNREADABLE_REQUEST,
};
use client_table::{Burst, Entry, Info};
use rams_model::{MOST_ON_WIRE, Note};
use reckoning::burst_plan::{join_ticks, rate_of};
use wire_packets::rams_tlv::{Request, names, read_request};

/// The largest wire size of a packet, in bytes.
const MOST_WIRE: u64 = MOST_ON_WIRE as u64;

/// Answers the request that is read from this feedback control information.
pub(crate) fn answer_request(desk: &mut Desk<'_>, sender: u32, fci: &[u8]) -> Note
    requires ready { IsReadyDesk desk.old }
    ensures ready { IsReadyDesk desk.new }
    ensures one { AreOfOne desk.old.visitor desk.new.visitor }
    ensures same { desk.new ≡ record desk.old { visitor = desk.new.visitor } }
    ensures answers { let s = desk.old.config.now in let k = desk.old.visitor.client in
        Serves desk.old (IsHeardOn desk.old sender) (λ before history.
        IsAnswered s before history desk.old.queue.now desk.new.visitor result (verdicts.verdict s k history (request_at fci.now))) }
{
    match read_request(fci) {
        Ok(request) => on_request(desk, sender, &request),
        Err(_) => refuse(&desk.visitor, UNREADABLE_REQUEST),
    }
}

fn refuse(visitor: &Visitor, code: u16) -> Note
    ensures { result ≡ Refuse visitor.now.client code }
{
    Note::Refuse {
        client: visitor.client,
        code,
    }
}

// The first refusal that applies, else what the request does.
fn on_request(desk: &mut Desk<'_>, sender: u32, request: &Request<'_>) -> Note
    requires ready { IsReadyDesk desk.old }
    ensures ready { IsReadyDesk desk.new }
    ensures one { AreOfOne desk.old.visitor desk.new.visitor }
    ensures same { desk.new ≡ record desk.old { visitor = desk.new.visitor } }
    ensures answers { let s = desk.old.config.now in let k = desk.old.visitor.client in
        Serves desk.old (IsHeardOn desk.old sender) (λ before history.
        IsAnswered s before history desk.old.queue.now desk.new.visitor result (verdicts.verdict s k history (Ok (shown_request request.now)))) }
{
    if request.preamble {
        return refuse(&desk.visitor, ONLY_PREAMBLE);
    }
    if !names(request, desk.config.channel().ssrc) {
        return refuse(&desk.visitor, OTHER_SOURCE);
    }
    match desk.visitor.open() {
        Some(open) => on_burst(desk, &open, request.bps),
        None => begin(desk, sender, request),
    }
}

// A client with an open burst is told the same again, unless it names another bit rate.
fn on_burst(desk: &mut Desk<'_>, current: &Open, bps: Option<u64>) -> Note
    requires ready { IsReadyDesk desk.old }
    requires opened { open_of desk.old.visitor.entry ≡ Some current.now }
    ensures ready { IsReadyDesk desk.new }
    ensures one { AreOfOne desk.old.visitor desk.new.visitor }
    ensures same { desk.new ≡ record desk.old { visitor = desk.new.visitor } }
    ensures answers { let s = desk.old.config.now in let k = desk.old.visitor.client in
        (b : model.Burst) → current.now.burst ≡ burst_kept s b
        → Serves desk.old (HasBurstOn desk.old b) (λ before history.
        IsAnswered s before history desk.old.queue.now desk.new.visitor result (verdicts.on_burst s desk.old.cache.now.held k (rate_for s bps) history b bps)) }
{
    let again = Note::Again {
        client: desk.visitor.client,
    };
    if bps.is_none() {
        return again;
    }
    let rate = rate_of(bps, desk.config.tick_ms(), desk.config.channel().burst);
    if rate == current.burst.rate {
        return again;
    }
    change(desk, current, rate)
}

// Changes the rate of an open burst.
fn change(desk: &mut Desk<'_>, current: &Open, rate: u64) -> Note
    requires ready { IsReadyDesk desk.old }
    requires opened { open_of desk.old.visitor.entry ≡ Some current.now }
    requires rate { rate ≤ 10 ^ 9 }
    ensures ready { IsReadyDesk desk.new }
    ensures one { AreOfOne desk.old.visitor desk.new.visitor }
    ensures same { desk.new ≡ record desk.old { visitor = desk.new.visitor } }
    ensures answers { let s = desk.old.config.now in let k = desk.old.visitor.client in
        (b : model.Burst) → current.now.burst ≡ burst_kept s b
        → Serves desk.old (HasBurstOn desk.old b) (λ before history.
        IsAnswered s before history desk.old.queue.now desk.new.visitor result (verdicts.changes s desk.old.cache.now.held k rate history b)) }
{
    let client = desk.visitor.client;
    let channel = desk.config.channel();
    if rate < channel.declared + MOST_WIRE {
        return refuse(&desk.visitor, BITRATE_TOO_LOW);
    }
    let mut budget = desk.visitor.budget;
    budget.release(current.burst.rate);
    if !budget.reserve(rate) {
        return refuse(&desk.visitor, NO_BANDWIDTH);
    }
    let behind = behind(desk.cache, current.burst.next);
    let join = join_ticks(behind, rate, channel.declared, channel.depth);
    let last = update_info(
        desk.config,
        &current.burst.last,
        current.burst.ticks,
        rate,
        join,
    );
    desk.visitor.budget = budget;
    desk.visitor.entry = Some(Entry {
        burst: Some(Burst {
            rate,
            last,
            ..current.burst
        }),
        ..current.entry
    });
    Note::Update { client, rate, join }
}

// A client without an open burst begins one, where it is known or can be.
fn begin(desk: &mut Desk<'_>, sender: u32, request: &Request<'_>) -> Note
    requires ready { IsReadyDesk desk.old }
    requires closed { open_of desk.old.visitor.entry ≡ None }
    ensures ready { IsReadyDesk desk.new }
    ensures one { AreOfOne desk.old.visitor desk.new.visitor }
    ensures same { desk.new ≡ record desk.old { visitor = desk.new.visitor } }
    ensures answers { let s = desk.old.config.now in let k = desk.old.visitor.client in
        Serves desk.old (IsHeardOn desk.old sender) (λ before history.
        IsAnswered s before history desk.old.queue.now desk.new.visitor result (verdicts.on_request s desk.old.cache.now.held k (shown_request request.now) history None)) }
{
    if desk.visitor.is_full() {
        return refuse(&desk.visitor, TOO_MANY_CLIENTS);
    }
    let rate = rate_of(
        request.bps,
        desk.config.tick_ms(),
        desk.config.channel().burst,
    );
    match desk
        .cache
        .choose(request.min_ms.unwrap_or(0), request.max_ms)
    {
        Choice::Start { n, behind } => accept(desk, sender, rate, n, behind),
        Choice::NoStart => refuse(&desk.visitor, NO_ACCESS_POINT),
        Choice::MinUnmet => refuse(&desk.visitor, MIN_FILL_UNMET),
        Choice::MaxUnmet => refuse(&desk.visitor, MAX_FILL_UNMET),
    }
}

// Begins a burst at packet `first`, from which on so many bytes are held.
fn accept(desk: &mut Desk<'_>, sender: u32, rate: u64, first: u64, behind: u64) -> Note
    requires ready { IsReadyDesk desk.old }
    requires closed { open_of desk.old.visitor.entry ≡ None }
    requires placed { IsNone desk.old.visitor.entry → desk.old.visitor.has_place ≡ true }
    requires rate { rate ≤ 10 ^ 9 }
    requires first { first < 2 ^ 63 }
    ensures ready { IsReadyDesk desk.new }
    ensures one { AreOfOne desk.old.visitor desk.new.visitor }
    ensures same { desk.new ≡ record desk.old { visitor = desk.new.visitor } }
    ensures answers { let s = desk.old.config.now in let k = desk.old.visitor.client in
        (held : List Held) (h : Held) → h.n ≡ first → behind_of first held ≡ behind
        → Serves desk.old (IsHeard s held sender) (λ before history.
        IsAnswered s before history desk.old.queue.now desk.new.visitor result (verdicts.begins s held k rate history (Ok h))) }
{
    let client = desk.visitor.client;
    let channel = desk.config.channel();
    if rate < channel.declared + MOST_WIRE {
        return refuse(&desk.visitor, BITRATE_TOO_LOW);
    }
    if !desk.visitor.budget.reserve(rate + channel.depth) {
        return refuse(&desk.visitor, NO_BANDWIDTH);
    }
    let join = join_ticks(behind, rate, channel.declared, channel.depth);
    let entry = desk.visitor.entry_under(sender, channel.seq0);
    let last = accept_info(desk.config, entry.seq, rate, join);
    desk.visitor.entry = Some(Entry {
        ssrc: sender,
        burst: Some(begun(first, rate, last)),
        ..entry
    });
    Note::Accept {
        client,
        first,
        rate,
        join,
    }
}

// A burst that begins.
fn begun(first: u64, rate: u64, last: Info) -> Burst
    ensures { result ≡ begun_burst first rate last }
{
    Burst {
        first,
        next: first,
        stop: None,
        rate,
        ticks: 0,
        kept: 0,
        last,
    }
}
