//! The runs of the open bursts.
ghost use Rattle.std.specs.Prelude.{◌≡◌, ℕ, ◌+◌, ◌<◌, ◌≤◌, ◌^◌, ◌&&◌, nat_le, [], ◌∷◌, Some, IfOk, MatchOption, filter};
ghost use Rattle.rams_model.specs.Service.{is_before, is_lost, is_stop};
ghost use Rattle.rams_model.specs.Packets.{hi};
ghost use Rattle.tick_draft.specs.{Drafted};
ghost use Rattle.tick_core.specs.{AreInOrder, AreInTime, IsInTime, IsNext, run_from, run_of, after_run, with_run, end_of, kept_back, allowance_of, idle_allowance, AreOfBursts, told_by, with_served, with_all_served};

use crate::allowance::Allowance;
use crate::allowances::Allowances;
use channel_cache::Cache;
use channel_config::Config;
use channel_parts::is_before_stop;
use client_table::{Burst, Entry, Table};
use ram_io::NoMemory;
use rams_model::{Cause, Held, Note};
use std::alloc::Global;
use tick_draft::Drafting;

/// How far a burst has come in a tick.
#[derive(Clone, Copy, PartialEq, Eq)]
pub struct Sent {
    /// The number of the packet that is sent next.
    pub next: u64,
    /// What its budget has left.
    pub left: u64,
    /// The number of the next retransmission.
    pub seq: u16,
}

// The packet may be sent next: before the stop, and within what is left.
fn may_go(held: &Held, stop: Option<u64>, at: &Sent) -> bool
    ensures { result ≡ (is_before stop at.now.next && nat_le held.now.wire at.now.left) }
{
    is_before_stop(stop, at.next) && u64::from(held.wire) <= at.left
}

/// The packet that a burst is sent next: held, before the stop, and no larger than what is left.
fn next_packet<'a>(cache: &'a Cache, stop: Option<u64>, at: &Sent) -> Option<&'a Held>
    requires { AreInOrder cache.now.held }
    ensures { MatchOption result (run_from cache.now.held stop at.now ≡ []) (λ h. IsNext cache.now.held stop at.now h.now) }
{
    let held = cache.held(at.next)?;
    if may_go(held, stop, at) {
        Some(held)
    } else {
        None
    }
}

/// Sends a burst's run.
fn send_run<D: Drafting>(
    cache: &Cache,
    client: u64,
    burst: &Burst,
    seq: u16,
    draft: &mut D,
) -> Result<Sent, NoMemory>
    requires held { AreInOrder cache.now.held }
    requires budget { burst.now.rate + burst.now.kept < 2 ^ 64 }
    ensures sent { IfOk result (λ at. at ≡ after_run cache.now.held seq burst.now) }
    ensures draft { (d : Drafted) → D.shows draft.old d →
        IfOk result (λ _. D.shows draft.new (with_run client seq (run_of cache.now.held burst.now) d)) }
{
    let mut at = Sent {
        next: burst.next,
        left: burst.rate + burst.kept,
        seq,
    };
    while let Some(held) = next_packet(cache, burst.stop, &at) {
        draft.send_packet(
            Note::Burst {
                client,
                n: held.n,
                seq: at.seq,
            },
            client,
            at.seq,
            held,
        )?;
        at = Sent {
            next: at.next + 1,
            left: at.left - u64::from(held.wire),
            seq: at.seq.wrapping_add(1),
        };
    }
    Ok(at)
}

/// Whether a burst's next packet was held, and no longer is.
fn is_lost(cache: &Cache, next: u64) -> bool
    ensures { result ≡ is_lost next cache.now.held }
{
    cache.held(next).is_none() && next < cache.hi()
}

/// Why a burst ends that has come to packet `next`: it has come to its stop, or else this was its last
/// tick.
fn end_of(limit: u32, burst: &Burst, next: u64) -> Option<Cause>
    requires { burst.now.ticks < limit }
    ensures { result ≡ end_of limit burst.now next }
{
    if burst.stop == Some(next) {
        Some(Cause::Stopped)
    } else if burst.ticks + 1 == limit {
        Some(Cause::Limit)
    } else {
        None
    }
}

/// What a burst keeps from repairs: where it goes on and has not caught up with the source, all that it
/// may keep for later runs.
fn kept_back(depth: u64, cache: &Cache, end: Option<Cause>, at: &Sent) -> u64
    ensures value { result ≡ kept_back depth cache.now.held end at.now }
    ensures within { result ≤ at.now.left }
{
    if end.is_none() && at.next < cache.hi() {
        depth.min(at.left)
    } else {
        0
    }
}

/// Sends the run of a client's burst and notes its end, where it ends. What it leaves is for the
/// client's repairs.
fn serve_burst<D: Drafting>(
    config: &Config,
    cache: &Cache,
    client: u64,
    entry: &Entry,
    burst: &Burst,
    draft: &mut D,
) -> Result<Allowance, NoMemory>
    requires held { AreInOrder cache.now.held }
    requires budget { burst.now.rate + burst.now.kept < 2 ^ 64 }
    requires ticks { burst.now.ticks < config.now.channel.limit }
    ensures allowance { IfOk result (λ a. a ≡ allowance_of config.now cache.now.held client entry.now (Some burst.now)) }
    ensures client { IfOk result (λ a. a.client ≡ client) }
    ensures draft { (d : Drafted) → D.shows draft.old d →
        IfOk result (λ _. D.shows draft.new (with_served config.now cache.now.held client entry.now (Some burst.now) d)) }
{
    if is_lost(cache, burst.next) {
        draft.end_burst(client, &burst.last, Some(Cause::Lost))?;
        return Ok(Allowance {
            client,
            may_take: burst.rate + burst.kept,
            seq: entry.seq,
        });
    }
    let sent = send_run(cache, client, burst, entry.seq, draft)?;
    let end = end_of(config.channel().limit, burst, sent.next);
    draft.end_burst(client, &burst.last, end)?;
    let kept = kept_back(config.channel().depth, cache, end, &sent);
    Ok(Allowance {
        client,
        may_take: sent.left - kept,
        seq: sent.seq,
    })
}

/// What the repairs of a client without a burst may take.
pub fn idle_allowance(most: u64, client: u64, entry: &Entry) -> Allowance
    ensures { result ≡ idle_allowance most client entry.now }
{
    Allowance {
        client,
        may_take: most,
        seq: entry.seq,
    }
}

/// Serves a known client: its burst, where one is open.
fn serve_client<D: Drafting>(
    config: &Config,
    cache: &Cache,
    client: u64,
    entry: &Entry,
    draft: &mut D,
) -> Result<Allowance, NoMemory>
    requires held { AreInOrder cache.now.held }
    requires small { IsInTime config.now entry.now.burst }
    ensures allowance { IfOk result (λ a. a ≡ allowance_of config.now cache.now.held client entry.now entry.now.burst) }
    ensures client { IfOk result (λ a. a.client ≡ client) }
    ensures draft { (d : Drafted) → D.shows draft.old d →
        IfOk result (λ _. D.shows draft.new (with_served config.now cache.now.held client entry.now entry.now.burst d)) }
{
    match &entry.burst {
        Some(burst) => serve_burst(config, cache, client, entry, burst, draft),
        None => Ok(idle_allowance(config.channel().burst, client, entry)),
    }
}

/// Serves the clients with an open burst, by rising number: what the repairs of each may take after that.
pub fn serve_clients<D: Drafting>(
    alloc: Global,
    config: &Config,
    cache: &Cache,
    table: &Table,
    draft: &mut D,
) -> Result<Allowances, NoMemory>
    requires held { AreInOrder cache.now.held }
    requires small { AreInTime config.now table.now }
    ensures allowances { IfOk result (λ allowances. AreOfBursts config.now cache.now.held table.now (told_by allowances)) }
    ensures draft { (d : Drafted) → D.shows draft.old d →
        IfOk result (λ _. D.shows draft.new (with_all_served config.now cache.now.held table.now.known d)) }
{
    let mut allowances = Allowances::new(alloc);
    for (client, entry) in table.open_bursts() {
        let allowance = serve_client(config, cache, client, &entry, draft)?;
        allowances.put(allowance)?;
    }
    Ok(allowances)
}
