//! What is kept of the clients, as a tick begins, goes on and ends.
ghost use Rattle.std.specs.Prelude.{◌≡◌, option_map};
ghost use Rattle.client_table.specs.{entry_of, changed};
ghost use Rattle.tick_draft.specs.{opened_for_tick, entry_begun, IsSmallBurst, burst_ended, entry_ended, burst_sent, entry_after, entry_closed, IsNextSmall, IsNextSmallIfKnown, AreSmall, AreAllChanged};

use crate::sendings::Sendings;
use client_table::{Burst, Entry, Table};

/// An open burst as a tick begins. Until the tick ends, `kept` is all that it may still be sent.
fn opened_for_tick(burst: Burst) -> Burst
    requires { IsSmallBurst burst }
    ensures { result ≡ opened_for_tick burst }
{
    Burst {
        ticks: burst.ticks + 1,
        kept: burst.rate + burst.kept,
        ..burst
    }
}

/// An open burst as a tick ends: it keeps at most the depth.
fn ended_burst(depth: u64, burst: Burst) -> Burst
    ensures { result ≡ burst_ended depth burst }
{
    Burst {
        kept: depth.min(burst.kept),
        ..burst
    }
}

/// An open burst after so many of its packets, and so many bytes.
fn sent_burst(count: u64, size: u64, burst: Option<Burst>) -> Option<Burst>
    requires { IsNextSmall count burst }
    ensures { result ≡ option_map (burst_sent count size) burst }
{
    let burst = burst?;
    Some(Burst {
        next: burst.next + count,
        kept: burst.kept.saturating_sub(size),
        ..burst
    })
}

/// What is kept of a client that was sent these packets.
fn sent_entry(sent: &Sendings, entry: &Entry) -> Entry
    requires { IsNextSmall sent.now.of_burst entry.now.burst }
    ensures { result ≡ entry_after sent.now entry.now }
{
    Entry {
        seq: entry.seq.wrapping_add(sent.packets),
        idle: 0,
        burst: sent_burst(u64::from(sent.of_burst), sent.bytes, entry.burst),
        ..*entry
    }
}

/// The same, where the client is known.
pub fn send_to(table: &mut Table, sent: &Sendings)
    requires { IsNextSmallIfKnown sent.now.of_burst (entry_of table.old sent.now.client) }
    ensures { table.new ≡ changed (entry_after sent.now) table.old sent.now.client }
{
    table.change(sent.client, |entry| sent_entry(sent, &entry));
}

/// A client's burst ends.
pub fn close_entry(table: &mut Table, client: u64)
    ensures { table.new ≡ changed entry_closed table.old client }
{
    table.change(
        client,
        |entry| Entry {
            idle: 0,
            burst: None,
            ..entry
        },
    );
}

/// What is kept of all clients as a tick begins. Whether one is busy isn't looked at: a busy client is
/// served before it can be idle, and then its count begins anew.
pub fn begin_entries(table: &mut Table)
    requires { AreSmall table.old }
    ensures { AreAllChanged (λ _. entry_begun) table.old table.new }
{
    table.age();
    table.change_bursts(|burst| opened_for_tick(burst));
}

/// What is kept of all clients as a tick ends.
pub fn end_entries(table: &mut Table, depth: u64)
    ensures { AreAllChanged (λ _. entry_ended depth) table.old table.new }
{
    table.change_bursts(|burst| ended_burst(depth, burst));
}
