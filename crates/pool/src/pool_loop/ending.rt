//! The command for a pool, from the source's bytes to the sink's.
ghost use Rattle.std.specs.Prelude.{◌≡◌, ◌⊎◌, ◌<◌, ◌≤◌, ℕ, List, Err, IfErr, IfOk, OnOk, length};
ghost use Rattle.rams_model.specs.declared.Status.TheVariants.{Done};
ghost use Rattle.server_hub.specs.declared.HubEvent.{HubEvent};
ghost use Rattle.server_hub.specs.Served.{Served};
ghost use Rattle.trace_loop.specs.trace_book.trace_serving.{Stage};
ghost use Rattle.trace_loop.specs.declared.Stop.TheVariants.{Read};
ghost use Rattle.trace_loop.specs.{IfTold, IsEnd, IsStopped, IsStoppedByWrite, OnlyMemoryStops};
ghost use Rattle.pool.specs.pool_loop.{HasDealt, HasEnded, HasRoomFor, HasStopped, IsReadOf};

use crate::pool_loop::dealing::Dealt;
use crate::pool_loop::lanes::lanes_of;
use crate::pool_loop::reading::read_trace;
use crate::pool_loop::routes::ticks_among;
use crate::pool_loop::writing::write_pooled;
use crate::pool_run::run_pool;
use ram_io::{Gate, Sink, Source};
use rams_model::Status;
use service_laws::book_laws::sendings::each_datagram_is_the_retransmission_of_a_source_packet;
use std::alloc::Global;
use std::thread::Threads;
use trace_loop::Stop;
use trace_loop::trace_book::laws::{traces_are_served_by_their_lines, traces_end_so};
use trace_loop::whole_trace::{ReadTrace, refuse, refuse_more};

/// Runs the channels, and writes their book and their ledger.
fn run_and_write<R: Threads + Sync, K: Sink, G: Gate + Sync>(
    rt: &R,
    alloc: Global,
    rate: u64,
    dealt: Dealt,
    sink: &mut K,
    gate: &G,
) -> Result<Status, Stop>
    requires rate { rate ≤ 1000000000 }
    requires whole { (came : List HubEvent) × (stage : Stage (List Served)) × HasDealt dealt came stage × (0 < length dealt.channels.items) }
    ensures status { IfOk result (λ status. status ≡ Done) }
    ensures text { (xs : List ℕ) → IsReadOf xs dealt → OnOk result (HasEnded rate xs (K.held sink.old) (K.held sink.new) Done) }
    ensures front { (xs : List ℕ) → IsReadOf xs dealt → IfErr result (λ _. (K.held sink.new ≡ K.held sink.old) ⊎ HasStopped rate xs (K.held sink.old) (K.held sink.new)) }
    ensures cause { IsStoppedByWrite (K.faults sink.old) (K.faults sink.new) result }
    ensures steady { (xs : List ℕ) → IsReadOf xs dealt → HasRoomFor rate xs (K.is_steady sink.old) → OnlyMemoryStops result (Unit {0}) }
{
    traces_end_so();
    traces_are_served_by_their_lines();
    each_datagram_is_the_retransmission_of_a_source_packet();
    let Dealt {
        channels,
        routes,
        ..
    } = dealt;
    let lanes = lanes_of(alloc, channels)?;
    let ticks = ticks_among(&routes);
    let pooled = run_pool(rt, alloc, lanes, ticks, rate, gate)?;
    write_pooled(alloc, sink, &routes, &pooled)
}

/// Reads a trace of up to 64 channels to its end, and runs each channel on a thread of its own, while
/// one more thread grants `rate` bytes of their link for each tick. Then it writes the trace's book,
/// and the ledger of the link.
///
/// Nothing is written before the whole trace was read. Where a line of it is refused, or its event
/// 200,001 comes, one line says so.
pub fn write_pool<R: Threads + Sync, S: Source, K: Sink, G: Gate + Sync>(
    rt: &R,
    alloc: Global,
    rate: u64,
    source: &mut S,
    sink: &mut K,
    gate: &G,
) -> Result<Status, Stop>
    requires { (0 < rate) × (rate ≤ 1000000000) }
    ensures status { IfOk result IsEnd }
    ensures text { IfOk result (λ status. IfTold (S.left source.old) (λ xs. HasEnded rate xs (K.held sink.old) (K.held sink.new) status)) }
    ensures front { IfErr result (λ _. IfTold (S.left source.old) (λ xs. (K.held sink.new ≡ K.held sink.old) ⊎ HasStopped rate xs (K.held sink.old) (K.held sink.new))) }
    ensures read { result ≡ Err Read → sink.new ≡ sink.old }
    ensures cause { IsStopped (S.faults source.old) (S.faults source.new) (K.faults sink.old) (K.faults sink.new) result }
    ensures steady { S.is_steady source.old → IfTold (S.left source.old) (λ xs. HasRoomFor rate xs (K.is_steady sink.old) → OnlyMemoryStops result (Unit {0})) }
{
    match read_trace(alloc, source)? {
        ReadTrace::Lawful(dealt) => run_and_write(rt, alloc, rate, dealt, sink, gate),
        ReadTrace::Unlawful { line, fault } => refuse(alloc, sink, line, fault),
        ReadTrace::TooLong => refuse_more(sink),
    }
}
