//! The command for threads, from the source's bytes to the sink's.
ghost use Rattle.std.specs.Prelude.{◌≡◌, ◌⊎◌, ◌<◌, ◌≤◌, ℕ, List, Err, IfErr, IfOk, OnOk, is_some, true};
ghost use Rattle.rams_model.specs.declared.Status.TheVariants.{Done};
ghost use Rattle.server_hub.specs.Served.{Served};
ghost use Rattle.trace_loop.specs.trace_book.trace_serving.{Stage};
ghost use Rattle.trace_loop.specs.declared.Stop.TheVariants.{Read};
ghost use Rattle.trace_loop.specs.{IfTold, IsEnd, IsStopped, IsStoppedByWrite, OnlyMemoryStops};
ghost use Rattle.threads_loop.specs.{HasDealt, HasEnded, HasRoomFor, HasStopped, IsReadOf};

use crate::dealing::Dealt;
use crate::reading::read_trace;
use crate::session_worker::run_lists;
use crate::writing::write_worked;
use ram_io::{Gate, Sink, Source};
use rams_model::Status;
use server_hub::session_core::Core;
use std::alloc::Global;
use std::mem;
use std::sync::Wait;
use std::thread::Threads;
use trace_loop::Stop;
use trace_loop::journal_book::laws::{journals_replay, runs_of_journals};
use trace_loop::whole_trace::{ReadTrace, refuse, refuse_more};

/// Runs the lists, and writes what came of them.
fn work_and_write<R: Threads + Wait + Sync, K: Sink, G: Gate + Sync>(
    rt: &R,
    alloc: Global,
    dealt: Dealt,
    sink: &mut K,
    gate: &G,
) -> Result<Status, Stop>
    requires { (stage : Stage (List Served)) × HasDealt dealt stage × (is_some dealt.config ≡ true) }
    ensures status { IfOk result (λ status. status ≡ Done) }
    ensures text { (xs : List ℕ) → IsReadOf dealt.workers xs dealt → OnOk result (HasEnded dealt.workers xs (K.held sink.old) (K.held sink.new) Done) }
    ensures front { (xs : List ℕ) → IsReadOf dealt.workers xs dealt → IfErr result (λ _. (K.held sink.new ≡ K.held sink.old) ⊎ HasStopped dealt.workers xs (K.held sink.old) (K.held sink.new)) }
    ensures cause { IsStoppedByWrite (K.faults sink.old) (K.faults sink.new) result }
    ensures steady { (xs : List ℕ) → IsReadOf dealt.workers xs dealt → HasRoomFor dealt.workers xs (K.is_steady sink.old) → OnlyMemoryStops result (Unit {0}) }
{
    journals_replay();
    runs_of_journals();
    let Some(config) = dealt.config else {
        unreachable!()
    };
    let core = Core::new(alloc, &config)?;
    let worked = run_lists(rt, alloc, core, dealt.lists, dealt.workers, gate)?;
    let written = write_worked(
        alloc,
        sink,
        &config,
        &dealt.head,
        worked.book.entries(),
        &worked.drawn,
    );
    // The command ends here: to give its memory back block by block would only cost time.
    mem::forget(worked);
    written
}

/// Reads a trace of one channel to its end, deals its events into a list of live packets, one of ticks,
/// and one for the feedback of each worker's clients, and takes each list on a thread of its own. Then
/// it writes a trace of what came of it, and that trace's book. May wait.
///
/// Nothing is written before the whole trace was read. Where a line of it is refused, or its event
/// 200,001 comes, one line says so.
pub fn write_threads<R: Threads + Wait + Sync, S: Source, K: Sink, G: Gate + Sync>(
    rt: &R,
    alloc: Global,
    workers: u32,
    source: &mut S,
    sink: &mut K,
    gate: &G,
) -> Result<Status, Stop>
    requires { (0 < workers) × (workers ≤ 16) }
    ensures status { IfOk result IsEnd }
    ensures text { IfOk result (λ status. IfTold (S.left source.old) (λ xs. HasEnded workers xs (K.held sink.old) (K.held sink.new) status)) }
    ensures front { IfErr result (λ _. IfTold (S.left source.old) (λ xs. (K.held sink.new ≡ K.held sink.old) ⊎ HasStopped workers xs (K.held sink.old) (K.held sink.new))) }
    ensures read { result ≡ Err Read → sink.new ≡ sink.old }
    ensures cause { IsStopped (S.faults source.old) (S.faults source.new) (K.faults sink.old) (K.faults sink.new) result }
    ensures steady { S.is_steady source.old → IfTold (S.left source.old) (λ xs. HasRoomFor workers xs (K.is_steady sink.old) → OnlyMemoryStops result (Unit {0})) }
{
    match read_trace(alloc, workers, source)? {
        ReadTrace::Lawful(dealt) => work_and_write(rt, alloc, dealt, sink, gate),
        ReadTrace::Unlawful { line, fault } => refuse(alloc, sink, line, fault),
        ReadTrace::TooLong => refuse_more(sink),
    }
}
