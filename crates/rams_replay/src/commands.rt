//! The commands.
ghost use Rattle.std.specs.Prelude.{◌≡◌, ◌≢◌, ◌≤◌, ◌<◌, ◌⊎◌, false, is_none, not, ℕ, All, None, length};
ghost use Rattle.trace_loop.specs.trace_book.printed_books.{PrintsItsBooks};
ghost use Rattle.trace_loop.specs.trace_book.{EndsSo, IsServed, KeepsTheLink, KeepsPromises, served_by, run as book};
ghost use Rattle.rams_model.specs.declared.Status.TheVariants.{BadTrace, Done, ReadFault};
ghost use Rattle.serve_loop.specs.{Given, HasRoom, IfBothTold, IsGiven, served_datagrams, served_text};
ghost use Rattle.converters.specs.description_loop.{DescribesItsHead, WritesATrace, description_outcome, settings_outcome};
ghost use Rattle.generated.specs.summary.{made_summary};
ghost use Rattle.meet_loop.specs.world_book.{EndsSo as WorldEndsSo, IsServedByAWorld, ReceiversPresent, meet as world, world_of};
ghost use Rattle.std.specs.Io.KnownBytes.{IsAtEnd};
ghost use Rattle.rams_replay.specs.{AreDescribe, AreMake, AreMeet, ArePcap, ArePool, AreRun, AreSdp, AreServe, AreTakeover, AreThreads, ComesPromised, HasTakenOver, Replies, WritesCapture, WritesPool, WritesThreads, command_of, is_plain, no_room, port_of, status_of, is_words, HasServed, HasSummary, IsCaused, IsCausedOverWire, IsOrLacksMemory, Writes};
ghost use Rattle.takeover.specs.takeover_loop.{HoldsItsLines, MakesOneJournal, taken_datagrams, taken_text};
ghost use Rattle.trace_loop.specs.{IfTold};

use crate::made::write_summary;
use crate::replay::new_replay;
use crate::served::{serve_status, takeover_status};
use crate::words::{Command, command_of};
use converters::capture_loop::{CaptureWatch, write_capture};
use converters::description_loop::{
    settings_are_traces, settings_are_turned_back, write_description, write_settings,
};
use meet_loop::world_book::laws::{
    receivers_present_their_sources, worlds_are_served_by_their_lines, worlds_are_served_lawfully,
    worlds_end_so,
};
use meet_loop::write_world;
use pool::pool_loop::write_pool;
use ram_io::{Clock, Gate, Octets, Sink, Source, Wire};
use rams_model::Status;
use serve_loop::Watch;
use std::alloc::Global;
use std::sync::Wait;
use std::thread::Threads;
use takeover::takeover_loop::laws::takeovers_make_one_journal;
use threads_loop::write_threads;
use trace_loop::trace_book::laws::{
    traces_are_served_by_their_lines, traces_are_served_lawfully, traces_end_so,
    traces_stay_within_the_link,
};
use trace_loop::trace_book::printed_books::laws::books_are_printed;
use trace_loop::{Stop, write_text};

/// Runs a command over whatever it reads from, writes to, sends through and tells the time by.
///
/// `words` are those of the command line behind the program's name. `run` reads a trace and writes
/// its book; `meet` does so of a trace with set-tops, the trace of a world; `threads WORKERS` deals the events of a
/// trace of one channel to threads, and writes a trace of the order in which they came, and its book; `sdp` reads the
/// head of a channel and a session description, and writes the head with the description's settings; `describe PORT`
/// reads such a head, and writes a description of its channel; `pcap PORT` reads a head and a capture file, and writes
/// a trace of what came to the ports of the head's channels; `make SEED BLOCKS` writes the summary of a generated trace
/// and reads nothing; `serve PORT TURNS` reads a head, and serves its channels over the wire for so many turns, while
/// the gate looks on; `takeover PORT TURNS` does so from where another server's journal leaves off; `pool RATE` runs the
/// channels of a trace on threads, and accounts for what they send against one link. Any other words are refused, and
/// nothing is read or written. `serve`, `takeover` and `threads` may wait.
pub fn run<
    R: Threads + Wait + Sync,
    S: Source,
    K: Sink,
    W: Wire,
    C: Clock,
    G: Gate + Watch + CaptureWatch + Sync,
>(
    rt: &R,
    alloc: Global,
    words: &[Octets],
    source: &mut S,
    sink: &mut K,
    wire: &mut W,
    clock: &mut C,
    gate: &G,
) -> Status
    ensures words { is_words result ≡ is_none (command_of words.now) }
    ensures refused { command_of words.now ≡ None → (source.new ≡ source.old) × (sink.new ≡ sink.old) }
    ensures book { AreRun words.now → Writes book (S.left source.old) (S.left source.new) (S.is_steady source.old) (K.held sink.old) (K.held sink.new) (K.faults sink.old) (K.faults sink.new) (K.is_steady sink.old) result }
    ensures world { AreMeet words.now → Writes world (S.left source.old) (S.left source.new) (S.is_steady source.old) (K.held sink.old) (K.held sink.new) (K.faults sink.old) (K.faults sink.new) (K.is_steady sink.old) result }
    ensures settings { AreSdp words.now → Replies settings_outcome (S.left source.old) (S.is_steady source.old) (K.held sink.old) (K.held sink.new) (K.is_steady sink.old) result }
    ensures description { (port : ℕ) → AreDescribe words.now port → Replies (description_outcome port) (S.left source.old) (S.is_steady source.old) (K.held sink.old) (K.held sink.new) (K.is_steady sink.old) result }
    ensures capture { (port : ℕ) → ArePcap words.now port → WritesCapture port (S.left source.old) (S.left source.new) (S.is_steady source.old) (K.held sink.old) (K.held sink.new) (K.faults sink.old) (K.faults sink.new) (K.is_steady sink.old) result }
    ensures captured { (port : ℕ) → ArePcap words.now port → result ≡ Done → IsAtEnd (S.left source.new) }
    ensures threads { (workers : ℕ) → AreThreads words.now workers → WritesThreads workers (S.left source.old) (S.is_steady source.old) (K.held sink.old) (K.held sink.new) (K.is_steady sink.old) result }
    ensures unthreaded { (workers : ℕ) → AreThreads words.now workers → result ≡ ReadFault → sink.new ≡ sink.old }
    ensures pool { (rate : ℕ) → ArePool words.now rate → WritesPool rate (S.left source.old) (S.is_steady source.old) (K.held sink.old) (K.held sink.new) (K.is_steady sink.old) result }
    ensures unpooled { (rate : ℕ) → ArePool words.now rate → result ≡ ReadFault → sink.new ≡ sink.old }
    ensures undescribed { AreSdp words.now ⊎ ((port : ℕ) × AreDescribe words.now port) → result ≡ ReadFault → sink.new ≡ sink.old }
    ensures lines { IfTold (S.left source.old) IsServed }
    ensures ends { IfTold (S.left source.old) EndsSo }
    ensures printed { IfTold (S.left source.old) PrintsItsBooks }
    ensures lawful { IfTold (S.left source.old) (λ xs. All KeepsPromises (served_by xs)) }
    ensures link { IfTold (S.left source.old) KeepsTheLink }
    ensures world_lines { IfTold (S.left source.old) IsServedByAWorld }
    ensures world_ends { IfTold (S.left source.old) WorldEndsSo }
    ensures lawful_world { IfTold (S.left source.old) (λ xs. All KeepsPromises (world_of xs).channels) }
    ensures receivers { IfTold (S.left source.old) (λ xs. ReceiversPresent (world_of xs)) }
    ensures traces { IfTold (S.left source.old) WritesATrace }
    ensures turned_back { IfTold (S.left source.old) DescribesItsHead }
    ensures comes { IfTold (S.left source.old) ComesPromised }
    ensures cause { port_of words.now ≡ None → IsCaused (S.faults source.old) (S.faults source.new) (K.faults sink.old) (K.faults sink.new) result }
    ensures summary { (seed blocks : ℕ) → AreMake words.now seed blocks →
        HasSummary (K.held sink.old) (K.held sink.new) (made_summary seed blocks) result × (source.new ≡ source.old) }
    ensures summed { (seed blocks : ℕ) → AreMake words.now seed blocks → K.is_steady sink.old (length (made_summary seed blocks)) → IsOrLacksMemory Done result }
    ensures served { (port turns : ℕ) (g : Given) → AreServe words.now port turns → IsGiven g port turns (S.left source.old) (W.arrivals wire.old) (C.moments clock.old)
        → HasServed g (K.held sink.old) (K.held sink.new) (W.sent wire.old) (W.sent wire.new) (W.arrivals wire.new) result }
    ensures served_whole { (port turns : ℕ) (g : Given) → AreServe words.now port turns → IsGiven g port turns (S.left source.old) (W.arrivals wire.old) (C.moments clock.old) → S.is_steady source.old
        → HasRoom (K.is_steady sink.old) (W.is_steady wire.old) (served_text g).text (served_datagrams g) no_room → IsOrLacksMemory (served_text g).status result }
    ensures taken { (port turns : ℕ) (g : Given) → AreTakeover words.now port turns → IsGiven g port turns (S.left source.old) (W.arrivals wire.old) (C.moments clock.old)
        → HasTakenOver g (K.held sink.old) (K.held sink.new) (W.sent wire.old) (W.sent wire.new) (W.arrivals wire.new) result }
    ensures taken_whole { (port turns : ℕ) (g : Given) → AreTakeover words.now port turns → IsGiven g port turns (S.left source.old) (W.arrivals wire.old) (C.moments clock.old) → S.is_steady source.old
        → HasRoom (K.is_steady sink.old) (W.is_steady wire.old) (taken_text g).text (taken_datagrams g) no_room → IsOrLacksMemory (taken_text g).status result }
    ensures one_journal { (port turns : ℕ) (g : Given) → AreTakeover words.now port turns → IsGiven g port turns (S.left source.old) (W.arrivals wire.old) (C.moments clock.old) → (taken_text g).status ≡ Done → MakesOneJournal g }
    ensures untaken { (port turns : ℕ) → AreTakeover words.now port turns → result ≡ ReadFault → IfBothTold (S.left source.old) (S.left source.new) (HoldsItsLines (K.held sink.old) (K.held sink.new)) × (wire.new ≡ wire.old) × (clock.new ≡ clock.old) }
    ensures unserved { result ≡ BadTrace → (wire.new ≡ wire.old) × (clock.new ≡ clock.old) }
    ensures unread { (port turns : ℕ) → AreServe words.now port turns → result ≡ ReadFault → (sink.new ≡ sink.old) × (wire.new ≡ wire.old) × (clock.new ≡ clock.old) }
    ensures causes { IsCausedOverWire (S.faults source.old) (S.faults source.new) (K.faults sink.old) (K.faults sink.new) (W.faults wire.old) (W.faults wire.new) result }
    ensures wire { port_of words.now ≡ None → wire.new ≡ wire.old }
    ensures clock { port_of words.now ≡ None → clock.new ≡ clock.old }
{
    match command_of(words) {
        Some(Command::Serve { port, turns }) => {
            promise(source);
            serve_status(alloc, source, sink, wire, clock, port, turns, gate)
        }
        Some(Command::Threads { workers }) => {
            promise(source);
            threads_status(rt, alloc, workers, source, sink, gate)
        }
        Some(Command::Pool { rate }) => {
            promise(source);
            pool_status(rt, alloc, rate, source, sink, gate)
        }
        Some(Command::Takeover { port, turns }) => {
            promise(source);
            takeovers_make_one_journal();
            takeover_status(alloc, source, sink, wire, clock, port, turns, gate)
        }
        Some(
            Command::Run
            | Command::Meet
            | Command::Make { .. }
            | Command::Sdp
            | Command::Describe { .. }
            | Command::Pcap { .. },
        )
        | None => plain(alloc, words, source, sink, gate),
    }
}

/// Runs a command that waits for nobody: `run`, `meet`, `make`, `sdp`, `describe` or `pcap`, the last while somebody
/// looks on. Any other words are refused.
pub fn plain<S: Source, K: Sink, V: CaptureWatch>(
    alloc: Global,
    words: &[Octets],
    source: &mut S,
    sink: &mut K,
    watch: &V,
) -> Status
    ensures words { is_words result ≡ not (is_plain (command_of words.now)) }
    ensures refused { is_plain (command_of words.now) ≡ false → (source.new ≡ source.old) × (sink.new ≡ sink.old) }
    ensures book { AreRun words.now → Writes book (S.left source.old) (S.left source.new) (S.is_steady source.old) (K.held sink.old) (K.held sink.new) (K.faults sink.old) (K.faults sink.new) (K.is_steady sink.old) result }
    ensures world { AreMeet words.now → Writes world (S.left source.old) (S.left source.new) (S.is_steady source.old) (K.held sink.old) (K.held sink.new) (K.faults sink.old) (K.faults sink.new) (K.is_steady sink.old) result }
    ensures settings { AreSdp words.now → Replies settings_outcome (S.left source.old) (S.is_steady source.old) (K.held sink.old) (K.held sink.new) (K.is_steady sink.old) result }
    ensures description { (port : ℕ) → AreDescribe words.now port → Replies (description_outcome port) (S.left source.old) (S.is_steady source.old) (K.held sink.old) (K.held sink.new) (K.is_steady sink.old) result }
    ensures capture { (port : ℕ) → ArePcap words.now port → WritesCapture port (S.left source.old) (S.left source.new) (S.is_steady source.old) (K.held sink.old) (K.held sink.new) (K.faults sink.old) (K.faults sink.new) (K.is_steady sink.old) result }
    ensures captured { (port : ℕ) → ArePcap words.now port → result ≡ Done → IsAtEnd (S.left source.new) }
    ensures undescribed { AreSdp words.now ⊎ ((port : ℕ) × AreDescribe words.now port) → result ≡ ReadFault → sink.new ≡ sink.old }
    ensures lines { IfTold (S.left source.old) IsServed }
    ensures ends { IfTold (S.left source.old) EndsSo }
    ensures printed { IfTold (S.left source.old) PrintsItsBooks }
    ensures lawful { IfTold (S.left source.old) (λ xs. All KeepsPromises (served_by xs)) }
    ensures link { IfTold (S.left source.old) KeepsTheLink }
    ensures world_lines { IfTold (S.left source.old) IsServedByAWorld }
    ensures world_ends { IfTold (S.left source.old) WorldEndsSo }
    ensures lawful_world { IfTold (S.left source.old) (λ xs. All KeepsPromises (world_of xs).channels) }
    ensures receivers { IfTold (S.left source.old) (λ xs. ReceiversPresent (world_of xs)) }
    ensures traces { IfTold (S.left source.old) WritesATrace }
    ensures turned_back { IfTold (S.left source.old) DescribesItsHead }
    ensures comes { IfTold (S.left source.old) ComesPromised }
    ensures cause { IsCaused (S.faults source.old) (S.faults source.new) (K.faults sink.old) (K.faults sink.new) result }
    ensures summary { (seed blocks : ℕ) → AreMake words.now seed blocks →
        HasSummary (K.held sink.old) (K.held sink.new) (made_summary seed blocks) result × (source.new ≡ source.old) }
    ensures summed { (seed blocks : ℕ) → AreMake words.now seed blocks → K.is_steady sink.old (length (made_summary seed blocks)) → IsOrLacksMemory Done result }
{
    promise(source);
    match command_of(words) {
        Some(Command::Run) => book_status(alloc, source, sink),
        Some(Command::Meet) => world_status(alloc, source, sink),
        Some(Command::Make { seed, blocks }) => status_of(write_summary(alloc, seed, blocks, sink)),
        Some(Command::Sdp) => settings_status(alloc, source, sink),
        Some(Command::Describe { port }) => description_status(alloc, port, source, sink),
        Some(Command::Pcap { port }) => capture_status(alloc, port, source, sink, watch),
        Some(
            Command::Serve { .. }
            | Command::Threads { .. }
            | Command::Pool { .. }
            | Command::Takeover { .. },
        )
        | None => Status::Words,
    }
}

/// What holds of every trace, and so of the one that the source has left.
fn promise<S: Source>(_source: &S)
    ensures lines { IfTold (S.left _source.now) IsServed }
    ensures ends { IfTold (S.left _source.now) EndsSo }
    ensures printed { IfTold (S.left _source.now) PrintsItsBooks }
    ensures lawful { IfTold (S.left _source.now) (λ xs. All KeepsPromises (served_by xs)) }
    ensures link { IfTold (S.left _source.now) KeepsTheLink }
    ensures world_lines { IfTold (S.left _source.now) IsServedByAWorld }
    ensures world_ends { IfTold (S.left _source.now) WorldEndsSo }
    ensures lawful_world { IfTold (S.left _source.now) (λ xs. All KeepsPromises (world_of xs).channels) }
    ensures receivers { IfTold (S.left _source.now) (λ xs. ReceiversPresent (world_of xs)) }
    ensures traces { IfTold (S.left _source.now) WritesATrace }
    ensures turned_back { IfTold (S.left _source.now) DescribesItsHead }
    ensures comes { IfTold (S.left _source.now) ComesPromised }
{
    traces_are_served_by_their_lines();
    traces_end_so();
    books_are_printed();
    traces_are_served_lawfully();
    traces_stay_within_the_link();
    worlds_are_served_by_their_lines();
    worlds_end_so();
    worlds_are_served_lawfully();
    receivers_present_their_sources();
    settings_are_traces();
    settings_are_turned_back();
}

/// Writes the book of the trace that the source has left, and says how that ended.
fn book_status<S: Source, K: Sink>(alloc: Global, source: &mut S, sink: &mut K) -> Status
    ensures words { is_words result ≡ false }
    ensures writes { Writes book (S.left source.old) (S.left source.new) (S.is_steady source.old) (K.held sink.old) (K.held sink.new) (K.faults sink.old) (K.faults sink.new) (K.is_steady sink.old) result }
    ensures cause { IsCaused (S.faults source.old) (S.faults source.new) (K.faults sink.old) (K.faults sink.new) result }
{
    let mut replay = new_replay(alloc);
    status_of(write_text(alloc, &mut replay, b"rams-book 1\n", source, sink))
}

/// Writes the book of the world whose trace the source has left, and says how that ended.
fn world_status<S: Source, K: Sink>(alloc: Global, source: &mut S, sink: &mut K) -> Status
    ensures words { is_words result ≡ false }
    ensures writes { Writes world (S.left source.old) (S.left source.new) (S.is_steady source.old) (K.held sink.old) (K.held sink.new) (K.faults sink.old) (K.faults sink.new) (K.is_steady sink.old) result }
    ensures cause { IsCaused (S.faults source.old) (S.faults source.new) (K.faults sink.old) (K.faults sink.new) result }
{
    status_of(write_world(alloc, source, sink))
}

/// Writes the head that the source begins with, with the settings of the description behind it, and says
/// how that ended.
fn settings_status<S: Source, K: Sink>(alloc: Global, source: &mut S, sink: &mut K) -> Status
    ensures words { is_words result ≡ false }
    ensures writes { Replies settings_outcome (S.left source.old) (S.is_steady source.old) (K.held sink.old) (K.held sink.new) (K.is_steady sink.old) result }
    ensures unread { result ≡ ReadFault → sink.new ≡ sink.old }
    ensures cause { IsCaused (S.faults source.old) (S.faults source.new) (K.faults sink.old) (K.faults sink.new) result }
{
    status_of(write_settings(alloc, source, sink))
}

/// Writes a description of the channel of the head that the source begins with, and says how that ended.
fn description_status<S: Source, K: Sink>(
    alloc: Global,
    port: u16,
    source: &mut S,
    sink: &mut K,
) -> Status
    requires low { 1 ≤ port }
    requires high { port ≤ 65000 }
    ensures words { is_words result ≡ false }
    ensures writes { Replies (description_outcome port) (S.left source.old) (S.is_steady source.old) (K.held sink.old) (K.held sink.new) (K.is_steady sink.old) result }
    ensures unread { result ≡ ReadFault → sink.new ≡ sink.old }
    ensures cause { IsCaused (S.faults source.old) (S.faults source.new) (K.faults sink.old) (K.faults sink.new) result }
{
    status_of(write_description(alloc, port, source, sink))
}

/// Writes the trace of the capture file behind the head that the source begins with, and says how that
/// ended.
fn capture_status<S: Source, K: Sink, V: CaptureWatch>(
    alloc: Global,
    port: u16,
    source: &mut S,
    sink: &mut K,
    watch: &V,
) -> Status
    requires { port ≤ 65000 }
    ensures words { is_words result ≡ false }
    ensures writes { WritesCapture port (S.left source.old) (S.left source.new) (S.is_steady source.old) (K.held sink.old) (K.held sink.new) (K.faults sink.old) (K.faults sink.new) (K.is_steady sink.old) result }
    ensures ended { result ≡ Done → IsAtEnd (S.left source.new) }
    ensures cause { IsCaused (S.faults source.old) (S.faults source.new) (K.faults sink.old) (K.faults sink.new) result }
{
    status_of(write_capture(alloc, port, source, sink, watch))
}

/// Deals the trace that the source has left to threads, writes what came of it, and says how that ended.
fn threads_status<R: Threads + Wait + Sync, S: Source, K: Sink, G: Gate + Sync>(
    rt: &R,
    alloc: Global,
    workers: u32,
    source: &mut S,
    sink: &mut K,
    gate: &G,
) -> Status
    requires { (0 < workers) × (workers ≤ 16) }
    ensures words { is_words result ≡ false }
    ensures writes { WritesThreads workers (S.left source.old) (S.is_steady source.old) (K.held sink.old) (K.held sink.new) (K.is_steady sink.old) result }
    ensures unread { result ≡ ReadFault → sink.new ≡ sink.old }
    ensures cause { IsCaused (S.faults source.old) (S.faults source.new) (K.faults sink.old) (K.faults sink.new) result }
{
    status_of(write_threads(rt, alloc, workers, source, sink, gate))
}

/// Runs the channels of the trace that the source has left on threads, over a link that they share, writes their
/// book and the link's ledger, and says how that ended.
fn pool_status<R: Threads + Sync, S: Source, K: Sink, G: Gate + Sync>(
    rt: &R,
    alloc: Global,
    rate: u32,
    source: &mut S,
    sink: &mut K,
    gate: &G,
) -> Status
    requires { (0 < rate) × (rate ≤ 1000000000) }
    ensures words { is_words result ≡ false }
    ensures writes { WritesPool rate (S.left source.old) (S.is_steady source.old) (K.held sink.old) (K.held sink.new) (K.is_steady sink.old) result }
    ensures unread { result ≡ ReadFault → sink.new ≡ sink.old }
    ensures cause { IsCaused (S.faults source.old) (S.faults source.new) (K.faults sink.old) (K.faults sink.new) result }
{
    status_of(write_pool(rt, alloc, u64::from(rate), source, sink, gate))
}

/// The status of what ended so.
pub(crate) fn status_of(ended: Result<Status, Stop>) -> Status
    ensures { result ≡ status_of ended }
{
    match ended {
        Ok(status) => status,
        Err(Stop::Memory) => Status::NoMemory,
        Err(Stop::Read) => Status::ReadFault,
        Err(Stop::Write) => Status::WriteFault,
        Err(Stop::Wire) => Status::WireFault,
    }
}
