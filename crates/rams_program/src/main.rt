//! The program `rams-replay`: it makes the objects of this machine, and ends with the command's
//! status.
#![tactic(auto)]

mod report;

ghost use Rattle.std.specs.Prelude.{◌≡◌, ◌<◌, ◌≤◌, IfErr, IfOk, None, drop, is_none, map, true};
ghost use Rattle.std.specs.Process.{exit_status};
ghost use Rattle.std.specs.String.{string_bytes};
ghost use Rattle.rams_model.specs.declared.Status.TheVariants.{Words};
ghost use Rattle.rams_replay.specs.{IsOrLacksMemory, command_of, is_words};
ghost use Rattle.rams_program.specs.{exit_number};

use crate::report::Report;
use channel_config::MOST_CHANNELS;
use ram_io::{Clock, Gate, MemClock, MemWire, Octets, StdClock, StdSink, StdSource, Wire};
use rams_replay::{CaptureWatch, Status, Watch, port_of, run};
use std::alloc::{AllocError, Global};
use std::net::Net;
use std::process::ExitCode;
use std::sync::Wait;
use std::thread::Threads;
use std::{env, io, rt};
use udp_edge::{BindFault, FailedWire, UdpWire, busy_port};

const USAGE: &str =
    "usage: rams-replay run | meet | serve PORT TURNS | make SEED BLOCKS | pcap PORT | sdp | describe PORT | threads WORKERS | pool RATE | takeover PORT TURNS";

fn main(rt: HostRuntime) -> ExitCode {
    let status = ended(&rt, rt.alloc(), words(&rt));
    if status == Status::Words {
        let _ = eprintln!(rt; "{USAGE}");
    }
    code_of(status)
}

/// How the command ends that these words ask for, or why there are none.
fn ended<R: Threads + Wait + Net + rt::Clock + Sync + Input + Print + Eprint>(
    rt: &R,
    alloc: Global,
    words: Result<Vec<Octets>, Status>,
) -> Status
    ensures refuses { is_words result ≡ true → IfOk words (λ w. is_none (command_of w.items) ≡ true) }
    ensures refused { IfOk words (λ w. command_of w.items ≡ None → IsOrLacksMemory Words result) }
    ensures unread { IfErr words (λ status. result ≡ status) }
{
    match words {
        Ok(words) => match port_of(&words) {
            Some(port) => served(rt, alloc, &words, port),
            None => unserved(rt, alloc, &words),
        },
        Err(status) => status,
    }
}

/// What the program ends with after this status.
fn code_of(status: Status) -> ExitCode
    ensures { exit_status result ≡ exit_number status }
{
    ExitCode::from(number(status))
}

/// The words of the command line, behind the program's name.
fn words(rt: &HostRuntime) -> Result<Vec<Octets>, Status> {
    let given = match env::args(rt) {
        Ok(given) => given,
        Err(e) if e.kind() == io::ErrorKind::OutOfMemory => return Err(Status::NoMemory),
        // No word of the program is other than text.
        Err(_) => return Err(Status::Words),
    };
    let given = given.collect(rt.alloc()).map_err(|_| Status::NoMemory)?;
    octets_of(rt.alloc(), given).map_err(|_| Status::NoMemory)
}

/// The bytes of the words behind the first.
fn octets_of(alloc: Global, given: Vec<String>) -> Result<Vec<Octets>, AllocError>
    ensures { IfOk result (λ words. words.items ≡ map string_bytes (drop 1 given.items)) }
{
    given
        .into_iter()
        .skip(1)
        .map(|word| Octets::of(word.into_bytes()))
        .collect(alloc)
}

/// Most channels of a server.
const CHANNELS: u16 = MOST_CHANNELS as u16;

/// Most time that a server waits for a datagram, in ms.
const WAIT_MS: u32 = 1;

/// Runs a command that has no wire.
fn unserved<R: Threads + Wait + Sync + Input + Print + Eprint>(
    rt: &R,
    alloc: Global,
    words: &[Octets],
) -> Status
    ensures refuses { is_words result ≡ true → is_none (command_of words.now) ≡ true }
    ensures refused { command_of words.now ≡ None → IsOrLacksMemory Words result }
{
    let Ok(mut wire) = MemWire::new(alloc, Vec::new(alloc), 0, 0, Vec::new(alloc)) else {
        return Status::NoMemory;
    };
    let mut clock = MemClock::new(Vec::new(alloc));
    let report = Report::new(rt, alloc);
    command(rt, alloc, words, &mut wire, &mut clock, &report)
}

/// Runs `serve` over the ports of as many channels as a server may have, since its head isn't read yet. Where one of
/// them can't be had, its wire fails.
fn served<R: Threads + Wait + Net + rt::Clock + Sync + Input + Print + Eprint>(
    rt: &R,
    alloc: Global,
    words: &[Octets],
    port: u16,
) -> Status
    requires first { 0 < port }
    requires last { port ≤ 65000 }
    ensures { is_words result ≡ true → is_none (command_of words.now) ≡ true }
{
    let last = port + (2 * CHANNELS - 1);
    let mut clock = StdClock::new(rt);
    let report = Report::new(rt, alloc);
    match UdpWire::bind(&rt, alloc, port, CHANNELS, WAIT_MS) {
        Ok(mut wire) => {
            let _ = eprintln!(rt; "rams-replay: has the ports {port} to {last} of 127.0.0.1");
            let status = command(rt, alloc, words, &mut wire, &mut clock, &report);
            report.tell_end(status, wire.failed_port());
            status
        }
        Err(BindFault::NoMemory) => Status::NoMemory,
        Err(BindFault::Failed) => {
            tell_busy(rt, port, last);
            command(
                rt,
                alloc,
                words,
                &mut FailedWire::new(),
                &mut clock,
                &report,
            )
        }
    }
}

/// Tells which of the ports from `port` to `last` can't be had.
fn tell_busy<R: Net + Eprint>(rt: &R, port: u16, last: u16)
    requires { port ≤ 65000 }
{
    let _ = match busy_port(rt, port, CHANNELS) {
        Some(busy) => eprintln!(rt;
            "rams-replay: port {busy} of 127.0.0.1 can't be had: free it, or name another PORT (the {port} to {last} are bound)"
        ),
        None => eprintln!(rt;
            "rams-replay: the ports {port} to {last} of 127.0.0.1 can't be had at once: free some, or name another PORT"
        ),
    };
}

/// Runs the command over this machine's input and output.
fn command<
    R: Threads + Wait + Sync + Input + Print,
    W: Wire,
    C: Clock,
    G: Gate + Watch + CaptureWatch + Sync,
>(rt: &R, alloc: Global, words: &[Octets], wire: &mut W, clock: &mut C, gate: &G) -> Status
    ensures { is_words result ≡ is_none (command_of words.now) }
{
    let mut source = StdSource::new(rt.reader());
    let mut sink = StdSink::new(io::writer(rt));
    run(rt, alloc, words, &mut source, &mut sink, wire, clock, gate)
}

/// The exit status that a status stands for.
fn number(status: Status) -> u8
    ensures { result ≡ exit_number status }
{
    match status {
        Status::Done => 0,
        Status::NoMemory => 1,
        Status::Words => 2,
        Status::ReadFault => 3,
        Status::WriteFault => 4,
        Status::BadTrace => 5,
        Status::WireFault => 6,
        Status::TooLong => 7,
        Status::BadCapture => 9,
        Status::BadSdp => 10,
    }
}
