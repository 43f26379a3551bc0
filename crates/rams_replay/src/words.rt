//! The words of the command line.
ghost use Rattle.std.specs.Prelude.{◌≡◌, ◌≤◌, ◌∷◌, [], IfSome};
ghost use Rattle.rams_replay.specs.{IsWithin, alone, command_of, number_within, port_of, with_number};

use ram_io::Octets;
use trace_text::number;

/// What the words ask for.
#[derive(Clone, Copy, PartialEq, Eq)]
pub enum Command {
    /// The book of a trace.
    Run,
    /// The book of a world.
    Meet,
    /// The summary of the generated trace of this seed and of so many blocks.
    Make { seed: u32, blocks: u32 },
    /// So many turns of a server over a wire, with this live port of its first channel.
    Serve { port: u16, turns: u32 },
    /// The settings of a channel, from its session description.
    Sdp,
    /// The session description of a channel, its media on this UDP port.
    Describe { port: u16 },
    /// The trace of a capture file, with this live port of its first channel.
    Pcap { port: u16 },
    /// What comes of a trace of one channel whose feedback goes to so many workers, each on a thread.
    Threads { workers: u32 },
    /// The book of a trace, and the ledger of a link of so many bytes a tick that its channels share.
    Pool { rate: u32 },
    /// The journal of another server read as far as it goes, and then so many turns of a server over a wire, with
    /// this live port of its first channel.
    Takeover { port: u16, turns: u32 },
}

/// The command that the words spell: `run`; `meet`; `sdp`; `describe PORT` or `pcap PORT` with a port from 1 to
/// 65,000; `threads WORKERS` with 1 to 16 workers; `pool RATE` with a rate of 1 to 1,000,000,000; `make SEED BLOCKS`
/// with a seed of up to 2^32 - 1 and 1 to 50,000 blocks; or `serve PORT TURNS` or `takeover PORT TURNS` with a port
/// from 1,024 to 65,000 and 1 to 500,000 turns. Numbers stand in decimal digits without a zero in front. `None`
/// exactly where the words spell none.
pub fn command_of(words: &[Octets]) -> Option<Command>
    ensures value { result ≡ command_of words.now }
    ensures within { IfSome result IsWithin }
{
    match words {
        [word] => alone(word.bytes()),
        [word, number] => with_number(word.bytes(), number.bytes()),
        [word, first, second] => with_numbers(word.bytes(), first.bytes(), second.bytes()),
        _ => None,
    }
}

/// `run`, `meet` or `sdp`.
fn alone(word: &[u8]) -> Option<Command>
    ensures value { result ≡ alone word.now }
    ensures within { IfSome result IsWithin }
{
    if word == b"run".as_slice() {
        return Some(Command::Run);
    }
    if word == b"meet".as_slice() {
        return Some(Command::Meet);
    }
    if word == b"sdp".as_slice() {
        return Some(Command::Sdp);
    }
    None
}

/// `describe PORT`, `pcap PORT`, `threads WORKERS` or `pool RATE`.
fn with_number(word: &[u8], number: &[u8]) -> Option<Command>
    ensures value { result ≡ with_number word.now number.now }
    ensures within { IfSome result IsWithin }
{
    if word == b"describe".as_slice() {
        let port = port_from(1, number)?;
        return Some(Command::Describe { port });
    }
    if word == b"pcap".as_slice() {
        let port = port_from(1, number)?;
        return Some(Command::Pcap { port });
    }
    if word == b"threads".as_slice() {
        let workers = number_within(1, 16, number)?;
        return Some(Command::Threads { workers });
    }
    if word == b"pool".as_slice() {
        let rate = number_within(1, 1_000_000_000, number)?;
        return Some(Command::Pool { rate });
    }
    None
}

/// `make SEED BLOCKS`, `serve PORT TURNS` or `takeover PORT TURNS`.
fn with_numbers(word: &[u8], first: &[u8], second: &[u8]) -> Option<Command>
    ensures value { result ≡ command_of (word.now ∷ first.now ∷ second.now ∷ []) }
    ensures within { IfSome result IsWithin }
{
    if word == b"make".as_slice() {
        let seed = number_within(0, u32::MAX, first)?;
        let blocks = number_within(1, 50_000, second)?;
        return Some(Command::Make { seed, blocks });
    }
    if word == b"serve".as_slice() {
        let port = port_from(1024, first)?;
        let turns = number_within(1, 500_000, second)?;
        return Some(Command::Serve { port, turns });
    }
    if word == b"takeover".as_slice() {
        let port = port_from(1024, first)?;
        let turns = number_within(1, 500_000, second)?;
        return Some(Command::Takeover { port, turns });
    }
    None
}

/// The number of a word, where it is one from `low` to `high`.
fn number_within(low: u32, high: u32, word: &[u8]) -> Option<u32>
    ensures value { result ≡ number_within low high word.now }
    ensures within { IfSome result (λ n. (low ≤ n) × (n ≤ high)) }
{
    let number = u32::try_from(number(word)?).ok()?;
    (low..=high).contains(&number).then_some(number)
}

/// The number of a word, where it is a port from `low` to 65,000.
fn port_from(low: u32, word: &[u8]) -> Option<u16>
    ensures value { result ≡ number_within low 65000 word.now }
    ensures within { IfSome result (λ n. (low ≤ n) × (n ≤ 65000)) }
{
    let number = number_within(low, 65_000, word)?;
    u16::try_from(number).ok()
}

/// The live port of the first channel, where the words are `serve PORT TURNS` or `takeover PORT TURNS`; `None`
/// exactly where they are neither.
pub fn port_of(words: &[Octets]) -> Option<u16>
    ensures value { result ≡ port_of words.now }
    ensures least { IfSome result (λ port. 1024 ≤ port) }
    ensures most { IfSome result (λ port. port ≤ 65000) }
{
    match command_of(words) {
        Some(Command::Serve { port, .. } | Command::Takeover { port, .. }) => Some(port),
        Some(
            Command::Run
            | Command::Meet
            | Command::Make { .. }
            | Command::Sdp
            | Command::Describe { .. }
            | Command::Pcap { .. }
            | Command::Threads { .. }
            | Command::Pool { .. },
        )
        | None => None,
    }
}
