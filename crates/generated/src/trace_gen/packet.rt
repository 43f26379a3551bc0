//! Packets of the multicast.
ghost use Rattle.std.specs.Prelude.{◌≡◌, ℕ, ◌+◌, ◌-◌, ◌*◌, ◌/◌, ◌%◌, ◌^◌, ◌<◌, ◌≤◌, ◌==◌, ◌++◌, IfOk, OnOk};
ghost use Rattle.rams_model.specs.Formats.{header, spelling};
ghost use Rattle.generated.specs.trace_gen.Draws as draws;
ghost use Rattle.generated.specs.trace_gen.{draws_before, numbered, texts_from, AreReady};

use crate::trace_gen::channel::MEDIA;
use crate::trace_gen::draw::{drawn, stepped};
use bytes::Bytes;
use ram_io::NoMemory;
use std::alloc::Global;

/// Packets of a block.
pub const PACKETS: u8 = 10;

/// Bytes of a header.
pub const HEADER: usize = 12;

/// Most bytes of a payload.
const MOST: usize = 1399;

static ZEROS: [u8; MOST] = [0; MOST];

/// Packet `i` of the multicast, with a payload of so many zeros, behind what is there.
pub fn append_packet(page: &mut Vec<u8>, i: u64, size: usize) -> Result<(), NoMemory>
    requires few { i < 2 ^ 36 }
    requires short { size ≤ 1399 }
    ensures { OnOk result (page.new.items ≡ page.old.items ++ spelling (numbered i size)) }
{
    page.extend_from_slice(&header_of(i))?;
    page.extend_from_slice(&ZEROS[..size])?;
    Ok(())
}

/// Whether packet `i` has the marker.
pub fn is_marked(i: u64) -> bool
    ensures { result ≡ (i % 50 == 0) }
{
    i % 50 == 0
}

/// The sequence number of packet `i`.
pub fn sequence_of(i: u64) -> u16
    ensures { result ≡ i % 65536 }
{
    (i % 65536) as u16
}

/// The timestamp of packet `i`.
pub fn timestamp_of(i: u64) -> u32
    requires { i < 2 ^ 36 }
    ensures { result ≡ 450 * i % 2 ^ 32 }
{
    (450 * i % (1 << 32)) as u32
}

/// The header of packet `i`, whatever its payload (RFC 3550, 5.1).
#[tactic(auto, unfolding(rams_model::specs::Formats::RtpPacket::header))]
fn header_of(i: u64) -> [u8; 12]
    requires { i < 2 ^ 36 }
    ensures { (size : ℕ) → result ≡ header (numbered i size) }
{
    let marker = if is_marked(i) { 128 } else { 0 };
    let s = sequence_of(i).to_be_bytes();
    let t = timestamp_of(i).to_be_bytes();
    let m = MEDIA.to_be_bytes();
    [
        0x80,
        marker + 33,
        s[0],
        s[1],
        t[0],
        t[1],
        t[2],
        t[3],
        m[0],
        m[1],
        m[2],
        m[3],
    ]
}

/// The payload, in bytes, of the packet whose draw has this state.
pub fn size_of(state: u64) -> usize
    ensures value { result ≡ 100 + state / 2 ^ 33 % 1300 }
    ensures short { result ≤ 1399 }
{
    100 + (drawn(state) % 1300) as usize
}

/// The packets of a block from `first` on are put on `ready`, one behind another, where it is empty. The draws have
/// come to this state.
pub fn write_packets(
    alloc: Global,
    ready: &mut Bytes,
    state: u64,
    block: u32,
    first: u8,
) -> Result<(), NoMemory>
    requires { first ≤ 10 }
    ensures { (seed : ℕ) → state ≡ draws.state seed (draws_before block + first) → AreReady seed block first ready.old →
        OnOk result (ready.new ≡ texts_from seed block first (10 - first)) }
{
    if ready.is_empty() {
        *ready = packets_from(alloc, state, block, first)?;
    }
    Ok(())
}

/// The packets of a block from `first` on, one behind another. The draws have come to the state `before`.
fn packets_from(alloc: Global, before: u64, block: u32, first: u8) -> Result<Bytes, NoMemory>
    requires { first ≤ 10 }
    ensures { (seed : ℕ) → before ≡ draws.state seed (draws_before block + first) →
        IfOk result (λ text. text ≡ texts_from seed block first (10 - first)) }
{
    let mut text = Vec::with_capacity(alloc, usize::from(PACKETS) * (HEADER + MOST))?;
    let mut state = before;
    for j in first..PACKETS {
        state = stepped(state);
        let i = 10 * u64::from(block) + u64::from(j);
        append_packet(&mut text, i, size_of(state))?;
    }
    Ok(Bytes::from_vec(text)?)
}
