//! The generic NACK, written (RFC 4585, 6.2.1).
ghost use Rattle.std.specs.Prelude.{◌≡◌, ◌+◌, ◌-◌, ◌^◌, ◌<◌, ◌≤◌, ◌&&◌, ◌∷◌, ◌++◌, ℕ, List, nat_lt, nat_le, IfOk, OnOk, OnErr, length, vec_len, vec_capacity};
ghost use Rattle.std.specs.Int.{w16, w32, to_be_bytes};
ghost use Rattle.rams_model.specs.Formats.{nack_packet, nack_words};

use crate::packet_bytes::VERSION_2;
use ram_io::NoMemory;
use rams_model::{FMT_NACK, RTPFB};
use std::alloc::Global;

/// A whole generic NACK of these numbers, 1 to 8,000, in their order. Each word has the first number
/// that is left, and as many of the following ones as it can name.
pub fn write_nack(
    alloc: Global,
    sender: u32,
    media: u32,
    numbers: &[u16],
) -> Result<Vec<u8>, NoMemory>
    requires some { 0 < length numbers.now }
    requires few { length numbers.now ≤ 8000 }
    ensures { IfOk result (λ text. text.items ≡ nack_packet sender media numbers.now) }
{
    let mut text = Vec::new(alloc);
    append_nack(&mut text, sender, media, numbers)?;
    Ok(text)
}

/// `write_nack`, behind what is there. An error changes nothing, and comes only where the vector
/// lacks the room.
pub fn append_nack(
    text: &mut Vec<u8>,
    sender: u32,
    media: u32,
    numbers: &[u16],
) -> Result<(), NoMemory>
    requires some { 0 < length numbers.now }
    requires few { length numbers.now ≤ 8000 }
    ensures text { OnOk result (text.new.items ≡ text.old.items ++ nack_packet sender media numbers.now) }
    ensures same { OnErr result (text.new.items ≡ text.old.items) }
    ensures full { OnErr result (vec_capacity text.old < vec_len text.old + length (nack_packet sender media numbers.now)) }
{
    let start = text.len();
    text.extend_from_slice(&header(sender, media))?;
    if let Err(e) = append_words(text, numbers) {
        text.truncate(start);
        return Err(e);
    }
    let words = ((text.len() - start) / 4 - 1) as u16;
    let length = words.to_be_bytes();
    text[start + 2] = length[0];
    text[start + 3] = length[1];
    Ok(())
}

// The header of a generic NACK, whose length is still to be written (RFC 4585, 6.1).
fn header(sender: u32, media: u32) -> [u8; 12]
    ensures { result ≡ (VERSION_2 + FMT_NACK) ∷ RTPFB ∷ 0 ∷ 0 ∷ (to_be_bytes w32 sender ++ to_be_bytes w32 media) }
{
    let s = sender.to_be_bytes();
    let m = media.to_be_bytes();
    let first = VERSION_2 + FMT_NACK;
    [
        first, RTPFB, 0, 0, s[0], s[1], s[2], s[3], m[0], m[1], m[2], m[3],
    ]
}

// The words of a NACK, packed from the front. An error may leave some of them.
fn append_words(text: &mut Vec<u8>, numbers: &[u16]) -> Result<(), NoMemory>
    ensures text { OnOk result (text.new.items ≡ text.old.items ++ nack_words numbers.now) }
    ensures kept { OnErr result ((some : List ℕ) × (text.new.items ≡ text.old.items ++ some)) }
    ensures full { OnErr result (vec_capacity text.old < vec_len text.old + length (nack_words numbers.now)) }
{
    let Some((first, rest)) = numbers.split_first() else {
        return Ok(());
    };
    let mut pid = *first;
    let mut blp = 0;
    let mut last = 0;
    for number in rest {
        let distance = number.wrapping_sub(pid);
        if joins(last, distance) {
            blp += bit(distance);
            last = distance;
            continue;
        }
        append_word(text, pid, blp)?;
        pid = *number;
        blp = 0;
        last = 0;
    }
    append_word(text, pid, blp)?;
    Ok(())
}

// Whether a number so far behind the word's own joins it, where the last that joined is at `last`.
fn joins(last: u16, distance: u16) -> bool
    ensures { result ≡ (nat_lt last distance && nat_le distance 16) }
{
    last < distance && distance <= 16
}

// The bit of a number so far behind the word's own.
fn bit(distance: u16) -> u16
    requires low { 1 ≤ distance }
    requires high { distance ≤ 16 }
    ensures { result ≡ 2 ^ (distance - 1) }
{
    1 << (distance - 1)
}

fn append_word(text: &mut Vec<u8>, pid: u16, blp: u16) -> Result<(), NoMemory>
    ensures text { OnOk result (text.new.items ≡ text.old.items ++ (to_be_bytes w16 pid ++ to_be_bytes w16 blp)) }
    ensures same { OnErr result (text.new.items ≡ text.old.items) }
    ensures full { OnErr result (vec_capacity text.old < vec_len text.old + 4) }
    ensures capacity { vec_capacity text.old ≤ vec_capacity text.new }
{
    let p = pid.to_be_bytes();
    let b = blp.to_be_bytes();
    text.extend_from_slice(&[p[0], p[1], b[0], b[1]])?;
    Ok(())
}
