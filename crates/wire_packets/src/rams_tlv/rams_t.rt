//! The RAMS-T, a termination (RFC 6285, 7.4).
ghost use Rattle.std.specs.Prelude.{◌≡◌, ◌+◌, ◌/◌, ◌%◌, ◌<◌, ◌≤◌, ◌++◌, IfOk, OnOk, OnErr, length, vec_len, vec_capacity};
ghost use Rattle.rams_model.specs.Formats.{rams_stop, stop_at, stop_fci};

use crate::packet_bytes::put;
use crate::rams_tlv::packet::begin;
use crate::rams_tlv::tlv_writing::{put_word, words};
use crate::rams_tlv::tlvs::{Message, Tlvs};
use ram_io::NoMemory;
use rams_model::{SFMT_RAMS_T, Stop, TLV_FIRST_MULTICAST, TlvFault};
use std::alloc::Global;

/// Reads the feedback control information of a RAMS-T. The first value of its type counts, and a
/// type that isn't of this message is passed over.
pub fn read_stop(fci: &[u8]) -> Result<Stop, TlvFault>
    ensures { result ≡ stop_at fci.now }
{
    let tlvs = Tlvs::of(Message::Stop, fci)?;
    Ok(Stop {
        first_multicast: tlvs.word(TLV_FIRST_MULTICAST),
    })
}

/// A whole RAMS-T of this sender about this media source.
pub fn write_stop(alloc: Global, sender: u32, media: u32, s: &Stop) -> Result<Vec<u8>, NoMemory>
    ensures { IfOk result (λ text. text.items ≡ rams_stop sender media s.now) }
{
    let mut text = Vec::new(alloc);
    append_stop(&mut text, sender, media, s)?;
    Ok(text)
}

/// `write_stop`, behind what is there. An error changes nothing, and comes only where the vector
/// lacks the room.
#[tactic(auto, unfolding(rams_model::specs::Formats::Rams::rams_stop))]
pub fn append_stop(text: &mut Vec<u8>, sender: u32, media: u32, s: &Stop) -> Result<(), NoMemory>
    ensures text { OnOk result (text.new.items ≡ text.old.items ++ rams_stop sender media s.now) }
    ensures same { OnErr result (text.new.items ≡ text.old.items) }
    ensures full { OnErr result (vec_capacity text.old < vec_len text.old + length (rams_stop sender media s.now)) }
{
    begin(text, stop_words(s), sender, media)?;
    put_stop_fci(text, s);
    Ok(())
}

// The words behind the first of a RAMS-T.
fn stop_words(s: &Stop) -> u16
    ensures words { result ≡ 2 + length (stop_fci s.now) / 4 }
    ensures whole { length (stop_fci s.now) % 4 ≡ 0 }
{
    3 + words(s.first_multicast.is_some(), 2)
}

// The feedback control information of a RAMS-T.
fn put_stop_fci(text: &mut Vec<u8>, s: &Stop)
    requires room { vec_len text.old + length (stop_fci s.now) ≤ vec_capacity text.old }
    ensures items { text.new.items ≡ text.old.items ++ stop_fci s.now }
    ensures len { vec_len text.new ≡ vec_len text.old + length (stop_fci s.now) }
    ensures capacity { vec_capacity text.old ≤ vec_capacity text.new }
{
    put(text, &[SFMT_RAMS_T, 0, 0, 0]);
    put_word(text, TLV_FIRST_MULTICAST, s.first_multicast);
}
