//! The RAMS-I, information on a burst (RFC 6285, 7.3).
ghost use Rattle.std.specs.Prelude.{◌≡◌, ◌+◌, ◌/◌, ◌%◌, ◌<◌, ◌≤◌, ◌++◌, IfOk, OnOk, OnErr, length, vec_len, vec_capacity};
ghost use Rattle.rams_model.specs.Formats.{info_at, info_fci, rams_info};

use crate::packet_bytes::put;
use crate::rams_tlv::packet::begin;
use crate::rams_tlv::tlv_writing::{put_long, put_short, put_word, words};
use crate::rams_tlv::tlvs::{Message, Tlvs};
use byteorder::{BigEndian, ByteOrder};
use ram_io::NoMemory;
use rams_model::{
    Info, SFMT_RAMS_I, TLV_BURST_DURATION, TLV_FIRST_SEQUENCE, TLV_JOIN_TIME,
    TLV_MAX_TRANSMIT_BITRATE, TlvFault,
};
use std::alloc::Global;

/// Reads the feedback control information of a RAMS-I. The first value of each type counts, and a
/// type that isn't of this message is passed over.
pub fn read_info(fci: &[u8]) -> Result<Info, TlvFault>
    ensures { result ≡ info_at fci.now }
{
    let tlvs = Tlvs::of(Message::Info, fci)?;
    Ok(Info {
        msn: fci[1],
        code: BigEndian::read_u16(&fci[2..]),
        first: tlvs.short(TLV_FIRST_SEQUENCE),
        join_ms: tlvs.word(TLV_JOIN_TIME),
        length_ms: tlvs.word(TLV_BURST_DURATION),
        bps: tlvs.long(TLV_MAX_TRANSMIT_BITRATE),
    })
}

/// A whole RAMS-I of this sender about this media source, its TLVs in rising type.
pub fn write_info(alloc: Global, sender: u32, media: u32, i: &Info) -> Result<Vec<u8>, NoMemory>
    ensures { IfOk result (λ text. text.items ≡ rams_info sender media i.now) }
{
    let mut text = Vec::new(alloc);
    append_info(&mut text, sender, media, i)?;
    Ok(text)
}

/// `write_info`, behind what is there. An error changes nothing, and comes only where the vector
/// lacks the room.
#[tactic(auto, unfolding(rams_model::specs::Formats::RamsInfo::rams_info))]
pub fn append_info(text: &mut Vec<u8>, sender: u32, media: u32, i: &Info) -> Result<(), NoMemory>
    ensures text { OnOk result (text.new.items ≡ text.old.items ++ rams_info sender media i.now) }
    ensures same { OnErr result (text.new.items ≡ text.old.items) }
    ensures full { OnErr result (vec_capacity text.old < vec_len text.old + length (rams_info sender media i.now)) }
{
    begin(text, info_words(i), sender, media)?;
    put_info_fci(text, i);
    Ok(())
}

// The words behind the first of a RAMS-I.
fn info_words(i: &Info) -> u16
    ensures words { result ≡ 2 + length (info_fci i.now) / 4 }
    ensures whole { length (info_fci i.now) % 4 ≡ 0 }
{
    3 + words(i.first.is_some(), 2)
        + words(i.join_ms.is_some(), 2)
        + words(i.length_ms.is_some(), 2)
        + words(i.bps.is_some(), 3)
}

// The feedback control information of a RAMS-I.
fn put_info_fci(text: &mut Vec<u8>, i: &Info)
    requires room { vec_len text.old + length (info_fci i.now) ≤ vec_capacity text.old }
    ensures items { text.new.items ≡ text.old.items ++ info_fci i.now }
    ensures len { vec_len text.new ≡ vec_len text.old + length (info_fci i.now) }
    ensures capacity { vec_capacity text.old ≤ vec_capacity text.new }
{
    put(text, &[SFMT_RAMS_I, i.msn]);
    put(text, &i.code.to_be_bytes());
    put_short(text, TLV_FIRST_SEQUENCE, i.first);
    put_word(text, TLV_JOIN_TIME, i.join_ms);
    put_word(text, TLV_BURST_DURATION, i.length_ms);
    put_long(text, TLV_MAX_TRANSMIT_BITRATE, i.bps);
}
