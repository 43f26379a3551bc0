//! The RAMS-R, a request (RFC 6285, 7.2).
ghost use Rattle.std.specs.Prelude.{◌≡◌, ◌+◌, ◌*◌, ◌/◌, ◌%◌, ◌<◌, ◌≤◌, ◌++◌, IfOk, OnOk, OnErr, IfSome, length, vec_len, vec_capacity};
ghost use Rattle.std.specs.Int.{w32, to_be_bytes};
ghost use Rattle.std.specs.List.{flat_map};
ghost use Rattle.rams_model.specs.Formats.{map_ok, words32, tlv, rams_request, request_fci, preamble_tlv, ssrcs_tlv};
ghost use Rattle.rams_model.specs.Formats.Rams as rams;
ghost use Rattle.wire_packets.specs.rams_tlv.{shown_request, shown_ssrcs, IsWritable, HasSpelling};

use crate::packet_bytes::{has_word, put};
use crate::rams_tlv::packet::begin;
use crate::rams_tlv::tlv_writing::{put_long, put_word, words};
use crate::rams_tlv::tlvs::{Message, Tlvs};
use ram_io::NoMemory;
use rams_model::{
    SFMT_RAMS_R, TLV_MAX_BUFFER_FILL, TLV_MAX_RECEIVE_BITRATE, TLV_MEDIA_SENDERS,
    TLV_MIN_BUFFER_FILL, TLV_PREAMBLE_ONLY, TlvFault,
};
use std::alloc::Global;

/// The fields of a RAMS-R. Those that are `None` aren't sent.
#[derive(Clone, Copy, PartialEq, Eq)]
pub struct Request<'a> {
    /// The media sources that are asked for, an SSRC of four bytes each; all of them where there is
    /// no list or an empty one.
    pub ssrcs: Option<&'a [u8]>,
    /// The least that the client buffers, in ms.
    pub min_ms: Option<u32>,
    /// The most that it buffers, in ms.
    pub max_ms: Option<u32>,
    /// The most bits per second that it receives.
    pub bps: Option<u64>,
    /// The preamble alone is asked for, and no burst.
    pub preamble: bool,
}

/// Reads the feedback control information of a RAMS-R. The first value of each type counts, and a
/// type that isn't of this message is passed over.
pub fn read_request(fci: &[u8]) -> Result<Request<'_>, TlvFault>
    ensures exact { map_ok shown_request result ≡ rams.request_at fci.now }
    // The list of SSRCs is whole words.
    ensures whole { IfOk result (λ r. IfSome r.ssrcs (λ list. length list.now % 4 ≡ 0)) }
{
    let tlvs = Tlvs::of(Message::Request, fci)?;
    Ok(Request {
        ssrcs: tlvs.some(TLV_MEDIA_SENDERS),
        min_ms: tlvs.word(TLV_MIN_BUFFER_FILL),
        max_ms: tlvs.word(TLV_MAX_BUFFER_FILL),
        bps: tlvs.long(TLV_MAX_RECEIVE_BITRATE),
        preamble: tlvs.first(TLV_PREAMBLE_ONLY).is_some(),
    })
}

/// Whether the request asks for this media source: there is no list, it is empty, or has the SSRC.
#[tactic(auto, using(crate::proofs::rams_tlv::Listed::listed))]
pub fn names(r: &Request<'_>, ssrc: u32) -> bool
    ensures { result ≡ rams.names (shown_request r.now) ssrc }
{
    match r.ssrcs {
        None => true,
        Some(list) => list.len() < 4 || has_word(list, ssrc),
    }
}

/// A whole RAMS-R of this sender about this media source, its TLVs in rising type. The list of
/// SSRCs has at most 64.
pub fn write_request(
    alloc: Global,
    sender: u32,
    media: u32,
    r: &Request<'_>,
) -> Result<Vec<u8>, NoMemory>
    requires { HasSpelling r.now }
    ensures { IfOk result (λ text. text.items ≡ rams_request sender media (shown_request r.now)) }
{
    let mut text = Vec::new(alloc);
    append_request(&mut text, sender, media, r)?;
    Ok(text)
}

/// `write_request`, behind what is there. An error changes nothing, and comes only where the vector
/// lacks the room.
#[tactic(auto, unfolding(rams_model::specs::Formats::Rams::rams_request))]
pub fn append_request(
    text: &mut Vec<u8>,
    sender: u32,
    media: u32,
    r: &Request<'_>,
) -> Result<(), NoMemory>
    requires { HasSpelling r.now }
    ensures text { OnOk result (text.new.items ≡ text.old.items ++ rams_request sender media (shown_request r.now)) }
    ensures same { OnErr result (text.new.items ≡ text.old.items) }
    ensures full { OnErr result (vec_capacity text.old < vec_len text.old + length (rams_request sender media (shown_request r.now))) }
{
    begin(text, request_words(r), sender, media)?;
    put_request_fci(text, r);
    Ok(())
}

// The words behind the first of a RAMS-R.
fn request_words(r: &Request<'_>) -> u16
    requires { HasSpelling r.now }
    ensures words { result ≡ 2 + length (request_fci (shown_request r.now)) / 4 }
    ensures whole { length (request_fci (shown_request r.now)) % 4 ≡ 0 }
{
    3 + ssrcs_words(r.ssrcs)
        + words(r.min_ms.is_some(), 2)
        + words(r.max_ms.is_some(), 2)
        + words(r.bps.is_some(), 3)
        + words(r.preamble, 1)
}

// The words of the TLV of the SSRCs.
fn ssrcs_words(ssrcs: Option<&[u8]>) -> u16
    requires { IsWritable ssrcs }
    ensures words { 4 * result ≡ length (ssrcs_tlv (shown_ssrcs ssrcs.entry)) }
    ensures few { result ≤ 65 }
{
    match ssrcs {
        None => 0,
        Some(list) => list_words(list),
    }
}

// The words of a TLV of these SSRCs.
fn list_words(list: &[u8]) -> u16
    requires short { length list.now ≤ 256 }
    requires whole { length list.now % 4 ≡ 0 }
    ensures words { 4 * result ≡ length (tlv TLV_MEDIA_SENDERS (flat_map (to_be_bytes w32) (words32 list.now))) }
    ensures few { result ≤ 65 }
{
    1 + (list.len() / 4) as u16
}

// The feedback control information of a RAMS-R.
fn put_request_fci(text: &mut Vec<u8>, r: &Request<'_>)
    requires spelling { HasSpelling r.now }
    requires room { vec_len text.old + length (request_fci (shown_request r.now)) ≤ vec_capacity text.old }
    ensures items { text.new.items ≡ text.old.items ++ request_fci (shown_request r.now) }
    ensures len { vec_len text.new ≡ vec_len text.old + length (request_fci (shown_request r.now)) }
    ensures capacity { vec_capacity text.old ≤ vec_capacity text.new }
{
    put(text, &[SFMT_RAMS_R, 0, 0, 0]);
    put_ssrcs(text, r.ssrcs);
    put_word(text, TLV_MIN_BUFFER_FILL, r.min_ms);
    put_word(text, TLV_MAX_BUFFER_FILL, r.max_ms);
    put_long(text, TLV_MAX_RECEIVE_BITRATE, r.bps);
    put_preamble(text, r.preamble);
}

// The TLV of the SSRCs, where there is a list.
fn put_ssrcs(text: &mut Vec<u8>, ssrcs: Option<&[u8]>)
    requires writable { IsWritable ssrcs }
    requires room { vec_len text.old + length (ssrcs_tlv (shown_ssrcs ssrcs)) ≤ vec_capacity text.old }
    ensures items { text.new.items ≡ text.old.items ++ ssrcs_tlv (shown_ssrcs ssrcs.entry) }
    ensures len { vec_len text.new ≡ vec_len text.old + length (ssrcs_tlv (shown_ssrcs ssrcs.entry)) }
    ensures capacity { vec_capacity text.old ≤ vec_capacity text.new }
{
    match ssrcs {
        None => (),
        Some(list) => put_list(text, list),
    }
}

// A TLV of these SSRCs.
fn put_list(text: &mut Vec<u8>, list: &[u8])
    requires short { length list.now ≤ 256 }
    requires whole { length list.now % 4 ≡ 0 }
    requires room { vec_len text.old + length (tlv TLV_MEDIA_SENDERS (flat_map (to_be_bytes w32) (words32 list.now))) ≤ vec_capacity text.old }
    ensures items { text.new.items ≡ text.old.items ++ tlv TLV_MEDIA_SENDERS (flat_map (to_be_bytes w32) (words32 list.now)) }
    ensures len { vec_len text.new ≡ vec_len text.old + length (tlv TLV_MEDIA_SENDERS (flat_map (to_be_bytes w32) (words32 list.now))) }
    ensures capacity { vec_capacity text.old ≤ vec_capacity text.new }
{
    put(text, &[TLV_MEDIA_SENDERS, 0]);
    put(text, &(list.len() as u16).to_be_bytes());
    put(text, list);
}

// The TLV of the preamble, which has no value, where it is set.
fn put_preamble(text: &mut Vec<u8>, is_set: bool)
    requires room { vec_len text.old + length (preamble_tlv is_set) ≤ vec_capacity text.old }
    ensures items { text.new.items ≡ text.old.items ++ preamble_tlv is_set }
    ensures len { vec_len text.new ≡ vec_len text.old + length (preamble_tlv is_set) }
    ensures capacity { vec_capacity text.old ≤ vec_capacity text.new }
{
    if is_set {
        put(text, &[TLV_PREAMBLE_ONLY, 0, 0, 0]);
    }
}
