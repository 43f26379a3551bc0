//! Packets as they are written.
ghost use Rattle.std.specs.Prelude.{◌≡◌, ℕ, ◌+◌, ◌*◌, ◌<◌, ◌≤◌, ◌∷◌, ◌++◌, ◌⊎◌, [], IfOk, OnOk, OnErr, length, vec_len, vec_capacity};
ghost use Rattle.rams_model.specs.Formats.{header, spelling, packet_at, AreCsrc, IsPacket, IsWholeExtension};
ghost use Rattle.wire_packets.specs.rtp_record.{packet_of, behind};

use crate::packet_bytes::{VERSION_2, put};
use ram_io::NoMemory;
use std::alloc::Global;

/// The fields of a packet without padding.
#[derive(Clone, Copy)]
pub struct RtpFields<'a> {
    pub marker: bool,
    /// 0 to 127.
    pub payload_type: u8,
    pub sequence: u16,
    /// In units of the payload's clock.
    pub timestamp: u32,
    pub ssrc: u32,
    /// Four bytes for each of 0 to 15 contributing sources.
    pub csrc: &'a [u8],
    /// With its own header of four bytes; empty where there is none.
    pub extension: &'a [u8],
    pub payload: &'a [u8],
}

/// The text of a packet with these fields.
pub fn write_rtp(alloc: Global, f: &RtpFields<'_>) -> Result<Vec<u8>, NoMemory>
    requires kind { f.now.payload_type < 128 }
    requires csrc { AreCsrc f.now.csrc.now }
    requires extension { (f.now.extension.now ≡ []) ⊎ IsWholeExtension f.now.extension.now }
    ensures text { IfOk result (λ v. v.items ≡ spelling (packet_of f.now)) }
    // It is read back as these fields.
    ensures read { IfOk result (λ v. packet_at v.items ≡ Ok (packet_of f.now)) }
{
    let mut text = Vec::new(alloc);
    append_rtp(&mut text, f)?;
    Ok(text)
}

/// `write_rtp`, behind what is there. An error changes nothing, and comes only where the vector
/// lacks the room.
pub fn append_rtp(text: &mut Vec<u8>, f: &RtpFields<'_>) -> Result<(), NoMemory>
    requires kind { f.now.payload_type < 128 }
    requires csrc { AreCsrc f.now.csrc.now }
    requires extension { (f.now.extension.now ≡ []) ⊎ IsWholeExtension f.now.extension.now }
    ensures text { OnOk result (text.new.items ≡ text.old.items ++ spelling (packet_of f.now)) }
    ensures same { OnErr result (text.new.items ≡ text.old.items) }
    ensures full { OnErr result (vec_capacity text.old < vec_len text.old + length (spelling (packet_of f.now))) }
    // These are the fields of a packet: what is appended is read back as them.
    ensures lawful { OnOk result (IsPacket (packet_of f.now)) }
{
    append_rtp_behind(text, f, &[])
}

/// `append_rtp` of a packet whose payload is `front`, of at most 1,000 bytes, and behind it that of
/// the fields.
pub fn append_rtp_behind(
    text: &mut Vec<u8>,
    f: &RtpFields<'_>,
    front: &[u8],
) -> Result<(), NoMemory>
    requires kind { f.now.payload_type < 128 }
    requires csrc { AreCsrc f.now.csrc.now }
    requires extension { (f.now.extension.now ≡ []) ⊎ IsWholeExtension f.now.extension.now }
    requires short { length front.now ≤ 1000 }
    ensures text { OnOk result (text.new.items ≡ text.old.items ++ spelling (behind front.now (packet_of f.now))) }
    ensures same { OnErr result (text.new.items ≡ text.old.items) }
    ensures full { OnErr result (vec_capacity text.old < vec_len text.old + length (spelling (behind front.now (packet_of f.now)))) }
    ensures lawful { OnOk result (IsPacket (packet_of f.now)) }
{
    text.reserve(12 + f.csrc.len() + f.extension.len() + front.len() + f.payload.len())?;
    put(text, &fixed_header(f));
    put_if_any(text, f.csrc);
    put_if_any(text, f.extension);
    put(text, front);
    put(text, f.payload);
    Ok(())
}

// Puts a piece that is seldom there.
#[inline]
fn put_if_any(text: &mut Vec<u8>, piece: &[u8])
    requires { vec_len text.old + length piece.now ≤ vec_capacity text.old }
    ensures items { text.new.items ≡ text.old.items ++ piece.now }
    ensures len { vec_len text.new ≡ vec_len text.old + length piece.now }
    ensures capacity { vec_capacity text.old ≤ vec_capacity text.new }
{
    if !piece.is_empty() {
        put(text, piece);
    }
}

// The twelve bytes with which a packet without padding begins.
#[tactic(auto, unfolding(rams_model::specs::Formats::RtpPacket::header))]
fn fixed_header(f: &RtpFields<'_>) -> [u8; 12]
    requires kind { f.now.payload_type < 128 }
    requires csrc { AreCsrc f.now.csrc.now }
    requires extension { (f.now.extension.now ≡ []) ⊎ IsWholeExtension f.now.extension.now }
    ensures value { result ≡ header (packet_of f.now) }
    ensures lawful { IsPacket (packet_of f.now) }
{
    let extension = if f.extension.is_empty() { 0 } else { 16 };
    let marker = if f.marker { 128 } else { 0 };
    let s = f.sequence.to_be_bytes();
    let t = f.timestamp.to_be_bytes();
    let m = f.ssrc.to_be_bytes();
    [
        VERSION_2 + extension + (f.csrc.len() / 4) as u8,
        marker + f.payload_type,
        s[0],
        s[1],
        t[0],
        t[1],
        t[2],
        t[3],
        m[0],
        m[1],
        m[2],
        m[3],
    ]
}
