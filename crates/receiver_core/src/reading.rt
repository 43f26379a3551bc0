//! What datagrams are to a receiver.
ghost use Rattle.std.specs.Prelude.{◌≡◌, ℕ, ◌<◌, ◌≤◌, length, option_map, IfOk, IfSome};
ghost use Rattle.rams_model.specs.Receiver.{again, brought_again, brought_by_multicast, told_by, first_info, if_info, is_of, tells_of_burst, info_about};
ghost use Rattle.rams_model.specs.Formats.{original_number, spelling, stripped, original, packet_at, feedback_of};
ghost use Rattle.rams_model.specs.Service.{sent_again};
ghost use Rattle.wire_packets.specs.rtcp_frame.{packets_left, shown_packet};
ghost use Rattle.wire_packets.specs.rtcp_feedback.{shown_feedback};
ghost use Rattle.receiver_core.specs.{as_again, as_multicast, as_told};

use crate::lent::Lent;
use bumpalo::Bump;
use ram_io::NoMemory;
use rams_model::response::{ACCEPTED, UPDATED};
use rams_model::{FMT_RAMS, Info, InfoCame, MediaCame, SFMT_RAMS_I, Tuned};
use std::alloc::Global;
use wire_packets::rams_tlv::read_info;
use wire_packets::rtcp_feedback::{Feedback, feedback};
use wire_packets::rtcp_frame::{Packet, Packets, packets};
use wire_packets::rtp_record::Rtp;
use wire_packets::rtx_payload::{append_rtx, restore};

/// Whether a packet is of the receiver's media source, and has this payload type.
fn is_of(tuned: &Tuned, payload_type: u8, packet: &Rtp<'_>) -> bool
    ensures { result ≡ is_of tuned.now payload_type packet.now }
{
    packet.ssrc() == tuned.media && packet.payload_type() == payload_type
}

/// The retransmission that the bytes are, or what becomes of them (RFC 4588, 4).
pub(crate) fn read_again<'a>(tuned: &Tuned, bytes: &'a [u8]) -> Result<Rtp<'a>, MediaCame>
    ensures { as_again tuned.now result ≡ brought_again tuned.now bytes.now }
{
    let Ok(packet) = Rtp::read(bytes) else {
        return Err(MediaCame::Bad);
    };
    if packet.payload().len() < 2 {
        return Err(MediaCame::Bad);
    }
    if !is_of(tuned, tuned.rtx, &packet) {
        return Err(MediaCame::Foreign);
    }
    Ok(packet)
}

/// The number of the packet that a retransmission brings, and the packet.
pub(crate) fn original_of<'a>(
    alloc: Global,
    arena: &'a Bump,
    packet: &Rtp<'_>,
    pt: u8,
) -> Result<(u16, Lent<'a>), NoMemory>
    requires { pt < 128 }
    ensures number { IfOk result (λ r. r.0 ≡ original_number packet.now) }
    ensures packet { IfOk result (λ r. r.1 ≡ spelling (original packet.now pt)) }
{
    let Ok((low, original)) = restore(alloc, packet, pt) else {
        return Err(NoMemory);
    };
    Ok((low, Lent::copied(arena, &original)?))
}

/// The sequence number of a packet whose retransmission under this payload type, whatever its sequence
/// number, brings the packet again byte for byte. It has no padding.
pub(crate) fn number_brought(tuned: &Tuned, bytes: &[u8], payload_type: u8) -> Option<u16>
    requires { payload_type < 128 }
    ensures { IfSome result (λ low. (sequence : ℕ) → sequence < 65536 → again sequence low bytes.now ≡ brought_again tuned.now (sent_again payload_type sequence (packet_at bytes.now))) }
{
    let Ok(packet) = Rtp::read(bytes) else {
        return None;
    };
    if payload_type != tuned.rtx {
        return None;
    }
    if !is_of(tuned, tuned.pt, &packet) {
        return None;
    }
    if packet.stripped_len() != bytes.len() {
        return None;
    }
    Some(packet.sequence())
}

/// The bytes of a packet's retransmission; none where it doesn't read as a packet.
pub(crate) fn spell_again(
    alloc: Global,
    packet: &[u8],
    payload_type: u8,
    sequence: u16,
) -> Result<Vec<u8>, NoMemory>
    requires { payload_type < 128 }
    ensures { IfOk result (λ text. text.items ≡ sent_again payload_type sequence (packet_at packet.now)) }
{
    let mut text = Vec::new(alloc);
    if let Ok(original) = Rtp::read(packet) {
        append_rtx(&mut text, &original, payload_type, sequence)?;
    }
    Ok(text)
}

/// The packet of the multicast that the bytes are, or what becomes of them.
pub(crate) fn read_multicast<'a>(tuned: &Tuned, bytes: &'a [u8]) -> Result<Rtp<'a>, MediaCame>
    ensures { as_multicast result ≡ brought_by_multicast tuned.now bytes.now }
{
    let Ok(packet) = Rtp::read(bytes) else {
        return Err(MediaCame::Bad);
    };
    if !is_of(tuned, tuned.pt, &packet) {
        return Err(MediaCame::Foreign);
    }
    Ok(packet)
}

/// A packet without its padding. Its own bytes are lent where it has none.
pub(crate) fn stripped<'a>(
    alloc: Global,
    arena: &'a Bump,
    packet: &Rtp<'a>,
) -> Result<Lent<'a>, NoMemory>
    ensures { IfOk result (λ lent. lent ≡ stripped packet.now) }
{
    if let Some(bytes) = packet.bare() {
        return Ok(Lent::of(bytes));
    }
    Lent::copied(arena, &packet.strip(alloc)?)
}

/// The RAMS-I to take up in a datagram, or what becomes of the datagram (RFC 6285, 7.3).
pub(crate) fn read_told(tuned: &Tuned, bytes: &[u8]) -> Result<Info, InfoCame>
    ensures { as_told result ≡ told_by tuned.now bytes.now }
{
    let Ok(packets) = packets(bytes) else {
        return Err(InfoCame::Bad);
    };
    let Some(message) = first_info(packets) else {
        return Err(InfoCame::Bad);
    };
    let Ok(info) = read_info(message.fci) else {
        return Err(InfoCame::Bad);
    };
    info_about(tuned, message.media, info)
}

// A RAMS-I about this media source, where it is the receiver's and the RAMS-I says all it has to.
fn info_about(tuned: &Tuned, source: u32, info: Info) -> Result<Info, InfoCame>
    ensures { as_told result ≡ info_about tuned.now source info }
{
    if tells_of_burst(&info) && info.first.is_none() {
        return Err(InfoCame::Bad);
    }
    if source != tuned.media {
        return Err(InfoCame::Foreign);
    }
    Ok(info)
}

/// Whether a RAMS-I tells of a burst.
pub(crate) fn tells_of_burst(info: &Info) -> bool
    ensures { result ≡ tells_of_burst info.now }
{
    info.code == ACCEPTED || info.code == UPDATED
}

// The first RAMS-I of some packets.
#[tactic(auto, unfolding(rams_model::specs::Receiver::Reading::first_info))]
fn first_info(packets: Packets<'_>) -> Option<Feedback<'_>>
    ensures { option_map shown_feedback result ≡ first_info (packets_left packets.entry) }
{
    for packet in packets {
        if let Some(message) = info_of(&packet) {
            return Some(message);
        }
    }
    None
}

// The RAMS-I that a packet is.
fn info_of<'a>(packet: &Packet<'a>) -> Option<Feedback<'a>>
    ensures { option_map shown_feedback result ≡ if_info (feedback_of (shown_packet packet.now)) }
{
    let message = feedback(packet)?;
    if message.fmt != FMT_RAMS || message.fci.first() != Some(&SFMT_RAMS_I) {
        return None;
    }
    Some(message)
}
