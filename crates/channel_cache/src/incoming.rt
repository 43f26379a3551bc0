//! Live packets as they come, before they have a number.
ghost use Rattle.std.specs.Prelude.{◌≡◌, ℕ, ◌+◌, ◌<◌, ◌≤◌, length, IfOk, MatchResult};
ghost use Rattle.rams_model.specs.Packets.{is_access_point, held_as};
ghost use Rattle.rams_model.specs.Service.{heard_live, arrival, live, dropped};
ghost use Rattle.rams_model.specs.Formats.{stripped, IsPacket};
ghost use Rattle.channel_cache.specs.{arrival_of, IsBare, IsWhole};

use crate::ts_access::has_access;
use bytes::Bytes;
use channel_config::{Access, Channel};
use rams_model::{Held, LiveNote, MOST_PACKET, RTX_OVERHEAD};
use wire_packets::rtp_record::Rtp;

/// A packet of the channel that has no number yet.
#[derive(Drop)]
pub struct Incoming {
    pub sequence: u16,
    /// In units of 1/90,000 s.
    pub timestamp: u32,
    /// Whether a decoder may start with it.
    pub access: bool,
    /// The packet without its padding.
    pub packet: Bytes,
}

/// Reads the bytes as a packet of the channel: at most 1,470 of them, an RTP packet (RFC 3550, 5.1),
/// of the channel's media source, with its payload type. The error is the note for the first of these
/// that isn't true.
pub fn read_live<'a>(channel: &Channel, bytes: &'a [u8]) -> Result<Rtp<'a>, LiveNote>
    ensures heard { MatchResult result (λ p. heard_live channel.now bytes.now ≡ live (arrival channel.now p)) (λ note. heard_live channel.now bytes.now ≡ dropped note) }
    ensures lawful { IfOk result (λ p. IsPacket p × (length (stripped p) ≤ MOST_PACKET)) }
{
    if bytes.len() > MOST_PACKET as usize {
        return Err(LiveNote::TooBig);
    }
    let packet = match Rtp::read(bytes) {
        Ok(packet) => packet,
        Err(fault) => return Err(LiveNote::Bad(fault)),
    };
    if packet.ssrc() != channel.ssrc {
        return Err(LiveNote::ForeignSsrc);
    }
    if packet.payload_type() != channel.pt {
        return Err(LiveNote::ForeignType);
    }
    Ok(packet)
}

// Whether a decoder may start with the packet, by what the channel says.
fn is_access_point(access: Access, packet: &Rtp<'_>) -> bool
    ensures { result ≡ is_access_point access packet.now }
{
    match access {
        Access::Marker => packet.marker(),
        Access::Ts => has_access(packet.payload()),
    }
}

impl Incoming {
    /// What a packet of the channel brings, which is kept without its padding.
    #[inline(always)]
    pub fn of(channel: &Channel, packet: &Rtp<'_>, kept: Bytes) -> Incoming
        requires lawful { IsPacket packet.now }
        requires short { length (stripped packet.now) ≤ MOST_PACKET }
        requires kept { kept ≡ stripped packet.now }
        ensures value { arrival_of result ≡ arrival channel.now packet.now }
        ensures low { result.sequence < 65536 }
        ensures bare { IsBare result.packet }
    {
        Incoming {
            sequence: packet.sequence(),
            timestamp: packet.timestamp(),
            access: is_access_point(channel.access, packet),
            packet: kept,
        }
    }

    /// The packet under a number.
    pub fn under(self, n: u64) -> Held
        requires { IsBare self.packet }
        ensures value { result ≡ held_as n (arrival_of self) }
        ensures whole { IsWhole result }
    {
        let wire = self.packet.len() as u32 + RTX_OVERHEAD;
        Held {
            n,
            ts: self.timestamp,
            wire,
            access: self.access,
            packet: self.packet,
        }
    }
}
