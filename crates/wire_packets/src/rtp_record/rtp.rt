//! Packets as they are read.
ghost use Rattle.std.specs.Prelude.{◌≡◌, ◌≢◌, ℕ, ◌+◌, [], ◌++◌, ◌<◌, ◌/◌, ◌*◌, ◌%◌, IfNone, IfOk, IfSome, OnOk, OnErr, length, vec_len, vec_capacity};
ghost use Rattle.rams_model.specs.Formats.{Packet, spelling, stripped, packet_at, fields_of, csrc_size, extension_size, padding_size, IsPacket};
ghost use Rattle.wire_packets.specs.rtp_record.{without_padding_bit, packet_of, unpadded};

use crate::rtp_record::fields::RtpFields;
use crate::rtp_record::places::{extension_end, padding_start, short_at, word_at};
use ram_io::NoMemory;
use rams_model::RtpFault;
use std::alloc::Global;
use std::marker::Model;

/// An RTP packet in the bytes that it was read of, seen by contracts as its fields.
#[derive(Drop)]
pub struct Rtp<'a> {
    bytes: &'a [u8],
    // where the parts behind the contributing sources begin
    extension_at: usize,
    payload_at: usize,
    padding_at: usize,
}

impl<'a> Model for Rtp<'a> {
    ghost use Rattle.rams_model.specs.Formats.{Packet, fields_of};
    ghost use Rattle.wire_packets.specs.rtp_record.{ArePlaces};

    ghost Value = { Packet };

    ghost view = { λ r. fields_of r.bytes.now };

    ghost invariant = { λ r. ArePlaces r.bytes.now r.extension_at r.payload_at r.padding_at };
}

impl<'a> Rtp<'a> {
    /// Reads the bytes as one packet, in place. The faults come in the order of their variants, the
    /// first that is true.
    pub fn read(bytes: &'a [u8]) -> Result<Rtp<'a>, RtpFault>
        // The packet that the bytes are, or their fault.
        ensures exact { result ≡ packet_at bytes.now }
        // What is read is spelled so.
        ensures found { IfOk result (λ p. IsPacket p × (spelling p ≡ bytes.now)) }
        // What is spelled so is read.
        ensures only { (p : Packet) → IsPacket p → bytes.now ≡ spelling p → result ≡ Ok p }
    {
        Rtp::cut(bytes)
    }

    // The packet that the bytes are. `read` says of it what the definitions imply.
    #[tactic(auto, unfolding(rams_model::specs::Formats::Rtp::packet_at))]
    fn cut(bytes: &'a [u8]) -> Result<Rtp<'a>, RtpFault>
        ensures { result ≡ packet_at bytes.now }
    {
        if bytes.len() < 12 {
            return Err(RtpFault::Short);
        }
        if bytes[0] / 64 != 2 {
            return Err(RtpFault::Version);
        }
        let extension_at = 12 + 4 * usize::from(bytes[0] % 16);
        if bytes.len() < extension_at {
            return Err(RtpFault::Csrc);
        }
        let payload_at = extension_end(bytes, extension_at)?;
        let padding_at = padding_start(bytes, payload_at)?;
        Ok(Rtp {
            bytes,
            extension_at,
            payload_at,
            padding_at,
        })
    }

    #[tactic(auto, unfolding(rams_model::specs::Formats::Rtp::fields_of))]
    pub fn marker(&self) -> bool
        ensures { result ≡ self.now.marker }
    {
        self.bytes[1] / 128 == 1
    }

    /// 0 to 127.
    #[tactic(auto, unfolding(rams_model::specs::Formats::Rtp::fields_of))]
    pub fn payload_type(&self) -> u8
        ensures value { result ≡ self.now.payload_type }
        ensures small { result < 128 }
    {
        self.bytes[1] % 128
    }

    #[tactic(auto, unfolding(rams_model::specs::Formats::Rtp::fields_of))]
    pub fn sequence(&self) -> u16
        ensures { result ≡ self.now.sequence }
    {
        short_at(self.bytes, 2)
    }

    /// In units of the payload's clock.
    #[tactic(auto, unfolding(rams_model::specs::Formats::Rtp::fields_of))]
    pub fn timestamp(&self) -> u32
        ensures { result ≡ self.now.timestamp }
    {
        word_at(self.bytes, 4)
    }

    #[tactic(auto, unfolding(rams_model::specs::Formats::Rtp::fields_of))]
    pub fn ssrc(&self) -> u32
        ensures { result ≡ self.now.ssrc }
    {
        word_at(self.bytes, 8)
    }

    /// Four bytes for each contributing source, of which there are 0 to 15.
    #[tactic(auto, unfolding(rams_model::specs::Formats::Rtp::fields_of))]
    pub fn csrc(&self) -> &[u8]
        ensures { result.now ≡ self.now.csrc }
    {
        &self.bytes[12..self.extension_at]
    }

    /// With its own header of four bytes; empty where there is none.
    #[tactic(auto, unfolding(rams_model::specs::Formats::Rtp::fields_of))]
    pub fn extension(&self) -> &[u8]
        ensures { result.now ≡ self.now.extension }
    {
        &self.bytes[self.extension_at..self.payload_at]
    }

    /// Without the padding.
    #[tactic(auto, unfolding(rams_model::specs::Formats::Rtp::fields_of))]
    pub fn payload(&self) -> &[u8]
        ensures { result.now ≡ self.now.payload }
    {
        &self.bytes[self.payload_at..self.padding_at]
    }

    /// The fields, all but the padding.
    pub fn fields(&self) -> RtpFields<'_>
        ensures value { packet_of result ≡ unpadded self.now }
        ensures lawful { IsPacket self.now }
    {
        let _ = &self.bytes;
        RtpFields {
            marker: self.marker(),
            payload_type: self.payload_type(),
            sequence: self.sequence(),
            timestamp: self.timestamp(),
            ssrc: self.ssrc(),
            csrc: self.csrc(),
            extension: self.extension(),
            payload: self.payload(),
        }
    }

    /// How long the packet is without its padding, in bytes.
    pub fn stripped_len(&self) -> usize
        ensures { result ≡ length (stripped self.now) }
    {
        self.padding_at
    }

    /// The packet's bytes, exactly where it has no padding: nothing is stripped of them.
    pub fn bare(&self) -> Option<&'a [u8]>
        ensures bytes { IfSome result (λ bytes. bytes.now ≡ stripped self.now) }
        ensures bare { IfSome result (λ bytes. self.now.padding ≡ []) }
        ensures padded { IfNone result (self.now.padding ≢ []) }
    {
        if self.padding_at == self.bytes.len() {
            Some(self.bytes)
        } else {
            None
        }
    }

    /// The packet without its padding, in memory of its own.
    pub fn strip(&self, alloc: Global) -> Result<Vec<u8>, NoMemory>
        ensures { IfOk result (λ v. v.items ≡ stripped self.now) }
    {
        let mut text = Vec::with_capacity(alloc, self.padding_at)?;
        self.append_stripped(&mut text)?;
        Ok(text)
    }

    /// `strip`, behind what is there. An error changes nothing, and comes only where the vector
    /// lacks the room.
    pub fn append_stripped(&self, text: &mut Vec<u8>) -> Result<(), NoMemory>
        ensures text { OnOk result (text.new.items ≡ text.old.items ++ stripped self.now) }
        ensures same { OnErr result (text.new.items ≡ text.old.items) }
        ensures full { OnErr result (vec_capacity text.old < vec_len text.old + length (stripped self.now)) }
    {
        let start = text.len();
        text.extend_from_slice(&self.bytes[..self.padding_at])?;
        text[start] = clear_padding_bit(self.bytes[0]);
        Ok(())
    }
}

// The first byte of a packet without padding.
fn clear_padding_bit(first: u8) -> u8
    ensures { result ≡ without_padding_bit first }
{
    first / 64 * 64 + first % 32
}
