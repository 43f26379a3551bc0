//! Originals out of retransmissions.
ghost use Rattle.std.specs.Prelude.{◌≡◌, ◌<◌, ◌↔◌, IfOk, length};
ghost use Rattle.rams_model.specs.Formats.{spelling, original, original_number};
ghost use Rattle.wire_packets.specs.rtx_payload.{RestoringGivesTheOriginal};

use crate::rtp_record::{Rtp, RtpFields, write_rtp};
use byteorder::{BigEndian, ByteOrder};
use ram_io::NoMemory;
use std::alloc::Global;

/// Why a retransmission brings no packet.
#[derive(Clone, Copy, PartialEq, Eq)]
pub enum RtxFault {
    /// Its payload has fewer than the two bytes of the original number.
    Short,
    NoMemory,
}

/// The number and the bytes of the packet that a retransmission brings, whose payload type is `pt`;
/// it has no padding.
pub fn restore(alloc: Global, packet: &Rtp<'_>, pt: u8) -> Result<(u16, Vec<u8>), RtxFault>
    requires { pt < 128 }
    ensures number { IfOk result (λ r. r.0 ≡ original_number packet.now) }
    ensures text { IfOk result (λ r. r.1.items ≡ spelling (original packet.now pt)) }
    ensures short { (result ≡ Err RtxFault.Short) ↔ (length packet.now.payload < 2) }
{
    let fields = packet.fields();
    if fields.payload.len() < 2 {
        return Err(RtxFault::Short);
    }
    let (front, payload) = fields.payload.split_at(2);
    let sequence = BigEndian::read_u16(front);
    let original = RtpFields {
        payload_type: pt,
        sequence,
        payload,
        ..fields
    };
    match write_rtp(alloc, &original) {
        Ok(text) => Ok((sequence, text)),
        Err(NoMemory) => Err(RtxFault::NoMemory),
    }
}

/// What is restored of the retransmission of a packet is its number and the packet without its
/// padding.
pub fn restoring_gives_the_original()
    ensures { RestoringGivesTheOriginal }
{}
