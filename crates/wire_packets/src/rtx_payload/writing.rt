//! Retransmissions of packets.
ghost use Rattle.std.specs.Prelude.{◌≡◌, ◌+◌, ◌<◌, ◌++◌, IfOk, OnOk, OnErr, length, vec_len, vec_capacity};
ghost use Rattle.rams_model.specs.Formats.{retransmission};

use crate::rtp_record::{Rtp, RtpFields, append_rtp_behind};
use ram_io::NoMemory;
use std::alloc::Global;

/// The retransmission of the packet with payload type `rtx` and sequence number `seq`.
pub fn write_rtx(alloc: Global, packet: &Rtp<'_>, rtx: u8, seq: u16) -> Result<Vec<u8>, NoMemory>
    requires { rtx < 128 }
    ensures { IfOk result (λ v. v.items ≡ retransmission packet.now rtx seq) }
{
    let mut text = Vec::new(alloc);
    append_rtx(&mut text, packet, rtx, seq)?;
    Ok(text)
}

/// `write_rtx`, behind what is there. An error changes nothing, and comes only where the vector
/// lacks the room.
pub fn append_rtx(text: &mut Vec<u8>, packet: &Rtp<'_>, rtx: u8, seq: u16) -> Result<(), NoMemory>
    requires { rtx < 128 }
    ensures text { OnOk result (text.new.items ≡ text.old.items ++ retransmission packet.now rtx seq) }
    ensures same { OnErr result (text.new.items ≡ text.old.items) }
    ensures full { OnErr result (vec_capacity text.old < vec_len text.old + length (retransmission packet.now rtx seq)) }
{
    let original = packet.fields();
    let fields = RtpFields {
        payload_type: rtx,
        sequence: seq,
        ..original
    };
    append_rtp_behind(text, &fields, &original.sequence.to_be_bytes())
}
