//! Retransmissions of packets with a fixed header alone, as most packets are.
ghost use Rattle.std.specs.Prelude.{◌≡◌, ◌+◌, ◌<◌, ◌++◌, true, OnOk, OnErr, length, vec_len, vec_capacity};
ghost use Rattle.rams_model.specs.Formats.{is_plain, packet_at};
ghost use Rattle.rams_model.specs.Service.{sent_again};
ghost use Rattle.wire_packets.specs.rtx_payload.{plain_head};

use crate::packet_bytes::{VERSION_2, put};
use ram_io::NoMemory;

// The bytes of a fixed header (RFC 3550, 5.1).
const FIXED: usize = 12;

/// Whether the bytes begin as a packet with a fixed header alone does: they have no padding, no header
/// extension and no contributing source.
#[inline]
pub fn is_plain(packet: &[u8]) -> bool
    ensures { result ≡ is_plain packet.now }
{
    packet.len() >= FIXED && packet[0] == VERSION_2
}

/// `append_rtx` of the packet that plain bytes are. It is put together of their pieces, and no field is read.
pub fn append_plain(text: &mut Vec<u8>, packet: &[u8], rtx: u8, seq: u16) -> Result<(), NoMemory>
    requires kind { rtx < 128 }
    requires plain { is_plain packet.now ≡ true }
    ensures text { OnOk result (text.new.items ≡ text.old.items ++ sent_again rtx seq (packet_at packet.now)) }
    ensures same { OnErr result (text.new.items ≡ text.old.items) }
    ensures full { OnErr result (vec_capacity text.old < vec_len text.old + length (sent_again rtx seq (packet_at packet.now))) }
{
    let (head, payload) = packet.split_at(FIXED);
    text.reserve(packet.len() + 2)?;
    put(text, &plain_head(head, rtx, seq));
    put(text, payload);
    Ok(())
}

// What stands in front of the payload: the fixed header under another type and number, and the original
// number.
#[inline]
fn plain_head(head: &[u8], rtx: u8, seq: u16) -> [u8; 14]
    requires kind { rtx < 128 }
    requires fixed { length head.now ≡ 12 }
    ensures { result ≡ plain_head head.now rtx seq }
{
    let s = seq.to_be_bytes();
    [
        VERSION_2,
        head[1] / 128 * 128 + rtx,
        s[0],
        s[1],
        head[4],
        head[5],
        head[6],
        head[7],
        head[8],
        head[9],
        head[10],
        head[11],
        head[2],
        head[3],
    ]
}
