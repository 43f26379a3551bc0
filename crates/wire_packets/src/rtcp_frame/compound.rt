//! A datagram as packets joined end to end, a compound packet (RFC 3550, 6.1).
ghost use Rattle.std.specs.Prelude.{◌≡◌, IfOk, IfErr};
ghost use Rattle.rams_model.specs.Formats.{framed};
ghost use Rattle.wire_packets.specs.rtcp_frame.{packets_left};

use crate::rtcp_frame::header::{cut, fault};
use crate::rtcp_frame::iter::Packets;
use rams_model::FrameFault;

/// The packets that a datagram is, one or more, or its first fault from the first packet on.
pub fn packets(bytes: &[u8]) -> Result<Packets<'_>, FrameFault>
    ensures ok { IfOk result (λ ps. framed bytes.now ≡ Ok (packets_left ps)) }
    ensures err { IfErr result (λ e. framed bytes.now ≡ Err e) }
{
    if bytes.is_empty() {
        return Err(FrameFault::Empty);
    }
    let mut rest = bytes;
    while !rest.is_empty() {
        if let Some(fault) = fault(rest) {
            return Err(fault);
        }
        (_, rest) = cut(rest);
    }
    Ok(Packets { bytes })
}
