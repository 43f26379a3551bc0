//! The packets with which a receiver's datagram begins: a report, and who it is (RFC 3550, 6.1).
ghost use Rattle.std.specs.Prelude.{◌≡◌, ◌++◌, IfOk, OnOk, OnErr};
ghost use Rattle.rams_model.specs.Formats.{rr_packet, sdes_packet};

use crate::packet_bytes::VERSION_2;
use ram_io::NoMemory;
use rams_model::{RR, SDES};
use std::alloc::Global;

/// A receiver report of this source, without blocks (RFC 3550, 6.4.2).
pub fn write_rr(alloc: Global, ssrc: u32) -> Result<Vec<u8>, NoMemory>
    ensures { IfOk result (λ text. text.items ≡ rr_packet ssrc) }
{
    let mut text = Vec::new(alloc);
    append_rr(&mut text, ssrc)?;
    Ok(text)
}

/// `write_rr`, behind what is there; an error changes nothing.
pub fn append_rr(text: &mut Vec<u8>, ssrc: u32) -> Result<(), NoMemory>
    ensures ok { OnOk result (text.new.items ≡ text.old.items ++ rr_packet ssrc) }
    ensures err { OnErr result (text.new.items ≡ text.old.items) }
{
    let s = ssrc.to_be_bytes();
    text.extend_from_slice(&[VERSION_2, RR, 0, 1, s[0], s[1], s[2], s[3]])?;
    Ok(())
}

/// A source description of this source, whose canonical name is `stb` (RFC 3550, 6.5).
pub fn write_sdes(alloc: Global, ssrc: u32) -> Result<Vec<u8>, NoMemory>
    ensures { IfOk result (λ text. text.items ≡ sdes_packet ssrc) }
{
    let mut text = Vec::new(alloc);
    append_sdes(&mut text, ssrc)?;
    Ok(text)
}

/// `write_sdes`, behind what is there; an error changes nothing.
pub fn append_sdes(text: &mut Vec<u8>, ssrc: u32) -> Result<(), NoMemory>
    ensures ok { OnOk result (text.new.items ≡ text.old.items ++ sdes_packet ssrc) }
    ensures err { OnErr result (text.new.items ≡ text.old.items) }
{
    let s = ssrc.to_be_bytes();
    // one source; item 1, the canonical name, in three bytes; zeros up to a whole word
    let first = VERSION_2 + 1;
    text.extend_from_slice(&[
        first, SDES, 0, 3, s[0], s[1], s[2], s[3], 1, 3, b's', b't', b'b', 0, 0, 0,
    ])?;
    Ok(())
}
