//! The goodbye (RFC 3550, 6.6).
ghost use Rattle.std.specs.Prelude.{◌≡◌, ◌++◌, take, IfOk, OnOk, OnErr};
ghost use Rattle.rams_model.specs.Formats.{bye_packet, words32};
ghost use Rattle.rams_model.specs.Formats.Rtcp as rtcp;
ghost use Rattle.wire_packets.specs.rtcp_frame.{shown_packet};

use crate::packet_bytes::{VERSION_2, has_word};
use crate::rtcp_frame::packet::Packet;
use ram_io::NoMemory;
use rams_model::BYE;
use std::alloc::Global;

/// Whether the packet is a BYE that names this source (RFC 3550, 6.6). A reason behind its sources
/// isn't looked at.
pub fn bye_names(p: &Packet<'_>, ssrc: u32) -> bool
    ensures { result ≡ rtcp.bye_names (shown_packet p.now) ssrc }
{
    p.kind == BYE && has_word(sources(p), ssrc)
}

// The bytes of the sources that the packet counts, as far as its body has them.
fn sources<'a>(p: &Packet<'a>) -> &'a [u8]
    ensures { words32 result.now ≡ take p.now.count (words32 p.now.body.now) }
{
    let len = (4 * usize::from(p.count)).min(p.body.len());
    &p.body[..len]
}

/// A goodbye of this source (RFC 3550, 6.6).
pub fn write_bye(alloc: Global, ssrc: u32) -> Result<Vec<u8>, NoMemory>
    ensures { IfOk result (λ text. text.items ≡ bye_packet ssrc) }
{
    let mut text = Vec::new(alloc);
    append_bye(&mut text, ssrc)?;
    Ok(text)
}

/// `write_bye`, behind what is there; an error changes nothing.
pub fn append_bye(text: &mut Vec<u8>, ssrc: u32) -> Result<(), NoMemory>
    ensures ok { OnOk result (text.new.items ≡ text.old.items ++ bye_packet ssrc) }
    ensures err { OnErr result (text.new.items ≡ text.old.items) }
{
    let s = ssrc.to_be_bytes();
    let first = VERSION_2 + 1;
    text.extend_from_slice(&[first, BYE, 0, 1, s[0], s[1], s[2], s[3]])?;
    Ok(())
}
