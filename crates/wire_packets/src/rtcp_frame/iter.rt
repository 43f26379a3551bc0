//! The packets of a datagram, one after another.
ghost use Rattle.std.specs.Prelude.{◌≡◌, is_ok, true};
ghost use Rattle.wire_packets.specs.rtcp_frame.Datagram.{packets_in};

use crate::rtcp_frame::header::cut;
use crate::rtcp_frame::packet::Packet;

/// The packets of a datagram, in their order.
#[derive(Clone, Copy)]
pub struct Packets<'a> {
    pub(crate) bytes: &'a [u8],
    ghost whole: { is_ok (packets_in bytes.now) ≡ true },
}

impl<'a> Iterator for Packets<'a> {
    ghost use Rattle.std.specs.Iterator.{YieldsFirstBy, item_count};
    ghost use Rattle.wire_packets.specs.rtcp_frame.{shown_packet, packets_left};

    type Item = Packet<'a>;

    ghost next_gives = { YieldsFirstBy shown_packet packets_left };

    ghost remaining = { item_count packets_left };

    fn next(&mut self) -> Option<Packet<'a>> {
        if self.bytes.is_empty() {
            return None;
        }
        let (packet, rest) = cut(self.bytes);
        self.bytes = rest;
        Some(packet)
    }
}
