//! The feedback message that a packet is.
ghost use Rattle.std.specs.Prelude.{◌≡◌, option_map};
ghost use Rattle.rams_model.specs.Formats.{feedback_of};
ghost use Rattle.wire_packets.specs.rtcp_frame.{shown_packet};
ghost use Rattle.wire_packets.specs.rtcp_feedback.{shown_feedback};

use crate::rtcp_feedback::feedback_message::Feedback;
use crate::rtcp_frame::Packet;
use byteorder::{BigEndian, ByteOrder};
use rams_model::RTPFB;

/// The transport layer feedback that a packet is: none where its type is another, or its body
/// has fewer than the eight bytes of the two sources (RFC 4585, 6.1).
pub fn feedback<'a>(p: &Packet<'a>) -> Option<Feedback<'a>>
    ensures { option_map shown_feedback result ≡ feedback_of (shown_packet p.now) }
{
    if p.kind != RTPFB || p.body.len() < 8 {
        return None;
    }
    let (_, media) = p.body.split_at(4);
    let (_, fci) = p.body.split_at(8);
    Some(Feedback {
        sender: BigEndian::read_u32(p.body),
        media: BigEndian::read_u32(media),
        fmt: p.count,
        fci,
    })
}
