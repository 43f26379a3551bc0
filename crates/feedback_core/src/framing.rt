//! Which packets of a datagram are messages that are answered.
ghost use Rattle.std.specs.Prelude.{◌≡◌, option_map};
ghost use Rattle.rams_model.specs.Service.{is_rams, message_of, feedback_message, rams_message};
ghost use Rattle.wire_packets.specs.rtcp_feedback.{shown_feedback};
ghost use Rattle.wire_packets.specs.rtcp_frame.{shown_packet};
ghost use Rattle.feedback_core.specs.{shown_message};

use rams_model::{BYE, FMT_NACK, FMT_RAMS, SFMT_RAMS_R, SFMT_RAMS_T};
use wire_packets::rtcp_feedback::{Feedback, feedback};
use wire_packets::rtcp_frame::Packet;

/// A message that is answered.
#[derive(Clone, Copy)]
pub(crate) enum Message<'a> {
    /// A BYE (RFC 3550, 6.6).
    Bye(Packet<'a>),
    /// A generic NACK (RFC 4585, 6.2.1).
    Nack(Feedback<'a>),
    /// A RAMS-R (RFC 6285, 7.2).
    Request(Feedback<'a>),
    /// A RAMS-T (RFC 6285, 7.4).
    Stop(Feedback<'a>),
}

impl Message<'_> {
    /// Whether it is a RAMS message.
    pub fn is_rams(&self) -> bool
        ensures { result ≡ is_rams (shown_message self.now) }
    {
        match self {
            Message::Bye(_) | Message::Nack(_) => false,
            Message::Request(_) | Message::Stop(_) => true,
        }
    }
}

/// The message that a packet is; all other packets are skipped.
#[tactic(auto, unfolding(rams_model::specs::Service::Messages::message_of))]
pub(crate) fn message_of<'a>(packet: &Packet<'a>) -> Option<Message<'a>>
    ensures { option_map shown_message result ≡ message_of (shown_packet packet.now) }
{
    if packet.kind == BYE {
        return Some(Message::Bye(*packet));
    }
    let message = feedback(packet)?;
    feedback_message(message)
}

// Transport layer feedback by its format.
fn feedback_message(message: Feedback<'_>) -> Option<Message<'_>>
    ensures { option_map shown_message result ≡ feedback_message (Some (shown_feedback message.entry)) }
{
    match message.fmt {
        FMT_NACK => Some(Message::Nack(message)),
        FMT_RAMS => rams_message(message),
        _ => None,
    }
}

// A RAMS message by its sub-format, the first byte.
fn rams_message(message: Feedback<'_>) -> Option<Message<'_>>
    ensures { option_map shown_message result ≡ rams_message (shown_feedback message.entry) }
{
    match message.fci.first() {
        Some(&SFMT_RAMS_R) => Some(Message::Request(message)),
        Some(&SFMT_RAMS_T) => Some(Message::Stop(message)),
        _ => None,
    }
}
