//! What the server of a channel answers, as definitions that compute, and the plain types that
//! contracts compare.
//!
//! The definitions stand in `specs/`, a module a subject. Nothing here reads or writes.
#![tactic(auto)]

mod answer;
mod channel;
mod event;
mod examples;
mod fault;
mod held;
mod laws;
mod message;
mod mode;
mod note;
mod notes;
mod octets;
mod rams;
mod reception;
mod receptions;
pub mod response;
mod rtcp;
mod status;
mod wire;

pub use answer::{Answer, Order};
pub use channel::{Access, Channel};
pub use event::Event;
pub use examples::{
    budgets_of_ticks, bursts_in_ticks, lines_of_notes, live_packets, parts_of_answers,
    repairs_of_packets, requests_of_clients, stops_of_bursts,
};
pub use fault::{ConfigFault, FrameFault, LineFault, NackFault, RtpFault, TlvFault};
pub use held::Held;
pub use laws::{
    awaited_is_least, budgets_have_left, bursts_are_since, catching_up_ends, chosen_is_newest,
    clients_are_since, datagrams_are_read_as_spelled, exactly_one_book, held_packets_follow,
    nacks_are_read_back, packets_are_read_back, plain_packets_are_spelled_again,
    rams_messages_are_read_as_spelled, rams_messages_are_read_back, run_is_longest,
    source_grows_in_order, stop_is_least, what_is_read_is_spelled_so, what_is_spelled_so_is_read,
};
pub use message::{Info, Stop};
pub use mode::{LineKind, Mode};
pub use note::{Cause, LiveNote, Note};
pub use notes::Notes;
pub use octets::Octets;
pub use rams::{
    SFMT_RAMS_I, SFMT_RAMS_R, SFMT_RAMS_T, TLV_BURST_DURATION, TLV_FIRST_MULTICAST,
    TLV_FIRST_SEQUENCE, TLV_JOIN_TIME, TLV_MAX_BUFFER_FILL, TLV_MAX_RECEIVE_BITRATE,
    TLV_MAX_TRANSMIT_BITRATE, TLV_MEDIA_SENDERS, TLV_MIN_BUFFER_FILL, TLV_PREAMBLE_ONLY,
};
pub use reception::{InfoCame, MediaCame, Tuned};
pub use receptions::receptions_of_datagrams;
pub use rtcp::{BYE, FMT_NACK, FMT_RAMS, PSFB, RR, RTPFB, SDES};
pub use status::Status;
pub use wire::{MOST_ON_WIRE, MOST_PACKET, RTX_OVERHEAD};
