//! The packets of the wire: RTP (RFC 3550), its retransmissions (RFC 4588), RTCP feedback (RFC 4585) and RAMS (RFC 6285).
#![tactic(auto)]

pub mod packet_bytes;
pub mod rams_tlv;
pub mod rtcp_feedback;
pub mod rtcp_frame;
pub mod rtp_record;
pub mod rtx_payload;
