//! A feedback message.

/// A transport layer feedback message (RFC 4585, 6.1).
#[derive(Clone, Copy)]
pub struct Feedback<'a> {
    /// The SSRC of the packet's sender.
    pub sender: u32,
    /// The SSRC of the media source.
    pub media: u32,
    /// The format of the feedback control information, as `rams_model::FMT_NACK`.
    pub fmt: u8,
    /// The feedback control information.
    pub fci: &'a [u8],
}
