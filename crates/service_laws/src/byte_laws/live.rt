//! What becomes of each live packet.
ghost use Rattle.service_laws.specs.byte_laws.{EachLiveNoteIsRight};

/// A live packet is answered with one note, and that note says what became of it. The first of these
/// that is true: it has more than 1,470 bytes; it is no RTP packet (RFC 3550, 5.1), for its first fault;
/// it is of another media source, bytes 8 to 11; it has another payload type, the low bits of byte 1.
/// Else its sequence number, bytes 2 and 3, says under which number it is taken, or why it isn't (RFC
/// 3550, A.1), by the numbers of the packets that were taken before it. No other note would be right.
pub fn each_live_note_is_right()
    ensures { EachLiveNoteIsRight }
{}
