//! Where a decoder may start: the random access flag of MPEG-2 transport streams.

ghost use Rattle.std.specs.Prelude.{◌≡◌, ◌/◌, ◌%◌, ◌==◌, length};
ghost use Rattle.rams_model.specs.Packets.{has_access, has_flag};

// Bytes of a TS packet (ISO/IEC 13818-1, 2.4.3.2).
const TS_PACKET: usize = 188;

// The byte that each TS packet begins with (ISO/IEC 13818-1, 2.4.3.3).
const SYNC: u8 = 0x47;

/// Whether one of the whole TS packets of an RTP payload has the random access flag. They stand one
/// behind the other from the payload's first byte on (RFC 2250, 2); a shorter rest isn't looked at.
#[tactic(auto, unfolding(rams_model::specs::Packets::Access::has_access))]
pub fn has_access(payload: &[u8]) -> bool
    ensures { result ≡ has_access payload.now }
{
    payload.chunks_exact(TS_PACKET).any(has_flag)
}

// Whether a TS packet has the random access flag: it has an adaptation field of at least a byte, in
// which the flag is set (ISO/IEC 13818-1, 2.4.3.4).
fn has_flag(ts: &[u8]) -> bool
    requires { length ts.now ≡ 188 }
    ensures { result ≡ has_flag ts.now }
{
    ts[0] == SYNC && has_adaptation_field(ts[3]) && ts[4] >= 1 && is_random_access(ts[5])
}

// Whether an adaptation field follows, by the last byte of a TS packet's header.
fn has_adaptation_field(control: u8) -> bool
    ensures { result ≡ (control / 32 % 2 == 1) }
{
    control & 0x20 != 0
}

// The flag, of the first byte of an adaptation field.
fn is_random_access(flags: u8) -> bool
    ensures { result ≡ (flags / 64 % 2 == 1) }
{
    flags & 0x40 != 0
}
