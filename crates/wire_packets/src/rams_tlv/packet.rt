//! A RAMS message as an RTCP packet (RFC 4585, 6.1).
ghost use Rattle.std.specs.Prelude.{◌≡◌, ◌+◌, ◌*◌, ◌<◌, ◌≤◌, ◌∷◌, ◌++◌, OnOk, OnErr, vec_len, vec_capacity};
ghost use Rattle.std.specs.Int.{w16, w32, to_be_bytes};

use crate::packet_bytes::{VERSION_2, put};
use ram_io::NoMemory;
use rams_model::{FMT_RAMS, RTPFB};

// Takes the room of a whole RAMS message of so many words behind the first, and puts its header.
pub(crate) fn begin(text: &mut Vec<u8>, words: u16, sender: u32, media: u32) -> Result<(), NoMemory>
    requires { 2 ≤ words }
    ensures header { OnOk result (text.new.items ≡ text.old.items ++ (VERSION_2 + FMT_RAMS) ∷ RTPFB ∷ (to_be_bytes w16 words ++ to_be_bytes w32 sender ++ to_be_bytes w32 media)) }
    ensures len { OnOk result (vec_len text.new ≡ vec_len text.old + 12) }
    ensures room { OnOk result (vec_len text.old + (4 + 4 * words) ≤ vec_capacity text.new) }
    ensures same { OnErr result (text.new.items ≡ text.old.items) }
    ensures full { OnErr result (vec_capacity text.old < vec_len text.old + (4 + 4 * words)) }
{
    text.reserve(4 + 4 * usize::from(words))?;
    put(text, &header(words, sender, media));
    Ok(())
}

// The header of a RAMS message of so many words behind the first (RFC 4585, 6.1).
fn header(words: u16, sender: u32, media: u32) -> [u8; 12]
    ensures { result ≡ (VERSION_2 + FMT_RAMS) ∷ RTPFB ∷ (to_be_bytes w16 words ++ to_be_bytes w32 sender ++ to_be_bytes w32 media) }
{
    let w = words.to_be_bytes();
    let s = sender.to_be_bytes();
    let m = media.to_be_bytes();
    let first = VERSION_2 + FMT_RAMS;
    [
        first, RTPFB, w[0], w[1], s[0], s[1], s[2], s[3], m[0], m[1], m[2], m[3],
    ]
}
