//! Digits and bytes in vectors that are used again.
ghost use Rattle.std.specs.Prelude.{◌≡◌, ◌+◌, ◌*◌, ◌/◌, ◌<◌, ◌≤◌, ◌++◌, true, Ok, length, OnOk, OnErr, vec_capacity};
ghost use Rattle.hex.specs.Hex.{decode_of, encode_lower};
ghost use Rattle.hex_text.specs.{is_lower_hex};

use crate::decode::decode_known;
use crate::encode::{encode_all, encode_into};
use std::alloc::AllocError;

// The digits of so many bytes are written beside the text first, and go there by one copy.
const FEW: usize = 64;

/// Puts the bytes that lower-case hexadecimal digits stand for, two a byte, in place of what `out`
/// holds.
///
/// It fails only where `out` had too little room and there is no memory for more; `out` then holds
/// what it held.
pub fn decode_digits(out: &mut Vec<u8>, digits: &[u8]) -> Result<(), AllocError>
    requires { is_lower_hex digits.now ≡ true }
    ensures ok { OnOk result (decode_of digits.now ≡ Ok out.new.items) }
    ensures err { OnErr result (out.new.items ≡ out.old.items) }

    // The room grows where there was too little, and is never given back.
    ensures full { OnErr result (vec_capacity out.old < length digits.now / 2) }
    ensures room { vec_capacity out.old ≤ vec_capacity out.new }
{
    out.resize(digits.len() / 2, 0)?;
    decode_known(digits, out);
    Ok(())
}

/// Appends two lower-case hexadecimal digits for each byte, the high one first.
///
/// It fails only where `text` had too little room and there is no memory for more; `text` then
/// holds what it held.
pub fn append_encoded(text: &mut Vec<u8>, bytes: &[u8]) -> Result<(), AllocError>
    ensures ok { OnOk result (text.new.items ≡ text.old.items ++ encode_lower bytes.now) }
    ensures err { OnErr result (text.new.items ≡ text.old.items) }

    // The room grows where there was too little, and is never given back.
    ensures full { OnErr result (vec_capacity text.old < length text.old.items + 2 * length bytes.now) }
    ensures room { vec_capacity text.old ≤ vec_capacity text.new }
{
    if bytes.len() <= FEW {
        return append_few(text, bytes);
    }
    let start = text.len();
    text.try_reserve(2 * bytes.len())?;
    // What the digits are then written over is the bytes themselves, twice: that takes less time than
    // a fill.
    text.extend_from_slice(bytes)?;
    text.extend_from_slice(bytes)?;
    let (_, room) = text.split_at_mut(start);
    encode_all(bytes, room);
    Ok(())
}

// The digits of a few bytes.
fn append_few(text: &mut Vec<u8>, bytes: &[u8]) -> Result<(), AllocError>
    requires { length bytes.now ≤ 64 }
    ensures ok { OnOk result (text.new.items ≡ text.old.items ++ encode_lower bytes.now) }
    ensures err { OnErr result (text.new.items ≡ text.old.items) }
    ensures full { OnErr result (vec_capacity text.old < length text.old.items + 2 * length bytes.now) }
    ensures room { vec_capacity text.old ≤ vec_capacity text.new }
{
    let mut digits = [0; 2 * FEW];
    encode_into(bytes, &mut digits);
    text.extend_from_slice(&digits[..2 * bytes.len()])?;
    Ok(())
}
