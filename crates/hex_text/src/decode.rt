//! Bytes of digits.
ghost use Rattle.std.specs.Prelude.{◌≡◌, ◌+◌, ◌*◌, ◌/◌, ◌<◌, ◌≤◌, ◌++◌, true, length, take, drop, Ok};
ghost use Rattle.std.specs.Bool.{OnTrue};
ghost use Rattle.std.specs.List.{list_all};
ghost use Rattle.hex.specs.Hex.{decode_of};
ghost use Rattle.hex_text.specs.{is_lower_digit, is_lower_hex, pair_bytes, value_of};

use crate::block::decode_block;

/// Writes the bytes of a text of lower-case hexadecimal digits, two a byte, into the front of
/// `out`, and says whether the text is such digits. Where it isn't, that front may hold anything.
/// The rest of `out` stays.
pub fn decode_into(text: &[u8], out: &mut [u8]) -> bool
    requires { length text.now / 2 ≤ length out.old }
    ensures digits { result ≡ is_lower_hex text.now }
    ensures bytes { OnTrue result (decode_of text.now ≡ Ok (take (length text.now / 2) out.new)) }
    ensures rest { drop (length text.now / 2) out.new ≡ drop (length text.now / 2) out.old }
{
    decode_all(text, &mut out[..text.len() / 2])
}

// Writes the bytes of a text over all of `out`, and says whether the text is lower-case digits.
fn decode_all(text: &[u8], out: &mut [u8]) -> bool
    requires { length out.old ≡ length text.now / 2 }
    ensures digits { result ≡ is_lower_hex text.now }
    ensures bytes { OnTrue result (decode_of text.now ≡ Ok out.new) }
{
    let (pairs, odd) = text.split_at(2 * out.len());
    decode_pairs(pairs, out) & odd.is_empty()
}

// Writes the bytes of lower-case digits, two a byte, over all of `out`.
pub(crate) fn decode_known(digits: &[u8], out: &mut [u8])
    requires lower { is_lower_hex digits.now ≡ true }
    requires room { length out.old ≡ length digits.now / 2 }
    ensures { decode_of digits.now ≡ Ok out.new }
{
    decode_blocks(digits, out);
}

// They go in blocks of 16 bytes.
fn decode_blocks(digits: &[u8], out: &mut [u8])
    requires lower { list_all is_lower_digit digits.now ≡ true }
    requires room { length digits.now ≡ 2 * length out.old }
    ensures { out.new ≡ pair_bytes digits.now }
{
    let blocks = out.len() / 16;
    'parts: for k in 0..blocks {
        decode_block(&digits[32 * k..32 * k + 32], &mut out[16 * k..16 * k + 16]);
    }
    decode_rest(digits, out, 16 * blocks);
}

// Writes the bytes from a place on, where those in front are written. The last 16 bytes go as a block, of
// which a part was written before; fewer go one by one.
fn decode_rest(digits: &[u8], out: &mut [u8], done: usize)
    requires lower { list_all is_lower_digit digits.now ≡ true }
    requires room { length digits.now ≡ 2 * length out.old }
    requires within { done ≤ length out.old }
    requires short { length out.old < done + 16 }
    requires front { take done out.old ++ pair_bytes (drop (2 * done) digits.now) ≡ pair_bytes digits.now }
    ensures { out.new ≡ pair_bytes digits.now }
{
    let size = out.len();
    if size < 16 {
        decode_pairs(&digits[2 * done..], &mut out[done..]);
    } else {
        decode_block(&digits[2 * (size - 16)..], &mut out[size - 16..]);
    }
}

fn decode_pairs(text: &[u8], out: &mut [u8]) -> bool
    requires { length text.now ≡ 2 * length out.old }
    ensures digits { result ≡ list_all is_lower_digit text.now }
    ensures bytes { out.new ≡ pair_bytes text.now }
{
    let mut good = true;
    'pairs: for i in 0..out.len() {
        let high = value(text[2 * i]);
        let low = value(text[2 * i + 1]);
        good = good & ((high < 16) & (low < 16));
        out[i] = high % 16 * 16 + low % 16;
    }
    good
}

// What a lower-case digit stands for; 255 for any other byte.
#[inline]
fn value(digit: u8) -> u8
    ensures { result ≡ value_of digit }
{
    match digit {
        b'0'..=b'9' => digit - b'0',
        b'a'..=b'f' => digit - b'a' + 10,
        _ => 255,
    }
}
