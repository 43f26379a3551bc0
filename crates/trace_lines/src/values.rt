//! What a word of a line may be.
ghost use Rattle.std.specs.Prelude.{◌≡◌, ◌<◌, ◌≤◌, true, IfSome, MatchOption, length, codes, bytes_eq};
ghost use Rattle.std.specs.List.{list_all};
ghost use Rattle.std.specs.Str.Parse.{digits_value};
ghost use Rattle.rams_model.specs.Texts.{is_digit, is_hex, is_number, number_in, word32_in, access_in, hex_in, version_in};
ghost use Rattle.trace_lines.specs.{IsWord};

use hex_text::{are_digits, decode_into};
use rams_model::Access;

/// A number in decimal digits: no zero in front of others, and at most 15 digits.
pub fn number(word: &[u8]) -> Option<u64>
    ensures { result ≡ number_in word.now }
{
    if !is_decimal(word) {
        return None;
    }
    Some(decimal_value(word))
}

fn is_decimal(word: &[u8]) -> bool
    ensures { result ≡ is_number word.now }
{
    (1..=15).contains(&word.len())
        && are_decimal_digits(word)
        && (word.len() == 1 || word[0] != b'0')
}

fn are_decimal_digits(word: &[u8]) -> bool
    ensures { result ≡ list_all is_digit word.now }
{
    word.iter().all(|b| b.is_ascii_digit())
}

fn decimal_value(word: &[u8]) -> u64
    requires short { length word.now ≤ 15 }
    requires digits { list_all is_digit word.now ≡ true }
    ensures { result ≡ digits_value 10 word.now }
{
    let mut value = 0;
    for digit in word {
        value = value * 10 + u64::from(digit - b'0');
    }
    value
}

/// The number in 8 bits, where it fits.
pub fn narrow8(n: u64) -> Option<u8>
    ensures { MatchOption result (255 < n) (λ x. x ≡ n) }
{
    u8::try_from(n).ok()
}

/// The number in 16 bits, where it fits.
pub fn narrow16(n: u64) -> Option<u16>
    ensures { MatchOption result (65535 < n) (λ x. x ≡ n) }
{
    u16::try_from(n).ok()
}

/// The number in 32 bits, where it fits.
pub fn narrow32(n: u64) -> Option<u32>
    ensures { MatchOption result (4294967295 < n) (λ x. x ≡ n) }
{
    u32::try_from(n).ok()
}

/// A number in eight hexadecimal digits.
pub fn word32(word: &[u8]) -> Option<u32>
    ensures { result ≡ word32_in word.now }
{
    let mut bytes = [0; 4];
    if word.len() != 8 || !decode_into(word, &mut bytes) {
        return None;
    }
    Some(u32::from_be_bytes(bytes))
}

/// The word, where it is `-` or pairs of hexadecimal digits.
pub fn hex_word(word: &[u8]) -> Option<&[u8]>
    ensures word { IsWord result (hex_in word.now) }
    ensures digits { IfSome result (λ w. is_hex w.now ≡ true) }
{
    is_hex_word(word).then_some(word)
}

fn is_hex_word(word: &[u8]) -> bool
    ensures { result ≡ is_hex word.now }
{
    is_dash(word) || (!word.is_empty() && word.len() % 2 == 0 && are_digits(word))
}

/// Whether the word stands for no bytes.
pub fn is_dash(word: &[u8]) -> bool
    ensures { result ≡ bytes_eq word.now (codes "-") }
{
    word == b"-".as_slice()
}

/// A version of the text.
pub fn version(word: &[u8]) -> Option<u8>
    ensures { result ≡ version_in word.now }
{
    if word == b"1".as_slice() {
        Some(1)
    } else if word == b"2".as_slice() {
        Some(2)
    } else {
        None
    }
}

/// What an access point is.
pub fn access(word: &[u8]) -> Option<Access>
    ensures { result ≡ access_in word.now }
{
    if word == b"marker".as_slice() {
        Some(Access::Marker)
    } else if word == b"ts".as_slice() {
        Some(Access::Ts)
    } else {
        None
    }
}
