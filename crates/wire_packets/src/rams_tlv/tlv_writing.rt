//! TLVs, written (RFC 6285, 7.1).
ghost use Rattle.std.specs.Prelude.{◌≡◌, ◌+◌, ◌≤◌, ◌++◌, if◌then◌else◌, length, vec_len, vec_capacity};
ghost use Rattle.std.specs.Int.{w16, w32, w64};
ghost use Rattle.rams_model.specs.Formats.{optional_tlv};

use crate::packet_bytes::put;

// So many words, or none.
pub(crate) fn words(is_there: bool, count: u16) -> u16
    ensures { result ≡ (if is_there then count else 0) }
{
    if is_there { count } else { 0 }
}

// A TLV of 16 bits, where there is a value: two zeros fill its last word (RFC 6285, 7.1).
pub(crate) fn put_short(text: &mut Vec<u8>, kind: u8, value: Option<u16>)
    requires room { vec_len text.old + length (optional_tlv kind w16 value) ≤ vec_capacity text.old }
    ensures items { text.new.items ≡ text.old.items ++ optional_tlv kind w16 value }
    ensures len { vec_len text.new ≡ vec_len text.old + length (optional_tlv kind w16 value) }
    ensures capacity { vec_capacity text.old ≤ vec_capacity text.new }
{
    if let Some(n) = value {
        put(text, &[kind, 0, 0, 2]);
        put(text, &n.to_be_bytes());
        put(text, &[0, 0]);
    }
}

// A TLV of 32 bits, where there is a value.
pub(crate) fn put_word(text: &mut Vec<u8>, kind: u8, value: Option<u32>)
    requires room { vec_len text.old + length (optional_tlv kind w32 value) ≤ vec_capacity text.old }
    ensures items { text.new.items ≡ text.old.items ++ optional_tlv kind w32 value }
    ensures len { vec_len text.new ≡ vec_len text.old + length (optional_tlv kind w32 value) }
    ensures capacity { vec_capacity text.old ≤ vec_capacity text.new }
{
    if let Some(n) = value {
        put(text, &[kind, 0, 0, 4]);
        put(text, &n.to_be_bytes());
    }
}

// A TLV of 64 bits, where there is a value.
pub(crate) fn put_long(text: &mut Vec<u8>, kind: u8, value: Option<u64>)
    requires room { vec_len text.old + length (optional_tlv kind w64 value) ≤ vec_capacity text.old }
    ensures items { text.new.items ≡ text.old.items ++ optional_tlv kind w64 value }
    ensures len { vec_len text.new ≡ vec_len text.old + length (optional_tlv kind w64 value) }
    ensures capacity { vec_capacity text.old ≤ vec_capacity text.new }
{
    if let Some(n) = value {
        put(text, &[kind, 0, 0, 8]);
        put(text, &n.to_be_bytes());
    }
}
