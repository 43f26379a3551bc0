//! TLVs joined end to end, read (RFC 6285, 7.1).
ghost use Rattle.std.specs.Prelude.{◌≡◌, ℕ, ◌+◌, ◌≤◌, ◌<◌, ◌==◌, IsTrue, IfOk, IfErr, IfSome, take, drop, length, slice_index, slice_range, option_map, is_ok, true};
ghost use Rattle.std.specs.Int.{w16, w32, w64, from_be_bytes};
ghost use Rattle.rams_model.specs.Formats.{ssrcs_in, tlv_fault, tlv_size, value_length, first_tlv, tlvs_at, map_ok, words32};
ghost use Rattle.wire_packets.specs.rams_tlv.{lengths, sfmt, tlvs_of, value_in};

use byteorder::{BigEndian, ByteOrder};
use rams_model::{
    SFMT_RAMS_I, SFMT_RAMS_R, SFMT_RAMS_T, TLV_BURST_DURATION, TLV_FIRST_MULTICAST,
    TLV_FIRST_SEQUENCE, TLV_JOIN_TIME, TLV_MAX_BUFFER_FILL, TLV_MAX_RECEIVE_BITRATE,
    TLV_MAX_TRANSMIT_BITRATE, TLV_MEDIA_SENDERS, TLV_MIN_BUFFER_FILL, TLV_PREAMBLE_ONLY, TlvFault,
};

// The message that TLVs stand in.
#[derive(Clone, Copy)]
pub(crate) enum Message {
    Request,
    Info,
    Stop,
}

impl Message {
    // The first byte of the message.
    fn sfmt(self) -> u8
        ensures { result ≡ sfmt self }
    {
        match self {
            Message::Request => SFMT_RAMS_R,
            Message::Info => SFMT_RAMS_I,
            Message::Stop => SFMT_RAMS_T,
        }
    }

    // Whether the value of a type that the message reads has its length; other types have any.
    fn is_length(self, kind: u8, len: usize) -> bool
        ensures { result ≡ lengths self kind len }
    {
        match self {
            Message::Request => match kind {
                TLV_MEDIA_SENDERS => len % 4 == 0,
                TLV_MIN_BUFFER_FILL | TLV_MAX_BUFFER_FILL => len == 4,
                TLV_MAX_RECEIVE_BITRATE => len == 8,
                TLV_PREAMBLE_ONLY => len == 0,
                _ => true,
            },
            Message::Info => match kind {
                TLV_FIRST_SEQUENCE => len == 2,
                TLV_JOIN_TIME | TLV_BURST_DURATION => len == 4,
                TLV_MAX_TRANSMIT_BITRATE => len == 8,
                _ => true,
            },
            Message::Stop => kind != TLV_FIRST_MULTICAST || len == 4,
        }
    }
}

// What is wrong with the TLV in front.
fn fault(message: Message, bytes: &[u8]) -> Option<TlvFault>
    ensures { result ≡ tlv_fault (lengths message) bytes.now }
{
    if bytes.len() < 4 {
        return Some(TlvFault::Short);
    }
    let len = usize::from(BigEndian::read_u16(&bytes[2..]));
    if bytes.len() < 4 + (len + 3) / 4 * 4 {
        return Some(TlvFault::Short);
    }
    let kind = bytes[0];
    if message.is_length(kind, len) {
        None
    } else {
        Some(TlvFault::Length(kind))
    }
}

// The TLV in front, its type and its value, and the bytes behind it.
fn cut(bytes: &[u8]) -> (u8, &[u8], &[u8])
    requires header { 4 ≤ length bytes.now }
    requires whole { tlv_size bytes.now ≤ length bytes.now }
    ensures kind { result.0 ≡ slice_index bytes.now 0 }
    ensures value { result.1.now ≡ slice_range bytes.now 4 (4 + value_length bytes.now) }
    ensures rest { result.2.now ≡ drop (tlv_size bytes.now) bytes.now }
{
    let len = usize::from(BigEndian::read_u16(&bytes[2..]));
    let (_, rest) = bytes.split_at(4 + (len + 3) / 4 * 4);
    (bytes[0], &bytes[4..4 + len], rest)
}

// The TLVs of a message, each of the length that the message reads.
#[derive(Clone, Copy)]
pub(crate) struct Tlvs<'a> {
    message: Message,
    bytes: &'a [u8],
    ghost lawful: { is_ok (tlvs_of message bytes.now) ≡ true },
}

impl<'a> Tlvs<'a> {
    // The TLVs of a message whose feedback control information is given, or the first fault.
    pub(crate) fn of(message: Message, fci: &'a [u8]) -> Result<Tlvs<'a>, TlvFault>
        ensures ok { IfOk result (λ tlvs. (tlvs.message ≡ message) × (4 ≤ length fci.now)
            × (tlvs_at (sfmt message) (lengths message) fci.now ≡ tlvs_of message tlvs.bytes.now)) }
        ensures err { IfErr result (λ e. tlvs_at (sfmt message) (lengths message) fci.now ≡ Err e) }
    {
        if fci.len() < 4 || fci[0] != message.sfmt() {
            return Err(TlvFault::Form);
        }
        let (_, tlvs) = fci.split_at(4);
        Tlvs::new(message, tlvs)
    }

    // The TLVs that bytes are, or the first fault.
    fn new(message: Message, bytes: &'a [u8]) -> Result<Tlvs<'a>, TlvFault>
        ensures ok { IfOk result (λ tlvs. (tlvs.message ≡ message) × (tlvs.bytes.now ≡ bytes.now)) }
        ensures err { IfErr result (λ e. tlvs_of message bytes.now ≡ Err e) }
    {
        let mut rest = bytes;
        while !rest.is_empty() {
            if let Some(fault) = fault(message, rest) {
                return Err(fault);
            }
            (_, _, rest) = cut(rest);
        }
        Ok(Tlvs { message, bytes })
    }

    // The value of the first TLV of a type.
    pub(crate) fn first(&self, kind: u8) -> Option<&'a [u8]>
        ensures value { option_map (λ v. v.now) result ≡ value_in kind (tlvs_of self.now.message self.now.bytes.now) }
        ensures length { IfSome result (λ v. IsTrue (lengths self.now.message kind (length v.now))) }
    {
        let mut rest = self.bytes;
        while !rest.is_empty() {
            let (found, value, behind) = cut(rest);
            if found == kind {
                return Some(value);
            }
            rest = behind;
        }
        None
    }

    // The value of the first TLV of a type, where it isn't empty.
    pub(crate) fn some(&self, kind: u8) -> Option<&'a [u8]>
        ensures value { option_map (λ v. words32 v.now) result ≡ ssrcs_in (value_in kind (tlvs_of self.now.message self.now.bytes.now)) }
        ensures length { IfSome result (λ v. IsTrue (lengths self.now.message kind (length v.now))) }
        ensures long { IfSome result (λ v. 0 < length v.now) }
    {
        let value = self.first(kind)?;
        if value.is_empty() {
            return None;
        }
        Some(value)
    }

    // The 16-bit number of the first TLV of a type.
    pub(crate) fn short(&self, kind: u8) -> Option<u16>
        requires { (n : ℕ) → IsTrue (lengths self.now.message kind n) → n ≡ 2 }
        ensures { result ≡ option_map (from_be_bytes w16) (value_in kind (tlvs_of self.now.message self.now.bytes.now)) }
    {
        let value = self.first(kind)?;
        Some(BigEndian::read_u16(value))
    }

    // The 32-bit number of the first TLV of a type.
    pub(crate) fn word(&self, kind: u8) -> Option<u32>
        requires { (n : ℕ) → IsTrue (lengths self.now.message kind n) → n ≡ 4 }
        ensures { result ≡ option_map (from_be_bytes w32) (value_in kind (tlvs_of self.now.message self.now.bytes.now)) }
    {
        let value = self.first(kind)?;
        Some(BigEndian::read_u32(value))
    }

    // The 64-bit number of the first TLV of a type.
    pub(crate) fn long(&self, kind: u8) -> Option<u64>
        requires { (n : ℕ) → IsTrue (lengths self.now.message kind n) → n ≡ 8 }
        ensures { result ≡ option_map (from_be_bytes w64) (value_in kind (tlvs_of self.now.message self.now.bytes.now)) }
    {
        let value = self.first(kind)?;
        Some(BigEndian::read_u64(value))
    }
}
