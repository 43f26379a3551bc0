//! The attributes that settings are read from.
ghost use Rattle.std.specs.Prelude.{◌≡◌, ◌++◌, None, MatchOption, bytes_eq, codes, decimal};
ghost use Rattle.converters.specs.description_loop.sdp_config.{behind, type_in, offers_bursts, ssrc_in, ssrc_number, is_rtx_map, is_rtx_name, past_spaces, are_spaces, is_padded, has_apt, repairs_line, is_wanted_line};

use crate::description_loop::sdp_config::pieces::{Pieces, behind, first_piece};
use itoa::Buffer;
use trace_text::number;

/// An attribute that is looked for.
#[derive(Clone, Copy)]
pub enum Attribute {
    /// Rapid acquisition is offered for this format (RFC 6285, 8.1).
    Bursts(u8),
    /// This format is one of retransmission (RFC 4588, 8.6).
    RtxMap(u8),
    /// The packets of the first format are those of the second again (RFC 4588, 8.6).
    RtxOf(u8, u8),
}

impl Attribute {
    /// Whether the line is this attribute.
    pub fn is(self, line: &[u8]) -> bool
        ensures { result ≡ is_wanted_line self line.now }
    {
        match self {
            Attribute::Bursts(format) => offers_bursts(format, line),
            Attribute::RtxMap(format) => is_rtx_map(format, line),
            Attribute::RtxOf(rtx, format) => repairs_line(rtx, format, line),
        }
    }
}

/// A payload type, a decimal number up to 127.
pub fn payload_type(field: &[u8]) -> Option<u8>
    ensures { result ≡ type_in field.now }
{
    let n = number(field)?;
    if n > 127 {
        return None;
    }
    Some(n as u8)
}

// Whether rapid acquisition is offered for this format, or for all of its section.
fn offers_bursts(format: u8, line: &[u8]) -> bool
    ensures { result ≡ offers_bursts format line.now }
{
    offers_bursts_of(format, line) || line == b"a=rtcp-fb:* nack rai".as_slice()
}

#[tactic(auto, using(crate::proofs::description_loop::sdp_config::Behind::equal_behind))]
fn offers_bursts_of(format: u8, line: &[u8]) -> bool
    ensures { result ≡ bytes_eq line.now (codes "a=rtcp-fb:" ++ decimal format ++ codes " nack rai") }
{
    match behind_number(b"a=rtcp-fb:", format, line) {
        Some(rest) => rest == b" nack rai".as_slice(),
        None => false,
    }
}

// Whether the line names this format as one of retransmission.
fn is_rtx_map(format: u8, line: &[u8]) -> bool
    ensures { result ≡ is_rtx_map format line.now }
{
    match behind_format(b"a=rtpmap:", format, line) {
        Some(name) => is_rtx_name(name),
        None => false,
    }
}

fn is_rtx_name(name: &[u8]) -> bool
    ensures { result ≡ is_rtx_name name.now }
{
    match name {
        [r, t, x, b'/', ..] => {
            r.eq_ignore_ascii_case(&b'r')
                && t.eq_ignore_ascii_case(&b't')
                && x.eq_ignore_ascii_case(&b'x')
        }
        _ => false,
    }
}

// Whether the line says that the packets of the first format are those of the second again.
fn repairs_line(rtx: u8, format: u8, line: &[u8]) -> bool
    ensures { result ≡ repairs_line rtx format line.now }
{
    match behind_format(b"a=fmtp:", rtx, line) {
        Some(parameters) => has_apt(format, parameters),
        None => false,
    }
}

// Whether one of the parameters names this format.
fn has_apt(format: u8, parameters: &[u8]) -> bool
    ensures { result ≡ has_apt format parameters.now }
{
    for parameter in Pieces::of(b';', parameters) {
        if is_apt(format, parameter) {
            return true;
        }
    }
    false
}

// Whether the parameter, with spaces around it, names this format.
fn is_apt(format: u8, parameter: &[u8]) -> bool
    ensures { result ≡ is_padded (codes "apt=" ++ decimal format) parameter.now }
{
    match behind_number(b"apt=", format, past_spaces(parameter)) {
        Some(rest) => are_spaces(rest),
        None => false,
    }
}

fn are_spaces(bytes: &[u8]) -> bool
    ensures { result ≡ are_spaces bytes.now }
{
    bytes.iter().all(|b| *b == b' ')
}

fn past_spaces(bytes: &[u8]) -> &[u8]
    ensures { result.now ≡ past_spaces bytes.now }
{
    let mut rest = bytes;
    while let [b' ', others @ ..] = rest {
        rest = others;
    }
    rest
}

// What stands behind this text, the number and a space.
fn behind_format<'a>(text: &[u8], format: u8, line: &'a [u8]) -> Option<&'a [u8]>
    ensures { MatchOption result
        (behind (text.now ++ decimal format ++ codes " ") line.now ≡ None)
        (λ rest. behind (text.now ++ decimal format ++ codes " ") line.now ≡ Some rest.now) }
{
    behind(b" ", behind_number(text, format, line)?)
}

// What stands behind this text and the number.
fn behind_number<'a>(text: &[u8], format: u8, line: &'a [u8]) -> Option<&'a [u8]>
    ensures { MatchOption result
        (behind (text.now ++ decimal format) line.now ≡ None)
        (λ rest. behind (text.now ++ decimal format) line.now ≡ Some rest.now) }
{
    let mut digits = Buffer::new();
    behind(digits.format(format).as_bytes(), behind(text, line)?)
}

/// The media source that the line names (RFC 5576, 4.1).
pub fn ssrc_in(line: &[u8]) -> Option<u32>
    ensures { result ≡ ssrc_in line.now }
{
    ssrc_number(behind(b"a=ssrc:", line)?)
}

// A number below 2^32, up to the first space.
fn ssrc_number(bytes: &[u8]) -> Option<u32>
    ensures { result ≡ ssrc_number bytes.now }
{
    let n = number(first_piece(b' ', bytes))?;
    u32::try_from(n).ok()
}
