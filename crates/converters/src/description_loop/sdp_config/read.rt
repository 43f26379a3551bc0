//! A description, read.
ghost use Rattle.std.specs.Prelude.{◌≡◌};
ghost use Rattle.converters.specs.description_loop.sdp_config.{lines_in, lines_left, line_fault, first_fault, text_fault, settings_in, sdp_at};

use crate::description_loop::sdp_config::lines::{Lines, is_line};
use crate::description_loop::sdp_config::sdp::{Sdp, SdpFault};
use crate::description_loop::sdp_config::section::{Role, Sections, first_found};

/// Most lines of a description.
pub const MOST_LINES: u32 = 1000;

/// The settings that a description gives, or its first fault: of its lines in their order, then of
/// what they say.
#[tactic(auto, unfolding(crate::specs::description_loop::sdp_config::Description::settings_of))]
pub fn read_sdp(text: &[u8]) -> Result<Sdp, SdpFault>
    ensures { result ≡ sdp_at text.now }
{
    if let Some(fault) = text_fault(text) {
        return Err(fault);
    }
    settings_in(text)
}

// The first fault of the lines.
fn text_fault(text: &[u8]) -> Option<SdpFault>
    ensures { result ≡ text_fault (lines_in text.now) }
{
    if text.is_empty() {
        return Some(SdpFault::Version);
    }
    first_fault(Lines::of(text))
}

// The first fault of lines that are counted from 1.
fn first_fault(lines: Lines<'_>) -> Option<SdpFault>
    ensures { result ≡ first_fault 1 (lines_left lines.entry) }
{
    let mut number = 0;
    for line in lines {
        number += 1;
        if let Some(fault) = line_fault(number, line) {
            return Some(fault);
        }
    }
    None
}

// What is wrong with the line of this number.
fn line_fault(number: u32, line: &[u8]) -> Option<SdpFault>
    ensures { result ≡ line_fault number line.now }
{
    if number > MOST_LINES {
        return Some(SdpFault::Long);
    }
    if !is_line(line) {
        return Some(SdpFault::Form(number));
    }
    if number == 1 && line != b"v=0".as_slice() {
        return Some(SdpFault::Version);
    }
    None
}

// What lines say in which nothing is wrong.
fn settings_in(text: &[u8]) -> Result<Sdp, SdpFault>
    ensures { result ≡ settings_in (lines_in text.now) }
{
    let sections = Sections::of(text);
    let Some((pt, section)) = first_found(Role::Media, sections) else {
        return Err(SdpFault::NoChannel);
    };
    let Some(ssrc) = section.ssrc() else {
        return Err(SdpFault::NoSsrc);
    };
    let Some((rtx, _)) = first_found(Role::Repair(pt), sections) else {
        return Err(SdpFault::NoRtx);
    };
    if rtx == pt {
        return Err(SdpFault::Same);
    }
    Ok(Sdp { pt, rtx, ssrc })
}
