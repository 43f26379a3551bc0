//! The sections of a description, one a media stream (RFC 8866, 5.14).
ghost use Rattle.std.specs.Prelude.{◌≡◌, [], drop, length, MatchOption, option_map};
ghost use Rattle.std.specs.List.{filter_map};
ghost use Rattle.converters.specs.description_loop.sdp_config.{lines_in, type_in, sections_of, formats_of, has_line, first_ssrc, is_wanted, HaveFailed, first_format, first_found, pieces_left, shown_section, sections_left, shown_found};

use crate::description_loop::sdp_config::attribute::{Attribute, payload_type, ssrc_in};
use crate::description_loop::sdp_config::lines::{Lines, is_media};
use crate::description_loop::sdp_config::pieces::Pieces;

/// What a format is looked for as.
#[derive(Clone, Copy)]
pub enum Role {
    /// The channel's, whose bursts are offered.
    Media,
    /// That of the repairs of this format.
    Repair(u8),
}

/// A section: its media line, and the lines from behind it to the end of the description.
#[derive(Clone, Copy)]
pub struct Section<'a> {
    media: &'a [u8],
    lines: Lines<'a>,
}

/// The sections of the lines that are left.
#[derive(Clone, Copy)]
pub struct Sections<'a> {
    lines: Lines<'a>,
}

impl<'a> Sections<'a> {
    /// All sections of a text.
    pub fn of(text: &'a [u8]) -> Sections<'a>
        ensures { sections_left result ≡ sections_of (lines_in text.now) }
    {
        Sections {
            lines: Lines::of(text),
        }
    }
}

impl<'a> Iterator for Sections<'a> {
    ghost use Rattle.std.specs.Iterator.{YieldsFirstBy, item_count};
    ghost use Rattle.converters.specs.description_loop.sdp_config.{shown_section, sections_left};

    type Item = Section<'a>;

    ghost next_gives = { YieldsFirstBy shown_section sections_left };

    ghost remaining = { item_count sections_left };

    fn next(&mut self) -> Option<Section<'a>> {
        while let Some(media) = self.lines.next() {
            if is_media(media) {
                return Some(Section {
                    media,
                    lines: self.lines,
                });
            }
        }
        None
    }
}

impl<'a> Section<'a> {
    /// The media source that it names first.
    pub fn ssrc(&self) -> Option<u32>
        ensures { result ≡ first_ssrc (shown_section self.now).lines }
    {
        for own in self.lines {
            if is_media(own) {
                return None;
            }
            if let Some(ssrc) = ssrc_in(own) {
                return Some(ssrc);
            }
        }
        None
    }

    // Whether one of its lines is this attribute.
    fn has(&self, attribute: Attribute) -> bool
        ensures { result ≡ has_line attribute (shown_section self.now).lines }
    {
        for line in self.lines {
            if is_media(line) {
                return false;
            }
            if attribute.is(line) {
                return true;
            }
        }
        false
    }

    // Whether its lines give the format this role.
    fn gives(&self, role: Role, format: u8) -> bool
        ensures { result ≡ is_wanted role (shown_section self.now) format }
    {
        match role {
            Role::Media => self.has(Attribute::Bursts(format)),
            Role::Repair(media) => {
                self.has(Attribute::RtxMap(format)) && self.has(Attribute::RtxOf(format, media))
            }
        }
    }

    // The fields behind media, port and protocol, where the protocol is RTP/AVPF (RFC 4585, 4.1).
    fn fields(&self) -> Option<Pieces<'a>>
        ensures { MatchOption result
            (formats_of (shown_section self.now).fields ≡ [])
            (λ fields. formats_of (shown_section self.now).fields ≡ filter_map type_in (pieces_left fields)) }
    {
        let mut fields = Pieces::of(b' ', behind_letter(self.media));
        fields.next()?;
        fields.next()?;
        if fields.next()? != b"RTP/AVPF".as_slice() {
            return None;
        }
        Some(fields)
    }

    // The same; a format that failed is marked, and isn't looked for again.
    fn tries(&self, role: Role, format: u8, failed: &mut [bool]) -> bool
        requires room { length failed.old ≡ 256 }
        requires marked { HaveFailed role (shown_section self.now) failed.old }
        ensures gives { result ≡ is_wanted role (shown_section self.now) format }
        ensures marks { HaveFailed role (shown_section self.now) failed.new }
    {
        let place = usize::from(format);
        if failed[place] {
            return false;
        }
        let gives = self.gives(role, format);
        failed[place] = !gives;
        gives
    }

    // The first of its formats that has this role.
    fn format(&self, role: Role) -> Option<u8>
        ensures { result ≡ first_format role (shown_section self.now) }
    {
        let mut failed = [false; 256];
        for field in self.fields()? {
            if let Some(format) = payload_type(field) {
                if self.tries(role, format, &mut failed) {
                    return Some(format);
                }
            }
        }
        None
    }
}

// What stands behind a line's letter and `=`.
fn behind_letter(line: &[u8]) -> &[u8]
    ensures { result.now ≡ drop 2 line.now }
{
    match line {
        [_, _, value @ ..] => value,
        _ => b"",
    }
}

/// The first format that has this role, by sections and then by place, and its section.
pub fn first_found<'a>(role: Role, sections: Sections<'a>) -> Option<(u8, Section<'a>)>
    ensures { option_map shown_found result ≡ first_found role (sections_left sections.entry) }
{
    for section in sections {
        if let Some(format) = section.format(role) {
            return Some((format, section));
        }
    }
    None
}
