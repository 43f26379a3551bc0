//! The text of a line.
ghost use Rattle.std.specs.Prelude.{◌≡◌, ◌∷◌, ◌++◌, true, Ok, IfOk, OnOk, decimal};
ghost use Rattle.rams_model.specs.Texts.{head_line, line_words, line_text, line_at, is_spelled, channel_words, kept_words, access_word, text_of, spaced_words, word32};
ghost use Rattle.trace_lines.specs.{shown};
ghost use Rattle.trace_text.specs.{names_words, places_words, amounts_words, bounds_words};

use hex_text::encode_into;
use itoa::Buffer;
use ram_io::NoMemory;
use rams_model::{Access, Channel};
use std::alloc::Global;
use trace_lines::Line;

/// The text of a line, without a line feed. It reads back as the line where each number is in its
/// range and has at most 15 digits, the version is 1 or 2, a channel of version 1 keeps nothing from
/// tick to tick, the bytes are pairs of hexadecimal digits or `-`, and the text has at most 4,096
/// bytes.
pub fn write_line(alloc: Global, line: &Line<'_>) -> Result<Vec<u8>, NoMemory>
    ensures text { IfOk result (λ text. text.items ≡ line_text (shown line.now)) }
    ensures read { IfOk result (λ text. is_spelled (shown line.now) ≡ true → line_at text.items ≡ Ok (shown line.now)) }
{
    let mut text = Vec::new(alloc);
    append_line(&mut text, line)?;
    Ok(text)
}

/// Appends the text of a line, without a line feed; where memory runs out, a part of it may stand
/// behind the text.
#[tactic(auto, unfolding(rams_model::specs::Texts::TraceLines::line_text))]
pub fn append_line(text: &mut Vec<u8>, line: &Line<'_>) -> Result<(), NoMemory>
    ensures { OnOk result (text.new.items ≡ text.old.items ++ line_text (shown line.now)) }
{
    match line {
        Line::Head {
            version,
            tick_ms,
            link,
        } => append_head(text, *version, *tick_ms, *link),
        Line::Channel { version, channel } => append_channel(text, *version, channel),
        Line::Live { id, hex } => {
            named(text, b"live", u64::from(*id))?;
            word(text, hex)
        }
        Line::Feedback { id, client, hex } => {
            pair(text, b"fb", *id, *client)?;
            word(text, hex)
        }
        Line::Tick => Ok(text.extend_from_slice(b"tick")?),
        Line::End => Ok(text.extend_from_slice(b"end")?),
        Line::Tune { id, client, ssrc } => {
            pair(text, b"tune", *id, *client)?;
            digits32(text, *ssrc)
        }
        Line::Give { number } => named(text, b"give", *number),
        Line::Mcast { id, client, n } => {
            pair(text, b"mcast", *id, *client)?;
            spaced(text, *n)
        }
        Line::Ask { id, client } => pair(text, b"ask", *id, *client),
        Line::Drop { id, client } => pair(text, b"drop", *id, *client),
    }
}

fn append_head(text: &mut Vec<u8>, version: u8, tick_ms: u32, link: u64) -> Result<(), NoMemory>
    ensures { OnOk result (text.new.items ≡ text.old.items ++ text_of (line_words (head_line version tick_ms link))) }
{
    named(text, b"rams-trace", u64::from(version))?;
    field(text, b"tick", u64::from(tick_ms))?;
    field(text, b"link", link)
}

fn append_channel(text: &mut Vec<u8>, version: u8, c: &Channel) -> Result<(), NoMemory>
    ensures { OnOk result (text.new.items ≡ text.old.items ++ text_of (channel_words version c.now)) }
{
    append_names(text, c)?;
    append_places(text, c)?;
    append_amounts(text, c)?;
    append_bounds(text, c)?;
    append_kept(text, version, c)
}

// What names things.
fn append_names(text: &mut Vec<u8>, c: &Channel) -> Result<(), NoMemory>
    ensures { OnOk result (text.new.items ≡ text.old.items ++ text_of (names_words c.now)) }
{
    named(text, b"channel", u64::from(c.id))?;
    field32(text, b"ssrc", c.ssrc)?;
    field(text, b"pt", u64::from(c.pt))?;
    field(text, b"rtx", u64::from(c.rtx))?;
    field32(text, b"server", c.server)?;
    field(text, b"seq0", u64::from(c.seq0))
}

// Which packets are held, and which of them are access points.
fn append_places(text: &mut Vec<u8>, c: &Channel) -> Result<(), NoMemory>
    ensures { OnOk result (text.new.items ≡ text.old.items ++ spaced_words (places_words c.now)) }
{
    field(text, b"ring", u64::from(c.ring))?;
    field(text, b"window", u64::from(c.window))?;
    word(text, b"access")?;
    word(text, access_word(c.access))
}

// The amounts of bytes.
fn append_amounts(text: &mut Vec<u8>, c: &Channel) -> Result<(), NoMemory>
    ensures { OnOk result (text.new.items ≡ text.old.items ++ spaced_words (amounts_words c.now)) }
{
    field(text, b"share", c.share)?;
    field(text, b"reserve", c.reserve)?;
    field(text, b"burst", c.burst)?;
    field(text, b"declared", c.declared)?;
    field(text, b"minwire", c.minwire)
}

// How long, and for how many.
fn append_bounds(text: &mut Vec<u8>, c: &Channel) -> Result<(), NoMemory>
    ensures { OnOk result (text.new.items ≡ text.old.items ++ spaced_words (bounds_words c.now)) }
{
    field(text, b"limit", u64::from(c.limit))?;
    field(text, b"idle", u64::from(c.idle))?;
    field(text, b"clients", u64::from(c.clients))
}

// What is kept from tick to tick, which version 1 doesn't say.
fn append_kept(text: &mut Vec<u8>, version: u8, c: &Channel) -> Result<(), NoMemory>
    ensures { OnOk result (text.new.items ≡ text.old.items ++ spaced_words (kept_words version c.now)) }
{
    if version == 1 {
        return Ok(());
    }
    field(text, b"depth", c.depth)?;
    field(text, b"swell", c.swell)
}

fn access_word(access: Access) -> &'static [u8]
    ensures { result.now ≡ access_word access }
{
    match access {
        Access::Marker => b"marker",
        Access::Ts => b"ts",
    }
}

// A name, a channel's number and a client.
fn pair(text: &mut Vec<u8>, name: &[u8], id: u16, client: u64) -> Result<(), NoMemory>
    ensures { OnOk result (text.new.items ≡ text.old.items ++ (name.now ++ (32 ∷ (decimal id ++ (32 ∷ decimal client))))) }
{
    named(text, name, u64::from(id))?;
    spaced(text, client)
}

// A name, a space and a number.
fn named(text: &mut Vec<u8>, name: &[u8], n: u64) -> Result<(), NoMemory>
    ensures { OnOk result (text.new.items ≡ text.old.items ++ (name.now ++ (32 ∷ decimal n))) }
{
    text.extend_from_slice(name)?;
    spaced(text, n)
}

// A space, a name, a space and a number.
fn field(text: &mut Vec<u8>, name: &[u8], n: u64) -> Result<(), NoMemory>
    ensures { OnOk result (text.new.items ≡ text.old.items ++ (32 ∷ (name.now ++ (32 ∷ decimal n)))) }
{
    word(text, name)?;
    spaced(text, n)
}

// A space, a name, a space and eight hexadecimal digits.
fn field32(text: &mut Vec<u8>, name: &[u8], n: u32) -> Result<(), NoMemory>
    ensures { OnOk result (text.new.items ≡ text.old.items ++ (32 ∷ (name.now ++ (32 ∷ word32 n)))) }
{
    word(text, name)?;
    digits32(text, n)
}

// A space and a number.
fn spaced(text: &mut Vec<u8>, n: u64) -> Result<(), NoMemory>
    ensures { OnOk result (text.new.items ≡ text.old.items ++ (32 ∷ decimal n)) }
{
    let mut digits = Buffer::new();
    word(text, digits.format(n).as_bytes())
}

// A space and eight hexadecimal digits.
fn digits32(text: &mut Vec<u8>, n: u32) -> Result<(), NoMemory>
    ensures { OnOk result (text.new.items ≡ text.old.items ++ (32 ∷ word32 n)) }
{
    let mut digits = [0; 8];
    encode_into(&n.to_be_bytes(), &mut digits);
    word(text, &digits)
}

// A space and a word.
fn word(text: &mut Vec<u8>, word: &[u8]) -> Result<(), NoMemory>
    ensures { OnOk result (text.new.items ≡ text.old.items ++ (32 ∷ word.now)) }
{
    text.push(b' ')?;
    text.extend_from_slice(word)?;
    Ok(())
}
