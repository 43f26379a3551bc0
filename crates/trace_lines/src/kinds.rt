//! The head and the events of channels, behind their first word: the words must have the form of
//! the kind, and then each number must fit its type.
ghost use Rattle.std.specs.Prelude.{◌≡◌, ◌∷◌, true, codes, IfOk, IfSome, option_map};
ghost use Rattle.rams_model.specs.Texts.{head_line, live_line, feedback_line, head_in, live_in, feedback_in, is_hex};
ghost use Rattle.trace_lines.specs.{Narrows, HasDigits};

use crate::fields::{ends, last_hex, next_number, next_version, number_field};
use crate::line::Line;
use crate::ranges::{channel_id, tick_ms};
use crate::words::Words;
use rams_model::LineFault;

/// A live line.
pub fn live<'a>(words: &mut Words<'a>) -> Result<Line<'a>, LineFault>
    ensures line { Narrows result (live_in (codes "live" ∷ words.old)) }
    ensures digits { IfOk result HasDigits }
{
    let (id, hex) = live_words(words).ok_or(LineFault::Form)?;
    let id = channel_id(id)?;
    Ok(Line::Live { id, hex })
}

#[tactic(auto, unfolding(rams_model::specs::Texts::TraceLines::live_in), using(crate::proofs::LastWord::hex_ends))]
fn live_words<'a>(words: &mut Words<'a>) -> Option<(u64, &'a [u8])>
    ensures words { live_in (codes "live" ∷ words.old) ≡ option_map (λ read. live_line read.0 read.1.now) result }
    ensures digits { IfSome result (λ read. is_hex read.1.now ≡ true) }
{
    let id = next_number(words)?;
    let hex = last_hex(words)?;
    Some((id, hex))
}

/// A feedback line.
pub fn feedback<'a>(words: &mut Words<'a>) -> Result<Line<'a>, LineFault>
    ensures line { Narrows result (feedback_in (codes "fb" ∷ words.old)) }
    ensures digits { IfOk result HasDigits }
{
    let (id, client, hex) = feedback_words(words).ok_or(LineFault::Form)?;
    let id = channel_id(id)?;
    Ok(Line::Feedback { id, client, hex })
}

#[tactic(auto, unfolding(rams_model::specs::Texts::TraceLines::feedback_in), using(crate::proofs::LastWord::hex_ends))]
fn feedback_words<'a>(words: &mut Words<'a>) -> Option<(u64, u64, &'a [u8])>
    ensures words { feedback_in (codes "fb" ∷ words.old) ≡ option_map (λ read. feedback_line read.0 read.1 read.2.now) result }
    ensures digits { IfSome result (λ read. is_hex read.2.now ≡ true) }
{
    let id = next_number(words)?;
    let client = next_number(words)?;
    let hex = last_hex(words)?;
    Some((id, client, hex))
}

/// The head line.
pub fn head<'a>(words: &mut Words<'a>) -> Result<Line<'a>, LineFault>
    ensures line { Narrows result (head_in (codes "rams-trace" ∷ words.old)) }
    ensures digits { IfOk result HasDigits }
{
    let (version, tick, link) = head_words(words).ok_or(LineFault::Form)?;
    let tick_ms = tick_ms(tick)?;
    Ok(Line::Head {
        version,
        tick_ms,
        link,
    })
}

#[tactic(auto, unfolding(rams_model::specs::Texts::TraceLines::head_in))]
fn head_words(words: &mut Words<'_>) -> Option<(u8, u64, u64)>
    ensures { head_in (codes "rams-trace" ∷ words.old) ≡ option_map (λ read. head_line read.0 read.1 read.2) result }
{
    let version = next_version(words)?;
    let tick = number_field(words, b"tick")?;
    let link = number_field(words, b"link")?;
    ends(words).then_some((version, tick, link))
}
