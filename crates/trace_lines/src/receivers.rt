//! The events of receivers, behind their first word: the words must have the form of the kind, and
//! then each number must fit its type.
ghost use Rattle.std.specs.Prelude.{◌≡◌, ◌∷◌, codes, IfOk, option_map};
ghost use Rattle.rams_model.specs.Texts.{tune_line, mcast_line, give_line, ask_line, drop_line, tune_in, give_in, mcast_in, ask_in, drop_in};
ghost use Rattle.trace_lines.specs.{pair_in, Narrows, HasDigits};

use crate::fields::{ends, next_number, next_word32};
use crate::line::Line;
use crate::ranges::channel_id;
use crate::words::Words;
use rams_model::LineFault;

/// A line that gives a client a receiver.
pub fn tune<'a>(words: &mut Words<'a>) -> Result<Line<'a>, LineFault>
    ensures line { Narrows result (tune_in (codes "tune" ∷ words.old)) }
    ensures digits { IfOk result HasDigits }
{
    let (id, client, ssrc) = tune_words(words).ok_or(LineFault::Form)?;
    let id = channel_id(id)?;
    Ok(Line::Tune { id, client, ssrc })
}

#[tactic(auto, unfolding(rams_model::specs::Texts::TraceLines::tune_in))]
fn tune_words(words: &mut Words<'_>) -> Option<(u64, u64, u32)>
    ensures { tune_in (codes "tune" ∷ words.old) ≡ option_map (λ read. tune_line read.0 read.1 read.2) result }
{
    let id = next_number(words)?;
    let client = next_number(words)?;
    let ssrc = next_word32(words)?;
    ends(words).then_some((id, client, ssrc))
}

/// A line that delivers a datagram.
#[tactic(auto, unfolding(rams_model::specs::Texts::TraceLines::give_in))]
pub fn give<'a>(words: &mut Words<'a>) -> Result<Line<'a>, LineFault>
    ensures line { Narrows result (give_in (codes "give" ∷ words.old)) }
    ensures digits { IfOk result HasDigits }
{
    let number = next_number(words).ok_or(LineFault::Form)?;
    if !ends(words) {
        return Err(LineFault::Form);
    }
    Ok(Line::Give { number })
}

/// A line that delivers a packet of the multicast.
pub fn mcast<'a>(words: &mut Words<'a>) -> Result<Line<'a>, LineFault>
    ensures line { Narrows result (mcast_in (codes "mcast" ∷ words.old)) }
    ensures digits { IfOk result HasDigits }
{
    let (id, client, n) = mcast_words(words).ok_or(LineFault::Form)?;
    let id = channel_id(id)?;
    Ok(Line::Mcast { id, client, n })
}

#[tactic(auto, unfolding(rams_model::specs::Texts::TraceLines::mcast_in))]
fn mcast_words(words: &mut Words<'_>) -> Option<(u64, u64, u64)>
    ensures { mcast_in (codes "mcast" ∷ words.old) ≡ option_map (λ read. mcast_line read.0 read.1 read.2) result }
{
    let id = next_number(words)?;
    let client = next_number(words)?;
    let n = next_number(words)?;
    ends(words).then_some((id, client, n))
}

/// A line that lets a receiver ask for what it misses.
#[tactic(auto, unfolding(rams_model::specs::Texts::TraceLines::ask_in))]
pub fn ask<'a>(words: &mut Words<'a>) -> Result<Line<'a>, LineFault>
    ensures line { Narrows result (ask_in (codes "ask" ∷ words.old)) }
    ensures digits { IfOk result HasDigits }
{
    let (id, client) = pair(words).ok_or(LineFault::Form)?;
    let id = channel_id(id)?;
    Ok(Line::Ask { id, client })
}

/// A line that lets a receiver leave.
#[tactic(auto, unfolding(rams_model::specs::Texts::TraceLines::drop_in))]
pub fn drop<'a>(words: &mut Words<'a>) -> Result<Line<'a>, LineFault>
    ensures line { Narrows result (drop_in (codes "drop" ∷ words.old)) }
    ensures digits { IfOk result HasDigits }
{
    let (id, client) = pair(words).ok_or(LineFault::Form)?;
    let id = channel_id(id)?;
    Ok(Line::Drop { id, client })
}

// Two numbers, and no more words.
fn pair(words: &mut Words<'_>) -> Option<(u64, u64)>
    ensures { result ≡ pair_in words.old }
{
    let id = next_number(words)?;
    let client = next_number(words)?;
    ends(words).then_some((id, client))
}
