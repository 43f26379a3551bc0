//! The line of a channel, behind its first word.
ghost use Rattle.std.specs.Prelude.{◌≡◌, ◌∷◌, false, IfOk, MatchOption, codes};
ghost use Rattle.rams_model.specs.Service.{channel_in_range};
ghost use Rattle.rams_model.specs.Texts.{channel_in};
ghost use Rattle.trace_lines.specs.{Reads, Narrows, HasDigits, channel_of, names_in, places_in, amounts_in, bounds_in, keeping_in, numbers_in};

use crate::fields::{access_field, ends, next_number, number_field, word32_field};
use crate::line::Line;
use crate::values::{narrow8, narrow16, narrow32};
use crate::words::Words;
use rams_model::{Access, Channel, LineFault};

/// The numbers of a channel line, in the order of the line. A line that isn't of the form is told
/// before a number that doesn't fit its type, so each is read to the end as it is spelled.
#[derive(Drop)]
struct Numbers {
    names: Names,
    places: Places,
    amounts: Amounts,
    bounds: Bounds,
    keeping: Keeping,
}

/// What names things.
#[derive(Drop)]
struct Names {
    id: u64,
    ssrc: u32,
    pt: u64,
    rtx: u64,
    server: u32,
    seq0: u64,
}

/// Which packets are held, and which of them are access points.
#[derive(Drop)]
struct Places {
    ring: u64,
    window: u64,
    access: Access,
}

/// The amounts of bytes.
#[derive(Drop)]
struct Amounts {
    share: u64,
    reserve: u64,
    burst: u64,
    declared: u64,
    minwire: u64,
}

/// How long, and for how many.
#[derive(Drop)]
struct Bounds {
    limit: u64,
    idle: u64,
    clients: u64,
}

/// What is kept from tick to tick, and the version of the text that says so much.
#[derive(Drop)]
struct Keeping {
    version: u8,
    depth: u64,
    swell: u64,
}

/// A channel line.
#[tactic(auto, using(crate::proofs::ReadParts::channel_is_numbers))]
pub fn channel<'a>(words: &mut Words<'a>) -> Result<Line<'a>, LineFault>
    ensures line { Narrows result (channel_in (codes "channel" ∷ words.old)) }
    ensures digits { IfOk result HasDigits }
{
    let numbers = read_numbers(words).ok_or(LineFault::Form)?;
    let channel = narrowed(&numbers).ok_or(LineFault::Range)?;
    Ok(Line::Channel {
        version: numbers.keeping.version,
        channel,
    })
}

#[tactic(auto, unfolding(crate::specs::Numbers::numbers_in))]
fn read_numbers(words: &mut Words<'_>) -> Option<Numbers>
    ensures { result ≡ numbers_in (codes "channel" ∷ words.old) }
{
    Some(Numbers {
        names: next_names(words)?,
        places: next_places(words)?,
        amounts: next_amounts(words)?,
        bounds: next_bounds(words)?,
        keeping: next_keeping(words)?,
    })
}

#[tactic(auto, unfolding(crate::specs::Numbers::names_in))]
fn next_names(words: &mut Words<'_>) -> Option<Names>
    ensures { Reads result words.new (names_in (codes "channel" ∷ words.old)) }
{
    Some(Names {
        id: next_number(words)?,
        ssrc: word32_field(words, b"ssrc")?,
        pt: number_field(words, b"pt")?,
        rtx: number_field(words, b"rtx")?,
        server: word32_field(words, b"server")?,
        seq0: number_field(words, b"seq0")?,
    })
}

#[tactic(auto, unfolding(crate::specs::Numbers::places_in))]
fn next_places(words: &mut Words<'_>) -> Option<Places>
    ensures { Reads result words.new (places_in words.old) }
{
    Some(Places {
        ring: number_field(words, b"ring")?,
        window: number_field(words, b"window")?,
        access: access_field(words, b"access")?,
    })
}

#[tactic(auto, unfolding(crate::specs::Numbers::amounts_in))]
fn next_amounts(words: &mut Words<'_>) -> Option<Amounts>
    ensures { Reads result words.new (amounts_in words.old) }
{
    Some(Amounts {
        share: number_field(words, b"share")?,
        reserve: number_field(words, b"reserve")?,
        burst: number_field(words, b"burst")?,
        declared: number_field(words, b"declared")?,
        minwire: number_field(words, b"minwire")?,
    })
}

#[tactic(auto, unfolding(crate::specs::Numbers::bounds_in))]
fn next_bounds(words: &mut Words<'_>) -> Option<Bounds>
    ensures { Reads result words.new (bounds_in words.old) }
{
    Some(Bounds {
        limit: number_field(words, b"limit")?,
        idle: number_field(words, b"idle")?,
        clients: number_field(words, b"clients")?,
    })
}

// Version 1 ends before this.
#[tactic(auto, unfolding(crate::specs::Numbers::keeping_in))]
fn next_keeping(words: &mut Words<'_>) -> Option<Keeping>
    ensures { result ≡ keeping_in words.old }
{
    let Some(name) = words.next() else {
        return Some(Keeping {
            version: 1,
            depth: 0,
            swell: 0,
        });
    };
    if name != b"depth".as_slice() {
        return None;
    }
    let depth = next_number(words)?;
    let swell = number_field(words, b"swell")?;
    ends(words).then_some(Keeping {
        version: 2,
        depth,
        swell,
    })
}

// The channel that the numbers describe, where each fits its type.
#[tactic(auto, using(crate::proofs::TooWide::wide_id, crate::proofs::TooWide::wide_pt, crate::proofs::TooWide::wide_rtx, crate::proofs::TooWide::wide_seq0, crate::proofs::TooWide::wide_ring, crate::proofs::TooWide::wide_window, crate::proofs::TooWide::wide_limit, crate::proofs::TooWide::wide_idle, crate::proofs::TooWide::wide_clients))]
fn narrowed(n: &Numbers) -> Option<Channel>
    ensures { MatchOption result (channel_in_range (channel_of n.now) ≡ false) (λ c. c ≡ channel_of n.now) }
{
    Some(Channel {
        id: narrow16(n.names.id)?,
        ssrc: n.names.ssrc,
        pt: narrow8(n.names.pt)?,
        rtx: narrow8(n.names.rtx)?,
        server: n.names.server,
        seq0: narrow16(n.names.seq0)?,
        ring: narrow32(n.places.ring)?,
        window: narrow32(n.places.window)?,
        access: n.places.access,
        share: n.amounts.share,
        reserve: n.amounts.reserve,
        burst: n.amounts.burst,
        declared: n.amounts.declared,
        minwire: n.amounts.minwire,
        limit: narrow32(n.bounds.limit)?,
        idle: narrow32(n.bounds.idle)?,
        clients: narrow32(n.bounds.clients)?,
        depth: n.keeping.depth,
        swell: n.keeping.swell,
    })
}
