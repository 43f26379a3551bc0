//! The lines of a ledger, appended to a given text.
ghost use Rattle.std.specs.Prelude.{◌≡◌, ◌^◌, ◌<◌, ◌++◌, OnOk};
ghost use Rattle.pool.specs.link_pool.{claimed};
ghost use Rattle.pool.specs.ledger_text.{paid_word, claim_line, claim_lines, link_line, ledger_text};

use crate::link_pool::{Claim, Ledger};
use book_text::Tail;
use ram_io::NoMemory;

/// What is said of a claim behind its size.
fn word_of(claim: &Claim, granted: u64) -> &'static [u8]
    ensures { result.now ≡ paid_word granted claim.now }
{
    if claim.is_paid(granted) {
        b" paid\n"
    } else {
        b" late\n"
    }
}

/// The line of a claim of the channel with this number, as `claim 7 1500 1500 paid`.
pub fn append_claim(
    text: &mut Vec<u8>,
    id: u16,
    claim: &Claim,
    granted: u64,
) -> Result<(), NoMemory>
    ensures { OnOk result (text.new.items ≡ text.old.items ++ claim_line granted id claim.now) }
{
    let mut line = Tail::new();
    line.word(word_of(claim, granted));
    line.spaced(claim.bytes);
    line.spaced(claim.from);
    line.named(b"claim", u64::from(id));
    line.append_to(text)
}

/// The lines of some claims.
fn append_claims(
    text: &mut Vec<u8>,
    ids: &[u16],
    claims: &[Claim],
    granted: u64,
) -> Result<(), NoMemory>
    ensures { OnOk result (text.new.items ≡ text.old.items ++ claim_lines granted ids.now claims.now) }
{
    for claim in claims {
        let id = ids.get(claim.taker as usize).copied().unwrap_or(0);
        append_claim(text, id, claim, granted)?;
    }
    Ok(())
}

/// The line of the link, as `pool 3000 2998`.
fn append_link(text: &mut Vec<u8>, claimed: u64, granted: u64) -> Result<(), NoMemory>
    ensures { OnOk result (text.new.items ≡ text.old.items ++ link_line claimed granted) }
{
    let mut line = Tail::new();
    line.byte(b'\n');
    line.spaced(granted);
    line.named(b"pool", claimed);
    line.append_to(text)
}

/// The text of a ledger, where the channel of taker i has the number `ids[i]`: a line for each claim,
/// and then the line of the link. Where memory runs out, a part of it may stand behind the text.
pub fn append_ledger(text: &mut Vec<u8>, ids: &[u16], ledger: &Ledger) -> Result<(), NoMemory>
    requires few { claimed ledger.now.claims.items < 2 ^ 64 }
    ensures { OnOk result (text.new.items ≡ text.old.items ++ ledger_text ids.now ledger.now.granted ledger.now.claims.items) }
{
    append_claims(text, ids, &ledger.claims, ledger.granted)?;
    let claimed = claimed_of(&ledger.claims);
    append_link(text, claimed, ledger.granted)
}

/// How many bytes are claimed.
fn claimed_of(claims: &[Claim]) -> u64
    requires { claimed claims.now < 2 ^ 64 }
    ensures { result ≡ claimed claims.now }
{
    claims.iter().map(|claim| claim.bytes).sum()
}
