//! The words of notes.
ghost use Rattle.std.specs.Prelude.{◌≡◌, ◌∷◌, ◌++◌, ◌+◌, ◌≤◌, codes, length};
ghost use Rattle.rams_model.specs.Texts.{spaced, of_word, live_words, note_words, rtp_fault_word, frame_fault_word, cause_word};

use crate::named::Named;
use crate::tail::Tail;
use rams_model::{Cause, FrameFault, LiveNote, Note, RtpFault};

/// The words of a note, without a space in front.
pub(crate) fn words(line: &mut Tail, note: &Note, named: &mut Named)
    requires { length line.old + 110 ≤ 224 }
    ensures line { line.new ≡ note_words note.now ++ line.old }
    ensures few { length line.new ≤ length line.old + 110 }
{
    match note {
        Note::Live(live) => live_words(line, live),
        Note::Accept {
            client,
            first,
            rate,
            join,
        } => accept(line, named, *client, *first, *rate, *join),
        Note::Update { client, rate, join } => update(line, named, *client, *rate, *join),
        Note::Again { client } => named.of_client(line, b"again", *client),
        Note::Refuse { client, code } => named.numbered(line, b"refuse", *client, u64::from(*code)),
        Note::StopAt { client, n } => named.numbered(line, b"stop", *client, *n),
        Note::StopKept { client, n } => named.numbered(line, b"stop-kept", *client, *n),
        Note::StopIdle { client } => named.of_client(line, b"stop-idle", *client),
        Note::Queued { client, n } => named.numbered(line, b"queued", *client, *n),
        Note::Already { client, n } => named.numbered(line, b"already", *client, *n),
        Note::Unheld { client, low } => named.numbered(line, b"unheld", *client, u64::from(*low)),
        Note::Early { client, n } => named.numbered(line, b"early", *client, *n),
        Note::TableFull { client, n } => named.numbered(line, b"table-full", *client, *n),
        Note::ClientFull { client, n } => named.numbered(line, b"client-full", *client, *n),
        Note::QueueFull { client, n } => named.numbered(line, b"queue-full", *client, *n),
        Note::ForeignNack { client } => named.of_client(line, b"foreign-nack", *client),
        Note::BadFeedback { client, fault } => bad_feedback(line, named, *client, *fault),
        Note::Bye { client } => named.of_client(line, b"bye", *client),
        Note::ByeIdle { client } => named.of_client(line, b"bye-idle", *client),
        Note::Burst { client, n, seq } => sent(line, named, b"burst", *client, *n, *seq),
        Note::Repair { client, n, seq } => sent(line, named, b"repair", *client, *n, *seq),
        Note::Gone { client, n } => named.numbered(line, b"gone", *client, *n),
        Note::End { client, cause } => end(line, named, *client, *cause),
        Note::Forgot { client } => named.of_client(line, b"forgot", *client),
    }
}

// What became of a live packet.
fn live_words(line: &mut Tail, note: &LiveNote)
    requires { length line.old + 34 ≤ 224 }
    ensures line { line.new ≡ live_words note.now ++ line.old }
    ensures few { length line.new ≤ length line.old + 34 }
{
    match note {
        LiveNote::Took(n) => line.named(b"took", *n),
        LiveNote::Restart(n) => line.named(b"restart", *n),
        LiveNote::Late => line.word(b"late"),
        LiveNote::Twice => line.word(b"twice"),
        LiveNote::Jump => line.word(b"jump"),
        LiveNote::ForeignSsrc => line.word(b"foreign-ssrc"),
        LiveNote::ForeignType => line.word(b"foreign-type"),
        LiveNote::TooBig => line.word(b"too-big"),
        LiveNote::Bad(fault) => bad(line, *fault),
    }
}

fn bad(line: &mut Tail, fault: RtpFault)
    requires { length line.old + 16 ≤ 224 }
    ensures line { line.new ≡ codes "bad " ++ rtp_fault_word fault ++ line.old }
    ensures few { length line.new ≤ length line.old + 16 }
{
    let name = match fault {
        RtpFault::Short => b"bad short".as_slice(),
        RtpFault::Version => b"bad version",
        RtpFault::Csrc => b"bad csrc",
        RtpFault::Extension => b"bad extension",
        RtpFault::Padding => b"bad padding",
    };
    line.word(name)
}

fn bad_feedback(line: &mut Tail, named: &mut Named, client: u64, fault: FrameFault)
    requires { length line.old + 41 ≤ 224 }
    ensures line { line.new ≡ of_word (codes "bad-feedback") client (frame_fault_word fault) ++ line.old }
    ensures few { length line.new ≤ length line.old + 41 }
{
    told(line, named, b"bad-feedback", client, frame_fault(fault));
}

fn frame_fault(fault: FrameFault) -> &'static [u8]
    ensures { result.now ≡ 32 ∷ frame_fault_word fault }
{
    match fault {
        FrameFault::Empty => b" empty",
        FrameFault::Short => b" short",
        FrameFault::Version => b" version",
        FrameFault::Length => b" length",
        FrameFault::Padding => b" padding",
        FrameFault::Body => b" body",
    }
}

fn end(line: &mut Tail, named: &mut Named, client: u64, cause: Cause)
    requires { length line.old + 32 ≤ 224 }
    ensures line { line.new ≡ of_word (codes "end") client (cause_word cause) ++ line.old }
    ensures few { length line.new ≤ length line.old + 32 }
{
    let name = match cause {
        Cause::Stopped => b" stopped".as_slice(),
        Cause::Lost => b" lost",
        Cause::Limit => b" limit",
        Cause::Bye => b" bye",
    };
    told(line, named, b"end", client, name)
}

// A word, a client, and what was told of it.
fn told(line: &mut Tail, named: &mut Named, name: &[u8], client: u64, what: &[u8])
    requires { length name.now + length what.now + length line.old + 21 ≤ 224 }
    ensures line { line.new ≡ name.now ++ spaced client ++ what.now ++ line.old }
    ensures few { length line.new ≤ length name.now + length what.now + length line.old + 21 }
{
    line.word(what);
    named.of_client(line, name, client);
}

fn accept(line: &mut Tail, named: &mut Named, client: u64, first: u64, rate: u64, join: u64)
    requires { length line.old + 106 ≤ 224 }
    ensures line { line.new ≡ codes "accept" ++ spaced client ++ codes " first" ++ spaced first ++ codes " rate" ++ spaced rate ++ codes " join" ++ spaced join ++ line.old }
    ensures few { length line.new ≤ length line.old + 106 }
{
    line.named(b" join", join);
    line.named(b" rate", rate);
    line.named(b" first", first);
    named.of_client(line, b"accept", client);
}

fn update(line: &mut Tail, named: &mut Named, client: u64, rate: u64, join: u64)
    requires { length line.old + 80 ≤ 224 }
    ensures line { line.new ≡ codes "update" ++ spaced client ++ codes " rate" ++ spaced rate ++ codes " join" ++ spaced join ++ line.old }
    ensures few { length line.new ≤ length line.old + 80 }
{
    line.named(b" join", join);
    line.named(b" rate", rate);
    named.of_client(line, b"update", client);
}

// A packet that is sent, under its number and its retransmission's.
#[inline(always)]
fn sent(line: &mut Tail, named: &mut Named, name: &[u8], client: u64, n: u64, seq: u16)
    requires { length name.now + length line.old + 63 ≤ 224 }
    ensures line { line.new ≡ name.now ++ spaced client ++ spaced n ++ spaced seq ++ line.old }
    ensures few { length line.new ≤ length name.now + length line.old + 63 }
{
    line.spaced(u64::from(seq));
    named.numbered(line, name, client, n);
}
