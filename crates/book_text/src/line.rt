//! A line's beginning, and the lines that are no notes.
ghost use Rattle.std.specs.Prelude.{◌≡◌, ◌+◌, ◌≤◌, ◌<◌, ◌++◌, OnOk, OnErr, codes, decimal, length, vec_capacity};
ghost use Rattle.book_text.specs.{no_channel_line};
ghost use Rattle.rams_model.specs.Texts.{spaced, send_line, line_fault_word, refused_line, hex_word};

use crate::tail::Tail;
use hex_text::append_encoded;
use ram_io::NoMemory;
use rams_model::LineFault;

/// The number of the event, that of the channel, and a space, in front.
#[inline]
pub fn begin(line: &mut Tail, event: u64, id: u16)
    requires { length line.old + 42 ≤ 224 }
    ensures { line.new ≡ decimal event ++ spaced id ++ codes " " ++ line.old }
{
    line.byte(b' ');
    line.spaced(u64::from(id));
    line.number(event);
}

/// The line of a datagram to a client: `EVENT ID send CLIENT HEX`, with `-` for no bytes.
#[tactic(auto, unfolding(rams_model::specs::Texts::BookText::send_line))]
pub fn append_send(
    text: &mut Vec<u8>,
    event: u64,
    id: u16,
    client: u64,
    bytes: &[u8],
) -> Result<(), NoMemory>
    ensures text { OnOk result (text.new.items ≡ text.old.items ++ send_line event id client bytes.now) }
    ensures err { OnErr result (text.new.items ≡ text.old.items) }
    ensures full { OnErr result (vec_capacity text.old < length text.old.items + length (send_line event id client bytes.now)) }
    ensures room { vec_capacity text.old ≤ vec_capacity text.new }
{
    let mut line = Tail::new();
    line.byte(b' ');
    line.named(b"send", client);
    begin(&mut line, event, id);
    append_with_hex(text, &line, bytes)
}

/// A line whose front is this, and that goes on with bytes in hexadecimal digits.
pub fn append_with_hex(text: &mut Vec<u8>, front: &Tail, bytes: &[u8]) -> Result<(), NoMemory>
    ensures text { OnOk result (text.new.items ≡ text.old.items ++ (front.now ++ hex_word bytes.now ++ codes "\n")) }
    ensures err { OnErr result (text.new.items ≡ text.old.items) }
    ensures full { OnErr result (vec_capacity text.old < length text.old.items + length (front.now ++ hex_word bytes.now ++ codes "\n")) }
    ensures room { vec_capacity text.old ≤ vec_capacity text.new }
{
    let start = text.len();
    front.append_to(text)?;
    let ended = append_hex_end(text, bytes);
    if ended.is_err() {
        text.truncate(start);
    }
    ended
}

// The end of a line: bytes in hexadecimal digits, and a line feed.
#[tactic(auto, using(crate::proofs::Digits::digits_fit, crate::proofs::Digits::two_digits))]
fn append_hex_end(text: &mut Vec<u8>, bytes: &[u8]) -> Result<(), NoMemory>
    ensures text { OnOk result (text.new.items ≡ text.old.items ++ (hex_word bytes.now ++ codes "\n")) }
    ensures err { OnErr result (text.new.items ≡ text.old.items) }
    ensures full { OnErr result (vec_capacity text.old < length text.old.items + length (hex_word bytes.now ++ codes "\n")) }
    ensures room { vec_capacity text.old ≤ vec_capacity text.new }
{
    if bytes.is_empty() {
        return Ok(text.extend_from_slice(b"-\n")?);
    }
    text.try_reserve(2 * bytes.len() + 1)?;
    append_encoded(text, bytes)?;
    text.push(b'\n')?;
    Ok(())
}

/// Bytes in hexadecimal digits, whose letters are small; `-` for none.
#[tactic(auto, using(crate::proofs::Digits::digits_fit))]
pub fn append_hex(text: &mut Vec<u8>, bytes: &[u8]) -> Result<(), NoMemory>
    ensures text { OnOk result (text.new.items ≡ text.old.items ++ hex_word bytes.now) }
    ensures err { OnErr result (text.new.items ≡ text.old.items) }
    ensures full { OnErr result (vec_capacity text.old < length text.old.items + length (hex_word bytes.now)) }
    ensures room { vec_capacity text.old ≤ vec_capacity text.new }
{
    if bytes.is_empty() {
        text.push(b'-')?;
        return Ok(());
    }
    append_encoded(text, bytes)?;
    Ok(())
}

/// The line of an event of a channel that isn't there: `EVENT ID no-channel`.
pub fn append_no_channel(text: &mut Vec<u8>, event: u64, id: u16) -> Result<(), NoMemory>
    ensures text { OnOk result (text.new.items ≡ text.old.items ++ no_channel_line event id) }
    ensures err { OnErr result (text.new.items ≡ text.old.items) }
    ensures full { OnErr result (vec_capacity text.old < length text.old.items + length (no_channel_line event id)) }
    ensures room { vec_capacity text.old ≤ vec_capacity text.new }
{
    let mut line = Tail::new();
    line.word(b"no-channel\n");
    begin(&mut line, event, id);
    line.append_to(text)
}

/// The line of a trace's line that is refused: `refused NUMBER WORD`, as `refused 4 form`.
pub fn append_refused(text: &mut Vec<u8>, line: u64, fault: LineFault) -> Result<(), NoMemory>
    ensures text { OnOk result (text.new.items ≡ text.old.items ++ refused_line line fault) }
    ensures err { OnErr result (text.new.items ≡ text.old.items) }
    ensures full { OnErr result (vec_capacity text.old < length text.old.items + length (refused_line line fault)) }
    ensures room { vec_capacity text.old ≤ vec_capacity text.new }
{
    let mut tail = Tail::new();
    tail.byte(b'\n');
    fault_word(&mut tail, fault);
    tail.byte(b' ');
    tail.named(b"refused", line);
    tail.append_to(text)
}

fn fault_word(tail: &mut Tail, fault: LineFault)
    requires { length tail.old + 25 ≤ 224 }
    ensures tail { tail.new ≡ line_fault_word fault ++ tail.old }
    ensures few { length tail.new ≤ length tail.old + 25 }
{
    match fault {
        LineFault::Form => tail.word(b"form"),
        LineFault::Order => tail.word(b"order"),
        LineFault::Range => tail.word(b"range"),
        LineFault::Twice => tail.word(b"twice"),
        LineFault::Rule(rule) => {
            tail.number(u64::from(rule));
            tail.word(b"rule-");
        }
    }
}

/// The line of a word and a number, as `done 6`.
pub fn append_count(text: &mut Vec<u8>, word: &[u8], n: u64) -> Result<(), NoMemory>
    ensures text { OnOk result (text.new.items ≡ text.old.items ++ (word.now ++ spaced n ++ codes "\n")) }
    ensures err { OnErr result (text.new.items ≡ text.old.items) }
    ensures full { OnErr result (vec_capacity text.old < length text.old.items + length (word.now ++ spaced n ++ codes "\n")) }
    ensures room { vec_capacity text.old ≤ vec_capacity text.new }
{
    let mut line = Tail::new();
    line.byte(b'\n');
    line.spaced(n);
    text.try_reserve(word.len() + line.len())?;
    text.extend_from_slice(word)?;
    line.append_to(text)
}
