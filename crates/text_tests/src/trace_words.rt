//! What the tests of traces begin with: a channel line, its edits, and the words of answers.
use crate::fixtures::same;
use std::alloc::{AllocError, Global};
use std::process::Abort;
use std::test::Fail;
use trace_text::{LineFault, read_line};

const CHANNEL: &str = "channel 7 ssrc 11223344 pt 33 rtx 99 server aabbccdd seq0 500 ring 64 \
    window 0 access marker share 10000 reserve 1500 burst 4000 declared 100 minwire 42 limit 100 \
    idle 100 clients 4";

/// The line with new text in place of the old.
fn replaced(alloc: Global, line: &str, old: &str, new: &str) -> Result<String, AllocError> {
    let (front, back) = line.split_once(old).unwrap_or(("no such part", ""));
    format!(in alloc; "{front}{new}{back}")
}

/// `CHANNEL` with edits `old>new` that are set off by semicolons; none where there is no `>`.
fn edited(alloc: Global, edits: &str) -> Result<String, AllocError> {
    let mut line = String::from_str(alloc, CHANNEL)?;
    for edit in edits.split(';') {
        if let Some((old, new)) = edit.split_once('>') {
            line = replaced(alloc, &line, old, new)?;
        }
    }
    Ok(line)
}

/// A line: `@` stands for the channel line with the edits behind it.
pub fn line_of(alloc: Global, text: &str) -> Result<String, AllocError> {
    match text.strip_prefix('@') {
        Some(edits) => edited(alloc, edits),
        None => String::from_str(alloc, text),
    }
}

/// The word of an answer.
pub fn word(fault: Option<LineFault>) -> &'static str {
    match fault {
        None => "ok",
        Some(LineFault::Form) => "form",
        Some(LineFault::Order) => "order",
        Some(LineFault::Range) => "range",
        Some(LineFault::Twice) => "twice",
        Some(LineFault::Rule(1)) => "rule-1",
        Some(LineFault::Rule(2)) => "rule-2",
        Some(LineFault::Rule(3)) => "rule-3",
        Some(LineFault::Rule(4)) => "rule-4",
        Some(LineFault::Rule(_)) => "rule-5",
    }
}

/// The word of what a line is read as.
pub fn word_of(line: &[u8]) -> &'static str {
    word(read_line(line).err())
}

/// Each line is read with this word.
pub fn expect_word(rt: &impl Abort, alloc: Global, want: &str, lines: &[&str]) -> Result<(), Fail> {
    for text in lines {
        let line = line_of(alloc, text)?;
        same(rt, &word_of(line.as_bytes()), &want, text);
    }
    Ok(())
}

/// A word, and lines that are read with it.
pub type Answer = (&'static str, &'static [&'static str]);

/// Each row's lines are read with its word.
pub fn expect_words(rt: &impl Abort, alloc: Global, rows: &[Answer]) -> Result<(), Fail> {
    for (want, lines) in rows {
        expect_word(rt, alloc, want, lines)?;
    }
    Ok(())
}
