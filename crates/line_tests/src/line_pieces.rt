//! Lines and texts through a source and a sink that go in small steps, and fail in the middle.
ghost use Rattle.std.specs.Prelude.{Some};

use crate::fixtures::{holds, run, same};
use line_io::{Gather, LineReader, Next};
use ram_io::{Failed, Sink, Source};
use std::alloc::{AllocError, Global};
use std::process::Abort;
use std::test::Fail;
use test_fixtures::test_calls::done;

/// A source that gives up to `most` bytes a call, and fails once, at call number `fails`.
#[derive(Drop)]
struct Pieces<'a> {
    bytes: &'a [u8],
    most: usize,
    calls: u64,
    fails: u64,
    faults: u64,
}

fn source_of<'a>(bytes: &'a [u8], most: usize, fails: u64) -> Pieces<'a> {
    Pieces {
        bytes,
        most,
        calls: 0,
        fails,
        faults: 0,
    }
}

impl<'a> Source for Pieces<'a> {
    ghost left = { λ s. Some s.bytes.now };

    ghost faults = { λ s. s.faults };

    ghost is_steady = { λ _. ⊥ };

    fn take(&mut self, buf: &mut [u8]) -> Result<usize, Failed> {
        self.calls = self.calls.saturating_add(1);
        if self.calls == self.fails {
            self.faults = self.faults.saturating_add(1);
            return Err(Failed);
        }
        let count = self.most.max(1).min(buf.len()).min(self.bytes.len());
        let (front, rest) = self.bytes.split_at(count);
        buf[..count].copy_from_slice(front);
        self.bytes = rest;
        Ok(count)
    }
}

/// A sink that takes up to `most` bytes a call, and fails at call number `fails` and where memory
/// runs out.
#[derive(Drop)]
struct Text {
    bytes: Vec<u8>,
    most: usize,
    calls: u64,
    fails: u64,
    faults: u64,
}

fn sink_for(alloc: Global, most: usize, fails: u64) -> Text {
    Text {
        bytes: Vec::new(alloc),
        most,
        calls: 0,
        fails,
        faults: 0,
    }
}

impl Sink for Text {
    ghost held = { λ s. Some s.bytes.items };

    ghost faults = { λ s. s.faults };

    ghost is_steady = { λ _ _. ⊥ };

    fn put(&mut self, piece: &[u8]) -> Result<usize, Failed> {
        self.calls = self.calls.saturating_add(1);
        let count = self.most.max(1).min(piece.len());
        let (front, _) = piece.split_at(count);
        if self.calls == self.fails || self.bytes.extend_from_slice(front).is_err() {
            self.faults = self.faults.saturating_add(1);
            return Err(Failed);
        }
        Ok(count)
    }
}

/// Writes an answer of `advance`, with the line where there is one.
fn append_answer(
    text: &mut Vec<u8>,
    answer: Result<Next, Failed>,
    line: &[u8],
) -> Result<(), AllocError> {
    let word: &[u8] = match answer {
        Ok(Next::Line) => b"line ",
        Ok(Next::Long) => b"long",
        Ok(Next::End) => b"end",
        Err(Failed) => b"failed",
    };
    text.extend_from_slice(word)?;
    if answer == Ok(Next::Line) {
        text.extend_from_slice(line)?;
    }
    text.push(b'|')?;
    Ok(())
}

/// The answers of so many calls of `advance`.
fn answers(alloc: Global, source: &mut Pieces<'_>, calls: usize) -> Result<Vec<u8>, Fail> {
    let mut text = Vec::new(alloc);
    let mut reader = done(LineReader::new(alloc))?;
    for _ in 0..calls {
        let answer = reader.advance(source);
        append_answer(&mut text, answer, reader.line())?;
    }
    Ok(text)
}

/// Bytes that a call of a source gives at most.
const MOST: [usize; 5] = [1, 3, 4095, 4096, 9000];

/// So many calls over these bytes give these answers, in pieces of any size.
fn expect_answers(
    rt: &impl Abort,
    alloc: Global,
    bytes: &[u8],
    calls: usize,
    want: &[u8],
) -> Result<(), Fail> {
    for most in MOST {
        let mut source = source_of(bytes, most, 0);
        let got = answers(alloc, &mut source, calls)?;
        holds(rt, got.as_slice() == want, &most);
    }
    Ok(())
}

/// Bytes of a source, and the answers of so many calls.
const TEXTS: &[(&[u8], usize, &[u8])] = &[
    (b"", 2, b"end|end|"),
    (b"a", 3, b"line a|end|end|"),
    (b"a\n", 3, b"line a|end|end|"),
    (b"a\n\n", 4, b"line a|line |end|end|"),
    (b"\nab\r\n\nc", 6, b"line |line ab\r|line |line c|end|end|"),
];

#[test]
fn lines_come_out(rt: HostRuntime) -> Result<(), Fail> {
    for (bytes, calls, want) in TEXTS {
        expect_answers(&rt, rt.alloc(), bytes, *calls, want)?;
    }
    Ok(())
}

#[test]
fn a_line_has_4096_bytes(rt: HostRuntime) -> Result<(), Fail> {
    let bytes = run(rt.alloc(), b'x', 4096, b"\ny\n")?;
    let mut want = b"line ".to_vec(rt.alloc())?;
    want.extend_from_slice(&run(rt.alloc(), b'x', 4096, b"|line y|end|end|")?)?;
    expect_answers(&rt, rt.alloc(), &bytes, 4, &want)
}

/// The next line is too long.
fn is_long(reader: &mut LineReader, source: &mut Pieces<'_>) -> Result<bool, Failed> {
    Ok(reader.advance(source)? == Next::Long)
}

/// The beginning of a line that is too long, which a second call answers again.
fn long_line(alloc: Global, source: &mut Pieces<'_>) -> Result<Vec<u8>, Fail> {
    let mut reader = done(LineReader::new(alloc))?;
    if !done(is_long(&mut reader, source))? {
        return Err(Fail::from("the line isn't too long"));
    }
    let line = reader.line().to_vec(alloc)?;
    if !done(is_long(&mut reader, source))? {
        return Err(Fail::from("the reader goes on"));
    }
    Ok(line)
}

#[test]
fn a_line_is_too_long(rt: HostRuntime) -> Result<(), Fail> {
    let bytes = run(rt.alloc(), b'x', 4097, b"\ny\n")?;
    let want = run(rt.alloc(), b'x', 4097, b"")?;
    for most in MOST {
        let mut source = source_of(&bytes, most, 0);
        let line = long_line(rt.alloc(), &mut source)?;
        holds(&rt, line == want, &most);
    }
    Ok(())
}

/// The call of a source that fails, of "ab", "\nc", "de" and the end, and the answers of so many
/// calls.
const READ_FAULTS: &[(u64, usize, &str)] = &[
    (1, 3, "failed|line ab|line cde|"),
    (2, 3, "failed|line ab|line cde|"),
    (3, 3, "line ab|failed|line cde|"),
    (4, 3, "line ab|failed|line cde|"),
    (5, 2, "line ab|line cde|"),
];

#[test]
fn reading_goes_on_after_a_fault(rt: HostRuntime) -> Result<(), Fail> {
    for (fails, calls, want) in READ_FAULTS {
        let mut source = source_of(b"ab\ncde", 2, *fails);
        let got = answers(rt.alloc(), &mut source, *calls)?;
        same(&rt, &got.as_slice(), &want.as_bytes(), fails);
    }
    Ok(())
}

/// How many bytes the sink has after these pieces.
fn put_all(gather: &mut Gather, sink: &mut Text, pieces: &[&[u8]]) -> Result<usize, Fail> {
    for piece in pieces {
        done(gather.put(sink, piece))?;
    }
    Ok(sink.bytes.len())
}

/// How many bytes the sink has after two short pieces and an empty one, a third, and a long one.
fn put_each(
    gather: &mut Gather,
    sink: &mut Text,
    short: &[u8],
    long: &[u8],
) -> Result<[usize; 3], Fail> {
    let two = put_all(gather, sink, &[short, short, b""])?;
    let third = put_all(gather, sink, &[short])?;
    let all = put_all(gather, sink, &[long])?;
    Ok([two, third, all])
}

/// Puts "end", and lets all pass.
fn put_end(gather: &mut Gather, sink: &mut Text) -> Result<(), Failed> {
    gather.put(sink, b"end")?;
    gather.flush(sink)
}

/// How many bytes a sink has after two short pieces and an empty one, a third, and a long one; and
/// its bytes in the end.
fn passed(
    alloc: Global,
    most: usize,
    short: &[u8],
    long: &[u8],
) -> Result<([usize; 3], Vec<u8>), Fail> {
    let mut sink = sink_for(alloc, most, 0);
    let mut gather = done(Gather::new(alloc))?;
    let held = put_each(&mut gather, &mut sink, short, long)?;
    done(put_end(&mut gather, &mut sink))?;
    done(gather.flush(&mut sink))?;
    Ok((held, sink.bytes))
}

#[test]
fn texts_pass(rt: HostRuntime) -> Result<(), Fail> {
    let short = run(rt.alloc(), b'p', 25000, b"")?;
    let long = run(rt.alloc(), b'l', 67500, b"")?;
    let mut whole = run(rt.alloc(), b'p', 75000, &long)?;
    whole.extend_from_slice(b"end")?;
    for most in [7, 1000, 75000] {
        let (held, bytes) = passed(rt.alloc(), most, &short, &long)?;
        same(&rt, &held, &[0, 50000, 142500], &most);
        holds(&rt, bytes == whole, &most);
    }
    Ok(())
}

/// Appends "ab" and more to what waits, and settles.
fn settle_behind(gather: &mut Gather, sink: &mut Text, more: &[u8]) -> Result<(), Fail> {
    done(gather.put(sink, b"a"))?;
    gather.text().push(b'b')?;
    gather.text().extend_from_slice(more)?;
    done(gather.settle(sink))
}

/// How many bytes a sink has after "ab" and so many bytes more were appended to what waits, and that
/// settled; and its bytes in the end.
fn settled(alloc: Global, most: usize, more: &[u8]) -> Result<(usize, Vec<u8>), Fail> {
    let mut sink = sink_for(alloc, most, 0);
    let mut gather = done(Gather::new(alloc))?;
    settle_behind(&mut gather, &mut sink, more)?;
    let held = sink.bytes.len();
    done(put_end(&mut gather, &mut sink))?;
    Ok((held, sink.bytes))
}

/// "ab", these bytes and "end".
fn whole_of(alloc: Global, more: &[u8]) -> Result<Vec<u8>, Fail> {
    let mut whole = b"ab".to_vec(alloc)?;
    whole.extend_from_slice(more)?;
    whole.extend_from_slice(b"end")?;
    Ok(whole)
}

/// How many bytes are appended, and how many of them and of "ab" pass when they settle.
const SETTLED: &[(usize, usize)] = &[(0, 0), (65533, 0), (65534, 65536), (70000, 70002)];

#[test]
fn long_text_settles(rt: HostRuntime) -> Result<(), Fail> {
    for (count, want) in SETTLED {
        let more = run(rt.alloc(), b't', *count, b"")?;
        let (held, bytes) = settled(rt.alloc(), 1000, &more)?;
        same(&rt, &held, want, count);
        holds(&rt, bytes == whole_of(rt.alloc(), &more)?, count);
    }
    Ok(())
}

/// The text fails to settle, waits, and settles.
fn expect_waits(
    rt: &impl Abort,
    gather: &mut Gather,
    sink: &mut Text,
    text: &[u8],
) -> Result<(), Failed> {
    holds(rt, gather.settle(sink).is_err(), &"settle");
    holds(rt, gather.text().as_slice() == text, &"waits");
    gather.settle(sink)
}

#[test]
fn text_that_fails_to_settle_waits(rt: HostRuntime) -> Result<(), Fail> {
    let mut sink = sink_for(rt.alloc(), 70000, 1);
    let mut gather = done(Gather::new(rt.alloc()))?;
    let text = run(rt.alloc(), b't', 65536, b"")?;
    gather.text().extend_from_slice(&text)?;
    done(expect_waits(&rt, &mut gather, &mut sink, &text))?;
    holds(&rt, sink.bytes == text, &"passes");
    Ok(())
}

/// The call of a sink that fails, whether all was put, and what the sink has.
const WRITE_FAULTS: &[(u64, bool, &str)] = &[
    (1, false, ""),
    (2, false, "ab"),
    (3, false, "abcd"),
    (4, true, "abcde"),
];

/// Whether "abc" and "de" are put to a sink.
fn flushes(alloc: Global, sink: &mut Text) -> Result<bool, Fail> {
    let mut gather = done(Gather::new(alloc))?;
    done(gather.put(sink, b"abc"))?;
    done(gather.put(sink, b"de"))?;
    Ok(gather.flush(sink).is_ok())
}

#[test]
fn a_front_passes_before_a_fault(rt: HostRuntime) -> Result<(), Fail> {
    for (fails, all, held) in WRITE_FAULTS {
        let mut sink = sink_for(rt.alloc(), 2, *fails);
        same(&rt, &flushes(rt.alloc(), &mut sink)?, all, fails);
        same(&rt, &sink.bytes.as_slice(), &held.as_bytes(), fails);
    }
    Ok(())
}
