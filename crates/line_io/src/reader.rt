//! Lines out of a source.
ghost use Rattle.std.specs.Prelude.{◌≡◌, ◌+◌, ◌<◌, ◌≤◌, ℕ, [], List, Option, length, take, drop, IfOk, OnErr, IsOkAnd, Contains};
ghost use Rattle.std.specs.Io.KnownBytes.{Keeps, IsAtEnd, prepend_known};
ghost use Rattle.ram_io.specs.{HasCause};
ghost use Rattle.line_io.specs.{HasNoFeed, IsCutAt, IsGrown, TakesNext, IsShort};

use crate::window::{LONGEST, find_feed, make_room, take_into};
use ram_io::{Failed, NoMemory, Source};
use std::alloc::{AllocError, Global};
use std::marker::Model;

/// What a reader found.
#[derive(Clone, Copy, PartialEq, Eq)]
pub enum Next {
    /// A whole line of at most 4,096 bytes, without its line feed.
    Line,
    /// The next line has more than 4,096 bytes; its first 4,097 are handed out.
    Long,
    /// No line is left.
    End,
}

/// A reader of lines over one buffer of 65,536 bytes.
///
/// What it has taken of its source and not handed out yet, it keeps; so all reading of a source
/// goes through one reader.
#[derive(Drop)]
pub struct LineReader {
    bytes: Vec<u8>,
    line: usize,
    end: usize,
    from: usize,
    to: usize,
}

impl Model for LineReader {
    ghost use Rattle.std.specs.Prelude.{slice_range};
    ghost use Rattle.line_io.specs.{AreRanges, Reading};

    ghost Value = { Reading };

    ghost view = { λ r. record { line = slice_range r.bytes.items r.line r.end; kept = slice_range r.bytes.items r.from r.to } };

    ghost invariant = { λ r. AreRanges r.line r.end r.from r.to r.bytes.items };
}

// A buffer of this many zeros.
fn buffer(alloc: Global, size: usize) -> Result<Vec<u8>, AllocError>
    ensures { IfOk result (λ v. length v.items ≡ size) }
{
    vec![in alloc; 0u8; size]
}

impl LineReader {
    /// A reader that keeps nothing.
    pub fn new(alloc: Global) -> Result<LineReader, NoMemory>
        ensures line { IfOk result (λ reader. reader.line ≡ []) }
        ensures kept { IfOk result (λ reader. reader.kept ≡ []) }
    {
        Ok(LineReader {
            bytes: buffer(alloc, 65536)?,
            line: 0,
            end: 0,
            from: 0,
            to: 0,
        })
    }

    /// The line that was handed out last. It is gone after the next `advance`.
    pub fn line(&self) -> &[u8]
        ensures { result.now ≡ self.now.line }
    {
        &self.bytes[self.line..self.end]
    }

    /// Reads the next line; a last line may lack its line feed. Takes 4,096 to 65,536
    /// bytes of the source at a time, as far as it gives them, and none where a whole line is kept.
    ///
    /// Where the source fails, nothing is lost, and no whole line is kept: the next call goes on. After
    /// `Long` the reader is of no more use.
    pub fn advance<S: Source>(&mut self, source: &mut S) -> Result<Next, Failed>
        ensures next { IfOk result (λ next. TakesNext
            (prepend_known self.old.kept (S.left source.old))
            (prepend_known self.new.kept (S.left source.new)) self.new.line next) }
        ensures short { IfOk result (IsShort self.new.line) }
        ensures same { OnErr result (Keeps
            (prepend_known self.old.kept (S.left source.old))
            (prepend_known self.new.kept (S.left source.new))) }
        ensures unread { OnErr result (HasNoFeed self.new.kept) }
        ensures no_call { Contains self.old.kept 10 → source.new ≡ source.old }
        ensures cause { HasCause (S.faults source.old) (S.faults source.new) result }
        ensures steady { S.is_steady source.old → IsOkAnd result (λ _. S.is_steady source.new) }
    {
        match find_feed(self.kept(), 0) {
            Some(at) => Ok(self.cut_line(at)),
            None => self.take_line(source),
        }
    }

    /// The bytes that were taken of the source and aren't handed out yet. They stand in front of what the
    /// source has left.
    pub fn kept(&self) -> &[u8]
        ensures kept { result.now ≡ self.now.kept }
        ensures few { length result.now ≤ 65536 }
    {
        &self.bytes[self.from..self.to]
    }

    // Takes pieces until they bring a line feed or the source ends.
    fn take_line<S: Source>(&mut self, source: &mut S) -> Result<Next, Failed>
        requires { HasNoFeed self.old.kept }
        ensures next { IfOk result (λ next. TakesNext
            (prepend_known self.old.kept (S.left source.old))
            (prepend_known self.new.kept (S.left source.new)) self.new.line next) }
        ensures short { IfOk result (IsShort self.new.line) }
        ensures same { OnErr result (Keeps
            (prepend_known self.old.kept (S.left source.old))
            (prepend_known self.new.kept (S.left source.new))) }
        ensures unread { OnErr result (HasNoFeed self.new.kept) }
        ensures cause { HasCause (S.faults source.old) (S.faults source.new) result }
        ensures steady { S.is_steady source.old → IsOkAnd result (λ _. S.is_steady source.new) }
    {
        let mut seen = self.kept().len();
        'pieces: while seen <= LONGEST {
            if self.refill(source)? == 0 {
                return Ok(self.finish());
            }
            if let Some(at) = find_feed(self.kept(), seen) {
                return Ok(self.cut_line(at));
            }
            seen = self.kept().len();
        }
        self.cut_front();
        Ok(Next::Long)
    }

    // Takes one piece of the source behind what is kept, and says how many bytes it has.
    fn refill<S: Source>(&mut self, source: &mut S) -> Result<usize, Failed>
        requires { length self.old.kept ≤ 4096 }
        ensures grown { IfOk result (IsGrown self.old.kept self.new.kept) }
        ensures unread { OnErr result (self.new.kept ≡ self.old.kept) }
        ensures end { IfOk result (λ n. n ≡ 0 → IsAtEnd (S.left source.new)) }
        ensures whole { Keeps
            (prepend_known self.old.kept (S.left source.old))
            (prepend_known self.new.kept (S.left source.new)) }
        ensures cause { HasCause (S.faults source.old) (S.faults source.new) result }
        ensures steady { S.is_steady source.old → IsOkAnd result (λ _. S.is_steady source.new) }
    {
        let kept = self.to - self.from;
        let bytes = self.bytes.as_mut_slice();
        self.line = 0;
        self.end = 0;
        self.from = make_room(bytes, self.from, self.to);
        self.to = self.from + kept;
        let taken = take_into(source, bytes, self.to)?;
        self.to += taken;
        Ok(taken)
    }

    // Hands out the bytes up to this line feed, the first of those kept.
    fn cut_line(&mut self, at: usize) -> Next
        requires { IsCutAt self.old.kept at }
        ensures next { (a b : Option (List ℕ)) → Keeps a (prepend_known self.old.kept b)
            → TakesNext a (prepend_known self.new.kept b) self.new.line result }
        ensures short { IsShort self.new.line result }
    {
        if at > LONGEST {
            self.cut_front();
            return Next::Long;
        }
        self.cut(at);
        Next::Line
    }

    // Hands out what is kept, where the source has ended.
    fn finish(&mut self) -> Next
        requires clean { HasNoFeed self.old.kept }
        requires small { length self.old.kept ≤ 4096 }
        ensures next { (a b : Option (List ℕ)) → Keeps a (prepend_known self.old.kept b) → IsAtEnd b
            → TakesNext a (prepend_known self.new.kept b) self.new.line result }
        ensures short { IsShort self.new.line result }
    {
        if self.kept().is_empty() {
            return Next::End;
        }
        self.cut_all();
        Next::Line
    }

    fn cut(&mut self, at: usize)
        requires { at < length self.old.kept }
        ensures line { self.new.line ≡ take at self.old.kept }
        ensures kept { self.new.kept ≡ drop (at + 1) self.old.kept }
    {
        self.line = self.from;
        self.end = self.from + at;
        self.from = self.end + 1;
    }

    // Hands out the front of a line that is too long, and keeps it.
    fn cut_front(&mut self)
        requires { 4096 < length self.old.kept }
        ensures line { self.new.line ≡ take 4097 self.old.kept }
        ensures kept { self.new.kept ≡ self.old.kept }
    {
        self.line = self.from;
        self.end = self.from + LONGEST + 1;
    }

    fn cut_all(&mut self)
        ensures line { self.new.line ≡ self.old.kept }
        ensures kept { self.new.kept ≡ [] }
    {
        self.line = self.from;
        self.end = self.to;
        self.from = self.to;
    }
}
