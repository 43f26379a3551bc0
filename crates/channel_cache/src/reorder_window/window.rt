//! The window of one channel.
ghost use Rattle.std.specs.Prelude.{◌≡◌, ℕ, ◌+◌, ◌^◌, ◌<◌, ◌≤◌, ◌↔◌, IsTrue, List, [], ◌∷◌, ◌++◌, Option, None, true, false, IfOk, MatchOption};
ghost use Rattle.channel_cache.specs.reorder_window.{Start, came, start_after, released, new_window, begun, came_of, arrived, first_free, after_release, IsWindow, StandsFor, IsAwaited, GoesBy, WentBy};
ghost use Rattle.channel_cache.specs.reorder_window.Seen.{Seen};

use crate::reorder_window::kept::{is_kept, missing_from, put};
use ram_io::NoMemory;
use std::alloc::Global;
use std::marker::Model;

/// What became of an item.
#[derive(Clone, Copy, PartialEq, Eq)]
pub enum Came {
    /// It came in time, and is kept.
    Kept,
    /// Its number is below the one that is waited for.
    Late,
    /// An item of its number came in time before.
    Twice,
}

/// The items of one start that came in time and were not released, by rising number.
#[derive(Drop)]
pub struct Window<T> {
    /// How far below the greatest number one is waited for.
    width: u32,
    /// The number that is waited for: each before it came in time, or is too far below the greatest.
    awaited: u64,
    /// The greatest number that came in time.
    greatest: u64,
    /// No start goes on.
    ended: bool,
    kept: Vec<(u64, T)>,
}

impl<T> Model for Window<T> {
    ghost use Rattle.std.specs.Prelude.{◌+◌, ◌≤◌, vec_capacity};
    ghost use Rattle.channel_cache.specs.reorder_window.{seen_code, IsWindow, seen_of};
    ghost use Rattle.channel_cache.specs.reorder_window.Seen.{Seen};

    ghost Value = { Seen T };

    ghost coded = { seen_code T.code };

    ghost view = { λ w. seen_of w.width w.awaited w.greatest w.ended w.kept.items };

    ghost invariant = { λ w. IsWindow (seen_of w.width w.awaited w.greatest w.ended w.kept.items)
        × (w.width + 1 ≤ vec_capacity w.kept) };
}

impl<T: Drop> Window<T> {
    /// A window that no start was begun in, with room for `width` + 1 items.
    pub fn new(alloc: Global, width: u32) -> Result<Window<T>, NoMemory>
        ensures { IfOk result (λ w. w ≡ new_window width) }
    {
        Ok(Window {
            width,
            awaited: 0,
            greatest: 0,
            ended: true,
            kept: Vec::with_capacity(alloc, width as usize + 1)?,
        })
    }

    /// Begins a new start, whose first number is `n`.
    pub fn begin(&mut self, n: u64)
        requires empty { self.old.kept ≡ [] }
        requires small { n < 2 ^ 62 }
        ensures step { self.new ≡ begun self.old n }
        ensures stands { StandsFor self.new (record { first = n; items = [] }) [] }
    {
        self.awaited = n;
        self.greatest = n;
        self.ended = false;
    }

    /// Takes an item under its number. One that is late, and one whose number came in time before,
    /// is dropped. All that can be released was released before.
    pub fn arrive(&mut self, n: u64, item: T) -> Came
        requires going { self.old.ended ≡ false }
        requires settled { first_free self.old ≡ None }
        requires small { n < 2 ^ 62 }
        ensures came { result ≡ came_of self.old n }
        ensures step { self.new ≡ arrived self.old n item result }
        // Whichever items came in time so far, the answer is that for them, and this one is added.
        ensures stands { (s : Start T) (out : List (ℕ × T)) → StandsFor self.old s out →
            (result ≡ came self.old.width s n) × StandsFor self.new (start_after s n item result) out }
    {
        self.keep_in_time(n, item)
    }

    // Says what became of an item, and keeps it where it comes in time. What it is in history, `arrive`
    // adds.
    fn keep_in_time(&mut self, n: u64, item: T) -> Came
        requires going { self.old.ended ≡ false }
        requires settled { first_free self.old ≡ None }
        requires small { n < 2 ^ 62 }
        ensures came { result ≡ came_of self.old n }
        ensures step { self.new ≡ arrived self.old n item result }
        ensures was { IsWindow self.old }
    {
        if n < self.awaited {
            return Came::Late;
        }
        if is_kept(&self.kept, n) {
            return Came::Twice;
        }
        put(&mut self.kept, n, item);
        self.greatest = self.greatest.max(n);
        let lowest = self.greatest.saturating_sub(u64::from(self.width));
        self.awaited = missing_from(&self.kept, self.awaited.max(lowest));
        Came::Kept
    }

    /// Whether no item waits, and this is the number that is waited for.
    pub fn is_next(&self, n: u64) -> bool
        ensures { IsTrue result ↔ IsAwaited self.now n }
    {
        n == self.awaited && self.kept.is_empty()
    }

    /// Lets an item by that need not wait, as if it had come under its number and been released at once.
    pub fn pass(&mut self, n: u64)
        requires going { self.old.ended ≡ false }
        requires next { IsAwaited self.old n }
        requires small { n < 2 ^ 62 }
        ensures by { (item : T) → GoesBy self.old self.new n item }
        // Whichever items came in time so far, this one is added, and released with them.
        ensures stands { (item : T) (s : Start T) (out : List (ℕ × T)) → StandsFor self.old s out → WentBy self.old self.new n item s out }
    {
        self.go_by(n);
    }

    // Lets the number go by. What that is in history, `pass` adds.
    fn go_by(&mut self, n: u64)
        requires going { self.old.ended ≡ false }
        requires next { IsAwaited self.old n }
        requires small { n < 2 ^ 62 }
        ensures by { (item : T) → GoesBy self.old self.new n item }
        ensures was { IsWindow self.old }
        ensures is { IsWindow self.new }
    {
        self.awaited = n + 1;
        self.greatest = self.greatest.max(n);
    }

    /// Ends the start: from now on everything kept can be released.
    pub fn end_start(&mut self)
        ensures step { self.new ≡ record self.old { ended = true } }
        ensures stands { (s : Start T) (out : List (ℕ × T)) → StandsFor self.old s out → StandsFor self.new s out }
    {
        self.ended = true;
    }

    /// Takes out the item with the least number, where it can be released: while the start goes on
    /// those below the awaited number can, and each once it is over.
    pub fn release(&mut self) -> Option<(u64, T)>
        ensures item { result ≡ first_free self.old }
        ensures step { self.new ≡ after_release self.old }
        // What was released is, when nothing more can be, what the items in time say.
        ensures stands { (s : Start T) (out : List (ℕ × T)) → StandsFor self.old s out →
            MatchOption result (out ≡ released self.old.width self.old.ended s) (λ e. StandsFor self.new s (out ++ e ∷ [])) }
    {
        self.pop_free()
    }

    // Takes out the first item, where it can be released. What went out so far, `release` adds.
    fn pop_free(&mut self) -> Option<(u64, T)>
        ensures item { result ≡ first_free self.old }
        ensures step { self.new ≡ after_release self.old }
        ensures was { IsWindow self.old }
    {
        let (n, _) = self.kept.first()?;
        if self.ended || *n < self.awaited {
            Some(self.kept.remove(0))
        } else {
            None
        }
    }
}
