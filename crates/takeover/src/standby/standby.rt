//! What reads a journal, piece by piece.
use crate::standby::channels::{Channels, new_channels};
use crate::standby::fault::{FeedFault, is_end, lasting};
use crate::standby::part::{append, find_feed, take_whole};
use ram_io::NoMemory;
use server_hub::Hub;
use std::alloc::Global;
use std::marker::Model;
use trace_text::LONGEST_LINE;

/// What has read a part of a journal, and can take over from the server that wrote it.
///
/// It keeps the channels as their events leave them, and the bytes of a line that isn't whole yet; nothing
/// else of the journal.
#[derive(Drop)]
pub struct Standby {
    channels: Channels,
    /// The bytes of the line that isn't whole yet.
    part: Vec<u8>,
    ended: bool,
    fault: Option<FeedFault>,
}

impl Model for Standby {
    ghost use Rattle.std.specs.Prelude.{◌≤◌, length, vec_capacity};
    ghost use Rattle.takeover.specs.standby.Following.{Seen};

    ghost Value = { Seen };

    ghost view = { λ s. record { hub = s.channels.hub; ids = s.channels.ids.items; events = s.channels.events; reached = s.channels.state; part = s.part.items; ended = s.ended; fault = s.fault } };

    ghost invariant = { λ s. (length s.part.items ≤ 4096) × (4096 ≤ vec_capacity s.part) };
}

impl Standby {
    ghost use Rattle.std.specs.Prelude.{◌≡◌, ◌<◌, ◌++◌, List, [], ◌∷◌, ℕ, None, Some, Ok, Err, IfErr, IfOk, OnOk, false, length};
    ghost use Rattle.line_io.specs.{HasNoFeed};
    ghost use Rattle.takeover.specs.standby.{Feeds, HasRead, HasReadSome, IsTakenOver, Refuses, Takes, first_part};

    /// A standby that has read nothing. It takes the room of a line.
    pub fn new(alloc: Global) -> Result<Standby, NoMemory>
        ensures { IfOk result (λ standby. HasRead standby []) }
    {
        Ok(Standby {
            channels: new_channels(alloc),
            part: Vec::with_capacity(alloc, LONGEST_LINE)?,
            ended: false,
            fault: None,
        })
    }

    /// Reads a piece of the journal up to its first line feed, with it, or all of it, and answers how
    /// many bytes these are. The event of a line that is whole then is done.
    ///
    /// `Line` where that line is refused, or is no line of a trace since it has more than 4,096 bytes;
    /// `TooLong` where it brings event 1,000,001. Either is answered again by every later call, and the
    /// channels stay as the lines before leave them. After want of memory all is as before.
    pub fn feed(&mut self, alloc: Global, piece: &[u8]) -> Result<usize, FeedFault>
        requires some { 0 < length piece.now }
        requires unended { self.old.ended ≡ false }
        requires read { HasReadSome self.old }
        ensures feeds { (bytes : List ℕ) → HasRead self.old bytes → self.old.fault ≡ None → Feeds result self.old self.new (bytes ++ first_part piece.now) }
        ensures count { IfOk result (λ count. count ≡ length (first_part piece.now)) }
        ensures read { HasReadSome self.new }
        ensures again { (fault : FeedFault) → self.old.fault ≡ Some fault → (result ≡ Err fault) × (self.new ≡ self.old) }
    {
        if let Some(fault) = self.fault {
            return Err(fault);
        }
        match self.take(alloc, piece) {
            Ok(count) => Ok(count),
            Err(fault) => {
                self.fault = lasting(fault);
                Err(fault)
            }
        }
    }

    /// How many events were done.
    pub fn events(&self) -> u64
        ensures { result ≡ self.now.events }
    {
        self.channels.events
    }

    /// Whether the journal's `end` was read.
    pub fn ended(&self) -> bool
        ensures { result ≡ self.now.ended }
    {
        self.ended
    }

    /// What is wrong with a line that was read.
    pub fn fault(&self) -> Option<FeedFault>
        ensures { result ≡ self.now.fault }
    {
        self.fault
    }

    /// The numbers of the channels, in the order of their lines.
    pub fn ids(&self) -> &[u16]
        ensures { result.now ≡ self.now.ids }
    {
        &self.channels.ids
    }

    /// The channels as their events leave them. It is refused, and all stays, where no channel line was
    /// read or a line was refused or brought an event too many.
    pub fn take_over(self) -> Result<Hub, Standby>
        requires read { HasReadSome self }
        ensures taken { (bytes : List ℕ) → HasRead self bytes → IfOk result (λ hub. IsTakenOver hub bytes) }
        ensures stays { IfErr result (λ standby. standby ≡ self) }
        ensures refused { IfErr result (λ standby. Refuses self) }
        ensures unrefused { OnOk result (Refuses self → ⊥) }
    {
        if self.fault.is_some() || !self.channels.state.has_channel() {
            return Err(self);
        }
        let Standby { channels, .. } = self;
        let Channels { hub, .. } = channels;
        let Some(hub) = hub else { unreachable!() };
        Ok(hub)
    }

    // Reads a piece where nothing has ended the journal.
    fn take(&mut self, alloc: Global, piece: &[u8]) -> Result<usize, FeedFault>
        requires some { 0 < length piece.now }
        requires unended { self.old.ended ≡ false }
        requires unrefused { self.old.fault ≡ None }
        requires read { HasReadSome self.old }
        ensures takes { (bytes : List ℕ) → HasRead self.old bytes → Takes result self.old self.new (bytes ++ first_part piece.now) }
        ensures count { IfOk result (λ count. count ≡ length (first_part piece.now)) }
    {
        match find_feed(piece) {
            Some(at) => {
                self.end_line(alloc, &piece[..at])?;
                Ok(at + 1)
            }
            None => {
                self.extend(piece)?;
                Ok(piece.len())
            }
        }
    }

    // Reads the rest of a line, and its line feed.
    fn end_line(&mut self, alloc: Global, rest: &[u8]) -> Result<(), FeedFault>
        requires clean { HasNoFeed rest.now }
        requires unended { self.old.ended ≡ false }
        requires unrefused { self.old.fault ≡ None }
        requires read { HasReadSome self.old }
        ensures takes { (bytes : List ℕ) → HasRead self.old bytes → Takes result self.old self.new (bytes ++ (rest.now ++ 10 ∷ [])) }
    {
        let step = take_whole(alloc, &mut self.channels, &mut self.part, rest)?;
        self.ended = is_end(step);
        Ok(())
    }

    // Reads more of a line that isn't whole.
    fn extend(&mut self, piece: &[u8]) -> Result<(), FeedFault>
        requires clean { HasNoFeed piece.now }
        requires unended { self.old.ended ≡ false }
        requires unrefused { self.old.fault ≡ None }
        requires read { HasReadSome self.old }
        ensures takes { (bytes : List ℕ) → HasRead self.old bytes → Takes result self.old self.new (bytes ++ piece.now) }
    {
        append(&self.channels, &mut self.part, piece)
    }
}
