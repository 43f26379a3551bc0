//! The rule of the lock, and what its steps tell.
use crate::{Book, Config, Entry};
use atomic_table::{Join, Play, Split, TableRule};
use std::collections::LinkedList;

/// What a lock is told when it is made.
#[derive(Clone, Copy)]
pub struct About {
    pub config: Config,
    /// How many passes it has.
    pub passes: u64,
}

/// What a caller knows. No value of it is made.
pub struct View {
    /// The settings of the channel, where it knows them.
    pub config: Option<Config>,
    /// The history as the caller has seen it.
    pub log: LinkedList<Entry>,
    /// What another caller had seen, whom it met.
    pub told: LinkedList<Entry>,
    /// The lists whose calls are made with it.
    pub owns: LinkedList<u64>,
    /// The passes that were given back: their lists, and what they had seen.
    pub past: LinkedList<(u64, LinkedList<Entry>)>,
    /// The calls that are left.
    pub left: u64,
    /// One more than the first of its tickets; 0 where it has none.
    pub ticket: u64,
    /// How many tickets it has, one behind the other.
    pub size: u64,
    /// 1 while the book is out with it.
    pub taken: u64,
}

/// One history, to which the caller whose turn it is adds.
pub struct InTurn;

impl TableRule<Book, View, About> for InTurn {
    ghost use Rattle.channel_book.specs.channel_lock.Turns.{Turns, first_view};

    ghost holds = { λ about. Turns about.config about.passes };

    ghost first = { λ about. first_view about.config about.passes };
}

/// Draws tickets.
pub struct Draw;

impl Play<Book, View> for Draw {
    ghost use Rattle.channel_book.specs.channel_lock.Steps.{Drawn};

    ghost then = { Drawn };
}

/// Looks whether the first ticket is served; if it is, the book is taken out.
pub struct Look;

impl Play<Book, View> for Look {
    ghost use Rattle.channel_book.specs.channel_lock.Steps.{Looked};

    ghost then = { Looked };
}

/// Puts the book back and passes the turn on, with all its tickets.
pub struct PassOn;

impl Play<Book, View> for PassOn {
    ghost use Rattle.channel_book.specs.channel_lock.Steps.{PassedOn};

    ghost then = { PassedOn };
}

/// Learns that what it was told and what it saw are beginnings of one history.
pub struct Learn;

impl Play<Book, View> for Learn {
    ghost use Rattle.channel_book.specs.channel_lock.Steps.{Learnt};

    ghost then = { Learnt };
}

/// Begins to gather the passes.
pub struct Sit;

impl Play<Book, View> for Sit {
    ghost use Rattle.channel_book.specs.channel_lock.Steps.{Sat};

    ghost then = { Sat };
}

/// Cuts off a pass for the first list that is left.
pub struct Deal;

impl Split<View> for Deal {
    ghost use Rattle.channel_book.specs.channel_lock.Steps.{undealt, dealt};

    ghost left = { undealt };

    ghost right = { dealt };
}

/// Notes what a pass has seen, and tells it to another.
pub struct Tell;

impl Split<View> for Tell {
    ghost use Rattle.channel_book.specs.channel_lock.Steps.{note_of};

    ghost left = { λ v. v };

    ghost right = { note_of };
}

impl Join<View> for Tell {
    ghost use Rattle.channel_book.specs.channel_lock.Steps.{told};
    ghost use Rattle.channel_book.specs.channel_lock.Turns.{blank};

    ghost both = { told };

    ghost spent = { blank };
}

/// Gives a pass back.
pub struct GiveBack;

impl Join<View> for GiveBack {
    ghost use Rattle.channel_book.specs.channel_lock.Steps.{with_pass};
    ghost use Rattle.channel_book.specs.channel_lock.Turns.{blank};

    ghost both = { with_pass };

    ghost spent = { blank };
}
