//! The orders of an answer, as its lines are written.
ghost use Rattle.std.specs.Prelude.{◌≡◌, ◌∷◌, [], IfSome, MatchOption, true, take, drop};
ghost use Rattle.std.specs.List.{list_all};
ghost use Rattle.rams_model.specs.Texts.{order_count};
ghost use Rattle.book_text.specs.order_datagrams.{has_plain};

use crate::answer_text::asking::asks;
use crate::order_datagrams::has_plain;
use rams_model::{Note, Order};
use std::marker::Model;

/// The orders of the notes that are still to be written.
#[derive(Drop)]
pub struct Orders<'a> {
    left: &'a [Order],
    /// The packets of all of them have a fixed header alone.
    plain: bool,
}

impl<'a> Model for Orders<'a> {
    ghost use Rattle.std.specs.Prelude.{◌≡◌, true, List};
    ghost use Rattle.std.specs.List.{list_all};
    ghost use Rattle.rams_model.specs.declared.Order.{Order};
    ghost use Rattle.book_text.specs.order_datagrams.{has_plain};

    ghost Value = { List Order };

    ghost view = { λ o. o.left.now };

    ghost invariant = { λ o. o.plain ≡ true → list_all has_plain o.left.now ≡ true };
}

impl<'a> Orders<'a> {
    /// Those of an answer. The first bytes of their packets are read at once, up to one that isn't plain, so
    /// that they come from memory together.
    pub fn of(orders: &'a [Order]) -> Orders<'a>
        ensures { result ≡ orders.now }
    {
        Orders {
            left: orders,
            plain: are_plain(orders),
        }
    }

    /// The order that this note asks for, of those of this note and of the notes after it, and whether its packet is known
    /// to have a fixed header alone.
    pub(crate) fn asked(&self, note: &Note) -> Option<(&'a Order, bool)>
        ensures order { MatchOption result (take (order_count note.now) self.now ≡ []) (λ r. take (order_count note.now) self.now ≡ r.0.now ∷ []) }
        ensures plain { IfSome result (λ r. r.1 ≡ true → has_plain r.0.now ≡ true) }
    {
        match (asks(note), self.left) {
            (true, [order, ..]) => Some((order, self.plain)),
            _ => None,
        }
    }

    /// This note is written: those of the notes behind it are left.
    pub fn pass(&mut self, note: &Note)
        ensures { self.new ≡ drop (order_count note.now) self.old }
    {
        if let (true, [_, rest @ ..]) = (asks(note), self.left) {
            self.left = rest;
        }
    }
}

/// Whether the packets of all of these have a fixed header alone.
fn are_plain(orders: &[Order]) -> bool
    ensures { result ≡ list_all has_plain orders.now }
{
    orders.iter().all(|order| has_plain(order))
}
