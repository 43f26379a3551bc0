//! The rule of the link, and what its steps tell.
use crate::link_pool::claim::Claim;
use atomic_table::{Join, Play, Seat, Shared, Split, TableRule};
use std::collections::LinkedList;

/// The word that counts the bytes that were granted.
pub(crate) const GRANTED: usize = 0;

/// The word that counts the bytes that were claimed.
pub(crate) const CLAIMED: usize = 1;

/// What the ticker and the takers share.
pub(crate) type Link = Shared<(), View, u64, OneLink>;

/// What each of them steps with.
pub(crate) type Chair = Seat<(), View>;

/// What one of them knows. No value of it is made.
pub struct View {
    /// 1 where it is the ticker.
    pub grants: u64,
    /// What was granted with it.
    pub granted: u64,
    /// The numbers of the takers whose claims are made with it.
    pub owns: LinkedList<u64>,
    /// Their claims.
    pub claims: LinkedList<Claim>,
    /// The bytes that may still be claimed with it.
    pub left: u64,
}

/// One link, each byte of which is claimed once. It is told how many takers it has.
pub struct OneLink;

impl TableRule<(), View, u64> for OneLink {
    ghost use Rattle.pool.specs.link_pool.Sharing.{Fair, first_view};

    ghost holds = { Fair };

    ghost first = { first_view };
}

/// Grants bytes.
pub struct Grant;

impl Play<(), View> for Grant {
    ghost use Rattle.pool.specs.link_pool.Steps.{Granted};

    ghost then = { Granted };
}

/// Claims the next bytes.
pub struct Take;

impl Play<(), View> for Take {
    ghost use Rattle.pool.specs.link_pool.Steps.{Taken};

    ghost then = { Taken };
}

/// Cuts off the first taker that is left.
pub struct Deal;

impl Split<View> for Deal {
    ghost use Rattle.pool.specs.link_pool.Steps.{undealt, dealt};

    ghost left = { undealt };

    ghost right = { dealt };
}

/// Gives a taker back.
pub struct GiveBack;

impl Join<View> for GiveBack {
    ghost use Rattle.pool.specs.link_pool.Steps.{with_taker};
    ghost use Rattle.pool.specs.link_pool.Sharing.{blank};

    ghost both = { with_taker };

    ghost spent = { blank };
}
