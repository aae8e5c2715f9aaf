//! The rectangles of a walk that were decided last, and what they tell of another one.

ghost use Rattle.std.specs.Prelude.{◌≡◌, ◌≤◌, length, IfOk};
ghost use Rattle.lift_grid.specs.Rectangle.{spans_of};
ghost use Rattle.region_tree.specs.Recent.{HasAllPlaces, IsInferred, KeepsPlaces, Notes, NotesAccepted, NotesRejected, forgotten, most_ends};

use crate::recent::Recent;
use crate::side::Side;
use std::alloc::{AllocError, Global};

/// What is known of a rectangle before it is decided.
#[derive(Clone, Copy)]
pub struct Outlook {
    /// Whether it may have an accepting certificate.
    pub may_accept: bool,
    /// Whether it may have a rejecting certificate.
    pub may_reject: bool,
    /// Whether a rejecting certificate is to be looked for first.
    pub rejects_first: bool,
}

impl Outlook {
    /// Nothing is known.
    pub(crate) const OPEN: Outlook = Outlook {
        may_accept: true,
        may_reject: true,
        rejects_first: false,
    };
}

/// The rectangles of a walk that were decided last. It is seen as those of each kind.
#[derive(Drop)]
pub struct Decided {
    accepted: Recent,
    rejected: Recent,
    /// Whether the last one was rejected.
    rejects_first: bool,
}

impl std::marker::Model for Decided {
    ghost use Rattle.region_tree.specs.Recent.{DecidedData};

    ghost Value = { DecidedData };

    ghost view = { λ d. record {
      accepted = d.accepted;
      rejected = d.rejected;
    } };
}

impl Decided {
    /// None, with places for rectangles with so many ends. The one error is that memory runs out.
    pub(crate) fn none(alloc: Global, ends: usize) -> Result<Decided, AllocError>
        requires { ends ≤ most_ends }
        ensures { IfOk result (HasAllPlaces ends) }
    {
        Ok(Decided {
            accepted: Recent::none(alloc, ends)?,
            rejected: Recent::none(alloc, ends)?,
            rejects_first: false,
        })
    }

    /// Forgets all.
    pub(crate) fn forget(&mut self)
        ensures { self.new ≡ forgotten self.old }
    {
        self.accepted.forget();
        self.rejected.forget();
    }

    /// What they tell of the rectangle with these sides. Where the last one was rejected, a rejecting certificate is to
    /// be expected.
    pub(crate) fn outlook(&self, sides: &[i64]) -> Outlook
        requires { HasAllPlaces (length sides.now) self.now }
        ensures { IsInferred self.now (spans_of sides.now) result }
    {
        Outlook {
            may_accept: !self.rejected.meet(sides),
            may_reject: !self.accepted.meet(sides),
            rejects_first: self.rejects_first,
        }
    }

    /// Notes that the rectangle with these sides was accepted.
    pub(crate) fn note_accepted(&mut self, sides: &[i64])
        requires { HasAllPlaces (length sides.now) self.old }
        ensures places { KeepsPlaces self.old self.new }
        ensures notes { NotesAccepted sides.now self.old self.new }
    {
        self.accepted.note(sides);
        self.rejects_first = false;
    }

    /// Notes that it was rejected.
    pub(crate) fn note_rejected(&mut self, sides: &[i64])
        requires { HasAllPlaces (length sides.now) self.old }
        ensures places { KeepsPlaces self.old self.new }
        ensures notes { NotesRejected sides.now self.old self.new }
    {
        self.rejected.note(sides);
        self.rejects_first = true;
    }

    /// Notes from which side it was decided, if it was.
    pub(crate) fn note(&mut self, sides: &[i64], found: Option<Side>)
        requires { HasAllPlaces (length sides.now) self.old }
        ensures places { KeepsPlaces self.old self.new }
        ensures notes { Notes sides.now found self.old self.new }
    {
        match found {
            Some(Side::Above) => self.note_accepted(sides),
            Some(Side::Below(_)) => self.note_rejected(sides),
            None => {}
        }
    }
}
