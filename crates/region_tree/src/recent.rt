//! The rectangles of one kind that were noted last.

ghost use Rattle.std.specs.Prelude.{◌≡◌, ◌+◌, ◌<◌, ◌≤◌, ◌↔◌, ◌≤ℤ◌, ℕ, pos, length, replicate, slice_index_or, IfOk, IsTrue};
ghost use Rattle.lift_grid.specs.Rectangle.{spans_of};
ghost use Rattle.region_tree.specs.Recent.{HasPlaces, IsNoted, IsSameShape, Meet, MeetsOne, most_ends, most_noted};

use lift_pool::{Pool, lanes_stand_alone};
use std::alloc::{AllocError, Global};

/// How many rectangles are noted at most.
const PLACES: usize = 32;

/// The rectangles that were noted last, by their sides.
///
/// It is seen as a pool with a lane for each place, and how many of these are in use, from the first one on.
#[derive(Drop)]
pub(crate) struct Recent {
    sides: Pool<i64>,
    count: usize,
    /// Which place is used next, once all are in use.
    next: usize,
}

impl std::marker::Model for Recent {
    ghost use Rattle.std.specs.Prelude.{◌≤◌};
    ghost use Rattle.region_tree.specs.Recent.{RecentData, most_noted};

    ghost Value = { RecentData };

    ghost view = { λ r. record {
      sides = r.sides;
      count = r.count;
    } };

    ghost invariant = { λ r. r.count ≤ most_noted };
}

/// Whether two rectangles share a value of the parameter whose ends stand there.
#[inline(always)]
fn spans_meet(sides: &[i64], others: &[i64], at: usize) -> bool
    requires sides { at + 1 < length sides.now }
    requires others { at + 1 < length others.now }
    ensures { IsTrue result ↔ (slice_index_or sides.now at (pos 0) ≤ℤ slice_index_or others.now (at + 1) (pos 0))
        × (slice_index_or others.now at (pos 0) ≤ℤ slice_index_or sides.now (at + 1) (pos 0)) }
{
    sides[at] <= others[at + 1] && others[at] <= sides[at + 1]
}

/// Whether two rectangles with these sides share a valuation.
fn rectangles_meet(sides: &[i64], others: &[i64]) -> bool
    requires { length sides.now ≡ length others.now }
    ensures { IsTrue result ↔ Meet (spans_of sides.now) (spans_of others.now) }
{
    let mut at = 0;
    while at + 1 < sides.len() {
        if !spans_meet(sides, others, at) {
            return false;
        }
        at += 2;
    }
    true
}

/// Places for rectangles with so many ends.
fn places_for(alloc: Global, ends: usize) -> Result<Pool<i64>, AllocError>
    requires { ends ≤ most_ends }
    ensures { IfOk result (λ p. p.lanes ≡ replicate most_noted (replicate ends (pos 0))) }
{
    Pool::filled(alloc, PLACES, ends, 0)
}

/// How many places are in use once this one is, which is one of them or the next.
fn used_with(count: usize, place: usize) -> usize
    requires place { place < most_noted }
    requires next { place ≤ count }
    requires count { count ≤ most_noted }
    ensures used { place < result }
    ensures others { (i : ℕ) → i < result → (i ≡ place → ⊥) → i < count }
    ensures most { result ≤ most_noted }
{
    if place == count { count + 1 } else { count }
}

impl Recent {
    /// None, with places for rectangles with so many ends.
    pub(crate) fn none(alloc: Global, ends: usize) -> Result<Recent, AllocError>
        requires { ends ≤ most_ends }
        ensures places { IfOk result (HasPlaces ends) }
        ensures none { IfOk result (λ r. r.count ≡ 0) }
    {
        Ok(Recent {
            sides: places_for(alloc, ends)?,
            count: 0,
            next: 0,
        })
    }

    /// Forgets all.
    pub(crate) fn forget(&mut self)
        ensures { self.new ≡ record self.old { count = 0 } }
    {
        self.count = 0;
    }

    /// Whether one of them shares a valuation with the rectangle that has these sides.
    pub(crate) fn meet(&self, sides: &[i64]) -> bool
        requires { HasPlaces (length sides.now) self.now }
        ensures { IsTrue result ↔ MeetsOne (spans_of sides.now) self.now }
    {
        for i in 0..self.count {
            if rectangles_meet(self.sides.lane(i), sides) {
                return true;
            }
        }
        false
    }

    /// The place for one more: one that isn't in use, or that of the one that was noted first.
    fn place(&self) -> usize
        ensures place { result < most_noted }
        ensures used { result ≤ self.now.count }
    {
        if self.count < PLACES {
            self.count
        } else {
            self.next % PLACES
        }
    }

    /// Notes the rectangle with these sides.
    pub(crate) fn note(&mut self, sides: &[i64])
        requires { HasPlaces (length sides.now) self.old }
        ensures shape { IsSameShape self.old.sides self.new.sides }
        ensures noted { IsNoted sides.now self.old self.new }
    {
        lanes_stand_alone::<i64>();
        let place = self.place();
        self.sides.lane_mut(place).copy_from_slice(sides);
        self.count = used_with(self.count, place);
        self.next = place + 1;
    }
}
