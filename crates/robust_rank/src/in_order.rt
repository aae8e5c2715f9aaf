//! Ranks in one pass over the links' order, where the targets of each state come before it, but for itself.

ghost use Rattle.std.specs.Prelude.{◌≡◌, ℕ, ◌+◌, ◌<◌, ◌≤◌, ◌⊎◌, length, All, IsTrue, IfSome};
ghost use Rattle.lift_grid.specs.Rectangle.{Spans};
ghost use Rattle.lift_model.specs.Model.{row_at, row_count};
ghost use Rattle.lift_model.specs.Links.{AreLinks, HasChoice, targets_of};
ghost use Rattle.lift_model.specs.OnlyRow.{IsPairRow, IsSingleRow};
ghost use Rattle.corner_lift.specs.Case.{IsInside};
ghost use Rattle.corner_lift.specs.Certificate.{mark};
ghost use Rattle.robust_rank.specs.Attracting.{Pass};
ghost use Rattle.robust_rank.specs.Staging.{allows, CanRankBy};
ghost use Rattle.robust_rank.specs.InOrder.{unseen, IsFound, IsGiven, IsPassed, AreRanks, IsNext, AreClear, AreTargetsClear, HaveRanks};

use crate::marks::{NONE, mark_of};
use crate::rows::{Choices, Rows};
use corner_lift::rows_at_corners;
use lift_model::{OnlyRow, PairRow};

/// In place of the rank of a state that the pass hasn't come to.
const UNSEEN: u32 = NONE - 1;

/// The rank after a rank, and none after none. Nothing where it is too great to be told from `UNSEEN`.
#[inline(always)]
fn next_rank(rank: u32) -> Option<u32>
    ensures { IfSome result (IsNext rank) }
{
    if rank == NONE {
        return Some(NONE);
    }
    if rank < UNSEEN - 1 {
        return Some(rank + 1);
    }
    None
}

/// The rank where it is at least `from` and less than `least`, and else `least`.
#[inline(always)]
fn lesser_from(rank: u32, from: u32, least: u32) -> u32
    requires { from ≤ least }
    ensures range { (from ≤ result) × (result ≤ least) }
    ensures least { (rank < from) ⊎ (result ≤ rank) }
    ensures is { (result ≡ rank) ⊎ (result ≡ least) }
{
    if from <= rank && rank < least {
        return rank;
    }
    least
}

/// The least of these states' ranks from `from` on, and `least` where none is less. Nothing where one of
/// the states is unseen.
#[inline(always)]
fn least_of_targets(targets: &[u32], ranks: &[u32], from: u32, least: u32) -> Option<u32>
    requires inside { All (λ t. t < length ranks.now) targets.now }
    requires from { from ≤ least }
    ensures range { IfSome result (λ to. (from ≤ to) × (to ≤ least)) }
    ensures clear { IfSome result (λ to. AreClear (mark ranks.now) from to targets.now) }
{
    let mut to = least;
    for target in targets {
        let rank = mark_of(ranks, *target as usize);
        if rank == UNSEEN {
            return None;
        }
        to = lesser_from(rank, from, to);
    }
    Some(to)
}

/// The ranks of two states.
#[derive(Clone, Copy)]
struct TwoRanks {
    /// The lesser one.
    low: u32,
    /// The greater one.
    high: u32,
}

/// Makes all states unseen.
fn forget(ranks: &mut [u32])
    ensures { (s : ℕ) → s < length ranks.old → mark ranks.new s ≡ unseen }
{
    for s in 0..ranks.len() {
        ranks[s] = UNSEEN;
    }
}

impl Rows<'_> {
    /// The least rank from `from` on that a target of the state has, and none where there is no such rank.
    /// Nothing where a target is unseen.
    #[inline(always)]
    fn least_of_choices(&self, s: u32, ranks: &[u32], from: u32) -> Option<u32>
        requires links { AreLinks self.now.case.now.model self.now.links.now }
        requires state { s < length self.now.case.now.model.states }
        requires ranks { length ranks.now ≡ length self.now.case.now.model.states }
        ensures range { IfSome result (λ to. from ≤ to) }
        ensures clear { IfSome result (λ to. AreTargetsClear self.now.case.now.model (mark ranks.now) from to s) }
    {
        let _ = self.case.w();
        let mut to = NONE;
        for a in 0..self.choice_count(s) {
            to = least_of_targets(self.targets(s, a), ranks, from, to)?;
        }
        Some(to)
    }
}

impl Choices<'_, '_> {
    /// The rank of a state by all its choices: the rank after the least rank of a target that is enough.
    /// Nothing where a target is unseen.
    #[inline(never)]
    fn rank_by_choices(&self, s: u32, ranks: &[u32]) -> Option<u32>
        ghost spans: { Spans }
        requires rows { CanRankBy self.now spans }
        requires state { s < length self.now.rows.case.now.model.states }
        requires ranks { length ranks.now ≡ length self.now.rows.case.now.model.states }
        ensures { IfSome result (IsFound self.now.rows.case.now spans self.now.allowed.now (mark ranks.now) s) }
    {
        let mut from = 0;
        loop {
            let least = self.rows.least_of_choices(s, ranks, from)?;
            if least == NONE {
                return Some(NONE);
            }
            match self.leading_of_choices(s, ranks, least + 1) {
                Some(_) => return next_rank(least),
                None => from = least + 1,
            }
        }
    }

    /// The rank of a state whose only row, which is allowed, leads to two states of these ranks, if that is
    /// quickly told, and else by all its choices.
    #[inline(always)]
    fn rank_between(&self, s: u32, row: PairRow, ranks: &[u32], two: TwoRanks) -> Option<u32>
        ghost spans: { Spans }
        requires rows { CanRankBy self.now spans }
        requires state { s < length self.now.rows.case.now.model.states }
        requires row { IsPairRow self.now.rows.case.now.model self.now.rows.links.now s row }
        requires ranks { length ranks.now ≡ length self.now.rows.case.now.model.states }
        requires is_allowed { Pass (allows self.now.rows.case.now.model self.now.allowed.now) s 0 }
        requires have { (two.low ≤ two.high)
            × HaveRanks (mark ranks.now) two.low two.high (targets_of (row_at self.now.rows.case.now.model s 0)) }
        ensures { IfSome result (IsFound self.now.rows.case.now spans self.now.allowed.now (mark ranks.now) s) }
    {
        rows_at_corners();
        let _ = self.rows.case.w();
        let TwoRanks { low, high } = two;
        if low == NONE {
            return Some(NONE);
        }
        if let Some(leads) = self.rows.pair_leads(s, row, ranks, low + 1) {
            if leads {
                return next_rank(low);
            }
            return next_rank(high);
        }
        self.rank_by_choices(s, ranks)
    }

    /// The rank of a state whose only row has two entries. Nothing where a target is unseen.
    #[inline(always)]
    fn rank_of_pair(&self, s: u32, row: PairRow, ranks: &[u32]) -> Option<u32>
        ghost spans: { Spans }
        requires rows { CanRankBy self.now spans }
        requires state { s < length self.now.rows.case.now.model.states }
        requires row { IsPairRow self.now.rows.case.now.model self.now.rows.links.now s row }
        requires ranks { length ranks.now ≡ length self.now.rows.case.now.model.states }
        ensures { IfSome result (IsFound self.now.rows.case.now spans self.now.allowed.now (mark ranks.now) s) }
    {
        let _ = self.rows.case.w();
        let first = mark_of(ranks, row.first as usize);
        let second = mark_of(ranks, row.second as usize);
        if first == UNSEEN || second == UNSEEN {
            return None;
        }
        if !self.is_allowed(s, 0) {
            return Some(NONE);
        }
        let low = first.min(second);
        let high = first.max(second);
        self.rank_between(s, row, ranks, TwoRanks { low, high })
    }

    /// The rank of a state whose only row leads to one other state. Nothing where that is unseen.
    #[inline(always)]
    fn rank_of_single(&self, s: u32, target: u32, ranks: &[u32]) -> Option<u32>
        ghost spans: { Spans }
        requires links { AreLinks self.now.rows.case.now.model self.now.rows.links.now }
        requires inside { IsInside self.now.rows.case.now.root spans }
        requires rows { length self.now.allowed.now ≡ row_count self.now.rows.case.now.model }
        requires state { s < length self.now.rows.case.now.model.states }
        requires row { IsSingleRow self.now.rows.case.now.model s target }
        requires ranks { length ranks.now ≡ length self.now.rows.case.now.model.states }
        ensures { IfSome result (IsFound self.now.rows.case.now spans self.now.allowed.now (mark ranks.now) s) }
    {
        rows_at_corners();
        let _ = self.rows.case.w();
        let rank = mark_of(ranks, target as usize);
        if rank == UNSEEN {
            return None;
        }
        if !self.is_allowed(s, 0) {
            return Some(NONE);
        }
        next_rank(rank)
    }

    /// The rank of a state that is no goal state. Nothing where a target is unseen.
    #[inline(always)]
    fn rank_of_other(&self, s: u32, ranks: &[u32]) -> Option<u32>
        ghost spans: { Spans }
        requires rows { CanRankBy self.now spans }
        requires state { s < length self.now.rows.case.now.model.states }
        requires ranks { length ranks.now ≡ length self.now.rows.case.now.model.states }
        ensures { IfSome result (IsFound self.now.rows.case.now spans self.now.allowed.now (mark ranks.now) s) }
    {
        match self.rows.links.only_row(s) {
            OnlyRow::Single(target) => self.rank_of_single(s, target, ranks),
            OnlyRow::Pair(row) => self.rank_of_pair(s, row, ranks),
            OnlyRow::Other => self.rank_by_choices(s, ranks),
        }
    }

    /// The rank of a state. Nothing where a target is unseen.
    #[inline(always)]
    fn rank_of(&self, s: u32, ranks: &[u32]) -> Option<u32>
        ghost spans: { Spans }
        requires rows { CanRankBy self.now spans }
        requires state { s < length self.now.rows.case.now.model.states }
        requires ranks { length ranks.now ≡ length self.now.rows.case.now.model.states }
        ensures { IfSome result (IsGiven self.now.rows.case.now spans self.now.allowed.now (mark ranks.now) s) }
    {
        if self.rows.case.model().is_goal(s) {
            return Some(0);
        }
        self.rank_of_other(s, ranks)
    }

    /// Gives the state at the position its rank, and tells whether it has one: not where a target is unseen.
    /// The state itself counts as seen, without rank.
    #[inline(always)]
    fn give_rank(&self, position: usize, ranks: &mut [u32]) -> bool
        ghost spans: { Spans }
        requires rows { CanRankBy self.now spans }
        requires position { position < length self.now.rows.links.now.order }
        requires passed { IsPassed self.now.rows.case.now self.now.rows.links.now spans self.now.allowed.now ranks.old position }
        ensures { IsTrue result
            → IsPassed self.now.rows.case.now self.now.rows.links.now spans self.now.allowed.now ranks.new (position + 1) }
    {
        let s = self.rows.links.order()[position];
        if s >= self.rows.case.model().states() {
            return false;
        }
        ranks[s as usize] = NONE;
        match self.rank_of(s, ranks) {
            Some(rank) => {
                ranks[s as usize] = rank;
                true
            }
            None => false,
        }
    }

    /// Gives each state its rank in one pass, and tells whether it could: not where a state comes before one
    /// of its targets.
    #[inline(never)]
    pub(crate) fn rank_in_order(&self, ranks: &mut [u32]) -> bool
        ghost spans: { Spans }
        requires rows { CanRankBy self.now spans }
        requires sizes { length ranks.old ≡ length self.now.rows.case.now.model.states }
        ensures { IsTrue result → AreRanks self.now.rows.case.now spans self.now.allowed.now ranks.new }
    {
        forget(ranks);
        for position in 0..self.rows.links.order().len() {
            if !self.give_rank(position, ranks) {
                return false;
            }
        }
        true
    }
}
