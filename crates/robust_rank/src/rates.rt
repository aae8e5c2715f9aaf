ghost use Rattle.std.specs.Prelude.{◌≡◌, ◌≤◌, ◌<◌, ◌^◌, ◌*ℤ◌, ◌≤ℤ◌, ◌<ℤ◌, pos, length, IfSome, IsSome, IsTrue};
ghost use Rattle.lift_grid.specs.Rectangle.{Spans};
ghost use Rattle.lift_model.specs.Model.{choices};
ghost use Rattle.lift_model.specs.Links.{AreLinks, HasChoice};
ghost use Rattle.lift_model.specs.OnlyRow.{IsPairRow, IsSingleRow};
ghost use Rattle.corner_lift.specs.Case.{IsInside, engine_limit};
ghost use Rattle.corner_lift.specs.Certificate.{mark, most_rate};
ghost use Rattle.corner_lift.specs.Stages.{LeadsBelow};
ghost use Rattle.corner_lift.specs.Table.{IsTable};
ghost use Rattle.robust_rank.specs.Rate.{AreChoices, IsRowRate, IsStateRate, IsFirstFrom, IsLeastRate};

use crate::marks::{NONE, mark_of};
use crate::ranking::are_both_below;
use crate::rows::Rows;
use corner_lift::{Case, PairTable, Weighed, is_enough, least_into, rows_at_corners};
use lift_model::{Links, OnlyRow, PairRow};

/// The greatest rate that there is need of.
const MOST_RATE: u32 = 126;

/// How often `weight` is to be doubled to be at least the whole, but at least `first` times.
#[inline(never)]
fn doublings(weight: i128, whole: i128, first: u32) -> u32
    requires weight { pos 1 ≤ℤ weight }
    requires whole { (pos 1 ≤ℤ whole) × (whole <ℤ pos engine_limit) }
    requires first { first ≤ most_rate }
    ensures least { IsFirstFrom (λ e. whole ≤ℤ (weight *ℤ pos (2 ^ e))) first result }
    ensures most { result ≤ most_rate }
{
    for e in first..MOST_RATE {
        if is_enough(weight, e, whole) {
            return e;
        }
    }
    MOST_RATE
}

/// Whether `weight` is surely enough when it is doubled `e` times: at least the whole. No product is formed, and of 64
/// doublings or more it says nothing.
#[inline(always)]
fn is_surely_enough(weight: i64, e: u32, whole: i64) -> bool
    requires weight { pos 1 ≤ℤ weight }
    requires whole { pos 1 ≤ℤ whole }
    ensures { IsTrue result → whole ≤ℤ (weight *ℤ pos (2 ^ e)) }
{
    let below = (whole - 1).unsigned_abs();
    e < 64 && below >> e < weight.unsigned_abs()
}

/// The same of numbers that 64 bits hold. Most often `first` doublings are enough.
#[inline(always)]
fn short_doublings(weight: i64, whole: i64, first: u32) -> u32
    requires weight { pos 1 ≤ℤ weight }
    requires whole { pos 1 ≤ℤ whole }
    requires first { first ≤ most_rate }
    ensures least { IsFirstFrom (λ e. whole ≤ℤ (weight *ℤ pos (2 ^ e))) first result }
    ensures most { result ≤ most_rate }
{
    if is_surely_enough(weight, first, whole) {
        return first;
    }
    doublings(i128::from(weight), i128::from(whole), first)
}

/// The least rate of the only row of a state, which leads to that state alone, but at least `first`.
#[inline(always)]
fn rate_of_single(case: &Case, ranks: &[u32], s: u32, target: u32, first: u32) -> u32
    ghost spans: { Spans }
    requires inside { IsInside case.now.root spans }
    requires state { s < length case.now.model.states }
    requires row { IsSingleRow case.now.model s target }
    requires ranks { length ranks.now ≡ length case.now.model.states }
    requires leads { LeadsBelow case.now spans (mark ranks.now) (mark ranks.now s) s 0 }
    requires first { first ≤ most_rate }
    ensures least { IsFirstFrom (IsRowRate case.now spans ranks.now s 0) first result }
    ensures most { result ≤ most_rate }
{
    rows_at_corners();
    let _ = case.w();
    first
}

impl Rows<'_> {
    /// The least rate of the state's choice, but at least `first`.
    #[inline(never)]
    fn rate_of_row(&self, ranks: &[u32], s: u32, a: u32, first: u32) -> u32
        ghost spans: { Spans }
        requires links { AreLinks self.now.case.now.model self.now.links.now }
        requires table { IsTable self.now.case.now self.now.links.now spans self.now.weights.now }
        requires row { HasChoice self.now.case.now.model s a }
        requires ranks { length ranks.now ≡ length self.now.case.now.model.states }
        requires leads { LeadsBelow self.now.case.now spans (mark ranks.now) (mark ranks.now s) s a }
        requires first { first ≤ most_rate }
        ensures least { IsFirstFrom (IsRowRate self.now.case.now spans ranks.now s a) first result }
        ensures most { result ≤ most_rate }
    {
        rows_at_corners();
        let _ = self.case.w();
        let rank = mark_of(ranks, s as usize);
        if self.leads_only_below(s, a, ranks, rank) {
            return first;
        }
        let weights = self.weights.weights();
        let Weighed { sum, whole } = least_into(self.case, self.links, weights, s, a, ranks, rank);
        doublings(sum, whole, first)
    }

    /// The least rate of the only row of a state, which has two entries, if that is quickly told, but at least `first`.
    #[inline(always)]
    fn rate_of_pair(&self, ranks: &[u32], s: u32, row: PairRow, first: u32) -> Option<u32>
        ghost spans: { Spans }
        requires links { AreLinks self.now.case.now.model self.now.links.now }
        requires table { IsTable self.now.case.now self.now.links.now spans self.now.weights.now }
        requires state { s < length self.now.case.now.model.states }
        requires row { IsPairRow self.now.case.now.model self.now.links.now s row }
        requires ranks { length ranks.now ≡ length self.now.case.now.model.states }
        requires leads { LeadsBelow self.now.case.now spans (mark ranks.now) (mark ranks.now s) s 0 }
        requires first { first ≤ most_rate }
        ensures least { IfSome result (IsFirstFrom (IsRowRate self.now.case.now spans ranks.now s 0) first) }
        ensures most { IfSome result (λ rate. rate ≤ most_rate) }
    {
        rows_at_corners();
        let _ = self.case.w();
        let rank = mark_of(ranks, s as usize);
        if are_both_below(row, ranks, rank) {
            return Some(first);
        }
        let row = self
            .weights
            .least_into_of(self.case, self.links, s, row, ranks, rank)?;
        Some(short_doublings(row.sum, row.whole, first))
    }

    /// The least rate of the only row of a state, if that is quickly told, but at least `first`.
    #[inline(always)]
    fn rate_of_only(&self, ranks: &[u32], s: u32, first: u32) -> Option<u32>
        ghost spans: { Spans }
        requires links { AreLinks self.now.case.now.model self.now.links.now }
        requires table { IsTable self.now.case.now self.now.links.now spans self.now.weights.now }
        requires state { s < length self.now.case.now.model.states }
        requires ranks { length ranks.now ≡ length self.now.case.now.model.states }
        requires leads { length (choices self.now.case.now.model s) ≡ 1
            → LeadsBelow self.now.case.now spans (mark ranks.now) (mark ranks.now s) s 0 }
        requires first { first ≤ most_rate }
        ensures only { IsSome result → length (choices self.now.case.now.model s) ≡ 1 }
        ensures least { IfSome result (IsFirstFrom (IsRowRate self.now.case.now spans ranks.now s 0) first) }
        ensures most { IfSome result (λ rate. rate ≤ most_rate) }
    {
        match self.links.only_row(s) {
            OnlyRow::Single(target) => Some(rate_of_single(self.case, ranks, s, target, first)),
            OnlyRow::Pair(row) => self.rate_of_pair(ranks, s, row, first),
            OnlyRow::Other => None,
        }
    }

    /// The least rate of the state's chosen row, but at least `first`, which it is where the state has no chosen row.
    #[inline(always)]
    fn rate_of_state(&self, ranks: &[u32], picks: &[u32], s: u32, first: u32) -> u32
        ghost spans: { Spans }
        requires links { AreLinks self.now.case.now.model self.now.links.now }
        requires table { IsTable self.now.case.now self.now.links.now spans self.now.weights.now }
        requires picks { AreChoices self.now.case.now spans ranks.now picks.now }
        requires state { s < length self.now.case.now.model.states }
        requires first { first ≤ most_rate }
        ensures least { IsFirstFrom (IsStateRate self.now.case.now spans ranks.now picks.now s) first result }
        ensures most { result ≤ most_rate }
    {
        let pick = mark_of(picks, s as usize);
        if pick == NONE {
            return first;
        }
        match self.rate_of_only(ranks, s, first) {
            Some(rate) => rate,
            None => self.rate_of_row(ranks, s, pick, first),
        }
    }
}

/// The least e at which, at each corner of the row that a state picks, the weight into states of lower
/// rank times 2 to the `e` is at least the whole. It is at most 126, and 0 where no state has a chosen row.
///
/// `weights` is the table of some sides inside the root, and `links` are those of the case's model.
/// `ranks` and `picks` have one place for each state. A chosen row is `u32::MAX`, which is none, or a choice
/// with positive weight into states of lower rank at each of its corners. Takes no memory.
pub fn rate(case: &Case, links: &Links, weights: &[i128], ranks: &[u32], picks: &[u32]) -> u32
    ghost spans: { Spans }
    requires links { AreLinks case.now.model links.now }
    requires table { IsTable case.now links.now spans weights.now }
    requires picks { AreChoices case.now spans ranks.now picks.now }
    ensures least { IsLeastRate case.now spans ranks.now picks.now result }
    ensures most { result ≤ most_rate }
{
    let _ = case.w();
    let pairs = PairTable::of(case, links, weights);
    let rows = Rows {
        case: &*case,
        links: &*links,
        weights: &pairs,
    };
    let mut e = 0;
    for s in 0..case.model().states() {
        e = rows.rate_of_state(ranks, picks, s, e);
    }
    e
}
