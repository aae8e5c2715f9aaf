//! The table of a rectangle, and what is read of its rows.

ghost use Rattle.std.specs.Prelude.{◌≡◌, ℕ, ◌^◌, ◌<◌, ◌≤ℤ◌, ◌-ℤ◌, ◌*ℤ◌, ◌↔◌, pos, length, IsTrue};
ghost use Rattle.lift_grid.specs.Rectangle.{Spans};
ghost use Rattle.lift_model.specs.Model.{choices, row_at};
ghost use Rattle.lift_model.specs.Links.{ArePlaces, HasChoice, targets_of};
ghost use Rattle.corner_lift.specs.Corner.{corner_sum};
ghost use Rattle.corner_lift.specs.Certificate.{AreNumbers, mark, ranked_below};
ghost use Rattle.corner_lift.specs.Case.{IsCase, number, IsGreatest, IsLeast, BoundsAbove, BoundsBelow, row_value, row_whole, corner_count};
ghost use Rattle.corner_lift.specs.Table.{IsWhole, HasShortSums, loop_weight};
ghost use Rattle.corner_lift.specs.Lifted.{IsLiftedTo, lifted};
ghost use Rattle.corner_lift.specs.ReadRow.{IsReadRow};

use crate::case::Case;
use crate::laws::{premises, rows_at_corners};
use crate::pairs::{block_of, greatest_pair, is_pair_capped, least_pair, least_pair_into};
use crate::table::{
    corner_of, greatest_of, is_narrow, least_of, others_in_lane, sum_at, sum_of, times, total_of,
};
use crate::within::{are_at_least, are_at_most, is_below, least_below};
use lift_model::{Links, RowPlace};

/// A weighted sum of a row, and its whole: what the weights alone sum to, at each corner.
#[derive(Clone, Copy)]
pub struct Weighed {
    /// The sum.
    pub sum: i128,
    /// The whole, at least 1.
    pub whole: i128,
}

/// What a row weighs at one of its corners: a weighted sum, the whole, and the weight of its self loop.
#[derive(Clone, Copy)]
pub struct AtCorner {
    /// The sum.
    pub sum: i128,
    /// The whole, at least 1.
    pub whole: i128,
    /// The weight into the state that has the row.
    pub own: i128,
}

/// What a row weighs at one of its corners into other states than its own: a weighted sum, and the weights alone.
#[derive(Clone, Copy)]
pub struct Others {
    /// The sum, at least 0.
    pub sum: i64,
    /// What the weights alone sum to, at least 0.
    pub whole: i64,
}

/// The table of a rectangle: a case, what is looked up of its model, and the weights of its rows at the corners of the
/// rectangle. A vector has one number for each state, of which 2 to the `w` stands for 1.
#[derive(Drop)]
pub struct CornerTable<'a> {
    case: &'a Case<'a>,
    links: &'a Links,
    weights: &'a [i128],
}

impl<'a> std::marker::Model for CornerTable<'a> {
    ghost use Rattle.corner_lift.specs.Lifted.{LiftedData, IsPlaced, lifted};

    ghost Value = { LiftedData };

    ghost view = { λ t. lifted t.case.now t.links.now t.weights.now };

    ghost invariant = { λ t. IsPlaced t.case.now t.links.now };
}

/// A row of the table of a rectangle.
#[derive(Clone, Copy)]
pub(crate) struct TableRow<'a> {
    /// The weights of all rows.
    pub(crate) weights: &'a [i128],
    /// Where those of this one stand.
    pub(crate) place: RowPlace,
    /// Its targets.
    pub(crate) targets: &'a [u32],
    /// The precision of a vector's numbers.
    pub(crate) w: u32,
}

impl<'a> CornerTable<'a> {
    /// The table of the rectangle whose weights these are. Takes no memory.
    #[inline(always)]
    pub fn new(case: &'a Case<'a>, links: &'a Links, weights: &'a [i128]) -> CornerTable<'a>
        requires { ArePlaces case.now.model links.now }
        ensures { result ≡ lifted case.now links.now weights.now }
    {
        let _ = case.w();
        CornerTable {
            case,
            links,
            weights,
        }
    }

    /// The case.
    #[inline(always)]
    pub fn case(&self) -> &'a Case<'a>
        ensures value { result.now ≡ self.now.case }
        ensures case { IsCase self.now.case }
    {
        self.case
    }

    /// How many choices a state has, by the links, whose lists lie closer together than the model's.
    #[inline(always)]
    pub fn choice_count(&self, s: u32) -> u32
        requires { s < length self.now.case.model.states }
        ensures { result ≡ length (choices self.now.case.model s) }
    {
        self.links.choices(s)
    }

    /// The targets of the row of a state's choice.
    #[inline(always)]
    pub fn targets(&self, s: u32, a: u32) -> &'a [u32]
        requires { HasChoice self.now.case.model s a }
        ensures { result.now ≡ targets_of (row_at self.now.case.model s a) }
    {
        self.links.targets(self.links.place(s, a))
    }

    /// The row of a state's choice.
    #[inline]
    pub(crate) fn row(&self, s: u32, a: u32) -> TableRow<'a>
        ghost spans: { Spans }
        requires lifted { IsLiftedTo self.now spans }
        requires row { HasChoice self.now.case.model s a }
        ensures row { IsReadRow self.now.case spans result.weights.now s a result.place result.targets.now }
        ensures weights { result.weights.now ≡ self.now.weights }
        ensures w { result.w ≡ self.now.case.w }
    {
        premises();
        let w = self.case.w();
        let place = self.links.place(s, a);
        TableRow {
            weights: self.weights,
            place,
            targets: self.links.targets(place),
            w,
        }
    }

    /// The whole of a row, and its greatest sum over the corners. One multiplication for each entry and corner.
    #[inline(always)]
    pub fn greatest(&self, s: u32, a: u32, vec: &[i64]) -> Weighed
        ghost spans: { Spans }
        requires lifted { IsLiftedTo self.now spans }
        requires row { HasChoice self.now.case.model s a }
        requires numbers { AreNumbers self.now.case vec.now }
        ensures greatest { IsGreatest (row_value self.now.case spans s a vec.now) (corner_count self.now.case s a) result.sum }
        ensures range { (pos 0 ≤ℤ result.sum) × (result.sum ≤ℤ (pos (2 ^ self.now.case.w) *ℤ row_whole self.now.case s a)) }
        ensures bound { BoundsAbove self.now.case spans s a vec.now result.sum }
        ensures whole { IsWhole self.now.case s a result.whole }
    {
        premises();
        let row = self.row(s, a);
        if row.targets.len() == 2 {
            let first = vec[row.targets[0] as usize];
            let second = vec[row.targets[1] as usize];
            return greatest_pair(block_of(row.weights, row.place), first, second, row.w);
        }
        let whole = total_of(corner_of(row.weights, row.place, 0));
        let narrow = is_narrow(whole, row.w);
        let sum = greatest_of(row.weights, row.place, row.targets, vec, narrow);
        Weighed { sum, whole }
    }

    /// The whole of a row, and its least sum over the corners. One multiplication for each entry and corner.
    #[inline(always)]
    pub fn least(&self, s: u32, a: u32, vec: &[i64]) -> Weighed
        ghost spans: { Spans }
        requires lifted { IsLiftedTo self.now spans }
        requires row { HasChoice self.now.case.model s a }
        requires numbers { AreNumbers self.now.case vec.now }
        ensures least { IsLeast (row_value self.now.case spans s a vec.now) (corner_count self.now.case s a) result.sum }
        ensures bound { BoundsBelow self.now.case spans s a vec.now result.sum }
        ensures whole { IsWhole self.now.case s a result.whole }
    {
        premises();
        let row = self.row(s, a);
        if row.targets.len() == 2 {
            let first = vec[row.targets[0] as usize];
            let second = vec[row.targets[1] as usize];
            return least_pair(block_of(row.weights, row.place), first, second, row.w);
        }
        let whole = total_of(corner_of(row.weights, row.place, 0));
        let narrow = is_narrow(whole, row.w);
        let sum = least_of(row.weights, row.place, row.targets, vec, narrow);
        Weighed { sum, whole }
    }

    /// What a row weighs at a corner: a weighted sum, the whole, and the weight of its self loop. One multiplication for
    /// each entry.
    #[inline]
    pub fn corner(&self, s: u32, a: u32, corner: u32, vec: &[i64]) -> AtCorner
        ghost spans: { Spans }
        requires lifted { IsLiftedTo self.now spans }
        requires row { HasChoice self.now.case.model s a }
        requires corner { corner < corner_count self.now.case s a }
        requires numbers { AreNumbers self.now.case vec.now }
        ensures sum { result.sum ≡ row_value self.now.case spans s a vec.now corner }
        ensures whole { IsWhole self.now.case s a result.whole }
        ensures own { result.own ≡ loop_weight self.now.case spans s a corner }
    {
        let row = self.row(s, a);
        let whole = total_of(corner_of(row.weights, row.place, 0));
        let part = corner_of(row.weights, row.place, corner);
        let narrow = is_narrow(whole, row.w);
        let sum = sum_of(part, row.targets, vec, narrow);
        let own = sum_at(part, row.targets, s);
        AtCorner { sum, whole, own }
    }

    /// What a row weighs at a corner into other states than its own, where 64 bits hold its sums. One multiplication for
    /// each entry.
    #[inline]
    pub fn others(&self, s: u32, a: u32, corner: u32, vec: &[i64]) -> Others
        ghost spans: { Spans }
        requires lifted { IsLiftedTo self.now spans }
        requires row { HasChoice self.now.case.model s a }
        requires corner { corner < corner_count self.now.case s a }
        requires numbers { AreNumbers self.now.case vec.now }
        requires narrow { HasShortSums self.now.case s a }
        ensures sum { result.sum ≡ row_value self.now.case spans s a vec.now corner
            -ℤ (number vec.now s *ℤ loop_weight self.now.case spans s a corner) }
        ensures whole { result.whole ≡ row_whole self.now.case s a -ℤ loop_weight self.now.case spans s a corner }
        ensures least { (pos 0 ≤ℤ result.sum) × (pos 0 ≤ℤ result.whole) }
    {
        let row = self.row(s, a);
        others_in_lane(
            corner_of(row.weights, row.place, corner),
            row.targets,
            s,
            vec,
        )
    }

    /// Whether a row's weighted mean is at most the number, from 0 to 2 to the `w`, at each corner. Where no target's
    /// number is above it, nothing is weighed.
    #[inline]
    pub fn is_capped(&self, s: u32, a: u32, vec: &[i64], number: i64) -> bool
        ghost spans: { Spans }
        requires lifted { IsLiftedTo self.now spans }
        requires row { HasChoice self.now.case.model s a }
        requires numbers { AreNumbers self.now.case vec.now }
        requires number { (pos 0 ≤ℤ number) × (number ≤ℤ pos (2 ^ self.now.case.w)) }
        ensures { IsTrue result ↔ ((c : ℕ) → c < corner_count self.now.case s a
            → row_value self.now.case spans s a vec.now c ≤ℤ (number *ℤ row_whole self.now.case s a)) }
    {
        rows_at_corners();
        let row = self.row(s, a);
        if are_at_most(row.targets, vec, number) {
            return true;
        }
        if row.targets.len() == 2 {
            let first = vec[row.targets[0] as usize];
            let second = vec[row.targets[1] as usize];
            return is_pair_capped(
                block_of(row.weights, row.place),
                first,
                second,
                number,
                row.w,
            );
        }
        let whole = total_of(corner_of(row.weights, row.place, 0));
        let narrow = is_narrow(whole, row.w);
        greatest_of(row.weights, row.place, row.targets, vec, narrow) <= times(whole, number)
    }

    /// Whether a row's weighted mean is at least the number, from 0 to 2 to the `w`, at each corner. Where no target's
    /// number is below it, nothing is weighed.
    #[inline]
    pub fn is_held(&self, s: u32, a: u32, vec: &[i64], number: i64) -> bool
        ghost spans: { Spans }
        requires lifted { IsLiftedTo self.now spans }
        requires row { HasChoice self.now.case.model s a }
        requires numbers { AreNumbers self.now.case vec.now }
        requires number { (pos 0 ≤ℤ number) × (number ≤ℤ pos (2 ^ self.now.case.w)) }
        ensures { IsTrue result ↔ ((c : ℕ) → c < corner_count self.now.case s a
            → (number *ℤ row_whole self.now.case s a) ≤ℤ row_value self.now.case spans s a vec.now c) }
    {
        rows_at_corners();
        let row = self.row(s, a);
        if are_at_least(row.targets, vec, number) {
            return true;
        }
        if row.targets.len() == 2 {
            let first = vec[row.targets[0] as usize];
            let second = vec[row.targets[1] as usize];
            return is_pair_capped(
                block_of(row.weights, row.place),
                -first,
                -second,
                -number,
                row.w,
            );
        }
        let whole = total_of(corner_of(row.weights, row.place, 0));
        let narrow = is_narrow(whole, row.w);
        times(whole, number) <= least_of(row.weights, row.place, row.targets, vec, narrow)
    }

    /// The least weight of a row into states of rank below `below` over its corners, and the row's whole. No
    /// multiplication.
    #[inline(always)]
    pub fn least_into(&self, s: u32, a: u32, ranks: &[u32], below: u32) -> Weighed
        ghost spans: { Spans }
        requires lifted { IsLiftedTo self.now spans }
        requires row { HasChoice self.now.case.model s a }
        requires ranks { length ranks.now ≡ length self.now.case.model.states }
        ensures least { IsLeast
            (λ c. corner_sum self.now.case.d spans (row_at self.now.case.model s a) c (ranked_below (mark ranks.now) below))
            (corner_count self.now.case s a) result.sum }
        ensures whole { IsWhole self.now.case s a result.whole }
    {
        let row = self.row(s, a);
        if row.targets.len() == 2 {
            let first = is_below(ranks, row.targets[0], below);
            let second = is_below(ranks, row.targets[1], below);
            return least_pair_into(block_of(row.weights, row.place), first, second);
        }
        let whole = total_of(corner_of(row.weights, row.place, 0));
        let sum = least_below(row.weights, row.place, row.targets, ranks, below);
        Weighed { sum, whole }
    }
}
