//! A case lifted to a rectangle: what those read of its rows that iterate over the states.

ghost use Rattle.std.specs.Prelude.{◌≡◌, ◌^◌, ◌<◌, ◌≤ℤ◌, ◌*ℤ◌, ◌↔◌, ℕ, pos, length, Contains, IfSome, IsTrue, IsFalse, [], ◌∷◌};
ghost use Rattle.lift_grid.specs.Rectangle.{Spans};
ghost use Rattle.lift_model.specs.Model.{choices, row_at};
ghost use Rattle.lift_model.specs.Links.{AreLinks, HasChoice, position, positions_before, row_number, targets_of};
ghost use Rattle.lift_model.specs.OnlyRow.{IsOnlyRow, IsPairRow};
ghost use Rattle.corner_lift.specs.Corner.{corner_sum};
ghost use Rattle.corner_lift.specs.Certificate.{AreNumbers, mark, ranked_below};
ghost use Rattle.corner_lift.specs.Case.{IsCase, IsGreatest, IsLeast, BoundsAbove, BoundsBelow, row_value, row_whole, corner_count};
ghost use Rattle.corner_lift.specs.Table.{IsWhole, loop_weight};
ghost use Rattle.corner_lift.specs.Paired.{IsWholeOver};
ghost use Rattle.corner_lift.specs.Lifted.{IsLiftedTo, StandsAt, lifted};

use crate::case::Case;
use crate::corner_table::{AtCorner, CornerTable, Weighed};
use crate::laws::premises;
use crate::paired::{LaneSum, PairTable};
use crate::precision::one_at;
use crate::table::{table_into, table_value, table_whole};
use crate::within::is_below;
use lift_model::{Links, Model, OnlyRow, PairRow};

/// A case lifted to a rectangle: the case, what is looked up of its model, and the weights of its rows at the corners of
/// the rectangle, with those of two entries looked up. A vector has one number for each state, of which 2 to the `w`
/// stands for 1.
#[derive(Drop)]
pub struct Lifted<'a> {
    case: &'a Case<'a>,
    links: &'a Links,
    pairs: PairTable<'a>,
}

impl<'a> std::marker::Model for Lifted<'a> {
    ghost use Rattle.corner_lift.specs.Lifted.{LiftedData, IsLinked, lifted};

    ghost Value = { LiftedData };

    ghost view = { λ t. lifted t.case.now t.links.now t.pairs };

    ghost invariant = { λ t. IsLinked t.case.now t.links.now };
}

/// The state at a position in the order, if it is no goal state.
#[inline(always)]
fn open_at(case: &Case, links: &Links, position: u32) -> Option<u32>
    requires links { AreLinks case.now.model links.now }
    requires position { position < length links.now.order }
    ensures some { IfSome result (StandsAt case.now links.now position) }
    ensures all { (s : ℕ) → StandsAt case.now links.now position s → result ≡ Some s }
{
    let model = case.model();
    let s = links.order()[position as usize];
    if s >= model.states() || links.position(s) != position || model.is_goal(s) {
        return None;
    }
    Some(s)
}

impl<'a> Lifted<'a> {
    /// A case lifted to the rectangle whose table `weights` is. Takes no memory.
    pub fn new(case: &'a Case<'a>, links: &'a Links, weights: &'a [i128]) -> Lifted<'a>
        requires { AreLinks case.now.model links.now }
        ensures { result ≡ lifted case.now links.now weights.now }
    {
        let _ = case.w();
        Lifted {
            case,
            links,
            pairs: PairTable::of(case, links, weights),
        }
    }

    /// The case.
    #[inline(always)]
    pub fn case(&self) -> &'a Case<'a>
        ensures { result.now ≡ self.now.case }
    {
        self.case
    }

    /// What is looked up of its model.
    #[inline(always)]
    pub fn links(&self) -> &'a Links
        ensures { result.now ≡ self.now.links }
    {
        self.links
    }

    /// The model.
    #[inline(always)]
    pub fn model(&self) -> &'a Model
        ensures { result.now ≡ self.now.case.model }
    {
        self.case.model()
    }

    /// The table of the rectangle, without what is quickly looked up.
    #[inline(always)]
    pub fn table(&self) -> CornerTable<'_>
        ensures { result ≡ self.now }
    {
        CornerTable::new(self.case, self.links, self.pairs.weights())
    }

    /// The weights of all rows at the corners of the rectangle.
    #[inline(always)]
    pub fn weights(&self) -> &[i128]
        ensures { result.now ≡ self.now.weights }
    {
        self.pairs.weights()
    }
}

impl Lifted<'_> {
    /// The precision.
    #[inline(always)]
    pub fn w(&self) -> u32
        ensures value { result ≡ self.now.case.w }
        ensures case { IsCase self.now.case }
        ensures links { AreLinks self.now.case.model self.now.links }
    {
        self.case.w()
    }

    /// The number that stands for 1: 2 to the `w`.
    #[inline(always)]
    pub fn top(&self) -> i64
        ensures { result ≡ pos (2 ^ self.now.case.w) }
    {
        one_at(self.case.w())
    }

    /// How many choices a state has, by the links, whose lists lie closer together than the model's.
    #[inline(always)]
    pub fn choice_count(&self, s: u32) -> u32
        requires { s < length self.now.case.model.states }
        ensures { result ≡ length (choices self.now.case.model s) }
    {
        self.links.choices(s)
    }

    /// The number of the row of a state's choice among all rows.
    #[inline(always)]
    pub fn row_place(&self, s: u32, a: u32) -> usize
        requires { HasChoice self.now.case.model s a }
        ensures { result ≡ row_number self.now.case.model s a }
    {
        self.links.row_place(s, a)
    }

    /// How many corners the row of a state's choice has.
    #[inline(always)]
    pub fn corners(&self, s: u32, a: u32) -> u32
        requires { HasChoice self.now.case.model s a }
        ensures { result ≡ corner_count self.now.case s a }
    {
        self.links.place(s, a).corners
    }

    /// The targets of the row of a state's choice.
    #[inline(always)]
    pub fn targets(&self, s: u32, a: u32) -> &[u32]
        requires { HasChoice self.now.case.model s a }
        ensures { result.now ≡ targets_of (row_at self.now.case.model s a) }
    {
        self.links.targets(self.links.place(s, a))
    }

    /// The target of such a row, if it has only one.
    #[inline(always)]
    pub fn only_target(&self, s: u32, a: u32) -> Option<u32>
        requires { HasChoice self.now.case.model s a }
        ensures { IfSome result (λ t. targets_of (row_at self.now.case.model s a) ≡ t ∷ []) }
    {
        let targets = self.targets(s, a);
        if targets.len() == 1 {
            Some(targets[0])
        } else {
            None
        }
    }

    /// Whether such a row has an entry into its own state.
    #[inline(always)]
    pub fn has_loop(&self, s: u32, a: u32) -> bool
        requires { HasChoice self.now.case.model s a }
        ensures { IsFalse result → Contains (targets_of (row_at self.now.case.model s a)) s → ⊥ }
    {
        for target in self.targets(s, a) {
            if *target == s {
                return true;
            }
        }
        false
    }

    /// What is looked up of the only row of a state.
    #[inline(always)]
    pub fn only_row(&self, s: u32) -> OnlyRow
        requires { s < length self.now.case.model.states }
        ensures { IsOnlyRow self.now.case.model self.now.links s result }
    {
        self.links.only_row(s)
    }

    /// The states in the order.
    #[inline(always)]
    pub fn order(&self) -> &[u32]
        ensures { result.now ≡ self.now.links.order }
    {
        self.links.order()
    }

    /// The position of a state in it.
    #[inline(always)]
    pub fn position(&self, s: u32) -> u32
        requires { s < length self.now.case.model.states }
        ensures { result ≡ position self.now.links s }
    {
        self.links.position(s)
    }

    /// The positions of the states that lead to a state.
    #[inline(always)]
    pub fn positions_before(&self, s: u32) -> &[u32]
        requires { s < length self.now.case.model.states }
        ensures { result.now ≡ positions_before self.now.links s }
    {
        self.links.positions_before(s)
    }

    /// The state at a position in the order, if it is no goal state.
    #[inline(always)]
    pub fn open_state(&self, position: u32) -> Option<u32>
        requires { position < length self.now.links.order }
        ensures some { IfSome result (StandsAt self.now.case self.now.links position) }
        ensures all { (s : ℕ) → StandsAt self.now.case self.now.links position s → result ≡ Some s }
    {
        open_at(self.case, self.links, position)
    }

    /// The greatest sum of a row over its corners, and its whole, if it has two entries and is quickly looked up.
    #[inline(always)]
    pub fn greatest(&self, s: u32, a: u32, vec: &[i64]) -> Option<LaneSum>
        ghost spans: { Spans }
        requires lifted { IsLiftedTo self.now spans }
        requires row { HasChoice self.now.case.model s a }
        requires numbers { AreNumbers self.now.case vec.now }
        ensures greatest { IfSome result (λ row.
            IsGreatest (row_value self.now.case spans s a vec.now) (corner_count self.now.case s a) (row.sum *ℤ row.scale)) }
        ensures bound { IfSome result (λ row. BoundsAbove self.now.case spans s a vec.now (row.sum *ℤ row.scale)) }
        ensures whole { IfSome result (IsWholeOver self.now.case s a) }
    {
        premises();
        let row = self.table().row(s, a);
        if row.targets.len() != 2 {
            return None;
        }
        let pair = self
            .pairs
            .pair(row.place.weights, row.place.corners, row.w)?;
        let first = vec[row.targets[0] as usize];
        let second = vec[row.targets[1] as usize];
        let sum = self.pairs.greatest_sum(pair, first, second);
        Some(pair.summed(sum))
    }

    /// The same of the only row of a state, which has two entries.
    #[inline(always)]
    pub fn greatest_of(&self, s: u32, row: PairRow, vec: &[i64]) -> Option<LaneSum>
        ghost spans: { Spans }
        requires lifted { IsLiftedTo self.now spans }
        requires state { s < length self.now.case.model.states }
        requires row { IsPairRow self.now.case.model self.now.links s row }
        requires numbers { AreNumbers self.now.case vec.now }
        ensures greatest { IfSome result (λ row.
            IsGreatest (row_value self.now.case spans s 0 vec.now) (corner_count self.now.case s 0) (row.sum *ℤ row.scale)) }
        ensures bound { IfSome result (λ row. BoundsAbove self.now.case spans s 0 vec.now (row.sum *ℤ row.scale)) }
        ensures whole { IfSome result (IsWholeOver self.now.case s 0) }
    {
        premises();
        let w = self.case.w();
        let pair = self.pairs.pair(row.weights, row.corners, w)?;
        let first = vec[row.first as usize];
        let second = vec[row.second as usize];
        let sum = self.pairs.greatest_sum(pair, first, second);
        Some(pair.summed(sum))
    }

    /// The least sum of a row over its corners, and its whole, if it has two entries and is quickly looked up.
    #[inline(always)]
    pub fn least(&self, s: u32, a: u32, vec: &[i64]) -> Option<LaneSum>
        ghost spans: { Spans }
        requires lifted { IsLiftedTo self.now spans }
        requires row { HasChoice self.now.case.model s a }
        requires numbers { AreNumbers self.now.case vec.now }
        ensures least { IfSome result (λ row.
            IsLeast (row_value self.now.case spans s a vec.now) (corner_count self.now.case s a) (row.sum *ℤ row.scale)) }
        ensures bound { IfSome result (λ row. BoundsBelow self.now.case spans s a vec.now (row.sum *ℤ row.scale)) }
        ensures whole { IfSome result (IsWholeOver self.now.case s a) }
    {
        premises();
        let row = self.table().row(s, a);
        if row.targets.len() != 2 {
            return None;
        }
        let pair = self
            .pairs
            .pair(row.place.weights, row.place.corners, row.w)?;
        let first = vec[row.targets[0] as usize];
        let second = vec[row.targets[1] as usize];
        let sum = self.pairs.least_sum(pair, first, second);
        Some(pair.summed(sum))
    }

    /// The same of the only row of a state, which has two entries.
    #[inline(always)]
    pub fn least_of(&self, s: u32, row: PairRow, vec: &[i64]) -> Option<LaneSum>
        ghost spans: { Spans }
        requires lifted { IsLiftedTo self.now spans }
        requires state { s < length self.now.case.model.states }
        requires row { IsPairRow self.now.case.model self.now.links s row }
        requires numbers { AreNumbers self.now.case vec.now }
        ensures least { IfSome result (λ row.
            IsLeast (row_value self.now.case spans s 0 vec.now) (corner_count self.now.case s 0) (row.sum *ℤ row.scale)) }
        ensures bound { IfSome result (λ row. BoundsBelow self.now.case spans s 0 vec.now (row.sum *ℤ row.scale)) }
        ensures whole { IfSome result (IsWholeOver self.now.case s 0) }
    {
        premises();
        let w = self.case.w();
        let pair = self.pairs.pair(row.weights, row.corners, w)?;
        let first = vec[row.first as usize];
        let second = vec[row.second as usize];
        let sum = self.pairs.least_sum(pair, first, second);
        Some(pair.summed(sum))
    }

    /// The least weight of a row into states of rank below `below` over its corners, and its whole, if it has two entries
    /// and is quickly looked up.
    #[inline(always)]
    pub fn least_into(&self, s: u32, a: u32, ranks: &[u32], below: u32) -> Option<LaneSum>
        ghost spans: { Spans }
        requires lifted { IsLiftedTo self.now spans }
        requires row { HasChoice self.now.case.model s a }
        requires ranks { length ranks.now ≡ length self.now.case.model.states }
        ensures least { IfSome result (λ row.
            IsLeast (λ c. corner_sum self.now.case.d spans (row_at self.now.case.model s a) c (ranked_below (mark ranks.now) below))
            (corner_count self.now.case s a) (row.sum *ℤ row.scale)) }
        ensures whole { IfSome result (IsWholeOver self.now.case s a) }
    {
        let row = self.table().row(s, a);
        if row.targets.len() != 2 {
            return None;
        }
        let pair = self
            .pairs
            .pair(row.place.weights, row.place.corners, row.w)?;
        let first = is_below(ranks, row.targets[0], below);
        let second = is_below(ranks, row.targets[1], below);
        let sum = self.pairs.counted_sum(pair, first, second);
        Some(pair.summed(sum))
    }

    /// The same of the only row of a state, which has two entries.
    #[inline(always)]
    pub fn least_into_of(&self, s: u32, row: PairRow, ranks: &[u32], below: u32) -> Option<LaneSum>
        ghost spans: { Spans }
        requires lifted { IsLiftedTo self.now spans }
        requires state { s < length self.now.case.model.states }
        requires row { IsPairRow self.now.case.model self.now.links s row }
        requires ranks { length ranks.now ≡ length self.now.case.model.states }
        ensures least { IfSome result (λ row.
            IsLeast (λ c. corner_sum self.now.case.d spans (row_at self.now.case.model s 0) c (ranked_below (mark ranks.now) below))
            (corner_count self.now.case s 0) (row.sum *ℤ row.scale)) }
        ensures whole { IfSome result (IsWholeOver self.now.case s 0) }
    {
        self.pairs
            .least_into_of(self.case, self.links, s, row, ranks, below)
    }

    /// The whole of a row, and its greatest sum over the corners. One multiplication for each entry and corner.
    #[inline(always)]
    pub fn table_greatest(&self, s: u32, a: u32, vec: &[i64]) -> Weighed
        ghost spans: { Spans }
        requires lifted { IsLiftedTo self.now spans }
        requires row { HasChoice self.now.case.model s a }
        requires numbers { AreNumbers self.now.case vec.now }
        ensures greatest { IsGreatest (row_value self.now.case spans s a vec.now) (corner_count self.now.case s a) result.sum }
        ensures range { (pos 0 ≤ℤ result.sum) × (result.sum ≤ℤ (pos (2 ^ self.now.case.w) *ℤ row_whole self.now.case s a)) }
        ensures bound { BoundsAbove self.now.case spans s a vec.now result.sum }
        ensures whole { IsWhole self.now.case s a result.whole }
    {
        self.table().greatest(s, a, vec)
    }

    /// The whole of a row, and its least sum over the corners. One multiplication for each entry and corner.
    #[inline(always)]
    pub fn table_least(&self, s: u32, a: u32, vec: &[i64]) -> Weighed
        ghost spans: { Spans }
        requires lifted { IsLiftedTo self.now spans }
        requires row { HasChoice self.now.case.model s a }
        requires numbers { AreNumbers self.now.case vec.now }
        ensures least { IsLeast (row_value self.now.case spans s a vec.now) (corner_count self.now.case s a) result.sum }
        ensures bound { BoundsBelow self.now.case spans s a vec.now result.sum }
        ensures whole { IsWhole self.now.case s a result.whole }
    {
        self.table().least(s, a, vec)
    }

    /// What a row weighs at a corner: a weighted sum, the whole, and the weight of its self loop. One multiplication for
    /// each entry.
    #[inline(always)]
    pub fn table_corner(&self, s: u32, a: u32, corner: u32, vec: &[i64]) -> AtCorner
        ghost spans: { Spans }
        requires lifted { IsLiftedTo self.now spans }
        requires row { HasChoice self.now.case.model s a }
        requires corner { corner < corner_count self.now.case s a }
        requires numbers { AreNumbers self.now.case vec.now }
        ensures sum { result.sum ≡ row_value self.now.case spans s a vec.now corner }
        ensures whole { IsWhole self.now.case s a result.whole }
        ensures own { result.own ≡ loop_weight self.now.case spans s a corner }
    {
        self.table().corner(s, a, corner, vec)
    }

    /// The weighted sum of a row at a corner. One multiplication for each entry.
    #[inline(always)]
    pub fn table_value(&self, s: u32, a: u32, corner: u32, vec: &[i64]) -> i128
        ghost spans: { Spans }
        requires lifted { IsLiftedTo self.now spans }
        requires row { HasChoice self.now.case.model s a }
        requires corner { corner < corner_count self.now.case s a }
        requires numbers { AreNumbers self.now.case vec.now }
        ensures { result ≡ row_value self.now.case spans s a vec.now corner }
    {
        table_value(
            self.case,
            self.links,
            self.pairs.weights(),
            s,
            a,
            corner,
            vec,
        )
    }

    /// The weight of a row into states of rank below `below`, at a corner. No multiplication.
    #[inline(always)]
    pub fn table_into(&self, s: u32, a: u32, corner: u32, ranks: &[u32], below: u32) -> i128
        ghost spans: { Spans }
        requires lifted { IsLiftedTo self.now spans }
        requires row { HasChoice self.now.case.model s a }
        requires corner { corner < corner_count self.now.case s a }
        requires ranks { length ranks.now ≡ length self.now.case.model.states }
        ensures { result ≡ corner_sum self.now.case.d spans (row_at self.now.case.model s a) corner (ranked_below (mark ranks.now) below) }
    {
        table_into(
            self.case,
            self.links,
            self.pairs.weights(),
            s,
            a,
            corner,
            ranks,
            below,
        )
    }

    /// What a row weighs, at each corner.
    #[inline(always)]
    pub fn table_whole(&self, s: u32, a: u32) -> i128
        ghost spans: { Spans }
        requires lifted { IsLiftedTo self.now spans }
        requires row { HasChoice self.now.case.model s a }
        ensures { IsWhole self.now.case s a result }
    {
        table_whole(self.case, self.links, self.pairs.weights(), s, a)
    }

    /// Whether a row's weighted mean is at least the number at each corner. Where no target's number is below it, nothing
    /// is weighed.
    #[inline(always)]
    pub fn is_held(&self, s: u32, a: u32, vec: &[i64], number: i64) -> bool
        ghost spans: { Spans }
        requires lifted { IsLiftedTo self.now spans }
        requires row { HasChoice self.now.case.model s a }
        requires numbers { AreNumbers self.now.case vec.now }
        requires number { (pos 0 ≤ℤ number) × (number ≤ℤ pos (2 ^ self.now.case.w)) }
        ensures { IsTrue result ↔ ((c : ℕ) → c < corner_count self.now.case s a
            → (number *ℤ row_whole self.now.case s a) ≤ℤ row_value self.now.case spans s a vec.now c) }
    {
        self.table().is_held(s, a, vec, number)
    }
}
