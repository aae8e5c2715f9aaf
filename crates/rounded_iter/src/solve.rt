//! The least number of a state that is enough for one of its choices.

ghost use Rattle.std.specs.Prelude.{◌≡◌, ◌*◌, ◌<◌, ◌^◌, ◌≤ℤ◌, ◌<ℤ◌, ◌*ℤ◌, pos, unsigned_abs, length, IsTrue, IsFalse, IsSome, IfSome};
ghost use Rattle.lift_model.specs.Model.{choices};
ghost use Rattle.lift_model.specs.OnlyRow.{IsPairRow, IsSingleRow};
ghost use Rattle.lift_grid.specs.Rectangle.{Spans};
ghost use Rattle.corner_lift.specs.Case.{row_value, row_whole, corner_count, most_precision, engine_limit};
ghost use Rattle.corner_lift.specs.Table.{IsWhole, HasShortSums};
ghost use Rattle.corner_lift.specs.Paired.{IsWholeOver};
ghost use Rattle.rounded_iter.specs.Rising.{CanTry, CanTryOther, CanTryOnly, CanSolve, IsExtreme, IsMoreExtreme, SolvesAt, IsSolved};

use crate::table::Table;
use corner_lift::{
    AtCorner, LaneSum, Others, Weighed, corners_bound_weights, has_short_sums, reaches, rounded_up,
    rounded_up_from, rows_at_corners, table_others, times,
};
use float_guess::Extreme;
use lift_model::{OnlyRow, PairRow};

/// The greater or the lesser of two numbers.
pub(crate) fn more_extreme(extreme: Extreme, a: i64, b: i64) -> i64
    ensures { IsMoreExtreme extreme a b result }
{
    match extreme {
        Extreme::Greatest => if a < b { b } else { a },
        Extreme::Least => if a < b { a } else { b },
    }
}

impl Table<'_, '_> {
    /// The whole of a row, and its weighted sum at the corner that counts.
    #[inline(always)]
    pub(crate) fn weigh(&self, lane: &[i64], s: u32, a: u32) -> Weighed
        ghost spans: { Spans }
        requires { CanTry self.now spans lane.now s a }
        ensures extreme { IsExtreme self.now.rule.corner (row_value self.now.case spans s a lane.now)
            (corner_count self.now.case s a) result.sum }
        ensures whole { IsWhole self.now.case s a result.whole }
    {
        match self.rule.corner {
            Extreme::Greatest => self.rows.table_greatest(s, a, lane),
            Extreme::Least => self.rows.table_least(s, a, lane),
        }
    }

    /// The same of a row of two entries that is quickly looked up.
    #[inline(always)]
    pub(crate) fn weigh_pair(&self, lane: &[i64], s: u32, a: u32) -> Option<LaneSum>
        ghost spans: { Spans }
        requires { CanTry self.now spans lane.now s a }
        ensures extreme { IfSome result (λ row. IsExtreme self.now.rule.corner
            (row_value self.now.case spans s a lane.now) (corner_count self.now.case s a) (row.sum *ℤ row.scale)) }
        ensures whole { IfSome result (IsWholeOver self.now.case s a) }
    {
        match self.rule.corner {
            Extreme::Greatest => self.rows.greatest(s, a, lane),
            Extreme::Least => self.rows.least(s, a, lane),
        }
    }

    /// The same of the only row of a state, which has two entries.
    #[inline(always)]
    pub(crate) fn weigh_only_pair(&self, lane: &[i64], s: u32, row: PairRow) -> Option<LaneSum>
        ghost spans: { Spans }
        requires can { CanTry self.now spans lane.now s 0 }
        requires row { IsPairRow self.now.case.model self.now.links s row }
        ensures extreme { IfSome result (λ row. IsExtreme self.now.rule.corner
            (row_value self.now.case spans s 0 lane.now) (corner_count self.now.case s 0) (row.sum *ℤ row.scale)) }
        ensures whole { IfSome result (IsWholeOver self.now.case s 0) }
    {
        match self.rule.corner {
            Extreme::Greatest => self.rows.greatest_of(s, row, lane),
            Extreme::Least => self.rows.least_of(s, row, lane),
        }
    }

    /// The least number from the state's own on that is enough for a row at one corner. The weight of a
    /// self loop is taken out of the whole, so that one division finds it.
    fn solve_corner(&self, lane: &[i64], s: u32, a: u32, corner: u32) -> i64
        ghost spans: { Spans }
        requires { CanSolve self.now spans lane.now s a corner }
        ensures { SolvesAt self.now.case spans lane.now s a corner result }
    {
        rows_at_corners();
        corners_bound_weights();
        let number = lane[s as usize];
        let AtCorner { sum, whole, own } = self.rows.table_corner(s, a, corner, lane);
        if sum <= times(number, whole) {
            return number;
        }
        rounded_up(sum - times(number, own), whole - own)
    }

    /// The same where 64 bits hold the row's sums: what comes from other states over what leads to them.
    #[inline(always)]
    fn solve_short(&self, lane: &[i64], s: u32, a: u32, corner: u32) -> i64
        ghost spans: { Spans }
        requires solve { CanSolve self.now spans lane.now s a corner }
        requires narrow { HasShortSums self.now.case s a }
        ensures { SolvesAt self.now.case spans lane.now s a corner result }
    {
        rows_at_corners();
        corners_bound_weights();
        let number = lane[s as usize];
        let Others { sum, whole } = table_others(
            self.rows.case(),
            self.rows.links(),
            self.rows.weights(),
            s,
            a,
            corner,
            lane,
        );
        let (sum, whole) = (i128::from(sum), i128::from(whole));
        if reaches(number, sum, whole) {
            return number;
        }
        rounded_up(sum, whole)
    }

    /// The same, by either.
    #[inline(always)]
    fn solve_either(&self, lane: &[i64], s: u32, a: u32, corner: u32, narrow: bool) -> i64
        ghost spans: { Spans }
        requires solve { CanSolve self.now spans lane.now s a corner }
        requires narrow { IsTrue narrow → HasShortSums self.now.case s a }
        ensures { SolvesAt self.now.case spans lane.now s a corner result }
    {
        if narrow {
            self.solve_short(lane, s, a, corner)
        } else {
            self.solve_corner(lane, s, a, corner)
        }
    }

    /// The least number from the state's own on that is enough for a row, corner by corner.
    #[inline(never)]
    fn solve(&self, lane: &[i64], s: u32, a: u32) -> i64
        ghost spans: { Spans }
        requires { CanTry self.now spans lane.now s a }
        ensures { IsSolved self.now.rule.corner self.now.case spans lane.now s a
            (corner_count self.now.case s a) result }
    {
        rows_at_corners();
        corners_bound_weights();
        let rows = self.rows;
        let corners = rows.corners(s, a);
        let narrow = has_short_sums(rows.case(), rows.links(), rows.weights(), s, a);
        let mut number = self.solve_either(lane, s, a, 0, narrow);
        for corner in 1..corners {
            let other = self.solve_either(lane, s, a, corner, narrow);
            number = more_extreme(self.rule.corner, number, other);
        }
        number
    }

    /// The least number from the state's own on that is enough for a row without a self loop.
    #[inline(never)]
    fn enough_for_row(&self, lane: &[i64], s: u32, a: u32) -> i64
        ghost spans: { Spans }
        requires { CanTryOther self.now spans lane.now s a }
        ensures { IsSolved self.now.rule.corner self.now.case spans lane.now s a
            (corner_count self.now.case s a) result }
    {
        rows_at_corners();
        corners_bound_weights();
        let number = lane[s as usize];
        let Weighed { sum, whole } = self.weigh(lane, s, a);
        rounded_up_from(number, sum, whole)
    }

    /// The same of a row of two entries that is quickly looked up.
    #[inline(always)]
    fn enough_for_pair(&self, lane: &[i64], s: u32, a: u32) -> Option<i64>
        ghost spans: { Spans }
        requires { CanTryOther self.now spans lane.now s a }
        ensures { IfSome result (IsSolved self.now.rule.corner self.now.case spans lane.now s a
            (corner_count self.now.case s a)) }
    {
        rows_at_corners();
        corners_bound_weights();
        let row = self.weigh_pair(lane, s, a)?;
        row.rounded_up_from(lane[s as usize])
    }

    /// The same of the only row of a state, which has two entries, if it is quickly looked up.
    #[inline(always)]
    fn enough_for_only_pair(&self, lane: &[i64], s: u32, row: PairRow) -> Option<i64>
        ghost spans: { Spans }
        requires can { CanTryOnly self.now spans lane.now s }
        requires row { IsPairRow self.now.case.model self.now.links s row }
        ensures { IfSome result (IsSolved self.now.rule.corner self.now.case spans lane.now s 0
            (corner_count self.now.case s 0)) }
    {
        rows_at_corners();
        corners_bound_weights();
        let row = self.weigh_only_pair(lane, s, row)?;
        row.rounded_up_from(lane[s as usize])
    }

    /// The least number from the state's own on that is enough for the only row of a state, which leads to that state
    /// alone: the greater of both numbers.
    #[inline(always)]
    fn enough_for_single(&self, lane: &[i64], s: u32, target: u32) -> i64
        ghost spans: { Spans }
        requires can { CanTryOnly self.now spans lane.now s }
        requires row { IsSingleRow self.now.case.model s target }
        ensures { IsSolved self.now.rule.corner self.now.case spans lane.now s 0
            (corner_count self.now.case s 0) result }
    {
        rows_at_corners();
        corners_bound_weights();
        more_extreme(Extreme::Greatest, lane[s as usize], lane[target as usize])
    }

    /// The least number from the state's own on that is enough for the only row of a state, if that is quickly
    /// looked up.
    #[inline(always)]
    pub(crate) fn enough_for_only(&self, lane: &[i64], s: u32) -> Option<i64>
        ghost spans: { Spans }
        requires { CanTryOnly self.now spans lane.now s }
        ensures only { IsSome result → length (choices self.now.case.model s) ≡ 1 }
        ensures solved { IfSome result (IsSolved self.now.rule.corner self.now.case spans lane.now s 0
            (corner_count self.now.case s 0)) }
    {
        let number = lane[s as usize];
        if number == self.top {
            return None;
        }
        match self.rows.only_row(s) {
            OnlyRow::Single(target) => Some(self.enough_for_single(lane, s, target)),
            OnlyRow::Pair(row) => self.enough_for_only_pair(lane, s, row),
            OnlyRow::Other => None,
        }
    }

    /// The least number from the state's own on that is enough for a row, by the weights of its targets.
    #[inline(always)]
    fn enough_by_weights(&self, lane: &[i64], s: u32, a: u32) -> i64
        ghost spans: { Spans }
        requires { CanTry self.now spans lane.now s a }
        ensures { IsSolved self.now.rule.corner self.now.case spans lane.now s a
            (corner_count self.now.case s a) result }
    {
        if self.rows.has_loop(s, a) {
            return self.solve(lane, s, a);
        }
        match self.enough_for_pair(lane, s, a) {
            Some(number) => number,
            None => self.enough_for_row(lane, s, a),
        }
    }

    /// The least number from the state's own on that is enough for a row. A number that is `top`, as a
    /// goal state's is, is always enough. A row with one entry takes its target's number.
    #[inline(always)]
    pub(crate) fn enough(&self, lane: &[i64], s: u32, a: u32) -> i64
        ghost spans: { Spans }
        requires { CanTry self.now spans lane.now s a }
        ensures { IsSolved self.now.rule.corner self.now.case spans lane.now s a
            (corner_count self.now.case s a) result }
    {
        rows_at_corners();
        corners_bound_weights();
        let number = lane[s as usize];
        if number == self.top {
            return number;
        }
        if let Some(target) = self.rows.only_target(s, a) {
            return more_extreme(Extreme::Greatest, number, lane[target as usize]);
        }
        self.enough_by_weights(lane, s, a)
    }
}
