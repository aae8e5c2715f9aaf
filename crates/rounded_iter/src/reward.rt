//! The least number of a state that is enough for its choices with its reward. A number that is `top` is always enough.

ghost use Rattle.std.specs.Prelude.{◌≡◌, ◌<◌, ◌^◌, ◌≤ℤ◌, ◌<ℤ◌, ◌+ℤ◌, ◌-ℤ◌, ◌*ℤ◌, ℤ, pos, true, [], ◌∷◌, length, IsSome, IfSome};
ghost use Rattle.lift_grid.specs.Rectangle.{Spans};
ghost use Rattle.lift_model.specs.Links.{HasChoice, targets_of};
ghost use Rattle.lift_model.specs.Model.{choices, row_at};
ghost use Rattle.lift_model.specs.OnlyRow.{IsPairRow};
ghost use Rattle.corner_lift.specs.Case.{row_value, row_whole, corner_count, engine_limit, most_precision};
ghost use Rattle.corner_lift.specs.Table.{HasShortSums};
ghost use Rattle.corner_lift.specs.Paired.{IsWholeOver};
ghost use Rattle.float_guess.specs.Rule.{added, has_rewards};
ghost use Rattle.rounded_iter.specs.Rising.{IsRead, CanTry, CanTryOther, CanTryOnly, CanSolve, IsExtreme, SolvesBy, IsSolvedFor, IsSolvedBy, Run};
ghost use Rattle.rounded_iter.specs.Watching.{CanRaiseFree, IsRaisedState};
ghost use Rattle.rounded_iter.specs.Reward.{CanLeave, CanPay, IsLeastOver, IsBefore, IsAfter, rest_of};

use crate::solve::more_extreme;
use crate::table::Table;
use crate::worklist::write_number;
use corner_lift::{
    AtCorner, LaneSum, Others, Weighed, corners_bound_weights, has_short_sums, reaches, rounded_up,
    rounded_up_from, rows_at_corners, table_others, times,
};
use float_guess::Extreme;
use lift_model::{OnlyRow, PairRow};

/// The sum of two numbers within the engine's limit.
fn plus(left: i128, right: i128) -> i128
    requires left { (pos 0 ≤ℤ left) × (left <ℤ pos engine_limit) }
    requires right { (pos 0 ≤ℤ right) × (right <ℤ pos engine_limit) }
    ensures { result ≡ left +ℤ right }
{
    left + right
}

/// What is left of a number without a part of it.
fn without(all: i128, part: i128) -> i128
    requires { (pos 0 ≤ℤ part) × (part ≤ℤ all) }
    ensures { result ≡ all -ℤ part }
{
    all - part
}

/// What is left of a number without a reward, but at least 0.
fn before_reward(number: i64, reward: i64) -> i64
    requires number { (pos 0 ≤ℤ number) × (number ≤ℤ pos (2 ^ most_precision)) }
    requires reward { (pos 0 ≤ℤ reward) × (reward ≤ℤ pos (2 ^ most_precision)) }
    ensures { IsBefore number reward result }
{
    if number < reward { 0 } else { number - reward }
}

/// How much room a reward leaves below `top`.
fn room_beside(reward: i64, top: i64) -> i64
    requires { (pos 0 ≤ℤ reward) × (reward ≤ℤ top) }
    ensures { result ≡ top -ℤ reward }
{
    top - reward
}

/// A number with a reward, cut off at `top`.
fn after_reward(number: i64, reward: i64, top: i64) -> i64
    requires number { pos 0 ≤ℤ number }
    requires reward { (pos 0 ≤ℤ reward) × (reward ≤ℤ top) }
    ensures { IsAfter number reward top result }
{
    let room = room_beside(reward, top);
    if room <= number { top } else { number + reward }
}

/// The least number from `number` on that times `left` is at least `rest`; `top` where none below it is.
fn least_over(number: i64, top: i64, rest: i128, left: i128) -> i64
    requires { CanPay number top rest left }
    ensures { IsLeastOver number top rest left result }
{
    if reaches(number, rest, left) {
        return number;
    }
    if reaches(top, rest, left) {
        return rounded_up(rest, left);
    }
    top
}

/// The least number from `number` on that is enough at a corner, with the reward; `top` where none below it is.
fn least_at(number: i64, reward: i64, top: i64, at: AtCorner) -> i64
    requires { CanLeave number reward top at.sum at.whole at.own }
    ensures { IsLeastOver number top (rest_of number reward at.sum at.whole at.own) (at.whole -ℤ at.own) result }
{
    let price = times(reward, at.whole);
    let due = plus(at.sum, price);
    let rest = without(due, times(number, at.own));
    let left = without(at.whole, at.own);
    least_over(number, top, rest, left)
}

impl Table<'_, '_> {
    /// Whether there are rewards.
    #[inline(always)]
    pub(crate) fn has_rewards(&self) -> bool
        ensures { result ≡ has_rewards self.now.rule.ends }
    {
        self.rule.ends.has_rewards()
    }

    /// What a visit of a state adds.
    #[inline(always)]
    fn reward_of(&self, s: u32) -> i64
        ensures { result ≡ added self.now.case self.now.rule.ends s }
    {
        self.rule.ends.added(self.rows.case(), s)
    }

    /// The reward times the whole of a row, if 64 bits hold its sums.
    #[inline(always)]
    fn short_price(&self, s: u32, a: u32) -> Option<i128>
        ghost spans: { Spans }
        requires read { IsRead self.now spans }
        requires row { HasChoice self.now.case.model s a }
        ensures narrow { IsSome result → HasShortSums self.now.case s a }
        ensures price { IfSome result
            (λ price. price ≡ added self.now.case self.now.rule.ends s *ℤ row_whole self.now.case s a) }
    {
        let rows = self.rows;
        if !has_short_sums(rows.case(), rows.links(), rows.weights(), s, a) {
            return None;
        }
        Some(times(self.reward_of(s), rows.table_whole(s, a)))
    }

    /// The least number from the state's own on that is enough for a row at one corner, with the reward.
    fn solve_rewarded(&self, lane: &[i64], s: u32, a: u32, corner: u32, reward: i64) -> i64
        ghost spans: { Spans }
        requires can { CanSolve self.now spans lane.now s a corner }
        requires reward { reward ≡ added self.now.case self.now.rule.ends s }
        requires rewards { has_rewards self.now.rule.ends ≡ true }
        ensures { SolvesBy self.now.rule.ends self.now.case spans lane.now s a corner result }
    {
        rows_at_corners();
        corners_bound_weights();
        let at = self.rows.table_corner(s, a, corner, lane);
        least_at(lane[s as usize], reward, self.top, at)
    }

    /// The same where 64 bits hold the row's sums, and `price` is the reward times its whole: what comes from other
    /// states and the price, over what leads to them.
    #[inline(always)]
    fn solve_rewarded_short(&self, lane: &[i64], s: u32, a: u32, corner: u32, price: i128) -> i64
        ghost spans: { Spans }
        requires can { CanSolve self.now spans lane.now s a corner }
        requires narrow { HasShortSums self.now.case s a }
        requires price { price ≡ added self.now.case self.now.rule.ends s *ℤ row_whole self.now.case s a }
        requires rewards { has_rewards self.now.rule.ends ≡ true }
        ensures { SolvesBy self.now.rule.ends self.now.case spans lane.now s a corner result }
    {
        rows_at_corners();
        corners_bound_weights();
        let Others { sum, whole } = table_others(
            self.rows.case(),
            self.rows.links(),
            self.rows.weights(),
            s,
            a,
            corner,
            lane,
        );
        let rest = plus(i128::from(sum), price);
        least_over(lane[s as usize], self.top, rest, i128::from(whole))
    }

    /// The same, by either.
    #[inline(always)]
    fn solve_rewarded_either(
        &self,
        lane: &[i64],
        s: u32,
        a: u32,
        corner: u32,
        price: Option<i128>,
    ) -> i64
        ghost spans: { Spans }
        requires can { CanSolve self.now spans lane.now s a corner }
        requires narrow { IsSome price → HasShortSums self.now.case s a }
        requires price { IfSome price
            (λ price. price ≡ added self.now.case self.now.rule.ends s *ℤ row_whole self.now.case s a) }
        requires rewards { has_rewards self.now.rule.ends ≡ true }
        ensures { SolvesBy self.now.rule.ends self.now.case spans lane.now s a corner result }
    {
        match price {
            Some(price) => self.solve_rewarded_short(lane, s, a, corner, price),
            None => self.solve_rewarded(lane, s, a, corner, self.reward_of(s)),
        }
    }

    /// The same for the corners that count.
    #[inline(never)]
    fn rewarded_corners(&self, lane: &[i64], s: u32, a: u32) -> i64
        ghost spans: { Spans }
        requires can { CanTry self.now spans lane.now s a }
        requires rewards { has_rewards self.now.rule.ends ≡ true }
        ensures { IsSolvedFor self.now.rule.ends self.now.rule.corner self.now.case spans lane.now s a
            (corner_count self.now.case s a) result }
    {
        rows_at_corners();
        corners_bound_weights();
        let corners = self.rows.corners(s, a);
        let price = self.short_price(s, a);
        let mut number = self.solve_rewarded_either(lane, s, a, 0, price);
        for corner in 1..corners {
            let other = self.solve_rewarded_either(lane, s, a, corner, price);
            number = more_extreme(self.rule.corner, number, other);
        }
        number
    }

    /// The same for a row without a self loop: what is enough without the reward, from the number without it on, and the
    /// reward.
    #[inline(never)]
    fn rewarded_row(&self, lane: &[i64], s: u32, a: u32, reward: i64) -> i64
        ghost spans: { Spans }
        requires can { CanTryOther self.now spans lane.now s a }
        requires reward { reward ≡ added self.now.case self.now.rule.ends s }
        requires rewards { has_rewards self.now.rule.ends ≡ true }
        ensures { IsSolvedFor self.now.rule.ends self.now.rule.corner self.now.case spans lane.now s a
            (corner_count self.now.case s a) result }
    {
        rows_at_corners();
        corners_bound_weights();
        let before = before_reward(lane[s as usize], reward);
        let Weighed { sum, whole } = self.weigh(lane, s, a);
        after_reward(rounded_up_from(before, sum, whole), reward, self.top)
    }

    /// The same from the sum and the whole of one of two entries.
    #[inline(always)]
    fn rewarded_sum(&self, lane: &[i64], s: u32, a: u32, row: LaneSum) -> Option<i64>
        ghost spans: { Spans }
        requires can { CanTryOther self.now spans lane.now s a }
        requires extreme { IsExtreme self.now.rule.corner (row_value self.now.case spans s a lane.now)
            (corner_count self.now.case s a) (row.sum *ℤ row.scale) }
        requires whole { IsWholeOver self.now.case s a row }
        requires rewards { has_rewards self.now.rule.ends ≡ true }
        ensures { IfSome result (IsSolvedFor self.now.rule.ends self.now.rule.corner self.now.case spans lane.now s a
            (corner_count self.now.case s a)) }
    {
        rows_at_corners();
        corners_bound_weights();
        let reward = self.reward_of(s);
        let before = before_reward(lane[s as usize], reward);
        let number = row.rounded_up_from(before)?;
        Some(after_reward(number, reward, self.top))
    }

    /// The same for one of two entries that is quickly looked up.
    #[inline(always)]
    fn rewarded_pair(&self, lane: &[i64], s: u32, a: u32) -> Option<i64>
        ghost spans: { Spans }
        requires can { CanTryOther self.now spans lane.now s a }
        requires rewards { has_rewards self.now.rule.ends ≡ true }
        ensures { IfSome result (IsSolvedFor self.now.rule.ends self.now.rule.corner self.now.case spans lane.now s a
            (corner_count self.now.case s a)) }
    {
        let row = self.weigh_pair(lane, s, a)?;
        self.rewarded_sum(lane, s, a, row)
    }

    /// The same for one that leads to another state alone: that state's number with the reward, if it is greater.
    #[inline(always)]
    fn rewarded_single(&self, lane: &[i64], s: u32, a: u32, target: u32) -> i64
        ghost spans: { Spans }
        requires can { CanTryOther self.now spans lane.now s a }
        requires single { targets_of (row_at self.now.case.model s a) ≡ target ∷ [] }
        requires rewards { has_rewards self.now.rule.ends ≡ true }
        ensures { IsSolvedFor self.now.rule.ends self.now.rule.corner self.now.case spans lane.now s a
            (corner_count self.now.case s a) result }
    {
        rows_at_corners();
        corners_bound_weights();
        let reward = self.reward_of(s);
        let paid = after_reward(lane[target as usize], reward, self.top);
        more_extreme(Extreme::Greatest, lane[s as usize], paid)
    }

    /// The same for a row.
    #[inline(always)]
    fn rewarded(&self, lane: &[i64], s: u32, a: u32) -> i64
        ghost spans: { Spans }
        requires can { CanTry self.now spans lane.now s a }
        requires rewards { has_rewards self.now.rule.ends ≡ true }
        ensures { IsSolvedFor self.now.rule.ends self.now.rule.corner self.now.case spans lane.now s a
            (corner_count self.now.case s a) result }
    {
        if self.rows.has_loop(s, a) {
            return self.rewarded_corners(lane, s, a);
        }
        if let Some(target) = self.rows.only_target(s, a) {
            return self.rewarded_single(lane, s, a, target);
        }
        match self.rewarded_pair(lane, s, a) {
            Some(number) => number,
            None => self.rewarded_row(lane, s, a, self.reward_of(s)),
        }
    }

    /// The same for the choices that count.
    #[inline(never)]
    fn rewarded_choices(&self, lane: &[i64], s: u32) -> i64
        ghost spans: { Spans }
        requires can { CanTryOnly self.now spans lane.now s }
        requires rewards { has_rewards self.now.rule.ends ≡ true }
        ensures { IsSolvedBy self.now.rule self.now.case spans lane.now s
            (length (choices self.now.case.model s)) result }
    {
        rows_at_corners();
        corners_bound_weights();
        let mut number = self.rewarded(lane, s, 0);
        for a in 1..self.rows.choice_count(s) {
            let other = self.rewarded(lane, s, a);
            number = more_extreme(self.rule.choice, number, other);
        }
        number
    }

    /// The same for the only row of a state, which has two entries, if it is quickly looked up.
    #[inline(always)]
    fn rewarded_only_pair(&self, lane: &[i64], s: u32, row: PairRow) -> Option<i64>
        ghost spans: { Spans }
        requires can { CanTryOnly self.now spans lane.now s }
        requires row { IsPairRow self.now.case.model self.now.links s row }
        requires rewards { has_rewards self.now.rule.ends ≡ true }
        ensures { IfSome result (IsSolvedFor self.now.rule.ends self.now.rule.corner self.now.case spans lane.now s 0
            (corner_count self.now.case s 0)) }
    {
        let row = self.weigh_only_pair(lane, s, row)?;
        self.rewarded_sum(lane, s, 0, row)
    }

    /// The same for the only row of a state, if that is quickly looked up.
    #[inline(always)]
    fn rewarded_only(&self, lane: &[i64], s: u32) -> Option<i64>
        ghost spans: { Spans }
        requires can { CanTryOnly self.now spans lane.now s }
        requires rewards { has_rewards self.now.rule.ends ≡ true }
        ensures only { IsSome result → length (choices self.now.case.model s) ≡ 1 }
        ensures solved { IfSome result (IsSolvedFor self.now.rule.ends self.now.rule.corner self.now.case spans
            lane.now s 0 (corner_count self.now.case s 0)) }
    {
        match self.rows.only_row(s) {
            OnlyRow::Single(target) => Some(self.rewarded_single(lane, s, 0, target)),
            OnlyRow::Pair(row) => self.rewarded_only_pair(lane, s, row),
            OnlyRow::Other => None,
        }
    }

    /// The same for a state: a number that is `top` is enough.
    #[inline(always)]
    fn rewarded_state(&self, lane: &[i64], s: u32) -> i64
        ghost spans: { Spans }
        requires can { CanTryOnly self.now spans lane.now s }
        requires rewards { has_rewards self.now.rule.ends ≡ true }
        ensures { IsSolvedBy self.now.rule self.now.case spans lane.now s
            (length (choices self.now.case.model s)) result }
    {
        rows_at_corners();
        corners_bound_weights();
        let number = lane[s as usize];
        if number == self.top {
            return number;
        }
        match self.rewarded_only(lane, s) {
            Some(number) => number,
            None => self.rewarded_choices(lane, s),
        }
    }

    /// Raises the number of a state to what is enough for the choices that count, with its reward, and tells whether it
    /// rose.
    #[inline(never)]
    pub(crate) fn raise_rewarded(&self, lane: &mut [i64], s: u32) -> bool
        ghost run: { Run }
        requires { CanRaiseFree self.now run lane.old s true }
        ensures { IsRaisedState self.now run lane.old lane.new s result }
    {
        rows_at_corners();
        corners_bound_weights();
        let number = self.rewarded_state(lane, s);
        write_number(lane, s, number)
    }
}
