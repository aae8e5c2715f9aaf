//! Vectors at or below each bound: the first one, and how one rises to the least bound.

ghost use Rattle.std.specs.Prelude.{◌≡◌, ◌<◌, length, IfSome, IsSome};
ghost use Rattle.lift_grid.specs.Rectangle.{Spans};
ghost use Rattle.rounded_iter.specs.Rising.{IsBelow};
ghost use Rattle.rounded_iter.specs.Watching.{CanStart, HasGoals, CanClimb, CanRise, IsFound, IsGuess, first_number, from_zero};

use crate::table::{Ended, Table};
use corner_lift::{corners_bound_weights, rows_at_corners};
use float_guess::Ends;

impl Table<'_, '_> {
    /// The number of a state at first: the one that is given, if one is, or else 0.
    pub(crate) fn first_number(&self, s: u32) -> i64
        requires { s < length self.now.case.model.states }
        ensures { result ≡ first_number self.now.case self.now.rule.ends s }
    {
        let model = self.rows.model();
        let is_one = match self.rule.ends {
            Ends::Goals => model.is_goal(s),
            Ends::Unranked(_) => self.rule.ends.has(model, s) && !model.is_goal(s),
            Ends::Rewarded(_) => false,
        };
        if is_one { self.top } else { 0 }
    }

    /// Writes the first number of each state.
    pub(crate) fn start(&self, lane: &mut [i64])
        ghost spans: { Spans }
        requires { CanStart self.now lane.old }
        ensures { IsBelow self.now.rule self.now.case (from_zero spans) lane.new }
    {
        rows_at_corners();
        let model = self.rows.model();
        for s in 0..model.states() {
            lane[s as usize] = self.first_number(s);
        }
    }

    /// Writes `top` for each goal state.
    pub(crate) fn set_goals(&self, lane: &mut [i64])
        requires { CanStart self.now lane.old }
        ensures { HasGoals self.now.case lane.old lane.new }
    {
        let model = self.rows.model();
        for s in 0..model.states() {
            if model.is_goal(s) {
                lane[s as usize] = self.top;
            }
        }
    }

    /// Raises a vector at or below the least bound to it, and tells whether the initial state's number is
    /// within the limit. None: it took too many passes.
    pub(crate) fn rise(
        &self,
        lane: &mut [i64],
        flags: &mut [u32],
        patience: Option<u32>,
    ) -> Option<bool>
        ghost spans: { Spans }
        requires { CanClimb self.now (from_zero spans) lane.old flags.old }
        ensures below { IsBelow self.now.rule self.now.case (from_zero spans) lane.new }
        ensures found { IfSome result (λ found. IsFound self.now spans lane.new found) }
        ensures slow { result ≡ None → IsSome patience }
        ensures guess { IsGuess self.now.rule self.now.case lane.new }
    {
        rows_at_corners();
        corners_bound_weights();
        match self.climb(lane, flags, patience) {
            Ended::Settled => Some(!self.is_past(lane)),
            Ended::Past => Some(false),
            Ended::Slow => None,
        }
    }

    /// The same, from 0.
    pub(crate) fn rise_from_zero(
        &self,
        lane: &mut [i64],
        flags: &mut [u32],
        patience: Option<u32>,
    ) -> Option<bool>
        ghost spans: { Spans }
        requires { CanRise self.now spans lane.old flags.old }
        ensures found { IfSome result (λ found. IsFound self.now spans lane.new found) }
        ensures slow { result ≡ None → IsSome patience }
        ensures guess { IsGuess self.now.rule self.now.case lane.new }
    {
        self.start(lane);
        self.rise(lane, flags, patience)
    }
}
