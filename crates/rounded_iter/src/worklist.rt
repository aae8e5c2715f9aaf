//! An iteration that looks at a state again only where one that it leads to rose. Each position in the
//! order of states has a flag, which says that its state may have to rise.

ghost use Rattle.std.specs.Prelude.{◌≡◌, ◌≢◌, ◌+◌, ◌^◌, ◌<◌, ◌≤ℤ◌, ◌<ℤ◌, ℕ, true, false, pos, length, slice_index_or, slice_set, IsTrue, IsFalse, IsSome};
ghost use Rattle.corner_lift.specs.Case.{number};
ghost use Rattle.lift_grid.specs.Rectangle.{Spans};
ghost use Rattle.lift_model.specs.Model.{choices};
ghost use Rattle.float_guess.specs.Rule.{is_given, given};
ghost use Rattle.rounded_iter.specs.Rising.{Run, CanTryOnly, IsSolvedBy, unrewarded};
ghost use Rattle.rounded_iter.specs.Watching.{CanRaise, CanRaiseFree, IsRaisedState, CanFlag, IsFlagged, CanVisit, IsVisited, CanTurn, IsTurned, CanPass, IsPassed, IsSettled, CanGoOn, IsKept, CanClimb, IsClimbed, flag};

use crate::solve::more_extreme;
use crate::table::{Ended, Table};
use corner_lift::{corners_bound_weights, rows_at_corners};
use float_guess::Ends;

/// Flags a position that lies before the frontier, but for one.
#[inline(always)]
fn set_flag(work: &mut [u32], position: u32, but: u32, frontier: u32)
    requires { position < length work.old }
    ensures kept { (j : ℕ) → flag work.new j ≡ 0 → flag work.old j ≡ 0 }
    ensures flagged { position < frontier → position ≢ but → flag work.new position ≢ 0 }
{
    if position < frontier && position != but {
        work[position as usize] = 1;
    }
}

/// Takes away the flag of a position, and tells whether there was one.
#[inline(always)]
pub(crate) fn take_flag(work: &mut [u32], position: u32) -> bool
    requires { position < length work.old }
    ensures clear { flag work.new position ≡ 0 }
    ensures other { (j : ℕ) → j ≢ position → flag work.new j ≡ flag work.old j }
    ensures none { IsFalse result → work.new ≡ work.old }
{
    let place = position as usize;
    if work[place] == 0 {
        return false;
    }
    work[place] = 0;
    true
}

/// Writes the number of a state, and tells whether it is another one.
#[inline(always)]
pub(crate) fn write_number(lane: &mut [i64], s: u32, number: i64) -> bool
    requires { s < length lane.old }
    ensures written { lane.new ≡ slice_set lane.old s number }
    ensures other { IsTrue result → number ≢ slice_index_or lane.old s (pos 0) }
    ensures same { IsFalse result → number ≡ slice_index_or lane.old s (pos 0) }
{
    let is_other = number != lane[s as usize];
    lane[s as usize] = number;
    is_other
}

/// Flags all positions.
fn flag_all(work: &mut [u32])
    ensures size { length work.new ≡ length work.old }
    ensures flagged { (j : ℕ) → j < length work.new → flag work.new j ≢ 0 }
{
    for place in 0..work.len() {
        work[place] = 1;
    }
}

/// Whether no position is flagged.
#[inline(always)]
fn is_clear(work: &[u32]) -> bool
    ensures { IsTrue result → (j : ℕ) → j < length work.now → flag work.now j ≡ 0 }
{
    let mut most = 0;
    for flag in work {
        most = most.max(*flag);
    }
    most == 0
}

/// Whether more passes were made than there is patience for.
#[inline(always)]
fn is_over(passes: u32, patience: Option<u32>) -> bool
    ensures { IsTrue result → IsSome patience }
{
    match patience {
        Some(most) => passes >= most,
        None => false,
    }
}

impl Table<'_, '_> {
    /// The least number from the state's own on that is enough for the choices that count, without rewards.
    #[inline(always)]
    fn enough_for_state(&self, lane: &[i64], s: u32) -> i64
        ghost spans: { Spans }
        requires { CanTryOnly self.now spans lane.now s }
        ensures { IsSolvedBy (unrewarded self.now.rule) self.now.case spans lane.now s
            (length (choices self.now.case.model s)) result }
    {
        rows_at_corners();
        corners_bound_weights();
        let mut number = self.enough(lane, s, 0);
        for a in 1..self.rows.choice_count(s) {
            let other = self.enough(lane, s, a);
            number = more_extreme(self.rule.choice, number, other);
        }
        number
    }

    /// Raises the number of a state to what is enough for the choices that count, and tells whether it rose.
    #[inline(always)]
    fn raise(&self, lane: &mut [i64], s: u32) -> bool
        ghost run: { Run }
        requires { CanRaiseFree self.now run lane.old s false }
        ensures { IsRaisedState self.now run lane.old lane.new s result }
    {
        rows_at_corners();
        corners_bound_weights();
        let number = self.enough_for_state(lane, s);
        write_number(lane, s, number)
    }

    /// Whether the number of a state is given, and less than 1.
    #[inline(always)]
    fn is_held(&self, s: u32) -> bool
        requires { s < length self.now.case.model.states }
        ensures held { IsTrue result → is_given self.now.case.model self.now.rule.ends s ≡ true }
        ensures free { IsFalse result → is_given self.now.case.model self.now.rule.ends s ≡ true
            → given self.now.case self.now.rule.ends s ≡ pos (2 ^ self.now.case.w) }
    {
        match self.rule.ends {
            Ends::Goals => false,
            Ends::Unranked(_) | Ends::Rewarded(_) => self.rows.model().is_goal(s),
        }
    }

    /// The same, by a short path where the state has a single choice. Where the number is given, nothing rises.
    #[inline(always)]
    pub(crate) fn raise_lone(&self, lane: &mut [i64], s: u32) -> bool
        ghost run: { Run }
        requires { CanRaise self.now run lane.old s }
        ensures { IsRaisedState self.now run lane.old lane.new s result }
    {
        rows_at_corners();
        corners_bound_weights();
        if self.is_held(s) {
            return false;
        }
        if self.has_rewards() {
            return self.raise_rewarded(lane, s);
        }
        match self.enough_for_only(lane, s) {
            Some(number) => write_number(lane, s, number),
            None => self.raise(lane, s),
        }
    }

    /// Flags the states that lead to the one at a position, as far as they stand before the frontier.
    /// The state itself needs no flag: what was raised is enough, with its self loops.
    #[inline(always)]
    pub(crate) fn flag_before(&self, work: &mut [u32], s: u32, position: u32, frontier: u32)
        requires { CanFlag self.now work.old s position }
        ensures { IsFlagged self.now work.old work.new s frontier }
    {
        for p in self.rows.positions_before(s) {
            set_flag(work, *p, position, frontier);
        }
    }

    /// Raises the state at a position, and where it rose, flags the states that lead to it.
    #[inline(always)]
    fn visit(
        &self,
        lane: &mut [i64],
        work: &mut [u32],
        s: u32,
        position: u32,
        frontier: u32,
    ) -> bool
        ghost run: { Run }
        requires { CanVisit self.now run lane.old work.old s position frontier }
        ensures { IsVisited self.now run lane.old lane.new work.old work.new frontier result }
    {
        let rose = self.raise_lone(lane, s);
        if rose {
            self.flag_before(work, s, position, frontier);
        }
        rose
    }

    /// Visits the state at a position, where it is flagged, and tells whether it rose.
    #[inline(always)]
    fn turn(&self, lane: &mut [i64], work: &mut [u32], position: u32, frontier: u32) -> bool
        ghost run: { Run }
        requires { CanTurn self.now run lane.old work.old position frontier }
        ensures { IsTurned self.now run lane.old lane.new work.old work.new frontier position result }
    {
        if !take_flag(work, position) {
            return false;
        }
        let s = self.rows.order()[position as usize];
        if s >= self.rows.model().states() {
            return false;
        }
        self.visit(lane, work, s, position, frontier)
    }

    /// Visits the flagged states of some positions, and tells whether one rose.
    fn pass(&self, lane: &mut [i64], work: &mut [u32], low: u32, high: u32) -> bool
        ghost run: { Run }
        requires { CanPass self.now run lane.old work.old high }
        ensures { IsPassed self.now run lane.old lane.new work.new low high high result }
    {
        let mut rose = false;
        for position in low..high {
            if self.turn(lane, work, position, high) {
                rose = true;
            }
        }
        rose
    }

    /// Whether the initial state's number is above the limit.
    #[inline(always)]
    pub(crate) fn is_past(&self, lane: &[i64]) -> bool
        requires { self.now.case.model.init < length lane.now }
        ensures past { IsTrue result → self.now.limit <ℤ number lane.now self.now.case.model.init }
        ensures within { IsFalse result → number lane.now self.now.case.model.init ≤ℤ self.now.limit }
    {
        lane[self.rows.model().init() as usize] > self.limit
    }

    /// Visits flagged states of some positions, in passes, until none is flagged. Stops where the initial
    /// state's number passed the limit, and where `patience` passes didn't do.
    fn settle(
        &self,
        lane: &mut [i64],
        work: &mut [u32],
        low: u32,
        high: u32,
        patience: Option<u32>,
    ) -> Ended
        ghost run: { Run }
        requires { CanPass self.now run lane.old work.old high }
        ensures { IsSettled self.now run lane.new work.new low high patience result }
    {
        let mut passes: u32 = 0;
        while self.pass(lane, work, low, high) {
            if self.is_past(lane) {
                return Ended::Past;
            }
            if is_over(passes, patience) {
                return Ended::Slow;
            }
            passes = passes.saturating_add(1);
        }
        Ended::Settled
    }

    /// The same for a component whose states were visited once; a single state needs no more.
    #[inline(always)]
    fn settle_component(
        &self,
        lane: &mut [i64],
        work: &mut [u32],
        low: u32,
        high: u32,
        patience: Option<u32>,
    ) -> Ended
        ghost run: { Run }
        requires { CanPass self.now run lane.old work.old high }
        ensures keeps { IsKept self.now run lane.new work.new high }
        ensures past { result ≡ Ended.Past → self.now.limit <ℤ number lane.new self.now.case.model.init }
        ensures slow { result ≡ Ended.Slow → IsSome patience }
    {
        if low.saturating_add(1) >= high {
            return Ended::Settled;
        }
        self.settle(lane, work, low, high, patience)
    }

    /// Visits the state at a position, the first of those that weren't visited. Where no state before it
    /// leads to it, none needs a flag.
    #[inline(always)]
    fn visit_first(&self, lane: &mut [i64], work: &mut [u32], position: u32)
        ghost run: { Run }
        requires { CanGoOn self.now run lane.old work.old position }
        ensures { IsKept self.now run lane.new work.new (position + 1) }
    {
        let s = self.rows.order()[position as usize];
        if s >= self.rows.model().states() {
            return;
        }
        if self.rows.links().is_lone(s) {
            self.raise_lone(lane, s);
        } else {
            self.visit(lane, work, s, position, position + 1);
        }
    }

    /// Whether a component ends before this position.
    #[inline(always)]
    pub(crate) fn is_end(&self, position: u32) -> bool {
        let before = position.saturating_sub(1) as usize;
        self.rows.links().component_ends().get(before).copied() == Some(position)
    }

    /// Raises a vector to the least bound, component by component from those below. Stops where the
    /// initial state's number passed the limit, and where `patience` passes over a component didn't do.
    pub(crate) fn climb(&self, lane: &mut [i64], work: &mut [u32], patience: Option<u32>) -> Ended
        ghost run: { Run }
        requires { CanClimb self.now run lane.old work.old }
        ensures { IsClimbed self.now run lane.new patience result }
    {
        let states = self.rows.model().states();
        let mut low = 0;
        for position in 0..states {
            self.visit_first(lane, work, position);
            if self.is_end(position + 1) {
                match self.settle_component(lane, work, low, position + 1, patience) {
                    Ended::Settled => low = position + 1,
                    Ended::Past => return Ended::Past,
                    Ended::Slow => return Ended::Slow,
                }
            }
        }
        if is_clear(work) {
            return Ended::Settled;
        }
        self.settle(lane, work, 0, states, patience)
    }

    /// Raises a vector, all states in each pass and not component by component: so a component that takes long doesn't keep
    /// others waiting. Stops where the initial state's number passed the limit, and where `patience` passes didn't do.
    pub(crate) fn settle_all(
        &self,
        lane: &mut [i64],
        work: &mut [u32],
        patience: Option<u32>,
    ) -> Ended
        ghost run: { Run }
        requires { CanClimb self.now run lane.old work.old }
        ensures { IsClimbed self.now run lane.new patience result }
    {
        flag_all(work);
        self.settle(lane, work, 0, self.rows.model().states(), patience)
    }
}
