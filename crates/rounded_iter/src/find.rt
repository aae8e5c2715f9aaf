//! The least bound: by an iteration from below, which where it takes long is begun again from a guess.

ghost use Rattle.std.specs.Prelude.{◌≡◌, ◌*◌, length};
ghost use Rattle.lift_grid.specs.Rectangle.{Spans};
ghost use Rattle.rounded_iter.specs.Rising.{IsRead};
ghost use Rattle.rounded_iter.specs.Watching.{CanFind, IsFound, CanConfirm};

use crate::guess::Raised;
use crate::table::Table;
use corner_lift::{corners_bound_weights, rows_at_corners};
use float_guess::Method;

/// How many passes over a component are made before the first guess.
const FIRST_PATIENCE: u32 = 24;

/// How many where there are rewards and most states lie in one component: a guess of that is one of nearly all.
const LARGE_PATIENCE: u32 = 4;

/// As many passes are made at first as there are numbers, where these are no more: no state rises more often.
const FEW_NUMBERS: i64 = 1024;

/// How many are made from 0 before the first guess by sweeps: a sweep takes as long as several passes, and less than some
/// fifteen sweeps don't do.
const SWEEP_PATIENCE: u32 = 96;

/// How many times as many are made each time that a guess fails.
const PATIENCE_STEP: u32 = 64;

/// How many sweeps are made for a guess, for each pass that there is patience for.
const SWEEPS_A_PASS: u32 = 16;

/// How many passes raise such a guess, for each of these.
const RAISES_A_PASS: u32 = 32;

/// How many passes test a guess that was given.
const TEST_RAISES: u32 = 32;

/// How many guesses are made.
const GUESSES: u32 = 3;

impl Table<'_, '_> {
    /// Finds the least bound where that takes long, and tells whether the initial state's number in it is
    /// within the limit. False: it is above it in every bound. Where no guess by elimination does, nor a state that is held,
    /// more passes are made before guesses by sweeps.
    fn find_slow(&self, lane: &mut [i64], flags: &mut [u32], noted: &mut [u32]) -> bool
        ghost spans: { Spans }
        requires { CanConfirm self.now spans lane.old flags.old noted.old }
        ensures { IsFound self.now spans lane.new result }
    {
        if let Some(found) = self.rise_from_guesses(lane, flags, noted) {
            return found;
        }
        if let Some(found) = self.rise_held_from_zero(lane, flags, false) {
            return found;
        }
        if let Some(found) = self.rise_from_zero(lane, flags, Some(SWEEP_PATIENCE)) {
            return found;
        }
        let mut patience = FIRST_PATIENCE;
        for _ in 0..GUESSES {
            let method = Method::Sweeps(patience.saturating_mul(SWEEPS_A_PASS));
            let raises = patience.saturating_mul(RAISES_A_PASS);
            if let Some(found) = self.find_from_guess(lane, flags, noted, method, raises) {
                return found;
            }
            patience = patience.saturating_mul(PATIENCE_STEP);
            if let Some(found) = self.rise_from_zero(lane, flags, Some(patience)) {
                return found;
            }
        }
        match self.rise_from_zero(lane, flags, None) {
            Some(found) => found,
            None => false,
        }
    }

    /// Whether most states lie in one component, which is that of the state at the middle position then.
    fn has_large_component(&self) -> bool {
        let states = self.rows.model().states();
        let middle = states / 2;
        let mut low = 0;
        for position in (0..=middle).rev() {
            if self.is_end(position) {
                low = position;
                break;
            }
        }
        let mut high = states;
        for position in middle..states {
            if low < position && self.is_end(position) {
                high = position;
                break;
            }
        }
        high.saturating_sub(low) > middle
    }

    /// How many passes are made before the first guess.
    fn first_patience(&self) -> u32 {
        if self.top > FEW_NUMBERS {
            if self.has_rewards() && self.has_large_component() {
                return LARGE_PATIENCE;
            }
            return FIRST_PATIENCE;
        }
        u32::try_from(self.top).unwrap_or(FIRST_PATIENCE)
    }

    /// Raises a vector at or below the least bound to it, and tells whether the initial state's number in
    /// it is within the limit. False: it is above it in every bound.
    pub(crate) fn find(&self, lane: &mut [i64], work: &mut [u32]) -> bool
        ghost spans: { Spans }
        requires { CanFind self.now spans lane.old work.old }
        ensures { IsFound self.now spans lane.new result }
    {
        let states = self.rows.model().states() as usize;
        let (flags, noted) = work.split_at_mut(states);
        if let Some(found) = self.rise(lane, flags, Some(self.first_patience())) {
            return found;
        }
        self.find_slow(lane, flags, noted)
    }

    /// As `find`, where the vector may be past the limit.
    fn find_above(&self, lane: &mut [i64], work: &mut [u32]) -> bool
        ghost spans: { Spans }
        requires { CanFind self.now spans lane.old work.old }
        ensures { IsFound self.now spans lane.new result }
    {
        rows_at_corners();
        corners_bound_weights();
        if self.is_past(lane) {
            return false;
        }
        self.find(lane, work)
    }

    /// Finds the least bound from the guess in `lane`, or from 0 where the guess isn't seen to lie at or below each bound,
    /// and tells whether the initial state's number is within the limit. False: it is above it in every bound.
    pub(crate) fn find_by_guess(&self, lane: &mut [i64], work: &mut [u32]) -> bool
        ghost spans: { Spans }
        requires read { IsRead self.now spans }
        requires size { length lane.old ≡ length self.now.case.model.states }
        requires places { length work.old ≡ 2 * length self.now.case.model.states }
        ensures { IsFound self.now spans lane.new result }
    {
        rows_at_corners();
        corners_bound_weights();
        self.take_guess(lane);
        let states = self.rows.model().states() as usize;
        let (flags, noted) = work.split_at_mut(states);
        match self.confirm_all(lane, flags, noted, TEST_RAISES) {
            Raised::Least => !self.is_past(lane),
            Raised::Certain => self.find_above(lane, work),
            Raised::Past | Raised::High | Raised::Slow | Raised::Nothing => {
                self.start(lane);
                self.find(lane, work)
            }
        }
    }
}
