//! Guesses by elimination that are moved until one lies at or below each bound, and near the least one.

ghost use Rattle.std.specs.Prelude.{◌≡◌, length, IfSome};
ghost use Rattle.lift_grid.specs.Rectangle.{Spans};
ghost use Rattle.rounded_iter.specs.Watching.{CanClimb, IsFound, CanGuess, IsGuess, CanConfirm, CanTest, from_zero};

use crate::guess::{RAISES, Raised};
use crate::table::Table;
use corner_lift::{corners_bound_weights, rows_at_corners};
use float_guess::{HELD_STATES, Method, lessen_share, make_shares_whole, note_roundings};

/// How many moved guesses are tried, until one is no fault after so many passes.
const TRIES: u32 = 8;

const TRY_RAISES: u32 = 64;

/// How many are tried that are moved by what rounding makes of numbers, and how many passes raise one that is no fault
/// before that is noted anew.
const ROUNDED_TRIES: u32 = 16;

const MORE_RAISES: u32 = 256;

/// After so many it is asked whether they come near: none is tried any more where the last one may have been a fault at
/// more than one of so many states.
const LAST_FAR_TRY: u32 = 4;

const FAR_FAULTS: u32 = 5;

/// One that isn't moved is raised further where at most one state of so many is flagged, in so many passes.
const FEW_FLAGS: usize = 2;

const NEARBY_RAISES: u32 = 16;

/// How many passes raise a guess where states may be held instead, as in components of so many states.
const HELD_RAISES: u32 = 1024;

const SOON: u32 = 128;

/// How many more passes there are for each state on which a fault has an effect.
const SPREAD_RAISES: u32 = 8;

/// Whether only few states are flagged: most have settled.
fn has_few_flags(flags: &[u32]) -> bool {
    let mut count: usize = 0;
    for flag in flags {
        if *flag != 0 {
            count = count.saturating_add(1);
        }
    }
    count <= flags.len() / FEW_FLAGS
}

impl Table<'_, '_> {
    /// Whether the guess may be a fault at many states.
    fn has_many_faults(&self, lane: &[i64], noted: &[u32]) -> bool
        requires { CanTest self.now lane.now noted.now }
    {
        let states = self.rows.model().states();
        let mut count: u32 = 0;
        for s in 0..states {
            if !self.is_sure_at(lane, noted, s) {
                count = count.saturating_add(1);
            }
        }
        count > states / FAR_FAULTS
    }

    /// Makes the share of each state less at which the guess may be a fault, and of so many at later positions.
    fn lessen_shares(&self, lane: &[i64], noted: &mut [u32], spread: u32)
        requires can { CanTest self.now lane.now noted.old }
        ensures { length noted.new ≡ length noted.old }
    {
        let states = self.rows.model().states();
        let mut left: u32 = 0;
        for position in 0..states {
            let s = self
                .rows
                .order()
                .get(position as usize)
                .copied()
                .unwrap_or(0);
            if s < states && !self.is_sure_at(lane, noted, s) {
                left = spread.saturating_add(1);
            }
            if left > 0 {
                left -= 1;
                lessen_share(noted, position);
            }
        }
    }

    /// Notes what rounding makes of each number.
    fn note_all_roundings(&self, lane: &[i64], noted: &mut [u32])
        requires { CanGuess self.now lane.now }
        ensures { length noted.new ≡ length noted.old }
    {
        let rows = self.rows;
        note_roundings(
            rows.case(),
            rows.links(),
            rows.weights(),
            self.rule,
            lane,
            noted,
        );
    }

    /// Raises guesses that are moved by what rounding makes of the numbers, where there are rewards, and tells whether the
    /// initial state's number is within the limit: each is moved by less for the states at which the last one may have
    /// been a fault. Where the last one was none, but takes long, it is raised for a while; then states are held, where no
    /// component is too large for that, and else what rounding makes of it is noted anew. None: no least bound came of them
    /// for certain.
    fn find_from_rounded(
        &self,
        lane: &mut [i64],
        flags: &mut [u32],
        noted: &mut [u32],
    ) -> Option<bool>
        ghost spans: { Spans }
        requires { CanConfirm self.now spans lane.old flags.old noted.old }
        ensures found { IfSome result (λ found. IsFound self.now spans lane.new found) }
        ensures guess { IsGuess self.now.rule self.now.case lane.new }
    {
        rows_at_corners();
        corners_bound_weights();
        self.note_all_roundings(lane, noted);
        let mut spread: u32 = 0;
        for tried in 1..=ROUNDED_TRIES {
            let passes = TRY_RAISES.saturating_add(SPREAD_RAISES.saturating_mul(spread));
            match self.rise_from_guess(lane, flags, noted, Method::RoundedElimination, passes) {
                Raised::Least => return Some(!self.is_past(lane)),
                Raised::Past => return Some(false),
                Raised::Certain => {
                    if let Some(found) = self.rise(lane, flags, Some(MORE_RAISES)) {
                        return Some(found);
                    }
                    if self.has_no_larger(HELD_STATES as u32) {
                        return self.rise_held(lane, flags, false);
                    }
                    self.note_all_roundings(lane, noted);
                    spread = 0;
                }
                Raised::High | Raised::Slow | Raised::Nothing => {
                    if tried == LAST_FAR_TRY && self.has_many_faults(lane, noted) {
                        return None;
                    }
                    self.lessen_shares(lane, noted, spread);
                    spread = spread.saturating_mul(2).max(1);
                }
            }
        }
        None
    }

    /// The same of moved ones, where there are no rewards: each by lesser shares for the states at which the last one may
    /// have been a fault.
    fn find_from_moved(
        &self,
        lane: &mut [i64],
        flags: &mut [u32],
        noted: &mut [u32],
    ) -> Option<bool>
        ghost spans: { Spans }
        requires { CanConfirm self.now spans lane.old flags.old noted.old }
        ensures found { IfSome result (λ found. IsFound self.now spans lane.new found) }
        ensures guess { IsGuess self.now.rule self.now.case lane.new }
    {
        rows_at_corners();
        corners_bound_weights();
        if self.has_rewards() {
            return self.find_from_rounded(lane, flags, noted);
        }
        make_shares_whole(noted);
        let mut spread: u32 = 0;
        for _ in 0..TRIES {
            let passes = TRY_RAISES.saturating_add(SPREAD_RAISES.saturating_mul(spread));
            let method = Method::MovedElimination;
            if let Some(found) = self.find_from_guess(lane, flags, noted, method, passes) {
                return Some(found);
            }
            self.lessen_shares(lane, noted, spread);
            spread = spread.saturating_mul(2).max(1);
        }
        None
    }

    /// Raises a vector at or below each bound to the least one for a while, where most states have settled, and else with
    /// states that are held, and tells whether the initial state's number is within the limit. None: it took too long.
    fn rise_nearby(&self, lane: &mut [i64], flags: &mut [u32]) -> Option<bool>
        ghost spans: { Spans }
        requires { CanClimb self.now (from_zero spans) lane.old flags.old }
        ensures found { IfSome result (λ found. IsFound self.now spans lane.new found) }
        ensures guess { IsGuess self.now.rule self.now.case lane.new }
    {
        if !has_few_flags(flags) {
            return self.rise_held(lane, flags, true);
        }
        if let Some(found) = self.rise(lane, flags, Some(NEARBY_RAISES)) {
            return Some(found);
        }
        self.rise_held(lane, flags, true)
    }

    /// Raises guesses by elimination, and tells whether the initial state's number is within the limit: moved ones where
    /// one that isn't moved lies at or below each bound. None: no least bound came of them for certain.
    pub(crate) fn rise_from_guesses(
        &self,
        lane: &mut [i64],
        flags: &mut [u32],
        noted: &mut [u32],
    ) -> Option<bool>
        ghost spans: { Spans }
        requires { CanConfirm self.now spans lane.old flags.old noted.old }
        ensures found { IfSome result (λ found. IsFound self.now spans lane.new found) }
        ensures guess { IsGuess self.now.rule self.now.case lane.new }
    {
        rows_at_corners();
        corners_bound_weights();
        let raised = self.rise_from_guess(lane, flags, noted, Method::Elimination, TRY_RAISES);
        match raised {
            Raised::Least => return Some(!self.is_past(lane)),
            Raised::Past => return Some(false),
            Raised::Certain => {
                if self.is_past(lane) {
                    return Some(false);
                }
                if let Some(found) = self.rise_nearby(lane, flags) {
                    return Some(found);
                }
                if let Some(found) = self.find_from_moved(lane, flags, noted) {
                    return Some(found);
                }
            }
            Raised::Slow | Raised::High | Raised::Nothing => {
                if let Some(found) = self.rise_held_from_zero(lane, flags, true) {
                    return Some(found);
                }
                if !matches!(raised, Raised::Slow) {
                    return None;
                }
            }
        }
        let raises = if self.has_no_larger(SOON) {
            HELD_RAISES
        } else {
            RAISES
        };
        self.find_from_guess(lane, flags, noted, Method::Elimination, raises)
    }
}
