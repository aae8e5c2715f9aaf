//! A guess of what the states of a part are worth.

ghost use Rattle.std.specs.Prelude.{◌≡◌, ◌≤ℤ◌, ◌^◌, pos, length};
ghost use Rattle.lift_model.specs.Links.{AreLinks};
ghost use Rattle.float_guess.specs.Part.{CanGuess, KeepsBeyond, IsSameBeyond, AreRounded};

use crate::floats::ONE;
use crate::part::Part;
use crate::rule::Rule;
use corner_lift::{Case, one_at, rows_at_corners};
use lift_model::Links;
use std::num::nearest_i64_to_f64;

/// By a unit over this a guess differs from what the floats say, so that errors of rounding don't matter.
const MARGINS_IN_A_UNIT: i64 = 64;

/// It differs by this at least, since an elimination keeps some numbers to 36 bits.
const LEAST_MARGIN: i64 = 1 << 32;

/// The share of a unit that a moved guess adds for each expected step: a little less than the half that rounding makes
/// of a step on average.
const SHARE: f64 = 0.390625;

/// The share of what rounding adds to a state's number that is noted, which a guess adds for each expected step: further
/// numbers are less far from where rounding lets them be.
const ROUNDED_SHARE: f64 = 0.6;

/// On which side of what the floats say a guess lies.
#[derive(Clone, Copy)]
pub enum Rounding {
    /// At or below it.
    Down,
    /// Above it.
    Up,
}

/// How a guess is made.
#[derive(Clone, Copy)]
pub enum Method {
    /// By elimination.
    Elimination,
    /// The same, but with the choices and corners that count by what the lane holds.
    FirstElimination,
    /// The same, and beyond what it says on the side of the rounding's opposite, by a share of a unit for each
    /// expected step: the lesser the higher the level that is noted.
    MovedElimination,
    /// By elimination, and beyond what it says by the part of a unit that is noted of a state, for each expected step.
    RoundedElimination,
    /// By so many sweeps at most.
    Sweeps(u32),
    /// Not at all: they are 0, rounded.
    Nothing,
}

impl Rounding {
    /// So many units, of what stands for a probability.
    fn of(self, number: i64, unit: i64) -> i64 {
        let margin = (unit / MARGINS_IN_A_UNIT).max(LEAST_MARGIN);
        let (number, more) = match self {
            Rounding::Down => (number.saturating_sub(margin).max(0), 0),
            Rounding::Up => (number.saturating_add(margin), 1),
        };
        number.checked_div(unit).unwrap_or(0).saturating_add(more)
    }
}

impl Method {
    /// What each expected step brings besides, where the share or the part is whole and `top` stands for 1.
    fn extra(self, rounding: Rounding, top: i64) -> f64 {
        let share = match self {
            Method::MovedElimination => SHARE,
            Method::RoundedElimination => ROUNDED_SHARE,
            Method::Elimination | Method::FirstElimination | Method::Sweeps(_) | Method::Nothing =>
                0.0,
        };
        let extra = share / nearest_i64_to_f64(top);
        match rounding {
            Rounding::Down => extra,
            Rounding::Up => -extra,
        }
    }
}

impl Part<'_> {
    /// Lets the lane hold what stands for probabilities.
    fn scale(&self, lane: &mut [i64], unit: i64)
        requires links { AreLinks self.now.case.now.model self.now.links.now }
        requires size { length lane.old ≡ length self.now.case.now.model.states }
        ensures { IsSameBeyond self.now.rule.ends self.now.case.now self.now.links.now self.now.low self.now.high
            lane.old lane.new }
    {
        for position in self.low..self.high {
            let number = self.number_at(lane, position);
            self.write(lane, position, number.saturating_mul(unit));
        }
    }

    /// Where there are rewards, and sweeps find no end, costs may have none: each state is worth the most. False: there are no
    /// rewards.
    fn take_most(&self, lane: &mut [i64]) -> bool
        requires links { AreLinks self.now.case.now.model self.now.links.now }
        requires size { length lane.old ≡ length self.now.case.now.model.states }
        ensures { IsSameBeyond self.now.rule.ends self.now.case.now self.now.links.now self.now.low self.now.high
            lane.old lane.new }
    {
        if !self.rewarded {
            return false;
        }
        for position in self.low..self.high {
            self.write(lane, position, ONE);
        }
        true
    }

    /// Finds what the states are worth. False: it didn't.
    fn find(&self, lane: &mut [i64], means: &mut [u32], noted: &mut [u32], method: Method) -> bool
        requires links { AreLinks self.now.case.now.model self.now.links.now }
        requires size { length lane.old ≡ length self.now.case.now.model.states }
        ensures { IsSameBeyond self.now.rule.ends self.now.case.now self.now.links.now self.now.low self.now.high
            lane.old lane.new }
    {
        match method {
            Method::Elimination | Method::MovedElimination | Method::RoundedElimination => {
                self.eliminate(lane, means, noted)
                    || self.eliminate_rows(lane, noted)
                    || self.solve_policies(lane, noted)
            }
            Method::FirstElimination => self.eliminate_once(lane, means, noted),
            Method::Sweeps(most) => self.approach(lane, means, most) || self.take_most(lane),
            Method::Nothing => {
                self.scale(lane, 0);
                true
            }
        }
    }

    /// A number of units within the range, for what stands for a probability.
    fn rounded(&self, rounding: Rounding, number: i64, unit: i64) -> i64
        requires { pos 0 ≤ℤ self.now.top }
        ensures { (pos 0 ≤ℤ result) × (result ≤ℤ self.now.top) }
    {
        let number = rounding.of(number, unit);
        if number < 0 {
            0
        } else if number < self.top {
            number
        } else {
            self.top
        }
    }

    /// Lets the lane hold numbers again, of which `top` stands for 1.
    fn round(&self, lane: &mut [i64], rounding: Rounding, unit: i64)
        requires links { AreLinks self.now.case.now.model self.now.links.now }
        requires size { length lane.old ≡ length self.now.case.now.model.states }
        requires top { self.now.top ≡ pos (2 ^ self.now.case.now.w) }
        ensures same { IsSameBeyond self.now.rule.ends self.now.case.now self.now.links.now self.now.low self.now.high
            lane.old lane.new }
        ensures rounded { AreRounded self.now.rule.ends self.now.case.now self.now.links.now self.now.low self.now.high
            lane.new }
    {
        for position in self.low..self.high {
            let number = self.number_at(lane, position);
            self.write(lane, position, self.rounded(rounding, number, unit));
        }
    }
}

/// Guesses what the states of a part are worth, which stand at the positions from `low` on and before `high`
/// and whose numbers aren't given, by the numbers of the others: at or below that, or above it, by less than two
/// units, if it does well. What `means` holds is free. What was noted at the positions of the part is lost, but for
/// the levels of their shares, which stay. False: the guess isn't worth much, since the way didn't do.
pub fn guess_part(
    case: &Case,
    links: &Links,
    weights: &[i128],
    rule: Rule,
    rounding: Rounding,
    lane: &mut [i64],
    means: &mut [u32],
    noted: &mut [u32],
    low: u32,
    high: u32,
    method: Method,
) -> bool
    requires { CanGuess case.now links.now lane.old }
    ensures { KeepsBeyond rule.entry.ends case.now links.now low high lane.old lane.new }
{
    rows_at_corners();
    let top = one_at(case.w());
    let part = Part {
        case: &*case,
        links: &*links,
        weights: &*weights,
        rule,
        top,
        extra: method.extra(rounding, top),
        rewarded: rule.ends.has_rewards(),
        low,
        high,
    };
    let unit = ONE.checked_div(top).unwrap_or(1);
    part.scale(lane, unit);
    let done = part.find(lane, means, noted, method);
    part.round(lane, rounding, unit);
    done
}

/// Notes of each state whose number isn't given, at its position, which part of a unit rounding adds to the mean that
/// counts of the numbers in the lane, with the state's reward: the levels of the shares are lost, but no number that is
/// noted. So `Method::RoundedElimination` guesses what rounding up makes of them.
pub fn note_roundings(
    case: &Case,
    links: &Links,
    weights: &[i128],
    rule: Rule,
    lane: &[i64],
    noted: &mut [u32],
)
    requires { CanGuess case.now links.now lane.now }
    ensures { length noted.new ≡ length noted.old }
{
    rows_at_corners();
    let top = one_at(case.w());
    let whole = Part {
        case: &*case,
        links: &*links,
        weights: &*weights,
        rule,
        top,
        extra: 0.0,
        rewarded: rule.ends.has_rewards(),
        low: 0,
        high: 0,
    };
    for s in 0..case.model().states() {
        if !rule.ends.has(case.model(), s) {
            whole.note_rounding(lane, noted, s);
        }
    }
}
