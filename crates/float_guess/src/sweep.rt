//! A guess by sweeps over the states of a part.

ghost use Rattle.std.specs.Prelude.{◌≡◌, ◌<◌, length};
ghost use Rattle.lift_model.specs.Links.{AreLinks, HasChoice};
ghost use Rattle.float_guess.specs.Part.{IsSameBeyond};

use crate::floats::{ONE, float_of};
use crate::notes::Note;
use crate::part::{Part, first_weight};
use std::num::{nearest_i64_to_f64, saturating_f64_to_u32};

/// A part is done where no step is more than a number's unit over this.
const STEPS_IN_A_UNIT: i64 = 256;

/// It is done as well where what further steps would add up to is at most as many of that.
const CLOSE: f64 = 64.0;

/// After how many sweeps, at least, the rate is taken at which steps become less.
const PERIOD: u32 = 12;

/// How many sweeps are not counted for it.
const CALM: u32 = 4;

/// By so much of a unit a mean may be above a number that it is equal to.
const SLACK: f64 = 0.000001;

/// How a part's sweeps go.
#[derive(Clone, Copy)]
struct Sweeping {
    /// By how much of its step a state moves in a sweep: from 1 to below 2.
    relaxation: f64,
    /// The greatest step when the rate's sweeps began.
    first: f64,
    /// How many sweeps were counted, and after how many the rate is taken.
    count: u32,
    period: u32,
    /// Whether it jumps along the last steps, as long as that does much.
    jumps: bool,
    /// The greatest step when it last jumped, or when relaxation began.
    before: f64,
}

/// How many corners a row has at most.
pub(crate) const CORNERS: u32 = 16;

/// Weighted means of a row at each corner: what they are summed up from, and the weights of that.
#[derive(Clone, Copy)]
pub(crate) struct Means {
    sums: [f64; CORNERS as usize],
    rests: [f64; CORNERS as usize],
}

impl Means {
    /// Those of no weight.
    const NONE: Means = Means {
        sums: [0.0; CORNERS as usize],
        rests: [0.0; CORNERS as usize],
    };

    /// Adds a weight into what is worth so much, at a corner.
    #[inline(always)]
    fn add(&mut self, corner: u32, weight: f64, worth: f64) {
        if let Some(sum) = self.sums.get_mut(corner as usize) {
            *sum += weight * worth;
        }
        if let Some(rest) = self.rests.get_mut(corner as usize) {
            *rest += weight;
        }
    }

    /// The mean at a corner, where so much is added to its sum.
    #[inline(always)]
    fn mean(&self, corner: u32, added: f64) -> f64 {
        let sum = self.sums.get(corner as usize).copied().unwrap_or(0.0) + added;
        mean_of(sum, self.rests.get(corner as usize).copied().unwrap_or(0.0))
    }
}

/// What a sum is worth over its weights. Where it has none, it is without end, if there is something to sum up.
#[inline(always)]
fn mean_of(sum: f64, rest: f64) -> f64 {
    if rest > 0.0 {
        sum / rest
    } else if sum > 0.0 {
        1.0
    } else {
        0.0
    }
}

/// The relaxation that suits a rate at which steps of relaxed sweeps become less.
fn suitable_relaxation(rate: f64, relaxation: f64) -> f64 {
    let plain = if relaxation <= 1.0 {
        rate
    } else {
        let part = rate + relaxation - 1.0;
        part * part / (rate * relaxation * relaxation)
    };
    2.0 / (1.0 + (1.0 - plain.min(0.999999999)).max(0.0).sqrt())
}

impl Sweeping {
    /// How it goes on, given the rate at which steps became less and the greatest step now. A jump did
    /// much where the step is now less than a third.
    fn turned(self, rate: f64, most: f64) -> Sweeping {
        let mut next = self;
        next.count = 0;
        if self.jumps && most <= self.before * 0.3 {
            next.before = most;
            return next;
        }
        if self.jumps {
            next.jumps = false;
            next.before = most;
        }
        let suitable = suitable_relaxation(rate, self.relaxation);
        if rate < 1.0 && rate > self.relaxation - 1.0 && suitable > self.relaxation {
            next.relaxation = suitable;
            next.period = saturating_f64_to_u32(2.0 / (2.0 - suitable)).saturating_add(PERIOD);
        }
        next
    }
}

impl Part<'_> {
    /// The weighted mean of a row at a corner, of the states but its own, with the reward of each visit.
    #[inline(always)]
    pub(crate) fn mean(&self, lane: &[i64], s: u32, a: u32, corner: u32, reward: f64) -> f64
        requires links { AreLinks self.now.case.now.model self.now.links.now }
        requires row { HasChoice self.now.case.now.model s a }
    {
        let place = self.links.place(s, a);
        let mut at = first_weight(place, corner);
        let mut sum = 0.0;
        let mut rest = 0.0;
        for target in self.links.targets(place) {
            if *target != s {
                let weight = float_of(self.weights.get(at).copied().unwrap_or(0));
                sum += weight * self.worth(lane, *target);
                rest += weight;
            }
            at = at.wrapping_add(1);
        }
        if self.rewarded {
            sum += reward * self.whole(place, corner);
        }
        mean_of(sum, rest)
    }

    /// What the weighted means of a row at all its corners are summed up from, without rewards: what a state is worth is
    /// looked up once for all of them.
    pub(crate) fn means(&self, lane: &[i64], s: u32, a: u32) -> Means
        requires links { AreLinks self.now.case.now.model self.now.links.now }
        requires row { HasChoice self.now.case.now.model s a }
    {
        let place = self.links.place(s, a);
        let corners = place.corners.min(CORNERS);
        let mut means = Means::NONE;
        let mut first = first_weight(place, 0);
        for target in self.links.targets(place) {
            if *target != s {
                let worth = self.worth(lane, *target);
                let mut at = first;
                for corner in 0..corners {
                    let weight = float_of(self.weights.get(at).copied().unwrap_or(0));
                    means.add(corner, weight, worth);
                    at = at.wrapping_add(place.count as usize);
                }
            }
            first = first.wrapping_add(1);
        }
        means
    }

    /// The weighted mean of a row at a corner, by those at all corners.
    pub(crate) fn mean_by(&self, means: &Means, s: u32, a: u32, corner: u32, reward: f64) -> f64
        requires links { AreLinks self.now.case.now.model self.now.links.now }
        requires row { HasChoice self.now.case.now.model s a }
    {
        if self.rewarded {
            means.mean(corner, reward * self.whole(self.links.place(s, a), corner))
        } else {
            means.mean(corner, 0.0)
        }
    }

    /// The mean at the corner that counts.
    fn choice_mean(&self, lane: &[i64], s: u32, a: u32, reward: f64) -> f64
        requires links { AreLinks self.now.case.now.model self.now.links.now }
        requires row { HasChoice self.now.case.now.model s a }
    {
        let corners = self.links.place(s, a).corners;
        if corners <= 1 {
            return self.mean(lane, s, a, 0, reward);
        }
        let means = self.means(lane, s, a);
        let mut mean = self.mean_by(&means, s, a, 0, reward);
        for corner in 1..corners {
            let other = self.mean_by(&means, s, a, corner, reward);
            mean = self.rule.corner.of(mean, other);
        }
        mean
    }

    /// The mean of the choice that counts.
    fn state_mean(&self, lane: &[i64], s: u32) -> f64
        requires links { AreLinks self.now.case.now.model self.now.links.now }
        requires state { s < length self.now.case.now.model.states }
    {
        let mut mean: f64 = 0.0;
        let reward = if self.rewarded {
            self.reward_of(s)
        } else {
            0.0
        };
        for a in 0..self.case.model().choices(s) {
            let other = self.choice_mean(lane, s, a, reward);
            mean = if a == 0 {
                other
            } else {
                self.rule.choice.of(mean, other)
            };
        }
        mean
    }

    /// Moves the state at a position by its step, relaxed. Gives the step's size, and notes by how much
    /// it moved up, in units.
    pub(crate) fn relax(
        &self,
        lane: &mut [i64],
        noted: &mut [u32],
        position: u32,
        relaxation: f64,
        unit: f64,
    ) -> f64
        requires links { AreLinks self.now.case.now.model self.now.links.now }
        requires size { length lane.old ≡ length self.now.case.now.model.states }
        ensures { IsSameBeyond self.now.rule.ends self.now.case.now self.now.links.now self.now.low self.now.high
            lane.old lane.new }
    {
        let Some(s) = self.state_at(position) else {
            return 0.0;
        };
        let old = self.worth_at(lane, position);
        let step = self.state_mean(lane, s) - old;
        self.write_worth(lane, position, old + relaxation * step);
        if let Some(note) = noted.get_mut(position as usize) {
            *note = saturating_f64_to_u32(step / unit);
        }
        step.abs()
    }

    /// Notes which part of a unit rounding up adds to the mean of a state that counts, with its reward.
    pub(crate) fn note_rounding(&self, lane: &[i64], noted: &mut [u32], s: u32)
        requires links { AreLinks self.now.case.now.model self.now.links.now }
        requires state { s < length self.now.case.now.model.states }
        ensures { length noted.new ≡ length noted.old }
    {
        let mean = self.state_mean(lane, s) * nearest_i64_to_f64(self.top);
        let part = (mean - SLACK).ceil() - mean;
        if let Some(bits) = noted.get_mut(self.links.position(s) as usize) {
            *bits = Note { bits: *bits }.with_part(part.max(0.0)).bits;
        }
    }

    /// Moves each state. Gives the greatest step.
    fn sweep(&self, lane: &mut [i64], noted: &mut [u32], relaxation: f64, unit: f64) -> f64
        requires links { AreLinks self.now.case.now.model self.now.links.now }
        requires size { length lane.old ≡ length self.now.case.now.model.states }
        ensures { IsSameBeyond self.now.rule.ends self.now.case.now self.now.links.now self.now.low self.now.high
            lane.old lane.new }
    {
        let mut most: f64 = 0.0;
        for position in self.low..self.high {
            most = most.max(self.relax(lane, noted, position, relaxation, unit));
        }
        most
    }

    /// Moves each state on along its last step.
    fn jump(&self, lane: &mut [i64], noted: &[u32], reach: f64)
        requires links { AreLinks self.now.case.now.model self.now.links.now }
        requires size { length lane.old ≡ length self.now.case.now.model.states }
        ensures { IsSameBeyond self.now.rule.ends self.now.case.now self.now.links.now self.now.low self.now.high
            lane.old lane.new }
    {
        for position in self.low..self.high {
            let step = noted.get(position as usize).copied().unwrap_or(0);
            let step = nearest_i64_to_f64(i64::from(step));
            let worth = self.worth_at(lane, position) + step * reach;
            self.write_worth(lane, position, worth);
        }
    }

    /// Sweeps until no step is large: with jumps along the last steps while these do much, and then with
    /// relaxation. False: that didn't do, or made it worse.
    pub(crate) fn approach(&self, lane: &mut [i64], noted: &mut [u32], sweeps: u32) -> bool
        requires links { AreLinks self.now.case.now.model self.now.links.now }
        requires size { length lane.old ≡ length self.now.case.now.model.states }
        ensures { IsSameBeyond self.now.rule.ends self.now.case.now self.now.links.now self.now.low self.now.high
            lane.old lane.new }
    {
        let small = 1.0 / nearest_i64_to_f64(self.top.saturating_mul(STEPS_IN_A_UNIT));
        let first = self.sweep(lane, noted, 1.0, 1.0);
        let mut going = Sweeping {
            relaxation: 1.0,
            first,
            count: 0,
            period: PERIOD,
            jumps: true,
            before: f64::INFINITY,
        };
        let mut last = first;
        for _ in 0..sweeps {
            let unit = last / 2147483648.0;
            let most = self.sweep(lane, noted, going.relaxation, unit);
            if most <= small {
                return true;
            }
            if going.relaxation > 1.0 && most > 8.0 * going.before / (2.0 - going.relaxation) {
                return false;
            }
            last = most;
            going.count = going.count.saturating_add(1);
            if going.count == CALM {
                going.first = most;
            }
            if going.count >= going.period {
                let counted = nearest_i64_to_f64(i64::from(going.count.saturating_sub(CALM)));
                let rate = (most / going.first).powf(1.0 / counted);
                if most * rate <= (1.0 - rate) * small * CLOSE {
                    return true;
                }
                going = going.turned(rate, most);
                if going.jumps && rate < 1.0 {
                    self.jump(lane, noted, unit * rate / (1.0 - rate));
                }
            }
        }
        false
    }
}
