//! A guess by elimination. The states of a part are taken in the order of their positions, and each is put
//! into the rows of those after it. That does where each row comes to at most one later state then, as in
//! walks, rings, retries, and trees with ways back.

ghost use Rattle.std.specs.Prelude.{◌≡◌, ◌<◌, length};
ghost use Rattle.lift_model.specs.Links.{AreLinks, HasChoice};
ghost use Rattle.float_guess.specs.Part.{IsSameBeyond};

use crate::floats::float_of;
use crate::notes::{Note, note_at};
use crate::part::{Part, first_weight};
use crate::step::{Ahead, Outlook, Step};
use std::num::{f64_from_bits_with_nan, f64_to_bits_with_nan};

/// How many bits of a step's gain are kept below those of its leak, in place of the last ones of that float; 32 more are
/// kept by themselves, and the last ones not at all.
const GAIN_BITS: u32 = 15;

const LOST_BITS: u32 = 17;

/// The bits below a leak's.
const LOW_BITS: u64 = (1 << GAIN_BITS) - 1;

/// Halves of what is lost of both, for rounding.
const LOW_HALF: u64 = 1 << (GAIN_BITS - 1);

const LOST_HALF: u64 = 1 << (LOST_BITS - 1);

/// How often the choices and corners that count are found anew.
const ROUNDS: u32 = 24;

/// How often where there are rewards, since those that are cut off are found one by one.
const REWARDED_ROUNDS: u32 = 256;

/// What counts of a state's rows: the outlook, and a number that tells choices and corners apart.
#[derive(Clone, Copy)]
struct Counted {
    outlook: Outlook,
    mark: u64,
}

impl Counted {
    /// What counts of a state that is cut off, whichever choice and corner do.
    const CUT_OFF: Counted = Counted {
        outlook: Outlook::MOST,
        mark: u64::MAX,
    };
}

/// How an elimination ended.
#[derive(Clone, Copy)]
enum Eliminated {
    /// All states were put in. The number tells apart which choices and corners counted.
    All(u64),
    /// The row of the state at this position comes to more than one later state.
    Before(u32),
}

impl Part<'_> {
    /// The step of the state at a position. Its leak lies in the lane.
    fn step_at(&self, lane: &[i64], means: &[u32], noted: &[u32], position: u32) -> Step {
        let first = u64::try_from(self.number_at(lane, position)).unwrap_or(0);
        let second = means.get(position as usize).copied().unwrap_or(0);
        let low = first & LOW_BITS;
        Step {
            leak: f64_from_bits_with_nan(first - low),
            gain: f64_from_bits_with_nan((u64::from(second) << GAIN_BITS | low) << LOST_BITS),
            to: note_at(noted, position).position(),
        }
    }

    /// Writes the step of the state at a position.
    fn write_step(
        &self,
        lane: &mut [i64],
        means: &mut [u32],
        noted: &mut [u32],
        position: u32,
        step: Step,
    )
        requires links { AreLinks self.now.case.now.model self.now.links.now }
        requires size { length lane.old ≡ length self.now.case.now.model.states }
        ensures { IsSameBeyond self.now.rule.ends self.now.case.now self.now.links.now self.now.low self.now.high
            lane.old lane.new }
    {
        let leak = f64_to_bits_with_nan(step.leak).wrapping_add(LOW_HALF) & !LOW_BITS;
        let gain = f64_to_bits_with_nan(step.gain).wrapping_add(LOST_HALF) >> LOST_BITS;
        if let Some(mean) = means.get_mut(position as usize) {
            *mean = (gain >> GAIN_BITS) as u32;
        }
        if let Some(bits) = noted.get_mut(position as usize) {
            *bits = Note { bits: *bits }.with_position(step.to).bits;
        }
        let first = leak | gain & LOW_BITS;
        self.write(lane, position, i64::try_from(first).unwrap_or(0));
    }

    /// The step of a state that was put in, to a state that wasn't, which is one from a position on. The
    /// steps on the way to it are made longer.
    fn follow(
        &self,
        lane: &mut [i64],
        means: &mut [u32],
        noted: &mut [u32],
        from: u32,
        position: u32,
    ) -> Step
        requires links { AreLinks self.now.case.now.model self.now.links.now }
        requires size { length lane.old ≡ length self.now.case.now.model.states }
        ensures { IsSameBeyond self.now.rule.ends self.now.case.now self.now.links.now self.now.low self.now.high
            lane.old lane.new }
    {
        let mut step = self.step_at(lane, means, noted, from);
        if step.to >= position {
            return step;
        }
        for _ in self.low..self.high {
            if step.to >= position {
                break;
            }
            let mut next = self.step_at(lane, means, noted, step.to);
            if next.to < position {
                next = next.then(self.step_at(lane, means, noted, next.to));
                self.write_step(lane, means, noted, step.to, next);
            }
            step = step.then(next);
        }
        self.write_step(lane, means, noted, from, step);
        step
    }

    /// Where a target of the row of the state at a position leads to.
    fn look_at(
        &self,
        lane: &mut [i64],
        means: &mut [u32],
        noted: &mut [u32],
        position: u32,
        target: u32,
    ) -> Ahead
        requires links { AreLinks self.now.case.now.model self.now.links.now }
        requires size { length lane.old ≡ length self.now.case.now.model.states }
        ensures { IsSameBeyond self.now.rule.ends self.now.case.now self.now.links.now self.now.low self.now.high
            lane.old lane.new }
    {
        let Some(at) = self.position_of(target) else {
            return Ahead::Out(self.worth_beyond(lane, target));
        };
        if at == position {
            return Ahead::Here;
        }
        if at > position {
            return Ahead::Later(at, self.worth_at(lane, at));
        }
        let step = self.follow(lane, means, noted, at, position);
        if step.to == position {
            return Ahead::Back(step);
        }
        Ahead::On(step, self.worth_at(lane, step.to))
    }

    /// The outlook of a row at a corner.
    fn outlook(
        &self,
        lane: &mut [i64],
        means: &mut [u32],
        noted: &mut [u32],
        s: u32,
        a: u32,
        corner: u32,
    ) -> Outlook
        requires links { AreLinks self.now.case.now.model self.now.links.now }
        requires size { length lane.old ≡ length self.now.case.now.model.states }
        requires row { HasChoice self.now.case.now.model s a }
        ensures { IsSameBeyond self.now.rule.ends self.now.case.now self.now.links.now self.now.low self.now.high
            lane.old lane.new }
    {
        let place = self.links.place(s, a);
        let position = self.links.position(s);
        let mut at = first_weight(place, corner);
        let mut outlook = Outlook::NONE;
        let mut whole = 0.0;
        for target in self.links.targets(place) {
            let weight = float_of(self.weights.get(at).copied().unwrap_or(0));
            if weight > 0.0 {
                whole += weight;
                let ahead = self.look_at(lane, means, noted, position, *target);
                outlook = outlook.with(weight, ahead);
            }
            at = at.wrapping_add(1);
        }
        if self.rewarded {
            outlook = outlook.plus(self.reward_of(s) * whole);
        }
        outlook
    }

    /// What counts of a row: the corner that is worth most, or least.
    fn counted_of_row(
        &self,
        lane: &mut [i64],
        means: &mut [u32],
        noted: &mut [u32],
        s: u32,
        a: u32,
    ) -> Counted
        requires links { AreLinks self.now.case.now.model self.now.links.now }
        requires size { length lane.old ≡ length self.now.case.now.model.states }
        requires row { HasChoice self.now.case.now.model s a }
        ensures { IsSameBeyond self.now.rule.ends self.now.case.now self.now.links.now self.now.low self.now.high
            lane.old lane.new }
    {
        let mut counted = Counted {
            outlook: self.outlook(lane, means, noted, s, a, 0),
            mark: u64::from(a) << 4,
        };
        for corner in 1..self.links.place(s, a).corners {
            let outlook = self.outlook(lane, means, noted, s, a, corner);
            if self
                .rule
                .corner
                .prefers(outlook.worth(), counted.outlook.worth())
            {
                let mark = (u64::from(a) << 4).wrapping_add(u64::from(corner));
                counted = Counted { outlook, mark };
            }
        }
        counted
    }

    /// What counts of the state at a position: the choice that is worth most, or least.
    fn counted_at(
        &self,
        lane: &mut [i64],
        means: &mut [u32],
        noted: &mut [u32],
        position: u32,
    ) -> Counted
        requires links { AreLinks self.now.case.now.model self.now.links.now }
        requires size { length lane.old ≡ length self.now.case.now.model.states }
        ensures { IsSameBeyond self.now.rule.ends self.now.case.now self.now.links.now self.now.low self.now.high
            lane.old lane.new }
    {
        let mut counted = Counted {
            outlook: Outlook::NONE,
            mark: 0,
        };
        let Some(s) = self.state_at(position) else {
            return counted;
        };
        for a in 0..self.case.model().choices(s) {
            let other = self.counted_of_row(lane, means, noted, s, a);
            let (one, most) = (other.outlook.worth(), counted.outlook.worth());
            if a == 0 || self.rule.choice.prefers(one, most) {
                counted = other;
            }
        }
        counted
    }

    /// Whether what counts of a state is cut off at 1.
    #[inline(always)]
    fn is_cut_off(&self, outlook: &Outlook) -> bool {
        self.rewarded && outlook.worth() >= 1.0
    }

    /// Puts the states in, from the first position on, as long as that does.
    fn put_in(&self, lane: &mut [i64], means: &mut [u32], noted: &mut [u32]) -> Eliminated
        requires links { AreLinks self.now.case.now.model self.now.links.now }
        requires size { length lane.old ≡ length self.now.case.now.model.states }
        ensures { IsSameBeyond self.now.rule.ends self.now.case.now self.now.links.now self.now.low self.now.high
            lane.old lane.new }
    {
        let mut marks: u64 = 1;
        for position in self.low..self.high {
            let mut counted = self.counted_at(lane, means, noted, position);
            if self.is_cut_off(&counted.outlook) {
                counted = Counted::CUT_OFF;
            }
            let extra = self.extra_by(note_at(noted, position));
            let Some(step) = counted.outlook.step(extra) else {
                return Eliminated::Before(position);
            };
            self.write_step(lane, means, noted, position, step);
            marks = marks
                .wrapping_mul(6364136223846793005)
                .wrapping_add(counted.mark);
        }
        Eliminated::All(marks)
    }

    /// Writes what the states before a position are worth, by their steps.
    fn take_out(&self, lane: &mut [i64], means: &[u32], noted: &[u32], end: u32)
        requires links { AreLinks self.now.case.now.model self.now.links.now }
        requires size { length lane.old ≡ length self.now.case.now.model.states }
        ensures { IsSameBeyond self.now.rule.ends self.now.case.now self.now.links.now self.now.low self.now.high
            lane.old lane.new }
    {
        for position in (self.low..end).rev() {
            let step = self.step_at(lane, means, noted, position);
            let worth = step.worth(self.worth_at(lane, step.to));
            self.write_worth(lane, position, worth);
        }
    }

    /// Finds what the states are worth by elimination, with the choices and corners that count now. False: that didn't do.
    pub(crate) fn eliminate_once(
        &self,
        lane: &mut [i64],
        means: &mut [u32],
        noted: &mut [u32],
    ) -> bool
        requires links { AreLinks self.now.case.now.model self.now.links.now }
        requires size { length lane.old ≡ length self.now.case.now.model.states }
        ensures { IsSameBeyond self.now.rule.ends self.now.case.now self.now.links.now self.now.low self.now.high
            lane.old lane.new }
    {
        let (done, end) = match self.put_in(lane, means, noted) {
            Eliminated::All(_) => (true, self.high),
            Eliminated::Before(end) => (false, end),
        };
        self.take_out(lane, means, noted, end);
        done
    }

    /// Finds what the states are worth by elimination, with the choices and corners that count anew in each
    /// round, until the same count again. False: that didn't do. A guess that is moved up follows one that isn't, or a lesser
    /// one, by which the same count mostly, so one round is enough for it.
    pub(crate) fn eliminate(&self, lane: &mut [i64], means: &mut [u32], noted: &mut [u32]) -> bool
        requires links { AreLinks self.now.case.now.model self.now.links.now }
        requires size { length lane.old ≡ length self.now.case.now.model.states }
        ensures { IsSameBeyond self.now.rule.ends self.now.case.now self.now.links.now self.now.low self.now.high
            lane.old lane.new }
    {
        let mut last = 0;
        let rounds = if self.rewarded {
            REWARDED_ROUNDS
        } else {
            ROUNDS
        };
        for _ in 0..rounds {
            match self.put_in(lane, means, noted) {
                Eliminated::All(marks) => {
                    self.take_out(lane, means, noted, self.high);
                    if marks == last || self.extra > 0.0 {
                        return true;
                    }
                    last = marks;
                }
                Eliminated::Before(end) => {
                    self.take_out(lane, means, noted, end);
                    return false;
                }
            }
        }
        true
    }
}
