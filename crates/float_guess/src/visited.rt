//! Where a walk that stays in a part is found most. Nothing is promised of it: it only tells which state is worth holding.

ghost use Rattle.std.specs.Prelude.{◌≡◌, ◌<◌, length};
ghost use Rattle.lift_model.specs.Links.{AreLinks, HasChoice};

use crate::floats::float_of;
use crate::part::{Part, first_weight};
use crate::rule::Rule;
use corner_lift::{Lifted, one_at};
use std::num::{nearest_i64_to_f64, saturating_f64_to_i64};

/// How many states a part has at most in which a state is looked for.
pub const HELD_STATES: usize = 512;

/// How many steps the walk makes, from everywhere, and how many are made before it is counted where it is.
const STEPS: u32 = 8;

const UNCOUNTED: u32 = 4;

/// The initial state is as good where the one that is met most is met no more than so many times as often.
const AS_GOOD: f64 = 2.0;

/// A part of the states: those that stand at the positions from `low` on and before `high`, but for the positions that are
/// held.
#[derive(Clone, Copy)]
pub struct Among<'a> {
    /// Where it begins.
    pub low: u32,
    /// Where it ends.
    pub high: u32,
    /// Which positions are left out.
    pub held: &'a [u32],
}

/// Which row of a state the walk takes, at which corner, and what it weighs into other states: 0 where there is none.
#[derive(Clone, Copy)]
struct Taken {
    choice: u32,
    corner: u32,
    weight: f64,
}

impl Taken {
    /// No row.
    const NONE: Taken = Taken {
        choice: 0,
        corner: 0,
        weight: 0.0,
    };
}

/// What a row is worth at a corner, of the states but its own, and what it weighs into them.
#[derive(Clone, Copy)]
struct Mean {
    worth: f64,
    weight: f64,
}

/// A walk over the states of a part, counted from its first: which rows it takes, where it is now and after the next step,
/// and how often it was found in a state.
#[derive(Drop)]
struct Walk {
    taken: [Taken; HELD_STATES],
    now: [f64; HELD_STATES],
    next: [f64; HELD_STATES],
    visited: [f64; HELD_STATES],
}

impl Walk {
    /// A walk that is nowhere.
    fn none() -> Walk {
        Walk {
            taken: [Taken::NONE; HELD_STATES],
            now: [0.0; HELD_STATES],
            next: [0.0; HELD_STATES],
            visited: [0.0; HELD_STATES],
        }
    }

    /// The row that is taken of a state.
    fn taken(&self, at: u32) -> Taken {
        self.taken.get(at as usize).copied().unwrap_or(Taken::NONE)
    }

    /// Whether the state is one that may be held.
    fn is_free(&self, at: u32) -> bool {
        self.taken(at).weight > 0.0
    }

    /// How often it was found in a state.
    fn visited(&self, at: u32) -> f64 {
        self.visited.get(at as usize).copied().unwrap_or(0.0)
    }

    /// Begins in a state too, of which that row is taken.
    fn begin(&mut self, at: u32, taken: Taken) {
        if let Some(place) = self.taken.get_mut(at as usize) {
            *place = taken;
        }
        if let Some(now) = self.now.get_mut(at as usize) {
            *now = if taken.weight > 0.0 { 1.0 } else { 0.0 };
        }
    }

    /// Comes to a state after the next step.
    fn come(&mut self, at: u32, share: f64) {
        if let Some(next) = self.next.get_mut(at as usize) {
            *next += share;
        }
    }

    /// Lets the next step be made, of so many states, of which what left the part is spread anew, and counts where it is then.
    /// False: all left.
    fn go_on(&mut self, states: u32, counted: bool) -> bool {
        let mut all = 0.0;
        for at in 0..states {
            all += self.next.get(at as usize).copied().unwrap_or(0.0);
        }
        if all <= 0.0 {
            return false;
        }
        let scale = nearest_i64_to_f64(i64::from(states)) / all;
        for at in 0..states {
            let share = self.next.get(at as usize).copied().unwrap_or(0.0) * scale;
            if let Some(next) = self.next.get_mut(at as usize) {
                *next = 0.0;
            }
            if let Some(now) = self.now.get_mut(at as usize) {
                *now = share;
            }
            if counted {
                if let Some(visited) = self.visited.get_mut(at as usize) {
                    *visited += share;
                }
            }
        }
        true
    }

    /// The state that it was found in most, of so many, or this one if that is as good.
    fn most_visited(&self, states: u32, preferred: Option<u32>) -> Option<u32> {
        let mut most: Option<u32> = None;
        for at in 0..states {
            if self.is_free(at) {
                match most {
                    Some(other) if self.visited(at) <= self.visited(other) => {}
                    _ => most = Some(at),
                }
            }
        }
        match (most, preferred) {
            (Some(at), Some(other))
                if self.is_free(other) && self.visited(other) * AS_GOOD > self.visited(at) => {
                Some(other)
            }
            _ => most,
        }
    }
}

impl Part<'_> {
    /// What a row is worth at a corner, by what the lane holds for all states.
    fn mean_elsewhere(&self, lane: &[i64], s: u32, a: u32, corner: u32) -> Mean
        requires links { AreLinks self.now.case.now.model self.now.links.now }
        requires row { HasChoice self.now.case.now.model s a }
    {
        let place = self.links.place(s, a);
        let mut at = first_weight(place, corner);
        let mut sum = 0.0;
        let mut rest = 0.0;
        for target in self.links.targets(place) {
            if *target != s {
                let weight = float_of(self.weights.get(at).copied().unwrap_or(0));
                let number = lane.get(*target as usize).copied().unwrap_or(0);
                sum += weight * nearest_i64_to_f64(number);
                rest += weight;
            }
            at = at.wrapping_add(1);
        }
        Mean {
            worth: if rest > 0.0 { sum / rest } else { 0.0 },
            weight: rest,
        }
    }

    /// The corner of a row that counts, and what the row is worth there.
    fn taken_of_row(&self, lane: &[i64], s: u32, a: u32) -> (Taken, f64)
        requires links { AreLinks self.now.case.now.model self.now.links.now }
        requires row { HasChoice self.now.case.now.model s a }
    {
        let mut best = self.mean_elsewhere(lane, s, a, 0);
        let mut corner = 0;
        for other in 1..self.links.place(s, a).corners {
            let mean = self.mean_elsewhere(lane, s, a, other);
            if self.rule.corner.prefers(mean.worth, best.worth) {
                best = mean;
                corner = other;
            }
        }
        let taken = Taken {
            choice: a,
            corner,
            weight: best.weight,
        };
        (taken, best.worth)
    }

    /// The choice of a state that counts, its corner, and what the row is worth there.
    fn taken_of(&self, lane: &[i64], s: u32) -> (Taken, f64)
        requires links { AreLinks self.now.case.now.model self.now.links.now }
        requires state { s < length self.now.case.now.model.states }
    {
        let mut taken = Taken::NONE;
        let mut most = 0.0;
        for a in 0..self.case.model().choices(s) {
            let (other, worth) = self.taken_of_row(lane, s, a);
            if a == 0 || self.rule.choice.prefers(worth, most) {
                taken = other;
                most = worth;
            }
        }
        (taken, most)
    }

    /// About what is enough for a state by the numbers in the lane, with its reward, whatever its own is.
    fn enough_by(&self, lane: &[i64], s: u32) -> i64
        requires links { AreLinks self.now.case.now.model self.now.links.now }
        requires state { s < length self.now.case.now.model.states }
    {
        let (taken, worth) = self.taken_of(lane, s);
        if taken.weight <= 0.0 || taken.choice >= self.case.model().choices(s) {
            return 0;
        }
        let place = self.links.place(s, taken.choice);
        let whole = self.whole(place, taken.corner);
        let reward = if self.rewarded {
            self.rule.ends.added(self.case, s)
        } else {
            0
        };
        saturating_f64_to_i64(worth + nearest_i64_to_f64(reward) * whole / taken.weight)
    }

    /// The walk that begins everywhere but where states are held.
    fn walk(&self, lane: &[i64], held: &[u32]) -> Walk
        requires links { AreLinks self.now.case.now.model self.now.links.now }
    {
        let mut walk = Walk::none();
        for position in self.low..self.high {
            if held.contains(&position) {
                continue;
            }
            if let Some(s) = self.state_at(position) {
                let (taken, _) = self.taken_of(lane, s);
                walk.begin(position.wrapping_sub(self.low), taken);
            }
        }
        walk
    }

    /// Makes a step of the walk from the state at a position.
    fn step_from(&self, walk: &mut Walk, position: u32)
        requires links { AreLinks self.now.case.now.model self.now.links.now }
    {
        let Some(s) = self.state_at(position) else {
            return;
        };
        let from = position.wrapping_sub(self.low);
        let taken = walk.taken(from);
        let here = walk.now.get(from as usize).copied().unwrap_or(0.0);
        if taken.weight <= 0.0 || here <= 0.0 || taken.choice >= self.case.model().choices(s) {
            return;
        }
        let place = self.links.place(s, taken.choice);
        let mut at = first_weight(place, taken.corner);
        for target in self.links.targets(place) {
            let weight = float_of(self.weights.get(at).copied().unwrap_or(0));
            at = at.wrapping_add(1);
            if *target != s && weight > 0.0 {
                if let Some(to) = self.position_of(*target) {
                    let to = to.wrapping_sub(self.low);
                    if walk.is_free(to) {
                        walk.come(to, here * weight / taken.weight);
                    }
                }
            }
        }
    }

    /// The position at which the walk is found most.
    fn most_visited(&self, lane: &[i64], held: &[u32]) -> Option<u32>
        requires links { AreLinks self.now.case.now.model self.now.links.now }
    {
        let states = self.high.saturating_sub(self.low);
        let mut walk = self.walk(lane, held);
        for step in 0..STEPS {
            for position in self.low..self.high {
                self.step_from(&mut walk, position);
            }
            if !walk.go_on(states, step >= UNCOUNTED) {
                break;
            }
        }
        let preferred = self.position_of(self.case.model().init());
        let found = walk.most_visited(
            states,
            preferred.map(|position| position.wrapping_sub(self.low)),
        );
        found.map(|at| at.wrapping_add(self.low))
    }
}

/// The position of a part at which the walk is found most that takes the choices and corners that count by the lane and
/// never leaves the part; the initial state's, if that is as good. None: the part has none, or too many states.
pub fn most_visited(rows: &Lifted, rule: Rule, lane: &[i64], among: Among) -> Option<u32> {
    let states = among.high.saturating_sub(among.low);
    if states as usize > HELD_STATES {
        return None;
    }
    let part = Part {
        case: rows.case(),
        links: rows.links(),
        weights: rows.weights(),
        rule,
        top: one_at(rows.w()),
        extra: 0.0,
        rewarded: false,
        low: among.low,
        high: among.high,
    };
    part.most_visited(lane, among.held)
}

/// About what is enough for a state by the numbers in the lane, whatever its own is.
pub fn worth_by(rows: &Lifted, rule: Rule, lane: &[i64], s: u32) -> i64
    requires { s < length rows.now.case.model.states }
{
    let part = Part {
        case: rows.case(),
        links: rows.links(),
        weights: rows.weights(),
        rule,
        top: one_at(rows.w()),
        extra: 0.0,
        rewarded: rule.ends.has_rewards(),
        low: 0,
        high: 0,
    };
    part.enough_by(lane, s)
}
