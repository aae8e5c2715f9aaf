//! What steers a search for the number of a held state. Nothing is promised of it: what it says is tried, and believed only
//! by what comes of that.

use crate::part::Part;
use std::num::{nearest_i64_to_f64, saturating_f64_to_i64};

/// By how much less the first number is that is tried.
const FIRST_STEP: i64 = 64;

/// By how many times a step becomes larger, until the held state doesn't fall.
const WIDER: i64 = 16;

/// Where both moves are less together, the next number is found by halving.
const FEW_MOVES: i64 = 16;

/// A patient search takes no more visits than so many passes have, and no more than so many.
const PASSES: u32 = 65536;

const VISITS: u32 = 1 << 23;

/// A quick search takes so many passes for all numbers that were tried, times the square of how many these are.
const QUICK_PASSES: u32 = 2;

/// How many passes lower the others beside a number, for a first time, before another state is held too, and how many do
/// so at least.
const ALONE: u32 = 512;

const FEWEST_ALONE: u32 = 8;

/// Beside how many held states one more may be held.
pub(crate) const DEEPEST: usize = 3;

/// How long a search may take.
#[derive(Clone, Copy)]
pub(crate) enum Patience {
    /// It ends where it doesn't do quickly.
    Quick,
    /// It takes its time.
    Long,
}

/// By how much the held state would move from a number.
#[derive(Clone, Copy)]
struct Move {
    number: i64,
    by: i64,
}

/// How it went to hold one more state: after how many visits beside a number that is done, and how far its number moved last
/// time.
#[derive(Clone, Copy)]
struct Nest {
    alone: u32,
    distance: i64,
}

/// How the next number is chosen. Nothing is promised of it.
#[derive(Clone, Copy)]
pub(crate) struct Steering {
    /// How long it may take.
    patience: Patience,
    /// Whether a number was tried from which the held state doesn't fall.
    is_settled: bool,
    /// By how much less the next number is, until then.
    step: i64,
    /// From the least number from which it fell.
    above: Move,
    /// From the greatest number from which it doesn't fall.
    below: Move,
    /// Whether the last number was found by halving.
    halves: bool,
    /// How far both were apart then.
    width: i64,
    /// How many numbers were tried.
    tries: u32,
    /// By how many visits.
    visits: u32,
    /// How many states the part has.
    states: u32,
    /// How many other states are held.
    depth: usize,
    /// What is known of holding one more, beside so many.
    nests: [Nest; DEEPEST],
}

impl Steering {
    /// For a state that has this number.
    pub(crate) fn of(patience: Patience, part: Part, number: i64) -> Steering {
        Steering {
            patience,
            is_settled: false,
            step: FIRST_STEP,
            above: Move { number, by: 0 },
            below: Move { number: 0, by: 0 },
            halves: true,
            width: i64::MAX,
            tries: 0,
            visits: 0,
            states: part.len(),
            depth: 0,
            nests: [Nest {
                alone: ALONE.saturating_mul(part.len()),
                distance: 0,
            }; DEEPEST],
        }
    }

    /// What is known of holding one more state.
    fn nest(&self) -> Nest {
        match self.nests.get(self.depth) {
            Some(nest) => *nest,
            None => Nest {
                alone: u32::MAX,
                distance: 0,
            },
        }
    }

    /// For a state that is held beside another one, which was steered so far.
    pub(crate) fn inner(&self, part: Part, number: i64) -> Steering {
        Steering {
            step: FIRST_STEP.max(self.nest().distance / 2),
            visits: self.visits,
            depth: self.depth.saturating_add(1),
            nests: self.nests,
            ..Steering::of(self.patience, part, number)
        }
    }

    /// After a search for the number of another state, which had this number.
    pub(crate) fn after(&mut self, inner: &Steering, number: i64) {
        let fewest = FEWEST_ALONE.saturating_mul(self.states);
        self.nests = inner.nests;
        if let Some(nest) = self.nests.get_mut(self.depth) {
            *nest = Nest {
                alone: inner.visits.saturating_sub(self.visits).max(fewest),
                distance: number.saturating_sub(inner.above.number).max(0),
            };
        }
        self.visits = inner.visits;
    }

    /// The same, but that no other state is held.
    pub(crate) fn patient(&self) -> Steering {
        Steering {
            depth: DEEPEST,
            ..*self
        }
    }

    /// As many visits were made as another one counted.
    pub(crate) fn count_of(&mut self, other: &Steering) {
        self.visits = other.visits;
    }

    /// Whether another state may be held too.
    pub(crate) fn may_nest(&self) -> bool {
        match self.patience {
            Patience::Quick => false,
            Patience::Long => self.depth < DEEPEST && self.visits < self.most_visits(),
        }
    }

    /// So many visits were made.
    pub(crate) fn count(&mut self, visits: u32) {
        self.visits = self.visits.saturating_add(visits);
    }

    /// How many visits there may be for the numbers that were tried.
    fn most_visits(&self) -> u32 {
        match self.patience {
            Patience::Quick => self
                .tries
                .saturating_mul(self.tries)
                .saturating_mul(QUICK_PASSES)
                .saturating_mul(self.states),
            Patience::Long => PASSES.saturating_mul(self.states).min(VISITS),
        }
    }

    /// How many visits are left beside a number.
    pub(crate) fn visits_left(&self) -> u32 {
        self.most_visits()
            .saturating_sub(self.visits)
            .min(self.nest().alone)
    }

    /// A number between those from which it falls and doesn't: by halving, or where a line through both moves comes to
    /// none.
    fn between(&mut self, number: i64) -> i64 {
        let low = self.below.number;
        let width = number.saturating_sub(low);
        let is_slow = !self.halves && width > self.width / 2;
        self.width = width;
        let moves = self.above.by.saturating_add(self.below.by);
        self.halves = is_slow || moves < FEW_MOVES;
        if self.halves {
            return low.saturating_add(width / 2);
        }
        let share = nearest_i64_to_f64(self.above.by) / nearest_i64_to_f64(moves);
        let distance = nearest_i64_to_f64(self.above.number.saturating_sub(low));
        let down = saturating_f64_to_i64(distance * share);
        let next = self.above.number.saturating_sub(down);
        next.max(low.saturating_add(1))
            .min(number.saturating_sub(1))
    }

    /// The next number to try for a state that fell to this one. The end is tried before any that is less.
    pub(crate) fn next(&mut self, number: i64, end: i64) -> Option<i64> {
        if number.saturating_sub(self.below.number) <= i64::from(self.is_settled) {
            return None;
        }
        self.tries = self.tries.saturating_add(1);
        if self.is_settled {
            return Some(self.between(number));
        }
        let next = number.saturating_sub(self.step).max(0);
        self.step = self.step.saturating_mul(WIDER);
        if next < end && end < number {
            return Some(end);
        }
        Some(next)
    }

    /// The state fell from a number to another one.
    pub(crate) fn fell(&mut self, number: i64, to: i64) {
        self.above = Move {
            number,
            by: number.saturating_sub(to),
        };
    }

    /// It doesn't fall from a number, and its choices hold another one.
    pub(crate) fn stayed(&mut self, number: i64, held: i64) {
        self.is_settled = true;
        self.below = Move {
            number,
            by: held.saturating_sub(number).max(0),
        };
    }
}
