//! What steers a search for the number of a held state. Nothing is promised of it: what it says is tried, and believed only
//! through what came of that.

ghost use Rattle.std.specs.Prelude.{◌≡◌, ◌≤◌, ◌<◌, ◌-◌, IsTrue};

/// How many visits there are at most while a state is held, for each state of a component.
const VISITS: i64 = 8192;

/// A quick search has so many passes for all numbers that were tried, times the square of how many these are.
const QUICK_PASSES: i64 = 2;

/// By how much the first number that is tried differs, and by how many times each further one does, until one settles.
const FIRST_STEP: i64 = 64;

const WIDER: i64 = 16;

/// Where both moves together are less, the next number is found by halving.
const FEW_MOVES: i128 = 16;

/// What stands for the position of a state that is held, where none is.
const NOWHERE: u32 = u32::MAX;

/// The positions of a component, from `low` on and before `high`, and at which of them a state is held at a number.
#[derive(Clone, Copy)]
pub(crate) struct Component {
    pub(crate) low: u32,
    pub(crate) high: u32,
    pub(crate) held: u32,
    pub(crate) number: i64,
}

/// How a rise beside a held state ended.
#[derive(Clone, Copy)]
pub(crate) enum Beside {
    /// The one that is held rose.
    Rises,
    /// None has to rise.
    Settled,
    /// It took too many visits.
    Slow,
}

/// How many visits are left.
#[derive(Clone, Copy)]
pub(crate) struct Steering {
    states: i64,
    left: i64,
    // whether the search ends where it doesn't do quickly, and how many numbers were tried
    quick: bool,
    tries: i64,
}

impl Component {
    /// One of which no state is held.
    pub(crate) fn of(low: u32, high: u32) -> Component
        ensures low { result.low ≡ low }
        ensures high { result.high ≡ high }
    {
        Component {
            low,
            high,
            held: NOWHERE,
            number: 0,
        }
    }

    /// How many positions there are.
    pub(crate) fn states(self) -> u32
        ensures { result ≡ self.high - self.low }
    {
        self.high.saturating_sub(self.low)
    }

    /// Whether a position is one of them.
    pub(crate) fn has(self, position: u32) -> bool
        ensures low { IsTrue result → self.low ≤ position }
        ensures high { IsTrue result → position < self.high }
    {
        self.low <= position && position < self.high
    }
}

impl Beside {
    /// Whether none has to rise.
    pub(crate) fn is_settled(self) -> bool {
        matches!(self, Beside::Settled)
    }

    /// Whether it took too many visits.
    pub(crate) fn is_slow(self) -> bool {
        matches!(self, Beside::Slow)
    }
}

impl Steering {
    /// That of a search in a component of so many states.
    pub(crate) fn of(states: u32, quick: bool) -> Steering {
        let states = i64::from(states);
        Steering {
            states,
            left: VISITS.saturating_mul(states),
            quick,
            tries: 0,
        }
    }

    /// Counts a visit.
    pub(crate) fn count_visit(&mut self) {
        self.left = self.left.saturating_sub(1);
    }

    /// Whether fewer visits are left.
    pub(crate) fn is_below(&self, least: i64) -> bool {
        self.left < least
    }

    /// How many visits are left after so many passes.
    pub(crate) fn after(&self, passes: i64) -> i64 {
        self.left.saturating_sub(passes.saturating_mul(self.states))
    }

    /// Counts a number that is tried, and tells how many visits are to be left when it is given up.
    pub(crate) fn begin(&mut self) -> i64 {
        if !self.quick {
            return 0;
        }
        self.tries = self.tries.saturating_add(1);
        let passes = self
            .tries
            .saturating_mul(self.tries)
            .saturating_mul(QUICK_PASSES);
        let visits = passes.saturating_mul(self.states);
        VISITS.saturating_mul(self.states).saturating_sub(visits)
    }
}

/// By how much a state would move that is held at a number.
#[derive(Clone, Copy)]
struct Moved {
    number: i64,
    by: i64,
}

/// The search for the number of a held state: away from where it began until one settles, then between the last one from which
/// it moved and the last one that settled, by halving, or where a line through both moves comes to none.
#[derive(Clone, Copy)]
pub(crate) struct Looking {
    // a number at which the search is likely to end
    end: i64,
    step: i64,
    here: Moved,
    there: Option<Moved>,
    halves: bool,
    width: i64,
}

impl Looking {
    /// One that begins at a number.
    pub(crate) fn from(number: i64, end: i64) -> Looking {
        Looking {
            end,
            step: FIRST_STEP,
            here: Moved { number, by: 0 },
            there: None,
            halves: true,
            width: i64::MAX,
        }
    }

    /// The next number to try, above the first and at most the second. None: none is worth it.
    pub(crate) fn next(&mut self, from: i64, to: i64) -> Option<i64> {
        match self.there {
            Some(there) => self.next_between(there, from, to),
            None if from >= to => None,
            None => {
                let number = from.saturating_add(self.step);
                self.step = self.step.saturating_mul(WIDER);
                if number > self.end && from < self.end {
                    return Some(self.end);
                }
                Some(number.min(to))
            }
        }
    }

    /// The same, between both, once one settled.
    fn next_between(&mut self, there: Moved, from: i64, to: i64) -> Option<i64> {
        let width = to.saturating_sub(from);
        if width <= 1 {
            return None;
        }
        let slow = !self.halves && width > self.width / 2;
        self.width = width;
        let all = i128::from(self.here.by).saturating_add(i128::from(there.by));
        if slow || all < FEW_MOVES {
            self.halves = true;
            return Some(from.saturating_add(width / 2));
        }
        self.halves = false;
        let method = i128::from(there.number).saturating_sub(i128::from(self.here.number));
        let part = method
            .saturating_mul(i128::from(self.here.by))
            .checked_div(all);
        let number = i128::from(self.here.number).saturating_add(part.unwrap_or(0));
        let number = i64::try_from(number).unwrap_or(from);
        Some(number.max(from.saturating_add(1)).min(to.saturating_sub(1)))
    }

    /// Notes that it moved from a number to another one.
    pub(crate) fn note_moved(&mut self, number: i64, moved: i64) {
        self.here = Moved {
            number,
            by: moved.saturating_sub(number).max(0),
        };
    }

    /// Notes that it settled where it was held at a number, and might move back to another one.
    pub(crate) fn note_settled(&mut self, number: i64, back: i64) {
        self.there = Some(Moved {
            number,
            by: number.saturating_sub(back).max(0),
        });
    }
}
