//! Linear equations of large parts. Each state comes from others by its row, or leaves the part. They are solved by a Krylov
//! method, BiCGStab, over sweeps in the order of the states: so it needs few entries, and as many steps as the part is wide,
//! not as many as it takes to leave it. What a solution lacks is found by differences between numbers of states, in which
//! nothing is lost where a part is left very seldom. Rows with too many entries to be kept are read from the table each time.

ghost use Rattle.lift_model.specs.Links.{AreLinks};

use crate::part::Part;
use std::num::{f64_from_bits_with_nan, f64_to_bits_with_nan, nearest_i64_to_f64};

/// How many states a part has at most.
pub(crate) const STATES: usize = 4096;

/// How many entries of its rows are kept, at most.
const ENTRIES: usize = 16384;

/// The bits of an entry that tell where it leads. The others are the leading ones of a float.
const TO_BITS: u64 = STATES as u64 - 1;

/// Half of what they are worth in that float, for rounding.
const TO_HALF: u64 = STATES as u64 / 2;

/// How often the steps begin anew, by what a solution lacks.
const STARTS: u32 = 12;

/// How many steps are made each time, at most.
const STEPS: u32 = 256;

/// How many where entries aren't kept.
const WIDE_STEPS: u32 = 32;

/// By what share what is lacking becomes less each time, and in a rough solution.
const SHARE: f64 = 0.00000001;

const ROUGH_SHARE: f64 = 0.001;

/// Such a part of a unit is no matter.
const NO_MATTER: f64 = 0.0009765625;

/// What a state is worth isn't moved further at once, or the rows can't be solved. What costs more than the cap is above 1.
const FAR: f64 = 1048576.0;

/// How close a solution comes.
#[derive(Clone, Copy)]
pub(crate) struct Closeness {
    // by what share what is lacking becomes less each time
    share: f64,
    // as far as what is lacking tells
    least: f64,
}

/// A number for each state.
#[derive(Drop)]
pub(crate) struct Column {
    of: [f64; STATES],
}

/// The rows of the states, which are counted from the part's first one.
#[derive(Drop)]
pub(crate) struct Rows {
    states: u32,
    // with which weight a state comes to which other one
    entries: [u64; ENTRIES],
    count: u32,
    // where those of each state end, and what takes its weights to probabilities
    ends: [u32; STATES],
    scales: [f64; STATES],
    // whether there are more entries than are kept
    is_wide: bool,
    // whether each expected step brings something besides
    is_moved: bool,
    // what the row that is being made weighs
    all: f64,
}

/// What a Krylov method goes on with.
#[derive(Drop)]
pub(crate) struct Search {
    // what the states are worth
    pub(crate) worth: Column,
    // what is to be added to that
    step: Column,
    // what is still lacking then, and what was at first
    lack: Column,
    first: Column,
    // the direction, and what it changes
    direction: Column,
    change: Column,
    // what a second direction changes
    turn: Column,
}

impl Closeness {
    /// As far as it takes to see which choices and corners count next.
    pub(crate) const ROUGH: Closeness = Closeness {
        share: ROUGH_SHARE,
        least: f64::INFINITY,
    };

    /// To a part of a unit that is no matter, where so many of them stand for 1.
    pub(crate) fn of(top: i64) -> Closeness {
        Closeness {
            share: SHARE,
            least: NO_MATTER / nearest_i64_to_f64(top),
        }
    }
}

impl Column {
    /// 0 for each.
    const NONE: Column = Column { of: [0.0; STATES] };

    /// That of a state.
    #[inline(always)]
    pub(crate) fn at(&self, at: u32) -> f64 {
        self.of.get(at as usize).copied().unwrap_or(0.0)
    }

    /// Writes that of a state.
    #[inline(always)]
    pub(crate) fn set(&mut self, at: u32, number: f64) {
        if let Some(place) = self.of.get_mut(at as usize) {
            *place = number;
        }
    }

    /// Takes over those of another one, for so many states.
    fn take(&mut self, other: &Column, states: u32) {
        for at in 0..states {
            self.set(at, other.at(at));
        }
    }

    /// Lets each be 0, for so many states.
    fn clear(&mut self, states: u32) {
        for at in 0..states {
            self.set(at, 0.0);
        }
    }

    /// The sum of the products with those of another one, for so many states.
    fn times(&self, other: &Column, states: u32) -> f64 {
        let mut even = 0.0;
        let mut odd = 0.0;
        for half in 0..states / 2 {
            let at = half.wrapping_mul(2);
            even += self.at(at) * other.at(at);
            let next = at.wrapping_add(1);
            odd += self.at(next) * other.at(next);
        }
        if states % 2 == 1 {
            let last = states.wrapping_sub(1);
            even += self.at(last) * other.at(last);
        }
        even + odd
    }

    /// The greatest, whatever its sign.
    fn most(&self, states: u32) -> f64 {
        let mut most: f64 = 0.0;
        for at in 0..states {
            most = most.max(self.at(at).abs());
        }
        most
    }
}

/// The weight of an entry.
#[inline(always)]
fn weight_of(entry: u64) -> f64 {
    f64_from_bits_with_nan(entry & !TO_BITS)
}

impl Rows {
    /// None, for so many states.
    pub(crate) fn none(states: u32) -> Rows {
        Rows {
            states,
            entries: [0; ENTRIES],
            count: 0,
            ends: [0; STATES],
            scales: [0.0; STATES],
            is_wide: false,
            is_moved: false,
            all: 0.0,
        }
    }

    /// Takes all rows away.
    pub(crate) fn clear(&mut self) {
        self.count = 0;
        self.is_wide = false;
    }

    /// Lets each expected step bring something besides, or not.
    pub(crate) fn move_by_steps(&mut self, is_moved: bool) {
        self.is_moved = is_moved;
    }

    /// Adds an entry with a weight to the row that is being made.
    pub(crate) fn add(&mut self, to: u32, weight: f64) {
        let bits = f64_to_bits_with_nan(weight).wrapping_add(TO_HALF) & !TO_BITS;
        self.all += weight_of(bits);
        let Some(place) = self.entries.get_mut(self.count as usize) else {
            self.is_wide = true;
            return;
        };
        *place = bits | u64::from(to) & TO_BITS;
        self.count = self.count.wrapping_add(1);
    }

    /// Adds a weight that leaves the part to it.
    pub(crate) fn leave(&mut self, weight: f64) {
        self.all += weight;
    }

    /// Ends the row of a state.
    pub(crate) fn end_row(&mut self, at: u32) {
        if let Some(end) = self.ends.get_mut(at as usize) {
            *end = self.count;
        }
        if let Some(scale) = self.scales.get_mut(at as usize) {
            *scale = if self.all > 0.0 { 1.0 / self.all } else { 0.0 };
        }
        self.all = 0.0;
    }

    /// Where the entries of a state end.
    #[inline(always)]
    fn end(&self, at: u32) -> u32 {
        self.ends.get(at as usize).copied().unwrap_or(0)
    }

    /// What a state's row, whose entries begin at a place, makes of the numbers of others.
    #[inline(always)]
    fn lead(&self, column: &Column, first: u32, at: u32) -> f64 {
        let mut sum = 0.0;
        for place in first..self.end(at) {
            let entry = self.entries.get(place as usize).copied().unwrap_or(0);
            sum += weight_of(entry) * column.at((entry & TO_BITS) as u32);
        }
        sum * self.scales.get(at as usize).copied().unwrap_or(0.0)
    }
}

impl Search {
    /// One in which all is 0.
    pub(crate) fn none() -> Search {
        Search {
            worth: Column::NONE,
            step: Column::NONE,
            lack: Column::NONE,
            first: Column::NONE,
            direction: Column::NONE,
            change: Column::NONE,
            turn: Column::NONE,
        }
    }

    /// Begins with what is lacking.
    fn begin(&mut self, states: u32) {
        self.step.clear(states);
        self.first.take(&self.lack, states);
        self.direction.take(&self.lack, states);
    }

    /// Takes a share of the direction, and tells what is lacking then in `lack`.
    fn go(&mut self, share: f64, states: u32) {
        for at in 0..states {
            self.step
                .set(at, self.step.at(at) + share * self.direction.at(at));
            self.lack
                .set(at, self.lack.at(at) - share * self.change.at(at));
        }
    }

    /// Takes a share of what is lacking, of which `turn` tells what it changes.
    fn go_on(&mut self, share: f64, states: u32) {
        for at in 0..states {
            let lack = self.lack.at(at);
            self.step.set(at, self.step.at(at) + share * lack);
            self.lack.set(at, lack - share * self.turn.at(at));
        }
    }

    /// Takes a new direction.
    fn take_direction(&mut self, share: f64, old: f64, states: u32) {
        for at in 0..states {
            let direction = self.direction.at(at) - old * self.change.at(at);
            self.direction.set(at, self.lack.at(at) + share * direction);
        }
    }

    /// Adds what is to be added to what the states are worth.
    fn take_step(&mut self, states: u32) {
        for at in 0..states {
            self.worth.set(at, self.worth.at(at) + self.step.at(at));
        }
    }
}

impl Part<'_> {
    /// What the row of a state that counts, whose entries begin at a place, makes of the numbers of others.
    #[inline(always)]
    fn lead(&self, noted: &[u32], rows: &Rows, column: &Column, first: u32, at: u32) -> f64
        requires links { AreLinks self.now.case.now.model self.now.links.now }
    {
        if rows.is_wide {
            self.lead_by_table(noted, column, at)
        } else {
            rows.lead(column, first, at)
        }
    }

    /// Adds to each number that is lacking what its row makes of the numbers before it.
    fn lead_on(&self, noted: &[u32], rows: &Rows, search: &mut Search)
        requires links { AreLinks self.now.case.now.model self.now.links.now }
    {
        search.turn.clear(rows.states);
        let mut first = 0;
        for at in 0..rows.states {
            let led = self.lead(noted, rows, &search.turn, first, at);
            search.turn.set(at, search.lack.at(at) + led);
            first = rows.end(at);
        }
        search.lack.take(&search.turn, rows.states);
    }

    /// Takes from each number what its row makes of all, of those before it what it made of them.
    fn change(&self, noted: &[u32], rows: &Rows, column: &Column, into: &mut Column)
        requires links { AreLinks self.now.case.now.model self.now.links.now }
    {
        into.take(column, rows.states);
        let mut first = 0;
        for at in 0..rows.states {
            let led = self.lead(noted, rows, into, first, at);
            into.set(at, led);
            first = rows.end(at);
        }
        for at in 0..rows.states {
            into.set(at, column.at(at) - into.at(at));
        }
    }

    /// Finds what is to be added to the numbers, by what they lack, until such a share of that is left.
    fn search(&self, noted: &[u32], rows: &Rows, search: &mut Search, share: f64)
        requires links { AreLinks self.now.case.now.model self.now.links.now }
    {
        let states = rows.states;
        let enough = search.lack.most(states) * share;
        search.begin(states);
        let mut old = search.first.times(&search.lack, states);
        for _ in 0..if rows.is_wide { WIDE_STEPS } else { STEPS } {
            self.change(noted, rows, &search.direction, &mut search.change);
            let first = old / search.first.times(&search.change, states);
            search.go(first, states);
            self.change(noted, rows, &search.lack, &mut search.turn);
            let turned = search.turn.times(&search.lack, states);
            let second = turned / search.turn.times(&search.turn, states);
            search.go_on(second, states);
            let most = search.lack.most(states);
            let new = search.first.times(&search.lack, states);
            if !(most > enough) || new == 0.0 {
                break;
            }
            search.take_direction(new / old * (first / second), second, states);
            old = new;
        }
    }

    /// Finds what each state lacks, and gives the most.
    fn find_lack(&self, lane: &[i64], noted: &[u32], rows: &Rows, search: &mut Search) -> f64
        requires links { AreLinks self.now.case.now.model self.now.links.now }
    {
        for at in 0..rows.states {
            let lack = self.lack_at(lane, noted, &search.worth, rows.is_moved, at);
            search.lack.set(at, lack);
        }
        search.lack.most(rows.states)
    }

    /// Finds what the states are worth, so closely: as far as what is lacking then tells, by what it came to before. False: it
    /// didn't.
    pub(crate) fn solve(
        &self,
        lane: &[i64],
        noted: &[u32],
        rows: &Rows,
        search: &mut Search,
        close: Closeness,
    ) -> bool
        requires links { AreLinks self.now.case.now.model self.now.links.now }
    {
        let mut most = self.find_lack(lane, noted, rows, search);
        for _ in 0..STARTS {
            if most == 0.0 {
                return true;
            }
            let before = most;
            self.lead_on(noted, rows, search);
            self.search(noted, rows, search, close.share);
            let far = search.step.most(rows.states);
            if !(far <= FAR) {
                return false;
            }
            search.take_step(rows.states);
            most = self.find_lack(lane, noted, rows, search);
            if far * most < close.least * before {
                return true;
            }
        }
        false
    }
}
