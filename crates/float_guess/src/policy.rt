//! A guess of parts that are too large for elimination, by policy iteration: the choices and corners that count by what the
//! states are worth are settled, and what their rows come to is solved, until the same ones count again.

ghost use Rattle.std.specs.Prelude.{◌≡◌, ◌<◌, length, IfSome};
ghost use Rattle.lift_model.specs.Links.{AreLinks, HasChoice};
ghost use Rattle.float_guess.specs.Part.{IsSameBeyond};

use crate::floats::float_of;
use crate::krylov::{Closeness, Column, Rows, STATES, Search};
use crate::notes::{Note, note_at};
use crate::part::{Part, first_weight};
use crate::sparse::CUT_OFF;
use crate::sweep::CORNERS;

/// How many states a part has at least.
const FEWEST: u32 = 64;

/// How many entries the rows of first choices have at most, unless a pass looks at many more: more than a few of them leave
/// the part.
const FEW_ENTRIES: u32 = 24576;

/// How many they have at most then.
const MOST_ENTRIES: u32 = 262144;

/// A pass that looks at so many times as many, for all choices and corners, takes longer than a sweep over settled rows.
const LONG_PASS: u32 = 4;

/// How often the choices and corners that count are found anew.
const ROUNDS: u32 = 48;

/// The row that counts of a state: its choice and its corner.
#[derive(Clone, Copy)]
struct Settled {
    s: u32,
    a: u32,
    corner: u32,
}

/// How many entries rows have: those of first choices, and those of all choices at all corners.
#[derive(Clone, Copy)]
struct Entries {
    first: u32,
    all: u32,
}

impl Entries {
    /// Whether settled rows are worth it to be solved.
    fn are_worth_it(self) -> bool {
        self.first <= FEW_ENTRIES
            || (self.first <= MOST_ENTRIES && self.all / LONG_PASS >= self.first)
    }
}

impl Part<'_> {
    /// Whether the state of a note is cut off, whichever choice and corner count.
    fn is_cut_off_by(&self, note: Note) -> bool {
        self.rewarded && note.position() == CUT_OFF
    }

    /// The row that counts of the state at a position, by its mark.
    #[inline]
    fn settled_at(&self, noted: &[u32], position: u32) -> Option<Settled>
        requires links { AreLinks self.now.case.now.model self.now.links.now }
        ensures { IfSome result (λ row. HasChoice self.now.case.now.model row.s row.a) }
    {
        let s = self.state_at(position)?;
        let mark = note_at(noted, position).position();
        let a = mark / CORNERS;
        if a >= self.case.model().choices(s) {
            return None;
        }
        let corner = mark % CORNERS;
        Some(Settled { s, a, corner })
    }

    /// Lays out a row.
    fn lay_out_row(&self, rows: &mut Rows, row: Settled)
        requires links { AreLinks self.now.case.now.model self.now.links.now }
        requires row { HasChoice self.now.case.now.model row.s row.a }
    {
        let place = self.links.place(row.s, row.a);
        let mut at = first_weight(place, row.corner);
        for target in self.links.targets(place) {
            let weight = float_of(self.weights.get(at).copied().unwrap_or(0));
            at = at.wrapping_add(1);
            if weight <= 0.0 || *target == row.s {
                continue;
            }
            match self.position_of(*target) {
                Some(position) => rows.add(position.wrapping_sub(self.low), weight),
                None => rows.leave(weight),
            }
        }
    }

    /// Lays out the rows that count of all states, and lets these be worth what they are now.
    fn lay_out_all(&self, lane: &[i64], noted: &[u32], rows: &mut Rows, worth: &mut Column)
        requires links { AreLinks self.now.case.now.model self.now.links.now }
    {
        for position in self.low..self.high {
            if let Some(row) = self.settled_at(noted, position) {
                self.lay_out_row(rows, row);
            }
            let at = position.wrapping_sub(self.low);
            rows.end_row(at);
            worth.set(at, self.worth_at(lane, position));
        }
    }

    /// What a row makes of the numbers of other states, of which those are 0 that are none of the part.
    fn lead_by_row(&self, column: &Column, row: Settled) -> f64
        requires links { AreLinks self.now.case.now.model self.now.links.now }
        requires row { HasChoice self.now.case.now.model row.s row.a }
    {
        let place = self.links.place(row.s, row.a);
        let mut at = first_weight(place, row.corner);
        let mut all = 0.0;
        let mut sum = 0.0;
        for target in self.links.targets(place) {
            let weight = float_of(self.weights.get(at).copied().unwrap_or(0));
            at = at.wrapping_add(1);
            if *target != row.s {
                all += weight;
                if let Some(position) = self.position_of(*target) {
                    sum += weight * column.at(position.wrapping_sub(self.low));
                }
            }
        }
        if all > 0.0 { sum / all } else { 0.0 }
    }

    /// The same of the row that counts of a state, which is counted from the part's first.
    #[inline(never)]
    pub(crate) fn lead_by_table(&self, noted: &[u32], column: &Column, at: u32) -> f64
        requires links { AreLinks self.now.case.now.model self.now.links.now }
    {
        match self.settled_at(noted, self.low.wrapping_add(at)) {
            Some(row) => self.lead_by_row(column, row),
            None => 0.0,
        }
    }

    /// What a number of a state is short of what a row of it makes of the others', found by differences, where each expected
    /// step brings so much besides.
    fn lack_by_row(&self, lane: &[i64], worth: &Column, row: Settled, own: f64, extra: f64) -> f64
        requires links { AreLinks self.now.case.now.model self.now.links.now }
        requires row { HasChoice self.now.case.now.model row.s row.a }
    {
        let place = self.links.place(row.s, row.a);
        let mut at = first_weight(place, row.corner);
        let mut all = 0.0;
        let mut sum = 0.0;
        for target in self.links.targets(place) {
            let weight = float_of(self.weights.get(at).copied().unwrap_or(0));
            at = at.wrapping_add(1);
            if *target == row.s {
                continue;
            }
            let other = match self.position_of(*target) {
                Some(position) => worth.at(position.wrapping_sub(self.low)),
                None => self.worth_beyond(lane, *target),
            };
            all += weight;
            sum += weight * (other - own);
        }
        if self.rewarded {
            sum += self.reward_of(row.s) * self.whole(place, row.corner);
        }
        if all > 0.0 {
            sum / all + extra
        } else if sum > 0.0 {
            1.0 - own
        } else {
            -own
        }
    }

    /// The same of the row that counts of a state, which is counted from the part's first.
    pub(crate) fn lack_at(
        &self,
        lane: &[i64],
        noted: &[u32],
        worth: &Column,
        is_moved: bool,
        at: u32,
    ) -> f64
        requires links { AreLinks self.now.case.now.model self.now.links.now }
    {
        let position = self.low.wrapping_add(at);
        let own = worth.at(at);
        let note = note_at(noted, position);
        let extra = if is_moved { self.extra_by(note) } else { 0.0 };
        if self.is_cut_off_by(note) {
            return 1.0 + extra - own;
        }
        match self.settled_at(noted, position) {
            Some(row) => self.lack_by_row(lane, worth, row, own, extra),
            None => -own,
        }
    }

    /// Writes what the states are worth.
    fn take_solution(&self, lane: &mut [i64], worth: &Column)
        requires links { AreLinks self.now.case.now.model self.now.links.now }
        requires size { length lane.old ≡ length self.now.case.now.model.states }
        ensures { IsSameBeyond self.now.rule.ends self.now.case.now self.now.links.now self.now.low self.now.high
            lane.old lane.new }
    {
        for position in self.low..self.high {
            self.write_worth(lane, position, worth.at(position.wrapping_sub(self.low)));
        }
    }

    /// Solves the rows that count, and writes what the states are worth. False: it didn't.
    fn solve_rows(
        &self,
        lane: &mut [i64],
        noted: &[u32],
        rows: &mut Rows,
        search: &mut Search,
        close: Closeness,
    ) -> bool
        requires links { AreLinks self.now.case.now.model self.now.links.now }
        requires size { length lane.old ≡ length self.now.case.now.model.states }
        ensures { IsSameBeyond self.now.rule.ends self.now.case.now self.now.links.now self.now.low self.now.high
            lane.old lane.new }
    {
        rows.clear();
        self.lay_out_all(lane, noted, rows, &mut search.worth);
        if !self.solve(lane, noted, rows, search, close) {
            return false;
        }
        self.take_solution(lane, &search.worth);
        true
    }

    /// Finds what the states are worth, with the choices and corners that count anew in each round, until the same count
    /// again. False: it didn't. As long as others count, a rough solution is enough. Without rewards, what each expected step
    /// brings besides is added at the end; a guess that is moved up by that follows one that isn't, or a lesser one, by which
    /// the same count mostly.
    fn solve_in_rounds(
        &self,
        lane: &mut [i64],
        noted: &mut [u32],
        rows: &mut Rows,
        search: &mut Search,
    ) -> bool
        requires links { AreLinks self.now.case.now.model self.now.links.now }
        requires size { length lane.old ≡ length self.now.case.now.model.states }
        ensures { IsSameBeyond self.now.rule.ends self.now.case.now self.now.links.now self.now.low self.now.high
            lane.old lane.new }
    {
        let fine = Closeness::of(self.top);
        if self.extra > 0.0 && !self.rewarded {
            self.mark_anew(lane, noted, true);
            rows.move_by_steps(true);
            return self.solve_rows(lane, noted, rows, search, fine);
        }
        rows.move_by_steps(self.rewarded);
        let mut is_fine = self.rewarded;
        for round in 0..ROUNDS {
            if !self.mark_anew(lane, noted, round == 0) {
                if is_fine {
                    break;
                }
                is_fine = true;
            }
            let close = if is_fine { fine } else { Closeness::ROUGH };
            if !self.solve_rows(lane, noted, rows, search, close) {
                return false;
            }
        }
        if self.extra == 0.0 || self.rewarded {
            return true;
        }
        rows.move_by_steps(true);
        self.solve_rows(lane, noted, rows, search, fine)
    }

    /// How many entries the rows of a state's first choice, and of all its choices at all corners, have.
    fn entries_of(&self, s: u32) -> Entries
        requires links { AreLinks self.now.case.now.model self.now.links.now }
        requires state { s < length self.now.case.now.model.states }
    {
        let mut entries = Entries { first: 0, all: 0 };
        for a in 0..self.case.model().choices(s) {
            let place = self.links.place(s, a);
            if a == 0 {
                entries.first = place.count;
            }
            let all = place.count.saturating_mul(place.corners);
            entries.all = entries.all.saturating_add(all);
        }
        entries
    }

    /// How many those of all states have, with those that leave the part.
    fn entries(&self) -> Entries
        requires links { AreLinks self.now.case.now.model self.now.links.now }
    {
        let mut entries = Entries { first: 0, all: 0 };
        for position in self.low..self.high {
            if let Some(s) = self.state_at(position) {
                let more = self.entries_of(s);
                entries.first = entries.first.saturating_add(more.first);
                entries.all = entries.all.saturating_add(more.all);
            }
        }
        entries
    }

    /// The same, if the part has neither too few states nor too many, nor too many entries.
    #[inline(never)]
    pub(crate) fn solve_policies(&self, lane: &mut [i64], noted: &mut [u32]) -> bool
        requires links { AreLinks self.now.case.now.model self.now.links.now }
        requires size { length lane.old ≡ length self.now.case.now.model.states }
        ensures { IsSameBeyond self.now.rule.ends self.now.case.now self.now.links.now self.now.low self.now.high
            lane.old lane.new }
    {
        let states = self.high.saturating_sub(self.low);
        if states < FEWEST || states > STATES as u32 || !self.entries().are_worth_it() {
            return false;
        }
        let mut rows = Rows::none(states);
        let mut search = Search::none();
        self.solve_in_rounds(lane, noted, &mut rows, &mut search)
    }
}
