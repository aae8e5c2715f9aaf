//! A guess by elimination where rows come to several later states. Each state that is put in keeps a row of its own over
//! later states, as in the elimination of sparse linear equations. That does in parts of some thousand states whose rows
//! stay short: most cycles of protocols are so, once a choice and a corner of each state are settled.

ghost use Rattle.std.specs.Prelude.{◌≡◌, ◌<◌, length};
ghost use Rattle.lift_model.specs.Links.{AreLinks, HasChoice};
ghost use Rattle.float_guess.specs.Part.{IsSameBeyond};

use crate::floats::float_of;
use crate::notes::{Note, note_at};
use crate::part::{Part, first_weight};
use crate::rule::Extreme;
use crate::sweep::CORNERS;
use std::num::nearest_i64_to_f64;

/// How many states a part has that is eliminated so, at least and at most.
const FEWEST: u32 = 16;

const STATES: usize = 2048;

/// How many entries the rows have together, at most.
const ENTRIES: usize = 8192;

/// How many words hold a flag for each state.
const WORDS: usize = STATES / 64;

/// How often the choices and corners that count are found anew.
const ROUNDS: u32 = 128;

/// A choice or a corner counts in place of another one where it is better by more than so much of a unit, or of 1.
const BETTER_OF_A_UNIT: f64 = 0.0009765625;

const BETTER: f64 = 0.00000000000001;

/// The mark of a state that is cut off, whichever choice and corner count.
pub(crate) const CUT_OFF: u32 = (1 << 28) - 1;

/// What is found anew of a state.
#[derive(Clone, Copy)]
enum Anew {
    /// Its choice and its corner, for the first time.
    First,
    /// Its corner.
    Corner,
    /// Its choice, with the corner of each.
    Choice,
}

/// A state that was put in: it leaves the part with the probability `leak`, and else comes to later states. What it leaves
/// for and what is added on the way are worth `gain` together.
#[derive(Clone, Copy)]
struct Lead {
    leak: f64,
    gain: f64,
    // where its entries end
    end: u32,
}

/// With which probability a state that was put in comes to a later one.
#[derive(Clone, Copy)]
struct Entry {
    part: f64,
    to: u32,
}

/// What leaves the part, and what that is worth with what is added on the way.
#[derive(Clone, Copy)]
struct Leaving {
    weight: f64,
    gain: f64,
}

/// The rows of the states that were put in, and the one that is being made. States are counted from the part's first.
#[derive(Drop)]
struct Rows {
    leads: [Lead; STATES],
    entries: [Entry; ENTRIES],
    count: u32,
    // how many states there are
    states: u32,
    // of the one that is being made: what comes to each state that is flagged
    sums: [f64; STATES],
    flags: [u64; WORDS],
}

impl Leaving {
    /// Nothing.
    const NONE: Leaving = Leaving {
        weight: 0.0,
        gain: 0.0,
    };

    /// All of it, for what is worth the most.
    const MOST: Leaving = Leaving {
        weight: 1.0,
        gain: 1.0,
    };

    /// With so much more.
    fn with(self, weight: f64, gain: f64) -> Leaving {
        Leaving {
            weight: self.weight + weight,
            gain: self.gain + gain,
        }
    }
}

impl Rows {
    /// No rows, for so many states.
    fn none(states: u32) -> Rows {
        Rows {
            leads: [Lead {
                leak: 0.0,
                gain: 0.0,
                end: 0,
            }; STATES],
            entries: [Entry { part: 0.0, to: 0 }; ENTRIES],
            count: 0,
            states,
            sums: [0.0; STATES],
            flags: [0; WORDS],
        }
    }

    /// Takes all rows away.
    fn clear(&mut self) {
        self.count = 0;
    }

    /// What a state that was put in leads to.
    fn lead(&self, at: u32) -> Lead {
        self.leads.get(at as usize).copied().unwrap_or(Lead {
            leak: 1.0,
            gain: 0.0,
            end: 0,
        })
    }

    /// Where its entries begin.
    fn begin(&self, at: u32) -> u32 {
        if at == 0 {
            return 0;
        }
        self.lead(at.wrapping_sub(1)).end
    }

    /// An entry.
    fn entry(&self, place: u32) -> Entry {
        self.entries
            .get(place as usize)
            .copied()
            .unwrap_or(Entry { part: 0.0, to: 0 })
    }

    /// Adds a weight into a state to the row that is being made.
    fn add(&mut self, to: u32, weight: f64) {
        let flag = 1u64.wrapping_shl(to);
        let Some(word) = self.flags.get_mut((to / 64) as usize) else {
            return;
        };
        let is_new = *word & flag == 0;
        *word |= flag;
        if let Some(sum) = self.sums.get_mut(to as usize) {
            *sum = if is_new { weight } else { *sum + weight };
        }
    }

    /// Takes the first weight away from a state's word on, if it comes to one before a state.
    fn take_before(&mut self, from: u32, end: u32) -> Option<Entry> {
        for place in (from / 64)..(self.states / 64).wrapping_add(1) {
            let Some(word) = self.flags.get_mut(place as usize) else {
                return None;
            };
            if *word != 0 {
                let to = place.wrapping_mul(64).wrapping_add(word.trailing_zeros());
                if to >= end {
                    return None;
                }
                *word &= word.wrapping_sub(1);
                let part = self.sums.get(to as usize).copied().unwrap_or(0.0);
                return Some(Entry { part, to });
            }
        }
        None
    }

    /// Leads a weight on that comes to a state that was put in.
    fn lead_on(&mut self, at: u32, weight: f64, leaving: Leaving) -> Leaving {
        let lead = self.lead(at);
        for place in self.begin(at)..lead.end {
            let Entry { part, to } = self.entry(place);
            self.add(to, weight * part);
        }
        leaving.with(weight * lead.leak, weight * lead.gain)
    }

    /// Leads all weights on that come to states before this one.
    fn lead_all_on(&mut self, at: u32, leaving: Leaving) -> Leaving {
        let mut leaving = leaving;
        let mut from = 0;
        for _ in 0..at {
            let Some(Entry { part, to }) = self.take_before(from, at) else {
                break;
            };
            leaving = self.lead_on(to, part, leaving);
            from = to;
        }
        leaving
    }

    /// Moves the weights into later states to the entries, and gives their sum. None: there are too many.
    fn keep_later(&mut self, at: u32) -> Option<f64> {
        let mut coming = 0.0;
        for _ in at..self.states {
            let Some(entry) = self.take_before(at, self.states) else {
                break;
            };
            let Some(place) = self.entries.get_mut(self.count as usize) else {
                return None;
            };
            *place = entry;
            self.count = self.count.wrapping_add(1);
            coming += entry.part;
        }
        Some(coming)
    }

    /// Divides the entries from a place on.
    fn divide(&mut self, first: u32, all: f64) {
        for place in first..self.count {
            if let Some(entry) = self.entries.get_mut(place as usize) {
                entry.part /= all;
            }
        }
    }

    /// Puts a state in by the row that was made. What comes back to it isn't counted, so that nothing is ever taken from
    /// 1. Each time that the row is taken brings so much besides. False: there are too many entries.
    fn put_in(&mut self, at: u32, leaving: Leaving, extra: f64) -> bool {
        let leaving = self.lead_all_on(at, leaving);
        let back = match self.take_before(at, at.saturating_add(1)) {
            Some(entry) => entry.part,
            None => 0.0,
        };
        let first = self.count;
        let Some(coming) = self.keep_later(at) else {
            return false;
        };
        let all = leaving.weight + coming;
        let mut lead = Lead {
            leak: 1.0,
            gain: if leaving.gain > 0.0 { 1.0 } else { 0.0 },
            end: self.count,
        };
        if all > 0.0 {
            self.divide(first, all);
            lead.leak = leaving.weight / all;
            lead.gain = (leaving.gain + extra * (all + back)) / all;
        }
        if let Some(place) = self.leads.get_mut(at as usize) {
            *place = lead;
        }
        true
    }
}

/// Whether a value counts in place of another one, which it does where it is better by more than so much.
fn is_better(extreme: Extreme, value: f64, other: f64, slack: f64) -> bool {
    match extreme {
        Extreme::Greatest => value > other + slack,
        Extreme::Least => value < other - slack,
    }
}

impl Part<'_> {
    /// By how much a choice or a corner is to be better.
    fn slack(&self) -> f64 {
        (BETTER_OF_A_UNIT / nearest_i64_to_f64(self.top)).max(BETTER)
    }

    /// What a row with one entry is worth, if it has no more, at each corner.
    fn worth_of_single(&self, lane: &[i64], s: u32, a: u32) -> Option<f64>
        requires links { AreLinks self.now.case.now.model self.now.links.now }
        requires row { HasChoice self.now.case.now.model s a }
    {
        let targets = self.links.targets(self.links.place(s, a));
        if self.rewarded || targets.len() != 1 || targets[0] == s {
            return None;
        }
        Some(self.worth(lane, targets[0]))
    }

    /// The corner of a row that counts, this one if no other is better, and what the row is worth there.
    fn corner_that_counts(
        &self,
        lane: &[i64],
        s: u32,
        a: u32,
        corner: u32,
        reward: f64,
    ) -> (u32, f64)
        requires links { AreLinks self.now.case.now.model self.now.links.now }
        requires row { HasChoice self.now.case.now.model s a }
    {
        if let Some(worth) = self.worth_of_single(lane, s, a) {
            return (0, worth);
        }
        let corners = self.links.place(s, a).corners;
        if corners <= 1 {
            return (0, self.mean(lane, s, a, 0, reward));
        }
        let slack = self.slack();
        let means = self.means(lane, s, a);
        let mut best = corner;
        let mut worth = self.mean_by(&means, s, a, corner, reward);
        for other in 0..corners {
            if other != corner {
                let mean = self.mean_by(&means, s, a, other, reward);
                if is_better(self.rule.corner, mean, worth, slack) {
                    best = other;
                    worth = mean;
                }
            }
        }
        (best, worth)
    }

    /// The mark of the choice and the corner of a state that count, given the one that did.
    fn mark_of(&self, lane: &[i64], s: u32, old: u32, anew: Anew) -> u32
        requires links { AreLinks self.now.case.now.model self.now.links.now }
        requires state { s < length self.now.case.now.model.states }
    {
        let reward = if self.rewarded {
            self.reward_of(s)
        } else {
            0.0
        };
        let choices = self.case.model().choices(s);
        let mut first = old / CORNERS;
        let mut corner = old % CORNERS;
        if first >= choices {
            first = 0;
            corner = 0;
        }
        let (corner, mut worth) = self.corner_that_counts(lane, s, first, corner, reward);
        let mut mark = first.wrapping_mul(CORNERS).wrapping_add(corner);
        let others = match anew {
            Anew::Corner => 0,
            Anew::First | Anew::Choice => choices,
        };
        for a in 0..others {
            if a != first {
                let (corner, other) = self.corner_that_counts(lane, s, a, 0, reward);
                if is_better(self.rule.choice, other, worth, self.slack()) {
                    worth = other;
                    mark = a.wrapping_mul(CORNERS).wrapping_add(corner);
                }
            }
        }
        if self.rewarded && worth >= 1.0 {
            mark = CUT_OFF;
        }
        mark
    }

    /// Marks which choice and corner of each state count, and tells whether one has another mark than it had.
    fn mark_all(&self, lane: &[i64], noted: &mut [u32], anew: Anew) -> bool
        requires links { AreLinks self.now.case.now.model self.now.links.now }
    {
        let is_first = match anew {
            Anew::First => true,
            Anew::Corner | Anew::Choice => false,
        };
        let mut is_other = is_first;
        for position in self.low..self.high {
            let Some(s) = self.state_at(position) else {
                continue;
            };
            let Some(bits) = noted.get_mut(position as usize) else {
                continue;
            };
            let note = Note { bits: *bits };
            let old = if is_first { 0 } else { note.position() };
            let mark = self.mark_of(lane, s, old, anew);
            is_other = is_other || mark != old;
            *bits = note.with_position(mark).bits;
        }
        is_other
    }

    /// Marks anew which choice and corner of each state count, and tells whether one has another mark than it had. Where
    /// choices and corners are for opposite ends, choices wait until the corners of those that count stay.
    pub(crate) fn mark_anew(&self, lane: &[i64], noted: &mut [u32], is_first: bool) -> bool
        requires links { AreLinks self.now.case.now.model self.now.links.now }
    {
        if is_first {
            return self.mark_all(lane, noted, Anew::First);
        }
        let waits = match (self.rule.choice, self.rule.corner) {
            (Extreme::Greatest, Extreme::Greatest) | (Extreme::Least, Extreme::Least) => false,
            _ => true,
        };
        if waits && self.mark_all(lane, noted, Anew::Corner) {
            return true;
        }
        self.mark_all(lane, noted, Anew::Choice)
    }

    /// Lays out the row of a state's choice at a corner, and gives what leaves the part.
    fn lay_out(&self, lane: &[i64], rows: &mut Rows, s: u32, a: u32, corner: u32) -> Leaving
        requires links { AreLinks self.now.case.now.model self.now.links.now }
        requires row { HasChoice self.now.case.now.model s a }
    {
        let place = self.links.place(s, a);
        let mut at = first_weight(place, corner);
        let mut leaving = Leaving::NONE;
        for target in self.links.targets(place) {
            let weight = float_of(self.weights.get(at).copied().unwrap_or(0));
            at = at.wrapping_add(1);
            if weight > 0.0 && *target != s {
                match self.position_of(*target) {
                    Some(position) => rows.add(position.wrapping_sub(self.low), weight),
                    None => {
                        let worth = self.worth_beyond(lane, *target);
                        leaving = leaving.with(weight, weight * worth);
                    }
                }
            }
        }
        if self.rewarded {
            leaving = leaving.with(0.0, self.reward_of(s) * self.whole(place, corner));
        }
        leaving
    }

    /// Lays out the row of the state at a position whose choice and corner count by its mark.
    fn lay_out_marked(&self, lane: &[i64], rows: &mut Rows, position: u32, mark: u32) -> Leaving
        requires links { AreLinks self.now.case.now.model self.now.links.now }
    {
        let Some(s) = self.state_at(position) else {
            return Leaving::NONE;
        };
        if self.rewarded && mark == CUT_OFF {
            return Leaving::MOST;
        }
        let a = mark / CORNERS;
        if a >= self.case.model().choices(s) {
            return Leaving::NONE;
        }
        self.lay_out(lane, rows, s, a, mark % CORNERS)
    }

    /// Puts all states in, with what each expected step brings besides, or without. False: the rows have too many entries.
    fn put_rows_in(&self, lane: &[i64], noted: &[u32], rows: &mut Rows, is_moved: bool) -> bool
        requires links { AreLinks self.now.case.now.model self.now.links.now }
    {
        rows.clear();
        for position in self.low..self.high {
            let note = note_at(noted, position);
            let leaving = self.lay_out_marked(lane, rows, position, note.position());
            let at = position.wrapping_sub(self.low);
            let extra = if is_moved { self.extra_by(note) } else { 0.0 };
            if !rows.put_in(at, leaving, extra) {
                return false;
            }
        }
        true
    }

    /// What the state is worth that was put in so, by what later ones are worth.
    fn worth_by(&self, lane: &[i64], rows: &Rows, at: u32) -> f64 {
        let lead = rows.lead(at);
        let mut worth = lead.gain;
        for place in rows.begin(at)..lead.end {
            let Entry { part, to } = rows.entry(place);
            worth += part * self.worth_at(lane, self.low.wrapping_add(to));
        }
        worth
    }

    /// Writes what the states are worth, from the last one on.
    fn take_rows_out(&self, lane: &mut [i64], rows: &Rows)
        requires links { AreLinks self.now.case.now.model self.now.links.now }
        requires size { length lane.old ≡ length self.now.case.now.model.states }
        ensures { IsSameBeyond self.now.rule.ends self.now.case.now self.now.links.now self.now.low self.now.high
            lane.old lane.new }
    {
        for position in (self.low..self.high).rev() {
            let worth = self.worth_by(lane, rows, position.wrapping_sub(self.low));
            self.write_worth(lane, position, worth);
        }
    }

    /// Finds what the states are worth by elimination, with the choices and corners that count anew in each round, until
    /// the same count again. False: the rows have too many entries. Without rewards, what each expected step brings besides
    /// is added at the end, since it makes no choice count.
    fn eliminate_in_rounds(&self, lane: &mut [i64], noted: &mut [u32], rows: &mut Rows) -> bool
        requires links { AreLinks self.now.case.now.model self.now.links.now }
        requires size { length lane.old ≡ length self.now.case.now.model.states }
        ensures { IsSameBeyond self.now.rule.ends self.now.case.now self.now.links.now self.now.low self.now.high
            lane.old lane.new }
    {
        for round in 0..ROUNDS {
            if !self.mark_anew(lane, noted, round == 0) {
                break;
            }
            if !self.put_rows_in(lane, noted, rows, self.rewarded) {
                return false;
            }
            self.take_rows_out(lane, rows);
        }
        if self.extra == 0.0 || self.rewarded {
            return true;
        }
        if !self.put_rows_in(lane, noted, rows, true) {
            return false;
        }
        self.take_rows_out(lane, rows);
        true
    }

    /// The same, if the part has neither too few states nor too many.
    #[inline(never)]
    pub(crate) fn eliminate_rows(&self, lane: &mut [i64], noted: &mut [u32]) -> bool
        requires links { AreLinks self.now.case.now.model self.now.links.now }
        requires size { length lane.old ≡ length self.now.case.now.model.states }
        ensures { IsSameBeyond self.now.rule.ends self.now.case.now self.now.links.now self.now.low self.now.high
            lane.old lane.new }
    {
        let states = self.high.saturating_sub(self.low);
        if states < FEWEST || states > STATES as u32 {
            return false;
        }
        let mut rows = Rows::none(states);
        self.eliminate_in_rounds(lane, noted, &mut rows)
    }
}
