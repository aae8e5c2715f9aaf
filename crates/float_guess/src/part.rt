//! A part of the states, and how its numbers are read and written while it is guessed.

ghost use Rattle.std.specs.Prelude.{◌≡◌, ◌≤◌, ◌<◌, ℕ, length, IfSome, IsSome};
ghost use Rattle.lift_model.specs.Links.{AreLinks};
ghost use Rattle.float_guess.specs.Part.{IsFreeAt, IsSameBeyond, IsWrittenAt};

use crate::floats::{float_of, number_of, probability_of};
use crate::notes::Note;
use crate::rule::Rule;
use corner_lift::Case;
use lift_model::{Links, RowPlace};
use std::num::nearest_i64_to_f64;

/// So much less than a state's part of a unit is added, so that errors of rounding don't matter.
const LESS: f64 = 0.00390625;

/// The states that stand at the positions from `low` on and before `high`. While they are guessed, the lane
/// holds 2 to the 62 times a state's probability for each of them whose number isn't given; for the others it
/// holds numbers of which `top` stands for 1.
#[derive(Drop)]
pub(crate) struct Part<'a> {
    pub(crate) case: &'a Case<'a>,
    pub(crate) links: &'a Links,
    pub(crate) weights: &'a [i128],
    pub(crate) rule: Rule<'a>,
    pub(crate) top: i64,
    // what each expected step brings besides, where the share or the part is whole
    pub(crate) extra: f64,
    // whether visits add rewards
    pub(crate) rewarded: bool,
    pub(crate) low: u32,
    pub(crate) high: u32,
}

/// Where the weights of a row at a corner begin in a table.
pub(crate) fn first_weight(place: RowPlace, corner: u32) -> usize {
    let count = place.count as usize;
    (place.weights as usize).wrapping_add(count.wrapping_mul(corner as usize))
}

impl Part<'_> {
    /// The state at a position of the part, if its number isn't given.
    pub(crate) fn state_at(&self, position: u32) -> Option<u32>
        requires { AreLinks self.now.case.now.model self.now.links.now }
        ensures part { IsSome result → (self.now.low ≤ position) × (position < self.now.high) }
        ensures some { IfSome result (IsFreeAt self.now.rule.ends self.now.case.now self.now.links.now position) }
        ensures all { (s : ℕ) → self.now.low ≤ position → position < self.now.high
            → IsFreeAt self.now.rule.ends self.now.case.now self.now.links.now position s → result ≡ Some s }
    {
        if position < self.low || position >= self.high {
            return None;
        }
        let Some(s) = self.links.order().get(position as usize).copied() else {
            return None;
        };
        let model = self.case.model();
        if s >= model.states()
            || self.links.position(s) != position
            || self.rule.ends.has(model, s)
        {
            return None;
        }
        Some(s)
    }

    /// The position of a state, if it is one of the part whose number isn't given.
    pub(crate) fn position_of(&self, s: u32) -> Option<u32>
        requires { AreLinks self.now.case.now.model self.now.links.now }
    {
        let model = self.case.model();
        if s >= model.states() || self.rule.ends.has(model, s) {
            return None;
        }
        let position = self.links.position(s);
        if position < self.low || position >= self.high {
            return None;
        }
        Some(position)
    }

    /// What a state is worth that is none of those.
    pub(crate) fn worth_beyond(&self, lane: &[i64], s: u32) -> f64 {
        let number = lane.get(s as usize).copied().unwrap_or(0);
        nearest_i64_to_f64(number) / nearest_i64_to_f64(self.top)
    }

    /// What the lane holds for the state at a position.
    pub(crate) fn number_at(&self, lane: &[i64], position: u32) -> i64 {
        match self.links.order().get(position as usize) {
            Some(s) => lane.get(*s as usize).copied().unwrap_or(0),
            None => 0,
        }
    }

    /// What the state at a position of the part is worth.
    pub(crate) fn worth_at(&self, lane: &[i64], position: u32) -> f64 {
        probability_of(self.number_at(lane, position))
    }

    /// What a state is worth.
    pub(crate) fn worth(&self, lane: &[i64], s: u32) -> f64
        requires { AreLinks self.now.case.now.model self.now.links.now }
    {
        let number = lane.get(s as usize).copied().unwrap_or(0);
        match self.position_of(s) {
            Some(_) => probability_of(number),
            None => nearest_i64_to_f64(number) / nearest_i64_to_f64(self.top),
        }
    }

    /// What each expected step from a state brings besides, of which that was noted: by its share, or where there are
    /// rewards by its part.
    pub(crate) fn extra_by(&self, note: Note) -> f64 {
        if self.rewarded {
            self.extra * (note.part() - LESS).max(0.0)
        } else {
            self.extra * note.share()
        }
    }

    /// What a visit of a state adds to what it is worth.
    #[inline(never)]
    pub(crate) fn reward_of(&self, s: u32) -> f64 {
        let added = self.rule.ends.added(self.case, s);
        nearest_i64_to_f64(added) / nearest_i64_to_f64(self.top)
    }

    /// What a row weighs at a corner.
    #[inline(never)]
    pub(crate) fn whole(&self, place: RowPlace, corner: u32) -> f64 {
        let first = first_weight(place, corner);
        let end = first.wrapping_add(place.count as usize);
        let mut whole = 0.0;
        for at in first..end {
            whole += float_of(self.weights.get(at).copied().unwrap_or(0));
        }
        whole
    }

    /// Writes a number for the state at a position of the part, if its number isn't given.
    pub(crate) fn write(&self, lane: &mut [i64], position: u32, number: i64)
        requires links { AreLinks self.now.case.now.model self.now.links.now }
        requires size { length lane.old ≡ length self.now.case.now.model.states }
        ensures { IsWrittenAt self.now.rule.ends self.now.case.now self.now.links.now
            self.now.low self.now.high position number lane.old lane.new }
    {
        if let Some(s) = self.state_at(position) {
            lane[s as usize] = number;
        }
    }

    /// Writes what the state at a position is worth.
    pub(crate) fn write_worth(&self, lane: &mut [i64], position: u32, worth: f64)
        requires links { AreLinks self.now.case.now.model self.now.links.now }
        requires size { length lane.old ≡ length self.now.case.now.model.states }
        ensures { IsSameBeyond self.now.rule.ends self.now.case.now self.now.links.now self.now.low self.now.high
            lane.old lane.new }
    {
        self.write(lane, position, number_of(worth));
    }
}
