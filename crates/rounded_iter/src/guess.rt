//! Guesses of the least bound, by which an iteration that takes long is begun again. A guess is tested at the end, so
//! nothing is known of how it is made.

ghost use Rattle.std.specs.Prelude.{◌≡◌, ◌≤ℤ◌, ◌^◌, ◌<◌, ℕ, pos, length, IsTrue, IfSome, true, false, Some};
ghost use Rattle.lift_grid.specs.Rectangle.{Spans};
ghost use Rattle.corner_lift.specs.Case.{IsCase, number};
ghost use Rattle.float_guess.specs.Rule.{is_given, given};
ghost use Rattle.rounded_iter.specs.Rising.{IsBelow, IsLeastBound, Run};
ghost use Rattle.rounded_iter.specs.Watching.{CanStart, CanClimb, IsFound, CanGuess, IsGuess, CanConfirm, CanTest, AreNoted, IsSure, IsClimbed, from_zero};

use crate::table::{Ended, Table};
use corner_lift::{corners_bound_weights, rows_at_corners};
use float_guess::{Method, Note, Rounding, guess_part};

/// How many passes raise a guess by elimination.
pub(crate) const RAISES: u32 = 16384;

/// How many passes are made before it is asked whether a guess was no fault.
const FEW_RAISES: [u32; 4] = [4, 8, 16, 32];

/// By how much the initial state's number in a guess is more than the limit, where all numbers are made less.
const MARGIN: i64 = 4;

/// Of which components there is a guess.
#[derive(Clone, Copy)]
enum Guessed {
    Nothing,
    Some,
    All,
}

/// What came of a guess that was raised.
#[derive(Clone, Copy)]
pub(crate) enum Raised {
    /// The least bound.
    Least,
    /// The initial state's number is above the limit, in every bound.
    Past,
    /// Nothing certain: it may have been too high.
    High,
    /// It took too many passes, and lies at or below each bound.
    Certain,
    /// It took too many passes, and may have been too high.
    Slow,
    /// There was none, or none that is worth another try.
    Nothing,
}

/// Notes the low bits of each number.
fn note(lane: &[i64], noted: &mut [u32])
    requires sizes { length noted.old ≡ length lane.now }
    requires numbers { (s : ℕ) → pos 0 ≤ℤ number lane.now s }
    ensures { AreNoted lane.now noted.new (length lane.now) }
{
    for s in 0..lane.len() {
        noted[s] = Note { bits: noted[s] }.with_number(lane[s]).bits;
    }
}

/// So many parts of a number of which there are that many in all. Nothing is promised of it.
fn part_of(number: i64, parts: i64, all: i64) -> i64 {
    let product = i128::from(number).saturating_mul(i128::from(parts));
    let part = product.checked_div(i128::from(all)).unwrap_or(0);
    i64::try_from(part).unwrap_or(0)
}

impl Table<'_, '_> {
    /// The number of a state in a guess that was given: a unit less, from 0 on and below `top`, unless the state's number
    /// is given.
    fn guessed_number(&self, number: i64, s: u32) -> i64
        requires case { IsCase self.now.case }
        requires state { s < length self.now.case.model.states }
        ensures given { is_given self.now.case.model self.now.rule.ends s ≡ true
            → result ≡ given self.now.case self.now.rule.ends s }
        ensures range { (pos 0 ≤ℤ result) × (result ≤ℤ pos (2 ^ self.now.case.w)) }
    {
        if self.rule.ends.has(self.rows.model(), s) {
            return self.first_number(s);
        }
        if number < 1 {
            return 0;
        }
        number.min(self.top) - 1
    }

    /// Takes what `lane` holds for a guess.
    pub(crate) fn take_guess(&self, lane: &mut [i64])
        requires { CanStart self.now lane.old }
        ensures { IsGuess self.now.rule self.now.case lane.new }
    {
        rows_at_corners();
        let model = self.rows.model();
        for s in 0..model.states() {
            lane[s as usize] = self.guessed_number(lane[s as usize], s);
        }
    }

    /// The number of a state in a guess that is made less, so that of the initial state `init` becomes a little more than the
    /// limit, unless the state's number is given.
    fn lessened_number(&self, number: i64, init: i64, s: u32) -> i64
        requires case { IsCase self.now.case }
        requires state { s < length self.now.case.model.states }
        ensures given { is_given self.now.case.model self.now.rule.ends s ≡ true
            → result ≡ given self.now.case self.now.rule.ends s }
        ensures range { (pos 0 ≤ℤ result) × (result ≤ℤ pos (2 ^ self.now.case.w)) }
    {
        if self.rule.ends.has(self.rows.model(), s) {
            return self.first_number(s);
        }
        let number = part_of(number, self.limit.saturating_add(MARGIN), init);
        if number < 0 {
            return 0;
        }
        number.min(self.top)
    }

    /// Makes all numbers of a guess less by the same share, so that the initial state's is a little more than the limit:
    /// rewards aren't made less, so each number soon rises, and so shows that it lies below each bound.
    fn lessen_guess(&self, lane: &mut [i64])
        requires { CanStart self.now lane.old }
        ensures { IsGuess self.now.rule self.now.case lane.new }
    {
        rows_at_corners();
        let model = self.rows.model();
        let init = lane[model.init() as usize];
        for s in 0..model.states() {
            lane[s as usize] = self.lessened_number(lane[s as usize], init, s);
        }
    }

    /// Whether the guess at a state, of which that was noted, is no fault.
    pub(crate) fn is_sure_at(&self, lane: &[i64], noted: &[u32], s: u32) -> bool
        requires can { CanTest self.now lane.now noted.now }
        requires state { s < length self.now.case.model.states }
        ensures { IsTrue result → IsSure self.now.rule self.now.case noted.now lane.now s }
    {
        rows_at_corners();
        let number = lane[s as usize];
        if number == 0 || self.rule.ends.has(self.rows.model(), s) {
            return true;
        }
        let note = Note {
            bits: noted[s as usize],
        };
        !note.is_of(number)
    }

    /// Whether it is at all states.
    fn is_sure(&self, lane: &[i64], noted: &[u32]) -> bool
        requires { CanTest self.now lane.now noted.now }
        ensures { IsTrue result → (s : ℕ) → s < length self.now.case.model.states
            → IsSure self.now.rule self.now.case noted.now lane.now s }
    {
        for s in 0..self.rows.model().states() {
            if !self.is_sure_at(lane, noted, s) {
                return false;
            }
        }
        true
    }

    /// Raises a vector in so few passes. Where there are rewards, a pass is one over all states: each has something to add to
    /// its number, whatever its component's others wait for.
    fn try_few(&self, lane: &mut [i64], flags: &mut [u32], few: u32) -> Ended
        ghost run: { Run }
        requires { CanClimb self.now run lane.old flags.old }
        ensures { IsClimbed self.now run lane.new (Some few) result }
    {
        if self.has_rewards() {
            self.settle_all(lane, flags, Some(few))
        } else {
            self.climb(lane, flags, Some(few))
        }
    }

    /// Raises a vector, of which that was noted, in so many passes at most, or some more. A few are made first: a
    /// guess that lies well below each bound is soon seen to.
    fn climb_noted(&self, lane: &mut [i64], flags: &mut [u32], noted: &[u32], passes: u32) -> Ended
        ghost run: { Run }
        requires can { CanClimb self.now run lane.old flags.old }
        requires notes { length noted.now ≡ length self.now.case.model.states }
        ensures { IsClimbed self.now run lane.new (Some passes) result }
    {
        rows_at_corners();
        corners_bound_weights();
        for few in FEW_RAISES {
            if few >= passes {
                break;
            }
            match self.try_few(lane, flags, few) {
                Ended::Settled => return Ended::Settled,
                Ended::Past => return Ended::Past,
                Ended::Slow => {
                    if self.is_sure(lane, noted) {
                        return Ended::Slow;
                    }
                }
            }
        }
        self.climb(lane, flags, Some(passes))
    }

    /// Raises a guess in so many passes at most, and tells what came of it.
    fn confirm(&self, lane: &mut [i64], flags: &mut [u32], noted: &mut [u32], passes: u32) -> Raised
        ghost spans: { Spans }
        requires { CanConfirm self.now spans lane.old flags.old noted.old }
        ensures least { result ≡ Raised.Least → IsLeastBound self.now.rule self.now.case spans lane.new }
        ensures past { result ≡ Raised.Past → IsFound self.now spans lane.new false }
        ensures below { result ≡ Raised.Certain → IsBelow self.now.rule self.now.case (from_zero spans) lane.new }
        ensures guess { IsGuess self.now.rule self.now.case lane.new }
    {
        rows_at_corners();
        corners_bound_weights();
        note(lane, noted);
        let ended = self.climb_noted(lane, flags, noted, passes);
        let sure = self.is_sure(lane, noted);
        match ended {
            Ended::Settled => if sure { Raised::Least } else { Raised::High },
            Ended::Past => if sure { Raised::Past } else { Raised::High },
            Ended::Slow => if sure { Raised::Certain } else { Raised::Slow },
        }
    }

    /// Guesses the least bound in a component. False: it is not worth much.
    fn guess_component(
        &self,
        lane: &mut [i64],
        flags: &mut [u32],
        noted: &mut [u32],
        low: u32,
        high: u32,
        method: Method,
    ) -> bool
        requires { CanGuess self.now lane.old }
        ensures { IsGuess self.now.rule self.now.case lane.new }
    {
        guess_part(
            self.rows.case(),
            self.rows.links(),
            self.rows.weights(),
            self.rule,
            Rounding::Down,
            lane,
            flags,
            noted,
            low,
            high,
            method,
        )
    }

    /// Guesses the least bound, component by component from those below. From the first one on where the way
    /// doesn't do, the guess is 0.
    fn guess(
        &self,
        lane: &mut [i64],
        flags: &mut [u32],
        noted: &mut [u32],
        method: Method,
    ) -> Guessed
        requires { CanGuess self.now lane.old }
        ensures { IsGuess self.now.rule self.now.case lane.new }
    {
        let mut method = method;
        let mut some = false;
        let mut all = true;
        let mut low = 0;
        for position in 0..self.rows.model().states() {
            let next = position + 1;
            if self.is_end(next) {
                if !self.guess_component(lane, flags, noted, low, next, method) {
                    if !some {
                        return Guessed::Nothing;
                    }
                    method = Method::Nothing;
                    all = false;
                    self.guess_component(lane, flags, noted, low, next, method);
                }
                some = some || (all && low < position);
                low = next;
            }
        }
        match (some, all) {
            (false, _) => Guessed::Nothing,
            (true, false) => Guessed::Some,
            (true, true) => Guessed::All,
        }
    }

    /// The same. Where there are rewards, what it would come to in a first round is enough if the initial state's number is
    /// above the limit then: further rounds find choices and corners that bring more.
    fn guess_enough(
        &self,
        lane: &mut [i64],
        flags: &mut [u32],
        noted: &mut [u32],
        method: Method,
    ) -> Guessed
        ghost spans: { Spans }
        requires { CanConfirm self.now spans lane.old flags.old noted.old }
        ensures { IsGuess self.now.rule self.now.case lane.new }
    {
        match method {
            Method::Elimination if self.has_rewards() => {
                let guessed = self.guess(lane, flags, noted, Method::FirstElimination);
                if matches!(guessed, Guessed::All) && self.is_past(lane) {
                    return guessed;
                }
            }
            _ => {}
        }
        self.guess(lane, flags, noted, method)
    }

    /// Raises a guess of all components. The limit is no matter, since states above it may not have been
    /// raised where it is passed.
    pub(crate) fn confirm_all(
        &self,
        lane: &mut [i64],
        flags: &mut [u32],
        noted: &mut [u32],
        passes: u32,
    ) -> Raised
        ghost spans: { Spans }
        requires { CanConfirm self.now spans lane.old flags.old noted.old }
        ensures least { result ≡ Raised.Least → IsLeastBound self.now.rule self.now.case spans lane.new }
        ensures past { result ≡ Raised.Past → ⊥ }
        ensures below { result ≡ Raised.Certain → IsBelow self.now.rule self.now.case (from_zero spans) lane.new }
        ensures guess { IsGuess self.now.rule self.now.case lane.new }
    {
        let boundless = Table {
            rows: self.rows,
            rule: self.rule,
            top: self.top,
            limit: self.top,
        };
        match boundless.confirm(lane, flags, noted, passes) {
            Raised::Least => Raised::Least,
            Raised::Certain => Raised::Certain,
            Raised::Slow => Raised::Slow,
            Raised::Past | Raised::High | Raised::Nothing => Raised::High,
        }
    }

    /// Makes a guess and raises it, in so many passes at most if it is one of all components.
    pub(crate) fn rise_from_guess(
        &self,
        lane: &mut [i64],
        flags: &mut [u32],
        noted: &mut [u32],
        method: Method,
        passes: u32,
    ) -> Raised
        ghost spans: { Spans }
        requires { CanConfirm self.now spans lane.old flags.old noted.old }
        ensures least { result ≡ Raised.Least → IsLeastBound self.now.rule self.now.case spans lane.new }
        ensures past { result ≡ Raised.Past → IsFound self.now spans lane.new false }
        ensures below { result ≡ Raised.Certain → IsBelow self.now.rule self.now.case (from_zero spans) lane.new }
        ensures guess { IsGuess self.now.rule self.now.case lane.new }
    {
        let guessed = self.guess_enough(lane, flags, noted, method);
        if self.has_rewards() && self.is_past(lane) {
            self.lessen_guess(lane);
        }
        match guessed {
            Guessed::Nothing => Raised::Nothing,
            Guessed::Some => match self.confirm(lane, flags, noted, RAISES) {
                Raised::Least => Raised::Least,
                Raised::Past => Raised::Past,
                Raised::High | Raised::Certain | Raised::Slow | Raised::Nothing => Raised::Nothing,
            },
            Guessed::All => self.confirm_all(lane, flags, noted, passes),
        }
    }

    /// The same, to the end once it lies at or below each bound, and tells whether the initial state's number is within
    /// the limit. None: no least bound came of it for certain.
    pub(crate) fn find_from_guess(
        &self,
        lane: &mut [i64],
        flags: &mut [u32],
        noted: &mut [u32],
        method: Method,
        passes: u32,
    ) -> Option<bool>
        ghost spans: { Spans }
        requires { CanConfirm self.now spans lane.old flags.old noted.old }
        ensures found { IfSome result (λ found. IsFound self.now spans lane.new found) }
        ensures guess { IsGuess self.now.rule self.now.case lane.new }
    {
        rows_at_corners();
        corners_bound_weights();
        match self.rise_from_guess(lane, flags, noted, method, passes) {
            Raised::Least => Some(!self.is_past(lane)),
            Raised::Past => Some(false),
            Raised::Certain => self.rise_to_end(lane, flags),
            Raised::High | Raised::Slow | Raised::Nothing => None,
        }
    }
}
