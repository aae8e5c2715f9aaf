//! The least bound in a slow component, by a search for the number of a state that is held while the others rise.
//!
//! A bound with m added, at most 2 to the `w`, is a bound, since the weights of a row sum to its whole. So let a state be held
//! at a number while others rise from a vector at or below each bound that has that much there. If then the held state rises
//! too, it had less than in each bound, and what was raised lies at or below each bound. If it doesn't, once the others
//! settled, they are a bound with it, so it had enough. So the least bound's number is found by halving, in a few dozen looks,
//! however many steps are expected. Where the others rise slowly as well, the search is given up.

ghost use Rattle.std.specs.Prelude.{◌≡◌, ◌<◌, ◌≤◌, ◌≤ℤ◌, ◌<ℤ◌, ◌^◌, ◌+◌, ◌-◌, ◌-ℤ◌, ℕ, pos, length, IfSome, IsTrue, IsFalse, Some, None, true, false, slice_index_or};
ghost use Rattle.lift_grid.specs.Rectangle.{Spans};
ghost use Rattle.lift_model.specs.Links.{AreLinks};
ghost use Rattle.corner_lift.specs.Case.{number};
ghost use Rattle.rounded_iter.specs.Rising.{Run, IsBelow, IsRead};
ghost use Rattle.rounded_iter.specs.Watching.{CanClimb, CanRise, IsFound, IsGuess, from_zero};
ghost use Rattle.rounded_iter.specs.Held.{CanHold, beside, IsRaisedIn, AreKept, IsRestored, IsAbove, CanLook, IsSearch};

use crate::steering::{Beside, Component, Looking, Steering};
use crate::table::Table;
use crate::worklist::take_flag;
use corner_lift::{corners_bound_weights, rows_at_corners};
use float_guess::{Among, HELD_STATES, most_visited, worth_by};

/// How many numbers of a held state are tried at most.
const LOOKS: u32 = 256;

/// How many passes there are at most.
const MOST_PASSES: u32 = 65536;

/// How many passes over a component are made before a state of it is held, and how many where the search is to be quick.
const PATIENCE: i64 = 16;

const QUICK_PATIENCE: i64 = 1;

/// How many passes over a component there are at most once the search ended.
const LAST_PASSES: u32 = 1024;

/// How many passes raise what lies at or below each bound, before states are held.
const END_PASSES: u32 = 1024;

/// Numbers of a component that settled where a state of it was held at `high`.
#[derive(Clone, Copy)]
struct Settled<'a> {
    numbers: &'a [i64],
    high: i64,
}

/// The search for the number of a held state: the numbers of its component from which it goes on, and those that settled with
/// the state held at `high`, or the same at first.
#[derive(Drop)]
pub(crate) struct Search {
    base: [i64; HELD_STATES],
    settled: [i64; HELD_STATES],
    high: i64,
    looking: Looking,
}

/// So much less.
fn reduced(number: i64, less: i64) -> i64
    requires { (pos 0 ≤ℤ number) × (pos 0 ≤ℤ less) }
    ensures { result ≡ number -ℤ less }
{
    number - less
}

/// Flags the positions of a component.
fn flag_component(work: &mut [u32], component: Component)
    requires { component.high ≤ length work.old }
{
    for position in component.low..component.high {
        work[position as usize] = 1;
    }
}

impl Table<'_, '_> {
    /// Takes the flag of a position away, if there is one, and visits its state. Tells whether it rose.
    #[inline(always)]
    fn turn_beside(&self, lane: &mut [i64], work: &mut [u32], position: u32, high: u32) -> bool
        ghost run: { Run }
        requires can { CanClimb self.now run lane.old work.old }
        requires inside { position < length self.now.case.model.states }
        ensures { IsRaisedIn self.now run position (position + 1) lane.old lane.new }
    {
        if !take_flag(work, position) {
            return false;
        }
        let s = self.rows.order()[position as usize];
        if s >= self.rows.model().states() {
            return false;
        }
        let rose = self.raise_lone(lane, s);
        if rose {
            self.flag_before(work, s, position, high);
        }
        rose
    }

    /// Visits the state at a position, if it is flagged and not held, and tells whether it rose.
    #[inline(always)]
    #[tactic(auto, using(crate::proofs::Holding::raised_none))]
    fn step_beside(
        &self,
        lane: &mut [i64],
        work: &mut [u32],
        component: Component,
        position: u32,
        steering: &mut Steering,
    ) -> bool
        ghost run: { Run }
        requires can { CanClimb self.now run lane.old work.old }
        requires inside { component.high ≤ length self.now.case.model.states }
        requires from { component.low ≤ position }
        requires to { position < component.high }
        ensures { IsRaisedIn self.now run component.low component.high lane.old lane.new }
    {
        if work[position as usize] == 0 || position == component.held {
            return false;
        }
        steering.count_visit();
        self.turn_beside(lane, work, position, component.high)
    }

    /// Visits the flagged states of a component that aren't held, and tells whether one rose.
    fn pass_beside(
        &self,
        lane: &mut [i64],
        work: &mut [u32],
        component: Component,
        steering: &mut Steering,
    ) -> bool
        ghost run: { Run }
        requires can { CanClimb self.now run lane.old work.old }
        requires inside { component.high ≤ length self.now.case.model.states }
        ensures { IsRaisedIn self.now run component.low component.high lane.old lane.new }
    {
        let mut rose = false;
        for position in component.low..component.high {
            let now = self.step_beside(lane, work, component, position, steering);
            rose = rose || now;
        }
        rose
    }

    /// Visits the state that is held, if one is, and tells whether it rose.
    #[tactic(auto, using(crate::proofs::Holding::raised_none, crate::proofs::Holding::raised_then, crate::proofs::Holding::raised_wider))]
    fn turn_held(&self, lane: &mut [i64], work: &mut [u32], component: Component) -> bool
        ghost run: { Run }
        requires can { CanClimb self.now run lane.old work.old }
        requires inside { component.high ≤ length self.now.case.model.states }
        ensures { IsRaisedIn self.now run component.low component.high lane.old lane.new }
    {
        component.has(component.held)
            && self.turn_beside(lane, work, component.held, component.high)
    }

    /// Raises the states of a component beside the one that is held, until fewer visits are left.
    #[tactic(auto, using(crate::proofs::Holding::raised_none, crate::proofs::Holding::raised_then, crate::proofs::Holding::raised_wider))]
    fn rise_beside(
        &self,
        lane: &mut [i64],
        work: &mut [u32],
        component: Component,
        steering: &mut Steering,
        least: i64,
    ) -> Beside
        ghost run: { Run }
        requires can { CanClimb self.now run lane.old work.old }
        requires inside { component.high ≤ length self.now.case.model.states }
        ensures { IsRaisedIn self.now run component.low component.high lane.old lane.new }
    {
        for _ in 0..MOST_PASSES {
            if steering.is_below(least) {
                return Beside::Slow;
            }
            let rose = self.pass_beside(lane, work, component, steering);
            if self.turn_held(lane, work, component) {
                return Beside::Rises;
            }
            if !rose {
                return Beside::Settled;
            }
        }
        Beside::Slow
    }

    /// Keeps the numbers of a component.
    fn keep(&self, lane: &[i64], kept: &mut [i64], component: Component)
        requires links { AreLinks self.now.case.model self.now.links }
        requires size { length lane.now ≡ length self.now.case.model.states }
        requires inside { component.high ≤ length self.now.case.model.states }
        requires places { component.high - component.low ≤ length kept.old }
        ensures { AreKept self.now component.low component.high lane.now kept.new }
    {
        for position in component.low..component.high {
            let s = self.rows.order()[position as usize];
            if s < self.rows.model().states() {
                kept[(position - component.low) as usize] = lane[s as usize];
            }
        }
    }

    /// Writes numbers of a component that were kept.
    fn restore(&self, lane: &mut [i64], kept: &[i64], component: Component)
        requires links { AreLinks self.now.case.model self.now.links }
        requires size { length lane.old ≡ length self.now.case.model.states }
        requires inside { component.high ≤ length self.now.case.model.states }
        requires places { component.high - component.low ≤ length kept.now }
        ensures { IsRestored self.now component.low component.high kept.now lane.old lane.new }
    {
        for position in component.low..component.high {
            let s = self.rows.order()[position as usize];
            if s < self.rows.model().states() {
                lane[s as usize] = kept[(position - component.low) as usize];
            }
        }
    }

    /// Holds a state at a number, from its own on.
    fn set_held(&self, lane: &mut [i64], component: Component)
        ghost run: { Run }
        requires read { IsRead self.now run.spans }
        requires below { IsBelow self.now.rule self.now.case run lane.old }
        requires can { CanHold self.now component.low component.high component.held }
        requires inside { component.high ≤ length self.now.case.model.states }
        requires from { number lane.old (slice_index_or self.now.links.order component.held 0) ≤ℤ component.number }
        requires most { component.number ≤ℤ pos (2 ^ self.now.case.w) }
        ensures { IsRaisedIn self.now (beside self.now run component) component.low component.high lane.old lane.new }
    {
        rows_at_corners();
        corners_bound_weights();
        let f = self.rows.order()[component.held as usize];
        lane[f as usize] = component.number;
    }

    /// Raises the number of the state at a position to one of those that settled, less by what its held state was held more.
    fn raise_at(&self, lane: &mut [i64], component: Component, settled: Settled<'_>, position: u32)
        ghost run: { Run }
        requires read { IsRead self.now run.spans }
        requires below { IsBelow self.now.rule self.now.case (beside self.now run component) lane.old }
        requires can { CanHold self.now component.low component.high component.held }
        requires settled { IsAbove self.now run component settled.numbers.now settled.high }
        requires at { (component.low ≤ position) × (position < component.high) }
        requires inside { component.high ≤ length self.now.case.model.states }
        requires places { component.high - component.low ≤ length settled.numbers.now }
        ensures { IsRaisedIn self.now (beside self.now run component) component.low component.high lane.old lane.new }
    {
        rows_at_corners();
        corners_bound_weights();
        let s = self.rows.order()[position as usize];
        if s >= self.rows.model().states() {
            return;
        }
        let less = settled.high - component.number;
        let number = reduced(settled.numbers[(position - component.low) as usize], less);
        if number > lane[s as usize] {
            lane[s as usize] = number;
        }
    }

    /// The same at all positions.
    fn raise_to(&self, lane: &mut [i64], component: Component, settled: Settled<'_>)
        ghost run: { Run }
        requires read { IsRead self.now run.spans }
        requires below { IsBelow self.now.rule self.now.case (beside self.now run component) lane.old }
        requires can { CanHold self.now component.low component.high component.held }
        requires settled { IsAbove self.now run component settled.numbers.now settled.high }
        requires inside { component.high ≤ length self.now.case.model.states }
        requires places { component.high - component.low ≤ length settled.numbers.now }
        ensures { IsRaisedIn self.now (beside self.now run component) component.low component.high lane.old lane.new }
    {
        for position in component.low..component.high {
            self.raise_at(lane, component, settled, position);
        }
    }

    /// Holds a state at a number, from its own on, and raises the others, from what settled where it was held at more.
    fn try_held(
        &self,
        lane: &mut [i64],
        work: &mut [u32],
        component: Component,
        settled: Settled<'_>,
        steering: &mut Steering,
    ) -> Beside
        ghost run: { Run }
        requires climb { CanClimb self.now run lane.old work.old }
        requires can { CanHold self.now component.low component.high component.held }
        requires from { number lane.old (slice_index_or self.now.links.order component.held 0) ≤ℤ component.number }
        requires settled { IsAbove self.now run component settled.numbers.now settled.high }
        requires inside { component.high ≤ length self.now.case.model.states }
        requires places { component.high - component.low ≤ length settled.numbers.now }
        ensures { IsRaisedIn self.now (beside self.now run component) component.low component.high lane.old lane.new }
    {
        self.set_held(lane, component);
        self.raise_to(lane, component, settled);
        flag_component(work, component);
        let least = steering.begin();
        self.rise_held_at(lane, work, component, steering, least)
    }

    /// Raises a component beside the state that is held, until fewer visits are left.
    fn rise_held_at(
        &self,
        lane: &mut [i64],
        work: &mut [u32],
        component: Component,
        steering: &mut Steering,
        least: i64,
    ) -> Beside
        ghost run: { Run }
        requires can { CanClimb self.now (beside self.now run component) lane.old work.old }
        requires inside { component.high ≤ length self.now.case.model.states }
        ensures { IsRaisedIn self.now (beside self.now run component) component.low component.high lane.old lane.new }
    {
        self.rise_beside(lane, work, component, steering, least)
    }

    /// The position of a state that is worth holding.
    fn to_hold(&self, lane: &[i64], component: Component) -> Option<u32>
        requires links { AreLinks self.now.case.model self.now.links }
        requires inside { component.high ≤ length self.now.case.model.states }
        ensures { IfSome result (CanHold self.now component.low component.high) }
    {
        let among = Among {
            low: component.low,
            high: component.high,
            held: &[],
        };
        let position = most_visited(self.rows, self.rule, lane, among)?;
        if !component.has(position) {
            return None;
        }
        let s = self.rows.order()[position as usize];
        if s >= self.rows.model().states() || self.rule.ends.has(self.rows.model(), s) {
            return None;
        }
        Some(position)
    }

    /// At which number a search for that of a state may end: more than the limit doesn't matter for the initial state.
    fn likely_end(&self, s: u32) -> i64 {
        if s == self.rows.model().init() {
            self.limit
        } else {
            self.top
        }
    }

    /// Tries another number of the state that is held. None: the search goes on.
    fn look(
        &self,
        lane: &mut [i64],
        work: &mut [u32],
        component: Component,
        search: &mut Search,
        steering: &mut Steering,
    ) -> Option<Beside>
        ghost run: { Run }
        requires { CanLook self.now run component lane.old work.old search.old }
        ensures raised { IsRaisedIn self.now run component.low component.high lane.old lane.new }
        ensures search { result ≡ None → IsSearch self.now run component lane.new search.new }
        ensures places { (length search.new.base ≡ length search.old.base) × (length search.new.settled ≡ length search.old.settled) }
    {
        rows_at_corners();
        corners_bound_weights();
        let f = self.rows.order()[component.held as usize];
        let from = lane[f as usize];
        let number = match search.looking.next(from, search.high) {
            Some(number) if from <= number && number <= search.high => number,
            _ => return Some(Beside::Settled),
        };
        let trial = Component {
            low: component.low,
            high: component.high,
            held: component.held,
            number,
        };
        let settled = Settled {
            numbers: &search.settled,
            high: search.high,
        };
        let beside = self.try_held(lane, work, trial, settled, steering);
        if lane[f as usize] > number {
            search.looking.note_moved(number, lane[f as usize]);
            self.keep(lane, &mut search.base, component);
            if self.is_past(lane) {
                return Some(Beside::Rises);
            }
            return None;
        }
        let back = worth_by(self.rows, self.rule, lane, f);
        search.looking.note_settled(number, back);
        self.keep(lane, &mut search.settled, component);
        search.high = number;
        self.restore(lane, &search.base, component);
        if beside.is_settled() {
            None
        } else {
            Some(Beside::Slow)
        }
    }

    /// Searches for the number of a state of a component that is held.
    fn hold(
        &self,
        lane: &mut [i64],
        work: &mut [u32],
        component: Component,
        steering: &mut Steering,
    ) -> Beside
        ghost run: { Run }
        requires can { CanClimb self.now run lane.old work.old }
        requires inside { component.high ≤ length self.now.case.model.states }
        ensures { IsRaisedIn self.now run component.low component.high lane.old lane.new }
    {
        rows_at_corners();
        corners_bound_weights();
        if component.states() as usize > HELD_STATES {
            return Beside::Slow;
        }
        let Some(held) = self.to_hold(lane, component) else {
            return Beside::Slow;
        };
        let f = self.rows.order()[held as usize];
        let beside = Component {
            low: component.low,
            high: component.high,
            held,
            number: 0,
        };
        let mut search = Search {
            base: [0; HELD_STATES],
            settled: [0; HELD_STATES],
            high: self.top,
            looking: Looking::from(lane[f as usize], self.likely_end(f)),
        };
        self.keep(lane, &mut search.base, component);
        self.keep(lane, &mut search.settled, component);
        for _ in 0..LOOKS {
            if let Some(ended) = self.look(lane, work, beside, &mut search, steering) {
                return ended;
            }
        }
        Beside::Slow
    }

    /// Raises a component to its least numbers, holding states where that takes long. False: it took too long.
    fn raise_component(
        &self,
        lane: &mut [i64],
        work: &mut [u32],
        component: Component,
        quick: bool,
    ) -> bool
        ghost run: { Run }
        requires can { CanClimb self.now run lane.old work.old }
        requires inside { component.high ≤ length self.now.case.model.states }
        ensures { IsBelow self.now.rule self.now.case run lane.new }
    {
        flag_component(work, component);
        let mut steering = Steering::of(component.states(), quick);
        let patience = if quick { QUICK_PATIENCE } else { PATIENCE };
        let least = steering.after(patience);
        if self
            .rise_beside(lane, work, component, &mut steering, least)
            .is_slow()
        {
            return !self.hold(lane, work, component, &mut steering).is_slow();
        }
        true
    }

    /// The same of all components, from those below on.
    fn raise_components(&self, lane: &mut [i64], work: &mut [u32], quick: bool) -> bool
        ghost run: { Run }
        requires can { CanClimb self.now run lane.old work.old }
        ensures { IsBelow self.now.rule self.now.case run lane.new }
    {
        let mut low = 0;
        for position in 0..self.rows.model().states() {
            let high = position + 1;
            if self.is_end(high) {
                let component = Component::of(low, high);
                if !self.raise_component(lane, work, component, quick) {
                    return false;
                }
                if self.is_past(lane) {
                    return true;
                }
                low = high;
            }
        }
        true
    }

    /// Raises a vector at or below each bound to the least one, holding states where that takes long, and tells whether the
    /// initial state's number is within the limit. None: it took too long, or a component is too large.
    pub(crate) fn rise_held(&self, lane: &mut [i64], flags: &mut [u32], quick: bool) -> Option<bool>
        ghost spans: { Spans }
        requires { CanClimb self.now (from_zero spans) lane.old flags.old }
        ensures below { IsBelow self.now.rule self.now.case (from_zero spans) lane.new }
        ensures found { IfSome result (λ found. IsFound self.now spans lane.new found) }
        ensures guess { IsGuess self.now.rule self.now.case lane.new }
    {
        if !self.has_no_larger(HELD_STATES as u32) {
            return None;
        }
        let done = self.raise_components(lane, flags, quick);
        if self.is_past(lane) {
            return Some(false);
        }
        if !done {
            return None;
        }
        self.rise(lane, flags, Some(LAST_PASSES))
    }

    /// The same, from 0. Where a component is too large, the vector stays: a further guess begins with the choices and corners
    /// that count by it.
    pub(crate) fn rise_held_from_zero(
        &self,
        lane: &mut [i64],
        flags: &mut [u32],
        quick: bool,
    ) -> Option<bool>
        ghost spans: { Spans }
        requires can { CanRise self.now spans lane.old flags.old }
        requires guess { IsGuess self.now.rule self.now.case lane.old }
        ensures found { IfSome result (λ found. IsFound self.now spans lane.new found) }
        ensures guess { IsGuess self.now.rule self.now.case lane.new }
    {
        if !self.has_no_larger(HELD_STATES as u32) {
            return None;
        }
        self.start(lane);
        self.rise_held(lane, flags, quick)
    }

    /// Raises a vector at or below each bound to the least one, and tells whether the initial state's number is within the
    /// limit. Where that takes long, states are held, and where that does too, it is raised as long as it takes.
    pub(crate) fn rise_to_end(&self, lane: &mut [i64], flags: &mut [u32]) -> Option<bool>
        ghost spans: { Spans }
        requires { CanClimb self.now (from_zero spans) lane.old flags.old }
        ensures found { IfSome result (λ found. IsFound self.now spans lane.new found) }
        ensures guess { IsGuess self.now.rule self.now.case lane.new }
    {
        if !self.has_no_larger(HELD_STATES as u32) {
            return self.rise(lane, flags, None);
        }
        if let Some(found) = self.rise(lane, flags, Some(END_PASSES)) {
            return Some(found);
        }
        if let Some(found) = self.rise_held(lane, flags, false) {
            return Some(found);
        }
        self.rise(lane, flags, None)
    }

    /// Whether no component has more states than so many.
    pub(crate) fn has_no_larger(&self, most: u32) -> bool {
        let mut low: u32 = 0;
        for position in 0..self.rows.model().states() {
            let next = position + 1;
            if self.is_end(next) {
                if next.saturating_sub(low) > most {
                    return false;
                }
                low = next;
            }
        }
        true
    }
}
