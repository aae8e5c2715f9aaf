//! The first lowering, component by component. It begins from 1, and where that takes long, from a guess or
//! from a vector that no choice lets rise.

ghost use Rattle.std.specs.Prelude.{◌≡◌, ◌*◌, ◌<◌, ◌≤◌, length, IsTrue, false};
ghost use Rattle.lift_grid.specs.Rectangle.{Spans};
ghost use Rattle.corner_lift.specs.Certificate.{AreNumbers};
ghost use Rattle.corner_lift.specs.Lifted.{IsLiftedTo};
ghost use Rattle.lower_cert.specs.Lowering.{Run, from_top, CanLower, IsHigh, IsLowered};
ghost use Rattle.lower_cert.specs.Beginning.{IsOtherAt, AreOther};
ghost use Rattle.float_guess.specs.Part.{KeepsOthers};

use crate::descent::Descent;
use crate::laws::vectors_are_lowered;
use crate::lower::start;
use crate::part::{Part, clear_part, fill_part, flag_part, note};
use crate::raise::{Aim, raise_part};
use crate::steering::Patience;
use crate::sweep::{component_end, is_alone, pass, visit, visit_alone};
use corner_lift::{Lifted, rows_at_corners};
use float_guess::{
    Ends, Extreme, HELD_STATES, Method, Note, Rounding, Rule, guess_part, lessen_share,
    make_shares_whole,
};

/// How many passes over a small component lower it from 1, before it is guessed, which takes as long as some fifty.
const FIRST_PASSES: u32 = 48;

/// As many passes are made before it is guessed as there are numbers, where these are no more.
const VERY_FEW_NUMBERS: u32 = 64;

/// As many are made before it is begun anew, where these are no more.
const FEW_NUMBERS: i64 = 1024;

/// How many states a small component has at most.
const SMALL: u32 = 64;

/// How many moved guesses are made, until each state fell below one in so many passes.
const GUESSES: u32 = 5;

const GUESS_PASSES: u32 = 64;

/// How many passes lower it first from one that isn't moved.
const FEW_PASSES: u32 = 32;

/// How many more passes there are for each state behind one that didn't fall whose share was made less.
const SPREAD_PASSES: u32 = 8;

/// By how many levels the share of a state is made less that was moved to where hardly anything is left of it.
const SPENT_LEVELS: u32 = 3;

/// How many more lower it from that one.
const GUESS_PATIENCE: u32 = 16384;

/// How many passes are made before it is begun anew.
const FIRST_PATIENCE: u32 = 16;

/// As many passes as a part has states lower it from a good guess before a state of it is held, and so many at least and at
/// most. So they do from one that isn't moved where at most one state of so many is flagged.
const FEWEST_ALONE: u32 = 16;

const MOST_ALONE: u32 = 256;

const FEW_FLAGS: u32 = 2;

/// A state is held before the last guess where a part has so many at most.
const HELD_SOON: u32 = 128;

/// How many passes are made from a rough vector.
const ROUGH_PASSES: u32 = 1;

/// Begins a part anew: from a vector that no choice lets rise, if one is found, and else from 1.
fn begin_anew(
    rows: &Lifted,
    lane: &mut [i64],
    flags: &mut [u32],
    noted: &mut [u32],
    part: Part,
    aim: Aim,
)
    ghost spans: { Spans }
    requires can { CanLower rows.now (from_top rows.now.case spans) lane.old }
    requires notes { length noted.old ≡ length rows.now.case.model.states }
    requires part { (part.high ≤ length flags.old) × (part.high ≤ length rows.now.links.order) }
    ensures { IsHigh rows.now.case spans lane.new }
{
    vectors_are_lowered();
    rows_at_corners();
    let _ = rows.w();
    let found = raise_part(rows, lane, flags, noted, part, aim);
    flag_part(flags, part);
    if found {
        return;
    }
    fill_part(rows, lane, part, rows.top());
}

/// Visits the states of a part, the first of those that weren't visited.
fn visit_first(rows: &Lifted, lane: &mut [i64], work: &mut [u32], part: Part)
    ghost run: { Run }
    requires can { CanLower rows.now run lane.old }
    requires part { part.high ≤ length rows.now.links.order }
    ensures { IsLowered rows.now.case run lane.old lane.new false }
{
    for position in part.low..part.high {
        visit(rows, lane, work, position, position + 1);
    }
}

/// Whether the state at a position has another number than the one that was noted, or the greatest that there is.
fn is_other_at(rows: &Lifted, lane: &[i64], noted: &[u32], position: u32) -> bool
    requires numbers { AreNumbers rows.now.case lane.now }
    requires notes { length noted.now ≡ length rows.now.case.model.states }
    requires position { position < length rows.now.links.order }
    ensures { IsTrue result → IsOtherAt rows.now.case rows.now.links lane.now noted.now position }
{
    match rows.open_state(position) {
        Some(s) => {
            let number = lane[s as usize];
            if number == rows.top() {
                return true;
            }
            let note = Note {
                bits: noted[s as usize],
            };
            !note.is_of(number)
        }
        None => true,
    }
}

/// Whether so has each state of a part.
fn are_other(rows: &Lifted, lane: &[i64], noted: &[u32], part: Part) -> bool
    requires numbers { AreNumbers rows.now.case lane.now }
    requires notes { length noted.now ≡ length rows.now.case.model.states }
    requires part { part.high ≤ length rows.now.links.order }
    ensures { IsTrue result → AreOther rows.now.case rows.now.links lane.now noted.now part.low part.high }
{
    for position in part.low..part.high {
        if !is_other_at(rows, lane, noted, position) {
            return false;
        }
    }
    true
}

/// Whether the state at a position has no number above 1: a moved guess took more than there is.
fn is_spent_at(rows: &Lifted, lane: &[i64], position: u32) -> bool
    requires numbers { AreNumbers rows.now.case lane.now }
    requires part { position < length rows.now.links.order }
{
    match rows.open_state(position) {
        Some(s) => lane[s as usize] <= 1,
        None => false,
    }
}

/// Makes the share of each state of a part less that has not, or that is spent, and of so many behind it.
fn lessen_shares(rows: &Lifted, lane: &[i64], noted: &mut [u32], part: Part, spread: u32)
    requires numbers { AreNumbers rows.now.case lane.now }
    requires notes { length noted.old ≡ length rows.now.case.model.states }
    requires part { part.high ≤ length rows.now.links.order }
    ensures { length noted.new ≡ length noted.old }
{
    let mut left: u32 = 0;
    for position in part.low..part.high {
        let is_spent = is_spent_at(rows, lane, position);
        if is_spent || !is_other_at(rows, lane, noted, position) {
            left = spread.saturating_add(1);
        }
        if left > 0 {
            left -= 1;
            for _ in 0..if is_spent { SPENT_LEVELS } else { 1 } {
                lessen_share(noted, position);
            }
        }
    }
}

/// Whether only few states of a part are flagged: most have settled.
fn has_few_flags(flags: &[u32], part: Part) -> bool {
    let mut count: u32 = 0;
    for position in part.low..part.high {
        if flags.get(position as usize).copied().unwrap_or(0) != 0 {
            count = count.saturating_add(1);
        }
    }
    count <= part.len() / FEW_FLAGS
}

/// How many passes lower a part from a good guess before a state of it is held.
fn passes_alone(part: Part) -> u32 {
    part.len().max(FEWEST_ALONE).min(MOST_ALONE)
}

/// What came of a guess.
#[derive(Clone, Copy)]
enum Guessed {
    /// Each state of the part fell below it, so that it was none too low, and the part is settled.
    Good,
    /// The same, but it took too many passes.
    Slow,
    /// Some state didn't fall.
    Low,
    /// There was none.
    Nothing,
}

impl Guessed {
    /// Whether it was a good one.
    fn is_good(self) -> bool {
        match self {
            Guessed::Good => true,
            Guessed::Slow | Guessed::Low | Guessed::Nothing => false,
        }
    }

    /// What came of one below which each state fell, and the part is settled or not.
    fn fallen(settled: bool) -> Guessed {
        if settled {
            Guessed::Good
        } else {
            Guessed::Slow
        }
    }
}

/// A guess by elimination that is tried.
#[derive(Clone, Copy)]
struct Guess {
    /// Whether it is moved.
    method: Method,
    /// In how many passes at most it lowers a part.
    passes: u32,
    /// For how many states behind one that doesn't fall the share is made less too.
    spread: u32,
}

impl Guess {
    /// One that isn't moved.
    fn unmoved(passes: u32) -> Guess {
        Guess {
            method: Method::Elimination,
            passes,
            spread: 0,
        }
    }
}

/// Lowers a part from a guess. Unless each state fell, the part is at 1 again.
fn lower_from_guess(
    rows: &Lifted,
    lane: &mut [i64],
    flags: &mut [u32],
    noted: &mut [u32],
    part: Part,
    guess: Guess,
) -> Guessed
    ghost spans: { Spans }
    requires can { CanLower rows.now (from_top rows.now.case spans) lane.old }
    requires flags { part.high ≤ length flags.old }
    requires notes { length noted.old ≡ length rows.now.case.model.states }
    requires part { part.high ≤ length rows.now.links.order }
    ensures { IsHigh rows.now.case spans lane.new }
{
    vectors_are_lowered();
    rows_at_corners();
    let _ = rows.w();
    let rule = Rule {
        choice: Extreme::Greatest,
        corner: Extreme::Least,
        ends: Ends::Goals,
    };
    let guessed = guess_part(
        rows.case(),
        rows.links(),
        rows.weights(),
        rule,
        Rounding::Up,
        lane,
        flags,
        noted,
        part.low,
        part.high,
        guess.method,
    );
    flag_part(flags, part);
    if !guessed {
        fill_part(rows, lane, part, rows.top());
        return Guessed::Nothing;
    }
    note(rows, lane, noted, part);
    let boundless = Descent {
        rows: &*rows,
        limit: -1,
    };
    let settled = boundless.settle_within(lane, flags, part, guess.passes);
    if are_other(rows, lane, noted, part) {
        return Guessed::fallen(settled);
    }
    lessen_shares(rows, lane, noted, part, guess.spread);
    flag_part(flags, part);
    fill_part(rows, lane, part, rows.top());
    Guessed::Low
}

/// Lowers a part from a guess that isn't moved. A few passes mostly show whether each state falls.
fn lower_from_unmoved(
    rows: &Lifted,
    lane: &mut [i64],
    flags: &mut [u32],
    noted: &mut [u32],
    part: Part,
) -> Guessed
    ghost spans: { Spans }
    requires can { CanLower rows.now (from_top rows.now.case spans) lane.old }
    requires flags { part.high ≤ length flags.old }
    requires notes { length noted.old ≡ length rows.now.case.model.states }
    requires part { part.high ≤ length rows.now.links.order }
    ensures { IsHigh rows.now.case spans lane.new }
{
    let guess = Guess::unmoved(FEW_PASSES);
    match lower_from_guess(rows, lane, flags, noted, part, guess) {
        Guessed::Low => {
            let guess = Guess::unmoved(GUESS_PASSES);
            lower_from_guess(rows, lane, flags, noted, part, guess)
        }
        guessed => guessed,
    }
}

/// How many passes lower a part from 1 before it is guessed, where `top` stands for 1. Two states settle in less time
/// than it takes to guess them, and large parts often can't be. Where there are very few numbers no state falls often.
fn first_passes(part: Part, top: i64) -> u32 {
    let states = part.len();
    match u32::try_from(top) {
        Ok(numbers) if numbers <= VERY_FEW_NUMBERS => numbers,
        _ if states > 2 && states <= SMALL => FIRST_PASSES,
        _ => FIRST_PATIENCE,
    }
}

/// How many passes lower a part from 1 that no guess was good for, where `top` stands for 1. Where there are few numbers
/// no state falls often.
fn passes_of(top: i64) -> u32 {
    match u32::try_from(top) {
        Ok(numbers) if VERY_FEW_NUMBERS < numbers && top <= FEW_NUMBERS => numbers,
        _ => 0,
    }
}

impl Descent<'_> {
    /// Lowers the states of a part in so many passes at most. Tells whether none of them is flagged then, or the
    /// initial state's number isn't above the limit.
    pub(crate) fn settle_within(
        &self,
        lane: &mut [i64],
        work: &mut [u32],
        part: Part,
        passes: u32,
    ) -> bool
        ghost run: { Run }
        requires can { CanLower self.now.rows.now run lane.old }
        requires part { (part.high ≤ length work.old) × (part.high ≤ length self.now.rows.now.links.order) }
        ensures lowered { IsLowered self.now.rows.now.case run lane.old lane.new false }
        ensures kept { KeepsOthers self.now.rows.now.case self.now.rows.now.links part.low part.high lane.old lane.new }
    {
        let init = self.rows.model().init() as usize;
        for _ in 0..passes {
            if !pass(self.rows, lane, work, part, part.high) || lane[init] <= self.limit {
                return true;
            }
        }
        false
    }

    /// Lowers a part from a good guess to the end, by a search where that takes long. False: it took too many passes.
    fn lower_to_end(&self, lane: &mut [i64], flags: &mut [u32], part: Part) -> bool
        ghost spans: { Spans }
        requires can { CanLower self.now.rows.now (from_top self.now.rows.now.case spans) lane.old }
        requires part { (part.high ≤ length flags.old) × (part.high ≤ length self.now.rows.now.links.order) }
        ensures { IsHigh self.now.rows.now.case spans lane.new }
    {
        let few = passes_alone(part);
        if part.len() as usize <= HELD_STATES
            && (self.settle_within(lane, flags, part, few)
                || self.lower_held(lane, flags, part, Patience::Long))
        {
            return true;
        }
        self.settle_within(lane, flags, part, GUESS_PATIENCE)
    }

    /// Lowers a part from moved guesses, each by lesser shares for the states that didn't fall from the last one, until
    /// each fell from one, or the initial state's number isn't above the limit. False: they never did, or it took too
    /// many passes.
    fn lower_from_moved(
        &self,
        lane: &mut [i64],
        flags: &mut [u32],
        noted: &mut [u32],
        part: Part,
    ) -> bool
        ghost spans: { Spans }
        requires can { CanLower self.now.rows.now (from_top self.now.rows.now.case spans) lane.old }
        requires flags { part.high ≤ length flags.old }
        requires notes { length noted.old ≡ length self.now.rows.now.case.model.states }
        requires part { part.high ≤ length self.now.rows.now.links.order }
        ensures { IsHigh self.now.rows.now.case spans lane.new }
    {
        make_shares_whole(noted);
        let mut spread: u32 = 0;
        for _ in 0..GUESSES {
            let guess = Guess {
                method: Method::MovedElimination,
                passes: GUESS_PASSES.saturating_add(SPREAD_PASSES.saturating_mul(spread)),
                spread,
            };
            match lower_from_guess(self.rows, lane, flags, noted, part, guess) {
                Guessed::Good => return true,
                Guessed::Slow => return self.lower_to_end(lane, flags, part),
                Guessed::Low => spread = spread.saturating_mul(2).max(1),
                Guessed::Nothing => return false,
            }
        }
        false
    }

    /// Lowers a part from a guess below which each state fell: to the end where there are few numbers, and else from
    /// moved guesses. False: they never did, or it took too many passes.
    fn lower_on(&self, lane: &mut [i64], flags: &mut [u32], noted: &mut [u32], part: Part) -> bool
        ghost spans: { Spans }
        requires can { CanLower self.now.rows.now (from_top self.now.rows.now.case spans) lane.old }
        requires flags { part.high ≤ length flags.old }
        requires notes { length noted.old ≡ length self.now.rows.now.case.model.states }
        requires part { part.high ≤ length self.now.rows.now.links.order }
        ensures { IsHigh self.now.rows.now.case spans lane.new }
    {
        if lane[self.rows.model().init() as usize] <= self.limit {
            return true;
        }
        if self.rows.top() > FEW_NUMBERS {
            if has_few_flags(flags, part)
                && self.settle_within(lane, flags, part, passes_alone(part))
            {
                return true;
            }
            if self.lower_held(lane, flags, part, Patience::Quick) {
                return true;
            }
            return self.lower_from_moved(lane, flags, noted, part);
        }
        self.settle_within(lane, flags, part, GUESS_PATIENCE)
    }

    /// Lowers a part from guesses, until one is good: from moved ones where one that isn't moved is none too low. False:
    /// none was.
    fn lower_from_guesses(
        &self,
        lane: &mut [i64],
        flags: &mut [u32],
        noted: &mut [u32],
        part: Part,
    ) -> bool
        ghost spans: { Spans }
        requires can { CanLower self.now.rows.now (from_top self.now.rows.now.case spans) lane.old }
        requires flags { part.high ≤ length flags.old }
        requires notes { length noted.old ≡ length self.now.rows.now.case.model.states }
        requires part { part.high ≤ length self.now.rows.now.links.order }
        ensures { IsHigh self.now.rows.now.case spans lane.new }
    {
        match lower_from_unmoved(self.rows, lane, flags, noted, part) {
            Guessed::Good => return true,
            Guessed::Slow => {
                if self.lower_on(lane, flags, noted, part) {
                    return true;
                }
            }
            Guessed::Low => {
                if self.lower_held(lane, flags, part, Patience::Quick) {
                    return true;
                }
            }
            Guessed::Nothing => {
                return self.lower_held(lane, flags, part, Patience::Quick)
                    || self.lower_held(lane, flags, part, Patience::Long);
            }
        }
        let soon = part.len() <= HELD_SOON;
        if soon && self.lower_held(lane, flags, part, Patience::Long) {
            return true;
        }
        let last = Guess::unmoved(GUESS_PATIENCE);
        lower_from_guess(self.rows, lane, flags, noted, part, last).is_good()
            || (!soon && self.lower_held(lane, flags, part, Patience::Long))
    }

    /// Lowers the states of a part from where it is begun anew: from a rough vector, and where that doesn't do at
    /// once, from one that is close to the least.
    fn lower_anew(&self, lane: &mut [i64], work: &mut [u32], part: Part)
        ghost spans: { Spans }
        requires can { CanLower self.now.rows.now (from_top self.now.rows.now.case spans) lane.old }
        requires work { length work.old ≡ 2 * length self.now.rows.now.case.model.states }
        requires part { (part.high ≤ length self.now.rows.now.case.model.states) × (part.high ≤ length self.now.rows.now.links.order) }
        ensures { IsHigh self.now.rows.now.case spans lane.new }
    {
        let states = self.rows.model().states() as usize;
        let (flags, noted) = work.split_at_mut(states);
        begin_anew(self.rows, lane, flags, noted, part, Aim::Rough);
        if self.settle_within(lane, work, part, ROUGH_PASSES) {
            return;
        }
        let (flags, noted) = work.split_at_mut(states);
        begin_anew(self.rows, lane, flags, noted, part, Aim::Close);
        self.settle_part(lane, work, part, part.high);
    }

    /// Lowers the states of a component of several from 1, from a guess, or from where it is begun anew.
    #[inline(never)]
    fn begin_cycle(&self, lane: &mut [i64], work: &mut [u32], part: Part)
        ghost spans: { Spans }
        requires can { CanLower self.now.rows.now (from_top self.now.rows.now.case spans) lane.old }
        requires work { length work.old ≡ 2 * length self.now.rows.now.case.model.states }
        requires part { (part.high ≤ length self.now.rows.now.case.model.states) × (part.high ≤ length self.now.rows.now.links.order) }
        ensures { IsHigh self.now.rows.now.case spans lane.new }
    {
        clear_part(work, part);
        visit_first(self.rows, lane, work, part);
        if self.settle_within(lane, work, part, first_passes(part, self.rows.top())) {
            return;
        }
        let (flags, noted) = work.split_at_mut(self.rows.model().states() as usize);
        if self.lower_from_guesses(lane, flags, noted, part) {
            return;
        }
        let passes = passes_of(self.rows.top());
        if passes > 0 && self.settle_within(lane, work, part, passes) {
            return;
        }
        self.lower_anew(lane, work, part);
    }

    /// Lowers the states of the component that begins at a position, and tells where the next one begins. A single
    /// state needs one visit, and what leads to it comes later.
    #[inline(always)]
    fn begin_part(&self, lane: &mut [i64], work: &mut [u32], low: u32, states: u32) -> u32
        ghost spans: { Spans }
        requires can { CanLower self.now.rows.now (from_top self.now.rows.now.case spans) lane.old }
        requires work { length work.old ≡ 2 * length self.now.rows.now.case.model.states }
        requires states { (states ≤ length self.now.rows.now.case.model.states) × (states ≤ length self.now.rows.now.links.order) }
        requires low { low < states }
        ensures high { IsHigh self.now.rows.now.case spans lane.new }
        ensures later { low < result }
        ensures inside { result ≤ states }
    {
        if is_alone(self.rows, low) {
            visit_alone(self.rows, lane, low);
            return low + 1;
        }
        let high = component_end(self.rows, low, states);
        self.begin_cycle(lane, work, Part { low, high });
        high
    }

    /// Lowers a vector from 1, component by component from those below, until none of its states is flagged, or
    /// the initial state's number isn't above the limit.
    pub(crate) fn begin(&self, lane: &mut [i64], work: &mut [u32])
        ghost spans: { Spans }
        requires table { IsLiftedTo self.now.rows.now spans }
        requires size { length lane.old ≡ length self.now.rows.now.case.model.states }
        requires work { length work.old ≡ 2 * length self.now.rows.now.case.model.states }
        ensures { IsHigh self.now.rows.now.case spans lane.new }
    {
        start(self.rows, lane);
        let _ = self.rows.w();
        let states = self.rows.model().states();
        let init = self.rows.model().init() as usize;
        let mut low = 0;
        while low < states && lane[init] > self.limit {
            low = self.begin_part(lane, work, low, states);
        }
    }
}
