//! Finding a vector of a part that no choice lets rise. What comes of it is looked at once at the end, so
//! nothing is known of how it is found: numbers move up and down in sweeps, and jumps speed that up.

ghost use Rattle.std.specs.Prelude.{◌≡◌, ◌^◌, ◌<◌, ◌≤◌, ◌≤ℤ◌, pos, length, IsTrue};
ghost use Rattle.lift_grid.specs.Rectangle.{Spans};
ghost use Rattle.lift_model.specs.Links.{HasChoice};
ghost use Rattle.corner_lift.specs.Certificate.{AreNumbers};
ghost use Rattle.lower_cert.specs.Lowering.{CanWeigh};
ghost use Rattle.lower_cert.specs.Beginning.{IsClosedChoice, IsClosedState, IsClosedPosition, IsClosedPart};
ghost use Rattle.float_guess.specs.Part.{KeepsOthers};

use crate::lower::{is_at_most, times};
use crate::part::{Part, fill_at, fill_part, flag_part, note};
use crate::sweep::{flag_before, greater, take_flag};
use corner_lift::{LaneSum, Lifted, Weighed, quotient_of, rows_at_corners};
use float_guess::Note;

/// How many sweeps come before those by which a jump is measured.
const CALM_SWEEPS: u32 = 3;

/// By how many sweeps, and as many more, a jump is measured.
const SWEEPS: u32 = 8;

/// How many jumps there are at most.
const JUMPS: u32 = 64;

/// How many passes raise what is left then.
const PASSES: u32 = 1024;

/// The slack of a rough vector is the top over this.
const ROUGH_PARTS: i64 = 1 << 14;

/// A jump is so many parts of what the last sweeps brought.
const PARTS: i64 = 256;

/// Whether the choice doesn't let its state rise: at some corner its weighted mean is at most the state's
/// number.
fn is_closed_choice(rows: &Lifted, lane: &[i64], s: u32, a: u32) -> bool
    ghost spans: { Spans }
    requires can { CanWeigh rows.now spans lane.now }
    requires row { HasChoice rows.now.case.model s a }
    ensures { IsTrue result → IsClosedChoice rows.now.case spans lane.now s a }
{
    rows_at_corners();
    let _ = rows.w();
    let Weighed { sum, whole } = rows.table_least(s, a, lane);
    is_at_most(sum, times(lane[s as usize], whole))
}

/// Whether no choice lets the state rise.
fn is_closed_state(rows: &Lifted, lane: &[i64], s: u32) -> bool
    ghost spans: { Spans }
    requires can { CanWeigh rows.now spans lane.now }
    requires state { s < length rows.now.case.model.states }
    ensures { IsTrue result → IsClosedState rows.now.case spans lane.now s }
{
    for a in 0..rows.choice_count(s) {
        if !is_closed_choice(rows, lane, s, a) {
            return false;
        }
    }
    true
}

/// Whether no choice lets the state at a position rise.
fn is_closed_position(rows: &Lifted, lane: &[i64], position: u32) -> bool
    ghost spans: { Spans }
    requires can { CanWeigh rows.now spans lane.now }
    requires position { position < length rows.now.links.order }
    ensures { IsTrue result → IsClosedPosition rows.now.case rows.now.links spans lane.now position }
{
    match rows.open_state(position) {
        Some(s) => is_closed_state(rows, lane, s),
        None => true,
    }
}

/// Whether no choice lets a state of a part rise.
fn is_closed_part(rows: &Lifted, lane: &[i64], part: Part) -> bool
    ghost spans: { Spans }
    requires can { CanWeigh rows.now spans lane.now }
    requires part { part.high ≤ length rows.now.links.order }
    ensures { IsTrue result → IsClosedPart rows.now.case rows.now.links spans lane.now part.low part.high }
{
    for position in part.low..part.high {
        if !is_closed_position(rows, lane, position) {
            return false;
        }
    }
    true
}

/// The quotient, rounded up, but at most the top.
#[inline(always)]
fn rounded_up(sum: i128, whole: i128, top: i64) -> i64
    requires sum { pos 0 ≤ℤ sum }
    requires whole { pos 1 ≤ℤ whole }
    requires top { pos 0 ≤ℤ top }
    ensures { (pos 0 ≤ℤ result) × (result ≤ℤ top) }
{
    let whole = whole as u128;
    let number = quotient_of(sum as u128 + (whole - 1), whole);
    if number < top as u128 {
        number as i64
    } else {
        top
    }
}

/// A number, or the nearest one within the range.
#[inline(always)]
pub(crate) fn within(number: i64, top: i64) -> i64
    requires { pos 0 ≤ℤ top }
    ensures { (pos 0 ≤ℤ result) × (result ≤ℤ top) }
{
    if number < 0 {
        0
    } else if number < top {
        number
    } else {
        top
    }
}

/// The mean of a row of two entries that is quickly looked up, rounded up, or a number that is at least that. Nothing is
/// promised of it but the range.
#[inline(always)]
fn raised_for_pair(row: LaneSum, number: i64, top: i64) -> i64
    requires number { (pos 0 ≤ℤ number) × (number ≤ℤ top) }
    ensures { (pos 0 ≤ℤ result) × (result ≤ℤ top) }
{
    if row.sum <= number.wrapping_mul(row.whole) {
        return number;
    }
    let quotient = row.guess(row.sum.wrapping_sub(1)).wrapping_add(1);
    let rest = row.sum.wrapping_sub(quotient.wrapping_mul(row.whole));
    within(quotient.wrapping_add(i64::from(rest > 0)), top)
}

/// A choice's least weighted mean over the corners, rounded up, or a number that is at least that.
#[inline(always)]
fn raised_for(rows: &Lifted, lane: &[i64], s: u32, a: u32, number: i64) -> i64
    ghost spans: { Spans }
    requires can { CanWeigh rows.now spans lane.now }
    requires row { HasChoice rows.now.case.model s a }
    requires number { (pos 0 ≤ℤ number) × (number ≤ℤ pos (2 ^ rows.now.case.w)) }
    ensures { (pos 0 ≤ℤ result) × (result ≤ℤ pos (2 ^ rows.now.case.w)) }
{
    rows_at_corners();
    let _ = rows.w();
    if let Some(target) = rows.only_target(s, a) {
        return lane[target as usize];
    }
    if let Some(row) = rows.least(s, a, lane) {
        return raised_for_pair(row, number, rows.top());
    }
    let Weighed { sum, whole } = rows.table_least(s, a, lane);
    if is_at_most(sum, times(number, whole)) {
        return number;
    }
    rounded_up(sum, whole, rows.top())
}

/// The greatest of the weighted means of the state's choices, rounded up.
#[inline(always)]
fn raised(rows: &Lifted, lane: &[i64], s: u32) -> i64
    ghost spans: { Spans }
    requires can { CanWeigh rows.now spans lane.now }
    requires state { s < length rows.now.case.model.states }
    ensures { (pos 0 ≤ℤ result) × (result ≤ℤ pos (2 ^ rows.now.case.w)) }
{
    let mut number = 0;
    for a in 0..rows.choice_count(s) {
        let other = raised_for(rows, lane, s, a, number);
        number = greater(number, other);
    }
    number
}

/// Raises the state at a position of the part, if it is flagged, and flags those that lead to it where it
/// rose. Tells whether it did.
#[inline(always)]
fn raise_turn(rows: &Lifted, lane: &mut [i64], work: &mut [u32], part: Part, position: u32) -> bool
    ghost spans: { Spans }
    requires can { CanWeigh rows.now spans lane.old }
    requires inside { (part.low ≤ position) × (position < part.high) }
    requires part { (part.high ≤ length work.old) × (part.high ≤ length rows.now.links.order) }
    ensures { KeepsOthers rows.now.case rows.now.links part.low part.high lane.old lane.new }
{
    if !take_flag(work, position) {
        return false;
    }
    let Some(s) = rows.open_state(position) else {
        return false;
    };
    let number = raised(rows, lane, s);
    if number <= lane[s as usize] {
        return false;
    }
    lane[s as usize] = number;
    flag_before(rows, work, s, u32::MAX, part.high);
    true
}

/// Raises the flagged states of a part, and tells whether one rose.
fn raise_pass(rows: &Lifted, lane: &mut [i64], work: &mut [u32], part: Part) -> bool
    ghost spans: { Spans }
    requires can { CanWeigh rows.now spans lane.old }
    requires part { (part.high ≤ length work.old) × (part.high ≤ length rows.now.links.order) }
    ensures { KeepsOthers rows.now.case rows.now.links part.low part.high lane.old lane.new }
{
    let mut rose = false;
    for position in part.low..part.high {
        if raise_turn(rows, lane, work, part, position) {
            rose = true;
        }
    }
    rose
}

/// Raises the flagged states of a part until none rises, if that takes few passes.
fn raise_rest(rows: &Lifted, lane: &mut [i64], flags: &mut [u32], part: Part)
    ghost spans: { Spans }
    requires can { CanWeigh rows.now spans lane.old }
    requires part { (part.high ≤ length flags.old) × (part.high ≤ length rows.now.links.order) }
    ensures { KeepsOthers rows.now.case rows.now.links part.low part.high lane.old lane.new }
{
    for _ in 0..PASSES {
        if !raise_pass(rows, lane, flags, part) {
            return;
        }
    }
}

/// How good a vector is to be that no choice lets rise.
#[derive(Clone, Copy)]
pub(crate) enum Aim {
    /// A rough one, which is found from 0.
    Rough,
    /// One that is close to the least, which is found from what the part holds.
    Close,
}

impl Aim {
    /// By how much a state is set above what its choices hold. Where each rises by no more than that in a
    /// sweep, no choice lets one rise then.
    fn slack(self, top: i64) -> i64 {
        match self {
            Aim::Rough => top / ROUGH_PARTS,
            Aim::Close => 0,
        }
    }
}

/// How the states of a part moved.
#[derive(Clone, Copy)]
struct Moves {
    /// How far one rose at most.
    rise: i64,
    /// How far they moved together, up or down.
    distance: i64,
}

impl Moves {
    /// Not at all.
    const NONE: Moves = Moves {
        rise: 0,
        distance: 0,
    };

    /// With a step of one state.
    fn then(self, step: i64) -> Moves {
        Moves {
            rise: greater(self.rise, step),
            distance: self
                .distance
                .saturating_add(greater(step, step.wrapping_neg())),
        }
    }

    /// Whether so many states are at rest, but for the slack.
    fn are_at_rest(self, states: u32, slack: i64) -> bool {
        let slack = greater(slack, 1);
        self.rise <= slack && self.distance <= slack.saturating_mul(i64::from(states))
    }
}

/// Moves the state at a position of the part to a slack above what its choices hold, and gives the step.
#[inline(always)]
fn move_at(rows: &Lifted, lane: &mut [i64], part: Part, position: u32, slack: i64) -> i64
    ghost spans: { Spans }
    requires can { CanWeigh rows.now spans lane.old }
    requires inside { (part.low ≤ position) × (position < part.high) }
    requires part { part.high ≤ length rows.now.links.order }
    ensures { KeepsOthers rows.now.case rows.now.links part.low part.high lane.old lane.new }
{
    let Some(s) = rows.open_state(position) else {
        return 0;
    };
    let number = raised(rows, lane, s);
    let number = within(number.saturating_add(slack), rows.top());
    let step = number.wrapping_sub(lane[s as usize]);
    lane[s as usize] = number;
    step
}

/// Moves each state of a part.
fn sweep(rows: &Lifted, lane: &mut [i64], part: Part, slack: i64) -> Moves
    ghost spans: { Spans }
    requires can { CanWeigh rows.now spans lane.old }
    requires part { part.high ≤ length rows.now.links.order }
    ensures { KeepsOthers rows.now.case rows.now.links part.low part.high lane.old lane.new }
{
    let mut moves = Moves::NONE;
    for position in part.low..part.high {
        let step = move_at(rows, lane, part, position, slack);
        moves = moves.then(step);
    }
    moves
}

/// Moves the states of a part in so many sweeps, and gives how far they moved together. None: they came to
/// rest.
fn sweeps(rows: &Lifted, lane: &mut [i64], part: Part, count: u32, slack: i64) -> Option<i64>
    ghost spans: { Spans }
    requires can { CanWeigh rows.now spans lane.old }
    requires part { part.high ≤ length rows.now.links.order }
    ensures { KeepsOthers rows.now.case rows.now.links part.low part.high lane.old lane.new }
{
    let mut distance: i64 = 0;
    for _ in 0..count {
        let moves = sweep(rows, lane, part, slack);
        if moves.are_at_rest(part.len(), slack) {
            return None;
        }
        distance = distance.saturating_add(moves.distance);
    }
    Some(distance)
}

/// How far the state at a position moved since its number was noted, if by less than 2 to the 27.
fn move_of(rows: &Lifted, lane: &[i64], noted: &[u32], position: u32) -> i64
    requires numbers { AreNumbers rows.now.case lane.now }
    requires notes { length noted.now ≡ length rows.now.case.model.states }
    requires position { position < length rows.now.links.order }
{
    match rows.open_state(position) {
        Some(s) => {
            let note = Note {
                bits: noted[s as usize],
            };
            note.move_to(lane[s as usize])
        }
        None => 0,
    }
}

/// How far to jump, in `PARTS` of what the last sweeps brought, given how far the states moved in them and in
/// as many before: what is left if their moves become less at that rate.
fn reach(before: i64, after: i64) -> i64 {
    if after >= before {
        return 0;
    }
    let fall = before.saturating_sub(after);
    after.saturating_mul(PARTS).checked_div(fall).unwrap_or(0)
}

/// Moves the state at a position of the part on by so many `PARTS` of how far it moved since its number was
/// noted.
fn jump_at(rows: &Lifted, lane: &mut [i64], noted: &[u32], part: Part, position: u32, share: i64)
    requires numbers { AreNumbers rows.now.case lane.old }
    requires notes { length noted.now ≡ length rows.now.case.model.states }
    requires inside { (part.low ≤ position) × (position < part.high) }
    requires part { part.high ≤ length rows.now.links.order }
    ensures { KeepsOthers rows.now.case rows.now.links part.low part.high lane.old lane.new }
{
    let more = move_of(rows, lane, noted, position).saturating_mul(share) / PARTS;
    if let Some(s) = rows.open_state(position) {
        let number = within(lane[s as usize].saturating_add(more), rows.top());
        fill_at(rows, lane, part, position, number);
    }
}

/// The same for the states of a part.
fn jump(rows: &Lifted, lane: &mut [i64], noted: &[u32], part: Part, share: i64)
    requires numbers { AreNumbers rows.now.case lane.old }
    requires notes { length noted.now ≡ length rows.now.case.model.states }
    requires part { part.high ≤ length rows.now.links.order }
    ensures { KeepsOthers rows.now.case rows.now.links part.low part.high lane.old lane.new }
{
    for position in part.low..part.high {
        jump_at(rows, lane, noted, part, position, share);
    }
}

/// Moves the states of a part in sweeps, and then jumps. Tells whether they came to rest.
fn approach_once(rows: &Lifted, lane: &mut [i64], noted: &mut [u32], part: Part, slack: i64) -> bool
    ghost spans: { Spans }
    requires can { CanWeigh rows.now spans lane.old }
    requires notes { length noted.old ≡ length rows.now.case.model.states }
    requires part { part.high ≤ length rows.now.links.order }
    ensures kept { KeepsOthers rows.now.case rows.now.links part.low part.high lane.old lane.new }
    ensures notes { length noted.new ≡ length noted.old }
{
    let calm = sweeps(rows, lane, part, CALM_SWEEPS, slack);
    if calm.is_none() {
        return true;
    }
    let Some(before) = sweeps(rows, lane, part, SWEEPS, slack) else {
        return true;
    };
    note(rows, lane, noted, part);
    let Some(after) = sweeps(rows, lane, part, SWEEPS, slack) else {
        return true;
    };
    jump(rows, lane, noted, part, reach(before, after));
    false
}

/// Moves the states of a part until they come to rest, if that takes few jumps.
fn approach(rows: &Lifted, lane: &mut [i64], noted: &mut [u32], part: Part, slack: i64)
    ghost spans: { Spans }
    requires can { CanWeigh rows.now spans lane.old }
    requires notes { length noted.old ≡ length rows.now.case.model.states }
    requires part { part.high ≤ length rows.now.links.order }
    ensures { KeepsOthers rows.now.case rows.now.links part.low part.high lane.old lane.new }
{
    for _ in 0..JUMPS {
        if approach_once(rows, lane, noted, part, slack) {
            return;
        }
    }
}

/// Finds a vector of a part that no choice lets rise, and tells whether it is one. Where the states came to
/// rest, they are raised until none rises, which takes few passes.
pub(crate) fn raise_part(
    rows: &Lifted,
    lane: &mut [i64],
    flags: &mut [u32],
    noted: &mut [u32],
    part: Part,
    aim: Aim,
) -> bool
    ghost spans: { Spans }
    requires can { CanWeigh rows.now spans lane.old }
    requires notes { length noted.old ≡ length rows.now.case.model.states }
    requires part { (part.high ≤ length flags.old) × (part.high ≤ length rows.now.links.order) }
    ensures kept { KeepsOthers rows.now.case rows.now.links part.low part.high lane.old lane.new }
    ensures closed { IsTrue result → IsClosedPart rows.now.case rows.now.links spans lane.new part.low part.high }
{
    match aim {
        Aim::Rough => fill_part(rows, lane, part, 0),
        Aim::Close => {}
    }
    let slack = aim.slack(rows.top());
    approach(rows, lane, noted, part, slack);
    flag_part(flags, part);
    raise_rest(rows, lane, flags, part);
    is_closed_part(rows, lane, part)
}
