//! Lowering states one by one to what their choices hold.

ghost use Rattle.std.specs.Prelude.{◌≡◌, ◌≢◌, ℕ, ◌+◌, ◌^◌, ◌*◌, ◌<◌, ◌≤◌, ◌⊎◌, ◌≤ℤ◌, ◌<ℤ◌, ◌-ℤ◌, ◌*ℤ◌, pos, length, unsigned_abs, IfSome, true, false};
ghost use Rattle.lift_grid.specs.Rectangle.{Spans};
ghost use Rattle.lift_model.specs.Model.{is_goal, choices};
ghost use Rattle.lift_model.specs.Links.{HasChoice};
ghost use Rattle.lift_model.specs.OnlyRow.{IsPairRow};
ghost use Rattle.corner_lift.specs.Case.{number, corner_count, engine_limit};
ghost use Rattle.float_guess.specs.Part.{KeepsOthers};
ghost use Rattle.lower_cert.specs.Lowering.{Run, CanWeigh, CanLower, IsExit, HoldsNoMore, HoldNoMore, IsLowered, IsWrittenLower};

use crate::descent::Descent;
use crate::laws::{premises, vectors_are_lowered};
use crate::lower::times;
use crate::part::Part;
use corner_lift::{AtCorner, Lifted, Weighed, rounded_down, rows_at_corners};
use lift_model::{OnlyRow, PairRow};

/// What is left of a number without a part of it.
#[inline(always)]
fn without(all: i128, part: i128) -> i128
    requires { (pos 0 ≤ℤ part) × (part ≤ℤ all) }
    ensures { result ≡ all -ℤ part }
{
    all - part
}

/// How high a choice holds a set of states that have this number, at a corner at which it has this
/// sum and this weight into the set: what comes from beyond the set over what leaves it, rounded down,
/// but at most the number. Where nothing leaves the set, it is 0.
#[inline(always)]
pub(crate) fn exit(number: i64, sum: i128, into: i128, whole: i128) -> i64
    requires number { (pos 0 ≤ℤ number) × (number ≤ℤ pos (2 ^ 40)) }
    requires into { (pos 0 ≤ℤ into) × (into ≤ℤ whole) }
    requires room { unsigned_abs number * unsigned_abs whole < engine_limit }
    requires part { unsigned_abs number * unsigned_abs into < engine_limit }
    requires sum { (number *ℤ into) ≤ℤ sum }
    ensures least { pos 0 ≤ℤ result }
    ensures exit { result <ℤ number → IsExit number sum into whole result }
{
    if whole <= into {
        return 0;
    }
    if times(number, whole) <= sum {
        return number;
    }
    rounded_down(without(sum, times(number, into)), without(whole, into))
}

/// How high a state is held by a choice at a corner. The weight of a self loop is taken out of the
/// whole, so that one division finds it.
#[inline(always)]
fn exit_at(rows: &Lifted, lane: &[i64], s: u32, a: u32, corner: u32) -> i64
    ghost spans: { Spans }
    requires can { CanWeigh rows.now spans lane.now }
    requires row { HasChoice rows.now.case.model s a }
    requires corner { corner < corner_count rows.now.case s a }
    ensures least { pos 0 ≤ℤ result }
    ensures most { HoldsNoMore rows.now.case spans lane.now s a result }
{
    premises();
    let _ = rows.w();
    let AtCorner { sum, whole, own } = rows.table_corner(s, a, corner, lane);
    exit(lane[s as usize], sum, own, whole)
}

/// The lesser of two numbers.
#[inline(always)]
pub(crate) fn lesser(a: i64, b: i64) -> i64
    ensures { (result ≡ a) ⊎ (result ≡ b) }
{
    if a < b { a } else { b }
}

/// How high a state is held by a choice: the least of its corners.
#[inline(always)]
fn held_at_corners(rows: &Lifted, lane: &[i64], s: u32, a: u32) -> i64
    ghost spans: { Spans }
    requires can { CanWeigh rows.now spans lane.now }
    requires row { HasChoice rows.now.case.model s a }
    ensures least { pos 0 ≤ℤ result }
    ensures most { HoldsNoMore rows.now.case spans lane.now s a result }
{
    rows_at_corners();
    let _ = rows.w();
    let corners = rows.corners(s, a);
    let mut least = exit_at(rows, lane, s, a, 0);
    for corner in 1..corners {
        let other = exit_at(rows, lane, s, a, corner);
        least = lesser(least, other);
    }
    least
}

/// How high a state is held by a choice without a self loop, if its row has two entries and is quickly looked up.
#[inline(always)]
fn held_by_pair(rows: &Lifted, lane: &[i64], s: u32, a: u32) -> Option<i64>
    ghost spans: { Spans }
    requires can { CanWeigh rows.now spans lane.now }
    requires row { HasChoice rows.now.case.model s a }
    ensures least { IfSome result (λ number. pos 0 ≤ℤ number) }
    ensures most { IfSome result (HoldsNoMore rows.now.case spans lane.now s a) }
{
    rows_at_corners();
    let _ = rows.w();
    let row = rows.least(s, a, lane)?;
    let number = row.rounded_down()?;
    Some(number)
}

/// How high a state is held by a choice without a self loop: its least weighted mean over the corners,
/// rounded down.
#[inline(never)]
fn held_by_least(rows: &Lifted, lane: &[i64], s: u32, a: u32) -> i64
    ghost spans: { Spans }
    requires can { CanWeigh rows.now spans lane.now }
    requires row { HasChoice rows.now.case.model s a }
    ensures least { pos 0 ≤ℤ result }
    ensures most { HoldsNoMore rows.now.case spans lane.now s a result }
{
    rows_at_corners();
    let _ = rows.w();
    let Weighed { sum, whole } = rows.table_least(s, a, lane);
    rounded_down(sum, whole)
}

/// How high a state is held by a choice: no number above it can be kept there.
#[inline(always)]
fn held(rows: &Lifted, lane: &[i64], s: u32, a: u32) -> i64
    ghost spans: { Spans }
    requires can { CanWeigh rows.now spans lane.now }
    requires row { HasChoice rows.now.case.model s a }
    ensures least { pos 0 ≤ℤ result }
    ensures most { HoldsNoMore rows.now.case spans lane.now s a result }
{
    premises();
    let _ = rows.w();
    if let Some(target) = rows.only_target(s, a) {
        if target != s {
            return lane[target as usize];
        }
    }
    if rows.has_loop(s, a) {
        return held_at_corners(rows, lane, s, a);
    }
    match held_by_pair(rows, lane, s, a) {
        Some(number) => number,
        None => held_by_least(rows, lane, s, a),
    }
}

/// How high a state is held by its only row, which has two entries, if that is quickly looked up.
#[inline(always)]
fn held_by_only_pair(rows: &Lifted, lane: &[i64], s: u32, row: PairRow) -> Option<i64>
    ghost spans: { Spans }
    requires can { CanWeigh rows.now spans lane.now }
    requires state { s < length rows.now.case.model.states }
    requires row { IsPairRow rows.now.case.model rows.now.links s row }
    ensures { IfSome result (HoldNoMore rows.now.case spans lane.now s (length (choices rows.now.case.model s))) }
{
    rows_at_corners();
    let _ = rows.w();
    let row = rows.least_of(s, row, lane)?;
    let number = row.rounded_down()?;
    Some(number)
}

/// How high a state is held by its only row, if that is quickly looked up.
#[inline(always)]
fn held_by_only(rows: &Lifted, lane: &[i64], s: u32) -> Option<i64>
    ghost spans: { Spans }
    requires can { CanWeigh rows.now spans lane.now }
    requires state { s < length rows.now.case.model.states }
    ensures { IfSome result (HoldNoMore rows.now.case spans lane.now s (length (choices rows.now.case.model s))) }
{
    premises();
    let _ = rows.w();
    match rows.only_row(s) {
        OnlyRow::Single(target) => Some(lane[target as usize]),
        OnlyRow::Pair(row) => held_by_only_pair(rows, lane, s, row),
        OnlyRow::Other => None,
    }
}

/// The greater of two numbers.
#[inline(always)]
pub(crate) fn greater(a: i64, b: i64) -> i64
    ensures { (a ≤ℤ result) × ((b ≤ℤ result) × ((result ≡ a) ⊎ (result ≡ b))) }
{
    if a < b { b } else { a }
}

/// The greatest number that a choice of the state holds. Where a choice holds the state's own, it looks at
/// no further one.
#[inline(always)]
fn held_by_choices(rows: &Lifted, lane: &[i64], s: u32) -> i64
    ghost spans: { Spans }
    requires can { CanWeigh rows.now spans lane.now }
    requires state { s < length rows.now.case.model.states }
    ensures { HoldNoMore rows.now.case spans lane.now s (length (choices rows.now.case.model s)) result }
{
    premises();
    let _ = rows.w();
    let number = lane[s as usize];
    let mut most = 0;
    for a in 0..rows.choice_count(s) {
        most = greater(most, held(rows, lane, s, a));
        if number <= most {
            return most;
        }
    }
    most
}

/// A number that no choice of the state holds more than.
#[inline(always)]
fn most_held(rows: &Lifted, lane: &[i64], s: u32) -> i64
    ghost spans: { Spans }
    requires can { CanWeigh rows.now spans lane.now }
    requires state { s < length rows.now.case.model.states }
    ensures { HoldNoMore rows.now.case spans lane.now s (length (choices rows.now.case.model s)) result }
{
    match held_by_only(rows, lane, s) {
        Some(number) => number,
        None => held_by_choices(rows, lane, s),
    }
}

/// Writes the number of a state if it is lower, and tells whether it is.
#[inline(always)]
fn write_lower(lane: &mut [i64], s: u32, number: i64) -> bool
    requires { s < length lane.old }
    ensures { IsWrittenLower lane.old lane.new s number result }
{
    if number >= lane[s as usize] {
        return false;
    }
    lane[s as usize] = number;
    true
}

/// Lowers a state that is no goal state to what its choices hold, and tells whether that is lower.
#[inline(always)]
fn lower_state(rows: &Lifted, lane: &mut [i64], s: u32) -> bool
    ghost run: { Run }
    requires can { CanLower rows.now run lane.old }
    requires state { s < length rows.now.case.model.states }
    requires goal { is_goal rows.now.case.model s ≡ false }
    ensures lowered { IsLowered rows.now.case run lane.old lane.new result }
    ensures other { (t : ℕ) → t ≢ s → number lane.new t ≡ number lane.old t }
{
    vectors_are_lowered();
    rows_at_corners();
    let _ = rows.w();
    let number = most_held(rows, lane, s);
    write_lower(lane, s, number)
}

/// Lowers a state, if it is no goal state and above 0.
#[inline(always)]
fn try_state(rows: &Lifted, lane: &mut [i64], s: u32) -> bool
    ghost run: { Run }
    requires can { CanLower rows.now run lane.old }
    requires state { s < length rows.now.case.model.states }
    ensures lowered { IsLowered rows.now.case run lane.old lane.new result }
    ensures other { (t : ℕ) → t ≢ s → number lane.new t ≡ number lane.old t }
{
    if lane[s as usize] <= 0 || rows.model().is_goal(s) {
        return false;
    }
    lower_state(rows, lane, s)
}

/// Flags a position, if it is one of these.
#[inline(always)]
fn set_flag(flags: &mut [u32], position: u32) {
    if let Some(flag) = flags.get_mut(position as usize) {
        *flag = 1;
    }
}

/// Flags the positions of the states that lead to a state, as far as they lie before the frontier, but for
/// its own.
#[inline(always)]
pub(crate) fn flag_before(rows: &Lifted, work: &mut [u32], s: u32, own: u32, frontier: u32)
    requires { s < length rows.now.case.model.states }
{
    let end = work.len().min(frontier as usize);
    let flags = &mut work[..end];
    for position in rows.positions_before(s) {
        if *position != own {
            set_flag(flags, *position);
        }
    }
}

/// Takes away the flag of a position, and tells whether there was one.
#[inline(always)]
pub(crate) fn take_flag(work: &mut [u32], position: u32) -> bool
    requires { position < length work.old }
{
    let place = position as usize;
    if work[place] == 0 {
        return false;
    }
    work[place] = 0;
    true
}

/// Takes away all flags.
pub(crate) fn clear_flags(work: &mut [u32]) {
    for i in 0..work.len() {
        work[i] = 0;
    }
}

/// Flags the positions of the states that are marked by 0, and of those that lead to them.
pub(crate) fn flag_marked(rows: &Lifted, marks: &[u32], work: &mut [u32])
    requires marks { length marks.now ≡ length rows.now.case.model.states }
{
    for s in 0..rows.model().states() {
        if marks[s as usize] == 0 {
            set_flag(work, rows.position(s));
            flag_before(rows, work, s, u32::MAX, u32::MAX);
        }
    }
}

/// Lowers the state at a position, and tells whether it fell. No state is flagged.
#[inline(always)]
pub(crate) fn visit_alone(rows: &Lifted, lane: &mut [i64], position: u32) -> bool
    ghost run: { Run }
    requires can { CanLower rows.now run lane.old }
    requires position { position < length rows.now.links.order }
    ensures { IsLowered rows.now.case run lane.old lane.new result }
{
    let _ = rows.w();
    let s = rows.order()[position as usize];
    if s >= rows.model().states() {
        return false;
    }
    if rows.model().is_goal(s) {
        return false;
    }
    lower_state(rows, lane, s)
}

/// Lowers the state at a position, and where it fell, flags those that lead to it, as far as they lie before
/// the frontier. The state itself needs no flag: what it was lowered to is held, with its self loops. Tells
/// whether it fell.
#[inline(always)]
pub(crate) fn visit(
    rows: &Lifted,
    lane: &mut [i64],
    work: &mut [u32],
    position: u32,
    frontier: u32,
) -> bool
    ghost run: { Run }
    requires can { CanLower rows.now run lane.old }
    requires position { position < length rows.now.links.order }
    ensures lowered { IsLowered rows.now.case run lane.old lane.new result }
    ensures kept { KeepsOthers rows.now.case rows.now.links position (position + 1) lane.old lane.new }
{
    let _ = rows.w();
    let s = rows.order()[position as usize];
    if s >= rows.model().states() {
        return false;
    }
    let fell = try_state(rows, lane, s);
    if fell {
        flag_before(rows, work, s, position, frontier);
    }
    fell
}

/// Visits the state at a position, if it is flagged, and tells whether it fell.
#[inline(always)]
pub(crate) fn turn(
    rows: &Lifted,
    lane: &mut [i64],
    work: &mut [u32],
    position: u32,
    frontier: u32,
) -> bool
    ghost run: { Run }
    requires can { CanLower rows.now run lane.old }
    requires position { (position < length work.old) × (position < length rows.now.links.order) }
    ensures lowered { IsLowered rows.now.case run lane.old lane.new result }
    ensures kept { KeepsOthers rows.now.case rows.now.links position (position + 1) lane.old lane.new }
{
    if !take_flag(work, position) {
        return false;
    }
    visit(rows, lane, work, position, frontier)
}

/// Visits the flagged states at some positions, and tells whether one fell.
pub(crate) fn pass(
    rows: &Lifted,
    lane: &mut [i64],
    work: &mut [u32],
    part: Part,
    frontier: u32,
) -> bool
    ghost run: { Run }
    requires can { CanLower rows.now run lane.old }
    requires part { (part.high ≤ length work.old) × (part.high ≤ length rows.now.links.order) }
    ensures lowered { IsLowered rows.now.case run lane.old lane.new result }
    ensures kept { KeepsOthers rows.now.case rows.now.links part.low part.high lane.old lane.new }
{
    let mut fell = false;
    for position in part.low..part.high {
        if turn(rows, lane, work, position, frontier) {
            fell = true;
        }
    }
    fell
}

/// Whether a component of one state begins at a position.
#[inline(always)]
pub(crate) fn is_alone(rows: &Lifted, low: u32) -> bool {
    match rows.links().component_ends().get(low as usize) {
        Some(end) => end.wrapping_sub(low) == 1,
        None => false,
    }
}

/// Where the component ends that begins at a position, or the last of so many positions.
pub(crate) fn component_end(rows: &Lifted, low: u32, states: u32) -> u32
    requires { low < states }
    ensures later { low < result }
    ensures inside { result ≤ states }
{
    match rows.links().component_ends().get(low as usize) {
        Some(end) if *end > low && *end <= states => *end,
        _ => states,
    }
}

impl Descent<'_> {
    /// Lowers the states of a part until none of them is flagged, or the initial state's number isn't above the limit. A
    /// single state needs one visit.
    pub(crate) fn settle_part(&self, lane: &mut [i64], work: &mut [u32], part: Part, frontier: u32)
        ghost run: { Run }
        requires can { CanLower self.now.rows.now run lane.old }
        requires part { (part.high ≤ length work.old) × (part.high ≤ length self.now.rows.now.links.order) }
        ensures { IsLowered self.now.rows.now.case run lane.old lane.new false }
    {
        let init = self.rows.model().init() as usize;
        while pass(self.rows, lane, work, part, frontier)
            && !part.is_single()
            && lane[init] > self.limit
        {}
    }

    /// Lowers states until none is flagged, component by component from those below, or until the initial
    /// state's number isn't above the limit. A state is looked at again only where one that it leads to fell.
    pub(crate) fn settle(&self, lane: &mut [i64], work: &mut [u32])
        ghost run: { Run }
        requires can { CanLower self.now.rows.now run lane.old }
        requires work { length work.old ≡ 2 * length self.now.rows.now.case.model.states }
        ensures { IsLowered self.now.rows.now.case run lane.old lane.new false }
    {
        let _ = self.rows.w();
        let states = self.rows.model().states();
        let mut low = 0;
        while low < states {
            let high = component_end(self.rows, low, states);
            self.settle_part(lane, work, Part { low, high }, states);
            low = high;
        }
    }
}
