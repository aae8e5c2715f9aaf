//! What is written at the positions of a part of the states, those of a component.

ghost use Rattle.std.specs.Prelude.{◌≡◌, ℕ, ◌+◌, ◌-◌, ◌^◌, ◌<◌, ◌≤◌, ◌≤ℤ◌, pos, length};
ghost use Rattle.corner_lift.specs.Case.{number};
ghost use Rattle.corner_lift.specs.Certificate.{AreNumbers};
ghost use Rattle.lower_cert.specs.Beginning.{IsFilledAt, AreAll, IsNotedAt, IsNotedPart};
ghost use Rattle.float_guess.specs.Part.{StandsAt, KeepsOthers};

use corner_lift::Lifted;
use float_guess::Note;

/// A part of the states: those at the positions from `low` on and before `high`.
#[derive(Clone, Copy)]
pub(crate) struct Part {
    pub(crate) low: u32,
    pub(crate) high: u32,
}

impl Part {
    /// How many states it has.
    pub(crate) fn len(self) -> u32
        ensures { result ≡ self.high - self.low }
    {
        self.high.saturating_sub(self.low)
    }

    /// Whether it has one state at most.
    #[inline]
    pub(crate) fn is_single(self) -> bool {
        self.low.saturating_add(1) >= self.high
    }
}

/// Writes a number for the state at a position of the part.
pub(crate) fn fill_at(rows: &Lifted, lane: &mut [i64], part: Part, position: u32, number: i64)
    requires numbers { AreNumbers rows.now.case lane.old }
    requires number { (pos 0 ≤ℤ number) × (number ≤ℤ pos (2 ^ rows.now.case.w)) }
    requires inside { (part.low ≤ position) × (position < part.high) }
    requires part { part.high ≤ length rows.now.links.order }
    ensures { IsFilledAt rows.now.case rows.now.links part.low part.high position number lane.old lane.new }
{
    if let Some(s) = rows.open_state(position) {
        lane[s as usize] = number;
    }
}

/// Writes a number for the state at a position.
#[inline(always)]
pub(crate) fn write_at(rows: &Lifted, lane: &mut [i64], position: u32, value: i64)
    requires numbers { AreNumbers rows.now.case lane.old }
    requires value { (pos 0 ≤ℤ value) × (value ≤ℤ pos (2 ^ rows.now.case.w)) }
    requires position { position < length rows.now.links.order }
    ensures kept { KeepsOthers rows.now.case rows.now.links position (position + 1) lane.old lane.new }
    ensures here { (s : ℕ) → StandsAt rows.now.case rows.now.links position s → number lane.new s ≡ value }
{
    if let Some(s) = rows.open_state(position) {
        lane[s as usize] = value;
    }
}

/// Writes a number for the states of a part.
pub(crate) fn fill_part(rows: &Lifted, lane: &mut [i64], part: Part, number: i64)
    requires numbers { AreNumbers rows.now.case lane.old }
    requires number { (pos 0 ≤ℤ number) × (number ≤ℤ pos (2 ^ rows.now.case.w)) }
    requires part { part.high ≤ length rows.now.links.order }
    ensures kept { KeepsOthers rows.now.case rows.now.links part.low part.high lane.old lane.new }
    ensures filled { AreAll rows.now.case rows.now.links lane.new number part.low part.high }
{
    for position in part.low..part.high {
        fill_at(rows, lane, part, position, number);
    }
}

/// Flags the positions of a part.
pub(crate) fn flag_part(work: &mut [u32], part: Part)
    requires { part.high ≤ length work.old }
{
    for position in part.low..part.high {
        work[position as usize] = 1;
    }
}

/// Takes away the flags of a part.
pub(crate) fn clear_part(work: &mut [u32], part: Part)
    requires { part.high ≤ length work.old }
{
    for position in part.low..part.high {
        work[position as usize] = 0;
    }
}

/// Notes the low bits of the number of the state at a position.
fn note_at(rows: &Lifted, lane: &[i64], noted: &mut [u32], position: u32)
    requires numbers { AreNumbers rows.now.case lane.now }
    requires notes { length noted.old ≡ length rows.now.case.model.states }
    requires position { position < length rows.now.links.order }
    ensures { IsNotedAt rows.now.case rows.now.links lane.now position noted.old noted.new }
{
    if let Some(s) = rows.open_state(position) {
        let note = Note {
            bits: noted[s as usize],
        };
        noted[s as usize] = note.with_number(lane[s as usize]).bits;
    }
}

/// Notes the low bits of the numbers of a part.
pub(crate) fn note(rows: &Lifted, lane: &[i64], noted: &mut [u32], part: Part)
    requires numbers { AreNumbers rows.now.case lane.now }
    requires notes { length noted.old ≡ length rows.now.case.model.states }
    requires part { part.high ≤ length rows.now.links.order }
    ensures { IsNotedPart rows.now.case rows.now.links lane.now noted.new part.low part.high }
{
    for position in part.low..part.high {
        note_at(rows, lane, noted, position);
    }
}
