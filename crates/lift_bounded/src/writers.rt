//! Writes the leaves of a tree.

ghost use Rattle.std.specs.Prelude.{◌≡◌, ◌+◌, ◌++◌, ◌^◌, length, codes};
ghost use Rattle.lift_base.specs.Outside.{Wrote};
ghost use Rattle.corner_lift.specs.Case.{number};
ghost use Rattle.lift_bounded.specs.Lanes.{HasChoices, HasVectors};
ghost use Rattle.lift_bounded.specs.Text.{
  accept_text,
  for_steps,
  lower_text,
  numbers_line,
  choices_line,
  reject_line,
  reject_text,
  upper_text,
};

use corner_lift::{Case, one_at};
use lift_base::{Sink, Word, WriteFault, write_all, write_marks, write_words, writes_in_turn};
use lift_pool::Pool;

/// Writes the numbers of the states for n steps.
fn write_numbers<'x, K: Sink>(
    out: &mut K,
    key: &'x [u8],
    n: u32,
    numbers: &'x [i64],
) -> Result<(), WriteFault>
    ensures { Wrote K.taken K.faults out.old out.new result (numbers_line key.now n numbers.now) }
{
    write_words(
        out,
        &[
            Word::Text(key),
            Word::Text(b" "),
            Word::Count(u64::from(n)),
            Word::Numbers(numbers),
            Word::Text(b"\n"),
        ],
    )
}

/// Writes the choices of the states for n steps.
fn write_choices<K: Sink>(out: &mut K, n: u32, picks: &[u32]) -> Result<(), WriteFault>
    ensures { Wrote K.taken K.faults out.old out.new result (choices_line n picks.now) }
{
    writes_in_turn::<K>();
    write_words(out, &[Word::Text(b"choice "), Word::Count(u64::from(n))])?;
    write_marks(out, picks, u32::MAX)?;
    write_all(out, b"\n")
}

/// Writes the vectors of 1 to h steps.
fn write_uppers<K: Sink>(out: &mut K, h: u32, numbers: &Pool<i64>) -> Result<(), WriteFault>
    requires { length numbers.now.lanes ≡ h + 1 }
    ensures { Wrote K.taken K.faults out.old out.new result (for_steps (upper_text numbers.now.lanes) 1 h) }
{
    writes_in_turn::<K>();
    for n in 0..h {
        write_numbers(out, b"x", n + 1, numbers.lane(n as usize + 1))?;
    }
    Ok(())
}

/// Writes an accepting leaf.
pub(crate) fn write_accept<K: Sink>(
    out: &mut K,
    h: u32,
    numbers: &Pool<i64>,
) -> Result<(), WriteFault>
    requires { length numbers.now.lanes ≡ h + 1 }
    ensures { Wrote K.taken K.faults out.old out.new result (accept_text h numbers.now.lanes) }
{
    writes_in_turn::<K>();
    write_all(out, b"accept\n")?;
    write_uppers(out, h, numbers)
}

/// Writes the vector of n steps and its choices.
fn write_lower<K: Sink>(
    out: &mut K,
    n: u32,
    numbers: &[i64],
    picks: &[u32],
) -> Result<(), WriteFault>
    ensures { Wrote K.taken K.faults out.old out.new result
        (numbers_line (codes "y") n numbers.now ++ choices_line n picks.now) }
{
    writes_in_turn::<K>();
    write_numbers(out, b"y", n, numbers)?;
    write_choices(out, n, picks)
}

/// Writes the vectors of 1 to h steps, with their choices.
fn write_lowers<K: Sink>(
    out: &mut K,
    h: u32,
    numbers: &Pool<i64>,
    picks: &Pool<u32>,
) -> Result<(), WriteFault>
    requires numbers { length numbers.now.lanes ≡ h + 1 }
    requires picks { length picks.now.lanes ≡ h }
    ensures { Wrote K.taken K.faults out.old out.new result
        (for_steps (lower_text (record { numbers = numbers.now.lanes; picks = picks.now.lanes })) 1 h) }
{
    writes_in_turn::<K>();
    for n in 0..h {
        write_lower(
            out,
            n + 1,
            numbers.lane(n as usize + 1),
            picks.lane(n as usize),
        )?;
    }
    Ok(())
}

/// The number of the initial state.
fn initial_number(case: &Case, lane: &[i64]) -> i64
    requires { length lane.now ≡ length case.now.model.states }
    ensures { result ≡ number lane.now case.now.model.init }
{
    let init = case.model().init();
    lane[init as usize]
}

/// Writes the first line of a rejecting leaf.
fn write_reached<K: Sink>(out: &mut K, case: &Case, lane: &[i64]) -> Result<(), WriteFault>
    requires { length lane.now ≡ length case.now.model.states }
    ensures { Wrote K.taken K.faults out.old out.new result
        (reject_line (number lane.now case.now.model.init) (2 ^ case.now.w)) }
{
    let initial = initial_number(case, lane);
    let one = one_at(case.w());
    write_words(
        out,
        &[
            Word::Text(b"reject b "),
            Word::Number(i128::from(initial)),
            Word::Text(b"/"),
            Word::Number(i128::from(one)),
            Word::Text(b"\n"),
        ],
    )
}

/// Writes a rejecting leaf.
pub(crate) fn write_reject<K: Sink>(
    out: &mut K,
    case: &Case,
    h: u32,
    numbers: &Pool<i64>,
    picks: &Pool<u32>,
) -> Result<(), WriteFault>
    requires numbers { HasVectors case.now h numbers.now.lanes }
    requires picks { HasChoices case.now h picks.now.lanes }
    ensures { Wrote K.taken K.faults out.old out.new result
        (reject_text case.now h (record { numbers = numbers.now.lanes; picks = picks.now.lanes })) }
{
    writes_in_turn::<K>();
    write_reached(out, case, numbers.lane(h as usize))?;
    write_lowers(out, h, numbers, picks)
}
