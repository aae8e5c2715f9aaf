// The root's sides.
ghost use Rattle.std.specs.Prelude.{◌≡◌, ◌≤◌, ◌<◌, ◌+◌, ◌*◌, ◌^◌, ◌++◌, ◌∷◌, [], length, codes, IfOk};
ghost use Rattle.lift_grid.specs.Rectangle.{most_halvings};
ghost use Rattle.line_text.specs.Shown.{Says};
ghost use Rattle.cert_text.specs.Lines.{box_of};
ghost use Rattle.cert_text.specs.Shown.{end_in, span_in, sides_in, root_in};

use lift_grid::Rect;
use line_text::{Decimal, TextCause, Words, numbers_of};
use std::alloc::{AllocError, Global};

/// Below this size each end of a span lies.
const SIZE_LIMIT: u128 = 1 << 62;

/// The end, if it is a multiple of the step and below the limit in size.
fn end_in(number: &Decimal, step: u32) -> Result<i64, TextCause>
    requires { 0 < step }
    ensures { Says (λ n. n) result (end_in step number.now) }
{
    if number.remainder(step) != 0 {
        return Err(TextCause::Syntax);
    }
    match number.narrow() {
        Some(n) if n.unsigned_abs() < SIZE_LIMIT => Ok(n as i64),
        _ => Err(TextCause::Limit),
    }
}

/// The span of two such ends, if the low one is below the high one.
fn span_in(low: &Decimal, high: &Decimal, step: u32) -> Result<(i64, i64), TextCause>
    requires { 0 < step }
    ensures { Says (λ s. s) result (span_in step low.now high.now) }
{
    if !low.is_below(high) {
        return Err(TextCause::Syntax);
    }
    let low = end_in(low, step)?;
    let high = end_in(high, step)?;
    Ok((low, high))
}

/// Keeps both ends of a span.
fn keep(sides: &mut Vec<i64>, span: (i64, i64)) -> Result<(), AllocError>
    ensures { IfOk result (λ _. sides.new.items ≡ sides.old.items ++ span.0 ∷ span.1 ∷ []) }
{
    sides.push(span.0)?;
    sides.push(span.1)?;
    Ok(())
}

/// The ends in a row, if they make such spans.
fn sides_in(
    alloc: Global,
    numbers: &[Decimal],
    parameters: u32,
    step: u32,
) -> Result<Vec<i64>, TextCause>
    requires step { 0 < step }
    requires count { length numbers.now ≡ 2 * parameters }
    ensures { Says (λ v. v.items) result (sides_in step numbers.now) }
{
    let mut sides = Vec::new(alloc);
    for i in 0..parameters as usize {
        match span_in(&numbers[2 * i], &numbers[2 * i + 1], step) {
            Ok(span) => match keep(&mut sides, span) {
                Ok(()) => {}
                Err(_) => return Err(TextCause::Memory),
            },
            Err(cause) => return Err(cause),
        }
    }
    Ok(sides)
}

/// The root of these ends, if they make such spans.
#[tactic(auto, using(crate::proofs::BoxLoop::root_fails, crate::proofs::BoxLoop::root_is))]
fn root_in(
    alloc: Global,
    numbers: &[Decimal],
    parameters: u32,
    step: u32,
) -> Result<Rect, TextCause>
    requires step { 0 < step }
    requires count { length numbers.now ≡ 2 * parameters }
    ensures { Says (λ r. r) result (root_in step numbers.now) }
{
    let sides = sides_in(alloc, numbers, parameters, step)?;
    let root = Rect::from_sides(alloc, &sides)?;
    Ok(root)
}

/// The root, by its line.
pub(crate) fn box_of(
    alloc: Global,
    words: &Words,
    parameters: u32,
    depth: u32,
) -> Result<Rect, TextCause>
    requires { depth ≤ most_halvings }
    ensures { Says (λ r. r) result (box_of parameters depth words.now) }
{
    let numbers = numbers_of(alloc, words, b"box")?;
    if numbers.len() as u64 != 2 * u64::from(parameters) {
        return Err(TextCause::Syntax);
    }
    root_in(alloc, &numbers, parameters, 2_u32.pow(depth))
}
