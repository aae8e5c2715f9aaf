// The value that a line tells.
ghost use Rattle.std.specs.Prelude.{◌≡◌, ◌≢◌, ◌≤◌, length, Err};
ghost use Rattle.lift_model.specs.Valid.{most_parameters};
ghost use Rattle.drn_read.specs.Text.{value_of, value_behind};
ghost use Rattle.drn_read.specs.Shown.{rest};

use crate::cursor::Cursor;
use crate::error::DrnCause;
use crate::text::behind_colon;
use drn_expr::{RatPoly, read_value};
use lift_names::Names;
use std::alloc::Global;

/// How many parameters one value may hold.
const MOST_VALUE_PARAMETERS: u32 = 4;

/// The value that is left of the line.
pub(crate) fn value_of(alloc: Global, value: Cursor<'_>, names: &Names) -> Result<RatPoly, DrnCause>
    requires { length names.now ≤ most_parameters }
    ensures { result ≢ Err DrnCause.Memory → result ≡ value_of names.now (rest value.entry) }
{
    let read = read_value(alloc, value.text, value.line, value.at, names)?;
    if read.poly().support().count_ones() > MOST_VALUE_PARAMETERS {
        return Err(DrnCause::LimitValueParameters);
    }
    Ok(read)
}

/// The value behind a colon.
pub(crate) fn value_behind(
    alloc: Global,
    line: Cursor<'_>,
    names: &Names,
) -> Result<RatPoly, DrnCause>
    requires { length names.now ≤ most_parameters }
    ensures { result ≢ Err DrnCause.Memory → result ≡ value_behind names.now (rest line.entry) }
{
    match behind_colon(line) {
        Some(value) => value_of(alloc, value, names),
        None => Err(DrnCause::Syntax),
    }
}
