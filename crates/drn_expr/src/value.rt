ghost use Rattle.std.specs.Prelude.{◌≡◌, ◌≢◌, ◌≤◌, ◌<◌, ◌^◌, length, nat_lt, slice_range, Err};
ghost use Rattle.std.specs.Prelude.{IfOk};
ghost use Rattle.drn_lexer.specs.Spans.{LiesIn, IsOn};
ghost use Rattle.lift_poly.specs.Limits.{parameter_limit};
ghost use Rattle.drn_expr.specs.Grammar.{most_symbols};
ghost use Rattle.drn_expr.specs.Values.{reading, IsWorth};
ghost use Rattle.drn_expr.specs.Parsing.{left};

use crate::error::ExprError;
use crate::laws::readings_follow;
use crate::parse::{Parser, ended};
use crate::rat_poly::RatPoly;
use drn_lexer::{Line, next_symbol};
use lift_names::Names;
use std::alloc::Global;

/// How many symbols a value may have: `most_symbols` in the definitions.
const MOST_SYMBOLS: u32 = 4096;

/// Whether more symbols than a value may have stand behind a place of the line.
fn is_long(text: &[u8], line: Line, from: usize) -> bool
    requires line { LiesIn line text.now }
    requires place { IsOn from line }
    ensures { result ≡ nat_lt most_symbols (left text.now line from) }
{
    let mut at = from;
    let mut seen = 0;
    while let Some(symbol) = next_symbol(text, line, at) {
        if seen == MOST_SYMBOLS {
            return true;
        }
        seen += 1;
        at = symbol.to;
    }
    false
}

/// The expansion of the value that is the rest of a line, from the place `from` on. It holds the
/// parameters by their places among the names, of which there are at most 16.
///
/// Without an expansion, the first refusal is answered. `Long` exactly where there are more than
/// 4,096 symbols. Else the first fault in place, from the left: `Power` at a `^` where an operator
/// could stand, `Deep` at the 65th enclosing parenthesis or unary minus, `UnknownName` at a name
/// that isn't declared, `Wide` at a literal that is too large, and `Syntax` at any other symbol
/// that doesn't fit, or at the end. Else the first operation that fails, operands from left to
/// right before their operation: `SharedParameter`, `ParametricDivisor`, `DivisionByZero`, and
/// `Wide` where the exact result, over its least denominator, has a denominator or a coefficient
/// of size 2^62 or more. `Memory` only where memory is wanting.
///
/// At every valuation of the names the polynomial is worth what the value means.
pub fn read_value(
    alloc: Global,
    text: &[u8],
    line: Line,
    from: usize,
    names: &Names,
) -> Result<RatPoly, ExprError>
    requires line { LiesIn line text.now }
    requires place { IsOn from line }
    requires names { length names.now ≤ parameter_limit }
    ensures answer { result ≢ Err ExprError.Memory
        → result ≡ reading names.now (slice_range text.now from line.to) }
    ensures meaning { IfOk result (IsWorth names.now (slice_range text.now from line.to)) }
{
    // The clause on the meaning rests on it.
    readings_follow();
    if is_long(text, line, from) {
        return Err(ExprError::Long);
    }
    let parser = Parser {
        alloc,
        text,
        line,
        names,
    };
    let whole = parser.value(from, 0)?;
    ended(text, line, whole.to)?;
    let value = whole.value?;
    Ok(value.compact())
}
