//! Whether all coefficients of rows are small.

ghost use Rattle.std.specs.Prelude.{◌≡◌, ◌<◌, true, false, All, map, unsigned_abs};
ghost use Rattle.lift_model.specs.Valid.{coefficient_limit};
ghost use Rattle.lift_lump.specs.Lumped.{IsSmallEntry};

use lift_model::{Entry, Row};
use lift_poly::MultiAffine;

/// A coefficient's size stays below this.
const LIMIT: u128 = 1 << 100;

/// Whether the coefficients of a polynomial are small.
fn is_small(poly: &MultiAffine) -> bool
    ensures small { result ≡ true → All (λ term. unsigned_abs term.1 < coefficient_limit) poly.now }
    ensures wide { result ≡ false → All (λ term. unsigned_abs term.1 < coefficient_limit) poly.now → ⊥ }
{
    for index in 0..poly.len() {
        if poly.term(index).1.unsigned_abs() >= LIMIT {
            return false;
        }
    }
    true
}

/// Whether the coefficients of a row are small.
fn is_small_row(row: &[Entry]) -> bool
    ensures small { result ≡ true → All IsSmallEntry row.now }
    ensures wide { result ≡ false → All IsSmallEntry row.now → ⊥ }
{
    for entry in row {
        if !is_small(&entry.poly) {
            return false;
        }
    }
    true
}

/// Whether the coefficients of choices are small.
fn are_small_choices(choices: &[Row]) -> bool
    ensures small { result ≡ true → All (All IsSmallEntry) choices.now }
    ensures wide { result ≡ false → All (All IsSmallEntry) choices.now → ⊥ }
{
    for row in choices {
        if !is_small_row(row.entries()) {
            return false;
        }
    }
    true
}

/// Whether all coefficients of these states' choices are small.
pub(crate) fn are_small(states: &[Vec<Row>]) -> bool
    ensures small { result ≡ true → All (All (All IsSmallEntry)) (map (λ v. v.items) states.now) }
    ensures wide { result ≡ false → All (All (All IsSmallEntry)) (map (λ v. v.items) states.now) → ⊥ }
{
    for choices in states {
        if !are_small_choices(choices) {
            return false;
        }
    }
    true
}
