//! What the coefficients of a row sum to at each set of parameters.

ghost use Rattle.std.specs.Prelude.{◌≡◌, ◌+◌, ◌*◌, ◌^◌, ◌<◌, ◌≤◌, ◌+ℤ◌, ℕ, pos, length, All, unsigned_abs, slice_index_or, IfSome, MatchOption};
ghost use Rattle.lift_poly.specs.Arithmetic.{coefficient};
ghost use Rattle.lift_model.specs.Valid.{most_transitions, coefficient_limit};
ghost use Rattle.corner_lift.specs.Case.{row_coefficient, due, SumsToOne, engine_limit};
ghost use Rattle.lift_rows.specs.Fault.{IsSumFault};
ghost use Rattle.lift_rows.specs.Sums.{AreSmall, IsFirstWrong, block_size, sum_limit};

use lift_model::{Entry, Row};
use lift_poly::{MultiAffine, coefficients_determine};

/// How many sets are summed at a time, a block of them.
const BLOCK: usize = 256;

/// The same, to divide a set by.
const BLOCK_SETS: u16 = 256;

/// Adds the coefficients of a polynomial at the sets of a block to the sums there.
fn add_terms(sums: &mut [i128; BLOCK], poly: &MultiAffine, block: u16)
    requires small { All (λ term. unsigned_abs term.1 < coefficient_limit) poly.now }
    requires room { (i : ℕ) → i < block_size → unsigned_abs (slice_index_or sums.old i (pos 0)) < sum_limit }
    ensures sums { (i : ℕ) → i < block_size → slice_index_or sums.new i (pos 0)
        ≡ slice_index_or sums.old i (pos 0) +ℤ coefficient (block * block_size + i) poly.now }
    ensures sizes { (set : ℕ) → unsigned_abs (coefficient set poly.now) < coefficient_limit }
{
    coefficients_determine();
    for i in 0..poly.len() {
        let (set, coefficient) = poly.term(i);
        if set / BLOCK_SETS == block {
            sums[(set % BLOCK_SETS) as usize] += coefficient;
        }
    }
}

/// What the coefficients at each set of a block sum to over the entries.
fn sums_in(entries: &[Entry], block: u16) -> [i128; BLOCK]
    requires small { AreSmall entries.now }
    requires few { length entries.now ≤ most_transitions }
    ensures sums { (i : ℕ) → i < block_size → slice_index_or result i (pos 0)
        ≡ row_coefficient (block * block_size + i) entries.now }
    ensures sizes { All (λ sum. unsigned_abs sum < engine_limit) result }
{
    let mut sums = [0; BLOCK];
    for entry in entries {
        add_terms(&mut sums, &entry.poly, block);
    }
    sums
}

/// What the coefficients at a set are to sum to.
fn due(common: i64, set: u16) -> i128
    ensures { result ≡ due common set }
{
    if set == 0 { i128::from(common) } else { 0 }
}

/// The first set of a block at which the sum isn't the one that is due, with the sum.
fn first_wrong(sums: &[i128], block: u16, common: i64) -> Option<(u16, i128)>
    requires whole { length sums.now ≡ block_size }
    requires block { block < block_size }
    ensures { MatchOption result
        ((i : ℕ) → i < block_size → slice_index_or sums.now i (pos 0) ≡ due common (block * block_size + i))
        (λ fault. IsFirstWrong sums.now block common fault.0 fault.1) }
{
    let mut set = block * BLOCK_SETS;
    for sum in sums {
        if *sum != due(common, set) {
            return Some((set, *sum));
        }
        set = set.wrapping_add(1);
    }
    None
}

/// The least set at which the coefficients of the row don't sum to what is due, with their sum.
pub(crate) fn sum_fault(common: i64, row: &Row) -> Option<(u16, i128)>
    requires small { AreSmall row.now }
    requires few { length row.now ≤ most_transitions }
    ensures fault { MatchOption result (SumsToOne common row.now) (λ fault. IsSumFault common row.now fault.0 fault.1) }
    ensures size { IfSome result (λ fault. unsigned_abs fault.1 < engine_limit) }
{
    let support = row.support() / BLOCK_SETS;
    for block in 0..=support {
        // Only such blocks have sets of the row's parameters.
        if block | support == support {
            let sums = sums_in(row.entries(), block);
            let wrong = first_wrong(&sums, block, common);
            if wrong.is_some() {
                return wrong;
            }
        }
    }
    None
}
