//! The width of a row.

ghost use Rattle.std.specs.Prelude.{◌≡◌, ◌*◌, ◌^◌, ◌<◌, ◌≤◌, ℕ, ◌↔◌, IsTrue};
ghost use Rattle.corner_lift.specs.Case.{IsNarrow, row_parameters, greatest_size, engine_limit};
ghost use Rattle.lift_rows.specs.Sums.{AreSmall};

use crate::candidate::Candidate;
use lift_model::Row;

/// Products and sums stay below this.
const ENGINE_LIMIT: u128 = 1 << 126;

/// The greatest number that stays below 2^126 when it is multiplied by so many of the greatest ends and
/// by 2^w. It is found by division, so that nothing is formed that could leave 128 bits.
fn limit_of(asked: &Candidate, count: u32) -> u128
    ensures { (n : ℕ) → (n ≤ result) ↔ (n * greatest_size asked.now.d asked.now.root ^ count * 2 ^ asked.now.w < engine_limit) }
{
    let mut limit = (ENGINE_LIMIT - 1) >> asked.w();
    let mut left = count;
    while left > 0 {
        limit /= asked.greatest();
        left -= 1;
    }
    limit
}

/// Whether products and sums of the row's weights stay below 2^126.
pub(crate) fn is_narrow(asked: &Candidate, row: &Row, count: u32) -> bool
    requires small { AreSmall row.now }
    requires count { count ≡ row_parameters asked.now row.now }
    ensures { IsTrue result ↔ IsNarrow asked.now row.now }
{
    let mut left = limit_of(asked, count);
    for entry in row.entries() {
        let size = entry.poly.abs_sum() as u128;
        if size > left {
            return false;
        }
        left -= size;
    }
    true
}
