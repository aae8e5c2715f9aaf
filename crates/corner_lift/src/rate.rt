ghost use Rattle.std.specs.Prelude.{◌≡◌, ◌≤◌, ◌^◌, ◌*ℤ◌, ◌≤ℤ◌, ◌↔◌, pos, IsTrue};
ghost use Rattle.corner_lift.specs.Certificate.{most_rate};

/// Whether `weight` times 2 to the `e` is at least the whole. That product is never formed, since it
/// may be too wide. The weight is at least 0, `e` at most 126, and the whole at least 1.
#[inline]
pub fn is_enough(weight: i128, e: u32, whole: i128) -> bool
    requires weight { pos 0 ≤ℤ weight }
    requires rate { e ≤ most_rate }
    requires whole { pos 1 ≤ℤ whole }
    ensures { IsTrue result ↔ whole ≤ℤ (weight *ℤ pos (2 ^ e)) }
{
    let below = (whole - 1).unsigned_abs();
    below >> e < weight.unsigned_abs()
}
