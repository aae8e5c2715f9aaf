ghost use Rattle.std.specs.Prelude.{◌≡◌, ◌≤◌, ◌^◌, pos};
ghost use Rattle.corner_lift.specs.Case.{most_precision};

/// The number that stands for 1 at that precision: 2 to the `w`.
pub fn one_at(w: u32) -> i64
    requires { w ≤ most_precision }
    ensures { result ≡ pos (2 ^ w) }
{
    1 << w
}
