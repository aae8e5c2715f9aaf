// Corners of a rectangle.
ghost use Rattle.std.specs.Prelude.{◌≡◌, ◌+◌, ◌*◌, ◌<◌, ◌^◌, ℕ, length, count_ones, IsBitSet};
ghost use Rattle.lift_grid.specs.Rectangle.{spans_of, corner_side};

/// The end of a parameter's span that a corner chooses. The corners of a parameter set are
/// numbered from 0, and bit i of the number stands for the i-th smallest parameter of the set: 0
/// for the low end, 1 for the high one.
pub fn corner_side(sides: &[i64], support: u16, corner: u32, parameter: u32) -> i64
    requires member { IsBitSet support parameter }
    requires pairs { (i : ℕ) → IsBitSet support i → 2 * i + 1 < length sides.now }
    requires corner { corner < 2 ^ count_ones support }
    ensures { result ≡ corner_side (spans_of sides.now) support corner parameter }
{
    let place = (support % (1 << parameter)).count_ones();
    let bit = (corner >> place) % 2;
    sides[(2 * parameter + bit) as usize]
}
