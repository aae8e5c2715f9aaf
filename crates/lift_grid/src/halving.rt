//! How a rectangle is halved.

ghost use Rattle.std.specs.Prelude.{◌≡◌, ◌+◌, ◌*◌, ◌<◌, ◌<ℤ◌, ◌↔◌, ℕ, length};
ghost use Rattle.std.specs.Prelude.{IfSome, IsBitSet, IsNone, if◌then◌else◌};
ghost use Rattle.lift_poly.specs.Limits.{parameter_limit};
ghost use Rattle.lift_grid.specs.Rectangle.{spans_of, sides_of};
ghost use Rattle.lift_grid.specs.Splitting.{IsAxisBelow, IsHalvable, IsSplitAxis, span_length};
ghost use Rattle.lift_grid.specs.Tree.{lower_half, middle, upper_half};

/// `parameter_limit`: parameters are numbered from 0 and below this.
const PARAMETER_LIMIT: u32 = 16;

/// How long the span of a parameter is, over the grid.
fn span_length(sides: &[i64], parameter: u32) -> u64
    requires { 2 * parameter + 1 < length sides.now }
    ensures { result ≡ span_length (spans_of sides.now) parameter }
{
    let low = 2 * parameter as usize;
    sides[low + 1].abs_diff(sides[low])
}

/// The axis among the parameters up to this one, `best` being the axis among those before it.
fn longer(sides: &[i64], live: u16, best: Option<u32>, parameter: u32) -> Option<u32>
    requires parameter { parameter < parameter_limit }
    requires pairs { (i : ℕ) → IsBitSet live i → 2 * i + 1 < length sides.now }
    requires best { IsAxisBelow parameter live (spans_of sides.now) best }
    ensures { IsAxisBelow (parameter + 1) live (spans_of sides.now) result }
{
    if (live >> parameter) & 1 == 0 {
        return best;
    }
    let Some(axis) = best else {
        return Some(parameter);
    };
    let longest = span_length(sides, axis);
    let length = span_length(sides, parameter);
    if length <= longest {
        return best;
    }
    Some(parameter)
}

/// The axis of the split rule: of the live parameters that with the longest span, the lowest index
/// on a tie. `sides` holds a low and a high end for each live parameter, as `Rect::sides` gives
/// them, and bit i of `live` stands for parameter i. None exactly where no parameter is live.
pub fn split_axis(sides: &[i64], live: u16) -> Option<u32>
    requires { (i : ℕ) → IsBitSet live i → 2 * i + 1 < length sides.now }
    ensures none { IsNone result ↔ (live ≡ 0) }
    ensures axis { IfSome result (IsSplitAxis live (spans_of sides.now)) }
{
    let mut best = None;
    for parameter in 0..PARAMETER_LIMIT {
        best = longer(sides, live, best, parameter);
    }
    best
}

/// The midpoint of two ends, rounded down where their sum is odd.
fn midpoint(low: i64, high: i64) -> i64
    requires { low <ℤ high }
    ensures { result ≡ middle (low, high) }
{
    low + (high.abs_diff(low) / 2) as i64
}

/// Halves the rectangle with these ends at the midpoint of a parameter's span: the lower half
/// stays, or the upper one where `lower` is false.
pub fn narrow(sides: &mut [i64], axis: u32, lower: bool)
    requires { IsHalvable axis (spans_of sides.old) }
    ensures half { spans_of sides.new ≡ (if lower
        then lower_half axis (spans_of sides.old)
        else upper_half axis (spans_of sides.old)) }
    ensures pairs { sides_of (spans_of sides.old) ≡ sides.old
        → sides_of (spans_of sides.new) ≡ sides.new }
{
    let low = 2 * axis as usize;
    let middle = midpoint(sides[low], sides[low + 1]);
    if lower {
        sides[low + 1] = middle;
    } else {
        sides[low] = middle;
    }
}
