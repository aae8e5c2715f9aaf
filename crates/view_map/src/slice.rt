// The slice of a region that is looked at.
ghost use Rattle.std.specs.Prelude.{◌≡◌, ◌*ℤ◌, ◌<ℤ◌, int_le, int_lt, pos};
ghost use Rattle.std.specs.Ordering.{int_eq};
ghost use Rattle.lift_grid.specs.Rectangle.{spans_of};
ghost use Rattle.view_map.specs.Slice.{has_value, meets, meets_all};

use crate::part::{Part, span_at};
use std::marker::Model;

/// A value of a parameter, as a fraction.
#[derive(Clone, Copy)]
pub struct Cut {
    parameter: u32,
    num: i64,
    den: i64,
}

impl Model for Cut {
    ghost use Rattle.std.specs.Prelude.{◌<ℤ◌, pos};
    ghost use Rattle.view_map.specs.Slice.{CutData};

    ghost Value = { CutData };

    ghost view = { λ c. record { parameter = c.parameter; num = c.num; den = c.den } };

    ghost invariant = { λ c. pos 0 <ℤ c.den };

    ghost inverse = { λ c. record { parameter = c.parameter; num = c.num; den = c.den } };
}

// The product, which can't overflow.
fn times(a: i64, b: i64) -> i128
    ensures { result ≡ a *ℤ b }
{
    i128::from(a) * i128::from(b)
}

fn is_at_most(a: i128, b: i128) -> bool
    ensures { result ≡ int_le a b }
{
    a <= b
}

fn is_below(a: i128, b: i128) -> bool
    ensures { result ≡ int_lt a b }
{
    a < b
}

fn is_same(a: i64, b: i64) -> bool
    ensures { result ≡ int_eq a b }
{
    a == b
}

// Whether a leaf's span of a parameter, in a root's that ends at `top`, has a value: a numerator and a denominator.
fn has_value(span: (i64, i64), top: i64, value: (i64, i64), d: i64) -> bool
    ensures { result ≡ has_value d span top value.0 value.1 }
{
    let (low, high) = span;
    let (num, den) = value;
    let value = times(num, d);
    let from = times(low, den);
    let to = times(high, den);
    let below = is_below(value, to) || is_same(high, top);
    is_at_most(from, value) && below
}

impl Cut {
    /// The value `num / den` of a parameter.
    pub fn new(parameter: u32, num: i64, den: i64) -> Self
        requires { pos 0 <ℤ den }
        ensures { result ≡ record { parameter = parameter; num = num; den = den } }
    {
        Cut {
            parameter,
            num,
            den,
        }
    }

    /// The parameter.
    pub fn parameter(self) -> u32
        ensures { result ≡ self.parameter }
    {
        self.parameter
    }

    /// The value: a numerator and a denominator.
    pub fn value(self) -> (i64, i64)
        ensures num { result.0 ≡ self.num }
        ensures den { result.1 ≡ self.den }
        ensures positive { pos 0 <ℤ result.1 }
    {
        (self.num, self.den)
    }

    /// Whether a leaf of a region over the grid `d` has that value. On a side that two leaves share
    /// it belongs to the upper one, and at the region's upper end to the last one.
    fn meets(self, d: i64, root: &[i64], part: &Part) -> bool
        ensures { result ≡ meets d (spans_of root.now) part.now self }
    {
        let span = part.span(self.parameter);
        let (_, top) = span_at(root, self.parameter);
        has_value(span, top, (self.num, self.den), d)
    }
}

/// The slice of a region that is looked at: the parameters on its two axes, and a value for each of
/// the others.
#[derive(Drop)]
pub struct Slice {
    x: Option<u32>,
    y: Option<u32>,
    cuts: Vec<Cut>,
}

impl Model for Slice {
    ghost use Rattle.view_map.specs.Slice.{SliceData};

    ghost Value = { SliceData };

    ghost view = { λ s. record { x = s.x; y = s.y; cuts = s.cuts.items } };
}

impl Slice {
    /// The slice with these axes and values.
    pub fn new(x: Option<u32>, y: Option<u32>, cuts: Vec<Cut>) -> Self
        ensures { result ≡ record { x = x; y = y; cuts = cuts.items } }
    {
        Slice { x, y, cuts }
    }

    /// The parameter from left to right.
    pub fn x(&self) -> Option<u32>
        ensures { result ≡ self.now.x }
    {
        self.x
    }

    /// The parameter from below up.
    pub fn y(&self) -> Option<u32>
        ensures { result ≡ self.now.y }
    {
        self.y
    }

    /// The values of the others.
    pub fn cuts(&self) -> &[Cut]
        ensures { result.now ≡ self.now.cuts }
    {
        &self.cuts
    }

    /// Whether a leaf of a region over the grid `d` meets the slice.
    pub fn meets(&self, d: i64, root: &[i64], part: &Part) -> bool
        ensures { result ≡ meets_all d (spans_of root.now) self.now.cuts part.now }
    {
        self.cuts.iter().all(|cut| cut.meets(d, root, part))
    }
}
