// Grids and the rectangles over them.
ghost use Rattle.std.specs.Prelude.{◌≡◌, IfOk};
ghost use Rattle.lift_grid.specs.Rectangle.{AreSpans, AreSides, spans_of, sides_of};

use std::alloc::{AllocError, Global};
use std::marker::Model;

/// The common denominator of all ends, and how often every span can be halved.
#[derive(Clone, Copy, Debug, PartialEq, Eq)]
pub struct Grid {
    /// What each end is a whole number over; above 0.
    pub d: i64,
    /// The depth that was asked for, at most 20.
    pub depth: u32,
}

/// A rectangle: a low and a high end for each declared parameter, the low end below the high one,
/// both below 2^62 in size.
#[derive(Drop)]
pub struct Rect {
    sides: Vec<i64>,
}

impl Model for Rect {
    ghost use Rattle.std.specs.Prelude.{List, ℤ};
    ghost use Rattle.lift_grid.specs.Rectangle.{AreSides, spans_of};

    ghost Value = { List (ℤ × ℤ) };

    ghost view = { λ r. spans_of r.sides.items };

    ghost invariant = { λ r. AreSides r.sides.items };
}

impl Rect {
    /// The rectangle with these ends in a row.
    pub(crate) fn new(sides: Vec<i64>) -> Self
        requires { AreSides sides.items }
        ensures { result ≡ spans_of sides.items }
    {
        Rect { sides }
    }

    /// The rectangle with these ends: low and high end of the first parameter, low and high end of
    /// the second, and so on. It copies them.
    pub fn from_sides(alloc: Global, sides: &[i64]) -> Result<Self, AllocError>
        requires { AreSides sides.now }
        ensures { IfOk result (λ r. r ≡ spans_of sides.now) }
    {
        let sides = Vec::from_slice(alloc, sides)?;
        Ok(Rect { sides })
    }

    /// The ends in a row.
    pub fn sides(&self) -> &[i64]
        ensures sides { result.now ≡ sides_of self.now }
        ensures same { spans_of result.now ≡ self.now }
        ensures spans { AreSpans self.now }
    {
        &self.sides
    }
}
