ghost use Rattle.std.specs.Prelude.{◌≡◌};
ghost use Rattle.lift_grid.specs.Rectangle.{sides_of, spans_of};
ghost use Rattle.lift_grid.specs.Parts.{region_of};
ghost use Rattle.corner_lift.specs.Case.{IsAsked, case_of, greatest_size};

use lift_grid::{Grid, Rect};
use lift_model::Model;

/// A case that is asked for, whose rows are still to be tested.
#[derive(Drop)]
pub(crate) struct Candidate<'m> {
    model: &'m Model,
    root: &'m Rect,
    grid: Grid,
    w: u32,
    greatest: u128,
}

impl<'m> std::marker::Model for Candidate<'m> {
    ghost use Rattle.std.specs.Prelude.{◌≡◌};
    ghost use Rattle.lift_grid.specs.Parts.{region_of};
    ghost use Rattle.corner_lift.specs.Case.{CaseData, IsAsked, case_of, greatest_size};

    ghost Value = { CaseData };

    ghost view = { λ c. case_of c.model.now (region_of (c.grid, c.root.now)) c.w };

    ghost invariant = { λ c. IsAsked (case_of c.model.now (region_of (c.grid, c.root.now)) c.w)
        × (c.greatest ≡ greatest_size c.grid.d c.root.now) };
}

/// The greatest size among `d` and the sides.
fn greatest_of(d: i64, sides: &[i64]) -> u128
    requires { sides.now ≡ sides_of (spans_of sides.now) }
    ensures { result ≡ greatest_size d (spans_of sides.now) }
{
    let mut greatest = d.unsigned_abs();
    for side in sides {
        greatest = greatest.max(side.unsigned_abs());
    }
    u128::from(greatest)
}

impl<'m> Candidate<'m> {
    /// The candidate of these parts. Takes no memory.
    pub(crate) fn new(model: &'m Model, root: &'m Rect, grid: Grid, w: u32) -> Candidate<'m>
        requires { IsAsked (case_of model.now (region_of (grid, root.now)) w) }
        ensures { result ≡ case_of model.now (region_of (grid, root.now)) w }
    {
        let greatest = greatest_of(grid.d, root.sides());
        Candidate {
            model,
            root,
            grid,
            w,
            greatest,
        }
    }

    /// The model.
    pub(crate) fn model(&self) -> &'m Model
        ensures value { result.now ≡ self.now.model }
        ensures asked { IsAsked self.now }
    {
        self.model
    }

    /// The ends of the root in a row.
    pub(crate) fn sides(&self) -> &'m [i64]
        ensures value { result.now ≡ sides_of self.now.root }
        ensures same { spans_of result.now ≡ self.now.root }
        ensures asked { IsAsked self.now }
    {
        self.root.sides()
    }

    /// The grid's number.
    pub(crate) fn d(&self) -> i64
        ensures value { result ≡ self.now.d }
        ensures asked { IsAsked self.now }
    {
        self.grid.d
    }

    /// The precision.
    pub(crate) fn w(&self) -> u32
        ensures value { result ≡ self.now.w }
        ensures asked { IsAsked self.now }
    {
        self.w
    }

    /// The greatest size among the grid's number and the root's ends, from 1 to 2^62 - 1.
    pub(crate) fn greatest(&self) -> u128
        ensures value { result ≡ greatest_size self.now.d self.now.root }
        ensures asked { IsAsked self.now }
    {
        self.greatest
    }
}
