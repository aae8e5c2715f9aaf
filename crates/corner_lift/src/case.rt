ghost use Rattle.std.specs.Prelude.{◌≡◌, ◌≤◌};
ghost use Rattle.lift_grid.specs.Parts.{region_of};
ghost use Rattle.corner_lift.specs.Case.{IsCase, AreSidesInside, case_of, at, greatest_depth};
ghost use Rattle.lift_grid.specs.Rectangle.{sides_of};

use crate::laws::lower_precisions_are_cases;
use lift_grid::{Grid, Rect};
use lift_model::Model;

/// A model with a rectangle of values for its parameters, the root, over a grid and at a precision `w`.
///
/// The root has a span for each declared parameter, and can be halved `depth` times, at most 20. The
/// grid's number is from 1 to 2^62 - 1, and the precision from 1 to 40. Each row's polynomials sum to
/// the common denominator, none weighs less than 0 at a corner of the root, and at most 4 parameters
/// occur in a row. No product or sum of a row's weights, on the root or on a rectangle inside it, has a
/// size of 2^126 or more.
#[derive(Drop)]
pub struct Case<'m> {
    model: &'m Model,
    root: &'m Rect,
    grid: Grid,
    w: u32,
}

impl<'m> std::marker::Model for Case<'m> {
    ghost use Rattle.lift_grid.specs.Parts.{region_of};
    ghost use Rattle.corner_lift.specs.Case.{CaseData, IsCase, case_of};

    ghost Value = { CaseData };

    ghost view = { λ c. case_of c.model.now (region_of (c.grid, c.root.now)) c.w };

    ghost invariant = { λ c. IsCase (case_of c.model.now (region_of (c.grid, c.root.now)) c.w) };
}

impl<'m> Case<'m> {
    /// The case of these parts. Takes no memory.
    pub fn new(model: &'m Model, root: &'m Rect, grid: Grid, w: u32) -> Case<'m>
        requires { IsCase (case_of model.now (region_of (grid, root.now)) w) }
        ensures { result ≡ case_of model.now (region_of (grid, root.now)) w }
    {
        Case {
            model,
            root,
            grid,
            w,
        }
    }

    /// The model.
    pub fn model(&self) -> &'m Model
        ensures value { result.now ≡ self.now.model }
        ensures case { IsCase self.now }
    {
        self.model
    }

    /// The root, which lies inside itself.
    pub fn root(&self) -> &'m Rect
        ensures value { result.now ≡ self.now.root }
        ensures case { IsCase self.now }
        ensures inside { AreSidesInside self.now.root (sides_of self.now.root) }
    {
        self.root
    }

    /// The grid, with the depth that was asked for.
    pub fn grid(&self) -> Grid
        ensures d { result.d ≡ self.now.d }
        ensures depth { result.depth ≡ self.now.depth }
        ensures case { IsCase self.now }
    {
        self.grid
    }

    /// The precision.
    pub fn w(&self) -> u32
        ensures value { result ≡ self.now.w }
        ensures case { IsCase self.now }
    {
        self.w
    }

    /// The same case at another precision, from 1 to its own. Takes no memory.
    pub fn at(&self, u: u32) -> Case<'m>
        requires positive { 1 ≤ u }
        requires most { u ≤ self.now.w }
        ensures { result ≡ at self.now u }
    {
        lower_precisions_are_cases();
        Case::new(self.model, self.root, self.grid, u)
    }

    /// The greatest depth of a rectangle: 0 where no parameter is live, and else the grid's depth. Linear
    /// in the number of the model's choices.
    pub fn greatest_depth(&self) -> u32
        ensures { result ≡ greatest_depth self.now }
    {
        if self.model.live() == 0 {
            0
        } else {
            self.grid.depth
        }
    }
}
