//! Models and cases that tests give as texts. Texts are handed on as parameters, so that no proof computes what a text
//! stands for.
#![tactic(auto)]

ghost use Rattle.std.specs.Prelude.{◌≤◌, length, IfOk};
ghost use Rattle.lift_grid.specs.Rectangle.{IsOnGrid, most_halvings};
ghost use Rattle.corner_lift.specs.Case.{most_precision};

use corner_lift::Case;
use drn_read::read_model;
use lift_cert::Bound;
use lift_frac::{Frac, read_ratio};
use lift_grid::{Grid, Rect, read_region};
use lift_model::Model;
use lift_names::Names;
use lift_rows::admit;
use std::alloc::Global;
use test_cells::Unreported;

/// The model of a text, as far as it is short enough to be read; its goal states carry the label.
pub fn model_of(alloc: Global, text: &[u8], label: &[u8]) -> Result<Model, Unreported> {
    if text.len() >= 1 << 31 {
        return Err(Unreported::Text(0));
    }
    match read_model(alloc, text, label) {
        Ok(model) => Ok(model),
        Err(error) => Err(Unreported::Text(error.line)),
    }
}

/// The rectangle that a region's text names, over its grid.
pub fn root_of(
    alloc: Global,
    region: &[u8],
    names: &Names,
    depth: u32,
) -> Result<(Grid, Rect), Unreported>
    requires { depth ≤ most_halvings }
    ensures on_grid { IfOk result (λ p. IsOnGrid p.0.d p.0.depth (length names.now) p.1) }
    ensures depth { IfOk result (λ p. p.0.depth ≤ most_halvings) }
{
    match read_region(alloc, region, names, depth) {
        Ok(root) => Ok(root),
        Err(_) => Err(Unreported::Text(0)),
    }
}

/// The case of a model over a root, at that precision.
pub fn case_of<'m>(
    model: &'m Model,
    root: &'m Rect,
    grid: Grid,
    w: u32,
) -> Result<Case<'m>, Unreported>
    requires grid { IsOnGrid grid.d grid.depth (length model.now.names) root.now }
    requires depth { grid.depth ≤ most_halvings }
    requires low { 1 ≤ w }
    requires high { w ≤ most_precision }
{
    match admit(model, root, grid, w) {
        Ok(case) => Ok(case),
        Err(_) => Err(Unreported::Cell),
    }
}

/// What is asked of a case.
pub trait Asker {
    type Reported;

    /// What is told of the case.
    fn ask(&self, alloc: Global, case: &Case) -> Result<Self::Reported, Unreported>;
}

/// Where a model is asked: over the region of a text, on a grid for splits of that depth, at a precision.
#[derive(Clone, Copy)]
pub struct Scope<'r> {
    pub region: &'r [u8],
    pub depth: u32,
    pub w: u32,
}

/// What is told of the case of a model in a scope.
pub fn ask_over<A: Asker>(
    alloc: Global,
    model: &Model,
    scope: Scope<'_>,
    asker: &A,
) -> Result<A::Reported, Unreported>
    requires depth { scope.depth ≤ most_halvings }
    requires low { 1 ≤ scope.w }
    requires high { scope.w ≤ most_precision }
{
    let (grid, root) = root_of(alloc, scope.region, model.names(), scope.depth)?;
    let case = case_of(model, &root, grid, scope.w)?;
    asker.ask(alloc, &case)
}

/// The bound of a fraction from 0 to 1.
fn bound_by(fraction: Frac) -> Option<Bound> {
    let Frac { num, den } = fraction;
    if 0 <= num && num <= den && den < 1 << 32 {
        Some(Bound {
            num: num as u32,
            den: den as u32,
        })
    } else {
        None
    }
}

/// The bound that a cell writes.
pub fn bound_of(cell: &str) -> Result<Bound, Unreported> {
    read_ratio(cell).and_then(bound_by).ok_or(Unreported::Cell)
}
