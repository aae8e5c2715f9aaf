//! Tests of the admission of rows.

ghost use Rattle.std.specs.Prelude.{◌≤◌, length};
ghost use Rattle.lift_grid.specs.Rectangle.{IsOnGrid, most_halvings};

use crate::cells::each_row;
use crate::example::{chain_of, model_of};
use lift_grid::{Grid, Rect};
use lift_model::Model;
use lift_rows::{RowError, admit, cases_have_distributions, first_fault_is_one};
use std::alloc::Global;
use std::string::String;
use test_cases::root_of;
use test_cells::{Teller, Unreported, cut};

/// The row of state 0, a region, and the first fault over it at depth 0 and precision 4.
const FAULTS: &str = "\
1 : p;2 : 1-p | 1/10<=p<=2/5,1/10<=q<=2/5 | Ok(())
1 : p;2 : 1-q | 1/10<=p<=2/5,1/10<=q<=2/5 | Err(RowSum { state: 0, choice: 0, set: 1, sum: 1 })
1 : 1;2 : 1 | 1/10<=p<=2/5,1/10<=q<=2/5 | Err(RowSum { state: 0, choice: 0, set: 0, sum: 2 })
1 : p;2 : 1-p | 1/2<=p<=3/2,1/2<=q<=3/2 | Err(Negative { state: 0, choice: 0, target: 2, corner: 1, weight: -1 })
0 : 1/10;1 : 1/2-p+q;2 : p-q+2/5 | 1/5<=p<=2/5,3/5<=q<=4/5 | Err(Negative { state: 0, choice: 0, target: 2, corner: 2, weight: -50 })
1 : p*q;2 : 1-p*q | 1/2305843009213693952<=p<=2/2305843009213693952,1/2305843009213693952<=q<=2/2305843009213693952 | \
    Err(TooWide { state: 0, choice: 0 })";

/// The first fault over a root.
fn first_fault(model: &Model, root: &Rect, grid: Grid) -> Result<(), RowError>
    requires grid { IsOnGrid grid.d grid.depth (length model.now.names) root.now }
    requires depth { grid.depth ≤ most_halvings }
{
    admit(model, root, grid, 4).map(|_| ())
}

/// The first fault, where what it says of its row is small.
fn shown(alloc: Global, answer: Result<(), RowError>) -> Result<String, Unreported> {
    match answer {
        Err(error) if error.row() != (0, 0) || error.number() > 4 => Err(Unreported::Cell),
        answer => Ok(format!(in alloc; "{answer:?}")?),
    }
}

/// The first fault of a model over a region.
fn fault_over(alloc: Global, model: &Model, region: &[u8]) -> Result<String, Unreported> {
    let (grid, root) = root_of(alloc, region, model.names(), 0)?;
    shown(alloc, first_fault(model, &root, grid))
}

/// The same of the model of a text.
fn fault_of(alloc: Global, lines: &str, region: &[u8]) -> Result<String, Unreported> {
    let model = model_of(alloc, lines)?;
    let fault = fault_over(alloc, &model, region);
    drop(model);
    fault
}

struct FirstFaults;

impl Teller for FirstFaults {
    type Reported = String;

    type Error = Unreported;

    fn tell(&self, alloc: Global, asked: &str) -> Result<String, Unreported> {
        let (entries, region) = cut(asked);
        let text = chain_of(alloc, entries)?;
        fault_of(alloc, &text, region.as_bytes())
    }
}

#[test]
fn tells_the_first_fault(rt: HostRuntime) {
    each_row(&rt, rt.alloc(), FAULTS, &FirstFaults);
    first_fault_is_one();
    cases_have_distributions();
}
