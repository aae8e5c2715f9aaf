//! What is found on the table of a case's root, in lanes that are made once and lent.

ghost use Rattle.std.specs.Prelude.{◌≡◌, ◌≤◌, ℕ, length, OnOk};
ghost use Rattle.lift_grid.specs.Rectangle.{spans_of, sides_of};
ghost use Rattle.lift_model.specs.Model.{row_count};
ghost use Rattle.lift_model.specs.Links.{AreLinks};
ghost use Rattle.corner_lift.specs.Case.{most_precision};
ghost use Rattle.corner_lift.specs.Table.{IsTable};
ghost use Rattle.engine_tests.specs.Lane.{AreLanes};

use crate::example::{ask_text, table_of};
use corner_lift::Case;
use lift_model::{Links, Model};
use std::alloc::{AllocError, Global};
use test_cases::{Asker, Scope, ask_over};
use test_cells::Unreported;

/// A case with what is looked up of its model, and the table of its root.
#[derive(Clone, Copy)]
pub(crate) struct Root<'r> {
    pub(crate) case: &'r Case<'r>,
    pub(crate) links: &'r Links,
    pub(crate) weights: &'r [i128],
}

/// Lanes for what is found. What they hold at first is of no account.
#[derive(Drop)]
pub(crate) struct Lanes {
    pub(crate) numbers: Vec<i64>,
    pub(crate) others: Vec<i64>,
    pub(crate) ranks: Vec<u32>,
    pub(crate) picks: Vec<u32>,
    pub(crate) work: Vec<u32>,
    pub(crate) allowed: Vec<u32>,
}

/// What finds something on the table of a case's root.
pub(crate) trait Engine {
    type Found;

    /// What is found, in lanes that are lent.
    fn find(&self, alloc: Global, root: Root, lanes: &mut Lanes) -> Result<Self::Found, Unreported>
        requires links { AreLinks root.case.now.model root.links.now }
        requires table { IsTable root.case.now root.links.now (spans_of (sides_of root.case.now.root)) root.weights.now }
        requires lanes { AreLanes (length root.case.now.model.states) (row_count root.case.now.model)
            lanes.old.numbers.items lanes.old.others.items
            lanes.old.ranks.items lanes.old.picks.items lanes.old.work.items lanes.old.allowed.items };
}

/// Lanes without a place.
fn no_lanes(alloc: Global) -> Lanes {
    Lanes {
        numbers: Vec::new(alloc),
        others: Vec::new(alloc),
        ranks: Vec::new(alloc),
        picks: Vec::new(alloc),
        work: Vec::new(alloc),
        allowed: Vec::new(alloc),
    }
}

/// Makes the lanes as long as so many states and rows need them.
fn lay_out(lanes: &mut Lanes, states: u32, rows: usize) -> Result<(), AllocError>
    ensures { OnOk result (AreLanes states rows lanes.new.numbers.items lanes.new.others.items
        lanes.new.ranks.items lanes.new.picks.items lanes.new.work.items lanes.new.allowed.items) }
{
    let states = states as usize;
    lanes.numbers.resize(states, 8)?;
    lanes.others.resize(states, 8)?;
    lanes.ranks.resize(states, 7)?;
    lanes.picks.resize(states, 7)?;
    lanes.work.resize(2 * states, 7)?;
    lanes.allowed.resize(rows, 7)
}

/// How many rows the model has: as many as the number of its last row, and one.
fn rows_of(model: &Model, links: &Links) -> usize
    requires { AreLinks model.now links.now }
    ensures { result ≡ row_count model.now }
{
    let last = model.states() - 1;
    links.row_place(last, model.choices(last) - 1) + 1
}

/// What is found in lanes that are laid out.
fn find_in_lanes<E: Engine>(
    alloc: Global,
    root: Root,
    engine: &E,
    lanes: &mut Lanes,
) -> Result<E::Found, Unreported>
    requires links { AreLinks root.case.now.model root.links.now }
    requires table { IsTable root.case.now root.links.now (spans_of (sides_of root.case.now.root)) root.weights.now }
{
    let model = root.case.model();
    lay_out(lanes, model.states(), rows_of(model, root.links))?;
    engine.find(alloc, root, lanes)
}

/// What is found in lanes that are made.
fn find_on_root<E: Engine>(alloc: Global, root: Root, engine: &E) -> Result<E::Found, Unreported>
    requires links { AreLinks root.case.now.model root.links.now }
    requires table { IsTable root.case.now root.links.now (spans_of (sides_of root.case.now.root)) root.weights.now }
{
    let mut lanes = no_lanes(alloc);
    let found = find_in_lanes(alloc, root, engine, &mut lanes);
    drop(lanes);
    found
}

/// What is found by the links of a case.
fn find_by_links<E: Engine>(
    alloc: Global,
    case: &Case,
    links: &Links,
    engine: &E,
) -> Result<E::Found, Unreported>
    requires { AreLinks case.now.model links.now }
{
    let weights = table_of(alloc, case, links)?;
    let root = Root {
        case: &*case,
        links: &*links,
        weights: &weights,
    };
    find_on_root(alloc, root, engine)
}

/// An engine that is asked on the root of a case.
#[derive(Drop)]
struct OnRoot<'e, E> {
    engine: &'e E,
}

impl<E: Engine> Asker for OnRoot<'_, E> {
    type Reported = E::Found;

    fn ask(&self, alloc: Global, case: &Case) -> Result<E::Found, Unreported> {
        let links = Links::build(alloc, case.model())?;
        let found = find_by_links(alloc, case, &links, self.engine);
        drop(links);
        found
    }
}

/// What is found on the root of a model over a region, at that precision.
pub(crate) fn find_over<E: Engine>(
    alloc: Global,
    model: &Model,
    region: &[u8],
    w: u32,
    engine: &E,
) -> Result<E::Found, Unreported>
    requires low { 1 ≤ w }
    requires high { w ≤ most_precision }
{
    let scope = Scope {
        region,
        depth: 0,
        w,
    };
    ask_over(alloc, model, scope, &OnRoot { engine })
}

/// The same of the model of a text.
pub(crate) fn find_text<E: Engine>(
    alloc: Global,
    lines: &str,
    region: &[u8],
    w: u32,
    engine: &E,
) -> Result<E::Found, Unreported>
    requires low { 1 ≤ w }
    requires high { w ≤ most_precision }
{
    ask_text(alloc, lines, region, w, &OnRoot { engine })
}
