//! What is found on the collapsed model of a case, rectangle by rectangle.

ghost use Rattle.std.specs.Prelude.{◌≡◌, length, map, IsTrue, IsFalse, IfOk, IfSome};
ghost use Rattle.lift_grid.specs.Rectangle.{Spans, spans_of};
ghost use Rattle.lift_model.specs.Links.{AreLinks};
ghost use Rattle.lift_model.specs.Model.{row_count};
ghost use Rattle.corner_lift.specs.Case.{AreSidesInside, IsCase, number};
ghost use Rattle.corner_lift.specs.Table.{IsTable};
ghost use Rattle.rounded_iter.specs.Watching.{IsLeastWithin};
ghost use Rattle.lower_cert.specs.Limit.{NoneIsAbove};
ghost use Rattle.lower_cert.specs.Lowering.{IsHigh};
ghost use Rattle.lift_collapse.specs.Collapse.{IsCollapse};
ghost use Rattle.lift_collapse.specs.Filled.{IsFilled};

use crate::build::collapse;
use crate::collapsed::Collapsed;
use crate::lanes::{Lanes, Rows};
use crate::laws::collapses_spread;
use crate::sought::Sought;
use corner_lift::{Case, fill};
use lift_model::{Links, Model};
use std::alloc::{AllocError, Global};

/// The collapsed model of a case, with all that finding vectors on it takes.
#[derive(Drop)]
pub struct Collapse {
    collapsed: Collapsed,
    links: Links,
    weights: Vec<i128>,
    lanes: Lanes,
    /// Whether each state of the collapsed model has one choice.
    is_chain: bool,
}

impl std::marker::Model for Collapse {
    ghost use Rattle.std.specs.Prelude.{◌≡◌, length};
    ghost use Rattle.lift_model.specs.Links.{AreLinks};
    ghost use Rattle.lift_collapse.specs.Filled.{LinkedCollapse};
    ghost use Rattle.lift_collapse.specs.Finding.{AreLanesFor};

    ghost Value = { LinkedCollapse };

    ghost view = { λ c. record { collapse = c.collapsed; links = c.links; weights = c.weights.items } };

    ghost invariant = { λ c. AreLinks c.collapsed.model c.links
        × (length c.weights.items ≡ c.links.weights)
        × AreLanesFor c.collapsed.model c.lanes };
}

/// How many rows the model has: as many as the number of its last row, and one.
fn row_count(model: &Model, links: &Links) -> usize
    requires { AreLinks model.now links.now }
    ensures { result ≡ row_count model.now }
{
    let last = model.states() - 1;
    links.row_place(last, model.choices(last) - 1) + 1
}

/// Makes the table of a rectangle of the case with this model in place of its own.
fn fill_over(case: &Case, model: &Model, links: &Links, sides: &[i64], weights: &mut [i128])
    requires case { IsCase (record case.now { model = model.now }) }
    requires links { AreLinks model.now links.now }
    requires sides { AreSidesInside case.now.root sides.now }
    requires size { length weights.old ≡ links.now.weights }
    ensures { IsTable (record case.now { model = model.now }) links.now (spans_of sides.now) weights.new }
{
    let case = Case::new(model, case.root(), case.grid(), case.w());
    fill(&case, links, sides, weights);
}

/// Reads a vector of a collapsed model at the places of the whole one's states.
fn spread(places: &[u32], values: &[i64], lane: &mut [i64])
    requires { length lane.old ≡ length places.now }
    ensures { lane.new ≡ map (number values.now) places.now }
{
    for s in 0..lane.len() {
        lane[s] = values.get(places[s] as usize).copied().unwrap_or(0);
    }
}

impl Collapse {
    /// Collapses a model. None: too little would be gained. Takes memory, and a time nearly linear in the
    /// model's size.
    pub fn build(
        alloc: Global,
        model: &Model,
        links: &Links,
    ) -> Result<Option<Collapse>, AllocError>
        requires { AreLinks model.now links.now }
        ensures { IfOk result (λ found. IfSome found (λ c. IsCollapse model.now c.collapse)) }
    {
        let Some(collapsed) = collapse(alloc, model, links)? else {
            return Ok(None);
        };
        let links = Links::build(alloc, &collapsed.model)?;
        let states = collapsed.model.states();
        let rows = row_count(&collapsed.model, &links);
        Ok(Some(Collapse {
            weights: vec![in alloc; 0i128; links.weights_len()]?,
            lanes: Lanes::zeros(alloc, states, rows)?,
            is_chain: rows == states as usize,
            collapsed,
            links,
        }))
    }

    /// Makes the table of a rectangle inside the root.
    pub fn fill(&mut self, case: &Case, sides: &[i64])
        requires collapse { IsCollapse case.now.model self.old.collapse }
        requires sides { AreSidesInside case.now.root sides.now }
        ensures collapse { self.new.collapse ≡ self.old.collapse }
        ensures filled { IsFilled case.now (spans_of sides.now) self.new }
    {
        collapses_spread();
        let _ = case.model();
        fill_over(
            case,
            &self.collapsed.model,
            &self.links,
            sides,
            &mut self.weights,
        );
    }

    /// Whether an upper vector of the rectangle exists whose number of the initial state is within the limit.
    /// Then the least one is left in `lane`, of which it is free what it holds at entry.
    pub fn least_upper_within(&mut self, case: &Case, limit: i64, lane: &mut [i64]) -> bool
        ghost spans: { Spans }
        requires filled { IsFilled case.now spans self.old }
        requires size { length lane.old ≡ length case.now.model.states }
        ensures same { self.new ≡ self.old }
        ensures size { length lane.new ≡ length lane.old }
        ensures least { IsLeastWithin case.now spans limit lane.new result }
    {
        collapses_spread();
        let _ = case.model();
        let inner = Case::new(&self.collapsed.model, case.root(), case.grid(), case.w());
        let rows = Rows {
            case: &inner,
            links: &self.links,
            weights: &self.weights,
        };
        let within = self.lanes.least_upper_within(&rows, limit);
        if within {
            spread(&self.collapsed.places, &self.lanes.values, lane);
        }
        within
    }

    /// Whether a lower vector of the rectangle exists whose number of the initial state is above the limit.
    /// Then a vector at or above each lower vector is left in `lane`: the numbers of the greatest one, but
    /// that isn't promised. What `lane` holds at entry is free.
    pub fn lower_above(&mut self, case: &Case, limit: i64, lane: &mut [i64]) -> bool
        ghost spans: { Spans }
        requires filled { IsFilled case.now spans self.old }
        requires size { length lane.old ≡ length case.now.model.states }
        ensures same { self.new ≡ self.old }
        ensures size { length lane.new ≡ length lane.old }
        ensures high { IsTrue result → IsHigh case.now spans lane.new }
        ensures none { IsFalse result → NoneIsAbove case.now spans limit }
    {
        collapses_spread();
        let _ = case.model();
        let inner = Case::new(&self.collapsed.model, case.root(), case.grid(), case.w());
        let rows = Rows {
            case: &inner,
            links: &self.links,
            weights: &self.weights,
        };
        let above = self.lanes.lower_above(&rows, limit, self.is_chain);
        if above {
            spread(&self.collapsed.places, &self.lanes.values, lane);
        }
        above
    }

    /// Leaves in `lane` a guess of the vector of the rectangle that is sought: that of the collapsed model, or where the
    /// initial state's number in it passes the limit, what was found of it up to there. Nothing is promised of it. What
    /// `lane` holds at entry is free.
    pub fn guess(&mut self, case: &Case, sought: Sought, limit: i64, lane: &mut [i64])
        ghost spans: { Spans }
        requires filled { IsFilled case.now spans self.old }
        requires size { length lane.old ≡ length case.now.model.states }
        ensures same { self.new ≡ self.old }
        ensures size { length lane.new ≡ length lane.old }
    {
        collapses_spread();
        let _ = case.model();
        let inner = Case::new(&self.collapsed.model, case.root(), case.grid(), case.w());
        let rows = Rows {
            case: &inner,
            links: &self.links,
            weights: &self.weights,
        };
        self.lanes.guess(&rows, sought, limit);
        spread(&self.collapsed.places, &self.lanes.values, lane);
    }
}
