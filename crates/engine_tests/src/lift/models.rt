//! Tests of models.

use crate::cells::each_row;
use crate::example::model_of;
use lift_model::{Kind, Model, plans_over_one_choice};
use std::alloc::Global;
use std::string::String;
use test_cells::{Teller, Unreported, count};

/// A coin that may be turned: from state 0 to the goal 1 with p or with 1 - p.
const TURNED: &str = "@type: MDP;@parameters;p;@model;state 0 init;action a;1 : p;2 : 1-p;\
action b;1 : 1-p;2 : p;state 1 goal;action a;1 : 1;state 2;action a;2 : 1";

/// A state, whether it is a goal state, and how many choices it has.
const STATES: &str = "\
0 | false, 2
1 | true, 1
2 | false, 1";

/// What the model tells of a state.
fn state_reported(alloc: Global, model: &Model, state: u32) -> Result<String, Unreported> {
    if state >= model.states() {
        return Err(Unreported::Cell);
    }
    let (is_goal, choices) = (model.is_goal(state), model.choices(state));
    Ok(format!(in alloc; "{is_goal}, {choices}")?)
}

struct States;

impl Teller for States {
    type Reported = String;

    type Error = Unreported;

    fn tell(&self, alloc: Global, asked: &str) -> Result<String, Unreported> {
        let model = model_of(alloc, TURNED)?;
        let reported = state_reported(alloc, &model, count(asked));
        drop(model);
        reported
    }
}

/// Whether the second row of state 0 has these parts.
fn has_row(model: &Model) -> bool {
    if model.states() != 3 || model.choices(0) < 2 {
        return false;
    }
    let row = model.row(0, 1);
    let entries = row.entries();
    if row.support() != 1 || entries.len() != 2 {
        return false;
    }
    entries[0].target == 1 && entries[0].poly.len() == 2
}

/// Whether the model has these parts.
fn has_parts(model: &Model) -> bool {
    let is_process = model.kind() == Kind::Mdp && model.names().len() == 1 && model.live() == 1;
    is_process && model.common() == 1 && model.init() == 0
}

/// The same of the model and its row.
fn has_all(alloc: Global) -> Result<bool, Unreported> {
    let model = model_of(alloc, TURNED)?;
    let has_all = has_parts(&model) && has_row(&model);
    drop(model);
    Ok(has_all)
}

#[test]
fn tells_its_parts(rt: HostRuntime) {
    plans_over_one_choice();
    assert!(rt; matches!(has_all(rt.alloc()), Ok(true)));
    each_row(&rt, rt.alloc(), STATES, &States);
}
