//! Tests of links.

ghost use Rattle.std.specs.Prelude.{◌<◌};
ghost use Rattle.lift_model.specs.Links.{AreLinks, HasChoice, state_count};

use crate::cells::each_row;
use crate::example::model_of;
use lift_model::{Links, Model};
use std::alloc::{AllocError, Global};
use std::fmt::Write;
use std::string::String;
use test_cells::{Teller, Unreported, count};

/// A process with rows that have the same polynomials, one that differs in a coefficient of each entry,
/// states with a self loop, and one that nothing leads to.
const LINKED: &str = "@type: MDP;@parameters;p q;@model;state 0 init;action a;1 : p;2 : 1-p;\
action b;2 : p;3 : 1-p;state 1 goal;action a;1 : 1;state 2;action a;1 : q;2 : 1-q;\
action b;0 : p;3 : 1-p;action c;1 : 1/2*p;2 : 1-1/2*p;state 3;action a;3 : 1;\
state 4;action a;0 : 1";

/// For each state the states before it, their positions and its own, whether all of them stand behind it,
/// the numbers of its rows, where their weights begin, and their targets.
const REPORTED: &str = "\
0 | [2, 4] [2, 4] 3 false; 0 0 [1, 2] 1 0 [2, 3]
1 | [0, 1, 2] [3, 0, 2] 0 true; 2 4 [1]
2 | [0, 2] [3, 2] 2 true; 3 5 [1, 2] 4 0 [0, 3] 5 9 [1, 2]
3 | [0, 2, 3] [3, 2, 1] 1 true; 6 4 [3]
4 | [] [] 4 true; 7 4 [0]";

/// Tells what the links do of a state.
fn tell_state(reported: &mut String, links: &Links, s: u32) -> Result<(), AllocError>
    requires { s < state_count links.now }
{
    let before = links.before(s);
    let positions = links.positions_before(s);
    let position = links.position(s);
    let lone = links.is_lone(s);
    write!(reported, "{before:?} {positions:?} {position} {lone};")
}

/// Tells what the links do of a row.
fn tell_row(
    reported: &mut String,
    model: &Model,
    links: &Links,
    s: u32,
    a: u32,
) -> Result<(), AllocError>
    requires links { AreLinks model.now links.now }
    requires row { HasChoice model.now s a }
{
    let number = links.row_place(s, a);
    let weights = links.weight_place(s, a);
    let targets = links.targets(links.place(s, a));
    write!(reported, " {number} {weights} {targets:?}")
}

/// Tells what the links do of a state, which has as many places as choices, and of its rows.
fn tell_all(reported: &mut String, model: &Model, links: &Links, s: u32) -> Result<(), Unreported>
    requires { AreLinks model.now links.now }
{
    if s >= model.states() || links.places(s).len() != model.choices(s) as usize {
        return Err(Unreported::Cell);
    }
    tell_state(reported, links, s)?;
    for a in 0..model.choices(s) {
        tell_row(reported, model, links, s, a)?;
    }
    Ok(())
}

/// The same as a text.
fn reported_by(alloc: Global, model: &Model, links: &Links, s: u32) -> Result<String, Unreported>
    requires { AreLinks model.now links.now }
{
    let mut reported = String::new(alloc);
    tell_all(&mut reported, model, links, s)?;
    Ok(reported)
}

/// The same by links that are built.
fn reported_of(alloc: Global, model: &Model, s: u32) -> Result<String, Unreported> {
    let links = Links::build(alloc, model)?;
    let reported = reported_by(alloc, model, &links, s);
    drop(links);
    reported
}

struct Linked;

impl Teller for Linked {
    type Reported = String;

    type Error = Unreported;

    fn tell(&self, alloc: Global, asked: &str) -> Result<String, Unreported> {
        let model = model_of(alloc, LINKED)?;
        let reported = reported_of(alloc, &model, count(asked));
        drop(model);
        reported
    }
}

/// Whether the links have 13 weights, four rows that are the first with their polynomials, and this order by components.
fn are_whole(links: &Links) -> bool {
    let has_sizes = links.weights_len() == 13 && links.firsts().len() == 4;
    let is_ordered = links.order() == [1, 3, 2, 0, 4].as_slice();
    has_sizes && is_ordered && links.component_ends() == [1, 2, 4, 4, 5].as_slice()
}

/// The same for a model.
fn builds_for(alloc: Global, model: &Model) -> Result<bool, Unreported> {
    let links = Links::build(alloc, model)?;
    let are_whole = are_whole(&links);
    drop(links);
    Ok(are_whole)
}

/// The same for the model of the text.
fn builds_whole(alloc: Global) -> Result<bool, Unreported> {
    let model = model_of(alloc, LINKED)?;
    let answer = builds_for(alloc, &model);
    drop(model);
    answer
}

#[test]
fn links_states_and_rows(rt: HostRuntime) {
    assert!(rt; matches!(builds_whole(rt.alloc()), Ok(true)));
    each_row(&rt, rt.alloc(), REPORTED, &Linked);
}
