//! Tests of least priced vectors.

ghost use Rattle.std.specs.Prelude.{◌≤◌};
ghost use Rattle.corner_lift.specs.Case.{most_precision};

use crate::cells::each_row;
use crate::engine::roots::{Engine, Lanes, Root, find_over};
use crate::example::lines_of;
use corner_lift::Lifted;
use drn_read::read_costs;
use float_guess::Rewards;
use lift_costs::Costs;
use lift_model::Model;
use rounded_iter::least_priced;
use std::alloc::{AllocError, Global};
use std::string::String;
use test_cells::{Teller, Unreported, count, cut_three, first_word};

/// The choices of state 0 and of a state 3, if there is one; the costs of the states 0, 1, 2, the goal being 1, and that
/// of state 3 with its line; the precision; the cap; and the least priced vector for p from 2/5 to 3/5, or `none`.
///
/// A coin that is thrown again in one half of the cases: 4 of 16 stand for a throw, and there are two. The same where one
/// may stay for ever. A coin with p that is thrown until it shows heads: 4 over 2/5 is 10. A third of 16 over 4 is 1 and a
/// third, and 2 with it. What costs the whole cap, and more than it. Costs that come to the whole cap, and to more.
/// The dearer of two choices, and what the goal itself costs is of no account. A cycle that is left in one half of the
/// cases: 1 and 1 more, twice. A cycle that is left with 1/1000: 525, and so 1,000 times as much.
const COSTS: &str = "\
action a;0 : 1/2;1 : p/2;2 : 1/2-p/2 | 1 0 0 | 4 | 4 | [8, 0, 0]
action a;0 : 1/2;1 : p/2;2 : 1/2-p/2;action b;0 : 1 | 1 0 0 | 4 | 4 | none
action a;0 : 1-p;1 : p | 1 0 0 | 4 | 4 | [10, 0, 0]
action a;1 : 1 | 1/3 0 0 | 4 | 4 | [2, 0, 0]
action a;1 : 1 | 4 0 0 | 4 | 4 | [16, 0, 0]
action a;1 : 1 | 5 0 0 | 4 | 4 | none
action a;3 : 1 / action a;1 : 1 | 3 0 0 1 | 4 | 4 | [16, 0, 0, 4]
action a;3 : 1 / action a;1 : 1 | 4 0 0 1 | 4 | 4 | none
action a;1 : 1;action b;3 : 1 / action a;1 : 1 | 1 7 0 2 | 4 | 8 | [6, 0, 0, 4]
action a;3 : 1 / action a;0 : 1/2;1 : 1/2 | 1 0 0 1 | 4 | 16 | [4, 0, 0, 3]
action a;3 : 999/1000;1 : 1/1000 / action a;0 : 1 | 1 0 0 0 | 20 | 2000 | [525000, 0, 0, 525000]";

/// The least priced vector for these costs and this cap.
#[derive(Drop)]
struct Priced {
    costs: Costs,
    cap: u32,
}

impl Engine for Priced {
    type Found = String;

    fn find(&self, alloc: Global, root: Root, lanes: &mut Lanes) -> Result<String, Unreported> {
        let rows = Lifted::new(root.case, root.links, root.weights);
        if self.cap == 0 {
            return Err(Unreported::Cell);
        }
        let rewards = Rewards {
            costs: &self.costs,
            cap: self.cap,
        };
        let is_found = least_priced(&rows, &rewards, &mut lanes.numbers, &mut lanes.work);
        shown(alloc, is_found, &lanes.numbers)
    }
}

/// A vector as it is shown, where one was found.
fn shown(alloc: Global, is_found: bool, numbers: &[i64]) -> Result<String, Unreported> {
    if !is_found {
        return Ok(format!(in alloc; "none")?);
    }
    Ok(format!(in alloc; "{numbers:?}")?)
}

/// The text of a process with rewards, of the choices of its initial state 0 and those of a state 3, if there is one, and of
/// their costs. State 1 is the goal, and state 2 is never left.
fn text_of(alloc: Global, choices: &str, costs: &str) -> Result<String, AllocError> {
    let (first, last) = choices.split_once(" / ").unwrap_or((choices, ""));
    let (zero, costs) = first_word(costs);
    let (one, costs) = first_word(costs);
    let (two, three) = first_word(costs);
    let (open, close) = if three.is_empty() {
        ("", "")
    } else {
        (";state 3 [", "];")
    };
    format!(in alloc;
        "@type: MDP;@parameters;p;@reward_models;steps;@model;state 0 [{zero}] init;{first};state 1 [{one}] goal;action a;1 : 1;state 2 [{two}];action a;2 : 1{open}{three}{close}{last}"
    )
}

/// A model and its costs, as far as the text is short enough to be read.
fn read(alloc: Global, text: &[u8]) -> Result<(Model, Costs), Unreported> {
    if text.len() >= 1 << 31 {
        return Err(Unreported::Text(0));
    }
    match read_costs(alloc, text, b"goal", b"steps") {
        Ok(read) => Ok(read),
        Err(error) => Err(Unreported::Text(error.line)),
    }
}

/// What is found for a text and that cap, at that precision.
fn priced_of(alloc: Global, text: &[u8], w: u32, cap: u32) -> Result<String, Unreported>
    requires low { 1 ≤ w }
    requires high { w ≤ most_precision }
{
    let (model, costs) = read(alloc, text)?;
    let priced = Priced { costs, cap };
    let found = find_over(alloc, &model, b"2/5<=p<=3/5", w, &priced);
    drop(priced);
    drop(model);
    found
}

struct ByCost;

impl Teller for ByCost {
    type Reported = String;

    type Error = Unreported;

    fn tell(&self, alloc: Global, asked: &str) -> Result<String, Unreported> {
        let (choices, costs, w, cap) = cut_three(asked);
        let text = lines_of(alloc, &text_of(alloc, choices, costs)?)?;
        priced_of(alloc, &text, count(w).clamp(1, 20), count(cap))
    }
}

#[test]
fn finds_the_least_priced_vectors(rt: HostRuntime) {
    each_row(&rt, rt.alloc(), COSTS, &ByCost);
}
