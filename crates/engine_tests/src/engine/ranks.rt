//! Tests of ranks by stages.

use crate::cells::each_row;
use crate::engine::roots::{Engine, Lanes, Root, find_text};
use robust_rank::attract;
use std::alloc::Global;
use std::string::String;
use test_cells::{Teller, Unreported};

/// What stands before the choices of states 2 and 3: state 0 has two choices that lead to the goal
/// state 1, and a third that stays.
const HEAD: &str = "@type: MDP;@parameters;p;@model;\
state 0 init;action a;0 : 1;action b;1 : p;0 : 1-p;action c;1 : 1;state 1 goal;action a;1 : 1";

/// For p from 1/4 to 3/4, all choices allowed: the choices of states 2 and 3, the ranks and the choices. A
/// state that only stays has no rank. One stage doesn't see what else it adds: state 3 leads to state 2,
/// which leads to state 0 in turn. A choice that leads to lower ranks at p = 1/4 alone ranks nothing; where what it
/// leads to else has a rank, it ranks by that. Two states that lead to each other have ranks as any others.
const STAGES: &str = "\
action a;2 : 1;state 3;action a;0 : 1/2;2 : 1/2 | [1, 0, 4294967295, 2]; [1, 4294967295, 4294967295, 0]
action a;0 : 1;state 3;action a;2 : 1/9;3 : 8/9 | [1, 0, 2, 3]; [1, 4294967295, 0, 0]
action a;2 : 1;action b;1 : 3/4-p;2 : 1/4+p;state 3;action a;3 : 1 | [1, 0, 4294967295, 4294967295]; [1, 4294967295, 4294967295, 4294967295]
action a;0 : 1;state 3;action a;0 : 3/4-p;2 : 1/4+p | [1, 0, 2, 3]; [1, 4294967295, 0, 0]
action a;0 : 1;state 3;action a;2 : 3/4-p;0 : 1/4+p | [1, 0, 2, 2]; [1, 4294967295, 0, 0]
action a;2 : 1;state 3;action a;0 : 3/4-p;2 : 1/4+p | [1, 0, 4294967295, 4294967295]; [1, 4294967295, 4294967295, 4294967295]
action a;3 : 1/2;0 : 1/2;state 3;action a;2 : 1 | [1, 0, 2, 3]; [1, 4294967295, 0, 0]";

/// The ranks and choices by stages, all choices allowed: a lane that is made allows them.
struct ByStages;

impl Engine for ByStages {
    type Found = String;

    fn find(&self, alloc: Global, root: Root, lanes: &mut Lanes) -> Result<String, Unreported> {
        attract(
            root.case,
            root.links,
            root.weights,
            &lanes.allowed,
            &mut lanes.ranks,
            &mut lanes.picks,
        );
        shown(alloc, &lanes.ranks, &lanes.picks)
    }
}

/// Ranks and choices as they are shown.
fn shown(alloc: Global, ranks: &[u32], picks: &[u32]) -> Result<String, Unreported> {
    Ok(format!(in alloc; "{ranks:?}; {picks:?}")?)
}

struct Stages;

impl Teller for Stages {
    type Reported = String;

    type Error = Unreported;

    fn tell(&self, alloc: Global, asked: &str) -> Result<String, Unreported> {
        let text = format!(in alloc; "{HEAD};state 2;{asked}")?;
        find_text(alloc, &text, b"1/4<=p<=3/4", 4, &ByStages)
    }
}

#[test]
fn ranks_by_stages(rt: HostRuntime) {
    each_row(&rt, rt.alloc(), STAGES, &Stages);
}
