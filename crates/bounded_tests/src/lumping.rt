//! Chains that are lumped: the blocks of their states, and the rows of the quotient.

ghost use Rattle.std.specs.Prelude.{◌≡◌, ◌<◌, ◌≤◌, ℕ, true, length};
ghost use Rattle.lift_model.specs.Model.{is_goal, row_at};
ghost use Rattle.lift_lump.specs.Laws.{GoalsHaveEntries};

use crate::cells::each_row;
use lift_lump::{Lumped, lump};
use lift_model::Model;
use std::alloc::{AllocError, Global};
use std::string::String;
use test_cases::model_of;
use test_cells::{Teller, Unreported};

/// A die that is thrown with a coin: all its faces but one behave alike.
const DIE: &[u8] = b"@type: DTMC\n@parameters\np\n@model\nstate 0 init\n1 : p\n2 : 1-p\n\
state 1\n3 : p\n4 : 1-p\nstate 2\n5 : p\n6 : 1-p\nstate 3\n1 : p\n7 : 1-p\nstate 4\n8 : p\n9 : 1-p\n\
state 5\n10 : p\n11 : 1-p\nstate 6\n2 : p\n12 : 1-p\nstate 7 goal\n7 : 1\nstate 8\n8 : 1\n\
state 9\n9 : 1\nstate 10\n10 : 1\nstate 11\n11 : 1\nstate 12\n12 : 1\n";

/// Two states that behave alike.
const PAIR: &[u8] = b"@type: DTMC\n@parameters\np q\n@model\nstate 0 init\n1 : 1/2\n2 : 1/2\n\
state 1\n3 : p\n4 : 1-p\nstate 2\n3 : p\n4 : 1-p\nstate 3 goal\n3 : 1\nstate 4\n4 : 1\n";

/// Two states that differ in one parameter.
const OTHER: &[u8] = b"@type: DTMC\n@parameters\np q\n@model\nstate 0 init\n1 : 1/2\n2 : 1/2\n\
state 1\n3 : p\n4 : 1-p\nstate 2\n3 : q\n4 : 1-q\nstate 3 goal\n3 : 1\nstate 4\n4 : 1\n";

/// Three states that no mark tells apart: the goal's parts are once, twice and three times 6940611991 + 637291485p.
const MARKS: &[u8] =
    b"@type: DTMC\n@parameters\np\n@model\nstate 0 init\n1 : 1/4\n2 : 1/4\n3 : 1/2\n\
state 1\n4 : 6940611991/45467420856+637291485/45467420856*p\n5 : 38526808865/45467420856-637291485/45467420856*p\n\
state 2\n4 : 13881223982/45467420856+1274582970/45467420856*p\n5 : 31586196874/45467420856-1274582970/45467420856*p\n\
state 3\n4 : 20821835973/45467420856+1911874455/45467420856*p\n5 : 24645584883/45467420856-1911874455/45467420856*p\n\
state 4 goal\n4 : 1\nstate 5\n5 : 1\n";

/// Five states; a split touches all states of two blocks in turn.
const TURNS: &[u8] =
    b"@type: DTMC\n@parameters\np\n@model\nstate 0\n1 : 1/2\n3 : 1/2\nstate 1\n0 : 1/2\n4 : 1/2\n\
state 2 init\n3 : 1/2\n4 : 1/2\nstate 3 goal\n2 : 1/2\n0 : 1/2\nstate 4\n2 : 1/2\n4 : 1/2\n";

/// Entries that lead into one block: they sum to 1, and to 0.
const CANCELLED: &[u8] = b"@type: DTMC\n@parameters\np\n@model\nstate 0 init\n1 : p\n2 : 1-p\n\
state 1\n3 : 1\nstate 2\n3 : 1\nstate 3 goal\n3 : 1\n";

/// A decision process.
const PROCESS: &[u8] = b"@type: MDP\n@parameters\np\n@model\nstate 0 init\n\
action a\n1 : p\n0 : 1-p\naction b\n1 : 1\nstate 1 goal\n1 : 1\n";

/// The text of that name.
fn text_of(name: &str) -> &'static [u8] {
    match name {
        "DIE" => DIE,
        "PAIR" => PAIR,
        "OTHER" => OTHER,
        "MARKS" => MARKS,
        "TURNS" => TURNS,
        "CANCELLED" => CANCELLED,
        _ => PROCESS,
    }
}

/// Whether each goal state has an entry.
fn goals_have_entries(model: &Model) -> bool
    ensures { result ≡ true → GoalsHaveEntries model.now }
{
    let _common = model.common();
    for s in 0..model.states() {
        if model.is_goal(s) && model.row(s, 0).entries().is_empty() {
            return false;
        }
    }
    true
}

/// The blocks of so many states.
fn blocks_shown(alloc: Global, lumped: &Lumped, states: u32) -> Result<String, AllocError>
    requires { states ≤ length lumped.now.blocks.of_states }
{
    let mut blocks = Vec::new(alloc);
    for s in 0..states {
        blocks.push(lumped.block(s))?;
    }
    format!(in alloc; "{blocks:?}")
}

/// The blocks of a chain's states, or why it isn't lumped.
fn blocks_reported(alloc: Global, model: &Model) -> Result<String, AllocError>
    requires { GoalsHaveEntries model.now }
{
    match lump(alloc, model) {
        Ok(lumped) => {
            let blocks = blocks_shown(alloc, &lumped, model.states());
            drop(lumped);
            blocks
        }
        Err(cause) => format!(in alloc; "{cause:?}"),
    }
}

/// The same of any chain whose goal states have entries.
fn reported_of(alloc: Global, model: &Model) -> Result<String, Unreported> {
    if !goals_have_entries(model) {
        return Err(Unreported::Cell);
    }
    Ok(blocks_reported(alloc, model)?)
}

struct Blocks;

impl Teller for Blocks {
    type Reported = String;

    type Error = Unreported;

    fn tell(&self, alloc: Global, asked: &str) -> Result<String, Unreported> {
        let model = model_of(alloc, text_of(asked), b"goal")?;
        let reported = reported_of(alloc, &model);
        drop(model);
        reported
    }
}

/// A chain, and the block of each state.
const LUMPED: &str = "\
DIE | [0, 1, 2, 3, 2, 2, 2, 4, 2, 2, 2, 2, 2]
PAIR | [0, 1, 1, 2, 3]
OTHER | [0, 1, 2, 3, 4]
MARKS | [0, 1, 2, 3, 4, 5]
TURNS | [0, 1, 0, 2, 1]
CANCELLED | [0, 1, 1, 2]";

#[test]
fn states_of_equal_behaviour_are_one_block(rt: HostRuntime) {
    each_row(&rt, rt.alloc(), LUMPED, &Blocks);
}

/// A decision process, and why it isn't lumped.
const REFUSED: &str = "PROCESS | NotChain";

#[test]
fn a_decision_process_is_refused(rt: HostRuntime) {
    each_row(&rt, rt.alloc(), REFUSED, &Blocks);
}
