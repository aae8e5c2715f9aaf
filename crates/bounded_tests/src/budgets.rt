//! Trees for a budget, that are built.

ghost use Rattle.std.specs.Prelude.{◌≡◌, ◌≤◌, length};

use crate::cases::ask_over;
use crate::cells::each_row;
use corner_lift::Case;
use drn_read::read_costs;
use lift_cost::{Budget, CostBranch, CostTree, build};
use lift_costs::Costs;
use lift_model::{Links, Model};
use std::alloc::{AllocError, Global};
use std::fmt::Write;
use std::string::String;
use test_cases::{Asker, bound_of};
use test_cells::{Teller, Unreported, count, cut, cut_three};

/// A coin that is tossed again in half of the cases, and one that is tossed until it shows heads with p. A toss costs 1.
const TOSSED_AGAIN: &[u8] =
    b"@type: DTMC\n@parameters\np\n@reward_models\nsteps\n@model\nstate 0 [1] init\n0 : 1/2\n\
1 : 1/2*p\n2 : 1/2-1/2*p\nstate 1 heads\n1 : 1\nstate 2\n2 : 1\n";

const TILL_HEADS: &[u8] =
    b"@type: DTMC\n@parameters\np\n@reward_models\nsteps\n@model\nstate 0 [1] init\n0 : 1-p\n\
1 : p\nstate 1 heads\n1 : 1\n";

/// The same, where one may stay for ever, and pays for it.
const STAYS: &[u8] =
    b"@type: MDP\n@parameters\np\n@reward_models\nsteps\n@model\nstate 0 [1] init\naction toss\n\
1 : p\n0 : 1-p\naction stay\n0 : 1\nstate 1 heads\n1 : 1\n";

/// The model, its region, the depth, the cap, the budget as a part of the cap, and the tree in preorder at precision 4, a
/// bar behind it: 4 of 16 stand for a toss where the cap is 4. Two tosses are expected of the first coin, and 1/p of the
/// second: 5/2 at 2/5, and 5/3 at 3/5, so 7 of 16; at 1/5 it is more than the cap.
const BUDGETS: &str = "\
AGAIN | 1/5<=p<=2/5 | 0 | 4 | 1/2 | accept [8, 0, 0] |
AGAIN | 1/5<=p<=2/5 | 0 | 4 | 1/4 | unknown |
HEADS | 2/5<=p<=3/5 | 0 | 4 | 5/8 | accept [10, 0] |
HEADS | 1/5<=p<=1 | 1 | 4 | 1/2 | split 0 unknown accept [7, 0] |
STAYS | 3/5<=p<=9/10 | 0 | 4 | 1/1 | unknown |";

/// Tells a tree, each word with a blank behind it.
fn tell_tree(reported: &mut String, branch: &CostBranch) -> Result<(), AllocError> {
    match branch {
        CostBranch::Split { axis, lower, upper } => {
            write!(reported, "split {axis} ")?;
            tell_tree(reported, lower)?;
            tell_tree(reported, upper)
        }
        CostBranch::Accept { z } => write!(reported, "accept {:?} ", z.as_slice()),
        CostBranch::Unknown => reported.push_str("unknown "),
    }
}

/// A tree with a bar behind it.
fn shown(alloc: Global, branch: &CostBranch) -> Result<String, AllocError> {
    let mut reported = String::new(alloc);
    tell_tree(&mut reported, branch)?;
    reported.push('|')?;
    Ok(reported)
}

/// The text of that name.
fn text_of(name: &str) -> &'static [u8] {
    match name {
        "HEADS" => TILL_HEADS,
        "STAYS" => STAYS,
        _ => TOSSED_AGAIN,
    }
}

/// The model of a text, with its costs.
fn model_of(alloc: Global, text: &[u8]) -> Result<(Model, Costs), Unreported> {
    if text.len() >= 1 << 31 {
        return Err(Unreported::Text(0));
    }
    match read_costs(alloc, text, b"heads", b"steps") {
        Ok(read) => Ok(read),
        Err(error) => Err(Unreported::Text(error.line)),
    }
}

/// A budget that is so large a part of a cap.
fn budget_of(cap: u32, part: &str) -> Result<Budget, Unreported> {
    let part = bound_of(part)?;
    Ok(Budget {
        num: u64::from(cap) * u64::from(part.num),
        den: part.den,
    })
}

/// The tree of a case.
fn tree_of(
    alloc: Global,
    case: &Case,
    costs: &Costs,
    cap: u32,
    budget: Budget,
) -> Result<CostTree, AllocError>
    requires costs { length costs.now ≡ length case.now.model.states }
    requires cap { 1 ≤ cap }
{
    let links = Links::build(alloc, case.model())?;
    let tree = build(alloc, case, &links, costs, cap, budget);
    drop(links);
    tree
}

/// Costs, and the cells of a cap and of a budget.
#[derive(Clone, Copy)]
struct Within<'a> {
    costs: &'a Costs,
    cells: &'a str,
}

impl Asker for Within<'_> {
    type Reported = String;

    fn ask(&self, alloc: Global, case: &Case) -> Result<String, Unreported> {
        let (cap, part) = cut(self.cells);
        let cap = count(cap);
        let budget = budget_of(cap, part)?;
        if cap < 1 || self.costs.len() != case.model().states() as usize {
            return Err(Unreported::Cell);
        }
        let tree = tree_of(alloc, case, self.costs, cap, budget)?;
        let reported = shown(alloc, tree.top());
        drop(tree);
        Ok(reported?)
    }
}

struct Budgets;

impl Teller for Budgets {
    type Reported = String;

    type Error = Unreported;

    fn tell(&self, alloc: Global, asked: &str) -> Result<String, Unreported> {
        let (name, region, depth, cells) = cut_three(asked);
        let (model, costs) = model_of(alloc, text_of(name))?;
        let within = Within {
            costs: &costs,
            cells,
        };
        let reported = ask_over(alloc, &model, region, count(depth), &within);
        drop(costs);
        drop(model);
        reported
    }
}

#[test]
fn builds_the_tree_for_a_budget(rt: HostRuntime) {
    each_row(&rt, rt.alloc(), BUDGETS, &Budgets);
}
