//! Trees for a comparison with a bound, that are built.

ghost use Rattle.lift_model.specs.Links.{AreLinks};

use crate::cases::ask_named;
use crate::cells::each_row;
use corner_lift::Case;
use lift_cert::Bound;
use lift_model::Links;
use property_text::Op;
use property_tree::{DualBranch, build};
use std::alloc::{AllocError, Global};
use std::fmt::Write;
use std::string::String;
use test_cases::{Asker, bound_of};
use test_cells::{Teller, Unreported, count, cut_three};

/// The model, its region, the depth, how what is reached is compared with 1/2, and the tree in preorder at precision 4,
/// a bar behind it. Of a decided leaf e and k are shown, if it is a lower one, its numbers, its choices and its ranks, of
/// which 4294967295 stands for none.
///
/// Where a coin shows heads with 1/2 at most, the bound itself decides which comparisons hold and which fail; of two
/// coins that show heads with p and with 1 - p, the second one is the lesser from 3/5 on, and none is from 1/4 to 3/4.
const DUAL_TREES: &str = "\
COIN | 3/5<=p<=9/10 | 0 | >= | lower_all 1 1 [9, 16, 0] [1, 0, 4294967295] |
COIN | 1/10<=p<=2/5 | 0 | >= | upper_one [7, 16, 0] [0, 4294967295, 0] |
COIN | 1/10<=p<=9/10 | 1 | >= | split 0 unknown lower_all 1 1 [8, 16, 0] [1, 0, 4294967295] |
COIN | 1/10<=p<=9/10 | 1 | > | split 0 upper_one [8, 16, 0] [0, 4294967295, 0] unknown |
COIN | 1/10<=p<=9/10 | 1 | <= | split 0 upper [8, 16, 0] unknown |
COIN | 1/10<=p<=9/10 | 1 | < | \
split 0 unknown lower 1 1 [8, 16, 0] [0, 4294967295, 4294967295] [1, 0, 4294967295] |
TWIN | 3/5<=p<=9/10 | 0 | >= | upper_one [7, 16, 0] [1, 4294967295, 0] |
TWIN | 1/4<=p<=3/4 | 0 | >= | unknown |
SHORT_CUT | 0<=p<=1 | 0 | >= | lower_all 1 2 [8, 16, 0, 16] [2, 1, 4294967295, 0] |";

/// Tells a tree, each word with a blank behind it.
fn tell_tree(reported: &mut String, branch: &DualBranch) -> Result<(), AllocError> {
    match branch {
        DualBranch::Split { axis, lower, upper } => {
            write!(reported, "split {axis} ")?;
            tell_tree(reported, lower)?;
            tell_tree(reported, upper)
        }
        DualBranch::Upper { x } => write!(reported, "upper {:?} ", x.as_slice()),
        DualBranch::UpperOne { x, picks } => {
            write!(
                reported,
                "upper_one {:?} {:?} ",
                x.as_slice(),
                picks.as_slice()
            )
        }
        DualBranch::Lower {
            e,
            k,
            y,
            picks,
            ranks,
        } => {
            write!(reported, "lower {e} {k} {:?} ", y.as_slice())?;
            write!(reported, "{:?} {:?} ", picks.as_slice(), ranks.as_slice())
        }
        DualBranch::LowerAll { e, k, y, ranks } => {
            write!(
                reported,
                "lower_all {e} {k} {:?} {:?} ",
                y.as_slice(),
                ranks.as_slice()
            )
        }
        DualBranch::Unknown => reported.push_str("unknown "),
    }
}

/// A tree with a bar behind it.
fn shown(alloc: Global, branch: &DualBranch) -> Result<String, AllocError> {
    let mut reported = String::new(alloc);
    tell_tree(&mut reported, branch)?;
    reported.push('|')?;
    Ok(reported)
}

/// The comparison of a cell.
fn op_of(cell: &str) -> Op {
    match cell {
        "<=" => Op::AtMost,
        "<" => Op::Below,
        ">" => Op::Above,
        _ => Op::AtLeast,
    }
}

/// The tree of a case for a comparison with a bound, by its links.
fn tree_by(
    alloc: Global,
    case: &Case,
    links: &Links,
    op: Op,
    bound: Bound,
) -> Result<String, AllocError>
    requires { AreLinks case.now.model links.now }
{
    let tree = build(alloc, case, links, op, bound)?;
    let reported = shown(alloc, tree.top());
    drop(tree);
    reported
}

/// A comparison with 1/2.
#[derive(Clone, Copy)]
struct Comparison {
    op: Op,
}

impl Asker for Comparison {
    type Reported = String;

    fn ask(&self, alloc: Global, case: &Case) -> Result<String, Unreported> {
        let bound = bound_of("1/2")?;
        let links = Links::build(alloc, case.model())?;
        let reported = tree_by(alloc, case, &links, self.op, bound);
        drop(links);
        Ok(reported?)
    }
}

struct Formulas;

impl Teller for Formulas {
    type Reported = String;

    type Error = Unreported;

    fn tell(&self, alloc: Global, asked: &str) -> Result<String, Unreported> {
        let (name, region, depth, op) = cut_three(asked);
        let comparison = Comparison { op: op_of(op) };
        ask_named(alloc, name, region, count(depth), &comparison)
    }
}

#[test]
fn builds_the_tree_for_a_comparison(rt: HostRuntime) {
    each_row(&rt, rt.alloc(), DUAL_TREES, &Formulas);
}
