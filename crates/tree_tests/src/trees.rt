//! Trees that are built.

ghost use Rattle.std.specs.Prelude.{◌≤◌};
ghost use Rattle.lift_model.specs.Links.{AreLinks};

use crate::cases::ask_coin;
use crate::cells::each_row;
use corner_lift::Case;
use lift_cert::Bound;
use lift_model::Links;
use region_tree::{Branch, build};
use std::alloc::{AllocError, Global};
use std::fmt::Write;
use std::string::String;
use test_cases::{Asker, bound_of};
use test_cells::{Teller, Unreported, count, cut_two};

/// The coin with the bound 1/2, at precision 4: p's interval, the depth, the least precision, and the tree in preorder.
/// A decided leaf has its precision before it. One that accepts has the numbers of the states, and one that rejects e
/// and k and then the numbers, choices and ranks, of which 4294967295 stands for none. Each number has a blank behind it.
const TREES: &str = "\
1/10<=p<=9/10 | 0 | 4 | unknown |
1/10<=p<=9/10 | 1 | 4 | split 0 at 4 accept 8 16 0 unknown |
1/10<=p<=9/10 | 2 | 4 | split 0 at 4 accept 8 16 0 split 0 unknown at 4 reject 1 1 11 16 0 0 4294967295 4294967295 1 0 4294967295 |
1/10<=p<=2/5 | 0 | 1 | at 1 accept 1 2 0 |
3/5<=p<=9/10 | 0 | 1 | at 4 reject 1 1 9 16 0 0 4294967295 4294967295 1 0 4294967295 |
2/5<=p<=3/5 | 1 | 1 | split 0 at 1 accept 1 2 0 unknown |
1/10<=p<=2/5 | 0 | 3 | at 3 accept 4 8 0 |
1/10<=p<=9/10 | 3 | 1 | split 0 at 1 accept 1 2 0 split 0 split 0 unknown at 4 reject 1 1 9 16 0 0 4294967295 4294967295 1 0 4294967295 at 3 reject 1 1 5 8 0 0 4294967295 4294967295 1 0 4294967295 |";

/// Tells numbers, each with a blank behind it.
pub(crate) fn tell_numbers(reported: &mut String, numbers: &[i64]) -> Result<(), AllocError> {
    for number in numbers {
        write!(reported, "{number} ")?;
    }
    Ok(())
}

/// The same for choices and ranks.
pub(crate) fn tell_marks(reported: &mut String, marks: &[u32]) -> Result<(), AllocError> {
    for mark in marks {
        write!(reported, "{mark} ")?;
    }
    Ok(())
}

/// Tells a tree, each word with a blank behind it.
fn tell_tree(reported: &mut String, branch: &Branch) -> Result<(), AllocError> {
    match branch {
        Branch::Split { axis, lower, upper } => {
            write!(reported, "split {axis} ")?;
            tell_tree(reported, lower)?;
            tell_tree(reported, upper)
        }
        Branch::Accept { u, x } => {
            write!(reported, "at {u} accept ")?;
            tell_numbers(reported, x.as_slice())
        }
        Branch::Reject {
            u,
            e,
            k,
            y,
            picks,
            ranks,
        } => {
            write!(reported, "at {u} reject {e} {k} ")?;
            tell_numbers(reported, y.as_slice())?;
            tell_marks(reported, picks.as_slice())?;
            tell_marks(reported, ranks.as_slice())
        }
        Branch::Unknown => reported.push_str("unknown "),
    }
}

/// A tree with a bar behind it.
fn shown(alloc: Global, branch: &Branch) -> Result<String, AllocError> {
    let mut reported = String::new(alloc);
    tell_tree(&mut reported, branch)?;
    reported.push('|')?;
    Ok(reported)
}

/// The tree of a case for a bound and the precisions from that one on.
fn tree_reported(
    alloc: Global,
    case: &Case,
    links: &Links,
    bound: Bound,
    from: u32,
) -> Result<String, AllocError>
    requires links { AreLinks case.now.model links.now }
    requires from { (1 ≤ from) × (from ≤ case.now.w) }
{
    let tree = build(alloc, case, links, bound, from)?;
    let reported = shown(alloc, tree.top());
    drop(tree);
    reported
}

/// The bound 1/2, and the least precision.
#[derive(Clone, Copy)]
struct Least {
    from: u32,
}

impl Asker for Least {
    type Reported = String;

    fn ask(&self, alloc: Global, case: &Case) -> Result<String, Unreported> {
        let from = self.from;
        if from < 1 || from > case.w() {
            return Err(Unreported::Cell);
        }
        let bound = bound_of("1/2")?;
        let links = Links::build(alloc, case.model())?;
        let reported = tree_reported(alloc, case, &links, bound, from);
        drop(links);
        Ok(reported?)
    }
}

struct Trees;

impl Teller for Trees {
    type Reported = String;

    type Error = Unreported;

    fn tell(&self, alloc: Global, asked: &str) -> Result<String, Unreported> {
        let (region, depth, from) = cut_two(asked);
        ask_coin(alloc, region, count(depth), &Least { from: count(from) })
    }
}

#[test]
fn builds_the_tree(rt: HostRuntime) {
    each_row(&rt, rt.alloc(), TREES, &Trees);
}
