//! Tests of least bounds by a rule.

ghost use Rattle.std.specs.Prelude.{◌≡◌, ◌≤◌, length};
ghost use Rattle.lift_grid.specs.Rectangle.{spans_of, sides_of};
ghost use Rattle.corner_lift.specs.Case.{most_precision};
ghost use Rattle.rounded_iter.specs.Watching.{CanIterate};

use crate::cells::each_row;
use crate::engine::roots::{Engine, Lanes, Root, find_text};
use crate::example::process_of;
use corner_lift::Lifted;
use float_guess::{Ends, Extreme, Rule};
use rounded_iter::least_bound;
use std::alloc::{AllocError, Global};
use std::fmt::Write;
use std::string::String;
use test_cells::{Teller, Unreported, count, cut_three, signed};

/// The choices of state 0 and of a state 3, if there is one; the ranks, `-` where a state has none; the precision and
/// the limit; and four least bounds for p from 2/5 to 3/5, or `above` where the initial state's number is above the
/// limit in each: the least upper vector and the least value vector, where every choice counts; the least upper vector
/// for some scheduler, where one choice does; and the least bound of reaching, whatever is chosen, a state without
/// rank before the goal.
///
/// A coin, or a cycle that ends with the goal, or is won or lost in equal parts: with state 3 at the goal, 8 and 4;
/// where state 3 comes back instead, the coin's 8 is half of itself and 4 more. A coin that shows heads with p, or one
/// with 1 - p: 3/5 of 16 is 9.6 and 2/5 of it 6.4, and each of the two may be 9.6. One with p, or one with p/2, which
/// are 4.8 and 3.2, and miss with up to 4/5 of 16, which is 12.8: as a whole, and at limits which some are above. A
/// coin that is thrown again, or one that is won in the end; here the goal has no rank, and is worth 0 before it all the
/// same. A cycle that one scheduler keeps for ever, and that another leaves for the goal: its states have ranks, and then
/// have none. Such a cycle with a choice that is half lost, and so is lost in the end. A coin with p that may be thrown
/// again, in state 3, with 1/4: 3/5 of 16 and 2/5 of 4 are 11.2, 2/5 of 16 and 3/5 of 4 are 8.8, and 3/5 of 12 is 7.2;
/// where state 3 has no rank, 3/5 of 16 is 9.6.
const RULES: &str = "\
action a;1 : 1/2;2 : 1/2;action b;3 : 1/2;1 : 1/4;2 : 1/4 / action a;0 : 1;action b;1 : 1 | 1 0 - 1 | 4 | 16 | \
    [12, 16, 0, 16]; [12, 16, 0, 16]; [8, 16, 0, 8]; [8, 0, 16, 8]
action a;1 : p;2 : 1-p;action b;1 : 1-p;2 : p | 1 0 - | 4 | 16 | [10, 16, 0]; [7, 16, 0]; [10, 16, 0]; [10, 0, 16]
action a;1 : p;2 : 1-p;action b;1 : p/2;2 : 1-p/2 | 1 0 - | 4 | 16 | [10, 16, 0]; [7, 16, 0]; [5, 16, 0]; [13, 0, 16]
action a;1 : p;2 : 1-p;action b;1 : p/2;2 : 1-p/2 | 1 0 - | 4 | 9 | above; [7, 16, 0]; [5, 16, 0]; above
action a;1 : p;2 : 1-p;action b;1 : p/2;2 : 1-p/2 | 1 0 - | 4 | 5 | above; above; [5, 16, 0]; above
action a;1 : p;2 : 1-p;action b;1 : p/2;2 : 1-p/2 | 1 0 - | 4 | 4 | above; above; above; above
action a;0 : 1/2;1 : 1/4;2 : 1/4;action b;0 : 1/2;1 : 1/2 | 1 - - | 4 | 16 | [16, 16, 0]; [16, 16, 0]; [8, 16, 0]; [8, 0, 16]
action a;3 : 1;action b;1 : 1 / action a;0 : 1 | 1 0 - 2 | 4 | 16 | [16, 16, 0, 16]; [16, 16, 0, 16]; [0, 16, 0, 0]; [0, 0, 16, 0]
action a;3 : 1;action b;1 : 1 / action a;0 : 1 | - 0 - - | 4 | 16 | [16, 16, 0, 16]; [16, 16, 0, 16]; [0, 16, 0, 0]; [16, 0, 16, 16]
action a;1 : p;3 : 1-p;action b;3 : 1 / action a;0 : 1/2;2 : 1/2;action b;0 : 1 | 1 0 - 2 | 4 | 16 | \
    [16, 16, 0, 16]; [16, 16, 0, 16]; [0, 16, 0, 0]; [16, 0, 16, 16]
action a;1 : p;3 : 1-p / action a;1 : 1/4;2 : 3/4 | 1 0 - 1 | 4 | 16 | [12, 16, 0, 4]; [9, 16, 0, 4]; [12, 16, 0, 4]; [8, 0, 16, 12]
action a;1 : p;3 : 1-p / action a;1 : 1/4;2 : 3/4 | 1 0 - - | 4 | 16 | [12, 16, 0, 4]; [9, 16, 0, 4]; [12, 16, 0, 4]; [10, 0, 16, 16]";

/// The same where states 0 and 3 lead to each other, and leave that cycle with 10^-17, in equal parts to the goal and to
/// where it is lost, so that half of 2^20 is enough and no less is, as in the test of least vectors. But state 0 may go
/// to the goal at once instead, or to where it is lost: where that choice counts, it has 2^20, or 0, and so has state 3,
/// but 1 where a little is more than 0. Or they leave it to the goal with p parts of 10^-17, and no number below p times
/// 2^20 is enough: 3/5 of it is 629145.6, and 2/5 of it 419430.4.
const SLOW: &str = "\
action a;3 : 1-1e-17;1 : 1e-17/2;2 : 1e-17/2;action b;1 : 1 / action a;0 : 1-1e-17;1 : 1e-17/2;2 : 1e-17/2 | 1 0 - 1 | 20 | 1048576 | \
    [1048576, 1048576, 0, 1048576]; [1048576, 1048576, 0, 1048576]; [524288, 1048576, 0, 524288]; [524288, 0, 1048576, 524288]
action a;3 : 1-1e-17;1 : 1e-17/2;2 : 1e-17/2;action b;2 : 1 / action a;0 : 1-1e-17;1 : 1e-17/2;2 : 1e-17/2 | 1 0 - 1 | 20 | 1048576 | \
    [524288, 1048576, 0, 524288]; [524288, 1048576, 0, 524288]; [0, 1048576, 0, 1]; [1048576, 0, 1048576, 1048576]
action a;3 : 1-1e-17;1 : 1e-17*p;2 : 1e-17*(1-p) / action a;0 : 1-1e-17;1 : 1e-17*p;2 : 1e-17*(1-p) | 1 0 - 1 | 20 | 1048576 | \
    [629146, 1048576, 0, 629146]; [419431, 1048576, 0, 419431]; [629146, 1048576, 0, 629146]; [629146, 0, 1048576, 629146]
action a;3 : 1-1e-17;1 : 1e-17*p;2 : 1e-17*(1-p) / action a;0 : 1-1e-17;1 : 1e-17*p;2 : 1e-17*(1-p) | 1 0 - 1 | 20 | 629145 | \
    above; [419431, 1048576, 0, 419431]; above; above";

/// Tells the least bound by a rule behind those that were told, or that each is above the limit.
fn tell_bound(
    reported: &mut String,
    rows: &Lifted,
    rule: Rule,
    limit: i64,
    lanes: &mut Lanes,
) -> Result<(), AllocError>
    requires { CanIterate rows.now.case rows.now.links (spans_of (sides_of rows.now.case.root)) rows.now.weights
        lanes.old.numbers.items lanes.old.work.items }
    ensures numbers { length lanes.new.numbers.items ≡ length lanes.old.numbers.items }
    ensures work { length lanes.new.work.items ≡ length lanes.old.work.items }
{
    if !reported.is_empty() {
        reported.push_str("; ")?;
    }
    if least_bound(rows, rule, limit, &mut lanes.numbers, &mut lanes.work) {
        write!(reported, "{:?}", lanes.numbers)
    } else {
        write!(reported, "above")
    }
}

/// The rule by which goal states have 1.
fn by_goals<'r>(choice: Extreme, corner: Extreme) -> Rule<'r> {
    Rule {
        choice,
        corner,
        ends: Ends::Goals,
    }
}

/// The rule by which goal states have 0, and those without rank 1, whatever is chosen.
fn by_ranks(ranks: &[u32]) -> Rule<'_> {
    Rule {
        choice: Extreme::Greatest,
        corner: Extreme::Greatest,
        ends: Ends::Unranked(ranks),
    }
}

/// The least bounds within a limit, by each of the rules.
#[derive(Drop)]
struct Bounds {
    ranks: Vec<u32>,
    limit: i64,
}

/// Tells the least bound by each of the rules.
fn tell_bounds(
    reported: &mut String,
    rows: &Lifted,
    bounds: &Bounds,
    lanes: &mut Lanes,
) -> Result<(), AllocError>
    requires { CanIterate rows.now.case rows.now.links (spans_of (sides_of rows.now.case.root)) rows.now.weights
        lanes.old.numbers.items lanes.old.work.items }
{
    let (ranks, limit) = (&bounds.ranks, bounds.limit);
    let every = by_goals(Extreme::Greatest, Extreme::Greatest);
    tell_bound(reported, rows, every, limit, lanes)?;
    let value = by_goals(Extreme::Greatest, Extreme::Least);
    tell_bound(reported, rows, value, limit, lanes)?;
    let some = by_goals(Extreme::Least, Extreme::Greatest);
    tell_bound(reported, rows, some, limit, lanes)?;
    tell_bound(reported, rows, by_ranks(ranks), limit, lanes)
}

impl Engine for Bounds {
    type Found = String;

    fn find(&self, alloc: Global, root: Root, lanes: &mut Lanes) -> Result<String, Unreported> {
        let rows = Lifted::new(root.case, root.links, root.weights);
        let mut reported = String::new(alloc);
        tell_bounds(&mut reported, &rows, self, lanes)?;
        Ok(reported)
    }
}

/// The ranks of a cell, between blanks.
fn ranks_of(alloc: Global, cell: &str) -> Result<Vec<u32>, AllocError> {
    let mut ranks = Vec::new(alloc);
    for rank in cell.split(' ') {
        ranks.push(if rank == "-" { u32::MAX } else { count(rank) })?;
    }
    Ok(ranks)
}

/// The bounds of a process with these choices.
fn bounds_for(alloc: Global, choices: &str, w: u32, bounds: &Bounds) -> Result<String, Unreported>
    requires low { 1 ≤ w }
    requires high { w ≤ most_precision }
{
    let text = process_of(alloc, "p", choices)?;
    find_text(alloc, &text, b"2/5<=p<=3/5", w, bounds)
}

struct ByRule;

impl Teller for ByRule {
    type Reported = String;

    type Error = Unreported;

    fn tell(&self, alloc: Global, asked: &str) -> Result<String, Unreported> {
        let (choices, ranks, w, limit) = cut_three(asked);
        let bounds = Bounds {
            ranks: ranks_of(alloc, ranks)?,
            limit: signed(limit),
        };
        bounds_for(alloc, choices, count(w).clamp(1, 20), &bounds)
    }
}

#[test]
fn finds_the_least_bounds_by_each_rule(rt: HostRuntime) {
    each_row(&rt, rt.alloc(), RULES, &ByRule);
}

#[test]
fn finds_the_least_bounds_of_slow_cycles_by_each_rule(rt: HostRuntime) {
    each_row(&rt, rt.alloc(), SLOW, &ByRule);
}
