// The nodes of a report.
ghost use Rattle.std.specs.Prelude.{◌≡◌, ◌<◌, ◌≤◌, ◌^◌, length, IfOk, IfErr};
ghost use Rattle.lift_grid.specs.Rectangle.{sides_of, spans_of};
ghost use Rattle.lift_grid.specs.Splitting.{IsHalvable};
ghost use Rattle.lift_grid.specs.Tree.{lower_half};
ghost use Rattle.lift_model.specs.Links.{ArePlaces};
ghost use Rattle.corner_lift.specs.Case.{IsCase};
ghost use Rattle.cert_text.specs.Head.{case_at};
ghost use Rattle.cert_check.specs.Answer.{TreeEnds};
ghost use Rattle.cert_check.specs.Source.{TellsSmallNumbers};
ghost use Rattle.cert_check.specs.Shown.{Checks, IsPlaced, IsInProgress, came_of};

use crate::error::CheckError;
use crate::laws::rectangles_are_placed;
use crate::leaf::{Asked, Rejecting, test_split, test_unknown};
use crate::walk::Walk;
use cert_text::{Head, Node, nodes_are_read, read_node};
use corner_lift::Case;
use lift_base::Source;
use lift_grid::narrow;
use lift_model::Links;
use line_text::calls_add_up;
use std::alloc::{AllocError, Global};

/// A copy of the lower half.
fn lower_half(alloc: Global, sides: &[i64], axis: u32) -> Result<Vec<i64>, AllocError>
    requires halvable { IsHalvable axis (spans_of sides.now) }
    requires paired { sides_of (spans_of sides.now) ≡ sides.now }
    ensures half { IfOk result (λ v. spans_of v.items ≡ lower_half axis (spans_of sides.now)) }
    ensures paired { IfOk result (λ v. sides_of (spans_of v.items) ≡ v.items) }
{
    let mut lower = Vec::from_slice(alloc, sides)?;
    narrow(&mut lower, axis, true);
    Ok(lower)
}

/// A report whose nodes are checked: its head, and the case that the head asks for, with its links.
#[derive(Drop)]
pub(crate) struct Report<'a> {
    pub alloc: Global,
    pub head: &'a Head,
    pub case: &'a Case<'a>,
    pub links: &'a Links,
}

/// What the certificates of leaves at that precision are tested for.
fn asked_at<'a>(report: &'a Report, u: u32) -> Asked<'a>
    requires { (1 ≤ u) × (u ≤ report.now.case.now.w) }
    ensures case { result.case ≡ case_at u report.now.case.now }
    ensures links { result.links.now ≡ report.now.links.now }
    ensures bound { result.bound ≡ report.now.head.now.bound }
{
    let case = report.case;
    Asked {
        case: Case::new(case.model(), case.root(), case.grid(), u),
        links: report.links,
        bound: report.head.bound(),
    }
}

/// Checks the nodes of the rectangle with these sides, which may be halved `levels` times. On the way
/// down it keeps a rectangle for each level. The sides are free afterwards.
pub(crate) fn check_tree<S: Source>(
    report: &Report,
    walk: &mut Walk,
    src: &mut S,
    levels: u32,
    sides: &mut [i64],
) -> Result<(), CheckError>
    requires asked { report.now.case.now ≡ report.now.head.now.asked }
    requires places { ArePlaces report.now.case.now.model report.now.links.now }
    requires weights { length walk.old.weights.items ≡ report.now.links.now.weights }
    requires placed { IsPlaced report.now.case.now levels (spans_of sides.old) }
    requires paired { sides_of (spans_of sides.old) ≡ sides.old }
    requires progress { IsInProgress walk.old }
    ensures end { Checks S.left S.faults walk.old.lines walk.new.lines src.old src.new (λ later _. came_of walk.new later)
        (λ later. TreeEnds report.now.head.now levels (spans_of sides.old) (came_of walk.old later)) result }
    ensures weights { IfOk result (λ _. length walk.new.weights.items ≡ length walk.old.weights.items) }
    ensures progress { IfOk result (λ _. IsInProgress walk.new) }
    ensures reported { IfErr result TellsSmallNumbers }
{
    rectangles_are_placed();
    nodes_are_read();
    calls_add_up::<S>();
    let _ = report.head.w();
    let _ = report.case.w();
    let node = read_node(report.alloc, &mut walk.lines, src, report.head)?;
    let _ = walk.lines.given();
    match node {
        Node::Split { axis } => {
            test_split(report.case, levels, sides, walk.node, axis)?;
            let mut lower = lower_half(report.alloc, sides, axis)?;
            walk.pass(walk.leaves);
            check_tree(report, walk, src, levels - 1, &mut lower)?;
            narrow(sides, axis, false);
            check_tree(report, walk, src, levels - 1, sides)
        }
        Node::Accept { u, x } => {
            asked_at(report, u).test_accept(sides, &mut walk.weights, walk.node, x.as_slice())?;
            walk.pass(walk.leaves.one_accept());
            Ok(())
        }
        Node::Reject {
            u,
            e,
            k,
            y,
            picks,
            ranks,
        } => {
            let leaf = Rejecting {
                y: y.as_slice(),
                picks: picks.as_slice(),
                ranks: ranks.as_slice(),
                e,
                k,
            };
            asked_at(report, u).test_reject(sides, &mut walk.weights, walk.node, &leaf)?;
            walk.pass(walk.leaves.one_reject());
            Ok(())
        }
        Node::Unknown => {
            test_unknown(levels, walk.node)?;
            walk.pass(walk.leaves.one_unknown());
            Ok(())
        }
    }
}
