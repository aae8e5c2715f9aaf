// The lines of a report.
ghost use Rattle.std.specs.Prelude.{◌≡◌, ◌≤◌, ◌++◌, None, IsTrue, IfOk, IfErr};
ghost use Rattle.lift_model.specs.Links.{ArePlaces};
ghost use Rattle.corner_lift.specs.Case.{IsAdmitted, greatest_depth};
ghost use Rattle.line_text.specs.Follow.{place};
ghost use Rattle.cert_text.specs.Cut.{WasHeadRead};
ghost use Rattle.cert_text.specs.Head.{head_at};
ghost use Rattle.cert_check.specs.Answer.{FileEnds, HeadEnds, RestEnds, Then, TreeEnds, rest_of, start};
ghost use Rattle.cert_check.specs.Source.{TellsSmallNumbers};
ghost use Rattle.cert_check.specs.Shown.{Checks};

use crate::error::CheckError;
use crate::laws::rectangles_are_placed;
use crate::nodes::{Report, check_tree};
use crate::summary::Summary;
use crate::walk::Walk;
use cert_text::{Head, heads_are_read, read_head};
use lift_base::{Lines, Source};
use lift_model::Links;
use lift_rows::{admit, admit_linked};
use line_text::{calls_add_up, is_end};
use std::alloc::Global;

/// Tests that nothing follows the last node.
fn check_rest<S: Source>(
    lines: &mut Lines,
    src: &mut S,
    leaves: Summary,
) -> Result<Summary, CheckError>
    ensures end { Checks S.left S.faults lines.old lines.new src.old src.new (λ _ s. s)
        (λ later answer. answer ≡ rest_of (lines.old.held ++ later) leaves) result }
    ensures ended { IfOk result (λ _. IsTrue lines.new.ended) }
    ensures reported { IfErr result TellsSmallNumbers }
{
    let none = is_end(lines, src)?;
    if none {
        Ok(leaves)
    } else {
        Err(CheckError::Rest)
    }
}

/// Checks the nodes of a report, and that nothing follows them.
fn check_nodes<S: Source>(
    report: &Report,
    walk: &mut Walk,
    src: &mut S,
) -> Result<Summary, CheckError>
    requires asked { report.now.case.now ≡ report.now.head.now.asked }
    requires places { ArePlaces report.now.case.now.model report.now.links.now }
    requires clean { walk.old.lines.failure ≡ None }
    requires lines { 2 ≤ walk.old.lines.given }
    requires node { walk.old.node ≡ 0 }
    ensures end { Checks S.left S.faults walk.old.lines walk.new.lines src.old src.new (λ _ s. s)
        (λ later. Then
        (TreeEnds report.now.head.now (greatest_depth report.now.head.now.asked) report.now.head.now.asked.root
        (start report.now.head.now (place walk.old.lines later))) RestEnds) result }
    ensures ended { IfOk result (λ _. IsTrue walk.new.lines.ended) }
    ensures reported { IfErr result TellsSmallNumbers }
{
    rectangles_are_placed();
    calls_add_up::<S>();
    let _ = report.case.w();
    walk.leaves = Summary::none(report.head.version());
    walk.weights = vec![in report.alloc; 0i128; report.links.weights_len()]?;
    let mut sides = Vec::from_slice(report.alloc, report.case.root().sides())?;
    check_tree(report, walk, src, report.case.greatest_depth(), &mut sides)?;
    check_rest(&mut walk.lines, src, walk.leaves)
}

/// Checks what stands behind a head: its rows, and then the nodes.
fn check_head<S: Source>(
    alloc: Global,
    walk: &mut Walk,
    src: &mut S,
    head: &Head,
) -> Result<Summary, CheckError>
    requires clean { walk.old.lines.failure ≡ None }
    requires lines { 2 ≤ walk.old.lines.given }
    requires node { walk.old.node ≡ 0 }
    ensures end { Checks S.left S.faults walk.old.lines walk.new.lines src.old src.new (λ _ s. s)
        (λ later. HeadEnds head.now (place walk.old.lines later)) result }
    ensures ended { IfOk result (λ _. IsTrue walk.new.lines.ended) }
    ensures reported { IfErr result TellsSmallNumbers }
{
    calls_add_up::<S>();
    let _ = head.w();
    let Ok(links) = Links::build_places(alloc, head.model()) else {
        // A row that isn't admitted is told all the same.
        admit(head.model(), head.root(), head.grid(), head.w())?;
        return Err(CheckError::Memory);
    };
    let case = admit_linked(head.model(), head.root(), head.grid(), head.w(), &links)?;
    let report = Report {
        alloc,
        head,
        case: &case,
        links: &links,
    };
    check_nodes(&report, walk, src)
}

/// A report that was checked: its head, how many lines that has, and the leaves.
#[derive(Drop)]
pub(crate) struct Checked {
    pub head: Head,
    pub head_lines: u32,
    pub leaves: Summary,
}

/// Checks a report whose first line is due.
pub(crate) fn check_file<S: Source>(
    alloc: Global,
    walk: &mut Walk,
    src: &mut S,
) -> Result<Checked, CheckError>
    requires node { walk.old.node ≡ 0 }
    ensures end { Checks S.left S.faults walk.old.lines walk.new.lines src.old src.new (λ _ x. x.leaves)
        (λ later. FileEnds (head_at (place walk.old.lines later))) result }
    ensures head { IfOk result (λ x. WasHeadRead S.left S.faults walk.old.lines src.old x.head x.head_lines) }
    ensures ended { IfOk result (λ _. IsTrue walk.new.lines.ended) }
    ensures reported { IfErr result TellsSmallNumbers }
{
    calls_add_up::<S>();
    heads_are_read();
    let head = read_head(alloc, &mut walk.lines, src)?;
    let head_lines = walk.lines.given();
    let leaves = check_head(alloc, walk, src, &head)?;
    Ok(Checked {
        head,
        head_lines,
        leaves,
    })
}
