// Reads the leaves of a sound report.
ghost use Rattle.std.specs.Prelude.{◌≡◌, ◌≢◌, ◌≤◌, ◌+◌, ◌++◌, ◌∷◌, [], length, Err, IfOk, IfErr};
ghost use Rattle.lift_grid.specs.Rectangle.{sides_of, spans_of};
ghost use Rattle.lift_grid.specs.Splitting.{IsHalvable};
ghost use Rattle.lift_grid.specs.Tree.{lower_half};
ghost use Rattle.cert_check.specs.Answer.{Answers};
ghost use Rattle.cert_check.specs.Source.{file_limit};
ghost use Rattle.cert_check.specs.Shown.{IsReportedOfFile};
ghost use Rattle.view_map.specs.Parts.{part_with};
ghost use Rattle.view_map.specs.Mapping.{Adds, BeginsWithSomeTree, HasNodes, IsMapOf, IsMapped, StandsAt};

use crate::map::ReportMap;
use crate::part::{LeafKind, Part};
use crate::text_lines::TextLines;
use cert_check::{CheckError, check_text};
use cert_text::{Head, Node, heads_are_read, nodes_are_read};
use lift_grid::{halves_stay_on_grid, narrow};
use std::alloc::{AllocError, Global};

/// A copy of the lower half.
fn lower_half(alloc: Global, sides: &[i64], axis: u32) -> Result<Vec<i64>, AllocError>
    requires halvable { IsHalvable axis (spans_of sides.now) }
    requires paired { sides_of (spans_of sides.now) ≡ sides.now }
    ensures half { IfOk result (λ v. spans_of v.items ≡ lower_half axis (spans_of sides.now)) }
    ensures paired { IfOk result (λ v. sides_of (spans_of v.items) ≡ v.items) }
{
    let mut lower = Vec::from_slice(alloc, sides)?;
    narrow(&mut lower, axis, true);
    Ok(lower)
}

/// Keeps a leaf.
fn keep(
    alloc: Global,
    sides: &[i64],
    depth: u32,
    kind: LeafKind,
    parts: &mut Vec<Part>,
) -> Result<(), AllocError>
    requires { depth ≤ 20 }
    ensures { IfOk result (λ _.
        parts.new.items ≡ parts.old.items ++ part_with (spans_of sides.now) depth kind ∷ []) }
{
    let sides = Vec::from_slice(alloc, sides)?;
    parts.push(Part::new(sides, depth, kind))?;
    Ok(())
}

/// Adds the leaves of the tree over the rectangle with these sides. The text was found sound, so that
/// only memory can be wanted. On the way down it keeps a rectangle for each level. The sides are free
/// afterwards.
fn add_parts(
    text: &mut TextLines,
    head: &Head,
    depth: u32,
    sides: &mut [i64],
    parts: &mut Vec<Part>,
) -> Result<(), CheckError>
    requires stands { StandsAt head.now.asked depth (spans_of sides.old) }
    requires paired { sides_of (spans_of sides.old) ≡ sides.old }
    requires begins { BeginsWithSomeTree head.now (spans_of sides.old) depth text.old.1 }
    ensures adds { IfOk result (λ _. Adds head.now (spans_of sides.old) depth text.old.1 text.new.1
        parts.old.items parts.new.items) }
    ensures memory { IfErr result (λ e. e ≡ CheckError.Memory) }
{
    nodes_are_read();
    halves_stay_on_grid();
    let _ = head.w();
    let alloc = text.alloc();
    let Ok(node) = text.node(head) else {
        return Err(CheckError::Memory);
    };
    match node {
        Node::Split { axis } => {
            let mut lower = lower_half(alloc, sides, axis)?;
            add_parts(text, head, depth + 1, &mut lower, parts)?;
            narrow(sides, axis, false);
            add_parts(text, head, depth + 1, sides, parts)
        }
        Node::Accept { .. } => {
            keep(alloc, sides, depth, LeafKind::Accept, parts)?;
            Ok(())
        }
        Node::Reject { .. } => {
            keep(alloc, sides, depth, LeafKind::Reject, parts)?;
            Ok(())
        }
        Node::Unknown => {
            keep(alloc, sides, depth, LeafKind::Unknown, parts)?;
            Ok(())
        }
    }
}

/// Reads the leaves behind a head.
fn read_parts(alloc: Global, text: &mut TextLines, head: Head) -> Result<ReportMap, CheckError>
    requires { HasNodes head text.old.1 }
    ensures map { IfOk result (IsMapped head text.old.1) }
    ensures memory { IfErr result (λ e. e ≡ CheckError.Memory) }
{
    let _ = head.w();
    let mut sides = Vec::from_slice(alloc, head.root().sides())?;
    let mut parts = Vec::new(alloc);
    add_parts(text, &head, 0, &mut sides, &mut parts)?;
    Ok(ReportMap::new(head, parts))
}

/// Reads the leaves of a report, where it is sound; else tells its first fault, as a check does. It
/// takes memory for the head and the leaves, beside a node and a rectangle for each level. Its time
/// is that of the check, and linear in the text beside.
pub fn read_map(alloc: Global, text: &[u8]) -> Result<ReportMap, CheckError>
    requires { length text.now ≤ file_limit }
    ensures map { IfOk result (λ m. IsMapOf text.now m.head m.parts) }
    ensures refused { IfErr result (λ e. e ≢ CheckError.Memory → Answers text.now (Err e)) }
    ensures reported { IfErr result IsReportedOfFile }
{
    heads_are_read();
    check_text(alloc, text)?;
    let mut lines = TextLines::make(alloc, text)?;
    let Ok(head) = lines.head() else {
        return Err(CheckError::Memory);
    };
    read_parts(alloc, &mut lines, head)
}
