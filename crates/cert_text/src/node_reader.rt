// Reads a node of a report.
ghost use Rattle.std.specs.Prelude.{◌≡◌};
ghost use Rattle.std.specs.List.{before_first};
ghost use Rattle.lift_base.specs.Lines.{IsFront, is_feed};
ghost use Rattle.lift_base.specs.declared.pieces.Front.TheVariants as front;
ghost use Rattle.line_text.specs.Reading.{line_at};
ghost use Rattle.line_text.specs.Words.{words};
ghost use Rattle.line_text.specs.Follow.{Follows};
ghost use Rattle.cert_text.specs.Lines.{unknown_of};
ghost use Rattle.cert_text.specs.Nodes.{begins, split_at, unknown_at, node_at};
ghost use Rattle.cert_text.specs.Nodes.{node_by, reported_at, second_by, node_in};
ghost use Rattle.line_text.specs.Shown.{Says};
ghost use Rattle.cert_text.specs.Leaf.{node_of};

use crate::head_reader::Head;
use crate::leaf_reader::LeafReader;
use crate::number_line::number_line;
use lift_base::{Lines, Source};
use lift_grid::{Marks, Values};
use line_text::{FileError, TextCause, Words, calls_add_up, due, take_line};
use std::alloc::Global;

/// A node of a report, without its halves.
#[derive(Drop)]
pub enum Node {
    /// A split on a parameter. The nodes of the lower half follow it, then those of the upper half.
    Split {
        axis: u32,
    },
    /// An accepting leaf, with its precision and the number of each state.
    Accept {
        u: u32,
        x: Values,
    },
    /// A rejecting leaf, with its precision, its rate, and the number, the chosen row and the rank of each
    /// state, `u32::MAX` standing for none.
    Reject {
        u: u32,
        e: u32,
        k: u32,
        y: Values,
        picks: Marks,
        ranks: Marks,
    },
    /// An unknown leaf.
    Unknown,
}

/// Whether the line begins with that word.
pub(crate) fn begins(line: &[u8], key: &[u8]) -> bool
    ensures { result ≡ begins key.now (words line.now) }
{
    match Words::of(line).first() {
        Ok((word, _)) => word == key,
        Err(_) => false,
    }
}

/// A split, whose line is due.
fn split_at<S: Source>(
    alloc: Global,
    lines: &mut Lines,
    src: &mut S,
    head: &Head,
) -> Result<Node, FileError>
    ensures { Follows S.left S.faults node_of (split_at head.now) lines.old lines.new src.old src.new result }
{
    calls_add_up::<S>();
    let parameters = u64::from(head.model().names().len());
    let axis = number_line(alloc, lines, src, b"split", 0..parameters)?;
    Ok(Node::Split { axis: axis as u32 })
}

/// The words of an unknown leaf's line: one word.
fn unknown_of(words: &Words) -> Result<(), TextCause>
    ensures { Says (λ x. x) result (unknown_of words.now) }
{
    let rest = words.keyed(b"unknown")?;
    if rest.is_empty() {
        Ok(())
    } else {
        Err(TextCause::Syntax)
    }
}

/// An unknown leaf, whose line is due.
fn unknown_at<S: Source>(lines: &mut Lines, src: &mut S) -> Result<Node, FileError>
    ensures { Follows S.left S.faults node_of unknown_at lines.old lines.new src.old src.new result }
{
    calls_add_up::<S>();
    unknown_line(lines, src)?;
    Ok(Node::Unknown)
}

/// The line that is due, as the one of an unknown leaf.
fn unknown_line<S: Source>(lines: &mut Lines, src: &mut S) -> Result<(), FileError>
    ensures { Follows S.left S.faults (λ x. x) (line_at unknown_of)
        lines.old lines.new src.old src.new result }
{
    due(lines, src)?;
    let read = unknown_of(&Words::of(lines.line()));
    take_line(lines, read)
}

/// The node whose first line is at the front, in the first version.
fn node_by<S: Source>(
    alloc: Global,
    lines: &mut Lines,
    src: &mut S,
    head: &Head,
) -> Result<Node, FileError>
    requires { IsFront front.Line lines.old.held }
    ensures { Follows S.left S.faults node_of (node_by head.now (words (before_first is_feed lines.old.held)))
        lines.old lines.new src.old src.new result }
{
    if begins(lines.line(), b"split") {
        split_at(alloc, lines, src, head)
    } else if begins(lines.line(), b"accept") {
        LeafReader::greatest(alloc, head).accept_at(lines, src)
    } else if begins(lines.line(), b"reject") {
        LeafReader::greatest(alloc, head).reject_at(lines, src)
    } else {
        unknown_at(lines, src)
    }
}

/// The decided leaf behind the line of its precision, which is due.
fn reported_at<S: Source>(
    alloc: Global,
    lines: &mut Lines,
    src: &mut S,
    head: &Head,
) -> Result<Node, FileError>
    ensures { Follows S.left S.faults node_of (reported_at head.now) lines.old lines.new src.old src.new result }
{
    calls_add_up::<S>();
    let low = u64::from(head.from());
    let end = u64::from(head.w()) + 1;
    let u = number_line(alloc, lines, src, b"at", low..end)?;
    due(lines, src)?;
    LeafReader::new(alloc, head, u as u32).decided_by(lines, src)
}

/// The node whose first line is at the front, in the second version.
fn second_by<S: Source>(
    alloc: Global,
    lines: &mut Lines,
    src: &mut S,
    head: &Head,
) -> Result<Node, FileError>
    requires { IsFront front.Line lines.old.held }
    ensures { Follows S.left S.faults node_of (second_by head.now (words (before_first is_feed lines.old.held)))
        lines.old lines.new src.old src.new result }
{
    if begins(lines.line(), b"split") {
        split_at(alloc, lines, src, head)
    } else if begins(lines.line(), b"at") {
        reported_at(alloc, lines, src, head)
    } else {
        unknown_at(lines, src)
    }
}

/// The node whose first line is at the front.
fn node_in<S: Source>(
    alloc: Global,
    lines: &mut Lines,
    src: &mut S,
    head: &Head,
) -> Result<Node, FileError>
    requires { IsFront front.Line lines.old.held }
    ensures { Follows S.left S.faults node_of
        (node_in head.now head.now.from (words (before_first is_feed lines.old.held)))
        lines.old lines.new src.old src.new result }
{
    match head.reported_from() {
        None => node_by(alloc, lines, src, head),
        Some(_) => second_by(alloc, lines, src, head),
    }
}

/// Reads the node whose first line is due.
pub fn read_node<S: Source>(
    alloc: Global,
    lines: &mut Lines,
    src: &mut S,
    head: &Head,
) -> Result<Node, FileError>
    ensures { Follows S.left S.faults node_of (node_at head.now) lines.old lines.new src.old src.new result }
{
    calls_add_up::<S>();
    due(lines, src)?;
    node_in(alloc, lines, src, head)
}
