// Nodes with changes, and what is read of them.
use crate::cells::each_row;
use crate::text::reports::{changed_report, fresh_lines, line_due, shown_fault};
use cert_text::{Head, Node, read_head, read_node};
use lift_base::Lines;
use line_text::TextSource;
use std::alloc::{AllocError, Global};
use std::fmt::Write;
use std::string::String;
use test_cells::Teller;

// Each row: the report and the changes of its lines, and its first node, with the line behind it.
const READ: &str = "\
COIN - | accept 7 16 0 line 21
COIN 20=accept 0 0 0 | accept 0 0 0 line 21
COIN 20=accept 16 16 16;accept | accept 16 16 16 line 21
COIN 20=split 0 | split 0 line 21
COIN 20=unknown | unknown line 21
COIN 20=reject e 1 k 1 m 1 b 9/16;y 9 16 0;choice 0 - -;rank 1 0 - | reject 1 1 y 9 16 0 choice 0 - - rank 1 0 - line 24
COIN 20=reject e 126 k 65536 m 8257536 b 9/16;y 9 16 0;choice 0 - 0;rank 65536 0 1 | \
    reject 126 65536 y 9 16 0 choice 0 - 0 rank 65536 0 1 line 24
COIN 20=reject e 0 k 1 m 0 b 0/16;y 0 16 0;choice - - -;rank - 0 - | reject 0 1 y 0 16 0 choice - - - rank - 0 - line 24
PAIR - | unknown line 21
PAIR 20=split 1;unknown;unknown | split 1 line 21
PAIR 20=accept 1024 0 | accept 1024 0 line 21
PAIR 20=reject e 0 k 2 m 0 b 1024/1024;y 1024 1024;choice 1 -;rank 2 0 | reject 0 2 y 1024 1024 choice 1 - rank 2 0 line 24
";

// Each row: the report and the changes of its lines, and the line and the cause.
const REFUSED: &str = "\
COIN 20=accept 7 17 0 | 20 Limit
COIN 20=accept 7 16 | 20 Syntax
COIN 20=accept 07 16 0 | 20 Syntax
COIN 20=accept -7 16 0 | 20 Limit
COIN 20=accept 7 17 x | 20 Syntax
COIN 20=split 1 | 20 Limit
COIN 20=unknown 1 | 20 Syntax
COIN 20=split -1 | 20 Limit
COIN 20=leaf | 20 Syntax
COIN 20=accept 7 16 0 0 | 20 Syntax
COIN 20=accept  7 16 0 | 20 Syntax
COIN 20=accept 7 16 0  | 20 Syntax
COIN 20=accept 7 16 -0 | 20 Syntax
COIN 20=accept 7 16 +0 | 20 Syntax
COIN 20=accept 7 16 00 | 20 Syntax
COIN 20=accept 17 16 | 20 Syntax
COIN 20=accept 100000000000000000000000000000000000000000 1 1 | 20 Limit
COIN 20= accept 7 16 0 | 20 Syntax
COIN 20=Accept 7 16 0 | 20 Syntax
COIN 20=split | 20 Syntax
COIN 20=split 0 0 | 20 Syntax
COIN 20=split 00 | 20 Syntax
COIN 20=split 100000000000000000000000000000000000000000 | 20 Limit
COIN 20=unknown  | 20 Syntax
COIN 20= | 20 Syntax
COIN 20=reject e 1 k 1 m 2 b 7/16;y 7 16 0;choice 0 - -;rank 1 0 - | 20 Syntax
COIN 20=reject e 127 k 1 m 127 b 7/16;y 7 16 0;choice 0 - -;rank 1 0 - | 20 Limit
COIN 20=reject e -1 k 1 m -1 b 7/16;y 7 16 0;choice 0 - -;rank 1 0 - | 20 Limit
COIN 20=reject e 1 k 0 m 0 b 7/16;y 7 16 0;choice 0 - -;rank 1 0 - | 20 Limit
COIN 20=reject e 1 k 65537 m 65537 b 7/16;y 7 16 0;choice 0 - -;rank 1 0 - | 20 Limit
COIN 20=reject e 127 k x m 1 b 7/16;y 7 16 0;choice 0 - -;rank 1 0 - | 20 Syntax
COIN 20=reject e 127 k 1 m -0 b 7/16;y 7 16 0;choice 0 - -;rank 1 0 - | 20 Syntax
COIN 20=reject e 1 k 1 m 1 b 7 | 20 Syntax
COIN 20=reject e 1 k 1 m 1 c 7/16 | 20 Syntax
COIN 20=reject e 1 k 1 m 1 b 7/16 0 | 20 Syntax
COIN 20=reject e 1 k 1 m 1 b 7/16 | 21 Truncated
COIN 20=reject e 1 k 1 m 1 b 7/16;y 7 16 0 | 22 Truncated
COIN 20=reject e 1 k 1 m 1 b 7/16;y 7 16 0;choice 0 - - | 23 Truncated
COIN 20=reject e 1 k 1 m 1 b 8/16;y 7 16 0;choice 0 - -;rank 1 0 - | 20 Syntax
COIN 20=reject e 1 k 1 m 1 b -7/16;y 7 16 0;choice 0 - -;rank 1 0 - | 20 Syntax
COIN 20=reject e 1 k 1 m 1 b 7/32;y 7 16 0;choice 0 - -;rank 1 0 - | 20 Syntax
COIN 20=reject e 1 k 1 m 2 b 7/16;y 7 17 0;choice 0 - -;rank 1 0 - | 21 Limit
COIN 20=reject e 1 k 1 m 1 b 7/16;y 7 16;choice 0 - -;rank 1 0 - | 21 Syntax
COIN 20=reject e 1 k 1 m 1 b 7/16;x 7 16 0;choice 0 - -;rank 1 0 - | 21 Syntax
COIN 20=reject e 1 k 1 m 1 b 7/16;y 7 16 0;choice 1 - -;rank 1 0 - | 22 Limit
COIN 20=reject e 1 k 1 m 1 b 7/16;y 7 16 0;choice -1 - -;rank 1 0 - | 22 Limit
COIN 20=reject e 1 k 1 m 1 b 7/16;y 7 16 0;choice 0 -;rank 1 0 - | 22 Syntax
COIN 20=reject e 1 k 1 m 1 b 7/16;y 7 16 0;choice 9 - x;rank 1 0 - | 22 Syntax
COIN 20=reject e 1 k 1 m 1 b 7/16;y 7 16 0;choice 0 - -;rank 2 0 - | 23 Limit
COIN 20=reject e 1 k 1 m 1 b 7/16;y 7 16 0;choice 0 - -;rank 1 0 -1 | 23 Limit
COIN 20=reject e 1 k 1 m 1 b 7/16;y 7 16 0;choice 0 - -;rank 1 0 -0 | 23 Syntax
COIN 20=reject e 1 k 1 m 1 b 7/16;y 7 16 0;choice 0 - -;rank 1 0 | 23 Syntax
COIN 20=reject e 1 k 1 m 1 b 7/16;y 7 16 0;choice 0 0 -;rank 1 0 - | 20 Syntax
COIN 20=reject e 1 k 1 m 1 b 7/16;y 7 16 0;choice - - -;rank 1 0 - | 20 Syntax
COIN 20=reject e 1 k 1 m 1 b 7/16;y 7 16 0;choice 0 - 0;rank 1 0 0 | 20 Syntax
COIN 20=reject e 1 k 1 m 1 b 7/16;y 7 16 0;choice 0 - 0;rank 1 0 - | 20 Syntax
COIN 20=reject e 1 k 1 m 1 b 7/16;y 7 16 0;choice 0 - -;rank 1 1 - | 20 Syntax
COIN 20=reject e 1 k 1 m 1 b 7/16;y 7 16 0;choice 0 - -;rank 1 - - | 20 Syntax
PAIR 20=split 2 | 20 Limit
PAIR 20=accept 1025 0 | 20 Limit
PAIR 20=accept 1024 0 0 | 20 Syntax
PAIR 20=reject e 0 k 2 m 0 b 1024/1024;y 1024 1024;choice 2 -;rank 2 0 | 22 Limit
";

// Tells a word and the numbers of the states.
fn tell_numbers(reported: &mut String, word: &str, numbers: &[i64]) -> Result<(), AllocError> {
    reported.push_str(word)?;
    for number in numbers {
        write!(reported, " {number}")?;
    }
    Ok(())
}

// Tells a word and the marks of the states.
fn tell_marks(reported: &mut String, word: &str, marks: &[u32]) -> Result<(), AllocError> {
    reported.push_str(word)?;
    for mark in marks {
        match *mark {
            u32::MAX => reported.push_str(" -")?,
            mark => write!(reported, " {mark}")?,
        }
    }
    Ok(())
}

// Tells a node.
fn tell_node(reported: &mut String, node: &Node) -> Result<(), AllocError> {
    match node {
        Node::Split { axis } => write!(reported, "split {axis}"),
        Node::Accept { x, .. } => tell_numbers(reported, "accept", x.as_slice()),
        Node::Reject {
            e,
            k,
            y,
            picks,
            ranks,
            ..
        } => {
            write!(reported, "reject {e} {k}")?;
            tell_numbers(reported, " y", y.as_slice())?;
            tell_marks(reported, " choice", picks.as_slice())?;
            tell_marks(reported, " rank", ranks.as_slice())
        }
        Node::Unknown => reported.push_str("unknown"),
    }
}

// The precision of a decided leaf.
fn precision(node: &Node) -> Option<u32> {
    match node {
        Node::Accept { u, .. } => Some(*u),
        Node::Reject { u, .. } => Some(*u),
        Node::Split { .. } => None,
        Node::Unknown => None,
    }
}

// Tells a head's version and precisions, and the precision of the node behind it.
fn tell_precisions(reported: &mut String, head: &Head, node: &Node) -> Result<(), AllocError> {
    let (version, from, w) = (head.version(), head.from(), head.w());
    write!(reported, "{version} {from} {w} ")?;
    match precision(node) {
        Some(u) => write!(reported, "at {u} "),
        None => Ok(()),
    }
}

/// What is told of a report's first node.
#[derive(Clone, Copy)]
pub enum FirstNode {
    /// What it is.
    Alone,
    /// The head's version and precisions and its own precision, and what it is.
    WithPrecisions,
}

impl FirstNode {
    fn tell_of(self, reported: &mut String, head: &Head, node: &Node) -> Result<(), AllocError> {
        if let FirstNode::WithPrecisions = self {
            tell_precisions(reported, head, node)?;
        }
        tell_node(reported, node)
    }

    // The same, and the line behind it.
    fn shown(
        self,
        alloc: Global,
        head: &Head,
        node: &Node,
        line: u64,
    ) -> Result<String, AllocError> {
        let mut reported = String::new(alloc);
        self.tell_of(&mut reported, head, node)?;
        write!(reported, " line {line}")?;
        Ok(reported)
    }

    // What is read of the first node behind a head.
    fn behind(
        self,
        alloc: Global,
        lines: &mut Lines,
        source: &mut TextSource,
        head: &Head,
    ) -> Result<String, AllocError> {
        match read_node(alloc, lines, source, head) {
            Ok(node) => {
                let shown = self.shown(alloc, head, &node, line_due(lines));
                drop(node);
                shown
            }
            Err(error) => shown_fault(alloc, error),
        }
    }

    // What is read of the first node of a text, by lines of which none was read.
    fn of_lines(self, alloc: Global, lines: &mut Lines, text: &[u8]) -> Result<String, AllocError> {
        let mut source = TextSource::new(text);
        match read_head(alloc, lines, &mut source) {
            Ok(head) => {
                let reported = self.behind(alloc, lines, &mut source, &head);
                drop(head);
                reported
            }
            Err(error) => shown_fault(alloc, error),
        }
    }

    // What is read of a text's first node.
    fn of_text(self, alloc: Global, text: &[u8]) -> Result<String, AllocError> {
        let mut lines = fresh_lines(alloc)?;
        let reported = self.of_lines(alloc, &mut lines, text);
        drop(lines);
        reported
    }
}

impl Teller for FirstNode {
    type Reported = String;

    type Error = AllocError;

    fn tell(&self, alloc: Global, asked: &str) -> Result<String, AllocError> {
        let text = changed_report(alloc, asked)?;
        self.of_text(alloc, &text)
    }
}

#[test]
fn nodes_are_read(rt: HostRuntime) {
    each_row(&rt, rt.alloc(), READ, &FirstNode::Alone);
}

#[test]
fn nodes_are_refused(rt: HostRuntime) {
    each_row(&rt, rt.alloc(), REFUSED, &FirstNode::Alone);
}
