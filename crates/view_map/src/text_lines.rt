// A text in memory that is read line by line.
ghost use Rattle.std.specs.Prelude.{◌≡◌, ◌≤◌, length, Ok, IfOk};
ghost use Rattle.cert_text.specs.Head.{head_at};
ghost use Rattle.cert_text.specs.Leaf.{node_of};
ghost use Rattle.cert_text.specs.Nodes.{node_at};
ghost use Rattle.cert_check.specs.Source.{file_limit};

use cert_text::{FileError, Head, Node, read_head, read_node};
use lift_base::Lines;
use line_text::TextSource;
use std::alloc::{AllocError, Global};
use std::marker::Model;

/// A text that is read line by line, seen as the number of the line that is due and the bytes that are left.
#[derive(Drop)]
pub(crate) struct TextLines<'t> {
    alloc: Global,
    lines: Lines,
    source: TextSource<'t>,
}

impl<'t> Model for TextLines<'t> {
    ghost use Rattle.lift_base.specs.Lines.{MayFollow};
    ghost use Rattle.line_text.specs.Reading.{Cursor};
    ghost use Rattle.line_text.specs.Follow.{place};

    ghost Value = { Cursor };

    ghost view = { λ t. place t.lines t.source };

    ghost invariant = { λ t. MayFollow t.lines t.source };
}

impl<'t> TextLines<'t> {
    /// The first line is due.
    pub fn make(alloc: Global, text: &'t [u8]) -> Result<Self, AllocError>
        requires { length text.now ≤ file_limit }
        ensures { IfOk result (λ t. t ≡ (1, text.now)) }
    {
        Ok(TextLines {
            alloc,
            lines: Lines::make(alloc, text.len() as u64)?,
            source: TextSource::new(text),
        })
    }

    /// Where memory for what is read comes from.
    pub fn alloc(&self) -> Global {
        self.alloc
    }

    /// Reads the head of a report, whose first line is due.
    pub fn head(&mut self) -> Result<Head, FileError>
        ensures { IfOk result (λ head. head_at self.old ≡ Ok (head, self.new)) }
    {
        read_head(self.alloc, &mut self.lines, &mut self.source)
    }

    /// Reads a node of a report, whose first line is due.
    pub fn node(&mut self, head: &Head) -> Result<Node, FileError>
        ensures { IfOk result (λ node. node_at head.now self.old ≡ Ok (node_of node, self.new)) }
    {
        read_node(self.alloc, &mut self.lines, &mut self.source, head)
    }
}
