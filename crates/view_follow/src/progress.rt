// How far a report has come that is copied.
ghost use Rattle.std.specs.Prelude.{◌≡◌, ◌∷◌, []};
ghost use Rattle.lift_base.specs.Outside.{Wrote};
ghost use Rattle.view_follow.specs.Progress.{beginning, behind_leaf, behind_node, line_end, line_text};
ghost use Rattle.view_follow.specs.Progress.{lines_due, Passes, progress_data, when_reported, WroteEach};
ghost use Rattle.view_follow.specs.declared.line.Line.TheVariants.{Empty};
ghost use Rattle.view_follow.specs.declared.progress.Lines.TheVariants.{Apart};

use crate::line::{Line, NodeLine};
use crate::shares::{Shares, WHOLE};
use lift_base::{Sink, Word, WriteFault, write_words};

/// How lines of progress follow one another.
#[derive(Clone, Copy)]
pub enum Lines {
    /// Each is written over the one before, as on a terminal.
    Over,
    /// Each stands for itself.
    Apart,
}

/// What has come of a report, and what was told of it.
#[derive(Clone, Copy)]
pub struct Progress {
    pub line: Line,
    pub shares: Shares,
    /// The share of the node that comes next.
    pub next: u32,
    pub leaves: u64,
    /// How many percent had come when it was told last.
    pub reported: u64,
    pub lines: Lines,
}

// How a line of progress ends.
fn line_end(lines: Lines) -> &'static [u8]
    ensures { result.now ≡ line_end lines }
{
    match lines {
        Lines::Over => b"\r",
        Lines::Apart => b"\n",
    }
}

impl Progress {
    /// Nothing has come yet.
    pub fn new(lines: Lines) -> Self
        ensures state { progress_data result ≡ beginning }
        ensures line { result.line ≡ Empty }
        ensures lines { result.lines ≡ lines }
    {
        Progress {
            line: Line::Empty,
            shares: Shares {
                accept: 0,
                reject: 0,
                unknown: 0,
            },
            next: WHOLE,
            leaves: 0,
            reported: 0,
            lines,
        }
    }

    // A leaf has come. What comes before a node is a multiple of its share, so that the next one's is
    // the greatest power of 2 in all that has come.
    fn meet_leaf(&mut self, leaf: NodeLine)
        ensures state { progress_data self.new ≡ behind_leaf (progress_data self.old) leaf }
        ensures line { self.new.line ≡ self.old.line }
        ensures lines { self.new.lines ≡ self.old.lines }
    {
        self.shares = self.shares.with(leaf, self.next);
        self.next = self.shares.greatest_power();
        self.leaves = self.leaves.saturating_add(1);
    }

    // A node has come. Both halves of a split have half of its share.
    fn meet(&mut self, node: NodeLine)
        ensures state { progress_data self.new ≡ behind_node (progress_data self.old) node }
        ensures line { self.new.line ≡ self.old.line }
        ensures lines { self.new.lines ≡ self.old.lines }
    {
        match node {
            NodeLine::Split => self.next /= 2,
            NodeLine::Accept | NodeLine::Reject | NodeLine::Unknown => self.meet_leaf(node),
        }
    }

    // Writes how far the report has come.
    fn write<E: Sink>(&self, notes: &mut E, lines: Lines) -> Result<(), WriteFault>
        ensures { Wrote E.taken E.faults notes.old notes.new result
            (line_text lines (progress_data self.now)) }
    {
        let Shares {
            accept,
            reject,
            unknown,
        } = self.shares;
        write_words(
            notes,
            &[
                Word::Text(b"decided "),
                Word::Count(Shares::percent(accept + reject)),
                Word::Text(b" %, accepted "),
                Word::Count(Shares::percent(accept)),
                Word::Text(b" %, rejected "),
                Word::Count(Shares::percent(reject)),
                Word::Text(b" %, unknown "),
                Word::Count(Shares::percent(unknown)),
                Word::Text(b" %, leaves "),
                Word::Count(self.leaves),
                Word::Text(line_end(lines)),
            ],
        )
    }

    // Tells how far the report has come, where it is a percent more than was told. That it can't be
    // written changes nothing.
    fn tell<E: Sink>(&mut self, notes: &mut E)
        ensures state { progress_data self.new ≡ when_reported (progress_data self.old) }
        ensures line { self.new.line ≡ self.old.line }
        ensures lines { self.new.lines ≡ self.old.lines }
        ensures reported { WroteEach E.taken E.faults notes.old notes.new
            (lines_due self.old.lines (progress_data self.old)) }
    {
        let percent = Shares::percent(self.shares.sum());
        if self.reported < percent {
            let _ = self.write(notes, self.lines);
            self.reported = percent;
        }
    }

    // A byte has come.
    fn take<E: Sink>(&mut self, byte: u8, notes: &mut E)
        ensures { Passes E.taken E.faults notes.old notes.new self.old self.new (byte ∷ []) }
    {
        let (line, node) = self.line.behind(byte);
        self.line = line;
        if let Some(node) = node {
            self.meet(node);
            self.tell(notes);
        }
    }

    /// Some bytes have come. A line is told for each percent.
    pub fn pass<E: Sink>(&mut self, bytes: &[u8], notes: &mut E)
        ensures { Passes E.taken E.faults notes.old notes.new self.old self.new bytes.now }
    {
        for byte in bytes {
            self.take(*byte, notes);
        }
    }

    /// Nothing more comes: tells how far the report has come.
    pub fn end<E: Sink>(&self, notes: &mut E)
        ensures { WroteEach E.taken E.faults notes.old notes.new
            (line_text Apart (progress_data self.now) ∷ []) }
    {
        let _ = self.write(notes, Lines::Apart);
    }
}
