// Reads the decided leaves of a report.
ghost use Rattle.std.specs.Prelude.{◌≡◌, ◌≤◌, ◌+◌, length, map, codes, None, IfOk};
ghost use Rattle.std.specs.List.{before_first};
ghost use Rattle.lift_base.specs.Lines.{IsFront, is_feed};
ghost use Rattle.lift_base.specs.declared.pieces.Front.TheVariants as front;
ghost use Rattle.line_text.specs.Reading.{line_at};
ghost use Rattle.line_text.specs.Words.{words};
ghost use Rattle.line_text.specs.declared.error.TextCause.TheVariants.{Syntax};
ghost use Rattle.line_text.specs.declared.error.FileError.TheVariants as file;
ghost use Rattle.line_text.specs.Follow.{Follows, reported_fault};
ghost use Rattle.lift_cert.specs.RejectMiss.{most_height};
ghost use Rattle.corner_lift.specs.Case.{most_precision};
ghost use Rattle.corner_lift.specs.Certificate.{most_rate};
ghost use Rattle.cert_text.specs.Head.{at_precision};
ghost use Rattle.cert_text.specs.Lines.{values_of, marks_of};
ghost use Rattle.cert_text.specs.Nodes.{fits_leaf, reject, accept_at, rejecting_at, reject_at, decided_by};
ghost use Rattle.cert_text.specs.Leaf.{Copies, rejected_of, node_of};

use crate::head_reader::Head;
use crate::marks::{Ends, fit_states, marks_of};
use crate::node_reader::{Node, begins};
use crate::rejected::{Rejected, reject_of};
use crate::values::values_of;
use corner_lift::one_at;
use lift_base::{Lines, Source};
use lift_grid::{Marks, Values};
use lift_model::Model;
use line_text::{
    FileError, TextCause, Words, calls_add_up, due, fault, is_number, is_signed, take_line,
};
use std::alloc::Global;

/// Reads the lines of decided leaves at a precision, seen as the head of their report at that precision.
#[derive(Drop)]
pub(crate) struct LeafReader<'h> {
    alloc: Global,
    head: &'h Head,
    u: u32,
}

impl<'h> std::marker::Model for LeafReader<'h> {
    ghost use Rattle.std.specs.Prelude.{◌≤◌};
    ghost use Rattle.corner_lift.specs.Case.{most_precision};
    ghost use Rattle.cert_text.specs.Head.{HeadData, at_precision};

    ghost Value = { HeadData };

    ghost view = { λ a. at_precision a.u a.head.now };

    ghost invariant = { λ a. a.u ≤ most_precision };
}

/// A copy of the line that is due, which is left at the front.
fn copy_due<S: Source>(alloc: Global, lines: &mut Lines, src: &mut S) -> Result<Vec<u8>, FileError>
    ensures { Copies S.left S.faults lines.old lines.new src.old src.new result }
{
    due(lines, src)?;
    match Vec::from_slice(alloc, lines.line()) {
        Ok(line) => Ok(line),
        Err(_) => Err(fault(lines, TextCause::Memory)),
    }
}

impl<'h> LeafReader<'h> {
    /// Leaves are read at that precision.
    pub fn new(alloc: Global, head: &'h Head, u: u32) -> Self
        requires { u ≤ most_precision }
        ensures { result ≡ at_precision u head.now }
    {
        LeafReader { alloc, head, u }
    }

    /// Leaves are read at the greatest precision.
    pub fn greatest(alloc: Global, head: &'h Head) -> Self
        ensures { result ≡ head.now }
    {
        LeafReader::new(alloc, head, head.w())
    }

    /// The model.
    fn model(&self) -> &'h Model
        ensures { result.now ≡ self.now.asked.model }
    {
        self.head.model()
    }

    /// The precision.
    fn u(&self) -> u32
        ensures value { result ≡ self.now.asked.w }
        ensures small { result ≤ most_precision }
    {
        self.u
    }

    /// The line that is due, as a word and a number for each state.
    fn values_line<S: Source>(
        &self,
        lines: &mut Lines,
        src: &mut S,
        key: &[u8],
    ) -> Result<Vec<i64>, FileError>
        ensures value { Follows S.left S.faults (λ x. x.items)
            (line_at (values_of key.now (length self.now.asked.model.states) self.now.asked.w))
            lines.old lines.new src.old src.new result }
        ensures size { IfOk result (λ x. length x.items ≡ length self.now.asked.model.states) }
        ensures given { IfOk result (λ _. lines.new.given ≡ lines.old.given + 1) }
    {
        due(lines, src)?;
        let read = values_of(
            self.alloc,
            &Words::of(lines.line()),
            key,
            self.model().states(),
            self.u(),
        );
        take_line(lines, read)
    }

    /// The line that is due, as a word and a mark for each of the ends.
    fn marks_line<S: Source>(
        &self,
        lines: &mut Lines,
        src: &mut S,
        key: &[u8],
        ends: &Ends,
    ) -> Result<Vec<u32>, FileError>
        ensures value { Follows S.left S.faults (λ x. x.items)
            (line_at (marks_of key.now ends.now)) lines.old lines.new src.old src.new result }
        ensures size { IfOk result (λ x. length x.items ≡ length ends.now) }
        ensures given { IfOk result (λ _. lines.new.given ≡ lines.old.given + 1) }
    {
        due(lines, src)?;
        let read = marks_of(self.alloc, &Words::of(lines.line()), key, ends);
        take_line(lines, read)
    }

    /// An accepting leaf, whose line is due.
    pub fn accept_at<S: Source>(&self, lines: &mut Lines, src: &mut S) -> Result<Node, FileError>
        ensures { Follows S.left S.faults node_of (accept_at self.now) lines.old lines.new src.old src.new result }
    {
        calls_add_up::<S>();
        let numbers = self.values_line(lines, src, b"accept")?;
        let x = Values::from_vec(numbers);
        Ok(Node::Accept { u: self.u(), x })
    }

    /// What is tested of a rejecting leaf after its four lines.
    fn fits_leaf(&self, rejected: &Rejected, y: &[i64], picks: &[u32], ranks: &[u32]) -> bool
        requires numbers { length y.now ≡ length self.now.asked.model.states }
        requires picks { length picks.now ≡ length self.now.asked.model.states }
        requires ranks { length ranks.now ≡ length self.now.asked.model.states }
        requires e { rejected.now.e ≤ most_rate }
        requires k { rejected.now.k ≤ most_height }
        ensures { result ≡ fits_leaf self.now (rejected_of rejected.now) y.now picks.now ranks.now }
    {
        let model = self.model();
        let one = one_at(self.u());
        is_number(&rejected.m, u64::from(rejected.e * rejected.k))
            && is_signed(&rejected.y, y[model.init() as usize])
            && is_signed(&rejected.z, one)
            && fit_states(model, picks, ranks)
    }

    /// The line that is due, as the chosen row of each state.
    fn choices_line<S: Source>(&self, lines: &mut Lines, src: &mut S) -> Result<Vec<u32>, FileError>
        ensures value { Follows S.left S.faults (λ x. x.items)
            (line_at (marks_of (codes "choice") (map length self.now.asked.model.states)))
            lines.old lines.new src.old src.new result }
        ensures size { IfOk result (λ x. length x.items ≡ length self.now.asked.model.states) }
        ensures given { IfOk result (λ _. lines.new.given ≡ lines.old.given + 1) }
    {
        self.marks_line(lines, src, b"choice", &Ends::choices(self.model()))
    }

    /// The line that is due, as the rank of each state.
    fn ranks_line<S: Source>(
        &self,
        lines: &mut Lines,
        src: &mut S,
        k: u32,
    ) -> Result<Vec<u32>, FileError>
        requires { k ≤ most_height }
        ensures value { Follows S.left S.faults (λ x. x.items)
            (line_at (marks_of (codes "rank") (map (λ _. k + 1) self.now.asked.model.states)))
            lines.old lines.new src.old src.new result }
        ensures size { IfOk result (λ x. length x.items ≡ length self.now.asked.model.states) }
        ensures given { IfOk result (λ _. lines.new.given ≡ lines.old.given + 1) }
    {
        self.marks_line(lines, src, b"rank", &Ends::limit(self.model(), k + 1))
    }

    /// A rejecting leaf from its second line on, of which the first is read. That the leaf doesn't fit is told of its
    /// first line.
    fn rejecting<S: Source>(
        &self,
        lines: &mut Lines,
        src: &mut S,
        rejected: &Rejected,
        misfit: FileError,
    ) -> Result<Node, FileError>
        requires e { rejected.now.e ≤ most_rate }
        requires k { rejected.now.k ≤ most_height }
        requires misfit { misfit ≡ file.Text (reported_fault (record { line = lines.old.given; cause = Syntax })) }
        ensures { Follows S.left S.faults node_of (rejecting_at self.now (rejected_of rejected.now))
            lines.old lines.new src.old src.new result }
    {
        calls_add_up::<S>();
        let y = self.values_line(lines, src, b"y")?;
        let picks = self.choices_line(lines, src)?;
        let ranks = self.ranks_line(lines, src, rejected.k)?;
        if !self.fits_leaf(rejected, &y, &picks, &ranks) {
            return Err(misfit);
        }
        Ok(self.leaf(rejected, y, picks, ranks))
    }

    /// A rejecting leaf of these parts, at that precision.
    fn leaf(&self, rejected: &Rejected, y: Vec<i64>, picks: Vec<u32>, ranks: Vec<u32>) -> Node
        ensures { node_of result ≡ reject self.now.asked.w (record {
          numbers = y.items;
          picks = picks.items;
          ranks = ranks.items;
          e = rejected.now.e;
          k = rejected.now.k;
        }) }
    {
        Node::Reject {
            u: self.u(),
            e: rejected.e,
            k: rejected.k,
            y: Values::from_vec(y),
            picks: Marks::from_vec(picks),
            ranks: Marks::from_vec(ranks),
        }
    }

    /// A rejecting leaf, whose first line is due. That line is kept until the others are read.
    pub fn reject_at<S: Source>(&self, lines: &mut Lines, src: &mut S) -> Result<Node, FileError>
        ensures { Follows S.left S.faults node_of (reject_at self.now) lines.old lines.new src.old src.new result }
    {
        calls_add_up::<S>();
        let first = copy_due(self.alloc, lines, src)?;
        let misfit = fault(lines, TextCause::Syntax);
        let read = reject_of(&Words::of(&first));
        let rejected = take_line(lines, read)?;
        self.rejecting(lines, src, &rejected, misfit)
    }

    /// The decided leaf whose line is at the front.
    pub fn decided_by<S: Source>(&self, lines: &mut Lines, src: &mut S) -> Result<Node, FileError>
        requires line { IsFront front.Line lines.old.held }
        requires ready { lines.old.failure ≡ None }
        ensures { Follows S.left S.faults node_of (decided_by self.now (words (before_first is_feed lines.old.held)))
            lines.old lines.new src.old src.new result }
    {
        calls_add_up::<S>();
        if begins(lines.line(), b"accept") {
            self.accept_at(lines, src)
        } else if begins(lines.line(), b"reject") {
            self.reject_at(lines, src)
        } else {
            Err(fault(lines, TextCause::Syntax))
        }
    }
}
