//! Who decides rectangles for a property.

ghost use Rattle.lift_range.specs.Range.{Between};
ghost use Rattle.property_tree.specs.Decided.{leaf_in, range_leaf_in};
ghost use Rattle.property_tree.specs.Leaves.{DecidesFor, DecidesOver, IsOpenFor, IsOpenOver, PropertyLeaf, RangeLeaf};
ghost use Rattle.property_tree.specs.Ready.{AreReadyFor};
ghost use Rattle.property_tree.specs.Text.{leaf_text, range_leaf_text};

use crate::decision::Comparison;
use crate::question::Question;
use cert_text::write_at;
use lift_base::{Sink, WriteFault, writes_in_turn};
use region_tree::{Found, Lanes, Search, Side, lanes_keep_their_shape};
use tree_writer::Decider;

/// Decides the rectangles of a case for what is asked of it, at the case's precision.
#[derive(Clone, Copy)]
pub(crate) struct PropertyDecider<'a, 'm> {
    pub question: &'a Question<'a, 'm>,
}

impl<'a, 'm> Decider for PropertyDecider<'a, 'm> {
    type Room = Lanes;

    type Verdict = Side;

    ghost Leaf = { PropertyLeaf };

    ghost case = { λ d. d.question.now.case.now };

    ghost decides = { λ d. DecidesFor d.question.now.case.now d.question.now.op d.question.now.bound };

    ghost is_open = { λ d. IsOpenFor d.question.now.case.now d.question.now.op d.question.now.bound };

    ghost leaf_text = { λ d. leaf_text d.question.now.case.now d.question.now.op };

    ghost leaf = { λ d lanes verdict. leaf_in d.question.now.op lanes.pools verdict };

    ghost is_ready = { λ d made lanes. AreReadyFor d.question.now.case.now d.question.now.links.now d.question.now.op
        d.question.now.bound made lanes };

    fn decide(&self, room: &mut Lanes, sides: &[i64]) -> Option<Side> {
        lanes_keep_their_shape();
        let question = self.question;
        let search = Search {
            case: question.case,
            links: question.links,
            sought: Comparison {
                op: question.op,
                bound: question.bound,
            },
            from: question.case.w(),
        };
        match search.decide(room, sides) {
            Some(Found { side, .. }) => Some(side),
            None => None,
        }
    }

    fn write_leaf<K: Sink>(
        &self,
        room: &Lanes,
        verdict: Side,
        out: &mut K,
    ) -> Result<(), WriteFault> {
        let question = self.question;
        question.write_leaf(question.case.w(), verdict, room.pools(), out)
    }
}

/// Decides them for a range of precisions.
#[derive(Clone, Copy)]
pub(crate) struct RangeDecider<'a, 'm> {
    pub question: &'a Question<'a, 'm>,
    /// The least precision of the range, from 1 to the case's.
    pub from: u32,
}

impl<'a, 'm> Decider for RangeDecider<'a, 'm> {
    type Room = Lanes;

    type Verdict = Found;

    ghost Leaf = { RangeLeaf };

    ghost case = { λ d. d.question.now.case.now };

    ghost decides = { λ d. DecidesOver d.question.now.case.now d.from d.question.now.op d.question.now.bound };

    ghost is_open = { λ d. IsOpenOver d.question.now.case.now d.from d.question.now.op d.question.now.bound };

    ghost leaf_text = { λ d. range_leaf_text d.question.now.case.now d.question.now.op };

    ghost leaf = { λ d lanes found. range_leaf_in d.question.now.op lanes.pools found };

    ghost is_ready = { λ d made lanes. Between 1 d.question.now.case.now.w d.from
        × AreReadyFor d.question.now.case.now d.question.now.links.now d.question.now.op d.question.now.bound made lanes };

    fn decide(&self, room: &mut Lanes, sides: &[i64]) -> Option<Found> {
        lanes_keep_their_shape();
        let question = self.question;
        let search = Search {
            case: question.case,
            links: question.links,
            sought: Comparison {
                op: question.op,
                bound: question.bound,
            },
            from: self.from,
        };
        search.decide(room, sides)
    }

    fn write_leaf<K: Sink>(
        &self,
        room: &Lanes,
        verdict: Found,
        out: &mut K,
    ) -> Result<(), WriteFault> {
        writes_in_turn::<K>();
        let Found { u, side } = verdict;
        write_at(out, u)?;
        self.question.write_leaf(u, side, room.pools(), out)
    }
}
