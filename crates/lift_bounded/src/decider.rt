//! Who decides rectangles for a number of steps.

ghost use Rattle.lift_bounded.specs.Decided.{BoundedLeaf, DecidesWithin, IsOpenWithin, leaf_of};
ghost use Rattle.lift_bounded.specs.Rooms.{AreReadyFor};
ghost use Rattle.lift_bounded.specs.Text.{leaf_text};

use crate::decision::{Verdict, decide_over};
use crate::room::StepLanes;
use crate::writers::{write_accept, write_reject};
use corner_lift::Case;
use lift_base::{Sink, WriteFault};
use lift_cert::Bound;
use lift_model::Links;
use lift_pool::lanes_have_shapes;
use tree_writer::Decider;

/// Decides the rectangles of a case for a bound and a number of steps.
#[derive(Clone, Copy)]
pub(crate) struct StepDecider<'a> {
    pub case: &'a Case<'a>,
    /// The links of the case's model.
    pub links: &'a Links,
    pub bound: Bound,
    pub steps: u32,
}

impl<'a> Decider for StepDecider<'a> {
    type Room = StepLanes;

    type Verdict = Verdict;

    ghost Leaf = { BoundedLeaf };

    ghost case = { λ d. d.case.now };

    ghost decides = { λ d. DecidesWithin d.case.now d.bound d.steps };

    ghost is_open = { λ d. IsOpenWithin d.case.now d.bound d.steps };

    ghost leaf_text = { λ d. leaf_text d.case.now d.steps };

    ghost leaf = { λ d lanes verdict. leaf_of lanes.numbers.lanes lanes.picks.lanes verdict };

    ghost is_ready = { λ d made lanes. AreReadyFor d.case.now d.links.now d.steps made lanes };

    fn decide(&self, room: &mut StepLanes, sides: &[i64]) -> Option<Verdict> {
        decide_over(self, room, sides)
    }

    fn write_leaf<K: Sink>(
        &self,
        room: &StepLanes,
        verdict: Verdict,
        out: &mut K,
    ) -> Result<(), WriteFault> {
        lanes_have_shapes::<i64>();
        lanes_have_shapes::<u32>();
        match verdict {
            Verdict::Accept => write_accept(out, self.steps, &room.numbers),
            Verdict::Reject => {
                write_reject(out, self.case, self.steps, &room.numbers, &room.picks)
            }
        }
    }
}
