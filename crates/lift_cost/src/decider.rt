//! Who decides rectangles for a budget.

ghost use Rattle.std.specs.Prelude.{List, ℤ};
ghost use Rattle.cert_text.specs.Report.{accept_line};
ghost use Rattle.lift_cost.specs.Decided.{DecidesCost, IsOpenCost, asked};
ghost use Rattle.lift_cost.specs.Rooms.{AreReadyFor};

use crate::question::CostQuestion;
use crate::room::CostLanes;
use cert_text::write_accept;
use lift_base::{Sink, WriteFault};
use tree_writer::Decider;

/// A rectangle is decided by the least priced vector, which is in the values.
#[derive(Clone, Copy)]
pub struct Affordable;

/// Decides the rectangles of a case for what is asked of it.
#[derive(Clone, Copy)]
pub(crate) struct CostDecider<'a, 'm> {
    pub question: &'a CostQuestion<'a, 'm>,
}

impl<'a, 'm> Decider for CostDecider<'a, 'm> {
    type Room = CostLanes;

    type Verdict = Affordable;

    ghost Leaf = { List ℤ };

    ghost case = { λ d. d.question.now.case.now };

    ghost decides = { λ d. DecidesCost d.question.now.case.now (asked d.question.now) };

    ghost is_open = { λ d. IsOpenCost d.question.now.case.now (asked d.question.now) };

    ghost leaf_text = { λ d. accept_line };

    ghost leaf = { λ d lanes verdict. lanes.values.items };

    ghost is_ready = { λ d made lanes. AreReadyFor d.question.now made lanes };

    fn decide(&self, room: &mut CostLanes, sides: &[i64]) -> Option<Affordable> {
        if self.question.decide(room, sides) {
            Some(Affordable)
        } else {
            None
        }
    }

    fn write_leaf<K: Sink>(
        &self,
        room: &CostLanes,
        _verdict: Affordable,
        out: &mut K,
    ) -> Result<(), WriteFault> {
        write_accept(out, &room.values)
    }
}
