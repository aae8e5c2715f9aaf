// The text of a case for a budget, which is written while its tree is walked over.
ghost use Rattle.std.specs.Prelude.{◌≡◌, ◌++◌, unsigned_abs, length};
ghost use Rattle.std.specs.List.{concat, flat_map};
ghost use Rattle.lift_base.specs.Outside.{Wrote};
ghost use Rattle.lift_cost.specs.Decided.{CanAskCost, asked};
ghost use Rattle.lift_cost.specs.Rooms.{IsMadeFor};
ghost use Rattle.lift_cost.specs.Text.{IsTreeText};
ghost use Rattle.cert_text.specs.Report.{line, spaced};
ghost use Rattle.plift_words.specs.declared.query.Query.TheVariants as query;
ghost use Rattle.plift_top.specs.Asked.{AskedModel, cut};
ghost use Rattle.plift_top.specs.Cost.{fraction_word, cost_word, cost_words, limit_lines, cost_head};
ghost use Rattle.plift_top.specs.Steps.{IsTestedCase, AnswersCase};

use crate::asking::{Asking, answer};
use crate::heads::write_fineness;
use crate::refusal::Refusal;
use cert_text::write_model;
use corner_lift::live_parameters_have_spans;
use drn_read::Costs;
use lift_base::{Sink, Word, WriteFault, write_all, write_words, writes_in_turn};
use lift_cost::{CostQuestion, CostRoom, cost_certificates_decide, write_tree};
use lift_grid::trees_tile;
use region_tree::rectangles_at_depths;
use std::alloc::{AllocError, Global};

// Writes a cost behind a space.
fn write_cost<K: Sink>(out: &mut K, cost: (i64, i64)) -> Result<(), WriteFault>
    ensures { Wrote K.taken K.faults out.old out.new result
        (spaced (fraction_word (unsigned_abs cost.0) (unsigned_abs cost.1))) }
{
    let (num, den) = cost;
    write_words(
        out,
        &[
            Word::Text(b" "),
            Word::Count(num.unsigned_abs()),
            Word::Text(b"/"),
            Word::Count(den.unsigned_abs()),
        ],
    )
}

// Writes the costs of so many states.
fn write_each_cost<K: Sink>(out: &mut K, costs: &Costs, states: u32) -> Result<(), WriteFault>
    requires { length costs.now ≡ states }
    ensures { Wrote K.taken K.faults out.old out.new result (flat_map (λ cost. spaced (cost_word cost)) costs.now) }
{
    writes_in_turn::<K>();
    for s in 0..states {
        write_cost(out, costs.get(s))?;
    }
    Ok(())
}

// Writes the line of the costs.
fn write_costs<K: Sink>(out: &mut K, costs: &Costs, states: u32) -> Result<(), WriteFault>
    requires { length costs.now ≡ states }
    ensures { Wrote K.taken K.faults out.old out.new result (line (cost_words costs.now)) }
{
    writes_in_turn::<K>();
    write_all(out, b"cost")?;
    write_each_cost(out, costs, states)?;
    write_all(out, b"\n")
}

// Writes the cap and the budget.
#[tactic(auto, unfolding(crate::specs::Cost::limit_lines))]
fn write_limits<K: Sink>(out: &mut K, question: &CostQuestion) -> Result<(), WriteFault>
    ensures { Wrote K.taken K.faults out.old out.new result (concat (limit_lines (asked question.now))) }
{
    write_words(
        out,
        &[
            Word::Text(b"cap "),
            Word::Count(u64::from(question.cap)),
            Word::Text(b"\nbudget "),
            Word::Count(question.budget.num),
            Word::Text(b"/"),
            Word::Count(u64::from(question.budget.den)),
            Word::Text(b"\n"),
        ],
    )
}

// Writes what is asked: the costs, and what limits them.
fn write_asked<K: Sink>(out: &mut K, question: &CostQuestion) -> Result<(), WriteFault>
    requires { length question.now.costs.now ≡ length question.now.case.now.model.states }
    ensures { Wrote K.taken K.faults out.old out.new result
        (line (cost_words question.now.costs.now) ++ concat (limit_lines (asked question.now))) }
{
    writes_in_turn::<K>();
    write_costs(out, question.costs, question.case.model().states())?;
    write_limits(out, question)
}

// Writes the head: the version, the case's model, and what is asked of it.
fn write_cost_head<K: Sink>(out: &mut K, question: &CostQuestion) -> Result<(), WriteFault>
    requires { length question.now.costs.now ≡ length question.now.case.now.model.states }
    ensures { Wrote K.taken K.faults out.old out.new result
        (concat (cost_head question.now.case.now (asked question.now))) }
{
    writes_in_turn::<K>();
    write_all(out, b"plift-cost 1\n")?;
    write_model(out, question.case.model())?;
    write_asked(out, question)?;
    write_fineness(out, question.case, None)
}

impl<'c, 'm> Asking for CostQuestion<'c, 'm> {
    type Room = CostRoom;

    ghost can = { CanAskCost };

    ghost is_made = { λ q. IsMadeFor q.case.now q.links.now };

    ghost head = { λ q. concat (cost_head q.case.now (asked q)) };

    ghost are_nodes = { λ q. IsTreeText q.case.now (asked q) q.case.now.root 0 };

    fn make_room(&self, alloc: Global) -> Result<CostRoom, AllocError> {
        CostRoom::make(alloc, self.case, self.links)
    }

    fn write_head<K: Sink>(&self, out: &mut K) -> Result<(), WriteFault> {
        write_cost_head(out, self)
    }

    fn write_nodes<K: Sink>(&self, room: &mut CostRoom, out: &mut K) -> Result<(), WriteFault> {
        write_tree(self, room, out)
    }
}

/// Takes all memory that is needed for a budget at a case whose rows were tested, and writes the text for it.
pub(crate) fn answer_cost<K: Sink>(
    alloc: Global,
    question: &CostQuestion,
    out: &mut K,
) -> Result<(), Refusal>
    requires case { IsTestedCase question.now.case.now }
    requires can { CanAskCost question.now }
    ensures { (a : AskedModel) → question.now.case.now.model ≡ cut a → question.now.costs.now ≡ a.costs
        → AnswersCase K.taken K.faults
        (query.Cost (record { cap = question.now.cap; budget = question.now.budget })) a question.now.case.now
        out.old out.new result }
{
    question.costs.are_costs();
    cost_certificates_decide();
    rectangles_at_depths();
    live_parameters_have_spans();
    trees_tile();
    answer(alloc, question, out)
}
