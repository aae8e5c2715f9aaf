// Verifies a model: against a bound, on any number of steps, on as many as are told, by its quotient, or for a
// property; or against a budget.
ghost use Rattle.std.specs.Prelude.{◌≡◌, ◌≤◌, false, true, Ok, None, Some, IfOk, IfErr, length};
ghost use Rattle.std.specs.Option.{option_copied};
ghost use Rattle.lift_grid.specs.Rectangle.{IsOnGrid};
ghost use Rattle.lift_grid.specs.Parts.{region_of};
ghost use Rattle.lift_model.specs.Links.{AreLinks};
ghost use Rattle.plift_words.specs.Given.{verify_data};
ghost use Rattle.plift_words.specs.Query.{is_cost};
ghost use Rattle.cert_check.specs.Source.{file_limit};
ghost use Rattle.plift_top.specs.Asked.{AskedModel, cut, safe_in, verified_model};
ghost use Rattle.plift_top.specs.Reads.{KeepsLimit, Reads, ReadsText};
ghost use Rattle.plift_top.specs.Verify.{verifying, lacks_chain};
ghost use Rattle.plift_top.specs.Steps.{IsTestedCase, IsTextFault, IsModelOf, HasCosts, NamesRoot};
ghost use Rattle.plift_top.specs.Steps.{without_costs, AnswersCase, WritesOver};

use crate::bounded::{Within, answer_within};
use crate::cost::answer_cost;
use crate::costed::CostedModel;
use crate::lumped::write_lumped;
use crate::property::answer_property;
use crate::refusal::Refusal;
use crate::report::{Reach, answer_reach};
use corner_lift::Case;
use drn_read::{Costs, costs_are_read_with_the_model, read_costs, read_model};
use lift_base::{Sink, Source, read_all};
use lift_cost::CostQuestion;
use lift_grid::{Grid, Rect, read_region};
use lift_model::{Kind, Links, Model};
use lift_names::Names;
use lift_rows::{admit, admit_linked};
use plift_words::{Query, VerifyJob};
use property_text::{goals_of, restrict};
use property_tree::Question;
use std::alloc::Global;

/// How many bytes a text may have.
pub(crate) const TEXT_LIMIT: usize = 1 << 26;

// What has many parts is let go by a call of `drop`, so that no proof has a step for each of them.

// Which states of a text have a label.
fn states_with(alloc: Global, text: &[u8], label: &[u8]) -> Result<Vec<bool>, Refusal>
    requires { length text.now ≤ file_limit }
    ensures states { IfOk result (λ states. safe_in text.now (Some label.now) ≡ Ok (Some states.items)) }
    ensures cause { IfErr result (IsTextFault (safe_in text.now (Some label.now))) }
{
    let model = read_model(alloc, text, label)?;
    let states = goals_of(alloc, &model);
    drop(model);
    let states = states?;
    Ok(states)
}

// The model that a text stands for, with the costs of its states by the reward of this name.
fn costed_in(
    alloc: Global,
    job: &VerifyJob,
    reward: &[u8],
    text: &[u8],
) -> Result<CostedModel, Refusal>
    requires short { length text.now ≤ file_limit }
    requires reward { option_copied job.now.reward ≡ Some reward.now }
    ensures model { IfOk result (λ m. IsModelOf (verify_data job.now) m text.now) }
    ensures count { IfOk result (λ m. length m.costs ≡ length m.model.states) }
    ensures cause { IfErr result (IsTextFault (verified_model (verify_data job.now) text.now)) }
{
    costs_are_read_with_the_model();
    let (model, costs) = read_costs(alloc, text, job.goal, reward)?;
    Ok(CostedModel { model, costs })
}

// The model that a text stands for without costs, after the cut where the job has a label of safe states.
fn model_in(alloc: Global, job: &VerifyJob, text: &[u8]) -> Result<Model, Refusal>
    requires short { length text.now ≤ file_limit }
    requires none { job.now.reward ≡ None }
    ensures model { IfOk result (λ m. IsModelOf (verify_data job.now) (without_costs m) text.now) }
    ensures cause { IfErr result (IsTextFault (verified_model (verify_data job.now) text.now)) }
{
    let model = read_model(alloc, text, job.goal)?;
    let Some(label) = job.safe else {
        return Ok(model);
    };
    let safe = states_with(alloc, text, label)?;
    let after = restrict(alloc, &model, &safe);
    drop(model);
    let after = after?;
    Ok(after)
}

// The model that a text stands for as the job asks of it.
fn asked_in(alloc: Global, job: &VerifyJob, text: &[u8]) -> Result<CostedModel, Refusal>
    requires { length text.now ≤ file_limit }
    ensures model { IfOk result (λ m. IsModelOf (verify_data job.now) m text.now) }
    ensures costs { IfOk result (HasCosts job.now.query) }
    ensures cause { IfErr result (IsTextFault (verified_model (verify_data job.now) text.now)) }
{
    if let Some(reward) = job.reward {
        return costed_in(alloc, job, reward, text);
    }
    let model = model_in(alloc, job, text)?;
    Ok(CostedModel {
        model,
        costs: Costs::new(alloc),
    })
}

// The rectangle that the job's region names, over its grid.
fn root_of(alloc: Global, job: &VerifyJob, names: &Names) -> Result<(Grid, Rect), Refusal>
    ensures answer { NamesRoot (verify_data job.now) names.now result }
    ensures on_grid { IfOk result (λ p. IsOnGrid p.0.d p.0.depth (length names.now) p.1) }
    ensures depth { IfOk result (λ p. p.0.depth ≡ job.now.depth) }
{
    let root = read_region(alloc, job.region, names, job.depth)?;
    Ok(root)
}

// A case whose rows were tested, with what it may be asked about.
#[derive(Clone, Copy)]
struct TestedCase<'c, 'm> {
    pub case: &'c Case<'m>,
    /// The links of the case's model.
    pub links: &'c Links,
    /// What a visit of each state costs, where it is asked what is paid.
    pub costs: &'c Costs,
}

// Takes all memory that a job needs at a case whose rows were tested, and writes its answer.
fn write_answer<K: Sink>(
    alloc: Global,
    job: &VerifyJob,
    tested: &TestedCase,
    out: &mut K,
) -> Result<(), Refusal>
    requires case { IsTestedCase tested.now.case.now }
    requires links { AreLinks tested.now.case.now.model tested.now.links.now }
    requires costs { is_cost job.now.query ≡ true
        → length tested.now.costs.now ≡ length tested.now.case.now.model.states }
    requires precision { tested.now.case.now.w ≡ job.now.precision }
    requires chain { lacks_chain job.now.query tested.now.case.now.model.kind ≡ false }
    ensures { (a : AskedModel) → tested.now.case.now.model ≡ cut a → tested.now.costs.now ≡ a.costs
        → AnswersCase K.taken K.faults job.now.query a tested.now.case.now out.old out.new result }
{
    let TestedCase { case, links, costs } = *tested;
    match job.query {
        Query::Whole(bound, from) => answer_reach(
            alloc,
            &Reach {
                case,
                links,
                bound,
                from,
            },
            out,
        ),
        Query::Within(bound, steps) => answer_within(
            alloc,
            &Within {
                case,
                links,
                bound,
                steps,
            },
            out,
        ),
        Query::Lumped(bound) => write_lumped(alloc, case, bound, out),
        Query::Property(bound, op, from) => answer_property(
            alloc,
            &Question {
                case,
                links,
                op,
                bound,
                from,
            },
            out,
        ),
        Query::Cost(limits) => answer_cost(
            alloc,
            &CostQuestion {
                case,
                links,
                costs,
                cap: limits.cap,
                budget: limits.budget,
            },
            out,
        ),
    }
}

// Tests the rows of a model over a root, and writes the answer to that case.
fn write_over<K: Sink>(
    alloc: Global,
    job: &VerifyJob,
    costed: &CostedModel,
    region: &(Grid, Rect),
    out: &mut K,
) -> Result<(), Refusal>
    requires grid { IsOnGrid region.now.0.d region.now.0.depth (length costed.now.model.names) region.now.1 }
    requires depth { region.now.0.depth ≡ job.now.depth }
    requires chain { lacks_chain job.now.query costed.now.model.kind ≡ false }
    requires costs { HasCosts job.now.query costed.now }
    ensures { (a : AskedModel) → costed.now.model ≡ cut a → costed.now.costs ≡ a.costs
        → WritesOver K.taken K.faults (verify_data job.now) a (region_of region.now) out.old out.new result }
{
    let (grid, root) = (region.0, &region.1);
    let model = &costed.model;
    let Ok(links) = Links::build(alloc, model) else {
        // A row that isn't admitted is told all the same.
        admit(model, root, grid, job.precision)?;
        return Err(Refusal::Memory);
    };
    let case = admit_linked(model, root, grid, job.precision, &links)?;
    let tested = TestedCase {
        case: &case,
        links: &links,
        costs: &costed.costs,
    };
    let written = write_answer(alloc, job, &tested, out);
    drop(links);
    written
}

// Whether a chain is to be lumped, and the model is a decision process.
fn lacks_chain(query: Query, kind: Kind) -> bool
    ensures { result ≡ lacks_chain query kind }
{
    match query {
        Query::Lumped(_) => match kind {
            Kind::Mdp => true,
            Kind::Dtmc => false,
        },
        Query::Whole(..) | Query::Within(..) | Query::Property(..) | Query::Cost(_) => false,
    }
}

// Verifies the model that a text stands for as the job asks of it. The text is let go before its rows are tested.
fn verify_text<K: Sink>(
    alloc: Global,
    job: &VerifyJob,
    text: Vec<u8>,
    out: &mut K,
) -> Result<(), Refusal>
    requires { length text.items ≤ file_limit }
    ensures { ReadsText K.taken K.faults (verifying (verify_data job.now)) text.items out.old out.new result }
{
    let asked = asked_in(alloc, job, &text);
    drop(text);
    let costed = asked?;
    if lacks_chain(job.query, costed.model.kind()) {
        return Err(Refusal::NotChain);
    }
    let region = root_of(alloc, job, costed.model.names())?;
    let written = write_over(alloc, job, &costed, &region, out);
    drop(costed);
    written
}

/// Reads a model from the source, with its costs where the job has a reward, cuts it where the job has a label of safe
/// states, tests its rows over the job's region, and writes its report, its text for the job's number of steps, for its
/// property or for its budget, or the report of its quotient.
pub fn verify<S: Source, K: Sink>(
    alloc: Global,
    job: &VerifyJob,
    source: &mut S,
    out: &mut K,
) -> Result<(), Refusal>
    ensures answer { Reads S.left S.faults K.taken K.faults (verifying (verify_data job.now))
        source.old source.new out.old out.new result }
    ensures limit { KeepsLimit result (S.left source.old) (S.left source.new) }
{
    let text = read_all(alloc, source, TEXT_LIMIT)?;
    verify_text(alloc, job, text, out)
}
