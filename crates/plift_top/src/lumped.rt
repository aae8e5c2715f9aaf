// Verifies a chain by its quotient.
ghost use Rattle.std.specs.Prelude.{◌≡◌, None};
ghost use Rattle.lift_model.specs.declared.kind.Kind.TheVariants.{Dtmc};
ghost use Rattle.plift_words.specs.declared.query.Query.TheVariants as query;
ghost use Rattle.plift_top.specs.Asked.{AskedModel};
ghost use Rattle.plift_top.specs.Steps.{IsTestedCase, AnswersCase};
ghost use Rattle.plift_top.specs.Lumped.{lumped_case};

use crate::refusal::Refusal;
use crate::report::{Reach, answer_reach};
use corner_lift::Case;
use lift_base::Sink;
use lift_cert::Bound;
use lift_lump::{Lumped, lump, quotients_are_cases, quotients_hold};
use lift_model::Links;
use lift_rows::cases_have_distributions;
use std::alloc::Global;

// Takes all memory that the quotient of a case's chain needs, and writes its report.
fn write_quotient<K: Sink>(
    alloc: Global,
    case: &Case,
    lumped: &Lumped,
    bound: Bound,
    out: &mut K,
) -> Result<(), Refusal>
    requires { IsTestedCase (lumped_case case.now lumped.now) }
    ensures { (a : AskedModel) → AnswersCase K.taken K.faults (query.Whole bound None) a
        (lumped_case case.now lumped.now) out.old out.new result }
{
    let quotient = Case::new(lumped.model(), case.root(), case.grid(), case.w());
    let links = Links::build(alloc, lumped.model())?;
    let reach = Reach {
        case: &quotient,
        links: &links,
        bound,
        from: None,
    };
    answer_reach(alloc, &reach, out)
}

/// Lumps the chain of a case whose rows were tested, takes all memory that its quotient needs, and writes the report
/// of that.
pub(crate) fn write_lumped<K: Sink>(
    alloc: Global,
    case: &Case,
    bound: Bound,
    out: &mut K,
) -> Result<(), Refusal>
    requires case { IsTestedCase case.now }
    requires chain { case.now.model.kind ≡ Dtmc }
    ensures { (a : AskedModel) → AnswersCase K.taken K.faults (query.Lumped bound) a case.now
        out.old out.new result }
{
    quotients_hold();
    quotients_are_cases();
    cases_have_distributions();
    let lumped = lump(alloc, case.model())?;
    let written = write_quotient(alloc, case, &lumped, bound, out);
    drop(lumped);
    written
}
