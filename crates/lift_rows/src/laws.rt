ghost use Rattle.lift_rows.specs.Laws.{FirstFaultIsOne, AdmittedHasNoFault};
ghost use Rattle.lift_rows.specs.Laws.{UnadmittedHasAFirstFault, CasesHaveWeights, CasesHaveSums};

use corner_lift::rows_inside;

/// Holds the laws of first faults, for who reasons about them: a model has at most one, and one that is
/// admitted has none. It does nothing.
pub fn first_fault_is_one()
    ensures one { FirstFaultIsOne }
    ensures none { AdmittedHasNoFault }
{}

/// Holds that a model that isn't admitted has a first fault, for who reasons about them. It does
/// nothing.
pub fn unadmitted_has_a_first_fault()
    ensures { UnadmittedHasAFirstFault }
{}

/// Holds that in a case each row is a distribution at every valuation inside the root: no weight is
/// negative, and they sum to the total. It does nothing.
pub fn cases_have_distributions()
    ensures weights { CasesHaveWeights }
    ensures sums { CasesHaveSums }
{
    rows_inside();
}
