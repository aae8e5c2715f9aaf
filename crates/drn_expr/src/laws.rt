ghost use Rattle.drn_expr.specs.Laws.{ReadingIsOver, ReadingIsWorth, MultiplesAreOver};
ghost use Rattle.drn_expr.specs.Laws.{CoefficientsAreSmall, MultiplesFit, SumsFit, ProductsFit};
ghost use Rattle.drn_expr.specs.Laws.{PlainSumsFit, SumsCommute, SumsOverOne, SumsOverOneAreValues};

use lift_frac::{divisors_and_multiples, literals_follow};
use lift_poly::{coefficients_determine, coefficients_follow, weights_follow};

/// Holds the laws of texts that read as values, for who reasons about them. It does nothing.
pub fn readings_follow()
    ensures over { ReadingIsOver }
    ensures worth { ReadingIsWorth }
    ensures multiples { MultiplesAreOver }
{
    literals_follow();
    divisors_and_multiples();
    coefficients_determine();
    coefficients_follow();
    weights_follow();
}

/// Holds that what an operation forms before it takes lowest terms is never too large, that sums have no
/// order, and what a sum over 1 comes to, for the proofs of operations. It does nothing.
pub(crate) fn operations_fit()
    ensures coefficients { CoefficientsAreSmall }
    ensures multiples { MultiplesFit }
    ensures sums { SumsFit }
    ensures plain_sums { PlainSumsFit }
    ensures products { ProductsFit }
    ensures commute { SumsCommute }
    ensures over_one { SumsOverOne }
    ensures values { SumsOverOneAreValues }
{
    divisors_and_multiples();
    coefficients_determine();
    coefficients_follow();
}
