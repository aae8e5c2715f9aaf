ghost use Rattle.drn_read.specs.Laws.{SaysMore, TextsAreValid};
ghost use Rattle.drn_read.specs.CostLaws.{CostsAreReadWithTheModel};

use drn_expr::readings_follow;
use lift_frac::divisors_and_multiples;
use lift_poly::coefficients_determine;

/// Holds the law that behind a line without fault that is no comment, what a text says has grown by
/// that line, for who reasons about a text of many lines. It does nothing.
pub fn lines_say_more()
    ensures { SaysMore }
{}

/// Holds the law that a text which stands for a model stands for a valid one, with short names of
/// parameters and small entries. It does nothing.
pub fn texts_are_valid()
    ensures { TextsAreValid }
{
    readings_follow();
    coefficients_determine();
    divisors_and_multiples();
}

/// Holds the law that a text which stands for a model with costs stands for the same model without
/// its rewards, and that each state has a cost. It does nothing.
pub fn costs_are_read_with_the_model()
    ensures { CostsAreReadWithTheModel }
{}
