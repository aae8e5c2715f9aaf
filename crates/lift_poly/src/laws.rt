ghost use Rattle.lift_poly.specs.Laws.{TermsSumToPolynomial, TermsSumBySet, CoefficientsDetermine};
ghost use Rattle.lift_poly.specs.Laws.{TermsHaveCoefficients, CoefficientsAreTerms};
ghost use Rattle.lift_poly.specs.Laws.{SumsAddCoefficients, MultiplesScaleCoefficients};
ghost use Rattle.lift_poly.specs.Laws.{ProductsMultiplyCoefficients, MultiplesKeepTerms};
ghost use Rattle.lift_poly.specs.Laws.{QuotientsAreExact, QuotientsArePolynomials};
ghost use Rattle.lift_poly.specs.Laws.{TermsSumByWeight, SumsAddWeights, MultiplesScaleWeights};
ghost use Rattle.lift_poly.specs.Laws.{ProductsMultiplyWeights, IsAffineInEach};

/// Holds the laws of polynomials as finite maps, for who reasons about them: terms in any order sum
/// to one polynomial, which has their coefficients, and its terms are its coefficients that aren't 0. It
/// does nothing.
pub fn coefficients_determine()
    ensures polynomial { TermsSumToPolynomial }
    ensures coefficients { TermsSumBySet }
    ensures unique { CoefficientsDetermine }
    ensures terms { TermsHaveCoefficients }
    ensures found { CoefficientsAreTerms }
{}

/// Holds the laws of the coefficients of sums, of multiples and of products, and of multiples and
/// quotients term by term, for who reasons about them. It does nothing.
pub fn coefficients_follow()
    ensures sums { SumsAddCoefficients }
    ensures multiples { MultiplesScaleCoefficients }
    ensures products { ProductsMultiplyCoefficients }
    ensures kept { MultiplesKeepTerms }
    ensures exact { QuotientsAreExact }
    ensures quotients { QuotientsArePolynomials }
{}

/// Holds the laws of weights at a valuation: those of any terms, of sums, of multiples and of products, and that
/// a polynomial is affine in each parameter. It does nothing.
pub fn weights_follow()
    ensures terms { TermsSumByWeight }
    ensures sums { SumsAddWeights }
    ensures multiples { MultiplesScaleWeights }
    ensures products { ProductsMultiplyWeights }
    ensures affine { IsAffineInEach }
{}
