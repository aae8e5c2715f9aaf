ghost use Rattle.lift_frac.specs.Laws.{ReadingIsFraction, LowestIsFraction, ValueIsFraction};
ghost use Rattle.lift_frac.specs.Laws.{GcdIsGreatest, GcdIsUnique, GcdIsWithin, LcmIsMultiple};
ghost use Rattle.lift_frac.specs.Laws.{LcmIsLeast, LcmIsAtLeast};

/// Holds the laws of greatest common divisors and least common multiples, for who reasons about
/// them. It does nothing.
pub fn divisors_and_multiples()
    ensures greatest { GcdIsGreatest }
    ensures unique { GcdIsUnique }
    ensures within { GcdIsWithin }
    ensures multiple { LcmIsMultiple }
    ensures least { LcmIsLeast }
    ensures at_least { LcmIsAtLeast }
{}

/// Holds the law of literals, for who reasons about them. It does nothing.
pub fn literals_follow()
    ensures { ReadingIsFraction }
{}

/// Holds the laws of what quotients and literals are worth, for who reasons about them. It does
/// nothing.
pub fn fractions_follow()
    ensures quotients { LowestIsFraction }
    ensures literals { ValueIsFraction }
{}
