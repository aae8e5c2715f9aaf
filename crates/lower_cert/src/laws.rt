//! Laws of greatest lower vectors, for who reasons about them. The functions do nothing.

ghost use Rattle.lower_cert.specs.Laws.{
  CappedIsBelow,
  CappingKeeps,
  QuotientCaps,
  StayingCaps,
  CapsMore,
  LevelCaps,
  ClosedIsAbove,
  StuckAreCapped,
  StagesAreGreatest,
  GreatestIsOne,
  CappingKeepsUnder,
  GuessIsAbove,
  SmallRefutes,
  HeldThatFell,
  HeldHigher,
};
ghost use Rattle.lower_cert.specs.AnyRanks.{RanksFit, HeightFits};
ghost use Rattle.lower_cert.specs.Premises.{Premises};

use corner_lift::rows_at_corners;

/// Lowering a vector that is at or above every lower vector: which steps keep it so, from where to
/// start, and when what is left is the greatest lower vector, which is one. Where it is within the
/// bound there is no rejecting certificate.
pub fn vectors_are_lowered()
    ensures below { CappedIsBelow }
    ensures keeps { CappingKeeps }
    ensures quotient { QuotientCaps }
    ensures staying { StayingCaps }
    ensures more { CapsMore }
    ensures level { LevelCaps }
    ensures start { ClosedIsAbove }
    ensures stuck { StuckAreCapped }
    ensures greatest { StagesAreGreatest }
    ensures one { GreatestIsOne }
    ensures under { CappingKeepsUnder }
    ensures guess { GuessIsAbove }
    ensures refutes { SmallRefutes }
    ensures fell { HeldThatFell }
    ensures higher { HeldHigher }
{
    premises();
}

/// Ranks of at most the number of states leave no lower vector out: one with any ranks has one with such
/// ranks, for the same numbers and rate; and the greatest one has such ranks.
pub fn ranks_fit()
    ensures any { RanksFit }
    ensures greatest { HeightFits }
{}

/// The laws of rows at corners that the proofs here rest on.
pub(crate) fn premises()
    ensures { Premises }
{
    rows_at_corners();
}
