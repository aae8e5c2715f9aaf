//! Laws of precisions, for who reasons about them. The functions do nothing.

ghost use Rattle.lift_range.specs.Laws.{
  AcceptingDoubles,
  HighSideDoubles,
  LowSideDoubles,
  LowerAllDoubles,
  LowerDoubles,
  NoneAcceptsBelow,
  NoneRejectsBelow,
  NotBothKindsAtPrecisions,
  RejectingDoubles,
  UnboundedLowerDoubles,
  UpperDoubles,
  UpperOneDoubles,
};

use lift_cert::certificates_are_of_one_kind;

/// Certificates of either kind, with each number doubled, are such at the next precision, and so on. So what
/// exists at a precision exists at each greater one.
pub fn certificates_double()
    ensures accepting { AcceptingDoubles }
    ensures rejecting { RejectingDoubles }
    ensures none_accepts { NoneAcceptsBelow }
    ensures none_rejects { NoneRejectsBelow }
{}

/// Vectors of each kind, with each number doubled, are such at the next precision, and so on, and a state's number stays
/// on its side of a bound.
pub fn vectors_double()
    ensures upper { UpperDoubles }
    ensures upper_one { UpperOneDoubles }
    ensures lower { LowerDoubles }
    ensures lower_all { LowerAllDoubles }
    ensures unbounded { UnboundedLowerDoubles }
    ensures low { LowSideDoubles }
    ensures high { HighSideDoubles }
{}

/// No rectangle has certificates of both kinds, at any two precisions.
pub fn precisions_agree()
    ensures { NotBothKindsAtPrecisions }
{
    certificates_are_of_one_kind();
}
