ghost use Rattle.lift_cert.specs.Laws.{AcceptingBounds, LeastRefutes};
ghost use Rattle.lift_cert.specs.Laws.{RejectingReaches, LowerBounds};
ghost use Rattle.lift_cert.specs.Laws.{LowerIsBelowUpper, NotBothKinds, NotBothKindsAtAValuation};
ghost use Rattle.lift_cert.specs.Laws.{FirstAcceptMissIsOne, AcceptingMissesNone};
ghost use Rattle.lift_cert.specs.Laws.{FirstRejectMissIsOne, RejectingMissesNone};

use corner_lift::{rows_at_corners, rows_inside};
use lift_model::{tosses_are_bounded, weighted_sums_follow};

/// Holds the laws of certificates, for who reasons about them: an accepting one bounds every
/// scheduler at every valuation inside its rectangle, and where the least upper vector is beyond
/// the bound there is none. It does nothing.
pub fn certificates_decide()
    ensures accepting { AcceptingBounds }
    ensures least { LeastRefutes }
{
    tosses_are_bounded();
    rows_at_corners();
    rows_inside();
}

/// Holds the laws of rejecting certificates, for who reasons about them: at every valuation inside its
/// rectangle, each scheduler that makes its choices reaches the goal with at least what it tells; and,
/// in parts, what is reached or undecided, and how the undecided runs fall. It does nothing.
pub fn rejecting_certificates_reach()
    ensures reached { RejectingReaches }
    ensures lower { LowerBounds }
{
    weighted_sums_follow();
    rows_at_corners();
    rows_inside();
}

/// Holds the laws of certificates of both kinds, for who reasons about them: no lower vector of a
/// rectangle is above an upper one, and so it has no certificates of both kinds for one bound. Nor
/// have two rectangles that share a valuation. It does nothing.
pub fn certificates_are_of_one_kind()
    ensures below { LowerIsBelowUpper }
    ensures one { NotBothKinds }
    ensures shared { NotBothKindsAtAValuation }
{
    weighted_sums_follow();
    rows_at_corners();
    rows_inside();
}

/// Holds the laws of first misses, for who reasons about them: there is at most one, and a
/// certificate of its kind has none. It does nothing.
pub fn first_miss_is_one()
    ensures one { FirstAcceptMissIsOne }
    ensures none { AcceptingMissesNone }
    ensures one_reject { FirstRejectMissIsOne }
    ensures none_reject { RejectingMissesNone }
{
    rows_at_corners();
}
