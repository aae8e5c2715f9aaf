//! What is sought of a rectangle: a certificate from above, or one from below.

ghost use Rattle.std.specs.Prelude.{◌≡◌, ◌≤◌, IfSome, IsFalse, IsNone, IsTrue};
ghost use Rattle.lift_grid.specs.Rectangle.{spans_of};
ghost use Rattle.corner_lift.specs.Case.{most_precision};
ghost use Rattle.lift_collapse.specs.Filled.{IsFilled};
ghost use Rattle.region_tree.specs.Decided.{CanAsk};
ghost use Rattle.region_tree.specs.Rooms.{HasPools, KeepsPools};
ghost use Rattle.region_tree.specs.Sides.{AgreeAtPrecisions, AreApart, IsSoundFor, IsTold};

use crate::decided::Outlook;
use crate::finder::Finder;
use crate::pools::Pools;
use crate::side::Side;
use corner_lift::Case;
use lift_collapse::Collapse;
use lower_cert::Rate;

/// Seeks the certificates of a rectangle that decide it: one that bounds from above what is reached, or one that bounds
/// it from below.
pub trait Sought {
    ghost use Rattle.region_tree.specs.Sides.{Certificates};

    /// Which certificates those are.
    ghost certificates: { Self → Certificates };

    /// The greatest number over 2 to the precision `u` with which a certificate from above decides. By it a precision is
    /// chosen that is tried, and nothing that is decided rests on it.
    fn limit(&self, u: u32) -> i64
        requires { u ≤ most_precision };

    /// Whether a certificate from above decides the rectangle. Then it is in the lanes.
    fn find_above(
        &self,
        finder: &Finder,
        collapse: &mut Option<Collapse>,
        pools: &mut Pools,
    ) -> bool
        requires asked { CanAsk finder.now.case.now finder.now.links.now (spans_of finder.now.sides.now) finder.now.weights.now }
        requires filled { IfSome collapse.old (IsFilled finder.now.case.now (spans_of finder.now.sides.now)) }
        requires pools { HasPools finder.now.case.now.model pools.old }
        ensures collapse { collapse.new ≡ collapse.old }
        ensures pools { KeepsPools pools.old pools.new }
        ensures found { IsTrue result → (certificates self.now).above finder.now.case.now (spans_of finder.now.sides.now) pools.new }
        ensures none { IsFalse result → (certificates self.now).none_above finder.now.case.now (spans_of finder.now.sides.now) };

    /// The rate of a certificate from below that decides it. Then the rest of it is in the lanes.
    fn find_below(
        &self,
        finder: &Finder,
        collapse: &mut Option<Collapse>,
        pools: &mut Pools,
    ) -> Option<Rate>
        requires asked { CanAsk finder.now.case.now finder.now.links.now (spans_of finder.now.sides.now) finder.now.weights.now }
        requires filled { IfSome collapse.old (IsFilled finder.now.case.now (spans_of finder.now.sides.now)) }
        requires pools { HasPools finder.now.case.now.model pools.old }
        ensures collapse { collapse.new ≡ collapse.old }
        ensures pools { KeepsPools pools.old pools.new }
        ensures found { IfSome result (λ rate. (certificates self.now).below finder.now.case.now (spans_of finder.now.sides.now) pools.new rate.e rate.k) }
        ensures none { IsNone result → (certificates self.now).none_below finder.now.case.now (spans_of finder.now.sides.now) };

    /// Where two rectangles share a valuation, not one is decided from above and the other from below. It does nothing.
    fn meeting_rectangles_agree(&self, case: &Case)
        ensures { AreApart (certificates self.now) case.now };

    /// What is decided at a precision is decided at each greater one, from the same side. It does nothing.
    fn precisions_agree(&self, case: &Case)
        ensures { AgreeAtPrecisions (certificates self.now) case.now };
}

/// Whether a certificate from above decides the rectangle, if one may.
fn is_above<S: Sought>(
    sought: &S,
    may: bool,
    finder: &Finder,
    collapse: &mut Option<Collapse>,
    pools: &mut Pools,
) -> bool
    requires asked { CanAsk finder.now.case.now finder.now.links.now (spans_of finder.now.sides.now) finder.now.weights.now }
    requires filled { IfSome collapse.old (IsFilled finder.now.case.now (spans_of finder.now.sides.now)) }
    requires pools { HasPools finder.now.case.now.model pools.old }
    requires may { IsFalse may → (S.certificates sought.now).none_above finder.now.case.now (spans_of finder.now.sides.now) }
    ensures collapse { collapse.new ≡ collapse.old }
    ensures pools { KeepsPools pools.old pools.new }
    ensures found { IsTrue result → (S.certificates sought.now).above finder.now.case.now (spans_of finder.now.sides.now) pools.new }
    ensures none { IsFalse result → (S.certificates sought.now).none_above finder.now.case.now (spans_of finder.now.sides.now) }
{
    if !may {
        return false;
    }
    sought.find_above(finder, collapse, pools)
}

/// The rate of one from below that decides it, if one may.
fn rate_below<S: Sought>(
    sought: &S,
    may: bool,
    finder: &Finder,
    collapse: &mut Option<Collapse>,
    pools: &mut Pools,
) -> Option<Rate>
    requires asked { CanAsk finder.now.case.now finder.now.links.now (spans_of finder.now.sides.now) finder.now.weights.now }
    requires filled { IfSome collapse.old (IsFilled finder.now.case.now (spans_of finder.now.sides.now)) }
    requires pools { HasPools finder.now.case.now.model pools.old }
    requires may { IsFalse may → (S.certificates sought.now).none_below finder.now.case.now (spans_of finder.now.sides.now) }
    ensures collapse { collapse.new ≡ collapse.old }
    ensures pools { KeepsPools pools.old pools.new }
    ensures found { IfSome result (λ rate. (S.certificates sought.now).below finder.now.case.now (spans_of finder.now.sides.now) pools.new rate.e rate.k) }
    ensures none { IsNone result → (S.certificates sought.now).none_below finder.now.case.now (spans_of finder.now.sides.now) }
{
    if !may {
        return None;
    }
    sought.find_below(finder, collapse, pools)
}

/// Decides the rectangle at the case's precision, of which that is known. Its certificate is in the lanes then; None
/// comes where there is none from either side. Where one from below is to be expected it is sought first, since then
/// none from above decides, and nothing is lost.
pub(crate) fn decide_in<S: Sought>(
    sought: &S,
    outlook: Outlook,
    finder: &Finder,
    collapse: &mut Option<Collapse>,
    pools: &mut Pools,
) -> Option<Side>
    requires asked { CanAsk finder.now.case.now finder.now.links.now (spans_of finder.now.sides.now) finder.now.weights.now }
    requires filled { IfSome collapse.old (IsFilled finder.now.case.now (spans_of finder.now.sides.now)) }
    requires pools { HasPools finder.now.case.now.model pools.old }
    requires outlook { IsSoundFor (S.certificates sought.now) finder.now.case.now (spans_of finder.now.sides.now) outlook }
    ensures collapse { collapse.new ≡ collapse.old }
    ensures pools { KeepsPools pools.old pools.new }
    ensures told { IsTold (S.certificates sought.now) finder.now.case.now (spans_of finder.now.sides.now) pools.new result }
{
    let Outlook {
        may_accept,
        may_reject,
        rejects_first,
    } = outlook;
    if rejects_first {
        let rate = rate_below(sought, may_reject, finder, collapse, pools);
        if let Some(rate) = rate {
            return Some(Side::Below(rate));
        }
        if is_above(sought, may_accept, finder, collapse, pools) {
            return Some(Side::Above);
        }
        return None;
    }
    if is_above(sought, may_accept, finder, collapse, pools) {
        return Some(Side::Above);
    }
    let rate = rate_below(sought, may_reject, finder, collapse, pools);
    match rate {
        Some(rate) => Some(Side::Below(rate)),
        None => None,
    }
}
