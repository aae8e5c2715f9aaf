//! What tells whether a bound holds: whether at most that is reached.

ghost use Rattle.std.specs.Prelude.{◌≤◌, ◌+ℤ◌, pos};
ghost use Rattle.lift_cert.specs.Certificate.{IsBeyond, IsWithin};
ghost use Rattle.corner_lift.specs.Case.{most_precision};
ghost use Rattle.region_tree.specs.Decided.{sought_for};

use crate::finder::Finder;
use crate::laws::meeting_rectangles_share;
use crate::pools::Pools;
use crate::sought::Sought;
use corner_lift::{Case, lower_precisions_are_cases};
use lift_cert::{Bound, certificates_are_of_one_kind};
use lift_collapse::Collapse;
use lift_range::certificates_double;
use lower_cert::{Rate, ranks_fit};

/// The greatest number over 2 to the precision `w` that is within the bound.
fn greatest_within(bound: Bound, w: u32) -> i64
    requires { w ≤ most_precision }
    ensures within { IsWithin bound w result }
    ensures beyond { IsBeyond bound w (result +ℤ pos 1) }
{
    let scaled = u128::from(bound.num) << w;
    (scaled / u128::from(bound.den)) as i64
}

impl Sought for Bound {
    ghost certificates = { sought_for };

    fn limit(&self, u: u32) -> i64 {
        greatest_within(*self, u)
    }

    fn find_above(
        &self,
        finder: &Finder,
        collapse: &mut Option<Collapse>,
        pools: &mut Pools,
    ) -> bool {
        let limit = greatest_within(*self, finder.case.w());
        finder.least_upper_within(limit, collapse, pools)
    }

    fn find_below(
        &self,
        finder: &Finder,
        collapse: &mut Option<Collapse>,
        pools: &mut Pools,
    ) -> Option<Rate> {
        ranks_fit();
        let limit = greatest_within(*self, finder.case.w());
        finder.greatest_lower_above(limit, collapse, pools)
    }

    fn meeting_rectangles_agree(&self, case: &Case) {
        certificates_are_of_one_kind();
        meeting_rectangles_share();
        ranks_fit();
        let _ = case.w();
    }

    fn precisions_agree(&self, case: &Case) {
        certificates_double();
        lower_precisions_are_cases();
        ranks_fit();
        let _ = case.w();
    }
}
