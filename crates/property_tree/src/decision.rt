//! The decision of a rectangle.

ghost use Rattle.property_tree.specs.Decided.{sought_of};

use crate::sides::{greatest_low, is_upper};
use crate::vectors::{lower_all_above, upper_one_within};
use corner_lift::{Case, rows_at_corners};
use lift_cert::{Bound, certificates_are_of_one_kind};
use lift_collapse::Collapse;
use lift_dual::{all_and_one, sides_are_apart};
use lift_range::vectors_double;
use lower_cert::{Rate, ranks_fit};
use property_text::Op;
use region_tree::{Finder, Pools, Sought, meeting_rectangles_share};

/// How the probability of reaching the goal is compared with a bound. It seeks what tells whether the comparison holds.
#[derive(Clone, Copy)]
pub(crate) struct Comparison {
    pub(crate) op: Op,
    pub(crate) bound: Bound,
}

impl Sought for Comparison {
    ghost certificates = { λ asked. sought_of asked.op asked.bound };

    fn limit(&self, u: u32) -> i64 {
        greatest_low(self.op, self.bound, u)
    }

    fn find_above(
        &self,
        finder: &Finder,
        collapse: &mut Option<Collapse>,
        pools: &mut Pools,
    ) -> bool {
        sides_are_apart();
        let limit = greatest_low(self.op, self.bound, finder.case.w());
        if is_upper(self.op) {
            finder.least_upper_within(limit, collapse, pools)
        } else {
            upper_one_within(finder, limit, collapse, pools)
        }
    }

    fn find_below(
        &self,
        finder: &Finder,
        collapse: &mut Option<Collapse>,
        pools: &mut Pools,
    ) -> Option<Rate> {
        sides_are_apart();
        ranks_fit();
        let limit = greatest_low(self.op, self.bound, finder.case.w());
        if is_upper(self.op) {
            finder.greatest_lower_above(limit, collapse, pools)
        } else {
            lower_all_above(finder, limit, collapse, pools)
        }
    }

    fn meeting_rectangles_agree(&self, case: &Case) {
        certificates_are_of_one_kind();
        all_and_one();
        sides_are_apart();
        rows_at_corners();
        meeting_rectangles_share();
        ranks_fit();
        let _ = case.w();
    }

    fn precisions_agree(&self, _case: &Case) {
        vectors_double();
    }
}
