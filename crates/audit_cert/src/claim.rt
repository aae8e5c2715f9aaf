//! What a vector claims, and what is read of it.

ghost use Rattle.std.specs.Prelude.{◌≡◌, ◌<◌, ◌≤◌, ◌≤ℤ◌, ◌-ℤ◌, pos, negsuc, not, nat_lt, int_le, length, if◌then◌else◌};
ghost use Rattle.corner_lift.specs.Case.{most_precision, number};
ghost use Rattle.corner_lift.specs.Certificate.{mark, unmarked};
ghost use Rattle.audit_cert.specs.Claim.{goal_number, lacks_rank};
ghost use Rattle.audit_cert.specs.Form.{HasForm};
ghost use Rattle.audit_cert.specs.Held.{claim_of, kind_of};
ghost use Rattle.audit_cert.specs.Miss.{greater, left_over, lesser};

use crate::limit::Limit;
use corner_lift::{Case, one_at, rows_at_corners};
use float_guess::Rewards;

/// In place of a rank where a state has none.
const NONE: u32 = u32::MAX;

/// How a state's number is compared with the weighted mean of its targets.
#[derive(Clone, Copy)]
pub(crate) enum Kind<'a> {
    /// It is at least that. Goal states have 2 to the precision.
    Upper,
    /// It is at most that. Goal states have 2 to the precision.
    Lower,
    /// Less the state's reward it is at least that. Goal states have 0.
    Priced(Rewards<'a>),
}

/// Ranks, and the rate at which weight has to lead to lower ones.
#[derive(Clone, Copy)]
pub struct Ranking<'a> {
    /// The rank of each state, `u32::MAX` standing for none.
    pub ranks: &'a [u32],
    /// The weight into lower ranks, times 2 to this, is at least the whole; at most 126.
    pub e: u32,
    /// The greatest rank, from 1 to 65,536.
    pub k: u32,
}

/// What a vector claims.
#[derive(Drop)]
pub(crate) struct Claim<'a> {
    pub kind: Kind<'a>,
    pub numbers: &'a [i64],
    /// The numbers of the targets: the vector's own, or those of one step less.
    pub targets: &'a [i64],
    /// The chosen rows; none: each row is tested.
    pub picks: Option<&'a [u32]>,
    pub ranking: Option<Ranking<'a>>,
    /// None: the initial state's number is free.
    pub limit: Option<Limit>,
}

/// What is left of a number when the price is paid; -1 where the price is above it.
fn rest_of(number: i64, price: u128) -> i64
    requires { pos 0 ≤ℤ number }
    ensures { result ≡ (if int_le (pos price) number then number -ℤ pos price else negsuc 0) }
{
    if price > number as u128 {
        return -1;
    }
    number - price as i64
}

impl Kind<'_> {
    /// The number of goal states.
    fn goal_number(&self, w: u32) -> i64
        requires { w ≤ most_precision }
        ensures { result ≡ goal_number w (kind_of self.now) }
    {
        match self {
            Kind::Upper | Kind::Lower => one_at(w),
            Kind::Priced(_) => 0,
        }
    }

    /// What is left of a state's number when its price is paid; -1 where the price is above it.
    fn left_over(&self, w: u32, state: u32, number: i64) -> i64
        requires w { w ≤ most_precision }
        requires least { pos 0 ≤ℤ number }
        ensures { result ≡ left_over w (kind_of self.now) state number }
    {
        match self {
            Kind::Upper | Kind::Lower => number,
            Kind::Priced(rewards) => rest_of(number, rewards.of(w, state)),
        }
    }

    /// Of the weighted sum and the product, the one that is to be at most the other, and the other.
    pub(crate) fn beside(&self, sum: i128, product: i128) -> (i128, i128)
        ensures left { result.0 ≡ lesser (kind_of self.now) sum product }
        ensures right { result.1 ≡ greater (kind_of self.now) sum product }
    {
        match self {
            Kind::Upper | Kind::Priced(_) => (sum, product),
            Kind::Lower => (product, sum),
        }
    }
}

impl Ranking<'_> {
    /// A state's rank.
    pub(crate) fn rank(&self, case: &Case, state: u32) -> u32
        requires size { length self.now.ranks.now ≡ length case.now.model.states }
        requires state { state < length case.now.model.states }
        ensures { result ≡ mark self.now.ranks.now state }
    {
        self.ranks[state as usize]
    }

    /// Whether a state has no rank.
    fn lacks(&self, case: &Case, state: u32) -> bool
        requires size { length self.now.ranks.now ≡ length case.now.model.states }
        requires state { state < length case.now.model.states }
        ensures { result ≡ not (nat_lt (mark self.now.ranks.now state) unmarked) }
    {
        let has_one = self.rank(case, state) < NONE;
        !has_one
    }
}

impl Claim<'_> {
    /// A state's number.
    pub(crate) fn number(&self, case: &Case, state: u32) -> i64
        requires form { HasForm case.now (claim_of self.now) }
        requires state { state < length case.now.model.states }
        ensures { result ≡ number self.now.numbers.now state }
    {
        self.numbers[state as usize]
    }

    /// The number of goal states.
    pub(crate) fn goal_number(&self, case: &Case) -> i64
        ensures { result ≡ goal_number case.now.w (claim_of self.now).kind }
    {
        self.kind.goal_number(case.w())
    }

    /// What is left of a state's number when its price is paid; -1 where the price is above it.
    pub(crate) fn left_over(&self, case: &Case, state: u32) -> i64
        requires form { HasForm case.now (claim_of self.now) }
        requires state { state < length case.now.model.states }
        ensures { result ≡ left_over case.now.w (claim_of self.now).kind state (number self.now.numbers.now state) }
    {
        rows_at_corners();
        self.kind
            .left_over(case.w(), state, self.number(case, state))
    }

    /// Whether there are ranks, and the state has none.
    pub(crate) fn lacks_rank(&self, case: &Case, state: u32) -> bool
        requires form { HasForm case.now (claim_of self.now) }
        requires state { state < length case.now.model.states }
        ensures { result ≡ lacks_rank (claim_of self.now).ranking state }
    {
        match self.ranking {
            None => false,
            Some(ranking) => ranking.lacks(case, state),
        }
    }
}
