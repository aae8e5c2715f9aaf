//! What the number of a state is made of, where vectors are found: which of its choices counts, which corner of a row,
//! which states have a number that is given, and what each visit adds.

ghost use Rattle.std.specs.Prelude.{◌≡◌, ◌<◌, length};
ghost use Rattle.float_guess.specs.Rule.{is_given, has_rewards, added};

use crate::reward::Rewards;
use corner_lift::{Case, one_at};
use lift_model::Model;

/// What a state without rank has for a rank.
const NO_RANK: u32 = u32::MAX;

/// Which of several values counts.
#[derive(Clone, Copy)]
pub enum Extreme {
    /// The greatest.
    Greatest,
    /// The least.
    Least,
}

/// Which states have a number that is given.
#[derive(Clone, Copy)]
pub enum Ends<'a> {
    /// Goal states have 1.
    Goals,
    /// Goal states have 0, and the other states that have none of these ranks have 1.
    Unranked(&'a [u32]),
    /// Goal states have 0, and each visit of another state adds its reward. Numbers are cut off at 1.
    Rewarded(Rewards<'a>),
}

/// What the number of each other state is made of.
#[derive(Clone, Copy)]
pub struct Rule<'a> {
    /// Which of its choices counts.
    pub choice: Extreme,
    /// Which corner of a choice's row counts.
    pub corner: Extreme,
    /// Where it ends.
    pub ends: Ends<'a>,
}

impl Extreme {
    /// The greater or the lesser of two floats.
    pub(crate) fn of(self, a: f64, b: f64) -> f64 {
        match self {
            Extreme::Greatest => a.max(b),
            Extreme::Least => a.min(b),
        }
    }

    /// Whether the first of two floats counts rather than the second.
    pub(crate) fn prefers(self, a: f64, b: f64) -> bool {
        match self {
            Extreme::Greatest => a > b,
            Extreme::Least => a < b,
        }
    }
}

impl Ends<'_> {
    /// Whether the number of a state is given.
    #[inline]
    pub fn has(self, model: &Model, s: u32) -> bool
        requires { s < length model.now.states }
        ensures { result ≡ is_given model.now self.entry s }
    {
        match self {
            Ends::Goals | Ends::Rewarded(_) => model.is_goal(s),
            Ends::Unranked(ranks) => {
                model.is_goal(s) || ranks.get(s as usize).copied().unwrap_or(NO_RANK) >= NO_RANK
            }
        }
    }
    /// Whether there are rewards.
    #[inline(always)]
    pub fn has_rewards(self) -> bool
        ensures { result ≡ has_rewards self.entry }
    {
        match self {
            Ends::Goals | Ends::Unranked(_) => false,
            Ends::Rewarded(_) => true,
        }
    }

    /// What each visit of a state adds to its number.
    #[inline]
    pub fn added(self, case: &Case, s: u32) -> i64
        ensures { result ≡ added case.now self.entry s }
    {
        match self {
            Ends::Goals | Ends::Unranked(_) => 0,
            Ends::Rewarded(rewards) => {
                let w = case.w();
                rewards.of(w, s).min(one_at(w) as u128) as i64
            }
        }
    }
}
