// The common denominator of all values.
ghost use Rattle.std.specs.Prelude.{◌≡◌, ◌^◌, fold, map};
ghost use Rattle.lift_frac.specs.Parts.{capped};
ghost use Rattle.lift_model.specs.Valid.{common_limit};
ghost use Rattle.lift_frac.specs.Gcd.{lcm};
ghost use Rattle.drn_read.specs.Reading.{common};
ghost use Rattle.drn_read.specs.Shown.{with_den, Becomes};

use crate::state::{State, Transition};
use drn_expr::RatPoly;
use lift_frac::{divisors_and_multiples, lcm};

/// The common denominator is below this.
const COMMON_LIMIT: u128 = 1 << 62;

/// The least common multiple with a value's denominator. A multiple never falls, so none stays
/// none.
fn joined(common: Option<u64>, value: &RatPoly) -> Option<u64>
    ensures { Becomes common result (λ c. lcm c value.now.den) }
{
    divisors_and_multiples();
    let den = value.den() as u64;
    let known = common?;
    if known % den == 0 {
        return common;
    }
    let least = lcm(known, den);
    if least < COMMON_LIMIT {
        Some(least as u64)
    } else {
        None
    }
}

/// The same over the values of a choice.
fn joined_choice(common: Option<u64>, choice: &[Transition]) -> Option<u64>
    ensures { Becomes common result (λ c. fold with_den c choice.now) }
{
    let mut least = common;
    for transition in choice {
        least = joined(least, &transition.value);
    }
    least
}

/// The same over the choices of a state.
fn joined_state(common: Option<u64>, choices: &[Vec<Transition>]) -> Option<u64>
    ensures { Becomes common result (λ c.
        fold (fold with_den) c (map (λ row. row.items) choices.now)) }
{
    let mut least = common;
    for choice in choices {
        least = joined_choice(least, choice);
    }
    least
}

/// The least common multiple of the denominators of all values; none from 2^62 on.
pub(crate) fn common_denominator(states: &[State]) -> Option<u64>
    ensures { result ≡ capped common_limit (common states.now) }
{
    let mut least = Some(1);
    for state in states {
        least = joined_state(least, &state.choices);
    }
    least
}
