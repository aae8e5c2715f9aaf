// A clause of a region's text.
ghost use Rattle.std.specs.Prelude.{◌≡◌};
ghost use Rattle.lift_grid.specs.Region.{clause_at, Gives};
ghost use Rattle.lift_grid.specs.Parts.{clause_of};

use crate::error::RegionError;
use crate::text::{Number, behind_at_most, end_at, name_at};

/// A clause as it is written: two ends, and the parameter's name between them.
#[derive(Clone, Copy)]
pub(crate) struct ClauseText<'a> {
    pub low: Number,
    pub name: &'a [u8],
    pub high: Number,
}

/// The clause at the front, and what stands behind it.
#[tactic(auto, unfolding(crate::specs::Region::clause_at))]
pub(crate) fn clause_at(text: &[u8]) -> Result<(ClauseText<'_>, &[u8]), RegionError>
    ensures { Gives (λ p. (clause_of p.0, p.1.now)) result (clause_at text.now) }
{
    let (low, rest) = end_at(text)?;
    let rest = behind_at_most(rest)?;
    let (name, rest) = name_at(rest)?;
    let rest = behind_at_most(rest)?;
    let (high, rest) = end_at(rest)?;
    Ok((ClauseText { low, name, high }, rest))
}
