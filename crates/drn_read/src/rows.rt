// The rows of the model over the common denominator.
ghost use Rattle.std.specs.Prelude.{◌≡◌, ◌<◌, map, All, IfOk};
ghost use Rattle.std.specs.List.{list_any};
ghost use Rattle.lift_model.specs.Valid.{most_states};
ghost use Rattle.drn_read.specs.Faults.{when};
ghost use Rattle.drn_read.specs.Reading.{is_large, entry};
ghost use Rattle.drn_read.specs.declared.error.DrnCause.TheVariants.{CommonDenominator};
ghost use Rattle.drn_read.specs.Shown.{Tells, TargetsBelow};
ghost use Rattle.drn_read.specs.Scaling.{AreScaled};

use crate::error::DrnCause;
use crate::scaled::ScaledPolys;
use crate::state::{State, Transition};
use lift_model::{Entry, Row};
use std::alloc::Global;

/// A transition as an entry of a row. `CommonDenominator` exactly where a coefficient is too large.
fn entry_of(
    alloc: Global,
    common: u64,
    transition: &Transition,
    polys: &mut ScaledPolys,
) -> Result<Entry, DrnCause>
    requires target { transition.now.target < most_states }
    requires polys { AreScaled common polys.old.kept.items }
    ensures fault { Tells result (when (is_large common transition.now) CommonDenominator) }
    ensures entry { IfOk result (λ e. e ≡ entry common transition.now) }
    ensures polys { AreScaled common polys.new.kept.items }
{
    let poly = polys.poly_of(alloc, common, &transition.value)?;
    Ok(Entry {
        target: transition.target as u32,
        poly,
    })
}

/// A choice as a row, whose entries keep their places.
fn row_of(
    alloc: Global,
    common: u64,
    choice: &[Transition],
    polys: &mut ScaledPolys,
) -> Result<Row, DrnCause>
    requires targets { TargetsBelow most_states choice.now }
    requires polys { AreScaled common polys.old.kept.items }
    ensures fault { Tells result (when (list_any (is_large common) choice.now) CommonDenominator) }
    ensures row { IfOk result (λ row. row ≡ map (entry common) choice.now) }
    ensures polys { AreScaled common polys.new.kept.items }
{
    let mut entries = Vec::with_capacity(alloc, choice.len())?;
    for transition in choice {
        entries.push(entry_of(alloc, common, transition, polys)?)?;
    }
    Ok(Row::new(entries))
}

/// The choices of a state as rows.
fn rows_of(
    alloc: Global,
    common: u64,
    choices: &[Vec<Transition>],
    polys: &mut ScaledPolys,
) -> Result<Vec<Row>, DrnCause>
    requires polys { AreScaled common polys.old.kept.items }
    requires targets { All (TargetsBelow most_states) (map (λ row. row.items) choices.now) }
    ensures fault { let large = list_any (list_any (is_large common)) (map (λ row. row.items) choices.now) in
        Tells result (when large CommonDenominator) }
    ensures rows { IfOk result (λ rows. rows.items
        ≡ map (map (entry common)) (map (λ row. row.items) choices.now)) }
    ensures polys { AreScaled common polys.new.kept.items }
{
    let mut rows = Vec::with_capacity(alloc, choices.len())?;
    for choice in choices {
        rows.push(row_of(alloc, common, choice, polys)?)?;
    }
    Ok(rows)
}

/// The rows of each state over the common denominator. `CommonDenominator` exactly where a
/// coefficient has a size of 2^100 or more. Linear in the number of terms. Each state's memory is given
/// back once its rows are made.
pub(crate) fn all_rows(
    alloc: Global,
    common: u64,
    states: Vec<State>,
) -> Result<Vec<Vec<Row>>, DrnCause>
    requires { All (λ s. All (TargetsBelow most_states) s.choices) states.items }
    ensures fault { let large = list_any (λ s. list_any (list_any (is_large common)) s.choices) states.items in
        Tells result (when large CommonDenominator) }
    ensures rows { IfOk result (λ rows. map (λ v. v.items) rows.items
        ≡ map (λ s. map (map (entry common)) s.choices) states.items) }
{
    let mut polys = ScaledPolys::new(alloc);
    let mut rows = Vec::with_capacity(alloc, states.len())?;
    for state in states {
        rows.push(rows_of(alloc, common, &state.choices, &mut polys)?)?;
    }
    Ok(rows)
}
