//! A collapsed model, built of the states that are kept.

ghost use Rattle.std.specs.Prelude.{◌≡◌, ◌+◌, ◌<◌, ◌≤◌, length, map, sum_by, All, Contains, true, IsTrue, IfOk, IfSome};
ghost use Rattle.lift_model.specs.Links.{AreLinks};
ghost use Rattle.lift_model.specs.Model.{choices};
ghost use Rattle.lift_model.specs.Valid.{most_choices, most_transitions};
ghost use Rattle.lift_collapse.specs.Building.{AreParts, HasTargets, built, goals_at_places, row_at_places, states_at_places};
ghost use Rattle.lift_collapse.specs.Collapse.{IsCollapse};

use crate::collapsed::Collapsed;
use crate::holds::{Candidate, number_at};
use crate::search::{Found, find_places};
use lift_model::{Entry, Links, Model, Row};
use lift_names::Names;
use std::alloc::{AllocError, Global};

/// How many choices a model has at most.
const MOST_CHOICES: usize = 131072;

/// How many transitions.
const MOST_TRANSITIONS: usize = 262144;

/// A row with each target at its place.
fn placed_row(alloc: Global, places: &[u32], row: &Row) -> Result<Row, AllocError>
    ensures { IfOk result (λ placed. placed ≡ row_at_places places.now row.now) }
{
    let mut entries = Vec::with_capacity(alloc, row.entries().len())?;
    for entry in row.entries() {
        entries.push(Entry {
            target: number_at(places, entry.target),
            poly: entry.poly.share()?,
        })?;
    }
    Ok(Row::new(entries))
}

/// The choices of a state, each target at its place.
fn placed_choices(
    alloc: Global,
    model: &Model,
    places: &[u32],
    s: u32,
) -> Result<Vec<Row>, AllocError>
    requires { s < length model.now.states }
    ensures { IfOk result (λ rows. rows.items ≡ map (row_at_places places.now) (choices model.now s)) }
{
    let count = model.choices(s);
    let mut rows = Vec::with_capacity(alloc, count as usize)?;
    for a in 0..count {
        rows.push(placed_row(alloc, places, model.row(s, a))?)?;
    }
    Ok(rows)
}

/// The choices of the states that are kept, each target at its place.
fn placed_states(
    alloc: Global,
    model: &Model,
    places: &[u32],
    kept: &[u32],
) -> Result<Vec<Vec<Row>>, AllocError>
    requires { All (λ s. s < length model.now.states) kept.now }
    ensures { IfOk result (λ states. map (λ v. v.items) states.items ≡ states_at_places model.now places.now kept.now) }
{
    let mut states = Vec::with_capacity(alloc, kept.len())?;
    for s in kept {
        states.push(placed_choices(alloc, model, places, *s)?)?;
    }
    Ok(states)
}

/// Whether the states that are kept are goal states.
fn placed_goals(alloc: Global, model: &Model, kept: &[u32]) -> Result<Vec<bool>, AllocError>
    requires { All (λ s. s < length model.now.states) kept.now }
    ensures { IfOk result (λ goal. goal.items ≡ goals_at_places model.now kept.now) }
{
    let mut goal = Vec::with_capacity(alloc, kept.len())?;
    for s in kept {
        goal.push(model.is_goal(*s))?;
    }
    Ok(goal)
}

/// The same names.
fn copied(alloc: Global, names: &Names) -> Result<Names, AllocError>
    ensures { IfOk result (λ copy. copy ≡ names.now) }
{
    let mut copy = Names::new(alloc);
    for i in 0..names.len() {
        copy.push(names.get(i))?;
    }
    Ok(copy)
}

/// Whether all numbers are below a limit.
fn are_below(numbers: &[u32], limit: u32) -> bool
    ensures { IsTrue result → All (λ n. n < limit) numbers.now }
{
    for number in numbers {
        if *number >= limit {
            return false;
        }
    }
    true
}

/// Whether some mark is set.
fn has_mark(marks: &[bool]) -> bool
    ensures { IsTrue result → Contains marks.now true }
{
    for mark in marks {
        if *mark {
            return true;
        }
    }
    false
}

/// Whether no target of the row stands twice, and each has a place among `seen`, where the stamps stand of the
/// last rows that led there. The row's own stamp may stand nowhere at entry, or it seems that a target stands
/// twice.
fn has_targets(row: &Row, seen: &mut [u32], stamp: u32) -> bool
    ensures targets { IsTrue result → HasTargets (length seen.old) row.now }
    ensures size { length seen.new ≡ length seen.old }
{
    for entry in row.entries() {
        let target = entry.target as usize;
        if target >= seen.len() || seen[target] == stamp {
            return false;
        }
        seen[target] = stamp;
    }
    true
}

/// Whether so it is in these rows, whose stamps begin behind that one. Gives the last stamp.
fn have_targets(rows: &[Row], seen: &mut [u32], last: u32) -> Option<u32>
    ensures targets { IfSome result (λ stamp. All (HasTargets (length seen.old)) rows.now) }
    ensures size { length seen.new ≡ length seen.old }
{
    let mut stamp = last;
    for row in rows {
        stamp = stamp.wrapping_add(1);
        if !has_targets(row, seen, stamp) {
            return None;
        }
    }
    Some(stamp)
}

/// Whether so it is in the rows of all states.
fn all_have_targets(states: &[Vec<Row>], seen: &mut [u32]) -> bool
    requires { length seen.old ≡ length states.now }
    ensures { IsTrue result → All (All (HasTargets (length states.now))) (map (λ v. v.items) states.now) }
{
    let mut last = 0;
    for rows in states {
        match have_targets(rows, seen, last) {
            Some(stamp) => last = stamp,
            None => return false,
        }
    }
    true
}

/// How many transitions these rows have, if they aren't more than there may be besides so many others.
fn more_transitions(rows: &[Row], others: usize) -> Option<usize>
    requires { others ≤ most_transitions }
    ensures { IfSome result (λ count. (count ≡ others + sum_by length rows.now) × (count ≤ most_transitions)) }
{
    let mut count = others;
    for row in rows {
        let more = row.entries().len();
        if more > MOST_TRANSITIONS - count {
            return None;
        }
        count += more;
    }
    Some(count)
}

/// Whether there are no more transitions than a model may have.
fn has_few_transitions(states: &[Vec<Row>]) -> bool
    ensures { IsTrue result → sum_by (sum_by length) (map (λ v. v.items) states.now) ≤ most_transitions }
{
    let mut count = 0;
    for rows in states {
        match more_transitions(rows, count) {
            Some(more) => count = more,
            None => return false,
        }
    }
    true
}

/// Whether there are no more choices than a model may have.
fn has_few_choices(states: &[Vec<Row>]) -> bool
    ensures { IsTrue result → sum_by length (map (λ v. v.items) states.now) ≤ most_choices }
{
    let mut count = 0;
    for rows in states {
        if rows.len() > MOST_CHOICES - count {
            return false;
        }
        count += rows.len();
    }
    true
}

/// Whether a model can be built of these rows.
fn can_be_built(alloc: Global, states: &[Vec<Row>]) -> Result<bool, AllocError>
    ensures rows { IfOk result (λ can. IsTrue can → All (All (HasTargets (length states.now))) (map (λ v. v.items) states.now)) }
    ensures choices { IfOk result (λ can. IsTrue can → sum_by length (map (λ v. v.items) states.now) ≤ most_choices) }
    ensures transitions { IfOk result (λ can. IsTrue can
        → sum_by (sum_by length) (map (λ v. v.items) states.now) ≤ most_transitions) }
{
    let mut seen = vec![in alloc; 0u32; states.len()]?;
    if !all_have_targets(states, &mut seen) || !has_few_choices(states) {
        return Ok(false);
    }
    Ok(has_few_transitions(states))
}

/// The collapsed model of the states that are kept. None: they make no model.
fn build(
    alloc: Global,
    model: &Model,
    places: &[u32],
    kept: &[u32],
) -> Result<Option<Model>, AllocError>
    ensures { IfOk result (λ found. IfSome found (λ collapsed. collapsed ≡ built model.now places.now kept.now)) }
{
    let count = model.states();
    let init = number_at(places, model.init());
    if init as usize >= kept.len() || kept.len() > count as usize || !are_below(kept, count) {
        return Ok(None);
    }
    let states = placed_states(alloc, model, places, kept)?;
    let goal = placed_goals(alloc, model, kept)?;
    if !has_mark(&goal) || !can_be_built(alloc, &states)? {
        return Ok(None);
    }
    let names = copied(alloc, model.names())?;
    Ok(Some(Model::new(model.kind(), model.common(), names, goal, init, states)))
}

/// Whether it is worth to collapse: an eighth of the states isn't kept, rounded up.
fn is_worth_it(kept: usize, states: usize) -> bool {
    kept <= states.saturating_sub(states.saturating_add(7) / 8)
}

/// Collapses a model. None: too little would be gained. Takes memory, and a time nearly linear in the model's
/// size.
pub(crate) fn collapse(
    alloc: Global,
    model: &Model,
    links: &Links,
) -> Result<Option<Collapsed>, AllocError>
    requires { AreLinks model.now links.now }
    ensures { IfOk result (λ found. IfSome found (IsCollapse model.now)) }
{
    let Found { places, kept, lost } = find_places(alloc, model, links)?;
    if !is_worth_it(kept.len(), model.states() as usize) {
        return Ok(None);
    }
    let model_built = build(alloc, model, &places, &kept)?;
    let Some(collapsed) = model_built else {
        return Ok(None);
    };
    let collapsed = Collapsed {
        model: collapsed,
        places,
    };
    let candidate = Candidate {
        model,
        links,
        collapsed: &collapsed,
        kept: &kept,
        lost: &lost,
    };
    if candidate.is_collapse() {
        Ok(Some(collapsed))
    } else {
        Ok(None)
    }
}
