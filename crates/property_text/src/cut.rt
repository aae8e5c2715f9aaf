//! The model in which until is reach.

ghost use Rattle.std.specs.Prelude.{◌≡◌, ◌<◌, length, map, IfOk, if◌then◌else◌};
ghost use Rattle.lift_model.specs.Model.{choices};
ghost use Rattle.lift_model.specs.Valid.{IsModel};
ghost use Rattle.property_text.specs.Restricted.{is_safe, is_kept, certain, staying, cut_from, restricted};

use lift_model::{Entry, Model, Row, SharedPoly};
use lift_names::Names;
use lift_poly::MultiAffine;
use std::alloc::{AllocError, Global};

/// The same names.
fn copied(alloc: Global, names: &Names) -> Result<Names, AllocError>
    ensures { IfOk result (λ copy. copy ≡ names.now) }
{
    let mut copy = Names::new(alloc);
    for i in 0..names.len() {
        copy.push(names.get(i))?;
    }
    Ok(copy)
}

/// The same entries, whose polynomials are shared.
fn kept_row(alloc: Global, row: &Row) -> Result<Row, AllocError>
    ensures { IfOk result (λ kept. kept ≡ row.now) }
{
    let mut entries = Vec::with_capacity(alloc, row.entries().len())?;
    for entry in row.entries() {
        entries.push(Entry {
            target: entry.target,
            poly: entry.poly.share()?,
        })?;
    }
    Ok(Row::new(entries))
}

/// The choices of a state.
fn kept_rows(alloc: Global, model: &Model, s: u32) -> Result<Vec<Row>, AllocError>
    requires { s < length model.now.states }
    ensures { IfOk result (λ rows. rows.items ≡ choices model.now s) }
{
    let count = model.choices(s);
    let mut rows = Vec::with_capacity(alloc, count as usize)?;
    for a in 0..count {
        rows.push(kept_row(alloc, model.row(s, a))?)?;
    }
    Ok(rows)
}

/// The row that stays in the state with that polynomial, if it has an entry.
fn staying_row(alloc: Global, poly: &SharedPoly, s: u32, row: &Row) -> Result<Row, AllocError>
    ensures { IfOk result (λ stays. stays ≡ staying poly.now s row.now) }
{
    let mut entries = Vec::new(alloc);
    if !row.entries().is_empty() {
        entries.push(Entry {
            target: s,
            poly: poly.share()?,
        })?;
    }
    Ok(Row::new(entries))
}

/// The choices of a state that is cut.
fn staying_rows(
    alloc: Global,
    model: &Model,
    poly: &SharedPoly,
    s: u32,
) -> Result<Vec<Row>, AllocError>
    requires { s < length model.now.states }
    ensures { IfOk result (λ rows. rows.items ≡ map (staying poly.now s) (choices model.now s)) }
{
    let count = model.choices(s);
    let mut rows = Vec::with_capacity(alloc, count as usize)?;
    for a in 0..count {
        rows.push(staying_row(alloc, poly, s, model.row(s, a))?)?;
    }
    Ok(rows)
}

/// Whether a state is safe.
fn is_safe(safe: &[bool], s: u32) -> bool
    ensures { result ≡ is_safe safe.now s }
{
    match safe.get(s as usize) {
        Some(safe) => *safe,
        None => false,
    }
}

/// The choices of a state after the cut.
fn rows_after(
    alloc: Global,
    model: &Model,
    safe: &[bool],
    poly: &SharedPoly,
    s: u32,
) -> Result<Vec<Row>, AllocError>
    requires { s < length model.now.states }
    ensures { IfOk result (λ rows. rows.items ≡ (if is_kept model.now safe.now s then choices model.now s
        else map (staying poly.now s) (choices model.now s))) }
{
    if model.is_goal(s) || is_safe(safe, s) {
        kept_rows(alloc, model, s)
    } else {
        staying_rows(alloc, model, poly, s)
    }
}

/// The states after the cut.
fn states_after(
    alloc: Global,
    model: &Model,
    safe: &[bool],
    poly: &SharedPoly,
) -> Result<Vec<Vec<Row>>, AllocError>
    ensures { IfOk result (λ states. map (λ v. v.items) states.items
        ≡ cut_from poly.now (is_kept model.now safe.now) 0 model.now.states) }
{
    let count = model.states();
    let mut states = Vec::with_capacity(alloc, count as usize)?;
    for s in 0..count {
        states.push(rows_after(alloc, model, safe, poly, s)?)?;
    }
    Ok(states)
}

/// Whether each state is a goal state. Linear in the number of states.
pub fn goals_of(alloc: Global, model: &Model) -> Result<Vec<bool>, AllocError>
    ensures { IfOk result (λ goals. goals.items ≡ model.now.goal) }
{
    let count = model.states();
    let mut goals = Vec::with_capacity(alloc, count as usize)?;
    for s in 0..count {
        goals.push(model.is_goal(s))?;
    }
    Ok(goals)
}

/// The polynomial of probability 1.
fn certain(alloc: Global, model: &Model) -> Result<SharedPoly, AllocError>
    ensures { IfOk result (λ poly. poly ≡ certain model.now.common) }
{
    let terms = [(0, i128::from(model.common()))];
    SharedPoly::new(alloc, MultiAffine::from_terms(alloc, &terms)?)
}

/// The model in which until is reach: each row that has an entry, of a state that is neither safe nor a
/// goal state, is one entry to that state itself, with probability 1. All else is as it was. `safe` has one
/// truth value per state; a state beyond its end isn't safe. Linear in the model's size, and polynomials are
/// shared.
pub fn restrict(alloc: Global, model: &Model, safe: &[bool]) -> Result<Model, AllocError>
    ensures model { IfOk result (λ cut. cut ≡ restricted model.now safe.now) }
    ensures valid { IfOk result IsModel }
{
    let poly = certain(alloc, model)?;
    let states = states_after(alloc, model, safe, &poly)?;
    let goal = goals_of(alloc, model)?;
    let names = copied(alloc, model.names())?;
    Ok(Model::new(
        model.kind(),
        model.common(),
        names,
        goal,
        model.init(),
        states,
    ))
}
