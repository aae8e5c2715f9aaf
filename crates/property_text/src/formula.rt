ghost use Rattle.std.specs.Prelude.{◌≡◌, ◌↔◌, IfOk, IfNone, IfSome};
ghost use Rattle.std.specs.Option.{option_map, option_copied};
ghost use Rattle.property_text.specs.Grammar.{Written, Writes};
ghost use Rattle.property_text.specs.Reading.{writing};
ghost use Rattle.property_text.specs.Formula.{IsFormula, HasNoBound, formula_of};

use crate::bound::bound_of;
use crate::error::FormulaError;
use crate::op::Op;
use crate::parts::{Parts, is_ratio, written_at};
use lift_cert::Bound;
use std::alloc::{AllocError, Global};

/// A property of a model: how the probability of a path is compared with a bound. The path reaches a state
/// with the goal's label, if there is a safe label by way of states with that one alone.
#[derive(Drop)]
pub struct Formula {
    op: Op,
    bound: Bound,
    safe: Option<Vec<u8>>,
    goal: Vec<u8>,
}

impl std::marker::Model for Formula {
    ghost use Rattle.std.specs.Option.{option_map};
    ghost use Rattle.property_text.specs.Formula.{FormulaData};

    ghost Value = { FormulaData };

    ghost view = { λ f. record { op = f.op; bound = f.bound; safe = option_map (λ v. v.items) f.safe; goal = f.goal.items } };
}

impl Formula {
    /// How the probability is compared with the bound.
    pub fn op(&self) -> Op
        ensures { result ≡ self.now.op }
    {
        self.op
    }

    /// The bound.
    pub fn bound(&self) -> Bound
        ensures { result ≡ self.now.bound }
    {
        self.bound
    }

    /// The label of the safe states, if there is one: else every state is safe.
    pub fn safe(&self) -> Option<&[u8]>
        ensures { option_copied result ≡ self.now.safe }
    {
        match &self.safe {
            Some(label) => Some(label.as_slice()),
            None => None,
        }
    }

    /// The label of the goal states.
    pub fn goal(&self) -> &[u8]
        ensures { result.now ≡ self.now.goal }
    {
        &self.goal
    }
}

/// What a formula says, with its labels as they lie in its text.
#[derive(Drop)]
pub struct FormulaIn<'a> {
    /// How the probability is compared with the bound.
    pub op: Op,
    pub bound: Bound,
    /// The label of the safe states, if there is one: else every state is safe.
    pub safe: Option<&'a [u8]>,
    /// The label of the goal states.
    pub goal: &'a [u8],
}

impl<'a> std::marker::Model for FormulaIn<'a> {
    ghost use Rattle.std.specs.Option.{option_copied};
    ghost use Rattle.property_text.specs.Formula.{FormulaData};

    ghost Value = { FormulaData };

    ghost view = { λ f. record { op = f.op; bound = f.bound; safe = option_copied f.safe; goal = f.goal.now } };
}

/// The parts of a formula's text.
fn parts_of(text: &[u8]) -> Option<Parts<'_>>
    ensures is { result ≡ writing text.now }
    ensures none { IfNone result ((w : Written) → ¬ Writes text.now w) }
    ensures some { IfSome result (Writes text.now) }
{
    let Some(parts) = written_at(text) else {
        return None;
    };
    if is_ratio(parts.bound) {
        Some(parts)
    } else {
        None
    }
}

/// Reads a formula, as `P<=1/2 [ "up" U "done" ]` or `P>0.9 [ F "done" ]`. Takes no memory.
///
/// `Syntax` exactly where the text isn't in the grammar, and else `Bound` exactly where the bound isn't from
/// 0 to 1, its divisor is 0, or a part of it is too wide. Linear in the text's length.
pub fn formula_in(text: &[u8]) -> Result<FormulaIn<'_>, FormulaError>
    ensures is { result ≡ formula_of text.now }
    ensures syntax { (result ≡ Err FormulaError.Syntax) ↔ ((w : Written) → ¬ Writes text.now w) }
    ensures bound { (result ≡ Err FormulaError.Bound) ↔ HasNoBound text.now }
    ensures formula { IfOk result (IsFormula text.now) }
{
    let Some(parts) = parts_of(text) else {
        return Err(FormulaError::Syntax);
    };
    let Some(bound) = bound_of(parts.bound) else {
        return Err(FormulaError::Bound);
    };
    Ok(FormulaIn {
        op: parts.op,
        bound,
        safe: parts.safe,
        goal: parts.goal,
    })
}

/// A label of one's own, if there is one.
fn copied(alloc: Global, label: Option<&[u8]>) -> Result<Option<Vec<u8>>, AllocError>
    ensures { IfOk result (λ copy. option_map (λ v. v.items) copy ≡ option_copied label.entry) }
{
    match label {
        Some(label) => Ok(Some(Vec::from_slice(alloc, label)?)),
        None => Ok(None),
    }
}

/// The same with labels of its own.
pub fn read_formula(alloc: Global, text: &[u8]) -> Result<Formula, FormulaError>
    ensures syntax { (result ≡ Err FormulaError.Syntax) ↔ ((w : Written) → ¬ Writes text.now w) }
    ensures bound { (result ≡ Err FormulaError.Bound) ↔ HasNoBound text.now }
    ensures formula { IfOk result (IsFormula text.now) }
{
    let formula = formula_in(text)?;
    Ok(Formula {
        op: formula.op,
        bound: formula.bound,
        safe: copied(alloc, formula.safe)?,
        goal: Vec::from_slice(alloc, formula.goal)?,
    })
}
