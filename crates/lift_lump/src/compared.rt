//! The exact test of blocks: each state is compared with the least one of its block, by its row in the quotient, and
//! those that differ get numbers by their rows.

ghost use Rattle.std.specs.Prelude.{◌≡◌, ◌≢◌, ◌<◌, ◌+◌, ◌∷◌, [], true, false, All, AllPairs, length, map, IfOk, OnOk, IfSome, IfNone};
ghost use Rattle.lift_poly.specs.Polynomial.{constant};
ghost use Rattle.lift_lump.specs.Quotient.{AreNumbered, quotient, quotient_row};
ghost use Rattle.lift_lump.specs.Summing.{AreNone};
ghost use Rattle.lift_names.specs.Names.{names_limit};
ghost use Rattle.lift_lump.specs.Comparing.{blocks_of, IsLike, IsNumbered, AreCompared, row_text};

use crate::numbered::Numbered;
use crate::sums::Sums;
use crate::texts::{place_of, text_of};
use lift_model::{Entry, Model, Row, SharedPoly, is_same};
use lift_names::Names;
use lift_poly::MultiAffine;
use std::alloc::{AllocError, Global};

/// Blocks of a chain, and the rows of the quotient by them.
#[derive(Drop)]
pub struct Quotient {
    /// The blocks.
    pub blocks: Numbered,
    /// The only choice of each block.
    pub rows: Vec<Vec<Row>>,
}

/// States, compared with the least ones of their blocks.
#[derive(Drop)]
pub struct Compared {
    /// For each state that differs a number by its row, else 0.
    pub numbers: Vec<u64>,
    /// The states that differ.
    pub different: Vec<u32>,
    /// The rows of the states that differ, each once.
    pub texts: Names,
}

/// Whether two rows are the same.
fn are_same(left: &[Entry], right: &[Entry]) -> bool
    ensures same { result ≡ true → left.now ≡ right.now }
    ensures other { left.now ≡ right.now → result ≡ true }
{
    if left.len() != right.len() {
        return false;
    }
    for i in 0..left.len() {
        if left[i].target != right[i].target || !is_same(&left[i].poly, &right[i].poly) {
            return false;
        }
    }
    true
}

/// The row of a goal block: one entry to itself. The common denominator is below 2^62, so only memory can lack.
fn goal_row(alloc: Global, model: &Model, block: u32) -> Result<Vec<Entry>, AllocError>
    ensures { IfOk result (λ row. row.items ≡ record { target = block; poly = constant model.now.common } ∷ []) }
{
    match MultiAffine::constant(alloc, i128::from(model.common())) {
        Ok(common) => {
            let poly = SharedPoly::new(alloc, common)?;
            let mut row = Vec::with_capacity(alloc, 1)?;
            row.push(Entry {
                target: block,
                poly,
            })?;
            Ok(row)
        }
        Err(_) => Err(AllocError),
    }
}

/// A state's row in the quotient.
fn row_of(
    alloc: Global,
    model: &Model,
    blocks: &Numbered,
    sums: &mut Sums,
    s: u32,
) -> Result<Vec<Entry>, AllocError>
    requires state { s < length model.now.states }
    requires numbered { AreNumbered (length model.now.states) (blocks_of blocks.now) }
    requires none { AreNone (length blocks.now.firsts.items) sums.old.of_blocks.items sums.old.visited.items sums.old.zero }
    ensures row { IfOk result (λ row. row.items ≡ quotient_row model.now (blocks_of blocks.now) s) }
    ensures none { OnOk result (AreNone (length blocks.now.firsts.items) sums.new.of_blocks.items sums.new.visited.items sums.new.zero) }
{
    let _common = model.common();
    if model.is_goal(s) {
        let row = goal_row(alloc, model, blocks.of_states[s as usize])?;
        return Ok(row);
    }
    let row = sums.entries(alloc, &blocks.of_states, model.row(s, 0).entries())?;
    Ok(row)
}

/// The rows of the quotient.
pub(crate) fn rows_of(
    alloc: Global,
    model: &Model,
    blocks: &Numbered,
    sums: &mut Sums,
) -> Result<Vec<Vec<Row>>, AllocError>
    requires numbered { AreNumbered (length model.now.states) (blocks_of blocks.now) }
    requires none { AreNone (length blocks.now.firsts.items) sums.old.of_blocks.items sums.old.visited.items sums.old.zero }
    ensures rows { IfOk result (λ rows. map (λ v. v.items) rows.items ≡ (quotient model.now (blocks_of blocks.now)).states) }
    ensures none { OnOk result (AreNone (length blocks.now.firsts.items) sums.new.of_blocks.items sums.new.visited.items sums.new.zero) }
{
    let mut rows = Vec::with_capacity(alloc, blocks.firsts.len())?;
    for first in &blocks.firsts {
        let row = Row::new(row_of(alloc, model, blocks, sums, *first)?);
        let mut choices = Vec::with_capacity(alloc, 1)?;
        choices.push(row)?;
        rows.push(choices)?;
    }
    Ok(rows)
}

/// Whether a state with that row differs from the least one of its block.
fn differs(model: &Model, found: &Quotient, s: u32, row: &[Entry]) -> bool
    requires state { s < length model.now.states }
    requires numbered { AreNumbered (length model.now.states) (blocks_of found.now.blocks) }
    requires rows { map (λ v. v.items) found.now.rows.items ≡ (quotient model.now (blocks_of found.now.blocks)).states }
    requires row { row.now ≡ quotient_row model.now (blocks_of found.now.blocks) s }
    ensures like { result ≡ false → IsLike model.now (blocks_of found.now.blocks) s }
    ensures other { IsLike model.now (blocks_of found.now.blocks) s → result ≡ false }
{
    let block = found.blocks.of_states[s as usize];
    let first = found.blocks.firsts[block as usize];
    let of_block = found.rows[block as usize][0].entries();
    model.is_goal(s) != model.is_goal(first) || !are_same(row, of_block)
}

/// The row of a state, if it differs from that of its block.
fn other_row(
    alloc: Global,
    model: &Model,
    found: &Quotient,
    sums: &mut Sums,
    s: u32,
) -> Result<Option<Vec<Entry>>, AllocError>
    requires state { s < length model.now.states }
    requires numbered { AreNumbered (length model.now.states) (blocks_of found.now.blocks) }
    requires rows { map (λ v. v.items) found.now.rows.items ≡ (quotient model.now (blocks_of found.now.blocks)).states }
    requires none { AreNone (length found.now.blocks.firsts.items) sums.old.of_blocks.items sums.old.visited.items sums.old.zero }
    ensures like { IfOk result (λ other. IfNone other (IsLike model.now (blocks_of found.now.blocks) s)) }
    ensures other { IfOk result (λ other. IfSome other (λ _. IsLike model.now (blocks_of found.now.blocks) s → ⊥)) }
    ensures row { IfOk result (λ other. IfSome other (λ row. row.items ≡ quotient_row model.now (blocks_of found.now.blocks) s)) }
    ensures none { OnOk result
        (AreNone (length found.now.blocks.firsts.items) sums.new.of_blocks.items sums.new.visited.items sums.new.zero) }
{
    let row = row_of(alloc, model, &found.blocks, sums, s)?;
    if differs(model, found, s, &row) {
        return Ok(Some(row));
    }
    Ok(None)
}

impl Compared {
    /// Gives a state a number by its row.
    fn tell(&mut self, alloc: Global, s: u32, row: &[Entry]) -> Result<(), AllocError>
        requires state { s < length self.old.numbers.items }
        requires few { length self.old.texts + 1 < names_limit }
        ensures { OnOk result (IsNumbered s (row_text row.now) self.old self.new) }
    {
        let text = text_of(alloc, row)?;
        let place = place_of(&mut self.texts, &text)?;
        self.numbers[s as usize] = u64::from(place) + 1;
        self.different.push(s)?;
        Ok(())
    }

    /// Notes the row of a state that differs.
    fn note(&mut self, alloc: Global, s: u32, other: &Option<Vec<Entry>>) -> Result<(), AllocError>
        requires state { s < length self.old.numbers.items }
        requires few { length self.old.texts + 1 < names_limit }
        ensures same { OnOk result (IfNone other.now (self.new ≡ self.old)) }
        ensures reported { OnOk result (IfSome other.now (λ row. IsNumbered s (row_text row.items) self.old self.new)) }
    {
        match other {
            None => Ok(()),
            Some(row) => self.tell(alloc, s, row),
        }
    }

    /// Compares each state with the least one of its block.
    pub(crate) fn of(
        alloc: Global,
        model: &Model,
        found: &Quotient,
        sums: &mut Sums,
    ) -> Result<Compared, AllocError>
        requires numbered { AreNumbered (length model.now.states) (blocks_of found.now.blocks) }
        requires rows { map (λ v. v.items) found.now.rows.items ≡ (quotient model.now (blocks_of found.now.blocks)).states }
        requires none { AreNone (length found.now.blocks.firsts.items) sums.old.of_blocks.items sums.old.visited.items sums.old.zero }
        ensures compared { IfOk result (λ c. AreCompared model.now (blocks_of found.now.blocks) (length model.now.states)
            c.numbers.items c.different.items c.texts) }
        ensures apart { IfOk result (λ c. AllPairs (λ a b. a ≢ b) c.texts) }
    {
        let mut compared = Compared {
            numbers: vec![in alloc; 0; model.states() as usize]?,
            different: Vec::new(alloc),
            texts: Names::new(alloc),
        };
        for s in 0..model.states() {
            let other = other_row(alloc, model, found, sums, s)?;
            compared.note(alloc, s, &other)?;
        }
        let _apart = compared.texts.len();
        Ok(compared)
    }
}
