//! The entries of rows, summed block by block.

ghost use Rattle.std.specs.Prelude.{◌≡◌, ◌<◌, ◌^◌, ◌++◌, ◌∷◌, [], ℕ, true, false, All, length, IfOk, OnOk, slice_set};
ghost use Rattle.lift_poly.specs.Arithmetic.{sum};
ghost use Rattle.lift_lump.specs.Quotient.{one_entry, entries_into};
ghost use Rattle.lift_lump.specs.Search.{number_at};
ghost use Rattle.lift_lump.specs.Summing.{AreVisitedBlocks, AreNone, sum_at, entries_of};

use lift_model::{Entry, SharedPoly};
use lift_poly::{MultiAffine, coefficients_determine};
use std::alloc::{AllocError, Global};

/// The sums of a row's entries into each block. Between rows all are 0.
#[derive(Drop)]
pub struct Sums {
    /// The sum into each block so far.
    pub of_blocks: Vec<SharedPoly>,
    /// The blocks whose sums aren't 0, some perhaps twice.
    pub visited: Vec<u32>,
    /// The polynomial 0.
    pub zero: SharedPoly,
}

/// The sum of two polynomials. A row has at most 2^18 entries with coefficients below 2^100, so no coefficient of a
/// sum reaches 2^125, and only memory can lack.
fn added(alloc: Global, old: &SharedPoly, poly: &SharedPoly) -> Result<SharedPoly, AllocError>
    ensures { IfOk result (λ p. p ≡ sum old.now poly.now) }
{
    coefficients_determine();
    let terms = poly.len();
    if old.len() == 0 {
        return poly.share();
    }
    if terms == 0 {
        return old.share();
    }
    let copy = old.copy(alloc)?;
    match copy.add_in_place(alloc, poly) {
        Ok(sum) => SharedPoly::new(alloc, sum),
        Err(_) => Err(AllocError),
    }
}

/// So many of a polynomial.
fn copies(alloc: Global, poly: &SharedPoly, count: usize) -> Result<Vec<SharedPoly>, AllocError>
    ensures count { IfOk result (λ list. length list.items ≡ count) }
    ensures none { poly.now ≡ [] → IfOk result (λ list. (b : ℕ) → sum_at list.items b ≡ []) }
{
    let mut list = Vec::with_capacity(alloc, count)?;
    for _ in 0..count {
        list.push(poly.share()?)?;
    }
    Ok(list)
}

/// Adds a block, if it is met for the first time.
fn meet(visited: &mut Vec<u32>, block: u32, is_first: bool) -> Result<(), AllocError>
    ensures first { is_first ≡ true → OnOk result (visited.new.items ≡ visited.old.items ++ block ∷ []) }
    ensures other { is_first ≡ false → OnOk result (visited.new.items ≡ visited.old.items) }
{
    if !is_first {
        return Ok(());
    }
    visited.push(block)?;
    Ok(())
}

impl Sums {
    /// No sums, for so many blocks.
    pub(crate) fn new(alloc: Global, blocks: usize) -> Result<Sums, AllocError>
        ensures { IfOk result (λ s. AreNone blocks s.of_blocks.items s.visited.items s.zero) }
    {
        let zero = SharedPoly::new(alloc, MultiAffine::from_vec(Vec::new(alloc)))?;
        Ok(Sums {
            of_blocks: copies(alloc, &zero, blocks)?,
            visited: Vec::new(alloc),
            zero,
        })
    }

    /// Adds a polynomial to the sum into a block.
    fn add(&mut self, alloc: Global, block: usize, poly: &SharedPoly) -> Result<(), AllocError>
        requires block { block < length self.old.of_blocks.items }
        requires number { block < 2 ^ 32 }
        requires visited { AreVisitedBlocks self.old.of_blocks.items self.old.visited.items }
        ensures sums { OnOk result (self.new.of_blocks.items
            ≡ slice_set self.old.of_blocks.items block (sum (sum_at self.old.of_blocks.items block) poly.now)) }
        ensures visited { OnOk result (AreVisitedBlocks self.new.of_blocks.items self.new.visited.items) }
        ensures zero { self.new.zero ≡ self.old.zero }
    {
        let is_first = self.of_blocks[block].len() == 0;
        meet(&mut self.visited, block as u32, is_first)?;
        let new = added(alloc, &self.of_blocks[block], poly)?;
        self.of_blocks[block] = new;
        Ok(())
    }

    /// Takes the sum into a block, which is 0 then, as an entry if it isn't 0.
    fn take_one(&mut self, block: u32, entries: &mut Vec<Entry>) -> Result<(), AllocError>
        requires block { block < length self.old.of_blocks.items }
        requires zero { self.old.zero ≡ [] }
        ensures sums { OnOk result (self.new.of_blocks.items ≡ slice_set self.old.of_blocks.items block []) }
        ensures entries { OnOk result (entries.new.items ≡ entries.old.items ++ one_entry block (sum_at self.old.of_blocks.items block)) }
        ensures visited { self.new.visited.items ≡ self.old.visited.items }
        ensures zero { self.new.zero ≡ self.old.zero }
    {
        let zero = self.zero.share()?;
        let sum = std::mem::replace(&mut self.of_blocks[block as usize], zero);
        if sum.len() == 0 {
            return Ok(());
        }
        entries.push(Entry {
            target: block,
            poly: sum,
        })?;
        Ok(())
    }

    /// Takes all sums as entries, by ascending block.
    fn take(&mut self, alloc: Global) -> Result<Vec<Entry>, AllocError>
        requires visited { AreVisitedBlocks self.old.of_blocks.items self.old.visited.items }
        requires zero { self.old.zero ≡ [] }
        ensures entries { IfOk result (λ es. es.items ≡ entries_of self.old.of_blocks.items (length self.old.of_blocks.items)) }
        ensures none { OnOk result
            (AreNone (length self.old.of_blocks.items) self.new.of_blocks.items self.new.visited.items self.new.zero) }
    {
        self.visited.sort_unstable();
        let mut entries = Vec::with_capacity(alloc, self.visited.len())?;
        for i in 0..self.visited.len() {
            let block = self.visited[i];
            self.take_one(block, &mut entries)?;
        }
        self.visited.clear();
        Ok(entries)
    }

    /// The entries of a row into blocks.
    pub(crate) fn entries(
        &mut self,
        alloc: Global,
        blocks: &[u32],
        row: &[Entry],
    ) -> Result<Vec<Entry>, AllocError>
        requires none { AreNone (length self.old.of_blocks.items) self.old.of_blocks.items self.old.visited.items self.old.zero }
        requires targets { All (λ entry. entry.target < length blocks.now) row.now }
        requires blocks { All (λ b. b < length self.old.of_blocks.items) blocks.now }
        ensures entries { IfOk result (λ es. es.items ≡ entries_into (number_at blocks.now) row.now (length self.old.of_blocks.items)) }
        ensures none { OnOk result
            (AreNone (length self.old.of_blocks.items) self.new.of_blocks.items self.new.visited.items self.new.zero) }
    {
        coefficients_determine();
        for entry in row {
            let block = blocks[entry.target as usize];
            self.add(alloc, block as usize, &entry.poly)?;
        }
        let entries = self.take(alloc)?;
        Ok(entries)
    }
}
