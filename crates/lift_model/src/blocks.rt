//! The blocks of a table of weights: one for all rows with the same polynomials.

ghost use Rattle.std.specs.Prelude.{◌≡◌, ◌+◌, ◌*◌, ◌<◌, ◌^◌, [], length, count_ones, slice_index_or, IsTrue, IfSome, IfOk};
ghost use Rattle.lift_model.specs.Model.{support, row_at};
ghost use Rattle.lift_model.specs.Links.{HasChoice, polynomials, first_row, no_first};
ghost use Rattle.lift_model.specs.Layout.{AreFirsts, AreBlocks, IsPlaced};

use crate::lists::number_at;
use crate::model::Model;
use crate::row::Row;
use crate::shared::is_same;
use std::alloc::{AllocError, Global};

/// How many slots are looked at for a row.
const TRIES: u64 = 64;

/// A row whose weights have a block in a table: the choice of a state.
#[derive(Clone, Copy)]
pub struct FirstRow {
    /// The state.
    pub state: u32,
    /// The choice.
    pub choice: u32,
}

/// The blocks so far. They are found by the hashes of rows, of which nothing is promised, and tested by
/// comparison.
#[derive(Drop)]
pub struct Blocks {
    // a hash table: the number of a block, from 1 on, or 0
    slots: Vec<u32>,
    // a part of the hash of each block
    tags: Vec<u32>,
    /// The first row of each block.
    pub firsts: Vec<FirstRow>,
    /// Where each block begins.
    pub places: Vec<u32>,
    /// How many weights they have.
    pub weights: u32,
}

/// Whether two rows have the same polynomials, entry for entry.
fn are_same(left: &Row, right: &Row) -> bool
    ensures { IsTrue result → polynomials left.now ≡ polynomials right.now }
{
    let left = left.entries();
    let right = right.entries();
    if left.len() != right.len() {
        return false;
    }
    for index in 0..left.len() {
        if !is_same(&left[index].poly, &right[index].poly) {
            return false;
        }
    }
    true
}

/// The number of corners of a row.
pub(crate) fn corners_of(row: &Row) -> u32
    ensures { result ≡ 2 ^ count_ones (support row.now) }
{
    1 << row.support().count_ones()
}

/// Where a block ends that has so many weights for each of its corners. A table of 2^32 weights would
/// take 64 gigabytes, and is refused as memory is that isn't there.
fn end_of(place: u32, entries: u32, corners: u32) -> Result<u32, AllocError>
    ensures { IfOk result (λ end. end ≡ place + entries * corners) }
{
    match entries.checked_mul(corners) {
        Some(count) => place.checked_add(count).ok_or(AllocError),
        None => Err(AllocError),
    }
}

/// Which slot a hash has after so many tries.
fn slot_of(slots: &[u32], hash: u64, tries: u64) -> usize {
    let last = slots.len().saturating_sub(1);
    (hash.wrapping_add(tries) as usize) & last
}

/// The part of a hash that is kept for a block.
fn tag_of(hash: u64) -> u32 {
    (hash >> 32) as u32
}

/// Enters a number at a hash, if a slot is free.
fn enter(slots: &mut [u32], hash: u64, number: usize) {
    for tries in 0..TRIES {
        let place = slot_of(slots, hash, tries);
        if let Some(slot) = slots.get_mut(place) {
            if *slot == 0 {
                *slot = u32::try_from(number).unwrap_or(0);
                return;
            }
        }
    }
}

impl Blocks {
    /// No blocks, with slots for so many rows.
    pub(crate) fn new(alloc: Global, rows: usize) -> Result<Blocks, AllocError>
        ensures firsts { IfOk result (λ blocks. blocks.firsts.items ≡ []) }
        ensures places { IfOk result (λ blocks. blocks.places.items ≡ []) }
        ensures weights { IfOk result (λ blocks. blocks.weights ≡ 0) }
    {
        let mut size = 1usize;
        for _ in 0..20 {
            if size < rows.saturating_mul(2) {
                size = size.saturating_mul(2);
            }
        }
        Ok(Blocks {
            slots: vec![in alloc; 0u32; size]?,
            tags: Vec::with_capacity(alloc, rows)?,
            firsts: Vec::with_capacity(alloc, rows)?,
            places: Vec::with_capacity(alloc, rows)?,
            weights: 0,
        })
    }

    /// The block of a row with the same polynomials, if one is found.
    fn find(&self, model: &Model, hash: u64, row: &Row) -> Option<usize>
        requires { AreFirsts model.now self.now.firsts.items }
        ensures { IfSome result (λ block. (block < length self.now.firsts.items)
            × (polynomials (first_row model.now (slice_index_or self.now.firsts.items block no_first)) ≡ polynomials row.now)) }
    {
        for tries in 0..TRIES {
            let slot = slot_of(&self.slots, hash, tries);
            let number = number_at(&self.slots, slot) as usize;
            if number == 0 || number > self.firsts.len() {
                return None;
            }
            let block = number - 1;
            if number_at(&self.tags, block) == tag_of(hash) && self.is_of(model, block, row) {
                return Some(block);
            }
        }
        None
    }

    /// The first row of each block, and how many weights they have. What blocks were found by goes.
    pub(crate) fn into_firsts(self) -> (Vec<FirstRow>, u32)
        ensures firsts { result.0.items ≡ self.firsts.items }
        ensures weights { result.1 ≡ self.weights }
    {
        (self.firsts, self.weights)
    }

    /// Whether a block is of a row with the same polynomials.
    fn is_of(&self, model: &Model, block: usize, row: &Row) -> bool
        requires block { block < length self.now.firsts.items }
        requires rows { AreFirsts model.now self.now.firsts.items }
        ensures { IsTrue result
            → polynomials (first_row model.now (slice_index_or self.now.firsts.items block no_first)) ≡ polynomials row.now }
    {
        let first = self.firsts[block];
        are_same(model.row(first.state, first.choice), row)
    }

    /// Where the weights of a row begin: in the block of a row with the same polynomials, or in a block
    /// more.
    pub(crate) fn place(&mut self, model: &Model, s: u32, a: u32) -> Result<u32, AllocError>
        requires blocks { AreBlocks model.now self.old }
        requires row { HasChoice model.now s a }
        ensures { IfOk result (λ place. IsPlaced model.now self.old self.new (row_at model.now s a) place) }
    {
        let row = model.row(s, a);
        let hash = row.hash();
        if let Some(block) = self.find(model, hash, row) {
            return Ok(self.places[block]);
        }
        let place = self.weights;
        let end = end_of(place, row.entries().len() as u32, corners_of(row))?;
        self.firsts.push(FirstRow {
            state: s,
            choice: a,
        })?;
        self.places.push(place)?;
        self.tags.push(tag_of(hash))?;
        enter(&mut self.slots, hash, self.firsts.len());
        self.weights = end;
        Ok(place)
    }
}
