//! One block of memory, cut into lanes.

ghost use Rattle.std.specs.Prelude.{◌≡◌, ◌+◌, ◌-◌, ◌*◌, ◌^◌, ◌<◌, ◌≤◌, [], ◌∷◌, ◌++◌};
ghost use Rattle.std.specs.Prelude.{IfOk, length, replicate, vec_capacity, vec_len};
ghost use Rattle.std.specs.Prelude.{slice_index_or, slice_range, slice_set};
ghost use Rattle.std.specs.Borrow.{sem};
ghost use Rattle.lift_pool.specs.Cuts.{start};
ghost use Rattle.lift_pool.specs.Lanes.{last_lane, pool_with, pool_without_last};
ghost use Rattle.lift_pool.specs.Lends.{LendsLane};

use crate::laws::lanes_stand_alone;
use std::alloc::{AllocError, Global};
use std::marker::Model;

/// A stack of lanes in one block of memory. A lane is a run of words, and a word is one `T`.
///
/// A pool is seen as its lanes, the number of words that can still be taken (`spare`), and the
/// number of lanes that can (`spare_lanes`). `make` alone takes memory, and no other call can be
/// refused: each says how much has to be left.
#[derive(Drop)]
pub struct Pool<T: Copy> {
    // the words of all lanes, the lane that was taken first in front
    block: Vec<T>,
    // where each lane ends in the block; it begins where the one before it ends
    ends: Vec<usize>,
    // how many words and how many lanes can still be taken
    spare: usize,
    spare_lanes: usize,
}

impl<T: Copy> Model for Pool<T> {
    ghost use Rattle.std.specs.Prelude.{vec_capacity};
    ghost use Rattle.lift_pool.specs.Cuts.{cut, IsCut};
    ghost use Rattle.lift_pool.specs.Lanes.{PoolData};

    ghost Value = { PoolData T };

    ghost view = { λ p. record {
      lanes = cut 0 p.ends.items p.block.items;
      spare = p.spare;
      spare_lanes = p.spare_lanes;
    } };

    ghost invariant = { λ p.
        IsCut p.ends.items p.block.items
        (vec_capacity p.block) p.spare
        (vec_capacity p.ends) p.spare_lanes };
}

/// Appends so many words of one value. The block has the room, so no push is refused.
fn append<T: Copy>(block: &mut Vec<T>, count: usize, value: T)
    requires { vec_len block.old + count ≤ vec_capacity block.old }
    ensures items { block.new.items ≡ block.old.items ++ replicate count value }
    ensures capacity { vec_capacity block.old ≤ vec_capacity block.new }
{
    for _ in 0..count {
        let _ = block.push(value);
    }
}

/// Appends a copy of the words from place `from` on. The block has the room, so no push is refused.
fn append_copy<T: Copy>(block: &mut Vec<T>, from: usize)
    requires from { from ≤ vec_len block.old }
    requires room { vec_len block.old + (vec_len block.old - from) ≤ vec_capacity block.old }
    ensures items { block.new.items
        ≡ block.old.items ++ slice_range block.old.items from (vec_len block.old) }
    ensures capacity { vec_capacity block.old ≤ vec_capacity block.new }
{
    for i in from..block.len() {
        let value = block[i];
        let _ = block.push(value);
    }
}

/// Appends the end of one lane more. The list has the room, so the push is not refused.
fn append_end(ends: &mut Vec<usize>, end: usize)
    requires { vec_len ends.old < vec_capacity ends.old }
    ensures items { ends.new.items ≡ ends.old.items ++ end ∷ [] }
    ensures capacity { vec_capacity ends.old ≤ vec_capacity ends.new }
{
    let _ = ends.push(end);
}

/// The place in the block where lane `i` begins, or where the block ends for the number of lanes.
fn start_of(ends: &[usize], i: usize) -> usize
    requires { i ≤ length ends.now }
    ensures { result ≡ start 0 ends.now i }
{
    if i == 0 { 0 } else { ends[i - 1] }
}

/// The words of the block from one place up to another.
fn part<T: Copy>(block: &[T], from: usize, to: usize) -> &[T]
    requires order { from ≤ to }
    requires end { to ≤ length block.now }
    ensures { result.now ≡ slice_range block.now from to }
{
    &block[from..to]
}

impl<T: Copy> Pool<T> {
    /// A pool with room for so many words in so many lanes, and no lane yet. The one error is that
    /// memory runs out.
    pub fn make(alloc: Global, words: usize, lanes: usize) -> Result<Self, AllocError>
        ensures empty { IfOk result (λ p. p.lanes ≡ []) }
        ensures spare { IfOk result (λ p. words ≤ p.spare) }
        ensures spare_lanes { IfOk result (λ p. lanes ≤ p.spare_lanes) }
    {
        let block = Vec::with_capacity(alloc, words)?;
        let ends = Vec::with_capacity(alloc, lanes)?;
        Ok(Pool {
            block,
            ends,
            spare: words,
            spare_lanes: lanes,
        })
    }

    /// A pool of `count` lanes, each of `len` words `fill`.
    pub fn filled(alloc: Global, count: usize, len: usize, fill: T) -> Result<Self, AllocError>
        requires { count * len < 2 ^ 64 }
        ensures { IfOk result (λ p. p.lanes ≡ replicate count (replicate len fill)) }
    {
        let mut pool = Pool::make(alloc, count * len, count)?;
        for _ in 0..count {
            pool.take(len, fill);
        }
        Ok(pool)
    }

    /// Appends a lane of `len` words, each of them `fill`. A lane may have no words.
    pub fn take(&mut self, len: usize, fill: T)
        requires spare { len ≤ self.old.spare }
        requires spare_lanes { 1 ≤ self.old.spare_lanes }
        ensures { self.new ≡ pool_with self.old (replicate len fill) }
    {
        append(&mut self.block, len, fill);
        append_end(&mut self.ends, self.block.len());
        self.spare -= len;
        self.spare_lanes -= 1;
    }

    /// Appends a copy of the last lane.
    pub fn take_copy(&mut self)
        requires some { 0 < length self.old.lanes }
        requires spare { length (last_lane self.old.lanes) ≤ self.old.spare }
        requires spare_lanes { 1 ≤ self.old.spare_lanes }
        ensures { self.new ≡ pool_with self.old (last_lane self.old.lanes) }
    {
        let from = start_of(&self.ends, self.ends.len() - 1);
        let len = self.block.len() - from;
        append_copy(&mut self.block, from);
        append_end(&mut self.ends, self.block.len());
        self.spare -= len;
        self.spare_lanes -= 1;
    }

    /// Drops the last lane, whose words and place can then be taken anew.
    pub fn give_back(&mut self)
        requires { 0 < length self.old.lanes }
        ensures { self.new ≡ pool_without_last self.old }
    {
        let from = start_of(&self.ends, self.ends.len() - 1);
        let len = self.block.len() - from;
        self.block.truncate(from);
        self.ends.truncate(self.ends.len() - 1);
        self.spare += len;
        self.spare_lanes += 1;
    }

    /// The number of lanes.
    pub fn lanes(&self) -> usize
        ensures { result ≡ length self.now.lanes }
    {
        self.ends.len()
    }

    /// The words of lane `i`. Lanes are numbered from 0, in the order in which they were taken.
    pub fn lane(&self, i: usize) -> &[T]
        requires { i < length self.now.lanes }
        ensures { result.now ≡ slice_index_or self.now.lanes i [] }
    {
        part(&self.block, start_of(&self.ends, i), self.ends[i])
    }

    /// The words of lane `i`, to write. Writing changes that lane alone, by `lanes_stand_alone`.
    pub fn lane_mut(&mut self, i: usize) -> &mut [T]
        requires { i < length self.old.lanes }
        ensures* writes_back { sem 𝓛 (LendsLane T.row self.entry i result) }
        ensures value { result.now ≡ slice_index_or self.old.lanes i [] }
    {
        let from = start_of(&self.ends, i);
        let to = self.ends[i];
        self.block.slice_mut(from..to)
    }

    /// Writes the words of lane `i`.
    pub fn write(&mut self, i: usize, words: &[T])
        requires some { i < length self.old.lanes }
        requires size { length words.now ≡ length (slice_index_or self.old.lanes i []) }
        ensures { self.new ≡ record self.old { lanes = slice_set self.old.lanes i words.now } }
    {
        lanes_stand_alone::<T>();
        self.lane_mut(i).copy_from_slice(words);
    }
}
