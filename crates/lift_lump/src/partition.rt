//! The blocks of states so far, and what a split makes of them: touched states by block and number get labels of
//! their own. Each label but perhaps one of the first two has a state, so there are few.

ghost use Rattle.std.specs.Prelude.{◌≡◌, ◌≢◌, ◌⊎◌, ◌<◌, ◌≤◌, ◌+◌, ◌-◌, ◌*◌, ◌^◌, ℕ, true, false, List, length, All, Contains, IfOk, OnOk, ◌∷◌, ◌++◌, [], slice_index_or, slice_set, if◌then◌else◌};
ghost use Rattle.lift_lump.specs.Search.{IsByNumber, number_at};
ghost use Rattle.lift_lump.specs.Lumping.{IsAboveRight};
ghost use Rattle.lift_lump.specs.Renaming.{AreTouched, AreKeyed, AreSortedKeys, HaveOneKey, StandsIn, IsRun, block_at, key_at, IsCrowded};
ghost use Rattle.lift_lump.specs.Splitting.{AreInside, AreUsed, AreListed, AreListedBut, AreGathered, HaveRest, IsBegun, AreFirstLabels, labelled, list_of};

use crate::laws::coarsest_is_one;
use crate::lists::Lists;
use crate::touch::{Touched, add_rest};
use lift_model::Model;
use std::alloc::{AllocError, Global};

/// A key over this is its block.
const BLOCK: u128 = 18446744073709551616;

/// The blocks so far: each has a label.
#[derive(Drop)]
pub struct Partition {
    /// The label of each state.
    pub labels: Vec<u32>,
    /// For each label how many states have it.
    pub sizes: Vec<u32>,
    /// For each label a list of states, among them all that have it.
    pub members: Lists<u32>,
}

/// The label of a state in the beginning.
fn first_label(is_goal: bool) -> u32
    ensures { result ≡ if is_goal then 1 else 0 }
{
    if is_goal { 1 } else { 0 }
}

/// The first label of each state.
fn first_labels(alloc: Global, model: &Model) -> Result<Vec<u32>, AllocError>
    ensures { IfOk result (λ labels. AreFirstLabels model.now labels.items) }
{
    let _common = model.common();
    let mut labels = Vec::with_capacity(alloc, model.states() as usize)?;
    for s in 0..model.states() {
        labels.push(first_label(model.is_goal(s)))?;
    }
    Ok(labels)
}

impl Partition {
    /// The goal states, and the others.
    pub(crate) fn start(alloc: Global, model: &Model) -> Result<Partition, AllocError>
        ensures inside { IfOk result (λ p. AreInside p.labels.items p.sizes.items p.members) }
        ensures used { IfOk result (λ p. AreUsed p.labels.items (length p.members)) }
        ensures listed { IfOk result (λ p. AreListed p.labels.items p.members) }
        ensures size { IfOk result (λ p. length p.labels.items ≡ length model.now.states) }
        ensures above { IfOk result (λ p. IsAboveRight model.now (labelled p.labels.items)) }
    {
        coarsest_is_one();
        let labels = first_labels(alloc, model)?;
        let mut members = Lists::new(alloc);
        members.open(alloc)?;
        members.open(alloc)?;
        let sizes = vec![in alloc; 0; 2]?;
        let mut part = Partition {
            labels,
            sizes,
            members,
        };
        for s in 0..model.states() {
            part.settle(s)?;
        }
        Ok(part)
    }

    /// Puts a state into the list of its label, and counts it there.
    fn settle(&mut self, s: u32) -> Result<(), AllocError>
        requires state { s < length self.old.labels.items }
        requires sizes { number_at self.old.labels.items s < length self.old.sizes.items }
        requires members { number_at self.old.labels.items s < length self.old.members }
        requires room { number_at self.old.sizes.items (number_at self.old.labels.items s) + 1 < 2 ^ 32 }
        ensures labels { self.new.labels.items ≡ self.old.labels.items }
        ensures sizes { self.new.sizes.items ≡ slice_set self.old.sizes.items (number_at self.old.labels.items s)
            (number_at self.old.sizes.items (number_at self.old.labels.items s) + 1) }
        ensures members { OnOk result (self.new.members ≡ slice_set self.old.members (number_at self.old.labels.items s)
            (list_of self.old.members (number_at self.old.labels.items s) ++ s ∷ [])) }
    {
        let label = self.labels[s as usize] as usize;
        self.sizes[label] += 1;
        self.members.push(label, s)
    }

    /// A label that no state has yet.
    fn open(&mut self, alloc: Global) -> Result<u32, AllocError>
        requires few { length self.old.members < 2 ^ 32 }
        requires inside { AreInside self.old.labels.items self.old.sizes.items self.old.members }
        ensures label { IfOk result (λ l. l ≡ length self.old.members) }
        ensures inside { OnOk result (AreInside self.new.labels.items self.new.sizes.items self.new.members) }
        ensures members { OnOk result (self.new.members ≡ self.old.members ++ [] ∷ []) }
        ensures labels { self.new.labels.items ≡ self.old.labels.items }
    {
        let label = self.members.len() as u32;
        self.sizes.push(0)?;
        self.members.open(alloc)?;
        Ok(label)
    }

    /// A new label, or that one where none is asked for.
    fn name(&mut self, alloc: Global, kept: u32, is_new: bool) -> Result<u32, AllocError>
        requires few { length self.old.members < 2 ^ 32 }
        requires inside { AreInside self.old.labels.items self.old.sizes.items self.old.members }
        ensures inside { OnOk result (AreInside self.new.labels.items self.new.sizes.items self.new.members) }
        ensures new { is_new ≡ true → IfOk result (λ l. l ≡ length self.old.members) }
        ensures opened { is_new ≡ true → OnOk result (self.new.members ≡ self.old.members ++ [] ∷ []) }
        ensures kept { is_new ≡ false → IfOk result (λ l. l ≡ kept) }
        ensures same { is_new ≡ false → OnOk result (self.new.members ≡ self.old.members) }
        ensures labels { self.new.labels.items ≡ self.old.labels.items }
    {
        if !is_new {
            return Ok(kept);
        }
        self.open(alloc)
    }

    /// Gives a state a label, and puts it into the list of that.
    fn place(&mut self, s: u32, label: u32) -> Result<(), AllocError>
        requires state { s < length self.old.labels.items }
        requires label { label < length self.old.members }
        requires states { length self.old.labels.items + 1 < 2 ^ 32 }
        requires inside { AreInside self.old.labels.items self.old.sizes.items self.old.members }
        ensures inside { OnOk result (AreInside self.new.labels.items self.new.sizes.items self.new.members) }
        ensures labels { self.new.labels.items ≡ slice_set self.old.labels.items s label }
        ensures members { OnOk result (self.new.members ≡ slice_set self.old.members label (list_of self.old.members label ++ s ∷ [])) }
    {
        let old = self.labels[s as usize] as usize;
        self.sizes[old] -= 1;
        self.sizes[label as usize] += 1;
        self.labels[s as usize] = label;
        self.members.push(label as usize, s)
    }
}

/// Whether a run of states with the same key begins at that place.
fn begins(touched: &[Touched], i: usize) -> bool
    requires { i < length touched.now }
    ensures first { result ≡ true → (j : ℕ) → j + 1 ≡ i → key_at touched.now j ≢ key_at touched.now i }
    ensures other { result ≡ false → (0 < i) × (key_at touched.now (i - 1) ≡ key_at touched.now i) }
{
    i == 0 || touched[i - 1].key != touched[i].key
}

/// Whether the states of another block begin at that place.
fn begins_block(touched: &[Touched], i: usize) -> bool
    requires { i < length touched.now }
    ensures first { result ≡ true → (j : ℕ) → j + 1 ≡ i → block_at touched.now j ≢ block_at touched.now i }
    ensures other { result ≡ false → (0 < i) × (block_at touched.now (i - 1) ≡ block_at touched.now i) }
{
    i == 0 || touched[i - 1].key / BLOCK != touched[i].key / BLOCK
}

/// Whether the states at two places are of one block.
fn is_same_block(touched: &[Touched], i: usize, j: usize) -> bool
    requires first { i < length touched.now }
    requires second { j < length touched.now }
    ensures { result ≡ true → block_at touched.now j ≡ block_at touched.now i }
{
    touched[i].key / BLOCK == touched[j].key / BLOCK
}

/// Where the run of the state at that place begins, if the one before it began at `start`.
fn run_start(touched: &[Touched], i: usize, start: usize) -> usize
    requires { i < length touched.now }
    ensures { (from : ℕ) → from ≤ i → block_at touched.now i ≡ block_at touched.now from → IsRun touched.now from start
        → IsRun touched.now from result }
{
    if begins(touched, i) { i } else { start }
}

/// Where the longest run of the block begins whose states begin at that place.
fn longest_run(touched: &[Touched], from: usize) -> usize
    requires from { from < length touched.now }
    requires begins { (j : ℕ) → j + 1 ≡ from → block_at touched.now j ≢ block_at touched.now from }
    ensures { IsRun touched.now from result }
{
    let mut longest = 0;
    let mut place = from;
    let mut start = from;
    for i in from..touched.len() {
        if !is_same_block(touched, from, i) {
            return place;
        }
        start = run_start(touched, i, start);
        let size = i.saturating_sub(start);
        if size > longest {
            longest = size;
            place = start;
        }
    }
    place
}

/// Where the run of the block begins that keeps its label: if the list of the block was taken away, the longest one,
/// else a place that isn't there. Within a block it is what it was.
fn keeper_of(touched: &[Touched], list: &[u32], i: usize, keeper: usize) -> usize
    requires { i < length touched.now }
    ensures same { (0 < i) → block_at touched.now (i - 1) ≡ block_at touched.now i → result ≡ keeper }
    ensures gone { ((j : ℕ) → j + 1 ≡ i → block_at touched.now j ≢ block_at touched.now i) → list.now ≡ [] → IsRun touched.now i result }
    ensures there { ((j : ℕ) → j + 1 ≡ i → block_at touched.now j ≢ block_at touched.now i) → 0 < length list.now
        → result ≡ length touched.now }
{
    if !begins_block(touched, i) {
        return keeper;
    }
    if list.is_empty() {
        longest_run(touched, i)
    } else {
        touched.len()
    }
}

/// Whether a run begins at that place that gets a new label.
fn is_named(touched: &[Touched], i: usize, keeper: usize) -> bool
    requires { i < length touched.now }
    ensures new { result ≡ true → (i ≢ keeper) × ((j : ℕ) → j + 1 ≡ i → key_at touched.now j ≢ key_at touched.now i) }
    ensures other { result ≡ false → i ≢ keeper → (0 < i) × (key_at touched.now (i - 1) ≡ key_at touched.now i) }
{
    i != keeper && begins(touched, i)
}

/// The label for the state at that place, where it gets no new one: in a run that of the state before it, else its own.
fn kept_name(touched: &[Touched], i: usize, own: u32, last: u32) -> u32
    requires { i < length touched.now }
    ensures first { ((j : ℕ) → j + 1 ≡ i → key_at touched.now j ≢ key_at touched.now i) → result ≡ own }
    ensures other { (0 < i) → key_at touched.now (i - 1) ≡ key_at touched.now i → result ≡ last }
{
    if begins(touched, i) { own } else { last }
}

/// Gives touched states labels by block and number, and puts them into the lists of these. Each run of states with one
/// key gets a new label. But if all states of a block are touched, so that its list was taken away, the longest run
/// keeps the block's label; else those keep it that aren't.
pub(crate) fn regroup(
    alloc: Global,
    touched: &[Touched],
    part: &mut Partition,
) -> Result<(), AllocError>
    requires states { length part.old.labels.items + 1 < 2 ^ 32 }
    requires touched { All (λ t. t.state < length part.old.labels.items) touched.now }
    requires sorted { AreSortedKeys touched.now }
    requires keys { HaveOneKey touched.now }
    requires keyed { AreKeyed part.old.labels.items touched.now }
    requires inside { AreInside part.old.labels.items part.old.sizes.items part.old.members }
    requires used { AreUsed part.old.labels.items (length part.old.members) }
    requires listed { AreListedBut touched.now part.old.labels.items part.old.members }
    requires rest { HaveRest part.old.labels.items part.old.members touched.now }
    ensures inside { OnOk result (AreInside part.new.labels.items part.new.sizes.items part.new.members) }
    ensures used { OnOk result (AreUsed part.new.labels.items (length part.new.members)) }
    ensures listed { OnOk result (AreListed part.new.labels.items part.new.members) }
    ensures size { OnOk result (length part.new.labels.items ≡ length part.old.labels.items) }
    ensures kept { OnOk result (length part.old.members ≤ length part.new.members) }
    ensures more { OnOk result (IsBegun touched.now part.old.labels.items part.old.members
        → length part.old.members < length part.new.members) }
    ensures numbers { OnOk result ((numbers : List ℕ) → AreTouched part.old.labels.items numbers touched.now
        → IsByNumber (length part.old.labels.items) (λ s. slice_index_or part.old.labels.items s 0) numbers
        (λ s. slice_index_or part.new.labels.items s 0)) }
{
    let mut name = 0;
    let mut keeper = 0;
    for i in 0..touched.len() {
        let s = touched[i].state;
        let own = part.labels[s as usize];
        keeper = keeper_of(touched, part.members.list(own as usize), i, keeper);
        name = part.name(
            alloc,
            kept_name(touched, i, own, name),
            is_named(touched, i, keeper),
        )?;
        part.place(s, name)?;
    }
    Ok(())
}

/// How many states of the block are touched up to that place, of those before it so many.
fn count_at(touched: &[Touched], i: usize, before: usize) -> usize
    requires place { i < length touched.now }
    requires before { before ≤ i }
    ensures first { ((j : ℕ) → j + 1 ≡ i → block_at touched.now j ≢ block_at touched.now i) → result ≡ 1 }
    ensures other { (0 < i) → block_at touched.now (i - 1) ≡ block_at touched.now i → result ≡ before + 1 }
{
    if begins_block(touched, i) {
        1
    } else {
        before + 1
    }
}

/// The blocks more than half of whose states are touched. So their other states are fewer.
fn crowded(alloc: Global, touched: &[Touched], part: &Partition) -> Result<Vec<u32>, AllocError>
    requires touched { All (λ t. t.state < length part.now.labels.items) touched.now }
    requires sorted { AreSortedKeys touched.now }
    requires keyed { AreKeyed part.now.labels.items touched.now }
    requires inside { AreInside part.now.labels.items part.now.sizes.items part.now.members }
    ensures blocks { IfOk result (λ blocks. All (λ b. b < length part.now.members) blocks.items) }
    ensures only { IfOk result (λ blocks. All (IsCrowded part.now.sizes.items touched.now) blocks.items) }
    ensures all { IfOk result (λ blocks. (b : ℕ) → IsCrowded part.now.sizes.items touched.now b → Contains blocks.items b) }
{
    let mut blocks = Vec::new(alloc);
    let mut count = 0;
    for i in 0..touched.len() {
        count = count_at(touched, i, count);
        let block = part.labels[touched[i].state as usize];
        let size = part.sizes[block as usize] as usize;
        note(&mut blocks, block, is_due(touched, i, size, count))?;
    }
    Ok(blocks)
}

/// Adds a block, if it is asked for.
fn note(blocks: &mut Vec<u32>, block: u32, is_due: bool) -> Result<(), AllocError>
    ensures due { is_due ≡ true → OnOk result (blocks.new.items ≡ blocks.old.items ++ block ∷ []) }
    ensures other { is_due ≡ false → OnOk result (blocks.new.items ≡ blocks.old.items) }
{
    if !is_due {
        return Ok(());
    }
    blocks.push(block)?;
    Ok(())
}

/// Whether the states of a block end at that place.
fn ends_block(touched: &[Touched], i: usize) -> bool
    requires { i < length touched.now }
    ensures last { result ≡ true → (j : ℕ) → i + 1 ≡ j → j < length touched.now → block_at touched.now i ≢ block_at touched.now j }
    ensures other { result ≡ false → (i + 1 < length touched.now) × (block_at touched.now i ≡ block_at touched.now (i + 1)) }
{
    i + 1 == touched.len() || begins_block(touched, i + 1)
}

/// Whether the states of a block end at that place, and of that size so many are more than half.
fn is_due(touched: &[Touched], i: usize, size: usize, count: usize) -> bool
    requires { i < length touched.now }
    ensures last { result ≡ true → (j : ℕ) → i + 1 ≡ j → j < length touched.now → block_at touched.now i ≢ block_at touched.now j }
    ensures most { result ≡ true → size < 2 * count }
    ensures other { result ≡ false → ((i + 1 < length touched.now) × (block_at touched.now i ≡ block_at touched.now (i + 1)))
        ⊎ (2 * count ≤ size) }
{
    ends_block(touched, i) && size.saturating_sub(count) < count
}

/// Touches all other states of a block too, and takes its list away.
fn add_rest_of(
    alloc: Global,
    touched: &mut Vec<Touched>,
    part: &mut Partition,
    numbers: &[u64],
    block: u32,
) -> Result<(), AllocError>
    requires block { block < length part.old.members }
    requires sizes { length numbers.now ≡ length part.old.labels.items }
    requires inside { AreInside part.old.labels.items part.old.sizes.items part.old.members }
    requires gathered { AreGathered part.old.labels.items numbers.now part.old.members touched.old.items }
    ensures inside { OnOk result (AreInside part.new.labels.items part.new.sizes.items part.new.members) }
    ensures gathered { OnOk result (AreGathered part.new.labels.items numbers.now part.new.members touched.new.items) }
    ensures members { OnOk result (part.new.members ≡ slice_set part.old.members block []) }
    ensures only { OnOk result ((t : ℕ) → StandsIn touched.new.items t → StandsIn touched.old.items t
        ⊎ (number_at part.old.labels.items t ≡ block)) }
    ensures same { OnOk result (part.new.labels.items ≡ part.old.labels.items) }
{
    let states = part.members.take(alloc, block as usize);
    add_rest(touched, &part.labels, numbers, block, &states)?;
    Ok(())
}

/// Touches the other states of those blocks too that have more touched states than others.
pub(crate) fn add_rests(
    alloc: Global,
    touched: &mut Vec<Touched>,
    part: &mut Partition,
    numbers: &[u64],
) -> Result<(), AllocError>
    requires sizes { length numbers.now ≡ length part.old.labels.items }
    requires sorted { AreSortedKeys touched.old.items }
    requires keyed { AreKeyed part.old.labels.items touched.old.items }
    requires inside { AreInside part.old.labels.items part.old.sizes.items part.old.members }
    requires gathered { AreGathered part.old.labels.items numbers.now part.old.members touched.old.items }
    ensures inside { OnOk result (AreInside part.new.labels.items part.new.sizes.items part.new.members) }
    ensures gathered { OnOk result (AreGathered part.new.labels.items numbers.now part.new.members touched.new.items) }
    ensures rest { OnOk result (HaveRest part.new.labels.items part.new.members touched.new.items) }
    ensures count { OnOk result (length part.new.members ≡ length part.old.members) }
    ensures same { OnOk result (part.new.labels.items ≡ part.old.labels.items) }
{
    let blocks = crowded(alloc, touched, part)?;
    for block in &blocks {
        add_rest_of(alloc, touched, part, numbers, *block)?;
    }
    Ok(())
}
