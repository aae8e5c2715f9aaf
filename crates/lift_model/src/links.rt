//! What iterations over a model look up: where rows and their weights stand, which states lead to a
//! state, and an order of the states.

ghost use Rattle.std.specs.Prelude.{◌≡◌, ◌+◌, ◌<◌, ◌≤◌, false, length, map, slice_index_or, slice_range, IfOk};
ghost use Rattle.lift_model.specs.Model.{ModelData};
ghost use Rattle.lift_model.specs.OnlyRow.{IsOnlyRow};
ghost use Rattle.lift_model.specs.Links.{LinksData, ArePlaces, AreLinks, state_count, choice_count, row_place, place, states_before, positions_before, position};

use crate::before::{find_first, find_sources};
use crate::blocks::FirstRow;
use crate::layout::{RowPlace, lay_out};
use crate::lists::{number_at, zeros};
use crate::model::Model;
use crate::only_row::{OnlyRow, find_only_rows, only_row_at};
use crate::order::order_states;
use std::alloc::{AllocError, Global};

/// What iterations over a model look up, made once for it.
#[derive(Drop)]
pub struct Links {
    row_starts: Vec<u32>,
    rows: Vec<RowPlace>,
    targets: Vec<u32>,
    firsts: Vec<FirstRow>,
    weights: u32,
    starts: Vec<u32>,
    ends: Vec<u32>,
    before: Vec<u32>,
    before_positions: Vec<u32>,
    order: Vec<u32>,
    component_ends: Vec<u32>,
    positions: Vec<u32>,
    lone: Vec<bool>,
    only_rows: Vec<OnlyRow>,
}

impl std::marker::Model for Links {
    ghost use Rattle.lift_model.specs.Links.{LinksData};

    ghost Value = { LinksData };

    ghost use Rattle.lift_model.specs.Stored.{links_of, AreStored, AreOnlyRows};

    ghost view = { links_of };

    ghost invariant = { λ l. AreStored (links_of l) × AreOnlyRows l };
}

/// The positions of these states.
fn positions_of(alloc: Global, states: &[u32], positions: &[u32]) -> Result<Vec<u32>, AllocError>
    ensures { IfOk result (λ list. list.items ≡ map (λ s. slice_index_or positions.now s 0) states.now) }
{
    let mut list = Vec::with_capacity(alloc, states.len())?;
    for s in states {
        list.push(number_at(positions, *s as usize))?;
    }
    Ok(list)
}

impl Links {
    /// The links of a model. Takes memory, and a time nearly linear in the model's size.
    pub fn build(alloc: Global, model: &Model) -> Result<Links, AllocError>
        ensures { IfOk result (λ links. AreLinks model.now links) }
    {
        let (layout, starts) = lay_out(alloc, model)?;
        let (firsts, weights) = layout.blocks.into_firsts();
        let count = model.states() as usize;
        let sources = find_sources(alloc, count, &layout.targets, &starts.targets)?;
        let order = order_states(alloc, model, &layout.targets, &starts.targets)?;
        let before_positions = positions_of(alloc, &sources.states, &order.positions)?;
        let lone = find_first(
            alloc,
            &order.positions,
            &sources.starts,
            &sources.ends,
            &before_positions,
        )?;
        let only_rows = find_only_rows(
            alloc,
            &starts.rows,
            &layout.rows,
            &layout.targets,
            model.states(),
        )?;
        Ok(Links {
            row_starts: starts.rows,
            rows: layout.rows,
            targets: layout.targets,
            firsts,
            weights,
            starts: sources.starts,
            ends: sources.ends,
            before: sources.states,
            before_positions,
            order: order.states,
            component_ends: order.ends,
            positions: order.positions,
            lone,
            only_rows,
        })
    }

    /// The places of a model's rows alone, for who looks up nothing else: the states before each state
    /// and the order are left out, which take most of the time. Nothing is promised then of `before`,
    /// `positions_before`, `order`, `component_ends`, `position` and `is_lone`.
    pub fn build_places(alloc: Global, model: &Model) -> Result<Links, AllocError>
        ensures { IfOk result (λ links. ArePlaces model.now links) }
    {
        let (layout, starts) = lay_out(alloc, model)?;
        let (firsts, weights) = layout.blocks.into_firsts();
        let count = model.states() as usize;
        Ok(Links {
            row_starts: starts.rows,
            rows: layout.rows,
            targets: layout.targets,
            firsts,
            weights,
            starts: zeros(alloc, count)?,
            ends: zeros(alloc, count)?,
            before: Vec::new(alloc),
            before_positions: Vec::new(alloc),
            order: zeros(alloc, count)?,
            component_ends: zeros(alloc, count)?,
            positions: zeros(alloc, count)?,
            lone: Vec::new(alloc),
            only_rows: Vec::new(alloc),
        })
    }

    /// The states that have an entry into `s`, ascending.
    #[inline(always)]
    pub fn before(&self, s: u32) -> &[u32]
        requires { s < state_count self.now }
        ensures { result.now ≡ states_before self.now s }
    {
        &self.before[self.starts[s as usize] as usize..self.ends[s as usize] as usize]
    }

    /// The positions of the states that have an entry into `s`.
    #[inline(always)]
    pub fn positions_before(&self, s: u32) -> &[u32]
        requires { s < state_count self.now }
        ensures { result.now ≡ positions_before self.now s }
    {
        &self.before_positions[self.starts[s as usize] as usize..self.ends[s as usize] as usize]
    }

    /// The number of choices of a state.
    #[inline(always)]
    pub fn choices(&self, s: u32) -> u32
        requires { s < state_count self.now }
        ensures { result ≡ choice_count self.now s }
    {
        self.row_starts[s as usize + 1].saturating_sub(self.row_starts[s as usize])
    }

    /// The number of a row, in reading order.
    #[inline(always)]
    pub fn row_place(&self, s: u32, a: u32) -> usize
        requires state { s < state_count self.now }
        requires choice { a < choice_count self.now s }
        ensures value { result ≡ row_place self.now s a }
        ensures inside { result < length self.now.rows }
    {
        self.row_starts[s as usize] as usize + a as usize
    }

    /// Where a row's targets and weights stand.
    #[inline(always)]
    pub fn place(&self, s: u32, a: u32) -> RowPlace
        requires state { s < state_count self.now }
        requires choice { a < choice_count self.now s }
        ensures { result ≡ place self.now s a }
    {
        self.rows[self.row_place(s, a)]
    }

    /// The only row of a state, if it has one, and that is short and leads elsewhere. Where the places alone were
    /// built, nothing is told of it.
    #[inline(always)]
    pub fn only_row(&self, s: u32) -> OnlyRow
        ensures { (m : ModelData) → ArePlaces m self.now → s < length m.states → IsOnlyRow m self.now s result }
    {
        only_row_at(&self.only_rows, s as usize)
    }

    /// The places of all rows of a state, in order.
    pub fn places(&self, s: u32) -> &[RowPlace]
        requires { s < state_count self.now }
        ensures { result.now ≡ slice_range self.now.rows (row_place self.now s 0) (row_place self.now (s + 1) 0) }
    {
        &self.rows[self.row_starts[s as usize] as usize..self.row_starts[s as usize + 1] as usize]
    }

    /// The place of a row's first corner weight in a table. Only rows with the same polynomials, entry
    /// for entry, share a place.
    pub fn weight_place(&self, s: u32, a: u32) -> usize
        requires state { s < state_count self.now }
        requires choice { a < choice_count self.now s }
        ensures { result ≡ (place self.now s a).weights }
    {
        self.place(s, a).weights as usize
    }

    /// The targets of the row that stands at that place, entry by entry.
    #[inline(always)]
    pub fn targets(&self, place: RowPlace) -> &[u32]
        requires { place.entries + place.count ≤ length self.now.targets }
        ensures { result.now ≡ slice_range self.now.targets place.entries (place.entries + place.count) }
    {
        let entries = place.entries as usize;
        &self.targets[entries..entries + place.count as usize]
    }

    /// The rows that have a block of weights in a table, in the blocks' order.
    pub fn firsts(&self) -> &[FirstRow]
        ensures { result.now ≡ self.now.firsts }
    {
        &self.firsts
    }

    /// How many weights a table has.
    pub fn weights_len(&self) -> usize
        ensures { result ≡ self.now.weights }
    {
        self.weights as usize
    }

    /// The states by their strongly connected components: those that a component leads to come before
    /// it. Nothing is promised of this but that each state stands at its position.
    #[inline(always)]
    pub fn order(&self) -> &[u32]
        ensures { result.now ≡ self.now.order }
    {
        &self.order
    }

    /// For each position in the order where the component that it lies in ends.
    #[inline(always)]
    pub fn component_ends(&self) -> &[u32]
        ensures { result.now ≡ self.now.component_ends }
    {
        &self.component_ends
    }

    /// Whether all states that lead to this one stand behind it in the order, but for itself. True of states
    /// that lie on no cycle, but for a self loop; where it is false, nothing is promised.
    #[inline(always)]
    pub fn is_lone(&self, s: u32) -> bool
        ensures { result ≡ slice_index_or self.now.lone s false }
    {
        self.lone.get(s as usize).copied().unwrap_or(false)
    }

    /// The position of a state in the order.
    #[inline(always)]
    pub fn position(&self, s: u32) -> u32
        requires { s < state_count self.now }
        ensures { result ≡ position self.now s }
    {
        self.positions[s as usize]
    }
}
