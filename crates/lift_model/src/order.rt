//! An order of the states by their strongly connected components, found by a search in depth, as Tarjan
//! does it. Nothing is proved of the search: what it gives is tested at the end.

ghost use Rattle.std.specs.Prelude.{◌≡◌, ◌≤◌, ◌<◌, ℕ, true, length, slice_index_or, IfOk};
ghost use Rattle.lift_model.specs.Valid.{most_states};
ghost use Rattle.lift_model.specs.Order.{IsOrder};

use crate::lists::{number_at, put};
use crate::model::Model;
use std::alloc::{AllocError, Global};

/// A search meets each state once and leaves it once: in fewer turns than this.
const TURNS: u32 = 1 << 20;

/// Stands for the time of a state whose component is known.
const CLOSED: u32 = u32::MAX;

/// An order of the states.
#[derive(Drop)]
pub struct Order {
    /// The states in this order.
    pub states: Vec<u32>,
    /// The position of each state.
    pub positions: Vec<u32>,
    /// For each position the end of its component.
    pub ends: Vec<u32>,
}

/// A state that a search is in.
#[derive(Clone, Copy)]
struct Open {
    state: u32,
    // where the search goes on among the targets, and where those of the state end
    next: u32,
    end: u32,
    // the earliest time of a state that is reached from it
    low: u32,
}

/// What a search in depth knows.
#[derive(Drop)]
struct Search {
    // when each state was met, from 1; 0 where it wasn't, and `CLOSED` where its component is known
    times: Vec<u32>,
    time: u32,
    // the states that the search is in, and those that it left whose component isn't known
    open: Vec<Open>,
    left: Vec<u32>,
    // the states whose component is known, component by component, and for each where its own ends
    states: Vec<u32>,
    ends: Vec<u32>,
}

/// The lesser of two times.
fn earlier(time: u32, other: u32) -> u32 {
    if other < time { other } else { time }
}

impl Search {
    /// No state was met yet, of so many.
    fn new(alloc: Global, states: usize) -> Result<Search, AllocError> {
        Ok(Search {
            times: vec![in alloc; 0u32; states]?,
            time: 0,
            open: Vec::with_capacity(alloc, states)?,
            left: Vec::with_capacity(alloc, states)?,
            states: Vec::with_capacity(alloc, states)?,
            ends: Vec::with_capacity(alloc, states)?,
        })
    }

    /// Opens a state that wasn't met. The search goes no further from a goal state.
    fn meet(&mut self, model: &Model, starts: &[u32], s: u32) -> Result<(), AllocError> {
        self.time = self.time.saturating_add(1);
        put(&mut self.times, s as usize, self.time);
        let next = number_at(starts, s as usize);
        let is_goal = s < model.states() && model.is_goal(s);
        let end = if is_goal {
            next
        } else {
            number_at(starts, s as usize + 1)
        };
        self.open.push(Open {
            state: s,
            next,
            end,
            low: self.time,
        })?;
        Ok(())
    }

    /// Adds a state of a component that ends there.
    fn add(&mut self, s: u32, end: u32) -> Result<(), AllocError> {
        put(&mut self.times, s as usize, CLOSED);
        self.states.push(s)?;
        self.ends.push(end)?;
        Ok(())
    }

    /// Where those begin that were left since that time, among all that were left.
    fn left_since(&self, time: u32) -> usize {
        let mut first = self.left.len();
        while first > 0 {
            let last = number_at(&self.left, first - 1);
            if number_at(&self.times, last as usize) < time {
                break;
            }
            first -= 1;
        }
        first
    }

    /// Closes the component whose first state was met at that time: what was left since then, and it.
    fn close(&mut self, s: u32, time: u32) -> Result<(), AllocError> {
        let first = self.left_since(time);
        let count = self.left.len().saturating_sub(first);
        let end = self.states.len().saturating_add(count).saturating_add(1);
        let end = u32::try_from(end).unwrap_or(0);
        for place in first..self.left.len() {
            let t = number_at(&self.left, place);
            self.add(t, end)?;
        }
        self.left.truncate(first);
        self.add(s, end)
    }

    /// Leaves a state, and with the first state of a component all of it.
    fn leave(&mut self, here: Open) -> Result<(), AllocError> {
        let time = number_at(&self.times, here.state as usize);
        if here.low == time {
            return self.close(here.state, time);
        }
        self.left.push(here.state)?;
        if let Some(parent) = self.open.last_mut() {
            parent.low = earlier(parent.low, here.low);
        }
        Ok(())
    }

    /// Goes on from a state: to its next target that wasn't met, or out of it.
    fn turn(
        &mut self,
        model: &Model,
        targets: &[u32],
        starts: &[u32],
        mut here: Open,
    ) -> Result<(), AllocError> {
        for place in here.next..here.end {
            let target = number_at(targets, place as usize);
            let time = number_at(&self.times, target as usize);
            if time == 0 {
                here.next = place;
                self.open.push(here)?;
                return self.meet(model, starts, target);
            }
            here.low = earlier(here.low, time);
        }
        self.leave(here)
    }

    /// Searches from a state that wasn't met, until it is left.
    fn search(
        &mut self,
        model: &Model,
        targets: &[u32],
        starts: &[u32],
        s: u32,
    ) -> Result<(), AllocError> {
        self.meet(model, starts, s)?;
        for _ in 0..TURNS {
            match self.open.pop() {
                Some(here) => self.turn(model, targets, starts, here)?,
                None => return Ok(()),
            }
        }
        Ok(())
    }
}

/// Searches from each state that wasn't met before. Gives the states component by component, and for each
/// where its own ends.
fn search_states(
    alloc: Global,
    model: &Model,
    targets: &[u32],
    starts: &[u32],
) -> Result<(Vec<u32>, Vec<u32>), AllocError> {
    let states = model.states();
    let mut search = Search::new(alloc, states as usize)?;
    for s in 0..states {
        if number_at(&search.times, s as usize) == 0 {
            search.search(model, targets, starts, s)?;
        }
    }
    Ok((search.states, search.ends))
}

/// Writes the position of each state of the list.
fn place_states(states: &[u32], positions: &mut [u32])
    ensures { length positions.new ≡ length positions.old }
{
    let mut position = 0u32;
    for s in states {
        put(positions, *s as usize, position);
        position = position.saturating_add(1);
    }
}

/// Whether each state of the list has the position at which it stands there.
fn stand_there(states: &[u32], positions: &[u32]) -> bool
    requires { length states.now ≤ most_states }
    ensures { result ≡ true → (i : ℕ) → i < length states.now → slice_index_or positions.now (slice_index_or states.now i 0) 0 ≡ i }
{
    for (i, s) in states.iter().enumerate() {
        if positions.get(*s as usize) != Some(&(i as u32)) {
            return false;
        }
    }
    true
}

/// Whether each state is found at its position, and no other one is.
fn are_placed(states: &[u32], positions: &[u32]) -> bool
    requires { length positions.now ≤ most_states }
    ensures { result ≡ true → IsOrder states.now positions.now (length positions.now) }
{
    if states.len() != positions.len() || !stand_there(states, positions) {
        return false;
    }
    for (s, position) in positions.iter().enumerate() {
        if states.get(*position as usize) != Some(&(s as u32)) {
            return false;
        }
    }
    true
}

/// The states as they are numbered.
fn as_numbered(alloc: Global, count: u32) -> Result<Order, AllocError>
    ensures order { IfOk result (λ order. IsOrder order.states.items order.positions.items count) }
    ensures ends { IfOk result (λ order. length order.ends.items ≡ count) }
{
    let mut states = Vec::new(alloc);
    let mut positions = Vec::new(alloc);
    for s in 0..count {
        states.push(s)?;
        positions.push(s)?;
    }
    Ok(Order {
        states,
        positions,
        ends: vec![in alloc; count; count as usize]?,
    })
}

/// An order by components: those that a component leads to come before it. The targets of each state
/// begin at its start.
pub(crate) fn order_states(
    alloc: Global,
    model: &Model,
    targets: &[u32],
    starts: &[u32],
) -> Result<Order, AllocError>
    ensures order { IfOk result (λ order. IsOrder order.states.items order.positions.items (length model.now.states)) }
    ensures ends { IfOk result (λ order. length order.ends.items ≡ length model.now.states) }
{
    let count = model.states();
    let (states, ends) = search_states(alloc, model, targets, starts)?;
    let mut positions = vec![in alloc; 0u32; count as usize]?;
    place_states(&states, &mut positions);
    if ends.len() == count as usize && are_placed(&states, &positions) {
        return Ok(Order {
            states,
            positions,
            ends,
        });
    }
    as_numbered(alloc, count)
}
