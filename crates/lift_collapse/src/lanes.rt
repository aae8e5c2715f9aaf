//! The lanes in which vectors are found.

ghost use Rattle.std.specs.Prelude.{◌≡◌, length, IsTrue, IsFalse, IfOk};
ghost use Rattle.lift_grid.specs.Rectangle.{Spans};
ghost use Rattle.rounded_iter.specs.Watching.{IsLeastWithin};
ghost use Rattle.lower_cert.specs.Limit.{NoneIsAbove};
ghost use Rattle.lower_cert.specs.Lowering.{IsHigh};
ghost use Rattle.lift_collapse.specs.Finding.{AreLanesFor, AreLanesOf, IsRead};

use crate::sought::Sought;
use corner_lift::{Case, Lifted};
use lift_dual::{least_avoiding_within, least_one_within};
use lift_model::Links;
use lower_cert::{greatest_reject_above, lower_unranked};
use rounded_iter::least_upper_within;
use std::alloc::{AllocError, Global};

/// The case of a collapsed model with its links, and the table of a rectangle.
#[derive(Drop)]
pub(crate) struct Rows<'a> {
    pub(crate) case: &'a Case<'a>,
    pub(crate) links: &'a Links,
    pub(crate) weights: &'a [i128],
}

/// The lanes in which vectors are found: a number, a rank and a chosen row for each state, which rows are allowed, work space,
/// and from which vectors guesses begin.
#[derive(Drop)]
pub(crate) struct Lanes {
    pub(crate) values: Vec<i64>,
    allowed: Vec<u32>,
    ranks: Vec<u32>,
    picks: Vec<u32>,
    work: Vec<u32>,
    /// The last vectors for one scheduler, and avoiding ones, that passed a limit.
    past_one: Vec<i64>,
    past_avoiding: Vec<i64>,
}

/// Copies the numbers that are there, and zeros behind them.
fn copy(from: &[i64], to: &mut [i64])
    ensures { length to.new ≡ length to.old }
{
    for s in 0..to.len() {
        to[s] = from.get(s).copied().unwrap_or(0);
    }
}

impl Lanes {
    /// Lanes for so many states with so many rows.
    pub(crate) fn zeros(alloc: Global, states: u32, rows: usize) -> Result<Lanes, AllocError>
        ensures { IfOk result (AreLanesOf states rows) }
    {
        let states = states as usize;
        // where each state has one choice, these are never asked for
        let past = if rows > states { states } else { 0 };
        Ok(Lanes {
            values: vec![in alloc; 0i64; states]?,
            allowed: vec![in alloc; 0u32; rows]?,
            ranks: vec![in alloc; 0u32; states]?,
            picks: vec![in alloc; 0u32; states]?,
            work: vec![in alloc; 0u32; 2 * states]?,
            past_one: vec![in alloc; 0i64; past]?,
            past_avoiding: vec![in alloc; 0i64; past]?,
        })
    }

    /// Whether an upper vector of the rectangle exists whose number of the initial state is within the limit. Then
    /// the least one is left in `values`.
    pub(crate) fn least_upper_within(&mut self, rows: &Rows, limit: i64) -> bool
        ghost spans: { Spans }
        requires read { IsRead rows.now spans }
        requires lanes { AreLanesFor rows.now.case.now.model self.old }
        ensures lanes { AreLanesFor rows.now.case.now.model self.new }
        ensures least { IsLeastWithin rows.now.case.now spans limit self.new.values.items result }
    {
        least_upper_within(
            rows.case,
            rows.links,
            rows.weights,
            limit,
            &mut self.values,
            &mut self.work,
        )
    }

    /// Whether a lower vector of the rectangle exists whose number of the initial state is above the limit. Then a
    /// vector at or above each lower one is left in `values`: the greatest one. Ranks tell it from others where states
    /// with several choices lead back to each other; where each state has one choice they are mostly of no use, and are
    /// left out.
    pub(crate) fn lower_above(&mut self, rows: &Rows, limit: i64, is_chain: bool) -> bool
        ghost spans: { Spans }
        requires read { IsRead rows.now spans }
        requires lanes { AreLanesFor rows.now.case.now.model self.old }
        ensures lanes { AreLanesFor rows.now.case.now.model self.new }
        ensures high { IsTrue result → IsHigh rows.now.case.now spans self.new.values.items }
        ensures none { IsFalse result → NoneIsAbove rows.now.case.now spans limit }
    {
        if is_chain {
            return lower_unranked(
                rows.case,
                rows.links,
                rows.weights,
                limit,
                &mut self.values,
                &mut self.work,
            );
        }
        let rate = greatest_reject_above(
            rows.case,
            rows.links,
            rows.weights,
            limit,
            &mut self.values,
            &mut self.allowed,
            &mut self.ranks,
            &mut self.picks,
            &mut self.work,
        );
        match rate {
            Some(_) => true,
            None => false,
        }
    }

    /// Leaves in `values` the least upper vector for one scheduler, or where the initial state's number in it passes the
    /// limit, what was found of it up to there. It is to be a guess, so nothing is promised of it. A vector that passed the
    /// limit is kept, as the next one's guess.
    fn guess_one(&mut self, rows: &Rows, limit: i64)
        ghost spans: { Spans }
        requires read { IsRead rows.now spans }
        requires lanes { AreLanesFor rows.now.case.now.model self.old }
        ensures lanes { AreLanesFor rows.now.case.now.model self.new }
    {
        copy(&self.past_one, &mut self.values);
        let rows = Lifted::new(rows.case, rows.links, rows.weights);
        let values = &mut self.values;
        if !least_one_within(&rows, limit, values, &mut self.picks, &mut self.work) {
            copy(&self.values, &mut self.past_one);
        }
    }

    /// The same for the least avoiding vector.
    fn guess_avoiding(&mut self, rows: &Rows, limit: i64)
        ghost spans: { Spans }
        requires read { IsRead rows.now spans }
        requires lanes { AreLanesFor rows.now.case.now.model self.old }
        ensures lanes { AreLanesFor rows.now.case.now.model self.new }
    {
        copy(&self.past_avoiding, &mut self.values);
        let rows = Lifted::new(rows.case, rows.links, rows.weights);
        let values = &mut self.values;
        if !least_avoiding_within(&rows, limit, values, &mut self.ranks, &mut self.work) {
            copy(&self.values, &mut self.past_avoiding);
        }
    }

    /// The same for the vector that is sought.
    pub(crate) fn guess(&mut self, rows: &Rows, sought: Sought, limit: i64)
        ghost spans: { Spans }
        requires read { IsRead rows.now spans }
        requires lanes { AreLanesFor rows.now.case.now.model self.old }
        ensures lanes { AreLanesFor rows.now.case.now.model self.new }
    {
        match sought {
            Sought::UpperOne => self.guess_one(rows, limit),
            Sought::Avoiding => self.guess_avoiding(rows, limit),
        }
    }
}
