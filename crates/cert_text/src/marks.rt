// Marks of states: picks and ranks.
ghost use Rattle.std.specs.Prelude.{◌≡◌, ◌≤◌, ◌<◌, ◌^◌, Some, pos, length, map, slice_index_or, IfOk};
ghost use Rattle.cert_text.specs.Lines.{marks_of};
ghost use Rattle.cert_text.specs.Nodes.{fits_state, fit_states};
ghost use Rattle.cert_text.specs.Left.{in_marks, mark_first, marks_by};
ghost use Rattle.std.specs.Option.{option_map};
ghost use Rattle.line_text.specs.Words.{number_of, words};
ghost use Rattle.line_text.specs.Shown.{Says, first_of};

use lift_model::Model;
use line_text::{Decimal, TextCause, Words};
use std::alloc::Global;

/// The number, if it is below that end.
fn long_mark(number: &Decimal, end: u32) -> Option<u32>
    ensures { result ≡ in_marks end (Some number.now) }
{
    match number.narrow() {
        Some(n) if 0 <= n && n < i128::from(end) => Some(n as u32),
        _ => None,
    }
}

/// The number of few digits, if it is below that end.
fn short_mark(n: u64, end: u32) -> Option<u32>
    ensures { result ≡ in_marks end (Some (pos n)) }
{
    if n < u64::from(end) {
        Some(n as u32)
    } else {
        None
    }
}

/// The mark that the first word of a text writes by a number of any length, if it is below its end, and the
/// words behind it.
#[inline(never)]
fn long_first<'t>(text: &'t [u8], end: u32) -> Option<(Option<u32>, Words<'t>)>
    ensures { result ≡ option_map (λ x. (in_marks end (Some x.0), x.1)) (first_of number_of (words text.now)) }
{
    let (number, rest) = Words::of(text).number()?;
    Some((long_mark(&number, end), rest))
}

/// The mark that the first word writes, if it is none or below its end, and the words behind it.
#[tactic(auto, using(crate::proofs::FirstMarks::none_first, crate::proofs::FirstMarks::other_first))]
fn mark_first<'t>(words: &Words<'t>, end: u32) -> Option<(Option<u32>, Words<'t>)>
    ensures { result ≡ mark_first end words.now }
{
    if let Some(rest) = words.behind(b'-') {
        return Some((Some(u32::MAX), rest));
    }
    if let Some((n, rest)) = words.short() {
        return Some((short_mark(n, end), rest));
    }
    let (mark, rest) = long_first(words.text()?, end)?;
    Some((mark, rest))
}

/// What the marks of a model's states stay below: one limit for all, or the number of each one's choices.
#[derive(Drop)]
pub(crate) struct Ends<'m> {
    model: &'m Model,
    limit: Option<u32>,
}

impl<'m> std::marker::Model for Ends<'m> {
    ghost use Rattle.std.specs.Prelude.{List, ℕ};
    ghost use Rattle.cert_text.specs.Left.{ends_of};

    ghost Value = { List ℕ };

    ghost view = { λ e. ends_of e.limit e.model.now.states };
}

impl<'m> Ends<'m> {
    /// How many choices each state has.
    pub fn choices(model: &'m Model) -> Self
        ensures { result ≡ map length model.now.states }
    {
        Ends { model, limit: None }
    }

    /// That limit for each state.
    pub fn limit(model: &'m Model, limit: u32) -> Self
        ensures { result ≡ map (λ _. limit) model.now.states }
    {
        Ends {
            model,
            limit: Some(limit),
        }
    }

    /// How many there are.
    fn count(&self) -> usize
        ensures value { result ≡ length self.now }
        ensures small { result < 2 ^ 32 }
    {
        self.model.states() as usize
    }

    /// The end of that mark; 0 behind the last one.
    fn at(&self, i: usize) -> u32
        ensures { result ≡ slice_index_or self.now i 0 }
    {
        if i >= self.count() {
            return 0;
        }
        match self.limit {
            Some(limit) => limit,
            None => self.model.choices(i as u32),
        }
    }
}

/// The marks that words write, if there is one for each of the ends, and each is none or below its end.
/// The form of all of them is told first.
fn marks<'t>(alloc: Global, words: Words<'t>, ends: &Ends) -> Result<Vec<u32>, TextCause>
    ensures value { Says (λ v. v.items) result (marks_by ends.now words.entry) }
    ensures size { IfOk result (λ v. length v.items ≡ length ends.now) }
{
    let mut marks = Vec::with_capacity(alloc, ends.count())?;
    let mut fit = true;
    let mut rest = words;
    while !rest.is_empty() {
        let end = ends.at(marks.len());
        let Some((mark, behind)) = mark_first(&rest, end) else {
            return Err(TextCause::Syntax);
        };
        match mark {
            Some(n) => marks.push(n)?,
            None => {
                marks.push(0)?;
                fit = false;
            }
        }
        rest = behind;
    }
    if marks.len() != ends.count() {
        return Err(TextCause::Syntax);
    }
    if !fit {
        return Err(TextCause::Limit);
    }
    Ok(marks)
}

/// A mark for each of the ends behind a word.
pub(crate) fn marks_of(
    alloc: Global,
    words: &Words,
    key: &[u8],
    ends: &Ends,
) -> Result<Vec<u32>, TextCause>
    ensures value { Says (λ v. v.items) result (marks_of key.now ends.now words.now) }
    ensures size { IfOk result (λ v. length v.items ≡ length ends.now) }
{
    let rest = words.keyed(key)?;
    marks(alloc, rest, ends)
}

/// Whether a state's chosen row and rank stand where they may.
fn fits_state(goal: bool, pick: u32, rank: u32) -> bool
    ensures { result ≡ fits_state goal pick rank }
{
    if goal {
        pick == u32::MAX && rank == 0
    } else if rank == u32::MAX {
        pick == u32::MAX
    } else {
        rank != 0 && pick != u32::MAX
    }
}

/// Whether each state's chosen row and rank stand where they may.
pub(crate) fn fit_states(model: &Model, picks: &[u32], ranks: &[u32]) -> bool
    requires picks { length picks.now ≡ length model.now.states }
    requires ranks { length ranks.now ≡ length model.now.states }
    ensures { result ≡ fit_states model.now.goal picks.now ranks.now }
{
    for s in 0..model.states() {
        if !fits_state(model.is_goal(s), picks[s as usize], ranks[s as usize]) {
            return false;
        }
    }
    true
}
