// The intervals that a region's text gives.
ghost use Rattle.std.specs.Prelude.{◌≡◌, ◌==◌, map, IfOk};
ghost use Rattle.std.specs.List.{list_all, slice_split};
ghost use Rattle.std.specs.Option.{option_map};
ghost use Rattle.lift_bytes.specs.Bytes.{code, is_blank};
ghost use Rattle.lift_grid.specs.Region.{interval_of, interval_at, intervals_of, in_order, given, Gives};
ghost use Rattle.lift_grid.specs.Parts.{clause_of, ratios_of};

use crate::clause::{ClauseText, clause_at};
use crate::error::RegionError;
use crate::interval::Interval;
use lift_bytes::is_blank;
use lift_frac::FracError;
use lift_names::Names;
use std::alloc::{AllocError, Global};
use std::cmp::Ordering;

fn are_blanks(text: &[u8]) -> bool
    ensures { result ≡ list_all is_blank text.now }
{
    text.iter().all(|byte| is_blank(*byte))
}

/// The interval of a parameter, where there is one.
fn given(intervals: &[Interval], parameter: u32) -> Option<Interval>
    ensures { option_map ratios_of result ≡ given (map ratios_of intervals.now) parameter }
{
    for interval in intervals {
        if interval.parameter == parameter {
            return Some(*interval);
        }
    }
    None
}

/// The interval that a clause gives, where these were given before.
#[tactic(auto, unfolding(crate::specs::Region::interval_of))]
fn interval_of(
    names: &Names,
    before: &[Interval],
    clause: &ClauseText,
) -> Result<Interval, RegionError>
    ensures { Gives ratios_of result (interval_of names.now (map ratios_of before.now) (clause_of clause.now)) }
{
    if clause.low == Err(FracError::Zero) || clause.high == Err(FracError::Zero) {
        return Err(RegionError::Syntax);
    }
    let low = clause.low.or(Err(RegionError::Wide))?;
    let high = clause.high.or(Err(RegionError::Wide))?;
    let parameter = names.find(clause.name).ok_or(RegionError::UnknownName)?;
    if given(before, parameter).is_some() {
        return Err(RegionError::Repeated);
    }
    match low.order(high) {
        Ordering::Less => Ok(Interval {
            parameter,
            low,
            high,
        }),
        Ordering::Equal | Ordering::Greater => Err(RegionError::EmptyInterval),
    }
}

/// The interval that a piece of the text gives, where these were given before.
#[tactic(auto, unfolding(crate::specs::Region::interval_at))]
fn interval_at(names: &Names, before: &[Interval], text: &[u8]) -> Result<Interval, RegionError>
    ensures { Gives ratios_of result (interval_at names.now (map ratios_of before.now) text.now) }
{
    let (clause, rest) = clause_at(text)?;
    let interval = interval_of(names, before, &clause)?;
    if are_blanks(rest) {
        Ok(interval)
    } else {
        Err(RegionError::Syntax)
    }
}

/// The pieces of the text between its commas.
fn pieces(alloc: Global, text: &[u8]) -> Result<Vec<&[u8]>, AllocError>
    ensures { IfOk result (λ v. map (λ x. x.now) v.items ≡ slice_split (λ b. b == code ",") text.now) }
{
    text.split(|byte| *byte == b',').collect(alloc)
}

/// The intervals that a region's text gives, in the order of its clauses.
#[tactic(auto, unfolding(crate::specs::Region::intervals_of))]
pub(crate) fn intervals_of(
    alloc: Global,
    names: &Names,
    text: &[u8],
) -> Result<Vec<Interval>, RegionError>
    ensures { Gives (λ v. map ratios_of v.items) result (intervals_of names.now text.now) }
{
    let mut intervals = Vec::new(alloc);
    if are_blanks(text) {
        return Ok(intervals);
    }
    let pieces = pieces(alloc, text)?;
    for piece in &pieces {
        let interval = interval_at(names, &intervals, piece)?;
        intervals.push(interval)?;
    }
    Ok(intervals)
}

/// The intervals of the first parameters, in declared order.
pub(crate) fn in_order(
    alloc: Global,
    intervals: &[Interval],
    count: u32,
) -> Result<Vec<Interval>, RegionError>
    ensures { Gives (λ v. map ratios_of v.items) result (in_order (map ratios_of intervals.now) count) }
{
    let mut ordered = Vec::new(alloc);
    for parameter in 0..count {
        let interval = given(intervals, parameter).ok_or(RegionError::Missing)?;
        ordered.push(interval)?;
    }
    Ok(ordered)
}
