// A group of rewards: values with commas between them.
ghost use Rattle.std.specs.Prelude.{◌≡◌, ◌==◌, ◌≤ℤ◌, pos, map, slice_get, Some, IfOk};
ghost use Rattle.std.specs.List.{list_any, list_all, slice_split};
ghost use Rattle.std.specs.Option.{option_map};
ghost use Rattle.lift_bytes.specs.Bytes.{code, is_blank};
ghost use Rattle.lift_frac.specs.Frac.{answer_of, ratio_of};
ghost use Rattle.lift_costs.specs.Costs.{cost};
ghost use Rattle.drn_read.specs.Rewards.{inside, reward_values, has_form, rewards_fault};
ghost use Rattle.drn_read.specs.Rewards.{is_malformed, is_too_wide, is_some_cost};
ghost use Rattle.drn_read.specs.Costs.{cost_in};
ghost use Rattle.drn_read.specs.Shown.{Tells};

use crate::error::DrnCause;
use crate::owner::Owner;
use crate::reward_value::read_reward;
use lift_bytes::{is_blank, trimmed};
use lift_frac::{Frac, FracError};
use std::alloc::{AllocError, Global};

/// What was read as a value, or why it is none.
type Value = Result<Frac, FracError>;

/// What stands between the brackets of a group.
fn inside(group: &[u8]) -> &[u8]
    ensures { result.now ≡ inside group.now }
{
    match group {
        [_, inner @ .., _] => inner,
        _ => &[],
    }
}

/// The values of a group.
fn reward_values(alloc: Global, group: &[u8]) -> Result<Vec<Value>, AllocError>
    ensures { IfOk result (λ v. map answer_of v.items ≡ reward_values group.now) }
{
    inside(group)
        .split(|byte| *byte == b',')
        .map(|piece| read_reward(trimmed(piece)))
        .collect(alloc)
}

fn is_malformed(value: &Value) -> bool
    ensures { result ≡ is_malformed (answer_of value.now) }
{
    matches!(value, Err(FracError::BadLiteral | FracError::Zero))
}

fn is_too_wide(value: &Value) -> bool
    ensures { result ≡ is_too_wide (answer_of value.now) }
{
    matches!(value, Err(FracError::Wide))
}

fn is_some_cost(value: &Value) -> bool
    ensures { result ≡ is_some_cost (answer_of value.now) }
{
    match value {
        Ok(value) => value.num != 0,
        Err(_) => false,
    }
}

/// Whether one of these isn't written as a value, or has a divisor of 0.
fn any_malformed(values: &[Value]) -> bool
    ensures { result ≡ list_any is_malformed (map answer_of values.now) }
{
    values.iter().any(|value| is_malformed(value))
}

/// Whether a part of one of these is too large.
fn any_too_wide(values: &[Value]) -> bool
    ensures { result ≡ list_any is_too_wide (map answer_of values.now) }
{
    values.iter().any(|value| is_too_wide(value))
}

/// Whether one of these isn't 0.
fn any_cost(values: &[Value]) -> bool
    ensures { result ≡ list_any is_some_cost (map answer_of values.now) }
{
    values.iter().any(|value| is_some_cost(value))
}

fn are_blanks(text: &[u8]) -> bool
    ensures { result ≡ list_all is_blank text.now }
{
    text.iter().all(|byte| is_blank(*byte))
}

/// Whether a group holds so many values, which are these.
fn has_form(count: usize, group: &[u8], values: &[Value]) -> bool
    requires { map answer_of values.now ≡ reward_values group.now }
    ensures { result ≡ has_form count group.now }
{
    if count == 0 {
        are_blanks(inside(group))
    } else {
        values.len() == count && !any_malformed(values)
    }
}

/// Tests the rewards of a state or an action, where there are so many names.
pub(crate) fn test_rewards(
    alloc: Global,
    count: usize,
    owner: Owner,
    group: &[u8],
) -> Result<(), DrnCause>
    ensures { Tells result (rewards_fault count owner group.now) }
{
    let values = reward_values(alloc, group)?;
    if !has_form(count, group, &values) {
        return Err(DrnCause::RewardSyntax);
    }
    if any_too_wide(&values) {
        return Err(DrnCause::RewardWide);
    }
    match owner {
        Owner::Action if any_cost(&values) => Err(DrnCause::ActionReward),
        _ => Ok(()),
    }
}

/// The piece at a place between the commas of a text.
fn piece_at(text: &[u8], place: usize) -> Option<&[u8]>
    ensures { option_map (λ piece. piece.now) result
        ≡ slice_get (slice_split (λ b. b == code ",") text.now) place }
{
    text.split(|byte| *byte == b',').nth(place)
}

/// The value at a place of a group, 0 where none is there.
pub(crate) fn value_at(group: &[u8], place: usize) -> Frac
    ensures value { cost (ratio_of result) ≡ cost_in (Some place) (Some group.now) }
    ensures sign { pos 0 ≤ℤ result.num }
{
    match piece_at(inside(group), place) {
        Some(piece) => match read_reward(trimmed(piece)) {
            Ok(value) => value,
            Err(_) => Frac::whole(0),
        },
        None => Frac::whole(0),
    }
}
