// What stands at the end of a text: its last tests, and the model.
ghost use Rattle.std.specs.Prelude.{◌≡◌, ◌==◌, ◌<◌, ◌≤◌, ◌∷◌, [], not, nat_le, length, map};
ghost use Rattle.std.specs.Prelude.{find, count_by, is_some, position, All, Some, None, IfOk, OnOk};
ghost use Rattle.std.specs.Prelude.{◌^◌};
ghost use Rattle.std.specs.List.{list_any, position_or_len};
ghost use Rattle.std.specs.Option.{option_map, unwrap_or};
ghost use Rattle.lift_model.specs.Valid.{most_states, common_limit, IsModel};
ghost use Rattle.drn_read.specs.Faults.{when, first_of, reported};
ghost use Rattle.drn_read.specs.Judging.{has, choice_count};
ghost use Rattle.drn_read.specs.Reading.{differs, mismatch, all_transitions, common};
ghost use Rattle.drn_read.specs.Reading.{entry, common_fault, end_fault, model};
ghost use Rattle.drn_read.specs.Shown.{Tells, TellsLine, refusal, outside, first_in, TargetsBelow};

use crate::common::common_denominator;
use crate::error::{DrnCause, DrnError};
use crate::header::HeaderReader;
use crate::last::test_last_state;
use crate::reader::Reader;
use crate::rows::all_rows;
use crate::section::Section;
use crate::state::{State, Transition};
use lift_model::{Kind, Model, Row};
use std::alloc::{AllocError, Global};

/// A test of the whole text, whose fault is told of its last line.
fn test(number: u32, fails: bool, cause: DrnCause) -> Result<(), DrnError>
    ensures { refusal result ≡ reported number (when fails cause) }
{
    if fails {
        return Err(DrnError {
            line: number,
            cause,
        });
    }
    Ok(())
}

/// A section `@model` stands there.
fn test_model_section(number: u32, header: &HeaderReader) -> Result<(), DrnError>
    ensures { refusal result
        ≡ reported number (when (not (has Section.Model header.now)) DrnCause.MissingSection) }
{
    test(
        number,
        !header.has(Section::Model),
        DrnCause::MissingSection,
    )
}

/// There is a state.
fn test_some_state(number: u32, states: &[State]) -> Result<(), DrnError>
    ensures { refusal result ≡ reported number (when (length states.now == 0) DrnCause.NoState) }
{
    test(number, states.is_empty(), DrnCause::NoState)
}

/// Whether a number that was announced isn't this one.
fn differs(announced: Option<u128>, number: usize) -> bool
    ensures { result ≡ differs announced number }
{
    match announced {
        Some(announced) => announced != number as u128,
        None => false,
    }
}

/// The first number that the text announces and that isn't the one read: that of states, and then
/// that of choices.
fn mismatch(header: &HeaderReader, states: usize, choices: usize) -> Option<Section>
    ensures { result ≡ mismatch header.now states choices }
{
    if differs(header.state_count(), states) {
        Some(Section::NrStates)
    } else if differs(header.choice_count(), choices) {
        Some(Section::NrChoices)
    } else {
        None
    }
}

/// There are as many states and choices as the text announces, if it does.
fn test_counts(
    number: u32,
    header: &HeaderReader,
    states: &[State],
    choices: usize,
) -> Result<(), DrnError>
    ensures { let wrong = is_some (mismatch header.now (length states.now) choices) in
        refusal result ≡ reported number (when wrong DrnCause.CountMismatch) }
{
    let wrong = mismatch(header, states.len(), choices);
    test(number, wrong.is_some(), DrnCause::CountMismatch)
}

/// The line of the first transition of a choice whose target isn't one of so many states.
fn outside_in_choice(choice: &[Transition], count: usize) -> Option<u32>
    ensures { result ≡ first_in (outside count) choice.now }
{
    for transition in choice {
        if transition.target >= count as u128 {
            return Some(transition.line);
        }
    }
    None
}

/// The line of the first such transition of a state.
fn outside_in_state(choices: &[Vec<Transition>], count: usize) -> Option<u32>
    ensures { result ≡ first_in (first_in (outside count)) (map (λ row. row.items) choices.now) }
{
    for choice in choices {
        if let Some(line) = outside_in_choice(choice, count) {
            return Some(line);
        }
    }
    None
}

/// The line of the first transition whose target isn't one of so many states.
fn outside(states: &[State], count: usize) -> Option<u32>
    ensures { result ≡ first_in (λ s. first_in (first_in (outside count)) s.choices) states.now }
{
    for state in states {
        if let Some(line) = outside_in_state(&state.choices, count) {
            return Some(line);
        }
    }
    None
}

/// Each target is a state; else the line of the first transition is told whose target is none.
fn test_targets(states: &[State]) -> Result<(), DrnError>
    ensures fault { refusal result
        ≡ option_map (λ t. record { line = t.line; cause = DrnCause.TargetRange })
        (find (λ t. nat_le (length states.now) t.target) (all_transitions states.now)) }
    ensures targets { OnOk result
        (All (λ s. All (TargetsBelow (length states.now)) s.choices) states.now) }
{
    match outside(states, states.len()) {
        Some(line) => Err(DrnError {
            line,
            cause: DrnCause::TargetRange,
        }),
        None => Ok(()),
    }
}

/// How many states carry `init`.
fn init_count(states: &[State]) -> usize
    ensures { result ≡ count_by (λ s. s.init) states.now }
{
    states.iter().filter(|state| state.init).count()
}

/// Exactly one state carries `init`.
fn test_init(number: u32, states: &[State]) -> Result<(), DrnError>
    ensures { refusal result
        ≡ reported number (when (not (count_by (λ s. s.init) states.now == 1)) DrnCause.InitCount) }
{
    test(number, init_count(states) != 1, DrnCause::InitCount)
}

/// Whether a state carries the goal's label.
fn has_goal(states: &[State]) -> bool
    ensures { result ≡ list_any (λ s. s.goal) states.now }
{
    states.iter().any(|state| state.goal)
}

/// A state carries the goal's label.
fn test_goal(number: u32, states: &[State]) -> Result<(), DrnError>
    ensures { refusal result
        ≡ reported number (when (not (list_any (λ s. s.goal) states.now)) DrnCause.UnknownLabel) }
{
    test(number, !has_goal(states), DrnCause::UnknownLabel)
}

/// The tests at the end of a text in their order, but for the last of them: that of the common
/// denominator.
fn test_whole(
    number: u32,
    header: &HeaderReader,
    states: &[State],
    choices: usize,
) -> Result<(), DrnError>
    requires { choices ≡ choice_count states.now }
    ensures fault { end_fault number (record { header = header.now; states = states.now })
        ≡ first_of (refusal result ∷ reported number (common_fault states.now) ∷ []) }
    ensures targets { OnOk result
        (All (λ s. All (TargetsBelow (length states.now)) s.choices) states.now) }
{
    test_model_section(number, header)?;
    test_last_state(states)?;
    test_some_state(number, states)?;
    test_counts(number, header, states, choices)?;
    test_targets(states)?;
    test_init(number, states)?;
    test_goal(number, states)
}

/// The place of the first state that carries `init`.
fn init_place(states: &[State]) -> Option<usize>
    ensures { result ≡ position (λ s. s.init) states.now }
{
    states.iter().position(|state| state.init)
}

/// The first state that carries `init`, the number of states where none does.
fn first_init(states: &[State]) -> u32
    requires { length states.now ≤ most_states }
    ensures { result ≡ position_or_len (λ s. s.init) states.now }
{
    init_place(states).unwrap_or(states.len()) as u32
}

/// For each state, whether it carries the goal's label.
fn goals(alloc: Global, states: &[State]) -> Result<Vec<bool>, AllocError>
    ensures { IfOk result (λ v. v.items ≡ map (λ s. s.goal) states.now) }
{
    states.iter().map(|state| state.goal).collect(alloc)
}

/// The type that was named, a chain where none was.
fn kind_or_chain(kind: Option<Kind>) -> Kind
    ensures { result ≡ unwrap_or kind Kind.Dtmc }
{
    kind.unwrap_or(Kind::Dtmc)
}

/// What the states say of the model: the common denominator, the goal states, the initial state,
/// and the rows.
#[derive(Drop)]
struct Parts {
    common: u64,
    goal: Vec<bool>,
    init: u32,
    rows: Vec<Vec<Row>>,
}

/// The parts of the model. `CommonDenominator` exactly where the common denominator is 2^62 or
/// more, or a coefficient over it has a size of 2^100 or more.
fn parts_of(alloc: Global, states: Vec<State>) -> Result<Parts, DrnCause>
    requires few { length states.items ≤ most_states }
    requires targets { All (λ s. All (TargetsBelow most_states) s.choices) states.items }
    ensures fault { Tells result (common_fault states.items) }
    ensures common { IfOk result (λ parts. parts.common ≡ common states.items) }
    ensures small { IfOk result (λ parts. parts.common < common_limit) }
    ensures goal { IfOk result (λ parts. parts.goal.items ≡ map (λ s. s.goal) states.items) }
    ensures init { IfOk result (λ parts. parts.init ≡ position_or_len (λ s. s.init) states.items) }
    ensures rows { IfOk result (λ parts. map (λ v. v.items) parts.rows.items
        ≡ map (λ s. map (map (entry (common states.items))) s.choices) states.items) }
{
    let Some(common) = common_denominator(&states) else {
        return Err(DrnCause::CommonDenominator);
    };
    let goal = goals(alloc, &states)?;
    let init = first_init(&states);
    let rows = all_rows(alloc, common, states)?;
    Ok(Parts {
        common,
        goal,
        init,
        rows,
    })
}

/// The model that a text stands for whose lines are without fault, or the first fault that its end
/// shows. `number` is that of its last line. Linear.
pub(crate) fn finish(alloc: Global, number: u32, reader: Reader) -> Result<Model, DrnError>
    requires { end_fault number reader ≡ None → IsModel (model reader) }
    ensures fault { TellsLine result (end_fault number reader) }
    ensures model { IfOk result (λ m. m ≡ model reader) }
{
    let Reader { header, model, .. } = reader;
    let choices = model.choices();
    let states = model.into_states();
    test_whole(number, &header, &states, choices)?;
    let parts = match parts_of(alloc, states) {
        Ok(parts) => parts,
        Err(cause) => return Err(DrnError {
            line: number,
            cause,
        }),
    };
    Ok(Model::new(
        kind_or_chain(header.kind()),
        parts.common as i64,
        header.into_names(),
        parts.goal,
        parts.init,
        parts.rows,
    ))
}
