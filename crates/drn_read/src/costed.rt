// Reads a text with rewards.
ghost use Rattle.std.specs.Prelude.{◌≡◌, ◌<◌, [], length, is_none, None, IfOk};
ghost use Rattle.drn_lexer.specs.Lines.{text_limit};
ghost use Rattle.lift_model.specs.Valid.{IsModel};
ghost use Rattle.drn_read.specs.Reading.{end_fault, model};
ghost use Rattle.drn_read.specs.Faults.{when, reported};
ghost use Rattle.drn_read.specs.Costs.{place_of, is_common, cost_said, cost_end_fault, drn_costs};
ghost use Rattle.drn_read.specs.Costs.{IsCostAnswer};
ghost use Rattle.drn_read.specs.Shown.{TellsLine, refusal};
ghost use Rattle.drn_read.specs.CostShown.{asked_of, ReadsCostLines};

use crate::cost_reader::CostReader;
use crate::cursor::Cursor;
use crate::end::finish;
use crate::error::{DrnCause, DrnError};
use crate::laws::texts_are_valid;
use crate::next;
use crate::reader::Reader;
use crate::reward_reader::RewardReader;
use drn_lexer::Place;
use lift_costs::Costs;
use lift_model::Model;
use std::alloc::Global;

/// Reads all lines of a text, and gives the number of the last one.
fn read_cost_lines<'t>(
    reader: &mut CostReader<'t>,
    text: &'t [u8],
    label: &[u8],
) -> Result<u32, DrnError>
    requires short { length text.now < text_limit }
    requires start { reader.old ≡ cost_said (asked_of label.now reader.old) [] }
    ensures { ReadsCostLines (asked_of label.now reader.old) text.now result reader.new }
{
    let mut place = Place::start();
    while let Some(line) = next(text, &mut place)? {
        reader.read_line(label, Cursor::begin(text, line))?;
    }
    Ok(place.number - 1)
}

/// Whether this is the cause of the last test of a text without rewards.
fn is_common(cause: DrnCause) -> bool
    ensures { result ≡ is_common cause }
{
    matches!(cause, DrnCause::CommonDenominator)
}

/// The reward that is asked for was declared.
fn test_known(number: u32, rewards: &RewardReader<'_>) -> Result<(), DrnError>
    ensures { refusal result
        ≡ reported number (when (is_none (place_of rewards.now)) DrnCause.UnknownReward) }
{
    if rewards.is_known() {
        return Ok(());
    }
    Err(DrnError {
        line: number,
        cause: DrnCause::UnknownReward,
    })
}

/// The model that a text with these rewards stands for, whose lines are without fault, or the first
/// fault that its end shows. `number` is that of its last line.
fn finish_with(
    alloc: Global,
    number: u32,
    reader: Reader,
    rewards: &RewardReader<'_>,
) -> Result<Model, DrnError>
    requires { end_fault number reader ≡ None → IsModel (model reader) }
    ensures fault { TellsLine result
        (cost_end_fault number (record { said = reader; rewards = rewards.now })) }
    ensures model { IfOk result (λ m. m ≡ model reader) }
{
    match finish(alloc, number, reader) {
        Ok(model) => {
            test_known(number, rewards)?;
            Ok(model)
        }
        Err(error) => {
            if is_common(error.cause) {
                test_known(number, rewards)?;
            }
            Err(error)
        }
    }
}

/// The model that a text stands for, as `read_model` reads it, and the cost of each state: its value
/// of the reward of this name, 0 where the text tells none; or where and why it is refused.
///
/// What is wrong with rewards is told where they stand, and behind an unknown label that no reward
/// has the name. A text that is read here is read as the same model without its rewards. `Memory`
/// only where memory is wanting. The text has fewer than 2^31 bytes. Linear, as `read_model`.
pub fn read_costs(
    alloc: Global,
    text: &[u8],
    label: &[u8],
    reward: &[u8],
) -> Result<(Model, Costs), DrnError>
    requires { length text.now < text_limit }
    ensures { IsCostAnswer result
        (drn_costs text.now (record { label = label.now; reward = reward.now })) }
{
    let mut reader = CostReader::new(alloc, reward);
    let number = read_cost_lines(&mut reader, text, label)?;
    texts_are_valid();
    let CostReader { reader, rewards } = reader;
    let model = finish_with(alloc, number, reader, &rewards)?;
    Ok((model, rewards.into_costs()))
}
