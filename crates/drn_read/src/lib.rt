//! The reading (parsing) of a model text in the explicit DRN format: its definition, and the call that gives the model
//! or the refusal that the definition says; and the same with what each state costs (its state reward).
#![tactic(auto)]

ghost use Rattle.std.specs.Prelude.{◌≡◌, ◌+◌, ◌<◌, ◌≤◌, [], length};
ghost use Rattle.drn_lexer.specs.Lines.{text_limit, lines_at, behind_comments, place_after};
ghost use Rattle.drn_read.specs.Reading.{said, drn, IsAnswer};
ghost use Rattle.drn_read.specs.Shown.{IsNext, ReadsLines};

mod advance;
mod common;
mod cost_reader;
mod costed;
mod cursor;
mod digits;
mod end;
mod entry;
mod error;
mod extend;
mod front;
mod header;
mod known;
mod labels;
mod last;
mod laws;
mod model_lines;
mod owner;
mod parameters;
mod placeholder_line;
mod placeholders;
mod reader;
mod reward_group;
mod reward_reader;
mod reward_value;
mod reward_words;
mod rows;
mod scaled;
mod section;
mod shared;
mod state;
mod targets;
mod text;
mod type_line;
mod value;

pub use costed::read_costs;
use cursor::Cursor;
use drn_lexer::{Line, Place, next_line};
use end::finish;
pub use error::{DrnCause, DrnError};
pub use laws::{costs_are_read_with_the_model, lines_say_more, texts_are_valid};
pub use lift_costs::Costs;
use lift_model::Model;
pub use owner::Owner;
use reader::Reader;
pub use section::{Phase, Section};
pub use shared::SharedValue;
pub use state::Transition;
use std::alloc::Global;

/// The next line that is no comment.
fn next(text: &[u8], place: &mut Place) -> Result<Option<Line>, DrnError>
    requires short { length text.now < text_limit }
    requires at { place.old.at ≤ length text.now }
    requires number { place.old.number ≤ place.old.at + 1 }
    ensures place { place.new
        ≡ place_after text.now place.old (behind_comments (lines_at text.now place.old)) }
    ensures next { IsNext text.now place.old place.new result }
    ensures at { place.new.at ≤ length text.now }
    ensures number { place.new.number ≤ place.new.at + 1 }
{
    match next_line(text, place) {
        Ok(line) => Ok(line),
        Err(fault) => Err(DrnError {
            line: place.number,
            cause: DrnCause::from(fault),
        }),
    }
}

/// Reads all lines of a text, and gives the number of the last one.
fn read_lines(reader: &mut Reader, text: &[u8], label: &[u8]) -> Result<u32, DrnError>
    requires short { length text.now < text_limit }
    requires start { reader.old ≡ said label.now [] }
    ensures { ReadsLines label.now text.now result reader.new }
{
    let mut place = Place::start();
    while let Some(line) = next(text, &mut place)? {
        reader.read_line(label, Cursor::begin(text, line))?;
    }
    Ok(place.number - 1)
}

/// The model that a text stands for, where the goal states are those that carry the label; or where
/// and why it is refused: at the first line that has a fault, by the first of its tests that fails,
/// and behind the last line by the first test of the whole text that fails.
///
/// The text has fewer than 2^31 bytes. Its lines are numbered from 1; what is no fault of a line
/// alone is told of the last one, 0 for the empty text. `Memory` only where memory is wanting.
/// Linear in the length of the text, but for the targets of a row, which are kept in order.
pub fn read_model(alloc: Global, text: &[u8], label: &[u8]) -> Result<Model, DrnError>
    requires { length text.now < text_limit }
    ensures { IsAnswer result (drn text.now label.now) }
{
    let mut reader = Reader::new(alloc);
    let number = read_lines(&mut reader, text, label)?;
    texts_are_valid();
    finish(alloc, number, reader)
}
