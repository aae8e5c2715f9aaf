//! Lines of a text as a source gives them, a text in memory as a source, the words of a line, and the numbers that
//! words write.
#![tactic(auto)]

mod decimal;
mod error;
mod laws;
mod line_due;
mod numbers;
mod text_source;
mod words;

pub use decimal::Decimal;
pub use error::{FileError, TextCause, TextError};
pub use laws::{calls_add_up, readings_end};
pub use line_due::{due, fault, is_end, take_line};
pub use numbers::{between, decimals, is_number, is_signed, number_in, numbers_of};
pub use text_source::TextSource;
pub use words::{Words, pair_of};
