//! The lines of a model text, the words of a line and the symbols (tokens) of a value, each as a span of the text. No
//! call takes memory.
#![tactic(auto)]

mod bytes;
mod error;
mod line;
mod symbol;
mod word;

pub use error::LexError;
pub use line::{Line, Place, next_line};
pub use symbol::{Symbol, SymbolForm, next_symbol};
pub use word::{Word, WordForm, next_word, unquoted};
