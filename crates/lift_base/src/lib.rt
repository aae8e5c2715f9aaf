//! Where bytes come from and where they go: sources and sinks, each with a count of its faults, and the
//! lines of a source.
#![tactic(auto)]

mod buffered;
mod held;
mod input;
mod laws;
mod lines;
mod memory;
mod output;
mod pieces;
mod standard;
mod tail;
mod window;

pub use buffered::{BufferedSink, Origin, Telling, Text, tell_buffered, write_buffered};
pub use input::{Got, ReadError, Source, read_all};
pub use laws::{fronts_are_one, writes_in_turn};
pub use lines::Lines;
pub use memory::{MemSink, MemSource, SureSink, SureSource};
pub use output::{
    Put, Sink, Word, WriteFault, put_number, write_all, write_marks, write_numbers, write_words,
};
pub use pieces::{Front, LineError, Piece};
pub use standard::{StdSink, StdSource};
