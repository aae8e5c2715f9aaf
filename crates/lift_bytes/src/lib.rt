//! Classes of bytes: blanks, digits, and the bytes of names; what stands at the front of a text; and a text
//! without the blanks around it. No call takes memory.
#![tactic(auto)]

mod class;
mod front;
mod trim;

pub use class::{begins_name, is_blank, is_name, is_name_byte};
pub use front::{blanks_len, digits_len, len_before, name_len};
pub use trim::{trimmed, trimmed_end, trimmed_front};
