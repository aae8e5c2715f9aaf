//! The text of a report: its head and the lines of its nodes, written, and read line by line of a source. The
//! writers take no memory.
#![tactic(auto)]

mod box_line;
mod entry_line;
mod head;
mod head_lines;
mod head_parts;
mod head_reader;
mod known;
mod laws;
mod leaf_reader;
mod marks;
mod migrate;
mod model;
mod node;
mod node_reader;
mod node_text;
mod number_line;
mod parameters;
mod precisions;
mod recent_terms;
mod rejected;
mod rows;
mod short_text;
mod terms;
mod values;

pub use head::{write_box, write_head, write_head_below};
pub use head_reader::{Head, read_head};
pub use laws::{
    heads_are_cut, heads_are_read, nodes_are_read, prefixes_are_truncated, reports_are_read,
    texts_tell_one_report,
};
pub use line_text::{FileError, TextCause, TextError};
pub use migrate::migrate_text;
pub use model::write_model;
pub use node::{write_accept, write_at, write_reject, write_split, write_unknown};
pub use node_reader::{Node, read_node};
pub use node_text::{NodeText, behind_lines, cut_lines, cut_node};
