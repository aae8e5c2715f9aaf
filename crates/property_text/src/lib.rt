//! Properties (a probability operator over a path formula): their formulas, until, and the model in which until is
//! reach, since states that are neither safe nor goal are absorbing there.
#![tactic(auto)]

mod bound;
mod cut;
mod error;
mod formula;
mod laws;
mod op;
mod parts;

pub use cut::{goals_of, restrict};
pub use error::FormulaError;
pub use formula::{Formula, FormulaIn, formula_in, read_formula};
pub use laws::{formulas_are_one, memoryless_is_a_plan, until_is_reach};
pub use op::Op;
