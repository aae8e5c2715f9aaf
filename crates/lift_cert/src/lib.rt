//! Bounds, and what certificates say of them: those from above (inductive upper bounds), and those from below
//! (inductive lower bounds with a ranking function and a memoryless strategy).
#![tactic(auto)]

mod accept;
mod bound;
mod certificate;
mod laws;
mod miss;
mod quick;
mod reject;

pub use accept::meets_accept;
pub use bound::Bound;
pub use certificate::Certificate;
pub use laws::{
    certificates_are_of_one_kind, certificates_decide, first_miss_is_one,
    rejecting_certificates_reach,
};
pub use miss::Miss;
pub use quick::{is_accepting, is_rejecting};
pub use reject::meets_reject;
