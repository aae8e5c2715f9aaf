use crate::shared::SharedPoly;

/// A transition of a choice: its target, and its polynomial over the model's common denominator.
#[derive(Drop)]
pub struct Entry {
    /// The state that it leads to.
    pub target: u32,
    /// Its probability, times the common denominator. Entries may share it.
    pub poly: SharedPoly,
}
