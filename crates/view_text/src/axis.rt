// Axes of a picture.

/// An axis of a picture.
#[derive(Clone, Copy)]
pub enum Axis {
    /// From left to right, below the field.
    Across,
    /// From below up, on the field's left.
    Upright,
}
