ghost use Rattle.std.specs.Prelude.{◌≡◌};
ghost use Rattle.lift_rows.specs.Number.{error_number, error_row};

/// The first fault of a model that isn't admitted. `state` and `choice` name the row.
#[derive(Clone, Copy, Debug)]
pub enum RowError {
    /// The coefficients at a set of parameters, the least one, don't sum to the common denominator
    /// (the empty set) or to 0 (any other set).
    RowSum {
        state: u32,
        choice: u32,
        set: u16,
        sum: i128,
    },
    /// The transition to `target` weighs less than 0 at that corner of the root.
    Negative {
        state: u32,
        choice: u32,
        target: u32,
        corner: u32,
        weight: i128,
    },
    /// So many parameters occur in the row, more than 4.
    RowParameters {
        state: u32,
        choice: u32,
        count: u32,
    },
    /// Products and sums of the row's weights could leave 128 bits.
    TooWide {
        state: u32,
        choice: u32,
    },
}

impl RowError {
    /// The number of the variant, from 1 to 4.
    pub fn number(&self) -> u32
        ensures { result ≡ error_number self.now }
    {
        match self {
            RowError::RowSum { .. } => 1,
            RowError::Negative { .. } => 2,
            RowError::RowParameters { .. } => 3,
            RowError::TooWide { .. } => 4,
        }
    }
    /// The row: its state and its choice.
    pub fn row(&self) -> (u32, u32)
        ensures { result ≡ error_row self.now }
    {
        match *self {
            RowError::RowSum { state, choice, .. }
            | RowError::Negative { state, choice, .. }
            | RowError::RowParameters { state, choice, .. }
            | RowError::TooWide { state, choice } => (state, choice),
        }
    }
}
