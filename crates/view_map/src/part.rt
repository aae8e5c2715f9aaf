// A leaf of a report's tree.
ghost use Rattle.std.specs.Prelude.{◌≡◌, ◌≤◌, pos, slice_index_or};
ghost use Rattle.lift_grid.specs.Rectangle.{spans_of};

use std::marker::Model;

/// What is said of a leaf.
#[derive(Clone, Copy, Debug, PartialEq, Eq)]
pub enum LeafKind {
    Accept,
    Reject,
    Unknown,
}

/// A leaf of a report's tree: its rectangle, how many splits lie above it, at most 20, and what is
/// said of it.
#[derive(Drop)]
pub struct Part {
    sides: Vec<i64>,
    depth: u32,
    kind: LeafKind,
}

impl Model for Part {
    ghost use Rattle.std.specs.Prelude.{◌≤◌};
    ghost use Rattle.view_map.specs.Parts.{PartData};
    ghost use Rattle.lift_grid.specs.Rectangle.{spans_of};

    ghost Value = { PartData };

    ghost view = { λ p. record { spans = spans_of p.sides.items; depth = p.depth; kind = p.kind } };

    ghost invariant = { λ p. p.depth ≤ 20 };
}

impl Part {
    /// The leaf with these ends in a row.
    pub(crate) fn new(sides: Vec<i64>, depth: u32, kind: LeafKind) -> Self
        requires { depth ≤ 20 }
        ensures { result ≡ record { spans = spans_of sides.items; depth = depth; kind = kind } }
    {
        Part { sides, depth, kind }
    }

    /// What is said of the leaf.
    pub fn kind(&self) -> LeafKind
        ensures { result ≡ self.now.kind }
    {
        self.kind
    }

    /// How many splits lie above the leaf.
    pub fn depth(&self) -> u32
        ensures depth { result ≡ self.now.depth }
        ensures limit { result ≤ 20 }
    {
        self.depth
    }

    /// The low and the high end of a parameter; 0 and 0 where the rectangle has no such parameter.
    pub fn span(&self, parameter: u32) -> (i64, i64)
        ensures { result ≡ slice_index_or self.now.spans parameter (pos 0, pos 0) }
    {
        span_at(&self.sides, parameter)
    }
}

/// The low and the high end of a parameter, by the ends in a row.
pub fn span_at(sides: &[i64], parameter: u32) -> (i64, i64)
    ensures { result ≡ slice_index_or (spans_of sides.now) parameter (pos 0, pos 0) }
{
    let low = 2 * parameter as usize;
    if low + 1 < sides.len() {
        (sides[low], sides[low + 1])
    } else {
        (0, 0)
    }
}
