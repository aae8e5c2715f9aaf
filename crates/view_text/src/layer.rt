// Layers of a field.
use view_map::LeafKind;

/// A layer of the field: rectangles that are drawn as one path.
#[derive(Clone, Copy)]
pub enum Layer {
    /// The leaves of a kind.
    Leaves(LeafKind),
    /// The borders of the leaves that are large enough.
    Borders,
}
