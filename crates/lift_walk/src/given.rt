/// A node of a tree that is known beforehand, with what came of taking it, where it is a leaf that decides.
#[derive(Drop)]
pub enum Given<R> {
    /// A split on that parameter; the nodes of the lower half follow, and then those of the upper one.
    Split(u32),
    /// A leaf that decides.
    Leaf(R),
    /// An unknown leaf.
    Unknown,
}
