/// How a rectangle is halved.
#[derive(Clone, Copy)]
pub(crate) struct Halving {
    pub(crate) axis: u32,
    /// Whether the trees of the halves are known beforehand.
    pub(crate) known: bool,
}

/// What a walk does with a rectangle.
#[derive(Drop)]
pub(crate) enum Step<R> {
    /// It has a leaf, with what came of taking it.
    Done(R),
    /// It is halved.
    Halve(Halving),
}
