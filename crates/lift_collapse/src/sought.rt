/// Which vector of a rectangle is sought.
#[derive(Clone, Copy)]
pub enum Sought {
    /// The least upper vector for one scheduler.
    UpperOne,
    /// The least avoiding vector, by ranks in which every choice counts.
    Avoiding,
}
