/// Whether each state of a model has exactly one choice.
#[derive(Clone, Copy, Debug, PartialEq, Eq)]
pub enum Kind {
    /// A Markov chain: exactly one choice for each state.
    Dtmc,
    /// A Markov decision process: one or more choices for each state.
    Mdp,
}
