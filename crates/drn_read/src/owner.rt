/// Whose rewards a line tells.
#[derive(Clone, Copy)]
pub enum Owner {
    /// A state's, behind its number.
    State,
    /// An action's, behind its name.
    Action,
}
