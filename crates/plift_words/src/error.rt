use crate::job::Field;

/// Why words ask for no job.
#[derive(Clone, Copy)]
pub enum WordsError {
    /// This part of the line is at fault.
    Usage(Field),
    Memory,
}
