// What the words of a command line ask for.

/// What a picture is to show, as it is written.
#[derive(Drop)]
pub struct Wish<'a> {
    /// The name of the parameter from left to right.
    pub x: Option<&'a str>,
    /// The name of the parameter from below up.
    pub y: Option<&'a str>,
    /// Values of other parameters, each written `NAME=VALUE`.
    pub at: Vec<&'a str>,
}

/// How a report is shown.
#[derive(Drop)]
pub enum View<'a> {
    /// A slice of its region.
    Picture(Wish<'a>),
    /// A table of its leaves.
    Summary,
}

/// What the words ask for.
#[derive(Drop)]
pub enum Job<'a> {
    /// A report is read and shown.
    Show(View<'a>),
    /// A report is copied as it comes.
    Follow,
}

/// What is wrong with an option's value.
#[derive(Clone, Copy)]
pub enum Cause {
    /// It isn't written `NAME=VALUE`, or VALUE is no number, or one that is too wide.
    Syntax,
    /// The report has no such parameter.
    UnknownName,
    /// The parameter lies on an axis already, or has a value already.
    Repeated,
    /// The value doesn't lie in the region.
    Outside,
}

/// The part of the command line that is at fault.
#[derive(Clone, Copy)]
pub enum Usage {
    /// The line as a whole.
    Words,
    X(Cause),
    Y(Cause),
    /// The value that is given by the option `--at` number `place`, from 1.
    At { place: u64, cause: Cause },
}
