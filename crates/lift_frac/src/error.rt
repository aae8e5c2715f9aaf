/// Why a fraction isn't given.
#[derive(Clone, Copy, Debug, PartialEq)]
pub enum FracError {
    /// In lowest terms, a part of the result has a size of 2^62 or more.
    Wide = 1,
    /// The divisor is 0.
    Zero = 2,
    /// The text isn't a literal.
    BadLiteral = 3,
}
