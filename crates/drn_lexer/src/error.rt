/// Why a line or a word of a model text is refused.
#[derive(Clone, Copy, Debug)]
pub enum LexError {
    /// A line that isn't a comment holds a byte that is neither a tab nor from a space to a tilde.
    NotText = 1,
    /// A line has more than 2^20 bytes without its line feed.
    LongLine = 2,
    /// A word begins with a quote that has no end on its line.
    OpenQuote = 3,
}
