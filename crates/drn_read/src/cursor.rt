// A place on a line of a text, and what stands there.
ghost use Rattle.drn_lexer.specs.Spans.{LiesIn, IsOn};

use drn_lexer::{Line, SymbolForm, WordForm};

/// A word of a line, with its quotes or brackets.
#[derive(Clone, Copy)]
pub(crate) struct LineWord<'t> {
    pub form: WordForm,
    pub bytes: &'t [u8],
}

/// A symbol of a value.
#[derive(Clone, Copy)]
pub(crate) struct LineSymbol<'t> {
    pub form: SymbolForm,
    pub bytes: &'t [u8],
}

/// A place on a line of a text. What is left of the line stands behind it.
#[derive(Clone, Copy)]
pub(crate) struct Cursor<'t> {
    pub text: &'t [u8],
    pub line: Line,
    pub at: usize,
    ghost line_lies: { LiesIn line text.now },
    ghost place_lies: { IsOn at line },
}
