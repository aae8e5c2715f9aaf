// Goes forward on a line.
ghost use Rattle.std.specs.Prelude.{◌≡◌, ◌≤◌, IfSome, drop, length, slice_range};
ghost use Rattle.drn_lexer.specs.Spans.{LiesIn};
ghost use Rattle.drn_lexer.specs.Symbols.{symbols};
ghost use Rattle.drn_read.specs.Shown.{rest, left, GivesWord, GivesSymbol};

use crate::cursor::{Cursor, LineSymbol, LineWord};
use crate::error::DrnCause;
use drn_lexer::{Line, next_symbol, next_word};

impl<'t> Cursor<'t> {
    /// The beginning of a line of the text.
    pub fn begin(text: &'t [u8], line: Line) -> Cursor<'t>
        requires { LiesIn line text.now }
        ensures rest { rest result ≡ slice_range text.now line.from line.to }
        ensures line { result.line ≡ line }
    {
        Cursor {
            text,
            line,
            at: line.from,
        }
    }

    /// What is left of the line.
    pub fn rest(&self) -> &'t [u8]
        ensures { result.now ≡ rest self.now }
    {
        &self.text[self.at..self.line.to]
    }

    /// The place behind so many of the bytes that are left.
    #[tactic(auto, using(crate::proofs::Ranges::part_within, crate::proofs::Ranges::part_left))]
    pub fn forward(self, len: usize) -> Cursor<'t>
        requires { len ≤ length (rest self) }
        ensures { rest result ≡ drop len (rest self.entry) }
    {
        Cursor {
            text: self.text,
            line: self.line,
            at: self.at + len,
        }
    }

    /// The next word. `OpenQuote` exactly where it begins with a quote that has no end.
    pub fn next_word(&mut self) -> Result<Option<LineWord<'t>>, DrnCause>
        ensures { GivesWord (left self.old) result (left self.new) }
    {
        let Some(word) = next_word(self.text, self.line, self.at)? else {
            return Ok(None);
        };
        self.at = word.to;
        Ok(Some(LineWord {
            form: word.form,
            bytes: &self.text[word.from..word.to],
        }))
    }

    /// The next symbol.
    pub fn next_symbol(&mut self) -> Option<LineSymbol<'t>>
        ensures symbol { GivesSymbol (symbols (rest self.old)) result (symbols (rest self.new)) }
        ensures some { IfSome result (λ symbol. 1 ≤ length symbol.bytes.now) }
    {
        let symbol = next_symbol(self.text, self.line, self.at)?;
        self.at = symbol.to;
        Some(LineSymbol {
            form: symbol.form,
            bytes: &self.text[symbol.from..symbol.to],
        })
    }
}
