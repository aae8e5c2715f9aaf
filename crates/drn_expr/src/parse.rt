//! The parser: a value is expanded while it is read, and an operation that fails waits for the end,
//! since every fault in place is told before it.
ghost use Rattle.std.specs.Prelude.{◌≡◌, ◌≢◌, ◌+◌, ◌<◌, ◌≤◌, length, IfOk, IfErr, IfSome, Err};
ghost use Rattle.std.specs.Prelude.{slice_range, position};
ghost use Rattle.std.specs.Str.{bytes_eq};
ghost use Rattle.lift_frac.specs.Literal.{reading};
ghost use Rattle.drn_lexer.specs.Spans.{LiesIn, IsOn};
ghost use Rattle.lift_poly.specs.Limits.{parameter_limit};
ghost use Rattle.drn_expr.specs.Grammar.{most_nesting, misfit, literal_tree, name_tree};
ghost use Rattle.drn_expr.specs.Grammar.{joins_terms, joins_factors};
ghost use Rattle.drn_expr.specs.Parsing.{IsFurther, IsFactor, IsTerm, IsValue, IsClosed, IsEnded};
ghost use Rattle.drn_expr.specs.Parsing.{IsOperator, IsOperand, combined, opposite, join_of};

use crate::error::ExprError;
use crate::rat_poly::RatPoly;
use drn_lexer::{Line, Symbol, SymbolForm, next_symbol};
use lift_frac::read_literal;
use lift_names::Names;
use std::alloc::Global;

/// How many parentheses and unary minus signs may enclose one place: `most_nesting` in the
/// definitions.
const DEEPEST: u32 = 64;

/// A part of a value: its expansion or the first operation that fails, and the place behind it.
#[derive(Drop)]
pub(crate) struct Part {
    pub(crate) value: Result<RatPoly, ExprError>,
    pub(crate) to: usize,
}

/// What joins two operands.
#[derive(Clone, Copy)]
enum Operation {
    Sum,
    Difference,
    Product,
    Quotient,
}

/// The operation that joins terms.
fn joins_terms(form: SymbolForm) -> Option<Operation>
    ensures { join_of result ≡ joins_terms form }
{
    match form {
        SymbolForm::Plus => Some(Operation::Sum),
        SymbolForm::Minus => Some(Operation::Difference),
        _ => None,
    }
}

/// The operation that joins factors.
fn joins_factors(form: SymbolForm) -> Option<Operation>
    ensures { join_of result ≡ joins_factors form }
{
    match form {
        SymbolForm::Times => Some(Operation::Product),
        SymbolForm::Over => Some(Operation::Quotient),
        _ => None,
    }
}

/// The result of an operation on two operands, or the first operation that failed.
fn calculated(
    alloc: Global,
    operation: Operation,
    left: Result<RatPoly, ExprError>,
    right: Result<RatPoly, ExprError>,
) -> Result<RatPoly, ExprError>
    ensures { result ≢ Err ExprError.Memory → result ≡ combined operation left right }
{
    let (left, right) = (left?, right?);
    match operation {
        Operation::Sum => left.sum(alloc, right),
        Operation::Difference => left.difference(alloc, right),
        Operation::Product => left.product(alloc, right),
        Operation::Quotient => left.quotient(alloc, &right),
    }
}

/// The operand with the other sign, or the first operation that failed.
fn negated(operand: Result<RatPoly, ExprError>) -> Result<RatPoly, ExprError>
    ensures { result ≢ Err ExprError.Memory → result ≡ opposite operand }
{
    operand?.negative()
}

/// One parenthesis or unary minus more around a place. `Deep` exactly where it is the 65th.
fn deeper(depth: u32) -> Result<u32, ExprError>
    requires { depth ≤ most_nesting }
    ensures deeper { IfOk result (λ d. (d ≡ depth + 1) × (depth < most_nesting)) }
    ensures deep { IfErr result (λ cause. (cause ≡ ExprError.Deep) × (depth ≡ most_nesting)) }
{
    if depth == DEEPEST {
        Err(ExprError::Deep)
    } else {
        Ok(depth + 1)
    }
}

/// What is wrong with a symbol that stands where an operator could.
fn misfit(form: SymbolForm) -> ExprError
    ensures { result ≡ misfit form }
{
    match form {
        SymbolForm::Power => ExprError::Power,
        _ => ExprError::Syntax,
    }
}

/// The place behind a closing parenthesis.
fn closed(text: &[u8], line: Line, at: usize) -> Result<usize, ExprError>
    requires line { LiesIn line text.now }
    requires place { IsOn at line }
    ensures further { IfOk result (IsFurther text.now line at) }
    ensures closed { IsClosed text.now line at result }
{
    let Some(symbol) = next_symbol(text, line, at) else {
        return Err(ExprError::Syntax);
    };
    match symbol.form {
        SymbolForm::Right => Ok(symbol.to),
        form => Err(misfit(form)),
    }
}

/// Nothing stands behind a whole value.
pub(crate) fn ended(text: &[u8], line: Line, at: usize) -> Result<(), ExprError>
    requires line { LiesIn line text.now }
    requires place { IsOn at line }
    ensures { IsEnded text.now line at result }
{
    match next_symbol(text, line, at) {
        Some(symbol) => Err(misfit(symbol.form)),
        None => Ok(()),
    }
}

/// The operator between terms at a place, and the place behind it.
fn term_operator(text: &[u8], line: Line, at: usize) -> Option<(Operation, usize)>
    requires line { LiesIn line text.now }
    requires place { IsOn at line }
    ensures further { IfSome result (λ found. IsFurther text.now line at found.1) }
    ensures operator { IsOperator joins_terms text.now line at result }
{
    let symbol = next_symbol(text, line, at)?;
    let operation = joins_terms(symbol.form)?;
    Some((operation, symbol.to))
}

/// The operator between factors at a place, and the place behind it.
fn factor_operator(text: &[u8], line: Line, at: usize) -> Option<(Operation, usize)>
    requires line { LiesIn line text.now }
    requires place { IsOn at line }
    ensures further { IfSome result (λ found. IsFurther text.now line at found.1) }
    ensures operator { IsOperator joins_factors text.now line at result }
{
    let symbol = next_symbol(text, line, at)?;
    let operation = joins_factors(symbol.form)?;
    Some((operation, symbol.to))
}

/// A literal as an operand. `Wide` exactly where it is too large for a fraction.
fn literal(alloc: Global, text: &[u8], symbol: Symbol) -> Result<Part, ExprError>
    requires within { (symbol.from ≤ symbol.to) × (symbol.to ≤ length text.now) }
    ensures { let tree = literal_tree (reading (slice_range text.now symbol.from symbol.to)) in
        IsOperand symbol.to result tree }
{
    match read_literal(&text[symbol.from..symbol.to]) {
        Ok(number) => Ok(Part {
            value: RatPoly::number(alloc, number),
            to: symbol.to,
        }),
        Err(_) => Err(ExprError::Wide),
    }
}

/// A parameter as an operand. `UnknownName` exactly where the name isn't declared.
fn parameter(alloc: Global, text: &[u8], symbol: Symbol, names: &Names) -> Result<Part, ExprError>
    requires within { (symbol.from ≤ symbol.to) × (symbol.to ≤ length text.now) }
    requires names { length names.now ≤ parameter_limit }
    ensures { let name = slice_range text.now symbol.from symbol.to in
        let place = position (bytes_eq name) names.now in
        IsOperand symbol.to result (name_tree place) }
{
    match names.find(&text[symbol.from..symbol.to]) {
        Some(place) => Ok(Part {
            value: RatPoly::parameter(alloc, place),
            to: symbol.to,
        }),
        None => Err(ExprError::UnknownName),
    }
}

/// Reads values in a line of a text, over the names of parameters.
#[derive(Clone, Copy)]
pub(crate) struct Parser<'a> {
    pub alloc: Global,
    pub text: &'a [u8],
    pub line: Line,
    pub names: &'a Names,
    ghost lies: { LiesIn line text.now },
    ghost few: { length names.now ≤ parameter_limit },
}

impl Parser<'_> {
    /// A literal, a name, a parenthesis, or a factor behind a unary minus.
    #[cycle(value)]
    fn factor(&self, at: usize, depth: u32) -> Result<Part, ExprError>
        requires place { IsOn at self.now.line }
        requires depth { depth ≤ most_nesting }
        ensures further { IfOk result (λ part. IsFurther self.now.text.now self.now.line at part.to) }
        ensures factor { IsFactor self.now.names.now depth self.now.text.now self.now.line at result }
    {
        let Some(symbol) = next_symbol(self.text, self.line, at) else {
            return Err(ExprError::Syntax);
        };
        match symbol.form {
            SymbolForm::Minus => {
                let depth = deeper(depth)?;
                let inner = self.factor(symbol.to, depth)?;
                Ok(Part {
                    value: negated(inner.value),
                    to: inner.to,
                })
            }
            SymbolForm::Left => {
                let depth = deeper(depth)?;
                let inner = self.value(symbol.to, depth)?;
                let to = closed(self.text, self.line, inner.to)?;
                Ok(Part {
                    value: inner.value,
                    to,
                })
            }
            SymbolForm::Literal => literal(self.alloc, self.text, symbol),
            SymbolForm::Name => parameter(self.alloc, self.text, symbol, self.names),
            _ => Err(ExprError::Syntax),
        }
    }

    /// Factors that are multiplied and divided, from the left.
    #[cycle(value)]
    fn term(&self, at: usize, depth: u32) -> Result<Part, ExprError>
        requires place { IsOn at self.now.line }
        requires depth { depth ≤ most_nesting }
        ensures further { IfOk result (λ part. IsFurther self.now.text.now self.now.line at part.to) }
        ensures term { IsTerm self.now.names.now depth self.now.text.now self.now.line at result }
    {
        let mut left = self.factor(at, depth)?;
        while let Some((operation, to)) = factor_operator(self.text, self.line, left.to) {
            let right = self.factor(to, depth)?;
            left = Part {
                value: calculated(self.alloc, operation, left.value, right.value),
                to: right.to,
            };
        }
        Ok(left)
    }

    /// Terms that are added and subtracted, from the left.
    #[cycle(value)]
    pub fn value(&self, at: usize, depth: u32) -> Result<Part, ExprError>
        requires place { IsOn at self.now.line }
        requires depth { depth ≤ most_nesting }
        ensures further { IfOk result (λ part. IsFurther self.now.text.now self.now.line at part.to) }
        ensures value { IsValue self.now.names.now depth self.now.text.now self.now.line at result }
    {
        let mut left = self.term(at, depth)?;
        while let Some((operation, to)) = term_operator(self.text, self.line, left.to) {
            let right = self.term(to, depth)?;
            left = Part {
                value: calculated(self.alloc, operation, left.value, right.value),
                to: right.to,
            };
        }
        Ok(left)
    }
}
