//! Tests of values.

use crate::cells::each_row;
use drn_expr::{ExprError, RatPoly, read_value};
use drn_lexer::Line;
use lift_names::Names;
use std::alloc::{AllocError, Global};
use std::fmt::Write;
use std::string::String;
use test_cells::{Teller, cut_two, number};

/// Adds the names `p` and `q`.
fn push_names(names: &mut Names) -> Result<(), AllocError> {
    for name in ["p", "q"] {
        if names.len() < 16 {
            names.push(name.as_bytes())?;
        }
    }
    Ok(())
}

/// The value of a text over these names and `p` and `q`.
fn read_over(alloc: Global, text: &[u8], names: &mut Names) -> Result<RatPoly, ExprError> {
    push_names(names)?;
    let line = Line {
        from: 0,
        to: text.len(),
        number: 1,
    };
    if names.len() > 16 {
        return Err(ExprError::Memory);
    }
    read_value(alloc, text, line, 0, names)
}

/// The value of a text over the names `p` and `q`.
fn read(alloc: Global, text: &[u8]) -> Result<RatPoly, ExprError> {
    let mut names = Names::new(alloc);
    let value = read_over(alloc, text, &mut names);
    drop(names);
    value
}

/// Writes each term as its set and its coefficient, and the denominator.
fn write_value(text: &mut String, value: &RatPoly) -> Result<(), AllocError> {
    let poly = value.poly();
    for index in 0..poly.len() {
        let (set, number) = poly.term(index);
        write!(text, "{set}:{number} ")?;
    }
    let den = value.den();
    write!(text, "/{den}")?;
    Ok(())
}

/// A value with its terms.
fn terms_shown(alloc: Global, value: &RatPoly) -> Result<String, AllocError> {
    let mut text = String::new(alloc);
    write_value(&mut text, value)?;
    Ok(text)
}

/// A value with its terms, or why there is none.
fn shown(alloc: Global, answer: Result<RatPoly, ExprError>) -> Result<String, AllocError> {
    match answer {
        Ok(value) => {
            let shown = terms_shown(alloc, &value);
            drop(value);
            shown
        }
        Err(cause) => format!(in alloc; "{cause:?}"),
    }
}

/// A value, and its terms over one denominator.
const EXPANDED: &str = "\
1-p*q | 0:1 3:-1 /1
(p+1)*(q-1/2) | 0:-1 1:-1 2:2 3:2 /2
p-p | /1
5e-1 | 0:1 /2
1-2-3 | 0:-4 /1
8/4/2 | 0:1 /1
1/3 + 1/6 | 0:1 /2
-p*q | 3:-1 /1
2--q | 0:2 2:1 /1
--p | 1:1 /1
(6*p-4)/-8 | 0:2 1:-3 /4
0/5*p | /1
\t( ( p ) ) | 1:1 /1
4611686018427387903 | 0:4611686018427387903 /1
p/4611686018427387903 | 1:1 /4611686018427387903";

/// A text, and its first refusal.
const REFUSED: &str = "\
p*(1-p) | SharedParameter
q/(p-p) | DivisionByZero
4611686018427387904 | Wide
4611686018427387903+1 | Wide
p/4611686018427387903/2*2 | Wide
p^2 | Power
(p^2) | Power
^p | Syntax
1/p | ParametricDivisor
(p+1)/q | ParametricDivisor
2p | Syntax
p q | Syntax
p**q | Syntax
 | Syntax
(p | Syntax
p) | Syntax
p+ | Syntax
$p | Syntax
r | UnknownName
p*p+r | UnknownName
1/0+p*p | DivisionByZero
p*p+1/0 | SharedParameter
(p*p)^2 | Power";

struct Values;

impl Teller for Values {
    type Reported = String;

    type Error = AllocError;

    fn tell(&self, alloc: Global, asked: &str) -> Result<String, AllocError> {
        shown(alloc, read(alloc, asked.as_bytes()))
    }
}

#[test]
fn expands_values(rt: HostRuntime) {
    each_row(&rt, rt.alloc(), EXPANDED, &Values);
}

#[test]
fn tells_the_first_refusal(rt: HostRuntime) {
    each_row(&rt, rt.alloc(), REFUSED, &Values);
}

/// A byte, how often it stands in front, what stands behind it, and the value.
const NESTED: &str = "\
- | 64 | p | 1:1 /1
( | 65 |  | Deep";

struct Nested;

impl Teller for Nested {
    type Reported = String;

    type Error = AllocError;

    fn tell(&self, alloc: Global, asked: &str) -> Result<String, AllocError> {
        let (byte, count, rest) = cut_two(asked);
        let byte = byte.bytes().next().unwrap_or(b'?');
        let mut text = vec![in alloc; byte; number(count) as usize]?;
        text.extend_from_slice(rest.as_bytes())?;
        shown(alloc, read(alloc, &text))
    }
}

#[test]
fn limits_nesting(rt: HostRuntime) {
    each_row(&rt, rt.alloc(), NESTED, &Nested);
}

/// The first bytes of a sum of 2049 times p.
fn front_of_sum(alloc: Global, len: usize) -> Result<Vec<u8>, AllocError> {
    let mut sum = Vec::new(alloc);
    for _ in 0..2049 {
        sum.extend_from_slice(b"p+")?;
    }
    sum.truncate(len);
    Ok(sum)
}

/// How many bytes of the sum there are, and their value.
const SUMS: &str = "\
4097 | Long
4096 | Syntax
4095 | 1:2048 /1";

struct Sums;

impl Teller for Sums {
    type Reported = String;

    type Error = AllocError;

    fn tell(&self, alloc: Global, asked: &str) -> Result<String, AllocError> {
        let text = front_of_sum(alloc, number(asked) as usize)?;
        shown(alloc, read(alloc, &text))
    }
}

#[test]
fn limits_symbols(rt: HostRuntime) {
    each_row(&rt, rt.alloc(), SUMS, &Sums);
}
