//! Tests of fractions, literals and common divisors.

use crate::cells::each_row;
use lift_frac::{Frac, FracError, gcd, lcm, literal_len, read_literal};
use std::alloc::{AllocError, Global};
use std::cmp::Ordering;
use std::convert::Infallible;
use test_cells::{Teller, Unreported, cut, cut_two};

/// The two parts of a fraction, or why there is none.
fn shown(alloc: Global, answer: Result<Frac, FracError>) -> Result<String, AllocError> {
    match answer {
        Ok(q) => {
            let (num, den) = (q.num, q.den);
            format!(in alloc; "{num}/{den}")
        }
        Err(cause) => format!(in alloc; "{cause:?}"),
    }
}

/// The fraction of a text as `1/2` or `-1/2`.
fn fraction(text: &str) -> Result<Frac, FracError> {
    let (is_negative, size) = match text.strip_prefix('-') {
        Some(size) => (true, size),
        None => (false, text),
    };
    let (above, below) = size.split_once('/').unwrap_or((size, "1"));
    let quotient = read_literal(above.as_bytes())?.div(read_literal(below.as_bytes())?)?;
    Ok(if is_negative {
        quotient.neg()
    } else {
        quotient
    })
}

/// A text, and the fraction that it writes or why it is refused.
const LITERALS: &str = "\
4611686018427387903 | 4611686018427387903/1
4611686018427387904 | Wide
5e-1 | 1/2
0.3333 | 3333/10000
2.50E+01 | 25/1
00012 | 12/1
1e18 | 1000000000000000000/1
1e19 | Wide
10e18 | Wide
461168601842738791e1 | Wide
1e-18 | 1/1000000000000000000
1e-19 | Wide
0e999 | 0/1
0.0000000000000000000 | 0/1
1. | BadLiteral
.5 | BadLiteral
1e | BadLiteral
1e- | BadLiteral
1.5.2 | BadLiteral
-1 | BadLiteral
 | BadLiteral";

struct Literals;

impl Teller for Literals {
    type Reported = String;

    type Error = AllocError;

    fn tell(&self, alloc: Global, asked: &str) -> Result<String, AllocError> {
        shown(alloc, read_literal(asked.as_bytes()))
    }
}

#[test]
fn reads_literals(rt: HostRuntime) {
    each_row(&rt, rt.alloc(), LITERALS, &Literals);
}

/// What stands behind 5000 digits, of which the first is a 1 and the others are zeros, and the fraction that all write.
const POWERS: &str = "\
e-4999 | 1/1
 | Wide";

struct Powers;

impl Teller for Powers {
    type Reported = String;

    type Error = AllocError;

    fn tell(&self, alloc: Global, asked: &str) -> Result<String, AllocError> {
        let mut text = vec![in alloc; b'0'; 5000]?;
        text[0] = b'1';
        text.extend_from_slice(asked.as_bytes())?;
        shown(alloc, read_literal(&text))
    }
}

#[test]
fn reads_long_digits(rt: HostRuntime) {
    each_row(&rt, rt.alloc(), POWERS, &Powers);
}

/// What stands before 4998 nines, and the fraction that all write.
const EXPONENTS: &str = "\
9e | Wide
0e | 0/1";

struct Exponents;

impl Teller for Exponents {
    type Reported = String;

    type Error = AllocError;

    fn tell(&self, alloc: Global, asked: &str) -> Result<String, AllocError> {
        let mut text = Vec::from_slice(alloc, asked.as_bytes())?;
        text.resize(5000, b'9')?;
        shown(alloc, read_literal(&text))
    }
}

#[test]
fn reads_long_exponents(rt: HostRuntime) {
    each_row(&rt, rt.alloc(), EXPONENTS, &Exponents);
}

/// Two fractions, an operation, and what it gives.
const OPERATIONS: &str = "\
1/6 | add | 1/3 | 1/2
1/6 | mul | 1/3 | 1/18
1/6 | div | 1/3 | 1/2
4611686018427387903 | add | 1 | Wide
4611686018427387903 | mul | 1 | 4611686018427387903/1
4611686018427387903 | div | 1 | 4611686018427387903/1
2147483648 | add | 2147483647 | 4294967295/1
2147483648 | mul | 2147483647 | 4611686016279904256/1
2147483648 | div | 2147483647 | 2147483648/2147483647
2147483648 | add | 1/2147483648 | Wide
2147483648 | mul | 1/2147483648 | 1/1
2147483648 | div | 1/2147483648 | Wide
1/4611686018427387903 | add | 1/4611686018427387903 | 2/4611686018427387903
1/4611686018427387903 | mul | 1/4611686018427387903 | Wide
1/4611686018427387903 | div | 1/4611686018427387903 | 1/1
5/7 | add | 0/9 | 5/7
5/7 | mul | 0/9 | 0/1
5/7 | div | 0/9 | Zero
1 | div | -2 | -1/2
0 | div | -5 | 0/1";

fn computed(left: &str, operation: &str, right: &str) -> Result<Frac, FracError> {
    let (left, right) = (fraction(left)?, fraction(right)?);
    match operation {
        "add" => left.add(right),
        "mul" => left.mul(right),
        _ => left.div(right),
    }
}

struct Operations;

impl Teller for Operations {
    type Reported = String;

    type Error = AllocError;

    fn tell(&self, alloc: Global, asked: &str) -> Result<String, AllocError> {
        let (left, operation, right) = cut_two(asked);
        shown(alloc, computed(left, operation, right))
    }
}

#[test]
fn computes(rt: HostRuntime) {
    each_row(&rt, rt.alloc(), OPERATIONS, &Operations);
}

/// Two fractions, and how they stand to each other.
const ORDERS: &str = "\
1/3 | 1/2 | Less
1/2 | 1/3 | Greater
-1/2 | 1/3 | Less
-1/2 | -1/3 | Less
1/2 | 2/4 | Equal
-0/1 | 0 | Equal";

fn order_name(order: Ordering) -> &'static str {
    match order {
        Ordering::Less => "Less",
        Ordering::Equal => "Equal",
        Ordering::Greater => "Greater",
    }
}

/// Whether zero is its own opposite.
fn is_zero_its_opposite() -> bool {
    Frac::whole(0).neg() == Frac::whole(0)
}

struct Orders;

impl Teller for Orders {
    type Reported = &'static str;

    type Error = FracError;

    fn tell(&self, _alloc: Global, asked: &str) -> Result<&'static str, FracError> {
        let (left, right) = cut(asked);
        Ok(order_name(fraction(left)?.order(fraction(right)?)))
    }
}

#[test]
fn orders_fractions(rt: HostRuntime) {
    each_row(&rt, rt.alloc(), ORDERS, &Orders);
    assert!(rt; is_zero_its_opposite());
}

/// Two numbers, and their greatest common divisor.
const DIVISORS: &str = "\
0 | 0 | 0
0 | 7 | 7
7 | 0 | 7
12 | 18 | 6
340282366920938463463374607431768211455 | 5 | 5";

fn number(cell: &str) -> u128 {
    cell.parse::<u128>().unwrap_or(99)
}

struct Divisors;

impl Teller for Divisors {
    type Reported = u128;

    type Error = Infallible;

    fn tell(&self, _alloc: Global, asked: &str) -> Result<u128, Infallible> {
        let (left, right) = cut(asked);
        Ok(gcd(number(left), number(right)))
    }
}

/// Whether 4 and 6 have the least common multiple 12, and 0 and 6 have 0.
fn finds_multiples() -> bool {
    lcm(4, 6) == 12 && lcm(0, 6) == 0
}

#[test]
fn finds_common_divisors(rt: HostRuntime) {
    each_row(&rt, rt.alloc(), DIVISORS, &Divisors);
    assert!(rt; finds_multiples());
}

/// A text, and how many bytes the longest literal at its front has.
const LENGTHS: &str = "\
1 | 1
12.5e-3p | 7
1.p | 1
3e+x | 1
3.0e | 3
1.2.3 | 3";

struct Lengths;

impl Teller for Lengths {
    type Reported = usize;

    type Error = Unreported;

    fn tell(&self, _alloc: Global, asked: &str) -> Result<usize, Unreported> {
        match asked.as_bytes() {
            text @ [b'0'..=b'9', ..] => Ok(literal_len(text)),
            _ => Err(Unreported::Cell),
        }
    }
}

#[test]
fn finds_the_longest_literal(rt: HostRuntime) {
    each_row(&rt, rt.alloc(), LENGTHS, &Lengths);
}
