//! The arithmetic on lists of terms, of which `MultiAffine` is made.
ghost use Rattle.std.specs.Prelude.{◌≡◌, ◌≢◌, ◌+◌, ◌*ℤ◌, ◌<ℤ◌, pos, [], ◌∷◌, ◌++◌, true, false};
ghost use Rattle.std.specs.Prelude.{ℕ, bit_and, unsigned_abs, Ok, Err, OnOk, IfOk, IfErr};
ghost use Rattle.std.specs.Prelude.{if◌then◌else◌, ◌<◌, ◌≤◌, ◌↔◌, IsTrue, length, map, take, drop, int_div};
ghost use Rattle.std.specs.List.{list_any, insert};
ghost use Rattle.std.specs.Int.{IsGcd};
ghost use Rattle.lift_poly.specs.Arithmetic.{kept, sum, times, scaled, quotient, products_of};
ghost use Rattle.lift_poly.specs.Arithmetic.{product, support, coefficient, DividesEach};
ghost use Rattle.lift_poly.specs.MultiAffine.{IsMultiAffine, is_wide};

use crate::error::PolyError;
use std::alloc::{AllocError, Global};

/// The size from which on a coefficient is too large: `term_limit` in the definitions.
const LIMIT: u128 = 1 << 125;

/// For how many terms memory is kept, though few of them are left.
const LITTLE: usize = 64;

/// A coefficient, or `Wide` where it is too large.
pub(crate) fn within_limit(number: i128) -> Result<i128, PolyError>
    ensures value { IfOk result (λ z. (z ≡ number) × (is_wide (0, number) ≡ false)) }
    ensures wide { IfErr result (λ e. (e ≡ PolyError.Wide) × (is_wide (0, number) ≡ true)) }
{
    if number.unsigned_abs() < LIMIT {
        Ok(number)
    } else {
        Err(PolyError::Wide)
    }
}

/// The product of two coefficients, or `Wide` where it is too large.
fn product_of(left: i128, right: i128) -> Result<i128, PolyError>
    ensures value { IfOk result (λ z. (z ≡ left *ℤ right) × (is_wide (0, left *ℤ right) ≡ false)) }
    ensures wide { IfErr result (λ e. (e ≡ PolyError.Wide) × (is_wide (0, left *ℤ right) ≡ true)) }
{
    if let (Ok(a), Ok(b)) = (i64::try_from(left), i64::try_from(right)) {
        return within_limit(i128::from(a) * i128::from(b));
    }
    match left.checked_mul(right) {
        Some(number) => within_limit(number),
        None => Err(PolyError::Wide),
    }
}

/// Adds a term at the end.
pub(crate) fn push_term(terms: &mut Vec<(u16, i128)>, term: (u16, i128)) -> Result<(), AllocError>
    ensures { OnOk result (terms.new.items ≡ terms.old.items ++ term ∷ []) }
{
    terms.push(term)?;
    Ok(())
}

/// Adds a term at the end, unless its coefficient is 0.
pub(crate) fn push_kept(terms: &mut Vec<(u16, i128)>, term: (u16, i128)) -> Result<(), PolyError>
    ensures kept { OnOk result (terms.new.items ≡ terms.old.items ++ kept term []) }
    ensures fits { OnOk result (is_wide term ≡ false) }
    ensures causes { IfErr result (λ e. e ≢ PolyError.Memory
        → (e ≡ PolyError.Wide) × (is_wide term ≡ true)) }
{
    let coefficient = within_limit(term.1)?;
    if coefficient != 0 {
        push_term(terms, (term.0, coefficient))?;
    }
    Ok(())
}

/// Gives memory back where more than half of it is free. Little memory stays as it is.
pub(crate) fn release(terms: &mut Vec<(u16, i128)>)
    ensures { terms.new.items ≡ terms.old.items }
{
    if terms.capacity() > LITTLE && terms.len() < terms.capacity() / 2 {
        terms.shrink_to_fit();
    }
}

/// Puts a term at a place, and moves those from there on.
fn insert_term(
    terms: &mut Vec<(u16, i128)>,
    place: usize,
    term: (u16, i128),
) -> Result<(), AllocError>
    requires { place ≤ length terms.old.items }
    ensures { OnOk result (terms.new.items ≡ insert terms.old.items place term) }
{
    terms.insert(place, term)?;
    Ok(())
}

/// Puts a term in the place of another one, which goes away alone where the coefficient is 0.
fn replace_term(terms: &mut Vec<(u16, i128)>, place: usize, term: (u16, i128))
    requires { place < length terms.old.items }
    ensures { terms.new.items
        ≡ take place terms.old.items ++ kept term (drop (place + 1) terms.old.items) }
{
    if term.1 == 0 {
        terms.remove(place);
    } else {
        terms[place] = term;
    }
}

/// Adds a term to a polynomial, at its place by ascending set. `Wide` exactly where the coefficient
/// there has a size of 2^125 or more then. A binary search, and a move of the terms behind.
pub(crate) fn add_term(terms: &mut Vec<(u16, i128)>, term: (u16, i128)) -> Result<(), PolyError>
    requires terms { IsMultiAffine terms.old.items }
    requires term { IsMultiAffine (term ∷ []) }
    ensures sum { OnOk result ((set : ℕ)
        → coefficient set terms.new.items ≡ coefficient set (term ∷ terms.old.items)) }
    ensures fits { OnOk result (IsMultiAffine terms.new.items) }
    ensures causes { IfErr result (λ e. e ≢ PolyError.Memory → (e ≡ PolyError.Wide)
        × (is_wide (term.0, coefficient term.0 (term ∷ terms.old.items)) ≡ true)) }
{
    match terms.binary_search_by_key(&term.0, |term| term.0) {
        Ok(place) => {
            let coefficient = within_limit(term.1 + terms[place].1)?;
            replace_term(terms, place, (term.0, coefficient));
        }
        Err(place) => insert_term(terms, place, term)?,
    }
    Ok(())
}

/// Adds the products of a term with each of the first terms at the end.
fn push_row(terms: &mut Vec<(u16, i128)>, term: (u16, i128), count: usize) -> Result<(), PolyError>
    requires { count ≤ length terms.old.items }
    ensures products { OnOk result (terms.new.items
        ≡ terms.old.items ++ products_of term (take count terms.old.items)) }
    ensures fits { OnOk result (list_any is_wide (products_of term (take count terms.old.items))
        ≡ false) }
    ensures causes { IfErr result (λ e. e ≢ PolyError.Memory → (e ≡ PolyError.Wide)
        × (list_any is_wide (products_of term (take count terms.old.items)) ≡ true)) }
{
    for i in 0..count {
        let other = terms[i];
        let coefficient = product_of(term.1, other.1)?;
        push_term(terms, (term.0 | other.0, coefficient))?;
    }
    Ok(())
}

/// Multiplies each of the first terms by a term, in its place.
fn multiply_row(
    terms: &mut Vec<(u16, i128)>,
    term: (u16, i128),
    count: usize,
) -> Result<(), PolyError>
    requires within { count ≤ length terms.old.items }
    requires narrow { list_any is_wide (take count terms.old.items) ≡ false }
    ensures products { OnOk result (terms.new.items
        ≡ products_of term (take count terms.old.items) ++ drop count terms.old.items) }
    ensures fits { OnOk result (list_any is_wide (products_of term (take count terms.old.items))
        ≡ false) }
    ensures causes { IfErr result (λ e. (e ≡ PolyError.Wide)
        × (list_any is_wide (products_of term (take count terms.old.items)) ≡ true)) }
{
    if term.0 == 0 && term.1 == 1 {
        return Ok(());
    }
    for i in 0..count {
        let other = terms[i];
        let coefficient = product_of(term.1, other.1)?;
        terms[i] = (term.0 | other.0, coefficient);
    }
    Ok(())
}

/// Whether two polynomials have terms at the same sets.
pub(crate) fn have_same_sets(left: &[(u16, i128)], right: &[(u16, i128)]) -> bool
    ensures { IsTrue result ↔ (map (λ term. term.0) left.now ≡ map (λ term. term.0) right.now) }
{
    if left.len() != right.len() {
        return false;
    }
    for i in 0..left.len() {
        if left[i].0 != right[i].0 {
            return false;
        }
    }
    true
}

/// Puts a term at a place, unless its coefficient is 0, and gives the place behind it.
fn keep_term(terms: &mut Vec<(u16, i128)>, place: usize, term: (u16, i128)) -> usize
    requires { place < length terms.old.items }
    ensures front { take result terms.new.items ≡ take place terms.old.items ++ kept term [] }
    ensures rest { drop (place + 1) terms.new.items ≡ drop (place + 1) terms.old.items }
    ensures len { length terms.new.items ≡ length terms.old.items }
    ensures behind { (place ≤ result) × (result ≤ place + 1) }
{
    if term.1 == 0 {
        return place;
    }
    terms[place] = term;
    place + 1
}

/// Adds a polynomial with terms at the same sets, in place. `Wide` exactly where a coefficient of the
/// sum has a size of 2^125 or more. Linear in the number of terms.
pub(crate) fn add_each(
    terms: &mut Vec<(u16, i128)>,
    others: &[(u16, i128)],
) -> Result<(), PolyError>
    requires left { IsMultiAffine terms.old.items }
    requires right { IsMultiAffine others.now }
    requires sets { map (λ term. term.0) terms.old.items ≡ map (λ term. term.0) others.now }
    ensures sum { OnOk result (terms.new.items ≡ sum terms.old.items others.now) }
    ensures fits { OnOk result (IsMultiAffine terms.new.items) }
    ensures causes { IfErr result (λ e. (e ≡ PolyError.Wide)
        × (list_any is_wide (sum terms.old.items others.now) ≡ true)) }
{
    let mut end = 0;
    for i in 0..others.len() {
        let term = terms[i];
        let coefficient = within_limit(term.1 + others[i].1)?;
        end = keep_term(terms, end, (term.0, coefficient));
    }
    terms.truncate(end);
    Ok(())
}

/// The terms of the sum. Linear in the number of terms.
pub(crate) fn sum_terms(
    alloc: Global,
    left: &[(u16, i128)],
    right: &[(u16, i128)],
) -> Result<Vec<(u16, i128)>, PolyError>
    requires left { IsMultiAffine left.now }
    requires right { IsMultiAffine right.now }
    ensures sum { IfOk result (λ v. v.items ≡ sum left.now right.now) }
    ensures fits { IfOk result (λ v. IsMultiAffine v.items) }
    ensures causes { IfErr result (λ e. e ≢ PolyError.Memory
        → (e ≡ PolyError.Wide) × (list_any is_wide (sum left.now right.now) ≡ true)) }
{
    let mut terms = Vec::with_capacity(alloc, left.len() + right.len())?;
    let (mut i, mut j) = (0, 0);
    while i < left.len() && j < right.len() {
        let (a, b) = (left[i], right[j]);
        if a.0 < b.0 {
            push_term(&mut terms, a)?;
            i += 1;
        } else if b.0 < a.0 {
            push_term(&mut terms, b)?;
            j += 1;
        } else {
            push_kept(&mut terms, (a.0, a.1 + b.1))?;
            i += 1;
            j += 1;
        }
    }
    terms.extend_from_slice(&left[i..])?;
    terms.extend_from_slice(&right[j..])?;
    Ok(terms)
}

/// The terms of a multiple, in their places. Linear in the number of terms.
pub(crate) fn multiple_terms(
    terms: Vec<(u16, i128)>,
    by: i128,
) -> Result<Vec<(u16, i128)>, PolyError>
    requires { IsMultiAffine terms.items }
    ensures multiple { IfOk result (λ v. v.items ≡ scaled by terms.items) }
    ensures fits { IfOk result (λ v. IsMultiAffine v.items) }
    ensures causes { IfErr result (λ e. (e ≡ PolyError.Wide)
        × (list_any is_wide (scaled by terms.items) ≡ true)) }
{
    let mut multiple = terms;
    if by == 0 {
        multiple.clear();
        return Ok(multiple);
    }
    let count = multiple.len();
    multiply_row(&mut multiple, (0, by), count)?;
    Ok(multiple)
}

/// The terms of the product of two polynomials that share no parameter. They are made in the memory of
/// the left ones, as far as it reaches. The products of one term of the right with those of the left
/// ascend: with n of all, and m terms at the right, it takes a time of n log m.
fn products_by_rows(
    left: Vec<(u16, i128)>,
    right: &[(u16, i128)],
) -> Result<Vec<(u16, i128)>, PolyError>
    requires left { IsMultiAffine left.items }
    requires right { IsMultiAffine right.now }
    requires apart { bit_and (support right.now) (support left.items) ≡ 0 }
    ensures product { IfOk result (λ v. v.items ≡ product right.now left.items) }
    ensures fits { IfOk result (λ v. IsMultiAffine v.items) }
    ensures causes { IfErr result (λ e. e ≢ PolyError.Memory → (e ≡ PolyError.Wide)
        × (list_any is_wide (product right.now left.items) ≡ true)) }
{
    let mut products = left;
    if right.is_empty() {
        products.clear();
        return Ok(products);
    }
    let others = &right[1..];
    let count = products.len();
    products.reserve(count * others.len())?;
    for term in others {
        push_row(&mut products, *term, count)?;
    }
    multiply_row(&mut products, right[0], count)?;
    products.sort_by_key(|term| term.0)?;
    Ok(products)
}

/// The terms of the product of two polynomials that share no parameter. With n products of terms, and
/// m terms in the factor that has fewer, it takes a time of n log m.
pub(crate) fn product_terms(
    left: Vec<(u16, i128)>,
    right: Vec<(u16, i128)>,
) -> Result<Vec<(u16, i128)>, PolyError>
    requires left { IsMultiAffine left.items }
    requires right { IsMultiAffine right.items }
    requires apart { bit_and (support left.items) (support right.items) ≡ 0 }
    ensures product { IfOk result (λ v. v.items ≡ product left.items right.items) }
    ensures fits { IfOk result (λ v. IsMultiAffine v.items) }
    ensures causes { IfErr result (λ e. e ≢ PolyError.Memory → (e ≡ PolyError.Wide)
        × (list_any is_wide (product left.items right.items) ≡ true)) }
{
    if left.len() < right.len() {
        products_by_rows(right, &left)
    } else {
        products_by_rows(left, &right)
    }
}

/// A coefficient over a divisor that is above 0.
fn quotient_of(number: i128, by: i128) -> i128
    requires { pos 0 <ℤ by }
    ensures { result ≡ int_div number by }
{
    if let (Ok(number), Ok(by)) = (i64::try_from(number), i64::try_from(by)) {
        return i128::from(number / by);
    }
    number / by
}

/// The terms over a divisor of each coefficient. Linear in the number of terms.
pub(crate) fn quotient_terms(
    alloc: Global,
    terms: &[(u16, i128)],
    by: i128,
) -> Result<Vec<(u16, i128)>, AllocError>
    requires terms { IsMultiAffine terms.now }
    requires positive { pos 0 <ℤ by }
    requires divides { DividesEach (unsigned_abs by) terms.now }
    ensures quotient { IfOk result (λ v. v.items ≡ quotient terms.now by) }
    ensures exact { IfOk result (λ v. times by v.items ≡ terms.now) }
    ensures fits { IfOk result (λ v. IsMultiAffine v.items) }
{
    let mut quotient = Vec::with_capacity(alloc, terms.len())?;
    for term in terms {
        push_term(&mut quotient, (term.0, quotient_of(term.1, by)))?;
    }
    Ok(quotient)
}

/// The greatest common divisor of two numbers of 64 bits; 0 where both are 0.
fn short_divisor(a: u64, b: u64) -> u64
    ensures { IsGcd a b result }
{
    let (mut a, mut b) = (a, b);
    while b != 0 {
        (a, b) = (b, a % b);
    }
    a
}

/// The greatest common divisor; 0 where both numbers are 0.
pub(crate) fn common_divisor(a: u128, b: u128) -> u128
    ensures { IsGcd a b result }
{
    if let (Ok(a), Ok(b)) = (u64::try_from(a), u64::try_from(b)) {
        return u128::from(short_divisor(a, b));
    }
    let (mut a, mut b) = (a, b);
    while b != 0 {
        (a, b) = (b, a % b);
    }
    a
}
