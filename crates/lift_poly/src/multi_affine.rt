ghost use Rattle.std.specs.Prelude.{◌≡◌, ◌≢◌, ◌<◌, ◌^◌, ℤ, pos, [], ◌∷◌, ◌++◌, List, ℕ, ◌<ℤ◌};
ghost use Rattle.std.specs.Prelude.{unsigned_abs, All, length, IfOk, slice_get, Some, Ok, Err};
ghost use Rattle.lift_poly.specs.Limits.{parameter_limit, term_limit, summand_limit};
ghost use Rattle.lift_poly.specs.Polynomial.{Term, constant};
ghost use Rattle.lift_poly.specs.Arithmetic.{coefficient, sum, times, scaled, quotient, support};
ghost use Rattle.lift_poly.specs.Arithmetic.{DividesEach, IsContent, abs_sum};
ghost use Rattle.lift_poly.specs.MultiAffine.{IsMultiAffine, narrow, product_answer};

use crate::error::PolyError;
use crate::terms::{
    add_each, add_term, common_divisor, have_same_sets, multiple_terms, product_terms, push_kept,
    push_term, quotient_terms, release, sum_terms,
};
use std::alloc::{AllocError, Global};
use std::marker::Model;

/// How many terms a sum in place looks up at most, each of which may move all terms of the other operand.
const FEW: usize = 4;

/// A polynomial in at most 16 parameters that is affine in each of them: a finite map from sets of
/// parameters to whole numbers that aren't 0. Bit i of a set stands for parameter i.
///
/// Each coefficient has a size below 2^125. A polynomial is its terms by ascending set, so two are
/// equal exactly where they have the same coefficient at each set.
#[derive(Drop)]
pub struct MultiAffine {
    terms: Vec<(u16, i128)>,
}

impl Model for MultiAffine {
    ghost Value = { List Term };

    ghost view = { λ p. p.terms.items };

    ghost invariant = { λ p. IsMultiAffine p.terms.items };
}

impl MultiAffine {
    /// The whole number `number`. `Wide` exactly where its size is 2^125 or more.
    pub fn constant(alloc: Global, number: i128) -> Result<MultiAffine, PolyError>
        ensures answer { result ≢ Err PolyError.Memory → result ≡ narrow (constant number) }
        ensures fits { IfOk result IsMultiAffine }
    {
        let mut terms = Vec::new(alloc);
        push_kept(&mut terms, (0, number))?;
        Ok(MultiAffine { terms })
    }

    /// The parameter of this index, below 16.
    pub fn parameter(alloc: Global, index: u32) -> Result<MultiAffine, AllocError>
        requires { index < parameter_limit }
        ensures value { IfOk result (λ p. p ≡ (2 ^ index, pos 1) ∷ []) }
        ensures fits { IfOk result IsMultiAffine }
    {
        let mut terms = Vec::new(alloc);
        push_term(&mut terms, (1 << index, 1))?;
        Ok(MultiAffine { terms })
    }

    /// The polynomial of these terms.
    pub fn from_terms(alloc: Global, terms: &[(u16, i128)]) -> Result<MultiAffine, AllocError>
        requires { IsMultiAffine terms.now }
        ensures { IfOk result (λ p. p ≡ terms.now) }
    {
        let terms = Vec::from_slice(alloc, terms)?;
        Ok(MultiAffine { terms })
    }

    /// The polynomial of these terms, which it keeps. Takes no memory.
    pub fn from_vec(terms: Vec<(u16, i128)>) -> MultiAffine
        requires { IsMultiAffine terms.items }
        ensures { result ≡ terms.items }
    {
        MultiAffine { terms }
    }

    /// The same polynomial.
    pub fn copy(&self, alloc: Global) -> Result<MultiAffine, AllocError>
        ensures value { IfOk result (λ p. p ≡ self.now) }
        ensures fits { IfOk result IsMultiAffine }
    {
        let terms = Vec::from_slice(alloc, &self.terms)?;
        Ok(MultiAffine { terms })
    }

    /// The same polynomial. Memory is given back where more than half of it is free, as after a sum in
    /// place whose terms cancel.
    pub fn compact(self) -> MultiAffine
        ensures { result ≡ self }
    {
        let MultiAffine { mut terms } = self;
        release(&mut terms);
        MultiAffine { terms }
    }

    /// The set of the parameters that occur. Linear in the number of terms.
    pub fn support(&self) -> u16
        ensures { result ≡ support self.now }
    {
        let mut set = 0;
        for term in &self.terms {
            set |= term.0;
        }
        set
    }

    /// The number of terms, at most 2^16. It is 0 for the polynomial 0 alone.
    pub fn len(&self) -> usize
        ensures value { result ≡ length self.now }
        ensures fits { IsMultiAffine self.now }
    {
        self.terms.len()
    }

    /// The term at this place by ascending set: a set and its coefficient.
    pub fn term(&self, index: usize) -> (u16, i128)
        requires { index < length self.now }
        ensures { slice_get self.now index ≡ Some result }
    {
        self.terms[index]
    }

    /// The coefficient at this set, 0 where no term has it. A binary search.
    pub fn coefficient(&self, set: u16) -> i128
        ensures { result ≡ coefficient set self.now }
    {
        match self.terms.binary_search_by_key(&set, |term| term.0) {
            Ok(index) => self.terms[index].1,
            Err(_) => 0,
        }
    }

    /// The greatest common divisor of the coefficients, 0 for the polynomial 0.
    pub fn content(&self) -> u128
        ensures { IsContent self.now result }
    {
        let mut divisor = 0;
        for term in &self.terms {
            divisor = common_divisor(term.1.unsigned_abs(), divisor);
            if divisor == 1 {
                return 1;
            }
        }
        divisor
    }

    /// The sum of the coefficients' sizes.
    pub fn abs_sum(&self) -> i128
        requires { All (λ term. unsigned_abs term.1 < summand_limit) self.now }
        ensures { result ≡ pos (abs_sum self.now) }
    {
        let mut sum: u128 = 0;
        for term in &self.terms {
            sum += term.1.unsigned_abs();
        }
        sum as i128
    }

    /// The sum. `Wide` exactly where one of its coefficients has a size of 2^125 or more. Linear in
    /// the number of terms.
    pub fn add(&self, alloc: Global, other: &MultiAffine) -> Result<MultiAffine, PolyError>
        ensures answer { result ≢ Err PolyError.Memory → result ≡ narrow (sum self.now other.now) }
        ensures fits { IfOk result IsMultiAffine }
    {
        let terms = sum_terms(alloc, &self.terms, &other.terms)?;
        Ok(MultiAffine { terms })
    }

    /// The same sum, made in place. It is fast where the other polynomial has few terms: each is looked
    /// up, and moves the terms behind it.
    pub fn add_few(self, other: &MultiAffine) -> Result<MultiAffine, PolyError>
        ensures answer { result ≢ Err PolyError.Memory → result ≡ narrow (sum self other.now) }
        ensures fits { IfOk result IsMultiAffine }
    {
        let MultiAffine { mut terms } = self;
        for term in &other.terms {
            add_term(&mut terms, *term)?;
        }
        Ok(MultiAffine { terms })
    }

    /// The same sum. It is made in place where the other polynomial has few terms, or terms at the same sets.
    pub fn add_in_place(self, alloc: Global, other: &MultiAffine) -> Result<MultiAffine, PolyError>
        ensures answer { result ≢ Err PolyError.Memory → result ≡ narrow (sum self other.now) }
        ensures fits { IfOk result IsMultiAffine }
    {
        if other.terms.len() <= FEW {
            return self.add_few(other);
        }
        let MultiAffine { mut terms } = self;
        if have_same_sets(&terms, &other.terms) {
            add_each(&mut terms, &other.terms)?;
            return Ok(MultiAffine { terms });
        }
        let terms = sum_terms(alloc, &terms, &other.terms)?;
        Ok(MultiAffine { terms })
    }

    /// The polynomial times a number of size below 2^125. `Wide` exactly where one of the result's
    /// coefficients has a size of 2^125 or more. Linear in the number of terms.
    pub fn scale(&self, alloc: Global, by: i128) -> Result<MultiAffine, PolyError>
        requires { unsigned_abs by < term_limit }
        ensures answer { result ≢ Err PolyError.Memory → result ≡ narrow (scaled by self.now) }
        ensures fits { IfOk result IsMultiAffine }
    {
        self.copy(alloc)?.scale_in_place(by)
    }

    /// The same multiple, made in place.
    pub fn scale_in_place(self, by: i128) -> Result<MultiAffine, PolyError>
        requires { unsigned_abs by < term_limit }
        ensures answer { result ≡ narrow (scaled by self) }
        ensures fits { IfOk result IsMultiAffine }
    {
        let MultiAffine { terms } = self;
        if by == 1 {
            return Ok(MultiAffine { terms });
        }
        let terms = multiple_terms(terms, by)?;
        Ok(MultiAffine { terms })
    }

    /// The product. `SharedParameter` exactly where a parameter occurs in both factors, and else
    /// `Wide` exactly where one of the product's coefficients has a size of 2^125 or more. With n
    /// terms in the product, and m in the factor that has fewer, it takes a time of n log m.
    pub fn mul(&self, alloc: Global, other: &MultiAffine) -> Result<MultiAffine, PolyError>
        ensures answer { result ≢ Err PolyError.Memory
            → result ≡ product_answer self.now other.now }
        ensures fits { IfOk result IsMultiAffine }
    {
        let other = other.copy(alloc)?;
        self.copy(alloc)?.mul_in_place(other)
    }

    /// The same product, made in the memory of the factor that has more terms, as far as it reaches.
    pub fn mul_in_place(self, other: MultiAffine) -> Result<MultiAffine, PolyError>
        ensures answer { result ≢ Err PolyError.Memory → result ≡ product_answer self other }
        ensures fits { IfOk result IsMultiAffine }
    {
        if self.support() & other.support() != 0 {
            return Err(PolyError::SharedParameter);
        }
        let terms = product_terms(self.terms, other.terms)?;
        Ok(MultiAffine { terms })
    }

    /// The polynomial over a divisor of each of its coefficients. Linear in the number of terms,
    /// unless the divisor is 1.
    pub fn divide(self, alloc: Global, by: i128) -> Result<MultiAffine, AllocError>
        requires positive { pos 0 <ℤ by }
        requires divides { DividesEach (unsigned_abs by) self }
        ensures quotient { IfOk result (λ p. p ≡ quotient self by) }
        ensures exact { IfOk result (λ p. times by p ≡ self) }
        ensures fits { IfOk result IsMultiAffine }
    {
        if by == 1 {
            return Ok(self);
        }
        let terms = quotient_terms(alloc, &self.terms, by)?;
        Ok(MultiAffine { terms })
    }
}
