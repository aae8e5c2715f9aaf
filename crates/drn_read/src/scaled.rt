// The polynomials over the common denominator, each made once for the values that it stands for.
ghost use Rattle.std.specs.Prelude.{◌≡◌, ◌≢◌, ℕ, [], Some, IfOk, IfSome, IsTrue, slice_get};
ghost use Rattle.std.specs.List.{list_any};
ghost use Rattle.std.specs.Option.{option_map};
ghost use Rattle.drn_read.specs.Faults.{when};
ghost use Rattle.drn_read.specs.Reading.{scaled};
ghost use Rattle.drn_read.specs.declared.error.DrnCause.TheVariants.{CommonDenominator};
ghost use Rattle.drn_read.specs.Shown.{Tells, is_over};
ghost use Rattle.drn_read.specs.Scaling.{AreScaled, IsScaled, value_and_poly};

use crate::error::DrnCause;
use crate::shared::SharedValue;
use drn_expr::RatPoly;
use lift_model::{SharedPoly, is_same};
use lift_poly::{MultiAffine, PolyError};
use std::alloc::{AllocError, Global};

/// The size from which on a coefficient over the common denominator is too large.
const COEFFICIENT_LIMIT: u128 = 1 << 100;

/// How many polynomials are kept.
const MOST_POLYS: usize = 256;

/// Whether a coefficient is too large.
fn has_large(poly: &MultiAffine) -> bool
    ensures { result ≡ list_any is_over poly.now }
{
    for i in 0..poly.len() {
        if poly.term(i).1.unsigned_abs() >= COEFFICIENT_LIMIT {
            return true;
        }
    }
    false
}

/// How a fault of a polynomial is told: one whose coefficient is too wide is too large all the
/// more.
fn cause_of(error: PolyError) -> DrnCause
    ensures memory { error ≡ PolyError.Memory → result ≡ DrnCause.Memory }
    ensures wide { error ≢ PolyError.Memory → result ≡ CommonDenominator }
{
    match error {
        PolyError::Memory => DrnCause::Memory,
        _ => DrnCause::CommonDenominator,
    }
}

/// A value's polynomial over the common denominator, which is a multiple of the value's own.
/// `CommonDenominator` exactly where a coefficient is too large.
fn scaled(alloc: Global, common: u64, value: &RatPoly) -> Result<MultiAffine, DrnCause>
    ensures fault { Tells result
        (when (list_any is_over (scaled common value.now)) CommonDenominator) }
    ensures poly { IfOk result (λ p. p ≡ scaled common value.now) }
{
    let factor = common / value.den() as u64;
    let poly = match value.poly().scale(alloc, i128::from(factor)) {
        Ok(poly) => poly,
        Err(error) => return Err(cause_of(error)),
    };
    if has_large(&poly) {
        return Err(DrnCause::CommonDenominator);
    }
    Ok(poly)
}

/// Whether two values are the same.
fn are_same(left: &RatPoly, right: &RatPoly) -> bool
    ensures { IsTrue result → left.now ≡ right.now }
{
    left.den() == right.den() && is_same(left.poly(), right.poly())
}

/// A hash of a value.
fn hash_of(value: &RatPoly) -> u8 {
    let mut hash = value.den() as u64;
    let poly = value.poly();
    for i in 0..poly.len() {
        let (set, number) = poly.term(i);
        hash = hash.rotate_left(5) ^ (number.unsigned_abs() as u64) ^ (u64::from(set) << 32);
    }
    hash.wrapping_mul(0x9E37_79B9_7F4A_7C15).to_be_bytes()[0]
}

/// A value, and its polynomial over the common denominator.
#[derive(Drop)]
pub(crate) struct ScaledPoly {
    pub value: SharedValue,
    pub poly: SharedPoly,
}

/// The polynomials that were made last over the common denominator, found by hashes of their values.
#[derive(Drop)]
pub(crate) struct ScaledPolys {
    pub kept: Vec<ScaledPoly>,
    pub places: [u8; 256],
}

impl ScaledPolys {
    /// No polynomial was made yet. It takes no memory.
    pub fn new(alloc: Global) -> Self
        ensures { result.kept.items ≡ [] }
    {
        ScaledPolys {
            kept: Vec::new(alloc),
            places: [0; 256],
        }
    }

    /// The polynomial at a place, where it is that of this value.
    fn find(&self, place: usize, value: &RatPoly) -> Option<&SharedPoly>
        ensures { IfSome result (λ poly. option_map value_and_poly (slice_get self.now.kept.items place)
            ≡ Some (value.now, poly.now)) }
    {
        let scaled = self.kept.get(place)?;
        if are_same(&scaled.value, value) {
            Some(&scaled.poly)
        } else {
            None
        }
    }

    /// One more polynomial that is kept, in place of another where there are many.
    fn keep(&mut self, hash: u8, scaled: ScaledPoly) -> Result<(), AllocError>
        ensures { (common : ℕ) → AreScaled common self.old.kept.items → IsScaled common scaled
            → AreScaled common self.new.kept.items }
    {
        if self.kept.len() < MOST_POLYS {
            self.places[hash as usize] = self.kept.len() as u8;
            self.kept.push(scaled)?;
        } else {
            let place = self.places[hash as usize] as usize;
            self.kept[place] = scaled;
        }
        Ok(())
    }

    /// A value's polynomial over the common denominator. It is made only where it isn't one of those that are
    /// kept. `CommonDenominator` exactly where a coefficient is too large.
    pub fn poly_of(
        &mut self,
        alloc: Global,
        common: u64,
        value: &SharedValue,
    ) -> Result<SharedPoly, DrnCause>
        requires { AreScaled common self.old.kept.items }
        ensures fault { Tells result
            (when (list_any is_over (scaled common value.now)) CommonDenominator) }
        ensures poly { IfOk result (λ p. p ≡ scaled common value.now) }
        ensures scaled { AreScaled common self.new.kept.items }
    {
        let hash = hash_of(value);
        let place = self.places[hash as usize] as usize;
        if let Some(poly) = self.find(place, value) {
            return Ok(poly.share()?);
        }
        let poly = SharedPoly::new(alloc, scaled(alloc, common, value)?)?;
        let made = ScaledPoly {
            value: value.share()?,
            poly: poly.share()?,
        };
        self.keep(hash, made)?;
        Ok(poly)
    }
}
