ghost use Rattle.std.specs.Prelude.{◌≡◌, ◌==◌, drop, slice_index_or, if◌then◌else◌, ◌≤◌, ◌<◌, ◌*◌, ◌^◌, ◌++◌, ◌∷◌, [], ◌/◌, ◌%◌, ◌*ℤ◌, ◌<ℤ◌, ℤ, pos, length, unsigned_abs};
ghost use Rattle.lift_poly.specs.Polynomial.{factor};
ghost use Rattle.lift_poly.specs.Arithmetic.{abs_sum};
ghost use Rattle.lift_grid.specs.Rectangle.{spans_of};
ghost use Rattle.lift_model.specs.Valid.{most_parameters};
ghost use Rattle.corner_lift.specs.Corner.{parameter_count, corner as corner_point};
ghost use Rattle.corner_lift.specs.Case.{greatest_size, engine_limit, most_row_parameters};
ghost use Rattle.corner_lift.specs.Ends.{product_at, weight_at, StandFor, IsPair, greatest_end, ends_from, present_part, absent_part};

use lift_grid::rows_are_rectangles;
use lift_poly::MultiAffine;

/// The parameters of a row in ascending order, each with the end that a corner chooses for it. At most
/// 4.
#[derive(Drop)]
pub(crate) struct Ends {
    chosen: [(u32, i64); 4],
    count: usize,
}

impl std::marker::Model for Ends {
    ghost use Rattle.std.specs.Prelude.{List, ℕ, ℤ, ◌≤◌, ◌<◌, take, All};
    ghost use Rattle.lift_model.specs.Valid.{most_parameters};
    ghost use Rattle.corner_lift.specs.Case.{most_row_parameters};

    ghost Value = { List (ℕ × ℤ) };

    ghost view = { λ e. take e.count e.chosen };

    ghost invariant = { λ e. (e.count ≤ most_row_parameters) × All (λ end. end.0 < most_parameters) (take e.count e.chosen) };
}

/// The end of a parameter that is in the set, and `d` for one that isn't.
fn factor_of(set: u16, parameter: u32, end: i64, d: i64) -> i64
    requires { parameter < most_parameters }
    ensures { result ≡ factor (set / 2 ^ parameter % 2) (end, d) }
{
    if (set >> parameter) % 2 == 1 { end } else { d }
}

/// Whether the parameter is in the set.
fn has(set: u16, parameter: u32) -> bool
    requires { parameter < most_parameters }
    ensures { result ≡ (set / 2 ^ parameter % 2 == 1) }
{
    (set >> parameter) % 2 == 1
}

/// A weight and 0: first what has a parameter, then what doesn't have it.
fn sorted(weight: i128, has: bool) -> (i128, i128)
    ensures present { result.0 ≡ (if has then weight else pos 0) }
    ensures absent { result.1 ≡ (if has then pos 0 else weight) }
{
    if has { (weight, 0) } else { (0, weight) }
}

impl Ends {
    /// No parameter.
    fn none() -> Ends
        ensures { result ≡ [] }
    {
        Ends {
            chosen: [(0, 0); 4],
            count: 0,
        }
    }

    /// Adds a parameter with its end.
    fn push(&mut self, parameter: u32, end: i64)
        requires room { length self.old < most_row_parameters }
        requires parameter { parameter < most_parameters }
        ensures { self.new ≡ self.old ++ (parameter, end) ∷ [] }
    {
        self.chosen[self.count] = (parameter, end);
        self.count += 1;
    }

    /// The ends that a corner of the parameter set chooses. Looks at each parameter up to the greatest
    /// of the set.
    pub(crate) fn at(sides: &[i64], support: u16, corner: u32) -> Ends
        requires pairs { support < 2 ^ length (spans_of sides.now) }
        requires few { parameter_count (spans_of sides.now) support ≤ most_row_parameters }
        ensures chosen { result ≡ ends_from 0 (spans_of sides.now) support corner }
        ensures stand { (d : ℤ) → StandFor d result (corner_point d (spans_of sides.now) support corner) support }
        ensures count { length result ≡ parameter_count (spans_of sides.now) support }
        ensures sizes { (d : ℤ) → greatest_end d result ≤ greatest_size d (spans_of sides.now) }
    {
        rows_are_rectangles();
        let mut ends = Ends::none();
        let mut left = support;
        let mut bits = corner;
        let mut parameter = 0u32;
        while left != 0 {
            if left % 2 == 1 {
                ends.push(parameter, sides[(2 * parameter + bits % 2) as usize]);
                bits /= 2;
            }
            left /= 2;
            parameter += 1;
        }
        ends
    }

    /// The coefficient times the product over the parameters: the end of one that is in the set, else
    /// `d`.
    fn product(&self, d: i64, set: u16, coefficient: i128) -> i128
        requires positive { pos 0 <ℤ d }
        requires room { unsigned_abs coefficient * greatest_end d self.now ^ length self.now < engine_limit }
        ensures { result ≡ coefficient *ℤ product_at d self.now set }
    {
        let mut product = coefficient;
        for (parameter, end) in &self.chosen[..self.count] {
            product *= i128::from(factor_of(set, *parameter, *end, d));
        }
        product
    }

    /// What the polynomial weighs here. A multiplication for each parameter and term.
    pub(crate) fn weight(&self, d: i64, poly: &MultiAffine) -> i128
        requires positive { pos 0 <ℤ d }
        requires room { abs_sum poly.now * greatest_end d self.now ^ length self.now < engine_limit }
        ensures value { result ≡ weight_at d self.now poly.now }
        ensures size { unsigned_abs result ≤ abs_sum poly.now * greatest_end d self.now ^ length self.now }
    {
        let mut sum = 0;
        for index in 0..poly.len() {
            let (set, coefficient) = poly.term(index);
            sum += self.product(d, set, coefficient);
        }
        sum
    }

    /// The first parameter with its end.
    pub(crate) fn first(&self) -> (u32, i64)
        requires { 1 ≤ length self.now }
        ensures value { result ≡ slice_index_or self.now 0 (0, pos 0) }
        ensures parameter { result.0 < most_parameters }
    {
        self.chosen[0]
    }

    /// The ends of the other parameters.
    pub(crate) fn rest(&self) -> Ends
        requires { 1 ≤ length self.now }
        ensures { result ≡ drop 1 self.now }
    {
        let [_, second, third, fourth] = self.chosen;
        Ends {
            chosen: [second, third, fourth, (0, 0)],
            count: self.count - 1,
        }
    }

    /// What the terms weigh that have one parameter more, over its end, and over `d` what the others
    /// weigh.
    pub(crate) fn parts(&self, parameter: u32, d: i64, poly: &MultiAffine) -> (i128, i128)
        requires parameter { parameter < most_parameters }
        requires positive { pos 0 <ℤ d }
        requires room { abs_sum poly.now * greatest_end d self.now ^ length self.now < engine_limit }
        ensures present { result.0 ≡ present_part d parameter self.now poly.now }
        ensures absent { result.1 ≡ absent_part d parameter self.now poly.now }
    {
        let (mut present, mut absent) = (0, 0);
        for index in 0..poly.len() {
            let (set, coefficient) = poly.term(index);
            let weight = self.product(d, set, coefficient);
            let (more, other) = sorted(weight, has(set, parameter));
            present += more;
            absent += other;
        }
        (present, absent)
    }
}
