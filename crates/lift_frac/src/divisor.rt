ghost use Rattle.std.specs.Prelude.{◌≡◌, ◌<◌, ◌≤◌};
ghost use Rattle.std.specs.Int.{IsGcd};
ghost use Rattle.lift_frac.specs.Gcd.{gcd, lcm};

/// The greatest common divisor; 0 where both numbers are 0. Fewer than 190 remainders.
pub fn gcd(a: u128, b: u128) -> u128
    ensures value { result ≡ gcd a b }
    ensures divides { IsGcd a b result }
    ensures positive { 0 < b → 0 < result }
    ensures small { 0 < b → result ≤ b }
{
    let mut a = a;
    let mut b = b;
    while b != 0 {
        (a, b) = (b, a % b);
    }
    a
}

/// The least common multiple of a number and one above 0.
pub fn lcm(a: u64, b: u64) -> u128
    requires { 0 < b }
    ensures value { result ≡ lcm a b }
    ensures at_least { a ≤ result }
{
    let (a, b) = (u128::from(a), u128::from(b));
    a / gcd(a, b) * b
}
