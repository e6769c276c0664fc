// Whole numbers: division with its rounding, the larger and the smaller of two, how far one is from 0, and Euclid's method.
#![tactic(auto)]

ghost use Rattle.std.specs.Prelude.{◌≡◌, ◌<◌, ◌^◌, nat_abs};
ghost use Rattle.whole.specs.Rounding.{floor_div, ceil_div};
ghost use Rattle.whole.specs.Order.{larger, smaller};
ghost use Rattle.whole.specs.Euclid.{gcd_of};

// x divided by d, rounded down, toward minus infinity.
pub fn floor_div(x: i64, d: u64) -> i64
    requires { (0 < d) × (d < 2 ^ 63) }
    ensures { result ≡ floor_div x d }
{
    x.div_euclid(d as i64)
}

// x divided by d, rounded up, toward plus infinity. The library has no such method of `i64`, and -x may overflow.
pub fn ceil_div(x: i64, d: u64) -> i64
    requires { (0 < d) × (d < 2 ^ 63) }
    ensures { result ≡ ceil_div x d }
{
    let e = d as i64;
    // One division for both signs: with one for each the compiler takes the slow one, of 64 bits, where x is 0.
    let one = if 0 < x { 1 } else { 0 };
    (x - one) / e + one
}

pub fn larger_of(x: i64, y: i64) -> i64
    ensures { result ≡ larger x y }
{
    x.max(y)
}

pub fn smaller_of(x: i64, y: i64) -> i64
    ensures { result ≡ smaller x y }
{
    x.min(y)
}

// How far z is from 0.
pub fn magnitude(z: i64) -> u64
    ensures { result ≡ nat_abs z }
{
    z.unsigned_abs()
}

// The greatest common divisor of a and b, by Euclid's remainders.
pub fn gcd(a: u64, b: u64) -> u64
    ensures { result ≡ gcd_of a b }
{
    let mut x = a;
    let mut y = b;
    // A `while`: each turn goes on with a remainder, and nothing counts the turns up to a length.
    while y != 0 {
        (x, y) = (y, x % y);
    }
    x
}
