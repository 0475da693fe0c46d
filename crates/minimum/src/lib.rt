// The lesser of two numbers, by the order of floats. A number stands in a float, and is compared and taken out again; nothing is computed with floats. Patterns of floats, and
// what is added to a number for one, are known here alone.
#![tactic(auto)]

ghost use Rattle.std.specs.Prelude.{◌≡◌, ℕ, ◌^◌, ◌<◌, min};
ghost use Rattle.minimum.specs.Floats.{Holds};

// What is added to each number.
const BIAS: u64 = 1 << 60;

// The float that a number stands in.
pub fn float_of(n: u64) -> f64
    requires { n < 2 ^ 61 }
    ensures { Holds result n }
{
    f64::from_bits(n + BIAS)
}

// The lesser of two floats, which is that of the lesser number. By one comparison: `f64::min` tests for a NaN besides.
pub fn lesser(a: f64, b: f64) -> f64
    requires { ((m : ℕ) × Holds a m) × ((n : ℕ) × Holds b n) }
    ensures { (m n : ℕ) → Holds a m → Holds b n → Holds result (min m n) }
{
    if b < a { b } else { a }
}

// The number that stands in a float.
pub fn number_of(x: f64) -> u64
    requires { (n : ℕ) × Holds x n }
    ensures { (n : ℕ) → Holds x n → result ≡ n }
{
    x.to_bits() - BIAS
}
