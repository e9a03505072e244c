// Lowest terms.

ghost use Rattle.std.specs.Prelude.{◌≡◌, ℕ, ◌<◌, ◌≤◌, ◌*◌, ◌^◌, pos, ◌<ℤ◌, ◌≤ℤ◌, unsigned_abs};
ghost use Rattle.std.specs.Int.{IsGcd};
ghost use Rattle.tv_fraction.specs.Coprime.{AreCoprime};

/// The greatest common divisor of numbers of 64 bits, by Euclid's algorithm.
fn short_gcd(a: u64, b: u64) -> u64
    ensures { IsGcd a b result }
{
    let mut x = a;
    let mut y = b;
    'steps: while y != 0 {
        let rest = x % y;
        x = y;
        y = rest;
    }
    x
}

/// The greatest common divisor of any number and one of 64 bits.
fn mixed_gcd(a: u128, b: u64) -> u128
    ensures { IsGcd a b result }
{
    if b == 0 {
        return a;
    }
    if a < 1 << 64 {
        return short_gcd(a as u64, b) as u128;
    }
    short_gcd(b, (a % b as u128) as u64) as u128
}

/// The greatest common divisor, by Euclid's algorithm; that of 0 and 0 is 0.
///
/// It goes on with numbers of 64 bits as soon as the second is one.
pub fn gcd(a: u128, b: u128) -> u128
    ensures { IsGcd a b result }
{
    let mut x = a;
    let mut y = b;
    'steps: while y >= 1 << 64 {
        let rest = x % y;
        x = y;
        y = rest;
    }
    mixed_gcd(x, y as u64)
}

/// Both numbers divided by their greatest common divisor.
pub fn lowest_terms(a: u128, b: u128) -> (u128, u128)
    requires { 0 < b }
    ensures same_ratio { result.0 * b ≡ a * result.1 }
    ensures positive { 0 < result.1 }
    ensures coprime { AreCoprime result.0 result.1 }
    ensures first_bound { result.0 ≤ a }
    ensures second_bound { result.1 ≤ b }
{
    let common = gcd(a, b);
    if common == 1 {
        return (a, b);
    }
    (a / common, b / common)
}

/// The number of this magnitude that has the sign of another.
pub fn with_sign(of: i128, magnitude: u128) -> i128
    requires { magnitude < 2 ^ 127 }
    ensures magnitude { unsigned_abs result ≡ magnitude }
    ensures negative { of <ℤ pos 0 → result ≤ℤ pos 0 }
    ensures other { pos 0 ≤ℤ of → pos 0 ≤ℤ result }
{
    if of < 0 {
        return -(magnitude as i128);
    }
    magnitude as i128
}
