//! Divisors and multiples of integers.

ghost use Rattle.std.specs.Prelude.{
  ◌≡◌,
  ◌≢◌,
  ◌≤◌,
  ◌<◌,
  ◌^◌,
  ℕ,
  pos,
  ◌*ℤ◌,
  ◌<ℤ◌,
  unsigned_abs,
  IfSome,
  IfNone,
};
ghost use Rattle.std.specs.Int.{IsGcd, ◌∣◌};
ghost use Rattle.fractions.specs.Divisors.{IsLcm};

/// The greatest common divisor of the magnitudes, 0 where both are 0.
pub fn gcd(a: i128, b: i128) -> u128
    ensures { IsGcd (unsigned_abs a) (unsigned_abs b) result }
{
    gcd_of_magnitudes(a.unsigned_abs(), b.unsigned_abs())
}

/// The greatest common divisor, by words of 64 bits where both numbers are.
pub fn gcd_of_magnitudes(a: u128, b: u128) -> u128
    ensures { IsGcd a b result }
{
    if a < 0x1_0000_0000_0000_0000 && b < 0x1_0000_0000_0000_0000 {
        return u128::from(gcd_of_words(a as u64, b as u64));
    }
    gcd_of_wide(a, b)
}

fn gcd_of_words(a: u64, b: u64) -> u64
    ensures { IsGcd a b result }
{
    let mut x = a;
    let mut y = b;
    while y != 0 {
        let rest = x % y;
        x = y;
        y = rest;
    }
    x
}

fn gcd_of_wide(a: u128, b: u128) -> u128
    ensures { IsGcd a b result }
{
    let mut x = a;
    let mut y = b;
    while y != 0 {
        let rest = x % y;
        x = y;
        y = rest;
    }
    x
}

/// The greatest common divisor, with the sign of `a`, so that `a` over it is positive.
pub fn divisor_of_both(a: i128, b: i128) -> i128
    requires { a ≢ pos 0 }
    ensures divisor { IsGcd (unsigned_abs a) (unsigned_abs b) (unsigned_abs result) }
    ensures positive { pos 0 <ℤ a → pos 0 <ℤ result }
    ensures negative { a <ℤ pos 0 → result <ℤ pos 0 }
{
    with_sign_of(a, gcd(a, b))
}

// The number with this magnitude, and the sign of the other.
fn with_sign_of(other: i128, size: u128) -> i128
    requires some { 0 < size }
    requires fits { size ≤ unsigned_abs other }
    ensures size { unsigned_abs result ≡ size }
    ensures positive { pos 0 <ℤ other → pos 0 <ℤ result }
    ensures negative { other <ℤ pos 0 → result <ℤ pos 0 }
{
    if other < 0 {
        -((size - 1) as i128) - 1
    } else {
        size as i128
    }
}

/// `a` over a positive divisor of it.
pub fn exact_quotient(a: i128, divisor: i128) -> i128
    requires positive { pos 0 <ℤ divisor }
    requires divides { unsigned_abs divisor ∣ unsigned_abs a }
    ensures { result *ℤ divisor ≡ a }
{
    if divisor == 1 {
        return a;
    }
    a / divisor
}

/// The least common multiple of two positive numbers, or None where it is past `i128::MAX`.
pub fn lcm(a: i128, b: i128) -> Option<i128>
    requires a_positive { pos 0 <ℤ a }
    requires b_positive { pos 0 <ℤ b }
    ensures positive { IfSome result (λ multiple. pos 0 <ℤ multiple) }
    ensures least { IfSome result
        (λ multiple. IsLcm (unsigned_abs a) (unsigned_abs b) (unsigned_abs multiple)) }
    ensures past { IfNone result
        ((multiple : ℕ) × (2 ^ 127 ≤ multiple) × IsLcm (unsigned_abs a) (unsigned_abs b) multiple) }
{
    let divisor = divisor_of_both(b, a);
    a.checked_mul(exact_quotient(b, divisor))
}
