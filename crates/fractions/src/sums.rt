//! Sums of products, one step at a time.

ghost use Rattle.std.specs.Prelude.{◌≡◌, true, false, ◌+ℤ◌, ◌*ℤ◌, MatchOption};
ghost use Rattle.fractions.specs.Width.{step_fits};

/// The next partial sum of a sum of products, or None where the product or that sum is wide.
pub fn add_product(sum: i128, a: i128, b: i128) -> Option<i128>
    ensures { MatchOption result (step_fits sum a b ≡ false)
        (λ next. (step_fits sum a b ≡ true) × (next ≡ sum +ℤ a *ℤ b)) }
{
    let product = a.checked_mul(b)?;
    sum.checked_add(product)
}
