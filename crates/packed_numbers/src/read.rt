//! Numbers are read from bytes.

ghost use Rattle.std.specs.Prelude.{◌≡◌, ◌<◌, ◌^◌};
ghost use Rattle.std.specs.Int.RustNames.{FitsSigned};
ghost use mir.Syntax.{w128};
ghost use Rattle.packed_numbers.specs.Packed.{natural_in, number_in, unfolded, ReadsAgain};

// The natural number that the bytes begin with, and the bytes behind it.
fn read_wide(bytes: &[u8]) -> (u128, &[u8])
    requires { (natural_in bytes.now).0 < 2 ^ 128 }
    ensures number { result.0 ≡ (natural_in bytes.now).0 }
    ensures rest { result.1.now ≡ (natural_in bytes.now).1 }
{
    match bytes {
        [] => (0, bytes),
        [first, behind @ ..] => {
            let digit = u128::from(*first);
            if digit < 128 {
                return (digit, behind);
            }
            let (high, rest) = read_wide(behind);
            (128 * high + (digit - 128), rest)
        }
    }
}

/// The natural number of 64 bits that the bytes begin with, and the bytes behind it.
pub fn read_natural(bytes: &[u8]) -> (u64, &[u8])
    requires { (natural_in bytes.now).0 < 2 ^ 64 }
    ensures number { result.0 ≡ (natural_in bytes.now).0 }
    ensures rest { result.1.now ≡ (natural_in bytes.now).1 }
{
    let (number, rest) = read_wide(bytes);
    (number as u64, rest)
}

// The whole number that is folded so.
pub(crate) fn unfold(number: u128) -> i128
    ensures { result ≡ unfolded number }
{
    let half = (number / 2) as i128;
    if number % 2 == 0 { half } else { -half - 1 }
}

/// The whole number of 128 bits that the bytes begin with, and the bytes behind it.
#[tactic(auto, using(crate::proofs::Reading::unfolds_narrow))]
pub fn read_number(bytes: &[u8]) -> (i128, &[u8])
    requires { FitsSigned w128 (number_in bytes.now).0 }
    ensures number { result.0 ≡ (number_in bytes.now).0 }
    ensures rest { result.1.now ≡ (number_in bytes.now).1 }
{
    let (number, rest) = read_wide(bytes);
    (unfold(number), rest)
}

/// What was packed is read again.
#[tactic(auto, using(crate::proofs::Reading::reads_natural, crate::proofs::Reading::reads_number))]
pub fn reads_again()
    ensures { ReadsAgain }
{}
