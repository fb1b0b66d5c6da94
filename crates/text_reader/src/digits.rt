//! Numbers by their digits.

ghost use Rattle.std.specs.Prelude.{◌≡◌, ◌+◌, ◌-◌, ◌*◌, ◌^◌, ◌≤◌, IfSome, IfNone};
ghost use Rattle.std.specs.List.{list_all};
ghost use Rattle.text_grammar.specs.Bytes.{is_digit};
ghost use Rattle.text_grammar.specs.Digits.{value_of};
ghost use Rattle.text_reader.specs.Naturals.{natural_of};

/// The number and one digit more, below 2^128.
fn push_digit(size: u128, digit: u8) -> Option<u128>
    ensures some { IfSome result (λ n. n ≡ size * 10 + (digit - 48)) }
    ensures none { IfNone result (2 ^ 128 ≤ size * 10 + (digit - 48)) }
{
    size.checked_mul(10)?
        .checked_add(u128::from(digit.saturating_sub(b'0')))
}

/// The number that digits spell, below 2^128. A byte that is no digit counts as one, by its place behind `0`.
pub fn size_of(digits: &[u8]) -> Option<u128>
    ensures some { IfSome result (λ n. n ≡ value_of digits.now) }
    ensures none { IfNone result (2 ^ 128 ≤ value_of digits.now) }
{
    let mut size = 0;
    'digits: for digit in digits {
        match push_digit(size, *digit) {
            Some(more) => size = more,
            None => return None,
        }
    }
    Some(size)
}

/// Whether each byte is a digit.
fn are_digits(word: &[u8]) -> bool
    ensures { result ≡ list_all is_digit word.now }
{
    word.iter().all(|byte| byte.is_ascii_digit())
}

/// The number that a word of digits alone spells, zeros in front allowed, if it is at most this one.
pub fn natural(word: &[u8], greatest: u64) -> Option<u64>
    ensures { result ≡ natural_of greatest word.now }
{
    if word.is_empty() || !are_digits(word) {
        return None;
    }
    match size_of(word) {
        Some(size) if size <= u128::from(greatest) => Some(size as u64),
        _ => None,
    }
}
