//! The operators of a proposition, and the words that they begin with.

ghost use Rattle.std.specs.Prelude.{◌≡◌, ◌+◌, ◌-◌, ◌*◌, ◌^◌, min};
ghost use Rattle.std.specs.Option.{option_map};
ghost use Rattle.text_grammar.specs.Digits.{value_after};
ghost use Rattle.gdp_grammar.specs.PropReading.{operator_of};
ghost use Rattle.gdp_grammar.specs.PropTexts.{takes as takes_so_many};
ghost use Rattle.prop_reader.specs.steps.Operators.{operator_value, word_value, operator_number};

/// How a counting operator compares how many of its arguments are true with its number.
#[derive(Clone, Copy)]
pub enum Counting {
    Exactly,
    AtLeast,
    AtMost,
}

/// An operator, a counting one with the digits of its number.
#[derive(Clone, Copy)]
pub enum Operator<'a> {
    Not,
    And,
    Or,
    Implies,
    Equivalent,
    Xor,
    Counted(Counting, &'a [u8]),
}

/// A word that an operator begins with: that of one without a number, or of a counting one.
#[derive(Clone, Copy)]
pub enum OperatorWord<'a> {
    Plain(Operator<'a>),
    Number(Counting),
}

/// What the word begins, if an operator begins with it.
pub fn operator_word<'a>(word: &str) -> Option<OperatorWord<'a>>
    ensures { option_map word_value result ≡ operator_of word.now }
{
    match word {
        "not" => Some(OperatorWord::Plain(Operator::Not)),
        "and" => Some(OperatorWord::Plain(Operator::And)),
        "or" => Some(OperatorWord::Plain(Operator::Or)),
        "implies" => Some(OperatorWord::Plain(Operator::Implies)),
        "equivalent" => Some(OperatorWord::Plain(Operator::Equivalent)),
        "xor" => Some(OperatorWord::Plain(Operator::Xor)),
        "exactly" => Some(OperatorWord::Number(Counting::Exactly)),
        "atleast" => Some(OperatorWord::Number(Counting::AtLeast)),
        "atmost" => Some(OperatorWord::Number(Counting::AtMost)),
        _ => None,
    }
}

/// Whether the operator takes that many arguments.
pub fn takes(operator: &Operator<'_>, count: usize) -> bool
    ensures { result ≡ takes_so_many (operator_value operator.now) count }
{
    match operator {
        Operator::Not => count == 1,
        Operator::Implies | Operator::Equivalent | Operator::Xor => count == 2,
        Operator::And | Operator::Or | Operator::Counted(_, _) => count >= 1,
    }
}

/// The number of a counting operator, and 0 of another. It stays at the last of its type where it is more.
pub fn number_in(operator: &Operator<'_>) -> u32
    ensures { result ≡ operator_number (operator_value operator.now) }
{
    match operator {
        Operator::Counted(_, digits) => number_of(digits),
        _ => 0,
    }
}

/// The number that digits spell, or the last of its type where it is more.
pub fn number_of(digits: &[u8]) -> u32
    ensures { result ≡ min (value_after 0 digits.now) (2 ^ 32 - 1) }
{
    let mut number = 0;
    'digits: for digit in digits {
        number = push_digit(number, *digit);
    }
    number
}

/// The number and one digit more.
fn push_digit(number: u32, digit: u8) -> u32
    ensures { result ≡ min (number * 10 + (digit - 48)) (2 ^ 32 - 1) }
{
    number
        .saturating_mul(10)
        .saturating_add(u32::from(digit.saturating_sub(b'0')))
}
