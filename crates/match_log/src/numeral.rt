ghost use Rattle.std.specs.Prelude.{◌≡◌, ℕ, ◌≤◌, ◌<◌, ◌↔◌, ◌%◌, List, IsTrue, length, true};
ghost use Rattle.std.specs.List.{AllByRecursion};
ghost use Rattle.std.specs.Char.{is_ascii_digit};
ghost use Rattle.std.specs.Str.Parse.{digits_value};
ghost use Rattle.match_log.specs.Numeral.{IsDecimal, IsWhole};
ghost use Rattle.match_log.specs.Lines.{with_bars};

use matchstate::{are_digits, cut};

/// Whether a text is a decimal, however long.
pub(crate) fn is_decimal(bytes: &[u8]) -> bool
    ensures { IsTrue result ↔ IsDecimal bytes.now }
{
    if bytes.is_empty() {
        return false;
    }
    if bytes.len() > 1 && bytes[0] == b'0' {
        return false;
    }
    are_digits(bytes)
}

/// Whether a text is a whole number, however long.
pub(crate) fn is_whole(bytes: &[u8]) -> bool
    ensures { IsTrue result ↔ IsWhole bytes.now }
{
    match bytes {
        b"-0" => false,
        [b'-', digits @ ..] => is_decimal(digits),
        _ => is_decimal(bytes),
    }
}

/// Whether a text is so many whole numbers with `|` between them.
pub(crate) fn are_values(bytes: &[u8], count: usize) -> bool
    requires { 1 ≤ count }
    ensures { IsTrue result ↔ ((values : List (List ℕ)) × (length values ≡ count) × AllByRecursion IsWhole values × (bytes.now ≡ with_bars values)) }
{
    if count == 1 {
        return is_whole(bytes);
    }
    match cut(bytes, b'|') {
        Some((first, later)) => is_whole(first) && are_values(later, count - 1),
        None => false,
    }
}

/// What a decimal's number leaves when it is divided by a small one.
pub(crate) fn remainder(digits: &[u8], divisor: usize) -> usize
    requires digits { AllByRecursion (λ byte. is_ascii_digit byte ≡ true) digits.now }
    requires some { 1 ≤ divisor }
    requires small { divisor ≤ 10 }
    ensures value { result ≡ digits_value 10 digits.now % divisor }
{
    let mut left = 0;
    for digit in digits {
        left = (left * 10 + (*digit - b'0') as usize) % divisor;
    }
    left
}
