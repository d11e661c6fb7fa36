ghost use Rattle.std.specs.Prelude.{◌≡◌, ◌<◌, ℕ, true, MatchOption};
ghost use Rattle.play_script.specs.Orders.{IsNumber, Names};

use matchstate::are_digits;

/// The number that digits write, below 2 ^ 64.
pub(crate) fn number(bytes: &[u8]) -> Option<u64>
    ensures { MatchOption result ((number : ℕ) → ¬ (IsNumber bytes.now number)) (IsNumber bytes.now) }
{
    if bytes.is_empty() || !are_digits(bytes) {
        return None;
    }
    match str::from_utf8(bytes) {
        Ok(text) => match text.parse::<u64>() {
            Ok(number) => Some(number),
            Err(_) => None,
        },
        Err(_) => None,
    }
}

/// The number of one of so many things.
pub(crate) fn named(bytes: &[u8], count: u64) -> Option<u64>
    ensures { MatchOption result ((number : ℕ) → ¬ (Names count bytes.now number)) (Names count bytes.now) }
{
    match number(bytes) {
        Some(number) if number < count => Some(number),
        _ => None,
    }
}

/// The number of one of so many nodes or seats.
pub(crate) fn place(bytes: &[u8], count: usize) -> Option<usize>
    ensures { MatchOption result ((number : ℕ) → ¬ (Names count bytes.now number)) (Names count bytes.now) }
{
    match named(bytes, count as u64) {
        Some(number) => Some(number as usize),
        None => None,
    }
}
