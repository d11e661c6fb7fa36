ghost use Rattle.std.specs.Prelude.{◌≡◌, ℕ, ◌^◌, ◌<◌, Some, IfSome, decimal, ◌+◌, ◌*◌, ◌≤◌, ◌++◌, length, vec_len, vec_capacity, List, IsSomeAnd};
ghost use Rattle.std.specs.List.{list_all};
ghost use Rattle.std.specs.Char.{is_ascii_digit};

use crate::bytes::put;
use itoa::Buffer;

/// Appends a number in decimal digits without leading zeros, ten at the most, for which there is room.
pub fn put_number(out: &mut Vec<u8>, number: u32)
    requires { vec_len out.old + 10 ≤ vec_capacity out.old }
    ensures items { out.new.items ≡ out.old.items ++ decimal number }
    ensures len { vec_len out.new ≤ vec_len out.old + 10 }
    ensures capacity { vec_capacity out.old ≤ vec_capacity out.new }
{
    put(out, Buffer::new().format(number).as_bytes());
}

/// What stands behind a number in decimal digits, where it stands in front.
pub(crate) fn after_number(bytes: &[u8], number: u32) -> Option<&[u8]>
    ensures found { IfSome result (λ rest. bytes.now ≡ decimal number ++ rest.now) }
    ensures only { (behind : List ℕ) → bytes.now ≡ decimal number ++ behind → IsSomeAnd result (λ rest. rest.now ≡ behind) }
{
    bytes.strip_prefix(Buffer::new().format(number).as_bytes())
}

/// The number below 2^32 that the bytes write as a decimal without leading zeros; `None` for any other bytes.
pub fn read_number(bytes: &[u8]) -> Option<u32>
    ensures found { IfSome result (λ number. bytes.now ≡ decimal number) }
    ensures only { (number : ℕ) → number < 2 ^ 32 → bytes.now ≡ decimal number → result ≡ Some number }
{
    let Ok(text) = str::from_utf8(bytes) else {
        return None;
    };
    let Ok(number) = text.parse::<u32>() else {
        return None;
    };
    if Buffer::new().format(number).as_bytes() == bytes {
        Some(number)
    } else {
        None
    }
}

/// Whether each of these bytes, of which there may be none, is a decimal digit.
pub fn are_digits(bytes: &[u8]) -> bool
    ensures { result ≡ list_all is_ascii_digit bytes.now }
{
    bytes.iter().all(|byte| byte.is_ascii_digit())
}
