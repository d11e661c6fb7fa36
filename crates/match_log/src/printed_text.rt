ghost use Rattle.std.specs.Prelude.{◌≡◌, ℕ, ◌++◌, ◌↔◌, List, IfSome, IsSomeAnd, IsTrue, decimal};
ghost use Rattle.std.specs.Fmt.{signed_decimal};
ghost use Rattle.match_log.specs.Lines.{bar_before, values_field, names_field, score_text};

use crate::front::after;
use crate::name::Name;
use itoa::Buffer;

/// What stands behind these amounts with `|` between them; none where they don't stand in front.
pub(crate) fn after_values<'a>(bytes: &'a [u8], values: &[i64]) -> Option<&'a [u8]>
    ensures found { IfSome result (λ behind. bytes.now ≡ values_field values.now ++ behind.now) }
    ensures only { (behind : List ℕ) → bytes.now ≡ values_field values.now ++ behind → IsSomeAnd result (λ rest. rest.now ≡ behind) }
{
    let mut rest = bytes;
    for (place, amount) in values.iter().enumerate() {
        rest = after_amount(after_bar(rest, place)?, *amount)?;
    }
    Some(rest)
}

/// What stands behind these names with `|` between them; none where they don't stand in front.
pub(crate) fn after_names<'a>(bytes: &'a [u8], names: &[Name]) -> Option<&'a [u8]>
    ensures found { IfSome result (λ behind. bytes.now ≡ names_field names.now ++ behind.now) }
    ensures only { (behind : List ℕ) → bytes.now ≡ names_field names.now ++ behind → IsSomeAnd result (λ rest. rest.now ≡ behind) }
{
    let mut rest = bytes;
    for (place, name) in names.iter().enumerate() {
        rest = after(after_bar(rest, place)?, name.as_bytes())?;
    }
    Some(rest)
}

/// What stands behind the `|` in front of all pieces but the first.
fn after_bar(bytes: &[u8], place: usize) -> Option<&[u8]>
    ensures found { IfSome result (λ behind. bytes.now ≡ bar_before place ++ behind.now) }
    ensures only { (behind : List ℕ) → bytes.now ≡ bar_before place ++ behind → IsSomeAnd result (λ rest. rest.now ≡ behind) }
{
    if place > 0 {
        after(bytes, b"|")
    } else {
        Some(bytes)
    }
}

/// What stands behind an amount.
fn after_amount(bytes: &[u8], amount: i64) -> Option<&[u8]>
    ensures found { IfSome result (λ behind. bytes.now ≡ signed_decimal amount ++ behind.now) }
    ensures only { (behind : List ℕ) → bytes.now ≡ signed_decimal amount ++ behind → IsSomeAnd result (λ rest. rest.now ≡ behind) }
{
    after(bytes, Buffer::new().format(amount).as_bytes())
}

/// What stands behind the score's line; none where it doesn't stand in front.
pub(crate) fn after_score<'a>(bytes: &'a [u8], totals: &[i64], names: &[Name]) -> Option<&'a [u8]>
    ensures found { IfSome result (λ behind. bytes.now ≡ score_text totals.now names.now ++ behind.now) }
    ensures only { (behind : List ℕ) → bytes.now ≡ score_text totals.now names.now ++ behind → IsSomeAnd result (λ rest. rest.now ≡ behind) }
{
    let values = after(bytes, b"SCORE:")?;
    let colon = after_values(values, totals)?;
    let listed = after(colon, b":")?;
    let line_feed = after_names(listed, names)?;
    after(line_feed, b"\n")
}

/// Whether a text is just these amounts with `|` between them.
pub(crate) fn are_values_printed(bytes: &[u8], values: &[i64]) -> bool
    ensures { IsTrue result ↔ bytes.now ≡ values_field values.now }
{
    match after_values(bytes, values) {
        Some(behind) => behind.is_empty(),
        None => false,
    }
}

/// Whether a text is just this number.
pub(crate) fn is_number_printed(bytes: &[u8], number: u32) -> bool
    ensures { IsTrue result ↔ bytes.now ≡ decimal number }
{
    bytes == Buffer::new().format(number).as_bytes()
}
