ghost use Rattle.std.specs.Prelude.{◌≡◌, ℕ, ◌≤◌, ◌∷◌, ◌++◌, ◌==◌, ◌↔◌, List, IfSome, IsSomeAnd, IsNone, length, not};
ghost use Rattle.std.specs.List.{prefix_len};
ghost use Rattle.matchstate.specs.Free.{IsFreeOf};

/// What stands before the first such byte, and what stands behind it; none where there is no such byte.
pub fn cut(bytes: &[u8], byte: u8) -> Option<(&[u8], &[u8])>
    ensures found { IfSome result (λ cut. (bytes.now ≡ cut.0.now ++ byte ∷ cut.1.now) × IsFreeOf byte cut.0.now) }
    ensures only { (front behind : List ℕ) → IsFreeOf byte front → bytes.now ≡ front ++ byte ∷ behind → IsSomeAnd result (λ cut. (cut.0.now ≡ front) × (cut.1.now ≡ behind)) }
    ensures missing { IsNone result ↔ IsFreeOf byte bytes.now }
{
    let (front, behind) = bytes.split_at(front_len(bytes, byte));
    match behind {
        [_, rest @ ..] => Some((front, rest)),
        _ => None,
    }
}

/// How many bytes stand before the first such byte.
fn front_len(bytes: &[u8], byte: u8) -> usize
    ensures value { result ≡ prefix_len (λ other. not (other == byte)) bytes.now }
    ensures within { result ≤ length bytes.now }
{
    for (place, other) in bytes.iter().enumerate() {
        if *other == byte {
            return place;
        }
    }
    bytes.len()
}
