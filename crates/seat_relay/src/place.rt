ghost use Rattle.std.specs.Prelude.{◌≡◌, ℕ, ◌++◌, List, Some, IfSome, IsSomeAnd, codes};
ghost use Rattle.matchstate.specs.Line.{Fields as LineFields, HasFields};
ghost use Rattle.seat_relay.specs.Places.{IsPlaced, is_later, is_first, is_same};
ghost use Rattle.seat_relay.specs.PlaceInside.{fields_in};

use matchstate::{cut, read_number};

/// Where in a match a dealer's line stands: the number of its hand, and how long its betting text is, which grows with
/// each action.
#[derive(Clone, Copy, Debug, PartialEq, Eq)]
pub struct Place {
    pub hand: u32,
    pub len: usize,
}

impl Place {
    /// Whether this stands behind another.
    pub(crate) fn is_behind(&self, other: &Place) -> bool
        ensures { result ≡ is_later other.now self.now }
    {
        other.hand < self.hand || (other.hand == self.hand && other.len < self.len)
    }

    /// Whether the first deal's line stands here.
    pub(crate) fn is_first(&self) -> bool
        ensures { result ≡ is_first self.now }
    {
        self.hand == 0 && self.len == 0
    }

    /// Whether this is the same place.
    pub(crate) fn is_same(&self, other: &Place) -> bool
        ensures { result ≡ is_same self.now other.now }
    {
        self.hand == other.hand && self.len == other.len
    }
}

/// The four fields of a line.
#[derive(Clone, Copy, Drop)]
pub(crate) struct Fields<'a> {
    pub(crate) position: &'a [u8],
    pub(crate) hand: &'a [u8],
    pub(crate) betting: &'a [u8],
    pub(crate) cards: &'a [u8],
}

/// Where a line stands; none where this is no line.
pub fn place_of(text: &[u8]) -> Option<Place>
    ensures found { IfSome result (λ place. IsPlaced text.now place) }
    ensures only { (place : Place) → IsPlaced text.now place → result ≡ Some place }
{
    let fields = fields_of(text)?;
    let hand = read_number(fields.hand)?;
    Some(Place {
        hand,
        len: fields.betting.len(),
    })
}

/// The four fields behind the word.
pub(crate) fn fields_of(text: &[u8]) -> Option<Fields<'_>>
    ensures found { IfSome result (λ found. HasFields text.now (fields_in found)) }
    ensures only { (fields : LineFields) → HasFields text.now fields → IsSomeAnd result (λ found. fields_in found ≡ fields) }
{
    let rest = after_word(text)?;
    let (position, rest) = cut(rest, b':')?;
    let (hand, rest) = cut(rest, b':')?;
    let (betting, cards) = cut(rest, b':')?;
    if cut(cards, b':').is_some() {
        return None;
    }
    Some(Fields {
        position,
        hand,
        betting,
        cards,
    })
}

/// What stands behind the word that begins each line.
fn after_word(text: &[u8]) -> Option<&[u8]>
    ensures found { IfSome result (λ rest. text.now ≡ codes "MATCHSTATE:" ++ rest.now) }
    ensures only { (behind : List ℕ) → text.now ≡ codes "MATCHSTATE:" ++ behind → IsSomeAnd result (λ rest. rest.now ≡ behind) }
{
    text.strip_prefix(b"MATCHSTATE:")
}
