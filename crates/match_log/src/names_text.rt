ghost use Rattle.std.specs.Prelude.{◌≡◌, ℕ, ◌≤◌, List, take, length, IfSome, IsSomeAnd};
ghost use Rattle.std.specs.List.{AllByRecursion};
ghost use Rattle.match_log.specs.Lines.{names_field};
ghost use Rattle.match_log.specs.Names.{IsName};

use crate::name::Name;
use card_core::limits::PLAYERS;
use matchstate::cut;

/// The names by position, in the places in front.
pub(crate) fn read_names(bytes: &[u8], players: usize) -> Option<[Name; PLAYERS]>
    requires least { 2 ≤ players }
    requires most { players ≤ 10 }
    ensures found { IfSome result (λ names. bytes.now ≡ names_field (take players names)) }
    ensures each_name { IfSome result (λ names. AllByRecursion IsName (take players names)) }
    ensures only { (names : List (List ℕ)) → length names ≡ players → AllByRecursion IsName names → bytes.now ≡ names_field names → IsSomeAnd result (λ found. take players found ≡ names) }
{
    let Some((front, later)) = cut(bytes, b'|') else {
        return None;
    };
    let first = Name::new(front)?;
    let mut names = [first; PLAYERS];
    let mut rest = later;
    for position in 1..players - 1 {
        let Some((front, behind)) = cut(rest, b'|') else {
            return None;
        };
        names[position] = Name::new(front)?;
        rest = behind;
    }
    names[players - 1] = Name::new(rest)?;
    Some(names)
}
