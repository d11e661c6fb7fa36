ghost use Rattle.std.specs.Prelude.{◌≡◌, ℕ, ◌≤◌, ◌↔◌, List, [], length, map, take, slice_index_or, IfSome, IsSome, IsTrue};
ghost use Rattle.std.specs.List.{range_with_len};
ghost use Rattle.std.specs.Str.Parse.{digits_value};
ghost use Rattle.matchstate.specs.View.{position_of};
ghost use Rattle.match_log.specs.Names.{names_by_position};
ghost use Rattle.match_log.specs.Numeral.{IsDecimal};
ghost use Rattle.match_log.specs.Reading.{MayBeSeats};

use crate::name::Name;
use crate::numeral::remainder;
use crate::seat_names::are_names;
use card_core::limits::PLAYERS;
use matchstate::position_of;

/// The seats' names that names by position say in a hand of this number; none where they aren't the names
/// that are known, or, where none are, no names for so many seats.
pub(crate) fn seats(
    by_position: &[Name; PLAYERS],
    number: &[u8],
    players: usize,
    known: &Option<[Name; PLAYERS]>,
) -> Option<[Name; PLAYERS]>
    requires least { 2 ≤ players }
    requires most { players ≤ 10 }
    requires number { IsDecimal number.now }
    ensures found { IfSome result (λ seats. take players by_position.now ≡ names_by_position players (digits_value 10 number.now) (take players seats)) }
    ensures fit { IfSome result (λ seats. MayBeSeats players known.now (take players seats)) }
    ensures only { (seats : List (List ℕ)) → length seats ≡ players → take players by_position.now ≡ names_by_position players (digits_value 10 number.now) seats → MayBeSeats players known.now seats → IsSome result }
{
    let seats = by_seat(by_position, players, remainder(number, players) as u32);
    let fit = match known {
        None => are_names(&seats[..players], players),
        Some(names) => are_same(&seats[..players], &names[..players]),
    };
    if fit { Some(seats) } else { None }
}

/// Names by position put into the order of seats, in a hand of this number.
fn by_seat(by_position: &[Name; PLAYERS], players: usize, hand: u32) -> [Name; PLAYERS]
    requires least { 1 ≤ players }
    requires most { players ≤ 10 }
    ensures { take players result ≡ map (λ seat. slice_index_or by_position.now (position_of players hand seat) []) (range_with_len 0 players) }
{
    let mut seats = *by_position;
    for seat in 0..players {
        seats[seat] = by_position[position_of(players, hand, seat)];
    }
    seats
}

/// Whether these are the same names.
fn are_same(names: &[Name], others: &[Name]) -> bool
    requires { length names.now ≡ length others.now }
    ensures { IsTrue result ↔ (names.now ≡ others.now) }
{
    for place in 0..names.len() {
        if names[place].as_bytes() != others[place].as_bytes() {
            return false;
        }
    }
    true
}
