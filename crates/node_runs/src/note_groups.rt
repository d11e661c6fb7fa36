//! In which groups the notes of a turn are limited, and how many lines a group may have.

ghost use Rattle.std.specs.Prelude.{◌≡◌, ◌<◌, ◌≤◌, IfSome};
ghost use Rattle.node_runs.specs.NoteGroups.{seat_group, fault_kind, seat_caller_group, caller_group, peer_group, group_of, weight_of, most_of, room_of};

use node_service::ServerNotice;

/// How many groups there are: ten of each of ten seats, those of callers by their faults and for want of a place, those of
/// callers from the addresses of seven peers by their faults, those of callers who were turned away at each of ten seats, one
/// of each of seven peers, and one of all other notes.
pub const GROUPS: usize = 199;

/// The group of callers who said no Hello, or for whom there was no place.
pub const NO_PLACE: usize = 110;

/// The group of notes that have no group of their own.
pub const OTHERS: usize = 198;

/// The groups of callers by their faults begin here.
const CALLERS: usize = 100;

/// The groups of callers from the address of the first peer begin here.
const AT_PEERS: usize = 111;

/// The groups of callers who were turned away at a seat begin here.
const AT_SEATS: usize = 181;

/// The groups of peers begin here.
const PEERS: usize = 191;

/// How many faults callers have.
const FAULTS: usize = 10;

/// So many lines of one group may be told in a second where each says something of its own.
const SEVERAL: usize = 10;

/// A seat's notes of one kind.
fn seat_group(seat: u8, kind: u8) -> usize
    ensures value { result ≡ seat_group seat kind }
    ensures within { result < 199 }
{
    if seat < 10 && kind < 10 {
        10 * seat as usize + kind as usize
    } else {
        OTHERS
    }
}

/// Which of the faults of callers it is, by its number: 120 to 128, or 130.
fn fault_kind(code: u8) -> Option<u8>
    ensures value { result ≡ fault_kind code }
    ensures within { IfSome result (λ kind. kind < 10) }
{
    match code {
        120..=128 => Some(code - 120),
        130 => Some(9),
        _ => None,
    }
}

/// The notes of callers by a fault, from an address of this peer or from others.
fn caller_group(peer: Option<u8>, code: u8) -> usize
    ensures value { result ≡ caller_group peer code }
    ensures within { result < 199 }
{
    let Some(kind) = fault_kind(code) else {
        return OTHERS;
    };
    match peer {
        None => CALLERS + kind as usize,
        Some(peer) if peer < 7 => AT_PEERS + FAULTS * peer as usize + kind as usize,
        Some(_) => OTHERS,
    }
}

/// The callers who were turned away at a seat.
fn seat_caller_group(seat: u8) -> usize
    ensures value { result ≡ seat_caller_group seat }
    ensures within { result < 199 }
{
    if seat < 10 {
        AT_SEATS + seat as usize
    } else {
        OTHERS
    }
}

/// What a peer does: it is connected, or no longer. The two are told in their order.
fn peer_group(peer: u8) -> usize
    ensures value { result ≡ peer_group peer }
    ensures within { result < 199 }
{
    if peer < 7 {
        PEERS + peer as usize
    } else {
        OTHERS
    }
}

/// The group of a notice.
pub fn group_of(notice: &ServerNotice) -> usize
    ensures value { result ≡ group_of notice.now }
    ensures within { result < 199 }
{
    match notice {
        ServerNotice::Faulty { seat, fault, .. } => {
            seat_group(*seat, fault.code().saturating_sub(80))
        }
        ServerNotice::Seated { seat } => seat_group(*seat, 6),
        ServerNotice::Left { seat } => seat_group(*seat, 6),
        ServerNotice::OtherLine { seat } => seat_group(*seat, 7),
        ServerNotice::WrongToken { seat, .. } => seat_group(*seat, 8),
        ServerNotice::Ordered { seat } => seat_group(*seat, 9),
        ServerNotice::TurnedAway { seat, .. } => seat_caller_group(*seat),
        ServerNotice::Callers { peer, fault, .. } => caller_group(*peer, fault.code()),
        ServerNotice::Joined { peer, life: _ } => peer_group(*peer),
        ServerNotice::Gone { peer } => peer_group(*peer),
        _ => OTHERS,
    }
}

/// How many events a notice tells.
pub fn weight_of(notice: &ServerNotice) -> u64
    ensures { result ≡ weight_of notice.now }
{
    match notice {
        ServerNotice::Callers { count, .. } => *count as u64,
        ServerNotice::WrongToken { count, .. } => *count as u64,
        ServerNotice::TurnedAway { count, .. } => *count as u64,
        _ => 1,
    }
}

/// How many lines of a group may be told in a second.
pub fn most_of(group: usize) -> usize
    ensures { result ≡ most_of group }
{
    if group < 100 {
        let kind = group % 10;
        if kind == 4 || kind == 5 || kind == 6 || kind == 9 {
            SEVERAL
        } else {
            1
        }
    } else if group < PEERS {
        1
    } else if group < OTHERS {
        SEVERAL
    } else {
        50
    }
}

/// A line of a group may be told where fewer than so many were told in the last second, of all groups.
pub fn room_of(group: usize) -> usize
    ensures { result ≡ room_of group }
{
    if group < PEERS { 40 } else { 50 }
}
