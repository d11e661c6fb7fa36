ghost use Rattle.std.specs.Prelude.{◌<◌, ◌≤◌, ◌≡◌, length};
ghost use Rattle.clockwork.specs.declared.limits.TheConstants.{LATEST, LONGEST_PATIENCE, MOST_PEERS, MOST_NODES};

use clockwork::limits::{LATEST, LONGEST_PATIENCE, MOST_NODES, MOST_PEERS};
use clockwork::{
    Acts, At, Awaited, Expected, Happening, Known, Lateness, Link, Longest, OpenLink, Opening,
    Peer, PeerReport, Place, SeatLook, SeatWatch, Ticks, Waking,
};
use std::alloc::{AllocError, Global};

/// How many words of a line tell of the process itself, and of each peer.
const OWN: usize = 17;

const OF_A_PEER: usize = 14;

/// How many words a line has that tells of a measure and of those before it.
pub const OF_A_MEASURE: usize = 6;

/// The numbers of a line; what is none stands as none.
pub fn numbers_of(alloc: Global, line: &str) -> Result<Vec<Option<u64>>, AllocError> {
    let mut numbers = Vec::new(alloc);
    for word in line.split(' ') {
        numbers.push(word.parse().ok())?;
    }
    Ok(numbers)
}

/// Whether so many words tell of a process and of whole peers.
pub fn is_whole(words: usize) -> bool {
    words >= OWN && (words - OWN) % OF_A_PEER == 0
}

/// The number at a place, where there is one.
fn optional(numbers: &[Option<u64>], place: usize) -> Option<u64> {
    match numbers.get(place) {
        Some(number) => *number,
        None => None,
    }
}

/// The number at a place; 0 where there is none.
fn number(numbers: &[Option<u64>], place: usize) -> u64 {
    optional(numbers, place).unwrap_or(0)
}

fn small(numbers: &[Option<u64>], place: usize) -> u32 {
    number(numbers, place).min(0xFFFF_FFFF) as u32
}

fn byte(numbers: &[Option<u64>], place: usize) -> u8 {
    number(numbers, place).min(0xFF) as u8
}

fn flag(numbers: &[Option<u64>], place: usize) -> bool {
    number(numbers, place) != 0
}

/// What is kept of a seat, by the words of a line.
pub fn seat_of(numbers: &[Option<u64>]) -> SeatWatch {
    let mut seat = SeatWatch::new();
    for node in 0..MOST_NODES {
        seat.places[node] = Place {
            sits: flag(numbers, 2 * node),
            begun: optional(numbers, 2 * node + 1),
        };
    }
    seat.has_come = flag(numbers, 14);
    seat.nowhere = optional(numbers, 15);
    seat.has_sat = flag(numbers, 16);
    seat.defaults = small(numbers, 17);
    seat.given_up = small_of(optional(numbers, 18));
    seat
}

fn small_of(number: Option<u64>) -> Option<u32> {
    match number {
        Some(number) => Some(number.min(0xFFFF_FFFF) as u32),
        None => None,
    }
}

/// How a seat is seen at a node, by the words behind those of what is kept of it.
pub fn at_of(numbers: &[Option<u64>], node: usize) -> At
    requires { node < MOST_NODES }
{
    match number(numbers, 19 + node) {
        0 => At::Gone,
        1 => At::Empty,
        2 => At::Sits,
        _ => At::Taken,
    }
}

/// What the list says of its acts, and what a look has beside; when the front last moved.
pub fn look_of(numbers: &[Option<u64>]) -> (Acts, SeatLook, u64) {
    let acts = Acts {
        has_acted: flag(numbers, 26),
        defaults: small(numbers, 27),
    };
    let seen = SeatLook {
        quorate: flag(numbers, 28),
        gives_up: flag(numbers, 29),
        patience: number(numbers, 30),
        now: number(numbers, 32),
    };
    (acts, seen, number(numbers, 31))
}

/// Since when seats are played for behind a look, by the words of a line.
pub fn opening_of(numbers: &[Option<u64>]) -> Opening {
    let mut opening = Opening {
        first: optional(numbers, 0),
        opened: optional(numbers, 1),
    };
    opening.look(
        flag(numbers, 2),
        flag(numbers, 3),
        number(numbers, 4),
        number(numbers, 5),
    );
    opening
}

/// What a process has heard since it slept, behind what the words of a line say that happened.
pub fn waking_of(numbers: &[Option<u64>]) -> Waking {
    let mut waking = Waking::new();
    waking.has_read = flag(numbers, 0);
    for node in 0..MOST_NODES {
        waking.beats[node] = byte(numbers, 1 + node);
    }
    waking.stood = number(numbers, 8);
    waking.slept = number(numbers, 9);
    match happening_of(numbers) {
        Happening::Passed { lost } => waking.pass(lost),
        Happening::Stood { since } => waking.stand(since),
        Happening::ReadAll => waking.read_all(),
        Happening::Beat { node } => waking.hear(node),
    }
    waking
}

fn happening_of(numbers: &[Option<u64>]) -> Happening {
    match number(numbers, 10) {
        0 => Happening::Passed {
            lost: number(numbers, 11),
        },
        1 => Happening::ReadAll,
        2 => Happening::Beat {
            node: byte(numbers, 11),
        },
        _ => Happening::Stood {
            since: number(numbers, 11),
        },
    }
}

/// How many nodes the match of that process has.
pub fn nodes_of(numbers: &[Option<u64>], place: usize) -> u8
    ensures { result ≤ MOST_NODES }
{
    byte(numbers, place).min(MOST_NODES as u8)
}

/// What is known of the seat to act and of the process, by the words of a line.
pub fn expected_of(numbers: &[Option<u64>]) -> Expected
    ensures time { result.awaited.time ≤ LATEST }
    ensures patience { result.awaited.patience ≤ LONGEST_PATIENCE }
    ensures rank { result.awaited.rank ≤ MOST_PEERS }
    ensures nodes { result.nodes ≤ MOST_NODES }
{
    let awaited = awaited_of(numbers);
    Expected {
        awaited: Awaited {
            patience: awaited.patience.min(LONGEST_PATIENCE),
            ..awaited
        },
        is_awake: flag(numbers, 11),
        is_open: flag(numbers, 12),
        turns: small_of(optional(numbers, 13)),
        stood: number(numbers, 14),
        slept: number(numbers, 15),
        nodes: nodes_of(numbers, 16),
        crowded: number(numbers, 17),
    }
}

/// What is known of the seat to act, by the words of a line.
fn awaited_of(numbers: &[Option<u64>]) -> Awaited
    ensures time { result.time ≤ LATEST }
    ensures patience { result.patience ≤ LATEST }
    ensures rank { result.rank ≤ MOST_PEERS }
{
    Awaited {
        time: number(numbers, 0).min(LATEST),
        patience: number(numbers, 1).min(LATEST),
        over: flag(numbers, 2),
        hand_runs: flag(numbers, 3),
        quorate: flag(numbers, 4),
        replays: flag(numbers, 5),
        sits_here: flag(numbers, 6),
        sits_elsewhere: flag(numbers, 7),
        rank: (number(numbers, 8) as usize).min(MOST_PEERS),
        since: number(numbers, 9),
        ordered: optional(numbers, 10),
    }
}

/// What is kept of measures once the one of a line was noted, and when that was.
pub fn longest_of(numbers: &[Option<u64>]) -> (Longest, u64) {
    let mut longest = Longest {
        begun: number(numbers, 0),
        newest: number(numbers, 1),
        middle: number(numbers, 2),
        oldest: number(numbers, 3),
    };
    let now = number(numbers, 5);
    longest.note(number(numbers, 4), now);
    (longest, now)
}

/// What is kept of how late turns came once the one of a line came.
pub fn lateness_of(numbers: &[Option<u64>]) -> Lateness {
    let mut lateness = Lateness {
        begun: number(numbers, 0),
        newest: number(numbers, 1),
        before: number(numbers, 2),
    };
    lateness.note(number(numbers, 3), number(numbers, 4));
    lateness
}

/// What a process knows, by the first words of a line and its peers.
pub fn known_of<'a>(numbers: &[Option<u64>], peers: &'a [Peer]) -> Known<'a>
    ensures time { result.time ≤ LATEST }
    ensures peers { result.peers.now ≡ peers.now }
{
    Known {
        time: number(numbers, 0).min(LATEST),
        number: byte(numbers, 1),
        peers,
        front: small(numbers, 2),
        moved: number(numbers, 3),
        promised: promised_of(numbers),
        promised_since: number(numbers, 5),
        campaigns: flag(numbers, 6),
        was_led: flag(numbers, 7),
        over: flag(numbers, 8),
        hand_runs: flag(numbers, 9),
        act_waits: flag(numbers, 10),
        vote_waits: flag(numbers, 11),
        work_since: number(numbers, 12),
        behind_since: number(numbers, 13),
        ticks: ticks_of(numbers),
        longest_call: number(numbers, 16),
    }
}

fn promised_of(numbers: &[Option<u64>]) -> Option<u8> {
    match optional(numbers, 4) {
        Some(_) => Some(byte(numbers, 4)),
        None => None,
    }
}

fn ticks_of(numbers: &[Option<u64>]) -> Option<Ticks> {
    match optional(numbers, 14) {
        Some(last) => Some(Ticks {
            last,
            in_vain: byte(numbers, 15),
        }),
        None => None,
    }
}

/// The peers that the words behind those tell of.
pub fn peers_of(alloc: Global, numbers: &[Option<u64>]) -> Result<Vec<Peer>, AllocError> {
    let mut peers = Vec::new(alloc);
    for words in numbers[OWN.min(numbers.len())..].chunks_exact(OF_A_PEER) {
        peers.push(peer_of(words))?;
    }
    Ok(peers)
}

fn peer_of(words: &[Option<u64>]) -> Peer {
    Peer {
        number: byte(words, 0),
        accepted: accepted_of(words),
        longest: number(words, 5),
        link: link_of(words),
    }
}

fn accepted_of(words: &[Option<u64>]) -> Option<u32> {
    match optional(words, 1) {
        Some(_) => Some(small(words, 1)),
        None => None,
    }
}

fn link_of(words: &[Option<u64>]) -> Link {
    if flag(words, 2) {
        Link::Open(OpenLink {
            opened: number(words, 3),
            heard: number(words, 4),
            unanswered: flag(words, 6),
            beat: beat_of(words),
        })
    } else {
        Link::Closed {
            since: number(words, 3),
        }
    }
}

fn beat_of(words: &[Option<u64>]) -> Option<PeerReport> {
    if flag(words, 7) {
        Some(PeerReport {
            front: small(words, 8),
            below: number(words, 9),
            campaigns: flag(words, 10),
            told: number(words, 11),
            over: flag(words, 12),
            risen: number(words, 13),
        })
    } else {
        None
    }
}
