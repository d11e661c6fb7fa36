//! What a node's process tells where notes come without end: what comes at which moment, and the lines that are told.

use crate::node_command_tests::NoLives;
use crate::test_streams::{config, is_same, is_written};
use betting::ActFault;
use node_links::PeerFault;
use node_runs::{
    GROUPS, NO_PLACE, NoteLimits, OTHERS, Teller, group_of, most_of, room_of, weight_of,
};
use node_service::ServerNotice;
use peer_codes::RecordFault;
use promise_store::{OnceDisk, Store};
use seat_session::SessionFault;
use stations::Station;
use std::alloc::{AllocError, Global};
use std::net::IpAddr;
use std::process::Abort;
use std::test::Fail;

/// A second, in microseconds.
const SECOND: u64 = 1_000_000;

/// At this moment what is due is told, and then so many of one notice come.
#[derive(Clone, Copy)]
struct Wave {
    at: u64,
    times: u64,
    told: ServerNotice,
}

/// No more comes, but what is due at this moment is told.
const fn nothing(at: u64) -> Wave {
    Wave {
        at,
        times: 0,
        told: ServerNotice::Quorum,
    }
}

/// What seat 0 sent is a line that is too long.
const TOO_LONG: ServerNotice = ServerNotice::Faulty {
    seat: 0,
    fault: SessionFault::LineTooLong,
    hand: Some(3),
};

/// Seat 1 answered what it has not now.
const NOT_CURRENT: ServerNotice = ServerNotice::Faulty {
    seat: 1,
    fault: SessionFault::NotCurrent,
    hand: Some(3),
};

/// Seat 1 raised by too little.
const TOO_SMALL: ServerNotice = ServerNotice::Faulty {
    seat: 1,
    fault: SessionFault::Illegal(ActFault::RaiseTooSmall(200)),
    hand: Some(3),
};

/// The station of node 0 of a match of alice and bob.
fn station(rt: &impl Abort, alloc: Global) -> Result<Station<OnceDisk>, Fail> {
    let Ok(store) = Store::create(alloc, OnceDisk::new(alloc, 0), 0, 3) else {
        panic!(rt; "a store");
    };
    let Ok(station) = Station::open(alloc, config(alloc)?, 0, store.close()) else {
        panic!(rt; "a station");
    };
    Ok(station)
}

/// Sees that these lines are told where this comes, and these at the end.
fn tells(
    rt: &impl Abort,
    alloc: Global,
    waves: &[Wave],
    lines: &[u8],
    rest: &[u8],
) -> Result<(), Fail> {
    let station = station(rt, alloc)?;
    let mut teller = Teller::new(alloc, 7000, 0);
    let mut lives = NoLives;
    let mut notes = Vec::new(alloc);
    for wave in waves {
        teller.tell_due(&station, wave.at, &mut notes);
        for _ in 0..wave.times {
            teller
                .tell(&station, &wave.told, &mut lives, &mut notes)
                .expect(rt, "no life to keep");
        }
    }
    is_written(rt, &notes, lines);
    let mut behind = Vec::new(alloc);
    teller.tell_rest(&station, &mut behind);
    is_written(rt, &behind, rest);
    Ok(())
}

/// A seat that sends wrong lines without end: one line at once, and one a second with how many.
#[test]
fn a_flood_of_a_seat_is_a_line_a_second(rt: HostRuntime) -> Result<(), Fail> {
    let waves = [
        Wave {
            at: 0,
            times: 1205,
            told: TOO_LONG,
        },
        Wave {
            at: 500_000,
            times: 300,
            told: TOO_LONG,
        },
        nothing(999_999),
        nothing(SECOND),
        Wave {
            at: SECOND + 1,
            times: 7,
            told: TOO_LONG,
        },
    ];
    tells(
        &rt,
        rt.alloc(),
        &waves,
        b"seat 0 (alice) at node 0: 81 LineTooLong
seat 0 (alice) at node 0: 81 LineTooLong (1504 times)
",
        b"seat 0 (alice) at node 0: 81 LineTooLong (7 times)
",
    )
}

/// Of answers that are refused with a number and an amount of their own ten a second are told whole.
#[test]
fn refused_answers_are_told_whole_at_first(rt: HostRuntime) -> Result<(), Fail> {
    let waves = [
        Wave {
            at: 0,
            times: 13,
            told: TOO_SMALL,
        },
        Wave {
            at: 1,
            times: 2,
            told: NOT_CURRENT,
        },
        nothing(SECOND),
        nothing(2 * SECOND),
    ];
    tells(
        &rt,
        rt.alloc(),
        &waves,
        b"seat 1 (bob) at node 0, hand 3: 85 Illegal 24 RaiseTooSmall 200
seat 1 (bob) at node 0, hand 3: 85 Illegal 24 RaiseTooSmall 200
seat 1 (bob) at node 0, hand 3: 85 Illegal 24 RaiseTooSmall 200
seat 1 (bob) at node 0, hand 3: 85 Illegal 24 RaiseTooSmall 200
seat 1 (bob) at node 0, hand 3: 85 Illegal 24 RaiseTooSmall 200
seat 1 (bob) at node 0, hand 3: 85 Illegal 24 RaiseTooSmall 200
seat 1 (bob) at node 0, hand 3: 85 Illegal 24 RaiseTooSmall 200
seat 1 (bob) at node 0, hand 3: 85 Illegal 24 RaiseTooSmall 200
seat 1 (bob) at node 0, hand 3: 85 Illegal 24 RaiseTooSmall 200
seat 1 (bob) at node 0, hand 3: 85 Illegal 24 RaiseTooSmall 200
seat 1 (bob) at node 0: 83 NotCurrent
seat 1 (bob) at node 0, hand 3: 85 Illegal 24 RaiseTooSmall 200 (3 times)
seat 1 (bob) at node 0: 83 NotCurrent
",
        b"",
    )
}

/// A token that is shown again and again, and callers of two kinds: what was told of one hides no other.
#[test]
fn each_kind_has_its_own_line(rt: HostRuntime) -> Result<(), Fail> {
    let bad_length = ServerNotice::Callers {
        peer: None,
        count: 3,
        fault: PeerFault::Record(RecordFault::BadLength),
    };
    let wrong_proof = ServerNotice::Callers {
        peer: None,
        count: 1,
        fault: PeerFault::WrongProof,
    };
    let at_peer = ServerNotice::Callers {
        peer: Some(2),
        count: 1,
        fault: PeerFault::WrongProof,
    };
    let wrong_token = ServerNotice::WrongToken {
        seat: 0,
        count: 4,
        source: Some(IpAddr::from([10, 0, 0, 7])),
    };
    let waves = [
        Wave {
            at: 0,
            times: 3,
            told: ServerNotice::Seated { seat: 0 },
        },
        Wave {
            at: 1,
            times: 3,
            told: ServerNotice::Left { seat: 0 },
        },
        Wave {
            at: 2,
            times: 2,
            told: bad_length,
        },
        Wave {
            at: 3,
            times: 1,
            told: wrong_proof,
        },
        Wave {
            at: 3,
            times: 1,
            told: at_peer,
        },
        Wave {
            at: 4,
            times: 2,
            told: wrong_token,
        },
        Wave {
            at: 5,
            times: 1,
            told: ServerNotice::Gone { peer: 2 },
        },
        nothing(2 * SECOND),
    ];
    tells(
        &rt,
        rt.alloc(),
        &waves,
        b"seat 0 (alice) at node 0: seated
seat 0 (alice) at node 0: seated
seat 0 (alice) at node 0: seated
seat 0 (alice) at node 0: disconnected
seat 0 (alice) at node 0: disconnected
seat 0 (alice) at node 0: disconnected
inbound connection refused: 120 BadLength (3 times)
inbound connection refused: 124 WrongProof
inbound connection refused: 124 WrongProof (from peer 2's address)
seat 0 (alice) at node 0: wrong token (from 10.0.0.7) (4 times)
peer 2: disconnected
seat 0 (alice) at node 0: wrong token (from 10.0.0.7) (4 times)
inbound connection refused: 120 BadLength (3 times)
",
        b"",
    )
}

/// That a seat is taken and that it is free are told in one order: whole at first, and what comes then by the newest, with the
/// count of both.
#[test]
fn the_last_note_of_a_seat_is_of_the_newest(rt: HostRuntime) -> Result<(), Fail> {
    let seated = ServerNotice::Seated { seat: 1 };
    let left = ServerNotice::Left { seat: 1 };
    let waves = [
        Wave {
            at: 0,
            times: 1,
            told: seated,
        },
        Wave {
            at: 1,
            times: 1,
            told: left,
        },
        Wave {
            at: 2,
            times: 9,
            told: seated,
        },
        Wave {
            at: 3,
            times: 2,
            told: left,
        },
        Wave {
            at: 4,
            times: 1,
            told: seated,
        },
        nothing(999_999),
        nothing(SECOND),
    ];
    tells(
        &rt,
        rt.alloc(),
        &waves,
        b"seat 1 (bob) at node 0: seated
seat 1 (bob) at node 0: disconnected
seat 1 (bob) at node 0: seated
seat 1 (bob) at node 0: seated
seat 1 (bob) at node 0: seated
seat 1 (bob) at node 0: seated
seat 1 (bob) at node 0: seated
seat 1 (bob) at node 0: seated
seat 1 (bob) at node 0: seated
seat 1 (bob) at node 0: seated
seat 1 (bob) at node 0: seated (4 times)
",
        b"",
    )
}

/// So many lines end in a text.
fn count_lines(text: &[u8]) -> u64 {
    let mut count: u64 = 0;
    for byte in text {
        count = count.saturating_add((*byte == b'\n') as u64);
    }
    count
}

/// Of notes that have no group of their own 50 a second are told, and then how many were left out.
#[test]
fn no_second_has_more_than_50_lines(rt: HostRuntime) -> Result<(), Fail> {
    let station = station(&rt, rt.alloc())?;
    let mut teller = Teller::new(rt.alloc(), 7000, 0);
    let mut lives = NoLives;
    let mut notes = Vec::new(rt.alloc());
    for _ in 0..61u64 {
        teller
            .tell(&station, &ServerNotice::Quorum, &mut lives, &mut notes)
            .expect(&rt, "no life to keep");
    }
    is_same(&rt, count_lines(&notes), 50);
    let mut later = Vec::new(rt.alloc());
    teller.tell_due(&station, SECOND, &mut later);
    is_written(&rt, &later, b"11 notes left out\n");
    Ok(())
}

/// The limits themselves: a group that waits, and its turn.
#[test]
fn what_waits_is_counted(rt: HostRuntime) -> Result<(), Fail> {
    let mut limits = NoteLimits::new(0);
    let group = group_of(&TOO_LONG);
    is_same(&rt, group, 1);
    is_same(&rt, limits.groups(), GROUPS);
    is_same(&rt, limits.note(group, weight_of(&TOO_LONG), 5), true);
    is_same(&rt, limits.note(group, 3, 5), false);
    is_same(&rt, limits.note(NO_PLACE, 2, 5), true);
    is_same(&rt, limits.waiting(group), 3);
    is_same(&rt, limits.due(SECOND + 4).is_none(), true);
    let due = limits.due(SECOND + 5).expect(&rt, "a line");
    is_same(&rt, due.group, group);
    is_same(&rt, due.count, 3);
    is_same(&rt, limits.waiting(group), 0);
    is_same(&rt, most_of(group), 1);
    is_same(&rt, room_of(OTHERS), 50);
    Ok(())
}
