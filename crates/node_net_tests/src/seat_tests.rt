//! The bots of seats, over wires in memory.

use crate::samples::{assert_bytes, assert_number};
use node_seats::{Asked, Parting, SeatNotice, Seats, TokenDigest};
use node_wires::limits::TAKEN_AT_ONCE;
use node_wires::{Line, MemoryWire};
use std::alloc::{AllocError, Global};
use std::net::IpAddr;
use std::process::Abort;
use std::test::Fail;

/// What shows the token of seat 0, and of seat 1, without the line's end. The digests are those that `sha256sum` says.
const FIRST: &[u8] = b"#TOKEN 0123456789abcdef0123456789abcdef0123456789abcdef0123456789abcdef";

/// The first of them, whole.
const RIGHT: &[u8] = b"#TOKEN 0123456789abcdef0123456789abcdef0123456789abcdef0123456789abcdef\n";

const SECOND: &[u8] = b"#TOKEN ffffffffffffffffffffffffffffffffffffffffffffffffffffffffffffffff";

const DIGESTS: [TokenDigest; 2] = [
    TokenDigest {
        bytes: [
            168, 174, 110, 110, 233, 41, 171, 234, 58, 252, 252, 82, 88, 200, 204, 214, 248, 82,
            115, 224, 212, 98, 109, 38, 199, 39, 159, 50, 80, 247, 124, 142,
        ],
    },
    TokenDigest {
        bytes: [
            223, 7, 144, 242, 54, 1, 53, 17, 233, 31, 164, 83, 47, 183, 118, 31, 98, 50, 10, 81,
            163, 134, 141, 171, 244, 161, 63, 229, 245, 62, 50, 99,
        ],
    },
];

/// Two seats, and their wires.
#[derive(Drop)]
struct Table {
    wire: MemoryWire,
    seats: Seats,
    /// Whether who sits there has named the version.
    greeted: bool,
    /// The seats at which nobody is taken in, a bit each.
    closed: u16,
}

/// Whether this is the address of all who come over wires in memory.
fn is_of_memory(source: Option<IpAddr>) -> bool {
    match source {
        Some(IpAddr::V4(address)) => address.octets() == [127, 0, 0, 1],
        Some(IpAddr::V6(_)) | None => false,
    }
}

/// Two seats with tokens.
fn two_seats(alloc: Global) -> Result<Table, AllocError> {
    let tokens = Vec::from_slice(alloc, &DIGESTS)?;
    Ok(Table {
        wire: MemoryWire::new(alloc, 0)?,
        seats: Seats::new(alloc, 2, Some(tokens))?,
        greeted: false,
        closed: 0,
    })
}

/// Two seats without.
fn open_seats(alloc: Global) -> Result<Table, AllocError> {
    Ok(Table {
        wire: MemoryWire::new(alloc, 0)?,
        seats: Seats::new(alloc, 2, None)?,
        greeted: false,
        closed: 0,
    })
}

/// The number that stands for what came: 1 a bot at seat 0 and 2 one at seat 1, 3 the end of one, 4 a refusal with its address,
/// 6 a seat that wasn't read, the length of a piece, 0 nothing.
fn number_of(notice: Option<SeatNotice>) -> u64 {
    match notice {
        Some(SeatNotice::Came { seat }) => seat as u64 + 1,
        Some(SeatNotice::Gone { seat: _ }) => 3,
        Some(SeatNotice::Refused { seat: _, source }) => if is_of_memory(source) { 4 } else { 5 },
        Some(SeatNotice::Unread { seat: _ }) => 6,
        Some(SeatNotice::Piece { seat: _, bytes }) => bytes.len() as u64,
        None => 0,
    }
}

impl Table {
    /// What comes of those who stand in the queue of a seat's port, one after another, until something is to be told.
    fn takes(&mut self, seat: u8, now: u64) -> u64 {
        for _ in 0..TAKEN_AT_ONCE {
            let called = self
                .seats
                .next_caller(&mut self.wire, seat, self.closed, now);
            if !called.was_there {
                return 0;
            }
            let told = number_of(called.notice);
            if told > 0 {
                return told;
            }
        }
        0
    }

    /// What comes of seats next: of those who stand in the queues of their ports, and then of seats and guests, asked in turn.
    fn hears(&mut self, now: u64) -> u64 {
        self.wire.set_now(now);
        for seat in 0..2u8 {
            let told = self.takes(seat, now);
            if told > 0 {
                return told;
            }
        }
        for at in 0..self.seats.looks() {
            let told = number_of(
                self.seats
                    .next(&mut self.wire, at, self.greeted, self.closed, now),
            );
            if told > 0 {
                return told;
            }
        }
        0
    }

    /// What comes next is this.
    fn assert_hears(&mut self, rt: &impl Abort, now: u64, expected: u64) {
        assert_number(rt, self.hears(now), expected);
    }

    /// Somebody comes to a seat's port, is the guest at a place, and says these bytes.
    fn comes(&mut self, seat: u8, place: u8, said: &[u8], now: u64) -> Result<u64, AllocError> {
        self.wire.come_to_seat(seat);
        let told = self.hears(now);
        self.wire.come(Line::Guest(place), said)?;
        Ok(told)
    }

    /// Whether the guest at a place still has a connection.
    fn stands(&self, place: u8) -> bool {
        self.wire.is_open(Line::Guest(place))
    }
}

#[test]
fn a_bot_comes_is_told_and_goes(rt: HostRuntime) -> Result<(), Fail> {
    let mut table = open_seats(rt.alloc())?;
    table.assert_hears(&rt, 0, 0);
    table.wire.come_to_seat(1);
    table.assert_hears(&rt, 0, 2);
    assert_number(&rt, table.seats.bits() as u64, 2);
    table.wire.come(Line::Seat(1), b"VERSION")?;
    table.assert_hears(&rt, 0, 7);
    // Nobody sits at seat 0.
    for seat in [1, 1, 0] {
        assert!(rt; table.seats.part(seat, Parting::Over));
    }
    assert_number(&rt, table.seats.backlog(1) as u64, 7);
    assert!(rt; table.seats.flush(&mut table.wire).is_none());
    assert_number(&rt, table.seats.backlog(1) as u64, 0);
    assert_bytes(&rt, table.wire.written(Line::Seat(1)), b"#OVER\r\n");
    assert_bytes(&rt, table.wire.written(Line::Seat(0)), b"");
    table.wire.end(Line::Seat(1));
    table.assert_hears(&rt, 0, 3);
    assert_number(&rt, table.seats.bits() as u64, 0);
    Ok(())
}

/// What a bot sends at once comes in pieces of 512 bytes, one at a time.
#[test]
fn much_comes_in_pieces(rt: HostRuntime) -> Result<(), Fail> {
    let mut table = open_seats(rt.alloc())?;
    table.wire.come_to_seat(1);
    table.assert_hears(&rt, 0, 2);
    table.wire.come(Line::Seat(1), &[b'#'; 1100])?;
    for expected in [512, 512, 76, 0] {
        table.assert_hears(&rt, 0, expected);
    }
    Ok(())
}

/// What a bot asks before it names the version is read, in whatever pieces it comes; nothing behind that is.
#[test]
fn what_a_bot_asks_is_read(rt: HostRuntime) -> Result<(), Fail> {
    let mut table = open_seats(rt.alloc())?;
    table.wire.come_to_seat(1);
    table.assert_hears(&rt, 0, 2);
    for piece in [
        b"#RESUME MATCH".as_slice(),
        b"STATE:0\r\nVERSION:2.0.0\r\n#RESUME FIRST\r\n",
    ] {
        table.wire.come(Line::Seat(1), piece)?;
        table.assert_hears(&rt, 0, piece.len() as u64);
    }
    let (asked, named) = table.seats.asked(1);
    assert!(rt; asked == Asked::Line);
    assert_bytes(&rt, named, b"MATCHSTATE:0");
    // It waits for that line.
    assert_number(&rt, table.seats.bits() as u64, 0);
    Ok(())
}

/// A bot that hasn't named the version within ten seconds is let go of, once what stood there then was heard; who waits for
/// the seat is taken in behind it. One that has stays.
#[test]
fn a_silent_bot_has_ten_seconds(rt: HostRuntime) -> Result<(), Fail> {
    let mut table = open_seats(rt.alloc())?;
    table.wire.come_to_seat(0);
    table.assert_hears(&rt, 0, 1);
    table.wire.come_to_seat(0);
    table.assert_hears(&rt, 9_999_999, 0);
    table.wire.come(Line::Seat(0), b"# hello")?;
    for expected in [7, 3, 1] {
        table.assert_hears(&rt, 10_000_000, expected);
    }
    table.assert_hears(&rt, 19_999_999, 0);
    for expected in [0, 3] {
        table.assert_hears(&rt, 20_000_000, expected);
    }
    table.wire.come_to_seat(0);
    table.assert_hears(&rt, 30_000_000, 1);
    table.greeted = true;
    for _ in 0..3u64 {
        table.assert_hears(&rt, 36_000_000_000, 0);
    }
    Ok(())
}

/// A bot whose connection ended is let go of where it is written to; what waited for it isn't written to the next one.
#[test]
fn the_next_bot_gets_nothing_of_the_last(rt: HostRuntime) -> Result<(), Fail> {
    let mut table = open_seats(rt.alloc())?;
    table.wire.come_to_seat(0);
    table.assert_hears(&rt, 0, 1);
    assert!(rt; table.seats.part(0, Parting::Over));
    table.wire.end(Line::Seat(0));
    assert!(rt; table.seats.flush(&mut table.wire).is_some());
    table.wire.come_to_seat(0);
    table.assert_hears(&rt, 0, 1);
    // It has to name the version first.
    assert!(rt; table.seats.part(0, Parting::Other));
    assert_number(&rt, table.seats.backlog(0) as u64, 0);
    table.wire.come(Line::Seat(0), b"VERSION:2.0.0\r\n")?;
    table.assert_hears(&rt, 0, 15);
    assert!(rt;
        table.seats.part(0, Parting::Other) && table.seats.flush(&mut table.wire).is_none()
    );
    assert_bytes(&rt, table.wire.written(Line::Seat(0)), b"#OTHER\r\n");
    assert!(rt; table.seats.hang_up(&mut table.wire, 0).is_some());
    assert!(rt; table.seats.hang_up(&mut table.wire, 0).is_none());
    Ok(())
}

/// Who shows a token has his seat, whichever way his line ends; what stood behind the line comes of the bot, whole. The line
/// is whole within two seconds.
#[test]
fn right_tokens_are_seated(rt: HostRuntime) -> Result<(), Fail> {
    let mut table = two_seats(rt.alloc())?;
    assert_number(&rt, table.comes(0, 0, FIRST, 0)?, 0);
    table.assert_hears(&rt, 0, 0);
    table.wire.come(Line::Guest(0), b"\nVERSION")?;
    for expected in [1, 7, 0] {
        table.assert_hears(&rt, 1_999_999, expected);
    }
    assert_number(&rt, table.seats.bits() as u64, 1);
    assert!(rt; !table.stands(0));
    assert_number(&rt, table.comes(1, 0, SECOND, 2_000_000)?, 0);
    table.wire.come(Line::Guest(0), b"\r\nX")?;
    table.assert_hears(&rt, 2_000_000, 2);
    table.assert_hears(&rt, 2_000_000, 1);
    Ok(())
}

/// The token of another seat is refused once, and the connection closed at once; the bot that sits there stays.
#[test]
fn another_seats_token_is_refused(rt: HostRuntime) -> Result<(), Fail> {
    let mut table = two_seats(rt.alloc())?;
    let _ = table.comes(1, 0, SECOND, 0)?;
    table.wire.come(Line::Guest(0), b"\n")?;
    table.assert_hears(&rt, 0, 2);
    assert_number(&rt, table.comes(1, 0, FIRST, 0)?, 0);
    table.wire.come(Line::Guest(0), b"\n")?;
    table.assert_hears(&rt, 1_000, 4);
    table.assert_hears(&rt, 1_000, 0);
    assert!(rt; !table.stands(0) && table.wire.is_open(Line::Seat(1)));
    assert_number(&rt, table.seats.bits() as u64, 2);
    Ok(())
}

#[test]
fn a_guest_has_two_seconds_and_one_line(rt: HostRuntime) -> Result<(), Fail> {
    let mut table = two_seats(rt.alloc())?;
    // Too late.
    assert_number(&rt, table.comes(0, 0, FIRST, 0)?, 0);
    table.assert_hears(&rt, 2_000_000, 4);
    // Too long.
    assert_number(&rt, table.comes(0, 0, FIRST, 2_000_000)?, 0);
    table.wire.come(Line::Guest(0), b"  \n")?;
    table.assert_hears(&rt, 2_000_000, 4);
    // Ended.
    assert_number(&rt, table.comes(0, 0, FIRST, 2_000_000)?, 0);
    table.wire.end(Line::Guest(0));
    table.assert_hears(&rt, 2_000_000, 4);
    // Wrong from the first byte on.
    assert_number(&rt, table.comes(0, 0, b"G", 2_000_000)?, 0);
    table.assert_hears(&rt, 2_000_000, 4);
    assert!(rt; !table.stands(0));
    Ok(())
}

/// Who shows the token of a seat takes it over; nothing of what waited for the one before is written to him.
#[test]
fn a_seat_is_taken_over(rt: HostRuntime) -> Result<(), Fail> {
    let mut table = two_seats(rt.alloc())?;
    for turn in 0..2u64 {
        assert_number(&rt, table.comes(0, 0, FIRST, 0)?, 0);
        table.wire.come(Line::Guest(0), b"\n")?;
        if turn == 1 {
            table.assert_hears(&rt, 0, 3);
        }
        table.assert_hears(&rt, 0, 1);
        assert!(rt; table.seats.part(0, Parting::Over));
    }
    assert!(rt; table.seats.flush(&mut table.wire).is_none());
    assert_bytes(&rt, table.wire.written(Line::Seat(0)), b"#OVER\r\n");
    Ok(())
}

/// Who comes to the port of a closed seat waits there; at another seat a bot is taken in.
#[test]
fn nobody_is_taken_in_at_a_closed_seat(rt: HostRuntime) -> Result<(), Fail> {
    let mut table = open_seats(rt.alloc())?;
    table.closed = 1;
    for seat in 0..2u8 {
        table.wire.come_to_seat(seat);
    }
    table.assert_hears(&rt, 0, 2);
    assert_number(&rt, table.seats.taken_bits() as u64, 2);
    table.assert_hears(&rt, 0, 0);
    table.closed = 2;
    table.assert_hears(&rt, 0, 1);
    assert_number(&rt, table.seats.taken_bits() as u64, 3);
    Ok(())
}

/// At a closed seat the bot makes room for who shows the token, and he stays a guest until the seat is open again.
#[test]
fn a_guest_waits_for_a_closed_seat(rt: HostRuntime) -> Result<(), Fail> {
    let mut table = two_seats(rt.alloc())?;
    for _ in 0..2u64 {
        assert_number(&rt, table.comes(0, 0, FIRST, 0)?, 0);
        table.wire.come(Line::Guest(0), b"\n")?;
        table.closed = table.seats.taken_bits();
        if table.closed == 1 {
            table.assert_hears(&rt, 0, 3);
            table.assert_hears(&rt, 60_000_000, 0);
            assert!(rt; table.stands(0));
            table.closed = 0;
        }
        table.assert_hears(&rt, 60_000_000, 1);
        assert!(rt; !table.stands(0));
    }
    Ok(())
}

/// Of twenty guests of one address who say nothing eight stand, and make room once they stood 0.3 seconds; the others are
/// turned away, and counted.
#[test]
fn eight_silent_guests_stand_at_once(rt: HostRuntime) -> Result<(), Fail> {
    let mut table = two_seats(rt.alloc())?;
    for _ in 0..20u64 {
        table.wire.call_seat(0, b"", false)?;
    }
    table.assert_hears(&rt, 7, 0);
    assert!(rt; table.stands(7) && !table.stands(8) && !table.stands(26));
    assert_number(&rt, table.seats.turned_away(0), 12);
    assert!(rt; table.seats.crowded(0) == Some(7) && table.seats.crowded(1).is_none());
    table.wire.come(Line::Guest(7), FIRST)?;
    table.wire.come_to_seat(0);
    table.assert_hears(&rt, 300_006, 0);
    assert_number(&rt, table.seats.turned_away(0), 13);
    table.wire.come_to_seat(0);
    table.assert_hears(&rt, 300_007, 0);
    // He who made room is counted too.
    assert_number(&rt, table.seats.turned_away(0), 14);
    table.wire.come(Line::Guest(7), b"\n")?;
    table.assert_hears(&rt, 300_007, 1);
    table.seats.crowd(1, 8);
    assert!(rt; table.seats.crowded(1) == Some(8) && table.seats.turned_away(1) == 0);
    Ok(())
}

/// A thousand callers come to the port of seat 0: one of three ends at once, one says a wrong token, one says nothing. In the
/// midst of them comes one with the right token.
fn flood(wire: &mut MemoryWire) -> Result<(), AllocError> {
    for number in 0..999u64 {
        match number % 3 {
            0 => wire.call_seat(0, b"", true)?,
            1 => wire.call_seat(0, SECOND, true)?,
            _ => wire.call_seat(0, b"", false)?,
        }
        if number == 400 {
            wire.call_seat(0, RIGHT, false)?;
        }
    }
    Ok(())
}

/// So many callers are taken off the queue of seat 0, if as many stand there: how many of them were refused, and whether one
/// was seated.
fn takes_many(table: &mut Table, most: u16) -> (u64, bool) {
    let mut refused = 0u64;
    let mut seated = false;
    for _ in 0..most {
        let called = table.seats.next_caller(&mut table.wire, 0, 0, 0);
        match called.notice {
            Some(SeatNotice::Refused { .. }) => refused = refused.saturating_add(1),
            Some(SeatNotice::Came { .. }) => seated = true,
            _ => (),
        }
    }
    (refused, seated)
}

/// A right token is found in the midst of a flood, in one turn. Who ended or said anything wrong keeps no place.
#[test]
fn a_right_token_is_found_in_a_flood(rt: HostRuntime) -> Result<(), Fail> {
    let mut table = two_seats(rt.alloc())?;
    flood(&mut table.wire)?;
    let (refused, seated) = takes_many(&mut table, TAKEN_AT_ONCE);
    assert!(rt; seated && table.seats.taken_bits() == 1);
    assert_number(&rt, refused, 341);
    // Eight of the 170 who said nothing stand.
    assert_number(&rt, table.seats.turned_away(0), 162);
    let (refused, seated) = takes_many(&mut table, TAKEN_AT_ONCE);
    assert!(rt; !seated);
    assert_number(&rt, refused, 325);
    let called = table.seats.next_caller(&mut table.wire, 0, 0, 0);
    assert!(rt; !called.was_there);
    Ok(())
}

/// Who shows the token of a seat at which nobody is taken in waits, also where all places of guests are taken. Of two the newer
/// waits, and the one before is let go of.
#[test]
fn the_newest_of_a_seat_waits(rt: HostRuntime) -> Result<(), Fail> {
    let mut table = two_seats(rt.alloc())?;
    table.closed = 1;
    for _ in 0..8u64 {
        table.wire.call_seat(1, b"", false)?;
    }
    table.assert_hears(&rt, 0, 0);
    for (place, other) in [(26, 27), (27, 26), (26, 27)] {
        table.wire.call_seat(0, RIGHT, false)?;
        table.assert_hears(&rt, 0, 0);
        assert!(rt; table.stands(place) && !table.stands(other));
    }
    table.closed = 0;
    table.assert_hears(&rt, 0, 1);
    assert!(rt; !table.stands(26) && table.wire.is_open(Line::Seat(0)));
    assert_number(&rt, table.seats.turned_away(0), 0);
    Ok(())
}

/// What stands behind a right line, also where it comes with it, comes of the bot, whichever way the line ends. What stands behind
/// a wrong one doesn't.
#[test]
fn a_line_is_read_to_its_end(rt: HostRuntime) -> Result<(), Fail> {
    let mut table = two_seats(rt.alloc())?;
    for end in [b"\nVERSION".as_slice(), b"\r\nVERSION"] {
        let mut said = Vec::from_slice(rt.alloc(), FIRST)?;
        said.extend_from_slice(end)?;
        table.wire.call_seat(0, &said, false)?;
        table.assert_hears(&rt, 0, 1);
        table.assert_hears(&rt, 0, 7);
        assert!(rt; table.seats.hang_up(&mut table.wire, 0).is_some());
    }
    table.wire.call_seat(0, b"#TOKEN 0\nVERSION", false)?;
    table.assert_hears(&rt, 0, 4);
    table.assert_hears(&rt, 0, 0);
    Ok(())
}

/// What a bot that asks once from where on it is to be told is told by a node without a quorum; another one isn't.
#[test]
fn who_resumes_is_told_to_wait(rt: HostRuntime) -> Result<(), Fail> {
    let mut table = open_seats(rt.alloc())?;
    for seat in 0..2u8 {
        table.wire.come_to_seat(seat);
        table.assert_hears(&rt, 5, seat as u64 + 1);
    }
    table.wire.come(Line::Seat(0), b"#RESUME FIRST\r\n")?;
    table.wire.come(Line::Seat(1), b"VERSION:2.0.0\r\n")?;
    for _ in 0..2u64 {
        table.assert_hears(&rt, 5, 15);
    }
    assert!(rt; table.seats.has_resumed(0) && !table.seats.has_named(0));
    assert!(rt; !table.seats.has_resumed(1) && table.seats.has_named(1));
    assert!(rt; table.seats.since(1) == Some(5) && table.seats.since(2).is_none());
    for seat in 0..2u8 {
        assert!(rt; table.seats.part(seat, Parting::Wait));
    }
    assert!(rt; table.seats.flush(&mut table.wire).is_none());
    assert!(rt; table.seats.parting(0) == Some(Parting::Wait) && table.seats.backlog(0) == 0);
    assert!(rt; table.seats.parting(1).is_none());
    assert_bytes(&rt, table.wire.written(Line::Seat(0)), b"#WAIT\r\n");
    assert_bytes(&rt, table.wire.written(Line::Seat(1)), b"");
    Ok(())
}
