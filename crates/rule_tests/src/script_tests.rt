use crate::asserting::{holds, same};
use play_script::{
    BadScript, Bounds, Order, put_fault, put_frame, put_log_line, put_seat_fault, put_seat_line,
    read,
};
use std::alloc::AllocError;
use std::process::Abort;
use std::test::Fail;

const BOUNDS: Bounds = Bounds {
    nodes: 3,
    seats: 2,
    frames: 10,
};

/// Sees what a line reads as.
fn reads_as(rt: &impl Abort, line: &[u8], wanted: Result<Order, BadScript>) {
    same!(rt; read(line, BOUNDS), wanted);
}

/// Lines of a script, and what they order.
static ORDERS: [(&[u8], Order); 13] = [
    (b"tick 2", Order::Tick { node: 2 }),
    (b"away 0", Order::Away { node: 0 }),
    (b"deliver 9", Order::Deliver { frame: 9 }),
    (b"deliver 0009", Order::Deliver { frame: 9 }),
    (
        b"flush 18446744073709551615",
        Order::Flush {
            most: 18446744073709551615,
        },
    ),
    (b"connect 0 1", Order::Connect { node: 0, seat: 1 }),
    (b"drop 2 0", Order::Drop { node: 2, seat: 0 }),
    (
        b"line 1 0 VERSION:2.0.0",
        Order::Line {
            node: 1,
            seat: 0,
            text: b"VERSION:2.0.0",
        },
    ),
    (
        b"line 1 0 ",
        Order::Line {
            node: 1,
            seat: 0,
            text: b"",
        },
    ),
    (
        b"line 1 0  a \xff b\r",
        Order::Line {
            node: 1,
            seat: 0,
            text: b" a \xff b\r",
        },
    ),
    (b"stop 0 0", Order::Stop { node: 0, pick: 0 }),
    (
        b"stop 0 18446744073709551615",
        Order::Stop {
            node: 0,
            pick: 18446744073709551615,
        },
    ),
    (b"start 1", Order::Start { node: 1 }),
];

#[test]
fn each_word_says_its_order(rt: HostRuntime) {
    for &(line, order) in &ORDERS {
        reads_as(&rt, line, Ok(order));
    }
}

/// Prints each kind of line.
fn put_each(out: &mut Vec<u8>) -> Result<(), AllocError> {
    put_frame(out, 9, 0, 1, b"\x00\x00\x00\x06\x02\x07\x00\x00\x00\x00")?;
    put_seat_line(out, 0, 1, b"MATCHSTATE:1:0::|8hTc")?;
    put_log_line(out, 2, b"# name/game/hands m1 l2.game 1")?;
    put_seat_fault(out, 1, 0, &"85 Illegal 22 TooManyRaises")?;
    put_fault(out, 0, &"90 Down")?;
    put_fault(out, 1, &BadScript)
}

#[test]
fn what_comes_is_printed(rt: HostRuntime) -> Result<(), Fail> {
    let mut out = Vec::new(rt.alloc());
    put_each(&mut out)?;
    let expected = b"frame 9 0>1 00000006020700000000
0 1 MATCHSTATE:1:0::|8hTc
2 L # name/game/hands m1 l2.game 1
1 0 E 85 Illegal 22 TooManyRaises
0 E 90 Down
1 E 110 BadScript
";
    holds!(&rt; out.as_slice() == expected.as_slice());
    same!(&rt; BadScript.code(), 110);
    Ok(())
}
