//! What is said over connections with codes.

use crate::pair::{Side, exchange, say};
use crate::samples::{ASK, assert_number, coded_hello, frame, key, own};
use node_links::{Arrived, CodedConnection, Connection, Known, Met, Outbox};
use node_wires::{Line, Wire};
use peer_codes::Frame;
use std::alloc::{AllocError, Global};
use std::process::Abort;
use std::test::Fail;

/// The process of a node that has the key.
fn node(alloc: Global, number: u8) -> Result<Side, AllocError> {
    Side::of(alloc, own(number, 9, Some(7)), &[], 0)
}

/// What node 1 says in a turn is put behind what it said before.
fn put_said(
    alloc: Global,
    all: &mut Vec<u8>,
    low: &mut Side,
    high: &mut Side,
    turn: u64,
) -> Result<(), AllocError> {
    high.turn(turn);
    if turn == 0 {
        low.wire.call();
    }
    low.turn(turn);
    all.extend_from_slice(high.wire.written(Line::Peer(0)))?;
    exchange(alloc, low, high)
}

/// All that node 1 says to node 0 in six turns.
fn said_by(alloc: Global, low: &mut Side, high: &mut Side) -> Result<Vec<u8>, AllocError> {
    let mut all = Vec::new(alloc);
    for turn in 0..6u64 {
        put_said(alloc, &mut all, low, high, turn)?;
    }
    Ok(all)
}

/// The same where an Ask waits there: its Hello of 114 bytes, its proof of 37, a beat of 52, lives of 85 and an Ask of 47.
fn course(alloc: Global) -> Result<Vec<u8>, AllocError> {
    let mut low = node(alloc, 0)?;
    let mut high = node(alloc, 1)?;
    high.peers.send(0, &ASK, 0);
    said_by(alloc, &mut low, &mut high)
}

/// Node 0, to whom one who dials says this in one piece, a turn long; nonces that it drew before are another's.
fn told(alloc: Global, all: &[u8], drawn: u64) -> Result<Side, AllocError> {
    let mut side = node(alloc, 0)?;
    for _ in 0..drawn {
        let _ = side.wire.draw();
    }
    say(&mut side, 0, all, 0)?;
    Ok(side)
}

/// So many peers joined, so many frames came, and this fault was told last.
fn has_heard(rt: &impl Abort, side: &Side, joined: u64, frames: u64, fault: u64) {
    assert_number(rt, side.seen.joined as u64, joined);
    assert_number(rt, side.seen.frames as u64, frames);
    assert_number(rt, side.seen.fault as u64, fault);
}

/// Where all came in one turn it is heard in two.
fn hears_in_two_turns(rt: &impl Abort, side: &mut Side) {
    has_heard(rt, side, 0, 0, 0);
    side.turn(0);
    has_heard(rt, side, 1, 1, 0);
}

/// The other's proof, which is over both Hellos, isn't read before the own Hello is written.
#[test]
fn the_proof_waits_for_the_own_hello(rt: HostRuntime) -> Result<(), Fail> {
    let all = course(rt.alloc())?;
    assert_number(&rt, all.len() as u64, 335);
    let mut side = told(rt.alloc(), all.as_slice(), 0)?;
    hears_in_two_turns(&rt, &mut side);
    Ok(())
}

/// Nothing of a frame is told of bytes of which the one at a place was changed.
fn tells_no_frame(rt: &impl Abort, side: &mut Side, place: usize) {
    side.turn(0);
    assert_number(rt, side.seen.frames as u64, 0);
    match place {
        150 => assert_number(rt, side.seen.fault as u64, 124),
        334 => assert_number(rt, side.seen.fault as u64, 125),
        _ => (),
    }
}

/// The same of these bytes.
fn change(rt: &impl Abort, alloc: Global, all: &[u8], place: usize) -> Result<(), AllocError> {
    let mut side = told(alloc, all, 0)?;
    tells_no_frame(rt, &mut side, place);
    Ok(())
}

/// Whichever byte is changed, of the Hello, the proof, the beat, the lives or the frame, no frame is told: by 124 where it is the last of
/// the proof, and by 125 where it is the last of all.
#[test]
fn no_byte_may_change(rt: HostRuntime) -> Result<(), Fail> {
    let mut all = course(rt.alloc())?;
    for place in 0..all.len() {
        all[place] ^= 1;
        change(&rt, rt.alloc(), all.as_slice(), place)?;
        all[place] ^= 1;
    }
    Ok(())
}

/// The called node refuses this over a connection of another nonce.
fn is_stale(rt: &impl Abort, alloc: Global, all: &[u8]) -> Result<(), AllocError> {
    let mut low = told(alloc, all, 1)?;
    low.turn(0);
    has_heard(rt, &low, 0, 0, 124);
    Ok(())
}

/// The node that says this refuses it where it comes back.
fn is_its_own(rt: &impl Abort, alloc: Global, all: &[u8]) -> Result<(), AllocError> {
    let mut high = node(alloc, 1)?;
    high.turn(0);
    high.wire.come(Line::Peer(0), all)?;
    high.turn(0);
    has_heard(rt, &high, 0, 0, 123);
    Ok(())
}

/// What was said over an earlier connection proves nothing over one with another nonce, nor do a node's own records to it.
#[test]
fn nothing_is_heard_again(rt: HostRuntime) -> Result<(), Fail> {
    let all = course(rt.alloc())?;
    is_stale(&rt, rt.alloc(), all.as_slice())?;
    is_its_own(&rt, rt.alloc(), all.as_slice())?;
    Ok(())
}

/// What comes over a connection: the words are those to be judged, a Hello or a proof.
#[derive(Clone, Copy)]
enum Came {
    Nothing,
    Fault,
    Frame,
    Beat,
    Words,
}

/// One side of a connection, as a machine.
struct End {
    connection: Connection,
    number: u8,
    waiting: Outbox,
    frame: Frame,
}

/// By hand, so that letting one go is one call for whoever owns it (docs/ARCHITECTURE.md, Habits).
impl Drop for End {
    fn drop(self) {
        let End {
            connection: _,
            number: _,
            waiting: _,
            frame: _,
        } = self;
    }
}

impl End {
    /// Takes these bytes, and hears all that they say: so many frames. 1,000 where a fault came.
    fn hear(&mut self, bytes: &[u8]) -> Result<u64, AllocError> {
        self.connection.take(bytes)?;
        Ok(self.frames_heard())
    }

    /// The same of what came.
    fn frames_heard(&mut self) -> u64 {
        let mut frames = 0u64;
        for _ in 0..64 {
            match self.heard() {
                Came::Nothing => return frames,
                Came::Fault => return 1_000,
                Came::Frame => frames = frames.saturating_add(1),
                Came::Beat => (),
                Came::Words => self.settle(),
            }
        }
        frames
    }

    /// What came next.
    fn heard(&mut self) -> Came {
        match self.connection.next(&mut self.frame) {
            None => Came::Nothing,
            Some(Err(_)) => Came::Fault,
            Some(Ok(Arrived::Frame)) => Came::Frame,
            Some(Ok(Arrived::Beat(_) | Arrived::Further(_))) => Came::Beat,
            Some(Ok(Arrived::Hello(_) | Arrived::Proved(_))) => Came::Words,
        }
    }

    /// Judges what came, and answers it.
    fn settle(&mut self) {
        self.judge();
        self.connection.answer(coded_hello(0, 1, 4));
    }

    /// Judges what came.
    fn judge(&mut self) {
        let unmet = Met {
            lives: Known::Nothing,
            is_here: false,
        };
        let dialled = if self.number == 1 { Some(0) } else { None };
        let own = own(self.number, 9, Some(7));
        self.connection.settle(&own, dialled, &[unmet; 3]);
    }

    /// What it has to say at present, and no more than so many bytes.
    fn say(&mut self, alloc: Global, most: usize) -> Result<Vec<u8>, AllocError> {
        let mut out = Vec::new(alloc);
        self.say_to(&mut out, most)?;
        Ok(out)
    }

    /// The same, behind what was said.
    fn say_to(&mut self, out: &mut Vec<u8>, most: usize) -> Result<(), AllocError> {
        for _ in 0..most {
            self.connection.begin(&mut self.waiting);
            self.say_byte(out)?;
        }
        Ok(())
    }

    /// Says a byte of what was begun, if one is left.
    fn say_byte(&mut self, out: &mut Vec<u8>) -> Result<(), AllocError> {
        if let Some(byte) = self.connection.unwritten().first().copied() {
            self.connection.wrote(1);
            out.push(byte)?;
        }
        Ok(())
    }
}

/// What one says, so many bytes at most, is heard by the other as so many frames.
fn hears(
    rt: &impl Abort,
    alloc: Global,
    from: &mut End,
    to: &mut End,
    most: usize,
    frames: u64,
) -> Result<(), AllocError> {
    let said = from.say(alloc, most)?;
    assert_number(rt, to.hear(said.as_slice())?, frames);
    Ok(())
}

/// So many frames are to be said.
fn put_asks(end: &mut End, count: u64) {
    for _ in 0..count {
        let _ = end.waiting.put(&ASK, 4);
    }
}

/// Both say their Hellos and one its proof and half of a frame; of nine more four are left.
fn drops_the_oldest(
    rt: &impl Abort,
    alloc: Global,
    high: &mut End,
    low: &mut End,
) -> Result<(), AllocError> {
    hears(rt, alloc, high, low, 114, 0)?;
    hears(rt, alloc, low, high, 151, 0)?;
    put_asks(high, 1);
    hears(rt, alloc, high, low, 60, 0)?;
    put_asks(high, 9);
    hears(rt, alloc, high, low, 400, 5)
}

/// Of frames that wait the oldest are dropped while a record is half written: what comes behind it is read all the same.
#[test]
fn a_drop_breaks_no_code(rt: HostRuntime) -> Result<(), Fail> {
    let alloc = rt.alloc();
    let call = CodedConnection::call(alloc, key(7), coded_hello(1, 0, 3));
    let mut high = End {
        connection: Connection::Coded(call),
        number: 1,
        waiting: Outbox::new(alloc),
        frame: frame(&rt, &ASK),
    };
    let mut low = End {
        connection: Connection::listen(alloc, Some(key(7))),
        number: 0,
        waiting: Outbox::new(alloc),
        frame: frame(&rt, &ASK),
    };
    Ok(drops_the_oldest(&rt, alloc, &mut high, &mut low)?)
}
