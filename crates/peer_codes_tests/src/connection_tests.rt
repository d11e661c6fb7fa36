//! Two sides of a connection that talk, and what is heard where something on the way is changed.

ghost use Rattle.std.specs.Prelude.{◌≡◌, ◌<◌, true, length};
ghost use Rattle.peer_codes.specs.Steps.{is_coded};

use crate::samples::{
    ASK, BEAT, LIVES, LIVES_BYTES, assert_bytes, assert_that, called, caller, key, lives, second,
    with_nonce,
};
use crate::vectors::{
    CALLED_FRAME, CALLED_HELLO, CALLED_PROOF, CALLER_HELLO, CALLER_PROOF, FIRST_FRAME, FIRST_LIVES,
    SECOND_BEAT, SECOND_CALLED_HELLO, SECOND_CALLED_PROOF, SECOND_CALLER_HELLO,
    SECOND_CALLER_PROOF, SECOND_FRAME, SECOND_LIVES, THEN_BEAT, THEN_FRAME,
};
use arrayvec::ArrayVec;
use peer_codes::{Connection, Frame, Hello, Lent};
use std::alloc::{AllocError, Global};
use std::process::Abort;
use std::test::Fail;

/// How often each came, and the number of the fault that closed the connection, or 0.
#[derive(Clone, Copy, Debug, PartialEq, Eq)]
struct Heard {
    hellos: u8,
    proofs: u8,
    frames: u8,
    beats: u8,
    lives: u8,
    /// Hellos, frames and beats that nobody said.
    others: u8,
    fault: u8,
}

const NOTHING: Heard = Heard {
    hellos: 0,
    proofs: 0,
    frames: 0,
    beats: 0,
    lives: 0,
    others: 0,
    fault: 0,
};

/// The other's Hello came, and nothing else.
fn greeted() -> Heard {
    Heard {
        hellos: 1,
        ..NOTHING
    }
}

/// The other's proof came, and nothing else.
fn opened() -> Heard {
    Heard {
        proofs: 1,
        ..NOTHING
    }
}

/// This fault closed it, and nothing else came.
fn closed_by(fault: u8) -> Heard {
    Heard { fault, ..NOTHING }
}

/// What was heard, and this, of which the buffer has the bytes.
fn and_lent(heard: Heard, lent: Lent, frame: &Frame) -> Heard {
    let mut heard = heard;
    let bytes = frame.bytes.as_slice();
    match lent {
        Lent::Greeted(hello)
            if hello == caller()
                || hello == called()
                || hello == second(caller())
                || hello == second(called()) => {
            heard.hellos = heard.hellos.saturating_add(1);
        }
        Lent::Opened => heard.proofs = heard.proofs.saturating_add(1),
        Lent::Frame if bytes == ASK.as_slice() => {
            heard.frames = heard.frames.saturating_add(1);
        }
        Lent::Beat(beat) if beat == BEAT => heard.beats = heard.beats.saturating_add(1),
        Lent::More(kind) if kind == LIVES && bytes == LIVES_BYTES.as_slice() => {
            heard.lives = heard.lives.saturating_add(1);
        }
        _ => heard.others = heard.others.saturating_add(1),
    }
    heard
}

/// Hears all that came, up to a fault; the called answers with this Hello.
fn hear_all(side: &mut Connection, own: Hello) -> Heard
    requires { is_coded own.link ≡ true }
{
    let mut heard = NOTHING;
    let mut frame = Frame {
        bytes: ArrayVec::new(),
    };
    for _ in 0..8 {
        match side.next(&mut frame) {
            None => return heard,
            Some(Err(fault)) => {
                heard.fault = fault.code();
                return heard;
            }
            Some(Ok(lent)) => heard = and_lent(heard, lent, &frame),
        }
        side.answer(own);
    }
    heard
}

/// All that a side has to say at present.
fn said(alloc: Global, side: &mut Connection) -> Result<Vec<u8>, AllocError> {
    let mut out = Vec::new(alloc);
    for _ in 0..4 {
        side.begin();
        let text = side.unwritten();
        let count = text.len();
        out.extend_from_slice(text)?;
        side.wrote(count);
    }
    Ok(out)
}

/// So many bytes are written now, or all that there are.
fn wrote(side: &mut Connection, most: usize) {
    let count = side.unwritten().len().min(most);
    side.wrote(count);
}

// What `assert_eq!` makes is proved anew wherever it stands, so it stands in the functions below.

/// The two are equal; where they aren't, both are printed.
fn assert_heard(rt: &impl Abort, found: Heard, expected: Heard) {
    assert_eq!(rt; found, expected);
}

/// The same where this byte was changed.
fn assert_heard_at(rt: &impl Abort, place: usize, found: Heard, expected: Heard) {
    assert_eq!(rt; found, expected, "changed at {place}");
}

/// All that a side has to say at present is this.
fn says(
    rt: &impl Abort,
    alloc: Global,
    side: &mut Connection,
    expected: &[u8],
) -> Result<(), AllocError> {
    let told = said(alloc, side)?;
    assert_bytes(rt, told.as_slice(), expected);
    Ok(())
}

/// This comes, and is heard so, up to a fault; the called answers with this Hello.
fn comes(
    rt: &impl Abort,
    side: &mut Connection,
    bytes: &[u8],
    own: Hello,
    expected: Heard,
) -> Result<(), AllocError>
    requires { is_coded own.link ≡ true }
{
    side.take_piece(bytes)?;
    assert_heard(rt, hear_all(side, own), expected);
    Ok(())
}

/// The frame is to be said.
fn put_ask(rt: &impl Abort, side: &mut Connection) {
    match Frame::new(&ASK) {
        Some(frame) => assert!(rt; side.put_frame(frame).is_none(), "another frame waits"),
        None => assert!(rt; false, "no frame"),
    }
}

/// All that the caller says in `the_caller_talks`.
fn course(alloc: Global) -> Result<Vec<u8>, AllocError> {
    let mut whole = Vec::new(alloc);
    whole.extend_from_slice(&CALLER_HELLO)?;
    whole.extend_from_slice(&CALLER_PROOF)?;
    whole.extend_from_slice(&FIRST_FRAME)?;
    whole.extend_from_slice(&THEN_BEAT)?;
    whole.extend_from_slice(&THEN_FRAME)?;
    Ok(whole)
}

/// All that the called says in `the_called_talks`.
fn reply(alloc: Global) -> Result<Vec<u8>, AllocError> {
    let mut whole = Vec::new(alloc);
    whole.extend_from_slice(&CALLED_HELLO)?;
    whole.extend_from_slice(&CALLED_PROOF)?;
    whole.extend_from_slice(&CALLED_FRAME)?;
    Ok(whole)
}

/// The caller, open to the called.
fn open_caller(alloc: Global) -> Result<Connection, AllocError> {
    let mut side = Connection::call(alloc, key(), caller());
    let _own = said(alloc, &mut side)?;
    side.take_piece(&CALLED_HELLO)?;
    side.take_piece(&CALLED_PROOF)?;
    let _heard = hear_all(&mut side, caller());
    let _proof = said(alloc, &mut side)?;
    Ok(side)
}

/// A caller greets, and proves itself once it was greeted; a frame waits until the other has proved itself too.
fn opens(rt: &impl Abort, alloc: Global, side: &mut Connection) -> Result<(), AllocError> {
    says(rt, alloc, side, &CALLER_HELLO)?;
    comes(rt, side, &CALLED_HELLO, caller(), greeted())?;
    put_ask(rt, side);
    says(rt, alloc, side, &CALLER_PROOF)?;
    comes(rt, side, &CALLED_PROOF, caller(), opened())?;
    says(rt, alloc, side, &FIRST_FRAME)
}

/// A beat goes before a frame, and nothing is coded while it is unfinished.
fn beats_first(rt: &impl Abort, alloc: Global, side: &mut Connection) -> Result<(), AllocError> {
    put_ask(rt, side);
    side.tell_beat(BEAT);
    side.begin();
    assert_bytes(rt, side.unwritten(), &THEN_BEAT);
    wrote(side, 20);
    side.begin();
    assert_bytes(rt, side.unwritten(), &THEN_BEAT[20..]);
    wrote(side, 32);
    says(rt, alloc, side, &THEN_FRAME)
}

#[test]
fn the_caller_talks(rt: HostRuntime) -> Result<(), Fail> {
    let alloc = rt.alloc();
    let mut side = Connection::call(alloc, key(), caller());
    opens(&rt, alloc, &mut side)?;
    beats_first(&rt, alloc, &mut side)?;
    Ok(())
}

/// A frame is said where it lies, and another one behind a beat.
fn say_where_it_lies(
    rt: &impl Abort,
    alloc: Global,
    side: &mut Connection,
) -> Result<(), AllocError> {
    side.say_frame(&ASK);
    says(rt, alloc, side, &FIRST_FRAME)?;
    side.tell_beat(BEAT);
    side.say_frame(&ASK);
    assert_bytes(rt, side.unwritten(), &THEN_BEAT);
    wrote(side, 52);
    says(rt, alloc, side, &THEN_FRAME)
}

/// A frame that is said where it lies is coded as one that was put there, and waits as such where something goes before it.
#[test]
fn a_frame_is_said_where_it_lies(rt: HostRuntime) -> Result<(), Fail> {
    let alloc = rt.alloc();
    let mut side = open_caller(alloc)?;
    say_where_it_lies(&rt, alloc, &mut side)?;
    Ok(())
}

/// What the called hears in `the_called_talks`.
fn all_of_the_caller() -> Heard {
    Heard {
        hellos: 1,
        proofs: 1,
        frames: 2,
        beats: 1,
        ..NOTHING
    }
}

/// All that the caller says comes to a side byte by byte.
fn comes_by_bytes(alloc: Global, side: &mut Connection) -> Result<(), AllocError> {
    let whole = course(alloc)?;
    for byte in whole.as_slice() {
        side.take_piece(&[*byte])?;
    }
    Ok(())
}

/// A side says all that the called says.
fn replies(rt: &impl Abort, alloc: Global, side: &mut Connection) -> Result<(), AllocError> {
    let whole = reply(alloc)?;
    says(rt, alloc, side, whole.as_slice())
}

#[test]
fn the_called_talks(rt: HostRuntime) -> Result<(), Fail> {
    let alloc = rt.alloc();
    let mut side = Connection::listen(alloc, key());
    says(&rt, alloc, &mut side, &[])?;
    comes_by_bytes(alloc, &mut side)?;
    assert_heard(&rt, hear_all(&mut side, called()), all_of_the_caller());
    put_ask(&rt, &mut side);
    replies(&rt, alloc, &mut side)?;
    Ok(())
}

/// What the called hears of the first so many bytes of `course`.
fn heard_of(count: usize) -> Heard {
    Heard {
        hellos: u8::from(count >= 114),
        proofs: u8::from(count >= 151),
        frames: u8::from(count >= 198),
        beats: u8::from(count >= 250),
        ..NOTHING
    }
}

/// The fault that a changed bit in this byte of `course` shows; 0 where a length then asks for more than comes.
fn fault_of_change(place: usize) -> u8 {
    match place {
        2 | 116 | 153 | 200 | 252 => 0,
        0 | 1 | 114 | 115 | 117 | 151 | 152 | 198 | 199 | 250 | 251 => 120,
        3 | 5..=11 => 122,
        4 | 118 => 126,
        12..=150 => 124,
        _ => 125,
    }
}

/// These bytes come to a side, with a bit of the one at a place changed.
fn comes_changed(side: &mut Connection, whole: &[u8], place: usize) -> Result<(), AllocError>
    requires { place < length whole.now }
{
    side.take_piece(&whole[..place])?;
    side.take_piece(&[whole[place] ^ 1])?;
    side.take_piece(&whole[place + 1..])
}

/// What the called hears of that.
fn heard_changed(alloc: Global, whole: &[u8], place: usize) -> Result<Heard, AllocError>
    requires { place < length whole.now }
{
    let mut side = Connection::listen(alloc, key());
    comes_changed(&mut side, whole, place)?;
    Ok(hear_all(&mut side, called()))
}

/// What it is to hear of `course` where that is changed.
fn due_of_change(place: usize) -> Heard {
    Heard {
        others: u8::from(place >= 12 && place < 114),
        fault: fault_of_change(place),
        ..heard_of(place)
    }
}

/// With a bit of any one byte changed all before its record is heard and nothing behind it, and it is the first fault.
/// From its thirteenth byte on the changed Hello is one that some node could say: then the proof is at fault.
#[test]
fn a_changed_byte_is_a_fault(rt: HostRuntime) -> Result<(), Fail> {
    let alloc = rt.alloc();
    let whole = course(alloc)?;
    for place in 0..whole.len() {
        let heard = heard_changed(alloc, whole.as_slice(), place)?;
        assert_heard_at(&rt, place, heard, due_of_change(place));
    }
    Ok(())
}

/// What a side says comes back to it, and is heard so.
fn comes_back(
    rt: &impl Abort,
    alloc: Global,
    side: &mut Connection,
    expected: Heard,
) -> Result<(), AllocError> {
    let own = said(alloc, side)?;
    comes(rt, side, own.as_slice(), caller(), expected)
}

#[test]
fn an_own_proof_that_comes_back_is_refused(rt: HostRuntime) -> Result<(), Fail> {
    let alloc = rt.alloc();
    let mut side = Connection::call(alloc, key(), caller());
    comes_back(&rt, alloc, &mut side, greeted())?;
    comes_back(&rt, alloc, &mut side, closed_by(124))?;
    Ok(())
}

#[test]
fn an_own_frame_that_comes_back_is_refused(rt: HostRuntime) -> Result<(), Fail> {
    let alloc = rt.alloc();
    let mut side = open_caller(alloc)?;
    put_ask(&rt, &mut side);
    says(&rt, alloc, &mut side, &FIRST_FRAME)?;
    comes(&rt, &mut side, &FIRST_FRAME, caller(), closed_by(125))?;
    Ok(())
}

/// It is greeted, and then this fault closes it.
fn greeted_and_closed(fault: u8) -> Heard {
    Heard { fault, ..greeted() }
}

#[test]
fn a_proof_of_an_earlier_connection_is_refused(rt: HostRuntime) -> Result<(), Fail> {
    let again = with_nonce(called(), 50);
    let mut side = Connection::listen(rt.alloc(), key());
    side.take_piece(&CALLER_HELLO)?;
    comes(
        &rt,
        &mut side,
        &CALLER_PROOF,
        again,
        greeted_and_closed(124),
    )?;
    Ok(())
}

/// Whether lives are to be said.
fn put_lives(side: &mut Connection) -> bool {
    match lives(LIVES) {
        Some(more) => side.put_more(more),
        None => false,
    }
}

/// A caller that greets in the second version is answered in it.
fn opens_second(rt: &impl Abort, alloc: Global, side: &mut Connection) -> Result<(), AllocError> {
    says(rt, alloc, side, &SECOND_CALLER_HELLO)?;
    side.take_piece(&SECOND_CALLED_HELLO)?;
    side.take_piece(&SECOND_CALLED_PROOF)?;
    let _heard = hear_all(side, caller());
    says(rt, alloc, side, &SECOND_CALLER_PROOF)
}

/// All that the caller says in `the_caller_tells_lives`.
fn second_course(alloc: Global) -> Result<Vec<u8>, AllocError> {
    let mut whole = Vec::new(alloc);
    whole.extend_from_slice(&SECOND_BEAT)?;
    whole.extend_from_slice(&SECOND_LIVES)?;
    whole.extend_from_slice(&SECOND_FRAME)?;
    Ok(whole)
}

/// A caller that is open says a beat, lives and a frame.
fn tells_lives(rt: &impl Abort, alloc: Global, side: &mut Connection) -> Result<(), AllocError> {
    put_ask(rt, side);
    let is_taken = put_lives(side);
    assert_that(rt, is_taken, "not taken");
    let is_taken = put_lives(side);
    assert_that(rt, !is_taken, "taken twice");
    side.tell_beat(BEAT);
    let whole = second_course(alloc)?;
    says(rt, alloc, side, whole.as_slice())
}

/// Behind the beat lives are said, and then the frame; a second time they aren't taken while they wait.
#[test]
fn the_caller_tells_lives(rt: HostRuntime) -> Result<(), Fail> {
    let alloc = rt.alloc();
    let mut side = Connection::call(alloc, key(), second(caller()));
    opens_second(&rt, alloc, &mut side)?;
    tells_lives(&rt, alloc, &mut side)?;
    Ok(())
}

/// All that a caller says that tells lives comes to a side.
fn comes_with_lives(side: &mut Connection) -> Result<(), AllocError> {
    side.take_piece(&SECOND_CALLER_HELLO)?;
    side.take_piece(&SECOND_CALLER_PROOF)?;
    side.take_piece(&SECOND_BEAT)?;
    side.take_piece(&SECOND_LIVES)?;
    side.take_piece(&SECOND_FRAME)
}

#[test]
fn the_called_hears_lives(rt: HostRuntime) -> Result<(), Fail> {
    let mut side = Connection::listen(rt.alloc(), key());
    comes_with_lives(&mut side)?;
    let all = Heard {
        hellos: 1,
        proofs: 1,
        frames: 1,
        beats: 1,
        lives: 1,
        ..NOTHING
    };
    assert_heard(&rt, hear_all(&mut side, second(called())), all);
    Ok(())
}

/// On a connection of the first version lives are neither said nor heard.
#[test]
fn lives_are_of_the_second_version(rt: HostRuntime) -> Result<(), Fail> {
    let alloc = rt.alloc();
    let mut side = open_caller(alloc)?;
    let is_taken = put_lives(&mut side);
    assert_that(&rt, !is_taken, "taken");
    comes(&rt, &mut side, &FIRST_LIVES, caller(), closed_by(121))?;
    Ok(())
}

/// Who called in the second version takes no answer in the first.
#[test]
fn an_answer_in_another_version_is_refused(rt: HostRuntime) -> Result<(), Fail> {
    let mut side = Connection::call(rt.alloc(), key(), second(caller()));
    comes(&rt, &mut side, &CALLED_HELLO, caller(), closed_by(122))?;
    Ok(())
}

/// Who was called in the second version and answers in the first says its own Hello alone.
#[test]
fn the_called_answers_in_another_version(rt: HostRuntime) -> Result<(), Fail> {
    let alloc = rt.alloc();
    let mut side = Connection::listen(alloc, key());
    comes(
        &rt,
        &mut side,
        &SECOND_CALLER_HELLO,
        called(),
        greeted_and_closed(122),
    )?;
    says(&rt, alloc, &mut side, &CALLED_HELLO)?;
    Ok(())
}
