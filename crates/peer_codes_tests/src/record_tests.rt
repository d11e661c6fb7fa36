//! Records without codes as the second writing has them.

use crate::samples::{ASK, BEAT, LIVES_BYTES, assert_bytes, called, caller, lives, second};
use crate::vectors::{
    PLAIN_BEAT, PLAIN_FRAME, PLAIN_HELLO, PLAIN_LATER, SECOND_CALLED_HELLO, SECOND_CALLER_HELLO,
};
use peer_codes::{Frame, Hello, Link, Record, read_record, record_bytes};

#[test]
fn hellos_and_beats_are_those_of_the_second_writing(rt: HostRuntime) {
    let plain = Hello {
        link: Link::Plain,
        ..caller()
    };
    let found = record_bytes(&Record::Hello(plain));
    assert_bytes(&rt, found.as_slice(), &PLAIN_HELLO);
    let found = record_bytes(&Record::Beat(BEAT));
    assert_bytes(&rt, found.as_slice(), &PLAIN_BEAT);
}

#[test]
fn hellos_of_the_second_version_are_those_of_the_second_writing(rt: HostRuntime) {
    let found = record_bytes(&Record::Hello(second(caller())));
    assert_bytes(&rt, found.as_slice(), &SECOND_CALLER_HELLO);
    let found = record_bytes(&Record::Hello(second(called())));
    assert_bytes(&rt, found.as_slice(), &SECOND_CALLED_HELLO);
}

/// A record of a kind that nobody names is written and read.
#[test]
fn a_further_kind_is_that_of_the_second_writing(rt: HostRuntime) {
    match lives(200) {
        Some(more) => {
            let found = record_bytes(&Record::More(more));
            assert_bytes(&rt, found.as_slice(), &PLAIN_LATER);
        }
        None => assert!(rt; false, "no record"),
    }
    match read_record(&PLAIN_LATER) {
        Some((Ok(Record::More(more)), _)) => {
            assert_bytes(&rt, &[more.kind], &[200]);
            assert_bytes(&rt, more.bytes.as_slice(), &LIVES_BYTES);
        }
        _ => assert!(rt; false, "not read"),
    }
}

#[test]
fn frames_are_those_of_the_second_writing(rt: HostRuntime) {
    match Frame::new(&ASK) {
        Some(frame) => {
            let found = record_bytes(&Record::Frame(frame));
            assert_bytes(&rt, found.as_slice(), &PLAIN_FRAME);
        }
        None => assert!(rt; false, "no frame"),
    }
}
