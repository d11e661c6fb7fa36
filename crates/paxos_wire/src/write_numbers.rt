//! Numbers, slots and ballots, written behind other bytes.

ghost use Rattle.std.specs.Prelude.{◌≡◌, ◌+◌, ◌≤◌, ◌++◌, length};
ghost use Rattle.std.specs.Vec.{vec_len, vec_capacity};
ghost use Rattle.byteorder.specs.Endian.{big_bytes};
ghost use Rattle.arrayvec.specs.ArrayVec.{array_vec_len};
ghost use Rattle.paxos_wire.specs.Spelling.{ballot_text, slot_text};

use crate::ballot::Ballot;
use crate::limits::{BALLOT_BYTES, MOST_COMMAND, SLOT_BYTES};
use arrayvec::ArrayVec;
use byteorder::{BigEndian, ByteOrder};

/// The bytes of a ballot: four of its round, and its node.
pub fn ballot_bytes(ballot: Ballot) -> [u8; BALLOT_BYTES]
    ensures { result ≡ ballot_text ballot }
{
    let mut bytes = [0; BALLOT_BYTES];
    BigEndian::write_u32(&mut bytes, ballot.round);
    bytes[4] = ballot.node;
    bytes
}

/// The bytes of a slot.
pub fn slot_bytes(slot: u32) -> [u8; SLOT_BYTES]
    ensures { result ≡ slot_text slot }
{
    let mut bytes = [0; SLOT_BYTES];
    BigEndian::write_u32(&mut bytes, slot);
    bytes
}

/// Puts bytes behind the last one of a list of at most `MOST`, where there is room for them.
pub fn push_all<const MOST: usize>(out: &mut ArrayVec<u8, MOST>, bytes: &[u8])
    requires { array_vec_len out.old + length bytes.now ≤ MOST }
    ensures items { out.new.items ≡ out.old.items ++ bytes.now }
    ensures len { array_vec_len out.new ≡ array_vec_len out.old + length bytes.now }
{
    match out.try_extend_from_slice(bytes) {
        Ok(()) => (),
        Err(_) => unreachable!(),
    }
}

/// Puts a number of four bytes behind the last one.
pub(crate) fn push_number(out: &mut ArrayVec<u8, MOST_COMMAND>, number: u32)
    requires { array_vec_len out.old + 4 ≤ MOST_COMMAND }
    ensures items { out.new.items ≡ out.old.items ++ big_bytes 4 number }
    ensures len { array_vec_len out.new ≡ array_vec_len out.old + 4 }
{
    push_all(out, &slot_bytes(number));
}

/// Puts a number of two bytes behind the last one.
pub(crate) fn push_short(out: &mut ArrayVec<u8, MOST_COMMAND>, number: u16)
    requires { array_vec_len out.old + 2 ≤ MOST_COMMAND }
    ensures items { out.new.items ≡ out.old.items ++ big_bytes 2 number }
    ensures len { array_vec_len out.new ≡ array_vec_len out.old + 2 }
{
    let mut bytes = [0; 2];
    BigEndian::write_u16(&mut bytes, number);
    push_all(out, &bytes);
}

/// Puts a number of four bytes behind the last one.
pub(crate) fn put_number(out: &mut Vec<u8>, number: u32)
    requires { vec_len out.old + 4 ≤ vec_capacity out.old }
    ensures items { out.new.items ≡ out.old.items ++ big_bytes 4 number }
    ensures capacity { vec_capacity out.old ≤ vec_capacity out.new }
{
    out.extend_from_slice(&slot_bytes(number)).unwrap();
}

/// Puts a ballot behind the last byte.
pub(crate) fn put_ballot(out: &mut Vec<u8>, ballot: Ballot)
    requires { vec_len out.old + 5 ≤ vec_capacity out.old }
    ensures items { out.new.items ≡ out.old.items ++ ballot_text ballot }
    ensures capacity { vec_capacity out.old ≤ vec_capacity out.new }
{
    out.extend_from_slice(&ballot_bytes(ballot)).unwrap();
}
