//! Both Hellos of a connection, and what follows from them and the key: each side's proof, and the way on which it speaks.

ghost use Rattle.std.specs.Prelude.{◌≡◌};
ghost use Rattle.peer_codes.specs.Codes.{hellos_text, way_key, way_of};
ghost use Rattle.peer_codes.specs.Steps.{proof_of};

use crate::hello::Hello;
use crate::hmac::tag;
use crate::key::Key;
use crate::limits::{CODED_HELLO_BYTES, KEY_BYTES};
use crate::records::Proof;
use crate::role::Role;
use crate::way::Way;
use crate::writing::hello_bytes;
use arrayvec::ArrayVec;
use paxos_wire::push_all;

/// The most bytes of both Hellos.
const BOTH_HELLOS: usize = 2 * CODED_HELLO_BYTES;

/// What the two sides of a connection said first.
#[derive(Clone, Copy, Debug, PartialEq, Eq)]
pub struct Hellos {
    pub caller: Hello,
    pub called: Hello,
}

impl Hellos {
    /// The bytes of both, the caller's first.
    fn text(&self) -> ArrayVec<u8, BOTH_HELLOS>
        ensures { result.items ≡ hellos_text self.now }
    {
        let mut out = ArrayVec::new();
        push_all(&mut out, hello_bytes(&self.caller).as_slice());
        push_all(&mut out, hello_bytes(&self.called).as_slice());
        out
    }

    /// What the side in this role has to say to show that it has the key.
    pub fn proof(&self, key: &Key, role: Role) -> Proof
        ensures { result ≡ proof_of key.now.bytes role self.now }
    {
        let side = role.byte();
        let front = [
            b'H', b'D', b'N', b'1', b' ', b'p', b'r', b'o', b'o', b'f', side,
        ];
        Proof {
            tag: tag(&key.bytes, &front, self.text().as_slice()),
        }
    }

    /// The key of the way on which the side in this role speaks.
    fn way_key(&self, key: &Key, role: Role) -> [u8; KEY_BYTES]
        ensures { result ≡ way_key key.now.bytes role self.now }
    {
        let speaker = role.byte();
        let front = [b'H', b'D', b'N', b'1', b' ', b'w', b'a', b'y', speaker];
        tag(&key.bytes, &front, self.text().as_slice())
    }

    /// The way on which the side in this role speaks, at its beginning; its version is that of the caller's Hello, which is
    /// the called's too on each connection that opens. A connection makes it once: on two ways of one
    /// connection and role two records would have one number and lie under one part of the seal.
    pub fn way(&self, key: &Key, role: Role) -> Way
        ensures { result ≡ way_of key.now.bytes role self.now }
    {
        Way::new(self.caller.version, self.way_key(key, role))
    }
}
