//! What came first over a connection.

ghost use Rattle.std.specs.Prelude.{◌≡◌, ◌-◌, ◌++◌, ℕ, List, [], take, IfSome, Some};
ghost use Rattle.arrayvec.specs.ArrayVec.{array_vec_len};
ghost use Rattle.peer_codes.specs.declared.hello.Hello.{Hello};
ghost use Rattle.peer_codes.specs.declared.records.Record.TheVariants as record_of;
ghost use Rattle.peer_codes.specs.Fits.{IsRecord};
ghost use Rattle.peer_codes.specs.Spelling.{record_text};
ghost use Rattle.node_links.specs.declared.limits.TheConstants.{HEADING_BYTES};
ghost use Rattle.node_links.specs.Versions.{IsSaid, said_in, said_by};

use crate::limits::HEADING_BYTES;
use arrayvec::ArrayVec;
use paxos_wire::push_all;
use peer_codes::{Record, RecordFault, Version, read_record};

/// The bytes that came first over a connection, as many as the record of a Hello has at most.
#[derive(Drop)]
pub struct Heading {
    bytes: ArrayVec<u8, HEADING_BYTES>,
}

/// The version of what was read, where that is a Hello.
fn said_in(said: &Record) -> Option<Version>
    ensures { result ≡ said_in said.now }
{
    match said {
        Record::Hello(hello) => Some(hello.version),
        Record::Proof(_) => None,
        Record::Frame(_) => None,
        Record::Beat(_) => None,
        Record::More(_) => None,
    }
}

/// The same of what was read in front, if anything was.
fn said_by(read: Option<(Result<Record, RecordFault>, usize)>) -> Option<Version>
    ensures { result ≡ said_by read }
{
    match read {
        Some((Ok(said), _)) => said_in(&said),
        Some((Err(_), _)) => None,
        None => None,
    }
}

impl Heading {
    /// Nothing came yet.
    pub fn new() -> Heading
        ensures { result.bytes.items ≡ [] }
    {
        Heading {
            bytes: ArrayVec::new(),
        }
    }

    /// A piece came behind what came before: of it so much is kept as there is room for.
    #[tactic(auto, using(std::proofs::lemmas::List::take_all))]
    pub fn take(&mut self, piece: &[u8])
        ensures { self.new.bytes.items ≡ self.old.bytes.items ++ take (HEADING_BYTES - array_vec_len self.old.bytes) piece.now }
    {
        let room = self.bytes.remaining_capacity();
        if piece.len() <= room {
            push_all(&mut self.bytes, piece);
        } else {
            push_all(&mut self.bytes, &piece[..room]);
        }
    }

    /// The version of the Hello that came first; `None` where that isn't whole yet, and where something else came first.
    #[tactic(auto, using(crate::proofs::Headings::is_said))]
    pub fn version(&self) -> Option<Version>
        ensures said { IfSome result (λ version. IsSaid version self.now.bytes.items) }
        ensures all { (hello : Hello) (rest : List ℕ) → IsRecord (record_of.Hello hello) → self.now.bytes.items ≡ record_text (record_of.Hello hello) ++ rest → result ≡ Some hello.version }
    {
        said_by(read_record(self.bytes.as_slice()))
    }
}
