//! The callers who were refused, for notes.

ghost use Rattle.std.specs.Prelude.{◌≡◌, ◌<◌, None, replicate};
ghost use Rattle.node_links.specs.Refusing.{and_refused, is_noted, number_of, refused_by, due_at, Notes};

use crate::limits::NOTED;
use crate::peer_fault::PeerFault;
use peer_codes::RecordFault;

/// How many numbers faults have: 120 to 128, and 130.
const NUMBERS: usize = 10;

/// So many callers were refused, the last by this fault.
#[derive(Clone, Copy, Debug, PartialEq, Eq)]
pub struct Refused {
    pub count: u32,
    pub fault: PeerFault,
}

/// The callers of some addresses who were refused since the last note of each number, and when that was: of each number
/// there is one a second at most.
#[derive(Clone, Copy, Debug, PartialEq, Eq)]
pub struct Refusals {
    /// The node whose addresses these are; none of all other addresses.
    pub peer: Option<u8>,
    /// Of each number, in their order.
    pub since: [Option<Refused>; NUMBERS],
    /// In whole microseconds.
    pub noted: [Option<u64>; NUMBERS],
}

/// Those who were refused, and one more.
fn and_refused(fault: PeerFault, since: Option<Refused>) -> Refused
    ensures { result ≡ and_refused fault since }
{
    match since {
        Some(refused) => Refused {
            count: refused.count.saturating_add(1),
            fault,
        },
        None => Refused { count: 1, fault },
    }
}

/// Whether a note may be made.
fn is_noted(noted: Option<u64>, now: u64) -> bool
    ensures { result ≡ is_noted noted now }
{
    match noted {
        Some(at) => NOTED <= now.saturating_sub(at),
        None => true,
    }
}

/// The place of a fault's number among them.
fn number(fault: PeerFault) -> usize
    ensures number { result ≡ number_of fault }
    ensures within { result < 10 }
{
    match fault {
        PeerFault::Record(fault) => match fault {
            RecordFault::BadLength => 0,
            RecordFault::BadKind => 1,
            RecordFault::BadHello => 2,
        },
        PeerFault::OtherMatch(_) => 3,
        PeerFault::WrongProof => 4,
        PeerFault::WrongTag => 5,
        PeerFault::UnexpectedRecord => 6,
        PeerFault::StoreReplaced(_) => 7,
        PeerFault::AlreadyHere => 8,
        PeerFault::StoreOlder(_) => 9,
    }
}

impl Refusals {
    /// Nobody was refused of the addresses of this node, or of all others.
    pub fn new(peer: Option<u8>) -> Refusals
        ensures { result ≡ record { peer = peer; since = replicate 10 None; noted = replicate 10 None } }
    {
        Refusals {
            peer,
            since: [None; NUMBERS],
            noted: [None; NUMBERS],
        }
    }

    /// One more is refused.
    pub fn refuse(&mut self, fault: PeerFault)
        ensures { self.new ≡ refused_by fault self.old }
    {
        let number = number(fault);
        self.since[number] = Some(and_refused(fault, self.since[number]));
    }

    /// What is noted now of the number at this place, if anything is.
    fn due(&self, number: usize, now: u64) -> Option<Refused>
        requires { number < 10 }
        ensures { result ≡ due_at self.now number now }
    {
        if is_noted(self.noted[number], now) {
            self.since[number]
        } else {
            None
        }
    }

    /// The next that is noted now, if anything is: those of one number.
    pub fn note(&mut self, now: u64) -> Option<Refused>
        ensures { Notes self.old now result self.new }
    {
        for number in 0..NUMBERS {
            if let Some(refused) = self.due(number, now) {
                self.since[number] = None;
                self.noted[number] = Some(now);
                return Some(refused);
            }
        }
        None
    }
}
