ghost use Rattle.std.specs.Prelude.{◌≡◌, Some};
ghost use Rattle.node_links.specs.Lines.{peer_fault_code, peer_fault_line, zeros, digests_line, numbers_of, between, wrong_number_line, mismatch_line};

use peer_codes::RecordFault;
use std::fmt;
use thiserror::Error;

/// The heads of two digests that differ: of each the first four bytes as a number, of which the first byte counts most.
///
/// It prints both, as eight hexadecimal digits each.
#[derive(Clone, Copy, Debug, PartialEq, Eq)]
pub struct Digests {
    /// Of this node's match.
    pub here: u32,
    /// Of the match that the other's Hello says.
    pub there: u32,
}

/// Two numbers that differ, of nodes or of how many there are: one that came, and the one that was expected.
#[derive(Clone, Copy, Debug, PartialEq, Eq)]
pub struct Numbers {
    /// What the other's Hello says.
    pub said: u8,
    /// What this node expected.
    pub expected: u8,
}

/// Which number of a node that a Hello says isn't the expected one.
///
/// It prints the number that came, then the one that was expected.
#[derive(Clone, Copy, Debug, PartialEq, Eq)]
pub enum WrongNumber {
    /// That of the node that speaks: this node dialled another.
    Speaker(Numbers),
    /// That of the node that is called: this node has another.
    Called(Numbers),
    /// That of the node that dialled: it isn't above this node's own, which is the second number.
    Caller(Numbers),
}

/// In what two nodes differ that play different matches, or aren't those that they are taken for.
///
/// It prints the word for it, then what the two of them say.
#[derive(Clone, Copy, Debug, PartialEq, Eq)]
pub enum Mismatch {
    /// The setting of the match.
    Digest(Digests),
    /// How many nodes the match has.
    Nodes(Numbers),
    /// Which node speaks, or to which.
    Number(WrongNumber),
}

/// Whose store was lost and made anew, or is an older copy.
#[derive(Clone, Copy, Debug, PartialEq, Eq)]
pub enum Whose {
    /// That of the node that reads the Hello, or is told.
    Own,
    /// That of the node that said it.
    Other,
}

/// Why a connection between two nodes is closed.
///
/// It prints as its number and its name; 123 prints what differs behind them.
#[derive(Clone, Copy, Debug, PartialEq, Eq, Error)]
pub enum PeerFault {
    /// 120 to 122: what came is no record, or no Hello of this kind of connection.
    Record(RecordFault),
    /// 123: the other is of another match, or not the node that was to speak.
    OtherMatch(Mismatch),
    /// 124: the other's proof isn't that of a side that has the key of the match.
    WrongProof,
    /// 125: a record's tag isn't that of this record at its number, on this connection.
    WrongTag,
    /// 126: a record of another kind than may come now.
    UnexpectedRecord,
    /// 127: a store of a node has another life than the one that is kept of it, so it was lost and made anew.
    StoreReplaced(Whose),
    /// 128: a connection of this node is open already, and it was heard over it.
    AlreadyHere,
    /// 130: a store of a node promises less than it is known to have promised, so it is an older copy that was put back.
    StoreOlder(Whose),
}

impl PeerFault {
    /// The fault's number, 120 to 128 or 130.
    pub fn code(self) -> u8
        ensures { result ≡ peer_fault_code self }
    {
        match self {
            PeerFault::Record(fault) => fault.code(),
            PeerFault::OtherMatch(_) => 123,
            PeerFault::WrongProof => 124,
            PeerFault::WrongTag => 125,
            PeerFault::UnexpectedRecord => 126,
            PeerFault::StoreReplaced(_) => 127,
            PeerFault::AlreadyHere => 128,
            PeerFault::StoreOlder(_) => 130,
        }
    }
}

impl WrongNumber {
    /// The number that came, and the one that was expected.
    fn numbers(self) -> Numbers
        ensures { result ≡ numbers_of self }
    {
        match self {
            WrongNumber::Speaker(numbers)
            | WrongNumber::Called(numbers)
            | WrongNumber::Caller(numbers) => numbers,
        }
    }

    /// What is printed between them.
    fn between(self) -> &'static str
        ensures { result.now ≡ between self }
    {
        match self {
            WrongNumber::Speaker(_) => ", not ",
            WrongNumber::Called(_) => " called, not ",
            WrongNumber::Caller(_) => ", not above ",
        }
    }
}

/// The zeros in front of a number's hexadecimal digits, so that there are eight.
fn zeros(number: u32) -> &'static str
    ensures { result.now ≡ zeros number }
{
    if number < 0x10 {
        "0000000"
    } else if number < 0x100 {
        "000000"
    } else if number < 0x1000 {
        "00000"
    } else if number < 0x1_0000 {
        "0000"
    } else if number < 0x10_0000 {
        "000"
    } else if number < 0x100_0000 {
        "00"
    } else if number < 0x1000_0000 {
        "0"
    } else {
        ""
    }
}

impl fmt::Display for Digests {
    ghost output = { λ digests. Some (digests_line digests) };

    fn fmt<W: fmt::Write>(&self, f: &mut fmt::Formatter<W>) -> fmt::Result {
        let before = zeros(self.here);
        let here = self.here;
        let between = zeros(self.there);
        let there = self.there;
        write!(f, "here {before}{here:x}, there {between}{there:x}")
    }
}

impl fmt::Display for WrongNumber {
    ghost output = { λ wrong. Some (wrong_number_line wrong) };

    fn fmt<W: fmt::Write>(&self, f: &mut fmt::Formatter<W>) -> fmt::Result {
        let Numbers { said, expected } = self.numbers();
        let between = self.between();
        write!(f, "{said}{between}{expected}")
    }
}

impl fmt::Display for Mismatch {
    ghost output = { λ what. Some (mismatch_line what) };

    fn fmt<W: fmt::Write>(&self, f: &mut fmt::Formatter<W>) -> fmt::Result {
        match self {
            Mismatch::Digest(digests) => write!(f, "digest: {digests}"),
            Mismatch::Nodes(Numbers { said, expected }) => {
                write!(f, "nodes {said}, not {expected}")
            }
            Mismatch::Number(wrong) => write!(f, "number {wrong}"),
        }
    }
}

impl fmt::Display for PeerFault {
    ghost output = { λ fault. Some (peer_fault_line fault) };

    fn fmt<W: fmt::Write>(&self, f: &mut fmt::Formatter<W>) -> fmt::Result {
        match self {
            PeerFault::Record(RecordFault::BadLength) => f.write_str("120 BadLength"),
            PeerFault::Record(RecordFault::BadKind) => f.write_str("121 BadKind"),
            PeerFault::Record(RecordFault::BadHello) => f.write_str("122 BadHello"),
            PeerFault::OtherMatch(what) => write!(f, "123 OtherMatch {what}"),
            PeerFault::WrongProof => f.write_str("124 WrongProof"),
            PeerFault::WrongTag => f.write_str("125 WrongTag"),
            PeerFault::UnexpectedRecord => f.write_str("126 UnexpectedRecord"),
            PeerFault::StoreReplaced(_) => f.write_str("127 StoreReplaced"),
            PeerFault::AlreadyHere => f.write_str("128 AlreadyHere"),
            PeerFault::StoreOlder(_) => f.write_str("130 StoreOlder"),
        }
    }
}
