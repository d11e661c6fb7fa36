ghost use Rattle.std.specs.Prelude.{◌≡◌, true, false, MatchOption};
ghost use Rattle.paxos_wire.specs.Versions.{version_byte, nodes_in, is_version, version_of};

use crate::limits::{NODES, OLD_NODES, OLD_VERSION, VERSION};

/// The version of a frame or a record. What is written is of the new one; both are read.
#[derive(Clone, Copy, Debug, PartialEq, Eq)]
pub enum Version {
    /// Byte 1: for up to five nodes, numbered from 0 to 4, with one command in an Accept and an Accepted and no count
    /// before it.
    Old,
    /// Byte 2: for up to seven nodes, with a count before the commands of an Accept and an Accepted.
    New,
}

impl Version {
    /// The version that a byte tells; `None` for every byte but 1 and 2.
    pub(crate) fn of_byte(byte: u8) -> Option<Version>
        ensures { MatchOption result (is_version byte ≡ false) (λ version. (is_version byte ≡ true) × (version_of byte ≡ version)) }
    {
        match byte {
            OLD_VERSION => Some(Version::Old),
            VERSION => Some(Version::New),
            _ => None,
        }
    }

    /// Nodes of this version are numbered from 0 to one below this.
    pub(crate) fn nodes(self) -> u8
        ensures { result ≡ nodes_in self }
    {
        match self {
            Version::Old => OLD_NODES,
            Version::New => NODES,
        }
    }
}
