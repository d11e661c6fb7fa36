ghost use Rattle.std.specs.Prelude.{◌≡◌};
ghost use Rattle.peer_codes.specs.Versions.{magic_of, version_told, same_version};

use crate::limits::{FIRST_MAGIC, SECOND_MAGIC};

/// The version of a Hello, and of the connection that two Hellos of it begin.
#[derive(Clone, Copy, Debug, PartialEq, Eq)]
pub enum Version {
    /// `HDN1`: behind it come frames and beats alone.
    First,
    /// `HDN2`: records of further kinds may come too, and who doesn't know a kind passes it over.
    Second,
}

impl Version {
    /// The version that a magic number tells, if one does.
    pub(crate) fn of_magic(magic: u32) -> Option<Version>
        ensures { result ≡ version_told magic }
    {
        match magic {
            FIRST_MAGIC => Some(Version::First),
            SECOND_MAGIC => Some(Version::Second),
            _ => None,
        }
    }

    /// The number that its Hello begins with.
    pub(crate) fn magic(self) -> u32
        ensures { result ≡ magic_of self }
    {
        match self {
            Version::First => FIRST_MAGIC,
            Version::Second => SECOND_MAGIC,
        }
    }

    /// Whether another is the same.
    pub(crate) fn is_same(self, other: Version) -> bool
        ensures { result ≡ same_version self other }
    {
        match (self, other) {
            (Version::First, Version::First) => true,
            (Version::Second, Version::Second) => true,
            (Version::First, Version::Second) => false,
            (Version::Second, Version::First) => false,
        }
    }
}
