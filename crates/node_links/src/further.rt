//! What a record of a further kind tells.

ghost use Rattle.std.specs.Prelude.{◌≡◌};
ghost use Rattle.node_links.specs.Telling.{more_in, further_of, read_behind};

use crate::limits::{LIVES, PROMISED, SETTINGS};
use crate::lives::{Lives, lives_of};
use crate::promised::promised_of;
use crate::settings::{Settings, settings_of};
use paxos_wire::Ballot;
use peer_codes::{Hello, RecordFault, Version};

/// What a record of a further kind tells.
#[derive(Clone, Copy, Debug, PartialEq, Eq)]
pub enum Further {
    /// The lives that the other knows.
    Lives(Lives),
    /// The settings of the other's process.
    Settings(Settings),
    /// The ballot that the other knows this node to have promised.
    Promised(Ballot),
    /// Something of a kind that isn't known here: it is passed over.
    Unknown,
}

/// What a record of this further kind with these bytes tells of a match of so many nodes: 120 `BadLength` where it has more bytes or fewer than
/// one of its kind.
fn further_of(nodes: u8, kind: u8, bytes: &[u8]) -> Result<Further, RecordFault>
    ensures { result ≡ further_of nodes (more_in kind bytes.now) }
{
    match kind {
        LIVES => match lives_of(nodes, bytes) {
            Ok(lives) => Ok(Further::Lives(lives)),
            Err(fault) => Err(fault),
        },
        SETTINGS => match settings_of(bytes) {
            Ok(settings) => Ok(Further::Settings(settings)),
            Err(fault) => Err(fault),
        },
        PROMISED => match promised_of(bytes) {
            Ok(ballot) => Ok(Further::Promised(ballot)),
            Err(fault) => Err(fault),
        },
        _ => Ok(Further::Unknown),
    }
}

/// The same behind the other's Hello: 121 `BadKind` where that is of the first version.
pub(crate) fn read_behind(hello: &Hello, kind: u8, bytes: &[u8]) -> Result<Further, RecordFault>
    ensures { result ≡ read_behind hello.now (more_in kind bytes.now) }
{
    match hello.version {
        Version::First => Err(RecordFault::BadKind),
        Version::Second => further_of(hello.ends.nodes, kind, bytes),
    }
}
