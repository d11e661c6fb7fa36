//! In which version of the Hello a peer is dialled.

ghost use Rattle.std.specs.Prelude.{◌≡◌};
ghost use Rattle.node_links.specs.Versions.{version_of, is_probe, closed_end, behind_first, behind_silence, next_turn};

use peer_codes::Version;

/// How a peer is dialled.
#[derive(Clone, Copy, Debug, PartialEq, Eq)]
pub enum Turn {
    /// In the second version.
    Second,
    /// In the first version, to learn whether a node is there at all: the last dial was closed without a byte. The Hello that
    /// answers ends the dial, and no connection opens.
    Probe,
    /// In the second version again: a Hello answered the probe.
    Again,
    /// In the first version, once: the peer doesn't know the second.
    First,
}

/// How a dial of a peer ended.
#[derive(Clone, Copy, Debug, PartialEq, Eq)]
pub enum DialEnd {
    /// A connection opened by it.
    Opened,
    /// A Hello of this version came first, and no connection opened.
    Greeted(Version),
    /// It was answered, and the other closed it without a byte.
    Silent,
    /// It wasn't answered, or ended otherwise.
    Failed,
}

impl Turn {
    /// The version of the Hello that the dial begins with.
    pub fn version(self) -> Version
        ensures { result ≡ version_of self }
    {
        match self {
            Turn::Second => Version::Second,
            Turn::Probe => Version::First,
            Turn::Again => Version::Second,
            Turn::First => Version::First,
        }
    }

    /// Whether no connection opens by it.
    pub fn is_probe(self) -> bool
        ensures { result ≡ is_probe self }
    {
        match self {
            Turn::Second => false,
            Turn::Probe => true,
            Turn::Again => false,
            Turn::First => false,
        }
    }
}

/// How a dial ended by which no connection opened, where the other closed it without a byte or didn't, and a Hello of this
/// version came first, if one did.
pub fn closed_end(is_silent: bool, said: Option<Version>) -> DialEnd
    ensures { result ≡ closed_end is_silent said }
{
    match said {
        Some(version) => DialEnd::Greeted(version),
        None => {
            if is_silent {
                DialEnd::Silent
            } else {
                DialEnd::Failed
            }
        }
    }
}

/// How a peer is dialled behind a dial by which a Hello of the first version came, and no connection opened.
fn behind_first(turn: Turn) -> Turn
    ensures { result ≡ behind_first turn }
{
    match turn {
        Turn::Second => Turn::First,
        Turn::Probe => Turn::Again,
        Turn::Again => Turn::First,
        Turn::First => Turn::Second,
    }
}

/// How a peer is dialled behind a dial that was closed without a byte.
fn behind_silence(turn: Turn) -> Turn
    ensures { result ≡ behind_silence turn }
{
    match turn {
        Turn::Second => Turn::Probe,
        Turn::Probe => Turn::Second,
        Turn::Again => Turn::First,
        Turn::First => Turn::Second,
    }
}

/// How a peer is dialled next, behind a dial that ended so.
///
/// It is dialled in the second version, and in the first only once it is known to be an older node. One that has a key, or
/// reads Hellos of the second version and refuses them, answers with a Hello of the first: then it is dialled in the first at
/// once. Another older node closes the dial without a byte, and so does a proxy whose node isn't there. So a probe in the first
/// version asks whether a node is there, and if it is one more dial in the second whether that is older. Behind each
/// connection the second version comes first again, since the peer may be another program by then.
pub fn next_turn(turn: Turn, end: DialEnd) -> Turn
    ensures { result ≡ next_turn turn end }
{
    match end {
        DialEnd::Opened => Turn::Second,
        DialEnd::Greeted(Version::First) => behind_first(turn),
        DialEnd::Greeted(Version::Second) => Turn::Second,
        DialEnd::Silent => behind_silence(turn),
        DialEnd::Failed => Turn::Second,
    }
}
