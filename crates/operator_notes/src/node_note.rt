//! The notes of `node`: what standard error gets of a node's process, one line each, beside those that `serve` has too.

ghost use Rattle.std.specs.Prelude.{◌≡◌, ◌++◌, codes, decimal, OnOk};
ghost use Rattle.node_links.specs.Lines.{peer_fault_line};
ghost use Rattle.paxos_wire.specs.Lines.{ballot_line};
ghost use Rattle.operator_notes.specs.Notes.{IsNoted, source_text};
ghost use Rattle.operator_notes.specs.Shown.{shown};
ghost use Rattle.std.specs.Net.Text.{socket_text};
ghost use Rattle.operator_notes.specs.KeyFaults.{fault_line};
ghost use Rattle.operator_notes.specs.NodeNotes.{at_text, away_text, behind_text, difference_text, machine_text, match_text, note_line, note_text, peer_text, seed_text, slowest_text, started_text, time_text};

use crate::key_fault::KeyFault;
use crate::note::put_source;
use crate::sending::write_line;
use crate::shown::{put_named, put_path, put_shown};
use crate::time::{Seconds, Time};
use match_log::Name;
use node_links::PeerFault;
use paxos_wire::Ballot;
use std::alloc::{AllocError, Global};
use std::io::Write;
use std::net::{IpAddr, SocketAddr};

/// A note. Nodes are counted from 0.
#[derive(Clone, Copy, Debug)]
pub enum NodeNote<'a> {
    /// The node begins: of which match, which of its nodes it is, and the slot from which on it doesn't know what is chosen.
    Begins {
        name: Name,
        node: u8,
        front: u32,
    },
    /// Nothing was found by which a start of the node would be refused, where no port was tried: of which match, and which of
    /// its nodes it is.
    CanStart {
        name: Name,
        node: u8,
    },
    /// The seed of this node is 0 in the match file, and that of another one isn't, as `new-match` writes it for the machine of
    /// that one.
    OtherMachine(u8),
    /// A key of the match file by which `node` doesn't go.
    PassedOver(&'a str),
    /// The file that the machine of node 0 has, and this one hasn't.
    NotCopied(&'a str),
    /// A file that `init` makes isn't there.
    NotMade(&'a str),
    /// A file that a lost store of the node left, in whose place none is made.
    NotReplaced(&'a str),
    /// The store of the node, which promises less than it had promised: an older copy of it was put back.
    OlderCopy(&'a str),
    /// The hand whose line would have differed in a log from that of a kept one: the log, and the kept one.
    LogDiffers {
        log: &'a str,
        hand: u32,
        kept: &'a str,
    },
    /// No key is named: whoever has a trusted address speaks for a node or a seat.
    NoKey,
    /// The match file has no tokens: whoever reaches a seat's port sits there.
    NoTokens,
    /// The token of a seat is one that an example has, so that everybody knows it.
    KnownToken(u8),
    /// The file of the key can't be one.
    BadKey(&'a str, KeyFault),
    /// Who connects there gets a line that says how the node is.
    Status(SocketAddr),
    /// A connection to a peer is open.
    Joined(u8),
    /// It ended.
    Gone(u8),
    /// A connection to a peer was closed by a fault, and where it came from or went to, if that is known.
    Refused {
        peer: u8,
        fault: PeerFault,
        source: Option<IpAddr>,
    },
    /// A connection of a caller was closed by a fault, before it was known who calls; it came from an address of this peer, or
    /// from another.
    Caller {
        peer: Option<u8>,
        fault: PeerFault,
    },
    /// A time at this key differs in the match file of a peer: so many milliseconds there and here, 0 where a file has none.
    OtherTime {
        peer: u8,
        key: &'a str,
        there: u32,
        here: u32,
    },
    /// What is done about a seat at which nobody is differs in the match file of a peer: it is waited for there, or here.
    OtherAway {
        peer: u8,
        waits_there: bool,
        waits_here: bool,
    },
    /// The tokens of seats differ in the match file of a peer.
    OtherTokens(u8),
    /// A caller left or was closed before he had said a Hello, or at once since there was no place for him.
    NoPlace,
    /// Dials of a peer have come to nothing for a minute: its address refuses, or nobody answers there.
    Unreached {
        peer: u8,
        refuses: bool,
    },
    /// A peer is so many commands behind, and of its answers of late the slowest took so many microseconds.
    Behind {
        peer: u8,
        behind: u32,
        slowest: u64,
    },
    /// More than half of the nodes are here, this one among them.
    Quorum,
    /// No more so.
    QuorumLost,
    /// This node campaigns in this ballot: it prepares or leads.
    Campaigns(Ballot),
    /// So many notes were left out, since there were too many in a second.
    LeftOut(u64),
    /// The match is over, and the other nodes know it, or are away.
    Over,
}

/// Writes a note in one piece, and flushes. One that can't be made or written is left out, or a beginning of it stands
/// there.
pub fn tell_node_note<W: Write>(alloc: Global, notes: &mut W, note: &NodeNote<'_>)
    ensures { IsNoted (note_line note.now) (W.contents notes.old) (W.contents notes.new) }
{
    let mut line = Vec::new(alloc);
    if put_line(&mut line, note).is_ok() {
        write_line(notes, &line);
    }
}

/// Appends a note with its line feed.
fn put_line(out: &mut Vec<u8>, note: &NodeNote<'_>) -> Result<(), AllocError>
    ensures { OnOk result (out.new.items ≡ out.old.items ++ note_line note.now) }
{
    put_node_note(out, note)?;
    out.extend_from_slice(b"\n")
}

/// Appends a note, without a line feed. Without memory a beginning of it may stand there.
pub fn put_node_note(out: &mut Vec<u8>, note: &NodeNote<'_>) -> Result<(), AllocError>
    ensures { OnOk result (out.new.items ≡ out.old.items ++ note_text note.now) }
{
    match note {
        NodeNote::Begins { name, node, front } => put_begin(out, name, *node, *front),
        NodeNote::CanStart { name, node } => put_can_start(out, name, *node),
        NodeNote::OtherMachine(node) => put_other_machine(out, *node),
        NodeNote::PassedOver(key) => put_passed_over(out, key),
        NodeNote::NotCopied(path) => {
            put_path(out, path, ": not found: copy it from the machine of node 0")
        }
        NodeNote::NotMade(path) => {
            put_path(
                out,
                path,
                ": not found: run init only if this node never ran",
            )
        },
        NodeNote::NotReplaced(path) => {
            put_path(
                out,
                path,
                ": left by an earlier store: a lost store can't be replaced",
            )
        }
        NodeNote::OlderCopy(path) => {
            put_path(
                out,
                path,
                ": an older copy: put the newest one back, or leave this node out",
            )
        }
        NodeNote::LogDiffers { log, hand, kept } => put_difference(out, log, *hand, kept),
        NodeNote::NoKey => {
            out.extend_from_slice(
                b"no key: connections between nodes are neither authenticated nor encrypted",
            )
        }
        NodeNote::NoTokens => {
            out.extend_from_slice(
                b"no tokens: whoever reaches a seat's port gets its cards and acts",
            )
        }
        NodeNote::KnownToken(seat) => put_known_token(out, *seat),
        NodeNote::BadKey(path, fault) => put_key_fault(out, path, fault),
        NodeNote::Status(address) => put_status(out, address),
        NodeNote::Joined(peer) => put_peer(out, *peer, "connected"),
        NodeNote::Gone(peer) => put_peer(out, *peer, "disconnected"),
        NodeNote::Refused {
            peer,
            fault,
            source,
        } => put_refused(out, *peer, fault, source),
        NodeNote::Caller { peer, fault } => put_caller(out, peer, fault),
        NodeNote::OtherTime {
            peer,
            key,
            there,
            here,
        } => put_other_time(out, *peer, key, *there, *here),
        NodeNote::OtherAway {
            peer,
            waits_there,
            waits_here,
        } => put_other(out, *peer, "away", away(*waits_there), away(*waits_here)),
        NodeNote::OtherTokens(peer) => put_peer(out, *peer, "tokens differ"),
        NodeNote::NoPlace => out.extend_from_slice(
            b"inbound connection refused: no Hello, or no place",
        ),
        NodeNote::Unreached {
            peer,
            refuses: true,
        } => put_peer(out, *peer, "its address refuses"),
        NodeNote::Unreached {
            peer,
            refuses: false,
        } => put_peer(out, *peer, "answers no dial"),
        NodeNote::Behind {
            peer,
            behind,
            slowest,
        } => put_behind(out, *peer, *behind, *slowest),
        NodeNote::Quorum => out.extend_from_slice(
            b"quorum: more than half of the nodes are connected",
        ),
        NodeNote::QuorumLost => out.extend_from_slice(
            b"quorum lost: bots are disconnected until it returns",
        ),
        NodeNote::Campaigns(ballot) => put_campaign(out, ballot),
        NodeNote::LeftOut(count) => put_left_out(out, *count),
        NodeNote::Over => out.extend_from_slice(b"the match is over"),
    }
}

/// Appends which node of which match begins, and its front.
fn put_begin(out: &mut Vec<u8>, name: &Name, node: u8, front: u32) -> Result<(), AllocError>
    ensures { OnOk result (out.new.items ≡ out.old.items ++ (match_text name.now node ++ started_text front)) }
{
    put_match(out, name, node)?;
    let text = format!(in *out.allocator(); ": started, first unchosen slot {front}")?;
    out.extend_from_slice(text.as_bytes())
}

/// Appends which node of which match can be started.
fn put_can_start(out: &mut Vec<u8>, name: &Name, node: u8) -> Result<(), AllocError>
    ensures { OnOk result (out.new.items ≡ out.old.items ++ (match_text name.now node ++ codes ": can be started (its ports were not tried)")) }
{
    put_match(out, name, node)?;
    out.extend_from_slice(b": can be started (its ports were not tried)")
}

/// Appends that the seed of a node is 0, and the question whether this is its machine.
fn put_other_machine(out: &mut Vec<u8>, node: u8) -> Result<(), AllocError>
    ensures { OnOk result (out.new.items ≡ out.old.items ++ (seed_text node ++ machine_text node)) }
{
    put_seed(out, node)?;
    put_machine(out, node)
}

/// Appends the question whether this is the machine of a node.
fn put_machine(out: &mut Vec<u8>, node: u8) -> Result<(), AllocError>
    ensures { OnOk result (out.new.items ≡ out.old.items ++ machine_text node) }
{
    let text = format!(in *out.allocator(); ": is this the machine of node {node}?")?;
    out.extend_from_slice(text.as_bytes())
}

/// Appends that the seed of a node is 0.
fn put_seed(out: &mut Vec<u8>, node: u8) -> Result<(), AllocError>
    ensures { OnOk result (out.new.items ≡ out.old.items ++ seed_text node) }
{
    let text = format!(in *out.allocator(); "seed 0 of node {node}")?;
    out.extend_from_slice(text.as_bytes())
}

/// Appends a match, and one of its nodes.
fn put_match(out: &mut Vec<u8>, name: &Name, node: u8) -> Result<(), AllocError>
    ensures { OnOk result (out.new.items ≡ out.old.items ++ match_text name.now node) }
{
    out.extend_from_slice(b"match ")?;
    out.extend_from_slice(name.as_bytes())?;
    let text = format!(in *out.allocator(); ", node {node}")?;
    out.extend_from_slice(text.as_bytes())
}

/// Appends that a key is passed over.
fn put_passed_over(out: &mut Vec<u8>, key: &str) -> Result<(), AllocError>
    ensures { OnOk result (out.new.items ≡ out.old.items ++ (codes "key " ++ key.now ++ codes " is for serve only, ignored")) }
{
    let text = format!(in *out.allocator(); "key {key} is for serve only, ignored")?;
    out.extend_from_slice(text.as_bytes())
}

/// Appends that the token of a seat is known.
fn put_known_token(out: &mut Vec<u8>, seat: u8) -> Result<(), AllocError>
    ensures { OnOk result (out.new.items ≡ out.old.items ++ (codes "token of seat " ++ decimal seat ++ codes " is an example's: draw another")) }
{
    let text = format!(in *out.allocator(); "token of seat {seat} is an example's: draw another")?;
    out.extend_from_slice(text.as_bytes())
}

/// Appends which hand of a log would have differed from that of a kept one.
fn put_difference(out: &mut Vec<u8>, log: &str, hand: u32, kept: &str) -> Result<(), AllocError>
    ensures { OnOk result (out.new.items ≡ out.old.items ++ (shown log.now ++ codes ": hand " ++ decimal hand ++ codes " differs from that of " ++ shown kept.now)) }
{
    put_hand(out, log, hand)?;
    put_named(out, " differs from that of ", kept)
}

/// Appends a hand of a log.
fn put_hand(out: &mut Vec<u8>, log: &str, hand: u32) -> Result<(), AllocError>
    ensures { OnOk result (out.new.items ≡ out.old.items ++ (shown log.now ++ codes ": hand " ++ decimal hand)) }
{
    put_shown(out, log)?;
    let text = format!(in *out.allocator(); ": hand {hand}")?;
    out.extend_from_slice(text.as_bytes())
}

/// Appends what happened to a peer.
fn put_peer(out: &mut Vec<u8>, peer: u8, what: &str) -> Result<(), AllocError>
    ensures { OnOk result (out.new.items ≡ out.old.items ++ peer_text peer what.now) }
{
    let text = format!(in *out.allocator(); "peer {peer}: {what}")?;
    out.extend_from_slice(text.as_bytes())
}

/// Appends by which fault the connection to a peer was closed, and the address at its other end.
fn put_refused(
    out: &mut Vec<u8>,
    peer: u8,
    fault: &PeerFault,
    source: &Option<IpAddr>,
) -> Result<(), AllocError>
    ensures { OnOk result (out.new.items ≡ out.old.items ++ (peer_text peer (peer_fault_line fault.now) ++ source_text source.now)) }
{
    let text = format!(in *out.allocator(); "peer {peer}: {fault}")?;
    out.extend_from_slice(text.as_bytes())?;
    put_source(out, source)
}

/// Appends why the file of the key can't be one.
fn put_key_fault(out: &mut Vec<u8>, path: &str, fault: &KeyFault) -> Result<(), AllocError>
    ensures { OnOk result (out.new.items ≡ out.old.items ++ (shown path.now ++ fault_line fault.now)) }
{
    put_shown(out, path)?;
    let text = format!(in *out.allocator(); "{fault}")?;
    out.extend_from_slice(text.as_bytes())
}

/// Appends where the status is served.
fn put_status(out: &mut Vec<u8>, address: &SocketAddr) -> Result<(), AllocError>
    ensures { OnOk result (out.new.items ≡ out.old.items ++ (codes "status at " ++ socket_text address.now)) }
{
    let text = format!(in *out.allocator(); "status at {address}")?;
    out.extend_from_slice(text.as_bytes())
}

/// Appends by which fault a connection of a caller was closed, and whose address it came from, if it was a peer's.
fn put_caller(out: &mut Vec<u8>, peer: &Option<u8>, fault: &PeerFault) -> Result<(), AllocError>
    ensures { OnOk result (out.new.items ≡ out.old.items ++ ((codes "inbound connection refused: " ++ peer_fault_line fault.now) ++ at_text peer.now)) }
{
    out.extend_from_slice(b"inbound connection refused: ")?;
    put_peer_fault(out, fault)?;
    put_at(out, peer)
}

/// Appends a fault of a connection.
fn put_peer_fault(out: &mut Vec<u8>, fault: &PeerFault) -> Result<(), AllocError>
    ensures { OnOk result (out.new.items ≡ out.old.items ++ peer_fault_line fault.now) }
{
    let text = format!(in *out.allocator(); "{fault}")?;
    out.extend_from_slice(text.as_bytes())
}

/// Appends of which peer an address is, if it is one's.
fn put_at(out: &mut Vec<u8>, peer: &Option<u8>) -> Result<(), AllocError>
    ensures { OnOk result (out.new.items ≡ out.old.items ++ at_text peer.now) }
{
    if let Some(peer) = peer {
        let text = format!(in *out.allocator(); " (from peer {peer}'s address)")?;
        out.extend_from_slice(text.as_bytes())?;
    }
    Ok(())
}

/// Appends which time differs in the match file of a peer.
fn put_other_time(
    out: &mut Vec<u8>,
    peer: u8,
    key: &str,
    there: u32,
    here: u32,
) -> Result<(), AllocError>
    ensures { OnOk result (out.new.items ≡ out.old.items ++ peer_text peer (difference_text key.now (time_text there) (time_text here))) }
{
    let there = Time {
        milliseconds: there,
    };
    let here = Time { milliseconds: here };
    let there = format!(in *out.allocator(); "{there}")?;
    let here = format!(in *out.allocator(); "{here}")?;
    put_other(out, peer, key, there.as_str(), here.as_str())
}

/// Appends what differs in the match file of a peer: what stands at a key there and here.
fn put_other(
    out: &mut Vec<u8>,
    peer: u8,
    key: &str,
    there: &str,
    here: &str,
) -> Result<(), AllocError>
    ensures { OnOk result (out.new.items ≡ out.old.items ++ peer_text peer (difference_text key.now there.now here.now)) }
{
    let text = format!(in *out.allocator(); "peer {peer}: {key} {there}, here {here}")?;
    out.extend_from_slice(text.as_bytes())
}

/// What stands at `away`.
fn away(waits: bool) -> &'static str
    ensures { result.now ≡ away_text waits }
{
    if waits { "wait" } else { "play" }
}

/// Appends how many commands a peer is behind, and how many microseconds its slowest answer took.
fn put_behind(out: &mut Vec<u8>, peer: u8, behind: u32, slowest: u64) -> Result<(), AllocError>
    ensures { OnOk result (out.new.items ≡ out.old.items ++ (behind_text peer behind ++ slowest_text slowest)) }
{
    put_lag(out, peer, behind)?;
    put_slowest(out, slowest)
}

/// Appends how many commands a peer is behind.
fn put_lag(out: &mut Vec<u8>, peer: u8, behind: u32) -> Result<(), AllocError>
    ensures { OnOk result (out.new.items ≡ out.old.items ++ behind_text peer behind) }
{
    put_peer_name(out, peer)?;
    put_commands(out, behind)
}

/// Appends which peer something is told of.
fn put_peer_name(out: &mut Vec<u8>, peer: u8) -> Result<(), AllocError>
    ensures { OnOk result (out.new.items ≡ out.old.items ++ (codes "peer " ++ decimal peer ++ codes ": ")) }
{
    let text = format!(in *out.allocator(); "peer {peer}: ")?;
    out.extend_from_slice(text.as_bytes())
}

/// Appends how many commands somebody is behind.
fn put_commands(out: &mut Vec<u8>, behind: u32) -> Result<(), AllocError>
    ensures { OnOk result (out.new.items ≡ out.old.items ++ (decimal behind ++ codes " commands behind")) }
{
    let text = format!(in *out.allocator(); "{behind} commands behind")?;
    out.extend_from_slice(text.as_bytes())
}

/// Appends how many microseconds the slowest answer took.
fn put_slowest(out: &mut Vec<u8>, slowest: u64) -> Result<(), AllocError>
    ensures { OnOk result (out.new.items ≡ out.old.items ++ slowest_text slowest) }
{
    let slowest = Seconds {
        microseconds: slowest,
    };
    let slowest = format!(in *out.allocator(); "{slowest}")?;
    put_answer(out, slowest.as_str())
}

/// Appends how long the slowest answer took, in seconds.
fn put_answer(out: &mut Vec<u8>, slowest: &str) -> Result<(), AllocError>
    ensures { OnOk result (out.new.items ≡ out.old.items ++ (codes ", slowest answer in seconds: " ++ slowest.now)) }
{
    let text = format!(in *out.allocator(); ", slowest answer in seconds: {slowest}")?;
    out.extend_from_slice(text.as_bytes())
}

/// Appends how many notes were left out.
fn put_left_out(out: &mut Vec<u8>, count: u64) -> Result<(), AllocError>
    ensures { OnOk result (out.new.items ≡ out.old.items ++ (decimal count ++ codes " notes left out")) }
{
    let text = format!(in *out.allocator(); "{count} notes left out")?;
    out.extend_from_slice(text.as_bytes())
}

/// Appends in which ballot the node campaigns.
fn put_campaign(out: &mut Vec<u8>, ballot: &Ballot) -> Result<(), AllocError>
    ensures { OnOk result (out.new.items ≡ out.old.items ++ (codes "campaigns in ballot " ++ ballot_line ballot.now)) }
{
    let text = format!(in *out.allocator(); "campaigns in ballot {ballot}")?;
    out.extend_from_slice(text.as_bytes())
}
