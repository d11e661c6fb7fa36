//! The notes of `serve`, and those of seats that `node` has too: what standard error gets while a match is served, one line
//! each.

ghost use Rattle.std.specs.Prelude.{◌≡◌, ◌++◌, codes, decimal, OnOk};
ghost use Rattle.std.specs.List.{flat_map};
ghost use Rattle.dealer_node.specs.FaultText.{fault_text};
ghost use Rattle.operator_notes.specs.Notes.{IsNoted, seat_text, port_text, ports_text, place_text, expected_text, node_text, faulty_text, faulty_in_text, in_hand_text, played_text, refused_text, late_text, there_text, source_text, times_text, about_text, note_text, note_line};
ghost use Rattle.operator_notes.specs.Causes.{cause_text};
ghost use Rattle.operator_notes.specs.Shown.{shown};
ghost use Rattle.operator_notes.specs.declared.note.Note.TheVariants.{Waiting as NotedWaiting};

use crate::cause::Cause;
use crate::seat_ports::SeatPorts;
use crate::sending::write_line;
use crate::shown::{put_named, put_path};
use dealer_node::NodeFault;
use match_log::Name;
use seat_session::SessionFault;
use std::alloc::{AllocError, Global};
use std::io::Write;
use std::net::IpAddr;

/// What is told of a seat at a node. Nodes are counted from 0.
#[derive(Clone, Copy, Debug)]
pub enum About<'a> {
    /// A connection was accepted there.
    Seated(u8),
    /// Its connection ended, failed or was closed.
    Gone(u8),
    /// It was ordered there that it is played for, in this hand.
    Played {
        node: u8,
        hand: u32,
    },
    /// The same where the hand isn't told.
    Ordered(u8),
    /// It hasn't come to any node yet, and the match waits for it.
    Missing,
    /// Somebody came to its port there with another token than its own, or with none, from this address if it is known.
    WrongToken {
        node: u8,
        source: Option<IpAddr>,
    },
    /// Somebody who came to its port there was closed before he had shown a token, since there was no place for him.
    NoPlace(u8),
    /// Its bot named a line there that is none of this seat in this match.
    OtherLine(u8),
    /// What it sent there was refused.
    Faulty {
        node: u8,
        fault: SessionFault,
    },
    /// What it sent there was refused, while this was the newest hand.
    FaultyIn {
        node: u8,
        hand: u32,
        fault: SessionFault,
    },
    /// An answer that it sent there was refused: in which hand, and what the player does. It is late where its line was
    /// shown to the seat, and isn't the one that the seat has there.
    Refused {
        node: u8,
        hand: u32,
        action: &'a [u8],
        fault: SessionFault,
        is_late: bool,
    },
}

/// A note. Nodes and seats are counted from 0.
#[derive(Clone, Copy, Debug)]
pub enum Note<'a> {
    /// The ports of a seat at so many nodes, node by node.
    Ports {
        seat: u8,
        name: Name,
        ports: SeatPorts,
        nodes: u8,
    },
    /// A seat is awaited at a node, and all wait for it.
    Awaiting {
        seat: usize,
        name: Name,
        node: u8,
        port: u32,
    },
    /// A seat that is awaited at a node, or read from there, sends nothing, and all wait for it; where it is read from,
    /// the line that it has there, if it was shown one.
    Waiting {
        seat: usize,
        name: Name,
        node: u8,
        port: u32,
        line: Option<&'a [u8]>,
    },
    /// Something of a seat.
    Seat {
        seat: usize,
        name: Name,
        about: About<'a>,
    },
    /// A node was stopped.
    Stopped(u8),
    /// A node was started.
    Started(u8),
    /// A node's store failed.
    Failed {
        node: u8,
        fault: NodeFault,
    },
    /// The port where the fault of the next line was found, and why.
    Port(u16, Cause),
    /// The file or folder where the fault of the next line was found, and why.
    File(&'a str, Cause),
    /// Of this file the system gives no lock.
    Unlocked(&'a str),
    /// A key of the match file that no command reads.
    Unused(&'a str),
    /// A key in the table of a node that no command reads.
    UnusedInNode(u8, &'a str),
    /// A file that others than its owner may use, though it has what they may not see.
    Open(&'a str),
    /// The seeds of these nodes are so small that each can be tried.
    ShortSeeds(&'a [u8]),
    /// The match has so many nodes, and none of the number that was asked for.
    NoSuchNode {
        node: u8,
        nodes: u8,
    },
    /// This file was made.
    Made(&'a str),
    /// There are stores, and nothing beside them says of which match they are.
    NotKept,
    /// The match is over: the last line of a log.
    Score(&'a [u8]),
}

/// Writes a note in one piece, and flushes. One that can't be made or written is left out, or a beginning of it stands
/// there.
pub fn tell_note<W: Write>(alloc: Global, notes: &mut W, note: &Note<'_>)
    ensures { IsNoted (note_line note.now) (W.contents notes.old) (W.contents notes.new) }
{
    let mut line = Vec::new(alloc);
    if put_line(&mut line, note).is_ok() {
        write_line(notes, &line);
    }
}

/// Appends a note with its line feed.
fn put_line(out: &mut Vec<u8>, note: &Note<'_>) -> Result<(), AllocError>
    ensures { OnOk result (out.new.items ≡ out.old.items ++ note_line note.now) }
{
    put_note(out, note)?;
    out.extend_from_slice(b"\n")
}

/// Appends a note, without a line feed. Without memory a beginning of it may stand there.
pub fn put_note(out: &mut Vec<u8>, note: &Note<'_>) -> Result<(), AllocError>
    ensures { OnOk result (out.new.items ≡ out.old.items ++ note_text note.now) }
{
    match note {
        Note::Ports {
            seat,
            name,
            ports,
            nodes,
        } => put_seat_ports(out, *seat, name, *ports, *nodes),
        Note::Awaiting {
            seat,
            name,
            node,
            port,
        } => put_awaiting(out, *seat, name, *node, *port),
        Note::Waiting {
            seat,
            name,
            node,
            port,
            line,
        } => put_waiting(out, *seat, name, *node, *port, *line),
        Note::Seat { seat, name, about } => {
            put_seat(out, *seat, name)?;
            put_about(out, about)
        }
        Note::Stopped(node) => put_node(out, *node, "stopped"),
        Note::Started(node) => put_node(out, *node, "started"),
        Note::Failed { node, fault } => put_fault(out, *node, fault),
        Note::Port(port, cause) => put_refused_port(out, *port, *cause),
        Note::File(path, cause) => put_path(out, path, cause.text()),
        Note::Unlocked(path) => put_path(
            out,
            path,
            ": no file locks here, make sure that only one process uses it",
        ),
        Note::Unused(key) => put_unused(out, key),
        Note::UnusedInNode(node, key) => put_unused_in_node(out, *node, key),
        Note::Open(path) => put_path(out, path, ": open to others than its owner"),
        Note::ShortSeeds(nodes) => put_short_seeds(out, nodes),
        Note::NoSuchNode { node, nodes } => put_no_such_node(out, *node, *nodes),
        Note::Made(path) => put_named(out, "created ", path),
        Note::NotKept => out.extend_from_slice(
            b"match.kept not found: can't verify that the stores belong to this match",
        ),
        Note::Score(line) => out.extend_from_slice(line),
    }
}

/// Appends the ports of a seat.
fn put_seat_ports(
    out: &mut Vec<u8>,
    seat: u8,
    name: &Name,
    ports: SeatPorts,
    nodes: u8,
) -> Result<(), AllocError>
    ensures { OnOk result (out.new.items ≡ out.old.items ++ (seat_text seat name.now ++ codes ": ports" ++ ports_text ports seat nodes)) }
{
    put_seat(out, seat as usize, name)?;
    out.extend_from_slice(b": ports")?;
    put_ports(out, ports, seat, nodes)
}

/// Appends that a seat is awaited.
fn put_awaiting(
    out: &mut Vec<u8>,
    seat: usize,
    name: &Name,
    node: u8,
    port: u32,
) -> Result<(), AllocError>
    ensures { OnOk result (out.new.items ≡ out.old.items ++ (seat_text seat name.now ++ expected_text node port)) }
{
    put_seat(out, seat, name)?;
    put_expected(out, node, port)
}

/// Appends that all wait for a seat, and its line.
fn put_waiting(
    out: &mut Vec<u8>,
    seat: usize,
    name: &Name,
    node: u8,
    port: u32,
    line: Option<&[u8]>,
) -> Result<(), AllocError>
    ensures { OnOk result (out.new.items ≡ out.old.items ++ note_text (NotedWaiting seat name.now node port line.entry)) }
{
    out.extend_from_slice(b"waiting for ")?;
    put_seat(out, seat, name)?;
    put_place(out, node, port)?;
    match line {
        Some(line) => {
            out.extend_from_slice(b", to answer ")?;
            out.extend_from_slice(line)
        }
        None => Ok(()),
    }
}

/// Appends a port that the system refused, and why.
fn put_refused_port(out: &mut Vec<u8>, port: u16, cause: Cause) -> Result<(), AllocError>
    ensures { OnOk result (out.new.items ≡ out.old.items ++ (codes "port " ++ decimal port ++ cause_text cause)) }
{
    out.extend_from_slice(b"port")?;
    put_port(out, port as u32)?;
    out.extend_from_slice(cause.text().as_bytes())
}

/// Appends that a key is unknown.
fn put_unused(out: &mut Vec<u8>, key: &str) -> Result<(), AllocError>
    ensures { OnOk result (out.new.items ≡ out.old.items ++ (codes "unknown key " ++ shown key.now ++ codes " in the match file, ignored")) }
{
    put_named(out, "unknown key ", key)?;
    out.extend_from_slice(b" in the match file, ignored")
}

/// Appends that a key of a node's table is unknown.
fn put_unused_in_node(out: &mut Vec<u8>, node: u8, key: &str) -> Result<(), AllocError>
    ensures { OnOk result (out.new.items ≡ out.old.items ++ (codes "unknown key " ++ shown key.now ++ codes " of node " ++ decimal node ++ codes " in the match file, ignored")) }
{
    put_named(out, "unknown key ", key)?;
    put_unused_of(out, node)
}

/// Appends that what stands in front is ignored in the table of a node.
fn put_unused_of(out: &mut Vec<u8>, node: u8) -> Result<(), AllocError>
    ensures { OnOk result (out.new.items ≡ out.old.items ++ (codes " of node " ++ decimal node ++ codes " in the match file, ignored")) }
{
    let text = format!(in *out.allocator(); " of node {node} in the match file, ignored")?;
    out.extend_from_slice(text.as_bytes())
}

/// Appends that a match has no node of this number, but so many.
fn put_no_such_node(out: &mut Vec<u8>, node: u8, nodes: u8) -> Result<(), AllocError>
    ensures { OnOk result (out.new.items ≡ out.old.items ++ (codes "node " ++ decimal node ++ codes ": the match has " ++ decimal nodes ++ codes " nodes, counted from 0")) }
{
    let text = format!(in *out.allocator();
        "node {node}: the match has {nodes} nodes, counted from 0"
    )?;
    out.extend_from_slice(text.as_bytes())
}

/// Appends that the seeds of these nodes are short.
fn put_short_seeds(out: &mut Vec<u8>, nodes: &[u8]) -> Result<(), AllocError>
    ensures { OnOk result (out.new.items ≡ out.old.items ++ (codes "seeds below 2^55 can be guessed from one hand: of node" ++ flat_map port_text nodes.now)) }
{
    out.extend_from_slice(b"seeds below 2^55 can be guessed from one hand: of node")?;
    put_numbers(out, nodes)
}

/// Appends numbers, each behind a space.
fn put_numbers(out: &mut Vec<u8>, numbers: &[u8]) -> Result<(), AllocError>
    ensures { OnOk result (out.new.items ≡ out.old.items ++ flat_map port_text numbers.now) }
{
    for number in numbers {
        put_port(out, *number as u32)?;
    }
    Ok(())
}

/// Appends what happened to a node.
fn put_node(out: &mut Vec<u8>, node: u8, what: &str) -> Result<(), AllocError>
    ensures { OnOk result (out.new.items ≡ out.old.items ++ node_text node what.now) }
{
    let text = format!(in *out.allocator(); "node {node}: {what}")?;
    out.extend_from_slice(text.as_bytes())
}

/// Appends why a node went down.
fn put_fault(out: &mut Vec<u8>, node: u8, fault: &NodeFault) -> Result<(), AllocError>
    ensures { OnOk result (out.new.items ≡ out.old.items ++ node_text node (fault_text fault.now)) }
{
    let text = format!(in *out.allocator(); "node {node}: {fault}")?;
    out.extend_from_slice(text.as_bytes())
}

/// Appends that a seat isn't connected, and where it is expected.
fn put_expected(out: &mut Vec<u8>, node: u8, port: u32) -> Result<(), AllocError>
    ensures { OnOk result (out.new.items ≡ out.old.items ++ expected_text node port) }
{
    out.extend_from_slice(b" not connected: expected")?;
    put_place(out, node, port)
}

/// Appends a place at which a seat is awaited.
fn put_place(out: &mut Vec<u8>, node: u8, port: u32) -> Result<(), AllocError>
    ensures { OnOk result (out.new.items ≡ out.old.items ++ place_text node port) }
{
    let text = format!(in *out.allocator(); " at node {node}, port {port}")?;
    out.extend_from_slice(text.as_bytes())
}

/// Appends what is told of a seat.
fn put_about(out: &mut Vec<u8>, about: &About<'_>) -> Result<(), AllocError>
    ensures { OnOk result (out.new.items ≡ out.old.items ++ about_text about.now) }
{
    match about {
        About::Seated(node) => put_there(out, *node, "seated"),
        About::Gone(node) => put_there(out, *node, "disconnected"),
        About::Ordered(node) => put_there(out, *node, "timed out, default action ordered"),
        About::Missing => out.extend_from_slice(b": not connected yet, the match waits"),
        About::WrongToken { node, source } => {
            put_there(out, *node, "wrong token")?;
            put_source(out, source)
        }
        About::NoPlace(node) => put_there(out, *node, "inbound connection refused: no place"),
        About::OtherLine(node) => put_there(out, *node, "86 OtherLine"),
        About::Played { node, hand } => put_played(out, *node, *hand),
        About::Faulty { node, fault } => put_faulty(out, *node, fault),
        About::FaultyIn { node, hand, fault } => put_faulty_in(out, *node, *hand, fault),
        About::Refused {
            node,
            hand,
            action,
            fault,
            is_late,
        } => put_refused(out, *node, *hand, action, fault, *is_late),
    }
}

/// Appends what happened to a seat at a node.
fn put_there(out: &mut Vec<u8>, node: u8, what: &str) -> Result<(), AllocError>
    ensures { OnOk result (out.new.items ≡ out.old.items ++ there_text node what.now) }
{
    let text = format!(in *out.allocator(); " at node {node}: {what}")?;
    out.extend_from_slice(text.as_bytes())
}

/// Appends where a connection came from, where that is known.
pub fn put_source(out: &mut Vec<u8>, source: &Option<IpAddr>) -> Result<(), AllocError>
    ensures { OnOk result (out.new.items ≡ out.old.items ++ source_text source.now) }
{
    if let Some(address) = source {
        let text = format!(in *out.allocator(); " (from {address})")?;
        out.extend_from_slice(text.as_bytes())?;
    }
    Ok(())
}

/// Appends how many times it was, where it was more than once.
pub fn put_times(out: &mut Vec<u8>, count: u64) -> Result<(), AllocError>
    ensures { OnOk result (out.new.items ≡ out.old.items ++ times_text count) }
{
    if 1 < count {
        let text = format!(in *out.allocator(); " ({count} times)")?;
        out.extend_from_slice(text.as_bytes())?;
    }
    Ok(())
}

/// Appends that a seat is played for, and in which hand.
fn put_played(out: &mut Vec<u8>, node: u8, hand: u32) -> Result<(), AllocError>
    ensures { OnOk result (out.new.items ≡ out.old.items ++ played_text node hand) }
{
    put_in_hand(out, node, hand, "absent, default action ordered")
}

/// Appends what happened to a seat at a node, and in which hand.
fn put_in_hand(out: &mut Vec<u8>, node: u8, hand: u32, what: &str) -> Result<(), AllocError>
    ensures { OnOk result (out.new.items ≡ out.old.items ++ in_hand_text node hand what.now) }
{
    let text = format!(in *out.allocator(); " at node {node}, hand {hand}: {what}")?;
    out.extend_from_slice(text.as_bytes())
}

/// Appends what is wrong with what a seat sent.
fn put_faulty(out: &mut Vec<u8>, node: u8, fault: &SessionFault) -> Result<(), AllocError>
    ensures { OnOk result (out.new.items ≡ out.old.items ++ faulty_text node fault.now) }
{
    let text = format!(in *out.allocator(); " at node {node}: {fault}")?;
    out.extend_from_slice(text.as_bytes())
}

/// Appends what is wrong with what a seat sent, and in which hand.
fn put_faulty_in(
    out: &mut Vec<u8>,
    node: u8,
    hand: u32,
    fault: &SessionFault,
) -> Result<(), AllocError>
    ensures { OnOk result (out.new.items ≡ out.old.items ++ faulty_in_text node hand fault.now) }
{
    let text = format!(in *out.allocator(); " at node {node}, hand {hand}: {fault}")?;
    out.extend_from_slice(text.as_bytes())
}

/// Appends which answer was refused, and why.
fn put_refused(
    out: &mut Vec<u8>,
    node: u8,
    hand: u32,
    action: &[u8],
    fault: &SessionFault,
    is_late: bool,
) -> Result<(), AllocError>
    ensures { OnOk result (out.new.items ≡ out.old.items ++ refused_text node hand action.now fault.now is_late) }
{
    let front = format!(in *out.allocator(); " at node {node}, hand {hand}: ")?;
    out.extend_from_slice(front.as_bytes())?;
    out.extend_from_slice(action)?;
    let why = format!(in *out.allocator(); ": {fault}")?;
    out.extend_from_slice(why.as_bytes())?;
    out.extend_from_slice(late(is_late).as_bytes())
}

/// What stands behind the fault of an answer that came late.
fn late(is_late: bool) -> &'static str
    ensures { result.now ≡ late_text is_late }
{
    if is_late {
        " (answers an earlier line)"
    } else {
        ""
    }
}

/// Appends which seat it is: `seat 0 (alice)`.
fn put_seat(out: &mut Vec<u8>, seat: usize, name: &Name) -> Result<(), AllocError>
    ensures { OnOk result (out.new.items ≡ out.old.items ++ seat_text seat name.now) }
{
    let front = format!(in *out.allocator(); "seat {seat} (")?;
    out.extend_from_slice(front.as_bytes())?;
    out.extend_from_slice(name.as_bytes())?;
    out.extend_from_slice(b")")
}

/// Appends a seat's ports at so many nodes, each behind a space.
fn put_ports(out: &mut Vec<u8>, ports: SeatPorts, seat: u8, nodes: u8) -> Result<(), AllocError>
    ensures { OnOk result (out.new.items ≡ out.old.items ++ ports_text ports seat nodes) }
{
    for node in 0..nodes {
        put_port(out, ports.port(node, seat))?;
    }
    Ok(())
}

/// Appends a port behind a space.
fn put_port(out: &mut Vec<u8>, port: u32) -> Result<(), AllocError>
    ensures { OnOk result (out.new.items ≡ out.old.items ++ port_text port) }
{
    let text = format!(in *out.allocator(); " {port}")?;
    out.extend_from_slice(text.as_bytes())
}
