//! What the notes of `serve` tell of a turn, and of the match's end.

ghost use Rattle.std.specs.Prelude.{◌≡◌, ◌+◌, ◌<◌, ◌∷◌, ◌++◌, None, Some, IfSome, IsNone, drop, length, map, slice_get, take};
ghost use Rattle.dealer_world.specs.Viewing.{view_of};
ghost use Rattle.streamed.specs.Script.{HasNoFeed};
ghost use Rattle.operator_notes.specs.Notes.{AreNoted, note_line, about_text};
ghost use Rattle.match_runs.specs.Notes.{names_in, ports_notes, awaited_notes, seat_lines, played_lines, waiting_lines, failure_notes};
ghost use Rattle.match_runs.specs.Refusals.{TellsFault, TellsFaults};
ghost use Rattle.match_runs.specs.Turning.{TellsDone, TellsWaiting};
ghost use Rattle.match_runs.specs.Score.{IsLastLine, EndsInFeed, IsLastLog, HasNoLog, TellsScore};

use crate::dealt::Dealt;
use crate::refusals::about_fault;
use crate::seat_lines::newest_line;
use dealer_kind::Config;
use dealer_node::{NodeFault, Reader, SeatFault};
use dealer_world::Cluster;
use match_log::Name;
use operator_notes::{About, Note, SeatPorts, tell_note};
use promise_store::Disk;
use serving::Turn;
use std::alloc::Global;
use std::io::Write;

/// Tells each seat's ports, node by node.
pub fn tell_ports<W: Write>(alloc: Global, config: &Config, ports: SeatPorts, notes: &mut W)
    ensures { AreNoted (map note_line (ports_notes ports (length config.now.sources) 0 config.now.setting.names)) (W.contents notes.old) (W.contents notes.new) }
{
    for (seat, name) in config.names().as_slice().iter().enumerate() {
        let told = Note::Ports {
            seat: seat as u8,
            name: *name,
            ports,
            nodes: config.nodes() as u8,
        };
        tell_note(alloc, notes, &told);
    }
}

/// The name of a seat; none of a number that no seat has.
fn name_of(config: &Config, seat: usize) -> Option<Name>
    ensures { result ≡ slice_get config.now.setting.names seat }
{
    config.names().as_slice().get(seat).copied()
}

/// Tells at which node and port a seat is awaited, where one is; nothing of a number that no seat has.
pub(crate) fn tell_awaited<D: Disk + Drop, W: Write>(
    alloc: Global,
    cluster: &Cluster<D>,
    ports: SeatPorts,
    awaited: Option<(u8, u8)>,
    notes: &mut W,
)
    ensures { AreNoted (map note_line (awaited_notes (names_in (view_of cluster.now)) ports awaited)) (W.contents notes.old) (W.contents notes.new) }
{
    if let Some((seat, node)) = awaited {
        if let Some(name) = name_of(cluster.config(), seat as usize) {
            let told = Note::Awaiting {
                seat: seat as usize,
                name,
                node,
                port: ports.port(node, seat),
            };
            tell_note(alloc, notes, &told);
        }
    }
}

/// Tells at which node and port a seat is waited for that sends nothing; where it isn't awaited but read from, also the
/// line that it has there, if it was shown one. Nothing is told of a number that no seat has.
pub(crate) fn tell_waiting<D: Disk + Drop, W: Write>(
    alloc: Global,
    cluster: &Cluster<D>,
    ports: SeatPorts,
    is_awaited: bool,
    seat: u8,
    node: u8,
    notes: &mut W,
)
    ensures { TellsWaiting (view_of cluster.now) ports is_awaited seat node (W.contents notes.old) (W.contents notes.new) }
{
    let config = cluster.config();
    if is_awaited {
        tell_wait(alloc, config, ports, seat, node, notes);
        return;
    }
    match newest_line(cluster, seat as usize, node) {
        Some(line) => tell_wait_with(alloc, config, ports, seat, node, line, notes),
        None => tell_wait(alloc, config, ports, seat, node, notes),
    }
}

/// Tells at which node and port a seat is waited for.
fn tell_wait<W: Write>(
    alloc: Global,
    config: &Config,
    ports: SeatPorts,
    seat: u8,
    node: u8,
    notes: &mut W,
)
    ensures { AreNoted (waiting_lines config.now.setting.names ports seat node None) (W.contents notes.old) (W.contents notes.new) }
{
    if let Some(name) = name_of(config, seat as usize) {
        let told = Note::Waiting {
            seat: seat as usize,
            name,
            node,
            port: ports.port(node, seat),
            line: None,
        };
        tell_note(alloc, notes, &told);
    }
}

/// Tells at which node and port a seat is waited for, and its line.
fn tell_wait_with<W: Write>(
    alloc: Global,
    config: &Config,
    ports: SeatPorts,
    seat: u8,
    node: u8,
    line: &[u8],
    notes: &mut W,
)
    ensures { AreNoted (waiting_lines config.now.setting.names ports seat node (Some line.now)) (W.contents notes.old) (W.contents notes.new) }
{
    if let Some(name) = name_of(config, seat as usize) {
        let told = Note::Waiting {
            seat: seat as usize,
            name,
            node,
            port: ports.port(node, seat),
            line: Some(line),
        };
        tell_note(alloc, notes, &told);
    }
}

/// Tells what a turn did that called this node last, and for which this piece was read, if any was: a seat seated, gone or
/// played for, a node stopped or started, and of a piece the faults that were found in it. Before it so many hands had been
/// dealt at each node.
pub(crate) fn tell_turn<D: Disk + Drop, W: Write>(
    alloc: Global,
    cluster: &Cluster<D>,
    dealt: Dealt,
    node: u8,
    piece: &[u8],
    turn: Turn,
    notes: &mut W,
)
    ensures { TellsDone (view_of cluster.now) dealt.hands node piece.now turn (W.contents notes.old) (W.contents notes.new) }
{
    let config = cluster.config();
    match turn {
        Turn::Seated { seat, node } => {
            tell_seat(alloc, config, seat as usize, About::Seated(node), notes)
        }
        Turn::Gone(seat) => tell_seat(alloc, config, seat as usize, About::Gone(node), notes),
        Turn::Away { seat, node } => tell_played(alloc, config, dealt, seat, node, notes),
        Turn::Stopped(node) => tell_note(alloc, notes, &Note::Stopped(node)),
        Turn::Started(node) => tell_note(alloc, notes, &Note::Started(node)),
        Turn::Read(_) => {
            tell_faults(alloc, cluster, node, piece, cluster.last().faults(), notes)
        }
        Turn::Delivered(_) | Turn::Ticked(_) | Turn::Waits { .. } | Turn::Over => {}
    }
}

/// Tells that it was ordered at a node that a seat is played for, and in which hand: the newest that had been dealt there.
/// Nothing is told where none was.
fn tell_played<W: Write>(
    alloc: Global,
    config: &Config,
    dealt: Dealt,
    seat: u8,
    node: u8,
    notes: &mut W,
)
    ensures { AreNoted (played_lines config.now.setting.names dealt.hands seat node) (W.contents notes.old) (W.contents notes.new) }
{
    match dealt.newest(node) {
        Some(hand) => {
            let about = About::Played { node, hand };
            tell_seat(alloc, config, seat as usize, about, notes);
        }
        None => {}
    }
}

/// Tells that the store of the node failed that was called last, if that is why it was refused.
pub(crate) fn tell_failure<W: Write>(
    alloc: Global,
    node: u8,
    refused: Option<NodeFault>,
    notes: &mut W,
)
    ensures { AreNoted (map note_line (failure_notes node refused)) (W.contents notes.old) (W.contents notes.new) }
{
    if let Some(fault) = refused {
        if let NodeFault::Store(_) = fault {
            tell_note(alloc, notes, &Note::Failed { node, fault });
        }
    }
}

/// Tells something of a seat; nothing of a number that no seat has.
fn tell_seat<W: Write>(alloc: Global, config: &Config, seat: usize, about: About<'_>, notes: &mut W)
    ensures { AreNoted (seat_lines config.now.setting.names seat (about_text about.entry)) (W.contents notes.old) (W.contents notes.new) }
{
    if let Some(name) = name_of(config, seat) {
        tell_note(alloc, notes, &Note::Seat { seat, name, about });
    }
}

/// Tells what is wrong with this piece, which a seat sent to a node.
fn tell_faults<D: Disk + Drop, W: Write>(
    alloc: Global,
    cluster: &Cluster<D>,
    node: u8,
    piece: &[u8],
    faults: &[SeatFault],
    notes: &mut W,
)
    ensures { TellsFaults (view_of cluster.now) piece.now node faults.now (W.contents notes.old) (W.contents notes.new) }
{
    for found in faults {
        tell_fault(alloc, cluster, node, piece, *found, notes);
    }
}

/// Tells a fault of a piece.
fn tell_fault<D: Disk + Drop, W: Write>(
    alloc: Global,
    cluster: &Cluster<D>,
    node: u8,
    piece: &[u8],
    found: SeatFault,
    notes: &mut W,
)
    ensures { TellsFault (view_of cluster.now) piece.now node found (W.contents notes.old) (W.contents notes.new) }
{
    let about = about_fault(cluster, piece, node, found);
    tell_seat(alloc, cluster.config(), found.seat, about, notes);
}

/// Tells the score: the last line of what a log got last. Nothing is told where no log got a line.
pub(crate) fn tell_score<D: Disk + Drop, W: Write>(
    alloc: Global,
    cluster: &Cluster<D>,
    notes: &mut W,
)
    ensures { TellsScore (view_of cluster.now).all.shown (W.contents notes.old) (W.contents notes.new) }
{
    if let Some(text) = last_log(cluster) {
        if let Some(line) = last_line(text) {
            tell_note(alloc, notes, &Note::Score(line));
        }
    }
}

/// What a log got last, of all nodes; none where no log got anything.
fn last_log<D: Disk + Drop>(cluster: &Cluster<D>) -> Option<&[u8]>
    ensures found { IfSome result (λ text. IsLastLog (view_of cluster.now).all.shown text.now) }
    ensures missing { IsNone result → HasNoLog (view_of cluster.now).all.shown }
{
    for number in (0..cluster.piece_count()).rev() {
        if let Some(piece) = cluster.piece(number) {
            if let Reader::Log = piece.reader {
                return Some(piece.text);
            }
        }
    }
    None
}

/// The last line of a text that ends in a line feed, without that; none of another text.
fn last_line(text: &[u8]) -> Option<&[u8]>
    ensures found { IfSome result (λ line. IsLastLine text.now line.now) }
    ensures missing { IsNone result → EndsInFeed text.now → ⊥ }
{
    let (end, body) = text.split_last()?;
    if *end != b'\n' {
        return None;
    }
    match last_feed(body) {
        Some(place) => Some(&body[place + 1..]),
        None => Some(body),
    }
}

/// Where the last line feed stands.
fn last_feed(bytes: &[u8]) -> Option<usize>
    ensures found { IfSome result (λ place. (place < length bytes.now) × (bytes.now ≡ take place bytes.now ++ 10 ∷ drop (place + 1) bytes.now) × HasNoFeed (drop (place + 1) bytes.now)) }
    ensures missing { IsNone result → HasNoFeed bytes.now }
{
    for place in (0..bytes.len()).rev() {
        if bytes[place] == b'\n' {
            return Some(place);
        }
    }
    None
}
