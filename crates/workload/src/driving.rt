//! Lines that drive a cluster, and what comes of each as text.
//!
//! A line is one of a script of `play` but `flush`, or one of these:
//!
//! - `frame I J HEX`: these bytes come to node J as a frame of node I;
//! - `show I`: whether node I runs, its front, and whether an act waits there;
//! - `record`: how many frames, pieces, arrivals and starts the cluster's record has.
//!
//! What comes of a line is printed as `play` prints it. A call that finds no memory is told as `I E 92 OutOfMemory`, and
//! may be made again.

ghost use Rattle.std.specs.Prelude.{◌≡◌, ◌<◌};

use crate::frames::from_hexadecimal;
use crate::telling::{put_event, put_frames_from};
use dealer_node::{NodeFault, is_out_of_memory};
use dealer_world::{Cluster, Event};
use play_script::{Bounds, Order, put_fault, read};
use playing::put_piece;
use promise_store::Disk;
use std::alloc::{AllocError, Global};
use std::io;

/// Prints what a cluster sent and showed so far, then reads lines to the end of the input and answers each.
pub fn print_answers<D: Disk + Drop, R: Input + Print + AllocGlobal>(
    rt: &R,
    cluster: &mut Cluster<D>,
) -> io::Result<()> {
    let mut text = Vec::new(rt.alloc());
    print_record(rt, cluster, &mut text)?;
    for line in rt.lines(rt.alloc()) {
        print_answer(rt, cluster, line?.as_str(), &mut text)?;
    }
    Ok(())
}

/// Prints what a cluster sent and showed so far, by a buffer.
fn print_record<D: Disk + Drop>(
    rt: &impl Print,
    cluster: &Cluster<D>,
    text: &mut Vec<u8>,
) -> io::Result<()> {
    put_record(text, cluster)?;
    print_text(rt, text)
}

/// Does what a line says, and prints what comes of it, by a buffer.
fn print_answer<D: Disk + Drop, R: Print + AllocGlobal>(
    rt: &R,
    cluster: &mut Cluster<D>,
    line: &str,
    text: &mut Vec<u8>,
) -> io::Result<()> {
    text.clear();
    answer(rt.alloc(), cluster, line, text)?;
    print_text(rt, text)
}

/// Prints a text of whole lines.
fn print_text(rt: &impl Print, text: &[u8]) -> io::Result<()> {
    match str::from_utf8(text) {
        Ok(text) => rt.print(text),
        Err(_) => rt.println("no text"),
    }
}

/// All that a cluster sent, then all that it showed.
fn put_record<D: Disk + Drop>(out: &mut Vec<u8>, cluster: &Cluster<D>) -> Result<(), AllocError> {
    put_frames_from(out, cluster, 0)?;
    for number in 0..cluster.piece_count() {
        if let Some(piece) = cluster.piece(number) {
            put_piece(out, usize::from(piece.node), piece.reader, piece.text)?;
        }
    }
    Ok(())
}

/// Does what a line says, and puts what comes of it.
fn answer<D: Disk + Drop>(
    alloc: Global,
    cluster: &mut Cluster<D>,
    line: &str,
    out: &mut Vec<u8>,
) -> Result<(), AllocError> {
    if line == "record" {
        return put_counts(alloc, cluster, out);
    }
    if let Some(word) = line.strip_prefix("show ") {
        return put_standing(alloc, cluster, word, out);
    }
    match event_of(alloc, cluster, line)? {
        Some(event) => happen(cluster, &event, out),
        None => out.extend_from_slice(b"E 110 BadScript\n"),
    }
}

/// The event that a line says; none where it says none.
fn event_of<D: Disk + Drop>(
    alloc: Global,
    cluster: &Cluster<D>,
    line: &str,
) -> Result<Option<Event>, AllocError> {
    if let Some(words) = line.strip_prefix("frame ") {
        return told_frame(alloc, words);
    }
    let bounds = Bounds {
        nodes: cluster.node_count(),
        seats: cluster.config().game().players(),
        frames: cluster.frame_count() as u64,
    };
    match read(line.as_bytes(), bounds) {
        Ok(order) => ordered(alloc, cluster, order),
        Err(_) => Ok(None),
    }
}

/// The event that a line of `play` says, but `flush`.
fn ordered<D: Disk + Drop>(
    alloc: Global,
    cluster: &Cluster<D>,
    order: Order<'_>,
) -> Result<Option<Event>, AllocError> {
    match order {
        Order::Deliver { frame } => sent_frame(alloc, cluster, frame),
        Order::Line { node, seat, text } => said(alloc, byte(node), byte(seat), text),
        order => Ok(ordered_without_bytes(order)),
    }
}

/// The event that a line of `play` says which holds no bytes.
fn ordered_without_bytes(order: Order<'_>) -> Option<Event> {
    match order {
        Order::Tick { node } => Some(Event::Tick { node: byte(node) }),
        Order::Away { node } => Some(Event::Away { node: byte(node) }),
        Order::Connect { node, seat } => Some(Event::Connect {
            node: byte(node),
            seat: byte(seat),
        }),
        Order::Drop { node, seat } => Some(Event::Drop {
            node: byte(node),
            seat: byte(seat),
        }),
        Order::Stop { node, pick } => Some(Event::Stop {
            node: byte(node),
            pick,
        }),
        Order::Start { node } => Some(Event::Start { node: byte(node) }),
        Order::Deliver { .. } | Order::Flush { .. } | Order::Line { .. } => None,
    }
}

/// A number of a node or a seat, which is below ten, in a byte.
fn byte(number: usize) -> u8 {
    number.min(255) as u8
}

/// A line of a seat, with its end behind it.
fn said(alloc: Global, node: u8, seat: u8, text: &[u8]) -> Result<Option<Event>, AllocError> {
    let mut bytes = text.to_vec(alloc)?;
    bytes.extend_from_slice(b"\r\n")?;
    Ok(Some(Event::Line { node, seat, bytes }))
}

/// The delivery of the frame of this number.
fn sent_frame<D: Disk + Drop>(
    alloc: Global,
    cluster: &Cluster<D>,
    number: u64,
) -> Result<Option<Event>, AllocError> {
    match cluster.frame(number as usize) {
        None => Ok(None),
        Some(frame) => Ok(Some(Event::Frame {
            from: frame.from,
            to: frame.to,
            bytes: frame.bytes.to_vec(alloc)?,
        })),
    }
}

/// The frame that the words `I J HEX` say.
fn told_frame(alloc: Global, words: &str) -> Result<Option<Event>, AllocError> {
    let Some((from, to, digits)) = told_words(words) else {
        return Ok(None);
    };
    match from_hexadecimal(alloc, digits.as_bytes())? {
        Some(bytes) => Ok(Some(Event::Frame { from, to, bytes })),
        None => Ok(None),
    }
}

/// The numbers of two nodes, and what stands behind them.
fn told_words(words: &str) -> Option<(u8, u8, &str)> {
    let (from, behind) = words.split_once(' ')?;
    let (to, digits) = behind.split_once(' ')?;
    Some((from.parse().ok()?, to.parse().ok()?, digits))
}

/// Gives an event to its node, and puts what comes of it.
fn happen<D: Disk + Drop>(
    cluster: &mut Cluster<D>,
    event: &Event,
    out: &mut Vec<u8>,
) -> Result<(), AllocError> {
    let nodes = cluster.node_count();
    let players = cluster.config().game().players();
    if !event.is_for(nodes, players) {
        return out.extend_from_slice(b"E 110 BadScript\n");
    }
    let first = cluster.frame_count();
    let answer = cluster.step(event);
    put_outcome(out, cluster, event.node(), first, answer)
}

/// Puts what came of an event at a node, before which so many frames were sent.
fn put_outcome<D: Disk + Drop>(
    out: &mut Vec<u8>,
    cluster: &Cluster<D>,
    node: u8,
    first: usize,
    answer: Result<(), NodeFault>,
) -> Result<(), AllocError> {
    if !is_out_of_memory(answer) {
        put_frames_from(out, cluster, first)?;
        put_event(out, node, cluster.last())?;
    }
    match answer {
        Ok(()) => Ok(()),
        Err(fault) => put_fault(out, usize::from(node), &fault),
    }
}

/// Puts how many frames, pieces, arrivals and starts the record has.
fn put_counts<D: Disk + Drop>(
    alloc: Global,
    cluster: &Cluster<D>,
    out: &mut Vec<u8>,
) -> Result<(), AllocError> {
    let frames = cluster.frame_count();
    let pieces = cluster.piece_count();
    let arrivals = cluster.arrival_count();
    let starts = cluster.starts().len();
    let line = format!(in alloc;
        "{frames} frames, {pieces} pieces, {arrivals} arrivals, {starts} starts\n"
    )?;
    out.extend_from_slice(line.as_bytes())
}

/// Puts what the readers of a node show.
fn put_standing<D: Disk + Drop>(
    alloc: Global,
    cluster: &Cluster<D>,
    word: &str,
    out: &mut Vec<u8>,
) -> Result<(), AllocError> {
    let number = word.parse().unwrap_or(usize::MAX);
    if number >= cluster.node_count() {
        return out.extend_from_slice(b"E 110 BadScript\n");
    }
    let node = cluster.node(number);
    let running = node.running();
    let front = node.front();
    let waits = node.pending().is_some();
    let line = format!(in alloc; "{number} runs {running}, front {front}, waits {waits}\n")?;
    out.extend_from_slice(line.as_bytes())
}
