//! The record of a cluster as it is kept.

ghost use Rattle.std.specs.Prelude.{◌≡◌, ◌+◌, ◌≤◌, ◌++◌, [], length, map, ◌-◌, ◌^◌, min, true, if◌then◌else◌, OnOk, OnErr, IfSome, IsNone, Some, ◌↔◌, slice_get};
ghost use Rattle.dealer_node.specs.Texts.{byte_total};
ghost use Rattle.dealer_node.specs.Outs.{nothing_told};
ghost use Rattle.dealer_world.specs.Records.{no_record, last_start, logged_by, log_of};
ghost use Rattle.dealer_world.specs.Views.{grown, placed_at, piece_of, starts_after};
ghost use Rattle.dealer_world.specs.Events.{node_of, bytes_in, brought_by};
ghost use Rattle.dealer_world.specs.KeptShown.{piece_by, reader_by};
ghost use Rattle.dealer_world.specs.Recordings.{frame_by, text_by, made_by, start_by};

use crate::arrivals::{Arrivals, What};
use crate::begun::Begun;
use crate::event::Event;
use crate::frames::{Frame, Frames};
use crate::shown::{Piece, Shown};
use crate::starts::Starts;
use dealer_node::{Out, Reader, Reading};
use std::alloc::{AllocError, Global};
use std::marker::Model;

/// How many texts there are, and how many bytes they have in all; `None` where that is no number of the machine.
fn size_of<T: Copy + Drop>(texts: Reading<'_, T>) -> Option<(usize, usize)>
    ensures texts { IfSome result (λ size. size.0 ≡ length texts.entry) }
    ensures bytes { IfSome result (λ size. size.1 ≡ byte_total texts.entry) }
{
    let mut count = 0usize;
    let mut bytes = 0usize;
    for (_, text) in texts {
        count = count.checked_add(1)?;
        bytes = bytes.checked_add(text.len())?;
    }
    Some((count, bytes))
}

/// How many texts there are behind so many; no more than the greatest number of the machine are counted.
fn count_of<T: Copy + Drop>(texts: Reading<'_, T>, before: usize) -> usize
    ensures { result ≡ min (before + length texts.entry) (2 ^ 64 - 1) }
{
    let mut count = before;
    for (_, _text) in texts {
        count = count.saturating_add(1);
    }
    count
}

/// The text of this number, counted from 0, and its mark; `None` where there are no more.
fn text_at<'a, T: Copy + Drop>(texts: Reading<'a, T>, number: usize) -> Option<(T, &'a [u8])>
    ensures found { IfSome result (λ item. slice_get texts.entry number ≡ Some (record { mark = item.0; text = item.1.now })) }
    ensures none { IsNone result ↔ (length texts.entry ≤ number) }
{
    let mut left = number;
    for (mark, text) in texts {
        if left == 0 {
            return Some((mark, text));
        }
        left -= 1;
    }
    None
}

/// Puts a node's frames away.
fn put_frames(frames: &mut Frames, node: u8, outgoing: Reading<'_, u8>)
    requires frames { length outgoing ≤ frames.old.frame_room }
    requires bytes { byte_total outgoing ≤ frames.old.byte_room }
    ensures frames { frames.new.frames ≡ frames.old.frames ++ map (frame_by node) outgoing.entry }
{
    for (to, bytes) in outgoing {
        frames.push_reserved(node, to, bytes);
    }
}

/// Puts away what a node showed within a start.
fn put_pieces(pieces: &mut Shown, at: Begun, shown: Reading<'_, Reader>)
    requires pieces { length shown ≤ pieces.old.piece_room }
    requires bytes { byte_total shown ≤ pieces.old.byte_room }
    ensures pieces { pieces.new.pieces ≡ pieces.old.pieces ++ map (piece_of at.node at.start) (map text_by shown.entry) }
{
    for (reader, text) in shown {
        pieces.push_reserved(at.node, at.start, reader, text);
    }
}

/// Puts what a node showed within a start behind the log of a start, where it is of that log; by an `Err` nothing
/// changes.
fn put_logged(
    log: &mut Vec<u8>,
    of: Begun,
    at: Begun,
    reader: Reader,
    text: &[u8],
) -> Result<(), AllocError>
    ensures added { OnOk result (log.new.items ≡ log.old.items ++ logged_by (reader_by reader) (piece_by at.node at.start reader text.now) of.node of.start) }
    ensures same { OnErr result (log.new.items ≡ log.old.items) }
{
    match reader {
        Reader::Seat(_) => Ok(()),
        Reader::Log => {
            if at.node == of.node && at.start == of.start {
                log.extend_from_slice(text)
            } else {
                Ok(())
            }
        }
    }
}

/// Puts the log of a start behind what stands there, as far as these pieces have it; by an `Err` a part of it.
fn put_kept(log: &mut Vec<u8>, of: Begun, pieces: &Shown) -> Result<(), AllocError>
    ensures { OnOk result (log.new.items ≡ log.old.items ++ log_of pieces.now.pieces of.node of.start) }
{
    for number in 0..pieces.len() {
        if let Some(piece) = pieces.get(number) {
            let at = Begun {
                node: piece.node,
                start: piece.start,
            };
            put_logged(log, of, at, piece.reader, piece.text)?;
        }
    }
    Ok(())
}

/// The same of what a node showed within a start.
fn put_told(
    log: &mut Vec<u8>,
    of: Begun,
    at: Begun,
    shown: Reading<'_, Reader>,
) -> Result<(), AllocError>
    ensures { OnOk result (log.new.items ≡ log.old.items ++ log_of (map (piece_of at.node at.start) (map text_by shown.entry)) of.node of.start) }
{
    for (reader, text) in shown {
        put_logged(log, of, at, reader, text)?;
    }
    Ok(())
}

/// Puts down that a start of a node begins, where it does, into room that was reserved for it, and tells the number of
/// the node's last start.
fn put_start(starts: &mut Starts, node: u8, begins: bool) -> usize
    requires { 1 ≤ starts.old.room }
    ensures starts { map start_by starts.new.begun ≡ starts_after (map start_by starts.old.begun) node begins }
    ensures last { result ≡ last_start (map start_by starts.new.begun) node }
{
    if begins {
        starts.push_reserved(node);
    }
    starts.last_of(node)
}

/// Puts down what an event brings to a node with this front, after so many frames, into room that was reserved for it.
fn put_brought(arrivals: &mut Arrivals, event: &Event, front: u32, sent_before: usize)
    requires arrival { 1 ≤ arrivals.old.arrival_room }
    requires bytes { length (bytes_in event.now) ≤ arrivals.old.byte_room }
    ensures { arrivals.new.arrivals ≡ arrivals.old.arrivals ++ map (placed_at sent_before) (brought_by front event.now) }
{
    match event {
        Event::Frame { from, to, bytes } => {
            let what = What::Frame {
                from: *from,
                to: *to,
            };
            arrivals.push_reserved(what, bytes, sent_before);
        }
        Event::Line { node, seat, bytes } => {
            let what = What::Line {
                node: *node,
                seat: *seat,
            };
            arrivals.push_reserved(what, bytes, sent_before);
        }
        Event::Connect { node, seat } => {
            let what = What::Connect {
                node: *node,
                seat: *seat,
            };
            arrivals.push_reserved(what, &[], sent_before);
        }
        Event::Drop { node, seat } => {
            let what = What::Drop {
                node: *node,
                seat: *seat,
            };
            arrivals.push_reserved(what, &[], sent_before);
        }
        Event::Away { node } => {
            let what = What::Away { node: *node, front };
            arrivals.push_reserved(what, &[], sent_before);
        }
        Event::Tick { .. } | Event::Stop { .. } | Event::Start { .. } => {}
    }
}

/// The same where it arrives; where it doesn't, nothing is put down.
fn put_arrival(
    arrivals: &mut Arrivals,
    event: &Event,
    front: u32,
    arrives: bool,
    sent_before: usize,
)
    requires arrival { 1 ≤ arrivals.old.arrival_room }
    requires bytes { length (bytes_in event.now) ≤ arrivals.old.byte_room }
    ensures { arrivals.new.arrivals ≡ arrivals.old.arrivals ++ map (placed_at sent_before) (if arrives then brought_by front event.now else []) }
{
    if arrives {
        put_brought(arrivals, event, front, sent_before);
    }
}

/// The record, and what the last call made.
///
/// What the last call made stays as the node made it until the next call: then it is put away, behind what was put away
/// before. So no room is made before it is known how much is wanted.
pub(crate) struct Recording {
    frames: Frames,
    arrivals: Arrivals,
    starts: Starts,
    pieces: Shown,
    last: Out,
    /// Of which start of which node what the last call made is; none where it was put away.
    last_of: Option<Begun>,
}

/// By hand, so that letting one go is one call for whoever owns it (docs/ARCHITECTURE.md, Habits).
impl Drop for Recording {
    fn drop(self) {
        let Recording {
            frames: _,
            arrivals: _,
            starts: _,
            pieces: _,
            last: _,
            last_of: _,
        } = self;
    }
}

impl Model for Recording {
    ghost use Rattle.std.specs.Prelude.{is_none};
    ghost use Rattle.dealer_world.specs.KeptShown.{piece_by};
    ghost use Rattle.dealer_world.specs.Recordings.{Recorded, whole};

    ghost Value = { Recorded };

    ghost view = { λ r. record {
      all = whole r.frames.frames r.arrivals.arrivals r.starts.begun r.pieces.pieces r.last r.last_of;
      last = r.last;
      is_settled = is_none r.last_of;
      arrival_room = r.arrivals.arrival_room;
      byte_room = r.arrivals.byte_room;
      start_room = r.starts.room;
    } };
}

impl Recording {
    /// Nothing. It takes no memory; what it takes later comes from this allocator.
    pub(crate) fn new(alloc: Global) -> Recording
        ensures all { result.all ≡ no_record }
        ensures last { result.last ≡ nothing_told }
    {
        Recording {
            frames: Frames::new(alloc),
            arrivals: Arrivals::new(alloc),
            starts: Starts::new(alloc),
            pieces: Shown::new(alloc),
            last: Out::new(alloc),
            last_of: None,
        }
    }

    /// Puts away what the last call made, if it wasn't put away. The record is as before, also after an `Err`.
    fn put_last_away(&mut self) -> Result<(), AllocError>
        ensures all { self.new.all ≡ self.old.all }
        ensures last { self.new.last ≡ self.old.last }
        ensures settled { OnOk result (self.new.is_settled ≡ true) }
    {
        let Some(at) = self.last_of else {
            return Ok(());
        };
        let Some((frames, frame_bytes)) = size_of(self.last.frames()) else {
            return Err(AllocError);
        };
        let Some((pieces, piece_bytes)) = size_of(self.last.shown()) else {
            return Err(AllocError);
        };
        self.frames.reserve(frames, frame_bytes)?;
        self.pieces.reserve(pieces, piece_bytes)?;
        put_frames(&mut self.frames, at.node, self.last.frames());
        put_pieces(&mut self.pieces, at, self.last.shown());
        self.last_of = None;
        Ok(())
    }

    /// Makes the place for the next call, by which so many bytes may arrive. The record is as before, also after an
    /// `Err`.
    pub(crate) fn make_place(&mut self, bytes: usize) -> Result<(), AllocError>
        ensures all { self.new.all ≡ self.old.all }
        ensures last { self.new.last ≡ self.old.last }
        ensures settled { OnOk result (self.new.is_settled ≡ true) }
        ensures arrival_room { OnOk result (1 ≤ self.new.arrival_room) }
        ensures byte_room { OnOk result (bytes ≤ self.new.byte_room) }
        ensures start_room { OnOk result (1 ≤ self.new.start_room) }
    {
        self.put_last_away()?;
        self.arrivals.reserve(1, bytes)?;
        self.starts.reserve(1)
    }

    /// Puts a call down, for which there is a place: what arrived by the event at a node with this front, if it did,
    /// whether a start began, and what the node made.
    pub(crate) fn put_call(
        &mut self,
        event: &Event,
        front: u32,
        arrives: bool,
        begins: bool,
        made: Out,
    )
        requires settled { self.old.is_settled ≡ true }
        requires arrival { 1 ≤ self.old.arrival_room }
        requires bytes { length (bytes_in event.now) ≤ self.old.byte_room }
        requires start { 1 ≤ self.old.start_room }
        ensures all { self.new.all ≡ grown self.old.all (node_of event.now) (if arrives then brought_by front event.now else []) (made_by (node_of event.now) made begins) }
        ensures last { self.new.last ≡ made }
    {
        let node = event.node();
        let sent_before = self.frames.len();
        put_arrival(&mut self.arrivals, event, front, arrives, sent_before);
        let start = put_start(&mut self.starts, node, begins);
        self.last_of = Some(Begun { node, start });
        self.last = made;
    }

    /// Puts away what the last call made, and forgets it as the last. The record is as before, also after an `Err`.
    pub(crate) fn forget_last(&mut self, alloc: Global) -> Result<(), AllocError>
        ensures all { self.new.all ≡ self.old.all }
        ensures last { OnOk result (self.new.last ≡ nothing_told) }
    {
        self.put_last_away()?;
        self.last = Out::new(alloc);
        Ok(())
    }

    /// What the last call made.
    pub(crate) fn last(&self) -> &Out
        ensures { result.now ≡ self.now.last }
    {
        &self.last
    }

    /// How many frames were sent; no more than the greatest number of the machine are counted.
    pub(crate) fn frame_count(&self) -> usize
        ensures { result ≡ min (length self.now.all.sent) (2 ^ 64 - 1) }
    {
        match self.last_of {
            None => self.frames.len(),
            Some(_) => count_of(self.last.frames(), self.frames.len()),
        }
    }

    /// The frame of this number, counted from 0 in the order of sending; `None` where so many weren't sent.
    pub(crate) fn frame(&self, number: usize) -> Option<Frame<'_>>
        ensures found { IfSome result (λ frame. slice_get self.now.all.sent number ≡ Some (record { from = frame.from; to = frame.to; bytes = frame.bytes.now })) }
        ensures none { IsNone result ↔ (length self.now.all.sent ≤ number) }
    {
        if let Some(frame) = self.frames.get(number) {
            return Some(frame);
        }
        let at = self.last_of?;
        let (to, bytes) = text_at(self.last.frames(), number - self.frames.len())?;
        Some(Frame {
            from: at.node,
            to,
            bytes,
        })
    }

    /// How many pieces were shown; no more than the greatest number of the machine are counted.
    pub(crate) fn piece_count(&self) -> usize
        ensures { result ≡ min (length self.now.all.shown) (2 ^ 64 - 1) }
    {
        match self.last_of {
            None => self.pieces.len(),
            Some(_) => count_of(self.last.shown(), self.pieces.len()),
        }
    }

    /// The piece of this number, counted from 0 in the order in which all was shown; `None` where there are no more.
    pub(crate) fn piece(&self, number: usize) -> Option<Piece<'_>>
        ensures found { IfSome result (λ piece. slice_get self.now.all.shown number ≡ Some (piece_by piece.node piece.start piece.reader piece.text.now)) }
        ensures none { IsNone result ↔ (length self.now.all.shown ≤ number) }
    {
        if let Some(piece) = self.pieces.get(number) {
            return Some(piece);
        }
        let at = self.last_of?;
        let (reader, text) = text_at(self.last.shown(), number - self.pieces.len())?;
        Some(Piece {
            node: at.node,
            start: at.start,
            reader,
            text,
        })
    }

    /// Puts the log of a start behind what stands in a text; by an `Err` a part of it may stand there.
    pub(crate) fn put_log(&self, of: Begun, log: &mut Vec<u8>) -> Result<(), AllocError>
        ensures { OnOk result (log.new.items ≡ log.old.items ++ log_of self.now.all.shown of.node of.start) }
    {
        put_kept(log, of, &self.pieces)?;
        match self.last_of {
            None => Ok(()),
            Some(at) => put_told(log, of, at, self.last.shown()),
        }
    }

    /// What reached running nodes.
    pub(crate) fn arrivals(&self) -> &Arrivals
        ensures { result.now.arrivals ≡ self.now.all.delivered }
    {
        &self.arrivals
    }

    /// All starts, in order.
    pub(crate) fn starts(&self) -> &[Begun]
        ensures { map start_by result.now ≡ self.now.all.starts }
    {
        self.starts.all()
    }
}
