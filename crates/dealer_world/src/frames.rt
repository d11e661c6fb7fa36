ghost use Rattle.std.specs.Prelude.{◌≡◌, ◌+◌, ◌≤◌, ◌++◌, ◌∷◌, [], length, slice_get, Some, OnOk, IfSome, IsNone, ◌↔◌};

use crate::shared_rows::SharedRows;
use std::alloc::{AllocError, Global};
use std::marker::Model;

/// From which node to which a frame goes.
#[derive(Clone, Copy, Drop)]
pub(crate) struct Way {
    pub(crate) from: u8,
    pub(crate) to: u8,
}

/// A frame that a node sent: its sender and its receiver, counted from 0, and all its bytes, the length's among them.
#[derive(Clone, Copy, Debug)]
pub struct Frame<'a> {
    pub from: u8,
    pub to: u8,
    pub bytes: &'a [u8],
}

/// Frames in order of sending, in one buffer. Bytes that go to several nodes are kept once.
///
/// The rows that it is kept in stay private, as does their mark: so what it does is what they do, said of frames.
#[derive(Drop)]
pub struct Frames {
    rows: SharedRows<Way>,
}

impl Model for Frames {
    ghost use Rattle.dealer_world.specs.KeptFrames.{Kept, frames_of};

    ghost Value = { Kept };

    ghost view = { λ f. record { frames = frames_of f.rows.rows; frame_room = f.rows.row_room; byte_room = f.rows.byte_room } };
}

impl Frames {
    /// No frame. It takes no memory; what `reserve` takes comes from this allocator.
    pub fn new(alloc: Global) -> Frames
        ensures { result.frames ≡ [] }
    {
        Frames {
            rows: SharedRows::new(alloc),
        }
    }

    /// How many there are.
    pub fn len(&self) -> usize
        ensures { result ≡ length self.now.frames }
    {
        self.rows.len()
    }

    /// The frame of this number, counted from 0 in the order of sending; `None` where so many weren't sent.
    pub fn get(&self, number: usize) -> Option<Frame<'_>>
        ensures found { IfSome result (λ frame. slice_get self.now.frames number ≡ Some (record { from = frame.from; to = frame.to; bytes = frame.bytes.now })) }
        ensures none { IsNone result ↔ (length self.now.frames ≤ number) }
    {
        match self.rows.get(number) {
            Some((way, bytes)) => Some(Frame {
                from: way.from,
                to: way.to,
                bytes,
            }),
            None => None,
        }
    }

    /// Makes room for so many frames more, of so many bytes in all. An `Err` changes no frame.
    pub fn reserve(&mut self, frames: usize, bytes: usize) -> Result<(), AllocError>
        ensures same { self.new.frames ≡ self.old.frames }
        ensures frame_room { OnOk result (frames ≤ self.new.frame_room) }
        ensures byte_room { OnOk result (bytes ≤ self.new.byte_room) }
    {
        self.rows.reserve(frames, bytes)
    }

    /// Puts a frame behind the last, into room that was reserved for it.
    pub fn push_reserved(&mut self, from: u8, to: u8, bytes: &[u8])
        requires frame { 1 ≤ self.old.frame_room }
        requires bytes { length bytes.now ≤ self.old.byte_room }
        ensures frames { self.new.frames ≡ self.old.frames ++ (record { from = from; to = to; bytes = bytes.now }) ∷ [] }
        ensures frame_room { self.old.frame_room ≤ self.new.frame_room + 1 }
        ensures byte_room { self.old.byte_room ≤ self.new.byte_room + length bytes.now }
    {
        self.rows.push_reserved(Way { from, to }, bytes);
    }
}
