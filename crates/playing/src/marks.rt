ghost use Rattle.std.specs.Prelude.{◌≡◌, ◌<◌, ◌≤◌, ◌+◌, ◌-◌, ◌++◌, [], length, replicate, false, true, slice_get, slice_set, Some, OnOk, OnErr, MatchOption, vec_len, vec_capacity};
ghost use Rattle.playing.specs.Marks.{AreDelivered, IsFirstMissing};

use std::alloc::{AllocError, Global};
use std::marker::Model;

/// By number of frame, whether it was ever delivered.
#[derive(Drop)]
pub(crate) struct Marks {
    delivered: Vec<bool>,
    /// All before this place were delivered.
    place: usize,
}

impl Model for Marks {
    ghost use Rattle.std.specs.Prelude.{List, Bool};

    ghost Value = { List Bool };

    ghost use Rattle.playing.specs.MarksInside.{IsKept, delivered_in};

    ghost view = { delivered_in };

    ghost invariant = { IsKept };
}

/// The first place from one on that wasn't delivered, all before it being so; the count of all where there is none.
fn missing_from(delivered: &[bool], from: usize) -> usize
    requires before { AreDelivered delivered.now from }
    requires within { from ≤ length delivered.now }
    ensures before { AreDelivered delivered.now result }
    ensures within { result ≤ length delivered.now }
    ensures missing { result < length delivered.now → slice_get delivered.now result ≡ Some false }
{
    for place in from..delivered.len() {
        if !delivered[place] {
            return place;
        }
    }
    delivered.len()
}

/// Puts so many marks of frames that weren't delivered behind those that are there, into room that was reserved.
fn put_marks(delivered: &mut Vec<bool>, frames: usize)
    requires room { vec_len delivered.old + frames ≤ vec_capacity delivered.old }
    ensures marks { delivered.new.items ≡ delivered.old.items ++ replicate frames false }
{
    for _mark in 0..frames {
        delivered.push_reserved(false);
    }
}

impl Marks {
    /// Of no frame.
    pub(crate) fn new(alloc: Global) -> Marks
        ensures { result ≡ [] }
    {
        Marks {
            delivered: Vec::new(alloc),
            place: 0,
        }
    }

    /// Of so many frames: those that weren't marked yet weren't delivered. An `Err` changes nothing.
    pub(crate) fn extend_to(&mut self, frames: usize) -> Result<(), AllocError>
        ensures ok { OnOk result (self.new ≡ self.old ++ replicate (frames - length self.old) false) }
        ensures err { OnErr result (self.new ≡ self.old) }
    {
        let more = frames.saturating_sub(self.delivered.len());
        self.delivered.reserve(more)?;
        put_marks(&mut self.delivered, more);
        Ok(())
    }

    /// The frame of this number is delivered.
    pub(crate) fn deliver(&mut self, number: usize)
        requires { number < length self.old }
        ensures { self.new ≡ slice_set self.old number true }
    {
        self.delivered[number] = true;
    }

    /// The frame of least number that was never delivered.
    pub(crate) fn first_missing(&mut self) -> Option<usize>
        ensures missing { MatchOption result (AreDelivered self.old (length self.old)) (IsFirstMissing self.old) }
        ensures same { self.new ≡ self.old }
    {
        self.place = missing_from(&self.delivered, self.place);
        if self.place < self.delivered.len() {
            Some(self.place)
        } else {
            None
        }
    }
}
