ghost use Rattle.std.specs.Prelude.{◌≡◌, OnOk};
ghost use Rattle.dealer_node.specs.Outs.{told_by, nothing_told, both_told, HasRoom, HasRoomFor};

use crate::reader::Reader;
use crate::seat_fault::SeatFault;
use crate::texts::{Texts, append_reserved};
use std::alloc::{AllocError, Global};

/// What a call makes for others, with the room that it made for it beforehand.
pub(crate) struct Made {
    /// Frames, each with the node that it goes to.
    pub(crate) frames: Texts<u8>,
    /// What is shown, in one order, each text with its reader.
    pub(crate) shown: Texts<Reader>,
    /// Faults in what seats sent.
    pub(crate) faults: Vec<SeatFault>,
}

/// By hand, so that letting one go is one call for whoever owns it (docs/ARCHITECTURE.md, Habits).
impl Drop for Made {
    fn drop(self) {
        let Made {
            frames: _,
            shown: _,
            faults: _,
        } = self;
    }
}

/// For how much more a call makes room.
#[derive(Clone, Copy)]
pub(crate) struct Need {
    pub(crate) frames: usize,
    pub(crate) frame_bytes: usize,
    pub(crate) texts: usize,
    pub(crate) text_bytes: usize,
    pub(crate) faults: usize,
}

impl Made {
    /// Nothing yet. It takes no memory; what `reserve` takes comes from this allocator.
    pub(crate) fn new(alloc: Global) -> Made
        ensures { told_by result ≡ nothing_told }
    {
        Made {
            frames: Texts::new(alloc),
            shown: Texts::new(alloc),
            faults: Vec::new(alloc),
        }
    }

    /// Takes all out. What room there was stays.
    pub(crate) fn clear(&mut self)
        ensures { told_by self.new ≡ nothing_told }
    {
        self.frames.clear();
        self.shown.clear();
        self.faults.clear();
    }

    /// Makes room for so much more. An `Err` leaves what was made as it is.
    pub(crate) fn reserve(&mut self, need: &Need) -> Result<(), AllocError>
        ensures same { told_by self.new ≡ told_by self.old }
        ensures room { OnOk result (HasRoom self.new need.now) }
    {
        self.frames.reserve(need.frames, need.frame_bytes)?;
        self.shown.reserve(need.texts, need.text_bytes)?;
        self.faults.reserve(need.faults)
    }

    /// Moves all that another has behind what is here, into room that was reserved for it.
    pub(crate) fn append(&mut self, other: &mut Made)
        requires { HasRoomFor self.old other.old }
        ensures { told_by self.new ≡ both_told (told_by self.old) (told_by other.old) }
    {
        self.frames.append(&mut other.frames);
        self.shown.append(&mut other.shown);
        append_reserved(&mut self.faults, &mut other.faults);
    }

    /// The same of what isn't kept for another call: it is moved in, so that its owner has nothing to let go.
    pub(crate) fn append_owned(&mut self, mut other: Made)
        requires { HasRoomFor self.old other }
        ensures { told_by self.new ≡ both_told (told_by self.old) (told_by other) }
    {
        self.append(&mut other);
    }
}
