ghost use Rattle.std.specs.Prelude.{◌≡◌};
ghost use Rattle.dealer_node.specs.Outs.{nothing_told};

use crate::made::Made;
use crate::reader::Reader;
use crate::reading::Reading;
use crate::seat_fault::SeatFault;
use std::alloc::Global;
use std::marker::Model;

/// Where the calls of nodes put what they send, show and tell, each behind what stands there: what a call makes, as the
/// crates above see it.
///
/// Contracts see the frames, each with the node that it goes to; what is shown, in one order, each text with its
/// reader; and the faults in what seats sent.
#[derive(Drop)]
pub struct Out {
    pub(crate) made: Made,
}

impl Model for Out {
    ghost use Rattle.dealer_node.specs.Outs.{Told, told_by};

    ghost Value = { Told };

    ghost view = { λ out. told_by out.made };
}

impl Out {
    /// Nothing yet. It takes no memory; what calls of nodes take for it comes from this allocator.
    pub fn new(alloc: Global) -> Out
        ensures { result ≡ nothing_told }
    {
        Out {
            made: Made::new(alloc),
        }
    }

    /// Takes all out. What room there was stays, for further calls.
    pub fn clear(&mut self)
        ensures { self.new ≡ nothing_told }
    {
        self.made.clear();
    }

    /// The frames in order of sending, each with the number of the node that it goes to.
    pub fn frames(&self) -> Reading<'_, u8>
        ensures { result ≡ self.now.frames }
    {
        self.made.frames.reading()
    }

    /// What is shown, in order, each text with its reader: a line of a seat without its line end, or whole lines of
    /// the log, each with its LF.
    pub fn shown(&self) -> Reading<'_, Reader>
        ensures { result ≡ self.now.shown }
    {
        self.made.shown.reading()
    }

    /// The faults in what seats sent, in order.
    pub fn faults(&self) -> &[SeatFault]
        ensures { result.now ≡ self.now.faults }
    {
        &self.made.faults
    }
}
