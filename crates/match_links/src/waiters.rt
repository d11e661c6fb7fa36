ghost use Rattle.std.specs.Prelude.{◌≡◌, ◌<◌, ◌++◌, ◌∷◌, [], length, position, filter, IfSome, OnOk};
ghost use Rattle.match_links.specs.Waiters.{sits, stays, at_place, without};

use crate::held::Held;
use crate::input::Input;
use crate::limits::HELD;
use std::alloc::{AllocError, Global};

/// Who waits at a seat's port, in order of arrival.
#[derive(Drop)]
pub(crate) struct Waiters {
    all: Vec<Held>,
}

impl Waiters {
    /// Nobody waits.
    pub(crate) fn new(alloc: Global) -> Waiters
        ensures { result.all.items ≡ [] }
    {
        Waiters {
            all: Vec::new(alloc),
        }
    }

    /// Whether as many wait as are held at a port.
    pub(crate) fn is_full(&self) -> bool {
        self.all.len() >= HELD
    }

    /// Makes the room for one more, and for what it sends.
    pub(crate) fn make_room(&mut self, alloc: Global) -> Result<Input, AllocError>
        ensures { self.new.all.items ≡ self.old.all.items }
    {
        self.all.reserve(1)?;
        Input::new(alloc)
    }

    /// Puts one behind the others. Without room for it, it is let go of.
    pub(crate) fn add(&mut self, held: Held) -> Result<(), AllocError>
        ensures { OnOk result (self.new.all.items ≡ self.old.all.items ++ held ∷ []) }
    {
        self.all.push(held)?;
        Ok(())
    }

    /// Reads what came of all of them meanwhile, and lets go of those that ended and sent nothing.
    pub(crate) fn look(&mut self) {
        for held in &mut self.all {
            held.look();
        }
        self.pass_over();
    }

    /// Lets go of those that ended and sent nothing.
    fn pass_over(&mut self)
        ensures { self.new.all.items ≡ filter stays self.old.all.items }
    {
        self.all.retain(|held| !held.is_over());
    }

    /// Whom to seat: the first that can be.
    fn first(&self) -> Option<usize>
        ensures value { result ≡ position sits self.now.all.items }
        ensures within { IfSome result (λ at. at < length self.now.all.items) }
    {
        self.all.iter().position(|held| held.can_sit())
    }

    /// Takes out the first that can be seated; nobody where none can.
    pub(crate) fn take_first(&mut self) -> Option<Held>
        ensures who { result ≡ at_place self.old.all.items (position sits self.old.all.items) }
        ensures rest { self.new.all.items ≡ without self.old.all.items (position sits self.old.all.items) }
    {
        match self.first() {
            Some(at) => Some(self.all.remove(at)),
            None => None,
        }
    }

    /// Takes out the last one, whatever it sent, to be turned away. It keeps the list to this file.
    pub(crate) fn pop(&mut self) -> Option<Held> {
        self.all.pop()
    }

    /// Lets go of all. It keeps the list to this file.
    pub(crate) fn clear(&mut self)
        ensures { self.new.all.items ≡ [] }
    {
        self.all.clear();
    }
}
