//! Those who ask how the node is.

ghost use Rattle.std.specs.Prelude.{◌≡◌, ◌<◌, ℕ, nat_lt, length, [], vec_len, IfOk};

use crate::asker::Asker;
use node_wires::limits::ASKERS;
use node_wires::{Line, Wire};
use std::alloc::{AllocError, Global};

/// Those who came to a node's status port. Each is given one line, and let go of.
///
/// Nothing of what they send is read, and no call waits.
#[derive(Drop)]
pub struct Askers {
    /// Of each place.
    askers: Vec<Asker>,
    ghost places: { vec_len askers ≡ 8 },
}

impl Askers {
    ghost use Rattle.node_wires.specs.declared.limits.TheConstants.{ASKERS as ALL};
    ghost use Rattle.node_status.specs.Given.{is_awaited, given_at, nobody};
    ghost use Rattle.node_status.specs.Asking.{AreAnswered, Comes, Accepts, Gives, Answers, Serves, Flushes};

    /// Nobody asks.
    #[tactic(auto, using(crate::proofs::Places::one_nobody, crate::proofs::Places::nobody_answered))]
    pub fn new(alloc: Global) -> Result<Askers, AllocError>
        ensures nobody { IfOk result (λ askers. (place : ℕ) → given_at askers.askers.items place ≡ nobody) }
        ensures answered { IfOk result (λ askers. AreAnswered [] askers.askers.items) }
    {
        let mut askers = Vec::with_capacity(alloc, ASKERS)?;
        for _ in 0..ASKERS {
            askers.push(Asker::new(alloc))?;
        }
        Ok(Askers { askers })
    }

    /// One came to this place. False where there is no such place.
    #[tactic(auto, using(crate::proofs::Places::given_here, crate::proofs::Places::given_elsewhere))]
    fn come(&mut self, place: u8, now: u64) -> bool
        ensures comes { Comes now place self.old.askers.items self.new.askers.items }
        ensures there { result ≡ nat_lt place (length self.old.askers.items) }
    {
        match self.askers.get_mut(place as usize) {
            Some(asker) => {
                asker.come(now);
                true
            }
            None => false,
        }
    }

    /// Takes in the next one who asks. False where there is none.
    #[tactic(auto, using(crate::proofs::Asking::nobody_accepted, crate::proofs::Asking::one_accepted))]
    fn take_in<W: Wire>(&mut self, wire: &mut W, now: u64) -> bool
        ensures { Accepts now 1 self.old.askers.items self.new.askers.items (W.passed wire.old) (W.passed wire.new) }
    {
        let Some(place) = wire.accept_asker() else {
            return false;
        };
        if self.come(place, now) {
            return true;
        }
        wire.close(Line::Asker(place));
        true
    }

    /// Takes in those who ask, as many as there are places at most.
    #[tactic(auto, using(crate::proofs::Asking::nobody_accepted, crate::proofs::Asking::accepted_on, crate::proofs::Asking::accepted_within))]
    fn take_in_all<W: Wire>(&mut self, wire: &mut W, now: u64)
        ensures { Accepts now ALL self.old.askers.items self.new.askers.items (W.passed wire.old) (W.passed wire.new) }
    {
        for _ in 0..ASKERS {
            if !self.take_in(wire, now) {
                return;
            }
        }
    }

    /// Takes in those who ask, as many as there are places at most, and says whether anybody waits for a line.
    pub fn accept<W: Wire>(&mut self, wire: &mut W, now: u64) -> bool
        ensures accepts { Accepts now ALL self.old.askers.items self.new.askers.items (W.passed wire.old) (W.passed wire.new) }
        ensures waits { result ≡ is_awaited self.new.askers.items }
    {
        self.take_in_all(wire, now);
        self.is_awaited()
    }

    /// Whether anybody waits for a line.
    fn is_awaited(&self) -> bool
        ensures { result ≡ is_awaited self.now.askers.items }
    {
        self.askers.iter().any(|asker| asker.waits())
    }

    /// Gives a line to the one at this place, if he waits for one.
    #[tactic(auto, using(crate::proofs::Places::given_here, crate::proofs::Places::given_elsewhere, crate::proofs::Places::found_at))]
    fn give(&mut self, place: usize, line: &[u8]) -> Result<(), AllocError>
        requires { place < 8 }
        ensures { Gives place line.now result self.old.askers.items self.new.askers.items }
    {
        self.askers[place].give(line)
    }

    /// Gives this line to all who wait for one. By an `Err`, for want of memory, some of them wait further.
    pub fn answer(&mut self, line: &[u8]) -> Result<(), AllocError>
        ensures { Answers line.now result self.old.askers.items self.new.askers.items }
    {
        for place in 0..ASKERS {
            self.give(place, line)?;
        }
        Ok(())
    }

    /// Writes to the one at this place what there is room for of his line, and lets go of him where he has all of it, or
    /// takes too long.
    #[tactic(auto, using(crate::proofs::Places::given_here, crate::proofs::Places::given_elsewhere, crate::proofs::Places::found_at))]
    fn serve<W: Wire>(&mut self, wire: &mut W, place: u8, now: u64)
        requires { place < 8 }
        ensures { Serves now place self.old.askers.items self.new.askers.items (W.passed wire.old) (W.passed wire.new) }
    {
        self.askers[place as usize].serve(wire, place, now);
    }

    /// Writes what there is room for of the lines that were given, and lets go of those who have theirs, and of those who
    /// take longer than two seconds.
    pub fn flush<W: Wire>(&mut self, wire: &mut W, now: u64)
        ensures { Flushes now self.old.askers.items self.new.askers.items (W.passed wire.old) (W.passed wire.new) }
    {
        for place in 0..ASKERS as u8 {
            self.serve(wire, place, now);
        }
    }
}
