//! Who was turned away at the ports of seats.

ghost use Rattle.std.specs.Prelude.{◌≡◌, ◌≢◌, ◌<◌, ◌+◌, ℕ, Some, None};
ghost use Rattle.node_wires.specs.declared.limits.TheConstants.{SEATS as COUNT};
ghost use Rattle.node_seats.specs.Crowding.{turned_away_at, crowded_at, IsCrowded, TurnsAway, CountsAway, MakesRoom};

use node_wires::limits::SEATS;

/// Who was turned away at the port of each seat: closed, since no place was for him.
#[derive(Clone, Copy)]
pub(crate) struct Crowds {
    /// How many were, of each seat.
    counts: [u64; SEATS],
    /// When that was last so, or more stood in the queue than were taken off it.
    moments: [Option<u64>; SEATS],
}

impl Crowds {
    /// Nobody was.
    pub(crate) fn new() -> Crowds
        ensures counts { (seat : ℕ) → turned_away_at result seat ≡ 0 }
        ensures moments { (seat : ℕ) → crowded_at result seat ≡ None }
    {
        Crowds {
            counts: [0; SEATS],
            moments: [None; SEATS],
        }
    }

    /// It is crowded at the port of a seat at this moment.
    pub(crate) fn note(&mut self, seat: u8, now: u64)
        ensures { IsCrowded seat now self.old self.new }
    {
        let number = seat as usize;
        if number < SEATS {
            self.moments[number] = Some(now);
        }
    }

    /// One was turned away at the port of a seat at this moment.
    fn turn_away(&mut self, seat: u8, now: u64)
        ensures { TurnsAway seat now self.old self.new }
    {
        let number = seat as usize;
        if number < SEATS {
            self.counts[number] = self.counts[number].saturating_add(1);
            self.moments[number] = Some(now);
        }
    }

    /// One was turned away at the port of a seat at this moment, or he wasn't.
    pub(crate) fn count(&mut self, turned_away: bool, seat: u8, now: u64)
        ensures { CountsAway turned_away seat now self.old self.new }
    {
        if turned_away {
            self.turn_away(seat, now);
        }
    }

    /// One who had come to the port of a seat had to make room at this moment, or nobody had.
    pub(crate) fn make_room(&mut self, seat: Option<u8>, now: u64)
        ensures { MakesRoom seat now self.old self.new }
    {
        if let Some(seat) = seat {
            self.turn_away(seat, now);
        }
    }

    /// How many were turned away at the port of a seat so far.
    pub(crate) fn turned_away(&self, seat: u8) -> u64
        ensures { result ≡ turned_away_at self.now seat }
    {
        match self.counts.get(seat as usize) {
            Some(count) => *count,
            None => 0,
        }
    }

    /// When it was last crowded at the port of a seat, if it was.
    pub(crate) fn crowded(&self, seat: u8) -> Option<u64>
        ensures { result ≡ crowded_at self.now seat }
    {
        match self.moments.get(seat as usize) {
            Some(moment) => *moment,
            None => None,
        }
    }
}
