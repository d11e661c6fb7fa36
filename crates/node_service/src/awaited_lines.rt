//! Bots that named a line to which the match hasn't come here, and bots that are parted from.

ghost use Rattle.std.specs.Prelude.{◌≡◌, ◌<◌, true, false, length, slice_set, Some, None};
ghost use Rattle.node_service.specs.Awaiting.{waits_since, is_long};
ghost use Rattle.node_service.specs.declared.limits.TheConstants.{SEATS as COUNT};
ghost use Rattle.node_seats.specs.Seating.{waits_at};

use crate::limits::{LINE_AHEAD, LINE_WAIT, NODES, PLACES, SEATS, SETTLED};
use crate::seat_lines::is_behind;
use crate::server::NodeServer;
use crate::server_notice::ServerNotice;
use node_peers::Peers;
use node_seats::{Asked, Parting};
use node_wires::Wire;
use promise_store::Disk;

/// A bot that waits for a line.
#[derive(Clone, Copy)]
struct AwaitedLine {
    /// Since when.
    since: u64,
    /// Every line that was shown before it came is one of the first so many commands, once two seconds have passed since.
    limit: u32,
}

/// The same of each seat, by its number.
#[derive(Clone, Copy)]
pub(crate) struct AwaitedLines {
    all: [Option<AwaitedLine>; PLACES],
}

/// How a node stands: whether it has had a quorum for half a minute, how many commands it has applied, and how many it or a peer
/// has, by what that told.
#[derive(Clone, Copy)]
pub(crate) struct Applied {
    is_steady: bool,
    front: u32,
    most: u32,
}

/// How a bot waits at this moment that waited so before, if it did. By how many commands its line must have come is set anew in its
/// first two seconds, and until the node has had a quorum for half a minute: what it knew when the bot came may be older than the
/// line, or all nodes may be replaying the match.
fn waits_since(before: Option<AwaitedLine>, applied: Applied, now: u64) -> AwaitedLine
    ensures { result ≡ waits_since before applied now }
{
    let limit = applied.most.saturating_add(LINE_AHEAD);
    match before {
        None => AwaitedLine { since: now, limit },
        Some(line) => {
            let is_settled = applied.is_steady && now.saturating_sub(line.since) >= SETTLED;
            let limit = if is_settled { line.limit } else { limit };
            AwaitedLine {
                since: line.since,
                limit,
            }
        }
    }
}

/// Whether a bot that waits so has waited long enough: 256 s, or until a node that has had a quorum for half a minute has applied
/// commands that weren't known before.
fn is_long(line: AwaitedLine, applied: Applied, now: u64) -> bool
    ensures { result ≡ is_long line applied now }
{
    now.saturating_sub(line.since) >= LINE_WAIT || (applied.is_steady && applied.front > line.limit)
}

impl AwaitedLines {
    ghost use Rattle.node_service.specs.Awaiting.{waits_now};

    /// No bot waits.
    pub(crate) fn new() -> AwaitedLines {
        AwaitedLines {
            all: [None; PLACES],
        }
    }

    /// The bot of a seat waits at this moment, or doesn't. It says whether it has waited long enough: 256 s, or until a node that
    /// has had a quorum for half a minute has applied commands that weren't known before, nor two seconds after the bot came.
    fn look(&mut self, seat: u8, waits: bool, applied: Applied, now: u64) -> bool
        requires { seat < COUNT }
        ensures waits { waits ≡ true → (result ≡ is_long (waits_now self.old.all seat applied now) applied now) × (self.new.all ≡ slice_set self.old.all seat (Some (waits_now self.old.all seat applied now))) }
        ensures none { waits ≡ false → (result ≡ false) × (self.new.all ≡ slice_set self.old.all seat None) }
    {
        let place = seat as usize;
        if !waits {
            self.all[place] = None;
            return false;
        }
        let line = waits_since(self.all[place], applied, now);
        self.all[place] = Some(line);
        is_long(line, applied, now)
    }
}

/// How many commands a node with this front, or a peer, has applied at most, by what peers have told.
fn most_applied(peers: &Peers, front: u32) -> u32 {
    let mut most = front;
    for number in 0..NODES as u8 {
        if let Some(view) = peers.view(number) {
            if let Some(beat) = view.beat {
                most = most.max(beat.front);
            }
        }
    }
    most
}

impl<D: Disk + Drop, W: Wire + Drop> NodeServer<D, W> {
    ghost use Rattle.node_service.specs.Awaiting.{waits_now};
    ghost use Rattle.node_service.specs.Desks.{IsKept};

    /// Whether the bot of a seat waits for the line that it named.
    fn waits_for_line(&self, seat: u8) -> bool {
        let seats = &self.desk.seats;
        seats.is_silent(seat)
            && seats.asked(seat).0 == Asked::Line
            && self.desk.member.is_connected(seat)
    }

    /// Refuses the line that the bot of a seat named where that has waited for it for long enough.
    fn look_at_line(&mut self, seat: u8, applied: Applied, now: u64)
        requires { seat < COUNT }
        ensures kept { IsKept W.Wire self.old.desk self.new.desk }
        ensures early { is_long (waits_now self.old.awaited_lines.all seat applied now) applied now ≡ false → self.new.desk ≡ self.old.desk }
    {
        let waits = self.waits_for_line(seat);
        if self.awaited_lines.look(seat, waits, applied, now) {
            self.desk.refuse_line(seat);
        }
    }

    /// Lets go of the bot of a seat that is parted from, once it was written all that it was told.
    fn leave_parted(&mut self, seat: u8)
        ensures kept { IsKept W.Wire self.old.desk self.new.desk }
        ensures waits { 0 < length (waits_at self.old.desk.seats.seats.items seat) → self.new.desk.seats ≡ self.old.desk.seats }
    {
        let Some(parting) = self.desk.seats.parting(seat) else {
            return;
        };
        if self.desk.seats.backlog(seat) > 0 {
            return;
        }
        self.note_parted(seat, parting);
        self.desk.hang_up(seat);
    }

    /// Lets go of the bot of a seat where the node is apart, and it sat there for two seconds since.
    fn leave_late(&mut self, seat: u8, now: u64)
        ensures { IsKept W.Wire self.old.desk self.new.desk }
    {
        if !self.desk.apart.is_apart() || !self.lasting.is_late(self.desk.seats.since(seat), now) {
            return;
        }
        self.desk.hang_up(seat);
    }

    /// Tells that a seat named a line that is none of it.
    fn note_parted(&mut self, seat: u8, parting: Parting)
        ensures { IsKept W.Wire self.old.desk self.new.desk }
    {
        match parting {
            Parting::Over | Parting::Wait => (),
            Parting::Other => self.tell(ServerNotice::OtherLine { seat }),
        }
    }

    /// Looks at the bots that wait for lines, at those that are parted from, and at those that sit at a node that is apart.
    pub(crate) fn look_at_lines(&mut self, now: u64)
        ensures { IsKept W.Wire self.old.desk self.new.desk }
    {
        let front = self.watch.seen.front;
        let applied = Applied {
            is_steady: self.turn_timer.is_steady(now),
            front,
            most: most_applied(&self.desk.company.peers, front),
        };
        for seat in 0..SEATS {
            self.look_at_line(seat, applied, now);
            self.leave_parted(seat);
            self.leave_late(seat, now);
        }
    }

    /// Whether the bot of a seat is parted from, and was written all that it was told.
    fn is_parted(&self, seat: u8) -> bool {
        self.desk.seats.parting(seat).is_some() && self.desk.seats.backlog(seat) == 0
    }

    /// Whether a seat may be told a line at once, or let go of.
    pub(crate) fn owes_lines(&self) -> bool {
        for seat in 0..SEATS {
            if self.is_parted(seat) || is_behind(&self.desk.member, &self.desk.seats, seat) {
                return true;
            }
        }
        false
    }
}
