//! How a process ends whose match is over.

ghost use Rattle.std.specs.Prelude.{◌≡◌, true, Some};
ghost use Rattle.node_service.specs.Ending.{IsOverAt};

use crate::desk::has_been_told;
use crate::limits::{END_READ, SEATS, TOLD};
use crate::server::NodeServer;
use clockwork::is_heard;
use clockwork::silence::UNHEARD;
use node_peers::View;
use node_wires::Wire;
use promise_store::Disk;

impl<D: Disk + Drop, W: Wire + Drop> NodeServer<D, W> {
    ghost use Rattle.node_service.specs.Desks.{IsKept};
    ghost use Rattle.node_service.specs.Serving.{look_in};
    ghost use Rattle.node_service.specs.Meaning.{NeedsNoWait, IsKnownAt, IsKnownEverywhere};

    /// Whether a peer needn't be waited for any more, once the match is over here: it has told that it is over there, or
    /// wasn't heard for long; and where its connection is open, beats have told it.
    fn knows(&self, number: u8, view: &View, now: u64) -> bool
        ensures { result ≡ true → NeedsNoWait self.now now number (Some view.now) }
    {
        if view.is_open && now.saturating_sub(view.since) < TOLD {
            return false;
        }
        self.reports.is_over(number) || !is_heard(view.heard.max(self.began), now, UNHEARD)
    }

    /// Whether the node of this number, if it is another, needn't be waited for.
    fn is_known_at(&self, number: u8, now: u64) -> bool
        ensures { result ≡ true → IsKnownAt self.now now number }
    {
        if number == self.desk.member.number() {
            return true;
        }
        match self.desk.company.peers.view(number) {
            Some(view) => self.knows(number, &view, now),
            None => true,
        }
    }

    /// Whether no peer needs to be waited for.
    pub(crate) fn is_known_everywhere(&self, now: u64) -> bool
        ensures { result ≡ true → IsKnownEverywhere self.now now }
    {
        for number in 0..self.nodes() {
            if !self.is_known_at(number, now) {
                return false;
            }
        }
        true
    }

    /// Lets go of the bot of a seat that has been told all.
    pub(crate) fn part_from_seat(&mut self, seat: u8)
        ensures { IsKept W.Wire self.old.desk self.new.desk }
    {
        if !has_been_told(&self.desk.member, &self.desk.seats, seat) {
            return;
        }
        self.desk.hang_up(seat);
    }

    /// Lets go of the bots that have been told all, once the match is over.
    pub(crate) fn part_from_seats(&mut self)
        ensures { IsKept W.Wire self.old.desk self.new.desk }
    {
        for seat in 0..SEATS {
            self.part_from_seat(seat);
        }
    }

    /// Whether the match is over here since so long that seats have read their end or had the time to, and no peer needs to be
    /// waited for.
    pub(crate) fn is_done(&self, over: Option<u64>, now: u64) -> bool
        ensures over { result ≡ true → IsOverAt (look_in self.now).node }
        ensures known { result ≡ true → IsKnownEverywhere self.now now }
    {
        let Some(passed) = over else {
            return false;
        };
        let are_seats_done = passed >= END_READ
            || (!self.desk.seats.is_any_taken() && self.desk.sittings.first_let_go().is_none());
        passed >= TOLD
            && are_seats_done
            && self.desk.member.is_over()
            && self.is_known_everywhere(now)
    }

    /// Where the match is over here: lets go of the seats, where all that they sent was read. It answers for how long it has
    /// been over.
    pub(crate) fn finish(&mut self, is_all: bool, now: u64) -> Option<u64>
        ensures { IsKept W.Wire self.old.desk self.new.desk }
    {
        if !self.watch.seen.over {
            return None;
        }
        let passed = self.lasting.end(now);
        if is_all {
            self.part_from_seats();
        }
        Some(passed)
    }
}
