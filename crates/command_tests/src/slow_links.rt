//! Links that keep a server waiting for its seats.

ghost use Rattle.std.specs.Prelude.{◌≡◌};

use match_links::{LinkFault, Links};
use std::alloc::AllocError;

/// Links of which each wait for a seat, an accept or a read, may be slow for some calls before it is answered.
#[derive(Drop)]
pub(crate) struct SlowLinks<L: Links + Drop> {
    links: L,
    /// For how many calls the waits that are to come are slow, the next one first; those behind the last not at all.
    waits: &'static [u64],
    /// For how many calls the next wait has been slow.
    waited: u64,
}

impl<L: Links + Drop> SlowLinks<L> {
    /// These links, with waits that are slow for so many calls each.
    pub(crate) fn new(links: L, waits: &'static [u64]) -> SlowLinks<L> {
        SlowLinks {
            links,
            waits,
            waited: 0,
        }
    }

    /// Answers that a call is slow, where the next wait is to be for one call more; else that wait is over.
    fn wait(&mut self) -> Result<(), LinkFault>
        ensures { self.new.links ≡ self.old.links }
    {
        let Some((calls, behind)) = self.waits.split_first() else {
            return Ok(());
        };
        if self.waited < *calls {
            self.waited += 1;
            return Err(LinkFault::Slow);
        }
        self.waits = behind;
        self.waited = 0;
        Ok(())
    }
}

impl<L: Links + Drop> Links for SlowLinks<L> {
    ghost passed = { λ slow. L.passed slow.links };

    fn reserve(&mut self, lines: usize, text: usize) -> Result<(), AllocError> {
        self.links.reserve(lines, text)
    }

    fn accept(&mut self, node: u8, seat: u8) -> Result<(), LinkFault> {
        self.wait()?;
        self.links.accept(node, seat)
    }

    fn read(&mut self, node: u8, seat: u8, piece: &mut [u8]) -> Result<usize, LinkFault> {
        self.wait()?;
        self.links.read(node, seat, piece)
    }

    fn write(&mut self, node: u8, seat: u8, line: &[u8]) -> Result<(), LinkFault> {
        self.links.write(node, seat, line)
    }

    fn turn_away(&mut self, seat: u8) {
        self.links.turn_away(seat);
    }

    fn hang_up(&mut self, node: u8, seat: u8) {
        self.links.hang_up(node, seat);
    }

    fn send(&mut self, from: u8, to: u8, frame: &[u8]) -> Result<(), LinkFault> {
        self.links.send(from, to, frame)
    }

    fn receive(&mut self, from: u8, to: u8, frame: &mut [u8]) -> Result<(), LinkFault> {
        self.links.receive(from, to, frame)
    }

    fn empty_log(&mut self, node: u8) -> Result<(), LinkFault> {
        self.links.empty_log(node)
    }

    fn add_to_log(&mut self, node: u8, text: &[u8]) -> Result<(), LinkFault> {
        self.links.add_to_log(node, text)
    }

    fn open(&mut self, node: u8) -> Result<(), LinkFault> {
        self.links.open(node)
    }

    fn part(&mut self, node: u8) {
        self.links.part(node);
    }

    fn close_node(&mut self, node: u8) {
        self.links.close_node(node);
    }
}
