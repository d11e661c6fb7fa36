//! The match that is played to its end, where a wait for a seat finds no memory.

ghost use Rattle.std.specs.Prelude.{◌≡◌};

use crate::course::{
    TURNS, assert_whole, bots_everywhere, disks, logs, no_outages, server, told, turn,
};
use crate::samples::{assert_bytes_of, assert_same, holds};
use crate::server_tests::TOLD_AT_NODE_0;
use dealer_node::NodeFault;
use match_links::{LinkFault, Links, MemoryLinks};
use promise_store::Disk;
use serving::{ServeFault, Server, Turn};
use std::alloc::{AllocError, Global};
use std::process::Abort;
use std::test::Fail;

/// Links of which one wait for a seat, an accept or a read, is refused memory before anything is taken.
#[derive(Drop)]
struct WantingLinks<L: Links + Drop> {
    links: L,
    /// How many waits pass before the one that is refused; none once it was.
    left: Option<u64>,
}

impl<L: Links + Drop> WantingLinks<L> {
    /// Answers that memory is refused, where this is the wait that is to be.
    fn want(&mut self) -> Result<(), LinkFault>
        ensures { self.new.links ≡ self.old.links }
    {
        match self.left {
            None => Ok(()),
            Some(0) => {
                self.left = None;
                Err(LinkFault::OutOfMemory)
            }
            Some(waits) => {
                self.left = Some(waits - 1);
                Ok(())
            }
        }
    }
}

impl<L: Links + Drop> Links for WantingLinks<L> {
    ghost passed = { λ wanting. L.passed wanting.links };

    fn reserve(&mut self, lines: usize, text: usize) -> Result<(), AllocError> {
        self.links.reserve(lines, text)
    }

    fn accept(&mut self, node: u8, seat: u8) -> Result<(), LinkFault> {
        self.want()?;
        self.links.accept(node, seat)
    }

    fn read(&mut self, node: u8, seat: u8, piece: &mut [u8]) -> Result<usize, LinkFault> {
        self.want()?;
        self.links.read(node, seat, piece)
    }

    fn write(&mut self, node: u8, seat: u8, line: &[u8]) -> Result<(), LinkFault> {
        self.links.write(node, seat, line)
    }

    fn turn_away(&mut self, seat: u8) {
        self.links.turn_away(seat);
    }

    fn hang_up(&mut self, node: u8, seat: u8) {
        self.links.hang_up(node, seat);
    }

    fn send(&mut self, from: u8, to: u8, frame: &[u8]) -> Result<(), LinkFault> {
        self.links.send(from, to, frame)
    }

    fn receive(&mut self, from: u8, to: u8, frame: &mut [u8]) -> Result<(), LinkFault> {
        self.links.receive(from, to, frame)
    }

    fn empty_log(&mut self, node: u8) -> Result<(), LinkFault> {
        self.links.empty_log(node)
    }

    fn add_to_log(&mut self, node: u8, text: &[u8]) -> Result<(), LinkFault> {
        self.links.add_to_log(node, text)
    }

    fn open(&mut self, node: u8) -> Result<(), LinkFault> {
        self.links.open(node)
    }

    fn part(&mut self, node: u8) {
        self.links.part(node);
    }

    fn close_node(&mut self, node: u8) {
        self.links.close_node(node);
    }
}

/// How many turns find no memory until the match is over.
fn wants_until_over<D: Disk + Drop, L: Links + Drop>(
    rt: &impl Abort,
    server: &mut Server<D, L>,
) -> u32 {
    let mut wants = 0u32;
    for _ in 0..TURNS {
        match turn(server) {
            Ok(Turn::Over) => return wants,
            Ok(_) => {}
            Err(ServeFault::Node(NodeFault::OutOfMemory)) => wants = wants.saturating_add(1),
            Err(_) => panic!(rt; "another fault"),
        }
    }
    panic!(rt; "turns without end")
}

/// Both seats stayed at node 0, and were told all there, once.
fn assert_stayed(
    rt: &impl Abort,
    alloc: Global,
    wait: u64,
    links: &MemoryLinks,
) -> Result<(), AllocError> {
    assert_bytes_of(rt, wait, &told(alloc, links)?, TOLD_AT_NODE_0);
    assert_whole(rt, &logs(alloc, links)?);
    Ok(())
}

/// A match in which the wait of this number, counted from 0, is refused memory: how many turns answer so. The seats stay
/// where they are, and the match comes to its end.
fn wants_at(rt: &impl Abort, alloc: Global, wait: u64) -> Result<u32, AllocError> {
    let links = WantingLinks {
        links: bots_everywhere(alloc, 0)?,
        left: Some(wait),
    };
    let disks = disks(alloc, 0, 0)?;
    let mut server = server(rt, alloc, disks, links, no_outages(alloc))?.expect(rt, "a server");
    let wants = wants_until_over(rt, &mut server);
    assert_stayed(rt, alloc, wait, &server.links().links)?;
    Ok(wants)
}

/// Each wait for a seat is refused memory in turn, up to the first that isn't made: that turn answers so, and is taken
/// again. There are two accepts, and two reads of each bot at least.
#[test]
fn each_wait_finds_no_memory_in_turn(rt: HostRuntime) -> Result<(), Fail> {
    let alloc = rt.alloc();
    for wait in 0..1_000u64 {
        let wants = wants_at(&rt, alloc, wait)?;
        if wants == 0 {
            holds!(&rt; wait >= 6);
            return Ok(());
        }
        assert_same(&rt, wants, 1);
    }
    panic!(rt; "waits without end")
}
