//! The match where seats were dropped and are played for, in which a call of a link fails. After each turn it is asserted who
//! is played for, and whom the links turn away.

use crate::course::{
    Answer, Course, Ending, TURNS, assert_places, bots_everywhere, course_after, disks, ending_by,
    lost_bots, no_outages, outage, server_that, turn,
};
use crate::samples::assert_same;
use crate::server_tests::{assert_ended, assert_mended, each_link_fails};
use dealer_node::NodeFault;
use match_file::Absent;
use match_links::{MemoryLinks, Reached};
use promise_store::OnceDisk;
use serving::{Outages, Place, Server, Turn};
use std::alloc::{AllocError, Global};
use std::process::Abort;
use std::test::Fail;

/// A match over links in memory.
type Match = Server<OnceDisk, MemoryLinks>;

/// Whether a seat that is here is played for.
fn is_played(place: Option<Place>) -> bool {
    matches!(place, Some(Place::Played(_)))
}

/// Whether a turn that was answered so took the connection of a seat that had been here.
fn is_lost(answer: Answer, seat: u8, before: Option<Place>) -> bool {
    answer == Ok(Turn::Gone(seat)) && matches!(before, Some(Place::Seated(_) | Place::Leaving(_)))
}

/// Asserts of a seat that had been here before a turn that it is played for, and turned away once, where it was or where
/// that turn took its connection; so not where its accept failed or its node stopped.
fn assert_place(rt: &impl Abort, seat: u8, before: Option<Place>, answer: Answer, server: &Match) {
    let due = is_played(before) || is_lost(answer, seat, before);
    assert_same(rt, is_played(server.place(seat as usize)), due);
    let times = server.links().times_turned_away(seat as usize);
    assert_same(rt, times, if due { 1 } else { 0 });
}

/// What a turn answers, after which it is asserted who is played for.
fn watched_turn(rt: &impl Abort, server: &mut Match) -> Answer {
    let alice = server.place(0);
    let bob = server.place(1);
    let answer = turn(server);
    assert_place(rt, 0, alice, answer, server);
    assert_place(rt, 1, bob, answer, server);
    answer
}

/// How a match ends whose turns are watched.
fn watched(rt: &impl Abort, server: &mut Match) -> Ending {
    let mut starts = 0u64;
    for _ in 0..TURNS {
        if let Some(ending) = ending_by(watched_turn(rt, server), &mut starts) {
            return ending;
        }
    }
    Ending::Never
}

/// What comes of a match whose turns are watched.
fn watched_course(
    rt: &impl Abort,
    alloc: Global,
    server: &mut Match,
) -> Result<Course, AllocError> {
    assert_places(rt, server);
    let ending = watched(rt, server);
    course_after(alloc, server, ending)
}

/// A match whose seats are played for once they were dropped; a call of a link fails. None where no server could be made.
fn played_for(
    rt: &impl Abort,
    alloc: Global,
    links: MemoryLinks,
    outages: Outages,
) -> Result<Option<Course>, AllocError> {
    let disks = disks(alloc, 0, 0)?;
    match server_that(rt, alloc, disks, links, outages, Absent::Play)? {
        None => Ok(None),
        Some(mut server) => Ok(Some(watched_course(rt, alloc, &mut server)?)),
    }
}

/// What the links' call of this number was to reach, which failed, in such a match over these links, where node 1 is out
/// from the first command to the second.
fn fails_at(
    rt: &impl Abort,
    alloc: Global,
    call: u64,
    links: MemoryLinks,
) -> Result<Option<Reached>, AllocError> {
    let outages = outage(alloc, 1, 1, Some(2))?;
    match played_for(rt, alloc, links, outages)? {
        // (the only fault of a new server, by its contract)
        None => Ok(Some(Reached::Log)),
        Some(course) => Ok(assert_ended(rt, &course, call)),
    }
}

/// Where a seat's link fails, the seat is played for, or goes to the next node, and the match goes to its end.
#[test]
fn each_call_of_a_link_fails_where_seats_are_played_for(rt: HostRuntime) -> Result<(), Fail> {
    let alloc = rt.alloc();
    each_link_fails(
        &rt,
        |call| fails_at(&rt, alloc, call, bots_everywhere(alloc, call)?),
    )?;
    Ok(())
}

/// Both bots are lost, and all is played for. `tests/serve_growths` runs this test and refuses it memory: an order that
/// finds none is given again.
#[test]
fn a_match_is_played_for_to_its_end(rt: HostRuntime) -> Result<(), Fail> {
    let alloc = rt.alloc();
    let links = lost_bots(alloc, 0)?;
    match played_for(&rt, alloc, links, no_outages(alloc))? {
        None => Err(Fail::from(NodeFault::OutOfMemory)),
        Some(course) => {
            assert_mended(&rt, &course, 0);
            Ok(())
        }
    }
}
