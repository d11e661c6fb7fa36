//! A match at which nobody sits: seats are played for, and one who asks is told how a node is.

use crate::match_tests::{assert_whole, run};
use crate::world::World;
use node_wires::{Line, MemoryWire};
use std::alloc::{AllocError, Global};
use std::process::Abort;
use std::test::Fail;

/// How node 1 is while the first player of the first hand is waited for: node 0 leads in the first ballot.
const STATUS: &[u8] =
    b"node 1 front 1 hand 0 over no replaying no promised 1.0 leads no quorum yes peers 0:1:campaigns,2:1 seats alice:away,bob:away pending no backlog 0,0 commands 0/s
";

/// How node 0 is once it has begun a ballot of which nobody has heard: it leads nobody.
const UNHEARD: &[u8] =
    b"node 0 front 0 hand - over no replaying no promised 1.0 leads no quorum yes peers 1:0,2:0 seats alice:away,bob:away pending no backlog 0,0 commands 0/s
";

/// The same once the others have promised it the ballot, and the first hand runs.
const HEARD: &[u8] =
    b"node 0 front 1 hand 0 over no replaying no promised 1.0 leads yes quorum yes peers 1:1,2:1 seats alice:away,bob:away pending no backlog 0,0 commands 0/s
";

/// A match of so many hands by three nodes, which nobody comes to, with this patience, and without waiting for who hasn't come.
fn empty_of(
    rt: &impl Abort,
    alloc: Global,
    hands: u32,
    patience: Option<u64>,
) -> Result<World, AllocError> {
    let mut world = World::new(rt, alloc, 3, hands, [0, 1], b'f', (0, 0))?;
    world.waiting.patience = patience;
    world.bots.clear();
    Ok(world)
}

/// Such a match of two hands.
fn empty(rt: &impl Abort, alloc: Global, patience: Option<u64>) -> Result<World, AllocError> {
    empty_of(rt, alloc, 2, patience)
}

/// How often all nodes told that they ordered to play for a seat.
fn orders(world: &World) -> u64 {
    let mut count = 0u64;
    for place in world.places.iter() {
        let [first, second] = place.counts.ordered;
        count = count.saturating_add(first).saturating_add(second);
    }
    count
}

/// Each of the two seats folds its small blind, once, by one node's order: that of the lowest number.
#[test]
fn who_is_away_is_played_for(rt: HostRuntime) -> Result<(), Fail> {
    let mut world = empty(&rt, rt.alloc(), Some(200_000))?;
    run(&rt, &mut world, 3_000)?;
    assert_whole(&rt, &world);
    let Some(place) = world.places.first() else {
        panic!(rt; "no nodes");
    };
    assert_eq!(rt; place.counts.ordered, [1, 1]);
    Ok(())
}

/// Nobody is played for before each seat has come, or `start` has passed; a note says each minute who hasn't.
#[test]
fn who_has_not_come_is_waited_for(rt: HostRuntime) -> Result<(), Fail> {
    let mut world = empty(&rt, rt.alloc(), Some(200_000))?;
    world.waiting.start = 1_500_000;
    run(&rt, &mut world, 1_400)?;
    assert_eq!(rt; orders(&world), 0);
    run(&rt, &mut world, 2_000)?;
    assert_whole(&rt, &world);
    Ok(())
}

/// A seat whose turns are played for is given up: of four hands each seat's second act waits half a second, and not two.
#[test]
fn who_is_given_up_is_waited_for_shortly(rt: HostRuntime) -> Result<(), Fail> {
    let mut world = empty_of(&rt, rt.alloc(), 4, Some(2_000_000))?;
    run(&rt, &mut world, 4_500)?;
    assert!(rt; !world.is_over());
    run(&rt, &mut world, 1_500)?;
    assert!(rt; world.is_over());
    Ok(())
}

/// Where a match file says that they are waited for, it isn't.
#[test]
fn who_is_not_to_be_given_up_is_not(rt: HostRuntime) -> Result<(), Fail> {
    let mut world = empty_of(&rt, rt.alloc(), 4, Some(2_000_000))?;
    world.waiting.gives_up = false;
    run(&rt, &mut world, 6_000)?;
    assert!(rt; !world.is_over());
    Ok(())
}

/// All processes are stopped for longer than the patience: behind that nobody is played for who is there.
#[test]
fn who_slept_orders_nothing(rt: HostRuntime) -> Result<(), Fail> {
    let mut world = World::new(&rt, rt.alloc(), 3, 60, [0, 1], b'f', (0, 0))?;
    world.waiting.patience = Some(2_000_000);
    run(&rt, &mut world, 150)?;
    assert!(rt; world.front() > 0 && !world.is_over());
    world.now = world.now.saturating_add(3_000_000);
    run(&rt, &mut world, 6_000)?;
    assert!(rt; world.is_over());
    assert_eq!(rt; orders(&world), 0);
    Ok(())
}

/// Who sat down at seat 0 of node 0, and how many were gone from there.
fn sitters(rt: &impl Abort, world: &World) -> (u64, u64) {
    let Some(place) = world.places.first() else {
        panic!(rt; "no nodes");
    };
    (place.counts.seated, place.counts.left)
}

/// A stranger who sits down and says nothing is let go of after ten seconds; then the bot that waits behind him sits down, and
/// is told the line of the hand that runs.
#[test]
fn who_names_no_version_makes_room(rt: HostRuntime) -> Result<(), Fail> {
    let mut world = empty(&rt, rt.alloc(), None)?;
    go_on(&rt, &mut world, 300)?;
    wire_of(&rt, &mut world, 0).come_to_seat(0);
    go_on(&rt, &mut world, 5)?;
    wire_of(&rt, &mut world, 0).come_to_seat(0);
    world.now = world.now.saturating_add(9_900_000);
    go_on(&rt, &mut world, 50)?;
    assert_eq!(rt; sitters(&rt, &world), (1, 0));
    world.now = world.now.saturating_add(100_000);
    go_on(&rt, &mut world, 5)?;
    assert_eq!(rt; sitters(&rt, &world), (2, 1));
    let wire = wire_of(&rt, &mut world, 0);
    wire.take_written(Line::Seat(0));
    wire.come(Line::Seat(0), b"VERSION:2.0.0\r\n")?;
    go_on(&rt, &mut world, 3)?;
    assert!(rt;
        wire_of(&rt, &mut world, 0)
            .written(Line::Seat(0))
            .starts_with(b"MATCHSTATE:")
    );
    Ok(())
}

/// Without patience the first hand waits for its seats, and whoever asks is told so.
#[test]
fn who_asks_is_told_how_a_node_is(rt: HostRuntime) -> Result<(), Fail> {
    let mut world = empty(&rt, rt.alloc(), None)?;
    run(&rt, &mut world, 300)?;
    assert_told(&rt, &mut world, 1, STATUS)?;
    Ok(())
}

/// The wires of a node's process.
fn wire_of<'a>(rt: &impl Abort, world: &'a mut World, node: usize) -> &'a mut MemoryWire {
    let Some(place) = world.places.get_mut(node) else {
        panic!(rt; "no nodes");
    };
    let Some(wire) = place.wire() else {
        panic!(rt; "no process");
    };
    wire
}

/// Three who ask a node how it is get this line in the next turn.
fn assert_told(
    rt: &impl Abort,
    world: &mut World,
    node: usize,
    line: &[u8],
) -> Result<(), AllocError> {
    for _ in 0..3u64 {
        wire_of(rt, world, node).ask();
    }
    world.step(rt)?;
    for place in 0..3u8 {
        assert_eq!(rt; wire_of(rt, world, node).written(Line::Asker(place)), line);
    }
    Ok(())
}

/// A match goes on for so many turns.
fn go_on(rt: &impl Abort, world: &mut World, turns: u64) -> Result<(), AllocError> {
    for _ in 0..turns {
        world.step(rt)?;
    }
    Ok(())
}

/// How many turns it takes until node 0 has begun a ballot.
fn turns_to_a_ballot(rt: &impl Abort, alloc: Global) -> Result<u64, AllocError> {
    let mut world = empty(rt, alloc, None)?;
    for turn in 0..300u64 {
        if world.campaigns(0) {
            return Ok(turn);
        }
        world.step(rt)?;
    }
    panic!(rt; "no ballot is begun");
}

/// Who prepares a ballot that nobody has promised leads nobody, though others are told that it campaigns.
#[test]
fn who_was_promised_nothing_does_not_lead(rt: HostRuntime) -> Result<(), Fail> {
    let turns = turns_to_a_ballot(&rt, rt.alloc())?;
    let mut world = empty(&rt, rt.alloc(), None)?;
    go_on(&rt, &mut world, turns.saturating_sub(1))?;
    world.silence(0, true);
    go_on(&rt, &mut world, 5)?;
    assert_told(&rt, &mut world, 0, UNHEARD)?;
    world.silence(0, false);
    go_on(&rt, &mut world, 200)?;
    assert_told(&rt, &mut world, 0, HEARD)?;
    Ok(())
}

/// Comments of a bot, as many bytes as are read of a seat in a turn.
fn comments(alloc: Global) -> Result<Vec<u8>, AllocError> {
    let mut bytes = Vec::new(alloc);
    for _ in 0..4u64 {
        bytes.push(b';')?;
        for _ in 0..125u64 {
            bytes.push(b'a')?;
        }
        bytes.extend_from_slice(b"\r\n")?;
    }
    Ok(bytes)
}

/// A bot comes to a seat of each node.
fn come_everywhere(rt: &impl Abort, world: &mut World, seat: u8) -> Result<(), AllocError> {
    for node in 0..3 {
        wire_of(rt, world, node).come_to_seat(seat);
    }
    go_on(rt, world, 3)?;
    for node in 0..3 {
        wire_of(rt, world, node).come(Line::Seat(seat), b"VERSION:2.0.0\r\n")?;
    }
    go_on(rt, world, 3)
}

/// The match goes on for so many turns, while whoever sits at seat 0 of each node sends comments without end.
fn comment_on(rt: &impl Abort, world: &mut World, turns: u64) -> Result<(), AllocError> {
    let bytes = comments(world.alloc)?;
    for _ in 0..turns {
        for node in 0..3 {
            let wire = wire_of(rt, world, node);
            wire.take_written(Line::Seat(0));
            wire.take_written(Line::Seat(1));
            wire.come(Line::Seat(0), &bytes)?;
        }
        world.step(rt)?;
    }
    Ok(())
}

/// So it is also behind a sleep of all processes: what came in it counts as read after a while.
#[test]
fn who_sends_without_end_is_played_for(rt: HostRuntime) -> Result<(), Fail> {
    let mut world = empty_of(&rt, rt.alloc(), 60, Some(100_000))?;
    go_on(&rt, &mut world, 300)?;
    come_everywhere(&rt, &mut world, 0)?;
    comment_on(&rt, &mut world, 500)?;
    let before = orders(&world);
    assert!(rt; before > 0);
    world.now = world.now.saturating_add(6_000_000);
    comment_on(&rt, &mut world, 1_200)?;
    assert!(rt; orders(&world) > before.saturating_add(2));
    Ok(())
}
