//! Who comes to a seat whose bot went.

use crate::world::World;
use node_wires::{Line, MemoryWire};
use std::alloc::AllocError;
use std::process::Abort;
use std::test::Fail;

/// The wires of node 0.
fn wire_of<'a>(rt: &impl Abort, world: &'a mut World) -> &'a mut MemoryWire {
    let Some(place) = world.places.first_mut() else {
        panic!(rt; "no nodes");
    };
    let Some(wire) = place.wire() else {
        panic!(rt; "no process");
    };
    wire
}

/// Who sat down at seat 0 of node 0, how many were gone from there, and how long its next turn may wait.
fn seen_of(rt: &impl Abort, world: &World) -> (u64, u64, u64) {
    let Some(place) = world.places.first() else {
        panic!(rt; "no nodes");
    };
    (place.counts.seated, place.counts.left, place.rest)
}

/// The match goes on until the first bot of seat 0 sits at node 0.
fn begin(rt: &impl Abort, world: &mut World) -> Result<(), AllocError> {
    world.step(rt)?;
    wire_of(rt, world).come_to_seat(0);
    for _ in 0..600u64 {
        if wire_of(rt, world).is_open(Line::Seat(0)) {
            return Ok(());
        }
        world.step(rt)?;
    }
    Ok(())
}

/// Where the bot that sits at seat 0 of node 0 is.
#[derive(Clone, Copy, PartialEq, Eq)]
enum Step {
    /// It is to name the version.
    Names,
    /// It is to go, and another one to come.
    Goes,
    /// It went, and the other one waits at the port.
    Waits,
}

/// What is done at the wires of node 0 before a turn.
fn act(wire: &mut MemoryWire, step: Step) -> Result<(), AllocError> {
    match step {
        Step::Names => wire.come(Line::Seat(0), b"VERSION:2.0.0\r\n"),
        Step::Goes => {
            wire.take_written(Line::Seat(0));
            wire.end(Line::Seat(0));
            wire.come_to_seat(0);
            Ok(())
        }
        Step::Waits => Ok(()),
    }
}

/// What is done behind a turn in which somebody was seated, or nobody.
fn step_after(step: Step, is_seated: bool) -> Step {
    match step {
        Step::Names => Step::Goes,
        Step::Goes | Step::Waits => { if is_seated { Step::Names } else { Step::Waits } }
    }
}

/// While a match is played at the nodes 1 and 2, bots of seat 0 come to node 0 one after another, and each goes before it is
/// told a further line: in the turn in which one goes nobody is taken in. The next turn isn't waited for, and takes in who waits
/// as soon as the node has learned what was chosen.
#[test]
fn nobody_follows_within_a_turn(rt: HostRuntime) -> Result<(), Fail> {
    let mut world = World::new(&rt, rt.alloc(), 3, 12, [1, 2], b'c', (0, 0))?;
    begin(&rt, &mut world)?;
    let mut step = Step::Names;
    let mut gone = 0u64;
    for _ in 0..300u64 {
        let (sat, left, _) = seen_of(&rt, &world);
        act(wire_of(&rt, &mut world), step)?;
        world.step(&rt)?;
        if world.is_over_at(0) {
            break;
        }
        let (seated, gone_now, rest) = seen_of(&rt, &world);
        if step == Step::Goes {
            assert_eq!(rt; (seated, gone_now, rest), (sat, left.saturating_add(1), 0));
        }
        step = step_after(step, seated > sat);
        gone = gone_now;
    }
    assert!(rt; gone > 20);
    Ok(())
}
