//! A node that gets little of a processor.

use crate::world::World;
use std::alloc::AllocError;
use std::process::Abort;
use std::test::Fail;

/// A match goes on for so many turns.
fn go_on(rt: &impl Abort, world: &mut World, turns: u64) -> Result<(), AllocError> {
    for _ in 0..turns {
        world.step(rt)?;
    }
    Ok(())
}

/// By how much the front of a node rises at most in each of so many turns.
fn most_in_a_turn(
    rt: &impl Abort,
    world: &mut World,
    node: u8,
    turns: u64,
) -> Result<u32, AllocError> {
    let mut most = 0;
    for _ in 0..turns {
        let before = world.front_of(node);
        world.step(rt)?;
        most = most.max(world.front_of(node).saturating_sub(before));
    }
    Ok(most)
}

/// Where each look at the clock takes longer than frames may take in a turn, a node that was told of many commands at once takes
/// up to four things in a turn, since these cost no sync, and no more.
#[test]
fn a_slow_node_takes_four_things_in_a_turn(rt: HostRuntime) -> Result<(), Fail> {
    let mut world = World::new(&rt, rt.alloc(), 3, 12, [0, 0], b'c', (0, 0))?;
    for _ in 0..20_000u64 {
        if world.front() >= 10 && world.front_of(2) == world.front() {
            break;
        }
        world.step(&rt)?;
    }
    assert!(rt; !world.campaigns(2));
    world.hold_back(2, true);
    go_on(&rt, &mut world, 40)?;
    let behind = world.front().saturating_sub(world.front_of(2));
    assert!(rt; behind >= 8);
    world.hold_back(2, false);
    if let Some(server) = world
        .places
        .get_mut(2)
        .and_then(|place| place.server.as_mut())
    {
        server.wire_mut().set_look(25_000);
    }
    let most = most_in_a_turn(&rt, &mut world, 2, 12)?;
    assert!(rt; most >= 2 && most <= 4);
    Ok(())
}
