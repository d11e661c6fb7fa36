//! Processes that are killed in the middle of a turn: behind their last call those of their wires and of their disk do nothing.

use crate::match_tests::{assert_alike, run};
use crate::world::World;
use std::alloc::{AllocError, Global};
use std::process::Abort;
use std::test::Fail;

/// How many lines of the match stand in a text.
fn lines_in(text: &[u8]) -> usize {
    text.iter().filter(|byte| **byte == b'M').count()
}

/// A match of two hands by three nodes, in which the first process of node 0 makes so many calls of its wires and its disk. Its
/// bots go on from their last line, miss none and hear none twice. It says how many processes were killed.
fn killed_in(rt: &impl Abort, alloc: Global, calls: u64) -> Result<u64, AllocError> {
    let mut world = World::new(rt, alloc, 3, 2, [0, 0], b'c', (0, 0))?;
    for bot in world.bots.iter_mut() {
        bot.asks.extend_from_slice(b"#RESUME FIRST\r\n")?;
        bot.goes_on_from_last = true;
    }
    if let Some(place) = world.places.first_mut() {
        place.calls = calls;
    }
    run(rt, &mut world, 20_000)?;
    assert_alike(rt, &world);
    // A hand in which nobody raises has eight actions, and so nine lines.
    for bot in world.bots.iter() {
        assert!(rt; lines_in(&bot.heard) == 2 * 9 && bot.heard.ends_with(b"#OVER\r\n"));
    }
    Ok(
        world
            .places
            .iter()
            .fold(0, |all, place| place.killed.saturating_add(all)),
    )
}

#[test]
fn no_line_is_missing_behind_a_killed_turn(rt: HostRuntime) -> Result<(), Fail> {
    for calls in [
        1, 2, 5, 60, 200, 450, 500, 550, 600, 650, 700, 800, 900, 1_000,
    ] {
        assert_eq!(rt; killed_in(&rt, rt.alloc(), calls)?, 1);
    }
    Ok(())
}
