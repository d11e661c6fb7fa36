//! Nodes whose store is an older copy of the one that their peers know, and what peers know of it.

use crate::samples::new_disk;
use crate::world::World;
use node_service::Outcome;
use std::alloc::{AllocError, Global};
use std::process::Abort;
use std::test::Fail;

/// A match of three nodes goes on until so many commands are applied somewhere.
fn play(rt: &impl Abort, world: &mut World, front: u32) -> Result<(), AllocError> {
    for _ in 0..20_000u64 {
        if world.front() >= front {
            return Ok(());
        }
        world.step(rt)?;
    }
    Ok(())
}

/// How the process of a node ended at last, if it did.
fn outcome_of(rt: &impl Abort, world: &World, node: u8) -> Outcome {
    let Some(place) = world.places.get(node as usize) else {
        panic!(rt; "no node");
    };
    place.outcome
}

/// The store with which this node began is put back while the others play on.
fn begins_with_a_copy(rt: &impl Abort, alloc: Global, node: u8) -> Result<(), AllocError> {
    let mut world = World::new(rt, alloc, 3, 12, [1, 1], b'c', (0, 0))?;
    let first = Vec::from_slice(alloc, new_disk(rt, alloc, node, 3)?.bytes())?;
    play(rt, &mut world, 10)?;
    world.put_back(node, first)?;
    for _ in 0..3_000u64 {
        world.step(rt)?;
    }
    assert!(rt; outcome_of(rt, &world, node) == Outcome::StoreOlder);
    assert!(rt; world.front() > 12);
    Ok(())
}

/// It finds so by what the others have heard, whether it dials them or is dialled: its process ends, and the match goes on.
#[test]
fn an_older_copy_ends_its_process(rt: HostRuntime) -> Result<(), Fail> {
    begins_with_a_copy(&rt, rt.alloc(), 0)?;
    begins_with_a_copy(&rt, rt.alloc(), 2)?;
    Ok(())
}

/// No node has heard of more than another has promised.
fn assert_heard(rt: &impl Abort, world: &World) {
    for node in 0..3u8 {
        for other in 0..3u8 {
            let heard = world.heard(node, other).unwrap_or(0);
            assert!(rt; node == other || heard <= world.promised(other).unwrap_or(0));
        }
    }
}

/// Of itself a node has heard nothing, nor of a number that no node has; who leads has heard what the others promised to it.
#[test]
fn promises_of_peers_are_heard(rt: HostRuntime) -> Result<(), Fail> {
    let mut world = World::new(&rt, rt.alloc(), 3, 12, [0, 1], b'c', (0, 0))?;
    for front in 1..40 {
        play(&rt, &mut world, front)?;
        assert_heard(&rt, &world);
    }
    for node in 0..3u8 {
        assert_eq!(rt; world.heard(node, node), None);
        assert_eq!(rt; world.heard(node, 3), None);
        if world.campaigns(node) {
            for other in 0..3u8 {
                assert!(rt; other == node || world.heard(node, other) == world.promised(node));
            }
        }
    }
    Ok(())
}
