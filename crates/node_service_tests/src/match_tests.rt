//! Matches that go on to their end, whatever happens to processes.

use crate::world::World;
use node_service::Outcome;
use std::alloc::AllocError;
use std::process::Abort;
use std::test::Fail;

/// The log of a match of two hands, in each of which who acts first folds.
const LOG: &[u8] = b"# name/game/hands m1 l2.game 2
STATE:0:f:TdAs|8hTc:5|-5:alice|bob
STATE:1:f:TdAs|8hTc:5|-5:bob|alice
SCORE:0|0:alice|bob
";

/// Lets a match go on until it is over at all nodes, for so many turns at most.
pub(crate) fn run(rt: &impl Abort, world: &mut World, turns: u64) -> Result<(), AllocError> {
    for _ in 0..turns {
        if world.is_over() {
            return Ok(());
        }
        world.step(rt)?;
    }
    Ok(())
}

/// All processes have ended, and told the same whole log.
pub(crate) fn assert_whole(rt: &impl Abort, world: &World) {
    assert!(rt; world.is_over());
    for place in world.places.iter() {
        assert_eq!(rt; place.log.as_slice(), LOG);
    }
}

/// All processes have ended, and told the same log, which ends with the score.
pub(crate) fn assert_alike(rt: &impl Abort, world: &World) {
    assert!(rt; world.is_over());
    let Some(first) = world.places.first() else {
        panic!(rt; "no nodes");
    };
    assert!(rt;
        first.log.ends_with(b":alice|bob\n") && count_of(&first.log) == world.hands as usize + 2
    );
    for place in world.places.iter() {
        assert_eq!(rt; place.log.as_slice(), first.log.as_slice());
    }
}

/// How many lines a log has.
pub(crate) fn count_of(log: &[u8]) -> usize {
    log.iter().filter(|byte| **byte == b'\n').count()
}

/// The next of a row of numbers that look drawn.
fn drawn(seed: &mut u64) -> u64 {
    *seed = seed
        .wrapping_mul(6_364_136_223_846_793_005)
        .wrapping_add(1_442_695_040_888_963_407);
    *seed >> 33
}

/// Lets a match go on, while so many processes at a time die every so many commands, each to begin again after a while.
pub(crate) fn run_with_deaths(
    rt: &impl Abort,
    world: &mut World,
    seed: u64,
    each: u32,
    together: u8,
) -> Result<u64, AllocError> {
    let mut seed = seed;
    let mut deaths = 0u64;
    let mut next = each;
    for _ in 0..120_000u64 {
        if world.is_over() {
            break;
        }
        world.step(rt)?;
        if world.front() >= next && world.is_whole() {
            next = world.front().saturating_add(each);
            for _ in 0..together {
                let node = (drawn(&mut seed) % (world.nodes.max(1) as u64)) as u8;
                world.die(node, drawn(&mut seed) % 60)?;
                deaths = deaths.saturating_add(1);
            }
        }
    }
    Ok(deaths)
}

#[test]
fn three_play_to_the_end(rt: HostRuntime) -> Result<(), Fail> {
    let mut world = World::new(&rt, rt.alloc(), 3, 2, [0, 1], b'f', (0, 0))?;
    run(&rt, &mut world, 3_000)?;
    assert_whole(&rt, &world);
    for place in world.places.iter() {
        assert!(rt; place.outcome == Outcome::Over && place.counts.quorum == 1);
    }
    Ok(())
}

#[test]
fn processes_of_three_die_and_begin_again(rt: HostRuntime) -> Result<(), Fail> {
    for seed in 0..2 {
        let mut world = World::new(&rt, rt.alloc(), 3, 12, [0, 1], b'c', (0, 0))?;
        let deaths = run_with_deaths(&rt, &mut world, seed, 6, 1)?;
        assert!(rt; deaths >= 5);
        assert_alike(&rt, &world);
    }
    Ok(())
}

#[test]
fn processes_of_five_die_two_at_a_time(rt: HostRuntime) -> Result<(), Fail> {
    let mut world = World::new(&rt, rt.alloc(), 5, 6, [0, 3], b'c', (0, 0))?;
    let deaths = run_with_deaths(&rt, &mut world, 7, 8, 2)?;
    assert!(rt; deaths >= 4);
    assert_alike(&rt, &world);
    Ok(())
}

/// A node that is cut off is without a quorum: its bots go elsewhere, and the match goes on. Once it is back it learns the
/// rest.
#[test]
fn one_that_is_cut_off_lets_its_seats_go(rt: HostRuntime) -> Result<(), Fail> {
    let mut world = World::new(&rt, rt.alloc(), 3, 12, [0, 0], b'c', (0, 0))?;
    for _ in 0..20_000u64 {
        if world.front() >= 10 {
            break;
        }
        world.step(&rt)?;
    }
    world.cut_off(0, true);
    for _ in 0..2_500u64 {
        world.step(&rt)?;
    }
    let Some(place) = world.places.first() else {
        panic!(rt; "no nodes");
    };
    assert!(rt; place.counts.lost == 1 && place.counts.quorum == 1);
    assert!(rt; world.front() > 12);
    world.cut_off(0, false);
    run(&rt, &mut world, 12_000)?;
    assert_alike(&rt, &world);
    Ok(())
}
