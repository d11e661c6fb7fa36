//! What a bot is told that asks for lines from one on.

use crate::match_tests::{assert_alike, run, run_with_deaths};
use crate::world::World;
use std::alloc::{AllocError, Global};
use std::process::Abort;
use std::test::Fail;

/// All lines of alice in a match of two hands, in each of which who acts first folds.
const ALL: &[u8] =
    b"MATCHSTATE:0:0::TdAs|\r\nMATCHSTATE:0:0:f:TdAs|\r\nMATCHSTATE:1:1::|8hTc\r\nMATCHSTATE:1:1:f:|8hTc\r\n";

/// A match of two hands by three nodes, where the bot of seat 0 asks so.
fn world(rt: &impl Abort, alloc: Global, asks: &[u8]) -> Result<World, AllocError> {
    let mut world = World::new(rt, alloc, 3, 2, [0, 1], b'f', (0, 0))?;
    if let Some(bot) = world.bots.first_mut() {
        bot.asks.extend_from_slice(asks)?;
    }
    Ok(world)
}

/// What the bot of seat 0 heard.
fn heard(world: &World) -> &[u8] {
    match world.bots.first() {
        Some(bot) => bot.heard.as_slice(),
        None => &[],
    }
}

/// How many lines of the match stand in a text, and how many actions in the lines of a log.
fn lines_in(text: &[u8]) -> usize {
    text.iter().filter(|byte| **byte == b'M').count()
}

/// A bot that asks for nothing is told its lines, and not that the match is over; one that asks for them from the first on, or
/// from the newest, is told both.
#[test]
fn the_end_is_told_to_who_asked(rt: HostRuntime) -> Result<(), Fail> {
    for asks in [
        b"".as_slice(),
        b"#RESUME FIRST\r\n",
        b"# a\r\n#RESUME NEWEST\r\n",
        b"#RESUME MATCHSTATE:0:0::TdAs|\r\n",
    ] {
        let mut world = world(&rt, rt.alloc(), asks)?;
        run(&rt, &mut world, 3_000)?;
        assert_alike(&rt, &world);
        let told = heard(&world);
        let rest = told.strip_prefix(ALL).unwrap_or(b"? ");
        if asks.is_empty() {
            // It goes from node to node until all processes have ended, and is told the newest line by each.
            assert!(rt; told.starts_with(ALL) && !rest.contains(&b'#'));
        } else {
            assert_eq!(rt; rest, b"#OVER\r\n".as_slice());
        }
    }
    Ok(())
}

/// A bot that names a line of another match is told that it is none, and its connection ends.
#[test]
fn a_line_of_another_match_is_refused(rt: HostRuntime) -> Result<(), Fail> {
    for asks in [
        b"#RESUME MATCHSTATE:0:0::AsTd|\r\n".as_slice(),
        b"#RESUME \r\n",
        b"#RESUME FIRST\r\n#RESUME FIRST\r\n",
    ] {
        let mut world = world(&rt, rt.alloc(), asks)?;
        for _ in 0..400u64 {
            world.step(&rt)?;
        }
        assert!(rt; heard(&world).starts_with(b"#OTHER\r\n") && lines_in(heard(&world)) == 0);
        assert!(rt; world.places.iter().any(|place| place.counts.other > 0));
    }
    Ok(())
}

/// Bots that go on from their last line miss none and hear none twice, whatever nodes die.
#[test]
fn no_line_is_missing(rt: HostRuntime) -> Result<(), Fail> {
    let mut world = World::new(&rt, rt.alloc(), 3, 12, [0, 1], b'c', (0, 0))?;
    for bot in world.bots.iter_mut() {
        bot.asks.extend_from_slice(b"#RESUME FIRST\r\n")?;
        bot.goes_on_from_last = true;
    }
    let deaths = run_with_deaths(&rt, &mut world, 3, 6, 1)?;
    assert!(rt; deaths >= 5);
    assert_alike(&rt, &world);
    // A hand in which nobody raises has eight actions, and so nine lines.
    for bot in world.bots.iter() {
        assert!(rt; lines_in(&bot.heard) == 12 * 9 && bot.heard.ends_with(b"#OVER\r\n"));
    }
    Ok(())
}
