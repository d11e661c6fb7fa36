//! Who comes to a node that is without a quorum, and who sits there when it loses it.

use crate::match_tests::{assert_alike, run};
use crate::world::World;
use node_wires::{Line, MemoryWire};
use std::alloc::AllocError;
use std::process::Abort;
use std::test::Fail;

/// The wires of node 0.
fn wire_of<'a>(rt: &impl Abort, world: &'a mut World) -> &'a mut MemoryWire {
    let Some(place) = world.places.first_mut() else {
        panic!(rt; "no nodes");
    };
    let Some(wire) = place.wire() else {
        panic!(rt; "no process");
    };
    wire
}

/// A match goes on for so many turns.
fn go_on(rt: &impl Abort, world: &mut World, turns: u64) -> Result<(), AllocError> {
    for _ in 0..turns {
        world.step(rt)?;
    }
    Ok(())
}

/// One comes to seat 0 of node 0 and says this once he sits there; so many turns later it is looked what he was told, and whether
/// he still sits there.
fn come(
    rt: &impl Abort,
    world: &mut World,
    says: &[u8],
    told: &[u8],
    sits: bool,
) -> Result<(), AllocError> {
    wire_of(rt, world).take_written(Line::Seat(0));
    wire_of(rt, world).come_to_seat(0);
    go_on(rt, world, 2)?;
    assert!(rt; wire_of(rt, world).is_open(Line::Seat(0)));
    wire_of(rt, world).come(Line::Seat(0), says)?;
    go_on(rt, world, 3)?;
    assert_eq!(rt; wire_of(rt, world).written(Line::Seat(0)), told);
    assert_eq!(rt; wire_of(rt, world).is_open(Line::Seat(0)), sits);
    Ok(())
}

/// Who says `#RESUME` is told to come again, and who names the version without it is let go of without a word. Who says neither
/// is read on for two seconds. No note tells that he sat there, and once there is a quorum he is as one who comes then.
#[test]
fn who_comes_without_a_quorum_is_told_to_wait(rt: HostRuntime) -> Result<(), Fail> {
    let mut world = World::new(&rt, rt.alloc(), 3, 2, [0, 1], b'f', (0, 0))?;
    world.bots.clear();
    world.cut_off(0, true);
    go_on(&rt, &mut world, 400)?;
    come(&rt, &mut world, b"#RESUME FIRST\r\n", b"#WAIT\r\n", false)?;
    let asks = b"; a bot\r\n#RESUME NEWEST\r\nVERSION:2.0.0\r\n";
    come(&rt, &mut world, asks, b"#WAIT\r\n", false)?;
    come(&rt, &mut world, b"VERSION:2.0.0\r\n", b"", false)?;
    come(&rt, &mut world, b"; a bot\r\n", b"", true)?;
    go_on(&rt, &mut world, 1_990)?;
    assert!(rt; wire_of(&rt, &mut world).is_open(Line::Seat(0)));
    go_on(&rt, &mut world, 10)?;
    assert!(rt; !wire_of(&rt, &mut world).is_open(Line::Seat(0)));
    come(&rt, &mut world, b"; a bot\r\n", b"", true)?;
    assert!(rt;
        world
            .places
            .iter()
            .all(|place| place.counts.seated == 0 && place.counts.left == 0)
    );
    world.cut_off(0, false);
    go_on(&rt, &mut world, 1_000)?;
    let wire = wire_of(&rt, &mut world);
    assert!(rt; wire.is_open(Line::Seat(0)) && wire.written(Line::Seat(0)).is_empty());
    wire.come(Line::Seat(0), b"#RESUME FIRST\r\nVERSION:2.0.0\r\n")?;
    go_on(&rt, &mut world, 3)?;
    assert!(rt;
        wire_of(&rt, &mut world)
            .written(Line::Seat(0))
            .starts_with(b"MATCHSTATE:0:0::")
    );
    assert!(rt; world.places.iter().any(|place| place.counts.seated == 1));
    Ok(())
}

/// Bots that sit at a node that is cut off are told to come again behind their lines, where they said `#RESUME`: they miss no line
/// and hear none twice, whichever node they dial next.
#[test]
fn who_sits_when_the_quorum_is_lost_is_told_to_wait(rt: HostRuntime) -> Result<(), Fail> {
    let mut world = World::new(&rt, rt.alloc(), 3, 12, [0, 0], b'c', (0, 0))?;
    for bot in world.bots.iter_mut() {
        bot.asks.extend_from_slice(b"#RESUME FIRST\r\n")?;
        bot.goes_on_from_last = true;
    }
    for _ in 0..20_000u64 {
        if world.front() >= 10 {
            break;
        }
        world.step(&rt)?;
    }
    world.cut_off(0, true);
    go_on(&rt, &mut world, 2_500)?;
    assert!(rt; world.bots.iter().all(|bot| bot.waits == 1));
    world.cut_off(0, false);
    run(&rt, &mut world, 12_000)?;
    assert_alike(&rt, &world);
    for bot in world.bots.iter() {
        let lines = bot.heard.iter().filter(|byte| **byte == b'M').count();
        assert!(rt; lines == 12 * 9 && bot.heard.ends_with(b"#OVER\r\n"));
    }
    Ok(())
}
