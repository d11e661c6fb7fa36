//! Who comes to seats that have tokens, among strangers.

use crate::samples::TOKEN_LINE;
use crate::world::World;
use node_wires::{Line, MemoryWire};
use std::alloc::{AllocError, Global};
use std::process::Abort;
use std::test::Fail;

/// The wires of node 0.
fn wire_of<'a>(rt: &impl Abort, world: &'a mut World) -> &'a mut MemoryWire {
    let Some(place) = world.places.first_mut() else {
        panic!(rt; "no nodes");
    };
    let Some(wire) = place.wire() else {
        panic!(rt; "no process");
    };
    wire
}

/// A match goes on for so many turns.
fn go_on(rt: &impl Abort, world: &mut World, turns: u64) -> Result<(), AllocError> {
    for _ in 0..turns {
        world.step(rt)?;
    }
    Ok(())
}

/// So many strangers come to seat 0 of node 0 and say this, and hang up or stay.
fn come_many(
    rt: &impl Abort,
    world: &mut World,
    count: u64,
    says: &[u8],
    ends: bool,
) -> Result<(), AllocError> {
    for _ in 0..count {
        wire_of(rt, world).call_seat(0, says, ends)?;
    }
    Ok(())
}

/// Such strangers, and behind them the bot of the seat.
fn come_all(
    rt: &impl Abort,
    world: &mut World,
    count: u64,
    says: &[u8],
    ends: bool,
) -> Result<(), AllocError> {
    come_many(rt, world, count, says, ends)?;
    wire_of(rt, world).call_seat(0, TOKEN_LINE, false)
}

/// A match whose seats have tokens, and to which no bots come by themselves.
fn guarded(rt: &impl Abort, alloc: Global) -> Result<World, AllocError> {
    let mut world = World::new(rt, alloc, 3, 2, [0, 1], b'f', (0, 0))?;
    world.waiting.has_tokens = true;
    world.bots.clear();
    Ok(world)
}

/// Whoever stands in front of a bot in the queue of its seat's port, it sits within two turns.
#[test]
fn strangers_keep_no_bot_out(rt: HostRuntime) -> Result<(), Fail> {
    for (says, ends) in [
        (b"".as_slice(), true),
        (b"".as_slice(), false),
        (b"#TOKEN b\r\n".as_slice(), false),
    ] {
        let mut world = guarded(&rt, rt.alloc())?;
        go_on(&rt, &mut world, 300)?;
        come_all(&rt, &mut world, 600, says, ends)?;
        go_on(&rt, &mut world, 3)?;
        assert!(rt; wire_of(&rt, &mut world).is_open(Line::Seat(0)));
        go_on(&rt, &mut world, 1_100)?;
        let Some(place) = world.places.first() else {
            panic!(rt; "no nodes");
        };
        let told = place.counts.wrong.saturating_add(place.counts.turned_away);
        assert!(rt; told > 500 && place.counts.seated == 1);
    }
    Ok(())
}

/// Who showed a token while the node has no quorum yet, or learns what was chosen before, is taken in once it has.
#[test]
fn who_showed_a_token_waits_for_the_quorum(rt: HostRuntime) -> Result<(), Fail> {
    let mut world = guarded(&rt, rt.alloc())?;
    world.step(&rt)?;
    come_all(&rt, &mut world, 40, b"", false)?;
    come_many(&rt, &mut world, 600, b"", false)?;
    world.step(&rt)?;
    assert!(rt; !wire_of(&rt, &mut world).is_open(Line::Seat(0)));
    go_on(&rt, &mut world, 300)?;
    assert!(rt; wire_of(&rt, &mut world).is_open(Line::Seat(0)));
    Ok(())
}
