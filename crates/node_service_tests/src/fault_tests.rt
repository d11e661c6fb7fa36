//! A call of a node's wires failing once: where its log can't be written the process ends, and begins again; whatever else
//! fails, the match goes on.

use crate::match_tests::{assert_whole, run};
use crate::world::World;
use std::alloc::{AllocError, Global};
use std::process::Abort;
use std::test::Fail;

/// The match where the call of this number of the wires of node 0 fails. It says whether it did: the match may be over before.
fn fails_in(rt: &impl Abort, alloc: Global, call: u64) -> Result<bool, AllocError> {
    let mut world = World::new(rt, alloc, 3, 2, [0, 1], b'f', (0, call))?;
    run(rt, &mut world, 20_000)?;
    assert_whole(rt, &world);
    Ok(world.places.iter().any(|place| place.has_failed))
}

#[test]
fn a_call_fails_at_first(rt: HostRuntime) -> Result<(), Fail> {
    for call in 1..9 {
        assert!(rt; fails_in(&rt, rt.alloc(), call)?);
    }
    Ok(())
}

/// The ninth call, and then each that is twice as far, until none fails: the wires of a node are given far fewer calls in a
/// match than twenty doublings make.
#[test]
fn a_call_fails_later(rt: HostRuntime) -> Result<(), Fail> {
    let mut call = 9u64;
    for _ in 0..20 {
        if !fails_in(&rt, rt.alloc(), call)? {
            assert!(rt; call > 100);
            return Ok(());
        }
        call = call.saturating_mul(2);
    }
    panic!(rt; "a call fails whatever its number");
}
