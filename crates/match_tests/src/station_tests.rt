use crate::processes::play;
use crate::samples::assert_holds;
use std::alloc::Global;
use std::process::Abort;
use std::test::Fail;

/// How many calls of its disk no node makes in a match.
const CALLS: u64 = 1_000;

/// Asserts that all logs are of one list in whichever call of its disk, in turn, the process of a node dies.
fn assert_one_list(rt: &impl Abort, alloc: Global, nodes: u8, failing: u8) -> Result<(), Fail> {
    for calls in 2..CALLS {
        if !play(rt, alloc, nodes, failing, calls)? {
            // It has at least an append for its promise and one for what it accepted, of four calls each.
            assert_holds(rt, calls, calls > 10);
            return Ok(());
        }
    }
    assert_holds(rt, CALLS, false);
    Ok(())
}

#[test]
fn three_processes_of_which_one_dies_show_one_list(rt: HostRuntime) -> Result<(), Fail> {
    for failing in 0..3 {
        assert_one_list(&rt, rt.alloc(), 3, failing)?;
    }
    Ok(())
}

#[test]
fn five_processes_of_which_one_dies_show_one_list(rt: HostRuntime) -> Result<(), Fail> {
    assert_one_list(&rt, rt.alloc(), 5, 3)
}
