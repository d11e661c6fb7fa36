use crate::peer::Peer;
use crate::samples::holds;
use dealer_node::{NodeFault, Out};
use std::test::Fail;

/// An order where no hand runs is refused before it wants memory. `tests/step_growths` runs this test and refuses it each
/// growth in turn: none of them is one of the order.
#[test]
fn an_order_where_no_hand_runs_wants_no_memory(rt: HostRuntime) -> Result<(), Fail> {
    let alloc = rt.alloc();
    let mut peer = Peer::created(&rt, alloc)?;
    let mut out = Out::new(alloc);
    peer.start(&mut out)?;
    holds!(&rt; peer.away(&mut out) == Err(NodeFault::NothingToAct));
    Ok(())
}
