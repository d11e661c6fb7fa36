use crate::asserting::holds;
use betting::Action;
use paxos_wire::{Ballot, write_ballot_reserved, write_command_reserved};
use slot_log::Command;
use std::alloc::AllocError;
use std::test::Fail;

/// The ballot of a record.
const BALLOT: Ballot = Ballot { round: 1, node: 0 };

/// The command of a record.
const CALL: Command = Command::Act {
    hand: 0,
    index: 0,
    action: Action::Call,
};

/// Writes the ballot and the command behind it into room that is made before.
fn write_record_reserved(out: &mut Vec<u8>) -> Result<(), AllocError> {
    out.reserve(17)?;
    write_ballot_reserved(out, BALLOT);
    write_command_reserved(out, &CALL);
    Ok(())
}

/// The bytes of the two.
const RECORD: [u8; 17] = [0, 0, 0, 1, 0, 2, 0, 0, 0, 0, 0, 0, 1, 0, 0, 0, 0];

#[test]
fn ballots_and_commands_of_a_record(rt: HostRuntime) -> Result<(), Fail> {
    let mut out = Vec::new(rt.alloc());
    write_record_reserved(&mut out)?;
    holds!(&rt; out.as_slice() == RECORD.as_slice());
    Ok(())
}
