//! The sequential dealer: what becomes of a match by a list of commands; and the log of slots, which puts commands
//! into that list in whatever order they become known. `laws` has what holds of the hands and the logs of every
//! match.
//!
//! `Table::new` begins a match of a game. A `Command` deals the next hand, or is the next action of the hand that
//! runs, or plays for its player to act where he is away (`away` gives that one): `fits` says whether it would take effect now and `reason` why not, `apply` takes it and answers its
//! `Effect`. The readers `deal` and `play` give each hand; `finished`, `running` and `over` tell how far the match
//! is. `SlotLog` begins empty: `put` makes a command known at its slot, and `commands` are those below `front`, the
//! first slot that isn't known. Calls with `reserved` in their name take no memory, once `reserve` made the room.
//!
//! The test `a_match_of_two_hands` of `rule_tests` plays a match, `slots_are_known_one_by_one` fills a log. A command
//! that doesn't fit is no fault, and the effect says its `Reason`; faults are `SlotFault`, 30 and 31, which change
//! nothing.
#![tactic(auto)]

mod command;
mod effect;
mod known;
pub mod laws;
pub mod limits;
mod played_hand;
mod reason;
mod slot_fault;
mod slots;
mod table;

pub use command::Command;
pub use effect::Effect;
pub use reason::Reason;
pub use slot_fault::SlotFault;
pub use slots::SlotLog;
pub use table::Table;
