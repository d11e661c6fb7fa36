//! Game definitions: players, stacks, blinds and the rules of raising of a match of Texas hold'em, read from a game
//! file of the ACPC project. `read` answers a `GameDef` exactly for the game files, with the game that they define,
//! and else the first fault with its line; it takes no memory. All layers above that bet, deal or settle stand on
//! the bounds that `GameDef` ensures.
//!
//! First `read`, of the bytes of a file; then the readers of `GameDef`, one for each key, by position or by round
//! from 0. What holds of every game is the contract of `GameDef::limits`, and how large its numbers may be stands in
//! `limits`. What a game file is stands in `specs/GameFile.antt`.
//!
//! The tests `limit_games` and `nolimit_games` of `rule_tests` read files and look at each key. Faults: `GameFault`,
//! with its line from 1 and a `FaultKind` from 10 to 19.
#![tactic(auto)]

mod body;
mod building;
mod entries;
mod entry;
mod fault;
mod fault_kind;
mod game;
mod key;
pub mod limits;
mod line;
mod reading;
mod test;
mod text;
mod whole_file;

pub use fault::GameFault;
pub use fault_kind::FaultKind;
pub use game::GameDef;
pub use reading::read;
