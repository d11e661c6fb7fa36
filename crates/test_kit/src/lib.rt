//! What tests of processes share: wires and a disk over a virtual clock.
//!
//! A process has a `Clock`, which its `SimDisk` and its `SimWire` share by reference: each call moves it on by the time that it
//! takes. Who holds the process sets the clock where a turn begins, and the moment of its death: from then on each call fails
//! and does nothing, so a process may die inside of a turn, also inside of a sync. What it does over its wires is a list of
//! `Act`s, and what it does with its disk one of `DiskCall`s. `Ends` has the ends of its connections, by their numbers: what is
//! carried between processes is for the one who holds them to say.
#![tactic(auto)]

mod act;
mod clock;
mod ends;
mod most_read;
mod pipe;
mod sim_disk;
mod sim_wire;

pub use act::{Act, What};
pub use clock::Clock;
pub use ends::{Ends, Port, ROOM};
pub use most_read::MostRead;
pub use sim_disk::{DiskCall, SimDisk};
pub use sim_wire::SimWire;
