//! What a node may never forget: the ballot that it promised and what it accepted, on a disk that a crash may cut
//! short at any moment.
//!
//! `Store::create` makes an empty store on a `Disk`, once for each node of a match; `Store::open` finds the one that a
//! disk has, also after a crash, and `Store::look` only looks whether there is one. `promise` and `accept_run`, which takes
//! commands for up to 64 slots that follow one another, append one record each, and have it on the disk when they answer;
//! `accept` is a run of one. `held` and `entry` give back what is stored; `close` hands the disk back. A journal that an
//! earlier program left, of version 1, is opened as it stands, and goes on with records of version 2. `FileDisk` is a
//! file; `MemoryDisk`, whose fuses let its calls fail, and `OnceDisk`, of whose calls one fails, lie in memory, and leave
//! after a `stop` any of what wasn't synced. `laws` has what bytes of a journal mean, and what is stored in words of the
//! protocol; `docs/FORMATS.md` has the journal byte by byte.
//!
//! The test `journal_byte_by_byte` of `paxos_tests` walks this way, `stops_in_a_promise` stops the disk at each of its
//! calls. Faults: `StoreFault`, 60 to 62 of `open` and `look`, 63 where a call of the disk failed, 64 from then on, until
//! the disk is opened again, and 92.
#![tactic(auto)]

mod appending;
mod call;
mod disk;
mod fault;
mod file_disk;
mod held;
mod index;
pub mod laws;
mod medium;
mod memory_disk;
mod once_disk;
mod placed;
mod reading;
mod records;
mod stage;
mod store;
mod texts;

pub use call::Call;
pub use disk::{Disk, DiskFault};
pub use fault::StoreFault;
pub use file_disk::FileDisk;
pub use held::Held;
pub use memory_disk::MemoryDisk;
pub use once_disk::OnceDisk;
pub use placed::Placed;
pub use store::Store;
