//! One node of a replicated dealer, over its disk: frames, bytes of its seats, ticks, stops and starts come in; frames,
//! lines, log lines and faults go out.
//!
//! `Node::new` makes it, down; `create` a new store on its disk, once, and `start` opens it. From then on `on_frame`,
//! `on_line`, `on_tick`, `on_away`, `connect` and `drop_seat` are its calls, each of which puts what it makes into an `Out`, until
//! `stop`. `running`, `front`, `table`, `promised`, `campaigns`, `leads`, `pending` and `connected` read it. The test
//! `a_tick_and_four_deliveries_deal` of `match_tests` has three nodes walk this way, in a cluster.
//!
//! The rules of a node are pure functions (`node_rules`, with the table in `docs/NODES.md`), and each call is one of them,
//! whatever memory and disk do: `Takes` in `specs/Taking.antt` says how, for every call and every answer. Refused are 90
//! `Down`, 91 `Store`, 92 `OutOfMemory`, 93 `Spent`, 94 `BadFrame`, 95 `Conflict` and 96 `NothingToAct` (`NodeFault`); by
//! each of them the `Out` is as it was, after 91 and 95 the node is down, after the others it is as before.
//!
//! A call makes all its room first, by counts alone; its work in memory takes none and can't fail; what it stores is one
//! append. `Running` is what a node that runs holds in memory, `Up` has its acceptor beside it; their methods each carry
//! out a rule, or a part of one, and name it in their contract.
//!
//! `Out` is where calls put what they make: frames, each with the node that it goes to; lines of seats and lines of the
//! log, in one order, each with its reader; and faults in what seats sent. Its texts stand in one row of bytes with their
//! lengths, so that the texts of one are put behind those of another by two moves of bytes.
#![tactic(auto)]

mod accepting;
mod answering;
mod applying;
mod away_call;
mod catch_up;
mod fault;
mod frame_call;
mod frames;
pub mod laws;
mod learning;
mod limits;
mod line_call;
mod lines;
mod made;
mod member;
mod most_shown;
mod node;
mod out;
mod own_values;
mod proposing;
mod reader;
mod reading;
mod readying;
mod rooms;
mod running;
mod seat_fault;
mod seat_input;
mod seats;
mod seen_ballot;
mod sending;
mod starting;
mod storeless;
mod texts;
mod tick_call;
mod ticking;
mod up;
mod voting;

pub use fault::{NodeFault, is_out_of_memory};
pub use most_shown::MostShown;
pub use node::Node;
pub use out::Out;
pub use reader::Reader;
pub use reading::Reading;
pub use seat_fault::SeatFault;
