//! The lines that a bot is given, by a relay or by a server, and the match that all nodes deal.
//!
//! Below, each part has its law: the nodes' tables are tables of one match (`stations`), a seat's bot is told lines off the
//! tables of a process's node (`node_service`), and a relay gives its bot what each of its connections brings, each line once
//! and in order (`seat_relay`, `relay_runs`). `laws` joins these: whatever process dies and whatever connection ends, the bot
//! has the lines that one dealer tells its seat, and none is left out. What a bot without a relay is told over a connection are
//! lines of this dealer too. No code stands here.
#![tactic(auto)]

pub mod laws;
