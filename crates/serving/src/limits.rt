//! The limits of links are those of a match: links know nothing of matches, and have numbers of their own.

use match_links::limits::{FRAME, LINE, NODES, PIECE};
use matchstate::MOST_LINE;
use paxos_wire::limits::MOST_FRAME;

const _: () = prove!(NODES == paxos_wire::limits::NODES as usize);

const _: () = prove!(PIECE == MOST_LINE + 1);

const _: () = prove!(LINE == MOST_LINE);

const _: () = prove!(FRAME == MOST_FRAME);
