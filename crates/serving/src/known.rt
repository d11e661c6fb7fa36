use crate::place::Place;

/// What is seen of a node. Seats are counted from 0.
#[derive(Clone, Copy, Debug, Default, Drop)]
pub struct NodeSight {
    /// It runs.
    pub runs: bool,
    /// It is to be out, by the outages.
    pub is_out: bool,
    /// Its match is over.
    pub over: bool,
    /// How many commands it has applied.
    pub front: u32,
    /// The seat to act, where a hand runs.
    pub to_act: Option<u8>,
    /// An act waits there to be proposed.
    pub pends: bool,
}

/// What a node whose store failed needs before anything else. Nodes are counted from 0.
#[derive(Clone, Copy, Debug, PartialEq, Eq)]
pub enum Repair {
    Stop(u8),
    Start(u8),
}

/// All that decides what a server does next.
#[derive(Clone, Copy, Debug, Drop)]
pub struct Known<'a> {
    pub nodes: &'a [NodeSight],
    /// Where each seat is.
    pub places: &'a [Place],
    /// How many seats were greeted: accepted at node 0 and their first line read, or gone.
    pub greeted: usize,
    /// The number of the next frame, where one is left to deliver.
    pub frame: Option<usize>,
    /// What a node whose store failed needs.
    pub repair: Option<Repair>,
}
