//! To whom the bot's answer is said next, and when.

use crate::limits::{FIRST_PATIENCE, MOST_PATIENCE};

/// To whom the bot's answer is said next, and when.
#[derive(Clone, Copy)]
pub(crate) struct Answering {
    /// The node that told the last line first.
    first: u8,
    /// To whom the answer was said last.
    said_to: Option<u8>,
    /// When it is to be said to another.
    due: u64,
    patience: u64,
}

impl Answering {
    /// No line was given yet.
    pub(crate) fn new() -> Answering {
        Answering {
            first: 0,
            said_to: None,
            due: 0,
            patience: FIRST_PATIENCE,
        }
    }

    /// The bot is given a line of this node.
    pub(crate) fn begin(&mut self, node: u8) {
        self.first = node;
        self.restart(0);
    }

    /// The bot answers: that is said at once.
    pub(crate) fn restart(&mut self, now: u64) {
        self.said_to = None;
        self.due = now;
        self.patience = FIRST_PATIENCE;
    }

    /// The answer was said to a node.
    pub(crate) fn said(&mut self, node: u8, now: u64) {
        self.said_to = Some(node);
        self.due = now.saturating_add(self.patience);
        self.patience = self.patience.saturating_mul(2).min(MOST_PATIENCE);
    }

    /// The connection to a node ended.
    pub(crate) fn lose(&mut self, node: u8, now: u64) {
        if self.said_to == Some(node) {
            self.due = now;
        }
    }

    /// Whether the answer is to be said to somebody.
    pub(crate) fn is_due(&self, now: u64) -> bool {
        self.due <= now
    }

    /// When it is to be said.
    pub(crate) fn due(&self) -> u64 {
        self.due
    }

    /// Whether it was said before.
    pub(crate) fn is_said(&self) -> bool {
        self.said_to.is_some()
    }

    /// The node that is asked at this place of the order: the one that told the line first, and then the others behind it.
    pub(crate) fn at(&self, place: u8, nodes: u8) -> u8 {
        let sum = self.first as u32 + place as u32;
        if nodes == 0 {
            0
        } else {
            (sum % nodes as u32) as u8
        }
    }
}
