//! The commands that tests of several parts are about, and how values are compared.

use betting::Action;
use slot_log::Command;
use std::fmt::Debug;
use std::process::Abort;

pub(crate) const CALL: Command = Command::Act {
    hand: 0,
    index: 0,
    action: Action::Call,
};

pub(crate) const FOLD: Command = Command::Act {
    hand: 0,
    index: 0,
    action: Action::Fold,
};

/// The first act of the first hand, for tables, which can't have a command.
pub(crate) fn act(action: Action) -> Command {
    Command::Act {
        hand: 0,
        index: 0,
        action,
    }
}

/// The bytes of five commands: a deal, a call, that somebody is away, a raise to 20, and a fold.
pub(crate) const FIVE: [u8; 58] = [
    0x01, 0, 0, 0, 0, 0x09, 0x21, 0x33, 0x1a, 0x20, 0x00, 0x18, 0x06, 0x1c, 0x2e, 2, 0, 0, 0, 0, 0,
    0, 1, 0, 0, 0, 0, 3, 0, 0, 0, 0, 0, 1, 2, 0, 0, 0, 0, 0, 2, 2, 0, 0, 0, 20, 2, 0, 0, 0, 0, 0,
    3, 0, 0, 0, 0, 0,
];

// What `assert_eq!` makes is proved anew wherever it stands, so it stands in the functions below.

/// The two are equal; where they aren't, both are printed.
pub(crate) fn assert_same<T: Copy + PartialEq + Debug>(rt: &impl Abort, found: T, expected: T) {
    assert_eq!(rt; found, expected);
}

/// The same of bytes.
pub(crate) fn assert_bytes(rt: &impl Abort, found: &[u8], expected: &[u8]) {
    assert_eq!(rt; found, expected);
}

/// Sees that a condition holds.
pub(crate) fn assert_holds(rt: &impl Abort, asked: &str, holds: bool) {
    assert!(rt; holds, "{asked}");
}

/// As `assert!`, for whatever nothing behind it rests on: that is dear to prove wherever it stands.
macro_rules! holds {
    ($rt:expr; $condition:expr) => {
        $crate::samples::assert_holds($rt, stringify!($condition), $condition)
    };
}

pub(crate) use holds;
