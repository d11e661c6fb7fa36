//! Assertions that say what was asked, as `assert!` and `assert_eq!` do, for whatever nothing behind them rests on: what a
//! later call requires is asserted by those.
//!
//! The assertion itself, with its printed text, stands in one function of each kind, since it is dear to prove wherever
//! it stands; a test only calls it.

use std::alloc::{AllocError, Global};
use std::fmt::{Debug, Display};
use std::process::Abort;

/// Sees that a condition holds.
pub(crate) fn assert_holds(rt: &impl Abort, asked: &str, holds: bool) {
    assert!(rt; holds, "{asked}");
}

/// Sees that what is found is what is wanted.
pub(crate) fn assert_same<T: Copy + PartialEq + Debug>(
    rt: &impl Abort,
    asked: &str,
    found: T,
    wanted: T,
) {
    assert_eq!(rt; found, wanted, "{asked}");
}

/// Sees what is printed of a value.
pub(crate) fn prints<T: Display>(
    rt: &impl Abort,
    alloc: Global,
    shown: &T,
    text: &str,
) -> Result<(), AllocError> {
    let printed = format!(in alloc; "{shown}")?;
    assert_eq!(rt; printed.as_str(), text);
    Ok(())
}

/// As `assert!`.
macro_rules! holds {
    ($rt:expr; $condition:expr) => {
        $crate::asserting::assert_holds($rt, stringify!($condition), $condition)
    };
}

/// As `assert_eq!`, of values that are copied: to pass a value is cheaper to prove than to refer to it.
macro_rules! same {
    ($rt:expr; $found:expr, $wanted:expr) => {
        $crate::asserting::assert_same($rt, stringify!($found), $found, $wanted)
    };
}

pub(crate) use holds;
pub(crate) use same;
