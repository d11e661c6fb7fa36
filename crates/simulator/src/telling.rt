//! The trace, one event a line.

use std::alloc::{AllocError, Global};
use test_kit::{DiskCall, SimDisk};
use traffic::{Party, put_bytes};

/// Puts when something happened, and to whom, and words.
fn put_words(
    alloc: Global,
    out: &mut Vec<u8>,
    moment: u64,
    who: Party,
    words: &str,
) -> Result<(), AllocError> {
    let text = match who {
        Party::Node(node) => format!(in alloc; "{moment} {node} {words}")?,
        Party::Bot(bot) => format!(in alloc; "{moment} b{bot} {words}")?,
        Party::Stranger(number) => format!(in alloc; "{moment} s{number} {words}")?,
    };
    out.extend_from_slice(text.as_bytes())
}

/// Puts a line of the trace.
pub(crate) fn put_line(
    alloc: Global,
    out: &mut Vec<u8>,
    moment: u64,
    who: Party,
    words: &str,
) -> Result<(), AllocError> {
    put_words(alloc, out, moment, who, words)?;
    out.push(b'\n')?;
    Ok(())
}

/// The same, with bytes behind the words.
pub(crate) fn put_line_with(
    alloc: Global,
    out: &mut Vec<u8>,
    by: (u64, Party),
    words: &str,
    bytes: &[u8],
) -> Result<(), AllocError> {
    let (moment, who) = by;
    put_words(alloc, out, moment, who, words)?;
    out.push(b' ')?;
    put_bytes(out, bytes)?;
    out.push(b'\n')?;
    Ok(())
}

/// Puts what a node's process did with its disk, but for so many calls that were told.
pub(crate) fn put_calls(
    alloc: Global,
    out: &mut Vec<u8>,
    node: u8,
    disk: &SimDisk,
    told: usize,
) -> Result<(), AllocError> {
    if disk.has_lost() {
        return Err(AllocError);
    }
    for call in disk.calls().iter().skip(told) {
        put_call(alloc, out, node, call)?;
    }
    Ok(())
}

fn put_call(alloc: Global, out: &mut Vec<u8>, node: u8, call: &DiskCall) -> Result<(), AllocError> {
    match call {
        DiskCall::Wrote { moment, at, bytes } => {
            let words = format!(in alloc; "write {at}")?;
            put_line_with(
                alloc,
                out,
                (*moment, Party::Node(node)),
                words.as_str(),
                bytes,
            )
        }
        DiskCall::Synced { begun, moment } => {
            let words = format!(in alloc; "sync {begun}")?;
            put_line(alloc, out, *moment, Party::Node(node), words.as_str())
        }
        DiskCall::Failed { moment } => {
            put_line(alloc, out, *moment, Party::Node(node), "disk-failed")
        }
    }
}
