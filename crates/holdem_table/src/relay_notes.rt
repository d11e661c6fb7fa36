//! The notes of `relay`.

use relay_runs::{RelayNotice, RelayServer};
use std::alloc::{AllocError, Global};
use std::net::IpAddr;

/// A node sent what is neither a dealer's line nor a comment.
const NO_LINE: &str = "disconnected, it sent what is no dealer's line";

/// A node sent a line that is too long.
const LONG_LINE: &str = "disconnected, it sent a line of more than 4096 bytes";

/// A node began with a line before which lines may be missing.
const AHEAD: &str = "disconnected, it began with a line that wasn't asked for";

/// A node has another match than the bot.
const OTHER_MATCH: &str = "it has another match: the bot's last line isn't one of it";

/// A node seats nobody yet.
const NO_QUORUM: &str = "it has no quorum (dialled again each half second)";

/// The bot's first line that is passed over.
const UNFIT: &str =
    "bot: passed over a line that is no answer to the newest line (further ones are counted)";

/// Why no node is dialled for a while: two at one seat.
const TAKEN: &str = "another client has this seat:";

/// Why no node is dialled for a while: nodes end connections before any line.
const TURNED_AWAY: &str = "turned away: a wrong token?";

/// Appends text.
fn put(line: &mut Vec<u8>, text: &str) -> Result<(), AllocError> {
    line.extend_from_slice(text.as_bytes())
}

/// Appends what somebody else sent, with `?` for what can't be printed.
fn put_sent(line: &mut Vec<u8>, bytes: &[u8]) -> Result<(), AllocError> {
    for byte in bytes {
        line.push(if 32 <= *byte && *byte < 127 {
            *byte
        } else {
            b'?'
        })?;
    }
    Ok(())
}

/// Appends what is told of a node.
fn put_node(alloc: Global, line: &mut Vec<u8>, node: u8, what: &str) -> Result<(), AllocError> {
    put(line, format!(in alloc; "node {node}: {what}")?.as_str())
}

/// Appends why no node is dialled for so many seconds.
fn put_hold(alloc: Global, line: &mut Vec<u8>, why: &str, seconds: u64) -> Result<(), AllocError> {
    put(
        line,
        format!(in alloc; "{why} dials again in {seconds} s")?.as_str(),
    )
}

/// Appends that a bot came, and from where if that is known.
fn put_came(alloc: Global, line: &mut Vec<u8>, address: &Option<IpAddr>) -> Result<(), AllocError> {
    put(line, "bot: connected")?;
    match address {
        Some(address) => put(line, format!(in alloc; " from {address}")?.as_str()),
        None => Ok(()),
    }
}

/// Appends that the bot is gone, and how many of its lines were passed over.
fn put_gone(
    alloc: Global,
    line: &mut Vec<u8>,
    unfit: u64,
    too_long: u64,
) -> Result<(), AllocError> {
    put(
        line,
        format!(in alloc;
            "bot: disconnected ({unfit} lines were no answers to the newest line, {too_long} too long)"
        )?.as_str(),
    )
}

/// Appends what the bot said, and what was said instead.
fn put_mended(line: &mut Vec<u8>, said: &[u8], instead: &[u8]) -> Result<(), AllocError> {
    put(line, "bot: ")?;
    put_sent(line, said)?;
    put(line, ": mended to ")?;
    put_sent(line, instead)
}

/// Appends the note of a notice.
fn put_text(alloc: Global, line: &mut Vec<u8>, notice: &RelayNotice) -> Result<(), AllocError> {
    match notice {
        RelayNotice::BotCame { address } => put_came(alloc, line, address),
        RelayNotice::BotGone { unfit, too_long } => put_gone(alloc, line, *unfit, *too_long),
        RelayNotice::Sits { node } => put_node(alloc, line, *node, "seated"),
        RelayNotice::Lost { node } => put_node(alloc, line, *node, "connection lost"),
        RelayNotice::Ahead { node } => put_node(alloc, line, *node, AHEAD),
        RelayNotice::Over { node } => put_node(alloc, line, *node, "the match is over"),
        RelayNotice::OtherMatch { node } => put_node(alloc, line, *node, OTHER_MATCH),
        RelayNotice::NoQuorum { node } => put_node(alloc, line, *node, NO_QUORUM),
        RelayNotice::NotLine { node } => put_node(alloc, line, *node, NO_LINE),
        RelayNotice::TooLong { node } => put_node(alloc, line, *node, LONG_LINE),
        RelayNotice::Unfit => put(line, UNFIT),
        RelayNotice::Mended { said, instead } => put_mended(line, said, instead),
        RelayNotice::SaidAgain { node } => put_node(alloc, line, *node, "answer said again"),
        RelayNotice::AnotherClient { seconds } => put_hold(alloc, line, TAKEN, *seconds),
        RelayNotice::TurnedAway { seconds } => put_hold(alloc, line, TURNED_AWAY, *seconds),
        RelayNotice::LeftOut { count } => {
            put(line, format!(in alloc; "{count} notes left out")?.as_str())
        }
    }
}

/// Appends the note of a notice, with its line feed.
pub(crate) fn put_notice(
    alloc: Global,
    line: &mut Vec<u8>,
    notice: &RelayNotice,
) -> Result<(), AllocError> {
    put_text(alloc, line, notice)?;
    put(line, "\n")
}

/// Appends how many lines the bot was given of each node, and how many the trace lacks.
pub(crate) fn put_counts(
    alloc: Global,
    line: &mut Vec<u8>,
    server: &RelayServer,
    nodes: u8,
) -> Result<(), AllocError> {
    put(line, "lines first told by each node:")?;
    for node in 0..nodes {
        let count = server.given_by(node);
        put(line, format!(in alloc; " {count}")?.as_str())?;
    }
    let untraced = server.untraced();
    if untraced > 0 {
        put(
            line,
            format!(in alloc; "; {untraced} lines left out of the trace")?.as_str(),
        )?;
    }
    put(line, "\n")
}
