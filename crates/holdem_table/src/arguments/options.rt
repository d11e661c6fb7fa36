//! What may stand behind a command's name: options and words, as clap is told of them.

use super::GREATEST_NODE;
use clap::builder::ValueParser;
use clap::{Arg, ArgAction, value_parser};
use slot_log::limits::HANDS;
use std::alloc::{AllocError, Global};

/// What stands behind a command's name.
#[derive(Clone, Copy)]
pub(super) enum Place {
    /// `--hands N`.
    Hands,
    /// `--log`.
    LogFlag,
    /// GAME.
    Game,
    /// LOG.
    Log,
    /// `--look`.
    Look,
    /// `--times`.
    Times,
    /// MATCH.
    Match,
    /// I.
    Node,
    /// I, which may be left out.
    OneNode,
    /// `--key FILE`.
    Key,
    /// `--tokens DIR`.
    Tokens,
    /// `--seeds`.
    Seeds,
    /// `--same-seeds`.
    SameSeeds,
    /// `--port P`.
    Port,
    /// `--listen ADDRESS`.
    Listen,
    /// `--token-file FILE`.
    TokenFile,
    /// `--mend GAME`.
    Mend,
    /// `--trace FILE`.
    Trace,
    /// `--stay`.
    Stay,
    /// `--newest`.
    Newest,
    /// `--give-up S`.
    GiveUp,
    /// HOST:PORT, once or more.
    Nodes,
}

/// Adds what stands behind a command's name.
pub(super) fn add_arguments<'a>(
    alloc: Global,
    places: &[Place],
    arguments: &mut Vec<Arg<'a>>,
) -> Result<(), AllocError> {
    for place in places {
        arguments.reserve(1)?;
        arguments.push_reserved(argument_at(alloc, *place)?);
    }
    Ok(())
}

/// What clap is told of a place.
fn argument_at<'a>(alloc: Global, place: Place) -> Result<Arg<'a>, AllocError> {
    let argument = match place {
        Place::Hands => hands_option(alloc),
        Place::LogFlag => log_option(alloc),
        Place::Game => word_at(
            alloc,
            "game",
            "GAME",
            "The game file, in the ACPC game definition format",
        ),
        Place::Log => word_at(alloc, "log", "LOG", "The log of a match of that game"),
        Place::Look => look_option(alloc),
        Place::Times => times_option(alloc),
        Place::Match => word_at(alloc, "match", "MATCH", "The match file"),
        Place::Node => node_at(alloc, "The node's number, counted from 0").required(true),
        Place::OneNode => node_at(alloc, "The node whose store alone is made, from 0"),
        Place::Key => key_option(alloc)?,
        Place::Tokens => tokens_option(alloc)?,
        Place::Seeds => seeds_option(alloc)?,
        Place::SameSeeds => same_seeds_option(alloc)?,
        Place::Port => port_option(alloc),
        Place::Listen => valued(
            alloc,
            "listen",
            "ADDRESS",
            "Local address for the bot [default: 127.0.0.1]",
        ),
        Place::TokenFile => valued(
            alloc,
            "token-file",
            "FILE",
            "The file that has the seat's token",
        ),
        Place::Mend => valued(
            alloc,
            "mend",
            "GAME",
            "Mends wrong actions by this game file",
        ),
        Place::Trace => valued(
            alloc,
            "trace",
            "FILE",
            "Traces the bot's lines; -: to standard output",
        ),
        Place::Newest => newest_option(alloc),
        Place::Stay => stay_option(alloc),
        Place::GiveUp => give_up_option(alloc),
        Place::Nodes => nodes_at(alloc),
    };
    Ok(argument)
}

/// A word that has to be there.
fn word_at<'a>(alloc: Global, id: &'a str, name: &'a str, help: &'a str) -> Arg<'a> {
    Arg::new(alloc, id)
        .value_name(name)
        .required(true)
        .help(help)
}

/// The number of a node.
fn node_at<'a>(alloc: Global, help: &'a str) -> Arg<'a> {
    Arg::new(alloc, "node")
        .value_name("I")
        .value_parser(node_parser())
        .help(help)
}

/// What reads the number of a node; whether the match has that node, its file says.
fn node_parser<'a>() -> ValueParser<'a> {
    value_parser!(u32).range(0..=GREATEST_NODE as i64)
}

/// `--hands N`.
fn hands_option<'a>(alloc: Global) -> Arg<'a> {
    Arg::new(alloc, "hands")
        .long("hands")
        .value_name("N")
        .value_parser(hands_parser())
        .default_value("1")
        .help("The number of hands, 1 to 10000")
}

/// What reads the N of `--hands`.
fn hands_parser<'a>() -> ValueParser<'a> {
    value_parser!(u32).range(1..=HANDS as i64)
}

/// `--log`.
fn log_option<'a>(alloc: Global) -> Arg<'a> {
    flag(
        alloc,
        "log",
        "Prints the match's log too, each line behind L",
    )
}

/// `--key FILE`.
fn key_option<'a>(alloc: Global) -> Result<Arg<'a>, AllocError> {
    Arg::new(alloc, "key")
        .long("key")
        .value_name("FILE")
        .help("Makes the key alone, in this file")
        .conflicts_with("node")
}

/// `--tokens DIR`.
fn tokens_option<'a>(alloc: Global) -> Result<Arg<'a>, AllocError> {
    valued(
        alloc,
        "tokens",
        "DIR",
        "Makes a token for each seat, in this folder",
    )
    .conflicts_with("key")?
    .conflicts_with("node")
}

/// `--seeds`.
fn seeds_option<'a>(alloc: Global) -> Result<Arg<'a>, AllocError> {
    flag(
        alloc,
        "seeds",
        "Prints a seed for each node, and makes nothing",
    )
    .conflicts_with("tokens")?
    .conflicts_with("key")?
    .conflicts_with("node")
}

/// `--same-seeds`.
fn same_seeds_option<'a>(alloc: Global) -> Result<Arg<'a>, AllocError> {
    flag(
        alloc,
        "same-seeds",
        "Prints a seed for all nodes, and makes nothing",
    )
    .conflicts_with("seeds")?
    .conflicts_with("tokens")?
    .conflicts_with("key")?
    .conflicts_with("node")
}

/// An option without a value.
fn flag<'a>(alloc: Global, name: &'a str, help: &'a str) -> Arg<'a> {
    Arg::new(alloc, name)
        .long(name)
        .action(ArgAction::SetTrue)
        .help(help)
}

/// An option with a value.
fn valued<'a>(alloc: Global, name: &'a str, value: &'a str, help: &'a str) -> Arg<'a> {
    Arg::new(alloc, name)
        .long(name)
        .value_name(value)
        .help(help)
}

/// `--port P`.
fn port_option<'a>(alloc: Global) -> Arg<'a> {
    valued(alloc, "port", "P", "Local port for the bot; 0: a free one")
        .value_parser(port_parser())
        .default_value("0")
}

/// What reads the P of `--port`.
fn port_parser<'a>() -> ValueParser<'a> {
    value_parser!(u32).range(0..=65535)
}

/// `--give-up S`.
fn give_up_option<'a>(alloc: Global) -> Arg<'a> {
    valued(
        alloc,
        "give-up",
        "S",
        "Seconds without a node until it ends",
    )
    .value_parser(seconds_parser())
    .default_value("600")
}

/// What reads the S of `--give-up`.
fn seconds_parser<'a>() -> ValueParser<'a> {
    value_parser!(u32).range(1..=1_000_000)
}

/// `--newest`.
fn newest_option<'a>(alloc: Global) -> Arg<'a> {
    flag(
        alloc,
        "newest",
        "Begins with the newest line, not the first deal",
    )
}

/// `--stay`.
fn stay_option<'a>(alloc: Global) -> Arg<'a> {
    flag(alloc, "stay", "Awaits a further bot where one has left")
}

/// HOST:PORT of the seat at each node.
fn nodes_at<'a>(alloc: Global) -> Arg<'a> {
    Arg::new(alloc, "nodes")
        .value_name("HOST:PORT")
        .required(true)
        .num_args(1..=7)
        .help("Where the seat is at each node")
}

/// `--look`.
fn look_option<'a>(alloc: Global) -> Arg<'a> {
    flag(alloc, "look", "Says how a start would end; changes nothing")
}

/// `--times`.
fn times_option<'a>(alloc: Global) -> Arg<'a> {
    flag(alloc, "times", "Puts the time (UTC) before each note")
}
