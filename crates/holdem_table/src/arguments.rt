//! What the command line asks for.

ghost use Rattle.std.specs.Prelude.{◌≤◌};

mod commands;
mod options;

use clap::ArgMatches;
pub(crate) use commands::command;
use slot_log::limits::HANDS;
use streamed::{Ending, GameWord, WrongWords};

/// What the command line asks for.
#[derive(Drop)]
pub(crate) enum Task<'a> {
    Hand(HandArguments<'a>),
    Check(LogArguments<'a>),
    Luck(LogArguments<'a>),
    /// The word that names the match file.
    Play(&'a str),
    Init(InitArguments<'a>),
    Serve(ServeArguments<'a>),
    Node(NodeArguments<'a>),
    /// `relay` reads its own words.
    Relay,
}

/// What `hand` is asked for.
#[derive(Drop)]
pub(crate) struct HandArguments<'a> {
    /// The word that names the game file.
    pub(crate) game: &'a str,
    /// The same word, where the log is asked for.
    pub(crate) log: Option<GameWord<'a>>,
    /// The number of hands, 1 to 10000.
    pub(crate) hands: u32,
    ghost least: { 1 ≤ hands },
    ghost most: { hands ≤ 10000 },
}

/// What `check` and `luck` are asked for.
#[derive(Clone, Copy)]
pub(crate) struct LogArguments<'a> {
    /// The word that names the game file.
    pub(crate) game: &'a str,
    /// The word that names the log.
    pub(crate) log: &'a str,
}

/// What `init` is asked for.
#[derive(Clone, Copy)]
pub(crate) struct InitArguments<'a> {
    /// The word that names the match file.
    pub(crate) path: &'a str,
    /// What is to be made.
    pub(crate) made: Made<'a>,
}

/// What `init` makes.
#[derive(Clone, Copy)]
pub(crate) enum Made<'a> {
    /// The stores of all nodes.
    Stores,
    /// The store of this node alone.
    Store(u8),
    /// The key alone, in the file that this word names.
    Key(&'a str),
    /// A token for each seat, in the folder that this word names.
    Tokens(&'a str),
    /// Seeds, which are printed: one for each node, or one for all.
    Seeds { is_one_for_all: bool },
}

/// What `node` is asked for.
#[derive(Clone, Copy)]
pub(crate) struct NodeArguments<'a> {
    /// The word that names the match file.
    pub(crate) path: &'a str,
    /// The node's number, counted from 0.
    pub(crate) node: u8,
    /// Whether it is only looked whether the node can be started.
    pub(crate) is_look: bool,
    /// Whether the time stands before each note.
    pub(crate) has_times: bool,
}

/// What `serve` is asked for.
#[derive(Clone, Copy)]
pub(crate) struct ServeArguments<'a> {
    /// The word that names the match file.
    pub(crate) path: &'a str,
    /// Whether the time stands before each note.
    pub(crate) has_times: bool,
}

/// The greatest number of a node that a match may have.
pub(crate) const GREATEST_NODE: u32 = 6;

/// The word that asks for `serve`.
pub(crate) const SERVE: &str = "serve";

/// The word that asks for `relay`.
pub(crate) const RELAY: &str = "relay";

/// The word that asks for `node`.
pub(crate) const NODE: &str = "node";

/// What a command line asks for. The `Err` is `WrongWords`: no command is named, or one with a word missing
/// (which the command line's reader refuses by itself), or the log is asked for of a game whose word can't
/// stand in a log.
pub(crate) fn requested<'a>(matches: &ArgMatches<'a>) -> Result<Task<'a>, Ending> {
    match matches.subcommand() {
        Some((name, matches)) => named(name, matches),
        None => Err(Ending::WrongWords(WrongWords::Incomplete)),
    }
}

/// What the command of this name is asked for.
fn named<'a>(name: &str, matches: &ArgMatches<'a>) -> Result<Task<'a>, Ending> {
    match name {
        "hand" => hand_task(matches),
        "check" => Ok(Task::Check(log_words(matches)?)),
        "luck" => Ok(Task::Luck(log_words(matches)?)),
        "play" => Ok(Task::Play(word(matches, "match")?)),
        "init" => init_task(matches),
        SERVE => serve_task(matches),
        NODE => node_task(matches),
        RELAY => Ok(Task::Relay),
        _ => Err(Ending::WrongWords(WrongWords::Incomplete)),
    }
}

/// MATCH of `init`, and what it is to make.
fn init_task<'a>(matches: &ArgMatches<'a>) -> Result<Task<'a>, Ending> {
    Ok(Task::Init(InitArguments {
        path: word(matches, "match")?,
        made: to_make(matches),
    }))
}

/// What `init` is to make: at most one of them is asked for.
fn to_make<'a>(matches: &ArgMatches<'a>) -> Made<'a> {
    let is_one_for_all = matches.get_flag("same-seeds");
    if is_one_for_all || matches.get_flag("seeds") {
        return Made::Seeds { is_one_for_all };
    }
    match (
        matches.get_str("key"),
        matches.get_str("tokens"),
        node(matches),
    ) {
        (Some(key), _, _) => Made::Key(key),
        (None, Some(folder), _) => Made::Tokens(folder),
        (None, None, Some(node)) => Made::Store(node),
        (None, None, None) => Made::Stores,
    }
}

/// MATCH and I of `node`, and what is chosen.
fn node_task<'a>(matches: &ArgMatches<'a>) -> Result<Task<'a>, Ending> {
    let path = word(matches, "match")?;
    match node(matches) {
        Some(node) => Ok(Task::Node(NodeArguments {
            path,
            node,
            is_look: matches.get_flag("look"),
            has_times: matches.get_flag("times"),
        })),
        None => Err(Ending::WrongWords(WrongWords::Incomplete)),
    }
}

/// The node that is named, if one is. A number beyond the bounds was refused before, as a wrong word.
fn node(matches: &ArgMatches<'_>) -> Option<u8> {
    match matches.get_one::<u32>("node") {
        Some(node) => Some(node.min(GREATEST_NODE) as u8),
        None => None,
    }
}

/// GAME and LOG of `check` or `luck`.
fn log_words<'a>(matches: &ArgMatches<'a>) -> Result<LogArguments<'a>, Ending> {
    Ok(LogArguments {
        game: word(matches, "game")?,
        log: word(matches, "log")?,
    })
}

/// MATCH of `serve`, and what is chosen.
fn serve_task<'a>(matches: &ArgMatches<'a>) -> Result<Task<'a>, Ending> {
    Ok(Task::Serve(ServeArguments {
        path: word(matches, "match")?,
        has_times: matches.get_flag("times"),
    }))
}

/// GAME of `hand`, and what is chosen. A number of hands beyond the bounds was refused before, as a wrong word.
fn hand_task<'a>(matches: &ArgMatches<'a>) -> Result<Task<'a>, Ending> {
    let game = word(matches, "game")?;
    let hands = match matches.get_one::<u32>("hands") {
        Some(hands) => hands.clamp(1, HANDS),
        None => 1,
    };
    let log = if matches.get_flag("log") {
        Some(game_word(game)?)
    } else {
        None
    };
    Ok(Task::Hand(HandArguments { game, log, hands }))
}

/// The word in the place of this name. A command line that lacks one was refused before, where it was taken apart.
fn word<'a>(matches: &ArgMatches<'a>, id: &str) -> Result<&'a str, Ending> {
    match matches.get_str(id) {
        Some(word) => Ok(word),
        None => Err(Ending::WrongWords(WrongWords::Incomplete)),
    }
}

/// GAME as a log's header has it: 1 to 200 printable ASCII characters without space.
fn game_word(game: &str) -> Result<GameWord<'_>, Ending> {
    match GameWord::new(game) {
        Some(word) => Ok(word),
        None => Err(Ending::WrongWords(WrongWords::GameWord)),
    }
}
