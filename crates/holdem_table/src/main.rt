//! The program `holdem_table`: `hand` runs one dealer over a script, `play` all nodes of a match, `check` checks the log
//! of a match, `luck` tells how far its cards favoured each player, `init` makes the stores of a match's nodes, its key,
//! tokens or seeds, `serve` deals it to seats over TCP, `node` runs one of its nodes in a process of its own, and `relay`
//! stands between these and a bot that dials once.
#![tactic(auto)]

mod arguments;
mod earlier_store;
mod help;
mod identity;
mod init;
mod init_node;
mod kept_match;
mod key_file;
mod late_file;
mod life_files;
mod locking;
mod log_files;
mod luck_lines;
mod made_files;
mod match_files;
mod node;
mod notes;
mod open_files;
mod own_logs;
mod promise_files;
mod relay;
mod relay_notes;
mod seeds;
mod serve;
mod store_files;
mod token_files;
mod utc;
mod whole_file;

use crate::arguments::{
    HandArguments, InitArguments, LogArguments, Made, NODE, NodeArguments, SERVE, Task, command,
    requested,
};
use crate::init::init;
use crate::init_node::init_node;
use crate::key_file::init_key;
use crate::late_file::LateFile;
use crate::luck_lines::luck;
use crate::node::node;
use crate::relay::relay;
use crate::seeds::init_seeds;
use crate::serve::serve;
use crate::token_files::init_tokens;
use crate::whole_file::read_file;
use clap::error::ErrorKind;
use clap::{ArgMatches, Error};
use match_file::{MatchFault, MatchFile};
use match_runs::{Conclusion, Unserved, play_run};
use std::alloc::AllocError;
use std::fs::File;
use std::io;
use std::os::fd::{AsRawFd, IntoRawFd};
use std::process::ExitCode;
use streamed::{Ending, WrongWords, check_run, hand_run};

fn main(rt: HostRuntime) -> ExitCode {
    hold_streams(&rt);
    match words(&rt) {
        Ok(words) => run(&rt, &words),
        Err(error) => end(&rt, no_words(&error)),
    }
}

/// Gives standard streams that were closed a file that can't be written, so that no store, log or connection which is opened
/// later takes the number of one, and gets what is printed.
fn hold_streams(rt: &HostRuntime) {
    for _ in 0..3 {
        match File::open(rt, "/") {
            Ok(file) if file.as_raw_fd() < 3 => {
                let _ = file.into_raw_fd();
            }
            _ => return,
        }
    }
}

/// Prints the last line that standard error gets, if any, and answers the exit status.
fn conclude(rt: &HostRuntime, conclusion: Conclusion) -> ExitCode {
    match conclusion {
        Conclusion::Ended(
            Ending::Done | Ending::SaidNo(_) | Ending::WrongWords(WrongWords::Told),
        ) => {}
        _ => {
            let _ = eprintln!(rt; "{conclusion}");
        }
    }
    ExitCode::from(conclusion.status())
}

/// The same of a command that ended so.
fn end(rt: &HostRuntime, ending: Ending) -> ExitCode {
    conclude(rt, Conclusion::Ended(ending))
}

/// The words of the command line.
fn words(rt: &HostRuntime) -> io::Result<Vec<String>> {
    Ok(std::env::args(rt)?.collect(rt.alloc())?)
}

/// The ending where the words can't be had: memory was refused, or one isn't text.
fn no_words(error: &io::Error) -> Ending {
    if error.kind() == io::ErrorKind::OutOfMemory {
        Ending::OutOfMemory
    } else {
        Ending::WrongWords(WrongWords::NotText)
    }
}

/// Runs what the words ask for, and answers the exit status.
fn run(rt: &HostRuntime, words: &[String]) -> ExitCode {
    match matches(rt, words) {
        Ok(matches) => run_requested(rt, &matches),
        Err(error) if error.kind() == ErrorKind::OutOfMemory => conclude(rt, no_memory(words)),
        Err(error) => end(rt, show(rt, &error)),
    }
}

/// The conclusion where memory is refused before the words are in their places: that of the command which stands there.
fn no_memory(words: &[String]) -> Conclusion {
    match words {
        [_, command, ..] if command.as_str() == SERVE || command.as_str() == NODE => {
            Unserved::from(AllocError).conclusion()
        }
        _ => Conclusion::Ended(Ending::OutOfMemory),
    }
}

/// Runs what the words in their places ask for, and answers the exit status.
fn run_requested(rt: &HostRuntime, matches: &ArgMatches<'_>) -> ExitCode {
    match requested(matches) {
        Ok(Task::Hand(arguments)) => end(rt, hand(rt, arguments)),
        Ok(Task::Check(arguments)) => end(rt, check(rt, arguments)),
        Ok(Task::Luck(arguments)) => end(rt, luck(rt, arguments)),
        Ok(Task::Play(path)) => end(rt, play(rt, path)),
        Ok(Task::Init(arguments)) => end(rt, make(rt, arguments)),
        Ok(Task::Serve(arguments)) => conclude(rt, serve(rt, arguments)),
        Ok(Task::Node(arguments)) => run_node(rt, arguments),
        Ok(Task::Relay) => relay(rt, matches),
        Err(ending) => end(rt, ending),
    }
}

/// Runs `init`: for all nodes, for one, for the key, for tokens, or for seeds.
fn make(rt: &HostRuntime, arguments: InitArguments<'_>) -> Ending {
    let InitArguments { path, made } = arguments;
    match made {
        Made::Stores => init(rt, path),
        Made::Store(node) => init_node(rt, path, node),
        Made::Key(key) => init_key(rt, path, key),
        Made::Tokens(folder) => init_tokens(rt, path, folder),
        Made::Seeds { is_one_for_all } => init_seeds(rt, path, is_one_for_all),
    }
}

/// Runs `node`: once its match is over there is nothing to print.
fn run_node(rt: &HostRuntime, arguments: NodeArguments<'_>) -> ExitCode {
    match node(rt, arguments) {
        Ok(()) => ExitCode::from(0),
        Err(why) => {
            let _ = eprintln!(rt; "{why}");
            ExitCode::from(why.status())
        }
    }
}

/// The words in their places. The `Err` is what clap says instead: help, the version, or what is wrong.
fn matches<'a>(rt: &HostRuntime, words: &'a [String]) -> Result<ArgMatches<'a>, Error> {
    command(rt.alloc())?.try_get_matches_from(words)
}

/// Prints what clap says of a command line that isn't run: help, the version, or what is wrong.
fn show(rt: &HostRuntime, error: &Error) -> Ending {
    if error.print(rt).is_err() {
        return Ending::StreamFailed;
    }
    if error.exit_code() == 0 {
        Ending::Done
    } else {
        Ending::WrongWords(WrongWords::Told)
    }
}

/// Runs `hand` over standard input and output.
fn hand(rt: &HostRuntime, arguments: HandArguments<'_>) -> Ending {
    match read_file(rt, arguments.game) {
        Ok(game) => hand_run(
            rt.alloc(),
            &game,
            arguments.log,
            arguments.hands,
            &mut rt.reader(),
            &mut io::writer(rt),
        ),
        Err(ending) => ending,
    }
}

/// Runs `play` over standard input and output.
fn play(rt: &HostRuntime, path: &str) -> Ending {
    match read_file(rt, path) {
        Ok(file) => play_file(rt, &file),
        Err(ending) => ending,
    }
}

/// Runs `play` of this match file.
fn play_file(rt: &HostRuntime, file: &[u8]) -> Ending {
    match read_game(rt, file) {
        Ok(game) => play_run(
            rt.alloc(),
            file,
            game.as_deref(),
            &mut rt.reader(),
            &mut io::writer(rt),
        ),
        Err(ending) => ending,
    }
}

/// The game file that a match file names; none where it names none, or where that can't be read. The `Err` is
/// `OutOfMemory`.
fn read_game(rt: &HostRuntime, file: &[u8]) -> Result<Option<Vec<u8>>, Ending> {
    match MatchFile::read(rt.alloc(), file) {
        Ok(file) => read_game_of(rt, &file),
        Err(MatchFault::OutOfMemory) => Err(Ending::OutOfMemory),
        Err(_) => Ok(None),
    }
}

/// The same of a match file that was read.
fn read_game_of(rt: &HostRuntime, file: &MatchFile) -> Result<Option<Vec<u8>>, Ending> {
    let Ok(name) = file.game() else {
        return Ok(None);
    };
    match read_file(rt, name) {
        Ok(game) => Ok(Some(game)),
        Err(Ending::OutOfMemory) => Err(Ending::OutOfMemory),
        Err(_) => Ok(None),
    }
}

/// Runs `check` over a log file and standard output. The log is opened once the game is read.
fn check(rt: &HostRuntime, arguments: LogArguments<'_>) -> Ending {
    match read_file(rt, arguments.game) {
        Ok(game) => check_run(
            rt.alloc(),
            &game,
            &mut LateFile::new(rt, arguments.log),
            &mut io::writer(rt),
        ),
        Err(ending) => ending,
    }
}
