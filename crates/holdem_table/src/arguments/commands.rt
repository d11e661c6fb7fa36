//! The program's commands, as clap is told of them.

use super::options::{Place, add_arguments};
use super::{NODE, RELAY, SERVE};
use crate::help::{
    AFTER_CHECK_HELP, AFTER_HAND_HELP, AFTER_HELP, AFTER_INIT_HELP, AFTER_LUCK_HELP,
    AFTER_NODE_HELP, AFTER_PLAY_HELP, AFTER_RELAY_HELP, AFTER_SERVE_HELP,
};
use clap::Command;
use std::alloc::{AllocError, Global};

/// A command of the program.
#[derive(Clone, Copy)]
enum Verb {
    Hand,
    Play,
    Check,
    Luck,
    Init,
    Serve,
    Node,
    Relay,
}

/// The program's commands, in the order of help.
const VERBS: [Verb; 8] = [
    Verb::Hand,
    Verb::Play,
    Verb::Check,
    Verb::Luck,
    Verb::Init,
    Verb::Serve,
    Verb::Node,
    Verb::Relay,
];

impl Verb {
    /// The word that asks for it.
    fn name<'a>(self) -> &'a str {
        match self {
            Verb::Hand => "hand",
            Verb::Play => "play",
            Verb::Check => "check",
            Verb::Luck => "luck",
            Verb::Init => "init",
            Verb::Serve => SERVE,
            Verb::Node => NODE,
            Verb::Relay => RELAY,
        }
    }

    /// What it does, in a line of help.
    fn about<'a>(self) -> &'a str {
        match self {
            Verb::Hand => "Plays a script of deals and actions, and prints each seat's lines",
            Verb::Play => "Simulates a match's nodes from a script; prints all frames and lines",
            Verb::Check => "Checks the log of a match against the rules of its game",
            Verb::Luck => "Prints how far the cards of a match's log favoured each player",
            Verb::Init => "Makes the empty stores of a match's nodes, its key, tokens or seeds",
            Verb::Serve => "Runs a match over TCP, with all its nodes in one process",
            Verb::Node => "Runs one node of a match in a process of its own",
            Verb::Relay => "Stands between a bot that dials once and the nodes of a match",
        }
    }

    /// What its help says behind the arguments.
    fn after_help<'a>(self) -> &'a str {
        match self {
            Verb::Hand => AFTER_HAND_HELP,
            Verb::Play => AFTER_PLAY_HELP,
            Verb::Check => AFTER_CHECK_HELP,
            Verb::Luck => AFTER_LUCK_HELP,
            Verb::Init => AFTER_INIT_HELP,
            Verb::Serve => AFTER_SERVE_HELP,
            Verb::Node => AFTER_NODE_HELP,
            Verb::Relay => AFTER_RELAY_HELP,
        }
    }

    /// What stands behind its name, in the order of help.
    fn places(self) -> &'static [Place] {
        match self {
            Verb::Hand => &[Place::Hands, Place::LogFlag, Place::Game],
            Verb::Check | Verb::Luck => &[Place::Game, Place::Log],
            Verb::Play => &[Place::Match],
            Verb::Init => &[
                Place::Key,
                Place::Tokens,
                Place::Seeds,
                Place::SameSeeds,
                Place::Match,
                Place::OneNode,
            ],
            Verb::Serve => &[Place::Times, Place::Match],
            Verb::Node => &[Place::Look, Place::Times, Place::Match, Place::Node],
            Verb::Relay => &[
                Place::Port,
                Place::Listen,
                Place::TokenFile,
                Place::Mend,
                Place::Trace,
                Place::Newest,
                Place::Stay,
                Place::GiveUp,
                Place::Times,
                Place::Nodes,
            ],
        }
    }
}

/// The program's command line.
pub(crate) fn command<'a>(alloc: Global) -> Result<Command<'a>, AllocError> {
    let mut commands = Vec::new(alloc);
    add_commands(alloc, &mut commands)?;
    whole(alloc).subcommands(commands)
}

/// The program's command line without its commands.
fn whole<'a>(alloc: Global) -> Command<'a> {
    Command::new(alloc, "holdem_table")
        .version("0.2.0")
        .about("Deals Texas hold'em by the ACPC dealer protocol 2.0.0, and checks logs")
        .after_help(AFTER_HELP)
        .subcommand_required(true)
}

/// Adds the program's commands.
fn add_commands<'a>(alloc: Global, commands: &mut Vec<Command<'a>>) -> Result<(), AllocError> {
    for verb in VERBS {
        commands.reserve(1)?;
        commands.push_reserved(command_of(alloc, verb)?);
    }
    Ok(())
}

/// One of the program's commands.
fn command_of<'a>(alloc: Global, verb: Verb) -> Result<Command<'a>, AllocError> {
    let mut arguments = Vec::new(alloc);
    add_arguments(alloc, verb.places(), &mut arguments)?;
    bare(alloc, verb).args(arguments)
}

/// A command without what stands behind its name.
fn bare<'a>(alloc: Global, verb: Verb) -> Command<'a> {
    Command::new(alloc, verb.name())
        .about(verb.about())
        .after_help(verb.after_help())
}
