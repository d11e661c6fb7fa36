//! Runs the layers of the dealer on many values, for tests against outside vectors and for timing from outside.
//!
//! Each argument names what to run, and prints counts and checksums: `five-card-hands`, `best-of-seven`, `draws`,
//! `sevens-by-counts`, `sevens-by-fives`, `sevens`, `short-hands`, `long-hands`, `encode`, `decode`, `promises`,
//! `answers`, `refusals`, `nodes`, `nodes-five`, `nodes-seven`, `creations`; `catching-up`, behind which a
//! further argument says of how many commands; `decks`, which reads lines `seed hand players deal`; and `frames`, which
//! reads lines of a frame in hexadecimal and the frame as which its message is written, or its fault.
//! The tasks of the store work on the file `workload.journal`: `store-append`, `store-appends`, `store-short`,
//! `store-long`, `store-open-short`, `store-open-long`.
//!
//! `fused-cluster`, `failing-cluster`, `new-file-cluster` and `file-cluster` read lines that drive the nodes of a match
//! over disks of that kind (`clusters`), and print all that comes of each.
#![tactic(auto)]

mod catching_up;
mod clusters;
mod counts;
mod creations;
mod decks;
mod driving;
mod frame_speed;
mod frames;
mod group;
mod hand_play;
mod hands;
mod mail;
mod nodes;
mod parts;
mod peer;
mod sevens;
mod simulations;
mod stores;
mod task;
mod telling;
mod verdicts;

use clusters::Disks;
use hand_play::Policy;
use sevens::Body;
use std::fs::File;
use std::rt::Files;
use std::{env, io};
use task::Task;

/// The name of the task behind which a word says of how many commands.
const CATCHING_UP: &str = "catching-up";

fn main(rt: HostRuntime) -> io::Result<()> {
    let words = env::args(&rt)?;
    let mut says_how_many = false;
    for word in words.skip(1) {
        says_how_many = run_word(&rt, says_how_many, word.as_str())?;
    }
    Ok(())
}

/// Runs the task that a word names, or where the word before it named the one that is told how many commands, that one.
/// An `Ok` of true: the next word says how many.
fn run_word(
    rt: &(impl Input + Print + AllocGlobal + Files<File = File>),
    says_how_many: bool,
    word: &str,
) -> io::Result<bool> {
    if says_how_many {
        catching_up::print_caught_up(rt, word.parse().unwrap_or(0))?;
        return Ok(false);
    }
    if word == CATCHING_UP {
        return Ok(true);
    }
    match Task::named(word) {
        Some(task) => run(rt, task)?,
        None => println!(rt; "unknown: {word}")?,
    }
    Ok(false)
}

/// Runs one task and prints what it found.
fn run(rt: &(impl Input + Print + AllocGlobal + Files<File = File>), task: Task) -> io::Result<()> {
    match task {
        Task::FiveCardHands => hands::print_categories(rt),
        Task::BestOfSeven => hands::print_best_of_seven(rt),
        Task::SevensByCounts => sevens::print_all(rt, Body::Counts),
        Task::SevensByFives => sevens::print_all(rt, Body::AllFives),
        Task::Sevens => sevens::print_compared(rt),
        Task::Draws => hands::print_draws(rt),
        Task::Decks => decks::print_checked(rt),
        Task::ShortHands => hand_play::print_played(rt, Policy::Call),
        Task::LongHands => hand_play::print_played(rt, Policy::RaiseLeast),
        Task::Encode => frame_speed::print_encoded(rt),
        Task::Decode => frame_speed::print_decoded(rt),
        Task::Frames => frames::print_checked(rt),
        Task::Promises => parts::print_promises(rt),
        Task::Answers => parts::print_answers(rt),
        Task::Refusals => parts::print_refusals(rt),
        Task::Nodes => nodes::print_played(rt, 3),
        Task::NodesFive => nodes::print_played(rt, 5),
        Task::NodesSeven => nodes::print_played(rt, 7),
        Task::Creations => creations::print_created(rt),
        Task::FusedCluster => clusters::print_driven(rt, Disks::Fused),
        Task::FailingCluster => clusters::print_driven(rt, Disks::FailingOnce),
        Task::NewFileCluster => clusters::print_driven(rt, Disks::NewFiles),
        Task::FileCluster => clusters::print_driven(rt, Disks::Files),
        Task::Simulate => simulations::print_simulated(rt),
        Task::Append => stores::print_appended(rt, 1),
        Task::Appends => stores::print_many_appended(rt),
        Task::ShortJournal => stores::print_written(rt, 10_000),
        Task::LongJournal => stores::print_written(rt, 1_000_000),
        Task::OpenShort => stores::print_opened(rt, 10_000),
        Task::OpenLong => stores::print_opened(rt, 1_000_000),
    }
}
