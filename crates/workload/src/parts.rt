ghost use Rattle.std.specs.Prelude.{◌≡◌};

use acceptor::{AcceptAnswer, Acceptor};
use betting::Action;
use learner::Learner;
use paxos_wire::{Ballot, Entries, Entry};
use promise_store::{MemoryDisk, Store};
use proposer::Proposer;
use slot_log::Command;
use std::alloc::{AllocError, Global};
use std::io;

/// How many nodes there are.
const NODES: u8 = 5;

/// How many ballots are begun, and how many promises come in each.
const BALLOTS: u32 = 200_000;

const PROMISES: u32 = 5;

/// How many slots are answered for, by every node.
const SLOTS: u32 = 1_000_000;

/// How many proposals are refused.
const REFUSALS: u32 = 5_000_000;

const CALL: Command = Command::Act {
    hand: 0,
    index: 0,
    action: Action::Call,
};

/// A next number of the generator of Lehmer (multiplier 48271 modulo 2^31 - 1).
fn next(seed: &mut u64) -> u64 {
    *seed = *seed % 2_147_483_647 * 48_271 % 2_147_483_647;
    *seed
}

/// Begins many ballots, lets promises of drawn nodes come in each, and prints how many of the ballots lead then.
pub fn print_promises(rt: &impl Print) -> io::Result<()> {
    let led = ballots_led();
    rt.println(format_args!("promises: {led} of {BALLOTS} ballots lead"))
}

/// How many ballots led.
fn ballots_led() -> u32 {
    let mut told = Entries::new();
    told.push(Entry {
        slot: 0,
        ballot: Ballot { round: 1, node: 1 },
        command: CALL,
    });
    let mut proposer = Proposer::new(0, NODES);
    let mut seed = 1;
    let mut led = 0u32;
    for round in 0..BALLOTS {
        if leads(&mut proposer, &mut seed, round, &told) {
            led = led.wrapping_add(1);
        }
    }
    led
}

/// Whether the ballot of the round after this one leads once promises of drawn nodes came.
fn leads(proposer: &mut Proposer, seed: &mut u64, round: u32, told: &Entries) -> bool
    requires { proposer.old.nodes ≡ NODES }
    ensures { proposer.new.nodes ≡ proposer.old.nodes }
{
    let Ok(prepare) = proposer.begin(Ballot { round, node: 0 }, 0) else {
        return false;
    };
    for _ in 0..PROMISES {
        let from = (next(seed) % u64::from(NODES)) as u8;
        proposer.on_promise(from, prepare.ballot, 0, told);
    }
    proposer.is_leading()
}

/// Counts an answer of each node for many slots, and prints how many were chosen.
pub fn print_answers(rt: &(impl Print + AllocGlobal)) -> io::Result<()> {
    let chosen = slots_chosen(rt.alloc())?;
    rt.println(format_args!("answers: {chosen} of {SLOTS} slots chosen"))
}

/// How many slots were chosen.
fn slots_chosen(alloc: Global) -> Result<u32, AllocError> {
    let mut learner = Learner::new(alloc, NODES)?;
    for slot in 0..SLOTS {
        for node in 0..NODES {
            let ballot = Ballot { round: 1, node: 0 };
            let _ = learner.on_accepted(node, ballot, slot, CALL)?;
        }
    }
    Ok(learner.log().front())
}

/// Refuses many proposals below what was promised, on a disk in memory, and prints a sum of the rounds refused.
pub fn print_refusals(rt: &(impl Print + AllocGlobal)) -> io::Result<()> {
    let disk = MemoryDisk::new(rt.alloc(), &[])?;
    let rounds = rounds_on(rt.alloc(), disk);
    println!(rt; "refusals: {REFUSALS} proposals, rounds sum to {rounds}")
}

/// The sum of the rounds of the proposals that were refused by an acceptor on this disk.
fn rounds_on(alloc: Global, disk: MemoryDisk) -> u64 {
    match Store::create(alloc, disk, 0, NODES) {
        Ok(store) => rounds_refused(&mut Acceptor::new(store)),
        Err(_) => 0,
    }
}

/// The sum of the rounds of the proposals that were refused, of drawn ballots below the promised one.
fn rounds_refused(acceptor: &mut Acceptor<MemoryDisk>) -> u64 {
    let promised = Ballot { round: 4, node: 0 };
    if acceptor.on_prepare(promised, 0).is_err() {
        return 0;
    }
    let mut seed = 1;
    let mut rounds = 0u64;
    for slot in 0..REFUSALS {
        let round = 1 + (next(&mut seed) % 3) as u32;
        let answer = acceptor.on_accept(Ballot { round, node: 1 }, slot % 64, CALL);
        if let Ok(AcceptAnswer::Refuse { ballot, .. }) = answer {
            rounds = rounds.wrapping_add(u64::from(ballot.round));
        }
    }
    rounds
}
