//! Answers lines of what processes know by what is due there, for a simulation of processes.
//!
//! A line has words with one blank between: numbers, or `-` for none. The first are `time number front moved promised
//! promised_since campaigns was_led over hand_runs act_waits vote_waits work_since behind_since last in_vain longest_call`, as the
//! fields of `Known` and its `Ticks`; a flag is 0 or 1. Then come those of each peer: `number accepted open since heard
//! longest unanswered told front below campaigns told over risen`; `open` tells whether a connection is open, `since` when it
//! opened or the last one ended, the first `told` whether a beat came.
//!
//! The answer is `tick`, or `nothing` and until when, and then four flags and two lengths of time: whether there is work,
//! whether the node is behind, whether it replays, whether it is quorate, its pace, and how long a silent peer counts as
//! present.
//!
//! A line of six words, `begun newest middle oldest length now`, is answered by the four fields of a `Longest` by which so long
//! was noted, and by the longest of the last minute that it then has.
//!
//! A line that begins with a name has what is kept of a seat, of the opening, of a sleep, or of late turns, and what was seen or
//! happened; it is answered by the name and what is kept then:
//!
//! - `seat`, 14 words of its places at seven nodes (`sits begun`), `has_come nowhere has_sat defaults given_up`, how it is seen at
//!   each of the seven (0 gone, 1 empty, 2 sits, 3 taken), and `has_acted defaults quorate gives_up patience moved now`; the answer
//!   has the first 19 of these anew, the latest moment at which the wait began anew, and how many turns were played for since
//!   it was given up;
//! - `opening first opened quorate all_came start now`; the answer is `first opened`;
//! - `waking has_read`, seven counts of beats, `stood slept`, what happened (0 so much time passed, 1 all is read, 2 a beat of that
//!   node came, 3 a seat is waited for since that moment) and how much, of which node or since when, and the number of nodes; the
//!   answer has the first ten anew, and whether it is awake;
//! - `late begun newest before lost now`, the fields of a `Lateness`, and so much that a turn came late by then; the answer has the
//!   first three anew, and what of it counts;
//! - `order` has what is known of the seat to act, as the fields of `Awaited`: `time patience over hand_runs quorate replays
//!   sits_here sits_elsewhere rank since ordered`, and `awake open turns stood slept nodes crowded`; the answer is `tick` where it is to
//!   be ordered that the seat is played for, or `nothing` and until when.
//!
//! The line `limits` is answered by seven numbers that say how processes keep connections, for a simulation of them: the
//! times `CONNECT`, `LONG_CONNECT`, `GREET`, `STRANGER` and `A_SILENCE`, and the counts `DIALS` and `SILENCES`. A line of another
//! length is answered by `-`.
#![tactic(auto)]

mod fields;

ghost use Rattle.std.specs.Prelude.{◌≤◌, length};
ghost use Rattle.clockwork.specs.declared.limits.TheConstants.{LATEST, LONGEST_PATIENCE, MOST_PEERS, MOST_NODES};

use clockwork::limits::{MOST_NODES, MOST_PEERS};
use clockwork::silence::{A_SILENCE, SILENCES};
use clockwork::{
    Due, Expected, Known, Lateness, Longest, Opening, Peer, SeatWatch, Waking, due, has_work,
    is_behind, is_quorate, most_silence, order_due, pace, replays,
};
use fields::{
    OF_A_MEASURE, at_of, expected_of, is_whole, known_of, lateness_of, longest_of, look_of,
    nodes_of, numbers_of, opening_of, peers_of, seat_of, waking_of,
};
use node_links::limits::{CONNECT, DIALS, GREET, LONG_CONNECT};
use node_peers::limits::STRANGER;
use std::io;

fn main(rt: HostRuntime) -> io::Result<()> {
    for line in rt.lines(rt.alloc()) {
        print_answer(&rt, line?.as_str())?;
    }
    Ok(())
}

/// Answers a line; one of another length or with too many peers by `-`.
fn print_answer(rt: &(impl Print + AllocGlobal), line: &str) -> io::Result<()> {
    if line == "limits" {
        return println!(rt;
            "{CONNECT} {LONG_CONNECT} {GREET} {STRANGER} {A_SILENCE} {DIALS} {SILENCES}"
        );
    }
    let numbers = numbers_of(rt.alloc(), line)?;
    match numbers.get(0) {
        Some(Some(_)) => print_by_count(rt, &numbers),
        _ => print_named(rt, line, &numbers),
    }
}

/// Answers a line that begins with a name, or with none in place of a number.
fn print_named(
    rt: &(impl Print + AllocGlobal),
    line: &str,
    numbers: &[Option<u64>],
) -> io::Result<()> {
    let name = line.split(' ').next().unwrap_or("");
    let words = &numbers[1.min(numbers.len())..];
    if name == "seat" {
        print_seat(rt, words)
    } else if name == "opening" {
        print_opening(rt, opening_of(words))
    } else if name == "waking" {
        print_waking(rt, &waking_of(words), nodes_of(words, 12))
    } else if name == "late" {
        print_lateness(rt, &lateness_of(words))
    } else if name == "order" {
        print_order(rt, &expected_of(words))
    } else {
        print_by_count(rt, numbers)
    }
}

/// Prints a number behind a blank; none as none.
fn print_optional(rt: &impl Print, number: Option<u64>) -> io::Result<()> {
    match number {
        Some(number) => print!(rt; " {number}"),
        None => rt.print(" -"),
    }
}

fn print_flag(rt: &impl Print, is_so: bool) -> io::Result<()> {
    rt.print(if is_so { " 1" } else { " 0" })
}

/// Prints what is kept of a seat behind the look of a line.
fn print_seat(rt: &impl Print, words: &[Option<u64>]) -> io::Result<()> {
    let mut seat = seat_of(words);
    let (acts, seen, moved) = look_of(words);
    for node in 0..MOST_NODES {
        seat.look_at(node as u8, at_of(words, node), moved, seen.now);
    }
    seat.look(acts, seen);
    print_seat_watch(rt, &seat)
}

fn print_seat_watch(rt: &impl Print, seat: &SeatWatch) -> io::Result<()> {
    rt.print("seat")?;
    for place in seat.places.iter() {
        print_flag(rt, place.sits)?;
        print_optional(rt, place.begun)?;
    }
    print_flag(rt, seat.has_come)?;
    print_optional(rt, seat.nowhere)?;
    print_flag(rt, seat.has_sat)?;
    print!(rt; " {}", seat.defaults)?;
    print_optional(rt, wide(seat.given_up))?;
    print!(rt; " {}", seat.since(0))?;
    print_optional(rt, wide(seat.turns()))?;
    rt.println("")
}

fn wide(number: Option<u32>) -> Option<u64> {
    match number {
        Some(number) => Some(number as u64),
        None => None,
    }
}

fn print_opening(rt: &impl Print, opening: Opening) -> io::Result<()> {
    rt.print("opening")?;
    print_optional(rt, opening.first)?;
    print_optional(rt, opening.opened)?;
    rt.println("")
}

fn print_waking(rt: &impl Print, waking: &Waking, nodes: u8) -> io::Result<()> {
    rt.print("waking")?;
    print_flag(rt, waking.has_read)?;
    for beats in waking.beats.iter() {
        print!(rt; " {beats}")?;
    }
    print!(rt; " {} {}", waking.stood, waking.slept)?;
    print_flag(rt, waking.is_awake(nodes))?;
    rt.println("")
}

/// Prints what is kept of how late turns came, and what of it counts.
fn print_lateness(rt: &impl Print, lateness: &Lateness) -> io::Result<()> {
    let counted = lateness.counted();
    println!(rt;
        "late {} {} {} {counted}",
        lateness.begun, lateness.newest, lateness.before
    )
}

/// Prints whether it is to be ordered that the seat is played for of which this is known.
fn print_order(rt: &impl Print, expected: &Expected) -> io::Result<()>
    requires time { expected.now.awaited.time ≤ LATEST }
    requires patience { expected.now.awaited.patience ≤ LONGEST_PATIENCE }
    requires rank { expected.now.awaited.rank ≤ MOST_PEERS }
    requires nodes { expected.now.nodes ≤ MOST_NODES }
{
    print_due(rt, order_due(expected))?;
    rt.println("")
}

/// Answers a line by how many words it has.
fn print_by_count(rt: &(impl Print + AllocGlobal), numbers: &[Option<u64>]) -> io::Result<()> {
    if numbers.len() == OF_A_MEASURE {
        print_longest(rt, longest_of(numbers))
    } else {
        print_of_process(rt, numbers)
    }
}

/// Prints what is kept of measures behind the one that was noted now, and the longest that it has.
fn print_longest(rt: &impl Print, noted: (Longest, u64)) -> io::Result<()> {
    let (kept, now) = noted;
    let longest = kept.lately(now);
    println!(rt;
        "{} {} {} {} {longest}",
        kept.begun, kept.newest, kept.middle, kept.oldest
    )
}

/// Answers the numbers of a process and its peers.
fn print_of_process(rt: &(impl Print + AllocGlobal), numbers: &[Option<u64>]) -> io::Result<()> {
    let peers = peers_of(rt.alloc(), numbers)?;
    if is_whole(numbers.len()) && peers.len() <= MOST_PEERS {
        print_known(rt, &known_of(numbers, &peers))
    } else {
        rt.println("-")
    }
}

/// Prints what is due where this is known.
fn print_known(rt: &impl Print, known: &Known<'_>) -> io::Result<()>
    requires time { known.now.time ≤ LATEST }
    requires peers { length known.now.peers.now ≤ MOST_PEERS }
{
    print_due(rt, due(known))?;
    let work = u8::from(has_work(known));
    let behind = u8::from(is_behind(known));
    let replays = u8::from(replays(known));
    let quorate = u8::from(is_quorate(known));
    let pace = pace(known);
    let silence = most_silence(known);
    println!(rt; " {work} {behind} {replays} {quorate} {pace} {silence}")
}

/// Prints whether something is due.
fn print_due(rt: &impl Print, due: Due) -> io::Result<()> {
    match due {
        Due::Now => rt.print("tick"),
        Due::Nothing { until } => print!(rt; "nothing {until}"),
    }
}
