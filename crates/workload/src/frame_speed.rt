ghost use Rattle.std.specs.List.{AllByRecursion};
ghost use Rattle.paxos_wire.specs.Fits.{Fits, IsInRange};

use deck_draw::draw;
use paxos_wire::{Ballot, Commands, Message, MessageRoom, decode, encode};
use slot_log::Command;
use std::alloc::{AllocError, Global};
use std::io;

/// How often the frame is written, or read.
const TIMES: u32 = 1_000_000;

/// The deal of hand 1 for two players.
fn dealt() -> Command
    ensures { IsInRange result }
{
    Command::Deal {
        hand: 1,
        deal: draw(1, 1, 2),
    }
}

/// A proposal of a command.
fn proposal(commands: &[Command; 1]) -> Message<'_>
    requires { AllByRecursion IsInRange commands.now }
    ensures { Fits result }
{
    Message::Accept {
        ballot: Ballot { round: 1, node: 0 },
        slot: 1,
        commands: Commands::new(commands),
    }
}

/// Writes a frame many times, and prints how many bytes that are.
pub fn print_encoded(rt: &(impl Print + AllocGlobal)) -> io::Result<()> {
    let bytes = encoded(rt.alloc())?;
    rt.println(format_args!("encoded: {TIMES} frames, {bytes} bytes"))
}

/// How many bytes all frames have.
fn encoded(alloc: Global) -> Result<u64, AllocError> {
    let commands = [dealt()];
    let message = proposal(&commands);
    let mut frame = Vec::new(alloc);
    let mut bytes = 0u64;
    for _ in 0..TIMES {
        frame.clear();
        encode(&mut frame, &message)?;
        bytes = bytes.wrapping_add(frame.len() as u64);
    }
    Ok(bytes)
}

/// Reads a frame many times, and prints how often it was read.
pub fn print_decoded(rt: &(impl Print + AllocGlobal)) -> io::Result<()> {
    let read = times_read(rt.alloc())?;
    println!(rt; "decoded: {read} frames")
}

/// How often the frame was read.
fn times_read(alloc: Global) -> Result<u32, AllocError> {
    let commands = [dealt()];
    let mut frame = Vec::new(alloc);
    encode(&mut frame, &proposal(&commands))?;
    Ok(decoded(&frame))
}

/// How often a frame reads as a message.
fn decoded(frame: &[u8]) -> u32 {
    let mut room = MessageRoom::new();
    let mut read = 0u32;
    for _ in 0..TIMES {
        if decode(frame, &mut room).is_ok() {
            read = read.wrapping_add(1);
        }
    }
    read
}
