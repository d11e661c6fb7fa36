ghost use Rattle.std.specs.Prelude.{◌≡◌, ◌≢◌, ◌+◌, ◌-◌, ◌^◌, ◌<◌, ◌≤◌, length, insert, vec_len, vec_capacity, reverse};
ghost use Rattle.std.specs.Option.{option_copied};
ghost use Rattle.slot_log.specs.SlotsInside.{run_of};
ghost use Rattle.slot_log.specs.Slots.{Log, find, known_by, with_known, settled};

use crate::command::Command;
use byte_queue::remove_front;

/// A command that is known at a slot.
#[derive(Clone, Copy, Debug, Drop)]
pub struct Known {
    pub(crate) slot: u32,
    pub(crate) command: Command,
}

/// The command of a slot among these.
pub(crate) fn find(known: &[Known], slot: u32) -> Option<&Command>
    ensures { option_copied result ≡ find known.now slot }
{
    for one in known {
        if one.slot == slot {
            return Some(&one.command);
        }
    }
    None
}

/// How many of these stand before a slot: all in front that aren't above it.
fn place_of(known: &[Known], slot: u32) -> usize
    ensures most { result ≤ length known.now }
    ensures place { (command : Command) → insert known.now result (known_by slot command) ≡ with_known (known_by slot command) known.now }
{
    for (place, one) in known.iter().enumerate() {
        if slot < one.slot {
            return place;
        }
    }
    known.len()
}

/// Puts one more where its slot belongs, for which there is room.
pub(crate) fn add(known: &mut Vec<Known>, slot: u32, command: Command)
    requires { vec_len known.old < vec_capacity known.old }
    ensures items { known.new.items ≡ with_known (known_by slot command) known.old.items }
    ensures len { vec_len known.new ≡ vec_len known.old + 1 }
    ensures capacity { vec_capacity known.old ≤ vec_capacity known.new }
{
    let place = place_of(known, slot);
    match known.insert(place, Known { slot, command }) {
        Ok(()) => {}
        Err(_) => unreachable!(),
    }
}

/// How far the front goes on over those that are known at it.
pub(crate) fn run_at(known: &[Known], front: usize) -> usize
    requires { front < 2 ^ 32 }
    ensures value { result ≡ run_of front known.now }
    ensures most { result ≤ length known.now }
{
    for (place, one) in known.iter().enumerate() {
        if one.slot as usize != front + place {
            return place;
        }
    }
    known.len()
}

/// The front goes on over the commands that are known at it, for all of which there is room.
pub(crate) fn advance_front(below: &mut Vec<Command>, beyond: &mut Vec<Known>)
    requires { vec_len below.old + vec_len beyond.old ≤ vec_capacity below.old }
    ensures log { settled (reverse below.old.items) beyond.old.items ≡ record { below = reverse below.new.items; beyond = beyond.new.items } }
    ensures len { vec_len below.new + vec_len beyond.new ≡ vec_len below.old + vec_len beyond.old }
    ensures less { vec_len beyond.new ≤ vec_len beyond.old }
    ensures below { vec_capacity below.new ≡ vec_capacity below.old }
    ensures beyond { vec_capacity beyond.new ≡ vec_capacity beyond.old }
{
    let mut run = 0;
    while run < beyond.len() && beyond[run].slot as usize == below.len() {
        below.push_reserved(beyond[run].command);
        run += 1;
    }
    remove_front(beyond, run);
}
