//! How what comes of an event is printed.

ghost use Rattle.std.specs.Prelude.{◌≡◌, ◌+◌, ◌^◌, ◌<◌, ◌++◌, List, true, length, OnOk};
ghost use Rattle.std.specs.List.{flat_map};
ghost use Rattle.match_log.specs.Fronted.{fronted};
ghost use Rattle.dealer_world.specs.KeptShown.{reader_by};
ghost use Rattle.playing.specs.Showing.{frames_text, log_front, text_for, piece_text, seat_fault_text, answer_text, event_text};

use dealer_node::{NodeFault, Out, Reader, Reading, SeatFault};
use match_log::put_fronted;
use play_script::{put_fault, put_frame, put_seat_fault, put_seat_line};
use std::alloc::AllocError;

/// Prints frames of a node, of which the first has this number.
fn put_frames(
    out: &mut Vec<u8>,
    node: usize,
    first: u64,
    frames: Reading<'_, u8>,
) -> Result<(), AllocError>
    requires { first + length frames < 2 ^ 64 }
    ensures { OnOk result (out.new.items ≡ out.old.items ++ frames_text node first frames.entry) }
{
    let mut number = first;
    for (to, bytes) in frames {
        put_frame(out, number, node, to as usize, bytes)?;
        number += 1;
    }
    Ok(())
}

/// Prints a text of a node's log, each of its lines behind the node's number and `L`.
fn put_log_text(out: &mut Vec<u8>, node: usize, text: &[u8]) -> Result<(), AllocError>
    ensures { OnOk result (out.new.items ≡ out.old.items ++ fronted (log_front node) true text.now) }
{
    let front = format!(in *out.allocator(); "{node} L ")?;
    put_fronted(out, front.as_bytes(), text)
}

/// Prints what a reader gets.
pub fn put_piece(
    out: &mut Vec<u8>,
    node: usize,
    reader: Reader,
    text: &[u8],
) -> Result<(), AllocError>
    ensures { OnOk result (out.new.items ≡ out.old.items ++ text_for node (reader_by reader) text.now) }
{
    match reader {
        Reader::Seat(seat) => put_seat_line(out, node, seat, text),
        Reader::Log => put_log_text(out, node, text),
    }
}

/// Prints what readers get, in order.
pub fn put_pieces(
    out: &mut Vec<u8>,
    node: usize,
    shown: Reading<'_, Reader>,
) -> Result<(), AllocError>
    ensures { OnOk result (out.new.items ≡ out.old.items ++ flat_map (piece_text node) shown.entry) }
{
    for (reader, text) in shown {
        put_piece(out, node, reader, text)?;
    }
    Ok(())
}

/// Prints what is wrong with what seats sent.
pub fn put_seat_faults(
    out: &mut Vec<u8>,
    node: usize,
    faults: &[SeatFault],
) -> Result<(), AllocError>
    ensures { OnOk result (out.new.items ≡ out.old.items ++ flat_map (seat_fault_text node) faults.now) }
{
    for told in faults {
        put_seat_fault(out, node, told.seat, &told.fault)?;
    }
    Ok(())
}

/// Prints why the node did nothing, or went down.
fn put_answer(
    out: &mut Vec<u8>,
    node: usize,
    answer: Result<(), NodeFault>,
) -> Result<(), AllocError>
    ensures { OnOk result (out.new.items ≡ out.old.items ++ answer_text node answer) }
{
    match answer {
        Ok(()) => Ok(()),
        Err(fault) => put_fault(out, node, &fault),
    }
}

/// Prints all that comes of an event at a node: its frames, of which the first has this number; lines and log lines in
/// their order; faults.
pub(crate) fn put_event(
    out: &mut Vec<u8>,
    node: usize,
    first: u64,
    made: &Out,
    answer: Result<(), NodeFault>,
) -> Result<(), AllocError>
    requires { first + length made.now.frames < 2 ^ 64 }
    ensures { OnOk result (out.new.items ≡ out.old.items ++ event_text node first made.now answer) }
{
    put_frames(out, node, first, made.frames())?;
    put_pieces(out, node, made.shown())?;
    put_seat_faults(out, node, made.faults())?;
    put_answer(out, node, answer)
}
