//! The line of a node's status.

ghost use Rattle.std.specs.Prelude.{◌≡◌, ◌++◌, decimal, IfOk, OnOk};
ghost use Rattle.node_status.specs.Texts.{yes_or_no, hand_text, promised_text, peer_text, seat_text, backlog_text, sits_text, comma_before, listed};
ghost use Rattle.node_status.specs.Lines.{play_text, ballot_text, work_text, status_text};

use crate::status::{PeerStatus, SeatStatus, Sits, Status};
use itoa::Buffer;
use paxos_wire::Ballot;
use std::alloc::{AllocError, Global};

/// The line that says how a node is, with LF behind it.
pub fn status_line(alloc: Global, status: &Status<'_>) -> Result<Vec<u8>, AllocError>
    ensures { IfOk result (λ line. line.items ≡ status_text status.now) }
{
    let mut line = Vec::new(alloc);
    put_play(&mut line, status)?;
    put_ballots(&mut line, status)?;
    put_work(&mut line, status)?;
    Ok(line)
}

/// Appends how far the node is.
#[tactic(auto, unfolding(crate::specs::Lines::play_text))]
fn put_play(line: &mut Vec<u8>, status: &Status<'_>) -> Result<(), AllocError>
    ensures { OnOk result (line.new.items ≡ line.old.items ++ play_text status.now.node status.now.front status.now.hand status.now.over status.now.replaying) }
{
    put(line, b"node ")?;
    put_number(line, status.node as u64)?;
    put(line, b" front ")?;
    put_number(line, status.front as u64)?;
    put(line, b" hand ")?;
    put_hand(line, status.hand)?;
    put(line, b" over ")?;
    put(line, yes_or_no(status.over))?;
    put(line, b" replaying ")?;
    put(line, yes_or_no(status.replaying))
}

/// Appends who leads, and who is there.
#[tactic(auto, unfolding(crate::specs::Lines::ballot_text))]
fn put_ballots(line: &mut Vec<u8>, status: &Status<'_>) -> Result<(), AllocError>
    ensures { OnOk result (line.new.items ≡ line.old.items ++ ballot_text status.now.promised status.now.leads status.now.quorum status.now.peers.now) }
{
    put(line, b" promised ")?;
    put_promised(line, status.promised)?;
    put(line, b" leads ")?;
    put(line, yes_or_no(status.leads))?;
    put(line, b" quorum ")?;
    put(line, yes_or_no(status.quorum))?;
    put(line, b" peers ")?;
    put_peers(line, status.peers)
}

/// Appends where the bots are, and how much there is to do.
#[tactic(auto, unfolding(crate::specs::Lines::work_text))]
fn put_work(line: &mut Vec<u8>, status: &Status<'_>) -> Result<(), AllocError>
    ensures { OnOk result (line.new.items ≡ line.old.items ++ work_text status.now.seats.now status.now.pending status.now.commands) }
{
    put(line, b" seats ")?;
    put_seats(line, status.seats)?;
    put(line, b" pending ")?;
    put(line, yes_or_no(status.pending))?;
    put(line, b" backlog ")?;
    put_backlogs(line, status.seats)?;
    put(line, b" commands ")?;
    put_number(line, status.commands as u64)?;
    put(line, b"/s\n")
}

/// Appends bytes.
fn put(line: &mut Vec<u8>, bytes: &[u8]) -> Result<(), AllocError>
    ensures { OnOk result (line.new.items ≡ line.old.items ++ bytes.now) }
{
    line.extend_from_slice(bytes)
}

/// Appends a number.
fn put_number(line: &mut Vec<u8>, number: u64) -> Result<(), AllocError>
    ensures { OnOk result (line.new.items ≡ line.old.items ++ decimal number) }
{
    put(line, Buffer::new().format(number).as_bytes())
}

/// A word for whether something is so.
fn yes_or_no(is_so: bool) -> &'static [u8]
    ensures { result.now ≡ yes_or_no is_so }
{
    if is_so { b"yes" } else { b"no" }
}

/// Appends the number of a hand, or `-`.
fn put_hand(line: &mut Vec<u8>, hand: Option<u32>) -> Result<(), AllocError>
    ensures { OnOk result (line.new.items ≡ line.old.items ++ hand_text hand) }
{
    match hand {
        Some(hand) => put_number(line, hand as u64),
        None => put(line, b"-"),
    }
}

/// Appends a ballot, or `-`.
fn put_promised(line: &mut Vec<u8>, promised: Option<Ballot>) -> Result<(), AllocError>
    ensures { OnOk result (line.new.items ≡ line.old.items ++ promised_text promised) }
{
    let Some(ballot) = promised else {
        return put(line, b"-");
    };
    put_number(line, ballot.round as u64)?;
    put(line, b".")?;
    put_number(line, ballot.node as u64)
}

/// Appends a comma behind what is listed already, and `-` where nothing is to be listed.
fn put_comma(line: &mut Vec<u8>, place: usize) -> Result<(), AllocError>
    ensures { OnOk result (line.new.items ≡ line.old.items ++ comma_before place) }
{
    if place > 0 {
        return put(line, b",");
    }
    Ok(())
}

/// Appends how the peers are.
#[tactic(auto, using(crate::proofs::Joined::taken_more, crate::proofs::Joined::all_listed))]
fn put_peers(line: &mut Vec<u8>, peers: &[PeerStatus]) -> Result<(), AllocError>
    ensures { OnOk result (line.new.items ≡ line.old.items ++ listed peer_text peers.now) }
{
    if peers.is_empty() {
        return put(line, b"-");
    }
    for (place, peer) in peers.iter().enumerate() {
        put_comma(line, place)?;
        put_peer(line, *peer)?;
    }
    Ok(())
}

/// Appends how a peer is.
fn put_peer(line: &mut Vec<u8>, peer: PeerStatus) -> Result<(), AllocError>
    ensures { OnOk result (line.new.items ≡ line.old.items ++ peer_text peer) }
{
    match peer {
        PeerStatus::Present {
            number,
            front,
            campaigns,
        } => {
            put_number(line, number as u64)?;
            put(line, b":")?;
            put_number(line, front as u64)?;
            put(line, if campaigns { b":campaigns" } else { b"" })
        }
        PeerStatus::Gone { number } => {
            put_number(line, number as u64)?;
            put(line, b":gone")
        }
    }
}

/// Appends where the bots of the seats sit.
#[tactic(auto, using(crate::proofs::Joined::taken_more, crate::proofs::Joined::all_listed))]
fn put_seats(line: &mut Vec<u8>, seats: &[SeatStatus]) -> Result<(), AllocError>
    ensures { OnOk result (line.new.items ≡ line.old.items ++ listed seat_text seats.now) }
{
    if seats.is_empty() {
        return put(line, b"-");
    }
    for (place, seat) in seats.iter().enumerate() {
        put_comma(line, place)?;
        put_seat(line, *seat)?;
    }
    Ok(())
}

/// Appends where the bot of a seat sits.
fn put_seat(line: &mut Vec<u8>, seat: SeatStatus) -> Result<(), AllocError>
    ensures { OnOk result (line.new.items ≡ line.old.items ++ seat_text seat) }
{
    put(line, seat.name.as_bytes())?;
    put(line, b":")?;
    put(line, word_of(seat.sits))
}

/// The word for where a bot sits.
fn word_of(sits: Sits) -> &'static [u8]
    ensures { result.now ≡ sits_text sits }
{
    match sits {
        Sits::Here => b"seated",
        Sits::Elsewhere => b"elsewhere",
        Sits::Nowhere => b"away",
    }
}

/// Appends how much waits for the bot of each seat.
#[tactic(auto, using(crate::proofs::Joined::taken_more, crate::proofs::Joined::all_listed))]
fn put_backlogs(line: &mut Vec<u8>, seats: &[SeatStatus]) -> Result<(), AllocError>
    ensures { OnOk result (line.new.items ≡ line.old.items ++ listed backlog_text seats.now) }
{
    if seats.is_empty() {
        return put(line, b"-");
    }
    for (place, seat) in seats.iter().enumerate() {
        put_comma(line, place)?;
        put_number(line, seat.backlog as u64)?;
    }
    Ok(())
}
