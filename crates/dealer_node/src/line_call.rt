//! The call with a piece of a seat's bytes: what a node that runs does with it.

ghost use Rattle.std.specs.Prelude.{◌≡◌, ℕ, ◌*◌, ◌≤◌, ◌<◌, length, IsTrue, IsErr, IfOk, IfErr, IfSome, OnOk};
ghost use Rattle.node_rules.specs.Standings.{Standing};
ghost use Rattle.node_rules.specs.Calls.{Line as Piece};
ghost use Rattle.node_rules.specs.Seats.{session_at};
ghost use Rattle.dealer_node.specs.Outs.{told_by, nothing_told, HasRoom};
ghost use Rattle.dealer_node.specs.Members.{Membership};
ghost use Rattle.dealer_node.specs.Rooms.{piece_need, Makes};
ghost use Rattle.dealer_node.specs.Seated.{feeds_with, HasRoomAt};
ghost use Rattle.dealer_node.specs.Running.{IsAt, ahead_of};
ghost use Rattle.paxos_wire.specs.declared.limits.TheConstants.{WINDOW};
ghost use Rattle.dealer_node.specs.Handling.{IsWithin, AnswersUp};
ghost use Rattle.dealer_node.specs.Calling.{line_need};
ghost use Rattle.dealer_node.specs.Most.{most_after, most_applied, ShowsWithin};

use crate::fault::NodeFault;
use crate::limits::{FRAMES_OF_A_CLOSE, TEXT_BYTES_OF_A_COMMAND, TEXTS_OF_A_COMMAND};
use crate::made::{Made, Need};
use crate::member::Member;
use crate::rooms::{Lists, Rooms};
use crate::running::Running;
use crate::up::Up;
use matchstate::MOST_LINE;
use paxos_wire::limits::MOST_SINGLE_FRAME;
use promise_store::Disk;
use std::alloc::Global;

/// What a piece makes at most, with fewer answers than these, where the close proposes no more commands than so many: none
/// where no number is so great.
fn line_need(running: &Running, limit: usize, most: usize) -> Option<Need>
    requires { most ≤ WINDOW }
    ensures { IfSome result (λ need. need ≡ line_need running.now limit most) }
{
    let applied = running.most_applied(most);
    let frames = limit.checked_add(FRAMES_OF_A_CLOSE * most)?;
    let frame_bytes = frames.checked_mul(MOST_SINGLE_FRAME)?;
    Some(Need {
        frames,
        frame_bytes,
        texts: 1 + TEXTS_OF_A_COMMAND * applied,
        text_bytes: MOST_LINE + TEXT_BYTES_OF_A_COMMAND * applied,
        faults: limit,
    })
}

impl<D: Disk + Drop> Up<D> {
    ghost use Rattle.dealer_node.specs.Working.{IsUp, GoesOn, EndsPart};
    ghost use Rattle.dealer_node.specs.Calling.{Unmoved, HasCallRoom, CanClose, HandlesCall};
    ghost use Rattle.dealer_node.specs.Lines.{HearsLine, WorksLine};

    /// Takes a piece of a seat's bytes, as for fewer answers than these.
    fn hear_piece(
        &mut self,
        member: &Member,
        seat: usize,
        piece: &[u8],
        limit: usize,
        made: &mut Made,
    )
        requires at { IsAt member.now self.old.running }
        requires seat { seat < member.now.setting.game.players }
        requires bytes { HasRoomAt self.old.running.seats seat (length piece.now) }
        requires limit { feeds_with (session_at self.old.running.seats.talks seat) piece.now < limit }
        requires room { HasRoom made.old (piece_need limit) }
        ensures heard { (s : Standing) → IsTrue D.is_honest → IsUp D.Disk member.now self.old s
            → HearsLine D.Disk member.now s seat piece.now self.old self.new (told_by made.old) (told_by made.new) }
        ensures at { IsAt member.now self.new.running }
        ensures makes { Makes made.old made.new (piece_need limit) }
        ensures rest { self.new ≡ record self.old { running = record self.old.running { pending = self.new.running.pending; seats = self.new.running.seats } } }
    {
        let promised = self.acceptor.promised();
        self.running
            .hear_piece(member, promised, seat, piece, limit, made);
    }

    /// Takes a piece of a seat's bytes, into room that was made, and closes the call.
    fn line(
        &mut self,
        member: &Member,
        seat: usize,
        piece: &[u8],
        limit: usize,
        lists: &mut Lists,
        made: &mut Made,
    ) -> Result<(), NodeFault>
        requires at { IsAt member.now self.old.running }
        requires seat { seat < member.now.setting.game.players }
        requires bytes { HasRoomAt self.old.running.seats seat (length piece.now) }
        requires limit { feeds_with (session_at self.old.running.seats.talks seat) piece.now < limit }
        requires room { (most : ℕ) × CanClose self.old made.old (line_need self.old.running limit) most }
        ensures works { (s : Standing) → IsTrue D.is_honest → IsUp D.Disk member.now self.old s
            → WorksLine D.Disk member.now s seat piece.now self.old self.new (told_by made.old) (told_by made.new) result }
        ensures ends { EndsPart D.Disk self.old self.new result }
        ensures at { IsAt member.now self.new.running }
        ensures within { (most : ℕ) → CanClose self.old made.old (line_need self.old.running limit) most → told_by made.old ≡ nothing_told
            → IsWithin made.new (line_need self.old.running limit most) }
    {
        self.hear_piece(member, seat, piece, limit, made);
        self.close_call(member, lists, made)
    }

    /// Makes all room that a piece of a seat's bytes may need, where the close proposes no more commands than so many, and
    /// gives it with one more than there may be answers. An `Err`, which is of memory, changes room alone.
    fn ready_line(
        &mut self,
        alloc: Global,
        seat: usize,
        bytes: &[u8],
        most: usize,
        earlier: Option<Made>,
        out: &mut Made,
    ) -> Result<(Made, usize), NodeFault>
        requires seat { seat < length self.old.running.seats.talks }
        requires most { most ≤ WINDOW }
        ensures unmoved { Unmoved D.Disk self.old self.new }
        ensures at { (member : Membership) → IsAt member self.old.running → IsAt member self.new.running }
        ensures ahead { ahead_of self.new.running ≡ ahead_of self.old.running }
        ensures proposer { self.new.running.proposer ≡ self.old.running.proposer }
        ensures same { told_by out.new ≡ told_by out.old }
        ensures memory { IfErr result (λ fault. fault ≡ NodeFault.OutOfMemory) }
        ensures limit { IfOk result (λ ready. feeds_with (session_at self.new.running.seats.talks seat) bytes.now < ready.1) }
        ensures nothing { IfOk result (λ ready. told_by ready.0 ≡ nothing_told) }
        ensures room { IfOk result (λ ready. HasCallRoom self.new ready.0 (line_need self.new.running ready.1 most) 1 most) }
        ensures room_out { IfOk result (λ ready. HasRoom out.new (line_need self.new.running ready.1 most)) }
        ensures bytes { OnOk result (HasRoomAt self.new.running.seats seat (length bytes.now)) }
    {
        let Some(limit) = self.running.seats.most_answers(seat, bytes) else {
            return Err(NodeFault::OutOfMemory);
        };
        let Some(need) = line_need(&self.running, limit, most) else {
            return Err(NodeFault::OutOfMemory);
        };
        let made = self.ready(alloc, earlier, 1, most, &need, out)?;
        self.running.reserve_bytes(seat, bytes.len())?;
        Ok((made, limit))
    }

    /// Takes a piece of a seat's bytes, and closes the call. What it makes goes to `out` at the end, where it didn't fail.
    pub(crate) fn on_line(
        &mut self,
        alloc: Global,
        member: &Member,
        seat: usize,
        bytes: &[u8],
        rooms: &mut Rooms,
        out: &mut Made,
    ) -> Result<(), NodeFault>
        requires at { IsAt member.now self.old.running }
        requires seat { seat < member.now.setting.game.players }
        ensures handles { (s : Standing) → IsTrue D.is_honest → IsUp D.Disk member.now self.old s
            → HandlesCall D.Disk member.now s (Piece seat bytes.now) self.old self.new (told_by out.old) (told_by out.new) result }
        ensures goes_on { GoesOn D.Disk self.old self.new result }
        ensures answers { AnswersUp self.old self.new result }
        ensures at { IsAt member.now self.new.running }
        ensures unmade { IsErr result → told_by out.new ≡ told_by out.old }
        ensures shows { ShowsWithin (most_after (most_applied self.old.running)) (told_by out.old) (told_by out.new) }
    {
        let most = self.running.most_proposed();
        let earlier = rooms.made.take();
        let (mut made, limit) = self.ready_line(alloc, seat, bytes, most, earlier, out)?;
        self.line(member, seat, bytes, limit, &mut rooms.lists, &mut made)?;
        out.append(&mut made);
        rooms.made = Some(made);
        Ok(())
    }
}
