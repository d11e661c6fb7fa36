//! What the bots of seats are told: the lines of their seats, off the table of the node.

ghost use Rattle.std.specs.Prelude.{◌≡◌, ◌<◌, ℕ, List, true, false};
ghost use Rattle.node_wires.specs.Passages.{Passage};
ghost use Rattle.node_seats.specs.Telling.{AreSaid};
ghost use Rattle.node_seats.specs.declared.words.Asked.TheVariants.{Line as OfLine, Nothing as ForNothing};
ghost use Rattle.stations.specs.Looking.{look_of};
ghost use Rattle.slot_log.specs.Hand.{Match};
ghost use Rattle.node_seats.specs.Seating.{bot_at, waits_at, KeepsOtherBots};
ghost use Rattle.node_seats.specs.Telling.{IsToldAll};
ghost use Rattle.node_service.specs.Apartness.{PutsOff};
ghost use Rattle.node_service.specs.Seated.{SatBefore};
ghost use Rattle.node_service.specs.Bots.{newest_place, IsRefusedBy, IsStart, IsBehindAll, KeepBots, HasBegun, IsToldOver, OfTable, IsServedAt};

use crate::limits::SEATS;
use crate::local_node::LocalNode;
use line_cursor::{Cursor, NamedLine, find_line};
use node_seats::limits::BACKLOG;
use node_seats::{Asked, Parting, Seats};
use promise_store::Disk;
use slot_log::Table;

/// Where the lines of a bot begin.
#[derive(Clone, Copy)]
pub(crate) enum Start {
    /// At this place.
    At(Cursor),
    /// At one to which the match may still come.
    Later,
    /// Nowhere: the line that it named is none of its seat.
    Never,
}

/// The bit of a seat; none of a number that no seat has.
pub(crate) fn bit_of(seat: u8) -> u16 {
    if seat < SEATS { 1 << seat } else { 0 }
}

/// Whether a bot that asked so asked for anything.
fn asks(asked: Asked) -> bool
    ensures asks { result ≡ true → asked ≡ ForNothing → ⊥ }
    ensures nothing { result ≡ false → asked ≡ ForNothing }
{
    match asked {
        Asked::Nothing => false,
        Asked::First | Asked::Newest | Asked::Line | Asked::Other => true,
    }
}

/// The place of the newest line, or of the first one that will come.
fn newest_place(table: &Table) -> Cursor
    ensures { result ≡ newest_place table.now.hands }
{
    match Cursor::newest(table) {
        Some(newest) => newest,
        None => Cursor {
            hand: 0,
            actions: 0,
        },
    }
}

/// Where the lines of a bot begin that named a line.
fn start_at_line(table: &Table, seat: u8, named: &[u8]) -> Start
    requires { seat < table.now.game.players }
    ensures { IsStart table.now seat OfLine named.now result }
{
    match find_line(table, seat as usize, named) {
        NamedLine::Told(at) => Start::At(at),
        NamedLine::Ahead(_) => Start::Later,
        NamedLine::Other => Start::Never,
    }
}

/// Where the lines of a bot begin that asked so.
fn start_of(table: &Table, seat: u8, asked: Asked, named: &[u8]) -> Start
    requires { seat < table.now.game.players }
    ensures { IsStart table.now seat asked named.now result }
{
    match asked {
        Asked::Nothing | Asked::Newest => Start::At(newest_place(table)),
        Asked::First => Start::At(Cursor {
            hand: 0,
            actions: 0,
        }),
        Asked::Line => start_at_line(table, seat, named),
        Asked::Other => Start::Never,
    }
}

/// Whether the match is over, and this place is behind its last line.
fn is_behind_all(table: &Table, at: Cursor) -> bool
    ensures behind { result ≡ true → (seat : ℕ) → IsBehindAll table.now seat at }
    ensures before { result ≡ false → (seat : ℕ) → IsBehindAll table.now seat at → ⊥ }
{
    table.over() && !at.has_lines(table)
}

/// Whether there is something that the bot of a seat is still to be told: a line to which the table has come, or why there is none.
pub(crate) fn owes<D: Disk + Drop>(member: &LocalNode<D>, seats: &Seats, seat: u8) -> bool {
    let table = member.node().table();
    if seat as usize >= table.game().players() || seats.parting(seat).is_some() {
        return false;
    }
    match seats.next_place(seat) {
        Some(next) => { next.has_lines(table) || (table.over() && asks(seats.asked(seat).0)) }
        None => true,
    }
}

/// Whether the bot of a seat may be told a line at once: the table has come to it, and few bytes wait.
pub(crate) fn is_behind<D: Disk + Drop>(member: &LocalNode<D>, seats: &Seats, seat: u8) -> bool {
    let table = member.node().table();
    if seat as usize >= table.game().players() || seats.backlog(seat) >= BACKLOG {
        return false;
    }
    match (seats.parting(seat), seats.next_place(seat)) {
        (None, Some(next)) => seats.sits(seat as usize) && next.has_lines(table),
        _ => false,
    }
}

/// Where the bot of a seat isn't told lines yet, it is from the line on from which it asked to be; or it is told that there is no
/// such line. False without memory for that, and where the table has no such seat.
#[tactic(auto, using(crate::proofs::Bots::bots_still, crate::proofs::Apartness::none_put_off, crate::proofs::Seated::sat_still, crate::proofs::Seated::sat_said))]
fn begin<D: Disk + Drop>(member: &LocalNode<D>, seats: &mut Seats, seat: u8) -> bool
    ensures bots { KeepBots (look_of member.now.station) (look_of member.now.station) seats.old.seats.items seats.new.seats.items }
    ensures said { (passed : List Passage) → AreSaid passed seats.old.seats.items → AreSaid passed seats.new.seats.items }
    ensures waits { PutsOff false seats.old.seats.items seats.new.seats.items }
    ensures guests { seats.new.guests ≡ seats.old.guests }
    ensures sat { SatBefore seats.old.seats.items seats.new.seats.items }
    ensures within { result ≡ true → OfTable (look_of member.now.station) (λ table. seat < table.game.players) }
    ensures begun { result ≡ true → OfTable (look_of member.now.station) (λ table. HasBegun table seat (bot_at seats.new.seats.items seat)) }
    ensures others { KeepsOtherBots seat seats.old.seats.items seats.new.seats.items }
{
    member.station().limits();
    let table = member.node().table();
    if seat as usize >= table.game().players() {
        return false;
    }
    if !seats.is_silent(seat) {
        return true;
    }
    let (asked, named) = seats.asked(seat);
    match start_of(table, seat, asked, named) {
        Start::At(at) => {
            seats.begin(seat, at);
            true
        }
        Start::Later => true,
        Start::Never => seats.part(seat, Parting::Other),
    }
}

/// Tells the bot of a seat that was told no line that the line that it named is none, where the table still hasn't it. False
/// without memory for that.
#[tactic(auto, using(crate::proofs::Bots::bots_still, crate::proofs::Apartness::none_put_off, crate::proofs::Seated::sat_still, crate::proofs::Seated::sat_said))]
pub(crate) fn refuse<D: Disk + Drop>(member: &LocalNode<D>, seats: &mut Seats, seat: u8) -> bool
    ensures bots { KeepBots (look_of member.now.station) (look_of member.now.station) seats.old.seats.items seats.new.seats.items }
    ensures said { (passed : List Passage) → AreSaid passed seats.old.seats.items → AreSaid passed seats.new.seats.items }
    ensures waits { PutsOff false seats.old.seats.items seats.new.seats.items }
    ensures guests { seats.new.guests ≡ seats.old.guests }
    ensures sat { SatBefore seats.old.seats.items seats.new.seats.items }
{
    member.station().limits();
    let table = member.node().table();
    if seat as usize >= table.game().players() {
        return true;
    }
    let (asked, named) = seats.asked(seat);
    if !names_line(asked) {
        return true;
    }
    if has_line(table, seat, named) {
        return true;
    }
    seats.part(seat, Parting::Other)
}

/// Whether a bot that asked so named a line.
fn names_line(asked: Asked) -> bool
    ensures { result ≡ true → asked ≡ OfLine }
{
    match asked {
        Asked::Line => true,
        Asked::Nothing | Asked::First | Asked::Newest | Asked::Other => false,
    }
}

/// Whether the seat was told this line.
fn has_line(table: &Table, seat: u8, named: &[u8]) -> bool
    requires { seat < table.now.game.players }
    ensures { result ≡ false → IsRefusedBy table.now seat OfLine named.now }
{
    matches!(find_line(table, seat as usize, named), NamedLine::Told(_))
}

/// Tells the bot of a seat the lines to which the table has come. False without memory for one.
fn tell<D: Disk + Drop>(member: &LocalNode<D>, seats: &mut Seats, seat: u8) -> bool
    ensures bots { KeepBots (look_of member.now.station) (look_of member.now.station) seats.old.seats.items seats.new.seats.items }
    ensures said { (passed : List Passage) → AreSaid passed seats.old.seats.items → AreSaid passed seats.new.seats.items }
    ensures waits { PutsOff false seats.old.seats.items seats.new.seats.items }
    ensures guests { seats.new.guests ≡ seats.old.guests }
    ensures sat { SatBefore seats.old.seats.items seats.new.seats.items }
    ensures begun { (table : Match) → HasBegun table seat (bot_at seats.old.seats.items seat) → HasBegun table seat (bot_at seats.new.seats.items seat) }
    ensures told { result ≡ true → OfTable (look_of member.now.station) (λ table. seat < table.game.players → IsToldAll table seat (bot_at seats.new.seats.items seat) (waits_at seats.new.seats.items seat)) }
    ensures others { KeepsOtherBots seat seats.old.seats.items seats.new.seats.items }
{
    member.station().limits();
    seats.tell(seat, member.node().table())
}

/// Tells the bot of a seat that the match is over, where it is, all its lines were told, and the bot asked to be told from a line
/// on. False without memory for that.
#[tactic(auto, using(crate::proofs::Bots::bots_still, crate::proofs::Apartness::none_put_off, crate::proofs::Seated::sat_still, crate::proofs::Seated::sat_said))]
fn end<D: Disk + Drop>(member: &LocalNode<D>, seats: &mut Seats, seat: u8) -> bool
    ensures bots { KeepBots (look_of member.now.station) (look_of member.now.station) seats.old.seats.items seats.new.seats.items }
    ensures said { (passed : List Passage) → AreSaid passed seats.old.seats.items → AreSaid passed seats.new.seats.items }
    ensures waits { PutsOff false seats.old.seats.items seats.new.seats.items }
    ensures guests { seats.new.guests ≡ seats.old.guests }
    ensures sat { SatBefore seats.old.seats.items seats.new.seats.items }
    ensures begun { (table : Match) → HasBegun table seat (bot_at seats.old.seats.items seat) → HasBegun table seat (bot_at seats.new.seats.items seat) }
    ensures told { (table : Match) → IsToldAll table seat (bot_at seats.old.seats.items seat) (waits_at seats.old.seats.items seat) → IsToldAll table seat (bot_at seats.new.seats.items seat) (waits_at seats.new.seats.items seat) }
    ensures over { result ≡ true → OfTable (look_of member.now.station) (λ table. seat < table.game.players → IsToldOver table seat (bot_at seats.new.seats.items seat)) }
    ensures others { KeepsOtherBots seat seats.old.seats.items seats.new.seats.items }
{
    member.station().limits();
    let table = member.node().table();
    if seat as usize >= table.game().players() {
        return true;
    }
    if !asks(seats.asked(seat).0) {
        return true;
    }
    let Some(next) = seats.next_place(seat) else {
        return true;
    };
    if !is_behind_all(table, next) {
        return true;
    }
    seats.part(seat, Parting::Over)
}

/// Tells the bot of a seat to come again later, where it said `#RESUME`: its node is apart. False where it named the version
/// without that, or without memory: then it is to be let go of.
#[tactic(auto, using(crate::proofs::Bots::bots_still, crate::proofs::Apartness::none_put_off, crate::proofs::Seated::sat_still, crate::proofs::Seated::sat_said, crate::proofs::Owing::served_gone))]
fn put_off<D: Disk + Drop>(member: &LocalNode<D>, seats: &mut Seats, seat: u8) -> bool
    ensures bots { KeepBots (look_of member.now.station) (look_of member.now.station) seats.old.seats.items seats.new.seats.items }
    ensures said { (passed : List Passage) → AreSaid passed seats.old.seats.items → AreSaid passed seats.new.seats.items }
    ensures waits { PutsOff true seats.old.seats.items seats.new.seats.items }
    ensures guests { seats.new.guests ≡ seats.old.guests }
    ensures sat { SatBefore seats.old.seats.items seats.new.seats.items }
    ensures served { result ≡ true → IsServedAt (look_of member.now.station) seat (bot_at seats.new.seats.items seat) (waits_at seats.new.seats.items seat) }
    ensures others { KeepsOtherBots seat seats.old.seats.items seats.new.seats.items }
{
    if seats.has_resumed(seat) {
        return seats.part(seat, Parting::Wait);
    }
    if !member.is_connected(seat) {
        return true;
    }
    !seats.sits(seat as usize)
}

/// Tells the bot of a seat what there is to tell, where its session is ready. False without memory: then it is to be let go of.
#[tactic(auto, using(crate::proofs::Bots::bots_still, crate::proofs::Apartness::none_put_off, crate::proofs::Seated::sat_still, crate::proofs::Seated::sat_said))]
fn tell_lines<D: Disk + Drop>(member: &LocalNode<D>, seats: &mut Seats, seat: u8) -> bool
    ensures bots { KeepBots (look_of member.now.station) (look_of member.now.station) seats.old.seats.items seats.new.seats.items }
    ensures said { (passed : List Passage) → AreSaid passed seats.old.seats.items → AreSaid passed seats.new.seats.items }
    ensures waits { PutsOff false seats.old.seats.items seats.new.seats.items }
    ensures guests { seats.new.guests ≡ seats.old.guests }
    ensures sat { SatBefore seats.old.seats.items seats.new.seats.items }
    ensures served { result ≡ true → IsServedAt (look_of member.now.station) seat (bot_at seats.new.seats.items seat) (waits_at seats.new.seats.items seat) }
    ensures others { KeepsOtherBots seat seats.old.seats.items seats.new.seats.items }
{
    if !member.is_connected(seat) {
        return true;
    }
    if !begin(member, seats, seat) {
        return false;
    }
    if !tell(member, seats, seat) {
        return false;
    }
    end(member, seats, seat)
}

/// Tells the bot of a seat what there is to tell: lines, or where its node is apart to come again later. False where it is to be
/// let go of.
#[tactic(auto, using(crate::proofs::Apartness::none_in_any))]
pub(crate) fn tell_bot<D: Disk + Drop>(
    member: &LocalNode<D>,
    seats: &mut Seats,
    seat: u8,
    is_apart: bool,
) -> bool
    ensures bots { KeepBots (look_of member.now.station) (look_of member.now.station) seats.old.seats.items seats.new.seats.items }
    ensures said { (passed : List Passage) → AreSaid passed seats.old.seats.items → AreSaid passed seats.new.seats.items }
    ensures waits { PutsOff is_apart seats.old.seats.items seats.new.seats.items }
    ensures guests { seats.new.guests ≡ seats.old.guests }
    ensures sat { SatBefore seats.old.seats.items seats.new.seats.items }
    ensures served { result ≡ true → IsServedAt (look_of member.now.station) seat (bot_at seats.new.seats.items seat) (waits_at seats.new.seats.items seat) }
    ensures others { KeepsOtherBots seat seats.old.seats.items seats.new.seats.items }
{
    if is_apart {
        put_off(member, seats, seat)
    } else {
        tell_lines(member, seats, seat)
    }
}

/// Tells the bots of all seats what there is to tell. It says which are to be let go of, a bit each.
#[tactic(auto, using(crate::proofs::Bots::bots_still, crate::proofs::Apartness::none_put_off, crate::proofs::Seated::sat_still, crate::proofs::Seated::sat_said))]
pub(crate) fn tell_all<D: Disk + Drop>(
    member: &LocalNode<D>,
    seats: &mut Seats,
    is_apart: bool,
) -> u16
    ensures bots { KeepBots (look_of member.now.station) (look_of member.now.station) seats.old.seats.items seats.new.seats.items }
    ensures said { (passed : List Passage) → AreSaid passed seats.old.seats.items → AreSaid passed seats.new.seats.items }
    ensures waits { PutsOff is_apart seats.old.seats.items seats.new.seats.items }
    ensures guests { seats.new.guests ≡ seats.old.guests }
    ensures sat { SatBefore seats.old.seats.items seats.new.seats.items }
{
    let mut failed = 0u16;
    for seat in 0..SEATS {
        if !tell_bot(member, seats, seat, is_apart) {
            failed |= bit_of(seat);
        }
    }
    failed
}
