ghost use Rattle.std.specs.Prelude.{◌≡◌, ◌≢◌, ◌++◌, ◌+◌, ◌<◌, ◌≤◌, max, ℕ, true, false, List, [], length, IfOk, IfSome, IsSome, IsSomeAnd, option_map, Some, None};
ghost use Rattle.std.specs.Int.{bit_at};
ghost use Rattle.node_wires.specs.declared.line.Line.TheVariants.{Guest as GuestAt};
ghost use Rattle.node_wires.specs.Passages.{Passage, came_over, seats_in, logged_in};
ghost use Rattle.node_seats.specs.Passing.{Passed, ReadsSeat, HearsNothing, Grows, passed_by, closed_by, seat_of};
ghost use Rattle.node_seats.specs.Guesting.{IsToldOf, Passes, ShowsToken};
ghost use Rattle.node_seats.specs.Others.{KeepsOthers, Rests, TellsNoGuest};
ghost use Rattle.node_seats.specs.Writing.{WritesToSeats};
ghost use Rattle.node_seats.specs.Seating.{Follows, Changes, KeepsClosed, bit_of, waits_at, bot_at, sits_at, is_silent, no_bot, KeepsOtherBots};
ghost use Rattle.node_seats.specs.Hurrying.{LastsAt};
ghost use Rattle.node_seats.specs.Pieces.{IsPieceOf};
ghost use Rattle.node_seats.specs.Telling.{AreSaid, Loses};
ghost use Rattle.node_seats.specs.Keeping.{KeepsBut, LeavesOnly, KeepsFit, IsFit, IsNewest, stands_at};

use crate::bot::Parting;
use crate::crowds::Crowds;
use crate::guest::Found;
use crate::guests::Guests;
use crate::limits::PIECE;
use crate::seat::Seat;
use crate::seat_notice::SeatNotice;
use crate::token_digest::TokenDigest;
use crate::words::Asked;
use line_cursor::{Cursor, SeatLine};
use node_wires::limits::GUESTS;
use node_wires::{Line, Wire};
use slot_log::Table;
use std::alloc::{AllocError, Global};

/// The seats of a node.
#[derive(Drop)]
pub struct Seats {
    alloc: Global,
    count: u8,
    /// Of each seat, by its number.
    seats: Vec<Seat>,
    /// Where seats have tokens, who came to their ports and doesn't sit yet.
    guests: Option<Guests>,
    /// Who was turned away there.
    crowds: Crowds,
    /// Where a piece stands while it is read.
    buffer: [u8; PIECE],
    /// Where a line of a seat stands while it is told.
    line: SeatLine,
    ghost counted: { length seats.items ≡ count },
}

/// What came of the next one who came to the port of a seat with a token.
#[derive(Drop)]
pub struct Called {
    /// Somebody was there. Else nothing changed.
    pub was_there: bool,
    /// He was closed, since no place was for him.
    pub turned_away: bool,
    /// The seat of a guest who was closed since he had to make room for him, if one had to.
    pub made_room: Option<u8>,
    /// What is to be told of him, if anything.
    pub notice: Option<SeatNotice>,
}

/// Nobody was there.
fn nobody_called() -> Called
    ensures there { result.was_there ≡ false }
    ensures away { result.turned_away ≡ false }
    ensures room { result.made_room ≡ None }
    ensures notice { result.notice ≡ None }
{
    Called {
        was_there: false,
        turned_away: false,
        made_room: None,
        notice: None,
    }
}

/// So many seats, where nobody sits.
#[tactic(auto, using(crate::proofs::Seating::one_empty, crate::proofs::Seating::one_nobody))]
fn empty_seats(alloc: Global, count: u8) -> Result<Vec<Seat>, AllocError>
    ensures all { IfOk result (λ seats. length seats.items ≡ count) }
    ensures waits { IfOk result (λ seats. (seat : ℕ) → waits_at seats.items seat ≡ []) }
    ensures nobody { IfOk result (λ seats. (seat : ℕ) → bot_at seats.items seat ≡ no_bot) }
{
    let mut seats = Vec::with_capacity(alloc, count as usize)?;
    for _ in 0..count {
        seats.push(Seat::new(alloc))?;
    }
    Ok(seats)
}

/// These bits, of which that of a number, not set before, is set where somebody sits there.
#[tactic(auto, using(crate::proofs::SeatBits::set_here, crate::proofs::SeatBits::set_elsewhere))]
fn with_bit(bits: u16, number: usize, sits: bool) -> u16
    requires { number < 16 }
    ensures here { bit_at bits number ≡ 0 → bit_at result number ≡ bit_of sits }
    ensures others { (other : ℕ) → other ≢ number → bit_at result other ≡ bit_at bits other }
{
    if sits { bits | 1 << number } else { bits }
}

/// Whether the bit of a seat is set.
#[tactic(auto, using(crate::proofs::SeatBits::is_lowest, crate::proofs::SeatBits::none_above))]
fn is_set(bits: u16, seat: u8) -> bool
    ensures { bit_at bits seat ≡ bit_of result }
{
    if seat >= 16 {
        return false;
    }
    bits >> seat & 1 == 1
}

/// Has the guest at a place, who showed the token of a seat, sit there, where somebody sits there or it isn't closed.
#[tactic(auto, using(crate::proofs::Coming::nothing_passes, crate::proofs::Passing::nothing_grown))]
fn welcome<W: Wire>(
    guests: &mut Guests,
    seats: &mut Vec<Seat>,
    wire: &mut W,
    guest: (u8, u8),
    closed: u16,
    now: u64,
) -> Option<SeatNotice>
    requires { ShowsToken guests.old.tokens.items guest.1 (came_over guests.old.passed.items (GuestAt guest.0)) }
    ensures closed { KeepsClosed closed result }
    ensures passes { Passes (Some guests.old.tokens.items) result guests.old.passed.items guests.new.passed.items (W.passed wire.old) (W.passed wire.new) }
    ensures quiet { result ≡ None → Grows guests.old.passed.items guests.new.passed.items (W.passed wire.old) (W.passed wire.new) }
    ensures told { IsToldOf guests.old.tokens.items (came_over guests.new.passed.items (GuestAt guest.0)) result }
    ensures tokens { guests.new.tokens ≡ guests.old.tokens }
    ensures waits { Follows result seats.old.items seats.new.items }
    ensures sits { Changes result seats.old.items seats.new.items }
    ensures time { (seat : ℕ) → LastsAt now result seats.old.items seats.new.items seat }
    ensures all { length seats.new.items ≡ length seats.old.items }
    ensures left { LeavesOnly guests.old.guests.items guests.new.guests.items }
{
    let (place, seat) = guest;
    match seats.get_mut(seat as usize) {
        Some(at) if at.bot.sits || !is_set(closed, seat) => {
            at.welcome(guests, wire, place, seat, now)
        }
        _ => None,
    }
}

/// Hears the guest at a place: who showed the token of a seat sits there from now on, and who sits there is let go of before.
/// Where nobody sits at a closed seat he stays a guest, and is heard again by a later call: whoever else waited for that seat
/// is let go of. Who is refused is let go of too.
#[tactic(auto, using(crate::proofs::Coming::heard_passes, crate::proofs::Coming::refused_passes, crate::proofs::Passing::grown_on))]
fn hear_guest<W: Wire>(
    guests: &mut Guests,
    seats: &mut Vec<Seat>,
    wire: &mut W,
    place: u8,
    closed: u16,
    now: u64,
) -> Option<SeatNotice>
    ensures closed { KeepsClosed closed result }
    ensures passes { Passes (Some guests.old.tokens.items) result guests.old.passed.items guests.new.passed.items (W.passed wire.old) (W.passed wire.new) }
    ensures quiet { result ≡ None → Grows guests.old.passed.items guests.new.passed.items (W.passed wire.old) (W.passed wire.new) }
    ensures told { IsToldOf guests.old.tokens.items (came_over guests.new.passed.items (GuestAt place)) result }
    ensures tokens { guests.new.tokens ≡ guests.old.tokens }
    ensures waits { Follows result seats.old.items seats.new.items }
    ensures sits { Changes result seats.old.items seats.new.items }
    ensures time { (seat : ℕ) → LastsAt now result seats.old.items seats.new.items seat }
    ensures all { length seats.new.items ≡ length seats.old.items }
    ensures kept { KeepsBut place guests.old.guests.items guests.new.guests.items }
    ensures fit { IsFit guests.old.tokens.items (stands_at guests.new.guests.items place) }
    ensures newest { IsNewest place guests.new.guests.items }
{
    match guests.hear(wire, place, now) {
        Found::Nothing => None,
        Found::Refused { seat } => {
            let source = wire.source(Line::Guest(place));
            guests.dismiss(wire, place);
            Some(SeatNotice::Refused { seat, source })
        }
        Found::Shown { seat } => {
            guests.prefer(wire, place, seat);
            welcome(guests, seats, wire, (place, seat), closed, now)
        }
    }
}

/// Takes the next one off the queue of a seat's port, and reads once what he said.
fn take_guest<W: Wire>(
    guests: &mut Guests,
    seats: &mut Vec<Seat>,
    wire: &mut W,
    seat: u8,
    closed: u16,
    now: u64,
) -> Called
    ensures nobody { result.was_there ≡ false → (result.notice ≡ None) × (W.passed wire.new ≡ W.passed wire.old) }
    ensures empty { result.was_there ≡ false → (result.turned_away ≡ false) × (result.made_room ≡ None) }
    ensures quiet { result.turned_away ≡ true → result.notice ≡ None }
    ensures closed { KeepsClosed closed result.notice }
    ensures passes { Passes (Some guests.old.tokens.items) result.notice guests.old.passed.items guests.new.passed.items (W.passed wire.old) (W.passed wire.new) }
    ensures piece { (number most : ℕ) → IsPieceOf number most result.notice }
    ensures tokens { guests.new.tokens ≡ guests.old.tokens }
    ensures waits { Follows result.notice seats.old.items seats.new.items }
    ensures sits { Changes result.notice seats.old.items seats.new.items }
    ensures time { (number : ℕ) → LastsAt now result.notice seats.old.items seats.new.items number }
    ensures all { length seats.new.items ≡ length seats.old.items }
    ensures kept { KeepsFit guests.old.tokens.items guests.old.guests.items guests.new.guests.items }
{
    let Some((place, made_room)) = guests.accept(wire, seat, now) else {
        return nobody_called();
    };
    let notice = hear_guest(guests, seats, wire, place, closed, now);
    let is_quiet = notice.is_none();
    let turned_away = guests.turn_away(wire, place, is_quiet);
    Called {
        was_there: true,
        turned_away,
        made_room,
        notice,
    }
}

impl Seats {
    ghost use Rattle.node_seats.specs.Seating.{is_here_at, Flushes};
    ghost use Rattle.node_seats.specs.Telling.{Begins, TellsBot, IsToldAll, MayPart, Parts, SaysAt};
    ghost use Rattle.node_seats.specs.declared.limits.TheConstants.{BACKLOG as MOST, PIECE as LONGEST};
    ghost use Rattle.node_seats.specs.Times.{HurriesAt, KeepsTime};
    ghost use Rattle.node_seats.specs.Hurrying.{since_at};
    ghost use Rattle.node_seats.specs.Coming.{passed_in, tokens_in, tokens_of, passed_of, Comes, AreFit, AreOneASeat};
    ghost use Rattle.node_seats.specs.Crowding.{turned_away_at, crowded_at, IsCrowded, CountsCalled};
    ghost use Rattle.node_seats.specs.Seating.{resumes};

    /// Nobody came yet to the ports of seats that have tokens, if they have.
    fn no_guests(
        alloc: Global,
        tokens: Option<Vec<TokenDigest>>,
    ) -> Result<Option<Guests>, AllocError>
        ensures tokens { IfOk result (λ guests. tokens_in guests ≡ option_map (λ t. t.items) tokens) }
        ensures passed { IfOk result (λ guests. passed_in guests ≡ []) }
    {
        match tokens {
            Some(tokens) => Ok(Some(Guests::new(alloc, tokens)?)),
            None => Ok(None),
        }
    }

    /// So many seats, where nobody sits. With tokens, of each seat by its number, a seat takes nobody but who shows its own,
    /// and one for which there is none takes nobody.
    #[tactic(auto, using(crate::proofs::Telling::said_first))]
    pub fn new(
        alloc: Global,
        count: u8,
        tokens: Option<Vec<TokenDigest>>,
    ) -> Result<Seats, AllocError>
        ensures tokens { IfOk result (λ seats. tokens_of seats ≡ option_map (λ t. t.items) tokens) }
        ensures passed { IfOk result (λ seats. passed_of seats ≡ []) }
        ensures nobody { IfOk result (λ seats. (seat : ℕ) → bot_at seats.seats.items seat ≡ no_bot) }
        ensures said { IfOk result (λ seats. AreSaid [] seats.seats.items) }
        ensures counts { IfOk result (λ seats. (seat : ℕ) → turned_away_at seats.crowds seat ≡ 0) }
        ensures moments { IfOk result (λ seats. (seat : ℕ) → crowded_at seats.crowds seat ≡ None) }
    {
        let seats = empty_seats(alloc, count)?;
        let guests = Seats::no_guests(alloc, tokens)?;
        Ok(Seats {
            alloc,
            count,
            seats,
            guests,
            crowds: Crowds::new(),
            buffer: [0; PIECE],
            line: SeatLine::new(),
        })
    }

    /// What came next of a seat. Where seats have tokens nobody is taken in.
    #[tactic(auto, using(crate::proofs::Coming::nothing_passes, crate::proofs::Seating::reads_there, crate::proofs::Seating::reads_nowhere))]
    fn look_at_seat<W: Wire>(
        &mut self,
        wire: &mut W,
        number: u8,
        greeted: bool,
        closed: u16,
        now: u64,
    ) -> Option<SeatNotice>
        requires { number < self.old.count }
        ensures closed { KeepsClosed closed result }
        ensures time { HurriesAt greeted now number result self.old self.new }
        ensures passes { Passes (tokens_of self.old) result (passed_of self.old) (passed_of self.new) (W.passed wire.old) (W.passed wire.new) }
        ensures read { sits_at self.old.seats.items number ≡ true → ReadsSeat number result (W.passed wire.old) (W.passed wire.new) }
        ensures waits { Follows result self.old.seats.items self.new.seats.items }
        ensures sits { Changes result self.old.seats.items self.new.seats.items }
        ensures piece { IsPieceOf number LONGEST result }
        ensures guests { self.new.guests ≡ self.old.guests }
        ensures crowds { self.new.crowds ≡ self.old.crowds }
    {
        let seat = self.seats.get_mut(number as usize)?;
        match &self.guests {
            None if is_set(closed, number) => {
                seat.next_piece(self.alloc, &mut self.buffer, wire, number, greeted, now)
            }
            None => seat.next(self.alloc, &mut self.buffer, wire, number, greeted, now),
            Some(_) => seat.next_piece(self.alloc, &mut self.buffer, wire, number, greeted, now),
        }
    }

    /// What came next of the guest at a place.
    #[tactic(auto, using(crate::proofs::Coming::nothing_passes, crate::proofs::Coming::no_piece, crate::proofs::Keeping::are_same))]
    fn look_at_guest<W: Wire>(
        &mut self,
        wire: &mut W,
        place: u8,
        closed: u16,
        now: u64,
    ) -> Option<SeatNotice>
        ensures closed { KeepsClosed closed result }
        ensures comes { Comes result self.old self.new (W.passed wire.old) (W.passed wire.new) }
        ensures piece { (seat most : ℕ) → IsPieceOf seat most result }
        ensures time { (seat : ℕ) → LastsAt now result self.old.seats.items self.new.seats.items seat }
        ensures count { self.new.count ≡ self.old.count }
        ensures kept { AreFit self.old.guests self.new.guests }
        ensures crowds { self.new.crowds ≡ self.old.crowds }
    {
        match &mut self.guests {
            Some(guests) => hear_guest(guests, &mut self.seats, wire, place, closed, now),
            None => None,
        }
    }

    /// What came next of a seat or, by numbers behind those of all seats, of the guest at a place.
    #[tactic(auto, using(crate::proofs::Keeping::are_same, crate::proofs::Seating::reads_nowhere))]
    fn look<W: Wire>(
        &mut self,
        wire: &mut W,
        at: u8,
        greeted: bool,
        closed: u16,
        now: u64,
    ) -> Option<SeatNotice>
        ensures closed { KeepsClosed closed result }
        ensures time { HurriesAt greeted now at result self.old self.new }
        ensures comes { Comes result self.old self.new (W.passed wire.old) (W.passed wire.new) }
        ensures read { sits_at self.old.seats.items at ≡ true → ReadsSeat at result (W.passed wire.old) (W.passed wire.new) }
        ensures piece { IsPieceOf at LONGEST result }
        ensures kept { AreFit self.old.guests self.new.guests }
        ensures crowds { self.new.crowds ≡ self.old.crowds }
    {
        match at.checked_sub(self.count) {
            None => self.look_at_seat(wire, at, greeted, closed, now),
            Some(place) => self.look_at_guest(wire, place, closed, now),
        }
    }

    /// How many there are of whom `next` tells: the seats and, where these have tokens, the places of guests behind them.
    #[tactic(auto, using(crate::proofs::Seating::sits_within))]
    pub fn looks(&self) -> u8
        ensures { (seat : ℕ) → sits_at self.now.seats.items seat ≡ true → seat < result }
    {
        if self.guests.is_some() {
            self.count.saturating_add(GUESTS as u8)
        } else {
            self.count
        }
    }

    /// What came next of one of them, by its number, if anything did. Nothing waits for one who was taken in. Of a seat one
    /// piece comes at a time, of 512 bytes at most, and of a guest none. Where somebody sits there and nothing is told, a read
    /// found nothing. Where memory for a piece was refused, that is told (`Unread`), and nothing was read.
    ///
    /// With tokens nobody is taken off the queue of a seat's port (`next_caller` does that): who is taken in was a guest who showed
    /// the token of that seat, and nothing else had come of him; who sat there is told to be gone before. Nothing that came of a
    /// guest is told. Who said anything wrong, or too little in his time, is refused and keeps no place.
    ///
    /// `closed` has the bits of the seats at which nobody is taken in now. Who comes to one of them waits at its port, or as a
    /// guest, and is taken in by a later call; who sits there still makes room for a guest who showed the token.
    ///
    /// A bot has 10 seconds to name the version. `greeted` says whether the one at this seat has. Once they are over, one more
    /// call takes what came of it, and the call behind that one lets go of it.
    #[tactic(auto, using(crate::proofs::Coming::plain_passed, crate::proofs::Coming::seats_come, crate::proofs::Coming::log_stays, crate::proofs::Others::keeps_coming, crate::proofs::Telling::said_coming, crate::proofs::Keeping::one_a_seat))]
    pub fn next<W: Wire>(
        &mut self,
        wire: &mut W,
        at: u8,
        greeted: bool,
        closed: u16,
        now: u64,
    ) -> Option<SeatNotice>
        ensures time { HurriesAt greeted now at result self.old self.new }
        ensures comes { Comes result self.old self.new (W.passed wire.old) (W.passed wire.new) }
        ensures read { sits_at self.old.seats.items at ≡ true → ReadsSeat at result (W.passed wire.old) (W.passed wire.new) }
        ensures closed { KeepsClosed closed result }
        ensures piece { IsPieceOf at LONGEST result }
        ensures plain { tokens_of self.old ≡ None → Passed result (W.passed wire.old) (W.passed wire.new) }
        ensures seats { seats_in (W.passed wire.new) ≡ seats_in (W.passed wire.old) ++ seats_in (passed_by result) }
        ensures log { logged_in (W.passed wire.new) ≡ logged_in (W.passed wire.old) }
        ensures others { KeepsOthers (W.passed wire.old) (W.passed wire.new) }
        ensures unsaid { TellsNoGuest (W.passed wire.old) (W.passed wire.new) }
        ensures said { AreSaid (W.passed wire.old) self.old.seats.items → AreSaid (W.passed wire.new) self.new.seats.items }
        ensures kept { AreFit self.old.guests self.new.guests }
        ensures alone { AreOneASeat self.old.guests → AreOneASeat self.new.guests }
        ensures crowds { self.new.crowds ≡ self.old.crowds }
    {
        self.look(wire, at, greeted, closed, now)
    }

    /// Takes the next one off the queue of a seat's port, where seats have tokens, and reads once what he said.
    #[tactic(auto, using(crate::proofs::Coming::nothing_passes, crate::proofs::Keeping::are_fit, crate::proofs::Keeping::are_same))]
    fn take_caller<W: Wire>(&mut self, wire: &mut W, seat: u8, closed: u16, now: u64) -> Called
        ensures nobody { result.was_there ≡ false → (result.notice ≡ None) × (W.passed wire.new ≡ W.passed wire.old) }
        ensures empty { result.was_there ≡ false → (result.turned_away ≡ false) × (result.made_room ≡ None) }
        ensures quiet { result.turned_away ≡ true → result.notice ≡ None }
        ensures closed { KeepsClosed closed result.notice }
        ensures comes { Comes result.notice self.old self.new (W.passed wire.old) (W.passed wire.new) }
        ensures piece { (number most : ℕ) → IsPieceOf number most result.notice }
        ensures time { (number : ℕ) → LastsAt now result.notice self.old.seats.items self.new.seats.items number }
        ensures count { self.new.count ≡ self.old.count }
        ensures kept { AreFit self.old.guests self.new.guests }
        ensures crowds { CountsCalled result.turned_away result.made_room seat now self.old.crowds self.new.crowds }
    {
        let Some(guests) = &mut self.guests else {
            return nobody_called();
        };
        let called = take_guest(guests, &mut self.seats, wire, seat, closed, now);
        self.crowds.count(called.turned_away, seat, now);
        self.crowds.make_room(called.made_room, now);
        called
    }

    /// Takes the next one off the queue of a seat's port, where seats have tokens, and reads once what he said.
    ///
    /// Who showed the token of the seat sits there from now on. Where somebody else sits there that one is let go of before, and
    /// where nobody sits at a closed seat, one of whose bits is set, nobody is taken in: then he waits as a guest, one a seat, the
    /// newest, and a later `next` takes him in. Who said anything wrong, or ended, is refused and closed. Who said nothing wrong
    /// so far keeps a place among guests, if one is for him; where none is he is closed and counted (`turned_away`).
    #[tactic(auto, using(crate::proofs::Coming::plain_passed, crate::proofs::Coming::seats_come, crate::proofs::Coming::log_stays, crate::proofs::Others::keeps_coming, crate::proofs::Telling::said_coming, crate::proofs::Keeping::one_a_seat))]
    pub fn next_caller<W: Wire>(&mut self, wire: &mut W, seat: u8, closed: u16, now: u64) -> Called
        ensures nobody { result.was_there ≡ false → (result.notice ≡ None) × (W.passed wire.new ≡ W.passed wire.old) }
        ensures empty { result.was_there ≡ false → (result.turned_away ≡ false) × (result.made_room ≡ None) }
        ensures quiet { result.turned_away ≡ true → result.notice ≡ None }
        ensures time { (number : ℕ) → LastsAt now result.notice self.old.seats.items self.new.seats.items number }
        ensures count { self.new.count ≡ self.old.count }
        ensures comes { Comes result.notice self.old self.new (W.passed wire.old) (W.passed wire.new) }
        ensures closed { KeepsClosed closed result.notice }
        ensures piece { (number most : ℕ) → IsPieceOf number most result.notice }
        ensures plain { tokens_of self.old ≡ None → Passed result.notice (W.passed wire.old) (W.passed wire.new) }
        ensures seats { seats_in (W.passed wire.new) ≡ seats_in (W.passed wire.old) ++ seats_in (passed_by result.notice) }
        ensures log { logged_in (W.passed wire.new) ≡ logged_in (W.passed wire.old) }
        ensures others { KeepsOthers (W.passed wire.old) (W.passed wire.new) }
        ensures unsaid { TellsNoGuest (W.passed wire.old) (W.passed wire.new) }
        ensures said { AreSaid (W.passed wire.old) self.old.seats.items → AreSaid (W.passed wire.new) self.new.seats.items }
        ensures kept { AreFit self.old.guests self.new.guests }
        ensures alone { AreOneASeat self.old.guests → AreOneASeat self.new.guests }
        ensures crowds { CountsCalled result.turned_away result.made_room seat now self.old.crowds self.new.crowds }
    {
        self.take_caller(wire, seat, closed, now)
    }

    /// How many who came to the port of a seat were closed so far, since no place was for them.
    pub fn turned_away(&self, seat: u8) -> u64
        ensures { result ≡ turned_away_at self.now.crowds seat }
    {
        self.crowds.turned_away(seat)
    }

    /// When it was last crowded at the port of a seat, if it was: somebody was closed, since no place was for him, or `crowd` said
    /// so.
    pub fn crowded(&self, seat: u8) -> Option<u64>
        ensures { result ≡ crowded_at self.now.crowds seat }
    {
        self.crowds.crowded(seat)
    }

    /// It is crowded at the port of a seat at this moment: more stand in its queue than are taken off it in a turn.
    pub fn crowd(&mut self, seat: u8, now: u64)
        ensures crowded { IsCrowded seat now self.old.crowds self.new.crowds }
        ensures seats { self.new.seats ≡ self.old.seats }
        ensures guests { self.new.guests ≡ self.old.guests }
        ensures count { self.new.count ≡ self.old.count }
    {
        self.crowds.note(seat, now);
    }

    /// Whether the bot of a seat said once, by `#RESUME`, from where on it is to be told.
    pub fn has_resumed(&self, seat: u8) -> bool
        ensures { result ≡ resumes (bot_at self.now.seats.items seat) }
    {
        match self.seats.get(seat as usize) {
            Some(seat) => seat.bot.has_resumed(),
            None => false,
        }
    }

    /// Whether the bot of a seat named the version, or said another line that asks for nothing: behind that no `#RESUME` is read.
    pub fn has_named(&self, seat: u8) -> bool
        ensures { result ≡ (bot_at self.now.seats.items seat).words.is_over }
    {
        match self.seats.get(seat as usize) {
            Some(seat) => seat.bot.words.is_over(),
            None => false,
        }
    }

    /// When the bot of a seat was taken in, until its time for the version is seen to be over.
    pub fn since(&self, seat: u8) -> Option<u64>
        ensures { result ≡ since_at self.now.seats.items seat }
    {
        match self.seats.get(seat as usize) {
            Some(seat) => seat.since(),
            None => None,
        }
    }

    /// From now on the bot of a seat is told the lines of its seat from this place on, where it has named the version, isn't told
    /// lines yet, and isn't parted from.
    #[tactic(auto, using(crate::proofs::Seating::bot_here, crate::proofs::Seating::waits_here, crate::proofs::Telling::says_there, crate::proofs::Telling::says_nowhere))]
    pub fn begin(&mut self, seat: u8, at: Cursor)
        ensures begins { Begins at (bot_at self.old.seats.items seat) (bot_at self.new.seats.items seat) }
        ensures begun { (bot_at self.old.seats.items seat).words.is_over ≡ true → (bot_at self.old.seats.items seat).parting ≡ None → IsSome (bot_at self.new.seats.items seat).telling }
        ensures says { SaysAt seat self.old.seats.items self.new.seats.items }
        ensures said { (passed : List Passage) → AreSaid passed self.old.seats.items → AreSaid passed self.new.seats.items }
        ensures guests { self.new.guests ≡ self.old.guests }
        ensures time { KeepsTime self.old self.new }
    {
        let number = seat as usize;
        if let Some(seat) = self.seats.get_mut(number) {
            seat.begin(at);
        }
    }

    /// Tells the bot of a seat the lines to which the table has come, in order, as long as few bytes wait. False without memory
    /// for a line: then that one isn't told, and it is to be let go of.
    #[tactic(auto, using(crate::proofs::Seating::bot_here, crate::proofs::Seating::waits_here, crate::proofs::Telling::says_there, crate::proofs::Telling::says_nowhere, crate::proofs::Telling::bot_same))]
    pub fn tell(&mut self, seat: u8, table: &Table) -> bool
        ensures tells { TellsBot table.now seat (bot_at self.old.seats.items seat) (bot_at self.new.seats.items seat) }
        ensures all { result ≡ true → seat < table.now.game.players → IsToldAll table.now seat (bot_at self.new.seats.items seat) (waits_at self.new.seats.items seat) }
        ensures bound { length (waits_at self.new.seats.items seat) ≤ max (length (waits_at self.old.seats.items seat)) (MOST + 4098) }
        ensures says { SaysAt seat self.old.seats.items self.new.seats.items }
        ensures said { (passed : List Passage) → AreSaid passed self.old.seats.items → AreSaid passed self.new.seats.items }
        ensures guests { self.new.guests ≡ self.old.guests }
        ensures time { KeepsTime self.old self.new }
    {
        let number = seat;
        if number as usize >= table.game().players() {
            return true;
        }
        match self.seats.get_mut(number as usize) {
            Some(seat) => {
                if !seat.bot.sits {
                    return true;
                }
                seat.tell(&mut self.line, number, table)
            }
            None => true,
        }
    }

    /// Tells the bot of a seat this behind its lines, where it wasn't told so yet; that its line is none only where it was told no
    /// line. False without memory: then it is to be let go of.
    #[tactic(auto, using(crate::proofs::Seating::bot_here, crate::proofs::Seating::waits_here, crate::proofs::Telling::says_there, crate::proofs::Telling::says_nowhere))]
    pub fn part(&mut self, seat: u8, parting: Parting) -> bool
        ensures parts { Parts parting (bot_at self.old.seats.items seat) (bot_at self.new.seats.items seat) }
        ensures parted { result ≡ true → sits_at self.old.seats.items seat ≡ true → MayPart parting (bot_at self.old.seats.items seat) → IsSome (bot_at self.new.seats.items seat).parting }
        ensures says { SaysAt seat self.old.seats.items self.new.seats.items }
        ensures said { (passed : List Passage) → AreSaid passed self.old.seats.items → AreSaid passed self.new.seats.items }
        ensures guests { self.new.guests ≡ self.old.guests }
        ensures time { KeepsTime self.old self.new }
    {
        let number = seat as usize;
        match self.seats.get_mut(number) {
            Some(seat) => {
                if !seat.bot.sits {
                    return true;
                }
                seat.part(parting)
            }
            None => true,
        }
    }

    /// What the bot of a seat asked to be told, and the line that it named; nothing where there is no such seat.
    pub fn asked(&self, seat: u8) -> (Asked, &[u8])
        ensures asked { result.0 ≡ (bot_at self.now.seats.items seat).words.asked }
        ensures named { result.1.now ≡ (bot_at self.now.seats.items seat).words.named }
    {
        match self.seats.get(seat as usize) {
            Some(seat) => (seat.bot.words.asked(), seat.bot.words.named()),
            None => (Asked::Nothing, &[]),
        }
    }

    /// Whether a bot sits at a seat that is told nothing yet, neither lines nor that it is parted from.
    pub fn is_silent(&self, seat: u8) -> bool
        ensures { result ≡ is_silent (bot_at self.now.seats.items seat) }
    {
        match self.seats.get(seat as usize) {
            Some(seat) => {
                seat.bot.sits && seat.bot.telling.is_none() && seat.bot.parting.is_none()
            }
            None => false,
        }
    }

    /// What the bot of a seat was told behind its lines, if it was.
    pub fn parting(&self, seat: u8) -> Option<Parting> {
        match self.seats.get(seat as usize) {
            Some(seat) if seat.bot.sits => seat.bot.parting,
            _ => None,
        }
    }

    /// Whether somebody sits at any seat.
    pub fn is_any_taken(&self) -> bool {
        self.seats.iter().any(|seat| seat.bot.sits)
    }

    /// The place of the line that the bot of a seat is told next, where it is told lines.
    pub fn next_place(&self, seat: u8) -> Option<Cursor>
        ensures next { IfSome result (λ next. IsSomeAnd (bot_at self.now.seats.items seat).telling (λ telling. telling.next ≡ next)) }
        ensures none { result ≡ None → (bot_at self.now.seats.items seat).telling ≡ None }
    {
        let seat = self.seats.get(seat as usize)?;
        match &seat.bot.telling {
            Some(telling) => Some(telling.next()),
            None => None,
        }
    }

    /// How many bytes wait for a seat; 0 where nobody sits.
    pub fn backlog(&self, seat: u8) -> usize
        ensures { result ≡ length (waits_at self.now.seats.items seat) }
    {
        match self.seats.get(seat as usize) {
            Some(seat) => seat.backlog(),
            None => 0,
        }
    }

    /// Lets go of who sits at a seat, if anybody does.
    #[tactic(auto, using(crate::proofs::Telling::said_leaving, crate::proofs::Writing::unsaid_rests))]
    pub fn hang_up<W: Wire>(&mut self, wire: &mut W, seat: u8) -> Option<SeatNotice>
        ensures passed { W.passed wire.new ≡ W.passed wire.old ++ closed_by seat result }
        ensures seats { seats_in (W.passed wire.new) ≡ seats_in (W.passed wire.old) }
        ensures log { logged_in (W.passed wire.new) ≡ logged_in (W.passed wire.old) }
        ensures keeps { KeepsOthers (W.passed wire.old) (W.passed wire.new) }
        ensures unsaid { TellsNoGuest (W.passed wire.old) (W.passed wire.new) }
        ensures guests { self.new.guests ≡ self.old.guests }
        ensures waits { Follows result self.old.seats.items self.new.seats.items }
        ensures sits { Changes result self.old.seats.items self.new.seats.items }
        ensures time { KeepsTime self.old self.new }
        ensures said { AreSaid (W.passed wire.old) self.old.seats.items → AreSaid (W.passed wire.new) self.new.seats.items }
        ensures gone { sits_at self.new.seats.items seat ≡ false }
        ensures others { KeepsOtherBots seat self.old.seats.items self.new.seats.items }
    {
        self.let_go(wire, seat)
    }

    /// Lets go of him, as `hang_up` does.
    #[tactic(auto, using(crate::proofs::Lists::nothing_more, crate::proofs::Writing::rests_same, crate::proofs::Writing::closed_keeps, crate::proofs::Others::keeps_same))]
    fn let_go<W: Wire>(&mut self, wire: &mut W, seat: u8) -> Option<SeatNotice>
        ensures nothing { HearsNothing result }
        ensures guests { self.new.guests ≡ self.old.guests }
        ensures passed { W.passed wire.new ≡ W.passed wire.old ++ closed_by seat result }
        ensures rests { Rests (W.passed wire.old) (W.passed wire.new) }
        ensures keeps { KeepsOthers (W.passed wire.old) (W.passed wire.new) }
        ensures waits { Follows result self.old.seats.items self.new.seats.items }
        ensures sits { Changes result self.old.seats.items self.new.seats.items }
        ensures time { KeepsTime self.old self.new }
        ensures gone { sits_at self.new.seats.items seat ≡ false }
        ensures others { KeepsOtherBots seat self.old.seats.items self.new.seats.items }
    {
        let number = seat;
        match self.seats.get_mut(number as usize) {
            Some(seat) => {
                if seat.bot.sits {
                    Some(seat.leave(wire, number))
                } else {
                    None
                }
            }
            None => None,
        }
    }

    /// Writes what waits for a seat. It answers whether its connection ended, where somebody sits there: then he is let go
    /// of.
    #[tactic(auto, using(crate::proofs::Others::keeps_same, crate::proofs::Others::keeps_on, crate::proofs::Writing::closed_keeps, crate::proofs::Writing::none_to_seats, crate::proofs::Writing::to_seats_on, crate::proofs::Writing::closed_to_seats))]
    fn flush_one<W: Wire>(&mut self, wire: &mut W, number: u8) -> Option<SeatNotice>
        ensures waits { IfSome result (λ notice. waits_at self.new.seats.items (seat_of notice) ≡ []) }
        ensures said { Flushes result self.old.seats.items self.new.seats.items (W.passed wire.old) (W.passed wire.new) }
        ensures sits { Changes result self.old.seats.items self.new.seats.items }
        ensures seats { seats_in (W.passed wire.new) ≡ seats_in (W.passed wire.old) }
        ensures log { logged_in (W.passed wire.new) ≡ logged_in (W.passed wire.old) }
        ensures nothing { HearsNothing result }
        ensures loses { Loses result self.old.seats.items self.new.seats.items (W.passed wire.old) (W.passed wire.new) }
        ensures others { KeepsOthers (W.passed wire.old) (W.passed wire.new) }
        ensures wrote { WritesToSeats (W.passed wire.old) (W.passed wire.new) }
        ensures guests { self.new.guests ≡ self.old.guests }
        ensures time { KeepsTime self.old self.new }
    {
        let seat = self.seats.get_mut(number as usize)?;
        if seat.bot.sits && !seat.flush(wire, number) {
            return Some(seat.leave(wire, number));
        }
        None
    }

    /// Writes what waits for all seats. It answers a seat whose connection ended, if one did: that one is let go of, and
    /// the others behind it are written to by the next call.
    #[tactic(auto, using(crate::proofs::Telling::said_flushed))]
    pub fn flush<W: Wire>(&mut self, wire: &mut W) -> Option<SeatNotice>
        ensures waits { IfSome result (λ notice. waits_at self.new.seats.items (seat_of notice) ≡ []) }
        ensures flushes { Flushes result self.old.seats.items self.new.seats.items (W.passed wire.old) (W.passed wire.new) }
        ensures sits { Changes result self.old.seats.items self.new.seats.items }
        ensures seats { seats_in (W.passed wire.new) ≡ seats_in (W.passed wire.old) }
        ensures log { logged_in (W.passed wire.new) ≡ logged_in (W.passed wire.old) }
        ensures others { KeepsOthers (W.passed wire.old) (W.passed wire.new) }
        ensures wrote { WritesToSeats (W.passed wire.old) (W.passed wire.new) }
        ensures unsaid { TellsNoGuest (W.passed wire.old) (W.passed wire.new) }
        ensures guests { self.new.guests ≡ self.old.guests }
        ensures time { KeepsTime self.old self.new }
        ensures said { AreSaid (W.passed wire.old) self.old.seats.items → AreSaid (W.passed wire.new) self.new.seats.items }
    {
        self.flush_all(wire)
    }

    /// Writes what waits for all seats, as `flush` does.
    #[tactic(auto, using(crate::proofs::Others::keeps_same, crate::proofs::Others::keeps_on, crate::proofs::Writing::none_to_seats, crate::proofs::Writing::to_seats_on))]
    fn flush_all<W: Wire>(&mut self, wire: &mut W) -> Option<SeatNotice>
        ensures waits { IfSome result (λ notice. waits_at self.new.seats.items (seat_of notice) ≡ []) }
        ensures said { Flushes result self.old.seats.items self.new.seats.items (W.passed wire.old) (W.passed wire.new) }
        ensures sits { Changes result self.old.seats.items self.new.seats.items }
        ensures seats { seats_in (W.passed wire.new) ≡ seats_in (W.passed wire.old) }
        ensures log { logged_in (W.passed wire.new) ≡ logged_in (W.passed wire.old) }
        ensures nothing { HearsNothing result }
        ensures loses { Loses result self.old.seats.items self.new.seats.items (W.passed wire.old) (W.passed wire.new) }
        ensures others { KeepsOthers (W.passed wire.old) (W.passed wire.new) }
        ensures wrote { WritesToSeats (W.passed wire.old) (W.passed wire.new) }
        ensures guests { self.new.guests ≡ self.old.guests }
        ensures time { KeepsTime self.old self.new }
    {
        for number in 0..self.count {
            if let Some(notice) = self.flush_one(wire, number) {
                return Some(notice);
            }
        }
        None
    }

    /// Whether somebody sits at a seat who isn't still waiting for the line that he named.
    pub fn is_here(&self, number: usize) -> bool
        ensures { result ≡ is_here_at self.now.seats.items number }
    {
        match self.seats.get(number) {
            Some(seat) => seat.bot.is_here(),
            None => false,
        }
    }

    /// Whether somebody sits at a seat.
    pub fn sits(&self, number: usize) -> bool
        ensures { result ≡ sits_at self.now.seats.items number }
    {
        match self.seats.get(number) {
            Some(seat) => seat.bot.sits,
            None => false,
        }
    }

    /// The seats where somebody sits who isn't still waiting for the line that he named, a bit each, seat 0 the lowest.
    #[tactic(auto, using(crate::proofs::SeatBits::no_bits, crate::proofs::SeatBits::one_more))]
    pub fn bits(&self) -> u16
        ensures { (seat : ℕ) → seat < 16 → bit_at result seat ≡ bit_of (is_here_at self.now.seats.items seat) }
    {
        let mut bits = 0u16;
        for number in 0..16usize {
            bits = with_bit(bits, number, self.is_here(number));
        }
        bits
    }

    /// The seats where somebody sits, a bit each, seat 0 the lowest.
    #[tactic(auto, using(crate::proofs::SeatBits::no_bits, crate::proofs::SeatBits::one_more))]
    pub fn taken_bits(&self) -> u16
        ensures { (seat : ℕ) → seat < 16 → bit_at result seat ≡ bit_of (sits_at self.now.seats.items seat) }
    {
        let mut bits = 0u16;
        for number in 0..16usize {
            bits = with_bit(bits, number, self.sits(number));
        }
        bits
    }
}
