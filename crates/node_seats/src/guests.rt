//! Those who came to the ports of seats where tokens are wanted.

ghost use Rattle.std.specs.Prelude.{◌≡◌, ℕ, List, [], ◌∷◌, ◌++◌, true, false, IfOk, IfSome, None, Some};
ghost use Rattle.node_wires.specs.declared.line.Line.TheVariants.{Guest as GuestAt};
ghost use Rattle.node_wires.specs.Passages.{Passage, Began, Gave, came_over};
ghost use Rattle.node_seats.specs.Passing.{Grows};
ghost use Rattle.node_seats.specs.Guesting.{AreHeard, are_heard_prop, HeardThrough, IsFound};
ghost use Rattle.node_seats.specs.Keeping.{stands_at, waits_for, KeepsBut, LeavesOnly, LeavesOthers, IsLeftBy, WaitsAlone};

use crate::guest::{Found, Guest, hear_at};
use crate::token_digest::TokenDigest;
use node_wires::limits::{GUESTS, ORDINARY};
use node_wires::{Line, Passages, Wire};
use std::alloc::{AllocError, Global};

/// Those who came to the ports of seats and don't sit yet. Who has shown the token of his seat waits, one a seat.
#[derive(Drop)]
pub(crate) struct Guests {
    /// Of each seat, by its number.
    tokens: Vec<TokenDigest>,
    /// By the places of their lines.
    guests: Vec<Option<Guest>>,
    /// What passed over these lines, for clauses alone.
    passed: Passages,
    ghost heard: { AreHeard passed.items guests.items } by { are_heard_prop passed.items guests.items },
}

/// Nobody stands at any place.
fn no_guests(alloc: Global) -> Result<Vec<Option<Guest>>, AllocError>
    ensures { IfOk result (λ guests. (passed : List Passage) → AreHeard passed guests.items) }
{
    let mut guests = Vec::with_capacity(alloc, GUESTS)?;
    for _ in 0..GUESTS {
        guests.push(None)?;
    }
    Ok(guests)
}

/// Puts one who came at the place of his line, if there is such a place.
#[tactic(auto, using(crate::proofs::Keeping::but_set, crate::proofs::Keeping::but_same))]
fn put(guests: &mut Vec<Option<Guest>>, place: u8, guest: Guest)
    requires { guest.line.items ≡ [] }
    ensures heard { (old new : List Passage) → new ≡ old ++ Began (GuestAt place) ∷ [] → HeardThrough old new guests.old.items guests.new.items }
    ensures kept { KeepsBut place guests.old.items guests.new.items }
{
    let place = place as usize;
    if place < guests.len() {
        guests[place] = Some(guest);
    }
}

/// Nobody stands any more at a place whose line was given to a seat, or whose connection was closed.
#[tactic(auto, using(crate::proofs::Keeping::cleared_here, crate::proofs::Keeping::cleared_elsewhere, crate::proofs::Keeping::nobody_behind, crate::proofs::Keeping::leaves_of))]
fn clear(guests: &mut Vec<Option<Guest>>, place: u8)
    ensures given { (old new : List Passage) (seat : ℕ) → new ≡ old ++ Gave place seat ∷ [] → HeardThrough old new guests.old.items guests.new.items }
    ensures closed { (passed : List Passage) → HeardThrough passed passed guests.old.items guests.new.items }
    ensures gone { stands_at guests.new.items place ≡ None }
    ensures others { LeavesOthers place guests.old.items guests.new.items }
{
    let place = place as usize;
    if place < guests.len() {
        guests[place] = None;
    }
}

/// Hears who stands at a place, if anybody does.
#[tactic(auto, using(crate::proofs::Passing::nothing_grown, crate::proofs::Keeping::but_set, crate::proofs::Keeping::but_same, crate::proofs::Keeping::left_set, crate::proofs::Keeping::left_nobody))]
fn hear_in<W: Wire>(
    guests: &mut Vec<Option<Guest>>,
    tokens: &[TokenDigest],
    passed: &mut Passages,
    wire: &mut W,
    place: u8,
    now: u64,
) -> Found
    ensures grows { Grows passed.old.items passed.new.items (W.passed wire.old) (W.passed wire.new) }
    ensures heard { HeardThrough passed.old.items passed.new.items guests.old.items guests.new.items }
    ensures found { AreHeard passed.new.items guests.new.items → IsFound tokens.now (came_over passed.new.items (GuestAt place)) result }
    ensures left { IsLeftBy tokens.now result (stands_at guests.new.items place) }
    ensures kept { KeepsBut place guests.old.items guests.new.items }
{
    match guests.get_mut(place as usize) {
        Some(guest) => hear_at(guest, tokens, passed, wire, place, now),
        None => Found::Nothing,
    }
}

/// Whether who stands at a place waits for a seat.
fn waits_for(guests: &[Option<Guest>], place: u8, seat: u8) -> bool
    ensures { result ≡ waits_for seat (stands_at guests.now place) }
{
    match guests.get(place as usize) {
        Some(Some(guest)) => guest.seat() == seat && !guest.is_open(),
        Some(None) => false,
        None => false,
    }
}

impl Guests {
    /// Nobody is there, and nothing passed.
    pub(crate) fn new(alloc: Global, tokens: Vec<TokenDigest>) -> Result<Guests, AllocError>
        ensures tokens { IfOk result (λ guests. guests.tokens.items ≡ tokens.items) }
        ensures passed { IfOk result (λ guests. guests.passed.items ≡ []) }
    {
        let guests = no_guests(alloc)?;
        Ok(Guests {
            tokens,
            guests,
            passed: Passages::new(),
        })
    }

    /// Takes in the next one who came to a seat's port, if there is one, and answers his place, and the seat of who made room
    /// for him there, if anybody did.
    pub(crate) fn accept<W: Wire>(
        &mut self,
        wire: &mut W,
        seat: u8,
        now: u64,
    ) -> Option<(u8, Option<u8>)>
        ensures grows { Grows self.old.passed.items self.new.passed.items (W.passed wire.old) (W.passed wire.new) }
        ensures tokens { self.new.tokens ≡ self.old.tokens }
        ensures kept { IfSome result (λ taken. KeepsBut taken.0 self.old.guests.items self.new.guests.items) }
        ensures nobody { result ≡ None → (self.new.guests ≡ self.old.guests) × ((self.new.passed ≡ self.old.passed) × (W.passed wire.new ≡ W.passed wire.old)) }
    {
        let place = wire.accept_guest(seat)?;
        let made_room = self.seat_at(place);
        self.passed.began(Line::Guest(place));
        put(&mut self.guests, place, Guest::new(seat, now));
        Some((place, made_room))
    }

    /// Hears who stands at a place, if anybody does.
    pub(crate) fn hear<W: Wire>(&mut self, wire: &mut W, place: u8, now: u64) -> Found
        ensures grows { Grows self.old.passed.items self.new.passed.items (W.passed wire.old) (W.passed wire.new) }
        ensures tokens { self.new.tokens ≡ self.old.tokens }
        ensures found { IsFound self.old.tokens.items (came_over self.new.passed.items (GuestAt place)) result }
        ensures left { IsLeftBy self.old.tokens.items result (stands_at self.new.guests.items place) }
        ensures kept { KeepsBut place self.old.guests.items self.new.guests.items }
    {
        hear_in(
            &mut self.guests,
            self.tokens.as_slice(),
            &mut self.passed,
            wire,
            place,
            now,
        )
    }

    /// Lets go of who stands at a place, if anybody does.
    #[tactic(auto, using(crate::proofs::Passing::closed_grown, crate::proofs::Guesting::came_closed))]
    pub(crate) fn dismiss<W: Wire>(&mut self, wire: &mut W, place: u8)
        ensures grows { Grows self.old.passed.items self.new.passed.items (W.passed wire.old) (W.passed wire.new) }
        ensures came { (at : ℕ) → came_over self.new.passed.items (GuestAt at) ≡ came_over self.old.passed.items (GuestAt at) }
        ensures tokens { self.new.tokens ≡ self.old.tokens }
        ensures gone { stands_at self.new.guests.items place ≡ None }
        ensures others { LeavesOthers place self.old.guests.items self.new.guests.items }
    {
        wire.close(Line::Guest(place));
        self.passed.closed(Line::Guest(place));
        clear(&mut self.guests, place);
    }

    /// The seat to whose port the one came who stands at a place, if anybody does.
    fn seat_at(&self, place: u8) -> Option<u8> {
        match self.guests.get(place as usize) {
            Some(Some(guest)) => Some(guest.seat()),
            _ => None,
        }
    }

    /// Whether who stands at a place hasn't shown a token yet.
    fn is_open(&self, place: u8) -> bool {
        match self.guests.get(place as usize) {
            Some(Some(guest)) => guest.is_open(),
            _ => false,
        }
    }

    /// Lets go of who stands at a place of one seat alone and hasn't shown its token: it is only for who has. It says whether one
    /// was.
    /// Nothing was to be told of him, where this says so; else all stays.
    #[tactic(auto, using(crate::proofs::Passing::nothing_grown, crate::proofs::Keeping::stays_same, crate::proofs::Keeping::leaves_of))]
    pub(crate) fn turn_away<W: Wire>(&mut self, wire: &mut W, place: u8, is_quiet: bool) -> bool
        ensures quiet { result ≡ true → is_quiet ≡ true }
        ensures passed { result ≡ false → self.new.passed ≡ self.old.passed }
        ensures wired { result ≡ false → W.passed wire.new ≡ W.passed wire.old }
        ensures grows { Grows self.old.passed.items self.new.passed.items (W.passed wire.old) (W.passed wire.new) }
        ensures tokens { self.new.tokens ≡ self.old.tokens }
        ensures left { LeavesOnly self.old.guests.items self.new.guests.items }
    {
        if !is_quiet || (place as usize) < ORDINARY || !self.is_open(place) {
            return false;
        }
        self.dismiss(wire, place);
        true
    }

    /// Whether who stands at a place waits for a seat, whose token he showed.
    fn waits(&self, place: u8, seat: u8) -> bool
        ensures { result ≡ waits_for seat (stands_at self.now.guests.items place) }
    {
        waits_for(&self.guests, place, seat)
    }

    /// Lets go of whoever else waits for the seat whose token the guest at a place showed. He is known from now on, so he makes
    /// room for nobody.
    #[tactic(auto, using(crate::proofs::Passing::nothing_grown, crate::proofs::Passing::grown_on, crate::proofs::Keeping::stays_same, crate::proofs::Keeping::leaves_of, crate::proofs::Keeping::leaves_on))]
    pub(crate) fn prefer<W: Wire>(&mut self, wire: &mut W, place: u8, seat: u8)
        ensures grows { Grows self.old.passed.items self.new.passed.items (W.passed wire.old) (W.passed wire.new) }
        ensures came { (at : ℕ) → came_over self.new.passed.items (GuestAt at) ≡ came_over self.old.passed.items (GuestAt at) }
        ensures tokens { self.new.tokens ≡ self.old.tokens }
        ensures here { stands_at self.new.guests.items place ≡ stands_at self.old.guests.items place }
        ensures left { LeavesOnly self.old.guests.items self.new.guests.items }
        ensures alone { WaitsAlone seat place self.new.guests.items }
    {
        wire.know(Line::Guest(place));
        for other in 0..GUESTS as u8 {
            if other != place && self.waits(other, seat) {
                self.dismiss(wire, other);
            }
        }
    }

    /// Gives the line of the guest at a place to the seat whose token he showed. False where that fails: then he is let go of.
    #[tactic(auto, using(crate::proofs::Keeping::stays_same, crate::proofs::Keeping::leaves_of))]
    pub(crate) fn give<W: Wire>(&mut self, wire: &mut W, place: u8, seat: u8) -> bool
        ensures given { result ≡ true → self.new.passed.items ≡ self.old.passed.items ++ Gave place seat ∷ [] }
        ensures wired { result ≡ true → W.passed wire.new ≡ W.passed wire.old ++ Gave place seat ∷ [] }
        ensures failed { result ≡ false → Grows self.old.passed.items self.new.passed.items (W.passed wire.old) (W.passed wire.new) }
        ensures tokens { self.new.tokens ≡ self.old.tokens }
        ensures left { LeavesOnly self.old.guests.items self.new.guests.items }
    {
        if !wire.seat_guest(place, seat) {
            self.dismiss(wire, place);
            return false;
        }
        self.passed.gave(place, seat);
        clear(&mut self.guests, place);
        true
    }
}
