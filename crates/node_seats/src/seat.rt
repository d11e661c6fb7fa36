//! One seat.

ghost use Rattle.std.specs.Prelude.{◌≡◌, ◌++◌, ◌∷◌, ◌+◌, ◌<◌, ◌≤◌, max, ℕ, Bool, [], true, false, IfSome, IsSome, Some, None, length};
ghost use Rattle.node_seats.specs.declared.seat_notice.SeatNotice.TheVariants as notices;
ghost use Rattle.node_wires.specs.declared.line.Line.TheVariants.{Guest as GuestAt, Seat as SeatOf};
ghost use Rattle.node_wires.specs.Passages.{Closed, came_over};
ghost use Rattle.node_seats.specs.Others.{Rests};
ghost use Rattle.node_seats.specs.Passing.{Passed, ReadsSeat, TakesNobody, Grows, seat_of, Leaves};
ghost use Rattle.node_seats.specs.Pieces.{IsPieceOf};
ghost use Rattle.node_seats.specs.Guesting.{ShowsToken, IsToldOf, Passes};
ghost use Rattle.node_seats.specs.Keeping.{LeavesOnly};
ghost use Rattle.node_seats.specs.Seating.{Sits, no_bot, newcomer, gone};
ghost use Rattle.node_seats.specs.Telling.{parting_line, MayPart, Begins, Parts, SaysMore, TellsBot, IsToldAll};
ghost use Rattle.node_seats.specs.Hurrying.{HasTime, Lasts, Hurries};
ghost use Rattle.node_seats.specs.Writing.{Writes};
ghost use Rattle.node_seats.specs.declared.limits.TheConstants.{BACKLOG as MOST};

use crate::bot::{Bot, Parting, Telling, put_line, tell_lines};
use crate::guests::Guests;
use crate::limits::VERSION_TIME;
use crate::seat_notice::SeatNotice;
use byte_queue::ByteQueue;
use line_cursor::{Cursor, SeatLine};
use node_wires::{Halt, Line, Wire};
use slot_log::Table;
use std::alloc::Global;

/// A seat: the bot that sits there, if one does, and what waits for it. Its number is given to calls that have a wire.
#[derive(Drop)]
pub(crate) struct Seat {
    pub(crate) bot: Bot,
    /// When its bot was taken in, until its time for the version is seen to be over.
    since: Option<u64>,
    waiting: ByteQueue,
}

/// Where nothing was written the connection goes on, and no more is to be written now.
fn unless_written(count: usize) -> Option<bool> {
    if count == 0 { Some(true) } else { None }
}

/// Whether a bot that was taken in then has had the time to name the version.
fn is_late(came: u64, now: u64) -> bool
    ensures late { came + VERSION_TIME ≤ now → result ≡ true }
    ensures in_time { now < came + VERSION_TIME → result ≡ false }
{
    now.saturating_sub(came) >= VERSION_TIME
}

/// What a bot is told behind its lines.
fn line_of(parting: Parting) -> &'static [u8]
    ensures { result.now ≡ parting_line parting }
{
    match parting {
        Parting::Over => b"#OVER",
        Parting::Other => b"#OTHER",
        Parting::Wait => b"#WAIT",
    }
}

/// Whether a bot may be told this: that its line is none only where it has named the version and was told no line, and that it is
/// to wait only where it asked from where on it is to be told.
fn may_part(parting: Parting, bot: &Bot) -> bool
    ensures may { result ≡ true → MayPart parting bot.now }
    ensures may_not { result ≡ false → MayPart parting bot.now → ⊥ }
{
    match parting {
        Parting::Over => true,
        Parting::Other => bot.telling.is_none() && bot.words.is_over(),
        Parting::Wait => bot.has_resumed(),
    }
}

impl Seat {
    /// Nobody sits there. It takes no memory.
    pub(crate) fn new(alloc: Global) -> Seat
        ensures sits { result.bot ≡ no_bot }
        ensures waiting { result.waiting.waiting ≡ [] }
    {
        Seat {
            bot: Bot::nobody(),
            since: None,
            waiting: ByteQueue::new(alloc),
        }
    }

    /// From now on the bot that sits there is told the lines of its seat from this place on, where it has named the version, isn't
    /// told lines yet, and isn't parted from.
    #[tactic(auto, using(crate::proofs::Telling::says_nothing, crate::proofs::Telling::says_begun))]
    pub(crate) fn begin(&mut self, at: Cursor)
        ensures begins { Begins at self.old.bot self.new.bot }
        ensures begun { self.old.bot.words.is_over ≡ true → self.old.bot.parting ≡ None → IsSome self.new.bot.telling }
        ensures says { SaysMore self.old.bot self.new.bot self.old.waiting.waiting self.new.waiting.waiting }
        ensures since { self.new.since ≡ self.old.since }
    {
        if !self.bot.words.is_over() || self.bot.telling.is_some() || self.bot.parting.is_some() {
            return;
        }
        self.bot.telling = Some(Telling::new(at));
    }

    /// Tells the bot that sits there the lines of its seat to which the table has come, where it is told lines, as long as few
    /// bytes wait. False without memory for a line: then that one isn't told. The buffer is for these lines, one at a time.
    #[tactic(auto, using(crate::proofs::Telling::says_nothing, crate::proofs::Telling::says_told, crate::proofs::Telling::bot_same, crate::proofs::Telling::bot_told))]
    pub(crate) fn tell(&mut self, line: &mut SeatLine, number: u8, table: &Table) -> bool
        requires seat { number < table.now.game.players }
        requires sits { self.old.bot.sits ≡ true }
        ensures tells { TellsBot table.now number self.old.bot self.new.bot }
        ensures all { result ≡ true → IsToldAll table.now number self.new.bot self.new.waiting.waiting }
        ensures bound { length self.new.waiting.waiting ≤ max (length self.old.waiting.waiting) (MOST + 4098) }
        ensures says { SaysMore self.old.bot self.new.bot self.old.waiting.waiting self.new.waiting.waiting }
        ensures since { self.new.since ≡ self.old.since }
    {
        if self.bot.parting.is_some() {
            return true;
        }
        match &mut self.bot.telling {
            Some(telling) => tell_lines(telling, &mut self.waiting, line, number, table),
            None => true,
        }
    }

    /// Tells the bot that sits there this behind its lines, where it wasn't told so yet; that its line is none only where it was
    /// told no line, and that it is to wait only where it asked from where on it is to be told. False without memory: then it isn't told.
    #[tactic(auto, using(crate::proofs::Telling::says_nothing, crate::proofs::Telling::says_parted))]
    pub(crate) fn part(&mut self, parting: Parting) -> bool
        requires { self.old.bot.sits ≡ true }
        ensures parts { Parts parting self.old.bot self.new.bot }
        ensures parted { result ≡ true → MayPart parting self.old.bot → IsSome self.new.bot.parting }
        ensures says { SaysMore self.old.bot self.new.bot self.old.waiting.waiting self.new.waiting.waiting }
        ensures since { self.new.since ≡ self.old.since }
    {
        if self.bot.parting.is_some() || !may_part(parting, &self.bot) {
            return true;
        }
        if put_line(&mut self.waiting, line_of(parting)).is_err() {
            return false;
        }
        self.bot.parting = Some(parting);
        true
    }

    /// When its bot was taken in, until its time for the version is seen to be over.
    pub(crate) fn since(&self) -> Option<u64>
        ensures { result ≡ self.now.since }
    {
        self.since
    }

    /// How many bytes wait.
    pub(crate) fn backlog(&self) -> usize
        ensures { result ≡ length self.now.waiting.waiting }
    {
        self.waiting.waiting().len()
    }

    /// A bot that came now sits there, and nothing waits for it. A function of its own, since whoever calls one clears the room of
    /// all its variables: so that of the bot that is made here is cleared only where one came.
    fn sit_down(&mut self, now: u64)
        ensures sits { self.new.bot ≡ newcomer }
        ensures since { self.new.since ≡ Some now }
        ensures waiting { self.new.waiting.waiting ≡ [] }
    {
        self.bot = Bot::new();
        self.since = Some(now);
        self.waiting.clear();
    }

    /// Takes in a bot, where nobody sits there and one came.
    #[tactic(auto, using(crate::proofs::Lists::nothing_passed, crate::proofs::Lists::began_passed))]
    fn take_in<W: Wire>(&mut self, wire: &mut W, number: u8, now: u64) -> Option<SeatNotice>
        requires { self.old.bot.sits ≡ false }
        ensures passed { Passed result (W.passed wire.old) (W.passed wire.new) }
        ensures seat { IfSome result (λ notice. seat_of notice ≡ number) }
        ensures piece { (seat most : ℕ) → IsPieceOf seat most result }
        ensures waiting { Leaves result self.old.waiting.waiting self.new.waiting.waiting }
        ensures sits { Sits result self.old.bot self.new.bot }
        ensures since { (greeted : Bool) → Lasts greeted now result self.old.since self.new.since }
    {
        if !wire.accept_seat(number) {
            return None;
        }
        self.sit_down(now);
        Some(SeatNotice::Came { seat: number })
    }

    /// Lets go of who sits there.
    #[tactic(auto, using(crate::proofs::Writing::rests_closed))]
    pub(crate) fn leave<W: Wire>(&mut self, wire: &mut W, number: u8) -> SeatNotice
        ensures passed { W.passed wire.new ≡ W.passed wire.old ++ Closed (SeatOf number) ∷ [] }
        ensures rests { Rests (W.passed wire.old) (W.passed wire.new) }
        ensures gone { result ≡ notices.Gone number }
        ensures sits { self.new.bot ≡ gone self.old.bot }
        ensures since { self.new.since ≡ self.old.since }
        ensures waiting { self.new.waiting.waiting ≡ [] }
    {
        self.bot.sits = false;
        self.waiting.clear();
        wire.close(Line::Seat(number));
        SeatNotice::Gone { seat: number }
    }

    /// Takes the next piece of who sits there, no more than the buffer holds. Without memory for it nothing is read.
    #[tactic(auto, using(crate::proofs::Lists::unread_passed, crate::proofs::Lists::tried_passed, crate::proofs::Lists::piece_passed, crate::proofs::Lists::ended_passed, crate::proofs::Lists::ended_reads))]
    fn take_piece<W: Wire>(
        &mut self,
        alloc: Global,
        buffer: &mut [u8],
        wire: &mut W,
        number: u8,
    ) -> Option<SeatNotice>
        ensures nobody { TakesNobody result }
        ensures passed { Passed result (W.passed wire.old) (W.passed wire.new) }
        ensures read { ReadsSeat number result (W.passed wire.old) (W.passed wire.new) }
        ensures seat { IfSome result (λ notice. seat_of notice ≡ number) }
        ensures piece { IsPieceOf number (length buffer.old) result }
        ensures waiting { Leaves result self.old.waiting.waiting self.new.waiting.waiting }
        ensures sits { Sits result self.old.bot self.new.bot }
        ensures since { self.new.since ≡ self.old.since }
    {
        let Ok(mut bytes) = Vec::with_capacity(alloc, buffer.len()) else {
            return Some(SeatNotice::Unread { seat: number });
        };
        match wire.read(Line::Seat(number), buffer) {
            Ok(count) => {
                bytes.extend_from_slice(&buffer[..count]).unwrap();
                self.bot.words.read(bytes.as_slice());
                Some(SeatNotice::Piece {
                    seat: number,
                    bytes,
                })
            }
            Err(Halt::Later) => None,
            Err(Halt::Ended) => Some(self.leave(wire, number)),
        }
    }

    /// Whether the bot that sits there is to be let go of: it hasn't named the version, and its time for that was over before.
    /// Where it is over only now, what came of the bot is taken once more.
    fn hurry(&mut self, greeted: bool, now: u64) -> bool
        ensures over { greeted ≡ false → self.old.since ≡ None → result ≡ true }
        ensures ends { (came : ℕ) → greeted ≡ false → self.old.since ≡ Some came → came + VERSION_TIME ≤ now → self.new.since ≡ None }
        ensures lasts { HasTime greeted now self.old.since → (result ≡ false) × (self.new.since ≡ self.old.since) }
        ensures sits { self.new.bot ≡ self.old.bot }
        ensures waiting { self.new.waiting ≡ self.old.waiting }
    {
        if greeted {
            return false;
        }
        let Some(came) = self.since else {
            return true;
        };
        if is_late(came, now) {
            self.since = None;
        }
        false
    }

    /// The next piece of who sits there, if anybody does, or his end. Who hasn't named the version in time is let go of.
    #[tactic(auto, using(crate::proofs::Lists::nothing_passed, crate::proofs::Lists::closed_passed, crate::proofs::Lists::closed_reads))]
    pub(crate) fn next_piece<W: Wire>(
        &mut self,
        alloc: Global,
        buffer: &mut [u8],
        wire: &mut W,
        number: u8,
        greeted: bool,
        now: u64,
    ) -> Option<SeatNotice>
        ensures passed { Passed result (W.passed wire.old) (W.passed wire.new) }
        ensures read { self.old.bot.sits ≡ true → ReadsSeat number result (W.passed wire.old) (W.passed wire.new) }
        ensures nobody { TakesNobody result }
        ensures seat { IfSome result (λ notice. seat_of notice ≡ number) }
        ensures piece { IsPieceOf number (length buffer.old) result }
        ensures waiting { Leaves result self.old.waiting.waiting self.new.waiting.waiting }
        ensures sits { Sits result self.old.bot self.new.bot }
        ensures hurries { Hurries greeted now number result self.old self.new }
    {
        if !self.bot.sits {
            return None;
        }
        if self.hurry(greeted, now) {
            let gone = self.leave(wire, number);
            return Some(gone);
        }
        self.take_piece(alloc, buffer, wire, number)
    }

    /// What came of the seat next, if anything did.
    pub(crate) fn next<W: Wire>(
        &mut self,
        alloc: Global,
        buffer: &mut [u8],
        wire: &mut W,
        number: u8,
        greeted: bool,
        now: u64,
    ) -> Option<SeatNotice>
        ensures passed { Passed result (W.passed wire.old) (W.passed wire.new) }
        ensures read { self.old.bot.sits ≡ true → ReadsSeat number result (W.passed wire.old) (W.passed wire.new) }
        ensures seat { IfSome result (λ notice. seat_of notice ≡ number) }
        ensures piece { IsPieceOf number (length buffer.old) result }
        ensures waiting { Leaves result self.old.waiting.waiting self.new.waiting.waiting }
        ensures sits { Sits result self.old.bot self.new.bot }
        ensures hurries { Hurries greeted now number result self.old self.new }
    {
        if self.bot.sits {
            self.next_piece(alloc, buffer, wire, number, greeted, now)
        } else {
            self.take_in(wire, number, now)
        }
    }

    /// Has the guest at a place sit there, who showed this seat's token. Who sits there is let go of before: then the guest is
    /// next. Where the wire fails he is let go of, and nothing is told.
    #[tactic(auto, using(crate::proofs::Coming::gone_passes, crate::proofs::Coming::given_passes, crate::proofs::Coming::heard_passes, crate::proofs::Keeping::stays_same))]
    pub(crate) fn welcome<W: Wire>(
        &mut self,
        guests: &mut Guests,
        wire: &mut W,
        place: u8,
        number: u8,
        now: u64,
    ) -> Option<SeatNotice>
        requires { ShowsToken guests.old.tokens.items number (came_over guests.old.passed.items (GuestAt place)) }
        ensures passes { Passes (Some guests.old.tokens.items) result guests.old.passed.items guests.new.passed.items (W.passed wire.old) (W.passed wire.new) }
        ensures quiet { result ≡ None → Grows guests.old.passed.items guests.new.passed.items (W.passed wire.old) (W.passed wire.new) }
        ensures told { IsToldOf guests.old.tokens.items (came_over guests.new.passed.items (GuestAt place)) result }
        ensures tokens { guests.new.tokens ≡ guests.old.tokens }
        ensures left { LeavesOnly guests.old.guests.items guests.new.guests.items }
        ensures seat { IfSome result (λ notice. seat_of notice ≡ number) }
        ensures waiting { Leaves result self.old.waiting.waiting self.new.waiting.waiting }
        ensures sits { Sits result self.old.bot self.new.bot }
        ensures since { Lasts true now result self.old.since self.new.since }
    {
        if self.bot.sits {
            return Some(self.leave(wire, number));
        }
        if !guests.give(wire, place, number) {
            return None;
        }
        self.sit_down(now);
        Some(SeatNotice::Came { seat: number })
    }

    /// Writes what there is room for of what waits. `None` where more may be written; else whether the connection goes on.
    #[tactic(auto, using(crate::proofs::Writing::nothing_written, crate::proofs::Writing::written_in_vain, crate::proofs::Writing::some_written))]
    fn write_some<W: Wire>(&mut self, wire: &mut W, number: u8) -> Option<bool>
        ensures wrote { Writes number self.old.waiting.waiting self.new.waiting.waiting (W.passed wire.old) (W.passed wire.new) }
        ensures sits { self.new.bot ≡ self.old.bot }
        ensures since { self.new.since ≡ self.old.since }
    {
        let bytes = self.waiting.waiting();
        if bytes.is_empty() {
            return Some(true);
        }
        match wire.write(Line::Seat(number), bytes) {
            Ok(count) => {
                self.waiting.skip(count);
                unless_written(count)
            }
            Err(Halt::Later) => Some(true),
            Err(Halt::Ended) => Some(false),
        }
    }

    /// Writes what waits. False where the connection ended.
    #[tactic(auto, using(crate::proofs::Writing::nothing_written, crate::proofs::Writing::written_on))]
    pub(crate) fn flush<W: Wire>(&mut self, wire: &mut W, number: u8) -> bool
        ensures wrote { Writes number self.old.waiting.waiting self.new.waiting.waiting (W.passed wire.old) (W.passed wire.new) }
        ensures sits { self.new.bot ≡ self.old.bot }
        ensures since { self.new.since ≡ self.old.since }
    {
        for _ in 0..u64::MAX {
            if let Some(goes_on) = self.write_some(wire, number) {
                return goes_on;
            }
        }
        true
    }
}
