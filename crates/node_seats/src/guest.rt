//! One who came to a seat's port where tokens are wanted.

ghost use Rattle.std.specs.Prelude.{◌≡◌, ◌+◌, ◌<◌, ◌≤◌, ◌↔◌, ℕ, List, ◌++◌, length, IsTrue, true, false, [], None, Some};
ghost use Rattle.arrayvec.specs.ArrayVec.{array_vec_len};
ghost use Rattle.node_seats.specs.Tokens.{IsTokenLine, begins_well, is_whole, is_open};
ghost use Rattle.node_seats.specs.Passing.{Grows};
ghost use Rattle.node_seats.specs.Guesting.{IsHeard, Hears, ShowsToken, IsFound};
ghost use Rattle.node_seats.specs.Keeping.{IsLeftBy};

use crate::limits::{TOKEN_LINE, TOKEN_TIME};
use crate::token_digest::{TokenDigest, begins_well, has_end, shows_token};
use arrayvec::ArrayVec;
use node_wires::{Halt, Line, Passages, Way, Wire};

/// The bytes of the shortest line that shows a token: LF ends it.
const SHORTEST: usize = TOKEN_LINE - 1;

/// One who came to a seat's port and hasn't shown its token yet.
#[derive(Drop)]
pub(crate) struct Guest {
    /// The seat to whose port he came.
    seat: u8,
    /// When he came.
    came: u64,
    /// What came of his line.
    line: ArrayVec<u8, TOKEN_LINE>,
}

/// What is found of a guest.
#[derive(Clone, Copy, Debug, PartialEq, Eq)]
pub(crate) enum Found {
    /// He said nothing wrong so far, or nobody is there.
    Nothing,
    /// He is to be let go of: what he said shows no token, or he said too little in his time, or ended.
    Refused { seat: u8 },
    /// He showed the token of the seat to whose port he came.
    Shown { seat: u8 },
}

/// Whether one who came then has had the time for his line.
fn is_late(came: u64, now: u64) -> bool
    ensures late { came + TOKEN_TIME ≤ now → result ≡ true }
    ensures in_time { now < came + TOKEN_TIME → result ≡ false }
{
    now.saturating_sub(came) >= TOKEN_TIME
}

impl Guest {
    /// One who came to the port of this seat at this moment.
    pub(crate) fn new(seat: u8, now: u64) -> Guest
        ensures { result.line.items ≡ [] }
    {
        Guest {
            seat,
            came: now,
            line: ArrayVec::new(),
        }
    }

    /// Whether his line came to its end, or is too long.
    #[tactic(auto, using(crate::proofs::Tokens::ends_line))]
    fn is_whole(&self) -> bool
        ensures whole { result ≡ is_whole self.now.line.items }
        ensures room { result ≡ false → array_vec_len self.now.line < TOKEN_LINE }
        ensures shown { (digest : List ℕ) → IsTokenLine digest self.now.line.items → result ≡ true }
    {
        self.line.is_full() || has_end(self.line.as_slice())
    }

    /// Whether what came of his line shows the token of his seat.
    #[tactic(auto, using(crate::proofs::Guesting::shows_by))]
    fn shows(&self, tokens: &[TokenDigest]) -> bool
        ensures { IsTrue result ↔ ShowsToken tokens.now self.now.seat self.now.line.items }
    {
        match tokens.get(self.seat as usize) {
            Some(digest) => shows_token(self.line.as_slice(), digest),
            None => false,
        }
    }

    /// These bytes more came of his line.
    fn add(&mut self, bytes: &[u8])
        requires { array_vec_len self.old.line + length bytes.now ≤ TOKEN_LINE }
        ensures line { self.new.line.items ≡ self.old.line.items ++ bytes.now }
        ensures seat { self.new.seat ≡ self.old.seat }
    {
        self.line.try_extend_from_slice(bytes).unwrap();
    }

    /// Whether what came of his line begins as a line does that shows a token.
    fn begins_well(&self) -> bool
        ensures { result ≡ begins_well self.now.line.items }
    {
        begins_well(self.line.as_slice())
    }

    /// Whether he said nothing wrong so far, and his line isn't whole yet.
    pub(crate) fn is_open(&self) -> bool
        ensures { result ≡ is_open self.now.line.items }
    {
        self.begins_well() && !self.is_whole()
    }

    /// The seat to whose port he came.
    pub(crate) fn seat(&self) -> u8
        ensures { result ≡ self.now.seat }
    {
        self.seat
    }
}

/// How many bytes behind so many of a line may be read at once, so that nothing behind a right line is: what the shortest one
/// lacks, and behind that one.
fn lacking(count: usize) -> usize
    requires { count < TOKEN_LINE }
    ensures { count + result ≤ TOKEN_LINE }
{
    if count < SHORTEST {
        SHORTEST - count
    } else {
        1
    }
}

/// Reads the next piece of a guest's line, no more than the buffer holds.
#[tactic(auto, using(crate::proofs::Passing::halted_grown, crate::proofs::Passing::one_grown, crate::proofs::Guesting::hears_halted, crate::proofs::Guesting::hears_piece))]
fn read_into<W: Wire>(
    guest: &mut Guest,
    passed: &mut Passages,
    wire: &mut W,
    place: u8,
    buffer: &mut [u8],
) -> Result<(), Halt>
    requires { array_vec_len guest.old.line + length buffer.old ≤ TOKEN_LINE }
    ensures grows { Grows passed.old.items passed.new.items (W.passed wire.old) (W.passed wire.new) }
    ensures hears { Hears place (Some guest.old) (Some guest.new) passed.old.items passed.new.items }
    ensures seat { guest.new.seat ≡ guest.old.seat }
{
    match wire.read(Line::Guest(place), buffer) {
        Ok(count) => {
            passed.came(Line::Guest(place), &buffer[..count]);
            guest.add(&buffer[..count]);
            Ok(())
        }
        Err(halt) => {
            passed.halted(Line::Guest(place), Way::Reading, halt);
            Err(halt)
        }
    }
}

/// Reads the next piece of a guest's line, so that nothing behind its end is taken.
fn read_piece<W: Wire>(
    guest: &mut Guest,
    passed: &mut Passages,
    wire: &mut W,
    place: u8,
) -> Result<(), Halt>
    requires { array_vec_len guest.old.line < TOKEN_LINE }
    ensures grows { Grows passed.old.items passed.new.items (W.passed wire.old) (W.passed wire.new) }
    ensures hears { Hears place (Some guest.old) (Some guest.new) passed.old.items passed.new.items }
    ensures seat { guest.new.seat ≡ guest.old.seat }
{
    let mut buffer = [0; TOKEN_LINE];
    let most = lacking(guest.line.len());
    read_into(guest, passed, wire, place, &mut buffer[..most])
}

/// Reads what came of a guest's line, so that nothing behind its end is taken where it is right. False where nothing more comes.
#[tactic(auto, using(crate::proofs::Passing::nothing_grown, crate::proofs::Passing::grown_on, crate::proofs::Guesting::hears_alike, crate::proofs::Guesting::hears_on))]
fn read_line<W: Wire>(guest: &mut Guest, passed: &mut Passages, wire: &mut W, place: u8) -> bool
    ensures grows { Grows passed.old.items passed.new.items (W.passed wire.old) (W.passed wire.new) }
    ensures hears { Hears place (Some guest.old) (Some guest.new) passed.old.items passed.new.items }
    ensures seat { guest.new.seat ≡ guest.old.seat }
{
    for _ in 0..TOKEN_LINE {
        if guest.is_whole() || !guest.begins_well() {
            return true;
        }
        match read_piece(guest, passed, wire, place) {
            Ok(()) => {}
            Err(Halt::Later) => return true,
            Err(Halt::Ended) => return false,
        }
    }
    true
}

/// Hears a guest at this moment.
#[tactic(auto, using(crate::proofs::Passing::nothing_grown, crate::proofs::Guesting::hears_alike, crate::proofs::Guesting::hears_on, crate::proofs::Keeping::shown_by, crate::proofs::Keeping::open_by))]
fn hear<W: Wire>(
    guest: &mut Guest,
    tokens: &[TokenDigest],
    passed: &mut Passages,
    wire: &mut W,
    place: u8,
    now: u64,
) -> Found
    ensures grows { Grows passed.old.items passed.new.items (W.passed wire.old) (W.passed wire.new) }
    ensures hears { Hears place (Some guest.old) (Some guest.new) passed.old.items passed.new.items }
    ensures found { IsFound tokens.now guest.new.line.items result }
    ensures left { IsLeftBy tokens.now result (Some guest.new) }
{
    let goes_on = read_line(guest, passed, wire, place);
    if guest.is_whole() {
        if guest.shows(tokens) {
            return Found::Shown { seat: guest.seat };
        }
        return Found::Refused { seat: guest.seat };
    }
    if goes_on && guest.begins_well() && !is_late(guest.came, now) {
        return Found::Nothing;
    }
    Found::Refused { seat: guest.seat }
}

/// Hears who stands at a place at this moment, if anybody does.
#[tactic(auto, using(crate::proofs::Passing::nothing_grown, crate::proofs::Guesting::hears_nobody, crate::proofs::Guesting::found_of))]
pub(crate) fn hear_at<W: Wire>(
    guest: &mut Option<Guest>,
    tokens: &[TokenDigest],
    passed: &mut Passages,
    wire: &mut W,
    place: u8,
    now: u64,
) -> Found
    ensures grows { Grows passed.old.items passed.new.items (W.passed wire.old) (W.passed wire.new) }
    ensures hears { Hears place guest.old guest.new passed.old.items passed.new.items }
    ensures found { (came : List ℕ) → IsHeard came guest.new → IsFound tokens.now came result }
    ensures left { IsLeftBy tokens.now result guest.new }
{
    let Some(standing) = guest else {
        return Found::Nothing;
    };
    hear(standing, tokens, passed, wire, place, now)
}
