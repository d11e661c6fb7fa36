//! The bot of a seat.

use std::alloc::{AllocError, Global};

/// What a bot sends first.
const VERSION: &[u8] = b"VERSION:2.0.0\r\n";

/// A bot that wasn't taken in after so long dials the next node.
pub const UNANSWERED: u64 = 500_000;

/// A bot whose connection ended dials again after so long.
const DIALS_AGAIN: u64 = 20_000;

/// A bot to which nothing came for so long says that it calls, or where no line came yet a comment.
const SAYS_AGAIN: u64 = 1_000_000;

/// What a bot asks for where a connection begins.
#[derive(Clone, Copy, Debug, PartialEq, Eq)]
pub enum Wish {
    /// It says nothing of it.
    Nothing,
    /// The newest line, and each further one.
    Newest,
    /// All lines, and from its second connection on the last line that it was given and all behind it.
    All,
}

/// How a bot plays.
#[derive(Clone, Copy, Debug)]
pub struct Habits {
    pub seat: u8,
    /// How long it thinks.
    pub thinks: u64,
    /// What it does: 0 calls, 1 folds, 2 all, 3 also what isn't right, 4 all but raises of an amount.
    pub mix: u64,
    pub seed: u64,
    /// It dials the same node again.
    pub stays: bool,
    /// The digit of which the token is that it shows, if it shows one.
    pub token: Option<u8>,
    pub wish: Wish,
}

/// A bot: it dials one node after another until one keeps it, and answers the last line that came by an action, whether it is
/// to act or not.
#[derive(Drop)]
pub struct Bot {
    pub habits: Habits,
    /// The node that it dials.
    pub at: u8,
    pub connection: Option<u32>,
    /// Its dial was answered.
    pub is_open: bool,
    /// It says nothing more by this connection.
    is_hushed: bool,
    /// When it does something next.
    pub wake: u64,
    /// What came and is no whole line yet.
    told: Vec<u8>,
    /// The last whole line that came by this connection.
    line: Vec<u8>,
    /// The last whole line that came at all; kept if it wishes for all.
    given: Vec<u8>,
    /// It answered that line.
    has_answered: bool,
}

/// The next of a row of numbers that look drawn.
pub fn drawn(seed: &mut u64) -> u64 {
    *seed = seed
        .wrapping_mul(6_364_136_223_846_793_005)
        .wrapping_add(1_442_695_040_888_963_407);
    *seed >> 33
}

/// A call, and behind it a line that is no answer to any of the dealer's: one with too few fields, or one whose position, betting or
/// cards are none.
fn wrong_line(number: u64) -> &'static [u8] {
    match number {
        7 => b"c\r\nMATCHSTATE:0:0::\r\n#",
        8 => b"c\r\nMATCHSTATE:9:0:::c\r\n#",
        9 => b"c\r\nMATCHSTATE:0:0:z::c\r\n#",
        _ => b"c\r\nMATCHSTATE:0:0::Xx|:c\r\n#",
    }
}

impl Bot {
    /// A bot that dials this node next, at this moment.
    pub fn new(alloc: Global, habits: Habits, at: u8, now: u64) -> Bot {
        Bot {
            habits,
            at,
            connection: None,
            is_open: false,
            is_hushed: false,
            wake: now,
            told: Vec::new(alloc),
            line: Vec::new(alloc),
            given: Vec::new(alloc),
            has_answered: false,
        }
    }

    /// Its connection ended, or comes to nothing: it dials again, the next of so many nodes.
    pub fn lose(&mut self, nodes: u8, now: u64) {
        self.connection = None;
        self.is_open = false;
        self.is_hushed = false;
        self.told.clear();
        self.line.clear();
        self.wake = now.saturating_add(DIALS_AGAIN);
        if !self.habits.stays {
            let next = self.at.saturating_add(1);
            self.at = if next < nodes { next } else { 0 };
        }
    }

    /// It dials by this connection.
    pub fn dial(&mut self, connection: u32, now: u64) {
        self.connection = Some(connection);
        self.is_open = false;
        self.wake = now.saturating_add(UNANSWERED);
    }

    /// Whether its connection is of no use to it: its dial isn't answered, or it can say nothing more.
    pub fn is_stuck(&self) -> bool {
        !self.is_open || self.is_hushed
    }

    /// It says nothing more by its connection, which is answered, and gives it up after a while. The connection's number, where
    /// it has one.
    pub fn hush(&mut self, now: u64) -> Option<u32> {
        if self.is_stuck() {
            return None;
        }
        self.is_hushed = true;
        self.wake = now.saturating_add(SAYS_AGAIN);
        self.connection
    }

    /// Its dial was answered: what it says.
    pub fn open(&mut self, alloc: Global, now: u64) -> Result<Vec<u8>, AllocError> {
        self.is_open = true;
        self.wake = now.saturating_add(SAYS_AGAIN);
        let mut said = Vec::new(alloc);
        if let Some(digit) = self.habits.token {
            said.extend_from_slice(b"#TOKEN ")?;
            said.extend_from_slice(&[digit; 64])?;
            said.push(b'\n')?;
        }
        self.put_wish(&mut said)?;
        said.extend_from_slice(VERSION)?;
        Ok(said)
    }

    /// Says from which line on it is to be told.
    fn put_wish(&self, said: &mut Vec<u8>) -> Result<(), AllocError> {
        match self.habits.wish {
            Wish::Nothing => return Ok(()),
            Wish::Newest => said.extend_from_slice(b"#RESUME NEWEST")?,
            Wish::All => {
                said.extend_from_slice(b"#RESUME ")?;
                let from: &[u8] = if self.given.is_empty() {
                    b"FIRST"
                } else {
                    &self.given
                };
                said.extend_from_slice(from)?;
            }
        }
        said.extend_from_slice(b"\r\n")
    }

    /// A whole line came. One that begins with `#` isn't one of the dealer's.
    fn take_line(&mut self, now: u64) -> Result<(), AllocError> {
        if self.told.starts_with(b"#") {
            self.told.clear();
            return Ok(());
        }
        std::mem::swap(&mut self.line, &mut self.told);
        self.told.clear();
        if self.habits.wish == Wish::All {
            self.given.clear();
            self.given.extend_from_slice(&self.line)?;
        }
        self.has_answered = false;
        if !self.is_hushed {
            self.wake = now.saturating_add(self.habits.thinks);
        }
        Ok(())
    }

    /// These bytes came.
    pub fn hear(&mut self, bytes: &[u8], now: u64) -> Result<(), AllocError> {
        for byte in bytes {
            if *byte == b'\n' {
                self.take_line(now)?;
            } else if *byte != b'\r' {
                self.told.push(*byte)?;
            }
        }
        Ok(())
    }

    /// What it answers to the last line.
    pub fn answer(&mut self, alloc: Global, now: u64) -> Result<Vec<u8>, AllocError> {
        let mut said = Vec::new(alloc);
        self.wake = now.saturating_add(SAYS_AGAIN);
        if self.line.is_empty() {
            said.extend_from_slice(b"#\r\n")?;
            return Ok(said);
        }
        said.extend_from_slice(&self.line)?;
        said.push(b':')?;
        if self.has_answered {
            said.push(b'c')?;
        } else {
            self.put_action(alloc, &mut said)?;
        }
        said.extend_from_slice(b"\r\n")?;
        self.has_answered = true;
        Ok(said)
    }

    fn put_action(&mut self, alloc: Global, said: &mut Vec<u8>) -> Result<(), AllocError> {
        let number = drawn(&mut self.habits.seed) % 16;
        let amount = drawn(&mut self.habits.seed);
        match self.habits.mix {
            0 => said.push(b'c')?,
            1 => said.push(b'f')?,
            _ => match number {
                0 | 1 => said.push(b'f')?,
                2 | 3 => said.push(b'r')?,
                4 if self.habits.mix != 4 => {
                    let raise = amount % 20_000;
                    let text = format!(in alloc; "r{raise}")?;
                    said.extend_from_slice(text.as_bytes())?;
                }
                6 if self.habits.mix == 3 => said.extend_from_slice(b"x")?,
                7..=10 if self.habits.mix == 3 => said.extend_from_slice(wrong_line(number))?,
                _ => said.push(b'c')?,
            },
        }
        Ok(())
    }
}
