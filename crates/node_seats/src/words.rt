//! What a bot says before it names the version: from which line on it asks to be told.

ghost use Rattle.std.specs.Prelude.{◌≡◌, [], false, option_map};
ghost use Rattle.arrayvec.specs.ArrayVec.{array_vec_len};
ghost use Rattle.node_seats.specs.Words.{text_of, is_skipped, word_of, asked_by, fresh, with_asked, with_line, with_byte, with_bytes};
ghost use Rattle.node_seats.specs.declared.words.Asked.TheVariants.{Nothing as NothingAsked};

use crate::limits::WORDS;
use arrayvec::ArrayVec;
use std::marker::Model;

/// From which line on a bot asks to be told.
#[derive(Clone, Copy, Debug, PartialEq, Eq)]
pub enum Asked {
    /// It didn't say.
    Nothing,
    /// From the first deal on.
    First,
    /// From the newest line on.
    Newest,
    /// From the line on that it named.
    Line,
    /// It asked more than once, or by a line that is too long.
    Other,
}

/// Reads what a bot says before it names the version: lines that begin with `#` or `;`, of which `#RESUME ` asks from where on
/// it is to be told. Behind the first other line nothing is read.
#[derive(Drop)]
pub(crate) struct Words {
    /// What came of the line that hasn't come to its end.
    line: ArrayVec<u8, WORDS>,
    /// The line that was named.
    named: ArrayVec<u8, WORDS>,
    asked: Asked,
    /// A line came that isn't skipped, or one that is too long.
    is_over: bool,
}

/// A line without a carriage return at its end.
fn text_of(line: &[u8]) -> &[u8]
    ensures { result.now ≡ text_of line.now }
{
    let len = line.len();
    if len > 0 && line[len - 1] == b'\r' {
        &line[..len - 1]
    } else {
        line
    }
}

/// Whether a line with this text is skipped.
fn is_skipped(text: &[u8]) -> bool
    ensures { result ≡ is_skipped text.now }
{
    matches!(text, [b'#' | b';', ..])
}

/// The word behind `#RESUME `.
fn word_of(text: &[u8]) -> Option<&[u8]>
    ensures { option_map (λ word. word.now) result ≡ word_of text.now }
{
    text.strip_prefix(b"#RESUME ")
}

/// From which line on a word asks.
fn asked_by(word: &[u8]) -> Asked
    ensures { result ≡ asked_by word.now }
{
    if word == b"FIRST".as_slice() {
        Asked::First
    } else if word == b"NEWEST".as_slice() {
        Asked::Newest
    } else {
        Asked::Line
    }
}

impl Model for Words {
    ghost use Rattle.node_seats.specs.Words.{Reading};

    ghost Value = { Reading };

    ghost view = { λ words. record { line = words.line.items; named = words.named.items; asked = words.asked; is_over = words.is_over } };
}

impl Words {
    /// Nothing came yet.
    pub(crate) fn new() -> Words
        ensures { result ≡ fresh }
    {
        Words {
            line: ArrayVec::new(),
            named: ArrayVec::new(),
            asked: Asked::Nothing,
            is_over: false,
        }
    }

    /// From which line on the bot asks to be told.
    pub(crate) fn asked(&self) -> Asked
        ensures { result ≡ self.now.asked }
    {
        self.asked
    }

    /// The line that it named, without its end.
    pub(crate) fn named(&self) -> &[u8]
        ensures { result.now ≡ self.now.named }
    {
        self.named.as_slice()
    }

    /// It asks by a word: a second time is one too many.
    fn ask(&mut self)
        ensures { self.new ≡ with_asked self.old }
    {
        let text = text_of(self.line.as_slice());
        let Some(word) = word_of(text) else {
            return;
        };
        if self.asked != Asked::Nothing {
            self.asked = Asked::Other;
            return;
        }
        let asked = asked_by(word);
        let mut named = ArrayVec::new();
        let _ = named.try_extend_from_slice(word);
        self.named = named;
        self.asked = asked;
    }

    /// The line has come to its end.
    fn end_line(&mut self)
        ensures { self.new ≡ with_line self.old }
    {
        if is_skipped(self.line.as_slice()) {
            self.ask();
        } else {
            self.is_over = true;
        }
        self.line.clear();
    }

    /// Reads a byte.
    fn take(&mut self, byte: u8)
        ensures { self.new ≡ with_byte self.old byte }
    {
        if self.is_over {
            return;
        }
        if byte == b'\n' {
            self.end_line();
        } else if self.line.is_full() {
            self.asked = Asked::Other;
            self.is_over = true;
        } else {
            self.line.push(byte);
        }
    }

    /// Whether the bot has said a line that isn't skipped, so that nothing more is read.
    pub(crate) fn is_over(&self) -> bool
        ensures { result ≡ self.now.is_over }
    {
        self.is_over
    }

    /// Reads what came.
    pub(crate) fn read(&mut self, bytes: &[u8])
        ensures { self.new ≡ with_bytes self.old bytes.now }
    {
        for byte in bytes {
            self.take(*byte);
        }
    }
}
