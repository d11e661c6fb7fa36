//! A kept log, as far as it counts, and whether another log goes on as it does.

ghost use Rattle.std.specs.Prelude.{◌≡◌, ◌⊎◌, ◌↔◌, ℕ, List, ◌++◌, ◌∷◌, codes, true, false, IsTrue, IfSome, IsNone};
ghost use Rattle.operator_notes.specs.LogNames.{StandsIn};
ghost use Rattle.node_runs.specs.KeptLogs.{BeginsWell, ArePrintable, IsLogLine, IsCounted, GoesOn};

use matchstate::cut;
use operator_notes::stands_in;

/// What is still to come of a kept log that another log is compared with.
#[derive(Clone, Copy, Debug)]
pub struct KeptLog<'a> {
    rest: &'a [u8],
}

impl<'a> KeptLog<'a> {
    /// All of a kept log that counts: its whole lines as far as each is a header, the line of a hand or the score, of printable
    /// characters alone. What a crash of the machine cut off, or filled with zeros, doesn't count.
    pub fn new(kept: &'a [u8]) -> KeptLog<'a>
        ensures { IsCounted result.rest.now kept.now }
    {
        let mut behind = kept;
        while let Some(more) = after_line(behind) {
            behind = more;
        }
        let (rest, _) = kept.split_at(kept.len() - behind.len());
        KeptLog { rest }
    }

    /// Whether the other log may have this text next: one of it and what is still to come begins with the other. Then it
    /// has it; else nothing changes.
    pub(crate) fn goes_on(&mut self, text: &[u8]) -> bool
        ensures goes { result ≡ true → GoesOn text.now self.old.rest.now self.new.rest.now }
        ensures differs { result ≡ false → (self.new ≡ self.old) × ¬ (StandsIn text.now self.old.rest.now) × ¬ (StandsIn self.old.rest.now text.now) }
    {
        if stands_in(text, self.rest) {
            let (_, rest) = self.rest.split_at(text.len());
            self.rest = rest;
            return true;
        }
        if stands_in(self.rest, text) {
            self.rest = &[];
            return true;
        }
        false
    }

    /// How many whole lines a text that differs has before it does.
    pub(crate) fn count_same_lines(&self, text: &[u8]) -> u32 {
        let mut count: u32 = 0;
        for (kept, byte) in self.rest.iter().zip(text) {
            if kept != byte {
                return count;
            }
            if *byte == b'\n' {
                count = count.saturating_add(1);
            }
        }
        count
    }
}

/// What stands behind a whole line of a log; none where no such line stands in front.
fn after_line(text: &[u8]) -> Option<&[u8]>
    ensures found { IfSome result (λ behind. (line : List ℕ) × IsLogLine line × (text.now ≡ line ++ 10 ∷ behind.now)) }
    ensures none { IsNone result → (line behind : List ℕ) → IsLogLine line → ¬ (text.now ≡ line ++ 10 ∷ behind) }
{
    match cut(text, b'\n') {
        Some((line, behind)) if is_log_line(line) => Some(behind),
        _ => None,
    }
}

/// Whether a line, without its line feed, begins as a header, the line of a hand or the score, and has printable characters
/// alone.
fn is_log_line(line: &[u8]) -> bool
    ensures { IsTrue result ↔ IsLogLine line.now }
{
    begins_well(line) && is_printable(line)
}

/// Whether a line has printable ASCII characters alone, the space among them.
fn is_printable(line: &[u8]) -> bool
    ensures { IsTrue result ↔ ArePrintable line.now }
{
    line.iter().all(|byte| 32 <= *byte && *byte <= 126)
}

/// Whether a line begins as a header, the line of a hand or the score.
fn begins_well(line: &[u8]) -> bool
    ensures { IsTrue result ↔ BeginsWell line.now }
{
    stands_in(b"# name/game/hands ", line)
        || stands_in(b"STATE:", line)
        || stands_in(b"SCORE:", line)
}
