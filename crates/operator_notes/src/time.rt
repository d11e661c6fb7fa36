ghost use Rattle.std.specs.Prelude.{Some};
ghost use Rattle.operator_notes.specs.NodeNotes.{seconds_text, time_text};

use std::fmt;

/// A time of a match file, which may have none.
///
/// It prints in seconds, with three digits behind a point where there are thousandths, and `none` where it is 0.
#[derive(Clone, Copy, Debug)]
pub(crate) struct Time {
    pub(crate) milliseconds: u32,
}

impl fmt::Display for Time {
    ghost output = { λ time. Some (time_text time.milliseconds) };

    fn fmt<W: fmt::Write>(&self, f: &mut fmt::Formatter<W>) -> fmt::Result {
        if self.milliseconds == 0 {
            return f.write_str("none");
        }
        let seconds = self.milliseconds / 1000;
        let part = self.milliseconds % 1000;
        if part == 0 {
            return write!(f, "{seconds}");
        }
        let (first, second, third) = (part / 100, part / 10 % 10, part % 10);
        write!(f, "{seconds}.{first}{second}{third}")
    }
}

/// So long something took.
///
/// It prints in seconds, with three digits behind the point; what is below a thousandth is left out.
#[derive(Clone, Copy, Debug)]
pub(crate) struct Seconds {
    pub(crate) microseconds: u64,
}

impl fmt::Display for Seconds {
    ghost output = { λ time. Some (seconds_text time.microseconds) };

    fn fmt<W: fmt::Write>(&self, f: &mut fmt::Formatter<W>) -> fmt::Result {
        let seconds = self.microseconds / 1_000_000;
        let part = self.microseconds / 1_000 % 1_000;
        let (first, second, third) = (part / 100, part / 10 % 10, part % 10);
        write!(f, "{seconds}.{first}{second}{third}")
    }
}
