//! A moment as the notes print it.

use std::fmt;

const SECOND: u64 = 1000;

const DAY: u64 = 24 * 60 * 60 * SECOND;

/// A moment in UTC, to the millisecond.
#[derive(Clone, Copy)]
pub(crate) struct Utc {
    /// The days since 1970-01-01.
    days: u64,
    /// The milliseconds since midnight.
    milliseconds: u64,
}

impl Utc {
    /// The moment so many milliseconds after the beginning of 1970.
    pub(crate) fn new(milliseconds: u64) -> Utc {
        Utc {
            days: milliseconds / DAY,
            milliseconds: milliseconds % DAY,
        }
    }
}

/// Writes it as `2026-11-26T01:02:03.456Z`.
impl fmt::Display for Utc {
    fn fmt<W: fmt::Write>(&self, f: &mut fmt::Formatter<W>) -> fmt::Result {
        let (year, day) = year_of(self.days);
        let (month, day) = month_of(year, day);
        let (seconds, milliseconds) = (self.milliseconds / SECOND, self.milliseconds % SECOND);
        let (minutes, second) = (seconds / 60, seconds % 60);
        let (hour, minute) = (minutes / 60, minutes % 60);
        let day = day.saturating_add(1);
        write!(f, "{year:04}-{month:02}-{day:02}T")?;
        write!(f, "{hour:02}:{minute:02}:{second:02}.{milliseconds:03}Z")
    }
}

/// The year of a day since 1970-01-01, and how many days of it are before.
fn year_of(days: u64) -> (u64, u64) {
    let mut left = days;
    for year in 1970..10_000 {
        let length = year_length(year);
        if left < length {
            return (year, left);
        }
        left -= length;
    }
    (9999, 364)
}

/// The month of a day of a year, from 1, and how many days of it are before; days are counted from 0.
fn month_of(year: u64, day: u64) -> (u64, u64) {
    let mut left = day;
    for month in 1..12 {
        let length = month_length(year, month);
        if left < length {
            return (month, left);
        }
        left -= length;
    }
    (12, left)
}

fn is_leap(year: u64) -> bool {
    year % 4 == 0 && (year % 100 != 0 || year % 400 == 0)
}

fn year_length(year: u64) -> u64 {
    if is_leap(year) { 366 } else { 365 }
}

fn month_length(year: u64, month: u64) -> u64 {
    match month {
        2 if is_leap(year) => 29,
        2 => 28,
        4 | 6 | 9 | 11 => 30,
        _ => 31,
    }
}
