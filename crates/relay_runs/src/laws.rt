//! What follows of how a relay came to where it stands: each law is the contract of a function that does nothing.

ghost use Rattle.relay_runs.specs.Course.{CoursesExplain, LinesCame};
ghost use Rattle.relay_runs.specs.Told.{AnswersCame};
ghost use Rattle.relay_runs.specs.Ending.{WholeMatchesAreWritten};

use seat_relay::laws::{answers_are_current, over_is_the_end};

/// At the end of a course, as at each of its steps, what happened to the relay's machine is what passed.
pub fn courses_explain()
    ensures { CoursesExplain }
{}

/// Each line that the bot was given stood whole in what had come over a node's connection, since the bot was taken in.
pub fn lines_came()
    ensures { LinesCame }
{}

/// Each answer that was said over a node's connection is what the bot said in a whole line since it was taken in, or where
/// answers are mended what that is mended to. When it was said, it answered the line that the bot had been given last.
pub fn answers_came()
    ensures { AnswersCame }
{
    answers_are_current();
}

/// A bot whose relay ends since the match is over has all lines of it up to the last, where over each connection to a node come
/// lines of it without a gap, and nodes say that it is over only behind the last.
pub fn whole_matches_are_written()
    ensures { WholeMatchesAreWritten }
{
    over_is_the_end();
}
