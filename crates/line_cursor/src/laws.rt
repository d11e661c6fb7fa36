//! What holds of the places of the lines of every match: each law is the contract of a function that does nothing.

ghost use Rattle.line_cursor.specs.Past.{PastIsABeginning, BeginningsArePast};
ghost use Rattle.line_cursor.specs.Laws.{CursorsFollow, NextCursorStays};
ghost use Rattle.line_cursor.specs.Naming.{LinesNameTheirPlaces, OthersStay};
ghost use Rattle.line_cursor.specs.Telling.{CursorsTellTheLines, FirstCursorsTellABeginning};

use slot_log::laws::commands_make_hands;

/// What a match had come to when so many actions of one of its hands had been taken is what its hands were after a beginning
/// of its commands; and what its hands were after each beginning is found so.
pub fn past_is_of_beginnings()
    ensures beginning { PastIsABeginning }
    ensures found { BeginningsArePast }
{}

/// The places of a match, each of which has its line, follow one another as a cursor moves from one to the next.
pub fn cursors_follow()
    ensures { CursorsFollow }
{}

/// Where a cursor moves is the same by all tables of one match that have come to where it is.
pub fn next_cursor_stays()
    ensures { NextCursorStays }
{}

/// What a seat is told by a cursor, by tables of one match that grow, is a part of its dealer's lines without a gap, from the
/// place on at which the cursor began; from the first place on it is a beginning of them.
pub fn cursors_tell_the_lines()
    ensures part { CursorsTellTheLines }
    ensures beginning { FirstCursorsTellABeginning }
{}

/// The line of a view names its place: its hand, and how many actions it shows.
pub fn lines_name_their_places()
    ensures { LinesNameTheirPlaces }
{}

/// What is no line of a seat never becomes one, however the match goes on.
pub fn others_stay()
    ensures { OthersStay }
{
    commands_make_hands();
}
