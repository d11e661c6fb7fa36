//! The dealer's lines: what a seat may see of a match, as the ACPC protocol 2.0.0 writes it, and back from a text to
//! what it shows; and the players' answers, a line and an action. `laws` has what holds of the lines of every match.
//!
//! A dealer takes the newest hand's `BettingText` after each command (`newest`) and appends `seat_line` for each seat: it
//! lies with the hand's actions, and each line spells it where it is written. `read_current_answer` reads an answer to the
//! line that a seat has now, against the table, where both lie. So no command makes a copy of a hand's actions or betting.
//!
//! What a seat sees is a `View`, by `seat_view`; `write` appends its line, `read` reads a line back, and `read_answer`
//! a player's answer, both against the game alone: they make a view. `answer_fault` says why a text is no answer, and makes
//! none where the word and the fields aren't there. `read_betting`, `read_action`, `read_deal` and `read_shown` read parts of
//! lines, `cut` parts a text at a byte, `are_digits` says whether it has digits alone, and `put`, `put_number`, `put_cards` and
//! `betting_text` append parts.
//!
//! Calls with `reserved` in their name take no memory where there is room for the most that they append, a constant
//! beside each; no other call but those that answer a `Result` of `AllocError` takes any.
//!
//! The test `all_seats_share_one_betting_text` of `rule_tests` writes the lines of a table,
//! `lines_read_as_they_are_written`, `answers_read_as_views_and_actions` and `answers_to_the_line_of_now` read. Faults:
//! `LineFault`, 40 to 44, the first in the order that `specs/Line.antt` and `specs/Answer.antt` state.
#![tactic(auto)]

mod action_text;
mod answer;
mod betting_field;
mod bytes;
mod cards;
mod cards_field;
mod comparison;
mod current_answer;
mod cutting;
mod deal_text;
pub mod laws;
mod line;
mod line_fault;
mod line_fields;
mod number;
mod seating;
mod seen_cards;
mod sight;
mod unused_cards;
mod view;

pub use action_text::read_action;
pub use answer::{answer_fault, read_answer};
pub use betting_field::{
    BettingText, MOST_BETTING, betting_text, betting_text_reserved, read_betting,
};
pub use bytes::put;
pub use cards::put_cards;
pub use current_answer::{CurrentAnswer, read_current_answer};
pub use cutting::cut;
pub use deal_text::{read_deal, read_shown};
pub use line::{MOST_LINE, read, seat_line, seat_line_reserved, write, write_reserved};
pub use line_fault::LineFault;
pub use number::{are_digits, put_number, read_number};
pub use seating::{position_of, seat_view};
pub use view::View;
