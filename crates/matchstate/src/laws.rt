//! What holds of the lines of every match: each law is the contract of a function that does nothing.

ghost use Rattle.matchstate.specs.Laws.{LinesAgree, AlikeLines};
ghost use Rattle.matchstate.specs.OneToOne.{BettingTextsAreOneToOne, CardsFieldsAreOneToOne, SeenFieldsAreOneToOne, ShownDealsAreOneToOne, DealTextsAreOneToOne};
ghost use Rattle.matchstate.specs.OneLine.{TextsAreLines, LinesAreTexts, LinesSayOneView, TextsReadBack};
ghost use Rattle.matchstate.specs.OneReading.{LinesReadOneWay, AnswersReadOneWay, ActionTextsSayOneAction, AnswersAreTexts};
ghost use Rattle.matchstate.specs.Positions.{SeatsHaveOnePosition};
ghost use Rattle.matchstate.specs.RightTexts.{TextsAreAnswers};
ghost use Rattle.matchstate.specs.Beginnings.{BeginningsAreAlike, AlikeThroughout};

use betting::laws::{allowed_without_fault, betting_texts_extend};

/// The lines of any two beginnings of one list of commands agree, for any two seats: they are of different
/// hands, or one's actions begin the other's, and so do their betting texts, and no place shows two cards.
pub fn agree()
    ensures { LinesAgree }
{
    betting_texts_extend();
}

/// Lists of commands that differ only in cards which a seat doesn't see after either of them give it the same
/// line: hole cards of others that no showdown shows, and board cards of rounds that their hand doesn't reach.
pub fn alike()
    ensures { AlikeLines }
{}

/// Legal plays of one game with one betting text are the same.
pub fn betting_texts_are_one_to_one()
    ensures { BettingTextsAreOneToOne }
{}

/// Cards for the same positions and rounds with one cards field are the same: cards in place, and cards that
/// are seen of some deal.
pub fn cards_fields_are_one_to_one()
    ensures in_place { CardsFieldsAreOneToOne }
    ensures seen { SeenFieldsAreOneToOne }
{}

/// Deals with one text are the same; where only the board of some later rounds stands in it, they have the
/// same hole cards and the same board there.
pub fn deal_texts_are_one_to_one()
    ensures whole { DealTextsAreOneToOne }
    ensures shown { ShownDealsAreOneToOne }
{}

/// A view has one line, and a line says one view: the text of what some viewer could see is a line that says
/// it, what a line says some viewer could see and the line is its text, no line says two views, and so whatever
/// the text of a view reads as is that view.
pub fn a_view_has_one_line()
    ensures text { TextsAreLines }
    ensures only { LinesAreTexts }
    ensures one { LinesSayOneView }
    ensures back { TextsReadBack }
{}

/// A text reads in one way, as one view or with one fault, and as a player's answer in one way, as one view and
/// action or with one fault; and what stands where an action is due says one action.
pub fn a_text_reads_one_way()
    ensures line { LinesReadOneWay }
    ensures answer { AnswersReadOneWay }
    ensures action { ActionTextsSayOneAction }
{}

/// The line of what some viewer could see, a colon and the text of an allowed action are an answer that says
/// them.
pub fn texts_are_answers()
    ensures { TextsAreAnswers }
{}

/// An answer has one text: the line of its view, a colon and the text of its action.
pub fn an_answer_has_one_text()
    ensures { AnswersAreTexts }
{}

/// In each hand each seat has a position, whose seat it is, and no other position is its own.
pub fn seats_have_one_position()
    ensures { SeatsHaveOnePosition }
{}

/// Beginnings of one length of lists that are alike for a seat are alike for it, and so it gets the same line
/// after each: what a seat sees of a hand only grows.
pub fn beginnings_are_alike()
    ensures alike { BeginningsAreAlike }
    ensures lines { AlikeThroughout }
{
    allowed_without_fault();
}
