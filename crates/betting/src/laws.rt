//! What holds of every legal play of every game: each law is the contract of a function that does nothing.

ghost use Rattle.betting.specs.Laws.{SomebodyHasTheGreatestAmount, NobodyPassesHisStack, AmountsNeverFall, HandsEnd, SomebodyMayCall, WhoActsIsLive, NobodyActsOnceOver, RaisesGoUp, AllowedWithoutFault, RoundsGoOn, ShowdownsShowAllRounds, BettingTextsExtend, SlashesStandBehindActions};

/// Some player who hasn't folded has the greatest amount in.
pub fn somebody_has_the_greatest_amount()
    ensures { SomebodyHasTheGreatestAmount }
{}

/// Nobody has more in than his stack.
pub fn nobody_passes_his_stack()
    ensures { NobodyPassesHisStack }
{}

/// What a player has in never falls.
pub fn amounts_never_fall()
    ensures { AmountsNeverFall }
{}

/// A hand has at most 256 actions.
pub fn hands_end()
    ensures { HandsEnd }
{}

/// In a hand that isn't over somebody is to act, and he may call.
pub fn somebody_may_call()
    ensures { SomebodyMayCall }
{}

/// Who is to act hasn't folded, and has chips left.
pub fn who_acts_is_live()
    ensures { WhoActsIsLive }
{}

/// Nobody is to act exactly where the hand is over.
pub fn nobody_acts_once_over()
    ensures { NobodyActsOnceOver }
{}

/// A raise goes above the greatest amount, and not above the stack of who makes it.
pub fn raises_go_up()
    ensures { RaisesGoUp }
{}

/// An action is allowed exactly where nothing is wrong with it.
pub fn allowed_without_fault()
    ensures { AllowedWithoutFault }
{}

/// Rounds begin one after another and none again, up to the fourth.
pub fn rounds_go_on()
    ensures { RoundsGoOn }
{}

/// Where a hand is over and two or more players haven't folded, all rounds are shown.
pub fn showdowns_show_all_rounds()
    ensures { ShowdownsShowAllRounds }
{}

/// The betting text of a beginning of a hand begins that of the hand.
pub fn betting_texts_extend()
    ensures { BettingTextsExtend }
{}

/// The slashes behind each action, oldest first, are those that it causes after the actions before it.
pub fn slashes_stand_behind_actions()
    ensures { SlashesStandBehindActions }
{}
